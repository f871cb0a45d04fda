//! Bytes that are kept many times over, of which most are few: up to 30 stand in place, and only more take memory of their
//! own. A `Short` has these few; `KeptBytes` are a `Short` or `Octets`. Contracts see both as lists.
#![tactic(auto)]

mod kept;
mod short;

pub use kept::KeptBytes;
pub use short::{SHORT_BYTES_MAX, Short};
