//! Authorisation keys, and rings of them that are read from the text of a key file
//! (core.telegram.org/mtproto/description, "Authorization Key", and core.telegram.org/api/pfs).
//!
//! Contracts see an `AuthKey` as its 256 bytes and a `Ring` as the list of its keys, each with its kind. What a text's
//! ring is, and what its fault, stands in `specs/KeyFile.antt`.
#![tactic(auto)]

mod fault;
mod key;
pub mod laws;
mod reading;
mod ring;

pub use fault::KeyFault;
pub use key::{AuthKey, KeyKind};
pub use ring::{RING_KEYS_MAX, Ring, RingKey};
