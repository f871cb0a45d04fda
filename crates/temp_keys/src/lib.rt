//! Binding messages, by which a client shows that a temporary key is its own
//! (core.telegram.org/api/pfs and core.telegram.org/method/auth.bindTempAuthKey).
//!
//! `bind_message` makes one, sealed under the permanent key as in MTProto 1.0, and `check` says what a binding call
//! binds. The definition in `specs/Messages.antt` seals and compares; the code deciphers.
#![tactic(auto)]

mod below;
mod binding;
mod checking;
mod derivation;
mod fault;
pub mod laws;
mod message;
mod plain;

pub use binding::{Binding, Bound, Inner};
pub use checking::check;
pub use fault::{BindFault, InnerField};
pub use message::{BIND_AUTH_KEY_INNER, MESSAGE_BYTES, bind_message, bind_message_in};
