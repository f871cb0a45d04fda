//! The message key of a packet, and the AES key and initialisation vector that a packet is enciphered
//! with (core.telegram.org/mtproto/description). Both come from the authorisation key by SHA-256. No
//! call takes memory.
#![tactic(auto)]

mod derivation;
pub mod laws;

pub use crate::derivation::{DOWN, UP, aes_of, key_and_iv_of, msg_key};
