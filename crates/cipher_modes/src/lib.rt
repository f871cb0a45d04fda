//! Two modes of AES-256: infinite garble extension (core.telegram.org/mtproto/description), which
//! the envelope of a message uses, and counter mode (NIST SP 800-38A, 6.5), which an obfuscated
//! stream uses. Both work in place, and no call takes memory.
#![tactic(auto)]

mod block;
mod ctr;
mod ige;
pub mod laws;

pub use crate::ctr::Ctr;
pub use crate::ige::{ige_decrypt, ige_encrypt};
