//! Bytes and numbers that own their memory, and the one failure that every layer shares. Contracts see
//! `Octets` and `IdList` as lists; a `Buffer` is a list and the room that was taken for what comes.
//! `specs/Bytes.antt` has the words that each crate above uses for lists of bytes.
#![tactic(auto)]

mod buffer;
mod ids;
pub mod laws;
mod memory;
mod octets;

pub use buffer::Buffer;
pub use ids::IdList;
pub use memory::Memory;
pub use octets::Octets;
