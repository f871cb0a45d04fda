//! The obfuscation of a connection (core.telegram.org/mtproto/mtproto-transports#transport-obfuscation), with and without
//! the secret of a proxy. `Init` is a client's start: 64 bytes, and the key streams of both directions. `Pair` is what a
//! server reads of them. Contracts stand on `start_of` (specs/Starts.antt), `up_stream`, `down_stream` and `ciphered`
//! (specs/Streams.antt) and `Reads` (specs/Reads.antt). No call takes memory.
#![tactic(auto)]

mod fault;
mod init;
pub mod laws;
mod start;
mod streams;
mod tag;

pub use fault::ObfusFault;
pub use init::{Init, Pair};
pub use start::START_BYTES;
pub use tag::Tag;
