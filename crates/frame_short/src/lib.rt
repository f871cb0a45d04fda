//! The abridged framing (core.telegram.org/mtproto/mtproto-transports#abridged): a packet behind its length in words
//! of 4 bytes. `Framer` writes frames, `Deframer` reads them from a stream that comes in pieces. Contracts stand on
//! `abridged` of `specs/Abridged.antt` and on the streams of `framing`.
#![tactic(auto)]

mod abridged;
mod deframer;
mod framer;
pub mod laws;

pub use abridged::AbridgedForm;
pub use deframer::Deframer;
pub use framer::Framer;
pub use framing::{FrameFault, Next};
