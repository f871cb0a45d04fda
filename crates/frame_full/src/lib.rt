//! The full framing (core.telegram.org/mtproto/mtproto-transports#full): a packet behind its frame's length and number,
//! and before the check of all that. `Framer` writes frames, `Deframer` reads them from a stream that comes in pieces.
//! Contracts stand on `full` of `specs/Full.antt` and on the streams of `framing`.
#![tactic(auto)]

mod deframer;
mod framer;
mod full;
pub mod laws;

pub use deframer::Deframer;
pub use framer::Framer;
pub use framing::{FrameFault, Next};
pub use full::FullForm;
