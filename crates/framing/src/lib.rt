//! What every framing of packets in a stream of bytes shares (core.telegram.org/mtproto/mtproto-transports): what
//! a form is, what a stream of its frames is, and the buffer of a stream that comes in pieces.
#![tactic(auto)]

mod form;
mod incoming;
pub mod laws;
mod look;
mod next;
mod passage;

pub use form::{Framing, Length, PAYLOAD_MAX, Span};
pub use incoming::Incoming;
pub use next::Next;
pub use passage::Passage;
pub use tl_codec::FrameFault;
