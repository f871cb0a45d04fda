//! The intermediate framing and the padded one (core.telegram.org/mtproto/mtproto-transports#intermediate and
//! #padded-intermediate): a packet behind its length in bytes, and maybe padding. `Framer` writes frames, `Deframer`
//! reads them from a stream that comes in pieces. Contracts stand on `form_of` of `specs/Lengths.antt` and on the
//! streams of `framing`.
#![tactic(auto)]

mod deframer;
mod framer;
pub mod laws;
mod lengths;

pub use deframer::Deframer;
pub use framer::Framer;
pub use framing::{FrameFault, Next};
pub use lengths::LengthForm;
