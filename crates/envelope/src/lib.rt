//! Sealed packets of MTProto 2.0 (core.telegram.org/mtproto/description): an envelope is sealed under a key of a
//! ring for one direction, and a packet opens to the one envelope that it is the packet of, or to none. `Seal` has
//! what every seal promises; `MtSeal` is that of the protocol, `ClearSeal` one without a cipher for tests.
#![tactic(auto)]

mod cipher;
pub mod laws;
mod limits;
mod opening;
mod parts;
mod refusal;
mod seal;
mod sealing;

pub use limits::{
    BODY_BYTES_MAX, PACKET_BYTES_MAX, PACKET_BYTES_MIN, PADDING_BYTES_MAX, PADDING_BYTES_MIN,
    SEALED_HEAD_BYTES, packet_bytes,
};
pub use parts::{Dir, Envelope, Head, Opened};
pub use refusal::Refusal;
pub use seal::{ClearSeal, MtSeal, Seal};
