//! A captured connection that is obfuscated with the secret of a proxy, turned into one in plain framing
//! (core.telegram.org/mtproto/mtproto-transports#transport-obfuscation). A `Relay` takes the bytes of both sides in pieces,
//! cut and mixed in any way, and writes the packets in them for the other side. Contracts stand on `Relayed`
//! (specs/Stories.antt), which speaks of all bytes of a connection so far, and on `Stands` (specs/Standing.antt).
#![tactic(auto)]

mod fault;
mod first;
mod frames;
pub mod laws;
mod link;
mod look;
mod passing;
mod phase;
mod relay;

pub use fault::RelayFault;
pub use relay::Relay;
pub use tl_codec::FrameFault;
pub use transport::Form;
