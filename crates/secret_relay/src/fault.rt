//! Why a relay doesn't go on.

ghost use Rattle.std.specs.Prelude.{◌≡◌};
ghost use Rattle.secret_relay.specs.declared.fault.RelayFault.TheVariants as faults;

use octets::Memory;
use thiserror::Error;
use tl_codec::FrameFault;

/// Why a relay doesn't take a piece of a connection.
#[derive(Clone, Copy, Debug, PartialEq, Eq, Error)]
pub enum RelayFault {
    /// Bytes of the server's came before the first 64 of the client's.
    #[error("the server spoke before the client had sent its first 64 bytes")]
    Early,
    /// The client's first 64 bytes carry no tag under the secret.
    #[error("no framing has the tag {:08x}", u32::from_be_bytes(*.found))]
    Start {
        /// Bytes 56 to 59, deciphered.
        found: [u8; 4],
    },
    /// A side's stream has bytes that begin no frame.
    #[error("{0}")]
    Frame(FrameFault),
    /// A packet of so many bytes, which the padded form doesn't carry.
    #[error("the padded form carries no packet of {len} bytes")]
    Length {
        /// The bytes of the packet.
        len: usize,
    },
    /// Memory ran out.
    #[error("out of memory")]
    Memory,
}

impl From<Memory> for RelayFault {
    ghost from_gives = { λ _ fault. fault ≡ faults.Memory };

    fn from(_memory: Memory) -> RelayFault {
        RelayFault::Memory
    }
}
