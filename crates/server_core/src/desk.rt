//! What a server tells those that bring it packets.

ghost use Rattle.std.specs.Prelude.{◌≡◌};
ghost use Rattle.server_core.specs.declared.desk.DeskFault.TheVariants as faults;

use envelope::Refusal;
use octets::Memory;
use server_dispatch::Entries;
use server_output::Outs;
use thiserror::Error;

/// What a server heard of a packet.
#[derive(Clone, Copy, Debug, PartialEq, Eq)]
pub enum Heard {
    /// The packet doesn't open, for this cause.
    NotOpened(Refusal),
    /// It opens, and this session judged its messages.
    Judged {
        /// The identifier of the session's key.
        key: u64,
        /// The session's number.
        session: u64,
    },
}

/// What a packet gives.
#[derive(Debug, Drop)]
pub struct Reply {
    /// What the server heard.
    pub heard: Heard,
    /// The packets that go out, in order.
    pub out: Outs,
    /// The answers to calls of the service, in order.
    pub entries: Entries,
}

/// Why a call of a desk gives nothing.
#[derive(Clone, Copy, Debug, PartialEq, Eq, Error)]
pub enum DeskFault {
    /// An earlier call came to a fault of the disk; nothing is done any more.
    #[error("the journal is closed")]
    Closed,
    /// What this call writes would make the journal longer than it may be: nothing is done, and the desk stands for what it stood
    /// for.
    #[error("the journal is full with {len} bytes")]
    Full {
        /// Its length in bytes.
        len: u64,
    },
    /// The disk failed; a desk says itself what is known of it then.
    #[error("the disk failed")]
    Disk,
    /// Memory ran out: the desk stands for what it stood for.
    #[error("out of memory")]
    Memory,
}

impl From<Memory> for DeskFault {
    ghost from_gives = { λ _ fault. fault ≡ faults.Memory };

    fn from(_memory: Memory) -> DeskFault {
        DeskFault::Memory
    }
}
