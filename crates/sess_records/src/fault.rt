//! Why a journal isn't opened.

use std::error::Error;
use std::fmt;

/// Why a journal isn't opened.
#[derive(Clone, Copy, Debug, PartialEq, Eq)]
pub enum JournalFault {
    /// A call of the disk failed.
    Disk,
    /// The file is no journal.
    NotJournal {
        /// The first place, from 0, where neither a header nor a lawful record stands.
        at: u64,
    },
    /// Memory ran out.
    Memory,
}

impl fmt::Display for JournalFault {
    fn fmt<W: fmt::Write>(&self, f: &mut fmt::Formatter<W>) -> fmt::Result {
        match self {
            JournalFault::Disk => write!(f, "a call of the disk failed"),
            JournalFault::NotJournal { at } => write!(f, "no journal from byte {at} on"),
            JournalFault::Memory => write!(f, "out of memory"),
        }
    }
}

impl Error for JournalFault {}

impl From<octets::Memory> for JournalFault {
    ghost use Rattle.std.specs.Prelude.{◌≡◌};
    ghost use Rattle.sess_records.specs.declared.fault.JournalFault.TheVariants.{Memory};

    ghost from_gives = { λ _ fault. fault ≡ Memory };

    fn from(_memory: octets::Memory) -> JournalFault {
        JournalFault::Memory
    }
}
