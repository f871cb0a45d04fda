//! Why a text is no ring.

ghost use Rattle.std.specs.Prelude.{◌≡◌};
ghost use Rattle.auth_keys.specs.declared.fault.KeyFault.TheVariants as faults;

use octets::Memory;
use thiserror::Error;

/// Why a key file can't be read. Lines count from 1, those that are left out among them.
#[derive(Clone, Copy, Debug, PartialEq, Eq, Error)]
pub enum KeyFault {
    /// The line is neither a key nor left out.
    #[error("line {line} is no key")]
    BadLine {
        /// The line's number.
        line: u32,
    },
    /// The line has the 65th key.
    #[error("line {line} is a key too many")]
    TooMany {
        /// The line's number.
        line: u32,
    },
    /// The line's key has the identifier of a key before it.
    #[error("the key of line {line} has the identifier of that of line {first_line}")]
    SameId {
        /// The line's number.
        line: u32,
        /// The number of the line of the key before it.
        first_line: u32,
    },
    /// Memory ran out.
    #[error("out of memory")]
    Memory,
}

impl From<Memory> for KeyFault {
    ghost from_gives = { λ _ fault. fault ≡ faults.Memory };

    fn from(_memory: Memory) -> KeyFault {
        KeyFault::Memory
    }
}
