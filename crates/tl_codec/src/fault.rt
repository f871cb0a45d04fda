//! Why bytes can't be read.

ghost use Rattle.std.specs.Prelude.{◌≡◌};
ghost use Rattle.tl_codec.specs.declared.fault.TlFault.TheVariants as faults;

use octets::Memory;
use thiserror::Error;

/// Why a read of a TL value failed. The reader is as it was before that read.
#[derive(Clone, Copy, Debug, PartialEq, Eq, Error)]
pub enum TlFault {
    /// Fewer bytes are left than the field takes. For a string `need` is its whole size with padding
    /// once its length is known, else 4; in a list it is the size of the field that is cut.
    #[error("{need} bytes are needed and {have} are left")]
    Short {
        /// The field's size in bytes.
        need: usize,
        /// The bytes that are left for it.
        have: usize,
    },
    /// Another constructor stands in the place, or the byte `ff`, which begins no string.
    #[error("constructor {found:08x} is another than the one that is due")]
    BadTag {
        /// What stands there.
        found: u32,
    },
    /// A list of numbers claims more than 8,192 of them.
    #[error("a list of {count} numbers is too long")]
    TooMany {
        /// The count that it claims.
        count: u32,
    },
    /// Bytes stand after the end.
    #[error("{bytes} bytes stand after the end")]
    Extra {
        /// How many.
        bytes: usize,
    },
    /// Memory ran out.
    #[error("out of memory")]
    Memory,
}

impl From<Memory> for TlFault {
    ghost from_gives = { λ _ fault. fault ≡ faults.Memory };

    fn from(_memory: Memory) -> TlFault {
        TlFault::Memory
    }
}

/// Why a frame of a transport can't be read (core.telegram.org/mtproto/mtproto-transports). Each frame
/// crate says when each fault comes.
#[derive(Clone, Copy, Debug, PartialEq, Eq, Error)]
pub enum FrameFault {
    /// The payload would be longer than a packet may be.
    #[error("a payload of {len} bytes is too long")]
    TooLong {
        /// The length as it was read, in bytes.
        len: u32,
    },
    /// The length field has a value that no frame has.
    #[error("no frame has the length {len}")]
    BadLength {
        /// The field as it was read.
        len: u32,
    },
    /// The check sum isn't that of the frame.
    #[error("the check sum is {said:08x} where the frame has {found:08x}")]
    Sum {
        /// The sum that the frame carries.
        said: u32,
        /// The sum of its bytes.
        found: u32,
    },
    /// The frame's count isn't the next one.
    #[error("the frame's count is {said} where {want} was due")]
    Count {
        /// The count that the frame carries.
        said: u32,
        /// The count that was due.
        want: u32,
    },
}
