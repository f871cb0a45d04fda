//! What a file is asked for.

use octets::Octets;
use std::fmt;

/// A change that a file was asked for, or a sync. Its text by `Debug` has no byte of the file.
#[derive(Drop)]
pub enum DiskAct {
    /// A write.
    Write {
        /// The place of its first byte, from 0.
        at: u64,
        /// How many bytes it has.
        count: usize,
    },
    /// A cut to a length.
    Cut {
        /// The length, in bytes.
        len: u64,
    },
    /// A sync that was done.
    Sync {
        /// What a read gave then.
        contents: Octets,
    },
}

impl fmt::Debug for DiskAct {
    /// Places and lengths alone: a journal has its seed among its bytes.
    fn fmt<W: fmt::Write>(&self, f: &mut fmt::Formatter<W>) -> fmt::Result {
        match self {
            DiskAct::Write { at, count } => f
                .debug_struct("Write")
                .field("at", at)
                .field("count", count)
                .finish(),
            DiskAct::Cut { len } => f.debug_struct("Cut").field("len", len).finish(),
            DiskAct::Sync { contents } => f
                .debug_struct("Sync")
                .field("len", &contents.as_slice().len())
                .finish_non_exhaustive(),
        }
    }
}
