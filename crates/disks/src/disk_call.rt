//! What a file was called for.

/// A call of a file, whatever it came to.
#[derive(Clone, Copy, Debug, PartialEq, Eq)]
pub enum DiskCall {
    /// A call for the length.
    Len,
    /// A read.
    Read {
        /// The place of its first byte, from 0.
        at: u64,
        /// How many bytes it has.
        count: usize,
    },
    /// A write.
    Write {
        /// The place of its first byte, from 0.
        at: u64,
        /// How many bytes it has.
        count: usize,
    },
    /// A cut to a length.
    Cut {
        /// The length, in bytes.
        len: u64,
    },
    /// A sync.
    Sync,
}
