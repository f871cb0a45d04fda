//! The length of a file.

/// The answer of a call for the length.
#[derive(Clone, Copy, Debug, PartialEq, Eq)]
pub enum DiskLen {
    /// The length, in bytes.
    Len(u64),
    /// The call failed.
    Failed,
}
