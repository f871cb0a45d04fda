//! The reads of a link.

use crate::source::Got;

/// A read of a link: the length in bytes of the buffer that it was offered, and its answer.
#[derive(Clone, Copy, Debug, PartialEq, Eq)]
pub struct LinkRead {
    /// The length of the buffer, in bytes.
    pub room: usize,
    /// The answer.
    pub answer: Got,
}
