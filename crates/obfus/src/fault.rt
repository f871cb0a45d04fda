//! Why the bytes of a connection aren't read.

use thiserror::Error;

/// Why 64 bytes start no obfuscated connection.
#[derive(Clone, Copy, Debug, PartialEq, Eq, Error)]
pub enum ObfusFault {
    /// The bytes carry none of the three tags.
    #[error("no framing has the tag {:08x}", u32::from_be_bytes(*.found))]
    Tag {
        /// Bytes 56 to 59, deciphered.
        found: [u8; 4],
    },
}
