//! Why a packet doesn't open.

use thiserror::Error;

/// Why a packet doesn't open (core.telegram.org/mtproto/security_guidelines, "MTProto Encrypted Messages"): the first
/// of these cases that holds.
#[derive(Clone, Copy, Debug, PartialEq, Eq, Error)]
pub enum Refusal {
    /// The packet has fewer than 72 or more than 1,048,576 bytes, or its text isn't whole blocks of 16 bytes.
    #[error("a packet has no {len} bytes")]
    Size {
        /// The packet's length in bytes.
        len: usize,
    },
    /// No key that is permanent or expires later has the identifier.
    #[error("no key {id:016x} is good")]
    NoKey {
        /// The identifier of the key.
        id: u64,
    },
    /// The message key of the plain text isn't the packet's.
    #[error("the message key isn't that of the text")]
    KeyMismatch {
        /// The packet's message key.
        said: [u8; 16],
        /// The message key of the plain text.
        found: [u8; 16],
    },
    /// The body's length isn't a multiple of 4, or is more than what stands behind the head.
    #[error("no body has the length {said}")]
    Length {
        /// The length as the plain text says it.
        said: u32,
    },
    /// The padding behind the body has fewer than 12 or more than 1,024 bytes.
    #[error("{bytes} bytes of padding stand behind the body")]
    Padding {
        /// How many bytes stand there.
        bytes: usize,
    },
}
