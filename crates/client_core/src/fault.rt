//! Why a call isn't taken.

use thiserror::Error;

/// Why a call isn't submitted: the first of these that holds. The client is as it was.
#[derive(Clone, Copy, Debug, PartialEq, Eq, Error)]
pub enum SubmitFault {
    /// The body has more than 262,144 bytes.
    #[error("the body has {len} bytes, which is too long")]
    TooLong {
        /// Its length in bytes.
        len: usize,
    },
    /// The body isn't whole words of 4 bytes.
    #[error("the body has {len} bytes, which isn't a multiple of 4")]
    NotWords {
        /// Its length in bytes.
        len: usize,
    },
    /// The body begins with a constructor of the session layer other than `gzip_packed`.
    #[error("the body begins with the session layer's constructor {tag:08x}")]
    ServiceTag {
        /// The constructor.
        tag: u32,
    },
    /// It is to execute after a call that the client doesn't have.
    #[error("there is no such earlier call")]
    NoSuchCall,
    /// The client has 65,536 calls.
    #[error("there are too many calls")]
    TooMany,
    /// Memory ran out.
    #[error("memory ran out")]
    Memory,
}

/// The call isn't `Sent`, so that there is no answer to drop.
#[derive(Clone, Copy, Debug, PartialEq, Eq, Error)]
#[error("the call isn't sent")]
pub struct NotSent;
