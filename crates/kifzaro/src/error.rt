//! Why a call gives nothing.

ghost use Rattle.std.specs.Prelude.{◌≡◌};
ghost use Rattle.kifzaro.specs.Errors.{of_keys, of_submit};
ghost use Rattle.kifzaro.specs.declared.error.Error.TheVariants as errors;

use auth_keys::KeyFault;
use client_core::SubmitFault;
use envelope::Refusal;
use octets::Memory;
use thiserror::Error as Failure;

/// Why a call gives nothing. Unless the call says otherwise, what it was called on is as it was.
#[derive(Clone, Copy, Debug, PartialEq, Eq, Failure)]
pub enum Error {
    /// Memory ran out.
    #[error("out of memory")]
    Memory,
    /// The text isn't a key file: why.
    #[error("{0}")]
    Keys(KeyFault),
    /// The text of a key file has 2^32 bytes or more.
    #[error("a key file can't have {len} bytes")]
    LongKeys {
        /// Its length in bytes.
        len: usize,
    },
    /// The ring has no such key.
    #[error("the ring has no key {key:016x}")]
    NoKey {
        /// Its identifier.
        key: u64,
    },
    /// The key has to be permanent, and isn't.
    #[error("the key {key:016x} isn't permanent")]
    NotPermanent {
        /// Its identifier.
        key: u64,
    },
    /// The key has to be temporary, and isn't.
    #[error("the key {key:016x} isn't temporary")]
    NotTemporary {
        /// Its identifier.
        key: u64,
    },
    /// The call isn't taken: why.
    #[error("{0}")]
    Submit(SubmitFault),
    /// The client has ended.
    #[error("the client has ended")]
    Ended,
    /// The client isn't open: it has learnt nothing of its session, or has ended.
    #[error("the client isn't open")]
    NotOpen,
    /// The client has no such call.
    #[error("there is no such call")]
    NoCall,
    /// The call isn't sent.
    #[error("the call isn't sent")]
    NotSent,
    /// The call has no reply, or not yet.
    #[error("the call has no reply")]
    NoReply,
    /// Something is to be sent, and there may not be numbers for it.
    #[error("there may be too few numbers left")]
    Spent,
    /// The room is too short.
    #[error("room for {needed} bytes is needed")]
    TooShort {
        /// How many bytes are needed.
        needed: usize,
    },
    /// The packet doesn't open: why. Only the moment has changed.
    #[error("{0}")]
    Refused(Refusal),
    /// A request that was handed out waits for its answer.
    #[error("a request waits for its answer")]
    Busy,
    /// No request was handed out.
    #[error("no request waits for an answer")]
    NotAsked,
    /// A reply isn't whole words of 4 bytes, or has more than 262,144 bytes.
    #[error("a reply can't have {len} bytes")]
    BadReply {
        /// Its length in bytes.
        len: usize,
    },
}

impl From<Memory> for Error {
    ghost from_gives = { λ _ error. error ≡ errors.Memory };

    fn from(_memory: Memory) -> Error {
        Error::Memory
    }
}

impl From<SubmitFault> for Error {
    ghost from_gives = { λ fault error. error ≡ of_submit fault };

    fn from(fault: SubmitFault) -> Error {
        match fault {
            SubmitFault::Memory => Error::Memory,
            fault => Error::Submit(fault),
        }
    }
}

impl From<KeyFault> for Error {
    ghost from_gives = { λ fault error. error ≡ of_keys fault };

    fn from(fault: KeyFault) -> Error {
        match fault {
            KeyFault::Memory => Error::Memory,
            fault => Error::Keys(fault),
        }
    }
}
