//! What a call answers.

ghost use Rattle.std.specs.Prelude.{◌≡◌, ℕ, Err, IfOk, OnErr};
ghost use Rattle.kifzaro.specs.declared.error.Error.TheVariants as errors;
ghost use Rattle.kifzaro_c.specs.Statuses.{of_error, of_refusal, of_submit, status_of};

use kifzaro::{Error, Refusal, SubmitFault};

/// It is done.
pub(crate) const OK: u32 = 0;
/// Memory ran out.
pub(crate) const MEMORY: u32 = 1;
// 2, a pointer is null, is told by what stands in front of this library.
/// The handle is none of the right kind.
pub(crate) const NO_HANDLE: u32 = 3;
/// The room is too short.
pub(crate) const TOO_SHORT: u32 = 4;
/// The text isn't a key file.
pub(crate) const BAD_KEYS: u32 = 5;
/// The ring has no such key.
pub(crate) const NO_KEY: u32 = 6;
/// A seed hasn't 32 bytes.
pub(crate) const BAD_SEED: u32 = 7;
/// The body of a call isn't taken.
pub(crate) const BAD_BODY: u32 = 8;
/// There is no such call.
pub(crate) const NO_CALL: u32 = 9;
/// The client has as many calls as it may have.
pub(crate) const TOO_MANY: u32 = 10;
/// The client has ended.
pub(crate) const ENDED: u32 = 11;
/// The client isn't open.
pub(crate) const NOT_OPEN: u32 = 12;
/// The call isn't sent.
pub(crate) const NOT_SENT: u32 = 13;
/// The call has no reply.
pub(crate) const NO_REPLY: u32 = 14;
/// There may be too few numbers left.
pub(crate) const SPENT: u32 = 15;
/// A request waits for its answer.
pub(crate) const BUSY: u32 = 16;
/// No request was handed out.
pub(crate) const NOT_ASKED: u32 = 17;
/// A reply isn't whole words, or is too long.
pub(crate) const BAD_REPLY: u32 = 18;
/// The packet doesn't open: its size.
pub(crate) const REFUSED_SIZE: u32 = 19;
/// The packet doesn't open: no key is good.
pub(crate) const REFUSED_KEY: u32 = 20;
/// The packet doesn't open: its message key.
pub(crate) const REFUSED_MESSAGE_KEY: u32 = 21;
/// The packet doesn't open: the length of its body.
pub(crate) const REFUSED_LENGTH: u32 = 22;
/// The packet doesn't open: its padding.
pub(crate) const REFUSED_PADDING: u32 = 23;

/// The status of an error.
pub(crate) fn of(error: Error) -> u32
    ensures { result ≡ of_error error }
{
    match error {
        Error::Memory => MEMORY,
        Error::Keys(_) | Error::LongKeys { .. } => BAD_KEYS,
        Error::NoKey { .. } | Error::NotPermanent { .. } | Error::NotTemporary { .. } => NO_KEY,
        Error::Submit(fault) => of_submit(fault),
        Error::Ended => ENDED,
        Error::NotOpen => NOT_OPEN,
        Error::NoCall => NO_CALL,
        Error::NotSent => NOT_SENT,
        Error::NoReply => NO_REPLY,
        Error::Spent => SPENT,
        Error::TooShort { .. } => TOO_SHORT,
        Error::Refused(refusal) => of_refusal(refusal),
        Error::Busy => BUSY,
        Error::NotAsked => NOT_ASKED,
        Error::BadReply { .. } => BAD_REPLY,
    }
}

fn of_submit(fault: SubmitFault) -> u32
    ensures { result ≡ of_submit fault }
{
    match fault {
        SubmitFault::TooLong { .. }
        | SubmitFault::NotWords { .. }
        | SubmitFault::ServiceTag { .. } => BAD_BODY,
        SubmitFault::NoSuchCall => NO_CALL,
        SubmitFault::TooMany => TOO_MANY,
        SubmitFault::Memory => MEMORY,
    }
}

fn of_refusal(refusal: Refusal) -> u32
    ensures { result ≡ of_refusal refusal }
{
    match refusal {
        Refusal::Size { .. } => REFUSED_SIZE,
        Refusal::NoKey { .. } => REFUSED_KEY,
        Refusal::KeyMismatch { .. } => REFUSED_MESSAGE_KEY,
        Refusal::Length { .. } => REFUSED_LENGTH,
        Refusal::Padding { .. } => REFUSED_PADDING,
    }
}

/// The status of a call that gives nothing else.
pub(crate) fn told(given: Result<(), Error>) -> u32
    ensures { result ≡ status_of given }
{
    match given {
        Ok(()) => OK,
        Err(error) => of(error),
    }
}

/// Writes a number where there is one, and tells the status.
pub(crate) fn tell(given: Result<u64, Error>, out: &mut u64) -> u32
    ensures status { result ≡ status_of given }
    ensures written { IfOk given (λ number. out.new ≡ number) }
    ensures unwritten { OnErr given (out.new ≡ out.old) }
{
    match given {
        Ok(number) => {
            *out = number;
            OK
        }
        Err(error) => of(error),
    }
}

/// Writes how many bytes were put into room, or how many it needs, and tells the status.
pub(crate) fn told_len(given: Result<usize, Error>, len: &mut u64) -> u32
    ensures status { result ≡ status_of given }
    ensures written { IfOk given (λ count. len.new ≡ count) }
    ensures needed { (needed : ℕ) → given ≡ Err (errors.TooShort needed) → len.new ≡ needed }
{
    match given {
        Ok(count) => {
            *len = count as u64;
            OK
        }
        Err(Error::TooShort { needed }) => {
            *len = needed as u64;
            TOO_SHORT
        }
        Err(error) => of(error),
    }
}
