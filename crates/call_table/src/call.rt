//! What is told of a call, and what may become of it.

use octets::Octets;

/// A call of a table: its place there, counted from 1.
#[derive(Clone, Copy, Debug, PartialEq, Eq)]
pub struct CallNo {
    /// The place.
    pub n: u64,
}

/// Why it isn't known what became of a call.
#[derive(Clone, Copy, Debug, PartialEq, Eq)]
pub enum Cause {
    /// The server lost the session in which the call was sent.
    Session,
    /// The client went on in another session.
    Renewed,
    /// The client ended.
    Ended,
    /// The server had forgotten the number of the call.
    Forgotten,
}

/// What became of a call.
#[derive(Clone, Copy, Debug, PartialEq, Eq)]
pub enum CallState<'a> {
    /// It has no living number, and waits to be sent.
    Queued,
    /// It was sent under its living number, and is outstanding.
    Sent,
    /// Its number was refused as too high, and it waits for another session.
    Held,
    /// It was answered with these bytes.
    Done(&'a [u8]),
    /// It never executes: it was refused with this code, 0 where the client itself gave it up.
    Refused(u32),
    /// It isn't known whether it executed.
    Unknown(Cause),
}

/// The message of a call that is outstanding, as it went.
#[derive(Clone, Copy, Debug, PartialEq, Eq)]
pub struct Living {
    /// Its message identifier.
    pub number: u64,
    /// Its sequence number.
    pub seq: u32,
    /// The message identifier inside `invokeAfterMsg`, where it went so.
    pub wrap: Option<u64>,
}

/// Under which salts a message was sent.
#[derive(Clone, Copy, Debug, PartialEq, Eq)]
pub enum Under {
    /// Under salt 0 alone.
    Zero,
    /// Under this salt, and no other but 0.
    One(u64),
    /// Under more than one salt that isn't 0.
    More,
}

/// What becomes of a call that isn't decided yet.
#[derive(Debug, Drop)]
pub enum Fate {
    /// It is to be sent under a new number.
    Queue,
    /// It waits for another session.
    Hold,
    /// It was answered with these bytes.
    Done(Octets),
    /// It never executes, with this code.
    Refused(u32),
    /// It isn't known whether it executed.
    Unknown(Cause),
}

/// What is still to be done about a call that is outstanding.
#[derive(Clone, Copy, Debug, PartialEq, Eq)]
pub struct Flags {
    /// It is to be sent again, alone, under its number.
    pub alone: bool,
    /// The server is to be asked to drop its answer.
    pub dropping: bool,
}

/// Calls that have something in common and can be gone through in call order.
#[derive(Clone, Copy, Debug, PartialEq, Eq)]
pub enum Group {
    /// The calls that are `Queued`.
    Queued,
    /// The calls that are `Sent`.
    Outstanding,
    /// The calls that are `Held`.
    Held,
    /// The calls that are to be sent again, alone.
    Alone,
    /// The calls whose answers are to be dropped.
    Dropping,
}
