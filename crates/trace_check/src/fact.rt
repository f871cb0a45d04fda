//! Facts, and the lines that say them.

ghost use Rattle.std.specs.Prelude.{◌≡◌, IfOk};
ghost use Rattle.sched_text.specs.Lines.{words_of};
ghost use Rattle.sched_text.specs.Reading.{find};
ghost use Rattle.trace_check.specs.Reading.{body_at, causes, entry_at, fact_with, gone_at, kinds, name_at, only, said_by, session_at, standings, state_at, told_at, told_with, ways};

use crate::numbered::{Numbered, pair_of};
use octets::{Memory, Octets};
use sched_text::Words;
use std::alloc::Global;

/// Why it isn't known what became of a call.
#[derive(Clone, Copy)]
pub(crate) enum Cause {
    /// The server lost the session.
    Session,
    /// The client renewed.
    Renewed,
    /// The client ended.
    Ended,
    /// The server no longer knows the number.
    Forgotten,
}

/// What a client tells of a call.
#[derive(Drop)]
pub(crate) enum Told {
    /// It wasn't sent, or has to be sent again.
    Queued,
    /// It was sent, and nothing is known of it yet.
    Sent,
    /// It waits for a new session.
    Held,
    /// It has this reply.
    Done(Octets),
    /// It was refused with this code, and didn't execute.
    Refused(u64),
    /// It isn't known what became of it.
    Unknown(Cause),
}

/// A request that a server executed or answered in place.
#[derive(Drop)]
pub(crate) struct Entry {
    /// The start of the server, with which its service is fresh.
    pub(crate) start: u64,
    /// The session and the number of the message.
    pub(crate) name: Numbered,
    /// The bytes of the request.
    pub(crate) request: Octets,
    /// The bytes of the reply.
    pub(crate) reply: Octets,
    /// Whether the service ran.
    pub(crate) ran: bool,
}

/// What a line says.
#[derive(Drop)]
pub(crate) enum Fact {
    /// The body of a client's next call.
    Body(Numbered, Octets),
    /// The next name of a call, a session and a number.
    Name(Numbered, Numbered),
    /// What is told of a call.
    State(Numbered, Told),
    /// A request that was executed or answered.
    Entry(Entry),
    /// A server session was made for this number.
    Made(u64),
    /// Its client renewed in the session of this number.
    Left(u64),
    /// Its client ended in it.
    Closed(u64),
    /// A server session had forgotten a number, or had dropped its reply.
    Gone(Numbered),
    /// Nothing: the line is outside the grammar.
    Outside,
}

/// The first word of a line.
#[derive(Clone, Copy)]
pub(crate) enum Kind {
    Body,
    Name,
    State,
    Entry,
    Made,
    Left,
    Closed,
    Gone,
}

/// The first word of a state.
#[derive(Clone, Copy)]
pub(crate) enum Standing {
    Queued,
    Sent,
    Held,
    Done,
    Refused,
    Unknown,
}

/// What a line says.
///
/// # Errors
///
/// `Memory`.
pub(crate) fn fact_of(alloc: Global, line: &[u8]) -> Result<Fact, Memory>
    ensures { IfOk result (λ fact. fact ≡ said_by (words_of line.now)) }
{
    let mut words = Words::new(line);
    let Some(kind) = words.next().and_then(kind_of) else {
        return Ok(Fact::Outside);
    };
    match said(alloc, kind, words)? {
        Some(fact) => Ok(fact),
        None => Ok(Fact::Outside),
    }
}

// What the words behind the first say.
fn said(alloc: Global, kind: Kind, words: Words<'_>) -> Result<Option<Fact>, Memory>
    ensures { IfOk result (λ fact. fact ≡ fact_with kind words.entry) }
{
    match kind {
        Kind::Body => body_of(alloc, words),
        Kind::Name => Ok(name_of(words)),
        Kind::State => state_of(alloc, words),
        Kind::Entry => entry_of(alloc, words),
        Kind::Made => Ok(session_of(words).map(Fact::Made)),
        Kind::Left => Ok(session_of(words).map(Fact::Left)),
        Kind::Closed => Ok(session_of(words).map(Fact::Closed)),
        Kind::Gone => Ok(gone_of(words)),
    }
}

fn kind_of(word: &[u8]) -> Option<Kind>
    ensures { result ≡ find word.now kinds }
{
    if word == b"body".as_slice() {
        Some(Kind::Body)
    } else if word == b"name".as_slice() {
        Some(Kind::Name)
    } else if word == b"state".as_slice() {
        Some(Kind::State)
    } else if word == b"entry".as_slice() {
        Some(Kind::Entry)
    } else if word == b"made".as_slice() {
        Some(Kind::Made)
    } else if word == b"left".as_slice() {
        Some(Kind::Left)
    } else if word == b"closed".as_slice() {
        Some(Kind::Closed)
    } else if word == b"gone".as_slice() {
        Some(Kind::Gone)
    } else {
        None
    }
}

// `C N HEX`.
fn body_of(alloc: Global, mut words: Words<'_>) -> Result<Option<Fact>, Memory>
    ensures { IfOk result (λ fact. fact ≡ body_at words.entry) }
{
    let Some(call) = pair_of(&mut words) else {
        return Ok(None);
    };
    match words.bytes(alloc)? {
        Some(body) if words.is_empty() => Ok(Some(Fact::Body(call, body))),
        _ => Ok(None),
    }
}

// `C N S M`.
fn name_of(mut words: Words<'_>) -> Option<Fact>
    ensures { result ≡ name_at words.entry }
{
    let call = pair_of(&mut words)?;
    let name = pair_of(&mut words)?;
    if words.is_empty() {
        Some(Fact::Name(call, name))
    } else {
        None
    }
}

// `C N STATE`.
fn state_of(alloc: Global, mut words: Words<'_>) -> Result<Option<Fact>, Memory>
    ensures { IfOk result (λ fact. fact ≡ state_at words.entry) }
{
    let Some(call) = pair_of(&mut words) else {
        return Ok(None);
    };
    match told_of(alloc, words)? {
        Some(told) => Ok(Some(Fact::State(call, told))),
        None => Ok(None),
    }
}

// `START S M HEX HEX ran`, or `answer` at the end.
fn entry_of(alloc: Global, mut words: Words<'_>) -> Result<Option<Fact>, Memory>
    ensures { IfOk result (λ fact. fact ≡ entry_at words.entry) }
{
    let Some(start) = words.number() else {
        return Ok(None);
    };
    let Some(name) = pair_of(&mut words) else {
        return Ok(None);
    };
    let Some(request) = words.bytes(alloc)? else {
        return Ok(None);
    };
    let Some(reply) = words.bytes(alloc)? else {
        return Ok(None);
    };
    match way_of(words) {
        Some(ran) => Ok(Some(Fact::Entry(Entry {
            start,
            name,
            request,
            reply,
            ran,
        }))),
        None => Ok(None),
    }
}

// `ran`, or `answer`.
fn way_of(mut words: Words<'_>) -> Option<bool>
    ensures { result ≡ only ways words.entry }
{
    let word = words.next()?;
    if !words.is_empty() {
        None
    } else if word == b"ran".as_slice() {
        Some(true)
    } else if word == b"answer".as_slice() {
        Some(false)
    } else {
        None
    }
}

// `S`.
fn session_of(mut words: Words<'_>) -> Option<u64>
    ensures { result ≡ session_at words.entry }
{
    let session = words.number()?;
    if words.is_empty() {
        Some(session)
    } else {
        None
    }
}

// `S M`.
fn gone_of(mut words: Words<'_>) -> Option<Fact>
    ensures { result ≡ gone_at words.entry }
{
    let name = pair_of(&mut words)?;
    if words.is_empty() {
        Some(Fact::Gone(name))
    } else {
        None
    }
}

// STATE.
fn told_of(alloc: Global, mut words: Words<'_>) -> Result<Option<Told>, Memory>
    ensures { IfOk result (λ told. told ≡ told_at words.entry) }
{
    let Some(standing) = words.next().and_then(standing_of) else {
        return Ok(None);
    };
    told_behind(alloc, standing, words)
}

// What stands behind the first word of a state.
fn told_behind(
    alloc: Global,
    standing: Standing,
    mut words: Words<'_>,
) -> Result<Option<Told>, Memory>
    ensures { IfOk result (λ told. told ≡ told_with standing words.entry) }
{
    let told = match standing {
        Standing::Queued => Some(Told::Queued),
        Standing::Sent => Some(Told::Sent),
        Standing::Held => Some(Told::Held),
        Standing::Done => words.bytes(alloc)?.map(Told::Done),
        Standing::Refused => words.number().map(Told::Refused),
        Standing::Unknown => words.next().and_then(cause_of).map(Told::Unknown),
    };
    if words.is_empty() { Ok(told) } else { Ok(None) }
}

fn cause_of(word: &[u8]) -> Option<Cause>
    ensures { result ≡ find word.now causes }
{
    if word == b"session".as_slice() {
        Some(Cause::Session)
    } else if word == b"renewed".as_slice() {
        Some(Cause::Renewed)
    } else if word == b"ended".as_slice() {
        Some(Cause::Ended)
    } else if word == b"forgotten".as_slice() {
        Some(Cause::Forgotten)
    } else {
        None
    }
}

fn standing_of(word: &[u8]) -> Option<Standing>
    ensures { result ≡ find word.now standings }
{
    if word == b"queued".as_slice() {
        Some(Standing::Queued)
    } else if word == b"sent".as_slice() {
        Some(Standing::Sent)
    } else if word == b"held".as_slice() {
        Some(Standing::Held)
    } else if word == b"done".as_slice() {
        Some(Standing::Done)
    } else if word == b"refused".as_slice() {
        Some(Standing::Refused)
    } else if word == b"unknown".as_slice() {
        Some(Standing::Unknown)
    } else {
        None
    }
}
