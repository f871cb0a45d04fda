//! What a client is asked, and tells.

use crate::facade::telling::Text;
use kifzaro::{CallId, CallState, Cause, Client, Error};
use std::test::Fail;
use test_lines::Line;

/// The most room that a line may lend.
const ROOM_MAX: usize = 4096;

// A call of a body is submitted, perhaps behind another.
fn submits(client: &mut Client, line: &mut Line<'_>) -> Result<Result<CallId, Error>, Fail> {
    let body = line.bytes()?;
    let after = if line.is_empty() {
        None
    } else {
        Some(CallId { n: line.number()? })
    };
    Ok(client.submit(line.alloc, body.as_slice(), after))
}

fn is_submitted(client: &mut Client, line: &mut Line<'_>, text: &mut Text) -> Result<(), Fail> {
    match submits(client, line)? {
        Ok(call) => text.tell_number("call", call.n),
        Err(error) => text.tell_error(&error),
    }
}

// What an open client is asked.
fn asks(client: &mut Client, line: &mut Line<'_>) -> Result<Option<Result<(), Error>>, Fail> {
    Ok(Some(match line.verb {
        "tick" => client.tick(),
        "ping" => client.ping(line.number()?),
        "salts" => client.ask_salts(line.small()?),
        "drop" => client.drop_answer(CallId { n: line.number()? }),
        _ => return Ok(None),
    }))
}

// What becomes of its session.
fn moves(client: &mut Client, verb: &str) -> Option<Result<(), Error>> {
    match verb {
        "attach" => Some(client.attach()),
        "renew" => Some(client.renew()),
        "end" => Some(client.end()),
        _ => None,
    }
}

/// A client is asked for something: whether the line told that.
pub(crate) fn is_asked(
    client: &mut Client,
    line: &mut Line<'_>,
    text: &mut Text,
) -> Result<bool, Fail> {
    if line.verb == "submit" {
        is_submitted(client, line, text)?;
        return Ok(true);
    }
    if let Some(done) = moves(client, line.verb) {
        text.tell_done("done", done)?;
        return Ok(true);
    }
    match asks(client, line)? {
        Some(done) => {
            text.tell_done("done", done)?;
            Ok(true)
        }
        None => Ok(false),
    }
}

fn cause_of(cause: Cause) -> &'static str {
    match cause {
        Cause::Session => "unknown: session",
        Cause::Renewed => "unknown: renewed",
        Cause::Ended => "unknown: ended",
        Cause::Forgotten => "unknown: forgotten",
    }
}

fn tell_state(state: CallState<'_>, text: &mut Text) -> Result<(), Fail> {
    match state {
        CallState::Queued => text.tell("queued"),
        CallState::Sent => text.tell("sent"),
        CallState::Held => text.tell("held"),
        CallState::Done(reply) => text.tell_bytes("done", reply),
        CallState::Refused(code) => text.tell_number("refused", u64::from(code)),
        CallState::Unknown(cause) => text.tell(cause_of(cause)),
    }
}

// What became of a call.
fn is_known(client: &Client, call: CallId, text: &mut Text) -> Result<(), Fail> {
    match client.state(call) {
        Ok(state) => tell_state(state, text),
        Err(error) => text.tell_error(&error),
    }
}

// The reply to a call, in so much room.
fn replies(client: &Client, line: &mut Line<'_>, text: &mut Text) -> Result<(), Fail> {
    let call = CallId { n: line.number()? };
    let mut room = [0; ROOM_MAX];
    let room = &mut room[..(line.small()? as usize).min(ROOM_MAX)];
    match client.take_reply(call, room) {
        Ok(len) => text.tell_bytes("reply", &room[..len.min(room.len())]),
        Err(error) => text.tell_error(&error),
    }
}

// The numbers that a client tells of itself.
fn counts(client: &Client, text: &mut Text) -> Result<(), Fail> {
    text.tell_number("calls", u64::from(client.calls()))?;
    text.tell(if client.is_open() { "open" } else { "not open" })?;
    text.tell(if client.has_ended() {
        "ended"
    } else {
        "not ended"
    })?;
    text.tell(if client.calls_decided() {
        "decided"
    } else {
        "not decided"
    })
}

/// A client tells something: whether the line asked for it.
pub(crate) fn is_told(client: &Client, line: &mut Line<'_>, text: &mut Text) -> Result<bool, Fail> {
    match line.verb {
        "state" => is_known(client, CallId { n: line.number()? }, text)?,
        "reply" => replies(client, line, text)?,
        "counts" => counts(client, text)?,
        _ => return Ok(false),
    }
    Ok(true)
}
