//! What a server is asked, and tells.

use crate::facade::telling::Text;
use kifzaro::{Error, Moment, Server, SessionName};
use std::test::Fail;
use test_keys::KEY_ID;
use test_lines::Line;

// The next request is handed out.
fn asks(server: &mut Server, text: &mut Text) -> Result<(), Fail> {
    match server.next_request() {
        Ok(true) => tell_request(server, text),
        Ok(false) => text.tell("no request"),
        Err(error) => text.tell_error(&error),
    }
}

// The request that waits for its answer.
fn tell_request(server: &Server, text: &mut Text) -> Result<(), Fail> {
    match server.request() {
        Some(request) => text.tell_bytes("request", request),
        None => text.tell("no request waits"),
    }
}

// The same, in 8 bytes of room.
fn copies(server: &Server, text: &mut Text) -> Result<(), Fail> {
    let mut room = [0; 8];
    match server.copy_request(&mut room) {
        Ok(_) => text.tell_bytes("request", &room),
        Err(error) => text.tell_error(&error),
    }
}

/// The request that was handed out is answered, or the server tells of its requests or of its draw: whether the line asked for that.
pub(crate) fn is_answered(
    server: &mut Server,
    line: &mut Line<'_>,
    now: Moment,
    text: &mut Text,
) -> Result<bool, Fail> {
    match line.verb {
        "ask" => asks(server, text)?,
        "answer" => {
            let reply = line.bytes()?;
            text.tell_done("answered", server.answer(line.alloc, now, reply.as_slice()))?;
        }
        "asked" => copies(server, text)?,
        "ready" => text.tell_number("ready", server.ready() as u64)?,
        "draw" => text.tell_draw(server)?,
        _ => return Ok(false),
    }
    Ok(true)
}

// A session under the permanent key.
fn named(session: u64) -> SessionName {
    SessionName {
        key: KEY_ID,
        session,
    }
}

// An event of a server that no packet brings.
fn happens(
    server: &mut Server,
    line: &mut Line<'_>,
    session: u64,
    now: Moment,
) -> Result<Option<Result<(), Error>>, Fail> {
    Ok(Some(match line.verb {
        "pass" => server.tick(line.alloc, Moment::new(line.number()?)),
        "join" => server.attach(line.alloc, named(session), now),
        "restart" => server.restart(line.alloc),
        _ => return Ok(None),
    }))
}

/// Something happens at a server: whether the line told that.
pub(crate) fn has_happened(
    server: &mut Server,
    line: &mut Line<'_>,
    session: u64,
    now: Moment,
    text: &mut Text,
) -> Result<bool, Fail> {
    match happens(server, line, session, now)? {
        Some(done) => {
            text.tell_done("done", done)?;
            Ok(true)
        }
        None => Ok(false),
    }
}
