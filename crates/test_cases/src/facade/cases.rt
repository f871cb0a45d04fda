//! A case: its lines in order, over a client and a server.

use crate::facade::answering::{has_happened, is_answered};
use crate::facade::asking::{is_asked, is_told};
use crate::facade::making::{NOW, client_of, is_made, keys, server_of};
use crate::facade::passing::{Way, is_moved, is_moved_down};
use crate::facade::telling::Text;
use kifzaro::{Client, Moment, Server};
use std::alloc::Global;
use std::test::Fail;
use test_lines::Line;

// A line at the client: whether it is one.
fn is_clients(
    client: &mut Client,
    line: &mut Line<'_>,
    now: Moment,
    text: &mut Text,
) -> Result<bool, Fail> {
    Ok(
        is_asked(client, line, text)?
            || is_told(client, line, text)?
            || is_moved(client, line, now, text)?,
    )
}

// A line at the server: whether it is one.
fn is_servers(
    server: &mut Server,
    line: &mut Line<'_>,
    session: u64,
    now: Moment,
    text: &mut Text,
) -> Result<bool, Fail> {
    Ok(
        is_answered(server, line, now, text)?
            || has_happened(server, line, session, now, text)?
            || is_moved_down(server, line, now, text)?,
    )
}

// A line.
fn plays(
    line: &mut Line<'_>,
    client: &mut Client,
    server: &mut Server,
    way: &mut Way,
    text: &mut Text,
) -> Result<(), Fail> {
    if is_clients(client, line, way.clock, text)? {
        return Ok(());
    }
    if is_servers(server, line, client.session(), way.now, text)? {
        return Ok(());
    }
    if way.has_passed(line, client, server, text)? || is_made(line, text)? {
        return Ok(());
    }
    Err(Fail::new("no such line"))
}

// What is told of lines, over a client and a server that have done nothing yet.
fn plays_all(
    alloc: Global,
    client: &mut Client,
    server: &mut Server,
    lines: &str,
) -> Result<String, Fail> {
    let mut way = Way::new(alloc, Moment::new(NOW));
    let mut text = Text::new(alloc);
    for line in lines.lines() {
        plays(
            &mut Line::of(alloc, line),
            client,
            server,
            &mut way,
            &mut text,
        )?;
    }
    Ok(text.written)
}

// The same with the server of these keys. What gives a server back, field by field, is dear to prove: a generic function does it.
fn told_with(alloc: Global, client: &mut Client, keys: &[u8], lines: &str) -> Result<String, Fail> {
    let mut server = server_of(alloc, keys)?;
    let told = plays_all(alloc, client, &mut server, lines);
    drop(server);
    told
}

// The same with the client under this key.
fn told(alloc: Global, keys: &[u8], key: &str, lines: &str) -> Result<String, Fail> {
    let mut client = client_of(alloc, keys, key)?;
    let told = told_with(alloc, &mut client, keys, lines);
    drop(client);
    told
}

/// What is told of a case: its first line, and then what its other lines give. The second line says under which key it is.
pub(crate) fn played(alloc: Global, case: &str) -> Result<String, Fail> {
    let (title, rest) = case.split_once('\n').ok_or("no case")?;
    let (key, lines) = rest.split_once('\n').ok_or("no line")?;
    let keys = keys(alloc)?;
    let told = told(alloc, keys.as_bytes(), key, lines)?;
    Ok(format!(in alloc; "{title}\n{told}\n")?)
}
