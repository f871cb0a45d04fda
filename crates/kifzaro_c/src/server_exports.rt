//! What C calls of a server. Numbers go out through references, which are written only where the status is `OK` or the comment
//! says so.

use crate::seed::seed_of;
use crate::server_handle::{ServerHandle, boxed};
use crate::status;
use kifzaro::{Error, Moment, Server, SessionName};
use std::alloc::Global;

/// A server with the keys of a key file's text, with a seed of 32 bytes; else the status.
pub(crate) fn server_with(alloc: Global, keys: &[u8], seed: &[u8]) -> Result<Server, u32> {
    let Some(seed) = seed_of(seed) else {
        return Err(status::BAD_SEED);
    };
    match Server::new(alloc, keys, &seed) {
        Ok(server) => Ok(server),
        Err(error) => Err(status::of(error)),
    }
}

/// A server with the keys of a key file's text, and a seed of 32 bytes. `out` becomes its handle.
#[unsafe(no_mangle)]
pub extern "C" fn kfr_server_new(
    alloc: Global,
    keys: &[u8],
    seed: &[u8],
    out: &mut *mut u8,
) -> u32 {
    match server_with(alloc, keys, seed) {
        Ok(server) => match boxed(alloc, server) {
            Some(at) => {
                *out = at;
                status::OK
            }
            None => status::MEMORY,
        },
        Err(told) => told,
    }
}

/// Frees a server. Its handle isn't used again.
#[unsafe(no_mangle)]
pub extern "C" fn kfr_server_free(handle: ServerHandle) {
    drop(handle.into_box());
}

fn tell_heard(
    alloc: Global,
    server: &mut Server,
    now: u64,
    packet: &[u8],
    key: &mut u64,
    session: &mut u64,
) -> u32 {
    match server.handle_packet(alloc, Moment::new(now), packet) {
        Ok(name) => {
            *key = name.key;
            *session = name.session;
            status::OK
        }
        Err(error) => status::of(error),
    }
}

fn tell_out(
    alloc: Global,
    server: &mut Server,
    key: &mut u64,
    session: &mut u64,
    room: &mut [u8],
    len: &mut u64,
) -> u32 {
    *len = 0;
    let Some(name) = server.next_transmit() else {
        return status::OK;
    };
    let told = status::told_len(given(server.take_transmit(alloc, room)), len);
    if told == status::OK {
        *key = name.key;
        *session = name.session;
    }
    told
}

// The length of what was handed out, which is 0 where nothing was.
fn given(handed: Result<Option<usize>, Error>) -> Result<usize, Error> {
    Ok(handed?.unwrap_or(0))
}

// The request that waits for its answer, or the next one, which waits from then on. Whether there is one.
fn ask(server: &mut Server) -> Result<bool, Error> {
    if server.is_busy() {
        Ok(true)
    } else {
        server.next_request()
    }
}

fn tell_request(server: &mut Server, there: &mut u32, room: &mut [u8], len: &mut u64) -> u32 {
    match ask(server) {
        Ok(true) => {
            *there = 1;
            status::told_len(server.copy_request(room), len)
        }
        Ok(false) => {
            *there = 0;
            *len = 0;
            status::OK
        }
        Err(error) => status::of(error),
    }
}

fn tell_ready(server: &Server, ready: &mut u64) -> u32 {
    *ready = server.ready() as u64;
    status::OK
}

/// A packet came at a moment: `key` and `session` become the name of its session.
#[unsafe(no_mangle)]
pub extern "C" fn kfr_server_handle_packet(
    alloc: Global,
    handle: &mut ServerHandle,
    now: u64,
    packet: &[u8],
    key: &mut u64,
    session: &mut u64,
) -> u32 {
    handle.run(
        alloc,
        |server| tell_heard(alloc, server, now, packet, key, session),
    )
}

/// Time passed.
#[unsafe(no_mangle)]
pub extern "C" fn kfr_server_tick(alloc: Global, handle: &mut ServerHandle, now: u64) -> u32 {
    handle.run(
        alloc,
        |server| status::told(server.tick(alloc, Moment::new(now))),
    )
}

/// A connection was opened for a session.
#[unsafe(no_mangle)]
pub extern "C" fn kfr_server_attach(
    alloc: Global,
    handle: &mut ServerHandle,
    key: u64,
    session: u64,
    now: u64,
) -> u32 {
    handle.run(
        alloc,
        |server| status::told(server.attach(alloc, SessionName { key, session }, Moment::new(now))),
    )
}

/// It starts again.
#[unsafe(no_mangle)]
pub extern "C" fn kfr_server_restart(alloc: Global, handle: &mut ServerHandle) -> u32 {
    handle.run(alloc, |server| status::told(server.restart(alloc)))
}

/// How many requests are ready.
#[unsafe(no_mangle)]
pub extern "C" fn kfr_server_ready(
    alloc: Global,
    handle: &mut ServerHandle,
    ready: &mut u64,
) -> u32 {
    handle.run(alloc, |server| tell_ready(server, ready))
}

/// The next ready request, or the one that waits for its answer, goes into the room: `there` is 1 and `len` its length, or both are 0
/// where none is ready. `TOO_SHORT`: `there` is 1, `len` is what it needs, and it waits for its answer.
#[unsafe(no_mangle)]
pub extern "C" fn kfr_server_next_request(
    alloc: Global,
    handle: &mut ServerHandle,
    there: &mut u32,
    room: &mut [u8],
    len: &mut u64,
) -> u32 {
    handle.run(alloc, |server| tell_request(server, there, room, len))
}

/// The request that was handed out has run, and its reply is this one.
#[unsafe(no_mangle)]
pub extern "C" fn kfr_server_answer(
    alloc: Global,
    handle: &mut ServerHandle,
    now: u64,
    reply: &[u8],
) -> u32 {
    handle.run(
        alloc,
        |server| status::told(server.answer(alloc, Moment::new(now), reply)),
    )
}

/// The packet that is sent next, and to which session: `len` is its length, 0 where there is none. `TOO_SHORT`: `len` is what it needs, and it waits.
#[unsafe(no_mangle)]
pub extern "C" fn kfr_server_poll_transmit(
    alloc: Global,
    handle: &mut ServerHandle,
    key: &mut u64,
    session: &mut u64,
    room: &mut [u8],
    len: &mut u64,
) -> u32 {
    handle.run(
        alloc,
        |server| tell_out(alloc, server, key, session, room, len),
    )
}
