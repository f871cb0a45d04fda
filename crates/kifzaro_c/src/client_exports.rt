//! What C calls of a client. Numbers go out through references, which are written only where the status is `OK` or the comment
//! says so.

ghost use Rattle.std.specs.Prelude.{◌≡◌};
ghost use Rattle.call_table.specs.Kept.{shown};
ghost use Rattle.kifzaro_c.specs.Statuses.{code_number, state_number};

use crate::client_handle::{ClientHandle, boxed};
use crate::seed::seed_of;
use crate::status;
use kifzaro::{CallId, CallState, Cause, Client, Error, Moment};
use std::alloc::Global;

/// A client under a permanent key of a key file's text, with a seed of 32 bytes; else the status.
pub(crate) fn client_under(
    alloc: Global,
    keys: &[u8],
    key: u64,
    seed: &[u8],
) -> Result<Client, u32> {
    let Some(seed) = seed_of(seed) else {
        return Err(status::BAD_SEED);
    };
    match Client::new(alloc, keys, key, &seed) {
        Ok(client) => Ok(client),
        Err(error) => Err(status::of(error)),
    }
}

/// A client under a temporary key, which is to be bound to a permanent one up to a moment; else the status.
pub(crate) fn client_under_temp(
    alloc: Global,
    keys: &[u8],
    temp: u64,
    perm: u64,
    expires: u64,
    seed: &[u8],
) -> Result<Client, u32> {
    let Some(seed) = seed_of(seed) else {
        return Err(status::BAD_SEED);
    };
    match Client::new_temp(alloc, keys, temp, perm, Moment::new(expires), &seed) {
        Ok(client) => Ok(client),
        Err(error) => Err(status::of(error)),
    }
}

// A client in a box of its own, where there is one.
fn boxes(alloc: Global, made: Result<Client, u32>, out: &mut *mut u8) -> u32 {
    match made {
        Ok(client) => match boxed(alloc, client) {
            Some(at) => {
                *out = at;
                status::OK
            }
            None => status::MEMORY,
        },
        Err(told) => told,
    }
}

/// A client under the permanent key `key` of a key file's text, with a seed of 32 bytes. `out` becomes its handle.
#[unsafe(no_mangle)]
pub extern "C" fn kfr_client_new(
    alloc: Global,
    keys: &[u8],
    key: u64,
    seed: &[u8],
    out: &mut *mut u8,
) -> u32 {
    boxes(alloc, client_under(alloc, keys, key, seed), out)
}

/// A client under the temporary key `temp`, which is to be bound to the permanent key `perm` up to a moment.
#[unsafe(no_mangle)]
pub extern "C" fn kfr_client_new_temp(
    alloc: Global,
    keys: &[u8],
    temp: u64,
    perm: u64,
    expires: u64,
    seed: &[u8],
    out: &mut *mut u8,
) -> u32 {
    boxes(
        alloc,
        client_under_temp(alloc, keys, temp, perm, expires, seed),
        out,
    )
}

/// Frees a client. Its handle isn't used again.
#[unsafe(no_mangle)]
pub extern "C" fn kfr_client_free(handle: ClientHandle) {
    drop(handle.into_box());
}

fn submit(alloc: Global, client: &mut Client, body: &[u8], after: u64) -> Result<u64, Error> {
    let after = if after == 0 {
        None
    } else {
        Some(CallId { n: after })
    };
    Ok(client.submit(alloc, body, after)?.n)
}

/// What is due at a moment goes into the room, and how many bytes it has.
fn poll(alloc: Global, client: &mut Client, now: u64, room: &mut [u8]) -> Result<usize, Error> {
    client.prepare_transmit(alloc, Moment::new(now))?;
    Ok(client.take_transmit(room)?.unwrap_or(0))
}

/// A number for what became of a call, and a code: that of a refusal, or why it is unknown.
fn numbers_of(state: CallState<'_>) -> (u32, u32)
    ensures state { result.0 ≡ state_number (shown state.entry) }
    ensures code { result.1 ≡ code_number (shown state.entry) }
{
    match state {
        CallState::Queued => (0, 0),
        CallState::Sent => (1, 0),
        CallState::Held => (2, 0),
        CallState::Done(_) => (3, 0),
        CallState::Refused(code) => (4, code),
        CallState::Unknown(Cause::Session) => (5, 1),
        CallState::Unknown(Cause::Renewed) => (5, 2),
        CallState::Unknown(Cause::Ended) => (5, 3),
        CallState::Unknown(Cause::Forgotten) => (5, 4),
    }
}

fn tell_state(client: &Client, call: u64, state: &mut u32, code: &mut u32) -> u32 {
    match client.state(CallId { n: call }) {
        Ok(found) => {
            let numbers = numbers_of(found);
            *state = numbers.0;
            *code = numbers.1;
            status::OK
        }
        Err(error) => status::of(error),
    }
}

fn tell_counts(client: &Client, session: &mut u64, calls: &mut u32, decided: &mut u32) -> u32 {
    *session = client.session();
    *calls = client.calls();
    *decided = u32::from(client.calls_decided());
    status::OK
}

/// Submits a call that is to execute after another one (0: after none); `call` becomes its number.
#[unsafe(no_mangle)]
pub extern "C" fn kfr_client_submit(
    alloc: Global,
    handle: &mut ClientHandle,
    body: &[u8],
    after: u64,
    call: &mut u64,
) -> u32 {
    handle.run(
        alloc,
        |client| status::tell(submit(alloc, client, body, after), call),
    )
}

/// A connection was opened.
#[unsafe(no_mangle)]
pub extern "C" fn kfr_client_attach(alloc: Global, handle: &mut ClientHandle) -> u32 {
    handle.run(alloc, |client| status::told(client.attach()))
}

/// A packet came at a moment. A status `REFUSED_..`: it doesn't open, and only the moment counts.
#[unsafe(no_mangle)]
pub extern "C" fn kfr_client_handle_packet(
    alloc: Global,
    handle: &mut ClientHandle,
    now: u64,
    packet: &[u8],
) -> u32 {
    handle.run(
        alloc,
        |client| status::told(client.handle_packet(alloc, Moment::new(now), packet)),
    )
}

/// What is sent next, at a moment: `len` is its length, 0 where nothing is to be sent. `TOO_SHORT`: `len` is what it needs, and it waits.
#[unsafe(no_mangle)]
pub extern "C" fn kfr_client_poll_transmit(
    alloc: Global,
    handle: &mut ClientHandle,
    now: u64,
    room: &mut [u8],
    len: &mut u64,
) -> u32 {
    handle.run(
        alloc,
        |client| status::told_len(poll(alloc, client, now, room), len),
    )
}

/// It goes on in another session.
#[unsafe(no_mangle)]
pub extern "C" fn kfr_client_renew(alloc: Global, handle: &mut ClientHandle) -> u32 {
    handle.run(alloc, |client| status::told(client.renew()))
}

/// It ends.
#[unsafe(no_mangle)]
pub extern "C" fn kfr_client_end(alloc: Global, handle: &mut ClientHandle) -> u32 {
    handle.run(alloc, |client| status::told(client.end()))
}

/// The server is to be asked how the calls that are sent fared.
#[unsafe(no_mangle)]
pub extern "C" fn kfr_client_tick(alloc: Global, handle: &mut ClientHandle) -> u32 {
    handle.run(alloc, |client| status::told(client.tick()))
}

/// The server is to answer a ping.
#[unsafe(no_mangle)]
pub extern "C" fn kfr_client_ping(alloc: Global, handle: &mut ClientHandle, id: u64) -> u32 {
    handle.run(alloc, |client| status::told(client.ping(id)))
}

/// The server is to tell so many of its next salts.
#[unsafe(no_mangle)]
pub extern "C" fn kfr_client_ask_salts(
    alloc: Global,
    handle: &mut ClientHandle,
    count: u32,
) -> u32 {
    handle.run(alloc, |client| status::told(client.ask_salts(count)))
}

/// The server is to be asked to drop the answer to a call.
#[unsafe(no_mangle)]
pub extern "C" fn kfr_client_drop_answer(
    alloc: Global,
    handle: &mut ClientHandle,
    call: u64,
) -> u32 {
    handle.run(
        alloc,
        |client| status::told(client.drop_answer(CallId { n: call })),
    )
}

/// What became of a call: `state` is 0 queued, 1 sent, 2 held, 3 done, 4 refused, 5 unknown; `code` that of a refusal, or why it is unknown.
#[unsafe(no_mangle)]
pub extern "C" fn kfr_client_state(
    alloc: Global,
    handle: &mut ClientHandle,
    call: u64,
    state: &mut u32,
    code: &mut u32,
) -> u32 {
    handle.run(alloc, |client| tell_state(client, call, state, code))
}

/// The reply to a call goes into the room, and `len` is its length. `TOO_SHORT`: `len` is what it needs.
#[unsafe(no_mangle)]
pub extern "C" fn kfr_client_take_reply(
    alloc: Global,
    handle: &mut ClientHandle,
    call: u64,
    room: &mut [u8],
    len: &mut u64,
) -> u32 {
    handle.run(
        alloc,
        |client| status::told_len(client.take_reply(CallId { n: call }, room), len),
    )
}

/// The number of its session, how many calls it has, and whether each is decided (1, else 0).
#[unsafe(no_mangle)]
pub extern "C" fn kfr_client_counts(
    alloc: Global,
    handle: &mut ClientHandle,
    session: &mut u64,
    calls: &mut u32,
    decided: &mut u32,
) -> u32 {
    handle.run(alloc, |client| tell_counts(client, session, calls, decided))
}
