//! Talks of a client and a server, by the functions that C calls. A talk is a text of steps, a line each: a letter, a digit, and what the
//! step answers, two digits, which is a status unless its comment says otherwise. So each function is called at one or two places,
//! whatever the steps are.

use crate::client_exports::{
    kfr_client_ask_salts, kfr_client_attach, kfr_client_counts, kfr_client_drop_answer,
    kfr_client_end, kfr_client_free, kfr_client_handle_packet, kfr_client_ping,
    kfr_client_poll_transmit, kfr_client_renew, kfr_client_state, kfr_client_submit,
    kfr_client_take_reply, kfr_client_tick,
};
use crate::client_handle::{ClientHandle, ClientSlot};
use crate::loose::in_box;
use crate::server_exports::{
    kfr_server_answer, kfr_server_attach, kfr_server_free, kfr_server_handle_packet,
    kfr_server_next_request, kfr_server_poll_transmit, kfr_server_ready, kfr_server_restart,
    kfr_server_tick,
};
use crate::server_handle::{ServerHandle, ServerSlot};
use kifzaro::{Client, Server};
use std::alloc::{AllocError, Global};
use std::test::Fail;
use test_asserts::same_text;
use test_keys::{KEY_ID, line};

/// A moment.
const NOW: u64 = 1_000_000;
/// What stands in a number that no call has written.
const UNTOUCHED: u32 = 77;
/// What stands in room that no call has written.
const BLANK: u8 = 7;
/// The bytes of a short room.
const SHORT: usize = 4;
/// The bytes of a line.
const LINE_BYTES: usize = 6;

/// Handles of a client and a server that share a key, and what calls of them wrote. They are freed before anything is compared.
struct Table {
    client: ClientHandle,
    server: ServerHandle,
    seen: Seen,
}

/// The client's packet, room for all else that is handed out, the numbers that calls write, and how many requests were answered.
#[derive(Drop)]
struct Seen {
    long: Vec<u8>,
    packet: Vec<u8>,
    packet_len: u64,
    room: Vec<u8>,
    len: u64,
    call: u64,
    state: u32,
    code: u32,
    there: u32,
    asked: u32,
    key: u64,
    session: u64,
    calls: u32,
    decided: u32,
    ready: u64,
}

/// So many bytes that are the same. No contract says how many, as a long list with a known length is computed by all that looks at it.
fn same_bytes(alloc: Global, byte: u8, count: usize) -> Result<Vec<u8>, AllocError> {
    Vec::from_elem(alloc, byte, count)
}

fn nothing_seen(alloc: Global) -> Result<Seen, Fail> {
    Ok(Seen {
        long: same_bytes(alloc, 0, 262_148)?,
        packet: same_bytes(alloc, BLANK, 4096)?,
        packet_len: 0,
        room: same_bytes(alloc, BLANK, 4096)?,
        len: u64::from(UNTOUCHED),
        call: u64::from(UNTOUCHED),
        state: UNTOUCHED,
        code: UNTOUCHED,
        there: UNTOUCHED,
        asked: 0,
        key: 0,
        session: 0,
        calls: UNTOUCHED,
        decided: UNTOUCHED,
        ready: u64::from(UNTOUCHED),
    })
}

fn client_box(alloc: Global, keys: &[u8]) -> Result<Box<ClientSlot>, Fail> {
    let client = Client::new(alloc, keys, KEY_ID, &[1; 32])?;
    boxes(alloc, ClientSlot::Here(client))
}

fn server_box(alloc: Global, keys: &[u8]) -> Result<Box<ServerSlot>, Fail> {
    let server = Server::new(alloc, keys, &[2; 32])?;
    boxes(alloc, ServerSlot::Here(server))
}

fn boxes<T: Drop>(alloc: Global, it: T) -> Result<Box<T>, Fail> {
    match in_box(alloc, it) {
        Some(held) => Ok(held),
        None => Err(Fail::new("no memory")),
    }
}

/// Both, or none: a generic function gives back the first where there is no second.
fn both<A: Drop, B: Drop>(one: A, other: Result<B, Fail>) -> Result<(A, B), Fail> {
    match other {
        Ok(other) => Ok((one, other)),
        Err(fail) => Err(fail),
    }
}

fn lay(alloc: Global) -> Result<Table, Fail> {
    let keys = line(alloc, "perm")?;
    let seen = nothing_seen(alloc)?;
    let client = client_box(alloc, keys.as_bytes())?;
    let (client, server) = both(client, server_box(alloc, keys.as_bytes()))?;
    Ok(Table {
        client: ClientHandle::of(client),
        server: ServerHandle::of(server),
        seen,
    })
}

fn clear(table: Table) {
    let Table {
        client,
        server,
        seen: _,
    } = table;
    kfr_client_free(client);
    kfr_server_free(server);
}

/// The bytes that were put into room; none where there are more than it has.
fn front(room: &[u8], len: u64) -> &[u8] {
    match usize::try_from(len) {
        Ok(len) if len <= room.len() => &room[..len],
        _ => &[],
    }
}

/// The room, or its front where the digit is 0.
fn part(room: &mut [u8], digit: u8) -> &mut [u8] {
    if digit == b'0' && room.len() > SHORT {
        &mut room[..SHORT]
    } else {
        room
    }
}

/// A call's body, and after which call it is to run.
fn body(long: &[u8], digit: u8) -> (&[u8], u64) {
    match digit {
        b'0' => (b"ask me!!", 0),
        b'1' => (b"odd", 0),
        b'2' => (long, 0),
        _ => (b"even", 9),
    }
}

fn submits(alloc: Global, table: &mut Table, digit: u8) -> u32 {
    let (body, after) = body(&table.seen.long, digit);
    kfr_client_submit(alloc, &mut table.client, body, after, &mut table.seen.call)
}

/// The client's next packet, which is kept beside the room.
fn polls(alloc: Global, table: &mut Table) -> u32 {
    kfr_client_poll_transmit(
        alloc,
        &mut table.client,
        NOW,
        &mut table.seen.packet,
        &mut table.seen.packet_len,
    )
}

/// The same with a room that is short.
fn polls_short(alloc: Global, table: &mut Table) -> u32 {
    let room = part(&mut table.seen.room, b'0');
    kfr_client_poll_transmit(alloc, &mut table.client, NOW, room, &mut table.seen.len)
}

fn goes_up(alloc: Global, table: &mut Table) -> u32 {
    let packet = front(&table.seen.packet, table.seen.packet_len);
    kfr_server_handle_packet(
        alloc,
        &mut table.server,
        NOW,
        packet,
        &mut table.seen.key,
        &mut table.seen.session,
    )
}

/// The server's next packet reaches the client, if there is one.
fn comes_down(alloc: Global, table: &mut Table) -> u32 {
    let told = kfr_server_poll_transmit(
        alloc,
        &mut table.server,
        &mut table.seen.key,
        &mut table.seen.session,
        &mut table.seen.room,
        &mut table.seen.len,
    );
    if told != 0 || table.seen.len == 0 {
        return told;
    }
    let packet = front(&table.seen.room, table.seen.len);
    kfr_client_handle_packet(alloc, &mut table.client, NOW, packet)
}

fn asks(alloc: Global, table: &mut Table, digit: u8) -> u32 {
    let room = part(&mut table.seen.room, digit);
    kfr_server_next_request(
        alloc,
        &mut table.server,
        &mut table.seen.there,
        room,
        &mut table.seen.len,
    )
}

fn answers(alloc: Global, table: &mut Table, digit: u8) -> u32 {
    let reply: &[u8] = if digit == b'0' { b"answered" } else { b"odd" };
    kfr_server_answer(alloc, &mut table.server, NOW, reply)
}

/// A request that is ready is answered, and counted.
fn serves(alloc: Global, table: &mut Table) -> u32 {
    let told = asks(alloc, table, b'1');
    if told != 0 || table.seen.there == 0 {
        return told;
    }
    table.seen.asked = table.seen.asked.saturating_add(1);
    answers(alloc, table, b'0')
}

/// The client's next packet reaches the server so many times, what is ready is answered each time, and what the server sends reaches the
/// client. The greatest status.
fn turns(alloc: Global, table: &mut Table, digit: u8) -> u32 {
    let mut told = polls(alloc, table);
    if table.seen.packet_len > 0 {
        for _ in b'0'..digit {
            told = told.max(goes_up(alloc, table));
            told = told.max(serves(alloc, table));
        }
    }
    for _ in 0..3 {
        told = told.max(comes_down(alloc, table));
    }
    told
}

/// A step that both ends take part in, or else one of the client.
fn step(alloc: Global, table: &mut Table, letter: u8, digit: u8) -> u32 {
    match letter {
        b's' => submits(alloc, table, digit),
        b'm' => turns(alloc, table, digit),
        b'p' => polls(alloc, table),
        b'i' => polls_short(alloc, table),
        b'u' => goes_up(alloc, table),
        b'd' => comes_down(alloc, table),
        _ => step_of_client(alloc, table, letter, digit),
    }
}

fn step_of_client(alloc: Global, table: &mut Table, letter: u8, digit: u8) -> u32 {
    let client = &mut table.client;
    let call = u64::from(digit.saturating_sub(b'0'));
    match letter {
        b'c' => kfr_client_attach(alloc, client),
        b'h' => kfr_client_handle_packet(alloc, client, NOW, &[0; 50]),
        b'r' => kfr_client_renew(alloc, client),
        b'e' => kfr_client_end(alloc, client),
        b't' => kfr_client_tick(alloc, client),
        b'g' => kfr_client_ping(alloc, client, 1),
        b'l' => kfr_client_ask_salts(alloc, client, 1),
        b'o' => kfr_client_drop_answer(alloc, client, call),
        b'w' => kfr_client_state(
            alloc,
            client,
            call,
            &mut table.seen.state,
            &mut table.seen.code,
        ),
        b'k' => kfr_client_take_reply(
            alloc,
            client,
            call,
            &mut table.seen.room,
            &mut table.seen.len,
        ),
        b'n' => kfr_client_counts(
            alloc,
            client,
            &mut table.seen.session,
            &mut table.seen.calls,
            &mut table.seen.decided,
        ),
        _ => step_of_server(alloc, table, letter, digit),
    }
}

fn step_of_server(alloc: Global, table: &mut Table, letter: u8, digit: u8) -> u32 {
    let server = &mut table.server;
    match letter {
        b'b' => kfr_server_handle_packet(
            alloc,
            server,
            NOW,
            &[0; 50],
            &mut table.seen.key,
            &mut table.seen.session,
        ),
        b'T' => kfr_server_tick(alloc, server, NOW),
        b'A' => kfr_server_attach(alloc, server, KEY_ID, table.seen.session, NOW),
        b'R' => kfr_server_restart(alloc, server),
        b'y' => kfr_server_ready(alloc, server, &mut table.seen.ready),
        b'q' => asks(alloc, table, digit),
        b'a' => answers(alloc, table, digit),
        _ => look(&mut table.seen, letter, digit),
    }
}

/// A byte of the client's packet is changed (0), or something is looked at.
fn look(seen: &mut Seen, letter: u8, digit: u8) -> u32 {
    match letter {
        b'x' => change(&mut seen.packet, digit),
        b'v' => number(seen, digit),
        b'z' => kind(&seen.room),
        _ => 99,
    }
}

fn change(packet: &mut [u8], digit: u8) -> u32 {
    let place = usize::from(digit.saturating_sub(b'0'));
    if let Some(byte) = packet.get_mut(place.saturating_mul(40)) {
        *byte ^= 1;
    }
    0
}

/// A number that calls wrote; of the packet's length, whether it is that of one, and the same that a short room was told.
fn number(seen: &Seen, digit: u8) -> u32 {
    match digit {
        b'0' => small(seen.call),
        b'1' => seen.state,
        b'2' => seen.code,
        b'3' => small(seen.len),
        b'4' => seen.there,
        b'5' => seen.calls,
        b'6' => seen.decided,
        b'7' => small(seen.ready),
        b'8' => seen.asked,
        _ => u32::from(seen.packet_len >= 72 && seen.packet_len == seen.len),
    }
}

fn small(number: u64) -> u32 {
    u32::try_from(number).unwrap_or(99)
}

/// Which bytes stand at the front of the room: 1 a reply, 2 a request, 3 none, 0 others.
fn kind(room: &[u8]) -> u32 {
    if room.starts_with(b"answered") {
        1
    } else if room.starts_with(b"ask me!!") {
        2
    } else if room.starts_with(&[BLANK; 8]) {
        3
    } else {
        0
    }
}

fn figure(number: u32) -> u8 {
    b'0' + (number % 10) as u8
}

/// Takes the steps of a talk, and writes it anew with what each answered.
fn takes(alloc: Global, table: &mut Table, talk: &str) -> Result<Vec<u8>, Fail> {
    let mut told = Vec::new(alloc);
    for line in talk.as_bytes().chunks_exact(LINE_BYTES) {
        if let [letter, digit, ..] = line {
            let answer = step(alloc, table, *letter, *digit);
            let row = [
                *letter,
                *digit,
                b' ',
                figure(answer / 10),
                figure(answer),
                b'\n',
            ];
            told.extend_from_slice(&row)?;
        }
    }
    Ok(told)
}

/// A talk goes as it is written.
fn plays(alloc: Global, talk: &str) -> Result<(), Fail> {
    let mut table = lay(alloc)?;
    let told = takes(alloc, &mut table, talk);
    clear(table);
    same_text(str::from_utf8(told?.as_slice()).unwrap_or("no text"), talk)
}

#[test]
fn a_call_comes_to_its_reply(rt: HostRuntime) -> Result<(), Fail> {
    plays(
        rt.alloc(),
        "s0 00
c0 00
m1 00
m1 00
m1 00
m1 00
m1 00
w1 00
k1 00
v0 01
v1 03
v2 00
v3 08
v8 01
z0 01
",
    )
}

#[test]
fn packets_that_come_twice_run_once(rt: HostRuntime) -> Result<(), Fail> {
    plays(
        rt.alloc(),
        "s0 00
m2 00
m2 00
m2 00
m2 00
m2 00
w1 00
k1 00
v1 03
v3 08
v8 01
n0 00
v5 01
v6 01
",
    )
}

#[test]
fn a_server_that_waits_for_nothing(rt: HostRuntime) -> Result<(), Fail> {
    plays(
        rt.alloc(),
        "y0 00
v7 00
T0 00
A0 00
R0 00
q1 00
v4 00
v3 00
a0 17
d0 00
",
    )
}

#[test]
fn a_client_that_is_not_open(rt: HostRuntime) -> Result<(), Fail> {
    plays(
        rt.alloc(),
        "r0 12
e0 12
t0 12
g0 12
l0 12
o1 12
",
    )
}

#[test]
fn an_open_client_that_ends(rt: HostRuntime) -> Result<(), Fail> {
    plays(
        rt.alloc(),
        "s0 00
m1 00
m1 00
m1 00
m1 00
m1 00
t0 00
g0 00
l0 00
o1 13
e0 00
c0 11
s0 11
e0 12
r0 12
h0 00
",
    )
}

#[test]
fn a_client_that_goes_on_in_another_session(rt: HostRuntime) -> Result<(), Fail> {
    plays(
        rt.alloc(),
        "s0 00
m1 00
m1 00
m1 00
m1 00
m1 00
r0 00
r0 12
s0 00
m1 00
m1 00
m1 00
m1 00
m1 00
k2 00
z0 01
v8 02
",
    )
}

#[test]
fn calls_that_are_not_taken(rt: HostRuntime) -> Result<(), Fail> {
    plays(
        rt.alloc(),
        "s1 08
s2 08
s3 09
w1 09
k1 09
v0 77
v1 77
v2 77
v3 77
s0 00
k1 14
v3 77
z0 03
",
    )
}

#[test]
fn room_that_is_too_short_keeps_the_packet(rt: HostRuntime) -> Result<(), Fail> {
    plays(
        rt.alloc(),
        "s0 00
i0 04
z0 03
p0 00
v9 01
p0 00
v9 00
",
    )
}

#[test]
fn packets_that_do_not_open(rt: HostRuntime) -> Result<(), Fail> {
    plays(
        rt.alloc(),
        "s0 00
p0 00
b0 19
h0 19
x0 00
u0 20
x0 00
x1 00
u0 21
x1 00
u0 00
",
    )
}

#[test]
fn a_server_that_was_asked_is_busy(rt: HostRuntime) -> Result<(), Fail> {
    plays(
        rt.alloc(),
        "s0 00
p0 00
u0 00
d0 00
d0 00
d0 00
p0 00
u0 00
d0 00
d0 00
y0 00
v7 01
a0 17
q0 04
v4 01
v3 08
b0 16
T0 16
A0 16
R0 16
a1 18
q1 00
z0 02
a0 00
a0 17
",
    )
}
