//! A client in one of its states, and what events make of it.

ghost use Rattle.std.specs.Prelude.{◌≡◌, true, IfOk};
ghost use Rattle.client_core.specs.Holding.{is_open_now, kept_of};
ghost use Rattle.client_core.specs.Keys.{HasKeys, keys_in};

use crate::ends::parts::{Names, Parts, packet};
use crate::ends::serving::{Sent, Served};
use crate::ends::telling::{Text, tell_sent};
use client_core::{
    BindState, CallNo, CallState, Flush, Holder, OpenClient, OpenStep, OpeningClient, OpeningStep,
    Wish,
};
use draws::StepDraw;
use envelope::{Dir, Seal};
use msg_ids::Moment;
use octets::Octets;
use std::alloc::Global;
use std::test::Fail;
use test_keys::{KEY_ID, TEMP_ID};
use test_lines::Line;

/// The moment up to which the temporary key is to be bound.
const EXPIRES: u64 = 7200;

/// A client that has done nothing yet, under the permanent key or the temporary one, where its seal has both.
pub(crate) fn joins<S: Seal>(
    alloc: Global,
    seal: &S,
    key: u64,
    draw: &mut StepDraw,
) -> Result<Holder, Fail>
    ensures keys { IfOk result (λ holder. HasKeys (S.keys seal.now) (keys_in (kept_of holder))) }
{
    if !seal.has(KEY_ID) || !seal.has(TEMP_ID) {
        return Err(Fail::new("no key"));
    }
    if key == TEMP_ID {
        let expires = Moment::new(EXPIRES);
        let client = OpeningClient::new_temp(alloc, TEMP_ID, KEY_ID, expires, draw)?;
        return Ok(Holder::Opening(client));
    }
    Ok(Holder::Opening(OpeningClient::new(alloc, KEY_ID, draw)?))
}

/// A call of a body is submitted, perhaps behind another.
pub(crate) fn submits(
    holder: &mut Holder,
    alloc: Global,
    body: &[u8],
    after: Option<CallNo>,
) -> Result<(), Fail>
    ensures keys { keys_in (kept_of holder.new) ≡ keys_in (kept_of holder.old) }
{
    if holder.has_ended() {
        return Err(Fail::new("it ended"));
    }
    match holder.submit(alloc, body, after) {
        Ok(_) => Ok(()),
        Err(_) => Err(Fail::new("it isn't taken")),
    }
}

// The same of a line: its body, and the number of the call behind which it is, if there is one.
fn submits_so(holder: &mut Holder, line: &mut Line<'_>) -> Result<(), Fail>
    ensures keys { keys_in (kept_of holder.new) ≡ keys_in (kept_of holder.old) }
{
    let body = line.bytes()?;
    if line.is_empty() {
        return submits(holder, line.alloc, body.as_slice(), None);
    }
    let after = CallNo { n: line.number()? };
    submits(holder, line.alloc, body.as_slice(), Some(after))
}

// An open client is asked for something: whether the line told that.
fn is_asked(holder: &mut Holder, line: &mut Line<'_>) -> Result<bool, Fail>
    requires open { is_open_now (kept_of holder.old).rest ≡ true }
    ensures keys { keys_in (kept_of holder.new) ≡ keys_in (kept_of holder.old) }
{
    match line.verb {
        "tick" => holder.ask(Wish::Tick),
        "ping" => holder.ask(Wish::Ping(line.number()?)),
        "salts" => holder.ask(Wish::Salts(line.small()?)),
        "drop" => {
            let call = CallNo { n: line.number()? };
            if holder.drop_answer(call).is_err() {
                return Err(Fail::new("it isn't sent"));
            }
        }
        _ => return Ok(false),
    }
    Ok(true)
}

/// A client is asked for something: whether the line told that.
pub(crate) fn is_wished(holder: &mut Holder, line: &mut Line<'_>) -> Result<bool, Fail>
    ensures keys { keys_in (kept_of holder.new) ≡ keys_in (kept_of holder.old) }
{
    if line.verb == "submit" {
        submits_so(holder, line)?;
        return Ok(true);
    }
    if line.verb == "attach" {
        holder.attach();
        return Ok(true);
    }
    if !holder.is_open() {
        return Ok(false);
    }
    is_asked(holder, line)
}

/// A client sends what is due at a moment, which is told, and is what was sent last: whether the line told that.
pub(crate) fn is_flushed<S: Seal>(
    holder: &mut Holder,
    line: &mut Line<'_>,
    seal: &S,
    draw: &mut StepDraw,
    sent: &mut Sent,
    text: &mut Text,
) -> Result<bool, Fail>
    requires keys { HasKeys (S.keys seal.now) (keys_in (kept_of holder.old)) }
    ensures keys { keys_in (kept_of holder.new) ≡ keys_in (kept_of holder.old) }
{
    if line.verb != "flush" {
        return Ok(false);
    }
    let now = Moment::new(line.number()?);
    let flush = holder.flush(line.alloc, now, seal, draw);
    tells_flush(line.alloc, seal, flush, sent, text)?;
    Ok(true)
}

// What a flush gave is told, and is what was sent last.
fn tells_flush<S: Seal>(
    alloc: Global,
    seal: &S,
    flush: Flush,
    sent: &mut Sent,
    text: &mut Text,
) -> Result<(), Fail> {
    match flush {
        Flush::Packet(packet) => {
            tell_sent(alloc, text, seal, &packet)?;
            sent.up = packet;
            Ok(())
        }
        Flush::Nothing => text.push("nothing is sent\n"),
        Flush::Spent | Flush::Memory => Err(Fail::new("no packet")),
    }
}

// A packet comes down to a client.
fn takes<S: Seal>(holder: Holder, alloc: Global, seal: &S, packet: &[u8]) -> Result<Holder, Fail>
    ensures keys { IfOk result (λ taken. keys_in (kept_of taken) ≡ keys_in (kept_of holder)) }
{
    match holder {
        Holder::Opening(client) => opening_takes(client, alloc, seal, packet),
        Holder::Open(client) => open_takes(client, alloc, seal, packet),
        Holder::Ended(client) => Ok(Holder::Ended(client)),
    }
}

fn opening_takes<S: Seal>(
    client: OpeningClient,
    alloc: Global,
    seal: &S,
    packet: &[u8],
) -> Result<Holder, Fail>
    ensures keys { IfOk result (λ taken. keys_in (kept_of taken) ≡ keys_in client) }
{
    match client.on_packet(alloc, Moment::new(0), seal, packet) {
        OpeningStep::Still(client) => Ok(Holder::Opening(client)),
        OpeningStep::Opened(client) => Ok(Holder::Open(client)),
        OpeningStep::Memory(client) => {
            drop(client);
            Err(Fail::new("no memory"))
        }
    }
}

fn open_takes<S: Seal>(
    client: OpenClient,
    alloc: Global,
    seal: &S,
    packet: &[u8],
) -> Result<Holder, Fail>
    ensures keys { IfOk result (λ taken. keys_in (kept_of taken) ≡ keys_in client) }
{
    match client.on_packet(alloc, Moment::new(0), seal, packet) {
        OpenStep::Still(client) => Ok(Holder::Open(client)),
        OpenStep::Ended(client) => Ok(Holder::Ended(client)),
        OpenStep::Memory(client) => {
            drop(client);
            Err(Fail::new("no memory"))
        }
    }
}

/// Packets come down to a client, one after the other.
pub(crate) fn takes_all<S: Seal>(
    holder: Holder,
    alloc: Global,
    seal: &S,
    packets: &[Octets],
) -> Result<Holder, Fail>
    ensures keys { IfOk result (λ taken. keys_in (kept_of taken) ≡ keys_in (kept_of holder)) }
{
    let mut holder = holder;
    for packet in packets {
        holder = takes(holder, alloc, seal, packet.as_slice())?;
    }
    Ok(holder)
}

/// The packets down that tell of as many further sessions of the server as a line says, which have the numbers from 10 on.
pub(crate) fn packets_of_sessions<S: Seal>(
    line: &mut Line<'_>,
    seal: &S,
    names: Names,
) -> Result<Vec<Octets>, Fail> {
    let (alloc, count) = (line.alloc, line.number()?);
    let mut packets = Vec::new(alloc);
    for k in 0..count {
        let body = new_session(k.wrapping_add(10));
        let number = k.wrapping_mul(4).wrapping_add(17);
        packets.push(packet(alloc, seal, Dir::Down, names, (number, 1, &body))?)?;
    }
    Ok(packets)
}

// `new_session_created` with this unique number.
fn new_session(unique: u64) -> [u8; 28] {
    let mut body = *b"\x08\x09\xc2\x9e\x04\0\0\0\0\0\0\0\0\0\0\0\0\0\0\0\x05\0\0\0\0\0\0\0";
    body[12..20].copy_from_slice(&unique.to_le_bytes());
    body
}

/// An open client goes on in another session, or ends.
pub(crate) fn leaves(holder: Holder, ends: bool, draw: &mut StepDraw) -> Result<Holder, Fail>
    ensures keys { IfOk result (λ left. keys_in (kept_of left) ≡ keys_in (kept_of holder)) }
{
    if !holder.is_open() {
        drop(holder);
        return Err(Fail::new("it isn't open"));
    }
    if ends {
        return Ok(holder.end());
    }
    Ok(holder.renew(draw))
}

// The message of a line: alone, or a container of the messages that are put together.
fn message_of(line: &mut Line<'_>, parts: &mut Parts) -> Result<(u64, u32, Octets), Fail> {
    let (number, seq) = line.named()?;
    if line.verb == "hear" {
        return Ok((number, seq, line.bytes()?));
    }
    Ok((number, seq, parts.container(line.alloc)?))
}

/// The packet down of the message of a line.
pub(crate) fn packet_of_line<S: Seal>(
    line: &mut Line<'_>,
    seal: &S,
    served: &mut Served<S>,
) -> Result<Octets, Fail> {
    let (number, seq, body) = message_of(line, &mut served.parts)?;
    let message = (number, seq, body.as_slice());
    packet(line.alloc, seal, Dir::Down, served.names, message)
}

// What became of a call.
fn state(holder: &Holder, n: u64) -> Option<CallState<'_>> {
    if n == 0 || n > u64::from(holder.calls()) {
        return None;
    }
    Some(holder.state(CallNo { n }))
}

/// What became of a call of a client as text.
pub(crate) fn call_told(alloc: Global, holder: &Holder, n: u64) -> Result<String, Fail> {
    match state(holder, n) {
        Some(state) => Ok(format!(in alloc; "{state:?}")?),
        None => Ok(String::from_str(alloc, "none")?),
    }
}

// What became of a binding.
fn binding(holder: &Holder) -> Option<BindState> {
    match holder {
        Holder::Open(client) => client.binding(),
        Holder::Opening(_) | Holder::Ended(_) => None,
    }
}

// In which state a client is.
fn shape(holder: &Holder) -> &'static str {
    match holder {
        Holder::Opening(_) => "opening",
        Holder::Open(_) => "open",
        Holder::Ended(_) => "ended",
    }
}

/// Something of a client is told: whether the line asked for that.
pub(crate) fn is_told(holder: &Holder, line: &mut Line<'_>, text: &mut Text) -> Result<bool, Fail> {
    let alloc = line.alloc;
    match line.verb {
        "state" => {
            let n = line.number()?;
            let state = call_told(alloc, holder, n)?;
            text.push(format!(in alloc; "call {n} {state}\n")?.as_str())?;
        }
        "number" => {
            let session = holder.session();
            text.push(format!(in alloc; "session {session}\n")?.as_str())?;
        }
        "binding" => {
            let binding = binding(holder);
            text.push(format!(in alloc; "binding {binding:?}\n")?.as_str())?;
        }
        "shape" => {
            let shape = shape(holder);
            text.push(format!(in alloc; "{shape}\n")?.as_str())?;
        }
        _ => return Ok(false),
    }
    Ok(true)
}
