//! Functions as a program has them over the library, with contracts of their own. They need no proof file, but for the line that names
//! the form for which a packet fits.

ghost use Rattle.std.specs.Prelude.{◌≡◌, ◌≤◌, None, IfNone, IfOk, IfSome, Ok, OnErr, OnSome, Some, false, is_some, length, max, true};
ghost use Rattle.call_table.specs.Table.{call_no};
ghost use Rattle.client_core.specs.Flushed.{setting_of};
ghost use Rattle.client_core.specs.Holding.{kept_of};
ghost use Rattle.client_rules.specs.Asking.{submitted};
ghost use Rattle.client_rules.specs.Client.{Client as ClientRules, calls_of};
ghost use Rattle.envelope.specs.Lock.{mt_lock};
ghost use Rattle.server_rules.specs.Server.{Server as ServerRules};
ghost use Rattle.server_session.specs.Says.{Keys, setting_of as event_at};
ghost use Rattle.kifzaro.specs.Clients as clients;
ghost use Rattle.kifzaro.specs.Clients.{Polls};
ghost use Rattle.kifzaro.specs.Drawing.{drawing};
ghost use Rattle.kifzaro.specs.Servers as servers;
ghost use Rattle.kifzaro.specs.Servers.{after_reply};

use kifzaro::{CallId, Client, Error, Framed, Moment, Octets, Server, Wire, fits};
use std::alloc::Global;

/// The most calls that a caller wants to have.
const CALLS_MAX: u32 = 1000;

/// Submits a call, unless there are a thousand already: its number, if it was.
pub fn submits_few(client: &mut Client, alloc: Global, body: &[u8]) -> Result<Option<CallId>, Error>
    ensures full { (rules : ClientRules) → clients.Is client.old rules → IfOk result (λ call. IfNone call (1000 ≤ length (calls_of rules))) }
    ensures is { (rules : ClientRules) → clients.Is client.old rules → IfOk result (λ call. OnSome call (clients.Is client.new (submitted body.now None rules))) }
    ensures number { (rules : ClientRules) → clients.Is client.old rules → IfOk result (λ call. IfSome call (λ call. call ≡ call_no (length (calls_of rules)))) }
    ensures unchanged { OnErr result (client.new ≡ client.old) }
{
    if client.calls() >= CALLS_MAX {
        return Ok(None);
    }
    Ok(Some(client.submit(alloc, body, None)?))
}

/// The packet that a client sends next, of which the caller sees the bytes alone; none where there is nothing to send.
pub fn sends_next(client: &mut Client, alloc: Global, now: Moment) -> Result<Option<Octets>, Error>
    ensures waited { IfSome client.old.waiting (λ packet. result ≡ Ok (Some packet)) }
    ensures due { (rules : ClientRules) → clients.Is client.old rules → client.old.waiting ≡ None
        → Polls (setting_of drawing client.old.ring) mt_lock client.old.ring now rules client.old.draw result (kept_of client.new.holder) client.new.draw }
    ensures once { client.new.waiting ≡ None }
{
    match client.poll_transmit(alloc, now)? {
        Some(packet) => Ok(Some(packet)),
        None => Ok(None),
    }
}

/// The next request, if there is one, is answered by this reply: whether there was one. Where the reply isn't taken, the request
/// waits on.
pub fn answers_with(
    server: &mut Server,
    alloc: Global,
    now: Moment,
    reply: &[u8],
) -> Result<bool, Error>
    ensures is { (keys : Keys) (rules : ServerRules) → servers.Is server.old rules
        → IfOk result (λ there. there ≡ true → servers.Is server.new (after_reply (event_at (max server.old.server.moment now) drawing keys) reply.now rules server.old.draw).server) }
{
    if !server.next_request()? {
        return Ok(false);
    }
    server.answer(alloc, now, reply)?;
    Ok(true)
}

/// Puts a packet behind a text, in a frame of the wire's form: whether it may go over it.
pub fn frames(
    wire: &mut Wire<Framed>,
    alloc: Global,
    packet: &[u8],
    out: &mut Octets,
) -> Result<bool, Error>
    ensures framed { IfOk result (λ there. there ≡ false → out.new ≡ out.old) }
{
    if !fits(packet) {
        return Ok(false);
    }
    wire.put(alloc, packet, out)?;
    Ok(true)
}

/// The same of the packet that a client sends next, if there is one.
pub fn frames_next(
    client: &mut Client,
    wire: &mut Wire<Framed>,
    alloc: Global,
    now: Moment,
    out: &mut Octets,
) -> Result<bool, Error>
    ensures framed { IfOk result (λ there. there ≡ false → out.new ≡ out.old) }
{
    match client.poll_transmit(alloc, now)? {
        Some(packet) => frames(wire, alloc, packet.as_slice(), out),
        None => Ok(false),
    }
}

/// The same of the packet that a server sends next.
pub fn frames_out(
    server: &mut Server,
    wire: &mut Wire<Framed>,
    alloc: Global,
    out: &mut Octets,
) -> Result<bool, Error>
    ensures framed { IfOk result (λ there. there ≡ false → out.new ≡ out.old) }
{
    match server.poll_transmit(alloc) {
        Some(packet) => frames(wire, alloc, packet.packet.as_slice(), out),
        None => Ok(false),
    }
}

/// Whether a packet that comes after the next request was handed out is refused as busy: where one was handed out, it is, and
/// the request waits on.
pub fn is_busy_then(
    server: &mut Server,
    alloc: Global,
    now: Moment,
    packet: &[u8],
) -> Result<bool, Error>
    ensures busy { IfOk result (λ busy. busy ≡ is_some server.new.asked) }
{
    if !server.next_request()? {
        return Ok(false);
    }
    match server.handle_packet(alloc, now, packet) {
        Err(Error::Busy) => Ok(true),
        Ok(_) => Ok(false),
        Err(error) => Err(error),
    }
}
