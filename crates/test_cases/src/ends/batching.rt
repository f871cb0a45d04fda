//! Batches of calls over links in memory.

ghost use Rattle.std.specs.Prelude.{IfOk};
ghost use Rattle.client_core.specs.Holding.{kept_of};
ghost use Rattle.client_core.specs.Keys.{HasKeys, keys_in};

use crate::ends::serving::Sent;
use crate::ends::talking::{call_told, joins, submits};
use crate::ends::telling::Text;
use client_core::Holder;
use client_node::{Batch, Plan, run_batch};
use draws::StepDraw;
use envelope::Seal;
use msg_ids::Moment;
use mt_edge::{ListClock, MemLink, MemNet, NetCall, Outcome};
use octets::Octets;
use std::alloc::Global;
use std::test::Fail;
use test_keys::KEY_ID;
use test_lines::Line;
use transport::Form;

/// The body of the call `add x 5`.
const ADD_X_5: &[u8] = b"\x01\x2c\x1b\x0a\x01x\0\0\x05\0\0\0\0\0\0\0";

/// Room for what goes over a link, in bytes.
const ROOM_BYTES: usize = 4_096;

// Puts a packet's frame of the intermediate form behind what is there.
fn framed(alloc: Global, into: &mut Octets, packet: &[u8]) -> Result<(), Fail> {
    let Ok(size) = u32::try_from(packet.len()) else {
        return Err(Fail::new("too long"));
    };
    into.push_all(alloc, &size.to_le_bytes())?;
    into.push_all(alloc, packet)?;
    Ok(())
}

// A link over which the frames come, at most so many bytes at a time, and whose call of this number fails.
fn link(alloc: Global, frames: &[u8], line: &mut Line<'_>) -> Result<MemLink, Fail> {
    let (piece, failing) = (line.number()?, line.number()?);
    match usize::try_from(piece) {
        Ok(piece) if piece > 0 => {
            Ok(MemLink::new(alloc, frames, piece, &[failing], ROOM_BYTES, 16)?)
        }
        _ => Err(Fail::new("no piece")),
    }
}

/// The frames and the links of a net that isn't used yet: whether the line told that.
pub(crate) fn is_linked(
    line: &mut Line<'_>,
    sent: &mut Sent,
    links: &mut Vec<MemLink>,
) -> Result<bool, Fail> {
    let alloc = line.alloc;
    match line.verb {
        "frame" => framed(alloc, &mut sent.frames, sent.down.as_slice())?,
        "link" => links.push(link(alloc, sent.frames.as_slice(), line)?)?,
        "bare" => links.push(link(alloc, &[], line)?)?,
        _ => return Ok(false),
    }
    Ok(true)
}

// A client that has done nothing yet, with the call `add x 5` or with none.
fn asks<S: Seal>(alloc: Global, idles: bool, seal: &S, draw: &mut StepDraw) -> Result<Holder, Fail>
    ensures keys { IfOk result (λ holder. HasKeys (S.keys seal.now) (keys_in (kept_of holder))) }
{
    let mut client = joins(alloc, seal, KEY_ID, draw)?;
    if idles {
        return Ok(client);
    }
    match submits(&mut client, alloc, ADD_X_5, None) {
        Ok(()) => Ok(client),
        Err(fail) => {
            drop(client);
            Err(fail)
        }
    }
}

// What is told of the batch of a client over a net, with so many retries.
fn runs<S: Seal>(
    alloc: Global,
    client: Holder,
    retries: u32,
    net: &mut MemNet,
    seal: &S,
    clock: &mut ListClock,
    draw: &mut StepDraw,
) -> Result<String, Fail>
    requires keys { HasKeys (S.keys seal.now) (keys_in (kept_of client)) }
{
    let plan = Plan {
        port: 1,
        form: Form::Intermediate,
        obfuscate: false,
        retries,
    };
    let (client, end) = run_batch(alloc, client, &plan, net, seal, clock, draw);
    let told = told_of(alloc, &client, &end, net);
    drop(client);
    told
}

// How a batch ended, how many calls of the net there were, how many of the first link failed, and what became of the first
// call.
fn told_of(alloc: Global, client: &Holder, end: &Batch, net: &MemNet) -> Result<String, Fail> {
    let (calls, failed) = (net.calls().len(), failed(net));
    let first = call_told(alloc, client, 1)?;
    Ok(format!(in alloc; "{end:?}, {calls} calls, {failed:?} failed, {first}\n")?)
}

// A net over the links, the last one first, none of which are left then.
fn net_of(alloc: Global, links: &mut Vec<MemLink>) -> Result<MemNet, Fail> {
    let links = std::mem::replace(links, Vec::new(alloc));
    Ok(MemNet::new(alloc, links, &[], 8)?)
}

// How many calls of the first link of a net have failed, where it was given back.
fn failed(net: &MemNet) -> Option<u64> {
    match net.calls().first() {
        Some(
            NetCall::Connect {
                outcome: Outcome::Done { faults, .. },
                ..
            },
        ) => Some(*faults),
        _ => None,
    }
}

/// The batch of a client that has done nothing yet, with the call `add x 5` or with none, over the links, the last one first: how
/// it ends, how many calls of the net there were, how many of the first link failed, and what became of the first call. Whether
/// the line told that.
pub(crate) fn is_run<S: Seal>(
    line: &mut Line<'_>,
    seal: &S,
    links: &mut Vec<MemLink>,
    text: &mut Text,
) -> Result<bool, Fail> {
    let idles = line.verb == "idle";
    if !idles && line.verb != "batch" {
        return Ok(false);
    }
    let (alloc, mut draw) = (line.alloc, StepDraw::new());
    let retries = line.small()?;
    let mut clock = ListClock::new(alloc, &[Moment::new(0)])?;
    let mut net = net_of(alloc, links)?;
    let told = match asks(alloc, idles, seal, &mut draw) {
        Ok(client) => runs(
            alloc, client, retries, &mut net, seal, &mut clock, &mut draw,
        ),
        Err(fail) => Err(fail),
    };
    drop(net);
    text.push(told?.as_str())?;
    Ok(true)
}
