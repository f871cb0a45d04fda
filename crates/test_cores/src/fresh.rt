//! What a server does that no session has come to.

ghost use Rattle.std.specs.Prelude.{◌≡◌, IfErr};

use draws::StepDraw;
use envelope::{MtSeal, Seal};
use msg_ids::Moment;
use regs_service::{Regs, Service};
use server_core::{Desk, DeskFault, Effects, Plain, Reply, Server};
use std::alloc::Global;
use std::test::*;
use test_asserts::{holds, same};
use test_keys::{KEY_ID, ring};

// How many packets and entries an event gave.
fn counts(effects: Effects) -> (usize, usize) {
    let counts = (
        effects.out.as_slice().len(),
        effects.entries.as_slice().len(),
    );
    drop(effects);
    counts
}

fn owes_nothing(alloc: Global, server: &mut Server<MtSeal>) -> Result<(), Fail> {
    let mut draw = StepDraw::new();
    for seconds in [0, 1_000, 5] {
        let effects = server.attach(alloc, KEY_ID, 9, Moment::new(seconds), &mut draw)?;
        same(counts(effects), (0, 0))?;
    }
    holds(!server.lose(KEY_ID, 9))?;
    server.restart(alloc);
    same((server.ready(), server.unfinished()), (0, 0))?;
    holds(server.seal().has(KEY_ID))
}

#[test]
fn an_unknown_session_owes_nothing(rt: HostRuntime) -> Result<(), Fail> {
    let alloc = rt.alloc();
    let mut server = Server::new(alloc, MtSeal::new(ring(alloc, "perm")?));
    let done = owes_nothing(alloc, &mut server);
    drop(server);
    done
}

#[test]
fn a_tick_with_nothing_due_says_nothing(rt: HostRuntime) -> Result<(), Fail> {
    let alloc = rt.alloc();
    let mut server = Server::new(alloc, MtSeal::new(ring(alloc, "perm")?));
    let effects = server.tick(alloc, Moment::new(30), &mut StepDraw::new());
    drop(server);
    same(counts(effects?), (0, 0))
}

// How many packets a packet gave.
fn sent_by(reply: Reply) -> usize {
    let sent = reply.out.as_slice().len();
    drop(reply);
    sent
}

// A packet comes to any desk, then a ready job runs and a tick comes: how many packets go out.
fn serves<K: Desk, V: Service>(
    alloc: Global,
    desk: &mut K,
    service: &mut V,
    now: Moment,
    packet: &[u8],
) -> Result<usize, DeskFault>
    ensures same_keys { K.keys desk.new ≡ K.keys desk.old }
    ensures faults { IfErr result K.MayAnswer }
{
    let mut sent = sent_by(desk.on_packet(alloc, now, packet)?);
    if desk.ready() > 0 {
        let (run, _) = counts(desk.work(alloc, 0, service, now)?);
        sent = sent.saturating_add(run);
    }
    let (ticked, _) = counts(desk.tick(alloc, now)?);
    Ok(sent.saturating_add(ticked))
}

// How many packets go out, and how many jobs are ready then, where a packet that doesn't open comes to a plain desk.
fn dropped(alloc: Global, server: &mut Server<MtSeal>) -> (Result<usize, DeskFault>, usize) {
    let mut draw = StepDraw::new();
    let mut service = Regs::fresh(alloc);
    let mut desk = Plain {
        server,
        draw: &mut draw,
    };
    let now = Moment::new(30);
    let sent = serves(alloc, &mut desk, &mut service, now, b"too short");
    let ready = desk.ready();
    drop(service);
    (sent, ready)
}

#[test]
fn a_plain_desk_drops_what_does_not_open(rt: HostRuntime) -> Result<(), Fail> {
    let alloc = rt.alloc();
    let mut server = Server::new(alloc, MtSeal::new(ring(alloc, "perm")?));
    let (sent, ready) = dropped(alloc, &mut server);
    drop(server);
    same(sent?, 0)?;
    same(ready, 0)
}
