//! Worlds over the cores, stepped through schedules.

ghost use Rattle.std.specs.Prelude.{◌≡◌, OnOk, ℕ};
ghost use Rattle.sim_world.specs.Keys.{HasWorldKeys};

use call_table::{CallNo, CallState};
use client_core::Holder;
use envelope::{ClearSeal, Seal};
use regs_service::Regs;
use sim_world::World;
use std::alloc::Global;
use std::test::*;
use test_asserts::same;
use test_keys::{KEY_ID, TEMP_ID, both_keys};

// A new world.
fn world(alloc: Global) -> Result<World<ClearSeal, Regs>, Fail> {
    let seal = ClearSeal::new(both_keys(alloc)?);
    if !seal.has(KEY_ID) || !seal.has(TEMP_ID) {
        return Err(Fail::new("no key"));
    }
    Ok(World::new(alloc, seal))
}

// Steps a world through a schedule; how often it was refused.
fn stepped(alloc: Global, world: &mut World<ClearSeal, Regs>, text: &[u8]) -> Result<u32, Fail> {
    if u32::try_from(text.len()).is_err() {
        return Err(Fail::new("too long"));
    }
    let events = sched_text::read(alloc, text)?;
    let mut refused = 0u32;
    for k in 0..events.len() {
        if world.step(alloc, events.event(k)).is_err() {
            refused = refused.wrapping_add(1);
        }
    }
    Ok(refused)
}

// What became of the first call of the first client: the sum that it was answered, where it was.
fn sum(world: &World<ClearSeal, Regs>) -> Option<u8> {
    if world.clients() == 0 {
        return None;
    }
    let first = CallNo { n: 1 };
    let state = match world.client(1) {
        Holder::Open(client) if client.calls() > 0 => client.state(first),
        _ => return None,
    };
    match state {
        CallState::Done(reply) if reply.len() == 12 => Some(reply[4]),
        _ => None,
    }
}

// How often a schedule is refused in a world, how many packets that makes, and what becomes of the first call.
fn told(
    alloc: Global,
    world: &mut World<ClearSeal, Regs>,
    text: &[u8],
) -> Result<(u32, u64, Option<u8>), Fail> {
    let refused = stepped(alloc, world, text)?;
    Ok((refused, world.packets(), sum(world)))
}

// The same in a new world.
fn run(alloc: Global, text: &[u8]) -> Result<(u32, u64, Option<u8>), Fail> {
    let mut world = world(alloc)?;
    let told = told(alloc, &mut world, text);
    drop(world);
    told
}

// A call is answered; its result is lost in a restart; events that are refused.
#[test]
fn schedules(rt: HostRuntime) -> Result<(), Fail> {
    let alloc = rt.alloc();
    let first =
        b"client\ncall 1 add x 5\nflush 1\ngive 1\ngive 2\nflush 1\ngive 3\nwork 1\ngive 4\ngive 5\n";
    same(run(alloc, first)?, (0, 5, Some(5)))?;
    let lost =
        b"client\ncall 1 add x 5\nflush 1\ngive 1\ngive 2\nflush 1\ngive 3\nwork 1\nrestart\ngive 3\ngive 6\ngive 5\n";
    same(run(alloc, lost)?, (0, 6, None))?;
    let refused =
        b"client\ncall 1 add x 5\nflush 2\ngive 1\nwork 1\nrenew 1\ncall 1 pad 4 after 7\nlose 2\n";
    same(run(alloc, refused)?, (6, 0, None))?;
    Ok(())
}

// The server's jobs and the client's session, where the call of a first run came to the server.
fn has_cores(alloc: Global, world: &mut World<ClearSeal, Regs>) -> Result<(), Fail> {
    let schedule = b"client\ncall 1 add x 5\nflush 1\ngive 1\ngive 2\nflush 1\ngive 3\n";
    same(stepped(alloc, world, schedule)?, 0)?;
    same(world.server().ready(), 1)?;
    same(world.clients(), 1)?;
    if world.clients() != 1 {
        return Err(Fail::new("no client"));
    }
    same(world.client(1).session(), 6_364_136_223_846_793_005)
}

#[test]
fn cores_of_a_world(rt: HostRuntime) -> Result<(), Fail> {
    let mut world = world(rt.alloc())?;
    let done = has_cores(rt.alloc(), &mut world);
    drop(world);
    done
}
