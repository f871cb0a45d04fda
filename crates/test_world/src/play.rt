//! Servers that play steps, each of them a word.

use crate::desks::{SESSION, Server, first, seal, second};
use disks::MemDisk;
use envelope::{Dir, Opened, Seal};
use msg_ids::Moment;
use octets::Octets;
use regs_service::{Regs, Service};
use server_core::{DeskFault, Effects, Reply};
use std::alloc::Global;
use std::test::Fail;
use test_asserts::same;
use test_keys::KEY_ID;

/// The moment of all steps.
fn now() -> Moment {
    Moment::new(0)
}

/// The result 5 of the call 12.
const RESULT: &[u8] = b"\x01\x6d\x5c\xf3\x0c\0\0\0\0\0\0\0\x03\x2c\x1b\x0a\x05\0\0\0\0\0\0\0";

/// The error of the call 12, whose run was cut off.
const INTERRUPTED: &[u8] =
    b"\x01\x6d\x5c\xf3\x0c\0\0\0\0\0\0\0\x19\xca\x44\x21\xf4\x01\0\0\x0fRUN_INTERRUPTED";

/// What a fault is told as.
fn fault_word(fault: DeskFault) -> &'static str {
    match fault {
        DeskFault::Closed => "closed",
        DeskFault::Full { .. } => "full",
        DeskFault::Disk => "disk",
        DeskFault::Memory => "memory",
    }
}

/// What an event is told as that gave so many packets and so many entries.
fn gift_word(packets: usize, entries: usize) -> &'static str {
    if packets == 0 && entries == 0 {
        "nothing"
    } else if packets == 1 && entries == 0 {
        "packet"
    } else if packets == 1 && entries == 1 {
        "run"
    } else {
        "more"
    }
}

/// What an event is told as.
fn event_word(given: Result<Effects, DeskFault>) -> &'static str {
    match given {
        Ok(effects) => gift_word(
            effects.out.as_slice().len(),
            effects.entries.as_slice().len(),
        ),
        Err(fault) => fault_word(fault),
    }
}

/// What a packet is told as.
fn packet_word(given: Result<Reply, DeskFault>) -> &'static str {
    match given {
        Ok(reply) => gift_word(reply.out.as_slice().len(), reply.entries.as_slice().len()),
        Err(fault) => fault_word(fault),
    }
}

/// What the body of the first packet is told as that an attach sends.
fn body_word(alloc: Global, effects: &Effects) -> Result<&'static str, Fail> {
    let Some(out) = effects.out.as_slice().first() else {
        return Ok("silence");
    };
    let Opened::Envelope(envelope) = seal(alloc)?.unseal(
        alloc,
        now(),
        Dir::Down,
        out.packet.as_slice(),
    ) else {
        return Err(Fail::new("no packet that opens"));
    };
    let body = envelope.body.as_slice();
    Ok(if body == RESULT {
        "result"
    } else if body == INTERRUPTED {
        "interrupted"
    } else if body.starts_with(b"\x08\x09\xc2\x9e") {
        "new"
    } else {
        "other"
    })
}

/// What the session is told by an attach.
fn look(alloc: Global, server: &mut Server) -> Result<&'static str, Fail> {
    match server.attach(alloc, KEY_ID, SESSION, now()) {
        Ok(effects) => body_word(alloc, &effects),
        Err(fault) => Ok(fault_word(fault)),
    }
}

/// Runs the first job, where one is ready.
fn run(alloc: Global, server: &mut Server, service: &mut Regs) -> &'static str {
    if server.ready() == 0 {
        return "none";
    }
    event_word(server.work(alloc, 0, service, now()))
}

/// The server plays a step: what that is told as.
///
/// # Errors
///
/// Where the word is none of a step, or memory runs out.
fn step(
    alloc: Global,
    server: &mut Server,
    service: &mut Regs,
    word: &str,
) -> Result<&'static str, Fail> {
    match word {
        "first" => {
            let packet = first(alloc)?;
            Ok(packet_word(server.on_packet(alloc, now(), packet.as_slice())))
        }
        "second" => {
            let packet = second(alloc)?;
            Ok(packet_word(server.on_packet(alloc, now(), packet.as_slice())))
        }
        "unsealed" => Ok(packet_word(server.on_packet(alloc, now(), b"no packet"))),
        "tick" => Ok(event_word(server.tick(alloc, now()))),
        "stranger" => Ok(event_word(server.attach(alloc, KEY_ID, 77, now()))),
        "look" => look(alloc, server),
        "run" => Ok(run(alloc, server, service)),
        "ready" => Ok(if server.ready() == 0 { "none" } else { "some" }),
        _ => Err(Fail::new("no step")),
    }
}

/// The server plays steps: what each is told as, with a blank between them.
///
/// # Errors
///
/// As of one step.
fn play(alloc: Global, server: &mut Server, steps: &str) -> Result<Octets, Fail> {
    let mut service = Regs::fresh(alloc);
    let mut told = Octets::new(alloc);
    for word in steps.split(' ') {
        if !told.as_slice().is_empty() {
            told.push_all(alloc, b" ")?;
        }
        let found = step(alloc, server, &mut service, word)?;
        told.push_all(alloc, found.as_bytes())?;
    }
    Ok(told)
}

/// A server with a new journal, of a seed of zeros, over this disk.
pub(crate) fn created(alloc: Global, disk: MemDisk) -> Result<Server, Fail> {
    match Server::create(alloc, disk, seal(alloc)?, &[0; 32]) {
        Ok(server) => Ok(server),
        Err(_back) => Err(Fail::new("not made")),
    }
}

/// The server of a disk that is opened.
fn opened(alloc: Global, disk: MemDisk) -> Result<Server, Fail> {
    match Server::open(alloc, disk, seal(alloc)?, now()) {
        Ok(server) => Ok(server),
        Err(_back) => Err(Fail::new("not opened")),
    }
}

/// The server plays steps: what they are told as, and its disk.
fn over(alloc: Global, server: Server, steps: &str) -> Result<(Octets, MemDisk), Fail> {
    let mut server = server;
    let told = play(alloc, &mut server, steps);
    let disk = server.into_disk();
    match told {
        Ok(told) => Ok((told, disk)),
        Err(fail) => {
            drop(disk);
            Err(fail)
        }
    }
}

/// A server with a new journal over this disk plays steps: what they are told as, and the disk.
pub(crate) fn begun(alloc: Global, disk: MemDisk, steps: &str) -> Result<(Octets, MemDisk), Fail> {
    over(alloc, created(alloc, disk)?, steps)
}

/// The server of a disk that is opened plays steps: what they are told as, and the disk.
pub(crate) fn resumed(
    alloc: Global,
    disk: MemDisk,
    steps: &str,
) -> Result<(Octets, MemDisk), Fail> {
    over(alloc, opened(alloc, disk)?, steps)
}

/// The steps were told as this: their disk.
fn as_told(played: (Octets, MemDisk), wanted: &[u8]) -> Result<MemDisk, Fail> {
    let (told, disk) = played;
    match same(told.as_slice(), wanted) {
        Ok(()) => Ok(disk),
        Err(fail) => {
            drop(disk);
            Err(fail)
        }
    }
}

/// A server with a new journal over this disk plays steps, which are told as this: the disk.
pub(crate) fn begins(
    alloc: Global,
    disk: MemDisk,
    steps: &str,
    wanted: &[u8],
) -> Result<MemDisk, Fail> {
    as_told(begun(alloc, disk, steps)?, wanted)
}

/// The server of a disk that is opened plays steps, which are told as this: the disk.
pub(crate) fn goes_on(
    alloc: Global,
    disk: MemDisk,
    steps: &str,
    wanted: &[u8],
) -> Result<MemDisk, Fail> {
    as_told(resumed(alloc, disk, steps)?, wanted)
}
