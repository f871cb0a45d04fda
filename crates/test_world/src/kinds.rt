//! Records of each kind, and records that are no such.

ghost use Rattle.std.specs.Prelude.{◌≡◌, IfOk};

use crate::reading::{HEADER, Outcome, outcome_in};
use disks::{Disk, MemDisk};
use octets::Octets;
use sess_records::{Event, Journal, Opening, Record};
use std::alloc::Global;
use std::test::Fail;
use test_asserts::{holds, same};

/// A file of one record: a length field, a kind, so many bytes behind its moment and its place, and a closed gate.
fn one_record(alloc: Global, size: u32, kind: u8, rest: u32) -> Result<Octets, Fail> {
    let mut file = Octets::copy(alloc, &HEADER)?;
    file.push_all(alloc, &[1])?;
    file.push_all(alloc, &size.to_le_bytes())?;
    file.push_all(alloc, &[kind])?;
    let zeros = vec![in alloc; 0u8; rest as usize + 17]?;
    file.push_all(alloc, &zeros)?;
    Ok(file)
}

/// What the file of one record is read as; its length field counts all of its bytes.
fn outcome_at(alloc: Global, kind: u8, rest: u32) -> Result<Outcome, Fail> {
    let file = one_record(alloc, rest.saturating_add(17), kind, rest)?;
    outcome_in(alloc, file.as_slice())
}

/// A kind, how many bytes stand behind the moment and the place, and whether that is a record.
const KINDS: [(u8, u32, bool); 26] = [
    (0, 0, false),
    (1, 0, true),
    (1, 1, true),
    (1, 100_000, true),
    (2, 0, true),
    (2, 1, false),
    (3, 0, false),
    (3, 15, false),
    (3, 16, true),
    (3, 17, false),
    (4, 7, false),
    (4, 8, true),
    (4, 9, false),
    (5, 0, true),
    (5, 1, false),
    (5, 3, false),
    (5, 4, true),
    (5, 262_140, true),
    (5, 262_144, true),
    (5, 262_145, false),
    (5, 262_148, false),
    (6, 0, true),
    (6, 4, false),
    (7, 0, false),
    (7, 8, false),
    (255, 0, false),
];

#[test]
fn lengths_that_fit_their_kinds(rt: HostRuntime) -> Result<(), Fail> {
    for (kind, rest, fits) in KINDS {
        let want = if fits {
            Outcome::Records(1, rest as u64 + 63)
        } else {
            Outcome::NotJournal(41)
        };
        same(outcome_at(rt.alloc(), kind, rest)?, want)?;
    }
    Ok(())
}

#[test]
fn lengths_past_the_end(rt: HostRuntime) -> Result<(), Fail> {
    for size in [0u32, 16, 18, 1_000, u32::MAX] {
        let file = one_record(rt.alloc(), size, 1, 0)?;
        same(
            outcome_in(rt.alloc(), file.as_slice())?,
            Outcome::NotJournal(41),
        )?;
    }
    Ok(())
}

/// The events of each kind, in order.
fn events() -> [Event<&'static [u8]>; 6] {
    [
        Event::Packet { packet: b"sealed" },
        Event::Tick,
        Event::Attach {
            key: 0x0102_0304_0506_0708,
            session: 9,
        },
        Event::Begin { job: 3 },
        Event::Ran { reply: b"answered" },
        Event::Interrupted,
    ]
}

/// The moments and places that they are written with.
const WRITTEN: [(u64, u64); 6] = [(5, 10), (6, 12), (7, 14), (8, 16), (9, 18), (10, 20)];

/// A record is this event.
fn is_event(record: &Record, event: &Event<&[u8]>) -> bool {
    match (&record.event, event) {
        (Event::Packet { packet }, Event::Packet { packet: want }) => packet.as_slice() == *want,
        (Event::Tick, Event::Tick) => true,
        (
            Event::Attach { key, session },
            Event::Attach {
                key: want,
                session: other,
            },
        ) => *key == *want && *session == *other,
        (Event::Begin { job }, Event::Begin { job: want }) => *job == *want,
        (Event::Ran { reply }, Event::Ran { reply: want }) => reply.as_slice() == *want,
        (Event::Interrupted, Event::Interrupted) => true,
        _ => false,
    }
}

/// A journal with an event of each kind, at moments and places that rise.
fn each_kind<K: Disk>(disk: K) -> Result<Journal<K>, K>
    ensures { IfOk result (λ journal. journal.len ≡ 211) }
{
    let journal = Journal::create(disk, &[7; 32])?;
    let journal = journal.add(5, 10, Event::Packet { packet: b"sealed" })?;
    let journal = journal.add(6, 12, Event::Tick)?;
    let attach = Event::Attach {
        key: 0x0102_0304_0506_0708,
        session: 9,
    };
    let journal = journal.add(7, 14, attach)?;
    let journal = journal.add(8, 16, Event::Begin { job: 3 })?;
    let journal = journal.add(9, 18, Event::Ran { reply: b"answered" })?;
    journal.add(10, 20, Event::Interrupted)
}

#[test]
fn each_kind_is_read_back(rt: HostRuntime) -> Result<(), Fail> {
    let disk = MemDisk::new(rt.alloc(), b"", &[], 400, 64)?;
    let Ok(journal) = each_kind(disk) else {
        return Err("not added".into());
    };
    let Ok(mut opening) = Opening::new(journal.into_disk()) else {
        return Err("not opened".into());
    };
    same(opening.seed(), [7; 32])?;
    for (event, written) in events().iter().zip(WRITTEN) {
        if !opening.has_next() {
            return Err("too few".into());
        }
        let Ok(record) = opening.next(rt.alloc()) else {
            return Err("no record".into());
        };
        same((record.moment, record.place), written)?;
        holds(is_event(&record, event))?;
    }
    holds(!opening.has_next())?;
    same(opening.place(), 41 + 28 + 22 + 38 + 30 + 30 + 22)?;
    Ok(())
}
