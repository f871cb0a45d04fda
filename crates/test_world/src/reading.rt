//! What a file is read as.

use disks::{Disk, MemDisk};
use octets::Octets;
use sess_records::{Event, Journal, JournalFault, Opening, Record};
use std::alloc::Global;
use std::test::Fail;
use test_asserts::{holds, same};

/// What a file comes to: how many records it has, and how long it is then, or where it is no journal.
#[derive(Clone, Copy, Debug, PartialEq, Eq)]
pub(crate) enum Outcome {
    Records(u64, u64),
    NotJournal(u64),
    Failed,
    Memory,
}

/// What a fault is.
fn fault_of(fault: JournalFault) -> Outcome {
    match fault {
        JournalFault::Disk => Outcome::Failed,
        JournalFault::NotJournal { at } => Outcome::NotJournal(at),
        JournalFault::Memory => Outcome::Memory,
    }
}

/// Reads a disk to its end, as one does who plays the records, and cuts what is behind them.
pub(crate) fn outcome_of<K: Disk + Drop>(alloc: Global, disk: K) -> Outcome {
    let mut opening = match Opening::new(disk) {
        Ok(opening) => opening,
        Err((disk, fault)) => {
            drop(disk);
            return fault_of(fault);
        }
    };
    match counted(&mut opening, alloc) {
        Ok(count) => finished(opening, count),
        Err(fault) => {
            drop(opening);
            fault_of(fault)
        }
    }
}

/// Reads an opening to its end: how many records it has, at most 1,000.
fn counted<K: Disk>(opening: &mut Opening<K>, alloc: Global) -> Result<u64, JournalFault> {
    let mut count = 0u64;
    for _ in 0..1_000u64 {
        if !opening.has_next() {
            break;
        }
        drop(opening.next(alloc)?);
        count = count.saturating_add(1);
    }
    Ok(count)
}

/// What a file of so many records comes to, where no more are left.
fn finished<K: Disk + Drop>(opening: Opening<K>, count: u64) -> Outcome {
    if opening.has_next() {
        drop(opening);
        return Outcome::Memory;
    }
    match opening.finish() {
        Ok(journal) => {
            let len = journal.len();
            drop(journal);
            Outcome::Records(count, len)
        }
        Err(disk) => {
            drop(disk);
            Outcome::Failed
        }
    }
}

/// What these bytes are read as.
pub(crate) fn outcome_in(alloc: Global, bytes: &[u8]) -> Result<Outcome, Fail> {
    Ok(outcome_of(alloc, MemDisk::new(alloc, bytes, &[], 0, 16)?))
}

/// The header of a zero seed, without its gate.
pub(crate) const HEADER: [u8; 40] =
    *b"mtpsess1\0\0\0\0\0\0\0\0\0\0\0\0\0\0\0\0\0\0\0\0\0\0\0\0\0\0\0\0\0\0\0\0";

/// An open gate, a tick at moment 5 and place 2, and a closed gate.
pub(crate) const TICK: [u8; 23] = [
    1, 0x11, 0, 0, 0, 2, 5, 0, 0, 0, 0, 0, 0, 0, 2, 0, 0, 0, 0, 0, 0, 0, 0,
];

/// The file of one tick.
pub(crate) fn one_tick(alloc: Global) -> Result<Octets, Fail> {
    let mut file = Octets::copy(alloc, &HEADER)?;
    file.push_all(alloc, &TICK)?;
    Ok(file)
}

#[test]
fn a_new_journal_has_41_bytes(rt: HostRuntime) -> Result<(), Fail> {
    let disk = MemDisk::new(rt.alloc(), b"", &[], 64, 8)?;
    let Ok(journal) = Journal::create(disk, &[0; 32]) else {
        return Err("not made".into());
    };
    same((journal.len(), journal.seed()), (41, [0; 32]))?;
    let disk = journal.into_disk();
    holds(disk.contents().starts_with(&HEADER) && disk.contents().len() == 41)?;
    same(
        (disk.contents().get(40).copied(), disk.faults()),
        (Some(0), 0),
    )?;
    Ok(())
}

/// The one record of a file, where it has one.
fn only(alloc: Global, bytes: &[u8]) -> Result<Option<Record>, Fail> {
    match Opening::new(MemDisk::new(alloc, bytes, &[], 0, 16)?) {
        Ok(mut opening) => {
            let record = last(&mut opening, alloc);
            drop(opening);
            Ok(record)
        }
        Err((disk, _)) => {
            drop(disk);
            Ok(None)
        }
    }
}

/// The next record of an opening, where there is one.
fn next<K: Disk>(opening: &mut Opening<K>, alloc: Global) -> Option<Record> {
    if !opening.has_next() {
        return None;
    }
    opening.next(alloc).ok()
}

/// The same, where none comes behind it.
fn last<K: Disk>(opening: &mut Opening<K>, alloc: Global) -> Option<Record> {
    let record = next(opening, alloc)?;
    if opening.has_next() {
        drop(record);
        return None;
    }
    Some(record)
}

#[test]
fn a_file_of_63_bytes_has_one_tick(rt: HostRuntime) -> Result<(), Fail> {
    let file = one_tick(rt.alloc())?;
    same(file.as_slice().len(), 63)?;
    let Some(record) = only(rt.alloc(), file.as_slice())? else {
        return Err("no record".into());
    };
    same((record.moment, record.place), (5, 2))?;
    holds(matches!(&record.event, Event::Tick))?;
    same(
        outcome_in(rt.alloc(), file.as_slice())?,
        Outcome::Records(1, 63),
    )?;
    Ok(())
}

#[test]
fn a_file_that_is_cut(rt: HostRuntime) -> Result<(), Fail> {
    let file = one_tick(rt.alloc())?;
    let bytes = file.as_slice();
    for len in 0..bytes.len() {
        let want = if len < 41 {
            Outcome::NotJournal(0)
        } else {
            Outcome::NotJournal(41)
        };
        same(outcome_in(rt.alloc(), &bytes[..len])?, want)?;
    }
    same(outcome_in(rt.alloc(), bytes)?, Outcome::Records(1, 63))?;
    Ok(())
}

// The same bytes with another one at this place.
fn with_byte(alloc: Global, bytes: &[u8], at: usize, byte: u8) -> Result<Octets, Fail> {
    let front = bytes.get(..at).ok_or("a place in the file")?;
    let back = bytes
        .get(at.saturating_add(1)..)
        .ok_or("a place in the file")?;
    let mut changed = Octets::copy(alloc, front)?;
    changed.push_all(alloc, &[byte])?;
    changed.push_all(alloc, back)?;
    Ok(changed)
}

#[test]
fn gates_that_are_changed(rt: HostRuntime) -> Result<(), Fail> {
    let file = one_tick(rt.alloc())?;
    for gate in 0..=255u8 {
        let want = if gate == 1 {
            Outcome::Records(1, 63)
        } else {
            Outcome::Records(0, 41)
        };
        let changed = with_byte(rt.alloc(), file.as_slice(), 40, gate)?;
        same(outcome_in(rt.alloc(), changed.as_slice())?, want)?;
    }
    Ok(())
}

#[test]
fn last_gates_that_are_changed(rt: HostRuntime) -> Result<(), Fail> {
    let file = one_tick(rt.alloc())?;
    for gate in 0..=255u8 {
        let want = if gate == 1 {
            Outcome::NotJournal(63)
        } else {
            Outcome::Records(1, 63)
        };
        let changed = with_byte(rt.alloc(), file.as_slice(), 62, gate)?;
        same(outcome_in(rt.alloc(), changed.as_slice())?, want)?;
    }
    Ok(())
}

#[test]
fn headers_that_are_changed(rt: HostRuntime) -> Result<(), Fail> {
    let file = one_tick(rt.alloc())?;
    for at in 0..40usize {
        let byte = *file.as_slice().get(at).ok_or("a byte of the header")?;
        let changed = with_byte(rt.alloc(), file.as_slice(), at, byte ^ 0x20)?;
        let want = if at < 8 {
            Outcome::NotJournal(0)
        } else {
            Outcome::Records(1, 63)
        };
        same(outcome_in(rt.alloc(), changed.as_slice())?, want)?;
    }
    Ok(())
}
