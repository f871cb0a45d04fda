//! What a stop at any moment leaves, and calls that fail.

use crate::reading::{Outcome, outcome_in, outcome_of};
use disks::{Disk, DiskOpen, Disks, FileDisks, MemDisk};
use octets::Octets;
use sess_records::{Event, Journal};
use std::alloc::Global;
use std::fs;
use std::test::Fail;
use test_asserts::{holds, same};

/// A journal of three records, a tick, a packet and a begin, over a disk in memory whose calls of these numbers fail. How many
/// of its calls said that they are done, the making of it too, and the disk.
fn three(alloc: Global, failing: &[u64]) -> Result<(u64, MemDisk), Fail> {
    let disk = MemDisk::new(alloc, b"", failing, 200, 64)?;
    let journal = match Journal::create(disk, &[9; 32]) {
        Ok(journal) => journal,
        Err(disk) => return Ok((0, disk)),
    };
    let journal = match journal.add(5, 2, Event::Tick) {
        Ok(journal) => journal,
        Err(disk) => return Ok((1, disk)),
    };
    let journal = match journal.add(6, 3, Event::Packet { packet: b"sealed" }) {
        Ok(journal) => journal,
        Err(disk) => return Ok((2, disk)),
    };
    match journal.add(7, 3, Event::Begin { job: 0 }) {
        Ok(journal) => Ok((4, journal.into_disk())),
        Err(disk) => Ok((3, disk)),
    }
}

/// The length of a journal of the first so many of the three.
fn len_of(count: u64) -> u64 {
    match count {
        0 => 41,
        1 => 63,
        2 => 91,
        _ => 121,
    }
}

/// How many of the records are there for sure after so many acts: the making has three acts, and each record six.
fn sure_after(acts: usize) -> u64 {
    if acts < 9 {
        0
    } else if acts < 15 {
        1
    } else if acts < 21 {
        2
    } else {
        3
    }
}

#[test]
fn a_stop_at_each_call(rt: HostRuntime) -> Result<(), Fail> {
    let (done, disk) = three(rt.alloc(), &[])?;
    same((done, disk.acts().len()), (4, 21))?;
    let acts = disk.acts().len();
    for stop in 0..acts {
        let image = disk.lost(rt.alloc(), stop)?;
        let want = if stop < 3 {
            Outcome::NotJournal(0)
        } else {
            Outcome::Records(sure_after(stop), len_of(sure_after(stop)))
        };
        same(outcome_in(rt.alloc(), image.as_slice())?, want)?;
    }
    Ok(())
}

/// What is left of a file where its part from a place on was being written: so many of the new bytes, and then others.
fn torn(
    alloc: Global,
    whole: &[u8],
    from: usize,
    written: usize,
    other: u8,
) -> Result<Octets, Fail> {
    let mut left = Octets::new(alloc);
    for (at, byte) in whole.iter().enumerate() {
        let kept = at < from || at - from < written;
        left.push_all(alloc, &[if kept { *byte } else { other }])?;
    }
    Ok(left)
}

#[test]
fn a_record_that_is_torn(rt: HostRuntime) -> Result<(), Fail> {
    let (_done, disk) = three(rt.alloc(), &[])?;
    let whole = disk.contents();
    if whole.len() != 121 {
        return Err("another length".into());
    }
    // The third record stands from byte 91 on, behind its gate at 90, which is closed while the record is written.
    for written in 0..31usize {
        for other in [0u8, 1, 255] {
            let mut left = torn(rt.alloc(), whole, 91, written, other)?.into_vec();
            if left.len() != 121 {
                return Err("another length".into());
            }
            left[90] = 0;
            same(outcome_in(rt.alloc(), &left)?, Outcome::Records(2, 91))?;
            same(
                outcome_in(rt.alloc(), &left[..91 + written])?,
                Outcome::Records(2, 91),
            )?;
        }
    }
    Ok(())
}

#[test]
fn a_gate_that_is_torn(rt: HostRuntime) -> Result<(), Fail> {
    let (_done, disk) = three(rt.alloc(), &[])?;
    let mut left = Octets::copy(rt.alloc(), disk.contents())?.into_vec();
    if left.len() != 121 {
        return Err("another length".into());
    }
    for gate in 0..=255u8 {
        left[90] = gate;
        let count = if gate == 1 { 3 } else { 2 };
        same(
            outcome_in(rt.alloc(), &left)?,
            Outcome::Records(count, len_of(count)),
        )?;
    }
    Ok(())
}

#[test]
fn a_call_that_fails(rt: HostRuntime) -> Result<(), Fail> {
    for number in 1..=21u64 {
        let (done, disk) = three(rt.alloc(), &[number])?;
        same(disk.faults(), 1)?;
        // The making has three calls, and each record six.
        same(done, if number <= 3 { 0 } else { (number + 2) / 6 })?;
        if done > 0 {
            let (least, most) = (done - 1, done);
            let image = Octets::copy(rt.alloc(), disk.contents())?;
            let left = outcome_in(rt.alloc(), image.as_slice())?;
            holds(
                left == Outcome::Records(least, len_of(least))
                    || left == Outcome::Records(most, len_of(most)),
            )?;
        }
    }
    Ok(())
}

#[test]
fn an_opening_that_fails(rt: HostRuntime) -> Result<(), Fail> {
    let (_done, disk) = three(rt.alloc(), &[])?;
    let whole = Octets::copy(rt.alloc(), disk.contents())?;
    // A sync, the length and the header; two reads for each record; a cut and a sync.
    for number in 1..=11u64 {
        let disk = MemDisk::new(rt.alloc(), whole.as_slice(), &[number], 0, 16)?;
        same(outcome_of(rt.alloc(), disk), Outcome::Failed)?;
    }
    let disk = MemDisk::new(rt.alloc(), whole.as_slice(), &[12], 0, 16)?;
    same(outcome_of(rt.alloc(), disk), Outcome::Records(3, 121))?;
    Ok(())
}

#[test]
fn a_file_of_this_machine(rt: HostRuntime) -> Result<(), Fail> {
    let name = "test_journal.tmp";
    let mut disks = FileDisks::new(&rt);
    let DiskOpen::Disk(disk) = disks.open(name) else {
        return Err("no file".into());
    };
    let Ok(journal) = Journal::create(disk, &[9; 32]) else {
        return Err("not made".into());
    };
    let Ok(journal) = journal.add(5, 2, Event::Tick) else {
        return Err("not added".into());
    };
    let Ok(journal) = journal.add(6, 3, Event::Packet { packet: b"sealed" }) else {
        return Err("not added".into());
    };
    disks.done(journal.into_disk());
    let DiskOpen::Disk(disk) = disks.open(name) else {
        return Err("no file".into());
    };
    same(outcome_of(rt.alloc(), disk), Outcome::Records(2, 91))?;
    fs::remove_file(&rt, name)?;
    same(disks.faults(), 0)?;
    Ok(())
}
