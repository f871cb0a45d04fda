//! A stop at each call of the disk, and a fault at each.

use crate::desks::disk;
use crate::play::{begun, resumed};
use crate::rows::image;
use disks::MemDisk;
use octets::Octets;
use std::alloc::Global;
use std::test::Fail;
use test_asserts::{same, same_at};

/// Both packets come, the second once more, and the call runs, over a disk whose calls of these numbers fail. What the calls
/// are told as, and the disk.
fn all(alloc: Global, failing: &[u64]) -> Result<(Octets, MemDisk), Fail> {
    let new = disk(alloc, b"", failing)?;
    begun(alloc, new, "first second second run")
}

/// What a file is told as that is opened.
fn found_in(alloc: Global, bytes: &[u8]) -> Result<Octets, Fail> {
    let left = disk(alloc, bytes, &[])?;
    let (told, disk) = resumed(alloc, left, "ready look")?;
    drop(disk);
    Ok(told)
}

/// What a file is told as after a stop behind so many acts: the making has three, and each record six. The second packet
/// acknowledges what the first one brought.
fn told_after(acts: usize) -> &'static [u8] {
    if acts < 9 {
        b"none silence"
    } else if acts < 15 {
        b"none new"
    } else if acts < 27 {
        b"some silence"
    } else if acts < 33 {
        b"none interrupted"
    } else {
        b"none result"
    }
}

/// A stop behind so many acts.
fn stops_at(alloc: Global, stopped: &MemDisk, acts: usize) -> Result<(), Fail> {
    let left = image(alloc, stopped, acts)?;
    let found = found_in(alloc, left.as_slice())?;
    same_at(acts, found.as_slice(), told_after(acts))
}

/// Stops behind the making and each act after it.
fn stops(alloc: Global, told: &[u8], stopped: &MemDisk) -> Result<(), Fail> {
    same(told, b"packet packet nothing run".as_slice())?;
    let acts = stopped.acts().len();
    same(acts, 33)?;
    for count in 3..=acts {
        stops_at(alloc, stopped, count)?;
    }
    Ok(())
}

#[test]
fn a_stop_at_each_call(rt: HostRuntime) -> Result<(), Fail> {
    let (told, stopped) = all(rt.alloc(), &[])?;
    let done = stops(rt.alloc(), told.as_slice(), &stopped);
    drop(stopped);
    done
}

/// What the calls are told as where the disk fails in the record of this number, of five. The event was stepped then, so that
/// a job may be ready.
fn told_at(record: u64) -> &'static [u8] {
    match record {
        0 => b"disk closed closed none",
        1 => b"packet disk closed closed",
        2 => b"packet packet disk closed",
        _ => b"packet packet nothing disk",
    }
}

/// The call failed that has so many before it in records: what the calls were told as, and what the file has: the record is there
/// or not.
fn fails_so(alloc: Global, before: u8, told: &[u8], contents: &[u8]) -> Result<(), Fail> {
    let record = u64::from(before / 6);
    same_at(before, told, told_at(record))?;
    let found = found_in(alloc, contents)?;
    let opened = found.as_slice();
    let earlier = told_after(3 + 6 * record as usize);
    let wanted = if opened == earlier {
        earlier
    } else {
        told_after(9 + 6 * record as usize)
    };
    same_at(before, opened, wanted)
}

/// The call fails that has so many before it in records, behind the three of the making.
fn fails_at(alloc: Global, before: u8) -> Result<(), Fail> {
    let (told, failed) = all(alloc, &[u64::from(before) + 4])?;
    let done = fails_so(alloc, before, told.as_slice(), failed.contents());
    drop(failed);
    done
}

#[test]
fn a_fault_at_each_call(rt: HostRuntime) -> Result<(), Fail> {
    for before in 0..30 {
        fails_at(rt.alloc(), before)?;
    }
    Ok(())
}
