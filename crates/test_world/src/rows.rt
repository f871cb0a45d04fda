//! Servers that come back.

use crate::desks::{Server, disk, seal};
use crate::play::{begins, goes_on};
use disks::MemDisk;
use octets::Octets;
use std::alloc::Global;
use std::test::Fail;
use test_asserts::{same, shown};

#[test]
fn a_call_runs_once_after_a_stop(rt: HostRuntime) -> Result<(), Fail> {
    let alloc = rt.alloc();
    let new = disk(alloc, b"", &[])?;
    let disk = begins(alloc, new, "first second", b"packet packet")?;
    // The container comes again: nothing goes out, and the job is still there once.
    let disk = goes_on(
        alloc,
        disk,
        "second run ready look second ready",
        b"nothing run none result nothing none",
    )?;
    let disk = goes_on(alloc, disk, "ready look", b"none result")?;
    drop(disk);
    Ok(())
}

/// What a stop behind so many acts leaves of a disk.
pub(crate) fn image(alloc: Global, stopped: &MemDisk, acts: usize) -> Result<Octets, Fail> {
    if stopped.acts().len() < acts {
        return Err(Fail::new("too few acts"));
    }
    Ok(stopped.lost(alloc, acts)?)
}

#[test]
fn a_run_that_was_cut_off_is_answered(rt: HostRuntime) -> Result<(), Fail> {
    let alloc = rt.alloc();
    let new = disk(alloc, b"", &[])?;
    let stopped = begins(alloc, new, "first second run", b"packet packet run")?;
    // Three acts for the making, and six for each record: what a stop after the begin's last sync leaves.
    let left = image(alloc, &stopped, 21);
    drop(stopped);
    let again = disk(alloc, left?.as_slice(), &[])?;
    let disk = goes_on(
        alloc,
        again,
        "ready look second ready",
        b"none interrupted nothing none",
    )?;
    // It is the same once more.
    let disk = goes_on(alloc, disk, "ready look", b"none interrupted")?;
    drop(disk);
    Ok(())
}

#[test]
fn what_gives_nothing_is_not_recorded(rt: HostRuntime) -> Result<(), Fail> {
    let alloc = rt.alloc();
    let new = disk(alloc, b"", &[])?;
    let disk = begins(
        alloc,
        new,
        "tick stranger unsealed",
        b"nothing nothing nothing",
    )?;
    let len = disk.contents().len();
    drop(disk);
    same(len, 41)
}

#[test]
fn a_closed_server_does_nothing(rt: HostRuntime) -> Result<(), Fail> {
    let alloc = rt.alloc();
    // The first call of the third record fails.
    let failing = disk(alloc, b"", &[16])?;
    let disk = begins(
        alloc,
        failing,
        "first second run run second tick stranger",
        b"packet packet disk closed closed closed closed",
    )?;
    let faults = disk.faults();
    drop(disk);
    same(faults, 1)
}

#[test]
fn no_byte_of_a_seed_is_shown(rt: HostRuntime) -> Result<(), Fail> {
    let alloc = rt.alloc();
    let (new, seal) = (disk(alloc, b"", &[])?, seal(alloc)?);
    let Ok(server) = Server::create(alloc, new, seal, &[7; 32]) else {
        return Err(Fail::new("no server"));
    };
    let text = shown(alloc, &server);
    drop(server);
    same(text?.as_str(), "Kept { len: Some(41), .. }")
}
