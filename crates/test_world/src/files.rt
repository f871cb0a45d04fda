//! Files that are opened.

use crate::desks::{Server, disk, seal};
use crate::play::created;
use crate::reading::HEADER;
use msg_ids::Moment;
use octets::Octets;
use sess_records::JournalFault;
use std::alloc::Global;
use std::test::Fail;
use test_asserts::{same, same_at};

/// A new journal: the header and a closed gate.
const NEW: &[u8] = b"mtpsess1\0\0\0\0\0\0\0\0\0\0\0\0\0\0\0\0\0\0\0\0\0\0\0\0\0\0\0\0\0\0\0\0\0";

#[test]
fn a_new_journal_has_41_bytes(rt: HostRuntime) -> Result<(), Fail> {
    let server = created(rt.alloc(), disk(rt.alloc(), b"", &[])?)?;
    same(server.journal_len(), Some(41))?;
    same(server.into_disk().contents(), NEW)?;
    Ok(())
}

/// A record by its name, as it stands behind its gate.
fn record(name: &str) -> Result<&'static [u8], Fail> {
    Ok(match name {
        // at moment 5 and place 2, at moment 4, and at place 1
        "tick" => b"\x11\0\0\0\x02\x05\0\0\0\0\0\0\0\x02\0\0\0\0\0\0\0",
        "early" => b"\x11\0\0\0\x02\x04\0\0\0\0\0\0\0\x02\0\0\0\0\0\0\0",
        "low" => b"\x11\0\0\0\x02\x05\0\0\0\0\0\0\0\x01\0\0\0\0\0\0\0",
        // of a session that isn't there, at moment 6
        "attach" => {
            b"\x21\0\0\0\x03\x06\0\0\0\0\0\0\0\x02\0\0\0\0\0\0\0\x01\0\0\0\0\0\0\0\x01\0\0\0\0\0\0\0"
        }
        // that doesn't open
        "packet" => b"\x15\0\0\0\x01\x06\0\0\0\0\0\0\0\x02\0\0\0\0\0\0\0none",
        "begin" => b"\x19\0\0\0\x04\x06\0\0\0\0\0\0\0\x02\0\0\0\0\0\0\0\0\0\0\0\0\0\0\0",
        "ran" => b"\x15\0\0\0\x05\x06\0\0\0\0\0\0\0\x02\0\0\0\0\0\0\0done",
        "interrupted" => b"\x11\0\0\0\x06\x06\0\0\0\0\0\0\0\x02\0\0\0\0\0\0\0",
        _ => return Err(Fail::new("no record")),
    })
}

/// A file of a zero seed with the records of these names, each with its gate before it, and a closed gate.
fn file(alloc: Global, names: &str) -> Result<Octets, Fail> {
    let mut file = Octets::copy(alloc, &HEADER)?;
    for name in names.split(' ') {
        file.push_all(alloc, &[1])?;
        file.push_all(alloc, record(name)?)?;
    }
    file.push_all(alloc, &[0])?;
    Ok(file)
}

/// The place of a fault.
fn place_in(fault: JournalFault) -> Result<u64, Fail> {
    match fault {
        JournalFault::NotJournal { at } => Ok(at),
        JournalFault::Disk | JournalFault::Memory => Err(Fail::new("another fault")),
    }
}

/// The place where a file is no journal, or 0 where it is one.
fn stops_at(alloc: Global, bytes: &[u8]) -> Result<u64, Fail> {
    let (disk, seal) = (disk(alloc, bytes, &[])?, seal(alloc)?);
    match Server::open(alloc, disk, seal, Moment::new(0)) {
        Ok(_server) => Ok(0),
        Err((_disk, fault)) => place_in(fault),
    }
}

/// Records, and the place where they stop to be a journal, or 0.
const ROWS: &str = "\
tick | 0
tick tick attach | 0
tick low | 63
tick early | 63
attach tick | 79
tick packet | 63
begin | 41
tick ran | 63
interrupted | 41";

#[test]
fn records_in_their_places(rt: HostRuntime) -> Result<(), Fail> {
    for line in ROWS.lines() {
        let Some((names, at)) = line.split_once(" | ") else {
            return Err(Fail::new("no row"));
        };
        let file = file(rt.alloc(), names)?;
        let Ok(at) = at.parse::<u64>() else {
            return Err(Fail::new("no place"));
        };
        same_at(names, stops_at(rt.alloc(), file.as_slice())?, at)?;
    }
    Ok(())
}
