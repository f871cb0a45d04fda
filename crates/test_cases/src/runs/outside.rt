//! The outside of a run, over memory.

use disks::{MemDisk, MemDisks, MemFile};
use mt_edge::{MemFiles, MemKid, MemKids, MemLink, MemNet, NamedFile, NetCall, Outcome};
use octets::Octets;
use std::alloc::Global;
use std::test::Fail;
use test_lines::Line;

/// Room for what goes over a link, in bytes.
const ROOM_BYTES: usize = 10_000;

/// Room for what a journal holds, in bytes, and for the calls of its disk.
const JOURNAL_BYTES: usize = 4_000;

const DISK_CALLS: usize = 100;

/// Which calls fail, counted from 1, and none by 0: of the key files, of the net, of its first link and of its second one, of
/// the spawner, of the files of journals, and of an open one.
#[derive(Clone, Copy)]
pub(crate) struct Faults {
    pub(crate) files: u64,
    pub(crate) net: u64,
    pub(crate) first: u64,
    pub(crate) second: u64,
    pub(crate) kids: u64,
    pub(crate) disks: u64,
    pub(crate) disk: u64,
}

impl Faults {
    /// None fails.
    pub(crate) fn none() -> Faults {
        Faults {
            files: 0,
            net: 0,
            first: 0,
            second: 0,
            kids: 0,
            disks: 0,
            disk: 0,
        }
    }

    /// The call that a line names fails.
    pub(crate) fn set(&mut self, line: &mut Line<'_>) -> Result<(), Fail> {
        let kind = line.word();
        let number = line.number()?;
        match kind {
            "files" => self.files = number,
            "net" => self.net = number,
            "first" => self.first = number,
            "second" => self.second = number,
            "kids" => self.kids = number,
            "disks" => self.disks = number,
            "disk" => self.disk = number,
            _ => return Err(Fail::new("no such calls")),
        }
        Ok(())
    }
}

/// What goes over the two links of a net, one way.
#[derive(Drop)]
pub(crate) struct Stream {
    pub(crate) first: Octets,
    pub(crate) second: Octets,
}

impl Stream {
    /// Nothing.
    pub(crate) fn new(alloc: Global) -> Stream {
        Stream {
            first: Octets::new(alloc),
            second: Octets::new(alloc),
        }
    }

    /// What goes over the first link, or the second one.
    pub(crate) fn over(&self, is_first: bool) -> &Octets {
        if is_first { &self.first } else { &self.second }
    }

    /// This goes over the first link, or the second one.
    pub(crate) fn set(&mut self, is_first: bool, bytes: Octets) {
        if is_first {
            self.first = bytes;
        } else {
            self.second = bytes;
        }
    }
}

/// The one file that there is.
pub(crate) fn files_of(alloc: Global, keys: &[u8], failing: u64) -> Result<MemFiles, Fail> {
    let mut files = Vec::new(alloc);
    files.push(NamedFile {
        name: Octets::copy(alloc, b"k")?,
        contents: Octets::copy(alloc, keys)?,
    })?;
    Ok(MemFiles::new(alloc, files, &[failing], 4)?)
}

/// What a link hands over and takes at most in each read and write, in bytes, and its room for reads.
#[derive(Clone, Copy)]
pub(crate) struct Pieces {
    pub(crate) bytes: usize,
    pub(crate) reads: usize,
}

// A link over which these bytes come.
fn link(alloc: Global, come: &[u8], pieces: Pieces, failing: u64) -> Result<MemLink, Fail> {
    Ok(MemLink::new(
        alloc,
        come,
        pieces.bytes.max(1),
        &[failing],
        ROOM_BYTES,
        pieces.reads.max(1),
    )?)
}

/// A net with two links over which these bytes come, in order.
pub(crate) fn net_of(
    alloc: Global,
    come: &Stream,
    pieces: Pieces,
    faults: Faults,
) -> Result<MemNet, Fail> {
    let mut links = Vec::new(alloc);
    links.push(link(alloc, come.second.as_slice(), pieces, faults.second)?)?;
    links.push(link(alloc, come.first.as_slice(), pieces, faults.first)?)?;
    Ok(MemNet::new(alloc, links, &[faults.net], 4)?)
}

/// Two children that write a line each and end with status 0.
pub(crate) fn kids_of(alloc: Global, failing: u64) -> Result<MemKids, Fail> {
    let mut kids = Vec::new(alloc);
    for _ in 0..2 {
        let mut lines = Vec::new(alloc);
        lines.push(Octets::copy(alloc, b"listening")?)?;
        kids.push(MemKid { lines, status: 0 })?;
    }
    Ok(MemKids::new(alloc, kids, &[failing], 8, 10, 20)?)
}

/// The file of a journal under the name `j`, where it is there.
pub(crate) fn disks_of(
    alloc: Global,
    journal: Option<&Octets>,
    faults: Faults,
) -> Result<MemDisks, Fail> {
    let mut files = Vec::new(alloc);
    if let Some(journal) = journal {
        let contents = journal.as_slice();
        let disk = MemDisk::new(alloc, contents, &[faults.disk], JOURNAL_BYTES, DISK_CALLS)?;
        files.push(MemFile {
            name: Octets::copy(alloc, b"j")?,
            disk: Some(disk),
        })?;
    }
    Ok(MemDisks::new(alloc, files, &[faults.disks], 4, 4)?)
}

// What was written over the connection that a call of a net made.
fn written(call: Option<&NetCall>) -> &[u8] {
    match call {
        Some(
            NetCall::Connect {
                outcome: Outcome::Done { told, .. },
                ..
            },
        ) => told.written(),
        Some(
            NetCall::Accept {
                outcome: Outcome::Done { told, .. },
            },
        ) => told.written(),
        _ => &[],
    }
}

/// What was written over the connections of a net, of which the first two calls made one each.
pub(crate) fn sent_over(alloc: Global, net: &MemNet) -> Result<Stream, Fail> {
    let calls = net.calls();
    Ok(Stream {
        first: Octets::copy(alloc, written(calls.first()))?,
        second: Octets::copy(alloc, written(calls.get(1)))?,
    })
}
