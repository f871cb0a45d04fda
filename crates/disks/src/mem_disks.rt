//! Files in memory by name, for tests.

ghost use Rattle.std.specs.Prelude.{◌≡◌, ◌≤◌, [], Some, vec_len, vec_capacity, IfOk, IfSome};
ghost use Rattle.disks.specs.Held.{names_of};

use crate::disk::Disk;
use crate::disks::{DiskOpen, Disks};
use crate::file_disks::after_done;
use crate::mem_disk::{MemDisk, fill, rooms};
use crate::mem_file::{MemFile, put_back, take_out};
use mt_edge::raised;
use octets::{Buffer, Memory, Octets};
use std::alloc::Global;

/// Files in memory. The attempts to open of the given numbers, from 1, fail, and so does one of a name that no file has, of a
/// file that is open, or past the room for the names that are noted; that last one isn't noted. A file that is opened again
/// goes on with its record and with the count of its calls.
#[derive(Debug, Drop)]
pub struct MemDisks {
    files: Vec<MemFile>,
    asked: Vec<Octets>,
    room: usize,
    names: Vec<Buffer>,
    failing: Vec<u64>,
    calls: u64,
    faults: u64,
    ghost in_room: { vec_len asked ≤ room },
    ghost room_taken: { room ≤ vec_capacity asked },
}

impl MemDisks {
    /// These files, with room for `room` names of up to `name_bytes` bytes each, taken now.
    ///
    /// # Errors
    ///
    /// `Memory`.
    pub fn new(
        alloc: Global,
        files: Vec<MemFile>,
        failing: &[u64],
        room: usize,
        name_bytes: usize,
    ) -> Result<MemDisks, Memory>
        ensures told { IfOk result (λ disks_. ⟦<MemDisks as Disks>⟧.told disks_ ≡ Some (record { files = names_of files.items; asked = [] })) }
        ensures faults { IfOk result (λ disks_. ⟦<MemDisks as Disks>⟧.faults disks_ ≡ 0) }
    {
        Ok(MemDisks {
            files,
            asked: Vec::with_capacity(alloc, room)?,
            room,
            names: rooms(alloc, room, name_bytes)?,
            failing: Vec::from_slice(alloc, failing)?,
            calls: 0,
            faults: 0,
        })
    }

    /// The files, in order. One that is open holds nothing here. Takes no memory.
    pub fn files(&self) -> &[MemFile]
        ensures { IfSome (⟦<MemDisks as Disks>⟧.told self.now) (λ told. names_of result.now ≡ told.files) }
    {
        self.files.as_slice()
    }

    /// The names that were asked for, in order, whatever came of it: all but those for which there was no room. Takes no
    /// memory.
    pub fn asked(&self) -> &[Octets]
        ensures { IfSome (⟦<MemDisks as Disks>⟧.told self.now) (λ told. result.now ≡ told.asked) }
    {
        self.asked.as_slice()
    }

    /// How many calls have failed, and how many files came back with faults.
    pub fn faults(&self) -> u64
        ensures { result ≡ ⟦<MemDisks as Disks>⟧.faults self.now }
    {
        self.faults
    }
}

impl Disks for MemDisks {
    type K = MemDisk;

    ghost told = { λ disks. Some (record { files = names_of disks.files.items; asked = disks.asked.items }) };

    ghost faults = { λ disks. disks.faults };

    fn open(&mut self, name: &str) -> DiskOpen<MemDisk> {
        self.calls = self.calls.saturating_add(1);
        let asked = fill(self.names.pop(), name.as_bytes());
        let (true, Some(asked)) = (self.asked.len() < self.room, asked) else {
            self.faults = raised(self.faults);
            return DiskOpen::Failed;
        };
        self.asked.push(asked).unwrap();
        let may_go = !self.failing.contains(&self.calls);
        let open = if may_go {
            take_out(&mut self.files, name.as_bytes())
        } else {
            None
        };
        match open {
            Some(disk) => DiskOpen::Disk(disk),
            None => {
                self.faults = raised(self.faults);
                DiskOpen::Failed
            }
        }
    }

    fn done(&mut self, disk: MemDisk) {
        self.faults = after_done(disk.faults(), self.faults);
        put_back(&mut self.files, disk);
    }
}
