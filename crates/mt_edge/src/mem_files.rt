//! Files in memory, for tests.

ghost use Rattle.std.specs.Prelude.{◌≡◌, ◌<◌, ◌≤◌, ◌+◌, ◌-◌, [], None, Some, length, vec_len, vec_capacity, if◌then◌else◌, IfOk};
ghost use Rattle.std.specs.List.{Contains};
ghost use Rattle.mt_edge.specs.Files.{IfContents};

use crate::disk_files::{FILE_BYTES_MAX, after_file};
use crate::key_files::{FileGot, KeyFiles, NamedFile};
use octets::{Memory, Octets};
use std::alloc::Global;

/// Files in memory. The reads of the given numbers, from 1, fail, and so does one of a name that no file has, of a file
/// over 1,048,576 bytes, or past the room for the names that are noted.
#[derive(Debug, Drop)]
pub struct MemFiles {
    files: Vec<NamedFile>,
    asked: Vec<Octets>,
    room: usize,
    failing: Vec<u64>,
    reads: u64,
    faults: u64,
    is_untold: bool,
    ghost in_room: { vec_len asked ≤ room },
    ghost room_taken: { room ≤ vec_capacity asked },
    ghost last_is_fault: { vec_len asked < room + faults },
}

impl MemFiles {
    /// These files, with room for `room` names, taken now; the last place is for a read that fails.
    ///
    /// # Errors
    ///
    /// `Memory`.
    pub fn new(
        alloc: Global,
        files: Vec<NamedFile>,
        failing: &[u64],
        room: usize,
    ) -> Result<MemFiles, Memory>
        requires { 0 < room }
        ensures told { IfOk result (λ files_. ⟦<MemFiles as KeyFiles>⟧.told files_ ≡ Some (record { files = files.items; asked = [] })) }
        ensures faults { IfOk result (λ files_. ⟦<MemFiles as KeyFiles>⟧.faults files_ ≡ 0) }
    {
        Ok(MemFiles {
            files,
            asked: Vec::with_capacity(alloc, room)?,
            room,
            failing: Vec::from_slice(alloc, failing)?,
            reads: 0,
            faults: 0,
            is_untold: false,
        })
    }
}

/// The contents of the first of the files that has this name.
fn contents_of(alloc: Global, files: &[NamedFile], name: &[u8]) -> FileGot
    ensures short { IfContents result (λ contents. length contents ≤ 1048576) }
    ensures told { IfContents result (λ contents. Contains files.now (record { name = name.now; contents = contents })) }
{
    for file in files {
        if file.name.as_slice() == name {
            let contents = file.contents.as_slice();
            if contents.len() > FILE_BYTES_MAX {
                return FileGot::Failed;
            }
            return match Octets::copy(alloc, contents) {
                Ok(copy) => FileGot::Contents(copy),
                Err(Memory) => FileGot::Memory,
            };
        }
    }
    FileGot::Failed
}

impl KeyFiles for MemFiles {
    ghost told = { λ files. if files.is_untold then None else Some (record { files = files.files.items; asked = files.asked.items }) };

    ghost room = { λ files. files.room - vec_len files.asked };

    ghost faults = { λ files. files.faults };

    fn read(&mut self, alloc: Global, name: &str) -> FileGot {
        let Ok(asked) = Octets::copy(alloc, name.as_bytes()) else {
            self.is_untold = true;
            return FileGot::Memory;
        };
        self.reads = self.reads.saturating_add(1);
        let has_room = self.room - self.asked.len() > 1;
        let got = if !has_room || self.failing.contains(&self.reads) {
            FileGot::Failed
        } else {
            contents_of(alloc, self.files.as_slice(), name.as_bytes())
        };
        self.faults = after_file(&got, self.faults);
        if self.asked.len() < self.room {
            self.asked.push(asked).unwrap();
        } else {
            self.is_untold = true;
        }
        got
    }
}
