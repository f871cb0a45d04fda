//! A file in memory, under a name.

ghost use Rattle.std.specs.Prelude.{◌≡◌, ◌<◌, None, Some, length, vec_len, slice_index_or, slice_set, MatchOption, IfSome};
ghost use Rattle.disks.specs.Held.{bytes_in, names_of};
ghost use Rattle.disks.specs.Named.{Puts, Takes};
ghost use Rattle.disks.specs.declared.mem_file.MemFile.{MemFile};

use crate::mem_disk::MemDisk;
use octets::Octets;

/// A file in memory.
#[derive(Debug, Drop)]
pub struct MemFile {
    /// Its name.
    pub name: Octets,
    /// What it holds, while it isn't open.
    pub disk: Option<MemDisk>,
}

/// The place of the first file of this name.
fn place_of(files: &[MemFile], name: &[u8]) -> Option<usize>
    ensures inside { IfSome result (λ place. place < length files.now) }
    ensures name { IfSome result (λ place. (other : MemFile) → (slice_index_or files.now place other).name ≡ name.now) }
{
    for place in 0..files.len() {
        if files[place].name.as_slice() == name {
            return Some(place);
        }
    }
    None
}

/// Takes the file at a place out of the list, where it isn't open.
fn take_at(files: &mut Vec<MemFile>, place: usize) -> Option<MemDisk>
    requires { place < vec_len files.old }
    ensures taken { MatchOption result (files.new.items ≡ files.old.items) (λ disk. (file : MemFile)
        → ((slice_index_or files.old.items place file).disk ≡ Some disk)
        × (files.new.items ≡ slice_set files.old.items place (record { name = (slice_index_or files.old.items place file).name; disk = None }))) }
{
    files[place].disk.take()
}

/// Takes the file of this name out of the list, where there is one that isn't open.
pub(crate) fn take_out(files: &mut Vec<MemFile>, name: &[u8]) -> Option<MemDisk>
    ensures taken { MatchOption result (names_of files.new.items ≡ names_of files.old.items)
        (λ disk. Takes name.now disk.place (bytes_in disk) (names_of files.old.items) (names_of files.new.items)) }
    ensures no_fault_yet { IfSome result (λ disk. disk.faults ≡ 0) }
{
    let place = place_of(files.as_slice(), name)?;
    match take_at(files, place) {
        Some(disk) => Some(disk.opened_at(place)),
        None => None,
    }
}

/// Puts a file back into the list, at its place.
#[tactic(auto, using(crate::proofs::HeldLemmas::put))]
pub(crate) fn put_back(files: &mut Vec<MemFile>, disk: MemDisk)
    ensures { Puts disk.place (bytes_in disk) (names_of files.old.items) (names_of files.new.items) }
{
    let place = disk.place();
    if place < files.len() {
        files[place].disk = Some(disk);
    }
}
