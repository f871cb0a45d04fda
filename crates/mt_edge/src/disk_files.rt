//! Files of this machine, which are read whole. They tell nothing.

ghost use Rattle.std.specs.Prelude.{◌≡◌, ◌≢◌, ◌<◌, ◌≤◌, None, length, IfOk, IfSome, Err};
ghost use Rattle.mt_edge.specs.Files.{Counts};

use crate::faults::raised;
use crate::key_files::{FileGot, KeyFiles};
use crate::standard::ReadSource;
use crate::whole::{ReadFault, read_all};
use octets::Octets;
use std::alloc::Global;
use std::fs::{File, Files};
use std::io::Read;

/// The most bytes that a file may have.
pub(crate) const FILE_BYTES_MAX: usize = 1_048_576;

/// The files of this machine. One over 1,048,576 bytes can't be read.
#[derive(Debug, Drop)]
pub struct DiskFiles<R> {
    files: R,
    faults: u64,
}

impl<R: Files + Drop> DiskFiles<R> {
    /// Files with no fault yet.
    pub fn new(files: R) -> DiskFiles<R>
        ensures { ⟦<DiskFiles<R> as KeyFiles>⟧.faults result ≡ 0 }
    {
        DiskFiles { files, faults: 0 }
    }

    /// The whole file of this name.
    fn whole(&self, alloc: Global, name: &str) -> Result<Octets, ReadFault>
        ensures { IfOk result (λ contents. length contents ≤ 1048576) }
    {
        match File::open(&self.files, name) {
            Ok(file) => all_of(alloc, file),
            Err(_) => Err(ReadFault::Failed),
        }
    }
}

/// All that a reader has left, where it is no more than a file may have.
fn all_of<R: Read + Drop>(alloc: Global, reader: R) -> Result<Octets, ReadFault>
    ensures short { IfOk result (λ contents. length contents ≤ 1048576) }
    ensures whole { IfOk result (λ contents. IfSome (R.remaining reader) (λ left. contents ≡ left)) }
    ensures too_long { result ≡ Err ReadFault.TooLong → IfSome (R.remaining reader) (λ left. 1048576 < length left) }
{
    read_all(alloc, &mut ReadSource::new(reader), FILE_BYTES_MAX)
}

/// The answer of a read of a file, by what came of reading it whole.
fn file_got(answer: Result<Octets, ReadFault>) -> FileGot
    ensures contents { IfOk answer (λ contents. result ≡ FileGot.Contents contents) }
    ensures failed { answer ≡ Err ReadFault.Failed → result ≡ FileGot.Failed }
    ensures too_long { answer ≡ Err ReadFault.TooLong → result ≡ FileGot.Failed }
    ensures memory { answer ≡ Err ReadFault.Memory → result ≡ FileGot.Memory }
{
    match answer {
        Ok(contents) => FileGot::Contents(contents),
        Err(ReadFault::Failed | ReadFault::TooLong) => FileGot::Failed,
        Err(ReadFault::Memory) => FileGot::Memory,
    }
}

/// The count after a read of a file.
pub(crate) fn after_file(got: &FileGot, faults: u64) -> u64
    ensures counted { Counts got.now faults result }
    ensures never_falls { faults ≤ result }
{
    match got {
        FileGot::Failed => raised(faults),
        FileGot::Contents(_) | FileGot::Memory => faults,
    }
}

impl<R: Files + Drop> KeyFiles for DiskFiles<R> {
    ghost told = { λ _. None };

    ghost room = { λ _. 0 };

    ghost faults = { λ files. files.faults };

    fn read(&mut self, alloc: Global, name: &str) -> FileGot {
        let got = file_got(self.whole(alloc, name));
        self.faults = after_file(&got, self.faults);
        got
    }
}
