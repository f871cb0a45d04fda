//! Files of this machine. They tell nothing.

ghost use Rattle.std.specs.Prelude.{◌≡◌, ◌≢◌, ◌≤◌, ◌<◌, ◌^◌, None, true, IfOk, IfErr, OnOk};
ghost use Rattle.std.specs.Fs.{new_options, with_create, with_read, with_write};
ghost use Rattle.disks.specs.Named.{Counts, CountsDone};
ghost use Rattle.disks.specs.Placed.{ReadsFrom, StandsAt, WritesTo};
ghost use Rattle.disks.specs.Told.{Counts as CountsLen};

use crate::disk::Disk;
use crate::disk_len::DiskLen;
use crate::disks::{DiskOpen, Disks};
use mt_edge::{Act, act_of, after_act, raised};
use std::fs::{Files, OpenFile, OpenOptions};
use std::io::{self, Read, Seek, SeekFrom, Write};

/// An open file of this machine.
#[derive(Debug, Drop)]
pub struct FileDisk<F> {
    file: F,
    faults: u64,
}

impl<F: Read + Write + Seek + OpenFile + Drop> FileDisk<F> {
    /// A file that std opened to be read and written, with no fault yet. Where it stands doesn't matter: each read and each
    /// write moves it first.
    pub fn new(file: F) -> FileDisk<F>
        ensures no_fault_yet { ⟦<FileDisk<F> as Disk>⟧.faults result ≡ 0 }
    {
        FileDisk { file, faults: 0 }
    }

    /// What std answers to a move to a place.
    fn move_to(&mut self, at: u64) -> io::Result<()>
        ensures there { OnOk result (StandsAt (F.stream_position self.old.file) at (F.stream_position self.new.file)) }
        ensures faults { self.new.faults ≡ self.old.faults }
    {
        self.file.seek(SeekFrom::Start(at))?;
        Ok(())
    }

    /// What std answers to a read at a place.
    fn read_at(&mut self, at: u64, into: &mut [u8]) -> io::Result<()>
        ensures from_there { OnOk result (ReadsFrom F.stream_position F.remaining at into.new self.old.file self.new.file) }
        ensures faults { self.new.faults ≡ self.old.faults }
    {
        self.move_to(at)?;
        self.file.read_exact(into)
    }

    /// What std answers to a write at a place.
    fn write_at(&mut self, at: u64, bytes: &[u8]) -> io::Result<()>
        ensures to_there { OnOk result (WritesTo F.stream_position F.contents at bytes.now self.old.file self.new.file) }
        ensures faults { self.new.faults ≡ self.old.faults }
    {
        self.move_to(at)?;
        self.file.write_all(bytes)?;
        self.file.flush()
    }

    /// What std answers to a question for the length.
    fn size(&self) -> io::Result<u64> {
        Ok(self.file.metadata()?.len())
    }
}

/// The answer of a call for the length, by what std answered. It fails where that is longer than a file may be.
fn len_of(answer: io::Result<u64>) -> DiskLen
    ensures len { IfOk answer (λ len. len < 2 ^ 63 → result ≡ DiskLen.Len len) }
    ensures too_long { IfOk answer (λ len. 2 ^ 63 ≤ len → result ≡ DiskLen.Failed) }
    ensures failed { IfErr answer (λ _. result ≡ DiskLen.Failed) }
{
    match answer {
        Ok(len) if len <= i64::MAX as u64 => DiskLen::Len(len),
        _ => DiskLen::Failed,
    }
}

/// The count after a call for the length.
pub(crate) fn after_len(len: DiskLen, faults: u64) -> u64
    ensures counted { CountsLen len faults result }
    ensures never_falls { faults ≤ result }
{
    match len {
        DiskLen::Failed => raised(faults),
        DiskLen::Len(_) => faults,
    }
}

impl<F: Read + Write + Seek + OpenFile + Drop> Disk for FileDisk<F> {
    ghost told = { λ _. None };

    ghost place = { λ _. 0 };

    ghost faults = { λ disk. disk.faults };

    fn len(&mut self) -> DiskLen {
        let len = len_of(self.size());
        self.faults = after_len(len, self.faults);
        len
    }

    fn read(&mut self, at: u64, into: &mut [u8]) -> Act {
        let answer = act_of(&self.read_at(at, into));
        self.faults = after_act(answer, self.faults);
        answer
    }

    fn write(&mut self, at: u64, bytes: &[u8]) -> Act {
        let answer = act_of(&self.write_at(at, bytes));
        self.faults = after_act(answer, self.faults);
        answer
    }

    fn cut(&mut self, len: u64) -> Act {
        let answer = act_of(&self.file.set_len(len));
        self.faults = after_act(answer, self.faults);
        answer
    }

    fn sync(&mut self) -> Act {
        let answer = act_of(&self.file.sync_all());
        self.faults = after_act(answer, self.faults);
        answer
    }
}

/// How a file is opened: to be read and written, with what it holds, and made where it isn't there.
fn how() -> OpenOptions
    ensures { result ≡ with_create (with_write (with_read new_options true) true) true }
{
    let mut how = OpenOptions::new();
    how.read(true).write(true).create(true);
    how
}

/// The files of this machine. One that isn't there is made, and is empty. A sync makes sure of a file's bytes; that its name
/// stands in its folder after a crash is made sure of by nothing.
#[derive(Debug, Drop)]
pub struct FileDisks<R> {
    files: R,
    faults: u64,
}

impl<R: Files + Drop> FileDisks<R> {
    /// Files with no fault yet.
    pub fn new(files: R) -> FileDisks<R>
        ensures { ⟦<FileDisks<R> as Disks>⟧.faults result ≡ 0 }
    {
        FileDisks { files, faults: 0 }
    }

    /// How many calls have failed, and how many files came back with faults.
    pub fn faults(&self) -> u64
        ensures { result ≡ ⟦<FileDisks<R> as Disks>⟧.faults self.now }
    {
        self.faults
    }
}

/// The answer of an attempt, by what std answered.
fn open_of<F: Drop>(answer: io::Result<F>) -> DiskOpen<FileDisk<F>>
    ensures disk { IfOk answer (λ file. result ≡ DiskOpen.Disk (record { file = file; faults = 0 })) }
    ensures failed { IfErr answer (λ _. result ≡ DiskOpen.Failed) }
{
    match answer {
        Ok(file) => DiskOpen::Disk(FileDisk { file, faults: 0 }),
        Err(_) => DiskOpen::Failed,
    }
}

/// The count after an attempt.
fn after_open<K>(attempt: &DiskOpen<K>, faults: u64) -> u64
    ensures counted { Counts attempt.now faults result }
    ensures never_falls { faults ≤ result }
{
    match attempt {
        DiskOpen::Failed => raised(faults),
        DiskOpen::Disk(_) => faults,
    }
}

/// The count after a file came back with a count of its own.
pub(crate) fn after_done(own: u64, faults: u64) -> u64
    ensures counted { CountsDone own faults result }
    ensures never_falls { faults ≤ result }
{
    if own == 0 { faults } else { raised(faults) }
}

impl<R: Files + Drop> Disks for FileDisks<R> {
    type K = FileDisk<R::File>;

    ghost told = { λ _. None };

    ghost faults = { λ disks. disks.faults };

    fn open(&mut self, name: &str) -> DiskOpen<FileDisk<R::File>> {
        let open = open_of(how().open(&self.files, name));
        self.faults = after_open(&open, self.faults);
        open
    }

    fn done(&mut self, disk: FileDisk<R::File>) {
        self.faults = after_done(disk.faults, self.faults);
    }
}
