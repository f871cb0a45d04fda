//! How often the adapters of files and children ask the library, counted in front of this machine's.

use crate::kids::life_of;
use disks::{Disk, DiskOpen, Disks, FileDisks};
use mt_edge::{Act, ChildKids, DiskFiles, FileGot, KeyFiles};
use std::alloc::Allocator;
use std::cell::Cell;
use std::fs::{self, Files, Metadata, OpenFile, OpenOptions};
use std::io::{self, Read, Seek, SeekFrom, Write};
use std::process::{Child, Command, Processes, Stdio};
use std::test::Fail;
use test_asserts::same;

/// Files and children of this machine, with a count of files that were opened or made sure of and of children that were started.
#[derive(Drop)]
struct Counted<'a> {
    rt: &'a HostRuntime,
    count: &'a Cell<u64>,
}

impl<'a> Counted<'a> {
    fn add(&self) {
        self.count.set(self.count.get().wrapping_add(1));
    }
}

/// A file of this machine, with that count.
#[derive(Drop)]
struct CountedFile<'a> {
    file: <HostRuntime as Files>::File,
    count: &'a Cell<u64>,
}

impl<'a> Read for CountedFile<'a> {
    fn read(&mut self, into: &mut [u8]) -> io::Result<usize> {
        self.file.read(into)
    }
}

impl<'a> Write for CountedFile<'a> {
    fn write(&mut self, piece: &[u8]) -> io::Result<usize> {
        self.file.write(piece)
    }

    fn flush(&mut self) -> io::Result<()> {
        self.file.flush()
    }
}

impl<'a> Seek for CountedFile<'a> {
    fn seek(&mut self, to: SeekFrom) -> io::Result<u64> {
        self.file.seek(to)
    }
}

impl<'a> OpenFile for CountedFile<'a> {
    fn metadata(&self) -> io::Result<Metadata> {
        self.file.metadata()
    }

    fn set_len(&self, size: u64) -> io::Result<()> {
        self.file.set_len(size)
    }

    fn sync_all(&self) -> io::Result<()> {
        self.count.set(self.count.get().wrapping_add(1));
        self.file.sync_all()
    }

    fn sync_data(&self) -> io::Result<()> {
        self.file.sync_data()
    }
}

impl<'a> Files for Counted<'a> {
    type File = CountedFile<'a>;

    type Dir = <HostRuntime as Files>::Dir;

    fn open_file(&self, how: &OpenOptions, path: &str) -> io::Result<CountedFile<'a>> {
        self.add();
        let file = self.rt.open_file(how, path)?;
        Ok(CountedFile {
            file,
            count: self.count,
        })
    }

    fn open_dir(&self, path: &str) -> io::Result<<HostRuntime as Files>::Dir> {
        self.rt.open_dir(path)
    }

    fn metadata(&self, path: &str) -> io::Result<Metadata> {
        Files::metadata(self.rt, path)
    }

    fn symlink_metadata(&self, path: &str) -> io::Result<Metadata> {
        self.rt.symlink_metadata(path)
    }

    fn copy(&self, from: &str, to: &str) -> io::Result<u64> {
        self.rt.copy(from, to)
    }

    fn rename(&self, from: &str, to: &str) -> io::Result<()> {
        self.rt.rename(from, to)
    }

    fn remove_file(&self, path: &str) -> io::Result<()> {
        self.rt.remove_file(path)
    }

    fn create_dir(&self, path: &str) -> io::Result<()> {
        self.rt.create_dir(path)
    }

    fn remove_dir(&self, path: &str) -> io::Result<()> {
        self.rt.remove_dir(path)
    }

    fn remove_dir_all<B: Allocator>(&self, alloc: B, path: &str) -> io::Result<()> {
        self.rt.remove_dir_all(alloc, path)
    }
}

impl<'a> Processes for Counted<'a> {
    type Started = <HostRuntime as Processes>::Started;

    fn spawn<B: Allocator + Clone>(
        &self,
        command: &Command<B>,
        stdin: &Stdio,
        stdout: &Stdio,
        stderr: &Stdio,
    ) -> io::Result<Child<<HostRuntime as Processes>::Started>> {
        self.add();
        self.rt.spawn(command, stdin, stdout, stderr)
    }
}

#[test]
fn a_file_is_opened_once(rt: HostRuntime) -> Result<(), Fail> {
    let name = "mt_edge_once.tmp";
    fs::write(&rt, name, b"key".as_slice())?;
    let count = Cell::new(0);
    let mut files = DiskFiles::new(Counted {
        rt: &rt,
        count: &count,
    });
    same(
        matches!(files.read(rt.alloc(), name), FileGot::Contents(_)),
        true,
    )?;
    same(count.get(), 1)?;
    fs::remove_file(&rt, name)?;
    same(
        matches!(files.read(rt.alloc(), name), FileGot::Failed),
        true,
    )?;
    same(count.get(), 2)
}

/// What a file of this name answers to a write and to a sync, each with the count then.
fn made_sure<D: Disks>(disks: &mut D, name: &str, count: &Cell<u64>) -> Option<[(Act, u64); 2]> {
    match disks.open(name) {
        DiskOpen::Disk(mut disk) => {
            let written = (disk.write(0, b"a"), count.get());
            let synced = (disk.sync(), count.get());
            disks.done(disk);
            Some([written, synced])
        }
        DiskOpen::Failed => None,
    }
}

#[test]
fn a_file_is_made_sure_of_once(rt: HostRuntime) -> Result<(), Fail> {
    let name = "disks_once.tmp";
    let count = Cell::new(0);
    let mut disks = FileDisks::new(Counted {
        rt: &rt,
        count: &count,
    });
    let told = made_sure(&mut disks, name, &count);
    drop(disks);
    fs::remove_file(&rt, name)?;
    same(told, Some([(Act::Ready, 1), (Act::Ready, 2)]))
}

#[test]
fn a_child_is_started_once(rt: HostRuntime) -> Result<(), Fail> {
    let count = Cell::new(0);
    let counted = Counted {
        rt: &rt,
        count: &count,
    };
    let mut kids = ChildKids::new(counted, String::from_str(rt.alloc(), "sh")?);
    let life = life_of(&mut kids, rt.alloc(), "-c", "exit 0");
    drop(kids);
    same((life?, count.get()), ((Act::Ready, "end", Act::Ready), 1))
}
