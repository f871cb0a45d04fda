//! A file of std that fails.

use disks::{Disk, DiskLen, FileDisk};
use mt_edge::Act;
use std::fs::{Metadata, OpenFile};
use std::io::{self, ErrorKind, Read, Seek, SeekFrom, Write};
use std::test::Fail;
use test_asserts::same;

/// A file that reads and writes, but moves only where it is asked to, and does nothing else.
#[derive(Drop)]
struct Faulty {
    can_move: bool,
}

/// What it answers to what it doesn't do.
fn fault<T>() -> io::Result<T> {
    Err(io::Error::from(ErrorKind::Unsupported))
}

impl Read for Faulty {
    fn read(&mut self, buf: &mut [u8]) -> io::Result<usize> {
        Ok(buf.len())
    }
}

impl Write for Faulty {
    fn write(&mut self, buf: &[u8]) -> io::Result<usize> {
        Ok(buf.len())
    }

    fn flush(&mut self) -> io::Result<()> {
        fault()
    }
}

impl Seek for Faulty {
    fn seek(&mut self, _to: SeekFrom) -> io::Result<u64> {
        if self.can_move { Ok(0) } else { fault() }
    }
}

impl OpenFile for Faulty {
    fn metadata(&self) -> io::Result<Metadata> {
        fault()
    }

    fn set_len(&self, _size: u64) -> io::Result<()> {
        fault()
    }

    fn sync_all(&self) -> io::Result<()> {
        fault()
    }

    fn sync_data(&self) -> io::Result<()> {
        Ok(())
    }
}

/// What a file that moves, or doesn't, answers to a question for its length, and to a read, a write, a cut and a sync.
fn answers_of(can_move: bool) -> (DiskLen, [Act; 4]) {
    let mut disk = FileDisk::new(Faulty { can_move });
    let mut into = [0u8; 2];
    let len = disk.len();
    let acts = [
        disk.read(0, &mut into),
        disk.write(0, b"ab"),
        disk.cut(0),
        disk.sync(),
    ];
    (len, acts)
}

#[test]
fn files_that_fail(rt: HostRuntime) -> Result<(), Fail> {
    use Act::{Failed, Ready};
    same(
        answers_of(true),
        (DiskLen::Failed, [Ready, Failed, Failed, Failed]),
    )?;
    same(
        answers_of(false),
        (DiskLen::Failed, [Failed, Failed, Failed, Failed]),
    )
}
