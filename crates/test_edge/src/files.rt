//! Files in memory and of this machine.

ghost use Rattle.std.specs.Prelude.{◌≡◌, ◌++◌, IfSome, IsSomeAnd};
ghost use Rattle.disks.specs.Crash.{synced_at};
ghost use Rattle.disks.specs.Told.{now};

use disks::{
    Disk, DiskCall, DiskLen, DiskOpen, Disks, FileDisk, FileDisks, MemDisk, MemDisks, MemFile,
};
use mt_edge::Act;
use octets::Octets;
use std::alloc::Global;
use std::fs::{self, Files, OpenFile};
use std::io::{Read, Seek, Write};
use std::test::Fail;
use test_asserts::{holds, same, shown, shows};

/// What a journal does: it adds bytes behind the end, and makes sure of them.
fn add<K: Disk>(disk: &mut K, bytes: &[u8]) -> Act
    ensures added { result ≡ Act.Ready → IfSome (K.told disk.old) (λ before. IsSomeAnd (K.told disk.new) (λ after. after.contents ≡ before.contents ++ bytes.now)) }
    ensures sure { result ≡ Act.Ready → IfSome (K.told disk.old) (λ _. IsSomeAnd (K.told disk.new) (λ after. now after ≡ synced_at after.contents)) }
{
    match disk.len() {
        DiskLen::Failed => Act::Failed,
        DiskLen::Len(end) => match disk.write(end, bytes) {
            Act::Failed => Act::Failed,
            Act::Ready => disk.sync(),
        },
    }
}

/// What a journal does: it reads a file that it knows nothing of. It answers with the byte at a place.
fn byte_at<K: Disk>(disk: &mut K, at: u64) -> Option<u8> {
    let mut into = [0u8; 1];
    match disk.len() {
        DiskLen::Len(len) if at < len => match disk.read(at, &mut into) {
            Act::Ready => Some(into[0]),
            Act::Failed => None,
        },
        _ => None,
    }
}

/// What a stop after so many acts may leave is this.
fn loses(disk: &MemDisk, alloc: Global, acts: usize, want: &[u8]) -> Result<bool, Fail> {
    if acts > disk.acts().len() {
        return Ok(false);
    }
    Ok(disk.lost(alloc, acts)?.as_slice() == want)
}

fn keeps_what_was_added(disk: &mut MemDisk, alloc: Global) -> Result<(), Fail> {
    let added = [add(disk, b"cd"), add(disk, b"ef")];
    let first = byte_at(disk, 0);
    let last = disk.calls().last().copied();
    let holds_both = disk.contents() == b"abcd".as_slice();
    let faults = disk.faults();
    same(added, [Act::Ready, Act::Failed])?;
    same(last, Some(DiskCall::Read { at: 0, count: 1 }))?;
    same((first, holds_both, faults), (Some(b'a'), true, 1))?;
    holds(loses(disk, alloc, 1, b"ab")? && loses(disk, alloc, 2, b"abcd")?)
}

#[test]
fn files_in_memory(rt: HostRuntime) -> Result<(), Fail> {
    let mut disk = MemDisk::new(rt.alloc(), b"ab", &[4, 8], 8, 8)?;
    let done = keeps_what_was_added(&mut disk, rt.alloc());
    drop(disk);
    done
}

/// A file of this name and these contents, whose calls of these numbers fail.
fn file(alloc: Global, name: &[u8], contents: &[u8], failing: &[u64]) -> Result<MemFile, Fail> {
    let name = Octets::copy(alloc, name)?;
    let disk = Some(MemDisk::new(alloc, contents, failing, 8, 8)?);
    Ok(MemFile { name, disk })
}

#[test]
fn files_in_memory_show_no_byte(rt: HostRuntime) -> Result<(), Fail> {
    let alloc = rt.alloc();
    let mut disk = MemDisk::new(alloc, b"kk", &[], 8, 8)?;
    same(add(&mut disk, b"kkk"), Act::Ready)?;
    shows(alloc, &disk, "MemDisk { len: 5, .. }")?;
    shows(
        alloc,
        &disk.acts().first(),
        "Some(Write { at: 2, count: 3 })",
    )?;
    shows(alloc, &disk.acts().last(), "Some(Sync { len: 5, .. })")?;
    let name = Octets::copy(alloc, b"")?;
    let file = MemFile {
        name,
        disk: Some(disk),
    };
    holds(!shown(alloc, &file)?.as_str().contains("107"))?;
    Ok(())
}

/// Two files in memory, the first of which fails its first call.
fn two_files(alloc: Global) -> Result<MemDisks, Fail> {
    let mut files = Vec::new(alloc);
    files.push(file(alloc, b"journal", b"", &[1])?)?;
    files.push(file(alloc, b"other", b"ab", &[])?)?;
    Ok(MemDisks::new(alloc, files, &[], 8, 8)?)
}

/// Opens a file, does what a journal does, and hands it back.
fn add_by_name<D: Disks>(disks: &mut D, name: &str, bytes: &[u8]) -> Act {
    match disks.open(name) {
        DiskOpen::Failed => Act::Failed,
        DiskOpen::Disk(mut disk) => {
            let act = add(&mut disk, bytes);
            disks.done(disk);
            act
        }
    }
}

/// What a read of this file gives first, while another is open.
fn first_beside<D: Disks>(disks: &mut D, name: &str, open: &str) -> Option<u8> {
    let DiskOpen::Disk(held) = disks.open(open) else {
        return None;
    };
    let first = match disks.open(name) {
        DiskOpen::Failed => None,
        DiskOpen::Disk(mut disk) => {
            let first = byte_at(&mut disk, 0);
            disks.done(disk);
            first
        }
    };
    disks.done(held);
    first
}

/// The file has this name and these contents, and isn't open.
fn is_file(file: Option<&MemFile>, name: &[u8], contents: &[u8]) -> bool {
    let Some(file) = file else {
        return false;
    };
    match &file.disk {
        Some(disk) => file.name.as_slice() == name && disk.contents() == contents,
        None => false,
    }
}

fn have_names(disks: &mut MemDisks) -> Result<(), Fail> {
    let added = [
        add_by_name(disks, "journal", b"x"),
        add_by_name(disks, "journal", b"y"),
    ];
    let firsts = [
        first_beside(disks, "journal", "other"),
        first_beside(disks, "other", "other"),
    ];
    let is_y = is_file(disks.files().first(), b"journal", b"y");
    let counts = (is_y, disks.asked().len(), disks.faults());
    same(added, [Act::Failed, Act::Ready])?;
    same(firsts, [Some(b'y'), None])?;
    same(counts, (true, 6, 2))
}

#[test]
fn files_in_memory_by_name(rt: HostRuntime) -> Result<(), Fail> {
    let mut disks = two_files(rt.alloc())?;
    let done = have_names(&mut disks);
    drop(disks);
    done
}

/// What is written of a file is there, and is cut.
fn is_kept<F: Read + Write + Seek + OpenFile + Drop>(disk: &mut FileDisk<F>) -> Result<(), Fail> {
    let added = add(disk, b"abc");
    let cut = (disk.cut(1), disk.len());
    let written = (disk.write(1, b"xyz"), disk.len());
    let bytes = [byte_at(disk, 0), byte_at(disk, 2)];
    let past = disk.read(3, &mut [0u8; 2]);
    same(
        [cut, written],
        [(Act::Ready, DiskLen::Len(1)), (Act::Ready, DiskLen::Len(4))],
    )?;
    same(bytes, [Some(b'a'), Some(b'y')])?;
    same([added, past], [Act::Ready, Act::Failed])
}

/// The same of the file of this name.
fn keep<R: Files + Drop>(disks: &mut FileDisks<R>, name: &str) -> Result<(), Fail> {
    match disks.open(name) {
        DiskOpen::Disk(mut disk) => {
            let kept = is_kept(&mut disk);
            disks.done(disk);
            kept
        }
        DiskOpen::Failed => Err("no file".into()),
    }
}

/// Whether there is no file of this name.
fn is_none<D: Disks>(disks: &mut D, name: &str) -> bool {
    match disks.open(name) {
        DiskOpen::Disk(disk) => {
            disks.done(disk);
            false
        }
        DiskOpen::Failed => true,
    }
}

#[test]
fn files_of_this_machine(rt: HostRuntime) -> Result<(), Fail> {
    let name = "disks_file.tmp";
    let mut disks = FileDisks::new(&rt);
    let kept = keep(&mut disks, name);
    let is_none = is_none(&mut disks, "no_such_folder/file");
    let faults = disks.faults();
    drop(disks);
    kept?;
    fs::remove_file(&rt, name)?;
    same((is_none, faults), (true, 2))
}

/// The bytes at the front of the file of this name, and how many it has.
fn front<D: Disks>(disks: &mut D, name: &str) -> Option<([u8; 4], u64)> {
    let mut into = [0u8; 4];
    match disks.open(name) {
        DiskOpen::Failed => None,
        DiskOpen::Disk(mut disk) => {
            let front = match disk.len() {
                DiskLen::Len(len) if len >= 4 => match disk.read(0, &mut into) {
                    Act::Ready => Some((into, len)),
                    Act::Failed => None,
                },
                _ => None,
            };
            disks.done(disk);
            front
        }
    }
}

#[test]
fn files_that_are_opened_again(rt: HostRuntime) -> Result<(), Fail> {
    let (first, second) = ("disks_first.tmp", "disks_second.tmp");
    let mut disks = FileDisks::new(&rt);
    let added = [
        add_by_name(&mut disks, first, b"abc"),
        add_by_name(&mut disks, second, b"vwxyz"),
        add_by_name(&mut disks, first, b"d"),
    ];
    let fronts = (front(&mut disks, first), front(&mut disks, second));
    drop(disks);
    fs::remove_file(&rt, first)?;
    fs::remove_file(&rt, second)?;
    same(added, [Act::Ready, Act::Ready, Act::Ready])?;
    same(fronts, (Some((*b"abcd", 4)), Some((*b"vwxy", 5))))
}
