//! A key file that isn't there, one that is refused, and one that is a ring.

ghost use Rattle.std.specs.Prelude.{◌≤◌};

use key_files::{KeysFault, read_ring, refused_line};
use mt_edge::{MemFiles, NamedFile};
use octets::{Memory, Octets};
use std::alloc::{AllocError, Global};
use std::test::*;
use test_asserts::{same, same_at};

// A file of this name and these contents.
fn file(alloc: Global, name: &[u8], contents: &[u8]) -> Result<NamedFile, Memory> {
    Ok(NamedFile {
        name: Octets::copy(alloc, name)?,
        contents: Octets::copy(alloc, contents)?,
    })
}

// The text of a ring of one key.
fn ring_text(alloc: Global) -> Result<String, AllocError> {
    let digits = hex::encode(alloc, [7; 256].as_slice())?;
    format!(in alloc; "perm {digits}\n")
}

// Files of which one has a ring and one a bad second line.
fn files(alloc: Global) -> Result<MemFiles, Fail> {
    let ring = ring_text(alloc)?;
    let mut files = Vec::new(alloc);
    files.push(file(alloc, b"ring", ring.as_bytes())?)?;
    files.push(file(alloc, b"bad", b"# none\nperm 00\n")?)?;
    Ok(MemFiles::new(alloc, files, &[], 4)?)
}

// How many keys the file of this name has.
fn keys_of(alloc: Global, name: &str) -> Result<Result<usize, KeysFault>, Fail> {
    let mut files = files(alloc)?;
    let ring = read_ring(alloc, name, &mut files);
    drop(files);
    Ok(match ring {
        Ok(ring) => {
            let keys = ring.len();
            drop(ring);
            Ok(keys)
        }
        Err(fault) => Err(fault),
    })
}

#[test]
fn key_files_and_their_faults(rt: HostRuntime) -> Result<(), Fail> {
    let alloc = rt.alloc();
    let rows = [
        ("none", Err(KeysFault::Unread)),
        ("bad", Err(KeysFault::Refused { line: 2 })),
        ("ring", Ok(1)),
    ];
    for (name, due) in rows {
        same_at(name, keys_of(alloc, name)?, due)?;
    }
    let line = refused_line(alloc, 2)?;
    same(line.as_slice(), b"key file refused at line 2\n".as_slice())?;
    Ok(())
}
