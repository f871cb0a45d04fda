//! Whole texts through sources and sinks that cut and fail.

use mt_edge::{
    MemSink, MemSource, ReadFault, ReadSource, WriteFault, WriteSink, read_all, write_all,
};
use octets::Octets;
use std::alloc::Global;
use std::io::Write;
use std::test::Fail;
use test_asserts::{holds, same, same_at};

const TEXT: &[u8; 10] = b"0123456789";

/// Whether these bytes are the text.
fn is_text(bytes: Octets) -> bool {
    bytes.as_slice() == TEXT.as_slice()
}

/// A text read in pieces with some reads failing: whether it is the text, or its fault, and how many faults were counted.
fn reads(
    alloc: Global,
    piece_bytes: usize,
    failing: &[u64],
) -> Result<(Result<bool, ReadFault>, u64), Fail> {
    let mut source = MemSource::new(alloc, TEXT, piece_bytes.max(1), failing)?;
    let read = match read_all(alloc, &mut source, TEXT.len()) {
        Ok(bytes) => Ok(is_text(bytes)),
        Err(fault) => Err(fault),
    };
    let faults = source.faults();
    drop(source);
    Ok((read, faults))
}

#[test]
fn texts_are_read(rt: HostRuntime) -> Result<(), Fail> {
    let alloc = rt.alloc();
    for piece_bytes in [1, 7, 64] {
        same_at(piece_bytes, reads(alloc, piece_bytes, &[])?, (Ok(true), 0))?;
    }
    let failed = (Err(ReadFault::Failed), 1);
    same(reads(alloc, 7, &[1])?, failed)?;
    same(reads(alloc, 7, &[2, 3])?, failed)?;
    same(reads(alloc, 7, &[3])?, failed)?;
    same(reads_a_long_one(alloc)?, (true, 0))
}

/// Whether a text of a byte too many is too long, and how many faults were counted.
fn reads_a_long_one(alloc: Global) -> Result<(bool, u64), Fail> {
    let mut long = MemSource::new(alloc, b"0123456789x", 4, &[])?;
    let read = read_all(alloc, &mut long, TEXT.len());
    let is_too_long = matches!(&read, Err(ReadFault::TooLong));
    drop(read);
    let faults = long.faults();
    drop(long);
    Ok((is_too_long, faults))
}

/// A text written in pieces with some writes failing: the bytes that came of it.
fn writes(
    alloc: Global,
    room: usize,
    piece_bytes: usize,
    failing: &[u64],
    want: Result<(), WriteFault>,
    written: &[u8],
) -> Result<(), Fail> {
    let mut sink = MemSink::new(alloc, room, piece_bytes.max(1), failing)?;
    let answer = write_all(&mut sink, TEXT);
    let is_written = sink.written() == written;
    let is_faultless = sink.faults() == 0;
    drop(sink);
    same(answer, want)?;
    same((is_written, is_faultless), (true, want.is_ok()))
}

#[test]
fn texts_are_written(rt: HostRuntime) -> Result<(), Fail> {
    let alloc = rt.alloc();
    writes(alloc, 10, 1, &[], Ok(()), TEXT)?;
    writes(alloc, 10, 7, &[], Ok(()), TEXT)?;
    writes(alloc, 10, 7, &[1], Err(WriteFault), b"")?;
    writes(alloc, 10, 7, &[2], Err(WriteFault), b"0123456")?;
    writes(alloc, 9, 7, &[], Err(WriteFault), b"0123456")
}

/// A text read from a slice.
fn reads_a_slice(alloc: Global) -> Result<bool, Fail> {
    let mut source = ReadSource::new(TEXT.as_slice());
    match read_all(alloc, &mut source, TEXT.len()) {
        Ok(bytes) => Ok(is_text(bytes)),
        Err(_) => Err("no text".into()),
    }
}

/// What writing the text to a writer gives.
fn writes_to<W: Write + Drop>(writer: W) -> Result<(), WriteFault> {
    let mut sink = WriteSink::new(writer);
    write_all(&mut sink, TEXT)
}

#[test]
fn readers_and_writers_of_std(rt: HostRuntime) -> Result<(), Fail> {
    let alloc = rt.alloc();
    holds(reads_a_slice(alloc)?)?;
    let bytes: Vec<u8> = Vec::new(alloc);
    same(writes_to(bytes), Ok(()))?;
    let mut full = [0u8; 4];
    same(writes_to(full.as_mut_slice()), Err(WriteFault))
}
