//! Streams of frames that are fed in pieces, for every framing.

use framing::{FrameFault, Next};
use octets::{Memory, Octets};
use std::alloc::Global;
use std::test::Fail;
use test_asserts::{holds_at, same_at};
use test_lines::bytes_of;

/// What came of a stream.
pub(crate) enum Given {
    /// A packet, which was put behind a text.
    Packet,
    /// No whole packet is there.
    More,
    /// The stream has this fault.
    Fault(FrameFault),
}

/// What reads frames from a stream.
pub(crate) trait Frames: Drop {
    /// A new one, of the padded form where there is one.
    fn begin(alloc: Global, padded: bool) -> Self;

    /// A piece of the stream comes.
    fn take(&mut self, alloc: Global, piece: &[u8]) -> Result<(), Memory>;

    /// The next packet is put behind a text, where there is one.
    fn give(&mut self, alloc: Global, text: &mut Octets) -> Result<Given, Memory>;
}

/// A packet that is lent is put behind a text.
pub(crate) fn put_next(alloc: Global, next: Next<'_>, text: &mut Octets) -> Result<Given, Memory> {
    match next {
        Next::Packet(packet) => {
            text.push_all(alloc, packet)?;
            Ok(Given::Packet)
        }
        Next::More => Ok(Given::More),
        Next::Fault(fault) => Ok(Given::Fault(fault)),
    }
}

// The packets that are there, so many at most, are put behind a text: how many there are, and the fault behind them.
fn drain<D: Frames>(
    frames: &mut D,
    alloc: Global,
    text: &mut Octets,
    most: usize,
) -> Result<(usize, Option<FrameFault>), Memory> {
    let mut count = 0usize;
    for _ in 0..most {
        match frames.give(alloc, text)? {
            Given::Packet => count = count.saturating_add(1),
            Given::More => break,
            Given::Fault(fault) => return Ok((count, Some(fault))),
        }
    }
    Ok((count, None))
}

// The same of a stream that is fed in pieces of this size.
fn feed<D: Frames>(
    frames: &mut D,
    alloc: Global,
    stream: &[u8],
    size: usize,
    text: &mut Octets,
) -> Result<(usize, Option<FrameFault>), Memory> {
    let mut count = 0usize;
    for piece in stream.chunks(size.max(1)) {
        frames.take(alloc, piece)?;
        let (more, fault) = drain(frames, alloc, text, stream.len())?;
        count = count.saturating_add(more);
        if fault.is_some() {
            return Ok((count, fault));
        }
    }
    Ok((count, None))
}

/// How many packets a stream gives that is fed in pieces of this size, whether they are this text, and its fault.
pub(crate) fn read<D: Frames>(
    frames: D,
    alloc: Global,
    stream: &[u8],
    size: usize,
    want: &[u8],
) -> Result<(usize, bool, Option<FrameFault>), Fail> {
    let mut frames = frames;
    let mut text = Octets::new(alloc);
    let fed = feed(&mut frames, alloc, stream, size, &mut text);
    drop(frames);
    let same = text.as_slice() == want;
    drop(text);
    let (count, fault) = fed?;
    Ok((count, same, fault))
}

// How many packets of `6cfeffff` a stream gives that is fed in pieces of this size, no more than one, and its fault.
fn told<D: Frames>(
    frames: D,
    alloc: Global,
    stream: &[u8],
    size: usize,
    digits: &str,
    due: &str,
) -> Result<String, Fail> {
    let want: &[u8] = if due.starts_with('1') {
        b"\x6c\xfe\xff\xff"
    } else {
        b""
    };
    let (count, same, fault) = read(frames, alloc, stream, size, want)?;
    holds_at(digits, same)?;
    Ok(format!(in alloc; "{count} {fault:?}")?)
}

// The same for pieces of many sizes.
fn are_told<D: Frames>(
    alloc: Global,
    padded: bool,
    stream: &[u8],
    digits: &str,
    due: &str,
) -> Result<(), Fail> {
    for size in [1, 3, 7, 9, 16] {
        let frames = D::begin(alloc, padded);
        let found = told(frames, alloc, stream, size, digits, due)?;
        same_at((digits, size), found.as_str(), due)?;
    }
    Ok(())
}

/// A stream of these digits gives so many packets, each `6cfeffff`, no more than one, and this fault.
pub(crate) fn gives<D: Frames>(
    alloc: Global,
    padded: bool,
    digits: &str,
    due: &str,
) -> Result<(), Fail> {
    let stream = bytes_of(alloc, digits)?;
    let done = are_told::<D>(alloc, padded, stream.as_slice(), digits, due);
    drop(stream);
    done
}
