//! Intermediate and padded frames: callers' tries, the worked rows, and each call once.

ghost use Rattle.std.specs.Prelude.{◌≡◌, ◌++◌, ◌∷◌, [], List, ℕ, IfOk};
ghost use Rattle.std.specs.Bool.{OnTrue};
ghost use Rattle.frame_len.specs.Lengths.{IsWritten, frame_of};
ghost use Rattle.frame_len.specs.Reading.{StandsFor};

use crate::feeding::{Frames, Given, put_next, read};
use crate::rows::{Asked, are_so};
use frame_len::{Deframer, FrameFault, Framer, Next};
use octets::{Memory, Octets};
use std::alloc::Global;
use std::test::*;
use test_asserts::{holds, same, same_at};

// Feeds a piece and copies the packet that comes next, where there is one.
fn take_packet(
    deframer: &mut Deframer,
    alloc: Global,
    piece: &[u8],
    into: &mut Octets,
) -> Result<bool, Memory>
    ensures taken { IfOk result (λ found. OnTrue found ((packets : List (List ℕ)) (bytes : List ℕ)
        → StandsFor deframer.old packets bytes → StandsFor deframer.new (packets ++ into.new ∷ []) (bytes ++ piece.now))) }
{
    deframer.feed(alloc, piece)?;
    match deframer.next() {
        Next::Packet(packet) => {
            *into = Octets::copy(alloc, packet)?;
            Ok(true)
        }
        Next::More | Next::Fault(_) => Ok(false),
    }
}

// Writes a payload.
fn written(alloc: Global, padded: bool, payload: &[u8]) -> Result<Octets, Memory>
    requires { IsWritten padded payload.now }
    ensures { IfOk result (λ text. text ≡ frame_of payload.now) }
{
    let mut framer = Framer::new(padded);
    let mut text = Octets::new(alloc);
    framer.frame(alloc, payload, &mut text)?;
    Ok(text)
}

// Writes a payload and reads it again.
fn written_and_read(
    deframer: &mut Deframer,
    alloc: Global,
    padded: bool,
    payload: &[u8],
    into: &mut Octets,
) -> Result<bool, Memory>
    requires { IsWritten padded payload.now }
{
    let text = written(alloc, padded, payload)?;
    take_packet(deframer, alloc, text.as_slice(), into)
}

impl Frames for Deframer {
    fn begin(alloc: Global, padded: bool) -> Deframer {
        Deframer::new(alloc, padded)
    }

    fn take(&mut self, alloc: Global, piece: &[u8]) -> Result<(), Memory> {
        self.feed(alloc, piece)
    }

    fn give(&mut self, alloc: Global, text: &mut Octets) -> Result<Given, Memory> {
        put_next(alloc, self.next(), text)
    }
}

// How many packets come, the fault, and the bytes of the stream.
const INTERMEDIATE: &str = "\
0 None | \n\
0 None | 040000006cfeff\n\
1 None | 040000006cfeffff\n\
0 None | 00001000\n\
0 Some(TooLong { len: 1048580 }) | 04001000\n\
0 Some(TooLong { len: 1048581 }) | 05001000\n\
0 Some(BadLength { len: 5 }) | 05000000\n\
0 Some(BadLength { len: 0 }) | 00000000\n";

const PADDED: &str = "\
1 None | 040000006cfeffff\n\
0 None | 050000006cfeffff\n\
1 None | 050000006cfeffff01\n\
0 None | 07001000\n\
0 Some(TooLong { len: 1048584 }) | 08001000\n\
0 Some(BadLength { len: 0 }) | 00000000\n\
0 Some(BadLength { len: 3 }) | 03000000\n\
0 None | 030000\n";

#[test]
fn rows_of_streams(rt: HostRuntime) -> Result<(), Fail> {
    are_so(rt.alloc(), Asked::Intermediate, INTERMEDIATE, 8)?;
    are_so(rt.alloc(), Asked::Padded, PADDED, 8)
}

// Bytes of frames. No contract says what they are: such a list is computed by all that looks at it.
fn sevens() -> [u8; 91] {
    [7; 91]
}

// The packet of a padded frame that says this length, fed in pieces of this size, has so many bytes.
fn is_cut(alloc: Global, len: u8, payload: usize, size: usize) -> Result<(), Fail> {
    let bytes = sevens();
    let mut stream = Octets::copy(alloc, &[len, 0, 0, 0])?;
    stream.push_all(alloc, bytes.get(..len as usize).ok_or("too long")?)?;
    let want = bytes.get(..payload).ok_or("too long")?;
    let found = read(
        Deframer::new(alloc, true),
        alloc,
        stream.as_slice(),
        size,
        want,
    )?;
    same_at(len, found, (1, true, None))
}

#[test]
fn padding_is_no_payload(rt: HostRuntime) -> Result<(), Fail> {
    let rows: [(u8, usize); 8] = [
        (4, 4),
        (23, 4),
        (24, 24),
        (39, 24),
        (40, 40),
        (87, 72),
        (88, 88),
        (91, 88),
    ];
    for (len, payload) in rows {
        is_cut(rt.alloc(), len, payload, 1)?;
        is_cut(rt.alloc(), len, payload, 7)?;
        is_cut(rt.alloc(), len, payload, 95)?;
    }
    Ok(())
}

#[test]
fn what_is_written_is_read(rt: HostRuntime) -> Result<(), Fail> {
    let alloc = rt.alloc();
    let mut packet = Octets::new(alloc);
    for padded in [false, true] {
        let mut deframer = Deframer::new(alloc, padded);
        holds(written_and_read(&mut deframer, alloc, padded, &[7; 88], &mut packet)?)?;
        same(packet.as_slice(), [7; 88].as_slice())?;
    }
    Ok(())
}

// A packet comes in two pieces.
fn takes_one(deframer: &mut Deframer, alloc: Global) -> Result<(), Fail> {
    let mut packet = Octets::new(alloc);
    holds(!take_packet(deframer, alloc, b"\x04\0\0\0\x6c", &mut packet)?)?;
    holds(take_packet(deframer, alloc, b"\xfe\xff\xff", &mut packet)?)?;
    same(packet.as_slice(), b"\x6c\xfe\xff\xff".as_slice())
}

// Behind these bytes there is the fault of a length of 2.
fn has_fault(deframer: &mut Deframer, alloc: Global, bytes: &[u8]) -> Result<(), Fail> {
    deframer.feed(alloc, bytes)?;
    let fault = FrameFault::BadLength { len: 2 };
    same(deframer.next(), Next::Fault(fault))
}

// Behind a fault no packet of a frame comes.
fn stays(deframer: &mut Deframer, alloc: Global, frame: &[u8]) -> Result<(), Fail> {
    takes_one(deframer, alloc)?;
    has_fault(deframer, alloc, b"\x02\0\0\0")?;
    has_fault(deframer, alloc, frame)
}

// The same of a stream of this form.
fn fault_stays(alloc: Global, padded: bool) -> Result<(), Fail> {
    let mut frame = Octets::new(alloc);
    Framer::new(padded).frame(alloc, b"\x6c\xfe\xff\xff", &mut frame)?;
    same(frame.as_slice(), b"\x04\0\0\0\x6c\xfe\xff\xff".as_slice())?;
    let mut deframer = Deframer::new(alloc, padded);
    let done = stays(&mut deframer, alloc, frame.as_slice());
    drop(deframer);
    done
}

#[test]
fn a_fault_stays(rt: HostRuntime) -> Result<(), Fail> {
    fault_stays(rt.alloc(), false)?;
    fault_stays(rt.alloc(), true)
}
