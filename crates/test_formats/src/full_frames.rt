//! Full frames: a caller's try, the worked rows, and each call once. The frames' checks are those of zlib.

ghost use Rattle.std.specs.Prelude.{◌≡◌, ◌++◌, ◌∷◌, [], List, ℕ, IfOk};
ghost use Rattle.std.specs.Bool.{IsTrue, OnTrue};
ghost use Rattle.framing.specs.Payload.{IsPayload};
ghost use Rattle.framing.specs.Streams.{Begins};
ghost use Rattle.framing.specs.Holding.{Stands};
ghost use Rattle.frame_full.specs.Full.{full, frame_of};

use crate::feeding::{Frames, Given, put_next, read};
use crate::rows::{Asked, are_so};
use frame_full::{Deframer, FrameFault, Framer, Next};
use octets::{Memory, Octets};
use std::alloc::Global;
use std::test::*;
use test_asserts::{holds, same};

// Feeds a piece and copies the packet that comes next, where there is one.
fn take_packet(
    deframer: &mut Deframer,
    alloc: Global,
    piece: &[u8],
    into: &mut Octets,
) -> Result<bool, Memory>
    ensures taken { IfOk result (λ found. OnTrue found ((packets : List (List ℕ)) (bytes : List ℕ)
        → Stands full deframer.old packets bytes → Stands full deframer.new (packets ++ into.new ∷ []) (bytes ++ piece.now))) }
{
    deframer.feed(alloc, piece)?;
    match deframer.next() {
        Next::Packet(packet) => {
            *into = Octets::copy(alloc, packet)?;
            Ok(true)
        }
        Next::More | Next::Fault(_) => Ok(false),
    }
}

// Feeds a piece that ends a frame, and copies its packet.
fn read_one(
    deframer: &mut Deframer,
    alloc: Global,
    piece: &Octets,
    into: &mut Octets,
) -> Result<bool, Memory>
    ensures found { (packets : List (List ℕ)) (packet bytes : List ℕ)
        → Stands full deframer.old packets bytes → Begins full (packets ++ packet ∷ []) (bytes ++ piece.now)
        → IfOk result (λ found. IsTrue found) }
    ensures same { (packets : List (List ℕ)) (packet bytes : List ℕ)
        → Stands full deframer.old packets bytes → Begins full (packets ++ packet ∷ []) (bytes ++ piece.now)
        → IfOk result (λ found. into.new ≡ packet) }
{
    deframer.feed(alloc, piece.as_slice())?;
    match deframer.next() {
        Next::Packet(packet) => {
            *into = Octets::copy(alloc, packet)?;
            Ok(true)
        }
        Next::More | Next::Fault(_) => Ok(false),
    }
}

// Writes a payload.
fn written(framer: &mut Framer, alloc: Global, payload: &[u8]) -> Result<Octets, Memory>
    requires { IsPayload payload.now }
    ensures { IfOk result (λ text. text ≡ frame_of framer.old payload.now) }
{
    let mut text = Octets::new(alloc);
    framer.frame(alloc, payload, &mut text)?;
    Ok(text)
}

// Writes a payload and reads it again.
fn written_and_read(
    framer: &mut Framer,
    deframer: &mut Deframer,
    alloc: Global,
    payload: &[u8],
    into: &mut Octets,
) -> Result<bool, Memory>
    requires { IsPayload payload.now }
{
    let text = written(framer, alloc, payload)?;
    read_one(deframer, alloc, &text, into)
}

impl Frames for Deframer {
    fn begin(alloc: Global, _padded: bool) -> Deframer {
        Deframer::new(alloc)
    }

    fn take(&mut self, alloc: Global, piece: &[u8]) -> Result<(), Memory> {
        self.feed(alloc, piece)
    }

    fn give(&mut self, alloc: Global, text: &mut Octets) -> Result<Given, Memory> {
        put_next(alloc, self.next(), text)
    }
}

#[test]
fn frames_are_counted(rt: HostRuntime) -> Result<(), Fail> {
    let alloc = rt.alloc();
    let want =
        b"\x10\0\0\0\0\0\0\0\x6c\xfe\xff\xff\x0d\x2f\x41\x07\x14\0\0\0\x01\0\0\0abcdefgh\x1a\x80\xc5\x8e";
    let mut framer = Framer::new();
    let mut stream = Octets::new(alloc);
    framer.frame(alloc, b"\x6c\xfe\xff\xff", &mut stream)?;
    framer.frame(alloc, b"abcdefgh", &mut stream)?;
    same(stream.as_slice(), want.as_slice())?;
    for size in [1, 7, 36] {
        same(
            read(
                Deframer::new(alloc),
                alloc,
                want,
                size,
                b"\x6c\xfe\xff\xffabcdefgh",
            )?,
            (2, true, None),
        )?;
    }
    Ok(())
}

// How many packets come, the fault, and the bytes of the stream.
const STREAMS: &str = "\
0 None | 0b0000\n\
0 Some(BadLength { len: 11 }) | 0b000000\n\
0 Some(BadLength { len: 12 }) | 0c000000\n\
0 Some(BadLength { len: 18 }) | 12000000\n\
0 None | 0c001000\n\
0 Some(TooLong { len: 1048592 }) | 10001000\n\
0 Some(Sum { said: 2269196045, found: 121712397 }) | 10000000000000006cfeffff0d2f4187\n\
0 Some(Count { said: 1, want: 0 }) | 10000000010000006cfeffff932febcb\n";

#[test]
fn rows_of_faults(rt: HostRuntime) -> Result<(), Fail> {
    are_so(rt.alloc(), Asked::Full, STREAMS, 8)
}

// A payload of this byte is written, and read into a packet.
fn comes_back(
    framer: &mut Framer,
    deframer: &mut Deframer,
    alloc: Global,
    byte: u8,
    packet: &mut Octets,
) -> Result<(), Fail> {
    let payload = [byte; 88];
    holds(written_and_read(framer, deframer, alloc, &payload, packet)?)?;
    same(packet.as_slice(), payload.as_slice())
}

#[test]
fn what_is_written_is_read(rt: HostRuntime) -> Result<(), Fail> {
    let alloc = rt.alloc();
    let mut framer = Framer::new();
    let mut deframer = Deframer::new(alloc);
    let mut packet = Octets::new(alloc);
    comes_back(&mut framer, &mut deframer, alloc, 7, &mut packet)?;
    comes_back(&mut framer, &mut deframer, alloc, 9, &mut packet)
}

// A packet comes in two pieces.
fn takes_one(deframer: &mut Deframer, alloc: Global) -> Result<(), Fail> {
    let mut packet = Octets::new(alloc);
    holds(!take_packet(deframer, alloc, b"\x10\0\0\0\0\0\0\0", &mut packet)?)?;
    let rest = b"\x6c\xfe\xff\xff\x0d\x2f\x41\x07";
    holds(take_packet(deframer, alloc, rest, &mut packet)?)?;
    same(packet.as_slice(), b"\x6c\xfe\xff\xff".as_slice())
}

// Behind these bytes there is this fault.
fn has_fault(
    deframer: &mut Deframer,
    alloc: Global,
    bytes: &[u8],
    fault: FrameFault,
) -> Result<(), Fail> {
    deframer.feed(alloc, bytes)?;
    same(deframer.next(), Next::Fault(fault))
}

fn fault_stays(deframer: &mut Deframer, alloc: Global) -> Result<(), Fail> {
    takes_one(deframer, alloc)?;
    let again = b"\x10\0\0\0\0\0\0\0\x6c\xfe\xff\xff\x0d\x2f\x41\x07";
    let fault = FrameFault::Count { said: 0, want: 1 };
    has_fault(deframer, alloc, again, fault)?;
    has_fault(deframer, alloc, again, fault)
}

#[test]
fn a_fault_stays(rt: HostRuntime) -> Result<(), Fail> {
    let mut deframer = Deframer::new(rt.alloc());
    let done = fault_stays(&mut deframer, rt.alloc());
    drop(deframer);
    done
}
