//! Abridged frames: a caller's try, the worked rows, and each call once.

ghost use Rattle.std.specs.Prelude.{◌≡◌, ◌++◌, ◌∷◌, [], List, ℕ, IfOk};
ghost use Rattle.std.specs.Bool.{IsTrue, OnTrue};
ghost use Rattle.framing.specs.Payload.{IsPayload};
ghost use Rattle.framing.specs.Streams.{Begins};
ghost use Rattle.framing.specs.Holding.{Stands};
ghost use Rattle.frame_short.specs.Abridged.{abridged, frame_of};

use crate::feeding::{Frames, Given, put_next, read};
use crate::rows::{Asked, are_so};
use frame_short::{Deframer, FrameFault, Framer, Next};
use octets::{Memory, Octets};
use std::alloc::Global;
use std::test::*;
use test_asserts::{holds, same};

// Feeds a piece and copies the packet that comes next, where there is one.
fn take_packet(
    deframer: &mut Deframer,
    alloc: Global,
    piece: &[u8],
    into: &mut Octets,
) -> Result<bool, Memory>
    ensures taken { IfOk result (λ found. OnTrue found ((packets : List (List ℕ)) (bytes : List ℕ)
        → Stands abridged deframer.old packets bytes → Stands abridged deframer.new (packets ++ into.new ∷ []) (bytes ++ piece.now))) }
{
    deframer.feed(alloc, piece)?;
    match deframer.next() {
        Next::Packet(packet) => {
            *into = Octets::copy(alloc, packet)?;
            Ok(true)
        }
        Next::More | Next::Fault(_) => Ok(false),
    }
}

// Feeds a piece that ends a frame, and copies its packet.
fn read_one(
    deframer: &mut Deframer,
    alloc: Global,
    piece: &Octets,
    into: &mut Octets,
) -> Result<bool, Memory>
    ensures found { (packets : List (List ℕ)) (packet bytes : List ℕ)
        → Stands abridged deframer.old packets bytes → Begins abridged (packets ++ packet ∷ []) (bytes ++ piece.now)
        → IfOk result (λ found. IsTrue found) }
    ensures same { (packets : List (List ℕ)) (packet bytes : List ℕ)
        → Stands abridged deframer.old packets bytes → Begins abridged (packets ++ packet ∷ []) (bytes ++ piece.now)
        → IfOk result (λ found. into.new ≡ packet) }
{
    deframer.feed(alloc, piece.as_slice())?;
    match deframer.next() {
        Next::Packet(packet) => {
            *into = Octets::copy(alloc, packet)?;
            Ok(true)
        }
        Next::More | Next::Fault(_) => Ok(false),
    }
}

// Writes a payload.
fn written(framer: &mut Framer, alloc: Global, payload: &[u8]) -> Result<Octets, Memory>
    requires { IsPayload payload.now }
    ensures { IfOk result (λ text. text ≡ frame_of payload.now) }
{
    let mut text = Octets::new(alloc);
    framer.frame(alloc, payload, &mut text)?;
    Ok(text)
}

// Writes a payload and reads it again.
fn written_and_read(
    framer: &mut Framer,
    deframer: &mut Deframer,
    alloc: Global,
    payload: &[u8],
    into: &mut Octets,
) -> Result<bool, Memory>
    requires { IsPayload payload.now }
{
    let text = written(framer, alloc, payload)?;
    read_one(deframer, alloc, &text, into)
}

impl Frames for Deframer {
    fn begin(alloc: Global, _padded: bool) -> Deframer {
        Deframer::new(alloc)
    }

    fn take(&mut self, alloc: Global, piece: &[u8]) -> Result<(), Memory> {
        self.feed(alloc, piece)
    }

    fn give(&mut self, alloc: Global, text: &mut Octets) -> Result<Given, Memory> {
        put_next(alloc, self.next(), text)
    }
}

// Puts a frame of a payload that may have any length.
fn put(framer: &mut Framer, alloc: Global, payload: &[u8], out: &mut Octets) -> Result<(), Fail> {
    if payload.len() < 4 || payload.len() > 1_048_576 || payload.len() % 4 != 0 {
        return Err(Fail::new("no payload"));
    }
    framer.frame(alloc, payload, out)?;
    Ok(())
}

// The frames of packets of 504 and 508 bytes.
fn two_frames(alloc: Global) -> Result<Octets, Fail> {
    let mut stream = Octets::new(alloc);
    let mut framer = Framer::new();
    put(&mut framer, alloc, &[3; 504], &mut stream)?;
    same(stream.as_slice().len(), 505)?;
    put(&mut framer, alloc, &[7; 508], &mut stream)?;
    Ok(stream)
}

// Their packets, one behind the other.
fn two_packets(alloc: Global) -> Result<Octets, Fail> {
    let mut packets = Octets::copy(alloc, &[3; 504])?;
    packets.push_all(alloc, &[7; 508])?;
    Ok(packets)
}

#[test]
fn frames_have_their_heads(rt: HostRuntime) -> Result<(), Fail> {
    let stream = two_frames(rt.alloc())?;
    same(stream.as_slice().len(), 1017)?;
    same(stream.as_slice().first().copied(), Some(0x7e))?;
    same(
        stream.as_slice().get(505..509),
        Some(b"\x7f\x7f\0\0".as_slice()),
    )
}

#[test]
fn frames_are_read_in_any_pieces(rt: HostRuntime) -> Result<(), Fail> {
    let stream = two_frames(rt.alloc())?;
    let want = two_packets(rt.alloc())?;
    for size in [1, 7, 506, 507, 508, 1017] {
        let found = read(
            Deframer::new(rt.alloc()),
            rt.alloc(),
            stream.as_slice(),
            size,
            want.as_slice(),
        )?;
        same(found, (2, true, None))?;
    }
    Ok(())
}

// How many packets come, the fault, and the bytes of the stream.
const STREAMS: &str = "0 None | \n\
0 None | 016cfeff\n\
1 None | 016cfeffff\n\
1 None | 7f0100006cfeffff\n\
0 None | 7f000004\n\
0 Some(TooLong { len: 1048580 }) | 7f010004\n\
0 Some(BadLength { len: 0 }) | 006c\n\
0 Some(BadLength { len: 0 }) | 7f000000\n\
0 Some(BadLength { len: 128 }) | 80\n\
1 Some(BadLength { len: 239 }) | 016cfeffffef\n";

#[test]
fn rows_of_streams(rt: HostRuntime) -> Result<(), Fail> {
    are_so(rt.alloc(), Asked::Short, STREAMS, 10)
}

// A payload of this byte is written, and read into a packet.
fn comes_back(
    framer: &mut Framer,
    deframer: &mut Deframer,
    alloc: Global,
    byte: u8,
    packet: &mut Octets,
) -> Result<(), Fail> {
    let payload = [byte; 88];
    holds(written_and_read(framer, deframer, alloc, &payload, packet)?)?;
    same(packet.as_slice(), payload.as_slice())
}

#[test]
fn what_is_written_is_read(rt: HostRuntime) -> Result<(), Fail> {
    let alloc = rt.alloc();
    let mut framer = Framer::new();
    let mut deframer = Deframer::new(alloc);
    let mut packet = Octets::new(alloc);
    comes_back(&mut framer, &mut deframer, alloc, 7, &mut packet)?;
    comes_back(&mut framer, &mut deframer, alloc, 9, &mut packet)
}

#[test]
fn a_fault_stays(rt: HostRuntime) -> Result<(), Fail> {
    let alloc = rt.alloc();
    let mut frame = Octets::new(alloc);
    Framer::new().frame(alloc, b"\x6c\xfe\xff\xff", &mut frame)?;
    same(frame.as_slice(), b"\x01\x6c\xfe\xff\xff".as_slice())?;
    let mut deframer = Deframer::new(alloc);
    let done = fault_stays(&mut deframer, alloc, frame.as_slice());
    drop(deframer);
    done
}

// A packet comes in two pieces.
fn takes_one(deframer: &mut Deframer, alloc: Global) -> Result<(), Fail> {
    let mut packet = Octets::new(alloc);
    holds(!take_packet(deframer, alloc, b"\x01\x6c", &mut packet)?)?;
    holds(take_packet(deframer, alloc, b"\xfe\xff\xff", &mut packet)?)?;
    same(packet.as_slice(), b"\x6c\xfe\xff\xff".as_slice())
}

// Behind these bytes there is the fault of a first byte of 255.
fn has_fault(deframer: &mut Deframer, alloc: Global, bytes: &[u8]) -> Result<(), Fail> {
    deframer.feed(alloc, bytes)?;
    let fault = FrameFault::BadLength { len: 255 };
    same(deframer.next(), Next::Fault(fault))
}

// Behind a fault no packet of a frame comes.
fn fault_stays(deframer: &mut Deframer, alloc: Global, frame: &[u8]) -> Result<(), Fail> {
    takes_one(deframer, alloc)?;
    has_fault(deframer, alloc, b"\xff")?;
    has_fault(deframer, alloc, frame)
}
