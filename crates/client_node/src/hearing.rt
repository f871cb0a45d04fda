//! What a client hears in a piece.

ghost use Rattle.std.specs.Prelude.{◌≡◌, IfErr};
ghost use Rattle.client_node.specs.Course.{Course, Reading};
ghost use Rattle.client_node.specs.Standing.{DecidedBy, IsReading, KeepsKeys, StandsAs, count_of};
ghost use Rattle.client_node.specs.Took.{CameNext, IsHeardEnd, IsNextEnd, TookPacket, TookPiece};

use crate::calls::{Cursor, is_decided};
use crate::end::End;
use crate::holding::{hear, renew};
use client_core::Holder;
use draws::Draw;
use envelope::Seal;
use msg_ids::Moment;
use octets::Memory;
use std::alloc::Global;
use transport::{Framed, Next, Wire};

/// The bytes of a transport error.
const ERROR_BYTES: usize = 4;

/// The client hears a packet, and goes on in another session where it has to.
///
/// # Errors
///
/// Why the connection ends.
#[tactic(auto, using(crate::proofs::PacketLemmas::packet_memory, crate::proofs::PacketLemmas::packet_decided, crate::proofs::PacketLemmas::packet_goes, crate::proofs::KindLemmas::all_decided))]
fn take_packet<S: Seal, D: Draw>(
    client: Holder,
    alloc: Global,
    now: Moment,
    packet: &[u8],
    cursor: &mut Cursor,
    seal: &S,
    draw: &mut D,
) -> (Holder, Result<(), End>)
    ensures took { (reading : Reading) (course : Course D) → IsReading S.lock (S.keys seal.now) reading → StandsAs client draw.old course
        → TookPacket D.step reading now course packet.now result.1 result.0 draw.new }
    ensures ends { IfErr result.1 IsHeardEnd }
    ensures keys { KeepsKeys client result.0 }
    ensures count { count_of result.0 ≡ count_of client }
    ensures decided { DecidedBy result.1 result.0 }
{
    let (client, heard) = hear(client, alloc, now, seal, packet);
    match heard {
        Err(Memory) => (client, Err(End::Memory)),
        Ok(()) => {
            if is_decided(&client, cursor) {
                return (client, Err(End::Decided));
            }
            (renew(client, cursor, draw), Ok(()))
        }
    }
}

/// What comes next in the piece: a packet is heard, and a transport error or a frame fault loses the connection. It says
/// whether there was a packet, so that there may be another.
///
/// # Errors
///
/// Why the connection ends.
fn take_next<S: Seal, D: Draw>(
    client: Holder,
    alloc: Global,
    now: Moment,
    wire: &mut Wire<Framed>,
    cursor: &mut Cursor,
    seal: &S,
    draw: &mut D,
) -> (Holder, Result<bool, End>)
    ensures ends { IfErr result.1 IsNextEnd }
    ensures keys { KeepsKeys client result.0 }
    ensures count { count_of result.0 ≡ count_of client }
    ensures decided { DecidedBy result.1 result.0 }
    ensures next { CameNext D.step S.lock (S.keys seal.now) now client draw.old wire.old result.1 result.0 draw.new wire.new }
    ensures same_out { (wire.new.form ≡ wire.old.form) × (wire.new.writing ≡ wire.old.writing) × (wire.new.number ≡ wire.old.number) }
{
    match wire.next() {
        Next::Packet(packet) => {
            if packet.len() == ERROR_BYTES {
                return (client, Err(End::Lost));
            }
            let (client, taken) = take_packet(client, alloc, now, packet, cursor, seal, draw);
            match taken {
                Ok(()) => (client, Ok(true)),
                Err(end) => (client, Err(end)),
            }
        }
        Next::More => (client, Ok(false)),
        Next::Fault(_) => (client, Err(End::Lost)),
    }
}

/// More packets than one connection has bytes: pieces of 65,536 bytes, 1,000,000 of them.
const PACKETS_MAX: u64 = 65_536_000_001;

/// The client hears the packets that are whole with this piece.
///
/// # Errors
///
/// Why the connection ends.
pub(crate) fn take_piece<S: Seal, D: Draw>(
    client: Holder,
    alloc: Global,
    now: Moment,
    wire: &mut Wire<Framed>,
    piece: &[u8],
    cursor: &mut Cursor,
    seal: &S,
    draw: &mut D,
) -> (Holder, Result<(), End>)
    ensures ends { IfErr result.1 IsNextEnd }
    ensures keys { KeepsKeys client result.0 }
    ensures count { count_of result.0 ≡ count_of client }
    ensures decided { DecidedBy result.1 result.0 }
    ensures took { TookPiece D.step S.lock (S.keys seal.now) now client draw.old wire.old piece.now result.1 result.0 draw.new wire.new }
    ensures same_out { (wire.new.form ≡ wire.old.form) × (wire.new.writing ≡ wire.old.writing) × (wire.new.number ≡ wire.old.number) }
{
    if let Err(Memory) = wire.feed(alloc, piece) {
        return (client, Err(End::Memory));
    }
    let mut client = client;
    'packets: for _count in 0..PACKETS_MAX {
        let (next, taken) = take_next(client, alloc, now, wire, cursor, seal, draw);
        client = next;
        match taken {
            Ok(true) => {}
            Ok(false) => return (client, Ok(())),
            Err(end) => return (client, Err(end)),
        }
    }
    (client, Ok(()))
}
