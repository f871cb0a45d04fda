//! The messages that a session owes, as sealed packets.

ghost use Rattle.std.specs.Prelude.{◌≡◌, ◌<◌, ◌≤◌, ◌+◌, ◌*◌, ◌/◌, ◌%◌, ◌^◌, ◌++◌, ◌∷◌, [], List, length, map, vec_len, IfOk, IsSome};
ghost use Rattle.std.specs.List.{AllByRecursion};
ghost use Rattle.auth_keys.specs.Rings.{entry_of};
ghost use Rattle.envelope.specs.Packet.{body_max};
ghost use Rattle.msg_ids.specs.Counters.{room};
ghost use Rattle.containers.specs.Lent.{message_of};
ghost use Rattle.packing.specs.Packing.{IsPacket, after_outer, after_packets, groups, outer_of, packed, packets_of};
ghost use Rattle.server_rules.specs.Event.{Sent};
ghost use Rattle.server_output.specs.Batch.{IsPlace, packed_most, packets_most, seal_most};
ghost use Rattle.server_output.specs.Outs.{AreSent, GoesOn, IsSent, draw_after_one, draw_after_sent, one_sent, sent_of};

use crate::outs::{Header, Out, Outs};
use crate::owing::OutgoingMessages;
use containers::Part;
use containers::laws::container_sizes;
use draws::Draw;
use envelope::{Dir, Head, SEALED_HEAD_BYTES, Seal};
use msg_ids::{Moment, Numbers};
use octets::{Buffer, Memory};
use packing::{front, pack};
use std::alloc::Global;
use std::marker::Model;

/// The most messages in a packet.
const PACKET_MESSAGES: usize = 1_020;

/// The most bytes in a packet's body.
const PACKET_BYTES: usize = 1_044_480;

/// The bytes of a container without messages.
const CONTAINER_BYTES: usize = 8;

/// The bytes in front of each message in a container.
const HEAD_BYTES: usize = 16;

/// What sealing adds to a body at most.
const SEAL_BYTES: usize = 83;

/// How many packets so many messages make at most, whose bodies have so many bytes together: one where all can stand in
/// one container.
pub fn packets_most(messages: usize, bytes: usize) -> usize
    requires few { messages ≤ 2 ^ 32 }
    requires short { bytes ≤ 2 ^ 48 }
    ensures value { result ≡ packets_most messages bytes }
    ensures some { 0 < result }
{
    let with_heads = HEAD_BYTES * messages + bytes;
    if messages <= PACKET_MESSAGES && CONTAINER_BYTES + with_heads <= PACKET_BYTES {
        return 1;
    }
    1 + messages / PACKET_MESSAGES + 2 * with_heads / (PACKET_BYTES - CONTAINER_BYTES + 1)
}

// How many bytes the body of each of these packets has at most.
fn packed_most(messages: usize, bytes: usize) -> usize
    requires few { messages ≤ 2 ^ 32 }
    requires short { bytes ≤ 2 ^ 48 }
    ensures { result ≡ packed_most messages bytes }
{
    PACKET_BYTES.min(CONTAINER_BYTES + HEAD_BYTES * messages + bytes)
}

/// The room for all packets of a session's messages. Contracts see for how many messages it is, and for how many bytes of
/// bodies together: what an `OutgoingMessages` owes that has no more room than that can be put into packets and sealed without memory.
///
/// A packet is put together and sealed in one buffer, so each body is copied once.
#[derive(Debug, Drop)]
pub struct Packets {
    messages: usize,
    bytes: usize,
    parts: Vec<Part<'static>>,
    places: Vec<Buffer>,
}

impl Model for Packets {
    ghost use Rattle.std.specs.Prelude.{◌≡◌, ◌≤◌, [], vec_len, vec_capacity};
    ghost use Rattle.std.specs.List.{AllByRecursion};
    ghost use Rattle.server_output.specs.Batch.{Batch, IsPlace, packed_most, packets_most};

    ghost Value = { Batch };

    ghost view = { λ packets. record { messages = packets.messages; bytes = packets.bytes } };

    ghost invariant = { λ packets. (packets.parts.items ≡ []) × (vec_len packets.parts ≡ 0) × (packets.messages ≤ vec_capacity packets.parts)
        × (packets_most packets.messages packets.bytes ≤ vec_len packets.places)
        × AllByRecursion (IsPlace (packed_most packets.messages packets.bytes)) packets.places.items };
}

impl Packets {
    /// The room for the packets of at most `messages` messages, whose bodies have at most `bytes` bytes together.
    ///
    /// # Errors
    ///
    /// `Memory`.
    pub fn new(alloc: Global, messages: usize, bytes: usize) -> Result<Packets, Memory>
        requires few { messages ≤ 2 ^ 32 }
        requires short { bytes ≤ 2 ^ 48 }
        ensures { IfOk result (λ packets. packets ≡ record { messages = messages; bytes = bytes }) }
    {
        Ok(Packets {
            messages,
            bytes,
            parts: Vec::with_capacity(alloc, messages)?,
            places: places(
                alloc,
                packets_most(messages, bytes),
                packed_most(messages, bytes),
            )?,
        })
    }
}

/// What a session sends: all that it owes, and the room for its packets.
#[derive(Debug, Drop)]
pub struct Delivery<'a> {
    /// What it owes.
    pub owing: &'a OutgoingMessages,
    /// The room for its packets.
    pub packets: Packets,
}

impl Delivery<'_> {
    /// Sends all that is owed: messages are put into packets in order, the containers among these are numbered, and each
    /// packet is sealed under the header and goes out behind the others. Takes no memory.
    pub fn send<S: Seal, D: Draw>(
        self,
        now: Moment,
        numbers: &mut Numbers,
        header: Header,
        seal: &S,
        draw: &mut D,
        outs: &mut Outs,
    )
        requires few { self.owing.now.places_taken ≤ self.packets.messages }
        requires short { self.owing.now.bytes_taken ≤ self.packets.bytes }
        requires key { IsSome (entry_of header.key (S.keys seal.now)) }
        requires numbers { packets_most self.packets.messages self.packets.bytes ≤ room numbers.old }
        requires outs { packets_most self.packets.messages self.packets.bytes ≤ outs.old.room }
        ensures sent { GoesOn S.lock (S.keys seal.now) (sent_of D.step header (packets_of now numbers.old self.entry.owing.now.messages) draw.old) outs.old.outs outs.new.outs }
        ensures so_far { (before : List Sent) → AreSent S.lock (S.keys seal.now) before outs.old.outs
            → AreSent S.lock (S.keys seal.now) (before ++ sent_of D.step header (packets_of now numbers.old self.entry.owing.now.messages) draw.old) outs.new.outs }
        ensures counted { numbers.new ≡ after_packets now numbers.old self.entry.owing.now.messages }
        ensures drawn { draw.new ≡ draw_after_sent D.step (packets_of now numbers.old self.entry.owing.now.messages) draw.old }
        ensures left { outs.new.room + length (groups self.entry.owing.now.messages) ≡ outs.old.room }
        ensures room_lasts { outs.old.room ≤ outs.new.room + packets_most self.entry.packets.messages self.entry.packets.bytes }
        ensures numbers_last { room numbers.old ≤ room numbers.new + packets_most self.entry.packets.messages self.entry.packets.bytes }
    {
        let Delivery { owing, packets } = self;
        let Packets {
            messages: _,
            bytes: _,
            parts,
            mut places,
        } = packets;
        container_sizes();
        let parts = owing.lent(parts);
        let mut start = 0;
        while start < parts.len() {
            let rest = &parts[start..];
            let count = front(rest);
            let place = places.pop().unwrap();
            let out = sealed(now, numbers, &rest[..count], header, place, seal, draw);
            outs.push(out);
            start += count;
        }
    }
}

// So many places for packets, whose bodies have so many bytes at most.
fn places(alloc: Global, count: usize, body: usize) -> Result<Vec<Buffer>, Memory>
    requires { body ≤ 2 ^ 49 }
    ensures count { IfOk result (λ places. vec_len places ≡ count) }
    ensures places { IfOk result (λ places. AllByRecursion (IsPlace body) places.items) }
{
    let mut places = Vec::with_capacity(alloc, count)?;
    'places: while places.len() < count {
        places.push_reserved(Buffer::new(alloc, body + SEAL_BYTES)?);
    }
    Ok(places)
}

// Puts the messages of one packet into it and seals it.
fn sealed<S: Seal, D: Draw>(
    now: Moment,
    numbers: &mut Numbers,
    group: &[Part<'_>],
    header: Header,
    place: Buffer,
    seal: &S,
    draw: &mut D,
) -> Out
    requires packet { IsPacket (map message_of group.now) }
    requires words { length (packed (map message_of group.now)) % 4 ≡ 0 }
    requires short { length (packed (map message_of group.now)) ≤ body_max }
    requires numbers { 0 < room numbers.old }
    requires room { (place.bytes ≡ []) × (length (packed (map message_of group.now)) + seal_most ≤ place.room) }
    requires key { IsSome (entry_of header.key (S.keys seal.now)) }
    ensures sent { IsSent S.lock (S.keys seal.now) (one_sent D.step header (outer_of now numbers.old (map message_of group.now)) draw.old) result }
    ensures counted { numbers.new ≡ after_outer now numbers.old (map message_of group.now) }
    ensures drawn { draw.new ≡ draw_after_one D.step (outer_of now numbers.old (map message_of group.now)) draw.old }
    ensures room_lasts { room numbers.old ≤ room numbers.new + 1 }
{
    let mut packet = place;
    packet.push_all(&[0; SEALED_HEAD_BYTES]);
    let (number, seq) = pack(now, numbers, group, &mut packet);
    let head = Head {
        key: header.key,
        salt: header.salt,
        session: header.session,
        number,
        seq,
    };
    Out {
        key: header.key,
        session: header.session,
        packet: seal.seal_in_place(packet, Dir::Down, &head, draw),
    }
}
