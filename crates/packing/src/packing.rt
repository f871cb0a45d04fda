//! Messages put into packets.

ghost use Rattle.std.specs.Prelude.{◌≡◌, ◌<◌, ◌≤◌, ◌+◌, ◌^◌, ◌++◌, ◌∷◌, [], IfOk, OnOk, OnErr, length, map, take, drop};
ghost use Rattle.msg_ids.specs.Counters.{room};
ghost use Rattle.containers.specs.Lent.{message_of};
ghost use Rattle.packing.specs.Packing.{IsPacket, after_outer, after_packets, groups, outer_of, packed, packets_of};

use crate::numbering::OTHER_ADDITION;
use containers::laws::container_sizes;
use containers::{
    CONTAINER_HEAD_BYTES, MESSAGE_HEAD_BYTES, Part, container_into, container_size, fits,
};
use msg_ids::{Moment, Numbers};
use octets::{Buffer, Memory};
use service_tl::{Message, Messages};
use std::alloc::Global;

/// How many of these messages, from the front, go into the next packet. Takes no memory.
pub fn front(messages: &[Part<'_>]) -> usize
    requires { 0 < length messages.now }
    ensures some { 0 < result }
    ensures few { result ≤ length messages.now }
    ensures packet { IsPacket (take result (map message_of messages.now)) }
    ensures first { groups (map message_of messages.now) ≡ take result (map message_of messages.now) ∷ groups (drop result (map message_of messages.now)) }
{
    container_sizes();
    let mut bytes = CONTAINER_HEAD_BYTES + MESSAGE_HEAD_BYTES + messages[0].body.len();
    for place in 1..messages.len() {
        let body = messages[place].body;
        if !fits(place, bytes, body.len()) {
            return place;
        }
        bytes += MESSAGE_HEAD_BYTES + body.len();
    }
    messages.len()
}

/// How many bytes the body of the packet with these messages has. Takes no memory.
pub fn packed_size(group: &[Part<'_>]) -> usize
    requires { IsPacket (map message_of group.now) }
    ensures size { result ≡ length (packed (map message_of group.now)) }
    ensures short { result < 2 ^ 32 }
{
    container_sizes();
    match group {
        [message] => message.body.len(),
        _ => container_size(group),
    }
}

/// Puts the messages of one packet into room that is there: a single one as it is, more into a container, which is
/// numbered now. The number and the seq of the packet. Takes no memory.
pub fn pack(now: Moment, numbers: &mut Numbers, group: &[Part<'_>], into: &mut Buffer) -> (u64, u32)
    requires packet { IsPacket (map message_of group.now) }
    requires numbers { 0 < room numbers.old }
    requires room { length (packed (map message_of group.now)) ≤ into.old.room }
    ensures number { result.0 ≡ (outer_of now numbers.old (map message_of group.now)).number }
    ensures seq { result.1 ≡ (outer_of now numbers.old (map message_of group.now)).seq }
    ensures body { (outer_of now numbers.old (map message_of group.now)).body ≡ packed (map message_of group.now) }
    ensures written { into.new.bytes ≡ into.old.bytes ++ packed (map message_of group.now) }
    ensures left { into.new.room + length (packed (map message_of group.now)) ≡ into.old.room }
    ensures counted { numbers.new ≡ after_outer now numbers.old (map message_of group.now) }
    ensures room_lasts { room numbers.old ≤ room numbers.new + 1 }
{
    container_sizes();
    match group {
        [message] => {
            into.push_all(message.body);
            (message.number, message.seq)
        }
        _ => {
            container_into(group, into);
            let (number, seq) = numbers.next(now, false).unwrap();
            (number + OTHER_ADDITION, seq)
        }
    }
}

/// The packets of these messages, which have their numbers, in order.
///
/// # Errors
///
/// `Memory`, and then the numbers are as they were.
pub fn packets(
    alloc: Global,
    now: Moment,
    numbers: &mut Numbers,
    messages: &[Part<'_>],
) -> Result<Messages, Memory>
    requires { length messages.now ≤ room numbers.old }
    ensures packets { IfOk result (λ packets. packets ≡ packets_of now numbers.old (map message_of messages.now)) }
    ensures counted { OnOk result (numbers.new ≡ after_packets now numbers.old (map message_of messages.now)) }
    ensures unchanged_on_memory { OnErr result (numbers.new ≡ numbers.old) }
{
    let mut next = *numbers;
    let mut packets = Messages::new(alloc);
    let mut start = 0;
    while start < messages.len() {
        let rest = &messages[start..];
        let count = front(rest);
        packets.push(alloc, packet(alloc, now, &mut next, &rest[..count])?)?;
        start += count;
    }
    *numbers = next;
    Ok(packets)
}

// The packet of the messages of one.
fn packet(
    alloc: Global,
    now: Moment,
    numbers: &mut Numbers,
    group: &[Part<'_>],
) -> Result<Message, Memory>
    requires packet { IsPacket (map message_of group.now) }
    requires numbers { 0 < room numbers.old }
    ensures packet { IfOk result (λ packet. packet ≡ outer_of now numbers.old (map message_of group.now)) }
    ensures short { IfOk result (λ packet. length packet.body < 2 ^ 32) }
    ensures counted { OnOk result (numbers.new ≡ after_outer now numbers.old (map message_of group.now)) }
    ensures room_lasts { OnOk result (room numbers.old ≤ room numbers.new + 1) }
{
    let mut body = Buffer::new(alloc, packed_size(group))?;
    let (number, seq) = pack(now, numbers, group, &mut body);
    Ok(Message {
        number,
        seq,
        body: body.into_octets(),
    })
}
