//! Numbers of items, and packets of messages.

ghost use Rattle.std.specs.Prelude.{◌≡◌, ◌≤◌, IfOk, length, map};
ghost use Rattle.msg_ids.specs.Counters.{none_given, room};
ghost use Rattle.containers.specs.Lent.{message_of};
ghost use Rattle.packing.specs.Packing.{packets_of};

use crate::steps::zeros;
use msg_ids::{Moment, Numbers};
use octets::{Memory, Octets};
use packing::{Part, front, number, packed_size, packets};
use service_tl::{Item, Messages};
use std::alloc::Global;
use std::test::Fail;
use test_asserts::{holds, same};

#[test]
fn items_are_numbered(rt: HostRuntime) -> Result<(), Fail> {
    let mut numbers = Numbers::new();
    holds(numbers.room() > 3)?;
    let new = Item::NewSessionCreated {
        first_msg_id: 4,
        unique_id: 7,
        server_salt: 9,
    };
    same(numbered(&mut numbers, new), Some((7, 1)))?;
    let pong = Item::Pong {
        msg_id: 4,
        ping_id: 1,
    };
    same(numbered(&mut numbers, pong), Some((9, 2)))?;
    let result = Item::RpcResult {
        req_msg_id: 4,
        result: Octets::new(rt.alloc()),
    };
    same(numbered(&mut numbers, result), Some((13, 3)))
}

// The number and the seq that an item gets at moment 0.
fn numbered(numbers: &mut Numbers, item: Item) -> Option<(u64, u32)> {
    let numbered = if numbers.room() == 0 {
        None
    } else {
        Some(number(Moment::new(0), numbers, &item))
    };
    drop(item);
    numbered
}

// The packets of messages of a server that gave no number yet, as a caller makes them.
fn packed(alloc: Global, messages: &[Part<'_>]) -> Result<Messages, Memory>
    ensures { IfOk result (λ packets. packets ≡ packets_of 0 none_given (map message_of messages.now)) }
{
    let mut numbers = Numbers::new();
    if numbers.room() < messages.len() as u64 {
        return Err(Memory);
    }
    packets(alloc, Moment::new(0), &mut numbers, messages)
}

// The packet that a list has alone: its number, its seq and its body in hexadecimal digits; or nothing.
fn sole(alloc: Global, packets: &Messages) -> Result<String, Fail> {
    match packets.as_slice() {
        [] => Ok(String::from_str(alloc, "nothing")?),
        [packet] => row(alloc, packet.number, packet.seq, packet.body.as_slice()),
        _ => Err(Fail::new("more than one packet")),
    }
}

fn row(alloc: Global, number: u64, seq: u32, body: &[u8]) -> Result<String, Fail> {
    let body = hex::encode(alloc, body)?;
    Ok(format!(in alloc; "{number} {seq} {body}")?)
}

// Messages go as this packet.
fn go_as(alloc: Global, messages: &[Part<'_>], wanted: &str) -> Result<(), Fail> {
    let packets = packed(alloc, messages)?;
    let sole = sole(alloc, &packets);
    drop(packets);
    same(sole?.as_str(), wanted)
}

const BOTH: &str =
    "7 0 dcf8f1730200000005000000000000000100000004000000616263640900000000000000030000000400000065666768";

#[test]
fn one_goes_alone_and_two_in_a_container(rt: HostRuntime) -> Result<(), Fail> {
    let one = Part {
        number: 5,
        seq: 1,
        body: b"abcd",
    };
    let two = Part {
        number: 9,
        seq: 3,
        body: b"efgh",
    };
    go_as(rt.alloc(), &[], "nothing")?;
    go_as(rt.alloc(), &[one], "5 1 61626364")?;
    go_as(rt.alloc(), &[one, two], BOTH)
}

// So many parts that are the same.
fn repeated<'a>(alloc: Global, part: Part<'a>, count: usize) -> Result<Vec<Part<'a>>, Fail> {
    let mut parts = Vec::new(alloc);
    for _ in 0..count {
        parts.push(part)?;
    }
    Ok(parts)
}

// How many of the parts from a place on go into the first packet.
fn front_from(parts: &[Part<'_>], place: usize) -> Option<usize> {
    match parts.get(place..) {
        Some(parts) if !parts.is_empty() => Some(front(parts)),
        _ => None,
    }
}

// Of fifteen results of this body: how many go first from the places 0, 3 and 12 on, and the size of the first packet.
fn fifteen(alloc: Global, body: &[u8]) -> Result<[Option<usize>; 4], Fail> {
    if u32::try_from(body.len()).is_err() {
        return Err(Fail::new("too long"));
    }
    let result = Part {
        number: 5,
        seq: 1,
        body,
    };
    let great = repeated(alloc, result, 15)?;
    let fronts = fronts(great.as_slice());
    drop(great);
    Ok(fronts)
}

fn fronts(parts: &[Part<'_>]) -> [Option<usize>; 4] {
    [
        front_from(parts, 0),
        front_from(parts, 3),
        front_from(parts, 12),
        first_size(parts),
    ]
}

#[test]
fn fifteen_great_results_go_by_threes(rt: HostRuntime) -> Result<(), Fail> {
    let body = zeros(rt.alloc(), 262_156)?;
    let fronts = fifteen(rt.alloc(), body.as_slice());
    drop(body);
    same(fronts?, [Some(3), Some(3), Some(3), Some(786_524)])
}

// The size of the packet of the parts that go first.
#[tactic(auto, using(crate::proofs::PacketLemmas::first_are_packet))]
fn first_size(parts: &[Part<'_>]) -> Option<usize> {
    if parts.is_empty() {
        return None;
    }
    Some(packed_size(&parts[..front(parts)]))
}

#[test]
fn small_messages_go_by_1020(rt: HostRuntime) -> Result<(), Fail> {
    let small = Part {
        number: 5,
        seq: 1,
        body: b"",
    };
    let many = repeated(rt.alloc(), small, 1_021)?;
    let (first, second) = (
        front_from(many.as_slice(), 0),
        front_from(many.as_slice(), 1_020),
    );
    drop(many);
    same((first, second), (Some(1_020), Some(1)))
}
