//! What a server does with a list of what it owes: it takes room, says what it owes, and sends it.

ghost use Rattle.std.specs.Prelude.{◌≤◌, IsSome};
ghost use Rattle.auth_keys.specs.Rings.{entry_of};
ghost use Rattle.msg_ids.specs.Counters.{room};

use draws::{Draw, StepDraw};
use envelope::{ClearSeal, Dir, Envelope, Opened, Seal};
use msg_ids::{Moment, Numbers};
use octets::Memory;
use salt_line::SaltRow;
use server_output::{Delivery, Header, Outgoing, OutgoingMessages, Outs, Packets, packets_most};
use std::alloc::Global;
use std::test::*;
use test_asserts::same;
use test_keys::{KEY_ID, ring};

const HEADER: Header = Header {
    key: KEY_ID,
    session: 9,
    salt: 0x0102_0304_0506_0708,
};

// What a server does with a session that it hears first, and that had a reply before: it takes room, and then nothing can
// fail.
fn three_things<S: Seal, D: Draw>(
    alloc: Global,
    seal: &S,
    numbers: &mut Numbers,
    draw: &mut D,
) -> Result<Outs, Memory>
    requires key { IsSome (entry_of KEY_ID (S.keys seal.now)) }
    requires numbers { 8 ≤ room numbers.old }
{
    let mut owing = OutgoingMessages::new(alloc, 3, 100)?;
    let packets = Packets::new(alloc, 3, 100)?;
    let mut outs = Outs::new(alloc, packets_most(3, 100))?;
    let now = Moment::new(0);
    let new_session = Outgoing::NewSession {
        first: 4,
        unique: 7,
        salt: HEADER.salt,
    };
    let bad_salt = Outgoing::BadSalt {
        number: 4,
        seq: 1,
        salt: HEADER.salt,
    };
    owing.say(now, numbers, &new_session);
    owing.say(now, numbers, &bad_salt);
    let kept = Outgoing::Result {
        call: 8,
        content: b"answered in.",
    };
    owing.again(13, 3, &kept);
    let delivery = Delivery {
        owing: &owing,
        packets,
    };
    delivery.send(now, numbers, HEADER, seal, draw, &mut outs);
    Ok(outs)
}

// What it sends under this seal.
fn sent(alloc: Global, seal: &ClearSeal) -> Result<Outs, Fail> {
    let mut numbers = Numbers::new();
    if !seal.has(KEY_ID) || numbers.room() < 8 {
        return Err(Fail::new("no key, or no numbers"));
    }
    Ok(three_things(alloc, seal, &mut numbers, &mut StepDraw::new())?)
}

// The key, the session and the bytes of the first packet of these.
fn first(outs: &Outs) -> Option<(u64, u64, &[u8])> {
    let out = outs.as_slice().first()?;
    Some((out.key, out.session, out.packet.as_slice()))
}

// How many packets there are, and the key, the session and the size of the first.
fn sizes(outs: &Outs) -> (usize, Option<(u64, u64, usize)>) {
    let first = match first(outs) {
        Some((key, session, packet)) => Some((key, session, packet.len())),
        None => None,
    };
    (outs.as_slice().len(), first)
}

#[test]
fn three_things_go_in_one_packet(rt: HostRuntime) -> Result<(), Fail> {
    let seal = ClearSeal::new(ring(rt.alloc(), "perm")?);
    let outs = sent(rt.alloc(), &seal);
    drop(seal);
    let outs = outs?;
    let sizes = sizes(&outs);
    drop(outs);
    same(sizes, (1, Some((KEY_ID, 9, 216))))
}

fn opened(alloc: Global, seal: &ClearSeal, packet: &[u8]) -> Result<Envelope, Fail> {
    match seal.unseal(alloc, Moment::new(0), Dir::Down, packet) {
        Opened::Envelope(envelope) => Ok(envelope),
        Opened::Refused(_) | Opened::Memory => Err(Fail::new("the packet doesn't open")),
    }
}

// The envelope in the first packet.
fn first_opened(alloc: Global) -> Result<Envelope, Fail> {
    let seal = ClearSeal::new(ring(alloc, "perm")?);
    let envelope = first_under(alloc, &seal);
    drop(seal);
    envelope
}

fn first_under(alloc: Global, seal: &ClearSeal) -> Result<Envelope, Fail> {
    let outs = sent(alloc, seal)?;
    let envelope = match first(&outs) {
        Some((_, _, packet)) => opened(alloc, seal, packet),
        None => Err(Fail::new("no packet")),
    };
    drop(outs);
    envelope
}

#[test]
fn they_are_named_as_the_header_says(rt: HostRuntime) -> Result<(), Fail> {
    let envelope = first_opened(rt.alloc())?;
    let names = (
        envelope.key,
        envelope.salt,
        envelope.session,
        envelope.number,
        envelope.seq,
    );
    drop(envelope);
    same(names, (KEY_ID, HEADER.salt, 9, 15, 2))
}

#[test]
fn they_are_a_container(rt: HostRuntime) -> Result<(), Fail> {
    let body =
        b"\xdc\xf8\xf1\x73\x03\0\0\0\x07\0\0\0\0\0\0\0\x01\0\0\0\x1c\0\0\0\x08\x09\xc2\x9e\x04\0\0\0\0\0\0\0\x07\0\0\0\0\0\0\0\x08\x07\x06\x05\x04\x03\x02\x01\x09\0\0\0\0\0\0\0\x02\0\0\0\x1c\0\0\0\x7b\x44\xab\xed\x04\0\0\0\0\0\0\0\x01\0\0\0\x30\0\0\0\x08\x07\x06\x05\x04\x03\x02\x01\x0d\0\0\0\0\0\0\0\x03\0\0\0\x18\0\0\0\x01\x6d\x5c\xf3\x08\0\0\0\0\0\0\0answered in.";
    let envelope = first_opened(rt.alloc())?;
    let done = same(envelope.body.as_slice(), body.as_slice());
    drop(envelope);
    done
}

// What a server answers to messages of an accepted session, and the number and the seq of the last, which is a result.
fn answers(alloc: Global, numbers: &mut Numbers) -> Result<(OutgoingMessages, u64, u32), Memory>
    requires { 16 ≤ room numbers.old }
{
    let rows = [SaltRow {
        since: 0,
        until: 3600,
        salt: 5,
    }];
    let now = Moment::new(0);
    let mut owing = OutgoingMessages::new(alloc, 8, 200)?;
    let notice = Outgoing::Notice {
        number: 4,
        seq: 1,
        code: 32,
    };
    let salts = Outgoing::Salts {
        request: 8,
        now: 0,
        rows: &rows,
    };
    let states = Outgoing::States {
        request: 8,
        info: &[1, 4],
    };
    let result = Outgoing::Result {
        call: 8,
        content: b"done",
    };
    owing.say(now, numbers, &Outgoing::Acks(&[8, 12]));
    owing.say(now, numbers, &notice);
    owing.say(
        now,
        numbers,
        &Outgoing::Pinged {
            message: 8,
            ping: 3,
        },
    );
    owing.say(now, numbers, &salts);
    owing.say(now, numbers, &states);
    owing.say(now, numbers, &Outgoing::destroyed(10, true));
    owing.say(now, numbers, &Outgoing::destroyed(11, false));
    let (number, seq) = owing.say(now, numbers, &result);
    Ok((owing, number, seq))
}

// These answers, of a session that has said nothing so far.
fn first_answers(alloc: Global) -> Result<(OutgoingMessages, u64, u32), Fail> {
    let mut numbers = Numbers::new();
    if numbers.room() < 16 {
        return Err(Fail::new("no numbers"));
    }
    Ok(answers(alloc, &mut numbers)?)
}

// The message at a place.
fn part(owing: &OutgoingMessages, place: usize) -> Option<(u64, u32, &[u8])> {
    if place >= owing.len() {
        return None;
    }
    let part = owing.at(place);
    Some((part.number, part.seq, part.body))
}

// The number and the seq of each message that is owed, and its body in hexadecimal digits.
const SPELT: &str = "\
7 0 59b4d66215c4b51c0200000008000000000000000c00000000000000\n\
9 0 11f8efa704000000000000000100000020000000\n\
13 0 c573773408000000000000000300000000000000\n\
17 0 950850ae0800000000000000000000000100000000000000100e00000500000000000000\n\
21 0 7db5de04080000000000000002010400\n\
25 0 fc4520e20a00000000000000\n\
29 0 c950d3620b00000000000000\n\
33 1 016d5cf30800000000000000646f6e65\n";

// The message at a place, as a row has it.
fn told(alloc: Global, owing: &OutgoingMessages, place: usize) -> Result<String, Fail> {
    let (number, seq, body) = part(owing, place).ok_or("no message")?;
    let body = hex::encode(alloc, body)?;
    Ok(format!(in alloc; "{number} {seq} {body}")?)
}

fn are_spelt(alloc: Global, owing: &OutgoingMessages) -> Result<(), Fail> {
    same(SPELT.lines().count(), 8)?;
    for (place, row) in SPELT.lines().enumerate() {
        same(told(alloc, owing, place)?.as_str(), row)?;
    }
    Ok(())
}

#[test]
fn what_is_said_is_spelt(rt: HostRuntime) -> Result<(), Fail> {
    let (owing, _, _) = first_answers(rt.alloc())?;
    let done = are_spelt(rt.alloc(), &owing);
    drop(owing);
    done
}

#[test]
fn what_is_said_is_counted(rt: HostRuntime) -> Result<(), Fail> {
    let (owing, number, seq) = first_answers(rt.alloc())?;
    let len = owing.len();
    let told = (owing.is_empty(), owing.has_said(33), owing.has_said(8));
    drop(owing);
    same((len, number, seq), (8, 33, 1))?;
    same(told, (false, true, false))
}
