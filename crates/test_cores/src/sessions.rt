//! What a server does with a session that it hears first, and how long a session keeps a reply.

ghost use Rattle.std.specs.Prelude.{IfOk, IsSome};
ghost use Rattle.auth_keys.specs.Rings.{entry_of};
ghost use Rattle.server_session.specs.SessionState.{IsAt};

use draws::{Draw, StepDraw};
use envelope::{Dir, MtSeal, Opened, Seal};
use inbox::{Mark, Outer, Received};
use msg_ids::Moment;
use octets::{Memory, Octets};
use outbox::Bytes;
use server_core::SessionName;
use server_output::{Delivery, OutgoingMessages, Outs, Packets, packets_most};
use server_session::SessionState;
use std::alloc::Global;
use std::test::*;
use test_asserts::{same, shows, tells};
use test_keys::{KEY_ID, ring};

// The session says that it is new and which salt is right, and sends that.
fn hears_first<S: Seal, D: Draw>(alloc: Global, seal: &S, draw: &mut D) -> Result<Outs, Memory>
    requires { IsSome (entry_of KEY_ID (S.keys seal.now)) }
{
    let now = Moment::new(0);
    let mut standing = SessionState::new(alloc, now, KEY_ID, 9, 4, draw)?;
    let mut owing = OutgoingMessages::new(alloc, 3, 84)?;
    let packets = Packets::new(alloc, 3, 84)?;
    let mut outs = Outs::new(alloc, packets_most(3, 84))?;
    standing.says_it_is_new(now, &mut owing, draw);
    standing.acknowledges::<D>(now, &mut owing, &[]);
    standing.notices(now, &mut owing, draw, 4, 1, 48);
    let delivery = Delivery {
        owing: &owing,
        packets,
    };
    standing.sends(now, delivery, seal, draw, &mut outs);
    Ok(outs)
}

// What it sends under this seal.
fn sent(alloc: Global, seal: &MtSeal) -> Result<Outs, Fail> {
    if !seal.has(KEY_ID) {
        return Err(Fail::new("no key"));
    }
    Ok(hears_first(alloc, seal, &mut StepDraw::new())?)
}

// The first packet of these; no bytes where there is none.
fn first_packet(outs: &Outs) -> &[u8] {
    match outs.as_slice().first() {
        Some(out) => out.packet.as_slice(),
        None => &[],
    }
}

#[test]
fn a_session_heard_first_owes_168_bytes(rt: HostRuntime) -> Result<(), Fail> {
    let seal = MtSeal::new(ring(rt.alloc(), "perm")?);
    let outs = sent(rt.alloc(), &seal);
    drop(seal);
    let outs = outs?;
    let sizes = (outs.as_slice().len(), first_packet(&outs).len());
    drop(outs);
    same(sizes, (1, 168))
}

// The session, the number and the seq of the envelope in a packet.
fn named(alloc: Global, seal: &MtSeal, packet: &[u8]) -> Result<(u64, u64, u32), Fail> {
    match seal.unseal(alloc, Moment::new(0), Dir::Down, packet) {
        Opened::Envelope(envelope) => {
            let names = (envelope.session, envelope.number, envelope.seq);
            drop(envelope);
            Ok(names)
        }
        Opened::Refused(_) | Opened::Memory => Err(Fail::new("the packet doesn't open")),
    }
}

// Those of the envelope in the first packet that a session sends.
fn first_named(alloc: Global, seal: &MtSeal) -> Result<(u64, u64, u32), Fail> {
    let outs = sent(alloc, seal)?;
    let names = named(alloc, seal, first_packet(&outs));
    drop(outs);
    names
}

#[test]
fn what_a_session_says_first_has_its_names(rt: HostRuntime) -> Result<(), Fail> {
    let seal = MtSeal::new(ring(rt.alloc(), "perm")?);
    let names = first_named(rt.alloc(), &seal);
    drop(seal);
    same(names?, (9, 15, 2))
}

// A session that is heard first by the message 4.
fn fresh(alloc: Global) -> Result<SessionState, Memory>
    ensures at { IfOk result (IsAt 0) }
{
    SessionState::new(alloc, Moment::new(0), KEY_ID, 9, 4, &mut StepDraw::new())
}

// It judges its call of this place, counted from 1, whose number is 4 times that; how many messages that judged.
fn judges(alloc: Global, standing: &mut SessionState, call: u16) -> Result<usize, Memory>
    requires at { IsAt 0 standing.old }
    ensures at { IsAt 0 standing.new }
{
    let call = Outer {
        number: 4 * u64::from(call),
        seq: (2 * u32::from(call)).saturating_sub(1),
        // The second word of the draw, 2 times its step.
        salt: 12_728_272_447_693_586_010,
        body: Octets::copy(alloc, &[1, 2, 3, 4])?,
    };
    let judged = standing.judges(alloc, Moment::new(0), &Received::read(&call))?;
    Ok(judged.as_slice().len())
}

// A session that has judged the call 4, and how many messages it judged.
fn judged(alloc: Global) -> Result<(SessionState, usize), Memory> {
    let mut standing = fresh(alloc)?;
    let count = judges(alloc, &mut standing, 1)?;
    Ok((standing, count))
}

#[test]
fn a_judged_call_waits(rt: HostRuntime) -> Result<(), Fail> {
    let (standing, count) = judged(rt.alloc())?;
    let mark = standing.mark(4);
    drop(standing);
    same((count, mark), (1, Some(Mark::Waiting)))
}

// Answers a call by `boolTrue`, where there are numbers left, and says how many bytes that owes.
fn answers(alloc: Global, standing: &mut SessionState, call: u64) -> Result<usize, Memory>
    requires at { IsAt 0 standing.old }
    ensures at { IsAt 0 standing.new }
{
    if standing.numbers_left() == 0 {
        return Ok(0);
    }
    let mut owing = OutgoingMessages::new(alloc, 1, 16)?;
    standing.reserve(alloc, 1)?;
    let content = Bytes::from_static(b"\xb5\x75\x72\x99");
    standing.answers::<StepDraw>(Moment::new(0), &mut owing, call, content);
    Ok(owing.at(0).body.len())
}

// A session that has judged and answered the calls 4, 8 and so on, so many, and whether each answer owed 16 bytes.
fn answered(alloc: Global, count: u16) -> Result<(SessionState, bool), Memory> {
    let mut standing = fresh(alloc)?;
    let mut is_short = true;
    for call in 1..=count {
        judges(alloc, &mut standing, call)?;
        let bytes = answers(alloc, &mut standing, 4 * u64::from(call))?;
        is_short = is_short && bytes == 16;
    }
    Ok((standing, is_short))
}

// Says the kept reply to a call again, and then once more in the same event; how many messages that owes.
fn says_twice(alloc: Global, standing: &SessionState, call: u64) -> Result<usize, Memory> {
    let mut owing = OutgoingMessages::new(alloc, standing.kept_count(), standing.kept_bytes())?;
    standing.says_kept::<StepDraw>(&mut owing, call);
    standing.says_kept::<StepDraw>(&mut owing, call);
    Ok(owing.len())
}

// After so many answers: whether each owed 16 bytes, how 4 stands, and how many messages 4 and 8 owe again.
fn kept_after(alloc: Global, count: u16) -> Result<(bool, Option<Mark>, usize, usize), Memory> {
    let (standing, is_short) = answered(alloc, count)?;
    let first = says_twice(alloc, &standing, 4);
    let second = says_twice(alloc, &standing, 8);
    let mark = standing.mark(4);
    drop(standing);
    Ok((is_short, mark, first?, second?))
}

#[test]
fn a_reply_is_kept_until_4096_others_are(rt: HostRuntime) -> Result<(), Fail> {
    let rows = [
        (1, Mark::Replied(true), 1, 0),
        (4096, Mark::Replied(true), 1, 1),
        (4097, Mark::Dropped(true), 0, 1),
    ];
    for (count, mark, first, second) in rows {
        same(
            kept_after(rt.alloc(), count)?,
            (true, Some(mark), first, second),
        )?;
    }
    Ok(())
}

#[test]
fn a_session_that_answered_has_its_names(rt: HostRuntime) -> Result<(), Fail> {
    let (standing, _) = answered(rt.alloc(), 4097)?;
    let names = (standing.key(), standing.number(), standing.is_of(KEY_ID, 9));
    drop(standing);
    same(names, (KEY_ID, 9, true))
}

#[test]
fn a_name_is_written_in_hexadecimal_digits(rt: HostRuntime) -> Result<(), Fail> {
    let name = SessionName {
        key: 0xab,
        session: 9,
    };
    tells(rt.alloc(), &name, "00000000000000ab/0000000000000009")?;
    shows(
        rt.alloc(),
        &name,
        "SessionName(00000000000000ab/0000000000000009)",
    )
}
