//! What a session lets go of, says once more, and tells of numbers.

ghost use Rattle.std.specs.Prelude.{◌≡◌};
ghost use Rattle.server_session.specs.SessionState.{IsAt, numbers_left};

use draws::StepDraw;
use inbox::{Mark, Outer, Received};
use msg_ids::Moment;
use octets::{Memory, Octets};
use outbox::Bytes;
use server_output::OutgoingMessages;
use server_session::{DroppedReply, SessionState};
use std::alloc::Global;
use std::test::*;
use test_asserts::same;

// The session's first salt: the second word of the draw, 2 times its step.
const SALT: u64 = 12_728_272_447_693_586_010;

// A call of the service.
fn call(alloc: Global, number: u64, seq: u32) -> Result<Outer, Memory> {
    Ok(Outer {
        number,
        seq,
        salt: SALT,
        body: Octets::copy(alloc, &[1, 2, 3, 4])?,
    })
}

// The session judges such a call.
fn judges(alloc: Global, standing: &mut SessionState, number: u64, seq: u32) -> Result<(), Memory>
    requires at { IsAt 0 standing.old }
    ensures at { IsAt 0 standing.new }
    ensures numbers { numbers_left standing.new ≡ numbers_left standing.old }
{
    let call = call(alloc, number, seq)?;
    standing.judges(alloc, Moment::new(0), &Received::read(&call))?;
    Ok(())
}

// A session that has answered two calls, 4 and 8.
fn answered(alloc: Global) -> Result<SessionState, Memory> {
    let now = Moment::new(0);
    let mut standing = SessionState::new(alloc, now, 7, 9, 4, &mut StepDraw::new())?;
    judges(alloc, &mut standing, 4, 1)?;
    judges(alloc, &mut standing, 8, 3)?;
    standing.reserve(alloc, 2)?;
    let mut owing = OutgoingMessages::new(alloc, 2, 32)?;
    standing.answers::<StepDraw>(now, &mut owing, 4, Bytes::from_static(b"done"));
    standing.answers::<StepDraw>(now, &mut owing, 8, Bytes::from_static(b"good"));
    Ok(standing)
}

// What it says once more: all that it keeps.
fn said_again(alloc: Global, standing: &SessionState) -> Result<OutgoingMessages, Memory> {
    let mut owing = OutgoingMessages::new(alloc, standing.kept_count(), standing.kept_bytes())?;
    standing.says_all_again::<StepDraw>(&mut owing);
    Ok(owing)
}

// The reply to 8, as a request to drop it is answered.
fn reply() -> DroppedReply {
    DroppedReply {
        number: 9,
        seq: 3,
        length: 16,
    }
}

// What it answers to the request 12, which asked to drop that reply.
fn told(alloc: Global) -> Result<OutgoingMessages, Memory> {
    let mut standing = answered(alloc)?;
    let mut owing = OutgoingMessages::new(alloc, 1, 32)?;
    standing.reserve(alloc, 1)?;
    if standing.numbers_left() > 0 {
        standing.answers_dropped::<StepDraw>(Moment::new(0), &mut owing, 12, &reply());
    }
    Ok(owing)
}

// What it tells of four numbers, to the request 12.
fn states(alloc: Global) -> Result<OutgoingMessages, Memory> {
    let mut standing = answered(alloc)?;
    let mut owing = OutgoingMessages::new(alloc, 1, 20)?;
    if standing.numbers_left() > 0 {
        standing.tells_states::<StepDraw>(Moment::new(0), &mut owing, 12, &[0, 4, 6, 12]);
    }
    Ok(owing)
}

// What is kept, and how 4 stands, once its reply was acknowledged.
fn acknowledged(alloc: Global) -> Result<(usize, Option<Mark>), Memory> {
    let mut standing = answered(alloc)?;
    standing.takes_acks::<StepDraw>(&[5, 7]);
    Ok((standing.kept_count(), standing.mark(4)))
}

// The reply to 8 that it dropped, and what is kept behind that.
fn dropped(alloc: Global) -> Result<(Option<DroppedReply>, usize), Memory> {
    let mut standing = answered(alloc)?;
    let dropped = standing.drops_reply(8);
    Ok((dropped, standing.kept_count()))
}

#[test]
fn all_that_is_kept_is_said_again(rt: HostRuntime) -> Result<(), Fail> {
    let alloc = rt.alloc();
    let standing = answered(alloc)?;
    let again = said_again(alloc, &standing);
    drop(standing);
    let again = again?;
    let count = again.len();
    drop(again);
    same(count, 2)
}

#[test]
fn an_acknowledged_reply_is_not_kept(rt: HostRuntime) -> Result<(), Fail> {
    same(acknowledged(rt.alloc())?, (1, Some(Mark::Acked(true))))?;
    Ok(())
}

#[test]
fn a_dropped_reply_is_told(rt: HostRuntime) -> Result<(), Fail> {
    same(dropped(rt.alloc())?, (Some(reply()), 1))?;
    Ok(())
}

// The body of the message that is owed alone.
fn sole(owing: &OutgoingMessages) -> &[u8] {
    if owing.len() != 1 {
        return &[];
    }
    owing.at(0).body
}

#[test]
fn a_request_to_drop_is_answered(rt: HostRuntime) -> Result<(), Fail> {
    let told = told(rt.alloc())?;
    let done = same(
        sole(&told),
        b"\x01\x6d\x5c\xf3\x0c\0\0\0\0\0\0\0\xb7\xd8\x3a\xa4\x09\0\0\0\0\0\0\0\x03\0\0\0\x10\0\0\0".as_slice(),
    );
    drop(told);
    done
}

#[test]
fn states_are_told(rt: HostRuntime) -> Result<(), Fail> {
    let states = states(rt.alloc())?;
    let done = same(
        sole(&states),
        b"\x7d\xb5\xde\x04\x0c\0\0\0\0\0\0\0\x04\x01\x64\x02\x03\0\0\0".as_slice(),
    );
    drop(states);
    done
}
