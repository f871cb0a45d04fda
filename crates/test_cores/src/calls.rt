//! A caller's try, the worked rows, and each call once.

ghost use Rattle.std.specs.Prelude.{◌≡◌, Ok, true};
ghost use Rattle.call_table.specs.Table.{Table, sent, with_call};
ghost use Rattle.call_table.specs.Kept.{Stands};

use call_table::{CallNo, CallState, Calls, Cause, Fate, Flags, Group, Living, Under};
use octets::{IdList, Memory, Octets};
use std::alloc::Global;
use std::test::Fail;
use test_asserts::same;

// Sends a queued call as this message, where its number is above the living ones, and says whether it did.
fn send(
    calls: &mut Calls,
    alloc: Global,
    call: CallNo,
    living: Living,
    salt: u64,
) -> Result<bool, Memory>
    ensures sent { (table : Table) → Stands calls.old table → result ≡ Ok true → Stands calls.new (with_call call (sent 9 living salt) table) }
{
    if call.n == 0 || call.n > calls.count() as u64 || !calls.is_above(living.number) {
        return Ok(false);
    }
    match calls.state(call) {
        CallState::Queued => {}
        _ => return Ok(false),
    }
    calls.reserve(alloc, 1)?;
    calls.send(call, 9, living, salt);
    Ok(true)
}

// Sends the first queued call in the same way.
fn send_first(calls: &mut Calls, alloc: Global, living: Living, salt: u64) -> Result<bool, Memory> {
    let Some(call) = calls.member(Group::Queued, 0) else {
        return Ok(false);
    };
    if !calls.is_above(living.number) {
        return Ok(false);
    }
    calls.reserve(alloc, 1)?;
    calls.send(call, 9, living, salt);
    Ok(true)
}

// The outstanding call of this number is answered, where there is one.
fn answer(calls: &mut Calls, number: u64, fate: Fate) -> Option<CallNo> {
    let call = calls.owner(number)?;
    calls.settle(call, fate);
    Some(call)
}

// The first call that is outstanding is sent again.
fn again(calls: &mut Calls, alloc: Global, salt: u64) -> Result<Option<Under>, Memory> {
    let Some(call) = calls.member(Group::Outstanding, 0) else {
        return Ok(None);
    };
    calls.reserve(alloc, 1)?;
    calls.again(call, salt);
    let Some(call) = calls.member(Group::Outstanding, 0) else {
        return Ok(None);
    };
    Ok(Some(calls.under(call)))
}

// The outstanding call of this number is marked.
fn mark(calls: &mut Calls, number: u64, flags: Flags) -> Option<Flags> {
    let call = calls.owner(number)?;
    calls.set_flags(call, flags);
    let call = calls.owner(number)?;
    Some(calls.flags(call))
}

// The least outstanding call is answered.
fn answer_least(calls: &mut Calls, fate: Fate) -> Option<CallNo> {
    let number = calls.living_at(0)?;
    answer(calls, number, fate)
}

// Submits a call that is to execute after the one after which this one is.
fn add_beside(calls: &mut Calls, alloc: Global, n: u64) -> Result<Option<CallNo>, Memory> {
    if n == 0 || n > calls.count() as u64 || calls.count() >= 65_536 {
        return Ok(None);
    }
    let after = calls.after(CallNo { n });
    Ok(Some(calls.add(alloc, b"four", after)?))
}

// Submits a call, where there is room for one.
fn add(
    calls: &mut Calls,
    alloc: Global,
    body: &[u8],
    after: Option<CallNo>,
) -> Result<CallNo, Fail> {
    if calls.count() >= 65_536 {
        return Err("full".into());
    }
    if let Some(earlier) = after {
        if earlier.n == 0 || earlier.n > calls.count() as u64 {
            return Err("no earlier call".into());
        }
    }
    Ok(calls.add(alloc, body, after)?)
}

fn message(number: u64, seq: u32) -> Living {
    Living {
        number,
        seq,
        wrap: None,
    }
}

// What is told of a call that is there.
fn state(calls: &Calls, n: u64) -> Result<CallState<'_>, Fail> {
    if n == 0 || n > calls.count() as u64 {
        return Err("no such call".into());
    }
    Ok(calls.state(CallNo { n }))
}

fn body(calls: &Calls, n: u64) -> Result<&[u8], Fail> {
    if n == 0 || n > calls.count() as u64 {
        return Err("no such call".into());
    }
    Ok(calls.body(CallNo { n }))
}

fn after(calls: &Calls, n: u64) -> Result<Option<CallNo>, Fail> {
    if n == 0 || n > calls.count() as u64 {
        return Err("no such call".into());
    }
    Ok(calls.after(CallNo { n }))
}

fn living(calls: &Calls, n: u64) -> Result<Option<Living>, Fail> {
    if n == 0 || n > calls.count() as u64 {
        return Err("no such call".into());
    }
    Ok(calls.living(CallNo { n }))
}

// Four calls, of which the last two are to execute after the first: their numbers.
fn four_calls(calls: &mut Calls, alloc: Global) -> Result<[Option<CallNo>; 4], Fail> {
    let first = add(calls, alloc, b"one.", None)?;
    let second = add(calls, alloc, b"two.", None)?;
    let third = add(calls, alloc, b"tri.", Some(CallNo { n: 1 }))?;
    let fourth = add_beside(calls, alloc, 3)?;
    Ok([Some(first), Some(second), Some(third), fourth])
}

// The first two are sent as 4 and 8, and the third isn't, as 8 again: whether each was sent.
fn two_sent(calls: &mut Calls, alloc: Global) -> Result<[bool; 3], Fail> {
    four_calls(calls, alloc)?;
    let first = send_first(calls, alloc, message(4, 1), 7)?;
    let second = send(calls, alloc, CallNo { n: 2 }, message(8, 3), 0)?;
    let third = send(calls, alloc, CallNo { n: 3 }, message(8, 5), 0)?;
    Ok([first, second, third])
}

// The least outstanding call is answered then: which one that was.
fn one_done(calls: &mut Calls, alloc: Global) -> Result<Option<CallNo>, Fail> {
    two_sent(calls, alloc)?;
    let done = Octets::copy(alloc, b"yes.")?;
    Ok(answer_least(calls, Fate::Done(done)))
}

fn are_numbered(calls: &mut Calls, alloc: Global) -> Result<(), Fail> {
    same(
        four_calls(calls, alloc)?,
        [
            Some(CallNo { n: 1 }),
            Some(CallNo { n: 2 }),
            Some(CallNo { n: 3 }),
            Some(CallNo { n: 4 }),
        ],
    )?;
    same(
        (body(calls, 3)?, after(calls, 3)?, after(calls, 4)?),
        (
            b"tri.".as_slice(),
            Some(CallNo { n: 1 }),
            Some(CallNo { n: 1 }),
        ),
    )
}

#[test]
fn calls_are_numbered(rt: HostRuntime) -> Result<(), Fail> {
    let mut calls = Calls::new(rt.alloc())?;
    let done = are_numbered(&mut calls, rt.alloc());
    drop(calls);
    done
}

fn rise(calls: &mut Calls, alloc: Global) -> Result<(), Fail> {
    same(two_sent(calls, alloc)?, [true, true, false])?;
    same(
        (calls.living_at(0), calls.living_at(1), calls.living_at(2)),
        (Some(4), Some(8), None),
    )
}

#[test]
fn numbers_of_messages_rise(rt: HostRuntime) -> Result<(), Fail> {
    let mut calls = Calls::new(rt.alloc())?;
    let done = rise(&mut calls, rt.alloc());
    drop(calls);
    done
}

fn is_done(calls: &mut Calls, alloc: Global) -> Result<(), Fail> {
    same(one_done(calls, alloc)?, Some(CallNo { n: 1 }))?;
    same(
        (state(calls, 1)?, state(calls, 2)?, state(calls, 3)?),
        (CallState::Done(b"yes."), CallState::Sent, CallState::Queued),
    )
}

#[test]
fn an_answered_call_is_done(rt: HostRuntime) -> Result<(), Fail> {
    let mut calls = Calls::new(rt.alloc())?;
    let done = is_done(&mut calls, rt.alloc());
    drop(calls);
    done
}

fn is_outstanding_no_more(calls: &mut Calls, alloc: Global) -> Result<(), Fail> {
    one_done(calls, alloc)?;
    same(
        (
            calls.living_at(0),
            calls.owner(4),
            calls.owner(8),
            calls.owner(12),
        ),
        (Some(8), None, Some(CallNo { n: 2 }), None),
    )?;
    same(
        (
            living(calls, 1)?,
            living(calls, 2)?,
            calls.members(Group::Queued),
            calls.members(Group::Outstanding),
        ),
        (None, Some(message(8, 3)), 2, 1),
    )
}

#[test]
fn an_answered_call_is_outstanding_no_more(rt: HostRuntime) -> Result<(), Fail> {
    let mut calls = Calls::new(rt.alloc())?;
    let done = is_outstanding_no_more(&mut calls, rt.alloc());
    drop(calls);
    done
}

// That a call is to go alone.
const ALONE: Flags = Flags {
    alone: true,
    dropping: false,
};

// The call that is outstanding is marked: what its flags are then.
fn one_marked(calls: &mut Calls, alloc: Global) -> Result<Option<Flags>, Fail> {
    one_done(calls, alloc)?;
    Ok(mark(calls, 8, ALONE))
}

// It isn't known what became of it then: which call that is.
fn one_unknown(calls: &mut Calls, alloc: Global) -> Result<Option<CallNo>, Fail> {
    one_marked(calls, alloc)?;
    Ok(answer(calls, 8, Fate::Unknown(Cause::Session)))
}

fn goes_alone(calls: &mut Calls, alloc: Global) -> Result<(), Fail> {
    same(one_marked(calls, alloc)?, Some(ALONE))?;
    same(
        (calls.member(Group::Alone, 0), calls.member(Group::Alone, 1)),
        (Some(CallNo { n: 2 }), None),
    )
}

#[test]
fn a_marked_call_goes_alone(rt: HostRuntime) -> Result<(), Fail> {
    let mut calls = Calls::new(rt.alloc())?;
    let done = goes_alone(&mut calls, rt.alloc());
    drop(calls);
    done
}

fn goes_no_more(calls: &mut Calls, alloc: Global) -> Result<(), Fail> {
    same(one_unknown(calls, alloc)?, Some(CallNo { n: 2 }))?;
    same(
        (calls.members(Group::Alone), state(calls, 2)?),
        (0, CallState::Unknown(Cause::Session)),
    )
}

#[test]
fn a_call_that_is_decided_goes_no_more(rt: HostRuntime) -> Result<(), Fail> {
    let mut calls = Calls::new(rt.alloc())?;
    let done = goes_no_more(&mut calls, rt.alloc());
    drop(calls);
    done
}

// A call that is sent as 4 under the salt 0: whether it was.
fn one_sent(calls: &mut Calls, alloc: Global) -> Result<bool, Fail> {
    add(calls, alloc, b"one.", None)?;
    Ok(send_first(calls, alloc, message(4, 1), 0)?)
}

// A message that was sent under 0 is sent under 0, 5, 0, 6 and 5.
fn has_salts(calls: &mut Calls, alloc: Global) -> Result<(), Fail> {
    let rows = [
        (0, Under::Zero),
        (5, Under::One(5)),
        (0, Under::One(5)),
        (6, Under::More),
        (5, Under::More),
    ];
    one_sent(calls, alloc)?;
    for (salt, under) in rows {
        same(again(calls, alloc, salt)?, Some(under))?;
    }
    Ok(())
}

#[test]
fn salts_of_a_name(rt: HostRuntime) -> Result<(), Fail> {
    let mut calls = Calls::new(rt.alloc())?;
    let done = has_salts(&mut calls, rt.alloc());
    drop(calls);
    done
}

// It is sent under two more salts, is queued, and is sent as 8 under the second of them: whether it was sent both times.
fn sent_anew(calls: &mut Calls, alloc: Global) -> Result<bool, Fail> {
    let first = one_sent(calls, alloc)?;
    again(calls, alloc, 5)?;
    again(calls, alloc, 6)?;
    answer(calls, 4, Fate::Queue);
    let second = send_first(calls, alloc, message(8, 3), 6)?;
    Ok(first && second)
}

// Whether it was, and under which salts it was sent since then.
fn under_anew(calls: &mut Calls, alloc: Global) -> Result<(bool, Option<Under>), Fail> {
    let sent = sent_anew(calls, alloc)?;
    Ok((sent, again(calls, alloc, 6)?))
}

#[test]
fn a_new_name_has_no_old_salts(rt: HostRuntime) -> Result<(), Fail> {
    let mut calls = Calls::new(rt.alloc())?;
    let under = under_anew(&mut calls, rt.alloc());
    drop(calls);
    same(under?, (true, Some(Under::One(6))))
}

// It is held then.
fn is_held(calls: &mut Calls, alloc: Global) -> Result<(), Fail> {
    sent_anew(calls, alloc)?;
    answer(calls, 8, Fate::Hold);
    same(
        (calls.owner(4), calls.owner(8), calls.member(Group::Held, 0)),
        (None, None, Some(CallNo { n: 1 })),
    )
}

#[test]
fn a_held_call_has_no_name(rt: HostRuntime) -> Result<(), Fail> {
    let mut calls = Calls::new(rt.alloc())?;
    let done = is_held(&mut calls, rt.alloc());
    drop(calls);
    done
}

// The acknowledgements of 8,193 numbers from 0 on are owed.
fn are_owed(calls: &mut Calls) -> Result<(), Fail> {
    for number in 0..8_193 {
        calls.push_ack(number);
    }
    same(
        (
            calls.acks(),
            calls.ack_at(0),
            calls.ack_at(8_191),
            calls.ack_at(8_192),
        ),
        (8_192, Some(1), Some(8_192), None),
    )?;
    calls.clear_acks();
    same(calls.acks(), 0)
}

#[test]
fn acknowledgements_push_out_the_oldest(rt: HostRuntime) -> Result<(), Fail> {
    let mut calls = Calls::new(rt.alloc())?;
    let done = are_owed(&mut calls);
    drop(calls);
    done
}

// Packets of the numbers below this one are remembered, each with one message whose number is greater by 100.
fn remember(calls: &mut Calls, alloc: Global, count: u64) -> Result<(), Memory> {
    for outer in 0..count {
        calls.remember(outer, IdList::copy(alloc, &[outer.wrapping_add(100)])?);
    }
    Ok(())
}

// The messages in a packet that is remembered.
fn inner(calls: &Calls, outer: u64) -> Option<&[u64]> {
    match calls.inner(outer) {
        Some(inner) => Some(inner.ids()),
        None => None,
    }
}

fn are_pushed_out(calls: &mut Calls, alloc: Global) -> Result<(), Fail> {
    remember(calls, alloc, 65)?;
    same(
        (inner(calls, 0), inner(calls, 1), inner(calls, 64)),
        (None, Some([101].as_slice()), Some([164].as_slice())),
    )?;
    calls.forget_packets();
    same(inner(calls, 64), None)
}

#[test]
fn packets_push_out_the_oldest(rt: HostRuntime) -> Result<(), Fail> {
    let mut calls = Calls::new(rt.alloc())?;
    let done = are_pushed_out(&mut calls, rt.alloc());
    drop(calls);
    done
}
