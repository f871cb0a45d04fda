//! Calls that wait for others, that are dropped while they are unfinished, and that come under a temporary key.

ghost use Rattle.std.specs.Prelude.{◌≡◌};
ghost use Rattle.server_session.specs.SessionState.{IsAt, numbers_left};

use auth_keys::Ring;
use draws::StepDraw;
use inbox::{Judgement, Mark, Outer, Received, Verdict};
use msg_ids::Moment;
use octets::{Memory, Octets};
use server_dispatch::{Bindings, CallDue, Entries, Short, Turn, acks_in};
use server_output::OutgoingMessages;
use server_session::SessionState;
use std::alloc::Global;
use std::test::Fail;
use temp_keys::Binding;
use test_asserts::same;
use test_keys::{KEY_ID, TEMP_ID, both_keys};
use waits::Jobs;

// The first salt of a session: the second word of a `StepDraw`.
const SALT: u64 = 12_728_272_447_693_586_010;

// The numbers of a binding call and its message under the key `00` to `ff`, made with Python over hashlib and OpenSSL 3.
const SESSION: u64 = 0xfedc_ba98_7654_3210;

const NUMBER: u64 = 0x65a1_b2c3_d4e5_f608;

const MESSAGE: [u8; 104] = [
    0x32, 0xd1, 0x58, 0x6e, 0xa4, 0x57, 0xdf, 0xc8, 0xdb, 0x36, 0xcf, 0xb2, 0x46, 0x6c, 0x43, 0x9c,
    0x72, 0x90, 0x83, 0x36, 0xc3, 0x3a, 0x19, 0x35, 0xb5, 0xc2, 0x55, 0x64, 0x11, 0xce, 0x26, 0x44,
    0x33, 0x37, 0xd2, 0x89, 0x08, 0x1e, 0x88, 0x16, 0xc9, 0xb7, 0xc9, 0x29, 0xd2, 0x0d, 0xd1, 0x23,
    0x24, 0x4a, 0x35, 0x6c, 0xc5, 0x6c, 0x46, 0xee, 0x0c, 0xf7, 0xa5, 0xad, 0x56, 0xbf, 0x62, 0x66,
    0xac, 0xc6, 0x54, 0x6e, 0x21, 0x6f, 0x54, 0x05, 0x19, 0x17, 0x00, 0x2a, 0x26, 0x1a, 0x7c, 0x7b,
    0xd0, 0xe4, 0xf2, 0xda, 0x3a, 0x05, 0xba, 0x1a, 0x6a, 0xa8, 0x7d, 0xee, 0x50, 0x82, 0x41, 0xed,
    0x3c, 0xfb, 0xd3, 0x4b, 0x60, 0xe3, 0xf6, 0xfb,
];

// A message of this number and seq under the first salt, with the request that adds 1 to the register `x`.
fn request(alloc: Global, number: u64, seq: u32) -> Result<Outer, Memory> {
    Ok(Outer {
        number,
        seq,
        salt: SALT,
        body: Octets::copy(
            alloc,
            &[1, 44, 27, 10, 1, 120, 0, 0, 1, 0, 0, 0, 0, 0, 0, 0],
        )?,
    })
}

// The session judges such a message.
fn judges(alloc: Global, standing: &mut SessionState, number: u64, seq: u32) -> Result<(), Memory>
    requires at { IsAt 0 standing.old }
    ensures at { IsAt 0 standing.new }
    ensures numbers { numbers_left standing.new ≡ numbers_left standing.old }
{
    let request = request(alloc, number, seq)?;
    standing.judges(alloc, Moment::new(0), &Received::read(&request))?;
    Ok(())
}

// 8 and 12 are calls, and 16 waits for both. Then 24 asks to drop the answer to 8, and what has failed is given up. The
// entries, how many jobs were ready and how many there were before, and how many there are afterwards.
fn drops_a_call(alloc: Global, ring: &Ring) -> Result<(Entries, usize, usize, usize), Memory> {
    let now = Moment::new(0);
    let mut standing = SessionState::new(alloc, now, KEY_ID, 9, 8, &mut StepDraw::new())?;
    judges(alloc, &mut standing, 8, 1)?;
    judges(alloc, &mut standing, 12, 3)?;
    judges(alloc, &mut standing, 16, 5)?;
    judges(alloc, &mut standing, 24, 7)?;
    standing.reserve(alloc, 6)?;
    let mut turn = Turn {
        owing: OutgoingMessages::new(alloc, 6, 288)?,
        entries: Entries::new(alloc, 6)?,
    };
    let mut jobs = Jobs::new(alloc);
    jobs.reserve(alloc, 3)?;
    let bindings = Bindings::new(alloc);
    let first = CallDue::new(alloc, 8, &[], b"add")?;
    turn.accepts_call::<StepDraw>(now, &mut standing, &mut jobs, &bindings, ring, first);
    let second = CallDue::new(alloc, 12, &[], b"add")?;
    turn.accepts_call::<StepDraw>(now, &mut standing, &mut jobs, &bindings, ring, second);
    let third = CallDue::new(alloc, 16, &[8, 12, 8], b"add")?;
    turn.accepts_call::<StepDraw>(now, &mut standing, &mut jobs, &bindings, ring, third);
    let (ready, before) = (jobs.ready(), jobs.len());
    turn.drops_answer::<StepDraw>(now, &mut standing, &mut jobs, 24, 8);
    if let Some(job) = jobs.failed() {
        turn.gives_up::<StepDraw>(now, &mut standing, &mut jobs, job, Short::MsgWaitFailed);
    }
    Ok((turn.entries, ready, before, jobs.len()))
}

// The entry of this place: its number, whether it ran, and its reply.
fn entry(entries: &Entries, place: usize) -> Option<(u64, bool, &[u8])> {
    let entry = entries.as_slice().get(place)?;
    Some((entry.number, entry.ran, entry.reply.as_slice()))
}

#[test]
fn a_dropped_call_takes_those_with_it_that_wait_for_it(rt: HostRuntime) -> Result<(), Fail> {
    let alloc = rt.alloc();
    let ring = both_keys(alloc)?;
    let dropped = drops_a_call(alloc, &ring);
    drop(ring);
    let (entries, ready, before, after) = dropped?;
    let done = are_dropped(&entries);
    drop(entries);
    done?;
    same((ready, before, after), (2, 3, 1))
}

// The answers to the call that is dropped and to the one that waits for it.
fn are_dropped(entries: &Entries) -> Result<(), Fail> {
    same(entries.as_slice().len(), 2)?;
    same(
        entry(entries, 0),
        Some((8, false, b"\x86\xe5\x78\xcd".as_slice())),
    )?;
    same(
        entry(entries, 1),
        Some((16, false, Short::MsgWaitFailed.content())),
    )
}

// The key and the session of the first entry.
fn owner(entries: &Entries) -> Option<(u64, u64)> {
    let entry = entries.as_slice().first()?;
    Some((entry.key, entry.session))
}

// A call under a temporary key, the binding of that key by this message, and a call again. The entries, how many jobs
// there are then, and whether the key is bound.
fn binds_a_key(
    alloc: Global,
    ring: &Ring,
    message: &[u8],
) -> Result<(Entries, usize, bool), Memory> {
    let now = Moment::new(0);
    let mut standing = SessionState::new(alloc, now, TEMP_ID, SESSION, 8, &mut StepDraw::new())?;
    standing.reserve(alloc, 3)?;
    let mut turn = Turn {
        owing: OutgoingMessages::new(alloc, 3, 144)?,
        entries: Entries::new(alloc, 3)?,
    };
    let mut jobs = Jobs::new(alloc);
    jobs.reserve(alloc, 2)?;
    let mut bindings = Bindings::new(alloc);
    bindings.reserve(alloc, 1)?;
    let first = CallDue::new(alloc, 8, &[], b"add")?;
    turn.accepts_call::<StepDraw>(now, &mut standing, &mut jobs, &bindings, ring, first);
    let binding = Binding {
        perm: KEY_ID,
        nonce: 0x0123_4567_89ab_cdef,
        expires: 7_200,
        message: Octets::copy(alloc, message)?,
    };
    turn.binds::<StepDraw>(now, &mut standing, &mut bindings, ring, NUMBER, &binding);
    let second = CallDue::new(alloc, 16, &[], b"add")?;
    turn.accepts_call::<StepDraw>(now, &mut standing, &mut jobs, &bindings, ring, second);
    Ok((turn.entries, jobs.len(), bindings.is_bound(now, TEMP_ID)))
}

#[test]
fn calls_under_a_temporary_key_wait_for_its_binding(rt: HostRuntime) -> Result<(), Fail> {
    let alloc = rt.alloc();
    let ring = both_keys(alloc)?;
    let done = are_bound(alloc, &ring);
    drop(ring);
    done
}

fn are_bound(alloc: Global, ring: &Ring) -> Result<(), Fail> {
    is_bound(alloc, ring)?;
    isnt_bound(alloc, ring)
}

// By the message the key is bound, and the call behind it is a job.
fn is_bound(alloc: Global, ring: &Ring) -> Result<(), Fail> {
    let (entries, jobs, bound) = binds_a_key(alloc, ring, &MESSAGE)?;
    let count = entries.as_slice().len();
    let done = is_refused(&entries);
    drop(entries);
    done?;
    same((count, jobs, bound), (1, 1, true))
}

// The answer to the call before the binding.
fn is_refused(entries: &Entries) -> Result<(), Fail> {
    same(
        entry(entries, 0),
        Some((8, false, Short::AuthKeyPermEmpty.content())),
    )?;
    same(owner(entries), Some((TEMP_ID, SESSION)))
}

// By a message that is cut it isn't, and both calls are answered in place of a run.
fn isnt_bound(alloc: Global, ring: &Ring) -> Result<(), Fail> {
    let (entries, jobs, bound) = binds_a_key(alloc, ring, &MESSAGE[..100])?;
    let count = entries.as_slice().len();
    drop(entries);
    same((count, jobs, bound), (2, 0, false))
}

// The numbers that are acknowledged of a call that comes twice, one of even sequence number, one that came before, a refused one
// and a container.
fn acknowledged(alloc: Global) -> Result<Vec<u64>, Memory> {
    let rows = [
        (8, 1, Came::Call),
        (12, 2, Came::Call),
        (4, 3, Came::Again(Mark::Waiting)),
        (8, 1, Came::Again(Mark::Service)),
        (16, 5, Came::Refused),
        (20, 7, Came::Again(Mark::Container)),
    ];
    let mut judged = Vec::new(alloc);
    for (number, seq, came) in rows {
        judged.push(judgement(number, seq, came))?;
    }
    let mut acks = Vec::with_capacity(alloc, judged.len())?;
    acks_in(judged.as_slice(), &mut acks);
    Ok(acks)
}

// What came: a call that is new, a message that came before, one that is refused.
#[derive(Clone, Copy)]
enum Came {
    Call,
    Again(Mark),
    Refused,
}

fn judgement(number: u64, seq: u32, came: Came) -> Judgement {
    let verdict = match came {
        Came::Call => Verdict::Accepted,
        Came::Again(mark) => Verdict::Again(mark),
        Came::Refused => Verdict::Noticed(33),
    };
    Judgement {
        number,
        seq,
        verdict,
    }
}

#[test]
fn a_call_is_acknowledged_once(rt: HostRuntime) -> Result<(), Fail> {
    let acks = acknowledged(rt.alloc())?;
    same(acks.as_slice(), [8, 4].as_slice())?;
    Ok(())
}
