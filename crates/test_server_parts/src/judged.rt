//! Judging what comes in: the worked rows, as steps that an inbox does one after the other, and a caller's tries.

ghost use Rattle.std.specs.Prelude.{◌≡◌, ◌≤◌, true, Some, IsOk};
ghost use Rattle.salt_line.specs.Line.{Line, Stands as LineStands};
ghost use Rattle.id_window.specs.Marks.{Marks, given};
ghost use Rattle.id_window.specs.History.{History, found};
ghost use Rattle.inbox.specs.Refusals.{InEnvelope};
ghost use Rattle.inbox.specs.Judging.{Session, session_after};
ghost use Rattle.inbox.specs.Inbox.{Stands, Remembers, message_in};

use crate::steps::{Plays, Step, are_played, nothing, number, pair, put, show, tell};
use inbox::{Inbox, Judged, Judgement, Mark, Outer, Received, Verdict};
use msg_ids::Moment;
use octets::{IdList, Memory, Octets};
use salt_line::SaltLine;
use std::alloc::Global;
use std::test::*;

/// The valid salt of the tests.
const SALT: u64 = 7;

// A body of four bytes that no service constructor begins.
const CALL: [u8; 4] = [1, 0, 0, 0];

// msgs_ack of no number.
const ACK: [u8; 12] = [0x59, 0xb4, 0xd6, 0x62, 0x15, 0xc4, 0xb5, 0x1c, 0, 0, 0, 0];

// msg_container of no message.
const EMPTY_CONTAINER: [u8; 8] = [0xdc, 0xf8, 0xf1, 0x73, 0, 0, 0, 0];

// msg_container of a message that is one of no message.
const NESTED_CONTAINER: [u8; 32] = [
    0xdc, 0xf8, 0xf1, 0x73, 1, 0, 0, 0, 4, 0, 0, 0, 0, 0, 0, 0, 0, 0, 0, 0, 8, 0, 0, 0, 0xdc, 0xf8,
    0xf1, 0x73, 0, 0, 0, 0,
];

/// Accepted, and came again, as `code_of` tells them.
const ACCEPTED: u32 = 0;

const AGAIN: u32 = 1_000;

const AGAIN_WAITING: u32 = 1_001;

const AGAIN_CONTAINER: u32 = 1_002;

// What became of a message, as a number: that of its notice, or one of the above.
fn code_of(verdict: &Verdict) -> u32 {
    match verdict {
        Verdict::Accepted => ACCEPTED,
        Verdict::Again(Mark::Waiting) => AGAIN_WAITING,
        Verdict::Again(Mark::Container) => AGAIN_CONTAINER,
        Verdict::Again(_) => AGAIN,
        Verdict::Noticed(code) => *code,
    }
}

// Judges a message that came in an envelope of this moment.
fn judged(inbox: &mut Inbox, alloc: Global, seconds: u64, outer: Outer) -> Result<Judged, Fail> {
    let line = match SaltLine::new(alloc, Moment::new(0), SALT) {
        Ok(line) => line,
        Err(fault) => {
            drop(outer);
            return Err(fault.into());
        }
    };
    let judged = inbox.judge(alloc, Moment::new(seconds), &line, &Received::read(&outer));
    drop(line);
    drop(outer);
    Ok(judged?)
}

// What became of a message, how many were judged, and how many behind the first are accepted.
fn counted(judged: Judged) -> (u32, usize, u64) {
    let judgements = judged.as_slice();
    let code = match judgements {
        [first, ..] => code_of(&first.verdict),
        [] => u32::MAX,
    };
    let behind = judgements.get(1..).unwrap_or(&[]);
    let counted = (code, judgements.len(), accepted_in(behind));
    drop(judged);
    counted
}

// Puts a call of this place, counted from 1, into a container: its number is 4 times that, its seq one less than 2 times.
fn put_call(body: &mut Octets, alloc: Global, place: u64, length: u64) -> Result<(), Memory> {
    let seq = place.wrapping_mul(2).wrapping_sub(1);
    body.push_all(alloc, &place.wrapping_mul(4).to_le_bytes())?;
    put_word(body, alloc, seq)?;
    put_word(body, alloc, length)?;
    body.push_all(alloc, &CALL)
}

// The lower half of a number.
fn low(number: u64) -> u32 {
    (number & 0xffff_ffff) as u32
}

fn put_word(body: &mut Octets, alloc: Global, word: u64) -> Result<(), Memory> {
    body.push_all(alloc, &low(word).to_le_bytes())
}

// Puts so many calls into a container; the last one says this length, each other 4.
fn put_calls(body: &mut Octets, alloc: Global, count: u64, last_length: u64) -> Result<(), Memory> {
    for place in 1..=count {
        let length = if place == count { last_length } else { 4 };
        put_call(body, alloc, place, length)?;
    }
    Ok(())
}

// The body of a container of so many calls, of which the last one says this length, without its last bytes.
fn container(alloc: Global, numbers: [u64; 4]) -> Result<Octets, Memory> {
    let [count, last_length, cut, _] = numbers;
    let mut body = Octets::copy(alloc, &[0xdc, 0xf8, 0xf1, 0x73])?;
    put_word(&mut body, alloc, count)?;
    put_calls(&mut body, alloc, count, last_length)?;
    let kept = body.as_slice().len().saturating_sub(cut as usize);
    body.truncate(kept);
    Ok(body)
}

// How many of these messages are accepted calls, each with the number of its place: 4 of the first, 8 of the second.
fn accepted_in(judgements: &[Judgement]) -> u64 {
    let mut count = 0u64;
    for judgement in judgements {
        let number = count.wrapping_add(1).wrapping_mul(4);
        if judgement.number == number && judgement.verdict.is_accepted() {
            count = count.wrapping_add(1);
        }
    }
    count
}

// Judges a container: the numbers of the step are how many calls are in it, what the last one says of its length, how many
// bytes of it are cut, and its number. Its seq is twice the count. What became of it, how many were judged, and how many behind
// the first are accepted.
fn judged_container(
    inbox: &mut Inbox,
    alloc: Global,
    numbers: [u64; 4],
) -> Result<(u32, usize, u64), Fail> {
    let [count, _, _, number] = numbers;
    let outer = Outer {
        number,
        seq: low(count.wrapping_mul(2)),
        salt: SALT,
        body: container(alloc, numbers)?,
    };
    Ok(counted(judged(inbox, alloc, 0, outer)?))
}

// The same as a text.
fn contains(inbox: &mut Inbox, alloc: Global, numbers: [u64; 4]) -> Result<String, Fail> {
    let (code, count, accepted) = judged_container(inbox, alloc, numbers)?;
    Ok(format!(in alloc; "{code} {count} {accepted}")?)
}

// What became of it as a text.
fn contains_again(inbox: &mut Inbox, alloc: Global, numbers: [u64; 4]) -> Result<String, Fail> {
    let (code, _, _) = judged_container(inbox, alloc, numbers)?;
    number(alloc, u64::from(code))
}

// Judges a message: the numbers of the step are the moment and the message's number, seq and salt. What became of it, and how
// many were judged.
fn judges(
    inbox: &mut Inbox,
    alloc: Global,
    numbers: [u64; 4],
    body: &[u8],
) -> Result<String, Fail> {
    let [seconds, number, seq, salt] = numbers;
    let outer = Outer {
        number,
        seq: low(seq),
        salt,
        body: Octets::copy(alloc, body)?,
    };
    let (code, count, _) = counted(judged(inbox, alloc, seconds, outer)?);
    pair(alloc, u64::from(code), count as u64)
}

// Judges so many calls in turn, 4 apart, under salt 0.
fn judges_many(inbox: &mut Inbox, alloc: Global, count: u64) -> Result<String, Fail> {
    for place in 0..count {
        let number = place.wrapping_mul(4).wrapping_add(4);
        drop(judges(inbox, alloc, [0, number, 1, 0], &CALL)?);
    }
    nothing(alloc)
}

// The states of seven numbers, as a list of numbers shows them.
fn states(inbox: &Inbox, alloc: Global) -> Result<String, Fail> {
    let ids = IdList::copy(alloc, &[0, 4, 8, 12, 16, 20, 28])?;
    let states = inbox.states(alloc, &ids)?;
    show(alloc, &states.as_slice())
}

// What an inbox says of a step that changes nothing.
fn asked(inbox: &Inbox, alloc: Global, step: Step<'_>) -> Result<String, Fail> {
    match step.verb {
        "heard" => tell(alloc, &inbox.heard()),
        "floor" => number(alloc, inbox.floor()),
        "mark" => show(alloc, &inbox.mark(step.numbers[0])),
        "states" => states(inbox, alloc),
        _ => Err(Fail::new("no step")),
    }
}

// The body of a message by its name; of no bytes where it is none of these.
fn body_of(verb: &str) -> &[u8] {
    match verb {
        "call" => &CALL,
        "ack" => &ACK,
        "empty" => &EMPTY_CONTAINER,
        "nested" => &NESTED_CONTAINER,
        _ => &[],
    }
}

// Goes on with a copy.
fn copies(inbox: &mut Inbox, alloc: Global) -> Result<String, Fail> {
    let copy = inbox.copy(alloc)?;
    put(inbox, copy);
    nothing(alloc)
}

impl Plays for Inbox {
    fn begun(alloc: Global) -> Result<Inbox, Fail> {
        Ok(Inbox::new(alloc)?)
    }

    fn played(&mut self, alloc: Global, step: Step<'_>) -> Result<String, Fail> {
        let body = body_of(step.verb);
        if !body.is_empty() {
            return judges(self, alloc, step.numbers, body);
        }
        match step.verb {
            "container" => contains(self, alloc, step.numbers),
            "again" => contains_again(self, alloc, step.numbers),
            "calls" => judges_many(self, alloc, step.numbers[0]),
            "copy" => copies(self, alloc),
            "answer" => tell(alloc, &answer(self, step.numbers[0])),
            _ => asked(self, alloc, step),
        }
    }
}

// Marks a call as answered, where it waits.
fn answer(inbox: &mut Inbox, number: u64) -> bool
    ensures { (history : History) (marks : Marks) → Stands inbox.old history marks → found number history marks ≡ Some Mark.Waiting
        → Stands inbox.new history (given number (Mark.Replied true) marks) }
{
    match inbox.mark(number) {
        Some(Mark::Waiting) => {
            inbox.set_mark(number, Mark::Replied(true));
            true
        }
        _ => false,
    }
}

// Judges two messages, one after the other.
fn judge_both(
    inbox: &mut Inbox,
    alloc: Global,
    now: Moment,
    line: &SaltLine,
    first: &Outer,
    second: &Outer,
) -> Result<(), Memory>
    requires { line.now.latest ≤ now }
    ensures { (session : Session) (salts : Line) → Remembers inbox.old session → LineStands line.now salts → IsOk result
        → (let once = session_after (InEnvelope now salts first.now.salt) session (message_in first.now) in
        Remembers inbox.new (session_after (InEnvelope now salts second.now.salt) once (message_in second.now))) }
{
    drop(inbox.judge(alloc, now, line, &Received::read(first))?);
    drop(inbox.judge(alloc, now, line, &Received::read(second))?);
    Ok(())
}

// Numbers of a step are a moment, and a message's number, seq and salt; 7 is the valid one. It gives the number of a notice, 0
// where the message is accepted, 1,000 and more where it came again, and how many messages were judged.
const FIRST_CASE: &str = "\
new\n\
call 1000 1000s0 1 7 = 0 1\n\
heard = true\n\
new\n\
call 1000 700s0 1 7 = 0 1\n\
heard = true\n\
new\n\
call 1000 699s0 1 7 = 16 1\n\
heard = false\n\
new\n\
call 1000 1030s0 1 7 = 0 1\n\
heard = true\n\
new\n\
call 1000 1031s0 1 7 = 17 1\n\
heard = false\n\
new\n\
call 1000 1000s2 1 7 = 18 1\n\
heard = false\n\
new\n\
call 1000 1000s0 1 0 = 48 1\n\
heard = false\n\
new\n\
call 1000 1000s0 2 7 = 35 1\n\
heard = false\n\
new\n\
ack 1000 1000s0 1 7 = 34 1\n\
heard = false\n\
new\n\
ack 1000 1000s0 0 7 = 0 1\n\
heard = true\n\
new\n\
call 0 8 1 7 = 0 1\n\
call 0 12 1 7 = 32 1\n\
heard = true\n\
new\n\
call 0 8 1 7 = 0 1\n\
call 0 4 3 7 = 33 1\n\
heard = true\n\
new\n\
call 0 8 1 7 = 0 1\n\
call 0 4 1 7 = 33 1\n\
heard = true\n\
new\n\
call 0 8 1 7 = 0 1\n\
call 0 12 3 7 = 0 1\n\
heard = true\n\
new\n\
call 0 8 1 7 = 0 1\n\
empty 0 8 2 7 = 19 1\n\
heard = true\n\
new\n\
call 0 8 1 7 = 0 1\n\
call 0 8 1 7 = 1001 1\n\
heard = true\n";

#[test]
fn messages_are_judged_by_the_first_case(rt: HostRuntime) -> Result<(), Fail> {
    are_played::<Inbox>(rt.alloc(), FIRST_CASE)
}

const KEPT_MARK: &str = "\
call 1000 1000s0 1 7 = 0 1\n\
call 1000 1000s0 1 7 = 1001 1\n\
new\n\
call 0 8 1 7 = 0 1\n\
empty 0 8 2 7 = 19 1\n\
call 0 8 1 7 = 1001 1\n\
mark 8 = Some(Waiting)\n\
copy\n\
mark 8 = Some(Waiting)\n\
heard = true\n";

#[test]
fn a_call_keeps_its_mark(rt: HostRuntime) -> Result<(), Fail> {
    are_played::<Inbox>(rt.alloc(), KEPT_MARK)
}

// Numbers of a step are how many calls a container has, what the last one says of its length, how many bytes are cut, and the
// container's number. It gives also how many calls are accepted.
const CONTAINERS: &str = "\
new\n\
container 1020 4 0 8192 = 0 1021 1020\n\
mark 4 = Some(Waiting)\n\
again 1020 4 0 8192 = 1002\n\
new\n\
container 1021 4 0 8192 = 64 1 0\n\
mark 4 = None\n\
again 1021 4 0 8192 = 1000\n\
new\n\
container 2 4 0 8 = 64 1 0\n\
mark 4 = None\n\
again 2 4 0 8 = 1000\n\
new\n\
container 2 3 0 12 = 64 1 0\n\
mark 4 = None\n\
again 2 3 0 12 = 1000\n\
new\n\
container 2 4 1 12 = 64 1 0\n\
mark 4 = None\n\
again 2 4 1 12 = 1000\n\
new\n\
container 2 4 0 12 = 0 3 2\n\
mark 4 = Some(Waiting)\n\
again 2 4 0 12 = 1002\n\
new\n\
container 0 4 0 12 = 0 1 0\n\
mark 4 = None\n\
again 0 4 0 12 = 1002\n";

#[test]
fn containers_are_judged_with_their_messages(rt: HostRuntime) -> Result<(), Fail> {
    are_played::<Inbox>(rt.alloc(), CONTAINERS)
}

#[test]
fn no_container_stands_in_another(rt: HostRuntime) -> Result<(), Fail> {
    are_played::<Inbox>(rt.alloc(), "nested 0 8 2 7 = 64 1\nmark 4 = None\n")
}

const FULL_WINDOW: &str = "\
calls 16385\n\
floor = 4\n\
call 0 4 1 7 = 20 1\n\
call 0 8 1 7 = 1000 1\n\
heard = false\n\
copy\n\
floor = 4\n";

#[test]
fn the_floor_rises_over_a_full_window(rt: HostRuntime) -> Result<(), Fail> {
    are_played::<Inbox>(rt.alloc(), FULL_WINDOW)
}

// Of 0, 4, 8, 12, 16, 20 and 28.
const STATES: &str = "\
call 0 4 1 0 = 48 1\n\
ack 0 8 0 7 = 0 1\n\
call 0 12 1 7 = 0 1\n\
ack 0 16 2 7 = 0 1\n\
ack 0 24 2 7 = 0 1\n\
states = [1, 4, 4, 36, 4, 2, 3]\n\
answer 12 = true\n\
states = [1, 4, 4, 100, 4, 2, 3]\n";

#[test]
fn states_are_told(rt: HostRuntime) -> Result<(), Fail> {
    are_played::<Inbox>(rt.alloc(), STATES)
}
