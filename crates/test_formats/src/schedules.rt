//! Schedules: each line with the event that it gives, and lines outside the grammar.

ghost use Rattle.std.specs.Prelude.{◌<◌, ◌^◌, ◌⊎◌, length, IfOk};
ghost use Rattle.sched_text.specs.Schedule.{Spells};

use crate::rows::{Asked, are_so};
use sched_text::{Events, Lines, SchedFault, call_of, read};
use std::alloc::{AllocError, Global};
use std::test::*;
use test_asserts::{holds, same, same_at, shows, tells};

// The first text's events, or the second's where the first has none.
fn first_or_second(alloc: Global, first: &[u8], second: &[u8]) -> Result<Events, SchedFault>
    requires first { length first.now < 2 ^ 32 }
    requires second { length second.now < 2 ^ 32 }
    ensures { IfOk result (λ events. Spells first.now events ⊎ Spells second.now events) }
{
    match read(alloc, first) {
        Ok(events) => Ok(events),
        Err(_) => read(alloc, second),
    }
}

// What a text gives, and the text, in which `;` stands for a newline.
const EVENTS: &str = "\
Client | client\n\
ClientTemp | client temp\n\
ClockAll { at: 0 } | clock 0\n\
ClockServer { at: 7200 } | clock server 7200\n\
ClockClient { client: 1, at: 18446744073709551615 } | clock 1 18446744073709551615\n\
Call { client: 1, body: Octets { bytes: [1, 44, 27, 10, 1, 120, 0, 0, 5, 0, 0, 0, 0, 0, 0, 0] }, after: None } | call 1 add x 5\n\
Call { client: 1, body: Octets { bytes: [2, 44, 27, 10, 2, 48, 122, 0] }, after: Some(10) } | call 1 get 0z after 10\n\
Call { client: 1, body: Octets { bytes: [2, 44, 27, 10, 5, 97, 102, 116, 101, 114, 0, 0] }, after: None } | call 1 get after\n\
Call { client: 1, body: Octets { bytes: [0, 0, 0] }, after: None } | call 1 pad 3\n\
Call { client: 1, body: Octets { bytes: [161, 207, 114, 48, 0, 0, 0, 0] }, after: Some(2) } | call 1 packed after 2\n\
Call { client: 2, body: Octets { bytes: [0, 170, 255] }, after: None } | call 2 hex 00aAFf\n\
Call { client: 2, body: Octets { bytes: [] }, after: Some(3) } | call 2 hex - after 3\n\
Call { client: 1, body: Octets { bytes: [1] }, after: Some(2) } | call\t1 hex\t01 after\t2\n\
Salts { client: 1, count: 0 } | salts\t1 0\n\
Flush { client: 1 } | flush 1\n\
Give { packet: 12 } | give 12\n\
ForeignServer { bytes: Octets { bytes: [] } } | foreign server -\n\
ForeignClient { client: 1, bytes: Octets { bytes: [11, 173] } } | foreign 1 0bAD\n\
Work { job: 1 } | work 1\n\
TickServer | tick server\n\
TickClient { client: 1 } | tick 1\n\
AttachServer { client: 1 } | attach server 1\n\
AttachClient { client: 1 } | attach 1\n\
Ping { client: 1 } | ping 1\n\
Salts { client: 1, count: 4294967295 } | salts 1 4294967295\n\
DropAnswer { client: 1, call: 2 } | drop 1 2\n\
Renew { client: 1 } | renew 1\n\
End { client: 1 } | end 1\n\
Lose { client: 1 } | lose 1\n\
Restart | restart\n\
Restart | restart;\n\
Restart | # jump;;#;restart;;# no more\n";

/// A text, in which `;` stands for a newline, gives the event that is shown so.
pub(crate) fn gives(alloc: Global, text: &str, want: &str) -> Result<(), Fail> {
    let text = lines_of(alloc, text)?;
    let events = events_of(alloc, text.as_str());
    drop(text);
    let events = events?;
    let shown = is_shown(alloc, &events, want);
    drop(events);
    shown
}

/// A text with newlines for `;`.
pub(crate) fn lines_of(alloc: Global, text: &str) -> Result<String, AllocError> {
    text.replace(alloc, ";", "\n")
}

// The events of a short text.
fn events_of(alloc: Global, text: &str) -> Result<Events, Fail> {
    holds(text.len() < 100)?;
    Ok(read(alloc, text.as_bytes())?)
}

// There is one event, which is shown so.
fn is_shown(alloc: Global, events: &Events, want: &str) -> Result<(), Fail> {
    holds(events.len() == 1)?;
    shows(alloc, events.event(0), want)
}

#[test]
fn every_line(rt: HostRuntime) -> Result<(), Fail> {
    are_so(rt.alloc(), Asked::Event, EVENTS, 32)
}

// The bad line of a text, and the text.
const BAD: &str = "\
1 | jump\n\
2 | client;client x\n\
4 | client;;# a;call 1 add x 05\n\
1 |  client\n\
1 | client \n\
1 |  \n\
1 | \tclient\n\
1 | client\t\n\
2 | restart;\t;\n\
1 | give\t\t1\n\
1 | give \t1\n\
1 | give\x0b1\n\
1 | client\r;\n\
1 | \r;\n\
1 | give +1\n\
1 | give -1\n\
1 | give 18446744073709551616\n\
1 | give 1 2\n\
1 | give\n\
1 | give  1\n\
1 | give 1\x00\n\
1 | call 1 hex 123\n\
1 | call 1 hex 0g\n\
1 | call 1 hex\n\
1 | call 1 hex \n\
1 | call 1 add abcdefghijklmnopqrstuvwxyz0123456 1\n\
1 | call 1 add X 1\n\
1 | call 1 add  1\n\
1 | call 1 pad 1048577\n\
1 | call 1 pad 1 after\n\
1 | call 1 packed after 1 2\n\
1 | call 1 get x after x\n\
1 | call 1\n\
1 | clock server 1 2\n\
1 | clock one 2\n\
1 | attach client 1\n\
1 | salts 1 4294967296\n\
1 | restart 1\n\
2 | client;jump;leap\n";

// The bad line of a short text.
fn bad_line(alloc: Global, text: &str) -> Result<Option<u32>, Fail> {
    holds(text.len() < 100)?;
    match read(alloc, text.as_bytes()) {
        Ok(events) => {
            drop(events);
            Ok(None)
        }
        Err(SchedFault::BadLine { line }) => Ok(Some(line)),
        Err(SchedFault::Memory) => Err(Fail::new("out of memory")),
    }
}

/// A text has this bad line.
pub(crate) fn is_bad(alloc: Global, text: &str, want: &str) -> Result<(), Fail> {
    let lines = lines_of(alloc, text)?;
    let line = bad_line(alloc, lines.as_str());
    drop(lines);
    same_at(text, line?, Some(want.parse::<u32>()?))
}

#[test]
fn bad_lines(rt: HostRuntime) -> Result<(), Fail> {
    are_so(rt.alloc(), Asked::BadEvent, BAD, 39)
}

#[test]
fn lines_have_their_numbers(rt: HostRuntime) -> Result<(), Fail> {
    let alloc = rt.alloc();
    let events = first_or_second(alloc, b"jump", b"\n# one\nclient\n\nflush 1\n")?;
    let done = are_on_three_and_five(&events);
    drop(events);
    done?;
    same(count(alloc, b"")?, 0)?;
    same(count(alloc, b"\n")?, 0)
}

fn are_on_three_and_five(events: &Events) -> Result<(), Fail> {
    holds(events.len() == 2)?;
    same((events.line(0), events.line(1)), (3, 5))
}

// How many events a text has.
fn count(alloc: Global, text: &[u8]) -> Result<usize, Fail> {
    holds(text.len() < 100)?;
    let events = read(alloc, text)?;
    let (count, is_empty) = (events.len(), events.is_empty());
    drop(events);
    holds(is_empty == (count == 0))?;
    Ok(count)
}

#[test]
fn lines_of_calls(rt: HostRuntime) -> Result<(), Fail> {
    let alloc = rt.alloc();
    let mut lines = Lines::new(b"#\nadd x 5");
    same(lines.next().map(|(line, _)| line), Some(2))?;
    holds(lines.next().is_none())?;
    holds(call_of(alloc, b"pad 1")?.is_some())?;
    holds(call_of(alloc, b"client")?.is_none())?;
    let longest = call_of(alloc, b"pad 1048576")?.map(|call| call.body.as_slice().len());
    same(longest, Some(1_048_576))
}

#[test]
fn faults_are_told(rt: HostRuntime) -> Result<(), Fail> {
    let fault = SchedFault::BadLine { line: 7 };
    tells(rt.alloc(), &fault, "line 7 is no event")?;
    tells(rt.alloc(), &SchedFault::Memory, "out of memory")
}
