//! Salts of a session: worked rows, as steps that a line does one after the other, and callers' tries.

ghost use Rattle.std.specs.Prelude.{◌≡◌, ◌≤◌, ◌<◌, IfOk, IsTrue};

use crate::steps::{Step, gives, number, step_of};
use draws::{Draw, StepDraw};
use msg_ids::Moment;
use octets::Memory;
use salt_line::laws::current_salts_are_valid;
use salt_line::{SaltLine, SaltRow};
use std::alloc::{AllocError, Global};
use std::test::Fail;
use test_asserts::{holds, same};

const NO_ROW: SaltRow = SaltRow {
    since: 0,
    until: 0,
    salt: 0,
};

// Whether a line judges a salt as valid, as 1 or 0.
fn judges(line: &SaltLine, alloc: Global, now: Moment, step: Step<'_>) -> Result<(), Fail>
    requires { line.now.latest ≤ now }
{
    let judged = line.judge(now, step.numbers[1]);
    gives(step, number(alloc, u64::from(judged))?.as_str())
}

// The current salt of a line.
fn current(
    line: &mut SaltLine,
    draw: &mut StepDraw,
    alloc: Global,
    now: Moment,
    step: Step<'_>,
) -> Result<(), Fail>
    requires { line.old.latest ≤ now }
    ensures { line.new.latest ≡ now }
{
    let current = line.current(now, draw);
    gives(step, number(alloc, current)?.as_str())
}

// How many rows a line tells at a moment where as many as the second number says are asked for, and those of them from the place of
// the third number up to that of the fourth.
fn future(
    line: &mut SaltLine,
    draw: &mut StepDraw,
    alloc: Global,
    now: Moment,
    step: Step<'_>,
) -> Result<(), Fail>
    requires { line.old.latest ≤ now }
    ensures { line.new.latest ≡ now }
{
    let mut rows = [NO_ROW; 64];
    let count = line.future(now, step.numbers[1] as usize, draw, &mut rows);
    gives(step, told(alloc, count, &rows, step)?.as_str())
}

// How many rows there are, and those of them that a step asks for.
fn told(alloc: Global, count: usize, rows: &[SaltRow], step: Step<'_>) -> Result<String, Fail> {
    let [_, _, from, to] = step.numbers;
    let rows = rows.get(from as usize..to as usize).ok_or("no such rows")?;
    let mut text = format!(in alloc; "{count}")?;
    for row in rows {
        text.push_str(row_told(alloc, row)?.as_str())?;
    }
    Ok(text)
}

// From when and until when a row is valid, and its salt.
fn row_told(alloc: Global, row: &SaltRow) -> Result<String, AllocError> {
    let (since, until, salt) = (row.since, row.until, row.salt);
    format!(in alloc; ", {since} {until} {salt}")
}

// A step of a line that was given no moment behind this one; the latest that it was given then.
fn done(
    line: &mut SaltLine,
    draw: &mut StepDraw,
    alloc: Global,
    latest: u64,
    step: Step<'_>,
) -> Result<u64, Fail>
    requires { line.old.latest ≤ latest }
    ensures { IfOk result (λ latest. line.new.latest ≤ latest) }
{
    let now = Moment::new(step.numbers[0]);
    if now.seconds() < latest {
        return Err(Fail::new("too early"));
    }
    if step.verb == "judge" {
        judges(line, alloc, now, step)?;
        return Ok(latest);
    }
    match step.verb {
        "current" => current(line, draw, alloc, now, step)?,
        "future" => future(line, draw, alloc, now, step)?,
        _ => return Err(Fail::new("no step")),
    }
    Ok(now.seconds())
}

// The steps of a table, of a line that was given no moment behind this one.
fn plays_all(line: &mut SaltLine, alloc: Global, start: u64, table: &str) -> Result<(), Fail>
    requires { line.old.latest ≤ start }
{
    let mut draw = StepDraw::new();
    let mut latest = start;
    for row in table.lines() {
        latest = done(line, &mut draw, alloc, latest, step_of(row)?)?;
    }
    Ok(())
}

// The same, of a line of salt 7 that begins at this moment.
fn are_done(alloc: Global, start: u64, table: &str) -> Result<(), Fail> {
    let start = Moment::new(start);
    let mut line = SaltLine::new(alloc, start, 7)?;
    let done = plays_all(&mut line, alloc, start.seconds(), table);
    drop(line);
    done
}

const FIRST: &str = "\
judge 1000 7 = 1\n\
judge 4599 7 = 1\n\
judge 4600 7 = 0\n\
judge 1000 0 = 0\n\
judge 1000 8 = 0\n";

#[test]
fn first_salt_is_valid_for_an_hour(rt: HostRuntime) -> Result<(), Fail> {
    are_done(rt.alloc(), 1_000, FIRST)
}

// Its periods begin at 0, 1,800, 3,600 and 5,400. The words of a `StepDraw` are 6364136223846793005 times 1 to 4, modulo 2^64.
const IN_ORDER_OF_NEED: &str = "\
current 1799 = 7\n\
current 1800 = 6364136223846793005\n\
current 3599 = 6364136223846793005\n\
current 3600 = 12728272447693586010\n\
judge 5399 6364136223846793005 = 1\n\
judge 5400 6364136223846793005 = 0\n\
future 3600 2 0 3 = 2, 3600 7200 12728272447693586010, 5400 9000 645664597830827399, 0 0 0\n";

#[test]
fn words_in_order_of_need(rt: HostRuntime) -> Result<(), Fail> {
    are_done(rt.alloc(), 0, IN_ORDER_OF_NEED)
}

// At 100,000 the periods that begin at 99,000 and 100,800 come first.
const DRAWN_AHEAD: &str = "\
future 1799 3 0 3 = 3, 0 3600 7, 1800 5400 6364136223846793005, 3600 7200 12728272447693586010\n\
current 3600 = 12728272447693586010\n\
current 100000 = 645664597830827399\n\
future 100000 100 1 2 = 64, 100800 104400 7009800821677620404\n";

#[test]
fn rows_drawn_ahead(rt: HostRuntime) -> Result<(), Fail> {
    are_done(rt.alloc(), 0, DRAWN_AHEAD)
}

// What a server session does with its salts: it gives the current one to a client, and judges a packet that comes with
// it while it is the current one.
fn gives_and_judges<D: Draw>(alloc: Global, draw: &mut D) -> Result<bool, Memory>
    ensures { IfOk result (λ valid. IsTrue valid) }
{
    current_salts_are_valid::<D>();
    let first = draw.word();
    let mut line = SaltLine::new(alloc, Moment::new(1_000), first)?;
    let at = Moment::new(2_800);
    let salt = line.current(at, draw);
    Ok(salt == 0 || line.judge(at, salt))
}

// What a server session does with its salts: it asks for the current one, takes a packet, hands out rows, is copied.
fn salts_of_a_session<D: Draw>(alloc: Global, draw: &mut D) -> Result<usize, Memory>
    ensures { IfOk result (λ count. count ≡ 4) }
{
    let first = draw.word();
    let mut line = SaltLine::new(alloc, Moment::new(1_000), first)?;
    let salt = line.current(Moment::new(1_000), draw);
    let _ = line.judge(Moment::new(2_800), salt);
    let later = line.current(Moment::new(2_800), draw);
    let mut rows = [NO_ROW; 64];
    let count = line.future(Moment::new(2_801), 4, draw, &mut rows);
    let copied = line.copy(alloc)?;
    let _ = copied.judge(Moment::new(2_801), later);
    Ok(count)
}

#[test]
fn a_session(rt: HostRuntime) -> Result<(), Fail> {
    holds(gives_and_judges(rt.alloc(), &mut StepDraw::new())?)?;
    same(salts_of_a_session(rt.alloc(), &mut StepDraw::new())?, 4)?;
    Ok(())
}
