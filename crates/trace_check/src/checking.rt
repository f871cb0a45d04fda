//! The check of a text.

ghost use Rattle.std.specs.Prelude.{◌≡◌, ◌<◌, ◌^◌, ◌∷◌, ◌++◌, [], ℕ, length, IfOk, IfErr, OnOk};
ghost use Rattle.sched_text.specs.Lines.{lines_in};
ghost use Rattle.trace_check.specs.Reading.{facts_of};
ghost use Rattle.trace_check.specs.Facts.{numbers_of};
ghost use Rattle.trace_check.specs.Lawful.{IsTrace};
ghost use Rattle.trace_check.specs.Books.{IsBook, IsFault, IsFirstUnfit, IsFound, Rise};
ghost use Rattle.trace_check.specs.Answers.{IsFaultOf, IsFoundIn};

use crate::book::Book;
use crate::fact::{Fact, fact_of};
use crate::judge::{Judge, fits};
use octets::Memory;
use sched_text::Lines;
use sched_text::laws::words_are_read;
use std::alloc::Global;
use thiserror::Error;

/// What a check found.
#[derive(Clone, Copy, Debug, PartialEq, Eq)]
pub enum Checked {
    /// All six sentences hold.
    Yes,
    /// The least sentence that doesn't hold, from 1 to 6, and the least line that shows it, from 1.
    Broken { clause: u8, line: u32 },
}

/// Why a text is no trace.
#[derive(Clone, Copy, Debug, PartialEq, Eq, Error)]
pub enum CheckFault {
    /// The first line that is outside the grammar, or that may not stand where it does.
    #[error("line {line} is no fact that may stand there")]
    BadLine { line: u32 },
    /// Memory ran out.
    #[error("out of memory")]
    Memory,
}

impl From<Memory> for CheckFault {
    ghost use Rattle.std.specs.Prelude.{◌≡◌};
    ghost use Rattle.trace_check.specs.declared.checking.CheckFault.TheVariants.{Memory};

    ghost from_gives = { λ _ fault. fault ≡ Memory };

    fn from(_memory: Memory) -> CheckFault {
        CheckFault::Memory
    }
}

// What the lines of a text say, and their numbers.
#[derive(Drop)]
struct Log {
    facts: Vec<Fact>,
    lines: Vec<u32>,
}

/// Whether what clients asked and were told, and what the server executed, is that of calls that execute at
/// most once. The text has fewer than 2^32 bytes, and a fact a line: `body C N HEX`, `name C N S M`,
/// `state C N STATE`, `entry START S M HEX HEX ran` or `answer` at the end, `made S`, `left S`, `closed S`, `gone S M`.
/// The service is [`regs_service::Regs`].
///
/// # Errors
///
/// `BadLine` with the first line that is outside the grammar, is a `name` or a `state` of a call that has no
/// `body` before it, a second `state`, a name that stands before it, or a `body` that isn't its client's next or of
/// which no `state` is told. `Memory`.
pub fn check(alloc: Global, text: &[u8]) -> Result<Checked, CheckFault>
    requires { length text.now < 2 ^ 32 }
    ensures found { IfOk result (IsFoundIn text.now) }
    ensures fault { IfErr result (IsFaultOf text.now) }
{
    words_are_read();
    let log = read(alloc, text)?;
    let Log { facts, lines } = log;
    judged(alloc, facts, lines.as_slice())
}

// What is found of facts, the numbers of whose lines rise.
fn judged(alloc: Global, facts: Vec<Fact>, lines: &[u32]) -> Result<Checked, CheckFault>
    requires count { length lines.now ≡ length facts.items }
    requires rise { Rise lines.now }
    ensures trace { OnOk result (IsTrace facts.items) }
    ensures found { IfOk result (IsFound facts.items lines.now) }
    ensures fault { IfErr result (IsFault facts.items lines.now) }
{
    let book = Book::new(alloc, facts)?;
    match first_unfit(&book) {
        Some(place) => Err(CheckFault::BadLine { line: lines[place] }),
        None => {
            let checked = found(alloc, book, lines)?;
            Ok(checked)
        }
    }
}

// What is found of facts in which there is no bad line.
fn found(alloc: Global, book: Book, lines: &[u32]) -> Result<Checked, Memory>
    requires book { IsBook book }
    requires trace { IsTrace book.facts.items }
    requires count { length lines.now ≡ length book.facts.items }
    requires rise { Rise lines.now }
    ensures { IfOk result (IsFound book.facts.items lines.now) }
{
    let judge = Judge::new(alloc, book)?;
    match judge.first_break() {
        Some((sentence, place)) => Ok(Checked::Broken {
            clause: sentence.number(),
            line: lines[place],
        }),
        None => Ok(Checked::Yes),
    }
}

// Reads the lines of a text.
fn read(alloc: Global, text: &[u8]) -> Result<Log, Memory>
    requires { length text.now < 2 ^ 32 }
    ensures facts { IfOk result (λ log. log.facts.items ≡ facts_of (lines_in text.now)) }
    ensures lines { IfOk result (λ log. log.lines.items ≡ numbers_of (lines_in text.now)) }
{
    let mut log = Log {
        facts: Vec::new(alloc),
        lines: Vec::new(alloc),
    };
    let mut lines = Lines::new(text);
    while let Some((line, words)) = lines.next() {
        let fact = fact_of(alloc, words)?;
        append(&mut log, fact, line)?;
    }
    Ok(log)
}

// Puts a fact and the number of its line at the end.
fn append(log: &mut Log, fact: Fact, line: u32) -> Result<(), Memory>
    ensures facts { OnOk result (log.new.facts.items ≡ log.old.facts.items ++ fact ∷ []) }
    ensures lines { OnOk result (log.new.lines.items ≡ log.old.lines.items ++ line ∷ []) }
{
    log.facts.push(fact)?;
    log.lines.push(line)?;
    Ok(())
}

// The first place at which a fact may not stand.
fn first_unfit(book: &Book) -> Option<usize>
    requires { IsBook book.now }
    ensures { IsFirstUnfit book.now.facts.items result }
{
    for place in 0..book.facts.len() {
        if !fits(book, place) {
            return Some(place);
        }
    }
    None
}
