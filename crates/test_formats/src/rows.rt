//! Rows of tables, each what is due, and what it is due for.

use crate::{bindings, feeding, rings, schedules, scripts, starts, sums, words};
use std::alloc::Global;
use std::test::Fail;
use test_asserts::{cut, same};

/// What the rows of a table are of.
#[derive(Clone, Copy)]
pub(crate) enum Asked {
    /// Answers to bindings.
    Binding,
    /// Rings, and faults of their texts.
    Ring,
    /// Events of lines.
    Event,
    /// Numbers of lines that are no event.
    BadEvent,
    /// Numbers of lines that are no call.
    BadCall,
    /// What words say.
    Words,
    /// Words that are refused.
    Refused,
    /// Checks of 32 bits.
    Check,
    /// First bytes of starts.
    Start,
    /// Streams of abridged frames.
    Short,
    /// Streams of full frames.
    Full,
    /// Streams of intermediate frames.
    Intermediate,
    /// Streams of padded frames.
    Padded,
}

/// The rows of a table, so many, give what is due.
pub(crate) fn are_so(alloc: Global, asked: Asked, rows: &str, count: usize) -> Result<(), Fail> {
    same(rows.lines().count(), count)?;
    for row in rows.lines() {
        let (due, given) = cut(row, " | ")?;
        is_so(alloc, asked, given, due)?;
    }
    Ok(())
}

fn is_so(alloc: Global, asked: Asked, given: &str, due: &str) -> Result<(), Fail> {
    match asked {
        Asked::Binding => bindings::is_answered(alloc, given, due),
        Asked::Ring => rings::is_counted(alloc, given, due),
        Asked::Event => schedules::gives(alloc, given, due),
        Asked::BadEvent => schedules::is_bad(alloc, given, due),
        Asked::BadCall => scripts::is_bad(alloc, given, due),
        Asked::Words => words::says(alloc, given, due),
        Asked::Refused => words::is_refused(alloc, given, due),
        Asked::Check => sums::has_check(alloc, given, due),
        Asked::Start => starts::begins(alloc, given, due),
        Asked::Short => feeding::gives::<frame_short::Deframer>(alloc, false, given, due),
        Asked::Full => feeding::gives::<frame_full::Deframer>(alloc, false, given, due),
        Asked::Intermediate => feeding::gives::<frame_len::Deframer>(alloc, false, given, due),
        Asked::Padded => feeding::gives::<frame_len::Deframer>(alloc, true, given, due),
    }
}
