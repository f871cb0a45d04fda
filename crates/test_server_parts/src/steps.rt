//! Steps of a table, one a line: a word, numbers behind it, and what it gives behind ` = `. What plays them is owned in one place,
//! and a step is a function that gives a text, empty where nothing is told.

use std::alloc::{AllocError, Global};
use std::fmt::{Debug, Display};
use std::test::Fail;
use test_asserts::{same_at, shown, told};

/// A step: its word, its first four numbers, 0 where there are fewer, and what it is to give.
#[derive(Clone, Copy)]
pub(crate) struct Step<'a> {
    pub(crate) line: &'a str,
    pub(crate) verb: &'a str,
    pub(crate) numbers: [u64; 4],
    pub(crate) gives: &'a str,
}

/// What plays steps, one after the other.
pub(crate) trait Plays: Sized {
    /// It has played none so far.
    fn begun(alloc: Global) -> Result<Self, Fail>;

    /// Plays a step: what it gives.
    fn played(&mut self, alloc: Global, step: Step<'_>) -> Result<String, Fail>;
}

fn decimal(word: &str) -> Result<u64, Fail> {
    match word.parse::<u64>() {
        Ok(number) => Ok(number),
        Err(_) => Err(Fail::new("no number")),
    }
}

// A number; behind the seconds of a message identifier stands an `s`, and then the rest of it.
fn number_of(word: &str) -> Result<u64, Fail> {
    let Some((seconds, rest)) = word.split_once('s') else {
        return decimal(word);
    };
    let seconds = decimal(seconds)?.wrapping_mul(4_294_967_296);
    Ok(seconds.wrapping_add(decimal(rest)?))
}

// The first of these numbers, 0 where there is none, and the words behind it.
fn next(words: &str) -> Result<(u64, &str), Fail> {
    if words.is_empty() {
        return Ok((0, words));
    }
    match words.split_once(' ') {
        Some((word, left)) => Ok((number_of(word)?, left)),
        None => Ok((number_of(words)?, "")),
    }
}

// Four numbers, 0 where there are fewer.
fn numbers_of(words: &str) -> Result<[u64; 4], Fail> {
    let (first, words) = next(words)?;
    let (second, words) = next(words)?;
    let (third, words) = next(words)?;
    let (fourth, words) = next(words)?;
    if !words.is_empty() {
        return Err(Fail::new("more than four numbers"));
    }
    Ok([first, second, third, fourth])
}

/// The step of a line.
pub(crate) fn step_of(line: &str) -> Result<Step<'_>, Fail> {
    let (asked, gives) = line.split_once(" = ").unwrap_or((line, ""));
    let (verb, words) = asked.split_once(' ').unwrap_or((asked, ""));
    Ok(Step {
        line,
        verb,
        numbers: numbers_of(words)?,
        gives,
    })
}

/// So many zeros. No contract says how many, as a long list with a known length is computed by all that looks at it.
pub(crate) fn zeros(alloc: Global, count: usize) -> Result<Vec<u8>, AllocError> {
    vec![in alloc; 0u8; count]
}

/// A value takes the place of another, which is let go of here: a generic function proves that once for each type.
pub(crate) fn put<T: Drop>(place: &mut T, value: T) {
    drop(std::mem::replace(place, value));
}

// Plays the step of a line; `new` begins anew.
fn play<T: Plays + Drop>(played: &mut T, alloc: Global, line: &str) -> Result<(), Fail> {
    let step = step_of(line)?;
    if step.verb == "new" {
        put(played, T::begun(alloc)?);
        return Ok(());
    }
    gives(step, played.played(alloc, step)?.as_str())
}

/// A step gives what it is to give.
pub(crate) fn gives(step: Step<'_>, told: &str) -> Result<(), Fail> {
    same_at(step.line, told, step.gives)
}

fn play_all<T: Plays + Drop>(played: &mut T, alloc: Global, table: &str) -> Result<(), Fail> {
    for line in table.lines() {
        play(played, alloc, line)?;
    }
    Ok(())
}

/// Each step of a table, from the beginning on, gives what it is to give.
pub(crate) fn are_played<T: Plays + Drop>(alloc: Global, table: &str) -> Result<(), Fail> {
    let mut played = T::begun(alloc)?;
    let done = play_all(&mut played, alloc, table);
    drop(played);
    done
}

/// What tells nothing.
pub(crate) fn nothing(alloc: Global) -> Result<String, Fail> {
    Ok(String::new(alloc))
}

/// A value as `{}` tells it.
pub(crate) fn tell<T: Display>(alloc: Global, value: &T) -> Result<String, Fail> {
    Ok(told(alloc, value)?)
}

/// A value as `{:?}` shows it.
pub(crate) fn show<T: Debug>(alloc: Global, value: &T) -> Result<String, Fail> {
    Ok(shown(alloc, value)?)
}

/// A number as a step gives it.
pub(crate) fn number(alloc: Global, number: u64) -> Result<String, Fail> {
    Ok(format!(in alloc; "{number}")?)
}

/// Two numbers as a step gives them.
pub(crate) fn pair(alloc: Global, first: u64, second: u64) -> Result<String, Fail> {
    Ok(format!(in alloc; "{first} {second}")?)
}
