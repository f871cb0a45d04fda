//! What tests assert, each by one call that fails where it doesn't hold, which is proved here once: `assert!` and `assert_eq!` of
//! std are code that is proved anew at each place where they stand. A failure shows what was found and what was wanted, of each
//! up to 240 bytes, as it holds no more than 512; texts of many lines are compared by `same_text`, which shows where they part.
#![tactic(auto)]

ghost use Rattle.std.specs.Prelude.{IsFalse, IsTrue, OnErr, OnOk};

use std::alloc::{AllocError, Global};
use std::fmt::{Debug, Display, InlineText};
use std::test::Fail;

/// A value is the one that is wanted.
///
/// # Errors
///
/// Where the two differ; the failure shows both.
pub fn same<T: PartialEq + Debug + Drop>(found: T, wanted: T) -> Result<(), Fail> {
    if found == wanted {
        return Ok(());
    }
    let (found, wanted) = (front::<240, T>(&found), front::<240, T>(&wanted));
    Err(Fail::new(format_args!("found:  {}\nwanted: {}", found.as_str(), wanted.as_str())))
}

// A value as `{:?}` shows it, up to so many bytes.
fn front<const N: usize, T: Debug>(value: &T) -> InlineText<N> {
    InlineText::of(format_args!("{value:?}"))
}

/// The same for a row of a table, which is shown too.
///
/// # Errors
///
/// Where the two differ; the failure shows the row and both.
pub fn same_at<P: Debug + Drop, T: PartialEq + Debug + Drop>(
    row: P,
    found: T,
    wanted: T,
) -> Result<(), Fail> {
    if found == wanted {
        return Ok(());
    }
    let row = front::<80, P>(&row);
    let (found, wanted) = (front::<200, T>(&found), front::<200, T>(&wanted));
    Err(Fail::new(format_args!(
        "at {}\nfound:  {}\nwanted: {}",
        row.as_str(),
        found.as_str(),
        wanted.as_str()
    )))
}

/// A fact holds.
///
/// # Errors
///
/// Where it doesn't.
pub fn holds(fact: bool) -> Result<(), Fail>
    ensures holds { OnOk result (IsTrue fact) }
    ensures fails { OnErr result (IsFalse fact) }
{
    if fact {
        return Ok(());
    }
    Err(Fail::new("a fact that is asserted doesn't hold"))
}

/// The same for a row of a table, which is shown.
///
/// # Errors
///
/// Where it doesn't hold; the failure shows the row.
pub fn holds_at<P: Debug + Drop>(row: P, fact: bool) -> Result<(), Fail>
    ensures holds { OnOk result (IsTrue fact) }
    ensures fails { OnErr result (IsFalse fact) }
{
    if fact {
        return Ok(());
    }
    Err(Fail::new(format_args!("a fact that is asserted doesn't hold at {row:?}")))
}

/// What a row of a table has before a mark and behind it.
///
/// # Errors
///
/// Where the mark isn't in it; the failure shows the row.
pub fn cut<'a>(row: &'a str, mark: &str) -> Result<(&'a str, &'a str), Fail> {
    match row.split_once(mark) {
        Some(both) => Ok(both),
        None => Err(Fail::new(format_args!("no {mark:?} at {row:?}"))),
    }
}

/// A value as `{}` tells it.
///
/// # Errors
///
/// Where there is no memory.
pub fn told<T: Display>(alloc: Global, value: &T) -> Result<String, AllocError> {
    format!(in alloc; "{value}")
}

/// A value as `{:?}` shows it.
///
/// # Errors
///
/// Where there is no memory.
pub fn shown<T: Debug>(alloc: Global, value: &T) -> Result<String, AllocError> {
    format!(in alloc; "{value:?}")
}

/// A value is told so by `{}`.
///
/// # Errors
///
/// Where it isn't, or there is no memory.
pub fn tells<T: Display>(alloc: Global, value: &T, wanted: &str) -> Result<(), Fail> {
    same(told(alloc, value)?.as_str(), wanted)
}

/// A value is shown so by `{:?}`.
///
/// # Errors
///
/// Where it isn't, or there is no memory.
pub fn shows<T: Debug>(alloc: Global, value: &T, wanted: &str) -> Result<(), Fail> {
    same(shown(alloc, value)?.as_str(), wanted)
}

/// A text of many lines is the one that is wanted.
///
/// # Errors
///
/// Where the two differ; the failure shows the number of the first line at which they do, and that line of both.
pub fn same_text(found: &str, wanted: &str) -> Result<(), Fail> {
    if found == wanted {
        return Ok(());
    }
    let mut others = wanted.lines();
    let mut line = 0u64;
    for found in found.lines() {
        line = line.saturating_add(1);
        let other = others.next();
        if other != Some(found) {
            return same_at(line, Some(found), other);
        }
    }
    same_at(line.saturating_add(1), None, others.next())?;
    Err(Fail::new("only the ends of lines differ"))
}
