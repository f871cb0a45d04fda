//! Rows of tables: what is asked of bytes, their hexadecimal digits, and the answer.

use crate::{items, texts, unfolded};
use std::alloc::Global;
use std::test::Fail;
use test_asserts::{cut, same, same_at};
use test_lines::bytes_of;

/// The rows of a table, so many, have the answers that stand in them.
pub(crate) fn are_so(alloc: Global, rows: &str, count: usize) -> Result<(), Fail> {
    same(rows.lines().count(), count)?;
    for row in rows.lines() {
        is_so(alloc, row)?;
    }
    Ok(())
}

// A row has the answer that stands in it.
fn is_so(alloc: Global, row: &str) -> Result<(), Fail> {
    let (asked, rest) = cut(row, " ")?;
    let (digits, want) = cut(rest, " ")?;
    let bytes = bytes_of(alloc, digits)?;
    let found = answer(alloc, asked, bytes.as_slice());
    drop(bytes);
    same_at(row, found?.as_str(), want)
}

fn answer(alloc: Global, asked: &str, bytes: &[u8]) -> Result<String, Fail> {
    match asked {
        "again" => items::again(alloc, bytes),
        "read" => items::read(alloc, bytes),
        "anew" => items::anew(alloc, bytes),
        "fault" => unfolded::fault(alloc, bytes),
        "string" => texts::string(alloc, bytes),
        "truth" => texts::truth(alloc, bytes),
        "list" => texts::refused_list(alloc, bytes),
        _ => Err(Fail::new("no such question")),
    }
}
