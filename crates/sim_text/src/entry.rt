//! The line of an entry.

ghost use Rattle.std.specs.Prelude.{◌≡◌, ◌++◌, List, OnOk, OnErr, length, take};
ghost use Rattle.world_rules.specs.World.{Entered, Seat};
ghost use Rattle.world_rules.specs.Report.{entry_line, run_word};
ghost use Rattle.sim_text.specs.Entries.{IsLineOf};

use crate::number::push_number;
use crate::reply::push_reply;
use octets::{Memory, Octets};
use std::alloc::Global;

/// What a line tells of an entry.
#[derive(Clone, Copy, Debug, PartialEq, Eq)]
pub struct EntryLine<'a> {
    /// The start of the server in which it was made, counted from 1.
    pub start: u64,
    /// The client whose session number it has, counted from 1, or 0 where it is nobody's.
    pub client: u64,
    /// The call's message identifier.
    pub number: u64,
    /// The content of the answer.
    pub reply: &'a [u8],
    /// Whether the service ran.
    pub ran: bool,
}

/// Puts the line of an entry behind a text.
///
/// # Errors
///
/// `Memory`, and then the text is as it was.
pub fn entry_line(alloc: Global, into: &mut Octets, entry: &EntryLine<'_>) -> Result<(), Memory>
    ensures told { (seats : List Seat) (entered : Entered) → IsLineOf entry.now seats entered → OnOk result (into.new ≡ into.old ++ entry_line seats entered) }
    ensures behind { take (length into.old) into.new ≡ into.old }
    ensures unchanged_on_memory { OnErr result (into.new ≡ into.old) }
{
    let mut text = Octets::new(alloc);
    push_entry(alloc, &mut text, entry)?;
    into.push_all(alloc, text.as_slice())
}

/// Puts the line of an entry behind a text.
fn push_entry(alloc: Global, text: &mut Octets, entry: &EntryLine<'_>) -> Result<(), Memory>
    ensures { (seats : List Seat) (entered : Entered) → IsLineOf entry.now seats entered → OnOk result (text.new ≡ text.old ++ entry_line seats entered) }
{
    text.push_all(alloc, run_word(entry.ran).as_bytes())?;
    push_number(alloc, text, entry.start)?;
    text.push_all(alloc, b" ")?;
    push_number(alloc, text, entry.client)?;
    text.push_all(alloc, b" ")?;
    push_number(alloc, text, entry.number)?;
    text.push_all(alloc, b" ")?;
    push_reply(alloc, text, entry.reply)?;
    text.push_all(alloc, b"\n")
}

/// The word in front of an entry.
fn run_word(ran: bool) -> &'static str
    ensures { result.now ≡ run_word ran }
{
    if ran { "run " } else { "answer " }
}
