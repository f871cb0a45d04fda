//! What a run writes.

ghost use Rattle.std.specs.Prelude.{◌≡◌, ◌++◌, IfOk, IfSome, List, Some, ℕ};
ghost use Rattle.statuses.specs.Outside.{Tells};
ghost use Rattle.cmd_serve.specs.Lines.{last_line, listening, numbered};
ghost use Rattle.cmd_serve.specs.declared.ending.Ending.TheVariants.{Served};

use itoa::Buffer;
use mt_edge::{Sink, WriteFault, write_all};
use octets::{Memory, Octets};
use statuses::Status;
use std::alloc::Global;

/// What is written where a journal can't be opened or kept.
pub(crate) const JOURNAL_FAULT: &[u8; 14] = b"journal fault\n";

/// The first line of a run, and the last one where all connections are served.
#[derive(Drop)]
pub(crate) struct Lines {
    /// On which port connections are taken.
    pub(crate) first: Octets,
    /// How many connections were served.
    pub(crate) last: Octets,
}

/// The lines of a run.
///
/// # Errors
///
/// `Memory`.
pub(crate) fn lines_of(alloc: Global, port: u16, conns: u32) -> Result<Lines, Memory>
    ensures first { IfOk result (λ lines. lines.first ≡ listening port) }
    ensures last { IfOk result (λ lines. lines.last ≡ last_line conns Served) }
{
    let first = numbered(alloc, b"listening ", u32::from(port))?;
    let last = numbered(alloc, b"served ", conns)?;
    Ok(Lines { first, last })
}

/// A number with words in front of it, as a line.
fn numbered(alloc: Global, words: &[u8], number: u32) -> Result<Octets, Memory>
    ensures { IfOk result (λ text. text ≡ numbered words.now number) }
{
    let mut text = Octets::copy(alloc, words)?;
    let mut buffer = Buffer::new();
    text.push_all(alloc, buffer.format(number).as_bytes())?;
    text.push_all(alloc, b"\n")?;
    Ok(text)
}

/// Writes a text, and answers how the run ends: by this status, or by `WriteFault`, where a front of the text is written.
pub(crate) fn say<O: Sink>(out: &mut O, status: Status, text: &[u8]) -> Status
    ensures { Tells (record { told = O.written; faults = O.faults; before = out.old; after = out.new }) status text.now result }
{
    match write_all(out, text) {
        Ok(()) => status,
        Err(WriteFault) => Status::WriteFault,
    }
}
