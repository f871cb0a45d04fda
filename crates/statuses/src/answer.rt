//! What is due, before it is written.

ghost use Rattle.std.specs.Prelude.{◌≡◌, IfOk};
ghost use Rattle.statuses.specs.Lines.{bad_line, refusal_line, too_long};
ghost use Rattle.statuses.specs.Outside.{Tells};

use crate::status::Status;
use itoa::Buffer;
use mt_edge::{Sink, WriteFault, write_all};
use octets::{Memory, Octets};
use std::alloc::Global;
use thiserror::Error;

/// A status and the text that is due for it.
#[derive(Debug, Drop)]
pub struct Answer {
    /// How the run ends once the text is written.
    pub status: Status,
    /// The text.
    pub text: Octets,
}

impl Answer {
    /// An answer of a text.
    ///
    /// # Errors
    ///
    /// `Memory`.
    pub fn new(alloc: Global, status: Status, text: &[u8]) -> Result<Answer, Memory>
        ensures status { IfOk result (λ answer. answer.status ≡ status) }
        ensures text { IfOk result (λ answer. answer.text ≡ text.now) }
    {
        Ok(Answer {
            status,
            text: Octets::copy(alloc, text)?,
        })
    }
}

/// Why there is no answer.
#[derive(Clone, Copy, Debug, PartialEq, Eq, Error)]
pub enum Stop {
    /// A read of the input failed.
    #[error("a read of the input failed")]
    ReadFault,
    /// Memory ran out.
    #[error("out of memory")]
    Memory,
}

impl From<Memory> for Stop {
    ghost use Rattle.std.specs.Prelude.{◌≡◌};
    ghost use Rattle.statuses.specs.declared.answer.Stop.TheVariants.{Memory};

    ghost from_gives = { λ _ stop. stop ≡ Memory };

    fn from(_memory: Memory) -> Stop {
        Stop::Memory
    }
}

/// The most bytes of an input.
pub const INPUT_BYTES_MAX: usize = 16_777_216;

/// The answer where an input has more.
///
/// # Errors
///
/// `Memory`.
pub fn too_long(alloc: Global) -> Result<Answer, Memory>
    ensures status { IfOk result (λ answer. answer.status ≡ Status.InputRefused) }
    ensures text { IfOk result (λ answer. answer.text ≡ too_long) }
{
    Answer::new(alloc, Status::InputRefused, b"input too long\n")
}

/// The answer where this line of the input, from 1, is outside its grammar.
///
/// # Errors
///
/// `Memory`.
pub fn bad_line(alloc: Global, line: u32) -> Result<Answer, Memory>
    ensures status { IfOk result (λ answer. answer.status ≡ Status.InputRefused) }
    ensures text { IfOk result (λ answer. answer.text ≡ bad_line line) }
{
    refusal(alloc, Status::InputRefused, line, "bad line")
}

/// The answer where a line of the input is refused: its number, from 1, and the cause.
///
/// # Errors
///
/// `Memory`.
pub fn refusal(alloc: Global, status: Status, line: u32, cause: &str) -> Result<Answer, Memory>
    ensures status { IfOk result (λ answer. answer.status ≡ status) }
    ensures text { IfOk result (λ answer. answer.text ≡ refusal_line line cause.now) }
{
    let mut text = Octets::new(alloc);
    let mut buffer = Buffer::new();
    text.push_all(alloc, b"refused at line ")?;
    text.push_all(alloc, buffer.format(line).as_bytes())?;
    text.push_all(alloc, b": ")?;
    text.push_all(alloc, cause.as_bytes())?;
    text.push_all(alloc, b"\n")?;
    Ok(Answer { status, text })
}

/// Writes the text of an answer, and answers how the run ends: by the answer's status, or by `WriteFault`, where a front of
/// the text is written, short of the whole.
pub fn tell<O: Sink>(out: &mut O, answer: &Answer) -> Status
    ensures { Tells (record { told = O.written; faults = O.faults; before = out.old; after = out.new }) answer.now.status answer.now.text result }
{
    match write_all(out, answer.text.as_slice()) {
        Ok(()) => answer.status,
        Err(WriteFault) => Status::WriteFault,
    }
}
