//! A trace's bytes to the line that is due to them.

ghost use Rattle.std.specs.Prelude.{◌≡◌, ◌≤◌, [], Some, Err, length, IfOk, IfSome};
ghost use Rattle.mt_edge.specs.Faults.{Rose};
ghost use Rattle.statuses.specs.Lines.{input_bytes_max};
ghost use Rattle.statuses.specs.declared.status.Status.TheVariants as status;
ghost use Rattle.cmd_check.specs.Check.{IsOfCheck, Owes, broken_line};

use itoa::Buffer;
use mt_edge::{ReadFault, Source, read_all};
use octets::{Memory, Octets};
use statuses::{Answer, INPUT_BYTES_MAX, Status, Stop, bad_line, too_long};
use std::alloc::Global;
use trace_check::{CheckFault, Checked, check};

/// Reads a trace to its end and answers what is found of it, or its refusal.
pub(crate) fn answer<S: Source>(alloc: Global, input: &mut S) -> Result<Answer, Stop>
    ensures status { IfOk result (λ answer. IsOfCheck answer.status) }
    ensures answered { IfOk result (λ answer. IfSome (S.left input.old) (λ left. Owes left answer.status answer.text)) }
    ensures done_at_the_end { IfOk result (λ answer. answer.status ≡ status.Done → IfSome (S.left input.old) (λ _. S.left input.new ≡ Some [])) }
    ensures broken_at_the_end { IfOk result (λ answer. answer.status ≡ status.Broken → IfSome (S.left input.old) (λ _. S.left input.new ≡ Some [])) }
    ensures done_no_fault { IfOk result (λ answer. answer.status ≡ status.Done → S.faults input.new ≡ S.faults input.old) }
    ensures broken_no_fault { IfOk result (λ answer. answer.status ≡ status.Broken → S.faults input.new ≡ S.faults input.old) }
    ensures read_fault { result ≡ Err Stop.ReadFault → Rose (S.faults input.old) (S.faults input.new) }
{
    match read_all(alloc, input, INPUT_BYTES_MAX) {
        Ok(text) => Ok(answer_to(alloc, text.as_slice())?),
        Err(ReadFault::TooLong) => Ok(too_long(alloc)?),
        Err(ReadFault::Failed) => Err(Stop::ReadFault),
        Err(ReadFault::Memory) => Err(Stop::Memory),
    }
}

/// The answer to the bytes of a trace.
fn answer_to(alloc: Global, text: &[u8]) -> Result<Answer, Memory>
    requires { length text.now ≤ input_bytes_max }
    ensures status { IfOk result (λ answer. IsOfCheck answer.status) }
    ensures owed { IfOk result (λ answer. Owes text.now answer.status answer.text) }
{
    match check(alloc, text) {
        Ok(Checked::Yes) => Answer::new(alloc, Status::Done, b"yes\n"),
        Ok(Checked::Broken { clause, line }) => broken(alloc, clause, line),
        Err(CheckFault::BadLine { line }) => bad_line(alloc, line),
        Err(CheckFault::Memory) => Err(Memory),
    }
}

/// A sentence doesn't hold, which a line shows.
fn broken(alloc: Global, clause: u8, line: u32) -> Result<Answer, Memory>
    ensures status { IfOk result (λ answer. answer.status ≡ status.Broken) }
    ensures text { IfOk result (λ answer. answer.text ≡ broken_line clause line) }
{
    let mut text = Octets::new(alloc);
    let mut buffer = Buffer::new();
    text.push_all(alloc, b"broken ")?;
    text.push_all(alloc, buffer.format(clause).as_bytes())?;
    text.push_all(alloc, b" at line ")?;
    text.push_all(alloc, buffer.format(line).as_bytes())?;
    text.push_all(alloc, b"\n")?;
    Ok(Answer {
        status: Status::Broken,
        text,
    })
}
