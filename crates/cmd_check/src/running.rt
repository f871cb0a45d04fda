//! The command, from its input to what it writes.

ghost use Rattle.cmd_check.specs.Runs.{CheckRun};

use crate::answering::answer;
use mt_edge::{Sink, Source};
use statuses::{Status, Stop, tell};
use std::alloc::Global;
use trace_check::laws::one_answer;

/// Reads a trace to its end and writes `yes`, or `broken K at line N`, the first of the six sentences that doesn't hold and the
/// first line that shows it.
///
/// `Done`: `yes` is written. `Broken`: the other line is. `InputRefused`: the input is refused, with the line and the cause.
/// `ReadFault`, `WriteFault`, `Memory`.
pub fn run_check<S: Source, O: Sink>(alloc: Global, input: &mut S, out: &mut O) -> Status
    ensures { CheckRun
        (record { told = S.left; faults = S.faults; before = input.old; after = input.new })
        (record { told = O.written; faults = O.faults; before = out.old; after = out.new }) result }
{
    one_answer();
    match answer(alloc, input) {
        Ok(answer) => tell(out, &answer),
        Err(Stop::ReadFault) => Status::ReadFault,
        Err(Stop::Memory) => Status::Memory,
    }
}
