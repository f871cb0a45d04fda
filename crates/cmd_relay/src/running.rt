//! The command, from its input to what it writes.

ghost use Rattle.std.specs.Prelude.{◌≢◌};
ghost use Rattle.transport.specs.declared.form.Form.TheVariants.{Full};
ghost use Rattle.cmd_relay.specs.Runs.{RelayRun};

use crate::laws::one_answer;
use crate::passing::relay;
use mt_edge::{Sink, Source};
use secret_relay::Form;
use statuses::{Status, Stop, tell};
use std::alloc::Global;

/// Reads a capture to its end, turns it into plain framing of the form and writes a line for each of its lines. The form
/// isn't the full one.
///
/// `Done`: the lines are written. `InputRefused`: the input is refused, with the line and the cause. `ReadFault`,
/// `WriteFault`, `Memory`.
pub fn run_relay<S: Source, O: Sink>(
    alloc: Global,
    form: Form,
    secret: &[u8; 16],
    input: &mut S,
    out: &mut O,
) -> Status
    requires { form ≢ Full }
    ensures { RelayRun form secret.now
        (record { told = S.left; faults = S.faults; before = input.old; after = input.new })
        (record { told = O.written; faults = O.faults; before = out.old; after = out.new }) result }
{
    one_answer();
    match relay(alloc, form, secret, input) {
        Ok(answer) => tell(out, &answer),
        Err(Stop::ReadFault) => Status::ReadFault,
        Err(Stop::Memory) => Status::Memory,
    }
}
