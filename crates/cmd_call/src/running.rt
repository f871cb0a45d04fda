//! The command, from its input to what it writes.

ghost use Rattle.std.specs.Prelude.{◌≡◌, ◌≢◌, ◌⊎◌, true, Err, IfOk};
ghost use Rattle.statuses.specs.Outside.{HadFault};
ghost use Rattle.transport.specs.declared.form.Form.TheVariants as forms;
ghost use Rattle.cmd_call.specs.Owed.{AskedFor, IsIdle, Owes, RunsOut, around_of, files_of};
ghost use Rattle.cmd_call.specs.Runs.{CallRun, UsesNet};

use crate::checking::answer_to_text;
use auth_keys::laws::one_reading as one_ring;
use call_script::laws::one_reading as one_script;
use commands::CallOptions;
use draws::Draw;
use mt_edge::{Clock, KeyFiles, Net, ReadFault, Sink, Source, read_all};
use statuses::{Answer, INPUT_BYTES_MAX, Status, Stop, tell, too_long};
use std::alloc::Global;

/// Reads a script to its end and runs its calls as one batch over connections of a net, under a key of the key file, and
/// writes a table of what became of them. With no call it connects to nothing and writes nothing.
///
/// The order of checks is script, key file, keys, calls, net; a check that fails leaves what comes behind it untouched.
/// `Done`, `NotAllDone`: the table is written. `LinkLost`, `TurnsSpent`, `NumbersSpent`: the table is written, and a line on
/// that. `InputRefused`, `KeysRefused`: why is written. `WriteFault`: a front of what was due is written. `ReadFault`,
/// `Memory`: nothing is written.
pub fn run_call<S: Source, O: Sink, F: KeyFiles, N: Net, C: Clock, D: Draw>(
    alloc: Global,
    options: &CallOptions<'_>,
    input: &mut S,
    out: &mut O,
    files: &mut F,
    net: &mut N,
    clock: &mut C,
    draw: &mut D,
) -> Status
    // As the words of the command line say it.
    requires { options.now.obfuscate ≡ true → options.now.form ≢ forms.Full }
    ensures { CallRun options.now
        (record { told = S.left; faults = S.faults; before = input.old; after = input.new })
        (record { told = O.written; faults = O.faults; before = out.old; after = out.new })
        (files_of F.told F.faults files.old files.new)
        (around_of N.calls N.room N.faults C.given D.step net.old net.new clock.old clock.new draw.old draw.new)
        result }
{
    one_script();
    one_ring();
    match answer(alloc, options, input, files, net, clock, draw) {
        Ok(answer) => tell(out, &answer),
        Err(Stop::ReadFault) => Status::ReadFault,
        Err(Stop::Memory) => Status::Memory,
    }
}

/// The answer to the input, before it is written.
fn answer<S: Source, F: KeyFiles, N: Net, C: Clock, D: Draw>(
    alloc: Global,
    options: &CallOptions<'_>,
    input: &mut S,
    files: &mut F,
    net: &mut N,
    clock: &mut C,
    draw: &mut D,
) -> Result<Answer, Stop>
    requires { options.now.obfuscate ≡ true → options.now.form ≢ forms.Full }
    ensures owed { IfOk result (λ answer. Owes options.now
        (record { told = S.left; faults = S.faults; before = input.old; after = input.new })
        (files_of F.told F.faults files.old files.new)
        (around_of N.calls N.room N.faults C.given D.step net.old net.new clock.old clock.new draw.old draw.new)
        answer.status answer.text) }
    ensures read_fault { result ≡ Err Stop.ReadFault → HadFault (record { told = S.left; faults = S.faults; before = input.old; after = input.new }) }
    ensures left { result ≡ Err Stop.Memory → RunsOut options.now
        (record { told = S.left; faults = S.faults; before = input.old; after = input.new })
        (files_of F.told F.faults files.old files.new)
        (around_of N.calls N.room N.faults C.given D.step net.old net.new clock.old clock.new draw.old draw.new) }
    ensures unasked { result ≡ Err Stop.ReadFault → files.new ≡ files.old }
    ensures idle { result ≡ Err Stop.ReadFault → IsIdle
        (around_of N.calls N.room N.faults C.given D.step net.old net.new clock.old clock.new draw.old draw.new) }
    ensures asked { AskedFor options.now.keys (files_of F.told F.faults files.old files.new) ⊎ (files.new ≡ files.old) }
    ensures connects { UsesNet options.now
        (around_of N.calls N.room N.faults C.given D.step net.old net.new clock.old clock.new draw.old draw.new) }
{
    match read_all(alloc, input, INPUT_BYTES_MAX) {
        Ok(text) => Ok(answer_to_text(alloc, options, text, files, net, clock, draw)?),
        Err(ReadFault::TooLong) => Ok(too_long(alloc)?),
        Err(ReadFault::Failed) => Err(Stop::ReadFault),
        Err(ReadFault::Memory) => Err(Stop::Memory),
    }
}
