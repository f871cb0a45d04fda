//! The command, from its input to what it writes.

ghost use Rattle.std.specs.Prelude.{◌≡◌, ◌<◌, ◌⊎◌, IfErr, IfOk};
ghost use Rattle.cmd_call.specs.Owed.{AskedFor, around_of, files_of};
ghost use Rattle.cmd_pair.specs.Inner.{HaltsRun, IsOwed};
ghost use Rattle.cmd_pair.specs.Runs.{PairRun};
ghost use Rattle.cmd_pair.specs.Servers.{kids_of};

use crate::batches::run;
use crate::checks::take;
use crate::halt::Halt;
use auth_keys::laws::one_reading as one_ring;
use call_script::laws::one_reading as one_script;
use commands::PairOptions;
use draws::Draw;
use mt_edge::{Clock, KeyFiles, Net, Sink, Source, Spawner};
use statuses::{Answer, Status, tell};
use std::alloc::Global;

/// Reads a script to its end, starts a server that stops behind some packets, and runs the calls as one batch over it, under a
/// key of the key file; where that loses its connection, starts another server and goes on with the same client over that.
/// Writes a table of what became of the calls.
///
/// The order of checks is script, key file, key, calls, servers; a check that fails leaves what comes behind it untouched.
/// `Done`, `NotAllDone`: the table is written. `LinkLost`, `TurnsSpent`, `NumbersSpent`: the table is written, and a line on
/// that, by the last batch. `InputRefused`, `KeysRefused`: why is written. `NotListening`: a server couldn't be started, read or
/// waited for, which is written. `WriteFault`: a front of what was due is written. `ReadFault`, `Memory`: nothing is written.
pub fn run_pair<S: Source, O: Sink, F: KeyFiles, P: Spawner, N: Net, C: Clock, D: Draw>(
    alloc: Global,
    options: &PairOptions<'_>,
    input: &mut S,
    out: &mut O,
    files: &mut F,
    net: &mut N,
    kids: &mut P,
    clock: &mut C,
    draw: &mut D,
) -> Status
    // As the words of the command line say it.
    requires { options.now.port < 65535 }
    ensures { PairRun options.now
        (record { told = S.left; faults = S.faults; before = input.old; after = input.new })
        (record { told = O.written; faults = O.faults; before = out.old; after = out.new })
        (files_of F.told F.faults files.old files.new)
        (around_of N.calls N.room N.faults C.given D.step net.old net.new clock.old clock.new draw.old draw.new)
        (kids_of P.calls P.faults kids.old kids.new)
        result }
{
    one_script();
    one_ring();
    match answer(alloc, options, input, files, net, kids, clock, draw) {
        Ok(answer) => tell(out, &answer),
        Err(Halt::Refused(answer)) => tell(out, &answer),
        Err(Halt::ReadFault) => Status::ReadFault,
        Err(Halt::Memory) => Status::Memory,
    }
}

/// The answer to the input, before it is written.
///
/// # Errors
///
/// `Refused`: nothing is started, and why. `ReadFault`, `Memory`.
fn answer<S: Source, F: KeyFiles, P: Spawner, N: Net, C: Clock, D: Draw>(
    alloc: Global,
    options: &PairOptions<'_>,
    input: &mut S,
    files: &mut F,
    net: &mut N,
    kids: &mut P,
    clock: &mut C,
    draw: &mut D,
) -> Result<Answer, Halt>
    requires { options.now.port < 65535 }
    ensures owed { IfOk result (λ answer. IsOwed options.now
        (record { told = S.left; faults = S.faults; before = input.old; after = input.new })
        (files_of F.told F.faults files.old files.new)
        (around_of N.calls N.room N.faults C.given D.step net.old net.new clock.old clock.new draw.old draw.new)
        (kids_of P.calls P.faults kids.old kids.new)
        answer.status answer.text) }
    ensures halts { IfErr result (HaltsRun options.now
        (record { told = S.left; faults = S.faults; before = input.old; after = input.new })
        (files_of F.told F.faults files.old files.new)
        (around_of N.calls N.room N.faults C.given D.step net.old net.new clock.old clock.new draw.old draw.new)
        (kids_of P.calls P.faults kids.old kids.new)) }
    ensures asked { AskedFor options.now.keys (files_of F.told F.faults files.old files.new) ⊎ (files.new ≡ files.old) }
{
    let (client, ring) = take(alloc, options, input, files, draw)?;
    Ok(run(alloc, options, client, ring, kids, net, clock, draw)?)
}
