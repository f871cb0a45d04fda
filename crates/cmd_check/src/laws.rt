//! Laws of a check, each the contract of a function that does nothing.

ghost use Rattle.statuses.specs.Outside.{IsUntouched, Outside};
ghost use Rattle.statuses.specs.declared.status.Status.TheVariants as status;
ghost use Rattle.cmd_check.specs.Runs.{CheckRun};

use mt_edge::{Sink, Source};

/// A run that stops for want of memory before it writes keeps what `check` promises.
pub fn memory_may_run_out<S: Source, O: Sink>()
    ensures { (input : Outside S) (out : Outside O) → IsUntouched out → CheckRun input out status.Memory }
{}
