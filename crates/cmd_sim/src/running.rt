//! The commands, from their input to what they write.

ghost use Rattle.cmd_sim.specs.Runs.{LoadRun, SimRun};

use crate::loading::summary;
use crate::sim::sim;
use mt_edge::{Sink, Source};
use sched_text::laws::one_reading;
use statuses::{Status, Stop, tell};
use std::alloc::Global;

/// Reads a schedule to its end, plays it in one world and writes the report of that world, with `wire` also a line on all
/// packets.
///
/// `Done`: the report is written. `InputRefused`: the input is refused, with the line and the cause. `NumbersSpent`: on the
/// line that is told a client has something to send and fewer than 2,048 numbers left. `ReadFault`, `WriteFault`, `Memory`.
pub fn run_sim<S: Source, O: Sink>(alloc: Global, wire: bool, input: &mut S, out: &mut O) -> Status
    ensures { SimRun wire
        (record { told = S.left; faults = S.faults; before = input.old; after = input.new })
        (record { told = O.written; faults = O.faults; before = out.old; after = out.new }) result }
{
    one_reading();
    match sim(alloc, wire, input) {
        Ok(answer) => tell(out, &answer),
        Err(Stop::ReadFault) => Status::ReadFault,
        Err(Stop::Memory) => Status::Memory,
    }
}

/// Plays the large schedule of so many calls in one world and writes one line that sums it up.
///
/// `Done`: the line is written. `WriteFault`, `Memory`.
pub fn run_load<O: Sink>(alloc: Global, calls: u32, out: &mut O) -> Status
    ensures { LoadRun calls (record { told = O.written; faults = O.faults; before = out.old; after = out.new }) result }
{
    match summary(alloc, calls) {
        Ok(line) => tell(out, &line),
        Err(_memory) => Status::Memory,
    }
}
