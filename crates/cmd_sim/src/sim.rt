//! The command `sim`: a schedule's bytes to the report of its world, or to the refusal of a line.

ghost use Rattle.std.specs.Prelude.{◌≡◌, ◌≤◌, [], Some, Err, length, IfOk, IfSome};
ghost use Rattle.mt_edge.specs.Faults.{Rose};
ghost use Rattle.statuses.specs.Lines.{input_bytes_max};
ghost use Rattle.statuses.specs.declared.status.Status.TheVariants as status;
ghost use Rattle.world_rules.specs.Premises.{IsOfBytes};
ghost use Rattle.sim_world.specs.Told.{refusal_of};
ghost use Rattle.cmd_sim.specs.Sim.{IsOfSim, Owes};
ghost use Rattle.cmd_sim.specs.Inner.{IsRefusalOf, Plays};

use crate::laws::sim_executes_once;
use crate::schedule_world::SimWorld;
use mt_edge::{ReadFault, Source, read_all};
use octets::{Memory, Octets};
use sched_text::{Event, Events, SchedFault, read};
use sim_world::StepFault;
use statuses::{Answer, INPUT_BYTES_MAX, Status, Stop, bad_line, refusal, too_long};
use std::alloc::Global;

/// Reads a schedule to its end and answers its report, or its refusal.
pub(crate) fn sim<S: Source>(alloc: Global, wire: bool, input: &mut S) -> Result<Answer, Stop>
    ensures status { IfOk result (λ answer. IsOfSim answer.status) }
    ensures answered { IfOk result (λ answer. IfSome (S.left input.old) (λ left. Owes wire left answer.status answer.text)) }
    ensures to_the_end { IfOk result (λ answer. answer.status ≡ status.Done → IfSome (S.left input.old) (λ _. S.left input.new ≡ Some [])) }
    ensures no_fault { IfOk result (λ answer. answer.status ≡ status.Done → S.faults input.new ≡ S.faults input.old) }
    ensures read_fault { result ≡ Err Stop.ReadFault → Rose (S.faults input.old) (S.faults input.new) }
{
    match read_all(alloc, input, INPUT_BYTES_MAX) {
        Ok(text) => Ok(answer_to(alloc, wire, text.as_slice())?),
        Err(ReadFault::TooLong) => Ok(too_long(alloc)?),
        Err(ReadFault::Failed) => Err(Stop::ReadFault),
        Err(ReadFault::Memory) => Err(Stop::Memory),
    }
}

/// The answer to the bytes of a schedule.
fn answer_to(alloc: Global, wire: bool, text: &[u8]) -> Result<Answer, Memory>
    requires { length text.now ≤ input_bytes_max }
    ensures status { IfOk result (λ answer. IsOfSim answer.status) }
    ensures owed { IfOk result (λ answer. Owes wire text.now answer.status answer.text) }
{
    match read(alloc, text) {
        Ok(events) => play(alloc, wire, &events),
        Err(SchedFault::BadLine { line }) => bad_line(alloc, line),
        Err(SchedFault::Memory) => Err(Memory),
    }
}

/// Steps one world through the events: its report, or the refusal of the first event that is refused.
fn play(alloc: Global, wire: bool, events: &Events) -> Result<Answer, Memory>
    ensures { IfOk result (λ answer. Plays wire events.now answer.status answer.text) }
{
    let mut world = SimWorld::new(alloc)?;
    for place in 0..events.len() {
        let event = events.event(place);
        body_is_bytes(event);
        if let Err(fault) = world.step(alloc, event) {
            return refused(alloc, events.line(place), &fault);
        }
    }
    if !world.draws_on() {
        return Err(Memory);
    }
    sim_executes_once();
    let mut text = Octets::new(alloc);
    world.report(alloc, wire, &mut text)?;
    Ok(Answer {
        status: Status::Done,
        text,
    })
}

/// The body of a call is bytes. Does nothing.
fn body_is_bytes(event: &Event)
    ensures { IsOfBytes event.now }
{
    if let Event::Call { body, .. } = event {
        let _bytes = body.as_slice();
    }
}

/// A line's step is refused.
fn refused(alloc: Global, line: u32, fault: &StepFault) -> Result<Answer, Memory>
    ensures { IfOk result (λ answer. IsRefusalOf line (refusal_of fault.now) answer.status answer.text) }
{
    let status = match fault {
        StepFault::Spent => Status::NumbersSpent,
        _ => Status::InputRefused,
    };
    match fault.cause() {
        Some(cause) => refusal(alloc, status, line, cause),
        None => Err(Memory),
    }
}
