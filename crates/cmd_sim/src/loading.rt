//! The command `load`: the large schedule, and what sums it up.

ghost use Rattle.std.specs.Prelude.{◌≡◌, IfOk};
ghost use Rattle.statuses.specs.declared.status.Status.TheVariants as status;
ghost use Rattle.cmd_sim.specs.Load.{LoadExecutesOnce, summary_of};

use crate::laws::load_executes_once;
use crate::schedule_world::SimWorld;
use octets::{Memory, Octets};
use statuses::{Answer, Status};
use std::alloc::Global;

/// The line that sums up the world after the schedule of so many calls.
pub(crate) fn summary(alloc: Global, calls: u32) -> Result<Answer, Memory>
    ensures status { IfOk result (λ answer. answer.status ≡ status.Done) }
    ensures text { IfOk result (λ answer. answer.text ≡ summary_of calls) }
    ensures once { IfOk result (λ _. LoadExecutesOnce calls) }
{
    let world = SimWorld::new(alloc)?.loaded(alloc, calls)?;
    if !world.draws_on() {
        return Err(Memory);
    }
    load_executes_once();
    let mut text = Octets::new(alloc);
    world.summary(alloc, &mut text)?;
    Ok(Answer {
        status: Status::Done,
        text,
    })
}
