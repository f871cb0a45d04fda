//! Why an event is refused, as text.

ghost use Rattle.std.specs.Prelude.{◌≡◌, option_map};
ghost use Rattle.world_rules.specs.Report.{refusal_text};
ghost use Rattle.sim_world.specs.Told.{refusal_of};

use crate::fault::StepFault;
use sim_text::submit_cause;

impl StepFault {
    /// Why the event is refused, as it is told; that memory ran out has no cause.
    pub fn cause(&self) -> Option<&'static str>
        ensures { option_map (λ text. text.now) result ≡ option_map refusal_text (refusal_of self.now) }
    {
        match self {
            StepFault::NoPacket { .. } => Some("no packet"),
            StepFault::NoClient => Some("no client"),
            StepFault::NoJob { .. } => Some("no job"),
            StepFault::ForeignOpens => Some("foreign bytes open"),
            StepFault::WrongState => Some("wrong state"),
            StepFault::Submit(fault) => submit_cause(fault),
            StepFault::Spent => Some("numbers spent"),
            StepFault::NotSent => Some("not sent"),
            StepFault::Memory => None,
        }
    }
}
