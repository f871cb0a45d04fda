//! Why a call isn't submitted, as text.

ghost use Rattle.std.specs.Prelude.{◌≡◌, option_map};
ghost use Rattle.world_rules.specs.Report.{fault_text};
ghost use Rattle.sim_text.specs.Faults.{fault_of};

use client_core::SubmitFault;

/// Why a client doesn't take a call, as it is told; that memory ran out has no cause.
pub fn submit_cause(fault: &SubmitFault) -> Option<&'static str>
    ensures { option_map (λ text. text.now) result ≡ option_map fault_text (fault_of fault.now) }
{
    match fault {
        SubmitFault::TooLong { .. } => Some("too long"),
        SubmitFault::NotWords { .. } => Some("not words"),
        SubmitFault::ServiceTag { .. } => Some("service body"),
        SubmitFault::NoSuchCall => Some("no such call"),
        SubmitFault::TooMany => Some("too many calls"),
        SubmitFault::Memory => None,
    }
}
