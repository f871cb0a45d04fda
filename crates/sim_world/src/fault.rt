//! Why an event of a schedule is refused.

ghost use Rattle.std.specs.Prelude.{◌≡◌};
ghost use Rattle.sim_world.specs.declared.fault.StepFault.TheVariants as faults;
ghost use Rattle.sim_world.specs.Told.{step_fault};

use client_core::SubmitFault;
use octets::Memory;
use sim_clients::SeatFault;
use thiserror::Error;

/// Why an event of a schedule isn't done. What is refused changes nothing of the world but its draw.
#[derive(Clone, Copy, Debug, PartialEq, Eq, Error)]
pub enum StepFault {
    /// No packet has this number.
    #[error("no packet {k}")]
    NoPacket {
        /// The number, counted from 1.
        k: u64,
    },
    /// There is no such client, or there are as many as there may be.
    #[error("no client")]
    NoClient,
    /// No ready job has this number.
    #[error("no job {k}")]
    NoJob {
        /// The number, counted from 1.
        k: u64,
    },
    /// Foreign bytes would open.
    #[error("foreign bytes open")]
    ForeignOpens,
    /// The client is in another state.
    #[error("wrong state")]
    WrongState,
    /// The client doesn't take the call, or there is no such call to drop.
    #[error("{0}")]
    Submit(SubmitFault),
    /// Something is to be sent, and there may not be numbers for it.
    #[error("numbers spent")]
    Spent,
    /// The call isn't sent, so that there is no answer to drop.
    #[error("not sent")]
    NotSent,
    /// Memory ran out.
    #[error("out of memory")]
    Memory,
}

impl From<Memory> for StepFault {
    ghost from_gives = { λ _ fault. fault ≡ faults.Memory };

    fn from(_memory: Memory) -> StepFault {
        StepFault::Memory
    }
}

impl From<SeatFault> for StepFault {
    ghost from_gives = { λ fault given. given ≡ step_fault fault };

    fn from(fault: SeatFault) -> StepFault {
        match fault {
            SeatFault::NoClient => StepFault::NoClient,
            SeatFault::WrongState => StepFault::WrongState,
            SeatFault::Submit(fault) => StepFault::Submit(fault),
            SeatFault::Spent => StepFault::Spent,
            SeatFault::NotSent => StepFault::NotSent,
            SeatFault::Memory => StepFault::Memory,
        }
    }
}
