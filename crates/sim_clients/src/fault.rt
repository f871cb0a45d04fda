//! Why an event of a client is refused.

ghost use Rattle.std.specs.Prelude.{◌≡◌};
ghost use Rattle.sim_clients.specs.Held.{fault_of};
ghost use Rattle.sim_clients.specs.declared.fault.SeatFault.TheVariants as told;

use client_core::SubmitFault;
use octets::Memory;
use thiserror::Error;

/// Why an event of a client doesn't happen: the first of these that holds.
#[derive(Clone, Copy, Debug, PartialEq, Eq, Error)]
pub enum SeatFault {
    /// There is no such client, or no room for one more.
    #[error("there is no such client, or no room for one more")]
    NoClient,
    /// The client is in a state in which it doesn't do so.
    #[error("the client is in a state in which it doesn't do so")]
    WrongState,
    /// The call isn't taken, or there is no such call.
    #[error("the call isn't taken: {0}")]
    Submit(SubmitFault),
    /// Something is to be sent, and there may not be numbers for it.
    #[error("there may not be numbers for what is to be sent")]
    Spent,
    /// The call isn't sent, so that there is no answer to drop.
    #[error("the call isn't sent")]
    NotSent,
    /// Memory ran out.
    #[error("memory ran out")]
    Memory,
}

impl From<SubmitFault> for SeatFault {
    ghost from_gives = { λ fault refused. refused ≡ fault_of fault };

    fn from(fault: SubmitFault) -> SeatFault {
        match fault {
            SubmitFault::Memory => SeatFault::Memory,
            fault => SeatFault::Submit(fault),
        }
    }
}

impl From<Memory> for SeatFault {
    ghost from_gives = { λ _ refused. refused ≡ told.Memory };

    fn from(_memory: Memory) -> SeatFault {
        SeatFault::Memory
    }
}
