//! Why a run goes no further.

use octets::Memory;
use statuses::Answer;

/// Why no server is started.
#[derive(Drop)]
pub(crate) enum Halt {
    /// What was read is refused, and this is told.
    Refused(Answer),
    /// A read of the input failed.
    ReadFault,
    /// Memory ran out.
    Memory,
}

impl From<Memory> for Halt {
    ghost use Rattle.std.specs.Prelude.{◌≡◌};
    ghost use Rattle.cmd_pair.specs.declared.halt.Halt.TheVariants.{Memory};

    ghost from_gives = { λ _ halt. halt ≡ Memory };

    fn from(_memory: Memory) -> Halt {
        Halt::Memory
    }
}

/// Why a server isn't served to its end.
#[derive(Clone, Copy)]
pub(crate) enum KidFault {
    /// It couldn't be started, read or waited for, or ended with another status than 0.
    Failed,
    /// Memory ran out.
    Memory,
}

impl From<Memory> for KidFault {
    ghost use Rattle.std.specs.Prelude.{◌≡◌};
    ghost use Rattle.cmd_pair.specs.declared.halt.KidFault.TheVariants.{Memory};

    ghost from_gives = { λ _ fault. fault ≡ Memory };

    fn from(_memory: Memory) -> KidFault {
        KidFault::Memory
    }
}
