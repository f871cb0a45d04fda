//! What stands for a service where a reply is given that was recorded.

ghost use Rattle.std.specs.Prelude.{◌≡◌, [], IfOk};
ghost use Rattle.regs_service.specs.Served.{IsReply};
ghost use Rattle.sess_journal.specs.Replay.{always, run_interrupted};

use octets::{Memory, Octets};
use regs_service::{NoMemory, Service};
use std::alloc::Global;
use std::marker::Model;

/// The answer to a run that was cut off: `rpc_error` 500 `RUN_INTERRUPTED`.
const RUN_INTERRUPTED: &[u8] = b"\x19\xca\x44\x21\xf4\x01\0\0\x0fRUN_INTERRUPTED";

/// A service that gives one reply, whatever it is asked. Contracts see the reply.
#[derive(Drop)]
pub(crate) struct Recorded {
    reply: Octets,
}

impl Recorded {
    /// One that gives this reply.
    ///
    /// # Errors
    ///
    /// `Memory`.
    pub(crate) fn new(alloc: Global, reply: &[u8]) -> Result<Recorded, Memory>
        requires { IsReply reply.now }
        ensures { IfOk result (λ recorded. recorded ≡ reply.now) }
    {
        Ok(Recorded {
            reply: Octets::copy(alloc, reply)?,
        })
    }

    /// One that gives the answer to a run that was cut off.
    ///
    /// # Errors
    ///
    /// `Memory`.
    #[tactic(auto, unfolding(tl_codec::specs::Spelling::spelling))]
    pub(crate) fn interrupted(alloc: Global) -> Result<Recorded, Memory>
        ensures { IfOk result (λ recorded. recorded ≡ run_interrupted) }
    {
        Recorded::new(alloc, RUN_INTERRUPTED)
    }
}

impl Model for Recorded {
    ghost use Rattle.std.specs.Prelude.{ℕ, List};
    ghost use Rattle.regs_service.specs.Served.{IsReply};

    ghost Value = { List ℕ };

    ghost view = { λ recorded. recorded.reply };

    ghost invariant = { λ recorded. IsReply recorded.reply };
}

impl Service for Recorded {
    ghost fresh_state = { [] };

    ghost step = { always };

    fn fresh(alloc: Global) -> Recorded {
        Recorded {
            reply: Octets::new(alloc),
        }
    }

    fn copy(&self, alloc: Global) -> Result<Recorded, NoMemory> {
        Ok(Recorded::new(alloc, self.reply.as_slice())?)
    }

    fn foresee(&self, alloc: Global, _request: &[u8]) -> Result<Octets, NoMemory> {
        Ok(Octets::copy(alloc, self.reply.as_slice())?)
    }

    fn run(&mut self, alloc: Global, request: &[u8]) -> Result<Octets, NoMemory> {
        self.foresee(alloc, request)
    }
}
