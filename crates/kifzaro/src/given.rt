//! A service that is asked from outside.

ghost use Rattle.std.specs.Prelude.{◌↔◌, IsTrue};
ghost use Rattle.regs_service.specs.Served.{IsReply};

use octets::{Memory, Octets};
use regs_service::{NoMemory, REPLY_BYTES_MAX, Service};
use std::alloc::Global;
use std::marker::Model;

/// The bytes of a word.
const WORD_BYTES: usize = 4;

/// Whether these bytes may be a reply: whole words, and not too many.
pub(crate) fn is_reply(reply: &[u8]) -> bool
    ensures { IsTrue result ↔ IsReply reply.now }
{
    reply.len() % WORD_BYTES == 0 && reply.len() <= REPLY_BYTES_MAX
}

/// A service that was given its reply beforehand. Contracts see the reply.
#[derive(Drop)]
pub(crate) struct Given {
    reply: Octets,
}

impl Model for Given {
    ghost use Rattle.std.specs.Prelude.{ℕ, List};
    ghost use Rattle.regs_service.specs.Served.{IsReply};

    ghost Value = { List ℕ };

    ghost view = { λ given. given.reply };

    ghost invariant = { λ given. IsReply given.reply };
}

impl Given {
    ghost use Rattle.std.specs.Prelude.{◌≡◌, IfOk};
    ghost use Rattle.regs_service.specs.Served.{IsReply};

    /// The service that gives this reply.
    ///
    /// # Errors
    ///
    /// `Memory`.
    pub(crate) fn new(alloc: Global, reply: &[u8]) -> Result<Given, Memory>
        requires reply { IsReply reply.now }
        ensures { IfOk result (λ given. given ≡ reply.now) }
    {
        Ok(Given {
            reply: Octets::copy(alloc, reply)?,
        })
    }
}

impl Service for Given {
    ghost use Rattle.std.specs.Prelude.{[]};
    ghost use Rattle.kifzaro.specs.Servers.{giving};

    ghost fresh_state = { [] };

    ghost step = { λ reply request. giving reply request };

    fn fresh(alloc: Global) -> Given {
        Given {
            reply: Octets::new(alloc),
        }
    }

    fn copy(&self, alloc: Global) -> Result<Given, NoMemory> {
        Ok(Given {
            reply: Octets::copy(alloc, self.reply.as_slice())?,
        })
    }

    fn foresee(&self, alloc: Global, _request: &[u8]) -> Result<Octets, NoMemory> {
        Ok(Octets::copy(alloc, self.reply.as_slice())?)
    }

    fn run(&mut self, alloc: Global, _request: &[u8]) -> Result<Octets, NoMemory> {
        Ok(Octets::copy(alloc, self.reply.as_slice())?)
    }
}
