//! What runs requests.

ghost use Rattle.std.specs.Prelude.{◌≡◌, ℕ, List, IfOk, OnOk, OnErr, ⊤};
ghost use Rattle.regs_service.specs.Served.{IsReply};

use octets::{Memory, Octets};
use std::alloc::Global;
use std::error::Error;
use std::fmt;

/// The most bytes of a reply, of any service.
pub const REPLY_BYTES_MAX: usize = 262_144;

/// Memory ran out. The service is as it was.
#[derive(Clone, Copy, Debug, PartialEq, Eq)]
pub struct NoMemory;

impl fmt::Display for NoMemory {
    fn fmt<W: fmt::Write>(&self, f: &mut fmt::Formatter<W>) -> fmt::Result {
        write!(f, "out of memory")
    }
}

impl Error for NoMemory {}

impl From<Memory> for NoMemory {
    ghost from_gives = { λ _ _. ⊤ };

    fn from(_memory: Memory) -> NoMemory {
        NoMemory
    }
}

impl From<NoMemory> for Memory {
    ghost from_gives = { λ _ _. ⊤ };

    fn from(_no_memory: NoMemory) -> Memory {
        Memory
    }
}

/// What runs the calls of a server's sessions. A reply and the state after it are a function of the state
/// and of the request.
pub trait Service: Sized + Drop {
    /// The state at first.
    ghost fresh_state: { Self };

    /// The reply to a request in a state, and the state after it.
    ghost step: { Self → List ℕ → List ℕ × Self };

    /// A service in its fresh state. Takes no memory.
    fn fresh(alloc: Global) -> Self
        ensures { result ≡ fresh_state };

    /// A service in the same state.
    ///
    /// # Errors
    ///
    /// `NoMemory`.
    fn copy(&self, alloc: Global) -> Result<Self, NoMemory>
        ensures { IfOk result (λ copy. copy ≡ self.now) };

    /// The reply that [`Service::run`] would give to a request now. So who has to keep the reply takes the memory for it
    /// before the service runs.
    ///
    /// # Errors
    ///
    /// `NoMemory`.
    fn foresee(&self, alloc: Global, request: &[u8]) -> Result<Octets, NoMemory>
        ensures reply { IfOk result (λ reply. reply ≡ (step self.now request.now).0) }
        ensures sized { IfOk result IsReply };

    /// Runs a request, the bytes of a call's body, and gives its reply: whole words of 4 bytes, at most
    /// 262,144 bytes.
    ///
    /// # Errors
    ///
    /// `NoMemory`, and then the state is as it was.
    fn run(&mut self, alloc: Global, request: &[u8]) -> Result<Octets, NoMemory>
        ensures reply { IfOk result (λ reply. reply ≡ (step self.old request.now).0) }
        ensures sized { IfOk result IsReply }
        ensures after { OnOk result (self.new ≡ (step self.old request.now).1) }
        ensures unchanged_on_memory { OnErr result (self.new ≡ self.old) };
}
