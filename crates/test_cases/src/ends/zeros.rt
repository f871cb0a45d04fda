//! A service with replies of any length.

ghost use Rattle.std.specs.Prelude.{◌≡◌, ◌*◌, IfOk, min, replicate};
ghost use Rattle.regs_service.specs.Served.{IsReply};

use octets::Octets;
use regs_service::{NoMemory, Service};
use std::alloc::Global;

/// A service that replies to each request with so many words of zeros, but with 262,144 bytes at most.
#[derive(Drop)]
pub(crate) struct Zeros {
    pub(crate) words: u32,
}

impl Service for Zeros {
    ghost fresh_state = { record { words = 0 } };

    ghost step = { λ zeros _. (replicate (4 * min zeros.words 65536) 0, zeros) };

    fn fresh(_alloc: Global) -> Zeros {
        Zeros { words: 0 }
    }

    fn copy(&self, _alloc: Global) -> Result<Zeros, NoMemory> {
        Ok(Zeros { words: self.words })
    }

    fn foresee(&self, alloc: Global, _request: &[u8]) -> Result<Octets, NoMemory> {
        words_of_zeros(alloc, self.words)
    }

    fn run(&mut self, alloc: Global, _request: &[u8]) -> Result<Octets, NoMemory> {
        words_of_zeros(alloc, self.words)
    }
}

// The reply.
fn words_of_zeros(alloc: Global, words: u32) -> Result<Octets, NoMemory>
    ensures reply { IfOk result (λ reply. reply ≡ replicate (4 * min words 65536) 0) }
    ensures sized { IfOk result IsReply }
{
    let words = words.min(65_536);
    let Ok(zeros) = vec![in alloc; 0u8; 4 * words as usize] else {
        return Err(NoMemory);
    };
    Ok(Octets::copy(alloc, zeros.as_slice())?)
}
