//! A kept reply.

ghost use Rattle.std.specs.Prelude.{◌≡◌, IfOk};
ghost use Rattle.std.specs.VecDeque.{deque_capacity};

use crate::body::Body;
use octets::Memory;
use std::alloc::Global;
use std::collections::VecDeque;

/// A reply that is kept until it is acknowledged.
#[derive(Debug, Drop)]
pub struct Kept {
    /// The message identifier of the call that it answers.
    pub call: u64,
    /// Its own message identifier.
    pub number: u64,
    /// Its own sequence number.
    pub seq: u32,
    /// Its body, that of an `rpc_result`. Contracts see it as a list of bytes.
    pub body: Body,
}

impl Kept {
    /// The same reply once more, which shares the body's rest.
    ///
    /// # Errors
    ///
    /// `Memory`: memory ran out.
    pub fn copy(&self) -> Result<Kept, Memory>
        ensures { IfOk result (λ copy. copy ≡ self.now) }
    {
        Ok(Kept {
            call: self.call,
            number: self.number,
            seq: self.seq,
            body: self.body.copy()?,
        })
    }
}

/// A copy of the replies with the same capacity. Fails for want of memory alone.
pub(crate) fn copies_of(alloc: Global, replies: &VecDeque<Kept>) -> Result<VecDeque<Kept>, Memory>
    ensures { IfOk result (λ copy. (copy.items ≡ replies.now.items) × (deque_capacity copy ≡ deque_capacity replies.now)) }
{
    let mut copy = VecDeque::with_capacity(alloc, replies.capacity())?;
    for place in 0..replies.len() {
        copy.push_back_reserved(replies[place].copy()?);
    }
    Ok(copy)
}
