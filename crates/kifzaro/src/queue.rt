//! Packets that were made and aren't handed out yet.

ghost use Rattle.std.specs.Prelude.{◌≡◌, ◌++◌, ◌∷◌, [], IsTrue, MatchOption, OnErr, OnOk};

use octets::Memory;
use server_output::{Out, Outs};
use std::alloc::Global;
use std::collections::VecDeque;
use std::marker::Model;

/// Packets in order. What an event gave is put at the end without any memory, so that none is lost where memory runs out:
/// it stands behind the others until there is room for it among them. Contracts see the packets among which is room, and
/// those behind.
#[derive(Debug, Drop)]
pub(crate) struct Queue {
    front: VecDeque<Out>,
    behind: VecDeque<Out>,
}

impl Model for Queue {
    ghost use Rattle.kifzaro.specs.Queues.{Line};

    ghost Value = { Line };

    ghost view = { λ queue. record { front = queue.front.items; behind = queue.behind.items } };
}

impl Queue {
    ghost use Rattle.kifzaro.specs.Queues.{IsFirst, all_in};

    /// No packet. Takes no memory.
    pub(crate) fn new(alloc: Global) -> Queue
        ensures { result ≡ record { front = []; behind = [] } }
    {
        Queue {
            front: VecDeque::new(alloc),
            behind: VecDeque::new(alloc),
        }
    }

    /// Makes room for the packets that stand behind.
    ///
    /// # Errors
    ///
    /// `Memory`, and then all is as it was.
    pub(crate) fn make_room(&mut self) -> Result<(), Memory>
        ensures same { all_in self.new ≡ all_in self.old }
        ensures none_behind { OnOk result (self.new.behind ≡ []) }
    {
        self.front.append(&mut self.behind)?;
        Ok(())
    }

    /// Puts the packets of an event at the end. Takes no memory.
    pub(crate) fn put(&mut self, outs: Outs)
        requires none_behind { self.old.behind ≡ [] }
        ensures put { all_in self.new ≡ all_in self.old ++ outs.outs }
    {
        self.behind = VecDeque::from_vec(outs.into_vec());
    }

    // Where nothing stands in front, what stands behind comes in front.
    fn step_up(&mut self, alloc: Global)
        ensures same { all_in self.new ≡ all_in self.old }
        ensures front { self.new.front ≡ [] → all_in self.new ≡ [] }
    {
        if self.front.is_empty() {
            let behind = std::mem::replace(&mut self.behind, VecDeque::new(alloc));
            self.front = behind;
        }
    }

    /// The first packet; none exactly where there is none.
    pub(crate) fn first(&self) -> Option<&Out>
        ensures { MatchOption result (all_in self.now ≡ []) (λ out. IsFirst out.now (all_in self.now)) }
    {
        match self.front.front() {
            Some(out) => Some(out),
            None => self.behind.front(),
        }
    }

    /// Takes out the first packet; none exactly where there is none. Takes no memory.
    pub(crate) fn take(&mut self, alloc: Global) -> Option<Out>
        ensures { MatchOption result ((all_in self.old ≡ []) × (all_in self.new ≡ [])) (λ out. all_in self.old ≡ out ∷ all_in self.new) }
    {
        self.step_up(alloc);
        self.front.pop_front()
    }
}
