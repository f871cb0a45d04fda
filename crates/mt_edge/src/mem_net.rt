//! A net in memory, for tests.

ghost use Rattle.std.specs.Prelude.{◌≡◌, ◌<◌, ◌≤◌, ◌+◌, ◌-◌, false, ◌++◌, ◌∷◌, [], None, Some, length, vec_len, vec_capacity, if◌then◌else◌, IfOk, IfSome, IsSomeAnd};
ghost use Rattle.mt_edge.specs.Nets.{Counts, IfLink, outcome_of};
ghost use Rattle.mt_edge.specs.Acts.{Counts as CountsAct};
ghost use Rattle.mt_edge.specs.Links.{IsFresh};

use crate::act::Act;
use crate::faults::raised;
use crate::link::Link;
use crate::mem_link::MemLink;
use crate::net::{Linked, Net};
use crate::net_call::{NetCall, Outcome};
use octets::Memory;
use std::alloc::Global;

/// A net that hands out given links in order, whatever the port. The calls of `listen`, `accept` and `connect` with the
/// given numbers fail, counted together from 1, and so does each one past the room for what is noted, or with no link
/// left.
#[derive(Debug, Drop)]
pub struct MemNet {
    calls: Vec<NetCall>,
    room: usize,
    links: Vec<MemLink>,
    failing: Vec<u64>,
    made: u64,
    faults: u64,
    is_untold: bool,
    ghost in_room: { vec_len calls ≤ room },
    ghost room_taken: { room ≤ vec_capacity calls },
    ghost last_is_fault: { vec_len calls < room + faults },
}

impl MemNet {
    /// A net with these links, the last one to be handed out first. Each is handed out as it stood when it was made. The
    /// net has room for `room` calls, all taken now; the last place is for one that fails.
    ///
    /// # Errors
    ///
    /// `Memory`.
    pub fn new(
        alloc: Global,
        links: Vec<MemLink>,
        failing: &[u64],
        room: usize,
    ) -> Result<MemNet, Memory>
        requires { 0 < room }
        ensures calls { IfOk result (λ net. ⟦<MemNet as Net>⟧.calls net ≡ Some []) }
        ensures faults { IfOk result (λ net. ⟦<MemNet as Net>⟧.faults net ≡ 0) }
    {
        Ok(MemNet {
            calls: Vec::with_capacity(alloc, room)?,
            room,
            links,
            failing: Vec::from_slice(alloc, failing)?,
            made: 0,
            faults: 0,
            is_untold: false,
        })
    }

    /// The calls so far. Takes no memory.
    pub fn calls(&self) -> &[NetCall]
        ensures { IfSome (⟦<MemNet as Net>⟧.calls self.now) (λ calls. result.now ≡ calls) }
    {
        self.calls.as_slice()
    }

    /// How many calls have failed.
    pub fn faults(&self) -> u64
        ensures { result ≡ ⟦<MemNet as Net>⟧.faults self.now }
    {
        self.faults
    }

    /// Whether the next call may succeed. It counts the call, and a fault where it may not.
    fn may_go(&mut self) -> Act
        ensures room { result ≡ Act.Ready → vec_len self.new.calls + 1 < self.new.room }
        ensures counted { CountsAct result self.old.faults self.new.faults }
        ensures never_falls { self.old.faults ≤ self.new.faults }
        ensures calls { self.new.calls ≡ self.old.calls }
        ensures same_room { self.new.room ≡ self.old.room }
        ensures untold { self.new.is_untold ≡ self.old.is_untold }
    {
        self.made = self.made.saturating_add(1);
        let has_room = self.room - self.calls.len() > 1;
        if !has_room || self.failing.contains(&self.made) {
            self.faults = raised(self.faults);
            return Act::Failed;
        }
        Act::Ready
    }

    /// The next link, or a fault.
    fn next_link(&mut self) -> Linked<MemLink>
        ensures no_fault_yet { IfLink result (λ link. ⟦<MemLink as Link>⟧.faults link ≡ 0) }
        ensures place { IfLink result (λ link. (⟦<MemLink as Link>⟧.standing link).place ≡ vec_len self.old.calls) }
        ensures open { IfLink result (λ link. (⟦<MemLink as Link>⟧.standing link).closed ≡ false) }
        ensures fresh { IfLink result (λ link. IsSomeAnd (⟦<MemLink as Link>⟧.told link) IsFresh) }
        ensures room { IfLink result (λ _. vec_len self.new.calls + 1 < self.new.room) }
        ensures counted { Counts result self.old.faults self.new.faults }
        ensures never_falls { self.old.faults ≤ self.new.faults }
        ensures calls { self.new.calls ≡ self.old.calls }
        ensures same_room { self.new.room ≡ self.old.room }
        ensures untold { self.new.is_untold ≡ self.old.is_untold }
    {
        match self.may_go() {
            Act::Failed => Linked::Failed,
            Act::Ready => match self.links.pop() {
                Some(link) => Linked::Link(link.handed_out(self.calls.len())),
                None => {
                    self.faults = raised(self.faults);
                    Linked::Failed
                }
            },
        }
    }

    /// Notes a call, where there is room for it.
    fn note(&mut self, call: NetCall)
        requires { vec_len self.old.calls < self.old.room → vec_len self.old.calls + 1 < self.old.room + self.old.faults }
        ensures told { IfSome (⟦<MemNet as Net>⟧.calls self.new) (λ after. IsSomeAnd (⟦<MemNet as Net>⟧.calls self.old) (λ before. after ≡ before ++ call ∷ [])) }
        ensures kept { vec_len self.old.calls < self.old.room → self.new.is_untold ≡ self.old.is_untold }
        ensures one_place { vec_len self.new.calls ≤ vec_len self.old.calls + 1 }
        ensures same_room { self.new.room ≡ self.old.room }
        ensures faults { self.new.faults ≡ self.old.faults }
    {
        if self.calls.len() < self.room {
            self.calls.push(call).unwrap();
        } else {
            self.is_untold = true;
        }
    }
}

/// What is noted of an attempt.
fn outcome_of(linked: &Linked<MemLink>) -> Outcome
    ensures { result ≡ outcome_of linked.now }
{
    match linked {
        Linked::Link(_) => Outcome::Open,
        Linked::Failed => Outcome::Failed,
    }
}

impl Net for MemNet {
    type L = MemLink;

    ghost calls = { λ net. if net.is_untold then None else Some net.calls.items };

    ghost room = { λ net. net.room - vec_len net.calls };

    ghost faults = { λ net. net.faults };

    fn listen(&mut self, port: u16) -> Act {
        let answer = self.may_go();
        self.note(NetCall::Listen { port, answer });
        answer
    }

    fn accept(&mut self) -> Linked<MemLink> {
        let linked = self.next_link();
        let outcome = outcome_of(&linked);
        self.note(NetCall::Accept { outcome });
        linked
    }

    fn connect(&mut self, port: u16) -> Linked<MemLink> {
        let linked = self.next_link();
        let outcome = outcome_of(&linked);
        self.note(NetCall::Connect { port, outcome });
        linked
    }

    #[tactic(auto, using(crate::proofs::NetLemmas::closed_set, crate::proofs::NetLemmas::closed_past, crate::proofs::NetLemmas::closed_last))]
    fn done(&mut self, link: MemLink) {
        match link.into_told() {
            Some((place, told, faults)) => {
                if place < self.calls.len() {
                    self.calls[place].give_back(told, faults);
                }
            }
            None => self.is_untold = true,
        }
    }
}
