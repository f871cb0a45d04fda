//! A clock whose moments are given beforehand, for tests.

ghost use Rattle.std.specs.Prelude.{◌≡◌, ◌<◌, ◌-◌, ◌^◌, [], None, Some, length, vec_len, if◌then◌else◌, nat_lt, IfOk};
ghost use Rattle.mt_edge.specs.Clocks.{first_given};

use crate::clock::Clock;
use msg_ids::Moment;
use octets::Memory;
use std::alloc::Global;

/// A clock that gives its moments in order, and then the last of them over and over. It tells what it gave, up to
/// 2^64 - 2 moments.
#[derive(Debug, Drop)]
pub struct ListClock {
    moments: Vec<Moment>,
    given: usize,
    ghost some_moment: { 0 < vec_len moments },
}

impl ListClock {
    /// A clock with these moments.
    ///
    /// # Errors
    ///
    /// `Memory`.
    pub fn new(alloc: Global, moments: &[Moment]) -> Result<ListClock, Memory>
        requires { 0 < length moments.now }
        ensures { IfOk result (λ clock. ⟦<ListClock as Clock>⟧.given clock ≡ Some []) }
    {
        Ok(ListClock {
            moments: Vec::from_slice(alloc, moments)?,
            given: 0,
        })
    }
}

impl Clock for ListClock {
    ghost given = { λ clock. if nat_lt clock.given (2 ^ 64 - 1) then Some (first_given clock.moments.items clock.given) else None };

    #[tactic(auto, using(crate::proofs::ClockLemmas::one_more_given, crate::proofs::ClockLemmas::count_of_given))]
    fn now(&mut self) -> Moment {
        let last = self.moments.len() - 1;
        let place = self.given.min(last);
        self.given = self.given.saturating_add(1);
        self.moments[place]
    }
}
