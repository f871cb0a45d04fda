//! The turns of queued calls come where none of them goes.

ghost use Rattle.std.specs.Prelude.{◌≡◌, ◌<◌, ◌≤◌, ◌+◌, ◌^◌, ℕ, Some, false, fold, IsTrue, IsFalse};
ghost use Rattle.std.specs.List.{list_any};
ghost use Rattle.call_table.specs.declared.call.CallNo.{CallNo};
ghost use Rattle.call_table.specs.Kept.{state_in};
ghost use Rattle.call_table.specs.Table.{IsGiven, Queued};
ghost use Rattle.client_rules.specs.Filling.{Filling, says_call};
ghost use Rattle.client_core.specs.Draft.{Goes, LeavesQueue, nothing_yet, queue};
ghost use Rattle.client_core.specs.Due.{Quiet, goes_at};

use crate::core_client::Core;
use crate::turns::Turn;
use call_table::laws::tables_tell;
use call_table::{CallNo, Fate, Group};
use client_calls::laws::calls_stay_sound;
use draws::Draw;

impl Core {
    /// The turn of a queued call comes that doesn't go: it is refused where it never goes. Whether it left the queue.
    fn gives_up_call<D: Draw>(&mut self, call: CallNo) -> bool
        requires given { IsGiven call self.old.calls.rows }
        requires queued { state_in call self.old.calls.rows ≡ Some Queued }
        ensures goes { (filling : Filling D) → Goes self.old nothing_yet filling → goes_at filling.client call ≡ false → Goes self.new nothing_yet (says_call filling call) }
        ensures left { IsTrue result → (filling : Filling D) → Goes self.old nothing_yet filling → goes_at filling.client call ≡ false → LeavesQueue call filling (says_call filling call) }
        ensures waits { IsFalse result → (filling : Filling D) → Goes self.old nothing_yet filling → goes_at filling.client call ≡ false → says_call filling call ≡ filling }
        ensures none { (filling : Filling D) (other : CallNo) → Goes self.old nothing_yet filling → goes_at filling.client call ≡ false
            → goes_at (says_call filling call).client other ≡ goes_at filling.client other }
        ensures rest { self.new.rest ≡ self.old.rest }
    {
        tables_tell();
        match self.turn(call) {
            Turn::Goes(_) => false,
            Turn::Waits => false,
            Turn::Never => {
                calls_stay_sound();
                self.calls.settle(call, Fate::Refused(0));
                true
            }
        }
    }

    /// The turn of the queued call comes that has so many waiting before it. How many wait before the next one.
    fn gives_up_next<D: Draw>(&mut self, place: usize) -> usize
        requires small { place + 1 < 2 ^ 64 }
        ensures quiet { (first : Filling D) (k count : ℕ) → k < count → Quiet first self.old place k count → Quiet first self.new result (k + 1) count }
        ensures few { result ≤ place + 1 }
        ensures rest { self.new.rest ≡ self.old.rest }
    {
        match self.calls.member(Group::Queued, place) {
            None => place,
            Some(call) => {
                if self.gives_up_call::<D>(call) {
                    place
                } else {
                    place + 1
                }
            }
        }
    }

    /// The turns of all queued calls come, of which none goes.
    pub(crate) fn gives_up<D: Draw>(&mut self)
        ensures goes { (filling : Filling D) → Goes self.old nothing_yet filling → list_any (goes_at filling.client) (queue filling) ≡ false
            → Goes self.new nothing_yet (fold says_call filling (queue filling)) }
        ensures rest { self.new.rest ≡ self.old.rest }
    {
        let count = self.calls.members(Group::Queued);
        let mut place = 0;
        for k in 0..count {
            place = self.gives_up_next::<D>(place);
        }
    }
}
