//! The turn of a queued call.

ghost use Rattle.std.specs.Prelude.{◌≡◌, ◌≤◌, ◌<◌, ◌+◌, ◌-◌, ◌^◌, ℕ, fold, length, true, false, IfSome, IsTrue, IsFalse, None, Option, Some, option_map};
ghost use Rattle.call_table.specs.Kept.{Stands as StandsFor, state_in};
ghost use Rattle.call_table.specs.Table.{IsGiven, Queued, Table, at};
ghost use Rattle.client_rules.specs.Client.{Client, calls_of};
ghost use Rattle.client_rules.specs.Filling.{Filling, Goes as Going, says_call, takes_turn, turn_after, turn_behind, turn_of, turn_under};
ghost use Rattle.client_core.specs.Calling.{turn_in};
ghost use Rattle.client_core.specs.Draft.{Goes, HasNumbers, LeavesQueue, SoFar, queue};
ghost use Rattle.client_core.specs.Owed.{GoesWith, HasRoomFrom, HasRoomOf, IsQueuedAt, follows_at, holds_back};
ghost use Rattle.client_core.specs.Kept.{Stands, binding_in};

use crate::binding::Binding;
use crate::core_client::Core;
use crate::filling::Draft;
use call_table::laws::tables_tell;
use call_table::{CallNo, CallState, Calls, Fate, Group, Living};
use client_calls::laws::calls_stay_sound;
use draws::Draw;
use service_tl::is_good;

/// What a queued call does when its turn comes.
#[derive(Clone, Copy)]
pub(crate) enum Turn {
    /// It goes, behind the message of this number where there is one.
    Goes(Option<u64>),
    /// It waits.
    Waits,
    /// It never goes.
    Never,
}

/// The turn of a call that is to execute after this one, if one is given.
fn turn_after(calls: &Calls, after: Option<CallNo>) -> Turn
    requires given { IfSome after (λ one. IsGiven one calls.now.rows) }
    ensures told { (table : Table) → StandsFor calls.now table → turn_in result ≡ turn_after table.calls after }
    ensures first { after ≡ None → turn_in result ≡ Going None }
{
    match after {
        None => Turn::Goes(None),
        Some(earlier) => turn_behind(calls, earlier),
    }
}

fn turn_behind(calls: &Calls, earlier: CallNo) -> Turn
    requires given { IsGiven earlier calls.now.rows }
    ensures { (table : Table) → StandsFor calls.now table → turn_in result ≡ turn_behind (at earlier table.calls) }
{
    match calls.state(earlier) {
        CallState::Done(bytes) => {
            if is_good(bytes) {
                Turn::Goes(None)
            } else {
                Turn::Never
            }
        }
        CallState::Sent => Turn::Goes(number_of(calls.living(earlier))),
        CallState::Queued | CallState::Held => Turn::Waits,
        CallState::Refused(_) | CallState::Unknown(_) => Turn::Never,
    }
}

fn number_of(living: Option<Living>) -> Option<u64>
    ensures { result ≡ option_map (λ living. living.number) living }
{
    match living {
        None => None,
        Some(living) => Some(living.number),
    }
}

fn turn_under(binding: &Binding, turn: Turn) -> Turn
    ensures { turn_in result ≡ turn_under (binding_in binding.now) (turn_in turn) }
{
    match binding {
        Binding::Bound => turn,
        Binding::Refused(_) => Turn::Never,
        _ => Turn::Waits,
    }
}

impl Core {
    /// The turn of a call.
    pub(crate) fn turn(&self, call: CallNo) -> Turn
        requires given { IsGiven call self.now.calls.rows }
        ensures told { (client : Client) → Stands self.now client → IfSome (at call (calls_of client)) (λ one. turn_in result ≡ turn_of client one) }
        ensures wrap { (wrap : Option ℕ) → turn_in result ≡ Going wrap → GoesWith wrap call self.now.calls.rows }
        ensures held { (wrap : Option ℕ) → turn_in result ≡ Going wrap → holds_back self.now.rest ≡ false }
        ensures first { holds_back self.now.rest ≡ false → follows_at self.now.calls.rows (Some (call.n - 1)) ≡ false → turn_in result ≡ Going None }
    {
        let turn = turn_after(&self.calls, self.calls.after(call));
        if !self.is_open() {
            return turn;
        }
        match &self.temporary {
            None => turn,
            Some(temporary) => turn_under(&temporary.binding, turn),
        }
    }

    /// Puts a queued call in the packet, where it fits, and whether it does.
    fn sends_call<D: Draw>(&mut self, draft: &mut Draft, call: CallNo, wrap: Option<u64>) -> bool
        requires given { IsGiven call self.old.calls.rows }
        requires queued { state_in call self.old.calls.rows ≡ Some Queued }
        requires wrap { GoesWith wrap call self.old.calls.rows }
        requires numbers { HasNumbers self.old draft.old }
        requires bytes { HasRoomOf self.old call draft.old }
        ensures goes { (filling : Filling D) → Goes self.old draft.old filling
            → IfSome (at call (calls_of filling.client)) (λ one. Goes self.new draft.new (takes_turn call one.body (Going wrap) filling)) }
        ensures left { IsTrue result → (filling : Filling D) → Goes self.old draft.old filling
            → IfSome (at call (calls_of filling.client)) (λ one. LeavesQueue call filling (takes_turn call one.body (Going wrap) filling)) }
        ensures full { IsFalse result → draft.new.is_full ≡ true }
        ensures numbers { HasNumbers self.new draft.new }
        ensures bytes_left { IsTrue result → (place : ℕ) → IsQueuedAt place call self.old.calls.rows → HasRoomFrom self.old place draft.old → HasRoomFrom self.new place draft.new }
        ensures same_room { length draft.new.rows + draft.new.room ≡ length draft.old.rows + draft.old.room }
        ensures rest { record self.new.rest { counters = self.old.rest.counters } ≡ self.old.rest }
    {
        calls_stay_sound();
        let at = self.time();
        match draft.send(at, &mut self.numbers, wrap, self.calls.body(call)) {
            None => false,
            Some((number, seq)) => {
                let living = Living { number, seq, wrap };
                self.calls.send(call, self.session, living, self.salt);
                true
            }
        }
    }

    /// The turn of a queued call comes. Whether it left the queue.
    pub(crate) fn says_call<D: Draw>(&mut self, draft: &mut Draft, call: CallNo) -> bool
        requires given { IsGiven call self.old.calls.rows }
        requires queued { state_in call self.old.calls.rows ≡ Some Queued }
        requires numbers { HasNumbers self.old draft.old }
        requires bytes { holds_back self.old.rest ≡ false → HasRoomOf self.old call draft.old }
        requires room { draft.old.is_full ≡ false }
        ensures goes { (filling : Filling D) → Goes self.old draft.old filling → Goes self.new draft.new (says_call filling call) }
        ensures left { IsTrue result → (filling : Filling D) → Goes self.old draft.old filling → LeavesQueue call filling (says_call filling call) }
        ensures waits { IsFalse result → draft.new.is_full ≡ false → (filling : Filling D) → Goes self.old draft.old filling → says_call filling call ≡ filling }
        ensures numbers { HasNumbers self.new draft.new }
        ensures bytes_left { IsTrue result → (place : ℕ) → IsQueuedAt place call self.old.calls.rows → HasRoomFrom self.old place draft.old → HasRoomFrom self.new place draft.new }
        ensures bytes_behind { IsFalse result → (place : ℕ) → IsQueuedAt place call self.old.calls.rows → HasRoomFrom self.old place draft.old → HasRoomFrom self.new (place + 1) draft.new }
        ensures same_room { length draft.new.rows + draft.new.room ≡ length draft.old.rows + draft.old.room }
        ensures rest { record self.new.rest { counters = self.old.rest.counters } ≡ self.old.rest }
    {
        tables_tell();
        match self.turn(call) {
            Turn::Goes(wrap) => self.sends_call::<D>(draft, call, wrap),
            Turn::Waits => false,
            Turn::Never => {
                calls_stay_sound();
                self.calls.settle(call, Fate::Refused(0));
                true
            }
        }
    }

    /// The turn of the queued call comes that has so many waiting before it. How many wait before the next one.
    fn says_next<D: Draw>(&mut self, draft: &mut Draft, place: usize) -> usize
        requires small { place + 1 < 2 ^ 64 }
        requires room { draft.old.is_full ≡ false }
        requires numbers { HasNumbers self.old draft.old }
        requires bytes { HasRoomFrom self.old place draft.old }
        ensures so_far { (first : Filling D) (k count : ℕ) → k < count → SoFar first self.old draft.old place k count → SoFar first self.new draft.new result (k + 1) count }
        ensures few { result ≤ place + 1 }
        ensures numbers { HasNumbers self.new draft.new }
        ensures bytes_left { HasRoomFrom self.new result draft.new }
        ensures same_room { length draft.new.rows + draft.new.room ≡ length draft.old.rows + draft.old.room }
        ensures rest { record self.new.rest { counters = self.old.rest.counters } ≡ self.old.rest }
    {
        match self.calls.member(Group::Queued, place) {
            None => place,
            Some(call) => {
                if self.says_call::<D>(draft, call) {
                    place
                } else {
                    place + 1
                }
            }
        }
    }

    /// The turns of all queued calls come, in order, until one doesn't fit.
    pub(crate) fn says_calls<D: Draw>(&mut self, draft: &mut Draft)
        requires numbers { HasNumbers self.old draft.old }
        requires bytes { HasRoomFrom self.old 0 draft.old }
        ensures goes { (filling : Filling D) → Goes self.old draft.old filling → Goes self.new draft.new (fold says_call filling (queue filling)) }
        ensures numbers { HasNumbers self.new draft.new }
        ensures same_room { length draft.new.rows + draft.new.room ≡ length draft.old.rows + draft.old.room }
        ensures rest { record self.new.rest { counters = self.old.rest.counters } ≡ self.old.rest }
    {
        let count = self.calls.members(Group::Queued);
        let mut place = 0;
        for k in 0..count {
            if draft.is_full() {
                return;
            }
            place = self.says_next::<D>(draft, place);
        }
    }
}
