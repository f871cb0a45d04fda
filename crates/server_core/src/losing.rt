//! Sessions that have no room for the numbers of a further event are lost with their jobs.

ghost use Rattle.std.specs.Prelude.{◌≡◌, ◌≤◌, ◌<◌, ℕ, List, All, length, slice_index_or};
ghost use Rattle.std.specs.List.{position};
ghost use Rattle.auth_keys.specs.declared.ring.RingKey.{RingKey};
ghost use Rattle.waits.specs.Jobs.{without_session};
ghost use Rattle.server_rules.specs.Answer.{room_min, without_spent};
ghost use Rattle.server_rules.specs.Event.{State};
ghost use Rattle.server_session.specs.declared.session.SessionState.{SessionState};
ghost use Rattle.server_session.specs.Names.{name_kept};
ghost use Rattle.server_session.specs.SessionState.{key_of, number_of, numbers_left};
ghost use Rattle.server_core.specs.Losing.{IsHere, is_spent_kept};
ghost use Rattle.server_core.specs.Sessions.{AreApart, AreKept, without_kept};

use crate::sessions::{ROOM_MIN, Sessions};
use draws::Draw;
use server_session::laws::sessions_stand_later;
use waits::Jobs;

impl Sessions {
    // The place of the first session that has no room for the numbers of a further event; `None` where each has.
    fn spent_place(&self) -> Option<usize>
        ensures { result ≡ position is_spent_kept self.now }
    {
        self.list
            .iter()
            .position(|standing| standing.numbers_left() < ROOM_MIN)
    }

    // The key and the number of the session at this place.
    fn name_at(&self, place: usize) -> (u64, u64)
        requires { place < length self.now }
        ensures key { (d : SessionState) → result.0 ≡ key_of (slice_index_or self.now place d) }
        ensures number { (d : SessionState) → result.1 ≡ number_of (slice_index_or self.now place d) }
        ensures apart { AreApart self.now }
    {
        let standing = &self.list[place];
        (standing.key(), standing.number())
    }

    /// How many there are.
    pub(crate) fn count(&self) -> usize
        ensures { result ≡ length self.now }
    {
        self.list.len()
    }
}

// The session at this place is lost with its jobs.
fn lose_at(sessions: &mut Sessions, jobs: &mut Jobs, place: usize)
    requires { place < length sessions.old }
    ensures sessions { (d : SessionState) → sessions.new ≡ without_kept (name_kept (slice_index_or sessions.old place d)) sessions.old }
    ensures jobs { (d : SessionState) → jobs.new.jobs ≡ without_session (key_of (slice_index_or sessions.old place d)) (number_of (slice_index_or sessions.old place d)) jobs.old.jobs }
    ensures apart { AreApart sessions.old }
{
    let (key, number) = sessions.name_at(place);
    jobs.forget(key, number);
    sessions.take_out(key, number);
}

/// Each session that has no room for the numbers of a further event is lost with its jobs. Takes no memory.
pub(crate) fn lose_all_spent<D: Draw>(sessions: &mut Sessions, jobs: &mut Jobs)
    ensures lost { (now : ℕ) (state : State D) → AreKept now sessions.old state.sessions → jobs.old.jobs ≡ state.jobs
        → AreKept now sessions.new (without_spent state).sessions × (jobs.new.jobs ≡ (without_spent state).jobs) }
    ensures left { All (λ standing. room_min ≤ numbers_left standing) sessions.new }
    ensures here { (ring : List RingKey) (now : ℕ) → All (IsHere ring now) sessions.old → All (IsHere ring now) sessions.new }
    ensures fewer { length sessions.new ≤ length sessions.old }
{
    sessions_stand_later();
    for step in 0..sessions.count() {
        let Some(place) = sessions.spent_place() else {
            return;
        };
        lose_at(sessions, jobs, place);
    }
}
