//! The session of a packet is heard, and is the one heard last from then on.

ghost use Rattle.std.specs.Prelude.{◌≡◌, ◌≢◌, ◌<◌, ℕ, [], All, IfOk, OnErr, OnOk, Some, length, slice_index_or};
ghost use Rattle.std.specs.List.{position, remove};
ghost use Rattle.server_rules.specs.Server.{Name, Server as Rules};
ghost use Rattle.server_rules.specs.Event.{Envelope, Setting, State};
ghost use Rattle.server_rules.specs.Answer.{begun, name_in, with_place as place_made};
ghost use Rattle.server_session.specs.declared.session.SessionState.{SessionState as One};
ghost use Rattle.server_session.specs.Names.{name_kept};
ghost use Rattle.server_core.specs.Sessions.{AreApart, AreKept, is_kept_as, without_kept};
ghost use Rattle.server_core.specs.Among.{heard_among};
ghost use Rattle.server_core.specs.Hearing.{IsHeard};
ghost use Rattle.server_core.specs.Others.{first_lost, with_place, without_lost};

use crate::others::Others;
use crate::sessions::Sessions;
use draws::Draw;
use octets::Memory;
use server_session::SessionState;
use server_session::laws::sessions_stand_later;
use std::alloc::Global;
use waits::Jobs;

/// The session at this place is heard, and speaks among the others. Takes no memory.
pub(crate) fn hears_known<D: Draw>(
    sessions: &mut Sessions,
    alloc: Global,
    place: usize,
) -> (Others, SessionState)
    requires place { place < length sessions.old }
    ensures heard { (setting : Setting D) (envelope : Envelope) (server : Rules) (draw : D) → AreKept setting.now sessions.old server.sessions
        → position (is_kept_as (name_in envelope)) sessions.old ≡ Some place
        → IsHeard setting.now result.0 result.1 server.jobs server.bindings draw (heard_among setting envelope (begun server draw)) }
    ensures named { (name : Name) → position (is_kept_as name) sessions.old ≡ Some place → name_kept result.1 ≡ name }
    ensures apart { (name : Name) → position (is_kept_as name) sessions.old ≡ Some place → All (λ other. name_kept other ≢ name) result.0 }
    ensures others { (name : Name) → position (is_kept_as name) sessions.old ≡ Some place → result.0 ≡ without_kept name sessions.old }
    ensures removed { result.0 ≡ remove sessions.old place }
    ensures at_place { (d : One) → result.1 ≡ slice_index_or sessions.old place d }
    ensures sessions_apart { AreApart sessions.old }
    ensures lent { sessions.new ≡ [] }
{
    sessions_stand_later();
    sessions.lend(alloc, place)
}

/// All sessions, among which there is room for a further one: where all places are taken, the one heard least recently is lost
/// with its jobs.
///
/// # Errors
///
/// `Memory`, and then none is lost.
pub(crate) fn makes_place<D: Draw>(
    sessions: &mut Sessions,
    jobs: &mut Jobs,
    alloc: Global,
) -> Result<Others, Memory>
    ensures placed { (now : ℕ) (state : State D) → AreKept now sessions.old state.sessions → IfOk result (λ others. AreKept now others (place_made state).sessions) }
    ensures jobs { (now : ℕ) (state : State D) → AreKept now sessions.old state.sessions → jobs.old.jobs ≡ state.jobs
        → OnOk result (jobs.new.jobs ≡ (place_made state).jobs) }
    ensures others { IfOk result (λ others. others ≡ with_place sessions.old) }
    ensures same_job_room { jobs.new.room ≡ jobs.old.room }
    ensures lent { OnOk result (sessions.new ≡ []) }
    ensures unchanged_on_memory { OnErr result ((sessions.new ≡ sessions.old) × (jobs.new ≡ jobs.old)) }
{
    sessions_stand_later();
    let mut others = sessions.lend_all(alloc)?;
    loses_first(&mut others, jobs);
    Ok(others)
}

// Where all places are taken, the session heard least recently is lost with its jobs.
fn loses_first(others: &mut Others, jobs: &mut Jobs)
    ensures others { others.new ≡ with_place others.old }
    ensures jobs { jobs.new.jobs ≡ without_lost (first_lost others.old) jobs.old.jobs }
    ensures same_room { jobs.new.room ≡ jobs.old.room }
{
    if let Some(lost) = others.make_place() {
        jobs.forget(lost.key(), lost.number());
    }
}
