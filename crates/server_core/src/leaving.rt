//! The end of a packet's event.

ghost use Rattle.std.specs.Prelude.{◌≡◌, ◌≢◌, ℕ, All, nat_lt};
ghost use Rattle.server_rules.specs.Answer.{is_spent, room_min};
ghost use Rattle.server_session.specs.Names.{name_kept};
ghost use Rattle.server_session.specs.SessionState.{Stands, numbers_left};
ghost use Rattle.server_core.specs.Among.{Among, left_where};
ghost use Rattle.server_core.specs.Others.{with_last_where};
ghost use Rattle.server_core.specs.Server.{without_jobs_where};
ghost use Rattle.server_core.specs.Sessions.{AreKept};

use crate::others::Others;
use crate::sessions::{ROOM_MIN, Sessions};
use draws::Draw;
use server_session::SessionState;
use server_session::laws::sessions_stand_later;
use waits::Jobs;

/// All sessions, where the one that spoke is the one heard last, or is lost with its jobs where it has no room for the numbers
/// of a further event. Takes no memory.
pub(crate) fn goes_back<D: Draw>(
    jobs: &mut Jobs,
    others: Others,
    standing: SessionState,
) -> Sessions
    requires apart { All (λ other. name_kept other ≢ name_kept standing) others }
    ensures kept { (now : ℕ) (among : Among D) → AreKept now others among.others → Stands now standing among.speaker.session
        → AreKept now result (left_where (is_spent among.speaker.session) among).sessions }
    ensures left { (now : ℕ) (among : Among D) → Stands now standing among.speaker.session → jobs.old.jobs ≡ among.speaker.jobs
        → jobs.new.jobs ≡ (left_where (is_spent among.speaker.session) among).jobs }
    ensures sessions { result ≡ with_last_where (nat_lt (numbers_left standing) room_min) standing others }
    ensures same_job_room { jobs.new.room ≡ jobs.old.room }
{
    sessions_stand_later();
    let is_spent = standing.numbers_left() < ROOM_MIN;
    forgets(jobs, is_spent, standing.key(), standing.number());
    back(is_spent, others, standing)
}

// The jobs of the session of this name are lost where this is so.
fn forgets(jobs: &mut Jobs, so: bool, key: u64, number: u64)
    ensures jobs { jobs.new.jobs ≡ without_jobs_where so (record { key = key; session = number }) jobs.old.jobs }
    ensures same_room { jobs.new.room ≡ jobs.old.room }
{
    if so {
        jobs.forget(key, number);
    }
}

// All sessions, and last the one that spoke, unless it is lost.
fn back(lost: bool, others: Others, standing: SessionState) -> Sessions
    requires { All (λ other. name_kept other ≢ name_kept standing) others }
    ensures { result ≡ with_last_where lost standing others }
{
    if lost {
        others.without_it()
    } else {
        others.with_it(standing)
    }
}
