//! Another session is destroyed (core.telegram.org/mtproto/service_messages, "Request to Destroy Session").

ghost use Rattle.std.specs.Prelude.{◌≡◌, List, is_some};
ghost use Rattle.server_rules.specs.Server.{Binding};
ghost use Rattle.server_output.specs.Items.{destroyed_bytes};
ghost use Rattle.server_session.specs.SessionState.{key_of, outbox_of};
ghost use Rattle.server_session.specs.Unsaid.{NoMoreUnsaid};
ghost use Rattle.server_session.specs.Says.{Keys, setting_of};
ghost use Rattle.server_dispatch.specs.Speaks.{HasRoom, Speaks, Spends};
ghost use Rattle.server_core.specs.Sessions.{AreKept, kept_as, without_kept};
ghost use Rattle.server_core.specs.Server.{without_jobs_where};
ghost use Rattle.server_core.specs.Among.{Among, destroys_another};

use crate::others::Others;
use draws::Draw;
use msg_ids::Moment;
use server_dispatch::Turn;
use server_session::SessionState;
use server_session::laws::sessions_stand_later;
use waits::Jobs;

/// The other session of its key with this number is lost with its jobs, where there is one, and the session says whether there
/// was. Takes no memory.
pub(crate) fn destroys<D: Draw>(
    turn: &mut Turn,
    now: Moment,
    standing: &mut SessionState,
    others: &mut Others,
    jobs: &mut Jobs,
    destroyed: u64,
)
    requires room { HasRoom 1 destroyed_bytes 0 standing.old turn.old }
    ensures speaks { (keys : Keys) (bindings : List Binding) (draw : D) (among : Among D) → AreKept now others.old among.others
        → Speaks now standing.old turn.old jobs.old.jobs bindings draw among.speaker
        → Speaks now standing.new turn.new jobs.new.jobs bindings draw (destroys_another (setting_of now D.step keys) destroyed among).speaker }
    ensures kept { (keys : Keys) (bindings : List Binding) (draw : D) (among : Among D) → AreKept now others.old among.others
        → Speaks now standing.old turn.old jobs.old.jobs bindings draw among.speaker
        → AreKept now others.new (destroys_another (setting_of now D.step keys) destroyed among).others }
    ensures others { others.new ≡ without_kept (record { key = key_of standing.old; session = destroyed }) others.old }
    ensures spends { Spends now 1 destroyed_bytes 0 standing.old turn.old standing.new turn.new }
    ensures unsaid { NoMoreUnsaid standing.old turn.old.owing standing.new turn.new.owing }
    ensures same_replies { outbox_of standing.new ≡ outbox_of standing.old }
    ensures same_job_room { jobs.new.room ≡ jobs.old.room }
{
    sessions_stand_later();
    let lost = loses(others, jobs, standing.key(), destroyed);
    turn.says_destroyed::<D>(now, standing, destroyed, lost);
}

// The session of this name is lost with its jobs; whether there was one.
fn loses(others: &mut Others, jobs: &mut Jobs, key: u64, number: u64) -> bool
    ensures found { result ≡ is_some (kept_as (record { key = key; session = number }) others.old) }
    ensures others { others.new ≡ without_kept (record { key = key; session = number }) others.old }
    ensures jobs { jobs.new.jobs ≡ without_jobs_where result (record { key = key; session = number }) jobs.old.jobs }
    ensures same_room { jobs.new.room ≡ jobs.old.room }
{
    match others.take_out(key, number) {
        Some(_lost) => {
            jobs.forget(key, number);
            true
        }
        None => false,
    }
}
