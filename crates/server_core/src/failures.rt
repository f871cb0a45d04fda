//! Jobs of a session that have failed.

ghost use Rattle.std.specs.Prelude.{◌≡◌, ◌≤◌, ◌+◌, ◌*◌, ℕ, Bool, List, length};
ghost use Rattle.id_window.specs.History.{History};
ghost use Rattle.outbox.specs.declared.kept.Kept.{Kept};
ghost use Rattle.waits.specs.Jobs.{Queue};
ghost use Rattle.server_rules.specs.Server.{Binding, Name};
ghost use Rattle.server_rules.specs.Event.{Speaker};
ghost use Rattle.server_rules.specs.Waiting.{tells_of};
ghost use Rattle.server_dispatch.specs.Contents.{short_bytes_max};
ghost use Rattle.server_output.specs.Items.{result_bytes};
ghost use Rattle.server_session.specs.SessionState.{replies_left};
ghost use Rattle.server_session.specs.Says.{Keys, setting_of};
ghost use Rattle.server_dispatch.specs.Spare.{Uses};
ghost use Rattle.server_dispatch.specs.Speaks.{HasRoom, IsSpokenBy, Speaks, Spends};
ghost use Rattle.server_core.specs.Among.{tells_all};
ghost use Rattle.server_core.specs.One.{fails_all};
ghost use Rattle.server_core.specs.Failures.{HasFailures, blocked_of};

use draws::Draw;
use law_server::laws::{rows_keep_order, taken_jobs_are_open};
use msg_ids::Moment;
use server_dispatch::{Short, Speaking, Turn};
use server_session::SessionState;
use waits::Jobs;

/// Each job of the session that has failed is answered in place of a run, the first in order of acceptance first, and one
/// that fails only by such an answer in its turn. So many are answered at most; there are no more where so many jobs of the
/// session aren't ready. Says how many were. Takes no memory.
pub(crate) fn answers_failed<D: Draw>(
    turn: &mut Turn,
    now: Moment,
    standing: &mut SessionState,
    jobs: &mut Jobs,
    limit: usize,
) -> usize
    requires room { HasRoom limit (limit * result_bytes short_bytes_max) limit standing.old turn.old }
    requires replies { limit ≤ replies_left standing.old }
    ensures speaks { (keys : Keys) (bindings : List Binding) (draw : D) (name : Name) (others : Name → Queue) (past : History) (speaker : Speaker D)
        → Speaks now standing.old turn.old jobs.old.jobs bindings draw speaker → HasFailures name others past speaker → blocked_of name speaker.jobs ≤ limit
        → Speaks now standing.new turn.new jobs.new.jobs bindings draw (fails_all (setting_of now D.step keys) (length speaker.jobs) speaker) }
    ensures spends { Spends now limit (limit * result_bytes short_bytes_max) limit standing.old turn.old standing.new turn.new }
    ensures few { result ≤ limit }
    ensures fewer { (keys : Keys) (bindings : List Binding) (draw : D) (name : Name) (others : Name → Queue) (past : History) (speaker : Speaker D)
        → Speaks now standing.old turn.old jobs.old.jobs bindings draw speaker → HasFailures name others past speaker
        → blocked_of name jobs.new.jobs + result ≤ blocked_of name speaker.jobs }
    ensures uses { (called : Kept → Bool) → Uses called now result (result * result_bytes short_bytes_max) result result standing.old turn.old standing.new turn.new }
    ensures replies_last { replies_left standing.old ≤ replies_left standing.new + limit }
    ensures same_job_room { jobs.new.room ≡ jobs.old.room }
{
    taken_jobs_are_open::<D>();
    rows_keep_order::<D>();
    for place in 0..limit {
        let Some(job) = jobs.failed() else {
            return place;
        };
        turn.gives_up::<D>(now, standing, jobs, job, Short::MsgWaitFailed);
    }
    limit
}

/// The jobs of the session that wait for this number are told what becomes of it, and then each that has failed is answered, as
/// by `answers_failed`. Takes no memory.
pub(crate) fn tells_jobs<D: Draw>(
    speaking: &mut Speaking,
    now: Moment,
    number: u64,
    limit: usize,
) -> usize
    requires room { HasRoom limit (limit * result_bytes short_bytes_max) limit speaking.old.standing speaking.old.turn }
    requires replies { limit ≤ replies_left speaking.old.standing }
    ensures speaks { (keys : Keys) (draw : D) (name : Name) (others : Name → Queue) (past : History) (speaker : Speaker D) → IsSpokenBy now speaking.old draw speaker
        → HasFailures name others past (tells_of number speaker) → blocked_of name (tells_of number speaker).jobs ≤ limit
        → IsSpokenBy now speaking.new draw (tells_all (setting_of now D.step keys) number speaker) }
    ensures few { result ≤ limit }
    ensures fewer { (keys : Keys) (draw : D) (name : Name) (others : Name → Queue) (past : History) (speaker : Speaker D) → IsSpokenBy now speaking.old draw speaker
        → HasFailures name others past (tells_of number speaker) → blocked_of name speaking.new.jobs.jobs + result ≤ blocked_of name (tells_of number speaker).jobs }
    ensures uses { (called : Kept → Bool) → Uses called now result (result * result_bytes short_bytes_max) result result speaking.old.standing speaking.old.turn speaking.new.standing speaking.new.turn }
    ensures same_job_room { speaking.new.jobs.room ≡ speaking.old.jobs.room }
    ensures same_binding_room { speaking.new.bindings.room ≡ speaking.old.bindings.room }
{
    speaking.standing.tells_of::<D>(&mut speaking.jobs, number);
    answers_failed::<D>(
        &mut speaking.turn,
        now,
        &mut speaking.standing,
        &mut speaking.jobs,
        limit,
    )
}
