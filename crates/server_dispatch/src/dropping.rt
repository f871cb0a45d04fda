//! What a session owes to a request to drop the answer to a call
//! (core.telegram.org/mtproto/service_messages, "Cancellation of an RPC Query").

ghost use Rattle.std.specs.Prelude.{◌≡◌, ◌≤◌, ◌<◌, ◌+◌, ◌∷◌, ℕ, List, None};
ghost use Rattle.id_window.specs.History.{History};
ghost use Rattle.waits.specs.Jobs.{Queue};
ghost use Rattle.server_rules.specs.Calls.{drops_answer, drops_by};
ghost use Rattle.server_rules.specs.Event.{Speaker};
ghost use Rattle.server_rules.specs.Server.{Binding, Name};
ghost use Rattle.law_server.specs.Order.{AreReplies, IsSpeaking, IsUnanswered};
ghost use Rattle.server_dispatch.specs.Contents.{short_bytes_max};
ghost use Rattle.server_output.specs.Items.{result_bytes};
ghost use Rattle.server_session.specs.Fates.{kept_to};
ghost use Rattle.server_session.specs.SessionState.{replies_left};
ghost use Rattle.server_session.specs.Says.{Keys, setting_of};
ghost use Rattle.server_session.specs.Unsaid.{NoMoreUnsaid};
ghost use Rattle.server_dispatch.specs.Speaks.{HasRoom, Speaks, Spends};

use crate::short::Short;
use crate::turn::Turn;
use draws::Draw;
use law_server::laws::speech_keeps_order;
use msg_ids::Moment;
use server_session::SessionState;
use waits::Jobs;

impl Turn {
    /// The session answers the message of this number, which asks to drop the answer to a call. Where that call is
    /// unfinished, its job is taken out and it is answered next, and the jobs that wait for it are told; where the reply
    /// to it is kept, that is kept no more.
    pub fn drops_answer<D: Draw>(
        &mut self,
        now: Moment,
        standing: &mut SessionState,
        jobs: &mut Jobs,
        number: u64,
        call: u64,
    )
        requires room { HasRoom 2 (result_bytes short_bytes_max + result_bytes short_bytes_max) 1 standing.old self.old }
        requires replies { 1 < replies_left standing.old }
        ensures speaks { (keys : Keys) (bindings : List Binding) (draw : D) (speaker : Speaker D) (name : Name) (others : Name → Queue) (past : History) (opened : List ℕ)
            → IsSpeaking name others past (number ∷ opened) speaker
            → Speaks now standing.old self.old jobs.old.jobs bindings draw speaker
            → Speaks now standing.new self.new jobs.new.jobs bindings draw (drops_answer (setting_of now D.step keys) number call speaker) }
        ensures spends { Spends now 2 (result_bytes short_bytes_max + result_bytes short_bytes_max) 1 standing.old self.old standing.new self.new }
        ensures unsaid { NoMoreUnsaid standing.old self.old.owing standing.new self.new.owing }
        ensures replies_last { replies_left standing.old ≤ replies_left standing.new + 2 }
        ensures same_job_room { jobs.new.room ≡ jobs.old.room }
    {
        speech_keeps_order::<D>();
        match jobs.cancel(standing.key(), standing.number(), call) {
            Some(job) => {
                self.answers_shortly::<D>(now, standing, number, Short::DroppedRunning);
                self.gives_up::<D>(now, standing, jobs, job, Short::DroppedRunning);
            }
            None => self.drops_kept::<D>(now, standing, number, call),
        }
    }

    // The session answers a request to drop the answer to a call that isn't unfinished.
    fn drops_kept<D: Draw>(
        &mut self,
        now: Moment,
        standing: &mut SessionState,
        number: u64,
        call: u64,
    )
        requires room { HasRoom 1 (result_bytes short_bytes_max) 0 standing.old self.old }
        requires replies { 0 < replies_left standing.old }
        ensures speaks { (keys : Keys) (jobs : Queue) (bindings : List Binding) (draw : D) (speaker : Speaker D)
            → AreReplies speaker.session.history speaker.session.replies speaker.session.counters.last → IsUnanswered speaker.session.replies number
            → Speaks now standing.old self.old jobs bindings draw speaker
            → Speaks now standing.new self.new jobs bindings draw (drops_by (setting_of now D.step keys) number None (kept_to call speaker.session.replies) speaker) }
        ensures spends { Spends now 1 (result_bytes short_bytes_max) 0 standing.old self.old standing.new self.new }
        ensures unsaid { NoMoreUnsaid standing.old self.old.owing standing.new self.new.owing }
        ensures replies_last { replies_left standing.new + 1 ≡ replies_left standing.old }
    {
        match standing.drops_reply(call) {
            Some(dropped) => {
                standing.answers_dropped::<D>(now, &mut self.owing, number, &dropped);
            }
            None => self.answers_shortly::<D>(now, standing, number, Short::AnswerUnknown),
        }
    }
}
