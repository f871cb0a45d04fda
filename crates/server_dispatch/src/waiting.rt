//! Calls of a session that become jobs, and jobs that are answered.

ghost use Rattle.std.specs.Prelude.{◌≡◌, ◌≤◌, ◌<◌, ◌+◌, ℕ, List, length, option_map, IfNone};
ghost use Rattle.waits.specs.Jobs.{Queue, job_bytes, job_count, load_of};
ghost use Rattle.waits.specs.Limits.{most_job_bytes, most_jobs};
ghost use Rattle.server_rules.specs.Answer.{finishes};
ghost use Rattle.server_rules.specs.Calls.{accepts_call, each_once, refusal};
ghost use Rattle.server_rules.specs.Event.{Speaker};
ghost use Rattle.server_rules.specs.Server.{Binding};
ghost use Rattle.server_rules.specs.Waiting.{gives_up};
ghost use Rattle.law_server.specs.Order.{IsUnanswered};
ghost use Rattle.server_dispatch.specs.Contents.{content_of, short_bytes_max};
ghost use Rattle.server_output.specs.Items.{IsContent, result_bytes};
ghost use Rattle.server_session.specs.SessionState.{Stands, replies_left};
ghost use Rattle.server_session.specs.Says.{Keys, setting_of};
ghost use Rattle.server_session.specs.Unsaid.{NoMoreUnsaid};
ghost use Rattle.server_dispatch.specs.Rings.{AreOf};
ghost use Rattle.server_dispatch.specs.Speaks.{HasRoom, Speaks, Spends};

use crate::bindings::Bindings;
use crate::calls::{CallDue, is_full, is_unbound, query_refusal, waits_in_vain};
use crate::entries::Entry;
use crate::short::Short;
use crate::turn::Turn;
use auth_keys::Ring;
use draws::Draw;
use msg_ids::Moment;
use octets::IdList;
use outbox::Bytes;
use server_session::SessionState;
use waits::{Job, Jobs};

/// A job that has run, and what the service replied, once to be sent and kept and once to be recorded.
#[derive(Debug, Drop)]
pub struct Run {
    /// The job.
    pub job: Job,
    /// The reply.
    pub reply: Bytes,
    /// The same reply.
    pub entered: Bytes,
}

impl Turn {
    /// The session accepts a call for the service: it becomes a job, which waits for those of its numbers that weren't
    /// answered well already, or is answered in place of one. Room for a job has to be reserved.
    pub fn accepts_call<D: Draw>(
        &mut self,
        now: Moment,
        standing: &mut SessionState,
        jobs: &mut Jobs,
        bindings: &Bindings,
        ring: &Ring,
        due: CallDue,
    )
        requires room { HasRoom 1 (result_bytes short_bytes_max) 1 standing.old self.old }
        requires replies { 0 < replies_left standing.old }
        requires job_room { 0 < jobs.old.room }
        ensures speaks { (keys : Keys) (numbers : List ℕ) (draw : D) (speaker : Speaker D) → AreOf ring.now keys → due.wait ≡ each_once numbers
            → IsUnanswered speaker.session.replies due.number
            → Speaks now standing.old self.old jobs.old.jobs bindings.now.bindings draw speaker
            → Speaks now standing.new self.new jobs.new.jobs bindings.now.bindings draw (accepts_call (setting_of now D.step keys) due.number numbers due.query speaker) }
        ensures spends { Spends now 1 (result_bytes short_bytes_max) 1 standing.old self.old standing.new self.new }
        ensures unsaid { NoMoreUnsaid standing.old self.old.owing standing.new self.new.owing }
        ensures replies_last { replies_left standing.old ≤ replies_left standing.new + 1 }
        ensures job_room_lasts { jobs.old.room ≤ jobs.new.room + 1 }
    {
        let CallDue {
            number,
            query,
            mut wait,
        } = due;
        wait.keep_awaited(standing, jobs);
        let job = Job {
            key: standing.key(),
            session: standing.number(),
            number,
            since: now,
            after: IdList::from(wait),
            request: query,
        };
        match refusal::<D>(ring, bindings, now, standing, jobs, &job) {
            Some(short) => self.answers_in_place::<D>(now, standing, number, job.request, short),
            None => jobs.add(job),
        }
    }

    /// A job that was taken out is given up: its call is answered so in place of a run, and the jobs that wait for it are told.
    pub fn gives_up<D: Draw>(
        &mut self,
        now: Moment,
        standing: &mut SessionState,
        jobs: &mut Jobs,
        job: Job,
        short: Short,
    )
        requires room { HasRoom 1 (result_bytes short_bytes_max) 1 standing.old self.old }
        requires replies { 0 < replies_left standing.old }
        ensures speaks { (keys : Keys) (bindings : List Binding) (draw : D) (speaker : Speaker D) → IsUnanswered speaker.session.replies job.number
            → Speaks now standing.old self.old jobs.old.jobs bindings draw speaker
            → Speaks now standing.new self.new jobs.new.jobs bindings draw (gives_up (setting_of now D.step keys) (content_of short) job speaker) }
        ensures spends { Spends now 1 (result_bytes short_bytes_max) 1 standing.old self.old standing.new self.new }
        ensures unsaid { NoMoreUnsaid standing.old self.old.owing standing.new self.new.owing }
        ensures replies_last { replies_left standing.new + 1 ≡ replies_left standing.old }
        ensures same_job_room { jobs.new.room ≡ jobs.old.room }
    {
        let number = job.number;
        self.answers_in_place::<D>(now, standing, number, job.request, short);
        standing.tells_of::<D>(jobs, number);
    }

    /// A job that was taken out has run: the reply is sent, kept and recorded, and the jobs that wait for its call are told.
    pub fn finishes<D: Draw>(
        &mut self,
        now: Moment,
        standing: &mut SessionState,
        jobs: &mut Jobs,
        run: Run,
    )
        requires content { IsContent run.reply }
        requires same { run.entered ≡ run.reply }
        requires room { HasRoom 1 (result_bytes (length run.reply)) 1 standing.old self.old }
        requires replies { 0 < replies_left standing.old }
        ensures speaks { (keys : Keys) (bindings : List Binding) (draw : D) (speaker : Speaker D) → IsUnanswered speaker.session.replies run.job.number
            → Speaks now standing.old self.old jobs.old.jobs bindings draw speaker
            → Speaks now standing.new self.new jobs.new.jobs bindings draw (finishes (setting_of now D.step keys) run.job run.reply speaker) }
        ensures spends { Spends now 1 (result_bytes (length run.reply)) 1 standing.old self.old standing.new self.new }
        ensures unsaid { NoMoreUnsaid standing.old self.old.owing standing.new self.new.owing }
        ensures replies_last { replies_left standing.new + 1 ≡ replies_left standing.old }
        ensures same_job_room { jobs.new.room ≡ jobs.old.room }
    {
        let Run {
            job,
            reply,
            entered,
        } = run;
        let number = job.number;
        standing.answers::<D>(now, &mut self.owing, number, reply);
        self.entries.push(Entry {
            key: standing.key(),
            session: standing.number(),
            number,
            request: job.request,
            reply: entered,
            ran: true,
        });
        standing.tells_of::<D>(jobs, number);
    }
}

// The answer to a call in place of a job, where there is one. Where there is none the job fits.
fn refusal<D: Draw>(
    ring: &Ring,
    bindings: &Bindings,
    now: Moment,
    standing: &SessionState,
    jobs: &Jobs,
    job: &Job,
) -> Option<Short>
    ensures answer { (keys : Keys) (speaker : Speaker D) → AreOf ring.now keys → Stands now standing.now speaker.session
        → jobs.now.jobs ≡ speaker.jobs → bindings.now.bindings ≡ speaker.bindings
        → option_map content_of result ≡ refusal (setting_of now D.step keys) job.now speaker }
    ensures fits { IfNone result (job_count job.now.key job.now.session jobs.now.jobs < most_jobs) }
    ensures bytes_fit { IfNone result (job_bytes job.now.key job.now.session jobs.now.jobs + load_of job.now ≤ most_job_bytes) }
{
    if is_unbound(ring, bindings, now, standing.key()) {
        return Some(Short::AuthKeyPermEmpty);
    }
    if let Some(short) = query_refusal(job.request.as_slice()) {
        return Some(short);
    }
    if is_full(jobs, job.key, job.session, job.load()) {
        return Some(Short::JobsFull);
    }
    if waits_in_vain(standing, jobs, job.after.ids()) {
        return Some(Short::MsgWaitFailed);
    }
    None
}
