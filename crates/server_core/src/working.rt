//! A ready job of a session is run (core.telegram.org/mtproto/service_messages, "Response to an RPC query").

ghost use Rattle.std.specs.Prelude.{◌≡◌, ◌≤◌, ◌<◌, ◌+◌, ℕ, List, [], Some, length, max, IfOk, OnErr, OnOk};
ghost use Rattle.id_window.specs.History.{History};
ghost use Rattle.waits.specs.declared.job.Job.{Job as One};
ghost use Rattle.waits.specs.Jobs.{Queue, blocked_count_of, ready_count, ready_job, without_ready};
ghost use Rattle.waits.specs.Limits.{most_jobs};
ghost use Rattle.server_output.specs.Items.{IsContent};
ghost use Rattle.server_rules.specs.Event.{Speaker};
ghost use Rattle.server_rules.specs.Server.{Binding, Name};
ghost use Rattle.server_session.specs.Names.{name_kept};
ghost use Rattle.server_session.specs.Says.{Keys, setting_of};
ghost use Rattle.server_session.specs.Rooms.{with_replies_left};
ghost use Rattle.server_session.specs.SessionState.{IsAt, replies_left};
ghost use Rattle.server_dispatch.specs.Speaks.{HasRoom, Speaks, Spends};
ghost use Rattle.server_core.specs.Server.{CanSpeak};
ghost use Rattle.server_core.specs.Speech.{Begins};
ghost use Rattle.server_core.specs.Working.{CanWork, Ends, IsRunning, ran, run_bytes, worked};

use crate::effects::Effects;
use crate::failures::answers_failed;
use crate::room::SHORT_RESULT_BYTES;
use crate::speech::Speech;
use draws::Draw;
use envelope::Seal;
use law_server::laws::{rows_keep_order, sessions_speak_for_themselves};
use msg_ids::Moment;
use octets::Memory;
use outbox::Bytes;
use regs_service::Service;
use server_dispatch::{Entries, Run, Turn};
use server_session::SessionState;
use std::alloc::Global;
use waits::{Job, Jobs};

/// What an answer has around its reply, in bytes: its constructor and the number of its call.
const RESULT_BYTES: usize = 12;

/// What the service will reply to a ready job, and the room for all that its session says then.
#[derive(Drop)]
pub(crate) struct Work {
    /// The place of the job among the ready ones.
    pub(crate) k: usize,
    /// The reply, to be sent and kept.
    pub(crate) reply: Bytes,
    /// The same reply, to be recorded.
    pub(crate) entered: Bytes,
    /// How many jobs of the session aren't ready, and so may fail by the answer.
    pub(crate) limit: usize,
    pub(crate) speech: Speech,
    pub(crate) entries: Entries,
}

impl Work {
    /// What the service will reply to this request of the ready job of this place, and room for what follows where so many
    /// jobs of the session aren't ready.
    ///
    /// # Errors
    ///
    /// `Memory`.
    fn new<V: Service>(
        alloc: Global,
        k: usize,
        request: &[u8],
        service: &V,
        limit: usize,
    ) -> Result<Work, Memory>
        requires few { limit ≤ most_jobs }
        ensures room { IfOk result (CanWork (V.step service.now request.now).0 limit) }
        ensures place { IfOk result (λ work. work.k ≡ k) }
    {
        let foreseen = service.foresee(alloc, request)?;
        let bytes = RESULT_BYTES + foreseen.as_slice().len() + limit * SHORT_RESULT_BYTES;
        let reply = Bytes::copy_from_slice(alloc, foreseen.as_slice())?;
        let entered = reply.clone()?;
        Ok(Work {
            k,
            reply,
            entered,
            limit,
            speech: Speech::new(alloc, limit + 1, bytes)?,
            entries: Entries::new(alloc, limit + 1)?,
        })
    }

    /// The same for the ready job of this place.
    ///
    /// # Errors
    ///
    /// `Memory`.
    pub(crate) fn at<V: Service>(
        alloc: Global,
        jobs: &Jobs,
        k: usize,
        service: &V,
    ) -> Result<Work, Memory>
        requires ready { k < ready_count jobs.now.jobs }
        ensures room { IfOk result (λ work. CanWork work.reply work.limit work) }
        ensures place { IfOk result (λ work. work.k ≡ k) }
        ensures reply { (job : One) → ready_job k jobs.now.jobs ≡ Some job → IfOk result (λ work. work.reply ≡ (V.step service.now job.request).0) }
        ensures limit { (job : One) → ready_job k jobs.now.jobs ≡ Some job
            → IfOk result (λ work. work.limit ≡ blocked_count_of job.key job.session jobs.now.jobs) }
    {
        let job = ready_at(jobs, k);
        let limit = jobs.blocked(job.key, job.session);
        Work::new(alloc, k, job.request.as_slice(), service, limit)
    }
}

/// The ready job of this place.
pub(crate) fn ready_at(jobs: &Jobs, k: usize) -> &Job
    requires ready { k < ready_count jobs.now.jobs }
    ensures { ready_job k jobs.now.jobs ≡ Some result.now }
{
    jobs.ready_at(k).unwrap()
}

/// Takes the memory that a session needs for so many answers, and then the service runs a request. Where there is no memory
/// for one of these, both are as they were.
///
/// # Errors
///
/// `Memory`.
pub(crate) fn serves<V: Service>(
    alloc: Global,
    standing: &mut SessionState,
    answers: usize,
    service: &mut V,
    request: &[u8],
) -> Result<(), Memory>
    ensures kept { OnOk result (standing.new ≡ with_replies_left (max (replies_left standing.old) answers) standing.old) }
    ensures served { OnOk result (service.new ≡ (V.step service.old request.now).1) }
    ensures same_standing { OnErr result (standing.new ≡ standing.old) }
    ensures same_service { OnErr result (service.new ≡ service.old) }
{
    let before = standing.replies_left();
    standing.reserve(alloc, answers)?;
    if service.run(alloc, request).is_err() {
        standing.release(before);
        return Err(Memory);
    }
    Ok(())
}

/// A job that was taken out has run: its call is answered, and then each job of the session that fails by that, of which
/// there are at most so many. Takes no memory.
fn answers_run<D: Draw>(
    turn: &mut Turn,
    now: Moment,
    standing: &mut SessionState,
    jobs: &mut Jobs,
    run: Run,
    limit: usize,
)
    requires content { IsContent run.reply }
    requires same { run.entered ≡ run.reply }
    requires room { HasRoom (limit + 1) (run_bytes (length run.reply) limit) (limit + 1) standing.old turn.old }
    requires replies { limit + 1 ≤ replies_left standing.old }
    ensures speaks { (keys : Keys) (bindings : List Binding) (draw : D) (name : Name) (others : Name → Queue) (past : History) (speaker : Speaker D)
        → Speaks now standing.old turn.old jobs.old.jobs bindings draw speaker → IsRunning name others past run.job limit speaker
        → Speaks now standing.new turn.new jobs.new.jobs bindings draw (ran (setting_of now D.step keys) run.job run.reply speaker) }
    ensures spends { Spends now (limit + 1) (run_bytes (length run.reply) limit) (limit + 1) standing.old turn.old standing.new turn.new }
{
    rows_keep_order::<D>();
    sessions_speak_for_themselves::<D>();
    turn.finishes::<D>(now, standing, jobs, run);
    answers_failed::<D>(turn, now, standing, jobs, limit);
}

/// The ready job of this work, which has run, is taken out, and what its session says then goes out. Takes no memory.
pub(crate) fn works<S: Seal, D: Draw>(
    standing: &mut SessionState,
    jobs: &mut Jobs,
    now: Moment,
    work: Work,
    seal: &S,
    draw: &mut D,
) -> Effects
    requires ready { work.k < ready_count jobs.old.jobs }
    requires speaking { CanSpeak (S.keys seal.now) now standing.old }
    requires room { CanWork work.reply work.limit work }
    requires replies { work.limit + 1 ≤ replies_left standing.old }
    ensures ends { (keys : Keys) (name : Name) (others : Name → Queue) (past : History) (job : One) (speaker : Speaker D) → Begins now standing.old draw.old speaker
        → jobs.old.jobs ≡ speaker.jobs → speaker.entries ≡ [] → ready_job work.k jobs.old.jobs ≡ Some job
        → IsRunning name others past job work.limit (record speaker { jobs = without_ready work.k speaker.jobs })
        → Ends S.lock (S.keys seal.now) now standing.new jobs.new.jobs draw.new result
        (worked (setting_of now D.step keys) job work.reply (record speaker { jobs = without_ready work.k speaker.jobs })) }
    ensures same_name { name_kept standing.new ≡ name_kept standing.old }
    ensures at { IsAt now standing.new }
{
    sessions_speak_for_themselves::<D>();
    let Work {
        k,
        reply,
        entered,
        limit,
        speech,
        entries,
    } = work;
    let Speech {
        owing,
        packets,
        outs,
    } = speech;
    let mut turn = Turn { owing, entries };
    let job = jobs.take(k);
    let run = Run {
        job,
        reply,
        entered,
    };
    answers_run::<D>(&mut turn, now, standing, jobs, run, limit);
    let Turn { owing, entries } = turn;
    let speech = Speech {
        owing,
        packets,
        outs,
    };
    let out = speech.sends(standing, now, seal, draw);
    Effects { out, entries }
}
