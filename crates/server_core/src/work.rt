//! A server runs a ready job.

ghost use Rattle.std.specs.Prelude.{◌≡◌, ◌<◌, ◌≤◌, ◌+◌, [], Some, length, max, slice_index_or, slice_set, IfOk, OnErr, OnOk, ℕ};
ghost use Rattle.std.specs.List.{position};
ghost use Rattle.id_window.specs.History.{History};
ghost use Rattle.waits.specs.declared.job.Job.{Job};
ghost use Rattle.waits.specs.Jobs.{Queue, ready_count, ready_job, without_ready};
ghost use Rattle.waits.specs.Limits.{most_jobs};
ghost use Rattle.server_rules.specs.Server.{Name, Server as Rules};
ghost use Rattle.server_rules.specs.Event.{Speaker};
ghost use Rattle.server_rules.specs.Answer.{after_work};
ghost use Rattle.regs_service.specs.Served.{reply_bytes_max};
ghost use Rattle.server_session.specs.declared.session.SessionState.{SessionState as One};
ghost use Rattle.server_session.specs.Names.{name_kept};
ghost use Rattle.server_session.specs.Says.{Keys, setting_of};
ghost use Rattle.server_session.specs.Rooms.{with_replies_left};
ghost use Rattle.server_session.specs.SessionState.{IsAt, replies_left};
ghost use Rattle.server_core.specs.Sessions.{AreApart, is_kept_as};
ghost use Rattle.server_core.specs.Server.{CanSpeak, StandsFor};
ghost use Rattle.server_core.specs.Desks.{Does, IsShortRunAt};
ghost use Rattle.server_core.specs.Effects.{Gives};
ghost use Rattle.server_core.specs.Speech.{Begins};
ghost use Rattle.server_core.specs.Working.{CanWork, Ends, IsRunning, worked};

use crate::effects::Effects;
use crate::order_laws::runs_keep_order;
use crate::server::{Server, is_early, lose_spent};
use crate::sessions::Sessions;
use crate::working::{self, Work, ready_at};
use draws::Draw;
use envelope::Seal;
use law_server::laws::{sessions_speak_for_themselves, taken_jobs_are_open};
use msg_ids::Moment;
use octets::Memory;
use regs_service::Service;
use server_session::laws::sessions_stand_later;
use std::alloc::Global;
use waits::Jobs;

/// A ready job, and the session that it is of.
#[derive(Clone, Copy)]
struct ReadyJob {
    /// Its place among the ready ones.
    k: usize,
    /// The identifier of the key of its session.
    key: u64,
    /// The session's number.
    session: u64,
}

impl Sessions {
    /// Takes the memory that the session at this place needs for the answers by this work, and then the service runs the request
    /// of its job.
    ///
    /// # Errors
    ///
    /// `Memory`, and then all is as it was.
    fn serves<V: Service>(
        &mut self,
        alloc: Global,
        place: usize,
        jobs: &Jobs,
        work: &Work,
        service: &mut V,
    ) -> Result<(), Memory>
        requires place { place < length self.old }
        requires ready { work.now.k < ready_count jobs.now.jobs }
        requires few { work.now.limit ≤ most_jobs }
        ensures others { (d : One) → self.new ≡ slice_set self.old place (slice_index_or self.new place d) }
        ensures kept { (d : One) → OnOk result (slice_index_or self.new place d
            ≡ with_replies_left (max (replies_left (slice_index_or self.old place d)) (work.now.limit + 1)) (slice_index_or self.old place d)) }
        ensures served { (job : Job) → ready_job work.now.k jobs.now.jobs ≡ Some job → OnOk result (service.new ≡ (V.step service.old job.request).1) }
        ensures same_sessions { OnErr result (self.new ≡ self.old) }
        ensures same_service { OnErr result (service.new ≡ service.old) }
        ensures apart { AreApart self.old }
    {
        let standing = &mut self.list[place];
        let request = ready_at(jobs, work.k).request.as_slice();
        working::serves(alloc, standing, work.limit + 1, service, request)
    }

    /// The ready job of this work, which has run, is taken out, and what the session at this place says then goes out. Takes no
    /// memory.
    fn works<S: Seal, D: Draw>(
        &mut self,
        place: usize,
        jobs: &mut Jobs,
        now: Moment,
        work: Work,
        seal: &S,
        draw: &mut D,
    ) -> Effects
        requires place { place < length self.old }
        requires ready { work.k < ready_count jobs.old.jobs }
        requires speaking { (d : One) → CanSpeak (S.keys seal.now) now (slice_index_or self.old place d) }
        requires room { CanWork work.reply work.limit work }
        requires replies { (d : One) → work.limit + 1 ≤ replies_left (slice_index_or self.old place d) }
        ensures others { (d : One) → self.new ≡ slice_set self.old place (slice_index_or self.new place d) }
        ensures same_name { (d : One) → name_kept (slice_index_or self.new place d) ≡ name_kept (slice_index_or self.old place d) }
        ensures at { (d : One) → IsAt now (slice_index_or self.new place d) }
        ensures ends { (d : One) (keys : Keys) (name : Name) (others : Name → Queue) (past : History) (job : Job) (speaker : Speaker D)
            → Begins now (slice_index_or self.old place d) draw.old speaker
            → jobs.old.jobs ≡ speaker.jobs → speaker.entries ≡ [] → ready_job work.k jobs.old.jobs ≡ Some job
            → IsRunning name others past job work.limit (record speaker { jobs = without_ready work.k speaker.jobs })
            → Ends S.lock (S.keys seal.now) now (slice_index_or self.new place d) jobs.new.jobs draw.new result
            (worked (setting_of now D.step keys) job work.reply (record speaker { jobs = without_ready work.k speaker.jobs })) }
        ensures apart { AreApart self.old }
    {
        let standing = &mut self.list[place];
        working::works(standing, jobs, now, work, seal, draw)
    }
}

impl<S: Seal> Server<S> {
    /// Runs the ready job of this place among the ready ones, from 0 in order of acceptance: the service runs its request, the
    /// session that asked keeps and sends the reply, and each job that fails by that is answered. The place has to be less
    /// than `ready()`. The first entry is the run (`laws::runs_come_first`).
    ///
    /// # Errors
    ///
    /// `Memory`, and then the server and the service are as they were.
    pub fn work<V: Service, D: Draw>(
        &mut self,
        alloc: Global,
        k: usize,
        service: &mut V,
        now: Moment,
        draw: &mut D,
    ) -> Result<Effects, Memory>
        requires ready { k < ready_count self.old.jobs }
        ensures given { (keys : Keys) (server : Rules) → StandsFor self.old server
            → IfOk result (λ effects. Does (StandsFor self.new) S.lock (S.keys self.old.seal) draw.new effects
            (after_work (setting_of (max self.old.moment now) D.step keys) k V.step service.old server draw.old).0) }
        ensures served { (keys : Keys) (server : Rules) → StandsFor self.old server
            → OnOk result (service.new ≡ (after_work (setting_of (max self.old.moment now) D.step keys) k V.step service.old server draw.old).1) }
        ensures short { (server : Rules) → StandsFor self.old server
            → OnOk result (IsShortRunAt k V.step service.old server) }
        ensures unchanged_on_memory { OnErr result (self.new ≡ self.old) }
        ensures same_service_on_memory { OnErr result (service.new ≡ service.old) }
        ensures same_seal { self.new.seal ≡ self.old.seal }
    {
        sessions_stand_later();
        runs_keep_order::<D, V>();
        let moment = self.moment.later(now);
        is_early(moment);
        let job = ready_at(&self.jobs, k);
        let job = ReadyJob {
            k,
            key: job.key,
            session: job.session,
        };
        let Some(place) = self.sessions.place(job.key, job.session) else {
            unreachable!()
        };
        self.work_at(alloc, job, place, service, moment, draw)
    }

    // Runs this ready job, whose session is at this place.
    fn work_at<V: Service, D: Draw>(
        &mut self,
        alloc: Global,
        job: ReadyJob,
        place: usize,
        service: &mut V,
        moment: Moment,
        draw: &mut D,
    ) -> Result<Effects, Memory>
        requires later { self.old.moment ≤ moment }
        requires ready { job.k < ready_count self.old.jobs }
        requires whose { (one : Job) → ready_job job.k self.old.jobs ≡ Some one → (one.key ≡ job.key) × (one.session ≡ job.session) }
        requires place { position (is_kept_as (record { key = job.key; session = job.session })) self.old.sessions ≡ Some place }
        ensures given { (keys : Keys) (server : Rules) → StandsFor self.old server
            → IfOk result (λ effects. Gives S.lock (S.keys self.old.seal) self.new draw.new effects
            (after_work (setting_of moment D.step keys) job.k V.step service.old server draw.old).0) }
        ensures served { (one : Job) → ready_job job.k self.old.jobs ≡ Some one → OnOk result (service.new ≡ (V.step service.old one.request).1) }
        ensures short { (one : Job) → ready_job job.k self.old.jobs ≡ Some one → OnOk result (length (V.step service.old one.request).0 ≤ reply_bytes_max) }
        ensures unchanged_on_memory { OnErr result (self.new ≡ self.old) }
        ensures same_service_on_memory { OnErr result (service.new ≡ service.old) }
        ensures same_seal { self.new.seal ≡ self.old.seal }
    {
        sessions_stand_later();
        sessions_speak_for_themselves::<D>();
        taken_jobs_are_open::<D>();
        runs_keep_order::<D, V>();
        is_early(moment);
        let work = Work::at(alloc, &self.jobs, job.k, service)?;
        self.sessions
            .serves(alloc, place, &self.jobs, &work, service)?;
        let effects = self
            .sessions
            .works(place, &mut self.jobs, moment, work, &self.seal, draw);
        self.moment = moment;
        lose_spent(
            &mut self.sessions,
            &mut self.jobs,
            job.key,
            job.session,
            place,
        );
        Ok(effects)
    }
}
