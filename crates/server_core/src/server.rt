//! A server.

ghost use Rattle.std.specs.Prelude.{◌≡◌, ◌<◌, ◌≤◌, ℕ, [], Some, is_some, length, max, nat_lt, option_copied, slice_index_or, IfNone, IfOk, IfSome, OnErr, OnOk};
ghost use Rattle.std.specs.List.{position};
ghost use Rattle.msg_ids.specs.Moments.{latest_moment};
ghost use Rattle.server_session.specs.declared.session.SessionState.{SessionState};
ghost use Rattle.server_session.specs.SessionState.{numbers_left};
ghost use Rattle.server_session.specs.Says.{Keys, setting_of};
ghost use Rattle.waits.specs.Jobs.{ready_count};
ghost use Rattle.server_rules.specs.Server.{Server as Rules, fresh_server, session_named};
ghost use Rattle.server_rules.specs.Answer.{after_attach, after_loss, after_restart, room_min};
ghost use Rattle.server_core.specs.Desks.{Does, request_at};
ghost use Rattle.server_core.specs.Sessions.{is_kept_as};
ghost use Rattle.server_core.specs.Server.{Stands, StandsFor, without_jobs_where, without_kept_where};
ghost use Rattle.server_core.specs.Effects.{Gives};

use crate::effects::Effects;
use crate::order_laws::{events_keep_order, losses_keep_order};
use crate::sessions::Sessions;
use draws::{Draw, StepDraw};
use envelope::Seal;
use law_server::laws::sessions_speak_for_themselves;
use msg_ids::Moment;
use octets::Memory;
use server_dispatch::{Bindings, Entries};
use server_session::laws::sessions_stand_later;
use std::alloc::Global;
use std::marker::Model;
use waits::Jobs;

/// A server: what seals its packets, the greatest moment that it was given, its sessions, at most 256, their unfinished
/// jobs, and the bindings of temporary keys.
#[derive(Debug, Drop)]
pub struct Server<S: Seal> {
    pub(crate) seal: S,
    pub(crate) moment: Moment,
    pub(crate) sessions: Sessions,
    pub(crate) jobs: Jobs,
    pub(crate) bindings: Bindings,
}

impl<S: Seal> Model for Server<S> {
    ghost use Rattle.server_core.specs.Server.{IsSteady, Kept};

    ghost Value = { Kept S };

    ghost view = { λ server. record {
      seal = server.seal;
      moment = server.moment;
      sessions = server.sessions;
      jobs = server.jobs.jobs;
      bindings = server.bindings.bindings;
    } };

    ghost invariant = { λ server. IsSteady (S.keys server.seal) (record {
      seal = server.seal;
      moment = server.moment;
      sessions = server.sessions;
      jobs = server.jobs.jobs;
      bindings = server.bindings.bindings;
    }) };
}

impl<S: Seal> Server<S> {
    /// A server without sessions, jobs and bindings, which was given no moment so far. Takes no memory.
    pub fn new(alloc: Global, seal: S) -> Server<S>
        ensures stands { StandsFor result fresh_server }
        ensures seal { result.seal ≡ seal }
    {
        events_keep_order::<StepDraw>();
        Server {
            seal,
            moment: Moment::new(0),
            sessions: Sessions::new(alloc),
            jobs: Jobs::new(alloc),
            bindings: Bindings::new(alloc),
        }
    }

    /// What seals its packets.
    pub fn seal(&self) -> &S
        ensures { result.now ≡ self.now.seal }
    {
        &self.seal
    }

    /// How many jobs are ready.
    pub fn ready(&self) -> usize
        ensures count { result ≡ ready_count self.now.jobs }
        ensures stands { (server : Rules) → StandsFor self.now server → result ≡ ready_count server.jobs }
    {
        self.jobs.ready()
    }

    /// The request of the ready job of this place among the ready ones, from 0 in order of acceptance; none exactly where
    /// there is no such job. Takes no memory.
    pub fn ready_request(&self, k: usize) -> Option<&[u8]>
        ensures request { option_copied result ≡ request_at k self.now.jobs }
        ensures stands { (server : Rules) → StandsFor self.now server → option_copied result ≡ request_at k server.jobs }
        ensures there { IfSome result (λ _. k < ready_count self.now.jobs) }
        ensures none { IfNone result (ready_count self.now.jobs ≤ k) }
    {
        match self.jobs.ready_at(k) {
            Some(job) => Some(job.request.as_slice()),
            None => None,
        }
    }

    /// How many jobs are unfinished, ready or not.
    pub fn unfinished(&self) -> usize
        ensures count { result ≡ length self.now.jobs }
        ensures stands { (server : Rules) → StandsFor self.now server → result ≡ length server.jobs }
    {
        self.jobs.len()
    }

    /// Loses the session of this name with its jobs; whether there was one. Takes no memory.
    pub fn lose(&mut self, key: u64, session: u64) -> bool
        ensures found { (server : Rules) → StandsFor self.old server → result ≡ is_some (session_named (record { key = key; session = session }) server.sessions) }
        ensures stands { (server : Rules) → StandsFor self.old server → StandsFor self.new (after_loss (record { key = key; session = session }) server) }
        ensures same_seal { self.new.seal ≡ self.old.seal }
    {
        sessions_stand_later();
        losses_keep_order();
        self.jobs.forget(key, session);
        self.sessions.take_out(key, session).is_some()
    }

    /// Starts again, at the same moment: no session, no job and no binding is left. Takes no memory.
    pub fn restart(&mut self, alloc: Global)
        ensures stands { (server : Rules) → StandsFor self.old server → StandsFor self.new (after_restart server) }
        ensures same_seal { self.new.seal ≡ self.old.seal }
    {
        losses_keep_order();
        self.sessions = Sessions::new(alloc);
        self.jobs = Jobs::new(alloc);
        self.bindings = Bindings::new(alloc);
    }

    /// A connection is opened for the session of this name: it says that it is new as long as it has accepted nothing, and
    /// then all kept replies, in order of making. Nothing is said where there is no such session.
    ///
    /// # Errors
    ///
    /// `Memory`, and then the server is as it was.
    pub fn attach<D: Draw>(
        &mut self,
        alloc: Global,
        key: u64,
        session: u64,
        now: Moment,
        draw: &mut D,
    ) -> Result<Effects, Memory>
        ensures given { (keys : Keys) (server : Rules) → StandsFor self.old server
            → IfOk result (λ effects. Does (StandsFor self.new) S.lock (S.keys self.old.seal) draw.new effects
            (after_attach (setting_of (max self.old.moment now) D.step keys) (record { key = key; session = session }) server draw.old)) }
        ensures unchanged_on_memory { OnErr result (self.new ≡ self.old) }
        ensures same_seal { self.new.seal ≡ self.old.seal }
    {
        sessions_stand_later();
        events_keep_order::<D>();
        let moment = self.moment.later(now);
        is_early(moment);
        match self.sessions.place(key, session) {
            None => self.passes(alloc, moment),
            Some(place) => self.attach_at(alloc, key, session, place, moment, draw),
        }
    }

    /// Nothing happens at this moment.
    ///
    /// # Errors
    ///
    /// `Memory`, and then the server is as it was.
    pub(crate) fn passes(&mut self, alloc: Global, moment: Moment) -> Result<Effects, Memory>
        requires later { self.old.moment ≤ moment }
        ensures stands { (server : Rules) → Stands self.old server → OnOk result (Stands self.new (record server { now = moment })) }
        ensures moment_alone { OnOk result (self.new ≡ record self.old { moment = moment }) }
        ensures nothing { IfOk result (λ effects. (effects.out.outs ≡ []) × (effects.entries.entries ≡ [])) }
        ensures unchanged_on_memory { OnErr result (self.new ≡ self.old) }
        ensures same_seal { self.new.seal ≡ self.old.seal }
    {
        sessions_stand_later();
        losses_keep_order();
        is_early(moment);
        let effects = Effects::none(alloc)?;
        self.moment = moment;
        Ok(effects)
    }

    // A connection is opened for the session of this name, which is at this place.
    fn attach_at<D: Draw>(
        &mut self,
        alloc: Global,
        key: u64,
        session: u64,
        place: usize,
        moment: Moment,
        draw: &mut D,
    ) -> Result<Effects, Memory>
        requires later { self.old.moment ≤ moment }
        requires place { position (is_kept_as (record { key = key; session = session })) self.old.sessions ≡ Some place }
        ensures given { (keys : Keys) (server : Rules) → Stands self.old server
            → IfOk result (λ effects. Gives S.lock (S.keys self.old.seal) self.new draw.new effects
            (after_attach (setting_of moment D.step keys) (record { key = key; session = session }) server draw.old)) }
        ensures unchanged_on_memory { OnErr result (self.new ≡ self.old) }
        ensures same_seal { self.new.seal ≡ self.old.seal }
    {
        sessions_stand_later();
        sessions_speak_for_themselves::<D>();
        events_keep_order::<D>();
        is_early(moment);
        let entries = Entries::new(alloc, 0)?;
        let speech = self.sessions.room_to_attach(alloc, place)?;
        let out = self
            .sessions
            .attach(place, moment, speech, &self.seal, draw);
        self.moment = moment;
        lose_spent(&mut self.sessions, &mut self.jobs, key, session, place);
        Ok(Effects { out, entries })
    }
}

/// A moment is at most the latest one.
pub(crate) fn is_early(moment: Moment)
    ensures { moment ≤ latest_moment }
{
    let _ = moment.seconds();
}

/// The session of this name, which is at this place, is lost with its jobs where it has no room for a further event.
pub(crate) fn lose_spent(
    sessions: &mut Sessions,
    jobs: &mut Jobs,
    key: u64,
    session: u64,
    place: usize,
)
    requires { place < length sessions.old }
    ensures sessions { (d : SessionState) → sessions.new ≡ without_kept_where (nat_lt (numbers_left (slice_index_or sessions.old place d)) room_min)
        (record { key = key; session = session }) sessions.old }
    ensures jobs { (d : SessionState) → jobs.new.jobs ≡ without_jobs_where (nat_lt (numbers_left (slice_index_or sessions.old place d)) room_min)
        (record { key = key; session = session }) jobs.old.jobs }
{
    if sessions.is_spent(place) {
        jobs.forget(key, session);
        sessions.take_out(key, session);
    }
}
