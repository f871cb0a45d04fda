//! A tick of a server: jobs that have waited too long are answered (core.telegram.org/api/invoking).

ghost use Rattle.std.specs.Prelude.{◌≡◌, ◌≤◌, max, IfOk, OnErr};
ghost use Rattle.server_rules.specs.Server.{Server as Rules};
ghost use Rattle.server_rules.specs.Answer.{after_tick};
ghost use Rattle.server_session.specs.Says.{Keys, setting_of};
ghost use Rattle.server_core.specs.Desks.{Does};
ghost use Rattle.server_core.specs.Server.{StandsFor};
ghost use Rattle.server_core.specs.Effects.{Gives};

use crate::effects::Effects;
use crate::losing::lose_all_spent;
use crate::order_laws::events_keep_order;
use crate::reserving::{fresh_voices, reserves};
use crate::server::{Server, is_early};
use crate::tick_laws::quiet_ticks_say_nothing;
use draws::Draw;
use envelope::Seal;
use msg_ids::Moment;
use octets::Memory;
use server_output::Outs;
use server_session::laws::sessions_stand_later;
use std::alloc::Global;

/// How many packets a session's answers in a tick make at most.
const PACKETS_MAX: usize = 5;

impl<S: Seal> Server<S> {
    // A tick at this moment, by which a job is overdue.
    fn ticks_due<D: Draw>(
        &mut self,
        alloc: Global,
        moment: Moment,
        draw: &mut D,
    ) -> Result<Effects, Memory>
        requires later { self.old.moment ≤ moment }
        ensures given { (keys : Keys) (server : Rules) → StandsFor self.old server
            → IfOk result (λ effects. Gives S.lock (S.keys self.old.seal) self.new draw.new effects (after_tick (setting_of moment D.step keys) server draw.old)) }
        ensures unchanged_on_memory { OnErr result (self.new ≡ self.old) }
        ensures same_seal { self.new.seal ≡ self.old.seal }
    {
        sessions_stand_later();
        events_keep_order::<D>();
        is_early(moment);
        let mut voices = fresh_voices(alloc, moment, &self.sessions, &self.jobs)?;
        let mut outs = Outs::new(alloc, PACKETS_MAX * self.sessions.count())?;
        reserves(&mut self.sessions, &voices.list, alloc, 0)?;
        self.moment = moment;
        voices.answers_all::<D>(moment, &mut self.sessions, &mut self.jobs);
        voices.sends(moment, &mut self.sessions, &self.seal, draw, &mut outs);
        lose_all_spent::<D>(&mut self.sessions, &mut self.jobs);
        Ok(Effects {
            out: outs,
            entries: voices.entries,
        })
    }

    /// Answers each job that has waited too long by now, and then each that fails by that, in order of acceptance. The
    /// sessions send in the order of their first answers.
    ///
    /// # Errors
    ///
    /// `Memory`, and then the server is as it was.
    pub fn tick<D: Draw>(
        &mut self,
        alloc: Global,
        now: Moment,
        draw: &mut D,
    ) -> Result<Effects, Memory>
        ensures given { (keys : Keys) (server : Rules) → StandsFor self.old server
            → IfOk result (λ effects. Does (StandsFor self.new) S.lock (S.keys self.old.seal) draw.new effects
            (after_tick (setting_of (max self.old.moment now) D.step keys) server draw.old)) }
        ensures unchanged_on_memory { OnErr result (self.new ≡ self.old) }
        ensures same_seal { self.new.seal ≡ self.old.seal }
    {
        sessions_stand_later();
        quiet_ticks_say_nothing::<D>();
        events_keep_order::<D>();
        let moment = self.moment.later(now);
        is_early(moment);
        if self.jobs.overdue(moment) == 0 {
            self.passes(alloc, moment)
        } else {
            self.ticks_due(alloc, moment, draw)
        }
    }
}
