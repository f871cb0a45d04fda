//! A server that records are played to.

ghost use Rattle.std.specs.Prelude.{◌≡◌, ◌≤◌, ℕ, None, Some, IfErr, OnOk, OnErr, max};
ghost use Rattle.regs_service.specs.Served.{IsReply};
ghost use Rattle.sess_records.specs.declared.records.Event.TheVariants.{Packet, Tick, Attach, Begin, Ran, Interrupted};
ghost use Rattle.sess_records.specs.Format.{IsRecord};
ghost use Rattle.sess_journal.specs.declared.played.PlayFault.TheVariants as faults;
ghost use Rattle.sess_journal.specs.Playing.{IsReady, Leads, StandsAt, basis_for};
ghost use Rattle.sess_journal.specs.Replay.{IsLawful, LeadsTo, Plays, Reached, after_reply, at_first, bases_of, reached_by, setting_at};

use crate::recorded::Recorded;
use draws::laws::seeded_draws_go_on;
use draws::{Draw, Seeded};
use envelope::Seal;
use law_server_replay::laws::events_draw_words;
use msg_ids::Moment;
use octets::Memory;
use ring_rules::laws::rings_have_keys;
use server_core::{Heard, Server};
use sess_records::{Event, Record};
use std::alloc::Global;
use std::marker::Model;

/// Why a record isn't played.
#[derive(Clone, Copy)]
pub(crate) enum PlayFault {
    /// It isn't lawful in its place.
    Unlawful,
    /// Memory ran out.
    Memory,
}

impl From<Memory> for PlayFault {
    ghost from_gives = { λ _ fault. fault ≡ faults.Memory };

    fn from(_memory: Memory) -> PlayFault {
        PlayFault::Memory
    }
}

/// A server that some records were played to, and what they came to.
#[derive(Drop)]
pub(crate) struct Played<S: Seal + Drop, D: Seeded + Drop> {
    /// The server.
    pub(crate) server: Server<S>,
    /// The greatest moment that it was given.
    pub(crate) latest: Moment,
    /// The seed of the draw.
    pub(crate) seed: [u8; 32],
    /// The draw after the last event.
    pub(crate) draw: D,
    /// Which of the ready jobs began in the last record, if that is a begin.
    pub(crate) begun: Option<usize>,
}

impl<S: Seal + Drop, D: Seeded + Drop> Model for Played<S, D> {
    ghost use Rattle.sess_journal.specs.Playing.{Player};

    ghost Value = { Player S D };

    ghost view = { λ played. record {
      seed = played.seed;
      server = played.server;
      latest = played.latest;
      draw = played.draw;
      begun = played.begun;
    } };
}

impl<S: Seal + Drop, D: Seeded + Drop> Played<S, D> {
    /// No record was played.
    pub(crate) fn new(alloc: Global, seal: S, seed: [u8; 32]) -> Played<S, D>
        ensures stands { StandsAt (bases_of S.lock S.keys D.step D.standing_at D.place_of) at_first result }
        ensures ready { IsReady result }
        ensures seed { result.seed ≡ seed }
        ensures seal { result.server.seal ≡ seal }
    {
        Played {
            server: Server::new(alloc, seal),
            latest: Moment::new(0),
            seed,
            draw: D::at(&seed, 0),
            begun: None,
        }
    }

    /// Plays a record.
    ///
    /// # Errors
    ///
    /// `Unlawful`, where it isn't lawful behind the others. `Memory`.
    pub(crate) fn play(&mut self, alloc: Global, entry: &Record) -> Result<(), PlayFault>
        requires lawful { IsRecord entry.now }
        requires ready { IsReady self.old }
        ensures played { (reached : Reached) → StandsAt (bases_of S.lock S.keys D.step D.standing_at D.place_of) reached self.old → OnOk result ((after : Reached) × Plays (basis_for (bases_of S.lock S.keys D.step D.standing_at D.place_of) self.old) entry.now reached after × StandsAt (bases_of S.lock S.keys D.step D.standing_at D.place_of) after self.new) }
        ensures unlawful { (reached : Reached) → StandsAt (bases_of S.lock S.keys D.step D.standing_at D.place_of) reached self.old → IfErr result (λ fault. fault ≡ faults.Unlawful → IsLawful (basis_for (bases_of S.lock S.keys D.step D.standing_at D.place_of) self.old) entry.now reached → ⊥) }
        ensures ready { OnOk result (IsReady self.new) }
        ensures same_seed { self.new.seed ≡ self.old.seed }
        ensures same_seal { self.new.server.seal ≡ self.old.server.seal }
    {
        if entry.moment < self.latest.seconds() || entry.place < self.draw.place() {
            return Err(PlayFault::Unlawful);
        }
        let (moment, place) = (entry.moment, entry.place);
        match &entry.event {
            Event::Packet { packet } => self.hears(alloc, moment, place, packet.as_slice()),
            Event::Tick => self.ticks(alloc, moment, place),
            Event::Attach { key, session } => self.attaches(alloc, moment, place, *key, *session),
            Event::Begin { job } => self.begins(*job),
            Event::Ran { reply } => self.ran(alloc, moment, place, reply.as_slice()),
            Event::Interrupted => self.interrupted(alloc, moment, place),
        }
    }

    /// A packet came.
    ///
    /// # Errors
    ///
    /// `Unlawful`, where it doesn't open. `Memory`.
    fn hears(
        &mut self,
        alloc: Global,
        moment: u64,
        place: u64,
        packet: &[u8],
    ) -> Result<(), PlayFault>
        ensures led { (reached : Reached) → StandsAt (bases_of S.lock S.keys D.step D.standing_at D.place_of) reached self.old → reached.server.now ≤ moment → OnOk result (Leads (bases_of S.lock S.keys D.step D.standing_at D.place_of) moment place (Packet packet.now) reached self.new) }
        ensures unlawful { (reached : Reached) → StandsAt (bases_of S.lock S.keys D.step D.standing_at D.place_of) reached self.old → reached.server.now ≤ moment
            → IfErr result (λ fault. fault ≡ faults.Unlawful → (after : Reached) → LeadsTo (basis_for (bases_of S.lock S.keys D.step D.standing_at D.place_of) self.old) moment place (Packet packet.now) reached after → ⊥) }
        ensures none_begun { OnOk result (self.new.begun ≡ None) }
        ensures same_seed { self.new.seed ≡ self.old.seed }
        ensures same_seal { self.new.server.seal ≡ self.old.server.seal }
    {
        S::opens_what_it_sealed();
        events_draw_words::<D, ()>();
        seeded_draws_go_on::<D>();
        rings_have_keys();
        let now = Moment::new(moment);
        self.draw = D::at(&self.seed, place);
        let reply = self.server.on_packet(alloc, now, packet, &mut self.draw)?;
        match reply.heard {
            Heard::NotOpened(_) => Err(PlayFault::Unlawful),
            Heard::Judged { .. } => {
                self.latest = now;
                self.begun = None;
                Ok(())
            }
        }
    }

    /// Time went on.
    ///
    /// # Errors
    ///
    /// `Memory`.
    fn ticks(&mut self, alloc: Global, moment: u64, place: u64) -> Result<(), PlayFault>
        ensures led { (reached : Reached) → StandsAt (bases_of S.lock S.keys D.step D.standing_at D.place_of) reached self.old → reached.server.now ≤ moment → OnOk result (Leads (bases_of S.lock S.keys D.step D.standing_at D.place_of) moment place Tick reached self.new) }
        ensures memory { IfErr result (λ fault. fault ≡ faults.Memory) }
        ensures none_begun { OnOk result (self.new.begun ≡ None) }
        ensures same_seed { self.new.seed ≡ self.old.seed }
        ensures same_seal { self.new.server.seal ≡ self.old.server.seal }
    {
        events_draw_words::<D, ()>();
        seeded_draws_go_on::<D>();
        let now = Moment::new(moment);
        self.draw = D::at(&self.seed, place);
        let _ = self.server.tick(alloc, now, &mut self.draw)?;
        self.latest = now;
        self.begun = None;
        Ok(())
    }

    /// A session was attached to a connection.
    ///
    /// # Errors
    ///
    /// `Memory`.
    fn attaches(
        &mut self,
        alloc: Global,
        moment: u64,
        place: u64,
        key: u64,
        session: u64,
    ) -> Result<(), PlayFault>
        ensures led { (reached : Reached) → StandsAt (bases_of S.lock S.keys D.step D.standing_at D.place_of) reached self.old → reached.server.now ≤ moment → OnOk result (Leads (bases_of S.lock S.keys D.step D.standing_at D.place_of) moment place (Attach key session) reached self.new) }
        ensures memory { IfErr result (λ fault. fault ≡ faults.Memory) }
        ensures none_begun { OnOk result (self.new.begun ≡ None) }
        ensures same_seed { self.new.seed ≡ self.old.seed }
        ensures same_seal { self.new.server.seal ≡ self.old.server.seal }
    {
        events_draw_words::<D, ()>();
        seeded_draws_go_on::<D>();
        let now = Moment::new(moment);
        self.draw = D::at(&self.seed, place);
        let _ = self
            .server
            .attach(alloc, key, session, now, &mut self.draw)?;
        self.latest = now;
        self.begun = None;
        Ok(())
    }

    /// A run of a job began.
    ///
    /// # Errors
    ///
    /// `Unlawful`, where there is no ready job of this place.
    fn begins(&mut self, job: u64) -> Result<(), PlayFault>
        ensures led { (reached : Reached) (moment place : ℕ) → StandsAt (bases_of S.lock S.keys D.step D.standing_at D.place_of) reached self.old → OnOk result (Leads (bases_of S.lock S.keys D.step D.standing_at D.place_of) moment place (Begin job) reached self.new) }
        ensures unlawful { (reached : Reached) (moment place : ℕ) → StandsAt (bases_of S.lock S.keys D.step D.standing_at D.place_of) reached self.old
            → OnErr result ((after : Reached) → LeadsTo (basis_for (bases_of S.lock S.keys D.step D.standing_at D.place_of) self.old) moment place (Begin job) reached after → ⊥) }
        ensures ready { OnOk result (IsReady self.new) }
        ensures refused { IfErr result (λ fault. fault ≡ faults.Unlawful) }
        ensures same_seed { self.new.seed ≡ self.old.seed }
        ensures same_seal { self.new.server.seal ≡ self.old.server.seal }
    {
        if job >= self.server.ready() as u64 {
            return Err(PlayFault::Unlawful);
        }
        self.begun = Some(job as usize);
        Ok(())
    }

    /// A run ended with this reply.
    ///
    /// # Errors
    ///
    /// `Unlawful`, where none began last. `Memory`.
    fn ran(&mut self, alloc: Global, moment: u64, place: u64, reply: &[u8]) -> Result<(), PlayFault>
        requires reply { IsReply reply.now }
        requires ready { IsReady self.old }
        ensures led { (reached : Reached) → StandsAt (bases_of S.lock S.keys D.step D.standing_at D.place_of) reached self.old → reached.server.now ≤ moment → OnOk result (Leads (bases_of S.lock S.keys D.step D.standing_at D.place_of) moment place (Ran reply.now) reached self.new) }
        ensures unlawful { (reached : Reached) → StandsAt (bases_of S.lock S.keys D.step D.standing_at D.place_of) reached self.old
            → IfErr result (λ fault. fault ≡ faults.Unlawful → (after : Reached) → LeadsTo (basis_for (bases_of S.lock S.keys D.step D.standing_at D.place_of) self.old) moment place (Ran reply.now) reached after → ⊥) }
        ensures none_begun { OnOk result (self.new.begun ≡ None) }
        ensures same_seed { self.new.seed ≡ self.old.seed }
        ensures same_seal { self.new.server.seal ≡ self.old.server.seal }
    {
        let recorded = Recorded::new(alloc, reply)?;
        self.ends(alloc, moment, place, recorded)
    }

    /// A run was cut off.
    ///
    /// # Errors
    ///
    /// `Unlawful`, where none began last. `Memory`.
    pub(crate) fn interrupted(
        &mut self,
        alloc: Global,
        moment: u64,
        place: u64,
    ) -> Result<(), PlayFault>
        requires ready { IsReady self.old }
        ensures led { (reached : Reached) → StandsAt (bases_of S.lock S.keys D.step D.standing_at D.place_of) reached self.old → reached.server.now ≤ moment → OnOk result (Leads (bases_of S.lock S.keys D.step D.standing_at D.place_of) moment place Interrupted reached self.new) }
        ensures unlawful { (reached : Reached) → StandsAt (bases_of S.lock S.keys D.step D.standing_at D.place_of) reached self.old
            → IfErr result (λ fault. fault ≡ faults.Unlawful → (after : Reached) → LeadsTo (basis_for (bases_of S.lock S.keys D.step D.standing_at D.place_of) self.old) moment place Interrupted reached after → ⊥) }
        ensures none_begun { OnOk result (self.new.begun ≡ None) }
        ensures same_seed { self.new.seed ≡ self.old.seed }
        ensures same_seal { self.new.server.seal ≡ self.old.server.seal }
    {
        let recorded = Recorded::interrupted(alloc)?;
        self.ends(alloc, moment, place, recorded)
    }

    /// A run ended so.
    ///
    /// # Errors
    ///
    /// `Unlawful`, where none began last. `Memory`.
    fn ends(
        &mut self,
        alloc: Global,
        moment: u64,
        place: u64,
        recorded: Recorded,
    ) -> Result<(), PlayFault>
        requires ready { IsReady self.old }
        ensures ended { (reached : Reached) → StandsAt (bases_of S.lock S.keys D.step D.standing_at D.place_of) reached self.old → reached.server.now ≤ moment
            → OnOk result ((job : ℕ) × (reached.begun ≡ Some job)
            × StandsAt (bases_of S.lock S.keys D.step D.standing_at D.place_of) (reached_by (basis_for (bases_of S.lock S.keys D.step D.standing_at D.place_of) self.new) (after_reply (setting_at (basis_for (bases_of S.lock S.keys D.step D.standing_at D.place_of) self.new) moment) job recorded reached.server ((basis_for (bases_of S.lock S.keys D.step D.standing_at D.place_of) self.new).at place))) self.new) }
        ensures unlawful { IfErr result (λ fault. fault ≡ faults.Unlawful → self.old.begun ≡ None) }
        ensures none_begun { OnOk result (self.new.begun ≡ None) }
        ensures same_seed { self.new.seed ≡ self.old.seed }
        ensures same_seal { self.new.server.seal ≡ self.old.server.seal }
    {
        events_draw_words::<D, Recorded>();
        seeded_draws_go_on::<D>();
        let Some(job) = self.begun else {
            return Err(PlayFault::Unlawful);
        };
        let now = Moment::new(moment);
        let mut recorded = recorded;
        self.draw = D::at(&self.seed, place);
        let _ = self
            .server
            .work(alloc, job, &mut recorded, now, &mut self.draw)?;
        self.latest = now;
        self.begun = None;
        Ok(())
    }
}
