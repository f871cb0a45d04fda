//! The events of a server that keeps a journal: each is stepped, recorded, and then answered.

ghost use Rattle.std.specs.Prelude.{◌≡◌, ◌≤◌, ◌+◌, ◌++◌, ◌∷◌, ◌↔◌, [], ℕ, List, false, length, max, IfErr};
ghost use Rattle.envelope.specs.declared.parts.Dir.TheVariants.{Up};
ghost use Rattle.envelope.specs.declared.parts.Envelope.{Envelope as Sealed};
ghost use Rattle.envelope.specs.Opening.{Opens};
ghost use Rattle.sess_records.specs.declared.records.Event.TheVariants.{Attach, Packet, Tick};
ghost use Rattle.sess_records.specs.declared.records.Record.{Record};
ghost use Rattle.server_dispatch.specs.Rings.{AreOf};
ghost use Rattle.server_rules.specs.Answer.{after_attach, after_packet, after_tick};
ghost use Rattle.server_rules.specs.Server.{Server as Rules};
ghost use Rattle.server_session.specs.Says.{Keys, setting_of};
ghost use Rattle.server_core.specs.Desks.{Does, DoesNothing};
ghost use Rattle.server_core.specs.Packets.{IsHeardOf, brought_in, effects_in};
ghost use Rattle.sess_journal.specs.Keeping.{ByHeard, GivesNothing, HasCounted, IfNothingDone, IsRecorded, IsSameDisk, Journals, KeepsFor, OfDisks, Refuses, entry_at};
ghost use Rattle.sess_journal.specs.Replay.{bases_of};

use crate::kept::Kept;
use crate::recorded::Recorded;
use crate::staging::{events_begin, is_early};
use disks::Disk;
use draws::{Draw, Seeded};
use envelope::Seal;
use law_server_replay::laws::{
    events_draw_words, events_leave_room, keys_are_asked_by_packets_alone,
    quiet_events_change_nothing, rings_say_one_thing,
};
use msg_ids::Moment;
use ring_rules::laws::rings_have_keys;
use server_core::{DeskFault, Effects, Heard, Reply};
use sess_records::Event;
use std::alloc::Global;

/// How many bytes the record of a packet has beside it, with the gate behind it, and that of a tick.
const SHORT_BYTES: u64 = 22;

/// How many bytes the record of an attach has, with the gate behind it.
const ATTACH_BYTES: u64 = 38;

impl<K: Disk + Drop, S: Seal + Drop, D: Seeded + Drop> Kept<K, S, D> {
    /// Time goes on, and that is recorded where it gave something.
    ///
    /// # Errors
    ///
    /// `Closed`, `Full`, `Memory` or `Disk`, in this order. After `Closed` and `Full` nothing has changed, after `Memory` the
    /// server is as it was.
    pub fn tick(&mut self, alloc: Global, now: Moment) -> Result<Effects, DeskFault>
        ensures refuses { Refuses 22 self.old.book result }
        ensures journal { (entries : List Record) (server : Rules) → KeepsFor (bases_of S.lock S.keys D.step D.standing_at D.place_of) K.told entries self.old server
            → Journals (bases_of S.lock S.keys D.step D.standing_at D.place_of) K.told entries (entry_at D.place_of self.old now Tick ∷ []) [] server self.old self.new result (λ effects more.
            IsRecorded (GivesNothing effects) (entry_at D.place_of self.old now Tick) more
            × ((ring : Keys) → Does (KeepsFor (bases_of S.lock S.keys D.step D.standing_at D.place_of) K.told (entries ++ more) self.new) S.lock (S.keys self.old.server.seal) self.new.draw effects
            (after_tick (setting_of (max server.now now) D.step ring) server self.old.draw))) }
        ensures unchanged { IfErr result (IfNothingDone (self.new ≡ self.old)) }
        ensures counted { HasCounted K.faults result self.old.book self.new.book }
        ensures same_disk { OfDisks self.old.book self.new.book (IsSameDisk K.told K.place) }
        ensures same_seal { self.new.server.seal ≡ self.old.server.seal }
    {
        events_begin::<K, S, D>();
        events_draw_words::<D, Recorded>();
        events_leave_room::<D, Recorded>();
        keys_are_asked_by_packets_alone::<D, Recorded>();
        quiet_events_change_nothing::<D>();
        is_early(now);
        let seed = self.book.seed_with_room(SHORT_BYTES)?;
        let place = self.draw.place();
        let moment = self.latest.later(now);
        let Ok(effects) = self.server.tick(alloc, now, &mut self.draw) else {
            self.draw = D::at(&seed, place);
            return Err(DeskFault::Memory);
        };
        self.latest = moment;
        if !gives_something(&effects) {
            return Ok(effects);
        }
        self.book.add(moment.seconds(), place, Event::Tick)?;
        Ok(effects)
    }

    /// A connection is opened for a session, and that is recorded where it gave something.
    ///
    /// # Errors
    ///
    /// `Closed`, `Full`, `Memory` or `Disk`, in this order. After `Closed` and `Full` nothing has changed, after `Memory` the
    /// server is as it was.
    pub fn attach(
        &mut self,
        alloc: Global,
        key: u64,
        session: u64,
        now: Moment,
    ) -> Result<Effects, DeskFault>
        ensures refuses { Refuses 38 self.old.book result }
        ensures journal { (entries : List Record) (server : Rules) → KeepsFor (bases_of S.lock S.keys D.step D.standing_at D.place_of) K.told entries self.old server
            → Journals (bases_of S.lock S.keys D.step D.standing_at D.place_of) K.told entries (entry_at D.place_of self.old now (Attach key session) ∷ []) [] server self.old self.new result (λ effects more.
            IsRecorded (GivesNothing effects) (entry_at D.place_of self.old now (Attach key session)) more
            × ((ring : Keys) → Does (KeepsFor (bases_of S.lock S.keys D.step D.standing_at D.place_of) K.told (entries ++ more) self.new) S.lock (S.keys self.old.server.seal) self.new.draw effects
            (after_attach (setting_of (max server.now now) D.step ring) (record { key = key; session = session }) server self.old.draw))) }
        ensures unchanged { IfErr result (IfNothingDone (self.new ≡ self.old)) }
        ensures counted { HasCounted K.faults result self.old.book self.new.book }
        ensures same_disk { OfDisks self.old.book self.new.book (IsSameDisk K.told K.place) }
        ensures same_seal { self.new.server.seal ≡ self.old.server.seal }
    {
        events_begin::<K, S, D>();
        events_draw_words::<D, Recorded>();
        events_leave_room::<D, Recorded>();
        keys_are_asked_by_packets_alone::<D, Recorded>();
        quiet_events_change_nothing::<D>();
        is_early(now);
        let seed = self.book.seed_with_room(ATTACH_BYTES)?;
        let place = self.draw.place();
        let moment = self.latest.later(now);
        let Ok(effects) = self.server.attach(alloc, key, session, now, &mut self.draw) else {
            self.draw = D::at(&seed, place);
            return Err(DeskFault::Memory);
        };
        self.latest = moment;
        if !gives_something(&effects) {
            return Ok(effects);
        }
        self.book
            .add(moment.seconds(), place, Event::Attach { key, session })?;
        Ok(effects)
    }

    /// A packet comes, and it is recorded where it was judged.
    ///
    /// # Errors
    ///
    /// `Closed`, `Full`, `Memory` or `Disk`, in this order. After `Closed` and `Full` nothing has changed, after `Memory` the
    /// server is as it was.
    pub fn on_packet(
        &mut self,
        alloc: Global,
        now: Moment,
        packet: &[u8],
    ) -> Result<Reply, DeskFault>
        ensures refuses { Refuses (22 + length packet.now) self.old.book result }
        ensures journal { (entries : List Record) (server : Rules) → KeepsFor (bases_of S.lock S.keys D.step D.standing_at D.place_of) K.told entries self.old server
            → Journals (bases_of S.lock S.keys D.step D.standing_at D.place_of) K.told entries (entry_at D.place_of self.old now (Packet packet.now) ∷ []) [] server self.old self.new result (λ reply more.
            IsHeardOf S.lock (S.keys self.old.server.seal) (max server.now now) packet.now reply.heard
            × ByHeard reply.heard
            ((more ≡ []) × DoesNothing (KeepsFor (bases_of S.lock S.keys D.step D.standing_at D.place_of) K.told entries self.new) self.old.draw self.new.draw reply (record server { now = max server.now now }))
            ((more ≡ entry_at D.place_of self.old now (Packet packet.now) ∷ [])
            × ((ring : Keys) (envelope : Sealed) → AreOf (S.keys self.old.server.seal) ring → Opens S.lock (S.keys self.old.server.seal) (max server.now now) Up packet.now envelope
            → Does (KeepsFor (bases_of S.lock S.keys D.step D.standing_at D.place_of) K.told (entries ++ more) self.new) S.lock (S.keys self.old.server.seal) self.new.draw (effects_in reply)
            (after_packet (setting_of (max server.now now) D.step ring) (brought_in envelope) server self.old.draw)))) }
        ensures unchanged { IfErr result (IfNothingDone (self.new ≡ self.old)) }
        ensures counted { HasCounted K.faults result self.old.book self.new.book }
        ensures same_disk { OfDisks self.old.book self.new.book (IsSameDisk K.told K.place) }
        ensures same_seal { self.new.server.seal ≡ self.old.server.seal }
    {
        events_begin::<K, S, D>();
        events_draw_words::<D, Recorded>();
        rings_have_keys();
        rings_say_one_thing();
        is_early(now);
        let seed = self.book.seed_with_room(SHORT_BYTES + packet.len() as u64)?;
        let place = self.draw.place();
        let moment = self.latest.later(now);
        let Ok(reply) = self.server.on_packet(alloc, now, packet, &mut self.draw) else {
            self.draw = D::at(&seed, place);
            return Err(DeskFault::Memory);
        };
        self.latest = moment;
        match reply.heard {
            Heard::NotOpened(_) => Ok(reply),
            Heard::Judged { .. } => {
                self.book
                    .add(moment.seconds(), place, Event::Packet { packet })?;
                Ok(reply)
            }
        }
    }
}

/// Whether an event gave a packet or an entry.
fn gives_something(effects: &Effects) -> bool
    ensures { result ≡ false ↔ GivesNothing effects.now }
{
    !effects.out.as_slice().is_empty() || !effects.entries.as_slice().is_empty()
}
