//! A run of a server that keeps a journal: its begin is recorded before it, and its reply behind it.

ghost use Rattle.std.specs.Prelude.{◌≡◌, ◌≤◌, ◌<◌, ◌+◌, ◌++◌, ◌∷◌, [], ℕ, List, Some, length, max, IfErr, IfOk, IsSomeAnd};
ghost use Rattle.waits.specs.Jobs.{ready_count};
ghost use Rattle.sess_records.specs.declared.records.Event.TheVariants.{Begin, Ran};
ghost use Rattle.sess_records.specs.declared.records.Record.{Record};
ghost use Rattle.server_rules.specs.Answer.{after_work};
ghost use Rattle.server_rules.specs.Server.{Server as Rules};
ghost use Rattle.server_session.specs.Says.{Keys, setting_of};
ghost use Rattle.server_core.specs.declared.desk.DeskFault.TheVariants as faults;
ghost use Rattle.server_core.specs.Desks.{Does};
ghost use Rattle.sess_journal.specs.Keeping.{HasBegun, HasCounted, IfNothingDone, IsAfterBegin, IsSameDisk, Journals, KeepsFor, OfDisks, Refuses, entry_at, journal_bytes_max, reply_at};
ghost use Rattle.sess_journal.specs.Replay.{bases_of};

use crate::kept::Kept;
use crate::staging::{events_begin, is_early};
use disks::Disk;
use draws::{Draw, Seeded};
use envelope::Seal;
use law_server_replay::laws::{events_draw_words, keys_are_asked_by_packets_alone};
use msg_ids::Moment;
use regs_service::Service;
use server_core::{DeskFault, Effects};
use sess_records::Event;
use std::alloc::Global;

/// How many bytes the records of a run have at most, with their gates.
const WORK_BYTES: u64 = 262_196;

impl<K: Disk + Drop, S: Seal + Drop, D: Seeded + Drop> Kept<K, S, D> {
    /// How many jobs are ready.
    pub fn ready(&self) -> usize
        ensures { result ≡ ready_count self.now.server.jobs }
    {
        self.server.ready()
    }

    /// How many jobs are unfinished, ready or not.
    pub fn unfinished(&self) -> usize
        ensures { result ≡ length self.now.server.jobs }
    {
        self.server.unfinished()
    }

    /// Runs the ready job of this place among the ready ones, from 0 in order of acceptance. That its run begins is recorded
    /// before it, and its reply behind it. The place has to be less than `ready()`.
    ///
    /// # Errors
    ///
    /// `Closed`, `Full`, `Memory` or `Disk`, in this order, but that a fault of the disk at the begin comes before the run and
    /// its want of memory. After `Closed` and `Full` nothing has changed. After `Memory` the server and the service are as they
    /// were; the journal may have the begin, which has no effect unless it stands last when the journal is opened.
    pub fn work<V: Service>(
        &mut self,
        alloc: Global,
        k: usize,
        service: &mut V,
        now: Moment,
    ) -> Result<Effects, DeskFault>
        requires ready { k < ready_count self.old.server.jobs }
        ensures refuses { Refuses 262196 self.old.book result }
        ensures journal { (entries : List Record) (server : Rules) → KeepsFor (bases_of S.lock S.keys D.step D.standing_at D.place_of) K.told entries self.old server
            → Journals (bases_of S.lock S.keys D.step D.standing_at D.place_of) K.told entries
            (entry_at D.place_of self.old now (Begin k) ∷ entry_at D.place_of self.old now (Ran (reply_at V.step service.old k server.jobs)) ∷ [])
            (entry_at D.place_of self.old now (Begin k) ∷ []) server self.old self.new result (λ effects more.
            (more ≡ entry_at D.place_of self.old now (Begin k) ∷ entry_at D.place_of self.old now (Ran (reply_at V.step service.old k server.jobs)) ∷ [])
            × ((ring : Keys) → Does (KeepsFor (bases_of S.lock S.keys D.step D.standing_at D.place_of) K.told (entries ++ more) self.new) S.lock (S.keys self.old.server.seal) self.new.draw effects
            ((after_work (setting_of (max server.now now) D.step ring) k V.step service.old server self.old.draw).0)
            × (service.new ≡ (after_work (setting_of (max server.now now) D.step ring) k V.step service.old server self.old.draw).1))) }
        ensures unchanged { IfErr result (IfNothingDone (self.new ≡ self.old)) }
        ensures same_service { IfErr result (IfNothingDone (service.new ≡ service.old)) }
        ensures same_service_on_memory { IfErr result (λ fault. fault ≡ faults.Memory → service.new ≡ service.old) }
        ensures counted { HasCounted K.faults result self.old.book self.new.book }
        ensures same_disk { OfDisks self.old.book self.new.book (IsSameDisk K.told K.place) }
        ensures same_seal { self.new.server.seal ≡ self.old.server.seal }
    {
        let seed = self.begins(k, now)?;
        self.ends(alloc, k, service, now, &seed)
    }

    // Records that the run of a job begins, where there is room for it and for its reply. The journal's seed.
    fn begins(&mut self, k: usize, now: Moment) -> Result<[u8; 32], DeskFault>
        requires ready { k < ready_count self.old.server.jobs }
        ensures refuses { Refuses 262196 self.old.book result }
        ensures journal { (entries : List Record) (server : Rules) → KeepsFor (bases_of S.lock S.keys D.step D.standing_at D.place_of) K.told entries self.old server
            → Journals (bases_of S.lock S.keys D.step D.standing_at D.place_of) K.told entries (entry_at D.place_of self.old now (Begin k) ∷ []) [] server self.old self.new result (λ seed more.
            (more ≡ entry_at D.place_of self.old now (Begin k) ∷ [])
            × HasBegun (bases_of S.lock S.keys D.step D.standing_at D.place_of) K.told (entries ++ entry_at D.place_of self.old now (Begin k) ∷ []) k self.new server) }
        ensures not_memory { IfErr result (λ fault. fault ≡ faults.Memory → ⊥) }
        ensures unchanged { IfErr result (IfNothingDone (self.new ≡ self.old)) }
        ensures seed { IfOk result (λ seed. IsSomeAnd self.old.book.journal (λ file. (seed ≡ file.seed) × (file.len + 262196 ≤ journal_bytes_max))) }
        ensures open { IfOk result (λ seed. IsSomeAnd self.new.book.journal (λ file. (seed ≡ file.seed) × (file.len + 262166 ≤ journal_bytes_max))) }
        ensures same { self.new ≡ record self.old { book = self.new.book } }
        ensures counted { HasCounted K.faults result self.old.book self.new.book }
        ensures same_disk { OfDisks self.old.book self.new.book (IsSameDisk K.told K.place) }
    {
        events_begin::<K, S, D>();
        is_early(now);
        let seed = self.book.seed_with_room(WORK_BYTES)?;
        let place = self.draw.place();
        let moment = self.latest.later(now);
        self.book
            .add(moment.seconds(), place, Event::Begin { job: k as u64 })?;
        Ok(seed)
    }

    // Runs a job whose run began in the last record of the journal, which has this seed, and records the reply.
    fn ends<V: Service>(
        &mut self,
        alloc: Global,
        k: usize,
        service: &mut V,
        now: Moment,
        seed: &[u8; 32],
    ) -> Result<Effects, DeskFault>
        requires ready { k < ready_count self.old.server.jobs }
        requires open { IsSomeAnd self.old.book.journal (λ file. (seed.now ≡ file.seed) × (file.len + 262166 ≤ journal_bytes_max)) }
        ensures refused { IfErr result IsAfterBegin }
        ensures journal { (entries : List Record) (server : Rules) → HasBegun (bases_of S.lock S.keys D.step D.standing_at D.place_of) K.told entries k self.old server
            → Journals (bases_of S.lock S.keys D.step D.standing_at D.place_of) K.told entries (entry_at D.place_of self.old now (Ran (reply_at V.step service.old k server.jobs)) ∷ []) [] server self.old self.new result (λ effects more.
            (more ≡ entry_at D.place_of self.old now (Ran (reply_at V.step service.old k server.jobs)) ∷ [])
            × ((ring : Keys) → Does (KeepsFor (bases_of S.lock S.keys D.step D.standing_at D.place_of) K.told (entries ++ more) self.new) S.lock (S.keys self.old.server.seal) self.new.draw effects
            ((after_work (setting_of (max server.now now) D.step ring) k V.step service.old server self.old.draw).0)
            × (service.new ≡ (after_work (setting_of (max server.now now) D.step ring) k V.step service.old server self.old.draw).1))) }
        ensures same_service_on_memory { IfErr result (λ fault. fault ≡ faults.Memory → service.new ≡ service.old) }
        ensures counted { HasCounted K.faults result self.old.book self.new.book }
        ensures same_disk { OfDisks self.old.book self.new.book (IsSameDisk K.told K.place) }
        ensures same_seal { self.new.server.seal ≡ self.old.server.seal }
    {
        events_begin::<K, S, D>();
        events_draw_words::<D, V>();
        keys_are_asked_by_packets_alone::<D, V>();
        is_early(now);
        let place = self.draw.place();
        let moment = self.latest.later(now);
        let request = self.server.ready_request(k).unwrap();
        let Ok(foreseen) = service.foresee(alloc, request) else {
            return Err(DeskFault::Memory);
        };
        let Ok(effects) = self.server.work(alloc, k, service, now, &mut self.draw) else {
            self.draw = D::at(seed, place);
            return Err(DeskFault::Memory);
        };
        self.latest = moment;
        let reply = foreseen.as_slice();
        self.book
            .add(moment.seconds(), place, Event::Ran { reply })?;
        Ok(effects)
    }
}
