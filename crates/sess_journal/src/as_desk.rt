//! A server that keeps a journal, as a desk. Its faults are all that there are. Beside what any desk promises, it says that a call
//! which was refused before anything was done changes nothing. It is bound to its file.

ghost use Rattle.std.specs.Prelude.{◌≡◌, ◌≤◌, ◌<◌, ◌+◌, ⊤, ℕ, length, max, IfErr, IfOk, OnOk};
ghost use Rattle.envelope.specs.declared.parts.Dir.TheVariants.{Up};
ghost use Rattle.envelope.specs.declared.parts.Envelope.{Envelope as Sealed};
ghost use Rattle.envelope.specs.declared.refusal.Refusal.{Refusal as Refused};
ghost use Rattle.envelope.specs.Opening.{IsRefused, Opens};
ghost use Rattle.waits.specs.Jobs.{ready_count};
ghost use Rattle.server_dispatch.specs.Rings.{AreOf};
ghost use Rattle.server_rules.specs.Answer.{after_attach, after_packet, after_tick, after_work};
ghost use Rattle.server_rules.specs.Server.{Server as Rules};
ghost use Rattle.server_session.specs.Says.{Keys, setting_of};
ghost use Rattle.server_core.specs.declared.desk.DeskFault.TheVariants as faults;
ghost use Rattle.server_core.specs.Desks.{Counts, Does, DoesNothing, frame_bytes_max};
ghost use Rattle.server_core.specs.Packets.{IsHeardOf, brought_in, effects_in};
ghost use Rattle.sess_journal.specs.Keeping.{Behind, IfNothingDone, Refuses, StandsFor, count_of, disk_in, place_by};
ghost use Rattle.sess_journal.specs.Replay.{bases_of};

use crate::kept::Kept;
use disks::Disk;
use draws::Seeded;
use envelope::Seal;
use msg_ids::Moment;
use regs_service::Service;
use server_core::{Desk, DeskFault, Effects, Reply};
use std::alloc::Global;

impl<K: Disk + Drop, S: Seal + Drop, D: Seeded + Drop> Desk for Kept<K, S, D> {
    type S = S;

    type D = D;

    ghost keys = { λ desk. S.keys desk.server.seal };

    ghost StandsFor = { StandsFor (bases_of S.lock S.keys D.step D.standing_at D.place_of) K.told };

    ghost drawn = { λ desk. desk.draw };

    // It has its draw itself, behind no reference: so this is the place of its file.
    ghost bound_to = { λ desk. place_by K.place (disk_in desk.book) };

    ghost fault_count = { λ desk. count_of K.faults (disk_in desk.book) };

    ghost ready_jobs = { λ desk. ready_count desk.server.jobs };

    ghost MayAnswer = { λ _. ⊤ };

    ghost Behind = { Behind (bases_of S.lock S.keys D.step D.standing_at D.place_of) K.told };

    fn on_packet(&mut self, alloc: Global, now: Moment, packet: &[u8]) -> Result<Reply, DeskFault>
        ensures heard { (server : Rules) → StandsFor (bases_of S.lock S.keys D.step D.standing_at D.place_of) K.told self.old server
            → IfOk result (λ reply. IsHeardOf S.lock (S.keys self.old.server.seal) (max server.now now) packet.now reply.heard) }
        ensures refused { (server : Rules) (refusal : Refused) → StandsFor (bases_of S.lock S.keys D.step D.standing_at D.place_of) K.told self.old server
            → IsRefused S.lock (S.keys self.old.server.seal) (max server.now now) Up packet.now refusal
            → IfOk result (λ reply. DoesNothing (StandsFor (bases_of S.lock S.keys D.step D.standing_at D.place_of) K.told self.new) self.old.draw self.new.draw reply (record server { now = max server.now now })) }
        ensures given { (ring : Keys) (server : Rules) (envelope : Sealed) → AreOf (S.keys self.old.server.seal) ring → StandsFor (bases_of S.lock S.keys D.step D.standing_at D.place_of) K.told self.old server
            → Opens S.lock (S.keys self.old.server.seal) (max server.now now) Up packet.now envelope
            → IfOk result (λ reply. Does (StandsFor (bases_of S.lock S.keys D.step D.standing_at D.place_of) K.told self.new) S.lock (S.keys self.old.server.seal) self.new.draw (effects_in reply)
            (after_packet (setting_of (max server.now now) D.step ring) (brought_in envelope) server self.old.draw)) }
        ensures unchanged_on_memory { (server : Rules) → StandsFor (bases_of S.lock S.keys D.step D.standing_at D.place_of) K.told self.old server → IfErr result (λ fault. fault ≡ faults.Memory → StandsFor (bases_of S.lock S.keys D.step D.standing_at D.place_of) K.told self.new server) }
        ensures unchanged_on_full { (server : Rules) (len : ℕ) → StandsFor (bases_of S.lock S.keys D.step D.standing_at D.place_of) K.told self.old server → IfErr result (λ fault. fault ≡ faults.Full len → StandsFor (bases_of S.lock S.keys D.step D.standing_at D.place_of) K.told self.new server) }
        ensures behind { (server : Rules) → StandsFor (bases_of S.lock S.keys D.step D.standing_at D.place_of) K.told self.old server → length packet.now ≤ frame_bytes_max → IfErr result (λ fault. Behind (bases_of S.lock S.keys D.step D.standing_at D.place_of) K.told self.new fault server) }
        ensures same_keys { S.keys self.new.server.seal ≡ S.keys self.old.server.seal }
        ensures counted { Counts result (count_of K.faults (disk_in self.old.book)) (count_of K.faults (disk_in self.new.book)) }
        // It has no room exactly where what this call adds at most doesn't fit.
        ensures refuses { Refuses (22 + length packet.now) self.old.book result }
        // Where it was closed, or has no room, nothing is done.
        ensures unchanged { IfErr result (IfNothingDone (self.new ≡ self.old)) }
        ensures same_binding { place_by K.place (disk_in self.new.book) ≡ place_by K.place (disk_in self.old.book) }
    {
        S::opens_what_it_sealed();
        self.has_disk();
        Kept::on_packet(self, alloc, now, packet)
    }

    fn ready(&self) -> usize {
        Kept::ready(self)
    }

    fn unfinished(&self) -> usize {
        Kept::unfinished(self)
    }

    fn work<V: Service>(
        &mut self,
        alloc: Global,
        k: usize,
        service: &mut V,
        now: Moment,
    ) -> Result<Effects, DeskFault>
        requires ready { k < ready_count self.old.server.jobs }
        ensures given { (ring : Keys) (server : Rules) → StandsFor (bases_of S.lock S.keys D.step D.standing_at D.place_of) K.told self.old server
            → IfOk result (λ effects. Does (StandsFor (bases_of S.lock S.keys D.step D.standing_at D.place_of) K.told self.new) S.lock (S.keys self.old.server.seal) self.new.draw effects
            (after_work (setting_of (max server.now now) D.step ring) k V.step service.old server self.old.draw).0) }
        ensures served { (ring : Keys) (server : Rules) → StandsFor (bases_of S.lock S.keys D.step D.standing_at D.place_of) K.told self.old server
            → OnOk result (service.new ≡ (after_work (setting_of (max server.now now) D.step ring) k V.step service.old server self.old.draw).1) }
        ensures unchanged_on_memory { (server : Rules) → StandsFor (bases_of S.lock S.keys D.step D.standing_at D.place_of) K.told self.old server → IfErr result (λ fault. fault ≡ faults.Memory → StandsFor (bases_of S.lock S.keys D.step D.standing_at D.place_of) K.told self.new server) }
        ensures unchanged_on_full { (server : Rules) (len : ℕ) → StandsFor (bases_of S.lock S.keys D.step D.standing_at D.place_of) K.told self.old server → IfErr result (λ fault. fault ≡ faults.Full len → StandsFor (bases_of S.lock S.keys D.step D.standing_at D.place_of) K.told self.new server) }
        ensures behind { (server : Rules) → StandsFor (bases_of S.lock S.keys D.step D.standing_at D.place_of) K.told self.old server → IfErr result (λ fault. Behind (bases_of S.lock S.keys D.step D.standing_at D.place_of) K.told self.new fault server) }
        ensures same_service_on_memory { IfErr result (λ fault. fault ≡ faults.Memory → service.new ≡ service.old) }
        ensures same_service_on_full { (len : ℕ) → IfErr result (λ fault. fault ≡ faults.Full len → service.new ≡ service.old) }
        ensures same_keys { S.keys self.new.server.seal ≡ S.keys self.old.server.seal }
        ensures counted { Counts result (count_of K.faults (disk_in self.old.book)) (count_of K.faults (disk_in self.new.book)) }
        // It has no room exactly where what this call adds at most doesn't fit.
        ensures refuses { Refuses 262196 self.old.book result }
        // Where it was closed, or has no room, nothing is done.
        ensures unchanged { IfErr result (IfNothingDone (self.new ≡ self.old)) }
        ensures same_service { IfErr result (IfNothingDone (service.new ≡ service.old)) }
        ensures same_binding { place_by K.place (disk_in self.new.book) ≡ place_by K.place (disk_in self.old.book) }
    {
        self.has_disk();
        Kept::work(self, alloc, k, service, now)
    }

    fn tick(&mut self, alloc: Global, now: Moment) -> Result<Effects, DeskFault>
        ensures given { (ring : Keys) (server : Rules) → StandsFor (bases_of S.lock S.keys D.step D.standing_at D.place_of) K.told self.old server
            → IfOk result (λ effects. Does (StandsFor (bases_of S.lock S.keys D.step D.standing_at D.place_of) K.told self.new) S.lock (S.keys self.old.server.seal) self.new.draw effects
            (after_tick (setting_of (max server.now now) D.step ring) server self.old.draw)) }
        ensures unchanged_on_memory { (server : Rules) → StandsFor (bases_of S.lock S.keys D.step D.standing_at D.place_of) K.told self.old server → IfErr result (λ fault. fault ≡ faults.Memory → StandsFor (bases_of S.lock S.keys D.step D.standing_at D.place_of) K.told self.new server) }
        ensures unchanged_on_full { (server : Rules) (len : ℕ) → StandsFor (bases_of S.lock S.keys D.step D.standing_at D.place_of) K.told self.old server → IfErr result (λ fault. fault ≡ faults.Full len → StandsFor (bases_of S.lock S.keys D.step D.standing_at D.place_of) K.told self.new server) }
        ensures behind { (server : Rules) → StandsFor (bases_of S.lock S.keys D.step D.standing_at D.place_of) K.told self.old server → IfErr result (λ fault. Behind (bases_of S.lock S.keys D.step D.standing_at D.place_of) K.told self.new fault server) }
        ensures same_keys { S.keys self.new.server.seal ≡ S.keys self.old.server.seal }
        ensures counted { Counts result (count_of K.faults (disk_in self.old.book)) (count_of K.faults (disk_in self.new.book)) }
        // It has no room exactly where what this call adds at most doesn't fit.
        ensures refuses { Refuses 22 self.old.book result }
        // Where it was closed, or has no room, nothing is done.
        ensures unchanged { IfErr result (IfNothingDone (self.new ≡ self.old)) }
        ensures same_binding { place_by K.place (disk_in self.new.book) ≡ place_by K.place (disk_in self.old.book) }
    {
        self.has_disk();
        Kept::tick(self, alloc, now)
    }

    fn attach(
        &mut self,
        alloc: Global,
        key: u64,
        session: u64,
        now: Moment,
    ) -> Result<Effects, DeskFault>
        ensures given { (ring : Keys) (server : Rules) → StandsFor (bases_of S.lock S.keys D.step D.standing_at D.place_of) K.told self.old server
            → IfOk result (λ effects. Does (StandsFor (bases_of S.lock S.keys D.step D.standing_at D.place_of) K.told self.new) S.lock (S.keys self.old.server.seal) self.new.draw effects
            (after_attach (setting_of (max server.now now) D.step ring) (record { key = key; session = session }) server self.old.draw)) }
        ensures unchanged_on_memory { (server : Rules) → StandsFor (bases_of S.lock S.keys D.step D.standing_at D.place_of) K.told self.old server → IfErr result (λ fault. fault ≡ faults.Memory → StandsFor (bases_of S.lock S.keys D.step D.standing_at D.place_of) K.told self.new server) }
        ensures unchanged_on_full { (server : Rules) (len : ℕ) → StandsFor (bases_of S.lock S.keys D.step D.standing_at D.place_of) K.told self.old server → IfErr result (λ fault. fault ≡ faults.Full len → StandsFor (bases_of S.lock S.keys D.step D.standing_at D.place_of) K.told self.new server) }
        ensures behind { (server : Rules) → StandsFor (bases_of S.lock S.keys D.step D.standing_at D.place_of) K.told self.old server → IfErr result (λ fault. Behind (bases_of S.lock S.keys D.step D.standing_at D.place_of) K.told self.new fault server) }
        ensures same_keys { S.keys self.new.server.seal ≡ S.keys self.old.server.seal }
        ensures counted { Counts result (count_of K.faults (disk_in self.old.book)) (count_of K.faults (disk_in self.new.book)) }
        // It has no room exactly where what this call adds at most doesn't fit.
        ensures refuses { Refuses 38 self.old.book result }
        // Where it was closed, or has no room, nothing is done.
        ensures unchanged { IfErr result (IfNothingDone (self.new ≡ self.old)) }
        ensures same_binding { place_by K.place (disk_in self.new.book) ≡ place_by K.place (disk_in self.old.book) }
    {
        self.has_disk();
        Kept::attach(self, alloc, key, session, now)
    }

    fn is_in_order() {}
}
