//! A desk: what takes the packets of connections to a server.

ghost use Rattle.std.specs.Prelude.{◌≡◌, ◌≤◌, ◌<◌, ℕ, length, max, IfErr, IfOk, OnOk};
ghost use Rattle.envelope.specs.declared.parts.Dir.TheVariants.{Up};
ghost use Rattle.envelope.specs.declared.parts.Envelope.{Envelope as Sealed};
ghost use Rattle.envelope.specs.declared.refusal.Refusal.{Refusal as Refused};
ghost use Rattle.envelope.specs.Opening.{IsRefused, Opens};
ghost use Rattle.waits.specs.Jobs.{ready_count};
ghost use Rattle.server_dispatch.specs.Rings.{AreOf};
ghost use Rattle.server_rules.specs.Answer.{after_attach, after_packet, after_tick, after_work};
ghost use Rattle.server_rules.specs.Server.{Server as Rules};
ghost use Rattle.server_session.specs.Says.{Keys, setting_of};
ghost use Rattle.server_core.specs.declared.desk.DeskFault.TheVariants as faults;
ghost use Rattle.server_core.specs.Desks.{Counts, Does, DoesNothing, frame_bytes_max};
ghost use Rattle.server_core.specs.Packets.{IsHeardOf, brought_in, effects_in};
ghost use Rattle.server_core.specs.Server.{IsBetweenEvents};

use crate::desk::{DeskFault, Reply};
use crate::effects::Effects;
use draws::Draw;
use envelope::Seal;
use msg_ids::Moment;
use regs_service::Service;
use std::alloc::Global;

/// What takes the packets of connections to a server, and does its events: the server itself, or one that keeps what it
/// did on a disk. It stands for a server of the definitions, which is in order between events, and for a draw. Each event
/// makes it stand for what the definitions say of that event. After `Memory` and `Full` it stands for what it stood for; after
/// any other fault it says itself what is known of it (`Behind`).
pub trait Desk {
    ghost use Rattle.std.specs.Prelude.{ℕ, List};
    ghost use Rattle.auth_keys.specs.declared.ring.RingKey.{RingKey};
    ghost use Rattle.server_rules.specs.Server.{Server};
    ghost use Rattle.server_core.specs.declared.desk.DeskFault.{DeskFault};

    /// What seals its packets.
    type S: Seal;

    /// What its words are drawn from.
    type D: Draw;

    /// The keys of its ring. No call changes them.
    ghost keys: { Self → List RingKey };

    /// That it stands for this server.
    ghost StandsFor: { Self → Server → Type 0 };

    /// The draw that it stands for.
    ghost drawn: { Self → Self.D };

    /// What it is bound to, which no call changes: the reference that its draw is behind, or the place of the file that it keeps
    /// its events in.
    ghost bound_to: { Self → ℕ };

    /// How many calls of what it keeps its events on have failed: 0 where it keeps none.
    ghost fault_count: { Self → ℕ };

    /// How many jobs are ready.
    ghost ready_jobs: { Self → ℕ };

    /// The faults that its calls may answer.
    ghost MayAnswer: { DeskFault → Type 0 };

    /// What is known of it behind a call that answered this fault, where it stood for this server before.
    ghost Behind: { Self → DeskFault → Server → Type 0 };

    /// A packet comes, as to [`Server::on_packet`](crate::Server::on_packet).
    ///
    /// # Errors
    ///
    /// `Memory` or `Full`, and then it stands for the server that it stood for; another fault of the desk.
    fn on_packet(&mut self, alloc: Global, now: Moment, packet: &[u8]) -> Result<Reply, DeskFault>
        // What it opens to, or why it doesn't open. By the seal's law no packet both opens and is refused.
        ensures heard { (server : Rules) → StandsFor self.old server
            → IfOk result (λ reply. IsHeardOf Self.S.lock (keys self.old) (max server.now now) packet.now reply.heard) }
        ensures refused { (server : Rules) (refusal : Refused) → StandsFor self.old server
            → IsRefused Self.S.lock (keys self.old) (max server.now now) Up packet.now refusal
            → IfOk result (λ reply. DoesNothing (StandsFor self.new) (drawn self.old) (drawn self.new) reply (record server { now = max server.now now })) }
        ensures given { (ring : Keys) (server : Rules) (envelope : Sealed) → AreOf (keys self.old) ring → StandsFor self.old server
            → Opens Self.S.lock (keys self.old) (max server.now now) Up packet.now envelope
            → IfOk result (λ reply. Does (StandsFor self.new) Self.S.lock (keys self.old) (drawn self.new) (effects_in reply)
            (after_packet (setting_of (max server.now now) Self.D.step ring) (brought_in envelope) server (drawn self.old))) }
        ensures unchanged_on_memory { (server : Rules) → StandsFor self.old server → IfErr result (λ fault. fault ≡ faults.Memory → StandsFor self.new server) }
        ensures unchanged_on_full { (server : Rules) (len : ℕ) → StandsFor self.old server → IfErr result (λ fault. fault ≡ faults.Full len → StandsFor self.new server) }
        // Only of a packet that a frame may carry: the record of a longer one needs more room than `Full` speaks of.
        ensures behind { (server : Rules) → StandsFor self.old server → length packet.now ≤ frame_bytes_max → IfErr result (λ fault. Behind self.new fault server) }
        ensures faults { IfErr result MayAnswer }
        ensures same_keys { keys self.new ≡ keys self.old }
        ensures same_binding { bound_to self.new ≡ bound_to self.old }
        ensures counted { Counts result (fault_count self.old) (fault_count self.new) };

    /// How many jobs are ready.
    fn ready(&self) -> usize
        ensures count { result ≡ ready_jobs self.now }
        ensures stands { (server : Rules) → StandsFor self.now server → result ≡ ready_count server.jobs };

    /// How many jobs are unfinished, ready or not.
    fn unfinished(&self) -> usize
        ensures stands { (server : Rules) → StandsFor self.now server → result ≡ length server.jobs };

    /// Runs the ready job of this place, as [`Server::work`](crate::Server::work). The place has to be less than `ready()`.
    ///
    /// # Errors
    ///
    /// `Memory` or `Full`, and then it stands for the server that it stood for, and the service is as it was; another fault of
    /// the desk.
    fn work<V: Service>(
        &mut self,
        alloc: Global,
        k: usize,
        service: &mut V,
        now: Moment,
    ) -> Result<Effects, DeskFault>
        requires ready { k < ready_jobs self.old }
        ensures given { (ring : Keys) (server : Rules) → StandsFor self.old server
            → IfOk result (λ effects. Does (StandsFor self.new) Self.S.lock (keys self.old) (drawn self.new) effects
            (after_work (setting_of (max server.now now) Self.D.step ring) k V.step service.old server (drawn self.old)).0) }
        ensures served { (ring : Keys) (server : Rules) → StandsFor self.old server
            → OnOk result (service.new ≡ (after_work (setting_of (max server.now now) Self.D.step ring) k V.step service.old server (drawn self.old)).1) }
        ensures unchanged_on_memory { (server : Rules) → StandsFor self.old server → IfErr result (λ fault. fault ≡ faults.Memory → StandsFor self.new server) }
        ensures unchanged_on_full { (server : Rules) (len : ℕ) → StandsFor self.old server → IfErr result (λ fault. fault ≡ faults.Full len → StandsFor self.new server) }
        ensures behind { (server : Rules) → StandsFor self.old server → IfErr result (λ fault. Behind self.new fault server) }
        ensures same_service_on_memory { IfErr result (λ fault. fault ≡ faults.Memory → service.new ≡ service.old) }
        ensures same_service_on_full { (len : ℕ) → IfErr result (λ fault. fault ≡ faults.Full len → service.new ≡ service.old) }
        ensures faults { IfErr result MayAnswer }
        ensures same_keys { keys self.new ≡ keys self.old }
        ensures same_binding { bound_to self.new ≡ bound_to self.old }
        ensures counted { Counts result (fault_count self.old) (fault_count self.new) };

    /// Answers the jobs that have waited too long, as [`Server::tick`](crate::Server::tick).
    ///
    /// # Errors
    ///
    /// `Memory` or `Full`, and then it stands for the server that it stood for; another fault of the desk.
    fn tick(&mut self, alloc: Global, now: Moment) -> Result<Effects, DeskFault>
        ensures given { (ring : Keys) (server : Rules) → StandsFor self.old server
            → IfOk result (λ effects. Does (StandsFor self.new) Self.S.lock (keys self.old) (drawn self.new) effects
            (after_tick (setting_of (max server.now now) Self.D.step ring) server (drawn self.old))) }
        ensures unchanged_on_memory { (server : Rules) → StandsFor self.old server → IfErr result (λ fault. fault ≡ faults.Memory → StandsFor self.new server) }
        ensures unchanged_on_full { (server : Rules) (len : ℕ) → StandsFor self.old server → IfErr result (λ fault. fault ≡ faults.Full len → StandsFor self.new server) }
        ensures behind { (server : Rules) → StandsFor self.old server → IfErr result (λ fault. Behind self.new fault server) }
        ensures faults { IfErr result MayAnswer }
        ensures same_keys { keys self.new ≡ keys self.old }
        ensures same_binding { bound_to self.new ≡ bound_to self.old }
        ensures counted { Counts result (fault_count self.old) (fault_count self.new) };

    /// A connection is opened for the session of this name, as [`Server::attach`](crate::Server::attach).
    ///
    /// # Errors
    ///
    /// `Memory` or `Full`, and then it stands for the server that it stood for; another fault of the desk.
    fn attach(
        &mut self,
        alloc: Global,
        key: u64,
        session: u64,
        now: Moment,
    ) -> Result<Effects, DeskFault>
        ensures given { (ring : Keys) (server : Rules) → StandsFor self.old server
            → IfOk result (λ effects. Does (StandsFor self.new) Self.S.lock (keys self.old) (drawn self.new) effects
            (after_attach (setting_of (max server.now now) Self.D.step ring) (record { key = key; session = session }) server (drawn self.old))) }
        ensures unchanged_on_memory { (server : Rules) → StandsFor self.old server → IfErr result (λ fault. fault ≡ faults.Memory → StandsFor self.new server) }
        ensures unchanged_on_full { (server : Rules) (len : ℕ) → StandsFor self.old server → IfErr result (λ fault. fault ≡ faults.Full len → StandsFor self.new server) }
        ensures behind { (server : Rules) → StandsFor self.old server → IfErr result (λ fault. Behind self.new fault server) }
        ensures faults { IfErr result MayAnswer }
        ensures same_keys { keys self.new ≡ keys self.old }
        ensures same_binding { bound_to self.new ≡ bound_to self.old }
        ensures counted { Counts result (fault_count self.old) (fault_count self.new) };

    /// A law: a server that a desk stands for is in order. Does nothing.
    fn is_in_order()
        ensures { (desk : Self) (server : Rules) → StandsFor desk server → IsBetweenEvents server };
}
