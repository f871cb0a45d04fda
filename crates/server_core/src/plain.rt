//! A desk that keeps nothing beside its server.

ghost use Rattle.std.specs.Prelude.{◌≡◌, ⊤};
ghost use Rattle.waits.specs.Jobs.{ready_count};
ghost use Rattle.server_core.specs.declared.desk.DeskFault.TheVariants as faults;
ghost use Rattle.server_core.specs.Server.{StandsFor as IsServer};

use crate::desk::{DeskFault, Reply};
use crate::desks::Desk;
use crate::effects::Effects;
use crate::server::Server;
use draws::Draw;
use envelope::Seal;
use msg_ids::Moment;
use regs_service::Service;
use std::alloc::Global;

/// A server that keeps nothing beside itself, with what it draws from. Its only fault is `Memory`.
#[derive(Debug, Drop)]
pub struct Plain<'a, S: Seal, D: Draw> {
    /// The server.
    pub server: &'a mut Server<S>,
    /// What it draws from.
    pub draw: &'a mut D,
}

impl<'a, S: Seal, D: Draw> Desk for Plain<'a, S, D> {
    type S = S;

    type D = D;

    ghost keys = { λ desk. S.keys desk.server.now.seal };

    ghost StandsFor = { λ desk server. IsServer desk.server.now server };

    ghost drawn = { λ desk. desk.draw.now };

    ghost bound_to = { λ desk. desk.draw.ghost_name };

    ghost fault_count = { λ desk. 0 };

    ghost ready_jobs = { λ desk. ready_count desk.server.now.jobs };

    ghost MayAnswer = { λ fault. fault ≡ faults.Memory };

    // After `Memory` it stands for what it stood for, as any desk.
    ghost Behind = { λ desk fault server. ⊤ };

    fn on_packet(&mut self, alloc: Global, now: Moment, packet: &[u8]) -> Result<Reply, DeskFault> {
        Ok(self.server.on_packet(alloc, now, packet, self.draw)?)
    }

    fn ready(&self) -> usize {
        self.server.ready()
    }

    fn unfinished(&self) -> usize {
        self.server.unfinished()
    }

    fn work<V: Service>(
        &mut self,
        alloc: Global,
        k: usize,
        service: &mut V,
        now: Moment,
    ) -> Result<Effects, DeskFault> {
        Ok(self.server.work(alloc, k, service, now, self.draw)?)
    }

    fn tick(&mut self, alloc: Global, now: Moment) -> Result<Effects, DeskFault> {
        Ok(self.server.tick(alloc, now, self.draw)?)
    }

    fn attach(
        &mut self,
        alloc: Global,
        key: u64,
        session: u64,
        now: Moment,
    ) -> Result<Effects, DeskFault> {
        Ok(self.server.attach(alloc, key, session, now, self.draw)?)
    }

    fn is_in_order() {}
}
