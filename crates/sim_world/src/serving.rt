//! Events of the server.

ghost use Rattle.std.specs.Prelude.{◌≡◌, ◌≢◌, IfErr};
ghost use Rattle.sched_text.specs.declared.event.Event.TheVariants as line;
ghost use Rattle.sim_world.specs.Told.{StepsFrom};
ghost use Rattle.sim_world.specs.declared.fault.StepFault.TheVariants as told;

use crate::fault::StepFault;
use crate::world::World;
use draws::Draw;
use envelope::Seal;
use regs_service::Service;
use std::alloc::Global;

impl<S: Seal, V: Service, D: Draw> World<S, V, D> {
    /// A tick at the server.
    pub(crate) fn tick_server(&mut self, alloc: Global) -> Result<(), StepFault>
        ensures steps { StepsFrom S.lock D.step V.step V.fresh_state (S.keys self.old.host.server.seal) self.old line.TickServer result self.new }
        ensures same_seal { self.new.host.server.seal ≡ self.old.host.server.seal }
    {
        Ok(self.host.ticks(alloc, &mut self.draw)?)
    }

    /// The ready job of this number runs, counted from 1.
    pub(crate) fn work(&mut self, alloc: Global, job: u64) -> Result<(), StepFault>
        ensures steps { StepsFrom S.lock D.step V.step V.fresh_state (S.keys self.old.host.server.seal) self.old (line.Work job) result self.new }
        ensures same_seal { self.new.host.server.seal ≡ self.old.host.server.seal }
    {
        if job == 0 || job > self.host.server().ready() as u64 {
            return Err(StepFault::NoJob { k: job });
        }
        Ok(self.host.works(alloc, (job - 1) as usize, &mut self.draw)?)
    }

    /// A connection is opened at the server for the present session of this client.
    pub(crate) fn attach_server(&mut self, alloc: Global, client: u64) -> Result<(), StepFault>
        ensures steps { StepsFrom S.lock D.step V.step V.fresh_state (S.keys self.old.host.server.seal) self.old (line.AttachServer client) result self.new }
        ensures same_seal { self.new.host.server.seal ≡ self.old.host.server.seal }
    {
        let Some(holder) = self.seats.holder(client as usize) else {
            return Err(StepFault::NoClient);
        };
        let (key, session) = (holder.key(), holder.session());
        Ok(self.host.attaches(alloc, key, session, &mut self.draw)?)
    }

    /// The server loses the present session of this client.
    pub(crate) fn lose(&mut self, client: u64) -> Result<(), StepFault>
        ensures steps { StepsFrom S.lock D.step V.step V.fresh_state (S.keys self.old.host.server.seal) self.old (line.Lose client) result self.new }
        ensures takes_no_memory { IfErr result (λ fault. fault ≢ told.Memory) }
        ensures same_seal { self.new.host.server.seal ≡ self.old.host.server.seal }
    {
        let Some(holder) = self.seats.holder(client as usize) else {
            return Err(StepFault::NoClient);
        };
        let (key, session) = (holder.key(), holder.session());
        self.host.loses::<D>(key, session);
        Ok(())
    }

    /// The server starts again.
    pub(crate) fn restart(&mut self, alloc: Global) -> Result<(), StepFault>
        ensures steps { StepsFrom S.lock D.step V.step V.fresh_state (S.keys self.old.host.server.seal) self.old line.Restart result self.new }
        ensures same_seal { self.new.host.server.seal ≡ self.old.host.server.seal }
    {
        Ok(self.host.restarts::<D>(alloc)?)
    }

    /// Bytes that nobody sent come to the server.
    pub(crate) fn foreign_server(&mut self, alloc: Global, bytes: &[u8]) -> Result<(), StepFault>
        ensures steps { StepsFrom S.lock D.step V.step V.fresh_state (S.keys self.old.host.server.seal) self.old (line.ForeignServer bytes.now) result self.new }
        ensures same_seal { self.new.host.server.seal ≡ self.old.host.server.seal }
    {
        if self.host.opens::<D>(alloc, bytes)? {
            return Err(StepFault::ForeignOpens);
        }
        Ok(self.host.takes(alloc, bytes, &mut self.draw)?)
    }
}
