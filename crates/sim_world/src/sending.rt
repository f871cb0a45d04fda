//! A client sends what is due.

ghost use Rattle.std.specs.Prelude.{◌≡◌};
ghost use Rattle.sched_text.specs.declared.event.Event.TheVariants as line;
ghost use Rattle.sim_world.specs.Told.{StepsFrom};

use crate::fault::StepFault;
use crate::world::World;
use draws::Draw;
use envelope::Seal;
use regs_service::Service;
use std::alloc::Global;

#[tactic(auto, using(crate::proofs::Keeping::keeps_all))]
impl<S: Seal, V: Service, D: Draw> World<S, V, D> {
    /// A client sends what is due.
    pub(crate) fn flush(&mut self, alloc: Global, client: u64) -> Result<(), StepFault>
        ensures steps { StepsFrom S.lock D.step V.step V.fresh_state (S.keys self.old.host.server.seal) self.old (line.Flush client) result self.new }
        ensures same_seal { self.new.host.server.seal ≡ self.old.host.server.seal }
    {
        self.host.reserve(alloc)?;
        let sent = self.seats.flush(
            alloc,
            client as usize,
            self.host.server().seal(),
            &mut self.draw,
        )?;
        if let Some(sent) = sent {
            self.host.sends(sent.bytes);
        }
        Ok(())
    }
}
