//! Clocks are set.

ghost use Rattle.std.specs.Prelude.{◌≡◌, ◌≢◌, IfErr};
ghost use Rattle.sched_text.specs.declared.event.Event.TheVariants as line;
ghost use Rattle.sim_world.specs.Told.{StepsFrom};
ghost use Rattle.sim_world.specs.declared.fault.StepFault.TheVariants as told;

use crate::fault::StepFault;
use crate::world::World;
use draws::Draw;
use envelope::Seal;
use regs_service::Service;

#[tactic(auto, using(crate::proofs::Keeping::keeps_all))]
impl<S: Seal, V: Service, D: Draw> World<S, V, D> {
    /// All clocks are set.
    pub(crate) fn clock_all(&mut self, at: u64) -> Result<(), StepFault>
        ensures steps { StepsFrom S.lock D.step V.step V.fresh_state (S.keys self.old.host.server.seal) self.old (line.ClockAll at) result self.new }
        ensures takes_no_memory { IfErr result (λ fault. fault ≢ told.Memory) }
        ensures same_seal { self.new.host.server.seal ≡ self.old.host.server.seal }
    {
        self.host.set_clock(at);
        self.seats.set_all(at);
        Ok(())
    }

    /// The server's clock is set.
    pub(crate) fn clock_server(&mut self, at: u64) -> Result<(), StepFault>
        ensures steps { StepsFrom S.lock D.step V.step V.fresh_state (S.keys self.old.host.server.seal) self.old (line.ClockServer at) result self.new }
        ensures takes_no_memory { IfErr result (λ fault. fault ≢ told.Memory) }
        ensures same_seal { self.new.host.server.seal ≡ self.old.host.server.seal }
    {
        self.host.set_clock(at);
        Ok(())
    }

    /// A client's clock is set.
    pub(crate) fn clock_client(&mut self, client: u64, at: u64) -> Result<(), StepFault>
        ensures steps { StepsFrom S.lock D.step V.step V.fresh_state (S.keys self.old.host.server.seal) self.old (line.ClockClient client at) result self.new }
        ensures takes_no_memory { IfErr result (λ fault. fault ≢ told.Memory) }
        ensures same_seal { self.new.host.server.seal ≡ self.old.host.server.seal }
    {
        Ok(self.seats.set_clock(client as usize, at)?)
    }
}
