//! Clients do as their users wish.

ghost use Rattle.std.specs.Prelude.{◌≡◌, ◌≢◌, IfErr, option_map};
ghost use Rattle.sched_text.specs.declared.event.Event.TheVariants as line;
ghost use Rattle.sim_world.specs.Told.{StepsFrom};
ghost use Rattle.sim_world.specs.declared.fault.StepFault.TheVariants as told;
ghost use Rattle.world_rules.specs.Refusals.{call_numbered};

use crate::fault::StepFault;
use crate::world::World;
use call_table::CallNo;
use draws::Draw;
use envelope::Seal;
use regs_service::Service;
use std::alloc::Global;

#[tactic(auto, using(crate::proofs::Keeping::keeps_all))]
impl<S: Seal, V: Service, D: Draw> World<S, V, D> {
    /// A client submits a call.
    pub(crate) fn call(
        &mut self,
        alloc: Global,
        client: u64,
        body: &[u8],
        after: Option<u64>,
    ) -> Result<(), StepFault>
        ensures steps { StepsFrom S.lock D.step V.step V.fresh_state (S.keys self.old.host.server.seal) self.old (line.Call client body.now after) result self.new }
        ensures same_seal { self.new.host.server.seal ≡ self.old.host.server.seal }
    {
        let _call = self
            .seats
            .submit(alloc, client as usize, body, numbered(after))?;
        Ok(())
    }

    /// A tick at a client.
    pub(crate) fn tick_client(&mut self, client: u64) -> Result<(), StepFault>
        ensures steps { StepsFrom S.lock D.step V.step V.fresh_state (S.keys self.old.host.server.seal) self.old (line.TickClient client) result self.new }
        ensures takes_no_memory { IfErr result (λ fault. fault ≢ told.Memory) }
        ensures same_seal { self.new.host.server.seal ≡ self.old.host.server.seal }
    {
        Ok(self.seats.tick(client as usize)?)
    }

    /// A connection of a client is opened.
    pub(crate) fn attach_client(&mut self, client: u64) -> Result<(), StepFault>
        ensures steps { StepsFrom S.lock D.step V.step V.fresh_state (S.keys self.old.host.server.seal) self.old (line.AttachClient client) result self.new }
        ensures takes_no_memory { IfErr result (λ fault. fault ≢ told.Memory) }
        ensures same_seal { self.new.host.server.seal ≡ self.old.host.server.seal }
    {
        Ok(self.seats.attach(client as usize)?)
    }

    /// A client is to have a ping answered.
    pub(crate) fn ping(&mut self, client: u64) -> Result<(), StepFault>
        ensures steps { StepsFrom S.lock D.step V.step V.fresh_state (S.keys self.old.host.server.seal) self.old (line.Ping client) result self.new }
        ensures takes_no_memory { IfErr result (λ fault. fault ≢ told.Memory) }
        ensures same_seal { self.new.host.server.seal ≡ self.old.host.server.seal }
    {
        Ok(self.seats.ping(client as usize, 1)?)
    }

    /// A client asks for salts.
    pub(crate) fn salts(&mut self, client: u64, count: u32) -> Result<(), StepFault>
        ensures steps { StepsFrom S.lock D.step V.step V.fresh_state (S.keys self.old.host.server.seal) self.old (line.Salts client count) result self.new }
        ensures takes_no_memory { IfErr result (λ fault. fault ≢ told.Memory) }
        ensures same_seal { self.new.host.server.seal ≡ self.old.host.server.seal }
    {
        Ok(self.seats.ask_salts(client as usize, count)?)
    }

    /// A client drops the answer to one of its calls.
    pub(crate) fn drop_answer(&mut self, client: u64, call: u64) -> Result<(), StepFault>
        ensures steps { StepsFrom S.lock D.step V.step V.fresh_state (S.keys self.old.host.server.seal) self.old (line.DropAnswer client call) result self.new }
        ensures takes_no_memory { IfErr result (λ fault. fault ≢ told.Memory) }
        ensures same_seal { self.new.host.server.seal ≡ self.old.host.server.seal }
    {
        Ok(self.seats.drop_answer(client as usize, CallNo { n: call })?)
    }

    /// A client goes on in another session.
    pub(crate) fn renew(&mut self, client: u64) -> Result<(), StepFault>
        ensures steps { StepsFrom S.lock D.step V.step V.fresh_state (S.keys self.old.host.server.seal) self.old (line.Renew client) result self.new }
        ensures takes_no_memory { IfErr result (λ fault. fault ≢ told.Memory) }
        ensures same_seal { self.new.host.server.seal ≡ self.old.host.server.seal }
    {
        Ok(self.seats.renew(client as usize, &mut self.draw)?)
    }

    /// A client ends.
    pub(crate) fn end(&mut self, client: u64) -> Result<(), StepFault>
        ensures steps { StepsFrom S.lock D.step V.step V.fresh_state (S.keys self.old.host.server.seal) self.old (line.End client) result self.new }
        ensures takes_no_memory { IfErr result (λ fault. fault ≢ told.Memory) }
        ensures same_seal { self.new.host.server.seal ≡ self.old.host.server.seal }
    {
        Ok(self.seats.end(client as usize)?)
    }
}

// A call by its number, where one is given.
fn numbered(number: Option<u64>) -> Option<CallNo>
    ensures { result ≡ option_map call_numbered number }
{
    match number {
        Some(n) => Some(CallNo { n }),
        None => None,
    }
}
