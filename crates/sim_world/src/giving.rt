//! Bytes come to an end.

ghost use Rattle.std.specs.Prelude.{◌≡◌};
ghost use Rattle.sched_text.specs.declared.event.Event.TheVariants as line;
ghost use Rattle.sim_world.specs.Told.{StepsFrom};

use crate::fault::StepFault;
use crate::world::World;
use draws::Draw;
use envelope::Seal;
use regs_service::Service;
use sim_server::Packet;
use std::alloc::Global;

#[tactic(auto, using(crate::proofs::Keeping::keeps_all))]
impl<S: Seal, V: Service, D: Draw> World<S, V, D> {
    /// A packet comes to its end, counted from 1.
    pub(crate) fn give(&mut self, alloc: Global, packet: u64) -> Result<(), StepFault>
        ensures steps { StepsFrom S.lock D.step V.step V.fresh_state (S.keys self.old.host.server.seal) self.old (line.Give packet) result self.new }
        ensures same_seal { self.new.host.server.seal ≡ self.old.host.server.seal }
    {
        match self.host.bag().packet(packet) {
            None => Err(StepFault::NoPacket { k: packet }),
            Some(Packet::Up(_bytes)) => {
                let _goes_up = self.host.takes_again(alloc, packet, &mut self.draw)?;
                Ok(())
            }
            Some(Packet::Down { session, bytes }) => match self.seats.owner(session) {
                None => Ok(()),
                Some(client) => {
                    let seal = self.host.server().seal();
                    Ok(self.seats.take(alloc, client, seal, bytes)?)
                }
            },
        }
    }

    /// Bytes that nobody sent come to a client.
    pub(crate) fn foreign_client(
        &mut self,
        alloc: Global,
        client: u64,
        bytes: &[u8],
    ) -> Result<(), StepFault>
        ensures steps { StepsFrom S.lock D.step V.step V.fresh_state (S.keys self.old.host.server.seal) self.old (line.ForeignClient client bytes.now) result self.new }
        ensures same_seal { self.new.host.server.seal ≡ self.old.host.server.seal }
    {
        let client = client as usize;
        let seal = self.host.server().seal();
        if self.seats.opens(alloc, client, seal, bytes)? {
            return Err(StepFault::ForeignOpens);
        }
        Ok(self.seats.take(alloc, client, seal, bytes)?)
    }
}
