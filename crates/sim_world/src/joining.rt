//! Clients join.

ghost use Rattle.std.specs.Prelude.{◌≡◌};
ghost use Rattle.sched_text.specs.declared.event.Event.TheVariants as line;
ghost use Rattle.sim_world.specs.Told.{StepsFrom};
ghost use Rattle.sim_world.specs.Keys.{world_keys};

use crate::fault::StepFault;
use crate::world::World;
use draws::Draw;
use envelope::Seal;
use msg_ids::Moment;
use regs_service::Service;
use std::alloc::Global;

/// The identifier of the permanent key of every client: that of the bytes 0 to 255 in order.
const PERMANENT: u64 = 14_474_384_091_129_631_026;

/// The identifier of the temporary key: that of the bytes 255 to 0.
const TEMPORARY: u64 = 1_390_049_393_749_643_670;

/// When the temporary key expires, in seconds.
const EXPIRES: u64 = 7_200;

impl<S: Seal, V: Service, D: Draw> World<S, V, D> {
    /// A client joins under the permanent key.
    pub(crate) fn client_joins(&mut self, alloc: Global) -> Result<(), StepFault>
        ensures steps { StepsFrom S.lock D.step V.step V.fresh_state (S.keys self.old.host.server.seal) self.old line.Client result self.new }
        ensures same_seal { self.new.host.server.seal ≡ self.old.host.server.seal }
    {
        Ok(self.seats.join(alloc, PERMANENT, &mut self.draw)?)
    }

    /// A client joins under the temporary key.
    pub(crate) fn client_temp_joins(&mut self, alloc: Global) -> Result<(), StepFault>
        ensures steps { StepsFrom S.lock D.step V.step V.fresh_state (S.keys self.old.host.server.seal) self.old line.ClientTemp result self.new }
        ensures same_seal { self.new.host.server.seal ≡ self.old.host.server.seal }
    {
        let expires = Moment::new(EXPIRES);
        Ok(
            self.seats
                .join_temp(alloc, TEMPORARY, PERMANENT, expires, &mut self.draw)?,
        )
    }
}
