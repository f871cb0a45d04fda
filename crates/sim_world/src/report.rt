//! The report and the summary of a world.

ghost use Rattle.std.specs.Prelude.{◌≡◌, ◌++◌, OnOk, OnErr};
ghost use Rattle.world_rules.specs.Report.{summary, whole_report};
ghost use Rattle.world_rules.specs.Setting.{Setting};
ghost use Rattle.world_rules.specs.World.{World as Rules};
ghost use Rattle.sim_world.specs.Worlds.{Stands};

use crate::world::World;
use draws::Draw;
use envelope::Seal;
use octets::{Memory, Octets};
use regs_service::Service;
use std::alloc::Global;

impl<S: Seal, V: Service, D: Draw> World<S, V, D> {
    /// Puts the report behind a text: a line for each call, then one for each entry, and with `wire` one on all packets.
    ///
    /// # Errors
    ///
    /// `Memory`, and then the text is as it was.
    pub fn report(&self, alloc: Global, wire: bool, into: &mut Octets) -> Result<(), Memory>
        ensures told { (setting : Setting D V) (world : Rules D V) → Stands setting self.now world → OnOk result (into.new ≡ into.old ++ whole_report setting wire world) }
        ensures unchanged_on_memory { OnErr result (into.new ≡ into.old) }
    {
        sim_report::report::<S, V, D>(alloc, &self.host, &self.seats, wire, into)
    }

    /// Puts the summary behind a text, one line.
    ///
    /// # Errors
    ///
    /// `Memory`, and then the text is as it was.
    pub fn summary(&self, alloc: Global, into: &mut Octets) -> Result<(), Memory>
        ensures told { (setting : Setting D V) (world : Rules D V) → Stands setting self.now world → OnOk result (into.new ≡ into.old ++ summary setting world) }
        ensures unchanged_on_memory { OnErr result (into.new ≡ into.old) }
    {
        sim_report::summary::<S, V, D>(alloc, &self.host, &self.seats, into)
    }
}
