//! The world of `sim`.

ghost use Rattle.std.specs.Prelude.{◌≡◌, ◌++◌, ◌<◌, ◌↔◌, ℕ, IfOk, IsTrue, OnErr, OnOk};
ghost use Rattle.world_rules.specs.Refusals.{refusal};
ghost use Rattle.world_rules.specs.Load.{load};
ghost use Rattle.world_rules.specs.Report.{summary, whole_report};
ghost use Rattle.world_rules.specs.Run.{step};
ghost use Rattle.world_rules.specs.World.{World as Rules, begins};
ghost use Rattle.sim_world.specs.Told.{Tells};
ghost use Rattle.cmd_sim.specs.Words.{words_max};
ghost use Rattle.cmd_sim.specs.Worlds.{Registers, StandsFor, sim_setting};

use crate::counted_draw::CountedDraw;
use crate::key_ring::sim_keys;
use crate::laws::setting_of_sim;
use envelope::MtSeal;
use octets::{Memory, Octets};
use regs_service::Regs;
use sched_text::Event;
use sim_world::{StepFault, World};
use std::alloc::Global;
use std::marker::Model;

/// A world over the cores with the keys of `sim`, the protocol's seal, the register service and counted words. Contracts
/// see the world as it is kept.
#[derive(Drop)]
pub(crate) struct SimWorld {
    world: World<MtSeal, Regs, CountedDraw>,
}

impl Model for SimWorld {
    ghost use Rattle.std.specs.Prelude.{◌≡◌};
    ghost use Rattle.cmd_sim.specs.Worlds.{KeptWorld};
    ghost use Rattle.cmd_sim.specs.KeysOfSim.{sim_ring};

    ghost Value = { KeptWorld };

    ghost view = { λ sim. sim.world };

    ghost invariant = { λ sim. sim.world.host.server.seal ≡ sim_ring };
}

impl SimWorld {
    /// A world at its beginning.
    pub(crate) fn new(alloc: Global) -> Result<SimWorld, Memory>
        ensures { IfOk result (λ world. StandsFor world (begins sim_setting 0)) }
    {
        setting_of_sim();
        let seal = MtSeal::new(sim_keys(alloc)?);
        Ok(SimWorld {
            world: World::with_draw(alloc, seal, CountedDraw::new()),
        })
    }

    /// One event.
    pub(crate) fn step(&mut self, alloc: Global, event: &Event) -> Result<(), StepFault>
        ensures refused { (world : Rules ℕ Registers) → StandsFor self.old world → Tells (refusal sim_setting world event.now) result }
        ensures stands { (world : Rules ℕ Registers) → StandsFor self.old world → OnOk result (StandsFor self.new (step sim_setting world event.now)) }
    {
        setting_of_sim();
        self.world.step(alloc, event)
    }

    /// Puts the report behind a text, with the line on all packets where `wire` says so.
    pub(crate) fn report(&self, alloc: Global, wire: bool, into: &mut Octets) -> Result<(), Memory>
        ensures { (world : Rules ℕ Registers) → StandsFor self.now world → OnOk result (into.new ≡ into.old ++ whole_report sim_setting wire world) }
    {
        self.world.report(alloc, wire, into)
    }

    /// Steps a world at its beginning through the large schedule of so many calls.
    pub(crate) fn loaded(self, alloc: Global, calls: u32) -> Result<SimWorld, Memory>
        ensures { StandsFor self (begins sim_setting 0) → IfOk result (λ loaded. StandsFor loaded (load sim_setting 0 calls)) }
    {
        setting_of_sim();
        let world = sim_load::load(alloc, self.world, calls)?;
        Ok(SimWorld { world })
    }

    /// Puts the line that sums it up behind a text.
    pub(crate) fn summary(&self, alloc: Global, into: &mut Octets) -> Result<(), Memory>
        ensures { (world : Rules ℕ Registers) → StandsFor self.now world → OnOk result (into.new ≡ into.old ++ summary sim_setting world) }
    {
        self.world.summary(alloc, into)
    }

    /// Whether no word was drawn twice so far: the count of words isn't at its end.
    pub(crate) fn draws_on(&self) -> bool
        ensures { (world : Rules ℕ Registers) → StandsFor self.now world → (IsTrue result ↔ (world.draw < words_max)) }
    {
        self.world.draw().counts_on()
    }
}
