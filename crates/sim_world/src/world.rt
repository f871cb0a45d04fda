//! A world.

ghost use Rattle.std.specs.Prelude.{◌≡◌, ◌<◌, ◌≤◌, ℕ, Some, length, option_map};
ghost use Rattle.server_core.specs.Server.{StandsFor};
ghost use Rattle.sim_clients.specs.Told.{IsClientOf};
ghost use Rattle.world_rules.specs.Setting.{Setting};
ghost use Rattle.world_rules.specs.World.{World as Rules, begins, counted};
ghost use Rattle.sim_server.specs.Settings.{Sealing};
ghost use Rattle.sim_world.specs.Drawn.{steps_of_words};
ghost use Rattle.sim_world.specs.Keys.{HasWorldKeys};
ghost use Rattle.sim_world.specs.Worlds.{Stands, world_setting};

use client_core::Holder;
use draws::{Draw, StepDraw};
use envelope::Seal;
use regs_service::Service;
use server_core::Server;
use sim_clients::Seats;
use sim_server::Host;
use std::alloc::Global;
use std::marker::Model;

/// A world: the server's side with all that was ever made, the clients, and what words are drawn from.
#[derive(Debug, Drop)]
pub struct World<S: Seal, V: Service, D: Draw = StepDraw> {
    pub(crate) host: Host<S, V>,
    pub(crate) seats: Seats,
    pub(crate) draw: D,
}

impl<S: Seal, V: Service, D: Draw> Model for World<S, V, D> {
    ghost use Rattle.sim_world.specs.Worlds.{World, HasAll};

    ghost Value = { World S V D };

    ghost view = { λ world. record { host = world.host; seats = world.seats; draw = world.draw } };

    ghost invariant = { λ world. HasAll (S.keys world.host.server.seal) world.seats };
}

impl<S: Seal, V: Service> World<S, V> {
    /// A world with one start of a server, no client, and all clocks at 0. The seal has the keys that clients are made
    /// with. Takes no memory.
    pub fn new(alloc: Global, seal: S) -> World<S, V>
        requires keys { HasWorldKeys (S.keys seal) }
        ensures seal { result.host.server.seal ≡ seal }
        ensures stands { (sealing : Sealing) → let setting : Setting ℕ V = world_setting steps_of_words V.step V.fresh_state (S.keys seal) sealing in
            Stands setting result (begins setting 0) }
    {
        World::<S, V, StepDraw>::with_draw(alloc, seal, StepDraw::new())
    }
}

impl<S: Seal, V: Service, D: Draw> World<S, V, D> {
    /// The same with a draw of its own.
    pub fn with_draw(alloc: Global, seal: S, draw: D) -> World<S, V, D>
        requires keys { HasWorldKeys (S.keys seal) }
        ensures seal { result.host.server.seal ≡ seal }
        ensures stands { (sealing : Sealing) → let setting : Setting D V = world_setting D.step V.step V.fresh_state (S.keys seal) sealing in
            Stands setting result (begins setting draw) }
    {
        World {
            host: Host::new::<D>(alloc, seal),
            seats: Seats::new(alloc),
            draw,
        }
    }

    /// What words are drawn from.
    pub fn draw(&self) -> &D
        ensures { result.now ≡ self.now.draw }
    {
        &self.draw
    }

    /// The server of the present start.
    pub fn server(&self) -> &Server<S>
        ensures kept { result.now ≡ self.now.host.server }
        // It stands for that world's server: its sessions, with their histories, calls and jobs.
        ensures stands { (setting : Setting D V) (world : Rules D V) → Stands setting self.now world → StandsFor result.now world.server }
    {
        self.host.server()
    }

    /// How many clients there are, at most 64.
    pub fn clients(&self) -> u32
        ensures kept { result ≡ length self.now.seats }
        ensures count { (setting : Setting D V) (world : Rules D V) → Stands setting self.now world → result ≡ length world.seats }
    {
        self.seats.len() as u32
    }

    /// The client of this number, in its state. Clients count from 1 to `clients()`.
    #[tactic(auto, using(crate::proofs::Counted::counted_there))]
    pub fn client(&self, c: u32) -> &Holder
        requires from_1 { 0 < c }
        requires there { c ≤ length self.now.seats }
        ensures kept { option_map (λ kept. kept.holder) (counted c self.now.seats) ≡ Some result.now }
        // It is the client of that world's seat of this number.
        ensures stands { (setting : Setting D V) (world : Rules D V) → Stands setting self.now world → IsClientOf result.now (counted c world.seats) }
    {
        self.seats.holder(c as usize).unwrap()
    }

    /// How many packets were ever made.
    pub fn packets(&self) -> u64
        ensures kept { result ≡ length self.now.host.bag }
        ensures count { (setting : Setting D V) (world : Rules D V) → Stands setting self.now world → result ≡ length world.bag }
    {
        self.host.bag().count()
    }
}
