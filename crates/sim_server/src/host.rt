//! The server's side of a world.

ghost use Rattle.std.specs.Prelude.{◌≡◌, ℕ, ◌<◌, ◌≤◌, ◌+◌, ◌^◌, ◌++◌, ◌∷◌, List, [], Some, false, true, is_some, max, IfOk, OnOk, OnErr};
ghost use Rattle.envelope.specs.declared.parts.Dir.TheVariants.{Up};
ghost use Rattle.sched_text.specs.declared.event.Event.TheVariants as line;
ghost use Rattle.server_rules.specs.Events.{Attach, Loss, Tick, Work};
ghost use Rattle.waits.specs.Jobs.{ready_count};
ghost use Rattle.world_rules.specs.Ends.{comes_up, serves};
ghost use Rattle.world_rules.specs.Run.{after};
ghost use Rattle.world_rules.specs.Setting.{Setting};
ghost use Rattle.world_rules.specs.World.{World as Rules, begins, counted, server_now};
ghost use Rattle.sim_server.specs.Hosts.{Stands, Stays};
ghost use Rattle.sim_server.specs.Made.{GoesUp, goes_up};
ghost use Rattle.sim_server.specs.Settings.{IsOf, Sealing, setting_in};

use crate::bag::{Bag, Packet};
use crate::hearing::hears;
use crate::past::Past;
use crate::register::Register;
use draws::Draw;
use envelope::{Dir, Opened, Seal};
use msg_ids::Moment;
use octets::{Memory, Octets};
use regs_service::Service;
use server_core::{Effects, Server};
use std::alloc::Global;
use std::marker::Model;

/// The server's side of a world: the server of the present start with its service and its clock, and what was made so
/// far. Contracts see these, and for how many more events there is room.
#[derive(Debug, Drop)]
pub struct Host<S: Seal, V: Service> {
    server: Server<S>,
    moment: Moment,
    service: V,
    clock: u64,
    past: Past,
}

impl<S: Seal, V: Service> Model for Host<S, V> {
    ghost use Rattle.sim_server.specs.Hosts.{Host};

    ghost Value = { Host S V };

    ghost view = { λ host. record {
      server = host.server;
      moment = host.moment;
      service = host.service;
      clock = host.clock;
      start = host.past.start;
      bag = host.past.bag;
      entries = host.past.entries;
      room = host.past.room;
    } };
}

impl<S: Seal, V: Service> Host<S, V> {
    /// The first start of a server with this seal, its clock at 0. Takes no memory.
    pub fn new<D: Draw>(alloc: Global, seal: S) -> Host<S, V>
        ensures stands { (sealing : Sealing) (draw : D) → let setting : Setting D V = setting_in D.step V.step V.fresh_state sealing in
            Stands setting result draw (begins setting draw) }
        ensures seal { result.server.seal ≡ seal }
    {
        Host {
            server: Server::new(alloc, seal),
            moment: Moment::new(0),
            service: V::fresh(alloc),
            clock: 0,
            past: Past::new(alloc),
        }
    }

    /// The server of the present start.
    pub fn server(&self) -> &Server<S>
        ensures { result.now ≡ self.now.server }
    {
        &self.server
    }

    /// Every packet that was made.
    pub fn bag(&self) -> &Bag
        ensures { result.now.made ≡ self.now.bag }
    {
        self.past.bag()
    }

    /// The entries of all starts.
    pub fn register(&self) -> &Register
        ensures { result.now.entries ≡ self.now.entries }
    {
        self.past.register()
    }

    /// Takes room for what one event makes.
    ///
    /// # Errors
    ///
    /// `Memory`, and then nothing has changed but the room.
    pub fn reserve(&mut self, alloc: Global) -> Result<(), Memory>
        ensures room { OnOk result (0 < self.new.room) }
        ensures same { Stays self.old self.new }
    {
        self.past.reserve(alloc)
    }

    /// A client sent this packet, in room that was taken before. Takes no memory.
    pub fn sends(&mut self, bytes: Octets)
        requires room { 0 < self.old.room }
        ensures { self.new ≡ record self.old { bag = self.old.bag ++ GoesUp bytes ∷ []; room = self.new.room } }
    {
        self.past.goes_up(bytes);
    }

    /// Sets the server's clock, in seconds.
    pub fn set_clock(&mut self, at: u64)
        ensures { self.new ≡ record self.old { clock = at } }
    {
        self.clock = at;
    }

    /// A tick of the server.
    ///
    /// # Errors
    ///
    /// `Memory`, and then nothing has changed but the draw and the room.
    pub fn ticks<D: Draw>(&mut self, alloc: Global, draw: &mut D) -> Result<(), Memory>
        ensures stands { (sealing : Sealing) (world : Rules D V) → let setting : Setting D V = setting_in D.step V.step V.fresh_state sealing in
            IsOf S.lock (S.keys self.old.server.seal) setting → Stands setting self.old draw.old world
            → OnOk result (Stands setting self.new draw.new (serves setting (Tick world.clock) world)) }
        ensures unchanged_on_memory { OnErr result (Stays self.old self.new) }
        ensures same_seal { self.new.server.seal ≡ self.old.server.seal }
    {
        self.past.reserve(alloc)?;
        let now = Moment::new(self.clock);
        let Effects { out, entries } = self.server.tick(alloc, now, draw)?;
        self.moment = self.moment.later(now);
        self.past.takes(out, entries);
        Ok(())
    }

    /// The ready job of this place runs, counted from 0. The place has to be less than the count of ready jobs.
    ///
    /// # Errors
    ///
    /// `Memory`, and then nothing has changed but the draw and the room.
    pub fn works<D: Draw>(
        &mut self,
        alloc: Global,
        place: usize,
        draw: &mut D,
    ) -> Result<(), Memory>
        requires ready { place < ready_count self.old.server.jobs }
        ensures stands { (sealing : Sealing) (world : Rules D V) → let setting : Setting D V = setting_in D.step V.step V.fresh_state sealing in
            IsOf S.lock (S.keys self.old.server.seal) setting → Stands setting self.old draw.old world
            → OnOk result (Stands setting self.new draw.new (serves setting (Work world.clock place) world)) }
        ensures unchanged_on_memory { OnErr result (Stays self.old self.new) }
        ensures same_seal { self.new.server.seal ≡ self.old.server.seal }
    {
        self.past.reserve(alloc)?;
        let now = Moment::new(self.clock);
        let Effects { out, entries } = self
            .server
            .work(alloc, place, &mut self.service, now, draw)?;
        self.moment = self.moment.later(now);
        self.past.takes(out, entries);
        Ok(())
    }

    /// A connection is opened at the server for the session of this name.
    ///
    /// # Errors
    ///
    /// `Memory`, and then nothing has changed but the draw and the room.
    pub fn attaches<D: Draw>(
        &mut self,
        alloc: Global,
        key: u64,
        session: u64,
        draw: &mut D,
    ) -> Result<(), Memory>
        ensures stands { (sealing : Sealing) (world : Rules D V) → let setting : Setting D V = setting_in D.step V.step V.fresh_state sealing in
            IsOf S.lock (S.keys self.old.server.seal) setting → Stands setting self.old draw.old world
            → OnOk result (Stands setting self.new draw.new (serves setting (Attach world.clock (record { key = key; session = session })) world)) }
        ensures unchanged_on_memory { OnErr result (Stays self.old self.new) }
        ensures same_seal { self.new.server.seal ≡ self.old.server.seal }
    {
        self.past.reserve(alloc)?;
        let now = Moment::new(self.clock);
        let Effects { out, entries } = self.server.attach(alloc, key, session, now, draw)?;
        self.moment = self.moment.later(now);
        self.past.takes(out, entries);
        Ok(())
    }

    /// The server loses the session of this name, where it has one. Takes no memory.
    pub fn loses<D: Draw>(&mut self, key: u64, session: u64)
        ensures stands { (sealing : Sealing) (draw : D) (world : Rules D V) → let setting : Setting D V = setting_in D.step V.step V.fresh_state sealing in
            IsOf S.lock (S.keys self.old.server.seal) setting → Stands setting self.old draw world
            → Stands setting self.new draw (serves setting (Loss (record { key = key; session = session })) world) }
        ensures same_seal { self.new.server.seal ≡ self.old.server.seal }
    {
        self.server.lose(key, session);
    }

    /// The server starts again, with a fresh service.
    ///
    /// # Errors
    ///
    /// `Memory`, and then nothing has changed. It comes exactly where starts can't be counted any more.
    pub fn restarts<D: Draw>(&mut self, alloc: Global) -> Result<(), Memory>
        ensures stands { (sealing : Sealing) (draw : D) (world : Rules D V) → let setting : Setting D V = setting_in D.step V.step V.fresh_state sealing in
            IsOf S.lock (S.keys self.old.server.seal) setting → Stands setting self.old draw world
            → OnOk result (Stands setting self.new draw (after setting world line.Restart)) }
        ensures counted { OnErr result (2 ^ 64 ≤ self.old.start + 1) }
        ensures unchanged_on_memory { OnErr result (self.new ≡ self.old) }
        ensures same_seal { self.new.server.seal ≡ self.old.server.seal }
    {
        self.past.starts_again()?;
        self.server.restart(alloc);
        self.service = V::fresh(alloc);
        Ok(())
    }

    /// Whether the server would open these bytes, if they came to it by its clock.
    ///
    /// # Errors
    ///
    /// `Memory`.
    pub fn opens<D: Draw>(&self, alloc: Global, bytes: &[u8]) -> Result<bool, Memory>
        ensures { (sealing : Sealing) (draw : D) (world : Rules D V) → let setting : Setting D V = setting_in D.step V.step V.fresh_state sealing in
            IsOf S.lock (S.keys self.now.server.seal) setting → Stands setting self.now draw world
            → IfOk result (λ opens. opens ≡ is_some (setting.opens (server_now world) Up bytes.now)) }
    {
        S::opens_what_it_sealed();
        let now = self.moment.later(Moment::new(self.clock));
        match self.server.seal().unseal(alloc, now, Dir::Up, bytes) {
            Opened::Envelope(_) => Ok(true),
            Opened::Refused(_) => Ok(false),
            Opened::Memory => Err(Memory),
        }
    }

    /// These bytes come to the server by its clock.
    ///
    /// # Errors
    ///
    /// `Memory`, and then nothing has changed but the draw and the room.
    pub fn takes<D: Draw>(
        &mut self,
        alloc: Global,
        bytes: &[u8],
        draw: &mut D,
    ) -> Result<(), Memory>
        ensures stands { (sealing : Sealing) (world : Rules D V) → let setting : Setting D V = setting_in D.step V.step V.fresh_state sealing in
            IsOf S.lock (S.keys self.old.server.seal) setting → Stands setting self.old draw.old world
            → OnOk result (Stands setting self.new draw.new (comes_up setting bytes.now world)) }
        ensures unchanged_on_memory { OnErr result (Stays self.old self.new) }
        ensures same_seal { self.new.server.seal ≡ self.old.server.seal }
    {
        self.past.reserve(alloc)?;
        let now = Moment::new(self.clock);
        let Effects { out, entries } = hears::<S, V, D>(&mut self.server, alloc, now, bytes, draw)?;
        self.moment = self.moment.later(now);
        self.past.takes(out, entries);
        Ok(())
    }

    /// The packet of this number, counted from 1, comes to the server, where it goes up; whether it does.
    ///
    /// # Errors
    ///
    /// `Memory`, and then nothing has changed but the draw and the room.
    pub fn takes_again<D: Draw>(
        &mut self,
        alloc: Global,
        number: u64,
        draw: &mut D,
    ) -> Result<bool, Memory>
        ensures told { IfOk result (λ goes. goes ≡ goes_up (counted number self.old.bag)) }
        ensures stands { (sealing : Sealing) (world : Rules D V) (bytes : List ℕ) → let setting : Setting D V = setting_in D.step V.step V.fresh_state sealing in
            IsOf S.lock (S.keys self.old.server.seal) setting → Stands setting self.old draw.old world → counted number self.old.bag ≡ Some (GoesUp bytes)
            → OnOk result (Stands setting self.new draw.new (comes_up setting bytes world)) }
        ensures unchanged { IfOk result (λ goes. goes ≡ false → Stays self.old self.new × (draw.new ≡ draw.old)) }
        ensures unchanged_on_memory { OnErr result (Stays self.old self.new) }
        ensures same_seal { self.new.server.seal ≡ self.old.server.seal }
    {
        self.past.reserve(alloc)?;
        let now = Moment::new(self.clock);
        let Some(Packet::Up(bytes)) = self.past.bag().packet(number) else {
            return Ok(false);
        };
        let Effects { out, entries } = hears::<S, V, D>(&mut self.server, alloc, now, bytes, draw)?;
        self.moment = self.moment.later(now);
        self.past.takes(out, entries);
        Ok(true)
    }
}
