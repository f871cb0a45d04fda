//! One event of a schedule.

ghost use Rattle.std.specs.Prelude.{◌≡◌, ◌≢◌, IfErr, OnErr, OnOk};
ghost use Rattle.world_rules.specs.Refusals.{refusal};
ghost use Rattle.world_rules.specs.Run.{step};
ghost use Rattle.world_rules.specs.Setting.{Setting};
ghost use Rattle.world_rules.specs.World.{World as Rules};
ghost use Rattle.sim_server.specs.Settings.{IsOf, Sealing};
ghost use Rattle.sim_world.specs.Families.{IsAtServerOrOther, IsBytesOrWish, IsWish};
ghost use Rattle.sim_world.specs.Told.{StepsFrom, TakesNoMemory, Tells};
ghost use Rattle.sim_world.specs.Worlds.{Stands, world_setting};
ghost use Rattle.sim_world.specs.declared.fault.StepFault.TheVariants as told;

use crate::fault::StepFault;
use crate::world::World;
use draws::Draw;
use envelope::Seal;
use regs_service::Service;
use sched_text::Event;
use std::alloc::Global;

impl<S: Seal, V: Service, D: Draw> World<S, V, D> {
    /// One event.
    ///
    /// # Errors
    ///
    /// The event's refusal, and then nothing has changed; or `Memory`, and then nothing but the draw.
    pub fn step(&mut self, alloc: Global, event: &Event) -> Result<(), StepFault>
        // The refusal comes exactly where the definitions refuse the event, unless memory runs out.
        ensures refused { (sealing : Sealing) (world : Rules D V) → let ring = S.keys self.old.host.server.seal in
            let setting : Setting D V = world_setting D.step V.step V.fresh_state ring sealing in
            IsOf S.lock ring setting → Stands setting self.old world → Tells (refusal setting world event.now) result }
        ensures stands { (sealing : Sealing) (world : Rules D V) → let ring = S.keys self.old.host.server.seal in
            let setting : Setting D V = world_setting D.step V.step V.fresh_state ring sealing in
            IsOf S.lock ring setting → Stands setting self.old world → OnOk result (Stands setting self.new (step setting world event.now)) }
        ensures unchanged { (sealing : Sealing) (world : Rules D V) → let ring = S.keys self.old.host.server.seal in
            let setting : Setting D V = world_setting D.step V.step V.fresh_state ring sealing in
            IsOf S.lock ring setting → Stands setting self.old world → OnErr result (Stands setting self.new (record world { draw = self.new.draw })) }
        // What takes no memory never runs out of it.
        ensures takes_no_memory { TakesNoMemory event.now → IfErr result (λ fault. fault ≢ told.Memory) }
        // Words are drawn for nothing only where memory runs out.
        ensures same_draw { (sealing : Sealing) (world : Rules D V) → let ring = S.keys self.old.host.server.seal in
            let setting : Setting D V = world_setting D.step V.step V.fresh_state ring sealing in
            IsOf S.lock ring setting → Stands setting self.old world → IfErr result (λ fault. fault ≢ told.Memory → self.new.draw ≡ self.old.draw) }
        ensures same_seal { self.new.host.server.seal ≡ self.old.host.server.seal }
    {
        self.does(alloc, event)
    }

    // The same, said at once: events that set the scene, or of the families below.
    fn does(&mut self, alloc: Global, event: &Event) -> Result<(), StepFault>
        ensures steps { StepsFrom S.lock D.step V.step V.fresh_state (S.keys self.old.host.server.seal) self.old event.now result self.new }
        ensures takes_no_memory { TakesNoMemory event.now → IfErr result (λ fault. fault ≢ told.Memory) }
        ensures same_seal { self.new.host.server.seal ≡ self.old.host.server.seal }
    {
        match event {
            Event::Client => self.client_joins(alloc),
            Event::ClientTemp => self.client_temp_joins(alloc),
            Event::ClockAll { at } => self.clock_all(*at),
            Event::ClockServer { at } => self.clock_server(*at),
            Event::ClockClient { client, at } => self.clock_client(*client, *at),
            _ => self.at_server_or_other(alloc, event),
        }
    }

    // Events of the server, or of the families below.
    fn at_server_or_other(&mut self, alloc: Global, event: &Event) -> Result<(), StepFault>
        requires family { IsAtServerOrOther event.now }
        ensures steps { StepsFrom S.lock D.step V.step V.fresh_state (S.keys self.old.host.server.seal) self.old event.now result self.new }
        ensures takes_no_memory { TakesNoMemory event.now → IfErr result (λ fault. fault ≢ told.Memory) }
        ensures same_seal { self.new.host.server.seal ≡ self.old.host.server.seal }
    {
        match event {
            Event::ForeignServer { bytes } => self.foreign_server(alloc, bytes.as_slice()),
            Event::Work { job } => self.work(alloc, *job),
            Event::TickServer => self.tick_server(alloc),
            Event::AttachServer { client } => self.attach_server(alloc, *client),
            Event::Lose { client } => self.lose(*client),
            Event::Restart => self.restart(alloc),
            _ => self.bytes_or_wish(alloc, event),
        }
    }

    // Events that bring bytes, and calls, or a wish.
    fn bytes_or_wish(&mut self, alloc: Global, event: &Event) -> Result<(), StepFault>
        requires family { IsBytesOrWish event.now }
        ensures steps { StepsFrom S.lock D.step V.step V.fresh_state (S.keys self.old.host.server.seal) self.old event.now result self.new }
        ensures takes_no_memory { TakesNoMemory event.now → IfErr result (λ fault. fault ≢ told.Memory) }
        ensures same_seal { self.new.host.server.seal ≡ self.old.host.server.seal }
    {
        match event {
            Event::Call {
                client,
                body,
                after,
            } => self.call(alloc, *client, body.as_slice(), *after),
            Event::Flush { client } => self.flush(alloc, *client),
            Event::Give { packet } => self.give(alloc, *packet),
            Event::ForeignClient { client, bytes } => {
                self.foreign_client(alloc, *client, bytes.as_slice())
            }
            _ => self.wish(event),
        }
    }

    // What else a client is asked to do.
    fn wish(&mut self, event: &Event) -> Result<(), StepFault>
        requires family { IsWish event.now }
        ensures steps { StepsFrom S.lock D.step V.step V.fresh_state (S.keys self.old.host.server.seal) self.old event.now result self.new }
        ensures takes_no_memory { TakesNoMemory event.now → IfErr result (λ fault. fault ≢ told.Memory) }
        ensures same_seal { self.new.host.server.seal ≡ self.old.host.server.seal }
    {
        match event {
            Event::TickClient { client } => self.tick_client(*client),
            Event::AttachClient { client } => self.attach_client(*client),
            Event::Ping { client } => self.ping(*client),
            Event::Salts { client, count } => self.salts(*client, *count),
            Event::DropAnswer { client, call } => self.drop_answer(*client, *call),
            Event::Renew { client } => self.renew(*client),
            Event::End { client } => self.end(*client),
            _ => unreachable!(),
        }
    }
}
