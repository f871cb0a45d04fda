//! A large schedule, step by step.

ghost use Rattle.std.specs.Prelude.{◌≡◌, ◌+◌, ◌*◌, ◌%◌, [], IfOk, OnOk, length};
ghost use Rattle.sched_text.specs.declared.event.Event.TheVariants as line;
ghost use Rattle.sim_server.specs.Settings.{IsOf, Sealing};
ghost use Rattle.world_rules.specs.Load.{call_of_load, does, first_ungiven, gives, load, repeats, restarts, round, settled};
ghost use Rattle.world_rules.specs.Setting.{Setting};
ghost use Rattle.world_rules.specs.World.{begins};
ghost use Rattle.sim_world.specs.Worlds.{Stands as WorldStands, world_setting};
ghost use Rattle.sim_load.specs.Given.{Notes};
ghost use Rattle.sim_load.specs.Loading.{Answers, Flushed, Goes, OfEach, Stands, Tried};
ghost use Rattle.sim_load.specs.Plain.{IsOfLoad};

use crate::given::Given;
use draws::Draw;
use envelope::Seal;
use octets::{Memory, Octets};
use regs_service::Service;
use sched_text::Event;
use sim_world::{StepFault, World};
use std::alloc::Global;
use std::marker::Model;

/// The most steps of a settling.
const SETTLING_MAX: u32 = 4_096;

/// Each so many calls the server starts again.
const RESTARTS_EACH: u32 = 100;

/// Each so many calls a packet comes again.
const REPEATS_EACH: u32 = 3;

/// How far apart the packets are that come again.
const REPEATS_APART: u64 = 7;

/// The one client.
const CLIENT: u64 = 1;

/// `add x 1`
const BODY: [u8; 16] = [1, 44, 27, 10, 1, 120, 0, 0, 1, 0, 0, 0, 0, 0, 0, 0];

/// Steps a fresh world through the schedule of this many calls.
///
/// # Errors
///
/// `Memory`.
pub fn load<S: Seal + Drop, V: Service, D: Draw + Drop>(
    alloc: Global,
    world: World<S, V, D>,
    calls: u32,
) -> Result<World<S, V, D>, Memory>
    // Where the world is fresh, what comes back stands for the world after the large schedule of this many calls.
    ensures loaded { (sealing : Sealing) (draw : D) → let ring = S.keys world.host.server.seal in
        let setting : Setting D V = world_setting D.step V.step V.fresh_state ring sealing in
        IsOf S.lock ring setting → WorldStands setting world (begins setting draw) → IfOk result (λ loaded. WorldStands setting loaded (load setting draw calls)) }
    ensures same_seal { IfOk result (λ loaded. loaded.host.server.seal ≡ world.host.server.seal) }
{
    let mut loading = Loading::new(alloc, world);
    loading.does(alloc, &Event::Client)?;
    for before in 0..calls {
        loading.round(alloc, before + 1)?;
    }
    Ok(loading.into_world())
}

/// A world, and which of its packets were given so far.
#[derive(Drop)]
struct Loading<S: Seal, V: Service, D: Draw> {
    world: World<S, V, D>,
    given: Given,
}

impl<S: Seal, V: Service, D: Draw> Model for Loading<S, V, D> {
    ghost use Rattle.sim_load.specs.Loading.{Loading};

    ghost Value = { Loading S V D };

    ghost view = { λ loading. record { world = loading.world; given = loading.given } };
}

impl<S: Seal, V: Service, D: Draw> Loading<S, V, D> {
    /// A world of which no packet was given.
    fn new(alloc: Global, world: World<S, V, D>) -> Loading<S, V, D>
        ensures world { result.world ≡ world }
        ensures given { Notes result.given [] }
    {
        Loading {
            world,
            given: Given::new(alloc),
        }
    }

    /// The world.
    fn into_world(self) -> World<S, V, D>
        ensures { result ≡ self.world }
    {
        self.world
    }

    /// The call of this number is submitted, and the world settles.
    fn round(&mut self, alloc: Global, number: u32) -> Result<(), Memory>
        ensures stands { OfEach S.lock D.step V.step V.fresh_state (S.keys self.old.world.host.server.seal) self.old (λ setting settling. OnOk result (Stands setting self.new (round setting number settling))) }
        ensures same_seal { self.new.world.host.server.seal ≡ self.old.world.host.server.seal }
    {
        self.calls(alloc)?;
        self.restarts(alloc, number)?;
        self.settle(alloc)?;
        self.repeats(alloc, number)
    }

    /// The client submits a call.
    fn calls(&mut self, alloc: Global) -> Result<(), Memory>
        ensures stands { OfEach S.lock D.step V.step V.fresh_state (S.keys self.old.world.host.server.seal) self.old (λ setting settling. OnOk result (Stands setting self.new (does setting call_of_load settling))) }
        ensures same_seal { self.new.world.host.server.seal ≡ self.old.world.host.server.seal }
    {
        let call = call_of_load(alloc)?;
        self.does(alloc, &call)
    }

    /// Each hundredth time the client flushes and the server starts again.
    fn restarts(&mut self, alloc: Global, number: u32) -> Result<(), Memory>
        ensures stands { OfEach S.lock D.step V.step V.fresh_state (S.keys self.old.world.host.server.seal) self.old (λ setting settling. OnOk result (Stands setting self.new (restarts setting number settling))) }
        ensures same_seal { self.new.world.host.server.seal ≡ self.old.world.host.server.seal }
    {
        if number % RESTARTS_EACH == 0 {
            self.starts_again(alloc)?;
        }
        Ok(())
    }

    fn starts_again(&mut self, alloc: Global) -> Result<(), Memory>
        ensures stands { OfEach S.lock D.step V.step V.fresh_state (S.keys self.old.world.host.server.seal) self.old (λ setting settling. OnOk result (Stands setting self.new (does setting line.Restart (does setting (line.Flush 1) settling)))) }
        ensures same_seal { self.new.world.host.server.seal ≡ self.old.world.host.server.seal }
    {
        self.does(alloc, &Event::Flush { client: CLIENT })?;
        self.does(alloc, &Event::Restart)
    }

    /// Each third time a packet comes again, and the world settles.
    fn repeats(&mut self, alloc: Global, number: u32) -> Result<(), Memory>
        ensures stands { OfEach S.lock D.step V.step V.fresh_state (S.keys self.old.world.host.server.seal) self.old (λ setting settling. OnOk result (Stands setting self.new (repeats setting number settling))) }
        ensures same_seal { self.new.world.host.server.seal ≡ self.old.world.host.server.seal }
    {
        if number % REPEATS_EACH == 0 {
            self.comes_again(alloc, number)?;
        }
        Ok(())
    }

    fn comes_again(&mut self, alloc: Global, number: u32) -> Result<(), Memory>
        ensures stands { OfEach S.lock D.step V.step V.fresh_state (S.keys self.old.world.host.server.seal) self.old (λ setting settling. OnOk result (Stands setting self.new (settled setting (gives setting (1 + (7 * number) % length settling.world.bag) settling)))) }
        ensures same_seal { self.new.world.host.server.seal ≡ self.old.world.host.server.seal }
    {
        let count = self.packets();
        let packet = repeated(number, count);
        self.gives(alloc, packet)?;
        self.settle(alloc)
    }

    /// Until nothing can be done, cut after so many steps.
    fn settle(&mut self, alloc: Global) -> Result<(), Memory>
        ensures stands { OfEach S.lock D.step V.step V.fresh_state (S.keys self.old.world.host.server.seal) self.old (λ setting settling. OnOk result (Stands setting self.new (settled setting settling))) }
        ensures same_seal { self.new.world.host.server.seal ≡ self.old.world.host.server.seal }
    {
        let mut left = SETTLING_MAX;
        while left > 0 {
            let went = self.goes_on(alloc)?;
            if went {
                left -= 1;
            } else {
                return Ok(());
            }
        }
        Ok(())
    }

    /// Does the first of these that can be done, and answers whether there was one: the first packet that was never given
    /// comes, the first ready job runs, the client flushes.
    fn goes_on(&mut self, alloc: Global) -> Result<bool, Memory>
        ensures goes { OfEach S.lock D.step V.step V.fresh_state (S.keys self.old.world.host.server.seal) self.old (λ setting settling. IfOk result (λ went. Goes setting settling went self.new)) }
        ensures same_seal { self.new.world.host.server.seal ≡ self.old.world.host.server.seal }
    {
        if let Some(packet) = self.first_ungiven() {
            self.gives(alloc, packet)?;
            return Ok(true);
        }
        let worked = self.tries(alloc, &Event::Work { job: 1 })?;
        if worked {
            return Ok(true);
        }
        self.flushes(alloc)
    }

    /// The client flushes, and whether that made a packet.
    fn flushes(&mut self, alloc: Global) -> Result<bool, Memory>
        ensures flushed { OfEach S.lock D.step V.step V.fresh_state (S.keys self.old.world.host.server.seal) self.old (λ setting settling. IfOk result (λ made. Flushed setting settling made self.new)) }
        ensures same_seal { self.new.world.host.server.seal ≡ self.old.world.host.server.seal }
    {
        let count = self.packets();
        self.does(alloc, &Event::Flush { client: CLIENT })?;
        Ok(count < self.packets())
    }

    /// How many packets there are.
    fn packets(&self) -> u64
        ensures { OfEach S.lock D.step V.step V.fresh_state (S.keys self.now.world.host.server.seal) self.now (λ setting settling. result ≡ length settling.world.bag) }
    {
        self.world.packets()
    }

    /// The first packet that was never given.
    fn first_ungiven(&mut self) -> Option<u64>
        ensures first { OfEach S.lock D.step V.step V.fresh_state (S.keys self.old.world.host.server.seal) self.old (λ setting settling. result ≡ first_ungiven 1 (length settling.world.bag) settling.given) }
        ensures same { self.new ≡ self.old }
    {
        let count = self.world.packets();
        self.given.first_ungiven(count)
    }

    /// A packet comes.
    fn gives(&mut self, alloc: Global, packet: u64) -> Result<(), Memory>
        ensures stands { OfEach S.lock D.step V.step V.fresh_state (S.keys self.old.world.host.server.seal) self.old (λ setting settling. OnOk result (Stands setting self.new (gives setting packet settling))) }
        ensures same_seal { self.new.world.host.server.seal ≡ self.old.world.host.server.seal }
    {
        self.given.note(packet)?;
        self.does(alloc, &Event::Give { packet })
    }

    /// An event that isn't done where it is refused.
    fn does(&mut self, alloc: Global, event: &Event) -> Result<(), Memory>
        requires of_load { IsOfLoad event.now }
        ensures stands { OfEach S.lock D.step V.step V.fresh_state (S.keys self.old.world.host.server.seal) self.old (λ setting settling. OnOk result (Stands setting self.new (does setting event.now settling))) }
        ensures same_seal { self.new.world.host.server.seal ≡ self.old.world.host.server.seal }
    {
        let _done = self.tries(alloc, event)?;
        Ok(())
    }

    /// The same, and answers whether it was done.
    fn tries(&mut self, alloc: Global, event: &Event) -> Result<bool, Memory>
        requires of_load { IsOfLoad event.now }
        ensures tried { OfEach S.lock D.step V.step V.fresh_state (S.keys self.old.world.host.server.seal) self.old (λ setting settling. IfOk result (λ is_done. Tried setting settling event.now is_done self.new)) }
        ensures same_seal { self.new.world.host.server.seal ≡ self.old.world.host.server.seal }
    {
        answered(self.world.step(alloc, event))
    }
}

// Whether an event was done, by what the step answered.
fn answered(stepped: Result<(), StepFault>) -> Result<bool, Memory>
    ensures { Answers stepped result }
{
    match stepped {
        Ok(()) => Ok(true),
        Err(StepFault::Memory) => Err(Memory),
        Err(_) => Ok(false),
    }
}

// `add x 1`
#[tactic(auto, unfolding(tl_codec::specs::Spelling::spelling))]
fn call_of_load(alloc: Global) -> Result<Event, Memory>
    ensures { IfOk result (λ call. call ≡ call_of_load) }
{
    Ok(Event::Call {
        client: CLIENT,
        body: Octets::copy(alloc, BODY.as_slice())?,
        after: None,
    })
}

// The packet that comes again, of so many. There is one by then; where there were none, the definitions count so too.
fn repeated(number: u32, packets: u64) -> u64
    ensures { result ≡ 1 + (7 * number) % packets }
{
    let place = REPEATS_APART * u64::from(number);
    if packets == 0 {
        1 + place
    } else {
        1 + place % packets
    }
}
