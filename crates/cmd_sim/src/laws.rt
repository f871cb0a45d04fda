//! Laws of the world of `sim`, each the contract of a function that does nothing.

ghost use Rattle.std.specs.Prelude.{◌<◌, ℕ, All, Bool, List};
ghost use Rattle.envelope.specs.Lock.{mt_lock};
ghost use Rattle.sim_server.specs.Settings.{IsOf};
ghost use Rattle.sched_text.specs.declared.schedule.Placed.{Placed};
ghost use Rattle.world_rules.specs.Premises.{IsOfBytes, IsSound};
ghost use Rattle.world_rules.specs.Run.{events_of};
ghost use Rattle.sim_world.specs.Keys.{HasWorldKeys};
ghost use Rattle.statuses.specs.Outside.{IsUntouched, Outside};
ghost use Rattle.statuses.specs.declared.status.Status.TheVariants as status;
ghost use Rattle.cmd_sim.specs.KeysOfSim.{sim_ring};
ghost use Rattle.cmd_sim.specs.Load.{AreOfLoad, LoadExecutesOnce, load_world};
ghost use Rattle.cmd_sim.specs.Runs.{SimRun};
ghost use Rattle.cmd_sim.specs.Sim.{ExecutesOnce};
ghost use Rattle.cmd_sim.specs.Words.{words_max};
ghost use Rattle.cmd_sim.specs.Worlds.{sim_setting, sim_world};

use crate::counted_draw::CountedDraw;
use draws::laws::step_words_are_fresh;
use envelope::MtSeal;
use envelope::laws::{locks_keep_sizes, opens_what_it_sealed};
use law_once::laws::{calls_execute_once, names_are_words_drawn};
use law_order::laws::calls_run_in_order;
use law_order::numbers::{notice_19_never_comes, numbers_are_given_once};
use law_packets::bytes::bindings_are_bytes;
use law_packets::laws::registers_give_replies;
use mt_edge::{Sink, Source};
use octets::laws::bytes_stay_bytes;
use regs_service::Regs;
use ring_rules::laws::{packets_open_as_worked_out, rings_have_keys};

/// The ring of `sim` has the keys that clients are made with, and the setting says what the protocol's seal does under it.
pub fn setting_of_sim()
    ensures keys { HasWorldKeys sim_ring }
    ensures seal { IsOf mt_lock sim_ring sim_setting }
{
    packets_open_as_worked_out();
    rings_have_keys();
}

/// The setting is one of a world: its keys are in the ring, its words have 64 bits, its replies are whole words of bytes and
/// short, and binding messages are bytes.
pub fn setting_is_sound()
    ensures { IsSound sim_ring sim_setting }
{
    bytes_stay_bytes();
    bindings_are_bytes();
    registers_give_replies();
}

/// In the world of a schedule each call executed at most once, as its client sent it, and what is told of it is so; what ran
/// of a call with an earlier call ran behind that one; no client gave one number to two messages under one session number, and
/// no packet of the server has notice 19. The bodies of its calls are bytes, and the count of words isn't at its end.
pub fn sim_executes_once()
    ensures { (events : List Placed) → All IsOfBytes (events_of events) → (sim_world events).draw < words_max → ExecutesOnce events }
{
    setting_of_sim();
    setting_is_sound();
    opens_what_it_sealed::<MtSeal>();
    locks_keep_sizes();
    step_words_are_fresh();
    names_are_words_drawn::<CountedDraw, Regs>();
    calls_execute_once::<CountedDraw, Regs>();
    calls_run_in_order::<CountedDraw, Regs>();
    numbers_are_given_once::<CountedDraw, Regs>();
    notice_19_never_comes::<CountedDraw, Regs>();
}

/// The large schedule of so many calls is a schedule: its world is that of a list of events, whose bodies are bytes.
pub fn loads_are_schedules()
    ensures { (calls : ℕ) → (events : List Placed) × AreOfLoad calls events }
{
    bytes_stay_bytes();
}

/// The same of the world of `load`. The count of words isn't at its end.
pub fn load_executes_once()
    ensures { (calls : ℕ) → (load_world calls).draw < words_max → LoadExecutesOnce calls }
{
    loads_are_schedules();
    sim_executes_once();
}

/// A run that stops for want of memory before it writes keeps what `sim` promises.
pub fn memory_may_run_out<S: Source, O: Sink>()
    ensures { (wire : Bool) (input : Outside S) (out : Outside O) → IsUntouched out → SimRun wire input out status.Memory }
{}
