//! Laws of joint runs, each the contract of a function that does nothing.

ghost use Rattle.std.specs.Prelude.{◌≡◌, ◌≢◌, ℕ, true, List, codes};
ghost use Rattle.std.specs.List.{All, AllPairs};
ghost use Rattle.envelope.specs.declared.parts.Dir.{Dir};
ghost use Rattle.auth_keys.specs.declared.ring.RingKey.{RingKey};
ghost use Rattle.envelope.specs.Lawful.{OpensWhatItSealed};
ghost use Rattle.envelope.specs.Lock.{clear_lock};
ghost use Rattle.envelope.specs.Packet.{Lock};
ghost use Rattle.world_rules.specs.Setting.{Setting};
ghost use Rattle.sched_text.specs.declared.event.Event.{Event};
ghost use Rattle.server_rules.specs.Server.{Name};
ghost use Rattle.world_rules.specs.World.{World, begins, counted};
ghost use Rattle.world_rules.specs.Run.{after};
ghost use Rattle.world_rules.specs.Premises.{Fresh, IsByNoChance, IsOfBytes, IsSealed, IsSound, OpensOnly};
ghost use Rattle.world_rules.specs.Once.{InOrder, Once};
ghost use Rattle.envelope.specs.Sizes.{KeepsSizes};
ghost use Rattle.law_once.specs.Served.{IsServed};
ghost use Rattle.law_once.specs.Standing.{HasMoves};
ghost use Rattle.law_connections.specs.Computed.{are_new, is_made};
ghost use Rattle.law_connections.specs.Joint.{Joint, Step, attaches, joint_of, nobody_yet, steps_on};
ghost use Rattle.law_connections.specs.Keeping.{Keeps};
ghost use Rattle.law_connections.specs.Premises.{AreOf, IsStepByNoChance, IsStepOf, NoChance};
ghost use Rattle.law_connections.specs.Witness.{bytes_in};
ghost use Rattle.law_connections.specs.Witness as shown;

use draws::{Draw, StepDraw};
use envelope::ClearSeal;
use regs_service::Regs;

/// What is kept of a world (`Keeps`) holds as one begins, and each event keeps it, the attach of a session of any name, and each step
/// of a joint run, under the premises of `connections_execute_once`. Where words differ behind a step of a joint run, and aren't
/// 0, so they did before it.
pub fn worlds_keep_what_holds<D: Draw, V>()
    ensures begins { (lock : Lock) (ring : List RingKey) (setting : Setting D V) (draw : D) → Keeps lock ring setting (begins setting draw) }
    ensures event { (lock : Lock) (ring : List RingKey) (setting : Setting D V) (world : World D V) (event : Event) → OpensWhatItSealed lock → KeepsSizes lock
        → IsSealed lock ring setting → IsSound ring setting → IsOfBytes event → IsByNoChance setting world event → Fresh (after setting world event)
        → Keeps lock ring setting world → Keeps lock ring setting (after setting world event) }
    ensures attach { (lock : Lock) (ring : List RingKey) (setting : Setting D V) (world : World D V) (name : Name) → OpensWhatItSealed lock → KeepsSizes lock
        → IsSealed lock ring setting → IsSound ring setting → Fresh (attaches setting name world) → Keeps lock ring setting world
        → Keeps lock ring setting (attaches setting name world) }
    ensures step { (lock : Lock) (ring : List RingKey) (setting : Setting D V) (joint : Joint D V) (step : Step D) → OpensWhatItSealed lock → KeepsSizes lock
        → IsSealed lock ring setting → IsSound ring setting → IsStepOf ring joint step → IsStepByNoChance setting joint step
        → Fresh (steps_on setting joint step).world → Keeps lock ring setting joint.world → Keeps lock ring setting (steps_on setting joint step).world }
    ensures served { (setting : Setting D V) (joint : Joint D V) (step : Step D) → IsServed setting joint.world → IsServed setting (steps_on setting joint step).world }
    ensures words { (setting : Setting D V) (joint : Joint D V) (step : Step D) → IsServed setting joint.world → Fresh (steps_on setting joint step).world
        → Fresh joint.world }
{
    law_packets::laws::packets_of_worlds_are_lawful::<D, V>();
    law_once::laws::worlds_only_grow::<D, V>();
    law_once::laws::worlds_are_moves::<D, V>();
    law_once::laws::starts_are_served::<D, V>();
    law_once::laws::calls_execute_once::<D, V>();
    law_order::laws::worlds_keep_order::<D, V>();
    law_order::laws::calls_that_wait_run_in_order::<D, V>();
    law_order::laws::calls_run_in_order::<D, V>();
}

/// Over every joint run of a server and its clients each call executes at most once, as its client sent it, and what is told of it
/// is so; and calls run in order. The steps come in any order, packets that come are any bytes at any end, and the server may start
/// again between any two steps. The premises: a seal that opens what it sealed and keeps sizes; bytes that open at an end were
/// sealed by the other in that direction (`NoChance`); words drawn for session numbers, unique numbers and salts aren't 0 and
/// differ, whichever end drew them (`Fresh`); keys that are in the ring, words of 64 bits, replies of the service that are whole
/// words of bytes and short, binding messages of bytes (`IsSound`); clients under keys of the ring, and bodies of calls that are
/// bytes (`AreOf`). Lawful moves lead to where such a world stands.
pub fn connections_execute_once<D: Draw, V>()
    ensures moves { (lock : Lock) (ring : List RingKey) (setting : Setting D V) (draw : D) (steps : List (Step D)) → OpensWhatItSealed lock
        → KeepsSizes lock → IsSealed lock ring setting → IsSound ring setting → AreOf ring setting (nobody_yet setting draw) steps
        → NoChance setting (nobody_yet setting draw) steps → Fresh (joint_of setting draw steps).world
        → HasMoves (joint_of setting draw steps).world }
    ensures once { (lock : Lock) (ring : List RingKey) (setting : Setting D V) (draw : D) (steps : List (Step D)) → OpensWhatItSealed lock
        → KeepsSizes lock → IsSealed lock ring setting → IsSound ring setting → AreOf ring setting (nobody_yet setting draw) steps
        → NoChance setting (nobody_yet setting draw) steps → Fresh (joint_of setting draw steps).world
        → Once setting (joint_of setting draw steps).world }
    ensures in_order { (lock : Lock) (ring : List RingKey) (setting : Setting D V) (draw : D) (steps : List (Step D)) → OpensWhatItSealed lock
        → KeepsSizes lock → IsSealed lock ring setting → IsSound ring setting → AreOf ring setting (nobody_yet setting draw) steps
        → NoChance setting (nobody_yet setting draw) steps → Fresh (joint_of setting draw steps).world
        → InOrder (joint_of setting draw steps).world }
{
    law_once::laws::calls_execute_once::<D, V>();
    worlds_keep_what_holds::<D, V>();
}

/// What is computed of a run that is shown: words of which none is 0 or stands twice aren't 0 and differ, and the bytes of a packet that
/// is there and goes this way are those of a packet that was made.
pub fn what_is_computed_holds<V>()
    ensures words { (words : List ℕ) → are_new words ≡ true → All (λ word. word ≢ 0) words × AllPairs (λ word other. word ≢ other) words }
    ensures packets { (setting : Setting ℕ V) (world : World ℕ V) (now number : ℕ) (dir : Dir) → is_made dir (counted number world.bag) ≡ true
        → OpensOnly setting world now dir (bytes_in setting (counted number world.bag)) }
{}

/// A joint run in which a connection is lost and the server starts again: one call is done, and of another, which ran, it isn't
/// known what became. It meets every premise of the law, under a seal that lays packets out as the protocol does and enciphers
/// nothing, so the law says of it that each call executed at most once, and in order.
pub fn a_joint_run()
    ensures told { shown.told shown.lossy ≡ codes "call 1 1 done 5\ncall 1 2 unknown session\nrun 1 1 12 5\nrun 1 1 24 12\n" }
    ensures opens { OpensWhatItSealed clear_lock }
    ensures sizes { KeepsSizes clear_lock }
    ensures sealed { IsSealed clear_lock shown.ring shown.setting }
    ensures sound { IsSound shown.ring shown.setting }
    ensures of { AreOf shown.ring shown.setting (nobody_yet shown.setting 0) shown.lossy }
    ensures chance { NoChance shown.setting (nobody_yet shown.setting 0) shown.lossy }
    ensures fresh { Fresh (joint_of shown.setting 0 shown.lossy).world }
    ensures once { Once shown.setting (joint_of shown.setting 0 shown.lossy).world }
    ensures in_order { InOrder (joint_of shown.setting 0 shown.lossy).world }
{
    envelope::laws::opens_what_it_sealed::<ClearSeal>();
    envelope::laws::locks_keep_sizes();
    ring_rules::laws::packets_open_as_worked_out();
    law_packets::laws::registers_give_replies();
    octets::laws::bytes_stay_bytes();
    connections_execute_once::<StepDraw, Regs>();
}
