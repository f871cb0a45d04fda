//! Laws of numbers over a world, each the contract of a function that does nothing.

ghost use Rattle.std.specs.Prelude.{List};
ghost use Rattle.std.specs.List.{All};
ghost use Rattle.auth_keys.specs.declared.ring.RingKey.{RingKey};
ghost use Rattle.envelope.specs.Lawful.{OpensWhatItSealed};
ghost use Rattle.envelope.specs.Packet.{Lock};
ghost use Rattle.sched_text.specs.declared.event.Event.{Event};
ghost use Rattle.world_rules.specs.Setting.{Setting};
ghost use Rattle.world_rules.specs.World.{World, begins};
ghost use Rattle.world_rules.specs.Premises.{Fresh, IsOfBytes, IsSealed, IsSound, NoChance};
ghost use Rattle.world_rules.specs.Run.{run_of, run_of_any};
ghost use Rattle.envelope.specs.Sizes.{KeepsSizes};
ghost use Rattle.law_order.specs.Numbers.{GivesOnce, SaysNo19};

use draws::Draw;

/// No client gives one number to two messages under one session number: over every schedule, of all packets up that were ever
/// made under it those messages that have one number are the same one, with the same sequence number and body, as where a
/// message goes again. A container counts as a message of its own beside those in it. The one premise is that words drawn for
/// names aren't 0 and differ.
pub fn numbers_are_given_once<D: Draw, V>()
    ensures schedule { (setting : Setting D V) (draw : D) (events : List Event) → Fresh (run_of setting draw events) → GivesOnce (run_of setting draw events) }
    ensures any { (setting : Setting D V) (draw : D) (events : List Event) → Fresh (run_of_any setting draw events) → GivesOnce (run_of_any setting draw events) }
{
    crate::client_numbers::numbers_are_given_once::<D>();
    law_server::laws::servers_stay_in_order::<D, V>();
    law_once::laws::worlds_only_grow::<D, V>();
}

/// No packet that a server session makes has notice 19, over every schedule, under the premises of `calls_execute_once` of
/// `law_once`: each packet down is made of messages of which none spells it.
pub fn notice_19_never_comes<D: Draw, V>()
    ensures schedule { (lock : Lock) (ring : List RingKey) (setting : Setting D V) (draw : D) (events : List Event) → OpensWhatItSealed lock → KeepsSizes lock
        → IsSealed lock ring setting → IsSound ring setting → All IsOfBytes events → Fresh (run_of setting draw events)
        → SaysNo19 (run_of setting draw events) }
    ensures any { (lock : Lock) (ring : List RingKey) (setting : Setting D V) (draw : D) (events : List Event) → OpensWhatItSealed lock → KeepsSizes lock
        → IsSealed lock ring setting → IsSound ring setting → All IsOfBytes events → NoChance setting (begins setting draw) events
        → Fresh (run_of_any setting draw events)
        → SaysNo19 (run_of_any setting draw events) }
{
    containers::laws::parts_are_exact();
    containers::laws::packed_is_unfolded();
    law_server::laws::servers_stay_in_order::<D, V>();
    crate::notices::containers_are_told_apart::<D, V>();
    law_once::laws::what_opens_was_made::<D, V>();
    law_once::laws::worlds_only_grow::<D, V>();
    law_packets::laws::packets_of_worlds_are_lawful::<D, V>();
    numbers_are_given_once::<D, V>();
}
