//! Laws of the order of calls over a world, each the contract of a function that does nothing.

ghost use Rattle.std.specs.Prelude.{List};
ghost use Rattle.std.specs.List.{All};
ghost use Rattle.auth_keys.specs.declared.ring.RingKey.{RingKey};
ghost use Rattle.envelope.specs.Lawful.{OpensWhatItSealed};
ghost use Rattle.envelope.specs.Packet.{Lock};
ghost use Rattle.law_moves.specs.World.{World as Moved};
ghost use Rattle.sched_text.specs.declared.event.Event.{Event};
ghost use Rattle.world_rules.specs.Setting.{Setting};
ghost use Rattle.world_rules.specs.World.{World, begins};
ghost use Rattle.world_rules.specs.Premises.{Fresh, IsByNoChance, IsOfBytes, IsSealed, IsSound, NoChance};
ghost use Rattle.world_rules.specs.Run.{after, run_of, run_of_any};
ghost use Rattle.world_rules.specs.Once.{InOrder, Once};
ghost use Rattle.envelope.specs.Sizes.{KeepsSizes};
ghost use Rattle.law_packets.specs.Lawful.{AreLawfulPackets};
ghost use Rattle.server_rules.specs.Events.{Attach};
ghost use Rattle.server_rules.specs.Server.{Name};
ghost use Rattle.world_rules.specs.Ends.{serves};
ghost use Rattle.law_once.specs.Standing.{HasMoves, WorldStands};
ghost use Rattle.law_order.specs.Keeping.{KeepsOrder, WaitingInOrder};

use draws::Draw;

/// Each end keeps its part of the order of calls, over every schedule, under the premises of `worlds_are_moves` of `law_once`. Each
/// client's calls are in turn; each packet up that was ever made has messages as which calls of a client went, behind the number
/// of an earlier message where they went behind one, and others that ask nothing of the service. And for each two messages of a
/// session of which the packets say that the one waits for the other, an entry of the one that ran stands behind an entry of
/// the other that ran, and whose reply begins with neither `rpc_error` nor `rpc_answer_dropped_running`. The attach of a session of
/// any name keeps it too.
pub fn worlds_keep_order<D: Draw, V>()
    ensures begins { (setting : Setting D V) (draw : D) → KeepsOrder (begins setting draw) }
    ensures event { (lock : Lock) (ring : List RingKey) (setting : Setting D V) (world : World D V) (event : Event) → OpensWhatItSealed lock
        → IsSealed lock ring setting → HasMoves world → AreLawfulPackets lock ring setting world → IsByNoChance setting world event
        → KeepsOrder world → KeepsOrder (after setting world event) }
    ensures attach { (setting : Setting D V) (world : World D V) (name : Name) → HasMoves world → KeepsOrder world
        → KeepsOrder (serves setting (Attach world.clock name) world) }
    ensures schedule { (lock : Lock) (ring : List RingKey) (setting : Setting D V) (draw : D) (events : List Event) → OpensWhatItSealed lock → KeepsSizes lock
        → IsSealed lock ring setting → IsSound ring setting → All IsOfBytes events → Fresh (run_of setting draw events)
        → KeepsOrder (run_of setting draw events) }
    ensures any { (lock : Lock) (ring : List RingKey) (setting : Setting D V) (draw : D) (events : List Event) → OpensWhatItSealed lock → KeepsSizes lock
        → IsSealed lock ring setting → IsSound ring setting → All IsOfBytes events → NoChance setting (begins setting draw) events
        → Fresh (run_of_any setting draw events)
        → KeepsOrder (run_of_any setting draw events) }
{
    crate::server_laws::calls_run_in_order::<D, V>();
    crate::client_laws::calls_go_in_order::<D>();
    crate::client_laws::calls_stay::<D>();
    crate::client_laws::packets_have_calls_as_they_went::<D>();
    law_once::laws::what_opens_was_made::<D, V>();
    law_once::laws::worlds_only_grow::<D, V>();
    law_once::laws::worlds_are_moves::<D, V>();
    law_packets::laws::packets_of_worlds_are_lawful::<D, V>();
    law_server::laws::servers_stay_in_order::<D, V>();
}

/// An entry that ran of a call with an earlier call, under a name that went behind a number, stands behind an entry of that
/// earlier call that ran, and whose reply doesn't begin with `rpc_error`: over every schedule, under the premises of
/// `worlds_are_moves` of `law_once`, and wherever a world stands in a world of that law, executes calls once and keeps order.
pub fn calls_that_wait_run_in_order<D: Draw, V>()
    ensures schedule { (lock : Lock) (ring : List RingKey) (setting : Setting D V) (draw : D) (events : List Event) → OpensWhatItSealed lock → KeepsSizes lock
        → IsSealed lock ring setting → IsSound ring setting → All IsOfBytes events → Fresh (run_of setting draw events)
        → WaitingInOrder (run_of setting draw events) }
    ensures any { (lock : Lock) (ring : List RingKey) (setting : Setting D V) (draw : D) (events : List Event) → OpensWhatItSealed lock → KeepsSizes lock
        → IsSealed lock ring setting → IsSound ring setting → All IsOfBytes events → NoChance setting (begins setting draw) events
        → Fresh (run_of_any setting draw events)
        → WaitingInOrder (run_of_any setting draw events) }
    ensures standing { (setting : Setting D V) (w : Moved) (world : World D V) → WorldStands w world → Once setting world → KeepsOrder world
        → WaitingInOrder world }
{
    octets::laws::parts_are_bytes();
    service_tl::laws::items_exact();
    containers::laws::parts_are_exact();
    containers::laws::packed_is_unfolded();
    law_moves::laws::names_are_apart();
    law_moves::laws::numbers_are_given_once();
    law_server_moves::laws::packets_sent_are_up();
    law_once::laws::worlds_are_moves::<D, V>();
    law_once::laws::calls_execute_once::<D, V>();
    worlds_keep_order::<D, V>();
}

/// An entry that ran of a call with an earlier call stands behind an entry of that earlier call that ran, and whose reply
/// doesn't begin with `rpc_error`: over every schedule, under the premises of `calls_execute_once` of `law_once`. An event keeps it,
/// and so does the attach of a session of any name, where calls are executed once before and behind it, and those that wait are in
/// order behind it.
pub fn calls_run_in_order<D: Draw, V>()
    ensures begins { (setting : Setting D V) (draw : D) → InOrder (begins setting draw) }
    ensures event { (setting : Setting D V) (w : Moved) (world : World D V) (event : Event) → WorldStands w world → KeepsOrder world → Once setting world
        → InOrder world → Once setting (after setting world event) → WaitingInOrder (after setting world event) → InOrder (after setting world event) }
    ensures attach { (setting : Setting D V) (w : Moved) (world : World D V) (name : Name) → WorldStands w world → KeepsOrder world → Once setting world
        → InOrder world → Once setting (serves setting (Attach world.clock name) world) → WaitingInOrder (serves setting (Attach world.clock name) world)
        → InOrder (serves setting (Attach world.clock name) world) }
    ensures schedule { (lock : Lock) (ring : List RingKey) (setting : Setting D V) (draw : D) (events : List Event) → OpensWhatItSealed lock → KeepsSizes lock
        → IsSealed lock ring setting → IsSound ring setting → All IsOfBytes events → Fresh (run_of setting draw events)
        → InOrder (run_of setting draw events) }
    ensures any { (lock : Lock) (ring : List RingKey) (setting : Setting D V) (draw : D) (events : List Event) → OpensWhatItSealed lock → KeepsSizes lock
        → IsSealed lock ring setting → IsSound ring setting → All IsOfBytes events → NoChance setting (begins setting draw) events
        → Fresh (run_of_any setting draw events)
        → InOrder (run_of_any setting draw events) }
{
    crate::server_laws::calls_run_in_order::<D, V>();
    crate::client_laws::calls_go_in_order::<D>();
    crate::client_laws::calls_stay::<D>();
    crate::client_laws::packets_have_calls_as_they_went::<D>();
    law_once::laws::what_opens_was_made::<D, V>();
    law_once::laws::worlds_only_grow::<D, V>();
    law_once::laws::worlds_are_moves::<D, V>();
    law_once::laws::starts_are_served::<D, V>();
    law_once::laws::calls_execute_once::<D, V>();
    law_packets::laws::packets_of_worlds_are_lawful::<D, V>();
    law_server::laws::servers_stay_in_order::<D, V>();
    worlds_keep_order::<D, V>();
    calls_that_wait_run_in_order::<D, V>();
}
