//! Laws of worlds, each the contract of a function that does nothing. Most show by a schedule what the definitions give.

ghost use Rattle.std.specs.Prelude.{◌≡◌, ◌∷◌, [], None, Some, codes, replicate};
ghost use Rattle.sched_text.specs.declared.event.Event.TheVariants as line;
ghost use Rattle.client_rules.specs.Asking.{NoSuchCall, NotWords, ServiceTag, TooLong};
ghost use Rattle.world_rules.specs.Refusals.{ForeignOpens, NoClient, NoJob, NoPacket, NotSent, Submit, WrongState, refusal};
ghost use Rattle.sched_text.specs.declared.event.Event.{Event};
ghost use Rattle.world_rules.specs.Run.{step, step_any};
ghost use Rattle.world_rules.specs.Setting.{Setting};
ghost use Rattle.world_rules.specs.World.{World};
ghost use Rattle.world_rules.specs.Witness as shown;
ghost use Rattle.world_rules.specs.Orders as order;

use draws::Draw;

/// A call is sent under salt 0, refused for that, sent again under a new number and the right salt, runs once, and is
/// answered. It is so where every packet comes more than once, and late.
pub fn first_runs()
    ensures once { shown.told shown.first_run ≡ codes "call 1 1 done 5\nrun 1 1 12 5\n" }
    ensures repeated { shown.told shown.repeats ≡ codes "call 1 1 done 5\nrun 1 1 12 5\n" }
{}

/// Where the server starts again, it isn't known what became of a call that was sent, whether it ran or not; and one that
/// was submitted later runs once, although a notice of the former session comes late.
pub fn restarts()
    ensures result_lost { shown.told shown.result_lost ≡ codes "call 1 1 unknown session\nrun 1 1 12 5\n" }
    ensures before_arrival { shown.told shown.restarted ≡ codes "call 1 1 unknown session\n" }
    ensures late_notice { shown.told shown.late_notice ≡ codes "call 1 1 unknown session\ncall 1 2 done 7\nrun 2 1 24 7\n" }
{}

/// A number that was refused as too high stays refused. A client whose clock is behind takes over the server's time; where
/// it was ahead, its call is held, and goes in another session.
pub fn clocks_apart()
    ensures too_high { shown.told shown.too_high ≡ codes "call 1 1 sent\n" }
    ensures behind { shown.told shown.behind ≡ codes "call 1 1 done 5\nrun 1 1 15461882265604 5\n" }
    ensures held { shown.told shown.held ≡ codes "call 1 1 held\n" }
    ensures ahead { shown.told shown.ahead ≡ codes "call 1 1 done 5\nrun 1 1 16 5\n" }
{}

/// A packed body is answered in place. The calls of a client that ends are unknown where they were sent, and refused where
/// they weren't. Of two calls one after the other both run, in order.
pub fn other_runs()
    ensures packed { shown.told shown.packed ≡ codes "call 1 1 done error 400 PACKED_BODY_REFUSED\nanswer 1 1 12 error 400 PACKED_BODY_REFUSED\n" }
    ensures ended { shown.told shown.ends ≡ codes "call 1 1 unknown ended\ncall 1 2 refused 0\n" }
    ensures in_order { shown.told shown.works_twice ≡ codes "call 1 1 sent\ncall 1 2 sent\nrun 1 1 20 5\nrun 1 1 24 12\n" }
{}

/// Of two calls of which the second waits for the first, both run, in order. Where the first is refused, or the second waits
/// too long, the second never runs.
pub fn calls_in_order()
    ensures both { order.told order.both ≡ codes "call 1 1 done 5\ncall 1 2 done 12\nrun 1 1 20 5\nrun 1 1 24 12\n" }
    ensures first_is_refused { order.told order.first_is_refused ≡ codes "call 1 1 done error 400 BAD_REQUEST\ncall 1 2 done error 400 MSG_WAIT_FAILED\nrun 1 1 20 error 400 BAD_REQUEST\nanswer 1 1 24 error 400 MSG_WAIT_FAILED\n" }
    ensures second_waits_too_long { order.told order.second_waits_too_long ≡ codes "call 1 1 done 5\ncall 1 2 done error 400 MSG_WAIT_TIMEOUT\nanswer 1 1 24 error 400 MSG_WAIT_TIMEOUT\nrun 1 1 20 5\n" }
{}

/// A call whose answer is dropped before it runs never runs, nor does one that waits for it.
pub fn dropped_answers()
    ensures dropped { order.told order.dropped ≡ codes "call 1 1 done dropped\nanswer 1 1 12 dropped\n" }
    ensures never_runs { order.refused order.dropped (line.Work 1) ≡ Some (NoJob 1) }
    ensures dropped_first { order.told order.dropped_first ≡ codes "call 1 1 done dropped\ncall 1 2 done error 400 MSG_WAIT_FAILED\nanswer 1 1 20 dropped\nanswer 1 1 24 error 400 MSG_WAIT_FAILED\n" }
{}

/// A client under a temporary key binds it before its call goes. A packet under an expired key isn't answered.
pub fn temporary_keys()
    ensures bound_first { order.told order.bound_first ≡ codes "call 1 1 done 5\nrun 1 1 24 5\n" }
    ensures expired { order.told (order.begun_at 7200) ≡ codes "call 1 1 sent\n" }
    ensures expired_packets { order.packets_of (order.begun_at 7200) ≡ 1 }
    ensures good { order.packets_of (order.begun_at 7199) ≡ 2 }
{}

/// Bytes that don't open change nothing that is told, and such as open are refused.
pub fn foreign_bytes()
    ensures nothing { shown.told shown.foreign ≡ [] }
    ensures opens { shown.refused [] (line.ForeignServer (replicate 7 0)) ≡ Some ForeignOpens }
{}

/// Which events are refused, behind a client that joined.
pub fn refused_events()
    ensures too_long { shown.refused shown.joined (line.Call 1 (replicate 262148 0) None) ≡ Some (Submit (TooLong 262148)) }
    ensures longest { shown.refused shown.joined (line.Call 1 (replicate 262144 0) None) ≡ None }
    ensures not_words { shown.refused shown.joined (line.Call 1 (1 ∷ 2 ∷ []) None) ≡ Some (Submit (NotWords 2)) }
    ensures service_body { shown.refused shown.joined (line.Call 1 (0x59 ∷ 0xb4 ∷ 0xd6 ∷ 0x62 ∷ []) None) ≡ Some (Submit (ServiceTag 0x62d6b459)) }
    ensures no_such_call { shown.refused shown.joined (line.Call 1 (shown.add_x 1) (Some 1)) ≡ Some (Submit NoSuchCall) }
    ensures no_client { shown.refused shown.joined (line.Flush 2) ≡ Some NoClient }
    ensures no_packet { shown.refused shown.joined (line.Give 1) ≡ Some (NoPacket 1) }
    ensures no_job { shown.refused shown.joined (line.Work 1) ≡ Some (NoJob 1) }
    ensures wrong_state { shown.refused shown.joined (line.Renew 1) ≡ Some WrongState }
    ensures not_sent { shown.refused shown.opened_queued (line.DropAnswer 1 1) ≡ Some NotSent }
    ensures no_call_to_drop { shown.refused shown.opened_queued (line.DropAnswer 1 2) ≡ Some (Submit NoSuchCall) }
{}

/// Of the large schedule of one, two and three calls all are done, with 6, 10 and 14 packets.
pub fn loads()
    ensures one { shown.loaded 1 ≡ (1, 6) }
    ensures two { shown.loaded 2 ≡ (2, 10) }
    ensures three { shown.loaded 3 ≡ (3, 14) }
{}

/// A schedule differs from what happens over a network in one thing: it refuses foreign bytes that open.
pub fn schedules_refuse_foreign_bytes<D: Draw, V>()
    ensures { (setting : Setting D V) (world : World D V) (event : Event) → (refusal setting world event ≡ Some ForeignOpens → ⊥)
        → step_any setting world event ≡ step setting world event }
{}
