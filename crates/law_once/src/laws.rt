//! Laws of worlds over every schedule, each the contract of a function that does nothing.

ghost use Rattle.std.specs.Prelude.{◌≡◌, ◌≢◌, ◌+◌, ◌<◌, ◌^◌, ℕ, List, Some};
ghost use Rattle.std.specs.List.{All, AllPairs};
ghost use Rattle.draws.specs.Draws.{next_words};
ghost use Rattle.auth_keys.specs.declared.ring.RingKey.{RingKey};
ghost use Rattle.regs_service.specs.Served.{Served};
ghost use Rattle.envelope.specs.declared.parts.Dir.{Dir};
ghost use Rattle.envelope.specs.declared.parts.Envelope.{Envelope};
ghost use Rattle.envelope.specs.Lawful.{OpensWhatItSealed};
ghost use Rattle.envelope.specs.Packet.{Lock};
ghost use Rattle.law_server.specs.Order.{AreOrdered};
ghost use Rattle.law_moves.specs.World.{World as Moved, start as empty};
ghost use Rattle.sched_text.specs.declared.event.Event.{Event};
ghost use Rattle.world_rules.specs.Setting.{Setting};
ghost use Rattle.world_rules.specs.World.{Packet, World, begins, bytes_of};
ghost use Rattle.world_rules.specs.Premises.{Fresh, IsByNoChance, IsOfBytes, IsSealed, IsSound, NoChance, OpensOnly, names_drawn};
ghost use Rattle.world_rules.specs.Once.{Once, ran_in};
ghost use Rattle.world_rules.specs.Run.{after, run_of, run_of_any};
ghost use Rattle.envelope.specs.Sizes.{KeepsSizes};
ghost use Rattle.law_packets.specs.Lawful.{AreLawfulPackets, IsSealedPacket};
ghost use Rattle.server_rules.specs.Events.{Attach};
ghost use Rattle.server_rules.specs.Server.{Name};
ghost use Rattle.world_rules.specs.Ends.{serves};
ghost use Rattle.law_once.specs.Made.{IsOfPacket, IsShort};
ghost use Rattle.law_once.specs.Served.{IsServed};
ghost use Rattle.law_once.specs.Small.{Fits};
ghost use Rattle.law_once.specs.Standing.{HasMoves, MovesOn, WorldStands};
ghost use Rattle.law_once.specs.Words.{AreDrawn, HavePlaces, given_step};

use draws::{Draw, StepDraw};
use law_client::laws::{
    clients_flush, clients_hear, clients_join, clients_renew_and_end, clients_submit,
    others_stand_still, wishes_are_no_moves,
};
use law_moves::laws::{
    clients_and_bodies_last, moves_execute_once, moves_go_on, moves_leave, moves_only_add,
    names_are_apart, what_was_not_made_is_blank,
};
use law_packets::laws::packets_of_worlds_are_lawful;
use law_server_moves::laws::{
    events_of_worlds_are_moves, packets_are_read_as_they_went_out, packets_of_worlds_are_moves,
    packets_sent_are_up, servers_stand_still,
};

/// After every schedule, what ran in each start of the server has the replies that the service gives to these requests, one
/// after the other, from its fresh state. So it is too where foreign bytes that open are taken like packets. Each event leaves
/// it so, and so does the attach of a session of any name.
pub fn starts_are_served<D: Draw, V>()
    ensures begins { (setting : Setting D V) (draw : D) → IsServed setting (begins setting draw) }
    ensures event { (setting : Setting D V) (world : World D V) (event : Event) → IsServed setting world → IsServed setting (after setting world event) }
    ensures attach { (setting : Setting D V) (world : World D V) (name : Name) → IsServed setting world
        → IsServed setting (serves setting (Attach world.clock name) world) }
    ensures all { (setting : Setting D V) (draw : D) (events : List Event) (start : ℕ)
        → Served setting.serve setting.fresh (ran_in start (run_of setting draw events).entries) }
    ensures any { (setting : Setting D V) (draw : D) (events : List Event) (start : ℕ)
        → Served setting.serve setting.fresh (ran_in start (run_of_any setting draw events).entries) }
{
    law_server::laws::servers_stay_in_order::<D, V>();
}

/// Where bytes are those of a packet that was made, what opens is its envelope; and where foreign bytes open by no chance,
/// what opens is the envelope of a packet of the world that goes that way. Each envelope that opens is lawful and short.
pub fn what_opens_was_made<D: Draw, V>()
    ensures given { (lock : Lock) (ring : List RingKey) (setting : Setting D V) (now : ℕ) (packet : Packet) (envelope : Envelope) → OpensWhatItSealed lock
        → IsSealed lock ring setting → IsSealedPacket lock ring setting packet
        → setting.opens now packet.dir (bytes_of setting packet) ≡ Some envelope → packet.envelope ≡ envelope }
    ensures foreign { (lock : Lock) (ring : List RingKey) (setting : Setting D V) (world : World D V) (now : ℕ) (dir : Dir) (bytes : List ℕ) (envelope : Envelope)
        → OpensWhatItSealed lock → IsSealed lock ring setting → AreLawfulPackets lock ring setting world → OpensOnly setting world now dir bytes
        → setting.opens now dir bytes ≡ Some envelope → IsOfPacket world dir envelope }
    ensures short { (lock : Lock) (ring : List RingKey) (setting : Setting D V) (now : ℕ) (dir : Dir) (bytes : List ℕ) (envelope : Envelope)
        → OpensWhatItSealed lock → IsSealed lock ring setting → setting.opens now dir bytes ≡ Some envelope → IsShort envelope }
{}

/// Where the words drawn for session numbers, unique numbers and salts differ behind an event of a world whose server is in
/// order, and aren't 0, they did so before it, also where it attaches a session of any name; and where all packets are lawful
/// behind an event, they were.
pub fn worlds_only_grow<D: Draw, V>()
    ensures words { (setting : Setting D V) (world : World D V) (event : Event) → AreOrdered world.server.sessions world.server.jobs
        → Fresh (after setting world event) → Fresh world }
    ensures words_attached { (setting : Setting D V) (world : World D V) (name : Name) → AreOrdered world.server.sessions world.server.jobs
        → Fresh (serves setting (Attach world.clock name) world) → Fresh world }
    ensures packets { (lock : Lock) (ring : List RingKey) (setting : Setting D V) (world : World D V) (event : Event)
        → AreLawfulPackets lock ring setting (after setting world event) → AreLawfulPackets lock ring setting world }
{
    law_server::lives::sessions_draw_salts::<D>();
    law_server::laws::sessions_speak::<D>();
    law_server::laws::sessions_speak_for_themselves::<D>();
}

/// Where a world stands in some world that lawful moves lead to, each event is a list of lawful moves from there on, behind
/// which the world behind the event stands; and so some list of lawful moves leads to where the world of a schedule stands,
/// with its clients, sessions, jobs, packets and entries. The premises: a seal that opens what it sealed and keeps sizes,
/// foreign bytes that open by no chance (a schedule refuses those that open), words that aren't 0 and differ; keys that are in
/// the ring, words of 64 bits, replies of the service that are whole words of bytes and short, binding messages of bytes
/// (`IsSound`); and bodies of calls that are bytes. Each packet may be sealed then. The attach of a session of any name is such
/// a list too.
pub fn worlds_are_moves<D: Draw, V>()
    ensures begins { (setting : Setting D V) (draw : D) → WorldStands empty (begins setting draw) }
    ensures event { (lock : Lock) (ring : List RingKey) (setting : Setting D V) (w : Moved) (world : World D V) (event : Event) → OpensWhatItSealed lock
        → IsSealed lock ring setting → Fits setting → WorldStands w world → AreLawfulPackets lock ring setting world → IsByNoChance setting world event
        → Fresh (after setting world event) → AreLawfulPackets lock ring setting (after setting world event) → MovesOn w (after setting world event) }
    ensures attach { (lock : Lock) (ring : List RingKey) (setting : Setting D V) (w : Moved) (world : World D V) (name : Name) → OpensWhatItSealed lock
        → Fits setting → WorldStands w world → Fresh (serves setting (Attach world.clock name) world)
        → AreLawfulPackets lock ring setting (serves setting (Attach world.clock name) world) → MovesOn w (serves setting (Attach world.clock name) world) }
    ensures schedule { (lock : Lock) (ring : List RingKey) (setting : Setting D V) (draw : D) (events : List Event) → OpensWhatItSealed lock → KeepsSizes lock
        → IsSealed lock ring setting → IsSound ring setting → All IsOfBytes events → Fresh (run_of setting draw events)
        → HasMoves (run_of setting draw events) }
    ensures any { (lock : Lock) (ring : List RingKey) (setting : Setting D V) (draw : D) (events : List Event) → OpensWhatItSealed lock → KeepsSizes lock
        → IsSealed lock ring setting → IsSound ring setting → All IsOfBytes events → NoChance setting (begins setting draw) events
        → Fresh (run_of_any setting draw events) → HasMoves (run_of_any setting draw events) }
{
    moves_go_on();
    moves_leave();
    moves_only_add();
    clients_and_bodies_last();
    names_are_apart();
    clients_join();
    clients_submit();
    wishes_are_no_moves();
    clients_renew_and_end();
    clients_flush::<D>();
    clients_hear();
    others_stand_still();
    servers_stand_still();
    events_of_worlds_are_moves::<D, V>();
    packets_of_worlds_are_moves::<D, V>();
    packets_sent_are_up();
    packets_are_read_as_they_went_out();
    law_server_bounds::sizes::sizes_stay_small::<D, V>();
    law_server_bounds::sizes::packets_are_whole::<D, V>();
    law_server::laws::servers_stay_in_order::<D, V>();
    law_server::lives::sessions_draw_salts::<D>();
    law_server::laws::sessions_speak::<D>();
    law_server::laws::sessions_speak_for_themselves::<D>();
    packets_of_worlds_are_lawful::<D, V>();
}

/// Each call executes at most once, as its client sent it, and what is told of it is so: over every schedule, under the
/// premises of `worlds_are_moves`, and wherever a world stands in a world of the law.
pub fn calls_execute_once<D: Draw, V>()
    ensures schedule { (lock : Lock) (ring : List RingKey) (setting : Setting D V) (draw : D) (events : List Event) → OpensWhatItSealed lock → KeepsSizes lock
        → IsSealed lock ring setting → IsSound ring setting → All IsOfBytes events → Fresh (run_of setting draw events)
        → Once setting (run_of setting draw events) }
    ensures any { (lock : Lock) (ring : List RingKey) (setting : Setting D V) (draw : D) (events : List Event) → OpensWhatItSealed lock → KeepsSizes lock
        → IsSealed lock ring setting → IsSound ring setting → All IsOfBytes events → NoChance setting (begins setting draw) events
        → Fresh (run_of_any setting draw events) → Once setting (run_of_any setting draw events) }
    ensures standing { (setting : Setting D V) (w : Moved) (world : World D V) → WorldStands w world
        → ((start : ℕ) → Served setting.serve setting.fresh (ran_in start world.entries)) → Once setting world }
{
    moves_execute_once();
    moves_leave();
    names_are_apart();
    what_was_not_made_is_blank();
    starts_are_served::<D, V>();
    worlds_are_moves::<D, V>();
}

/// From a world to the one behind its event, and over every schedule from its beginning, some number of words is drawn, and
/// each word stands among the names further at most as often as among these: from its beginning on, a world's names are the
/// words of places that are pairwise different. So they aren't 0 and differ wherever the words drawn aren't and do.
pub fn names_are_words_drawn<D: Draw, V>()
    ensures event { (setting : Setting D V) (world : World D V) (event : Event) → AreOrdered world.server.sessions world.server.jobs
        → (n : ℕ) × AreDrawn setting world n (after setting world event) }
    ensures schedule { (setting : Setting D V) (draw : D) (events : List Event) → (n : ℕ) × AreDrawn setting (begins setting draw) n (run_of setting draw events) }
    ensures any { (setting : Setting D V) (draw : D) (events : List Event) → (n : ℕ) × AreDrawn setting (begins setting draw) n (run_of_any setting draw events) }
    ensures places { (setting : Setting D V) (draw : D) (n : ℕ) (world : World D V) → AreDrawn setting (begins setting draw) n world
        → HavePlaces setting.step draw n (names_drawn world) }
    ensures fresh { (setting : Setting D V) (draw : D) (n : ℕ) (world : World D V) → AreDrawn setting (begins setting draw) n world
        → All (λ word. word ≢ 0) (next_words setting.step n draw) → AllPairs (λ word other. word ≢ other) (next_words setting.step n draw) → Fresh world }
{
    law_server::laws::servers_stay_in_order::<D, V>();
    law_server::lives::sessions_draw_salts::<D>();
    law_server::laws::sessions_speak::<D>();
    law_server::laws::sessions_speak_for_themselves::<D>();
}

/// Where the words drawn are those of a `StepDraw`, one after the other from its place `given` on, the names of a world aren't 0
/// and differ as long as the place where the draw stands then is below 2^64: so it is after every schedule.
pub fn step_words_keep_names_fresh<V>()
    ensures world { (setting : Setting ℕ V) (given n : ℕ) (world : World ℕ V) → setting.step ≡ given_step
        → AreDrawn setting (begins setting given) n world → world.draw < 2 ^ 64 → Fresh world }
    ensures schedule { (setting : Setting ℕ V) (given : ℕ) (events : List Event) → setting.step ≡ given_step
        → (run_of setting given events).draw < 2 ^ 64 → Fresh (run_of setting given events) }
    ensures any { (setting : Setting ℕ V) (given : ℕ) (events : List Event) → setting.step ≡ given_step
        → (run_of_any setting given events).draw < 2 ^ 64 → Fresh (run_of_any setting given events) }
{
    draws::laws::step_words_are_fresh();
    names_are_words_drawn::<StepDraw, V>();
}

/// Each call executes at most once over every schedule whose words are those of a `StepDraw`, one after the other: under the
/// premises of `worlds_are_moves` but that words aren't 0 and differ, in whose place it is that the place where the draw
/// stands in the end is below 2^64.
pub fn calls_execute_once_by_steps<V>()
    ensures schedule { (lock : Lock) (ring : List RingKey) (setting : Setting ℕ V) (given : ℕ) (events : List Event) → setting.step ≡ given_step
        → OpensWhatItSealed lock → KeepsSizes lock → IsSealed lock ring setting → IsSound ring setting → All IsOfBytes events
        → (run_of setting given events).draw < 2 ^ 64 → Once setting (run_of setting given events) }
    ensures any { (lock : Lock) (ring : List RingKey) (setting : Setting ℕ V) (given : ℕ) (events : List Event) → setting.step ≡ given_step
        → OpensWhatItSealed lock → KeepsSizes lock → IsSealed lock ring setting → IsSound ring setting → All IsOfBytes events
        → NoChance setting (begins setting given) events
        → (run_of_any setting given events).draw < 2 ^ 64 → Once setting (run_of_any setting given events) }
{
    step_words_keep_names_fresh::<V>();
    calls_execute_once::<StepDraw, V>();
}
