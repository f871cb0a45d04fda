//! Laws of a server's events and moves, each the contract of a function that does nothing.

ghost use Rattle.std.specs.Prelude.{◌≡◌, ◌≤◌, length, ℕ, true, List, None, Some};
ghost use Rattle.std.specs.List.{All, Contains};
ghost use Rattle.service_tl.specs.declared.lists.Message.{Message as Said};
ghost use Rattle.waits.specs.Jobs.{Queue};
ghost use Rattle.server_rules.specs.Server.{Name, Session};
ghost use Rattle.server_rules.specs.Event.{Envelope};
ghost use Rattle.law_moves.specs.Table.{Message};
ghost use Rattle.law_moves.specs.World.{World};
ghost use Rattle.law_moves.specs.Move.{Move};
ghost use Rattle.law_moves.specs.Extends.{IsOfClient};
ghost use Rattle.law_moves.specs.Reached.{AreLawful, Reached, after_all};
ghost use Rattle.law_server_moves.specs.Leading.{Leads};
ghost use Rattle.law_server_bounds.specs.Small.{AreSmall, DrawsWords, GivesReplies, IsSmallEnvelope};
ghost use Rattle.law_server_moves.specs.Sending.{WentOut};
ghost use Rattle.law_server.specs.Order.{AreOrdered};
ghost use Rattle.law_server_moves.specs.Servers.{IsPacketUp, Past, ServerStands};
ghost use Rattle.server_rules.specs.Events.{Attach, Loss, Packet as Comes, Restart, Tick, Work};
ghost use Rattle.world_rules.specs.World as rules;
ghost use Rattle.world_rules.specs.Setting as settings;
ghost use Rattle.world_rules.specs.Setting.{at_server};
ghost use Rattle.world_rules.specs.Setting.{as_heard};
ghost use Rattle.world_rules.specs.Ends.{serves};
ghost use Rattle.world_rules.specs.Premises.{Fresh};
ghost use Rattle.law_server_moves.specs.Worlds.{HasServed, StandsIn};
ghost use Rattle.tl_codec.specs.Standard.{bytes_max};
ghost use Rattle.envelope.specs.declared.parts.Envelope.{Envelope as Sealed};
ghost use Rattle.envelope.specs.Packet.{IsEnvelope};
ghost use Rattle.law_client.specs.Sent.{IsPacketSent};
ghost use Rattle.law_client.specs.Packets.{packet_items};
ghost use Rattle.containers.specs.Container.{IsContainer, begins_container};

use draws::Draw;
use id_window::laws::others_are_not_above_the_floor;
use law_moves::laws::{
    moves_go_on, moves_leave, moves_only_add, names_are_apart, numbers_are_given_once,
    what_was_not_made_is_blank,
};
use law_server::laws::{floors_never_fall, marks_are_of_replies};

/// A server stands still while a client moves.
pub fn servers_stand_still()
    ensures { (w : World) (client : ℕ) (list : List Move) (past : Past) (sessions : List Session) (jobs : Queue) → AreLawful w list
        → All (IsOfClient client) list → ServerStands w past sessions jobs → ServerStands (after_all w list) past sessions jobs }
{
    moves_leave();
    moves_only_add();
}

/// What the server of a world does in an event is a list of lawful moves, after which the server behind the event stands
/// there, with all that was lost and entered by then, and each packet that it made went out there: a run, a tick, a
/// connection that is opened, a loss, a restart, and a packet that doesn't open, which is no move. The server is in order, and
/// the words drawn for session numbers, unique numbers and salts differ. The numbers of its sessions and jobs fit their places,
/// and so do words that are drawn and replies of the service.
pub fn events_of_worlds_are_moves<D: Draw, V>()
    ensures work { (w : World) (setting : settings.Setting D V) (world : rules.World D V) (moment place : ℕ) → Reached w → StandsIn w world
        → AreOrdered world.server.sessions world.server.jobs → DrawsWords (at_server setting) → GivesReplies setting.serve
        → AreSmall world.server.sessions world.server.jobs → Fresh (serves setting (Work moment place) world)
        → Leads w (λ later. HasServed later world (serves setting (Work moment place) world)) }
    ensures tick { (w : World) (setting : settings.Setting D V) (world : rules.World D V) (moment : ℕ) → Reached w → StandsIn w world
        → AreOrdered world.server.sessions world.server.jobs → DrawsWords (at_server setting)
        → AreSmall world.server.sessions world.server.jobs → Fresh (serves setting (Tick moment) world)
        → Leads w (λ later. HasServed later world (serves setting (Tick moment) world)) }
    ensures attach { (w : World) (setting : settings.Setting D V) (world : rules.World D V) (moment : ℕ) (name : Name) → Reached w → StandsIn w world
        → AreOrdered world.server.sessions world.server.jobs → DrawsWords (at_server setting)
        → AreSmall world.server.sessions world.server.jobs → Fresh (serves setting (Attach moment name) world)
        → Leads w (λ later. HasServed later world (serves setting (Attach moment name) world)) }
    ensures loss { (w : World) (setting : settings.Setting D V) (world : rules.World D V) (name : Name) → StandsIn w world
        → Leads w (λ later. HasServed later world (serves setting (Loss name) world)) }
    ensures restart { (w : World) (setting : settings.Setting D V) (world : rules.World D V) → Reached w → StandsIn w world
        → Leads w (λ later. HasServed later world (serves setting Restart world)) }
    ensures unopened { (w : World) (setting : settings.Setting D V) (world : rules.World D V) (moment : ℕ) → StandsIn w world
        → HasServed w world (serves setting (Comes moment None) world) }
{
    moves_only_add();
    moves_go_on();
    numbers_are_given_once();
    what_was_not_made_is_blank();
    packing::laws::packets_have_all_messages();
    law_server_bounds::sizes::what_is_owed_is_small::<D>();
    law_server_bounds::sizes::packets_are_whole::<D, V>();
    law_server::laws::sessions_speak_for_themselves::<D>();
    law_server::laws::new_sessions_say_so::<D>();
}

/// So is a packet that opens, where what a server may judge of it was sent there, and each session under its session number
/// has its key; the packet's numbers fit their places too.
pub fn packets_of_worlds_are_moves<D: Draw, V>()
    ensures { (w : World) (setting : settings.Setting D V) (world : rules.World D V) (moment : ℕ) (envelope : Envelope) → Reached w → StandsIn w world
        → AreOrdered world.server.sessions world.server.jobs → DrawsWords (at_server setting) → IsSmallEnvelope envelope
        → AreSmall world.server.sessions world.server.jobs → Fresh (serves setting (Comes moment (Some envelope)) world) → IsPacketUp w.ups envelope
        → ((other : Session) → Contains world.server.sessions other → other.number ≡ envelope.session → other.key ≡ envelope.key)
        → Leads w (λ later. HasServed later world (serves setting (Comes moment (Some envelope)) world)) }
{
    moves_only_add();
    moves_go_on();
    floors_never_fall();
    marks_are_of_replies();
    others_are_not_above_the_floor();
    law_server::laws::sessions_speak::<D>();
    law_server::laws::sessions_speak_for_themselves::<D>();
    law_server::laws::packets_settle_in_order::<D>();
    law_server::laws::packets_are_judged();
    law_server::laws::messages_are_owed_by_name::<D>();
    numbers_are_given_once();
    names_are_apart();
    what_was_not_made_is_blank();
    packing::laws::packets_have_all_messages();
    law_server_bounds::sizes::what_is_owed_is_small::<D>();
    law_server_bounds::sizes::packets_are_whole::<D, V>();
    law_server::laws::new_sessions_say_so::<D>();
    law_server::lives::new_sessions_owe_little::<D>();
}

/// What a server may judge of a packet that a client sent was sent there: the body of each message in it asks what the server
/// takes it for. The packet could be sealed, and its body isn't longer than the longest string.
pub fn packets_sent_are_up()
    ensures { (ups : List Message) (sealed : Sealed) → IsEnvelope sealed → length sealed.body ≤ bytes_max → IsPacketSent ups sealed → IsPacketUp ups (as_heard sealed) }
{
    octets::laws::bytes_stay_bytes();
    octets::laws::parts_are_bytes();
    tl_codec::laws::exact_reading();
    tl_codec::laws::written_again();
    service_tl::laws::items_exact();
    containers::laws::parts_are_exact();
    containers::laws::packed_is_unfolded();
}

/// A packet that went out is one of the law's with the items that a client reads in it. Its body isn't longer than the
/// longest string, and where it begins as a container it is a lawful one.
pub fn packets_are_read_as_they_went_out()
    ensures { (w : World) (sealed : Sealed) → length sealed.body ≤ bytes_max
        → (begins_container sealed.body ≡ true → (parts : List Said) × IsContainer sealed.number parts sealed.body)
        → (went : WentOut w (as_heard sealed)) → Contains w.downs (record { server = went.unique; items = packet_items sealed }) }
{
    octets::laws::bytes_stay_bytes();
    octets::laws::parts_are_bytes();
    tl_codec::laws::exact_reading();
    tl_codec::laws::written_again();
    service_tl::laws::items_exact();
    containers::laws::parts_are_exact();
    containers::laws::packed_is_unfolded();
    containers::laws::containers_are_items();
}
