//! Laws of events and moves, each the contract of a function that does nothing.

ghost use Rattle.std.specs.Prelude.{◌≡◌, ◌≢◌, ℕ, false, List, Option, None, Some};
ghost use Rattle.std.specs.List.{All, Contains};
ghost use Rattle.envelope.specs.declared.parts.Envelope.{Envelope};
ghost use Rattle.law_moves.specs.Table.{Packet};
ghost use Rattle.law_moves.specs.World.{World};
ghost use Rattle.law_moves.specs.Move.{Move};
ghost use Rattle.law_moves.specs.Move.Move.{Own};
ghost use Rattle.law_moves.specs.Extends.{IsOfClient};
ghost use Rattle.law_moves.specs.Move.OwnAct.{End, NewClient, Renew, Submit};
ghost use Rattle.law_moves.specs.After.{after};
ghost use Rattle.law_moves.specs.Lawful.{IsLawful, IsNewSession};
ghost use Rattle.law_moves.specs.Reached.{AreLawful, Reached, after_all};
ghost use Rattle.call_table.specs.declared.call.CallNo.{CallNo};
ghost use Rattle.client_rules.specs.Client.{Client, fresh_client, temporary_of};
ghost use Rattle.client_rules.specs.Asking.{attached, dropped, pinged, salts_asked, submit_fault, submitted, ticked};
ghost use Rattle.client_rules.specs.Learning.{ended};
ghost use Rattle.client_rules.specs.Events.{renewed, takes};
ghost use Rattle.client_rules.specs.Flush.{flush};
ghost use Rattle.client_rules.specs.Sending.{Setting};
ghost use Rattle.client_rules.specs.Taking.{is_for, take};
ghost use Rattle.law_client.specs.Clients.{IsNobody, StandsAs};
ghost use Rattle.law_client.specs.Leading.{IsOfServers, Leads};
ghost use Rattle.law_client.specs.Packets.{packet_items};
ghost use Rattle.law_client.specs.Sent.{IsAnswerSent};

use draws::Draw;
use law_moves::laws::{
    moves_go_on, moves_leave, moves_only_add, names_are_apart, numbers_are_given_once,
};

/// A client that is made joins by a lawful move, where nobody has its number and its session number is a new one.
pub fn clients_join()
    ensures lawful { (w : World) (number key session : ℕ) → IsNobody w number → IsNewSession w session → IsLawful w (Own (NewClient number session)) }
    ensures stands { (w : World) (number key session : ℕ) → Reached w → IsNobody w number → IsNewSession w session
        → StandsAs (after w (Own (NewClient number session))) number (fresh_client key None session) }
    ensures temporary { (w : World) (number key session perm expires : ℕ) → Reached w → IsNobody w number → IsNewSession w session
        → StandsAs (after w (Own (NewClient number session))) number (fresh_client key (Some (temporary_of perm expires)) session) }
{
    names_are_apart();
    numbers_are_given_once();
}

/// A call that isn't refused is submitted by a lawful move.
pub fn clients_submit()
    ensures lawful { (w : World) (number : ℕ) (client : Client) (body : List ℕ) → StandsAs w number client → IsLawful w (Own (Submit number body)) }
    ensures stands { (w : World) (number : ℕ) (client : Client) (body : List ℕ) (earlier : Option CallNo) → submit_fault body earlier client ≡ None
        → StandsAs w number client → StandsAs (after w (Own (Submit number body))) number (submitted body earlier client) }
{}

/// Wishes and attaches are no moves: the client stands as it stood.
pub fn wishes_are_no_moves()
    ensures attached { (w : World) (number : ℕ) (client : Client) → StandsAs w number client → StandsAs w number (attached client) }
    ensures ticked { (w : World) (number : ℕ) (client : Client) → StandsAs w number client → StandsAs w number (ticked client) }
    ensures pinged { (w : World) (number id : ℕ) (client : Client) → StandsAs w number client → StandsAs w number (pinged id client) }
    ensures salts_asked { (w : World) (number count : ℕ) (client : Client) → StandsAs w number client → StandsAs w number (salts_asked count client) }
    ensures dropped { (w : World) (number : ℕ) (call : CallNo) (client : Client) → StandsAs w number client → StandsAs w number (dropped call client) }
{}

/// A client renews its session by a lawful move, where the session number is a new one, and ends by one.
pub fn clients_renew_and_end()
    ensures renews { (w : World) (number session : ℕ) (client : Client) → StandsAs w number client → IsNewSession w session → IsLawful w (Own (Renew number session)) }
    ensures renewed { (w : World) (number session : ℕ) (client : Client) → Reached w → StandsAs w number client → IsNewSession w session
        → StandsAs (after w (Own (Renew number session))) number (renewed session client) }
    ensures ends { (w : World) (number : ℕ) (client : Client) → StandsAs w number client → IsLawful w (Own (End number)) }
    ensures ended { (w : World) (number : ℕ) (client : Client) → StandsAs w number client → StandsAs (after w (Own (End number))) number (ended client) }
{
    names_are_apart();
    numbers_are_given_once();
}

/// A flush is a list of lawful moves of the client, after which the client that flushed stands there, and each message of its
/// packet was sent: with the packet's session number and salt, its number, and the call that its body asks for, if any.
pub fn clients_flush<D: Draw>()
    ensures { (w : World) (setting : Setting D) (number now : ℕ) (client : Client) (draw : D) → Reached w → StandsAs w number client
        → Leads number w (λ later. StandsAs later number (flush setting now client draw).client
        × IsAnswerSent later.ups (flush setting now client draw).answer) }
{
    names_are_apart();
    numbers_are_given_once();
    moves_go_on();
    moves_only_add();
}

/// A packet that a client takes, and that is a packet of the law's world with the same items, made by a server session of the
/// client's present session number, is heard by one lawful move. One that isn't looked at or doesn't open is no move.
pub fn clients_hear()
    ensures heard { (w : World) (number now : ℕ) (client : Client) (envelope : Envelope) (packet : Packet) → Reached w → StandsAs w number client
        → Contains w.downs packet → (w.servers packet.server).session ≡ client.session → packet.items ≡ packet_items envelope
        → Leads number w (λ later. StandsAs later number (take now envelope client)) }
    ensures passed_over { (w : World) (number now : ℕ) (client : Client) (envelope : Envelope) → is_for client envelope ≡ false
        → StandsAs w number client → StandsAs w number (take now envelope client) }
    ensures unopened { (w : World) (number now : ℕ) (client : Client) → StandsAs w number client → StandsAs w number (takes now None client) }
{
    names_are_apart();
    numbers_are_given_once();
}

/// A client stands still while another client moves, and while server sessions do.
pub fn others_stand_still()
    ensures clients { (w : World) (mover number : ℕ) (moves : List Move) (client : Client) → Reached w → AreLawful w moves
        → All (IsOfClient mover) moves → number ≢ mover → StandsAs w number client → StandsAs (after_all w moves) number client }
    ensures servers { (w : World) (number : ℕ) (moves : List Move) (client : Client) → Reached w → AreLawful w moves
        → All IsOfServers moves → StandsAs w number client → StandsAs (after_all w moves) number client }
{
    names_are_apart();
    numbers_are_given_once();
    moves_go_on();
    moves_leave();
}
