//! Laws of how much a client keeps and where its salt comes from, each the contract of a function that does nothing.

ghost use Rattle.std.specs.Prelude.{◌≡◌, ◌<◌, ◌≤◌, ◌+◌, ◌*◌, ℕ, List, Option, false, length, true};
ghost use Rattle.client_rules.specs.Client.{Client, Temporary, calls_of, is_open};
ghost use Rattle.client_rules.specs.Events.{Event, made, run_of};
ghost use Rattle.client_rules.specs.Flush.{Sends, flush};
ghost use Rattle.client_rules.specs.Sending.{Packet, Setting};
ghost use Rattle.law_client.specs.Bounds.{IsBounded};
ghost use Rattle.law_client.specs.Due.{due_of};
ghost use Rattle.law_client.specs.Salts.{IsOpenSalt, IsOpeningSalt};

use draws::Draw;

/// After every list of events a client has learnt at most 1,024 unique numbers of its session, and remembers at most 64 packets.
pub fn clients_are_bounded<D: Draw>()
    ensures { (setting : Setting D) (key : ℕ) (temporary : Option Temporary) (draw : D) (events : List Event)
        → IsBounded (run_of setting (made setting key temporary draw) events).client }
{}

/// After every list of events the salt of a client that has learnt no unique number of its session is 0, or came in this session
/// with the notice of a wrong salt about one of its own numbers.
pub fn opening_salts<D: Draw>()
    ensures { (setting : Setting D) (key : ℕ) (temporary : Option Temporary) (draw : D) (events : List Event)
        → is_open (run_of setting (made setting key temporary draw) events).client ≡ false
        → IsOpeningSalt setting (made setting key temporary draw) events (run_of setting (made setting key temporary draw) events).client.salt }
{}

/// After every list of events the salt of a client that has learnt one came in this session with a new session of the server, or
/// with such a notice.
pub fn open_salts<D: Draw>()
    ensures { (setting : Setting D) (key : ℕ) (temporary : Option Temporary) (draw : D) (events : List Event)
        → is_open (run_of setting (made setting key temporary draw) events).client ≡ true
        → IsOpenSalt setting (made setting key temporary draw) events (run_of setting (made setting key temporary draw) events).client.salt }
{}

/// A flush that sends a packet leaves less that waits to be sent, and no calls more or fewer. At most nine things wait beside three
/// for each call, so that after as many flushes nothing is due.
pub fn flushes_leave_less<D: Draw>()
    ensures less { (setting : Setting D) (now : ℕ) (client : Client) (draw : D) (packet : Packet) → (flush setting now client draw).answer ≡ Sends packet
        → due_of (flush setting now client draw).client < due_of client }
    ensures few { (client : Client) → due_of client ≤ 9 + 3 * length (calls_of client) }
{}
