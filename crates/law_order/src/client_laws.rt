//! Laws of the order of calls, each the contract of a function that does nothing.

ghost use Rattle.std.specs.Prelude.{◌≡◌, List, Option, ℕ};
ghost use Rattle.envelope.specs.declared.parts.Envelope.{Envelope};
ghost use Rattle.call_table.specs.Table.{Call};
ghost use Rattle.client_rules.specs.Client.{Client, Temporary, calls_of};
ghost use Rattle.client_rules.specs.Events.{Event, Run, made, run_of, step};
ghost use Rattle.client_rules.specs.Flush.{flush};
ghost use Rattle.client_rules.specs.Sending.{Setting};
ghost use Rattle.law_order.specs.Behind.{KeepsTurn, Last};
ghost use Rattle.law_order.specs.Going.{IsAnswerFrom, IsPacketFrom, IsReady};

use draws::Draw;

/// After every list of events, each message that a call with an earlier call ever went as went behind a message of that one
/// in the same session; or it went as it is, and the earlier call is done and its result begins with neither `rpc_error` nor
/// `rpc_answer_dropped_running`.
pub fn calls_go_in_order<D: Draw>()
    ensures made { (setting : Setting D) (key : ℕ) (temporary : Option Temporary) (draw : D) → KeepsTurn (made setting key temporary draw).client }
    ensures event { (setting : Setting D) (run : Run D) (event : Event) → KeepsTurn run.client → KeepsTurn (step setting run event).client }
    ensures all { (setting : Setting D) (key : ℕ) (temporary : Option Temporary) (draw : D) (events : List Event)
        → KeepsTurn (run_of setting (made setting key temporary draw) events).client }
{}

/// At each event of a client whose calls are in turn, it keeps its key, and each call stays in its place, with its body and its
/// earlier call; all that it ever went as stays, and a call that is done stays done with that result. So messages as which calls
/// went are such still.
pub fn calls_stay<D: Draw>()
    ensures key { (setting : Setting D) (run : Run D) (event : Event) → KeepsTurn run.client → (step setting run event).client.key ≡ run.client.key }
    ensures calls { (setting : Setting D) (run : Run D) (event : Event) → KeepsTurn run.client → Last (calls_of run.client) (calls_of (step setting run event).client) }
    ensures packets { (calls later : List Call) (envelope : Envelope) → Last calls later → IsPacketFrom calls envelope → IsPacketFrom later envelope }
{}

/// A flush of a client whose calls are in turn sends messages as which its calls went, each with the call's body, behind the
/// number of an earlier message where it went behind one; and other messages, which ask nothing of the service.
pub fn packets_have_calls_as_they_went<D: Draw>()
    ensures { (setting : Setting D) (now : ℕ) (client : Client) (draw : D) → KeepsTurn client → IsReady client
        → IsAnswerFrom (calls_of (flush setting now client draw).client) (flush setting now client draw).answer }
{}
