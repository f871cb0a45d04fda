//! Laws of the numbers that a client gives, each the contract of a function that does nothing.

ghost use Rattle.std.specs.Prelude.{◌≡◌, IfSome, List, [], Option, ℕ};
ghost use Rattle.client_rules.specs.Client.{Client, Temporary, at_moment};
ghost use Rattle.client_rules.specs.Events.{Event, Run, made, step};
ghost use Rattle.client_rules.specs.Flush.{filled, flush};
ghost use Rattle.client_rules.specs.Sending.{Setting};
ghost use Rattle.service_tl.specs.declared.lists.Message.{Message};
ghost use Rattle.law_order.specs.Given.{Given, HasGiven, IsAnswerOf, IsAskedAmong, IsOnce, IsRenewal, given_after, given_in, nothing_given};

use draws::Draw;

/// A client gives no number to two messages under one session number: over every list of its events, those that have one
/// number under it are the same message, with the same sequence number and body, as where one goes again. A container counts
/// as a message of its own beside those in it.
pub fn numbers_are_given_once<D: Draw>()
    ensures made { (setting : Setting D) (key : ℕ) (temporary : Option Temporary) (draw : D)
        → IfSome temporary (λ temporary. IsAskedAmong [] temporary.binding) → HasGiven [] (made setting key temporary draw).client }
    ensures event { (setting : Setting D) (run : Run D) (event : Event) (given : Given) → HasGiven given.present run.client
        → HasGiven (given_after setting run event given).present (step setting run event).client }
    ensures session { (setting : Setting D) (run : Run D) (event : Event) (given : List Message) → (IsRenewal event → ⊥) → HasGiven given run.client
        → ((step setting run event).client.session ≡ run.client.session) × ((step setting run event).client.former ≡ run.client.former) }
    ensures packet { (setting : Setting D) (now : ℕ) (client : Client) (draw : D) (given : List Message) → HasGiven given client
        → IsAnswerOf client.session (filled setting (at_moment now client) draw).messages (flush setting now client draw).answer }
    ensures all { (setting : Setting D) (key : ℕ) (temporary : Option Temporary) (draw : D) (events : List Event)
        → IfSome temporary (λ temporary. IsAskedAmong [] temporary.binding)
        → IsOnce (given_in setting (made setting key temporary draw) events nothing_given) }
{}
