//! Laws of batches, each the contract of a function that does nothing.

ghost use Rattle.std.specs.Prelude.{◌≡◌, ℕ, List, Option, Some, true};
ghost use Rattle.auth_keys.specs.declared.ring.RingKey.{RingKey};
ghost use Rattle.client_core.specs.Keys.{HasKeys, Keys};
ghost use Rattle.client_core.specs.declared.holder.Holder.{Holder};
ghost use Rattle.client_node.specs.Course.{Course, Reading, is_decided};
ghost use Rattle.client_node.specs.Standing.{IsReading};
ghost use Rattle.client_node.specs.Talks.{Rules, rules_of};
ghost use Rattle.client_node.specs.Trace.{Attempt, ClientTrace, EndsBy, UndecidedIn};
ghost use Rattle.client_node.specs.declared.plan.Batch.{Batch};
ghost use Rattle.client_node.specs.declared.plan.Batch.TheVariants as batch;
ghost use Rattle.client_node.specs.declared.plan.Plan.{Plan};
ghost use Rattle.client_rules.specs.Client.{Client, calls_of};
ghost use Rattle.envelope.specs.Lock.{mt_lock};
ghost use Rattle.mt_edge.specs.declared.net_call.NetCall.{NetCall};
ghost use Rattle.statuses.specs.declared.status.Status.{Status};
ghost use Rattle.cmd_call.specs.Keys.{keys_for};
ghost use Rattle.cmd_call.specs.Owed.{HasCause};
ghost use Rattle.cmd_call.specs.Reading.{reading_under};
ghost use Rattle.cmd_call.specs.Table.{TellsBatch};

use draws::Draw;
use ring_rules::laws::packets_open_as_worked_out;

/// What a batch does under the lock of the protocol, whatever tells what packets open to, it does where that is worked out of a
/// ring.
pub fn batches_are_worked_out<D: Draw>()
    ensures { (ring : List RingKey) (plan : Plan) (course : Course D) (end : Batch) (calls calls_then : Option (List NetCall)) (given given_then : Option (List ℕ)) (kept : Holder) (drawn : D)
        → ((reading : Reading) → IsReading mt_lock ring reading → ClientTrace (rules_of D.step mt_lock ring reading) plan course end calls calls_then given given_then kept drawn)
        → ClientTrace (rules_of D.step mt_lock ring (reading_under ring)) plan course end calls calls_then given given_then kept drawn }
{
    packets_open_as_worked_out();
}

/// The keys that are found in a ring are keys of it.
pub fn found_keys_are_there()
    ensures { (ring : List RingKey) (key : ℕ) (perm : Option ℕ) (keys : Keys) → keys_for ring key perm ≡ Some keys → HasKeys ring keys }
{}

/// The status that tells how a batch ended has its cause in the attempts by which it ended, and comes there and nowhere else.
pub fn statuses_have_causes<D: Draw>()
    ensures { (rules : Rules D) (plan : Plan) (course : Course D) (end : Batch) (attempts : List Attempt) → EndsBy rules plan course end attempts
        → (left : Client) (one : Status) (due : List ℕ) → UndecidedIn end left → (end ≡ batch.Decided → is_decided left ≡ true) → TellsBatch end (calls_of left) one due
        → HasCause rules plan course attempts left one }
{}
