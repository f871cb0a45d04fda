//! Facts of the definitions that the contracts stand on, each the contract of a function that does nothing.

ghost use Rattle.std.specs.Prelude.{◌≡◌, ◌≤◌, ℕ, Bool, List, drop};
ghost use Rattle.msg_ids.specs.Counters.{room};
ghost use Rattle.service_tl.specs.declared.item.Item.TheVariants.{RpcResult};
ghost use Rattle.service_tl.specs.Items.{spelling_of};
ghost use Rattle.outbox.specs.declared.kept.Kept.{Kept};
ghost use Rattle.outbox.specs.Bodies.{head_bytes};
ghost use Rattle.server_rules.specs.Event.{Speaker};
ghost use Rattle.server_rules.specs.Server.{Session, name_of};
ghost use Rattle.server_rules.specs.Speaking.{has_said};
ghost use Rattle.server_rules.specs.Sending.{messages_by};
ghost use Rattle.server_output.specs.Dues.{Dues, has_number};
ghost use Rattle.server_session.specs.declared.calling.Called.{Called};
ghost use Rattle.server_session.specs.declared.session.SessionState.{SessionState};
ghost use Rattle.server_session.specs.SessionState.{IsAt, Stands, numbers_left};
ghost use Rattle.server_session.specs.Names.{name_kept};
ghost use Rattle.server_session.specs.Unsaid.{CallsFor, IsCalled, unsaid_bytes, unsaid_count};

use draws::Draw;

/// What is kept of a session stands for it at each later moment too, under its name and with as much room for numbers.
pub fn sessions_stand_later()
    ensures later { (now later : ℕ) (standing : SessionState) (session : Session) → now ≤ later → Stands now standing session → Stands later standing session }
    ensures at { (now later : ℕ) (standing : SessionState) → now ≤ later → IsAt now standing → IsAt later standing }
    ensures name { (now : ℕ) (standing : SessionState) (session : Session) → Stands now standing session → name_kept standing ≡ name_of session }
    ensures room { (now : ℕ) (standing : SessionState) (session : Session) → Stands now standing session → numbers_left standing ≡ room session.counters }
{}

/// Where fewer kept replies are called for, what was enough is; and what of them wasn't said is no more than they are.
pub fn called_replies_are_few()
    ensures fewer { (called more : Kept → Bool) (standing : SessionState) (most : Called) → CallsFor called more → IsCalled more standing most → IsCalled called standing most }
    ensures unsaid { (called : Kept → Bool) (standing : SessionState) (owing : Dues) (most : Called) → IsCalled called standing most
        → (unsaid_count called standing owing ≤ most.count) × (unsaid_bytes called standing owing ≤ most.bytes) }
    ensures less { (called more : Kept → Bool) (standing : SessionState) (owing : Dues) → CallsFor called more
        → (unsaid_count called standing owing ≤ unsaid_count more standing owing) × (unsaid_bytes called standing owing ≤ unsaid_bytes more standing owing) }
{}

// What a session has said in an event is told by the numbers of its own messages.
pub(crate) fn said_by_number<D: Draw>()
    ensures { (number : ℕ) (speaker : Speaker D) → has_said number speaker ≡ has_number number (messages_by (name_of speaker.session) speaker.owed) }
{}

// The content of a reply stands behind the head of its body.
pub(crate) fn replies_are_results()
    ensures { (call : ℕ) (content : List ℕ) → drop head_bytes (spelling_of (RpcResult call content)) ≡ content }
{}
