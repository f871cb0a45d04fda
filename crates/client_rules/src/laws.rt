//! Laws of what a client does, each the contract of a function that does nothing. They show by events what the definitions
//! give.

ghost use Rattle.std.specs.Prelude.{◌≡◌, ◌+◌, ◌-◌, ◌*◌, ◌^◌, ◌==◌, ℕ, List, ◌∷◌, [], Option, Some, None, length, map, replicate, true, false};
ghost use Rattle.draws.specs.Steps.{step_word};
ghost use Rattle.containers.specs.Container.{container_of};
ghost use Rattle.service_tl.specs.declared.item.Item.TheVariants.{DestroySession, RpcResult, MsgsAck, MsgsStateReq, RpcDropAnswer};
ghost use Rattle.service_tl.specs.Items.{spelling_of};
ghost use Rattle.call_table.specs.Table.{Queued, Sent, Held, Done, Refused, Unknown, call_no, inner_of, owner};
ghost use Rattle.call_table.specs.declared.call.CallNo.{CallNo};
ghost use Rattle.call_table.specs.declared.call.Cause.TheVariants as cause;
ghost use Rattle.std.specs.List.{list_any};
ghost use Rattle.call_table.specs.declared.call.Fate.TheVariants as fate;
ghost use Rattle.client_rules.specs.Client.{Client, calls_of};
ghost use Rattle.client_rules.specs.Learning.{learn};
ghost use Rattle.client_rules.specs.Taking.{Notice, becomes, has_asked, noticed, row};
ghost use Rattle.client_rules.specs.Client as client;
ghost use Rattle.client_rules.specs.Asking.{submit_fault, TooLong, NotWords, ServiceTag, NoSuchCall};
ghost use Rattle.client_rules.specs.Flush.{Nothing, Spent};
ghost use Rattle.client_rules.specs.Events.{Flush, Tick};
ghost use Rattle.client_rules.specs.Witness as shown;

/// A fresh client's first call goes alone under salt 0, with number 4 and seq 1; then nothing is due. A call that is to
/// execute after one that goes in the same packet names that one's number.
pub fn first_packets()
    ensures first { shown.sends shown.submitted ≡ Some (shown.up 0 4 1 (shown.add_x 5)) }
    ensures second { (shown.flushes shown.first_flush).answer ≡ Nothing }
    ensures nothing { (shown.flushes shown.fresh).answer ≡ Nothing }
    ensures both { shown.sends shown.two_calls ≡ Some (shown.up 0 12 4 (container_of shown.two_messages)) }
{}

/// Bodies that are no calls, and a packed body, which is one.
pub fn submissions()
    ensures long { (body : List ℕ) (after : Option CallNo) (client : Client) → length body ≡ 262148
        → submit_fault body after client ≡ Some (TooLong 262148) }
    ensures short { submit_fault (1 ∷ 2 ∷ []) None shown.fresh.client ≡ Some (NotWords 2) }
    ensures service { submit_fault (89 ∷ 180 ∷ 214 ∷ 98 ∷ []) None shown.fresh.client ≡ Some (ServiceTag 0x62d6b459) }
    ensures after { submit_fault (shown.add_x 1) (Some (call_no 0)) shown.fresh.client ≡ Some NoSuchCall }
    ensures packed { submit_fault (161 ∷ 207 ∷ 114 ∷ 48 ∷ []) None shown.fresh.client ≡ None }
{}

/// After the answer to its first packet a client sends an acknowledgement and its call again, under a new number and the
/// salt that it learnt. A result for this number is the call's, and one for its former number is none.
pub fn first_answers()
    ensures queued { shown.states shown.answered ≡ Queued ∷ [] }
    ensures next { shown.sends shown.answered ≡ Some (shown.up 5 16 4 (container_of shown.acknowledged)) }
    ensures done { shown.states (shown.then_does shown.sent_again (shown.result 12 ∷ [])) ≡ Done (shown.add_x 7) ∷ [] }
    ensures foreign { shown.states (shown.then_does shown.sent_again (shown.result 4 ∷ [])) ≡ Sent ∷ [] }
    ensures states { shown.sends (shown.then_does shown.sent_again (Tick ∷ [])) ≡ Some (shown.up 5 20 4 (spelling_of (MsgsStateReq (12 ∷ [])))) }
{}

/// In another session it isn't known what became of a call that was sent; one that was held and one that was queued go in
/// the first packet, under salt 0. At the end they never execute.
pub fn renewals_and_ends()
    ensures before { shown.states shown.three_calls ≡ Sent ∷ Held ∷ Queued ∷ [] }
    ensures renewed { shown.states shown.renewed ≡ Unknown cause.Renewed ∷ Queued ∷ Queued ∷ [] }
    ensures session { shown.renewed.client.session ≡ step_word (shown.three_calls.draw + 1) }
    ensures packet { shown.sends shown.renewed ≡ Some (record (shown.up 0 12 4 (container_of shown.two_queued)) { session = shown.renewed.client.session }) }
    ensures ended { shown.states shown.ended ≡ Unknown cause.Ended ∷ Refused 0 ∷ Refused 0 ∷ [] }
{}

/// A client learns 1,024 unique numbers in a session, and the next one ends it.
pub fn unique_numbers()
    ensures stays { (shown.told_of_new (shown.with_learnt 1023 shown.first_flush)).client.has_ended ≡ false }
    ensures ends { (shown.told_of_new (shown.with_learnt 1024 shown.first_flush)).client.has_ended ≡ true }
    ensures ended { shown.states (shown.told_of_new (shown.with_learnt 1024 shown.first_flush)) ≡ Unknown cause.Ended ∷ [] }
{}

/// Under a temporary key an open client asks for the binding before any call, and what is told of that number decides it.
pub fn bindings()
    ensures waits { shown.states shown.temporary ≡ Queued ∷ [] }
    ensures bound { shown.binding_in (shown.bound_by shown.told_true) ≡ Some client.Bound }
    ensures refused { shown.binding_in (shown.bound_by shown.told_error) ≡ Some (client.Refused 400) }
    ensures held { shown.binding_in (shown.bound_by (shown.told_code 17)) ≡ Some client.Held }
    ensures forgotten { shown.binding_in (shown.bound_by (shown.told_code 20)) ≡ Some client.Needed }
    ensures salted { shown.binding_in (shown.bound_by (shown.told_code 48)) ≡ Some client.Needed }
    ensures other { shown.binding_in (shown.bound_by (shown.told_code 35)) ≡ Some (client.Refused 35) }
    ensures goes { shown.states (shown.then_does (shown.bound_by shown.told_true) (Flush 0 ∷ [])) ≡ Sent ∷ [] }
    ensures never { shown.states (shown.then_does (shown.bound_by shown.told_error) (Flush 0 ∷ [])) ≡ Refused 0 ∷ [] }
{}

/// The calls of a container that is refused with the right salt go again, each alone under its own number and that salt.
pub fn refused_packets()
    ensures first { shown.sends shown.container_refused ≡ Some (shown.up 5 4 1 (shown.add_x 1)) }
    ensures second { shown.sends shown.first_again ≡ Some (shown.up 5 8 3 shown.second_body) }
    ensures nothing { (shown.flushes (shown.then_does shown.first_again (Flush 0 ∷ []))).answer ≡ Nothing }
{}

/// A call goes again under its number where a connection was opened, where the server asks for it, and where the server
/// hasn't it or has answered it, before anything else that waits.
pub fn calls_that_go_again()
    ensures attached { shown.sends shown.attached ≡ Some (shown.up 5 12 3 (shown.add_x 5)) }
    ensures asked { shown.sends shown.asked_again ≡ Some (shown.up 5 12 3 (shown.add_x 5)) }
    ensures missing { shown.sends (shown.told_byte 2) ≡ Some (shown.up 5 12 3 (shown.add_x 5)) }
    ensures answered { shown.sends (shown.told_byte 100) ≡ Some (shown.up 5 12 3 (shown.add_x 5)) }
    ensures running { (shown.flushes (shown.told_byte 36)).answer ≡ Nothing }
{}

/// Where the server has lost its session, it isn't known what became of a call that was sent in it. A call that went under
/// the salt of the first unique number stays sent.
pub fn later_sessions()
    ensures lost { shown.states shown.server_lost ≡ Unknown cause.Session ∷ [] }
    ensures salt { shown.server_lost.client.salt ≡ 6 }
    ensures stays { shown.states shown.salted_before ≡ Sent ∷ [] }
    ensures destroyed { shown.sends shown.open_again ≡ Some (record (shown.up 6 20 6 (container_of shown.destroying)) { session = shown.renewed.client.session }) }
{}

/// A wish to drop an answer is sent; nothing goes, and nothing changes, where numbers may run out; and of a packet that
/// isn't for the client's session, or has an even number, only the moment counts.
pub fn other_events()
    ensures dropped { shown.sends shown.dropped ≡ Some (shown.up 5 20 5 (spelling_of (RpcDropAnswer 12))) }
    ensures spent { (shown.flushes (shown.nearly_spent 2047)).answer ≡ Spent }
    ensures unchanged { (shown.flushes (shown.nearly_spent 2047)).client ≡ (shown.nearly_spent 2047).client }
    ensures enough { shown.sends (shown.nearly_spent 2048) ≡ Some (shown.up 0 4 (2 * (2 ^ 30 - 2048) + 1) (shown.add_x 5)) }
    ensures foreign { (shown.not_looked_at (record shown.opening { session = 3 })).client ≡ record shown.first_flush.client { now = 50 } }
    ensures even { (shown.not_looked_at (record shown.opening { number = 8 })).client ≡ record shown.first_flush.client { now = 50 } }
{}

/// A result for the number of an outstanding call is that call's. What is told of a number that is neither outstanding nor
/// remembered, nor the binding's, changes nothing, and a unique number that is learnt already neither.
pub fn numbers_decide()
    ensures result { (outer number about : ℕ) (content : List ℕ) (client : Client) (call : CallNo) → owner about (calls_of client) ≡ Some call
        → row outer number (RpcResult about content) client ≡ becomes call (fate.Done content) client }
    ensures no_result { (outer number about : ℕ) (content : List ℕ) (client : Client) → owner about (calls_of client) ≡ None → has_asked about client.temporary ≡ false
        → row outer number (RpcResult about content) client ≡ client }
    ensures no_notice { (outer : ℕ) (notice : Notice) (client : Client) → owner notice.about (calls_of client) ≡ None → has_asked notice.about client.temporary ≡ false
        → inner_of notice.about client.table.packets ≡ None → noticed outer notice client ≡ client }
    ensures learnt { (outer unique salt : ℕ) (client : Client) → list_any (λ learnt. learnt == unique) client.learnt ≡ true → learn outer unique salt client ≡ client }
{}
