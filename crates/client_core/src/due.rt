//! What is due at a client that sends nothing alone.

ghost use Rattle.std.specs.Prelude.{◌≡◌, ◌≢◌, ◌&&◌, ℕ, None, Some, false, is_some, fold, slice_get, IfSome, IsSome};
ghost use Rattle.std.specs.List.{list_any};
ghost use Rattle.auth_keys.specs.Rings.{entry_of};
ghost use Rattle.call_table.specs.declared.call.Group.TheVariants.{Dropping, Queued as QueuedGroup};
ghost use Rattle.call_table.specs.Kept.{state_in};
ghost use Rattle.call_table.specs.Table.{IsGiven, Queued, at, group_of};
ghost use Rattle.client_rules.specs.Client.{Client, at_moment, calls_of, is_open};
ghost use Rattle.client_rules.specs.Filling.{empty, fills, number_of, says_call};
ghost use Rattle.client_rules.specs.Flush.{has_any};
ghost use Rattle.client_core.specs.Asked.{needed_of};
ghost use Rattle.client_core.specs.Due.{CanSay, any_of, goes_at, has_some, is_due_beside, waits};
ghost use Rattle.client_core.specs.Flushed.{setting_of};
ghost use Rattle.client_core.specs.Kept.{Stands};

use crate::asking::sizes_of_bindings;
use crate::core_client::Core;
use crate::rebinding::need_of;
use crate::turns::Turn;
use call_table::laws::tables_tell;
use call_table::{CallNo, Group};
use draws::Draw;
use envelope::Seal;
use tl_codec::laws::sizes_of_spellings;

impl Core {
    /// Whether a queued call goes when its turn comes.
    fn goes_so(&self, call: CallNo) -> bool
        requires given { IsGiven call self.now.calls.rows }
        requires queued { state_in call self.now.calls.rows ≡ Some Queued }
        ensures { (client : Client) → Stands self.now client → result ≡ goes_at client call }
    {
        tables_tell();
        match self.turn(call) {
            Turn::Goes(_) => true,
            Turn::Waits | Turn::Never => false,
        }
    }

    /// Whether the queued call that has so many before it goes when its turn comes.
    fn goes_next(&self, k: usize) -> bool
        ensures { (client : Client) → Stands self.now client → result ≡ any_of (goes_at client) (slice_get (group_of QueuedGroup (calls_of client)) k) }
    {
        match self.calls.member(Group::Queued, k) {
            None => false,
            Some(call) => self.goes_so(call),
        }
    }

    /// Whether a queued call goes when its turn comes.
    #[tactic(auto, using(crate::proofs::SayLemmas::any_step, crate::proofs::SayLemmas::any_hit, crate::proofs::SayLemmas::any_end))]
    fn goes_any(&self) -> bool
        ensures { (client : Client) → Stands self.now client → result ≡ list_any (goes_at client) (group_of QueuedGroup (calls_of client)) }
    {
        for k in 0..self.calls.members(Group::Queued) {
            if self.goes_next(k) {
                return true;
            }
        }
        false
    }

    /// Whether the answer to a call is to be dropped.
    fn has_drops(&self) -> bool
        ensures some { (client : Client) → Stands self.now client → result ≡ has_some (group_of Dropping (calls_of client)) }
        ensures numbered { (client : Client) → Stands self.now client
            → IfSome (slice_get (group_of Dropping (calls_of client)) 0) (λ call. number_of (at call (calls_of client)) ≢ None) }
    {
        match self.calls.member(Group::Dropping, 0) {
            None => false,
            Some(call) => self.calls.living(call).is_some(),
        }
    }

    /// Whether something waits beside the calls and the binding.
    fn waits(&self) -> bool
        ensures { (client : Client) → Stands self.now client → result ≡ waits client }
    {
        self.calls.acks() > 0
            || self.waiting.told.is_some()
            || !self.waiting.resent.ids().is_empty()
            || self.waiting.states
            || self.waiting.ping.is_some()
            || self.waiting.salts.is_some()
            || (self.waiting.destroyed.is_some() && self.is_open())
    }

    /// Whether a packet that isn't sent alone has a message.
    pub(crate) fn is_due_beside(&self) -> bool
        ensures { (client : Client) → Stands self.now client → result ≡ is_due_beside client }
    {
        self.waits()
            || (need_of(&self.temporary).is_some() && self.is_open())
            || self.has_drops()
            || self.goes_any()
    }

    /// Each of what waits fits into a packet. Does nothing.
    fn can_say(&self)
        ensures { (client : Client) → Stands self.now client → CanSay client }
    {
        let _ = self.calls.acks();
        let _ = self.has_drops();
    }

    /// A packet has a message exactly where something is due. Does nothing.
    pub(crate) fn due_tells<S: Seal, D: Draw>(&self, seal: &S)
        requires perm { IfSome self.now.rest.temporary (λ temporary. IsSome (entry_of temporary.perm (S.keys seal.now))) }
        ensures due { (client : Client) (now : ℕ) (draw : D) → Stands self.now client
            → has_any (fills (setting_of D.step (S.keys seal.now)) (at_moment now client) draw).messages ≡ is_due_beside client }
        ensures quiet { (client : Client) (now : ℕ) (draw : D) → Stands self.now client → is_due_beside client ≡ false
            → fills (setting_of D.step (S.keys seal.now)) (at_moment now client) draw ≡ fold says_call (empty (at_moment now client) draw) (group_of QueuedGroup (calls_of client)) }
        ensures none { (client : Client) (now : ℕ) → Stands self.now client → is_due_beside client ≡ false
            → list_any (goes_at (at_moment now client)) (group_of QueuedGroup (calls_of client)) ≡ false }
    {
        let _ = seal;
        sizes_of_spellings();
        sizes_of_bindings::<D>();
        self.can_say();
    }
}
