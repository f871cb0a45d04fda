//! Replies that are asked for by their own numbers (core.telegram.org/mtproto/service_messages_about_messages, "Explicit
//! Request to Re-Send Messages").

ghost use Rattle.std.specs.Prelude.{◌≡◌, ◌≤◌, ◌<◌, ◌+◌, ℕ, Bool, fold, is_some, length};
ghost use Rattle.std.specs.List.{list_all};
ghost use Rattle.outbox.specs.declared.kept.Kept.{Kept as Reply};
ghost use Rattle.outbox.specs.Replies.{by_number};
ghost use Rattle.server_output.specs.Items.{ids_max, states_bytes};
ghost use Rattle.server_rules.specs.Event.{Speaker};
ghost use Rattle.server_rules.specs.Rows.{kept_numbered, says_reply, sends_again};

use crate::session::SessionState;
use draws::Draw;
use msg_ids::Moment;
use server_output::OutgoingMessages;

impl SessionState {
    ghost use Rattle.server_session.specs.Says.{Keys, Says, setting_of};
    ghost use Rattle.server_session.specs.SessionState.{IsAt, key_of, number_of, numbers_left, outbox_of};
    ghost use Rattle.server_session.specs.Unsaid.{CallsFor, is_among, is_numbered, unsaid_bytes, unsaid_count};

    /// Says the kept reply of this number once more, unless it was said in this event, or none is kept.
    pub fn says_numbered<D: Draw>(&self, owing: &mut OutgoingMessages, number: u64)
        requires places { unsaid_count (is_numbered number) self.now owing.old ≤ owing.old.places }
        requires bytes { unsaid_bytes (is_numbered number) self.now owing.old ≤ owing.old.room }
        ensures says { (now : ℕ) (draw : D) (speaker : Speaker D) → Says now self.now owing.old draw speaker
            → Says now self.now owing.new draw (says_reply (kept_numbered speaker.session.replies number) speaker) }
        ensures places { (called : Reply → Bool) → CallsFor (is_numbered number) called → owing.old.places + unsaid_count called self.now owing.new ≤ owing.new.places + unsaid_count called self.now owing.old }
        ensures left { (called : Reply → Bool) → CallsFor (is_numbered number) called → owing.old.room + unsaid_bytes called self.now owing.new ≤ owing.new.room + unsaid_bytes called self.now owing.old }
        ensures taken { (owing.new.places_taken ≡ owing.old.places_taken) × (owing.new.bytes_taken ≡ owing.old.bytes_taken) }
    {
        if let Some(kept) = self.outbox.by_number(number) {
            self.says_again::<D>(owing, kept);
        }
    }

    // Whether it keeps a reply of each of these numbers.
    fn keeps_all(&self, ids: &[u64]) -> bool
        ensures { result ≡ list_all (λ number. is_some (by_number number self.now.outbox.replies)) ids.now }
    {
        ids.iter().all(|id| self.outbox.by_number(*id).is_some())
    }

    // Says the kept replies of these numbers once more, each unless it was said in this event.
    fn says_all_numbered<D: Draw>(&self, owing: &mut OutgoingMessages, ids: &[u64])
        requires places { unsaid_count (is_among ids.now) self.now owing.old ≤ owing.old.places }
        requires bytes { unsaid_bytes (is_among ids.now) self.now owing.old ≤ owing.old.room }
        ensures says { (now : ℕ) (draw : D) (speaker : Speaker D) → Says now self.now owing.old draw speaker
            → Says now self.now owing.new draw (fold (λ so_far number. says_reply (kept_numbered so_far.session.replies number) so_far) speaker ids.now) }
        ensures places { (called : Reply → Bool) → CallsFor (is_among ids.now) called → owing.old.places + unsaid_count called self.now owing.new ≤ owing.new.places + unsaid_count called self.now owing.old }
        ensures left { (called : Reply → Bool) → CallsFor (is_among ids.now) called → owing.old.room + unsaid_bytes called self.now owing.new ≤ owing.new.room + unsaid_bytes called self.now owing.old }
        ensures taken { (owing.new.places_taken ≡ owing.old.places_taken) × (owing.new.bytes_taken ≡ owing.old.bytes_taken) }
    {
        for place in 0..ids.len() {
            self.says_numbered::<D>(owing, ids[place]);
        }
    }

    /// Answers a request for the replies of these numbers: where it keeps all of them it says them once more, each unless
    /// it was said in this event, and else it tells how far these messages are.
    pub fn sends_again<D: Draw>(
        &mut self,
        now: Moment,
        owing: &mut OutgoingMessages,
        request: u64,
        ids: &[u64],
    )
        requires few { length ids.now ≤ ids_max }
        requires place { 0 < owing.old.places }
        requires bytes { states_bytes (length ids.now) ≤ owing.old.room }
        requires replies_places { unsaid_count (is_among ids.now) self.old owing.old ≤ owing.old.places }
        requires replies_bytes { unsaid_bytes (is_among ids.now) self.old owing.old ≤ owing.old.room }
        requires numbers { 0 < numbers_left self.old }
        ensures says { (keys : Keys) (draw : D) (speaker : Speaker D) → Says now self.old owing.old draw speaker
            → Says now self.new owing.new draw (sends_again (setting_of now D.step keys) request ids.now speaker) }
        ensures places { (called : Reply → Bool) → CallsFor (is_among ids.now) called → owing.old.places + unsaid_count called self.new owing.new ≤ owing.new.places + 1 + unsaid_count called self.old owing.old }
        ensures left { (called : Reply → Bool) → CallsFor (is_among ids.now) called → owing.old.room + unsaid_bytes called self.new owing.new ≤ owing.new.room + states_bytes (length ids.now) + unsaid_bytes called self.old owing.old }
        ensures taken { (owing.new.places_taken ≡ owing.old.places_taken) × (owing.new.bytes_taken ≡ owing.old.bytes_taken) }
        ensures numbers_last { numbers_left self.old ≤ numbers_left self.new + 1 }
        ensures same_replies { outbox_of self.new ≡ outbox_of self.old }
        ensures same_key { key_of self.new ≡ key_of self.old }
        ensures same_number { number_of self.new ≡ number_of self.old }
        ensures at { IsAt now self.old → IsAt now self.new }
    {
        if self.keeps_all(ids) {
            self.says_all_numbered::<D>(owing, ids);
        } else {
            self.tells_states::<D>(now, owing, request, ids);
        }
    }
}
