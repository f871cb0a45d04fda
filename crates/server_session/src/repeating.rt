//! A session says once more what it keeps (core.telegram.org/mtproto/service_messages, "Response to an RPC query").

ghost use Rattle.std.specs.Prelude.{◌≡◌, ◌≤◌, ◌+◌, ℕ, Bool, slice_get};
ghost use Rattle.std.specs.Option.{option_copied};
ghost use Rattle.outbox.specs.declared.kept.Kept.{Kept as Reply};
ghost use Rattle.outbox.specs.Replies.{kept_bytes_max, kept_replies_max};
ghost use Rattle.server_output.specs.Dues.{Dues};
ghost use Rattle.server_rules.specs.Event.{Speaker};
ghost use Rattle.server_rules.specs.Server.{Session, kept_replies};

use crate::session::SessionState;
use draws::Draw;
use outbox::Kept;
use server_output::OutgoingMessages;

impl SessionState {
    ghost use Rattle.server_session.specs.Repeats.{kept_bytes, kept_count, says_all_again};
    ghost use Rattle.server_session.specs.Says.{Says};
    ghost use Rattle.server_session.specs.SessionState.{Stands};
    ghost use Rattle.server_session.specs.Unsaid.{unsaid_bytes, unsaid_count};

    /// How many replies it keeps, at most 4,096.
    pub fn kept_count(&self) -> usize
        ensures value { result ≡ kept_count self.now }
        ensures unsaid { (called : Reply → Bool) (owing : Dues) → unsaid_count called self.now owing ≤ result }
        ensures few { result ≤ kept_replies_max }
    {
        self.outbox.len()
    }

    /// How many bytes the bodies of these have together, at most 4,194,304.
    pub fn kept_bytes(&self) -> usize
        ensures value { result ≡ kept_bytes self.now }
        ensures unsaid { (called : Reply → Bool) (owing : Dues) → unsaid_bytes called self.now owing ≤ result }
        ensures few { result ≤ kept_bytes_max }
    {
        self.outbox.bytes()
    }

    /// The kept reply at a place in order of making, from 0; none where there are no more.
    pub fn kept(&self, place: usize) -> Option<&Kept>
        ensures { (now : ℕ) (session : Session) → Stands now self.now session → option_copied result ≡ slice_get (kept_replies session.replies) place }
    {
        self.outbox.at(place)
    }

    /// Says all replies that it keeps once more, in order of making, each unless it was said in this event.
    pub fn says_all_again<D: Draw>(&self, owing: &mut OutgoingMessages)
        requires places { kept_count self.now ≤ owing.old.places }
        requires bytes { kept_bytes self.now ≤ owing.old.room }
        ensures says { (now : ℕ) (draw : D) (speaker : Speaker D) → Says now self.now owing.old draw speaker
            → Says now self.now owing.new draw (says_all_again speaker) }
        ensures places { owing.old.places ≤ owing.new.places + kept_count self.now }
        ensures left { owing.old.room ≤ owing.new.room + kept_bytes self.now }
        ensures taken { (owing.new.places_taken ≡ owing.old.places_taken) × (owing.new.bytes_taken ≡ owing.old.bytes_taken) }
    {
        for place in 0..self.outbox.len() {
            if let Some(kept) = self.outbox.at(place) {
                self.says_again::<D>(owing, kept);
            }
        }
    }
}
