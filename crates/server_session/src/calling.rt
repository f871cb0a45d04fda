//! What a packet may call for of the replies that a session keeps: each by its call where that comes again
//! (core.telegram.org/mtproto/service_messages, "Response to an RPC query"), or by its own number where that is asked for
//! (core.telegram.org/mtproto/service_messages_about_messages, "Explicit Request to Re-Send Messages").

ghost use Rattle.std.specs.Prelude.{◌≡◌, ◌≤◌, ◌||◌, Bool, false, true};
ghost use Rattle.std.specs.List.{find};
ghost use Rattle.std.specs.Option.{option_copied};
ghost use Rattle.outbox.specs.declared.kept.Kept.{Kept as Reply};
ghost use Rattle.outbox.specs.Replies.{AreApart};

use crate::session::SessionState;
use outbox::Kept;

/// Kept replies that a packet may call for: at most so many, whose bodies have at most so many bytes together.
#[derive(Clone, Copy, Debug, PartialEq, Eq)]
pub struct Called {
    /// How many replies.
    pub count: usize,
    /// The bytes of their bodies.
    pub bytes: usize,
}

impl SessionState {
    ghost use Rattle.server_session.specs.Unsaid.{IsCalled, PassesOnce, is_among, is_numbered, is_to};

    /// No reply is called for.
    pub fn calls_for_none(&self) -> Called
        ensures { IsCalled (λ kept. false) self.now result }
    {
        Called { count: 0, bytes: 0 }
    }

    /// Beside these the reply to this call is called for. It costs no more than to look for it.
    pub fn calls_for(&self, called: Called, call: u64) -> Called
        ensures { (which : Reply → Bool) → IsCalled which self.now called → IsCalled (λ kept. is_to call kept || which kept) self.now result }
    {
        self.with_one(called, self.outbox.by_call(call))
    }

    /// Beside these the replies of these numbers are called for. It costs no more than to look for each.
    pub fn calls_for_numbers(&self, called: Called, ids: &[u64]) -> Called
        ensures { (which : Reply → Bool) → IsCalled which self.now called → IsCalled (λ kept. is_among ids.now kept || which kept) self.now result }
    {
        let mut called = called;
        for place in 0..ids.len() {
            called = self.with_one(called, self.outbox.by_number(ids[place]));
        }
        called
    }

    // Beside these the reply that was found is called for. Where others may be found so too, all are.
    fn with_one(&self, called: Called, found: Option<&Kept>) -> Called
        ensures { (which test : Reply → Bool) → find test self.now.outbox.replies ≡ option_copied found.entry
            → (AreApart self.now.outbox.replies → PassesOnce test self.now.outbox.replies)
            → IsCalled which self.now called → IsCalled (λ kept. test kept || which kept) self.now result }
    {
        let count = self.outbox.len();
        let bytes = self.outbox.bytes();
        if !self.outbox.is_in_order() {
            return Called { count, bytes };
        }
        match found {
            Some(kept) => Called {
                count: count.min(called.count.saturating_add(1)),
                bytes: bytes.min(called.bytes.saturating_add(kept.body.len())),
            },
            None => called,
        }
    }
}
