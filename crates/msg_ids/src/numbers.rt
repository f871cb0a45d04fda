//! The numbers and seqs that one sender gives to its messages.

ghost use Rattle.std.specs.Prelude.{◌≡◌, ◌+◌, ◌<◌, ◌≤◌, IfNone, IfSome, IsSome, OnSome, Some, None, if◌then◌else◌};
ghost use Rattle.msg_ids.specs.Run.{IsFourfold, has_next};
ghost use Rattle.msg_ids.specs.Counters.{HasNext, IsSpent, none_given, next_number, seq_of, after_next, room};

use crate::moment::Moment;
use std::marker::Model;

/// The greatest number: the last multiple of 4 of 64 bits.
const NUMBER_MAX: u64 = u64::MAX - 3;

/// What a number is above the one before, at least.
const NUMBER_STEP: u64 = 4;

/// How many numbers a second has, the multiples of 4 and those between them.
const NUMBERS_A_SECOND: u64 = 1 << 32;

/// How many content-related messages a sender makes at most.
const CONTENT_MESSAGES_MAX: u32 = 1 << 30;

/// The numbers and seqs of one sender under one session number. Contracts see the last number, 0 before the first, and
/// how many content-related messages were made.
#[derive(Clone, Copy, Debug, PartialEq, Eq)]
pub struct Numbers {
    last: u64,
    content_messages: u32,
}

impl Model for Numbers {
    ghost use Rattle.std.specs.Prelude.{◌≤◌};
    ghost use Rattle.msg_ids.specs.Counters.{Counters, greatest_number, most_content_messages};
    ghost use Rattle.msg_ids.specs.Run.{IsFourfold};

    ghost Value = { Counters };

    ghost view = { λ numbers. record { last = numbers.last; content_messages = numbers.content_messages } };

    ghost invariant = { λ numbers. (numbers.last ≤ greatest_number) × (numbers.content_messages ≤ most_content_messages) × IsFourfold numbers.last };

    ghost inverse = { λ counters. record { last = counters.last; content_messages = counters.content_messages } };
}

impl Numbers {
    /// A sender that gave no number.
    pub fn new() -> Numbers
        ensures { result ≡ none_given }
    {
        Numbers {
            last: 0,
            content_messages: 0,
        }
    }

    /// The number and the seq of the next message, at this moment. `content` says whether it is content-related.
    ///
    /// `None` where the number would pass 2^64 - 4 or 2^30 content-related messages were made; then nothing changes.
    pub fn next(&mut self, at: Moment, content: bool) -> Option<(u64, u32)>
        ensures spent { IfNone result (IsSpent self.old at) }
        ensures has_next { OnSome result (HasNext self.old at) }
        ensures next { IfSome result (λ given. given ≡ (next_number self.old.last at, seq_of self.old.content_messages content)) }
        ensures counted { OnSome result (self.new ≡ after_next self.old at content) }
        ensures unchanged { IfNone result (self.new ≡ self.old) }
        ensures answer { result ≡ (if has_next self.old at then Some (next_number self.old.last at, seq_of self.old.content_messages content) else None) }
        ensures fourfold { IfSome result (λ given. IsFourfold given.0) }

        // While there is room there is a next number, and it takes one of the room at most.
        ensures in_room { 0 < room self.old → IsSome result }
        ensures room_lasts { room self.old ≤ room self.new + 1 }
    {
        if self.last > NUMBER_MAX - NUMBER_STEP || self.content_messages >= CONTENT_MESSAGES_MAX {
            return None;
        }
        let number = (self.last + NUMBER_STEP).max(at.seconds() * NUMBERS_A_SECOND);
        let of_content = if content { 1 } else { 0 };
        let seq = 2 * self.content_messages + of_content;
        self.last = number;
        self.content_messages += of_content;
        Some((number, seq))
    }

    /// How many further messages there are numbers for at least, whatever the moments.
    pub fn room(&self) -> u64
        ensures { result ≡ room self.now }
    {
        let last = self.last.max(Moment::LATEST_SECONDS * NUMBERS_A_SECOND);
        let numbers = (NUMBER_MAX - last) / NUMBER_STEP;
        numbers.min(u64::from(CONTENT_MESSAGES_MAX - self.content_messages))
    }
}
