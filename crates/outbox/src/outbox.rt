//! The kept replies of a server session.

ghost use Rattle.std.specs.Prelude.{◌≡◌, ◌≢◌, ◌<◌, ◌≤◌, ◌+◌, [], true, None, max, min, slice_get, length, IfOk, OnOk, OnErr};
ghost use Rattle.std.specs.Option.{option_copied};

use crate::kept::{Kept, copies_of};
use crate::rows::{
    Answered, KEPT_REPLIES_MAX, copy_of, find_key, note_call, place_of_number, take_out,
    wanted_room,
};
use octets::Memory;
use std::alloc::Global;
use std::collections::VecDeque;
use std::marker::Model;

/// The most bytes of the bodies of all kept replies together.
pub const KEPT_BYTES_MAX: usize = 4_194_304;

/// For how many replies a fresh outbox takes room.
const FIRST_REPLIES: usize = 16;

/// The replies that a server session keeps, in order of making: at most 4,096, of at most 4,194,304 bytes together.
/// Contracts see them as a list, and beside it for how many more room is reserved.
///
/// As long as the numbers rise and no call has two replies, as in a server session, a reply is found by halving, and one
/// that is taken out moves those before it or those behind it, whichever are fewer. Else a reply is looked for from the
/// front.
#[derive(Debug, Drop)]
pub struct Outbox {
    replies: VecDeque<Kept>,
    calls: VecDeque<Answered>,
    in_order: bool,
    bytes: usize,
    reserved: usize,
}

impl Model for Outbox {
    ghost use Rattle.std.specs.Prelude.{◌≤◌};
    ghost use Rattle.std.specs.VecDeque.{deque_len, deque_capacity};
    ghost use Rattle.outbox.specs.Replies.{Contents};
    ghost use Rattle.outbox.specs.Places.{Holds, room_in};

    ghost Value = { Contents };

    ghost view = { λ outbox. record { replies = outbox.replies.items; room = outbox.reserved } };

    ghost invariant = { λ outbox. Holds outbox.replies.items outbox.calls.items outbox.in_order outbox.bytes
        × (outbox.reserved ≤ room_in (deque_capacity outbox.replies) (deque_len outbox.replies))
        × (outbox.reserved ≤ room_in (deque_capacity outbox.calls) (deque_len outbox.replies)) };
}

impl Outbox {
    ghost use Rattle.outbox.specs.Replies.{AreApart, kept_replies_max, kept_bytes_max, bytes_of, fits, with_kept, dropped_for, with_room_for, by_call, by_number, without_number, call_of};

    /// An outbox with no reply. It takes room for a few.
    ///
    /// # Errors
    ///
    /// `Memory`: memory ran out.
    pub fn new(alloc: Global) -> Result<Outbox, Memory>
        ensures { IfOk result (λ outbox. outbox ≡ record { replies = []; room = 0 }) }
    {
        Ok(Outbox {
            replies: VecDeque::with_capacity(alloc, FIRST_REPLIES)?,
            calls: VecDeque::with_capacity(alloc, FIRST_REPLIES)?,
            in_order: true,
            bytes: 0,
            reserved: 0,
        })
    }

    /// The same outbox once more. What bodies share stays shared.
    ///
    /// # Errors
    ///
    /// `Memory`: memory ran out.
    pub fn copy(&self, alloc: Global) -> Result<Outbox, Memory>
        ensures { IfOk result (λ outbox. outbox ≡ self.now) }
    {
        Ok(Outbox {
            replies: copies_of(alloc, &self.replies)?,
            calls: copy_of(alloc, &self.calls)?,
            in_order: self.in_order,
            bytes: self.bytes,
            reserved: self.reserved,
        })
    }

    /// Takes room for so many replies, or keeps more room that is there. Keeping up to that many takes no memory.
    ///
    /// # Errors
    ///
    /// `Memory`: memory ran out, and the outbox is as it was.
    pub fn reserve(&mut self, _alloc: Global, replies: usize) -> Result<(), Memory>
        ensures reserved { OnOk result (self.new ≡ record self.old { room = max self.old.room replies }) }
        ensures unchanged_on_memory { OnErr result (self.new ≡ self.old) }
    {
        let count = self.replies.len();
        let reserved = replies.max(self.reserved);
        let replies = wanted_room(count, self.replies.capacity(), reserved);
        let calls = wanted_room(count, self.calls.capacity(), reserved);
        self.replies.reserve_exact(replies - count)?;
        self.calls.reserve_exact(calls - self.calls.len())?;
        self.reserved = reserved;
        Ok(())
    }

    /// For how many further replies room is reserved.
    pub fn room(&self) -> usize
        ensures { result ≡ self.now.room }
    {
        self.reserved
    }

    /// Gives reserved room back: it stays for so many replies at most. Takes no memory.
    pub fn release(&mut self, replies: usize)
        ensures { self.new ≡ record self.old { room = min self.old.room replies } }
    {
        self.reserved = self.reserved.min(replies);
    }

    /// Where a further reply of this many bytes doesn't fit, the oldest reply is dropped and its call is given; `None`
    /// where it fits. Asked again and again, it comes to `None`: each call that it gives is one reply fewer. Reserved
    /// room stays. Takes no memory.
    pub fn make_room(&mut self, len: usize) -> Option<u64>
        requires { len ≤ kept_bytes_max }
        ensures call { result ≡ call_of (dropped_for len self.old.replies) }
        ensures after { self.new ≡ record self.old { replies = with_room_for len self.old.replies } }
        ensures fits { result ≡ None → fits len self.new.replies ≡ true }
        ensures unchanged_where_it_fits { result ≡ None → self.new ≡ self.old }
        ensures one_fewer { result ≢ None → length self.new.replies + 1 ≡ length self.old.replies }
    {
        if self.replies.len() < KEPT_REPLIES_MAX && len <= KEPT_BYTES_MAX - self.bytes {
            return None;
        }
        let oldest = take_out(&mut self.replies, &mut self.calls, self.in_order, 0);
        self.bytes -= oldest.body.len();
        Some(oldest.call)
    }

    /// Keeps a reply, which fits and for which room is reserved. It stands last. Takes no memory.
    pub fn keep(&mut self, kept: Kept)
        requires fits { fits (length kept.body) self.old.replies ≡ true }
        requires reserved { 0 < self.old.room }
        ensures kept { self.new.replies ≡ with_kept kept self.old.replies }
        ensures room { self.new.room + 1 ≡ self.old.room }
    {
        self.bytes += kept.body.len();
        self.reserved -= 1;
        self.in_order = note_call(&mut self.calls, &self.replies, self.in_order, &kept);
        self.replies.push_back_reserved(kept);
    }

    /// Takes out the reply of this number, the first where several have it, and gives its call; `None`, and nothing
    /// changes, where there is none. Reserved room stays. Takes no memory.
    pub fn ack(&mut self, number: u64) -> Option<u64>
        ensures call { result ≡ call_of (by_number number self.old.replies) }
        ensures after { self.new ≡ record self.old { replies = without_number number self.old.replies } }
    {
        let place = place_of_number(&self.replies, self.in_order, number);
        if place == self.replies.len() {
            return None;
        }
        let kept = take_out(&mut self.replies, &mut self.calls, self.in_order, place);
        self.bytes -= kept.body.len();
        Some(kept.call)
    }

    /// Whether a reply is found by halving. Then no two are to one call, and none have one number.
    pub fn is_in_order(&self) -> bool
        ensures { result ≡ true → AreApart self.now.replies }
    {
        self.in_order
    }

    /// The reply to this call, the first where there are several; `None` where there is none.
    pub fn by_call(&self, call: u64) -> Option<&Kept>
        ensures { option_copied result ≡ by_call call self.now.replies }
    {
        if self.in_order {
            let place = find_key(&self.calls, call);
            if place == self.calls.len() {
                return None;
            }
            return self.by_number(self.calls[place].number);
        }
        self.replies.iter().find(|kept| kept.call == call)
    }

    /// The reply of this number, the first where several have it; `None` where there is none.
    pub fn by_number(&self, number: u64) -> Option<&Kept>
        ensures { option_copied result ≡ by_number number self.now.replies }
    {
        self.at(place_of_number(&self.replies, self.in_order, number))
    }

    /// The reply at a place in order of making, from 0; `None` where there are no more.
    pub fn at(&self, place: usize) -> Option<&Kept>
        ensures { option_copied result ≡ slice_get self.now.replies place }
    {
        self.replies.get(place)
    }

    /// How many replies there are, at most 4,096.
    pub fn len(&self) -> usize
        ensures value { result ≡ length self.now.replies }
        ensures few { result ≤ kept_replies_max }
    {
        self.replies.len()
    }

    /// How many bytes all bodies have together, at most 4,194,304.
    pub fn bytes(&self) -> usize
        ensures value { result ≡ bytes_of self.now.replies }
        ensures few { result ≤ kept_bytes_max }
    {
        self.bytes
    }
}
