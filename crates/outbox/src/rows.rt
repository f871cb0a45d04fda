//! The orders of an outbox, and the search in them.

ghost use Rattle.std.specs.Prelude.{◌≡◌, ◌<◌, ◌≤◌, ◌+◌, ◌==◌, true, map, min, length, remove, position, slice_index_or, IfOk};
ghost use Rattle.std.specs.List.{position_or_len};
ghost use Rattle.std.specs.VecDeque.{deque_len, deque_capacity};
ghost use Rattle.outbox.specs.Replies.{kept_replies_max, bytes_of, with_kept};
ghost use Rattle.outbox.specs.Places.{Rises, place, inserted, AreInOrder, IsIndex, GoesOn};

use crate::kept::Kept;
use octets::Memory;
use std::alloc::Global;
use std::collections::VecDeque;

/// The most replies that are kept.
pub const KEPT_REPLIES_MAX: usize = 4_096;

/// What an order goes by.
pub(crate) trait Keyed {
    ghost use Rattle.std.specs.Prelude.{ℕ};

    ghost key_of: { Self → ℕ };

    fn key(&self) -> u64
        ensures { result ≡ key_of self.now };
}

/// A call with the number of its reply.
#[derive(Clone, Copy, Debug)]
pub(crate) struct Answered {
    pub call: u64,
    pub number: u64,
}

impl Keyed for Kept {
    ghost key_of = { λ kept. kept.number };

    fn key(&self) -> u64 {
        self.number
    }
}

impl Keyed for Answered {
    ghost key_of = { λ answered. answered.call };

    fn key(&self) -> u64 {
        self.call
    }
}

/// How many entries have a key below this one, in an ascending order. Most keys are above all that are kept, or the oldest, so
/// the last and the first entry are looked at; else it is found by halving.
pub(crate) fn place_of<T: Keyed>(entries: &VecDeque<T>, key: u64) -> usize
    requires { Rises (map T.key_of entries.now.items) }
    ensures place { result ≡ place key (map T.key_of entries.now.items) }
    ensures within { result ≤ length entries.now.items }
{
    let count = entries.len();
    if count == 0 {
        return 0;
    }
    if entries[count - 1].key() < key {
        return count;
    }
    if key <= entries[0].key() {
        return 0;
    }
    entries.partition_point(|entry| entry.key() < key)
}

/// The place of the entry with this key in an ascending order, or how many entries there are. Found by `place_of`.
pub(crate) fn find_key<T: Keyed>(entries: &VecDeque<T>, key: u64) -> usize
    requires { Rises (map T.key_of entries.now.items) }
    ensures { result ≡ position_or_len (λ entry. T.key_of entry == key) entries.now.items }
{
    let place = place_of(entries, key);
    if place < entries.len() && entries[place].key() == key {
        place
    } else {
        entries.len()
    }
}

/// The place of the first reply of this number. Looked for from the front.
pub(crate) fn looked_for(replies: &VecDeque<Kept>, number: u64) -> Option<usize>
    ensures { result ≡ position (λ kept. kept.number == number) replies.now.items }
{
    replies.iter().position(|kept| kept.number == number)
}

/// The place of the first reply of this number, or how many replies there are. Found by `place_of` where the numbers rise.
pub(crate) fn place_of_number(replies: &VecDeque<Kept>, rises: bool, number: u64) -> usize
    requires { rises ≡ true → Rises (map (λ kept. kept.number) replies.now.items) }
    ensures { result ≡ position_or_len (λ kept. kept.number == number) replies.now.items }
{
    if rises {
        find_key(replies, number)
    } else {
        looked_for(replies, number).unwrap_or(replies.len())
    }
}

/// Puts an entry into its place in an ascending order that has room for it. The shorter side moves.
pub(crate) fn put(calls: &mut VecDeque<Answered>, entry: Answered)
    requires ascending { Rises (map (λ one. one.call) calls.old.items) }
    requires room { deque_len calls.old < deque_capacity calls.old }
    ensures put { calls.new.items ≡ inserted (λ one. one.call) entry calls.old.items }
    ensures capacity { deque_capacity calls.old ≤ deque_capacity calls.new }
{
    let place = place_of(calls, entry.call);
    let placed: Result<_, _> = calls.insert(place, entry);
    placed.unwrap();
}

/// Takes the reply at a place out. The shorter side moves.
pub(crate) fn take_reply(replies: &mut VecDeque<Kept>, place: usize) -> Kept
    requires { place < length replies.old.items }
    ensures taken { result ≡ slice_index_or replies.old.items place result }
    ensures left { replies.new.items ≡ remove replies.old.items place }
    ensures count { length replies.new.items + 1 ≡ length replies.old.items }
    ensures bytes { bytes_of replies.new.items + length result.body ≡ bytes_of replies.old.items }
    ensures capacity { deque_capacity replies.new ≡ deque_capacity replies.old }
{
    replies.remove(place).unwrap()
}

/// Takes a reply out, and its call out of the index.
pub(crate) fn take_out(
    replies: &mut VecDeque<Kept>,
    calls: &mut VecDeque<Answered>,
    in_order: bool,
    place: usize,
) -> Kept
    requires index { IsIndex in_order calls.old.items replies.old.items }
    requires within { place < length replies.old.items }
    ensures taken { result ≡ slice_index_or replies.old.items place result }
    ensures left { replies.new.items ≡ remove replies.old.items place }
    ensures count { length replies.new.items + 1 ≡ length replies.old.items }
    ensures bytes { bytes_of replies.new.items + length result.body ≡ bytes_of replies.old.items }
    ensures index { IsIndex in_order calls.new.items replies.new.items }
    ensures capacity { deque_capacity replies.new ≡ deque_capacity replies.old }
    ensures calls_capacity { deque_capacity calls.new ≡ deque_capacity calls.old }
{
    let kept = take_reply(replies, place);
    if in_order {
        let place = find_key(calls, kept.call);
        calls.remove(place);
    }
    kept
}

/// Whether replies that are in order stay so with one more behind them: its number is above the last one, and its call
/// has no reply.
pub(crate) fn goes_on(replies: &VecDeque<Kept>, calls: &VecDeque<Answered>, one: Answered) -> bool
    requires { AreInOrder calls.now.items replies.now.items }
    ensures { result ≡ true → GoesOn one calls.now.items replies.now.items }
{
    let count = replies.len();
    if count == 0 {
        return true;
    }
    replies[count - 1].number < one.number && find_key(calls, one.call) == calls.len()
}

/// Puts the call of a further reply into the index where the replies stay in order, and else empties the index. Answers
/// whether they stay so.
pub(crate) fn note_call(
    calls: &mut VecDeque<Answered>,
    replies: &VecDeque<Kept>,
    in_order: bool,
    kept: &Kept,
) -> bool
    requires index { IsIndex in_order calls.old.items replies.now.items }
    requires room { length replies.now.items < deque_capacity calls.old }
    ensures index { IsIndex result calls.new.items (with_kept kept.now replies.now.items) }
    ensures capacity { deque_capacity calls.old ≤ deque_capacity calls.new }
{
    let one = Answered {
        call: kept.call,
        number: kept.number,
    };
    if in_order {
        if goes_on(replies, calls, one) {
            put(calls, one);
            return true;
        }
        calls.clear();
    }
    false
}

/// For how many entries to have room, so that so many more find it, or all that an outbox can have. Where the room has
/// to grow it doubles.
pub(crate) fn wanted_room(count: usize, capacity: usize, more: usize) -> usize
    requires { count ≤ kept_replies_max }
    ensures enough { min (count + more) kept_replies_max ≤ result }
    ensures bounded { result ≤ kept_replies_max }
{
    let wanted = KEPT_REPLIES_MAX.min(count.saturating_add(more));
    if wanted <= capacity {
        return wanted;
    }
    let doubled = KEPT_REPLIES_MAX.min(capacity.saturating_mul(2));
    wanted.max(doubled)
}

/// A copy of the index with the same capacity. Fails for want of memory alone.
pub(crate) fn copy_of(
    alloc: Global,
    calls: &VecDeque<Answered>,
) -> Result<VecDeque<Answered>, Memory>
    ensures { IfOk result (λ copy. (copy.items ≡ calls.now.items) × (deque_capacity copy ≡ deque_capacity calls.now)) }
{
    let mut copy = VecDeque::with_capacity(alloc, calls.capacity())?;
    for place in 0..calls.len() {
        copy.push_back_reserved(calls[place]);
    }
    Ok(copy)
}
