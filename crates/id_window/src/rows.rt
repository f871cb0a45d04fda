//! The two orders of a window, and the search in them.

ghost use Rattle.std.specs.Prelude.{◌≡◌, ◌<◌, ◌≤◌, ◌+◌, ◌∷◌, if◌then◌else◌, map, drop, min, length, IfOk};
ghost use Rattle.std.specs.VecDeque.{deque_len, deque_capacity};
ghost use Rattle.id_window.specs.Marks.{is_accepted};
ghost use Rattle.id_window.specs.History.{inserted};
ghost use Rattle.id_window.specs.Window.{Rises};
ghost use Rattle.id_window.specs.Places.{place};

use crate::mark::Mark;
use octets::Memory;
use std::alloc::Global;
use std::collections::VecDeque;

/// How many numbers a window keeps.
pub const WINDOW_NUMBERS: usize = 16_384;

/// An entry of an order, which has a number.
pub(crate) trait Numbered {
    ghost use Rattle.std.specs.Prelude.{ℕ};

    ghost number_of: { Self → ℕ };

    fn number(&self) -> u64
        ensures { result ≡ number_of self.now };
}

/// A number with its mark.
#[derive(Clone, Copy, Debug)]
pub(crate) struct Row {
    pub number: u64,
    pub mark: Mark,
}

/// The number of an accepted message with its sequence number.
#[derive(Clone, Copy, Debug)]
pub(crate) struct Accepted {
    pub number: u64,
    pub seq: u32,
}

impl Numbered for Row {
    ghost number_of = { λ row. row.number };

    fn number(&self) -> u64 {
        self.number
    }
}

impl Numbered for Accepted {
    ghost number_of = { λ one. one.number };

    fn number(&self) -> u64 {
        self.number
    }
}

/// How many entries have a number below this one, in an ascending order. Numbers mostly come in order, those of messages in a
/// container behind its own, so the last two entries are looked at first; else it is found by halving.
pub(crate) fn place_of<T: Numbered>(entries: &VecDeque<T>, number: u64) -> usize
    requires { Rises (map T.number_of entries.now.items) }
    ensures place { result ≡ place number (map T.number_of entries.now.items) }
    ensures within { result ≤ length entries.now.items }
{
    let count = entries.len();
    if count == 0 {
        return 0;
    }
    if entries[count - 1].number() < number {
        return count;
    }
    if count > 1 && entries[count - 2].number() < number {
        return count - 1;
    }
    let (front, back) = entries.as_slices();
    let place = place_in(front, number);
    if place < front.len() {
        return place;
    }
    place + place_in(back, number)
}

// The same of entries that stand one after the other, where a place is found in fewer steps.
fn place_in<T: Numbered>(entries: &[T], number: u64) -> usize
    requires { Rises (map T.number_of entries.now) }
    ensures place { result ≡ place number (map T.number_of entries.now) }
    ensures within { result ≤ length entries.now }
{
    entries.partition_point(|entry| entry.number() < number)
}

/// Puts an entry into its place in an ascending order that has room for it. The shorter side moves.
pub(crate) fn put<T: Numbered>(entries: &mut VecDeque<T>, entry: T)
    requires ascending { Rises (map T.number_of entries.old.items) }
    requires room { deque_len entries.old < deque_capacity entries.old }
    ensures put { entries.new.items ≡ inserted T.number_of entry entries.old.items }
    ensures capacity { deque_capacity entries.old ≤ deque_capacity entries.new }
{
    let place = place_of(entries, entry.number());
    let placed: Result<_, _> = entries.insert(place, entry);
    placed.unwrap();
}

/// Puts a number into the rows, and into the accepted ones where its mark says so.
pub(crate) fn enter(
    rows: &mut VecDeque<Row>,
    accepted: &mut VecDeque<Accepted>,
    number: u64,
    seq: u32,
    mark: Mark,
)
    requires rows_ascend { Rises (map (λ row. row.number) rows.old.items) }
    requires accepted_ascend { Rises (map (λ one. one.number) accepted.old.items) }
    requires row_room { deque_len rows.old < deque_capacity rows.old }
    requires accepted_room { deque_len accepted.old < deque_capacity accepted.old }
    ensures row { rows.new.items ≡ inserted (λ row. row.number) (record { number = number; mark = mark }) rows.old.items }
    ensures accepted { accepted.new.items ≡ (if is_accepted mark then inserted (λ one. one.number) (record { number = number; seq = seq }) accepted.old.items else accepted.old.items) }
    ensures row_capacity { deque_capacity rows.old ≤ deque_capacity rows.new }
    ensures accepted_capacity { deque_capacity accepted.old ≤ deque_capacity accepted.new }
{
    put(rows, Row { number, mark });
    if mark.is_accepted() {
        put(accepted, Accepted { number, seq });
    }
}

/// Takes out the least row, and its accepted entry with it.
pub(crate) fn take_least(rows: &mut VecDeque<Row>, accepted: &mut VecDeque<Accepted>) -> Row
    requires { 0 < deque_len rows.old }
    ensures least { rows.old.items ≡ result ∷ rows.new.items }
    ensures accepted { accepted.new.items ≡ (if is_accepted result.mark then drop 1 accepted.old.items else accepted.old.items) }
    ensures row_capacity { deque_capacity rows.new ≡ deque_capacity rows.old }
    ensures accepted_capacity { deque_capacity accepted.new ≡ deque_capacity accepted.old }
{
    let least = rows.pop_front().unwrap();
    if least.mark.is_accepted() {
        accepted.pop_front();
    }
    least
}

/// For how many more entries to ask, so that room for this many notes is there, or for all that a window can have.
/// Where the room has to grow it doubles.
pub(crate) fn missing_room(count: usize, capacity: usize, notes: usize) -> usize
    requires { count ≤ WINDOW_NUMBERS }
    ensures enough { min (count + notes) WINDOW_NUMBERS ≤ count + result }
    ensures bounded { count + result ≤ WINDOW_NUMBERS }
{
    let wanted = WINDOW_NUMBERS.min(count.saturating_add(notes));
    if wanted <= capacity {
        return wanted - count;
    }
    let doubled = WINDOW_NUMBERS.min(capacity.saturating_mul(2));
    wanted.max(doubled) - count
}

/// A copy of the entries with the same capacity. Fails for want of memory alone.
pub(crate) fn copy_of<T: Copy>(alloc: Global, entries: &VecDeque<T>) -> Result<VecDeque<T>, Memory>
    ensures { IfOk result (λ copy. (copy.items ≡ entries.now.items) × (deque_capacity copy ≡ deque_capacity entries.now)) }
{
    let mut copy = VecDeque::with_capacity(alloc, entries.capacity())?;
    for place in 0..entries.len() {
        copy.push_back_reserved(entries[place]);
    }
    Ok(copy)
}
