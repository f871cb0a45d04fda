//! The kept rows: words of periods that follow one another, in a ring of one block.

ghost use Rattle.std.specs.Prelude.{◌≡◌, ◌+◌, ◌-◌, ◌*◌, ◌^◌, ◌<◌, ◌≤◌, ◌++◌, List, ℕ, take, drop, max, length, filter, nat_lt, IfOk, IsTrue, Any, ◌↔◌, Some, [], ◌∷◌, slice_get};
ghost use Rattle.circular_buffer.specs.Buffer.{buffer};
ghost use Rattle.draws.specs.Draws.{draw_after};
ghost use Rattle.salt_line.specs.Rows.{Row};
ghost use Rattle.salt_line.specs.Needed.{needed, needed_from, word_in};
ghost use Rattle.salt_line.specs.Held.{rows_of, rows_max, AreHeld, IsIn};

use circular_buffer::HeapCircularBuffer;
use draws::Draw;
use octets::Memory;
use std::alloc::Global;

/// How many rows there is room for: those of 64 periods to come and the one before.
const ROWS_MAX: usize = 65;

/// Words of periods that follow one another.
#[derive(Debug, Drop)]
pub(crate) struct Rows {
    /// The period of the first word.
    pub(crate) first: u64,
    pub(crate) words: HeapCircularBuffer<u64>,
}

impl Rows {
    /// The row of period 0, with room for the others.
    pub(crate) fn new(alloc: Global, word: u64) -> Result<Rows, Memory>
        ensures first { IfOk result (λ rows. rows.first ≡ 0) }
        ensures words { IfOk result (λ rows. rows.words ≡ buffer (word ∷ []) rows_max) }
    {
        let mut words = HeapCircularBuffer::with_capacity(alloc, ROWS_MAX)?;
        let _ = words.push_back(word);
        Ok(Rows { first: 0, words })
    }

    /// The same rows, with the same room.
    pub(crate) fn copy(&self, alloc: Global) -> Result<Rows, Memory>
        requires { length self.now.words.items ≤ rows_max }
        ensures first { IfOk result (λ rows. rows.first ≡ self.now.first) }
        ensures words { IfOk result (λ rows. rows.words ≡ buffer self.now.words.items rows_max) }
    {
        let mut words = HeapCircularBuffer::with_capacity(alloc, ROWS_MAX)?;
        let (front, back) = self.words.as_slices();
        words.extend_from_slice(front);
        words.extend_from_slice(back);
        Ok(Rows {
            first: self.first,
            words,
        })
    }

    /// Whether the row of a period is kept and has this word.
    fn has_at(&self, period: u64, word: u64) -> bool
        ensures { IsTrue result ↔ ((self.now.first ≤ period) × (slice_get self.now.words.items (period - self.now.first) ≡ Some word)) }
    {
        period >= self.first
            && self.words.get((period - self.first) as usize).copied() == Some(word)
    }

    /// Whether the row of a period, or of the one before, is kept and has this word.
    pub(crate) fn has(&self, period: u64, word: u64) -> bool
        ensures { IsTrue result ↔ Any (IsIn period word) (rows_of self.now.first self.now.words.items) }
    {
        self.has_at(period, word) || period > 0 && self.has_at(period - 1, word)
    }

    /// Drops the rows that have ended in a period: all but those from the period before it on.
    pub(crate) fn forget_ended(&mut self, period: u64)
        requires { self.old.first ≤ period }
        ensures rows { rows_of self.new.first self.new.words.items
            ≡ filter (λ row. nat_lt period (row.period + 2)) (rows_of self.old.first self.old.words.items) }
        ensures none_ended { period ≤ self.new.first + 1 }
        ensures none_left_out { self.new.first ≤ period }
        ensures all_so_far { period ≤ self.new.first + length self.new.words.items }
        ensures near { self.new.first + length self.new.words.items ≤ max period (self.old.first + length self.old.words.items) }
        ensures room { self.new.words.capacity ≡ self.old.words.capacity }
    {
        let count = self.words.len();
        let ended = period.saturating_sub(1).saturating_sub(self.first);
        if ended >= count as u64 {
            self.words.clear();
            self.first = period;
        } else {
            self.words.truncate_front(count - ended as usize);
            self.first += ended;
        }
    }

    /// The word of the row of a period, which is drawn where there is none.
    pub(crate) fn word<D: Draw>(&mut self, period: u64, draw: &mut D) -> u64
        requires kept { self.old.first ≤ period }
        requires next { period ≤ self.old.first + length self.old.words.items }
        requires room { period < self.old.first + self.old.words.capacity }
        ensures needed { (rows_of self.new.first self.new.words.items, draw.new)
            ≡ needed D.step period (rows_of self.old.first self.old.words.items, draw.old) }
        ensures word { result ≡ word_in period (rows_of self.new.first self.new.words.items) }
        ensures first { self.new.first ≡ self.old.first }
        ensures count { length self.new.words.items ≡ max (length self.old.words.items) (period + 1 - self.old.first) }
        ensures same_room { self.new.words.capacity ≡ self.old.words.capacity }
    {
        match self.words.get((period - self.first) as usize).copied() {
            Some(word) => word,
            None => {
                let word = draw.word();
                let _ = self.words.push_back(word);
                word
            }
        }
    }
}
