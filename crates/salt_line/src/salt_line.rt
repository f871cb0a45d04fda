//! Salt lines.

ghost use Rattle.std.specs.Prelude.{◌≡◌, ◌+◌, ◌-◌, ◌*◌, ◌^◌, ◌<◌, ◌≤◌, ◌++◌, ◌↔◌, min, take, drop, length, All, IsTrue, IfOk};
ghost use Rattle.msg_ids.specs.Moments.{latest_moment};
ghost use Rattle.salt_line.specs.Rows.{period_seconds, future_rows_max, period_at};
ghost use Rattle.salt_line.specs.Needed.{needed_from};
ghost use Rattle.salt_line.specs.Held.{rows_of, AreHeld};
ghost use Rattle.salt_line.specs.Future.{salt_rows_from};

use crate::rows::Rows;
use draws::Draw;
use msg_ids::Moment;
use octets::Memory;
use std::alloc::Global;
use std::marker::Model;

/// How many seconds after one period the next begins.
const PERIOD_SECONDS: u64 = 1800;

/// How many seconds a salt is valid.
const VALID_SECONDS: u64 = 3600;

/// How many rows are handed out at most.
const FUTURE_ROWS_MAX: usize = 64;

/// A salt with its time, in seconds of Unix time.
#[derive(Clone, Copy, Debug, PartialEq, Eq)]
pub struct SaltRow {
    /// The first moment at which the salt is valid.
    pub since: u64,
    /// The first moment after that at which it isn't valid any more.
    pub until: u64,
    /// The salt that is valid in that time.
    pub salt: u64,
}

/// The salts of a server session: for each period of 1800 seconds from the start a word, drawn when it is first needed
/// and valid for 3600 seconds. It keeps the rows that have not ended at the greatest moment that it was given.
#[derive(Debug, Drop)]
pub struct SaltLine {
    start: u64,
    latest: u64,
    rows: Rows,
}

impl Model for SaltLine {
    ghost use Rattle.std.specs.Prelude.{length};
    ghost use Rattle.salt_line.specs.Line.{Kept};
    ghost use Rattle.salt_line.specs.Held.{rows_of, IsHeld};

    ghost Value = { Kept };

    ghost view = { λ line. record {
      start = line.start;
      latest = line.latest;
      rows = rows_of line.rows.first line.rows.words.items;
    } };

    ghost invariant = { λ line. IsHeld line.start line.latest line.rows.first (length line.rows.words.items) line.rows.words.capacity };
}

impl SaltLine {
    ghost use Rattle.salt_line.specs.Line.{Line, Stands, IsValidSalt, fresh_line, line_after, draw_after_rows, current_salt};
    ghost use Rattle.salt_line.specs.Future.{salt_rows};

    /// A line that starts at this moment, with the word of period 0. Takes the room for all rows that it will keep.
    ///
    /// # Errors
    /// `Memory` where there is no room.
    pub fn new(alloc: Global, start: Moment, word: u64) -> Result<SaltLine, Memory>
        ensures fresh { IfOk result (λ line. Stands line (fresh_line start word)) }
        ensures start { IfOk result (λ line. line.start ≡ start) }
        ensures latest { IfOk result (λ line. line.latest ≡ start) }
    {
        let start = start.seconds();
        Ok(SaltLine {
            start,
            latest: start,
            rows: Rows::new(alloc, word)?,
        })
    }

    /// The same line, with room of its own.
    ///
    /// # Errors
    /// `Memory` where there is no room.
    pub fn copy(&self, alloc: Global) -> Result<SaltLine, Memory>
        ensures { IfOk result (λ line. line ≡ self.now) }
    {
        Ok(SaltLine {
            start: self.start,
            latest: self.latest,
            rows: self.rows.copy(alloc)?,
        })
    }

    /// Whether a salt is valid at this moment, which is no earlier than the start and each moment that `current` and
    /// `future` were given.
    pub fn judge(&self, now: Moment, salt: u64) -> bool
        requires { self.now.latest ≤ now }
        ensures judged { (line : Line) → Stands self.now line → (IsTrue result ↔ IsValidSalt line now salt) }
        ensures started { self.now.start ≤ self.now.latest }
    {
        let period = (now.seconds() - self.start) / PERIOD_SECONDS;
        salt != 0 && self.rows.has(period, salt)
    }

    /// The salt of this moment, which is no earlier than the start and each moment given before. Its word is drawn where
    /// that wasn't needed before.
    pub fn current<D: Draw>(&mut self, now: Moment, draw: &mut D) -> u64
        requires { self.old.latest ≤ now }
        ensures line { (line : Line) → Stands self.old line → Stands self.new (line_after D.step now 1 line draw.old) }
        ensures draw { (line : Line) → Stands self.old line → draw.new ≡ draw_after_rows D.step now 1 line draw.old }
        ensures salt { (line : Line) → Stands self.old line → result ≡ current_salt (line_after D.step now 1 line draw.old) now }
        ensures start { self.new.start ≡ self.old.start }
        ensures latest { self.new.latest ≡ now }
        ensures started { self.new.start ≤ now }
    {
        let period = self.come_to(now.seconds());
        self.rows.word(period, draw)
    }

    /// The rows of `n` periods, at most 64, from that of this moment on, at the front of `into`; how many they are. Words that
    /// weren't needed before are drawn, in order. What follows in `into` stays. The moment is no earlier than the start and
    /// each moment given before.
    pub fn future<D: Draw>(
        &mut self,
        now: Moment,
        n: usize,
        draw: &mut D,
        into: &mut [SaltRow; 64],
    ) -> usize
        requires { self.old.latest ≤ now }
        ensures count { result ≡ min n future_rows_max }
        ensures rows { (line : Line) → Stands self.old line
            → take (min n future_rows_max) into.new ≡ salt_rows (line_after D.step now (min n future_rows_max) line draw.old) now (min n future_rows_max) }
        ensures others { drop (min n future_rows_max) into.new ≡ drop (min n future_rows_max) into.old }
        ensures early { All (λ row. (row.since < row.until) × (row.until < 2 ^ 32)) (take (min n future_rows_max) into.new) }

        ensures line { (line : Line) → Stands self.old line → Stands self.new (line_after D.step now (min n future_rows_max) line draw.old) }
        ensures draw { (line : Line) → Stands self.old line → draw.new ≡ draw_after_rows D.step now (min n future_rows_max) line draw.old }
        ensures start { self.new.start ≡ self.old.start }
        ensures latest { self.new.latest ≡ now }
        ensures started { self.new.start ≤ now }
    {
        let count = n.min(FUTURE_ROWS_MAX);
        let period = self.come_to(now.seconds());
        hand_out(&mut self.rows, self.start, period, count, draw, into);
        count
    }

    /// Comes to a moment: the rows that have ended go. The period of the moment.
    fn come_to(&mut self, now: u64) -> u64
        requires in_order { self.old.latest ≤ now }
        requires early { now ≤ latest_moment }
        ensures line { (line : Line) → Stands self.old line → Stands self.new line }
        ensures start { self.new.start ≡ self.old.start }
        ensures latest { self.new.latest ≡ now }
        ensures period { result ≡ period_at self.old.start now }
    {
        let period = (now - self.start) / PERIOD_SECONDS;
        self.rows.forget_ended(period);
        self.latest = now;
        period
    }
}

/// Puts the rows of `count` periods from this one on at the front of `into`.
fn hand_out<D: Draw>(
    rows: &mut Rows,
    start: u64,
    period: u64,
    count: usize,
    draw: &mut D,
    into: &mut [SaltRow],
)
    requires held { AreHeld period rows.old.first (length rows.old.words.items) rows.old.words.capacity }
    requires few { count ≤ future_rows_max }
    requires fits { count ≤ length into.old }
    requires early { start + period_seconds * period ≤ latest_moment }
    ensures needed { (rows_of rows.new.first rows.new.words.items, draw.new)
        ≡ needed_from D.step period count (rows_of rows.old.first rows.old.words.items, draw.old) }
    ensures rows { take count into.new
        ≡ salt_rows_from record { start = start; rows = rows_of rows.new.first rows.new.words.items } period count }
    ensures others { drop count into.new ≡ drop count into.old }
    ensures held { AreHeld period rows.new.first (length rows.new.words.items) rows.new.words.capacity }
{
    for k in 0..count {
        let next = period + k as u64;
        let salt = rows.word(next, draw);
        let since = start + PERIOD_SECONDS * next;
        into[k] = SaltRow {
            since,
            until: since + VALID_SECONDS,
            salt,
        };
    }
}
