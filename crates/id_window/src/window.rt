//! The window of a server session.

ghost use Rattle.std.specs.Prelude.{◌≡◌, ◌<◌, ◌+◌, [], true, None, max, IfOk, OnOk, OnErr, IfSome};

use crate::cross::Cross;
use crate::mark::Mark;
use crate::neighbours::{first_above, is_past, is_short, last_below};
use crate::rows::{
    Accepted, Row, WINDOW_NUMBERS, copy_of, enter, missing_room, place_of, take_least,
};
use octets::Memory;
use std::alloc::Global;
use std::collections::VecDeque;
use std::marker::Model;

/// For how many numbers a fresh window takes room.
const FIRST_NUMBERS: usize = 16;

/// What a server session remembers of the numbers that it judged: the 16,384 greatest with their marks, the sequence
/// numbers of those that were accepted, and the greatest number that it has forgotten, the floor.
///
/// The least number is forgotten where a further one is noted in a full window, and the floor rises to it. Finding a
/// number takes time in the logarithm of the window. Noting a number that is greater than all others moves none, and
/// noting another moves those above it or those below it, whichever are fewer.
#[derive(Debug, Drop)]
pub struct Window {
    rows: VecDeque<Row>,
    accepted: VecDeque<Accepted>,
    forgotten_up_to: u64,
    reserved: usize,
}

impl Model for Window {
    ghost use Rattle.std.specs.Prelude.{◌≤◌};
    ghost use Rattle.std.specs.VecDeque.{deque_len, deque_capacity};
    ghost use Rattle.id_window.specs.Window.{Contents, IsInOrder, room_in};

    ghost Value = { Contents };

    ghost view = { λ window. record {
      rows = window.rows.items;
      accepted = window.accepted.items;
      floor = window.forgotten_up_to;
      room = window.reserved;
    } };

    ghost invariant = { λ window. IsInOrder window.forgotten_up_to window.rows.items window.accepted.items
        × (window.reserved ≤ room_in (deque_capacity window.rows) (deque_len window.rows))
        × (window.reserved ≤ room_in (deque_capacity window.accepted) (deque_len window.accepted)) };
}

impl Window {
    ghost use Rattle.id_window.specs.Marks.{Marks, is_accepted, given};
    ghost use Rattle.id_window.specs.Crossing.{crossing};
    ghost use Rattle.id_window.specs.History.{History, Outcome, was_accepted, noted, found, floor, greatest, crosses, newly_forgotten};
    ghost use Rattle.id_window.specs.Window.{Stands, mark_in, greatest_in, with_mark};

    /// A window of no number. It takes room for a few.
    ///
    /// # Errors
    ///
    /// `Memory`: memory ran out.
    pub fn new(alloc: Global) -> Result<Window, Memory>
        ensures fresh { IfOk result (λ window. window ≡ record { rows = []; accepted = []; floor = 0; room = 0 }) }
        ensures stands { IfOk result (λ window. Stands window [] []) }
    {
        Ok(Window {
            rows: VecDeque::with_capacity(alloc, FIRST_NUMBERS)?,
            accepted: VecDeque::with_capacity(alloc, FIRST_NUMBERS)?,
            forgotten_up_to: 0,
            reserved: 0,
        })
    }

    /// The same window once more.
    ///
    /// # Errors
    ///
    /// `Memory`: memory ran out.
    pub fn copy(&self, alloc: Global) -> Result<Window, Memory>
        ensures { IfOk result (λ window. window ≡ self.now) }
    {
        Ok(Window {
            rows: copy_of(alloc, &self.rows)?,
            accepted: copy_of(alloc, &self.accepted)?,
            forgotten_up_to: self.forgotten_up_to,
            reserved: self.reserved,
        })
    }

    /// Takes room for so many notes, or keeps more room that is there. Notes up to that many take no memory.
    ///
    /// # Errors
    ///
    /// `Memory`: memory ran out, and the window is as it was.
    pub fn reserve(&mut self, _alloc: Global, notes: usize) -> Result<(), Memory>
        ensures reserved { OnOk result (self.new ≡ record self.old { room = max self.old.room notes }) }
        ensures stands { OnOk result ((history : History) (marks : Marks) → Stands self.old history marks → Stands self.new history marks) }
        ensures unchanged_on_memory { OnErr result (self.new ≡ self.old) }
    {
        let notes = notes.max(self.reserved);
        let rows = missing_room(self.rows.len(), self.rows.capacity(), notes);
        let accepted = missing_room(self.accepted.len(), self.accepted.capacity(), notes);
        self.rows.reserve_exact(rows)?;
        self.accepted.reserve_exact(accepted)?;
        self.reserved = notes;
        Ok(())
    }

    /// The mark that the number was given last, where it is kept.
    pub fn find(&self, number: u64) -> Option<Mark>
        ensures value { result ≡ mark_in number self.now.rows }
        ensures stands { (history : History) (marks : Marks) → Stands self.now history marks → result ≡ found number history marks }
    {
        let place = place_of(&self.rows, number);
        if place == self.rows.len() {
            return None;
        }
        let row = self.rows[place];
        if row.number == number {
            Some(row.mark)
        } else {
            None
        }
    }

    /// The greatest number that is forgotten, or 0.
    pub fn floor(&self) -> u64
        ensures value { result ≡ self.now.floor }
        ensures stands { (history : History) (marks : Marks) → Stands self.now history marks → result ≡ floor history }
    {
        self.forgotten_up_to
    }

    /// The greatest number that was ever noted, or 0.
    pub fn greatest(&self) -> u64
        ensures value { result ≡ greatest_in self.now.floor self.now.rows }
        ensures stands { (history : History) (marks : Marks) → Stands self.now history marks → result ≡ greatest history }
    {
        let count = self.rows.len();
        if count == 0 {
            self.forgotten_up_to
        } else {
            self.rows[count - 1].number
        }
    }

    /// Whether a message of this number and sequence number would cross the kept accepted ones.
    pub fn crosses(&self, number: u64, seq: u32) -> Cross
        ensures value { result ≡ crossing number seq self.now.accepted }
        ensures stands { (history : History) (marks : Marks) → Stands self.now history marks → result ≡ crosses number seq history }
    {
        let place = place_of(&self.accepted, number);
        if is_past(last_below(&self.accepted, number, place), seq) {
            return Cross::Low;
        }
        if is_short(first_above(&self.accepted, number, place), seq) {
            return Cross::High;
        }
        Cross::None
    }

    /// Notes a number that was judged, with its sequence number and mark, and answers the number that is forgotten for
    /// it with its mark, where the window is full. That may be the new one. Takes no memory.
    ///
    /// The number is above the floor and isn't kept, room for it is reserved, and where its message was accepted it
    /// crosses none.
    pub fn note(&mut self, number: u64, seq: u32, mark: Mark) -> Option<(u64, Mark)>
        requires above_floor { self.old.floor < number }
        requires not_kept { mark_in number self.old.rows ≡ None }
        requires apart { is_accepted mark ≡ true → crossing number seq self.old.accepted ≡ Cross.None }
        requires reserved { 0 < self.old.room }
        ensures stands { (history : History) (marks : Marks) (outcome : Outcome) → Stands self.old history marks → was_accepted outcome ≡ is_accepted mark
            → Stands self.new (noted number seq outcome history) (given number mark marks) }
        ensures forgotten { (history : History) (marks : Marks) (outcome : Outcome) → Stands self.old history marks → was_accepted outcome ≡ is_accepted mark
            → result ≡ newly_forgotten (noted number seq outcome history) (given number mark marks) }
        ensures room { self.new.room + 1 ≡ self.old.room }
    {
        self.reserved -= 1;
        if self.rows.len() < WINDOW_NUMBERS {
            enter(&mut self.rows, &mut self.accepted, number, seq, mark);
            return None;
        }
        if number < self.rows[0].number {
            self.forgotten_up_to = number;
            return Some((number, mark));
        }
        let least = take_least(&mut self.rows, &mut self.accepted);
        self.forgotten_up_to = least.number;
        enter(&mut self.rows, &mut self.accepted, number, seq, mark);
        Some((least.number, least.mark))
    }

    /// Gives another mark of an accepted message to a number. Where the number isn't kept, nothing changes; where it is,
    /// its message was accepted. Takes no memory.
    pub fn set(&mut self, number: u64, mark: Mark)
        requires accepted { is_accepted mark ≡ true }
        requires was_accepted { IfSome (mark_in number self.old.rows) (λ last. is_accepted last ≡ true) }
        ensures marked { self.new ≡ record self.old { rows = with_mark number mark self.old.rows } }
        ensures stands { (history : History) (marks : Marks) → Stands self.old history marks → Stands self.new history (given number mark marks) }
        ensures unchanged { mark_in number self.old.rows ≡ None → self.new ≡ self.old }
    {
        let place = place_of(&self.rows, number);
        if place == self.rows.len() {
            return;
        }
        if self.rows[place].number == number {
            self.rows[place] = Row { number, mark };
        }
    }
}
