//! The messages that an event of a session owes so far.

ghost use Rattle.std.specs.Prelude.{◌≡◌, ◌≤◌, ◌<◌, ◌+◌, ◌++◌, ◌∷◌, ◌==◌, [], length, map, slice_index_or, vec_len, vec_capacity, IfOk};
ghost use Rattle.std.specs.List.{list_any};
ghost use Rattle.containers.specs.Lent.{message_of};
ghost use Rattle.msg_ids.specs.Counters.{room};
ghost use Rattle.service_tl.specs.Items.{spelling_of};
ghost use Rattle.packing.specs.Numbering.{after_item, numbered};

use crate::laws::sizes_of_said;
use crate::said::{Outgoing, number_of, spell};
use containers::Part;
use msg_ids::{Moment, Numbers};
use octets::{Buffer, Memory};
use std::alloc::Global;
use std::marker::Model;

/// A message that is owed, with the place of its body in the text of all bodies.
#[derive(Clone, Copy, Debug)]
struct Row {
    number: u64,
    seq: u32,
    start: usize,
    length: usize,
}

/// The messages that an event of one session owes so far, in order, in room that was taken before: for so many messages,
/// whose bodies have so many bytes together. The body of each can go in a packet.
#[derive(Debug, Drop)]
pub struct OutgoingMessages {
    texts: Buffer,
    rows: Vec<Row>,
    places: usize,
}

impl Model for OutgoingMessages {
    ghost use Rattle.std.specs.Prelude.{◌≡◌, ◌+◌, ◌≤◌, length, map, vec_len, vec_capacity};
    ghost use Rattle.std.specs.List.{AllByRecursion};
    ghost use Rattle.server_output.specs.Dues.{Dues, IsRow, message_at, rows_bytes};

    ghost Value = { Dues };

    ghost view = { λ owing. record {
      messages = map (message_at owing.texts.bytes) owing.rows.items;
      places = owing.places;
      room = owing.texts.room;
      places_taken = length owing.rows.items + owing.places;
      bytes_taken = length owing.texts.bytes + owing.texts.room;
    } };

    ghost invariant = { λ owing. AllByRecursion (IsRow owing.texts.bytes) owing.rows.items × (vec_len owing.rows + owing.places ≤ vec_capacity owing.rows)
        × (rows_bytes owing.rows.items ≡ length owing.texts.bytes) };
}

impl OutgoingMessages {
    ghost use Rattle.std.specs.List.{AllByRecursion};
    ghost use Rattle.server_output.specs.Dues.{CanGo, bodies_bytes, has_number};
    ghost use Rattle.server_output.specs.Items.{CanBeSaid, item_of, said_bytes};

    /// Nothing owed yet, and room for `places` messages with `bytes` bytes of bodies together.
    ///
    /// # Errors
    ///
    /// `Memory`.
    pub fn new(alloc: Global, places: usize, bytes: usize) -> Result<OutgoingMessages, Memory>
        ensures { IfOk result (λ owing. owing ≡ record { messages = []; places = places; room = bytes; places_taken = places; bytes_taken = bytes }) }
    {
        Ok(OutgoingMessages {
            texts: Buffer::new(alloc, bytes)?,
            rows: Vec::with_capacity(alloc, places)?,
            places,
        })
    }

    /// How many messages are owed.
    pub fn len(&self) -> usize
        ensures count { result ≡ length self.now.messages }
        ensures can_go { AllByRecursion CanGo self.now.messages }
        ensures places { length self.now.messages + self.now.places ≡ self.now.places_taken }
        ensures bytes { bodies_bytes self.now.messages + self.now.room ≡ self.now.bytes_taken }
    {
        self.rows.len()
    }

    /// Says an item, under the next number of the session: the number and the seq of its message.
    pub fn say(&mut self, now: Moment, numbers: &mut Numbers, said: &Outgoing<'_>) -> (u64, u32)
        requires lawful { CanBeSaid said.now }
        requires place { 0 < self.old.places }
        requires bytes { said_bytes said.now ≤ self.old.room }
        requires numbers { 0 < room numbers.old }
        ensures given { (result.0 ≡ (numbered now numbers.old (item_of said.now)).number) × (result.1 ≡ (numbered now numbers.old (item_of said.now)).seq) }
        ensures owed { self.new.messages ≡ self.old.messages ++ numbered now numbers.old (item_of said.now) ∷ [] }
        ensures places { self.new.places + 1 ≡ self.old.places }
        ensures taken { (self.new.places_taken ≡ self.old.places_taken) × (self.new.bytes_taken ≡ self.old.bytes_taken) }
        ensures left { self.new.room + said_bytes said.now ≡ self.old.room }
        ensures counted { numbers.new ≡ after_item now numbers.old (item_of said.now) }
        ensures room_lasts { room numbers.old ≤ room numbers.new + 1 }
    {
        sizes_of_said();
        let (number, seq) = number_of(now, numbers, said);
        let start = self.texts.as_slice().len();
        spell(&mut self.texts, said);
        let length = self.texts.as_slice().len() - start;
        self.rows.push_reserved(Row {
            number,
            seq,
            start,
            length,
        });
        self.places -= 1;
        (number, seq)
    }

    /// Says an item once more, under the number and seq that it had.
    pub fn again(&mut self, number: u64, seq: u32, said: &Outgoing<'_>)
        requires lawful { CanBeSaid said.now }
        requires place { 0 < self.old.places }
        requires bytes { said_bytes said.now ≤ self.old.room }
        ensures owed { self.new.messages ≡ self.old.messages ++ record { number = number; seq = seq; body = spelling_of (item_of said.now) } ∷ [] }
        ensures places { self.new.places + 1 ≡ self.old.places }
        ensures taken { (self.new.places_taken ≡ self.old.places_taken) × (self.new.bytes_taken ≡ self.old.bytes_taken) }
        ensures left { self.new.room + said_bytes said.now ≡ self.old.room }
    {
        sizes_of_said();
        let start = self.texts.as_slice().len();
        spell(&mut self.texts, said);
        let length = self.texts.as_slice().len() - start;
        self.rows.push_reserved(Row {
            number,
            seq,
            start,
            length,
        });
        self.places -= 1;
    }

    /// Whether an owed message has this number.
    pub fn has_said(&self, number: u64) -> bool
        ensures { result ≡ has_number number self.now.messages }
    {
        has_row(self.rows.as_slice(), number)
    }

    /// Whether nothing is owed.
    pub fn is_empty(&self) -> bool
        ensures { result ≡ (length self.now.messages == 0) }
    {
        self.rows.is_empty()
    }

    /// The message at a place in order, from 0, lent. Takes no memory.
    pub fn at(&self, place: usize) -> Part<'_>
        requires { place < length self.now.messages }
        ensures { message_of result ≡ slice_index_or self.now.messages place (message_of result) }
    {
        let row = self.rows[place];
        Part {
            number: row.number,
            seq: row.seq,
            body: &self.texts.as_slice()[row.start..row.start + row.length],
        }
    }

    // All messages, lent, in a list that has room for them.
    pub(crate) fn lent<'a>(&'a self, parts: Vec<Part<'a>>) -> Vec<Part<'a>>
        requires empty { vec_len parts ≡ 0 }
        requires room { self.now.places_taken ≤ vec_capacity parts }
        ensures lent { map message_of result.items ≡ self.now.messages }
        ensures can_go { AllByRecursion CanGo self.now.messages }
        ensures few { length self.now.messages ≤ self.now.places_taken }
        ensures short { bodies_bytes self.now.messages ≤ self.now.bytes_taken }
    {
        let mut parts = parts;
        for place in 0..self.rows.len() {
            parts.push_reserved(self.at(place));
        }
        parts
    }
}

// Whether a row has this number.
fn has_row(rows: &[Row], number: u64) -> bool
    ensures { result ≡ list_any (λ row. row.number == number) rows.now }
{
    rows.iter().any(|row| row.number == number)
}
