//! Lists of numbers with room that was taken before.

ghost use Rattle.std.specs.Prelude.{◌≡◌, ◌-◌, ◌<◌, ◌==◌, ◌++◌, ◌∷◌, [], OnOk, OnErr, length, max, nat_le};
ghost use Rattle.std.specs.List.{list_any};
ghost use Rattle.octets.specs.Bytes.{AreLongs};

use octets::Memory;
use std::alloc::Global;
use std::marker::Model;

/// A list of numbers that takes one more in room that was taken before. Contracts see the numbers, and for how many more
/// there is room.
#[derive(Drop)]
pub(crate) struct NumberList {
    numbers: Vec<u64>,
    room: usize,
}

impl Model for NumberList {
    ghost use Rattle.std.specs.Prelude.{◌+◌, ◌≤◌, vec_len, vec_capacity};
    ghost use Rattle.octets.specs.Bytes.{AreLongs};
    ghost use Rattle.client_core.specs.Numbers.{Numbers};

    ghost Value = { Numbers };

    ghost view = { λ list. record { numbers = list.numbers.items; room = list.room } };

    ghost invariant = { λ list. AreLongs list.numbers.items × (vec_len list.numbers + list.room ≤ vec_capacity list.numbers) };
}

impl NumberList {
    /// No number yet, and no room. Takes no memory.
    pub(crate) fn new(alloc: Global) -> NumberList
        ensures { result ≡ record { numbers = []; room = 0 } }
    {
        NumberList {
            numbers: Vec::new(alloc),
            room: 0,
        }
    }

    /// Takes room until there is some for `room` numbers.
    ///
    /// # Errors
    ///
    /// `Memory`: memory ran out, and the list is as it was.
    pub(crate) fn reserve(&mut self, room: usize) -> Result<(), Memory>
        ensures taken { OnOk result (self.new ≡ record self.old { room = max self.old.room room }) }
        ensures unchanged_on_memory { OnErr result (self.new ≡ self.old) }
    {
        if self.room < room {
            self.numbers.reserve(room)?;
            self.room = room;
        }
        Ok(())
    }

    /// Puts a number at the end. Takes no memory.
    pub(crate) fn push(&mut self, number: u64)
        requires { 0 < self.old.room }
        ensures { self.new ≡ record { numbers = self.old.numbers ++ number ∷ []; room = self.old.room - 1 } }
    {
        self.numbers.push_reserved(number);
        self.room -= 1;
    }

    /// No number any more. What room there was stays.
    pub(crate) fn clear(&mut self)
        ensures { self.new ≡ record self.old { numbers = [] } }
    {
        self.numbers.clear();
    }

    /// The numbers in order. Takes no memory.
    pub(crate) fn ids(&self) -> &[u64]
        ensures value { result.now ≡ self.now.numbers }
        ensures longs { AreLongs self.now.numbers }
    {
        self.numbers.as_slice()
    }

    /// Whether there are so many, or more.
    pub(crate) fn has_at_least(&self, count: usize) -> bool
        ensures { result ≡ nat_le count (length self.now.numbers) }
    {
        count <= self.numbers.len()
    }

    /// Whether a number is one of them.
    pub(crate) fn has(&self, number: u64) -> bool
        ensures { result ≡ list_any (λ one. one == number) self.now.numbers }
    {
        self.numbers.contains(&number)
    }
}
