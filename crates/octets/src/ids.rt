//! Lists of identifiers that own their memory.

ghost use Rattle.std.specs.Prelude.{◌≡◌, ◌<◌, ◌^◌, ◌*◌, ◌++◌, ◌==◌, not, [], length, IfOk, OnOk, OnErr};
ghost use Rattle.std.specs.List.{filter};
ghost use Rattle.octets.specs.Bytes.{AreLongs};

use crate::memory::Memory;
use std::alloc::{AllocError, Global};
use std::marker::Model;

/// A list of numbers of 64 bits, such as message identifiers. Contracts see it as the list itself.
#[derive(Debug, Drop)]
pub struct IdList {
    numbers: Vec<u64>,
}

impl Model for IdList {
    ghost use Rattle.std.specs.Prelude.{ℕ, List};

    ghost Value = { List ℕ };

    ghost use Rattle.octets.specs.Bytes.{AreLongs};

    ghost view = { λ list. list.numbers.items };

    ghost invariant = { λ list. AreLongs list.numbers.items };
}

impl IdList {
    /// No number yet. Takes no memory.
    pub fn new(alloc: Global) -> IdList
        ensures { result ≡ [] }
    {
        IdList {
            numbers: Vec::new(alloc),
        }
    }

    /// A copy of the numbers.
    ///
    /// # Errors
    ///
    /// `Memory`.
    pub fn copy(alloc: Global, numbers: &[u64]) -> Result<IdList, Memory>
        ensures { IfOk result (λ list. list ≡ numbers.now) }
    {
        Ok(IdList {
            numbers: Vec::from_slice(alloc, numbers)?,
        })
    }

    /// Puts the numbers at the end.
    ///
    /// # Errors
    ///
    /// `Memory`, and then the list is as it was.
    pub fn push_all(&mut self, _alloc: Global, numbers: &[u64]) -> Result<(), Memory>
        ensures appended { OnOk result (self.new ≡ self.old ++ numbers.now) }
        ensures unchanged_on_memory { OnErr result (self.new ≡ self.old) }
    {
        self.numbers.extend_from_slice(numbers)?;
        Ok(())
    }

    /// Takes out a number wherever it stands; the others stay in order. Takes no memory.
    pub fn remove_all(&mut self, number: u64)
        ensures { self.new ≡ filter (λ other. not (other == number)) self.old }
    {
        self.numbers.retain(|other| *other != number);
    }

    /// The numbers in order. Takes no memory.
    pub fn ids(&self) -> &[u64]
        ensures value { result.now ≡ self.now }
        ensures longs { AreLongs self.now }
        ensures length { 8 * length self.now < 2 ^ 63 }
    {
        self.numbers.as_slice()
    }
}

impl From<Vec<u64>> for IdList {
    ghost from_gives = { λ numbers list. list ≡ numbers.items };

    fn from(numbers: Vec<u64>) -> IdList {
        IdList { numbers }
    }
}

impl Clone for IdList {
    ghost is_clone = { λ list copy. copy ≡ list };

    fn clone(&self) -> Result<IdList, AllocError> {
        Ok(IdList {
            numbers: self.numbers.clone()?,
        })
    }
}
