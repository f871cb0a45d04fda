//! Which packets were given.

ghost use Rattle.std.specs.Prelude.{◌≡◌, ◌<◌, ◌∷◌, ◌++◌, [], ℕ, List, OnErr, OnOk, false, get_or, length};
ghost use Rattle.world_rules.specs.Load.{first_ungiven};
ghost use Rattle.sim_load.specs.Given.{Notes};

use octets::Memory;
use std::alloc::Global;
use std::marker::Model;

/// The numbers of the packets that were given so far, by a flag for each, and the first that wasn't given, from 1.
#[derive(Drop)]
pub(crate) struct Given {
    flags: Vec<bool>,
    first: usize,
}

impl Model for Given {
    ghost use Rattle.std.specs.Prelude.{Bool, List};
    ghost use Rattle.sim_load.specs.Given.{AreGivenBelow};

    ghost Value = { List Bool };

    ghost view = { λ given. given.flags.items };

    ghost invariant = { λ given. AreGivenBelow given.flags.items given.first };
}

impl Given {
    /// None was given. Takes no memory.
    pub(crate) fn new(alloc: Global) -> Given
        ensures { Notes result [] }
    {
        Given {
            flags: Vec::new(alloc),
            first: 1,
        }
    }

    /// The first of so many packets that wasn't given, counted from 1.
    pub(crate) fn first_ungiven(&mut self, count: u64) -> Option<u64>
        ensures first { (given : List ℕ) → Notes self.old given → result ≡ first_ungiven 1 count given }
        ensures same { self.new ≡ self.old }
    {
        while self.first < self.flags.len() && self.flags[self.first] {
            self.first += 1;
        }
        let first = self.first as u64;
        if first <= count { Some(first) } else { None }
    }

    /// A packet is given.
    ///
    /// # Errors
    ///
    /// `Memory`, and then all is as it was.
    pub(crate) fn note(&mut self, packet: u64) -> Result<(), Memory>
        ensures noted { (given : List ℕ) → Notes self.old given → OnOk result (Notes self.new (given ++ packet ∷ [])) }
        ensures unchanged { OnErr result (self.new ≡ self.old) }
    {
        let place = packet as usize;
        self.covers(place)?;
        self.flags[place] = true;
        Ok(())
    }

    // There is a flag of this number.
    fn covers(&mut self, place: usize) -> Result<(), Memory>
        ensures same { (number : ℕ) → get_or self.new number false ≡ get_or self.old number false }
        ensures covered { OnOk result (place < length self.new) }
        ensures unchanged { OnErr result (self.new ≡ self.old) }
    {
        if place < self.flags.len() {
            return Ok(());
        }
        let Some(len) = place.checked_add(1) else {
            return Err(Memory);
        };
        self.flags.resize(len, false)?;
        Ok(())
    }
}
