//! Where in a list a key stands.

ghost use Rattle.std.specs.Prelude.{◌≡◌, ◌∷◌, ◌++◌, [], List, Option, length, OnOk, Some};
ghost use Rattle.std.specs.BTreeMap.{get};
ghost use Rattle.trace_check.specs.declared.numbered.Numbered.{Numbered};
ghost use Rattle.trace_check.specs.Indexes.{Indexes, IsRow, first_of_row, key_cmp};

use crate::numbered::Numbered;
use octets::Memory;
use std::alloc::Global;
use std::collections::BTreeMap;

/// The first and the last place of a key.
#[derive(Clone, Copy)]
pub(crate) struct Row {
    pub(crate) first: usize,
    pub(crate) last: usize,
}

/// The places of keys in a list of which some members have one.
#[derive(Drop)]
pub(crate) struct Table {
    rows: BTreeMap<Numbered, Row>,
}

impl Table {
    /// The table of the empty list.
    pub(crate) fn new(alloc: Global) -> Table
        ensures { Indexes result.rows [] }
    {
        Table {
            rows: BTreeMap::new(alloc),
        }
    }

    /// Puts a member at the end of the list, which has so many.
    pub(crate) fn note(&mut self, key: Option<Numbered>, place: usize) -> Result<(), Memory>
        ensures { OnOk result ((keys : List (Option Numbered)) → Indexes self.old.rows keys → length keys ≡ place → Indexes self.new.rows (keys ++ key ∷ [])) }
    {
        match key {
            Some(key) => self.put(key, place),
            None => Ok(()),
        }
    }

    // Puts a member with this key at the end of the list, which has so many.
    fn put(&mut self, key: Numbered, place: usize) -> Result<(), Memory>
        ensures { OnOk result ((keys : List (Option Numbered)) → Indexes self.old.rows keys → length keys ≡ place → Indexes self.new.rows (keys ++ Some key ∷ [])) }
    {
        let first = self.first_or(key, place);
        self.rows.insert(key, Row { first, last: place })?;
        Ok(())
    }

    // The first place of the key, or this one where there is none.
    fn first_or(&self, key: Numbered, place: usize) -> usize
        ensures { result ≡ first_of_row (get key_cmp self.now.rows key) place }
    {
        match self.rows.get(&key) {
            Some(row) => row.first,
            None => place,
        }
    }

    /// The first and the last place of the key.
    pub(crate) fn find(&self, key: Numbered) -> Option<Row>
        ensures { (keys : List (Option Numbered)) → Indexes self.now.rows keys → IsRow keys key result }
    {
        self.rows.get(&key).copied()
    }
}
