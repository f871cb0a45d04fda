//! Facts, with tables of where what they speak of stands.

ghost use Rattle.std.specs.Prelude.{◌≡◌, ◌<◌, ◌↔◌, ℕ, Some, IsTrue, IfOk, IfSome, MatchOption, length, map, slice_get};
ghost use Rattle.std.specs.Option.{option_copied};
ghost use Rattle.trace_check.specs.Indexes.{IsRow, Indexes, row_before, row_later, row_twice};
ghost use Rattle.trace_check.specs.Facts.{At};
ghost use Rattle.trace_check.specs.Keys.{IsMarked, IsMarkedBefore, IsMarkedTwice, Marks};
ghost use Rattle.trace_check.specs.Keys as keys;
ghost use Rattle.trace_check.specs.Sentences.{IsNameOf};
ghost use Rattle.trace_check.specs.Books.{IsBook, IsLastMark, table_of};
ghost use Rattle.trace_check.specs.declared.numbered.Numbered.{Numbered};
ghost use Rattle.trace_check.specs.declared.fact.Fact.TheVariants as said;

use crate::fact::Fact;
use crate::numbered::Numbered;
use crate::table::{Row, Table};
use octets::Memory;
use std::alloc::Global;

/// By what lines are looked up.
#[derive(Clone, Copy)]
pub(crate) enum By {
    /// A `body`, by its call.
    Body,
    /// A `state`, by its call.
    State,
    /// A `name`, by itself.
    Name,
    /// A `name`, by its call.
    Call,
    /// A `made`, by its session.
    Made,
    /// A `left`, by its session.
    Left,
    /// A `closed`, by its session.
    Closed,
    /// A `gone`, by its name.
    Gone,
}

/// A session as a whole.
pub(crate) fn whole(session: u64) -> Numbered
    ensures { result ≡ keys.whole session }
{
    Numbered {
        owner: session,
        number: 0,
    }
}

// The call whose name the fact is, where it is one.
fn caller_in(fact: &Fact) -> Option<Numbered>
    ensures { MatchOption result ((call name : Numbered) → fact.now ≡ said.Name call name → ⊥) (λ call. (name : Numbered) × (fact.now ≡ said.Name call name)) }
{
    match fact {
        Fact::Name(call, _) => Some(*call),
        _ => None,
    }
}

// What a line of this kind speaks of.
fn key_of(by: By, fact: &Fact) -> Option<Numbered>
    ensures { result ≡ keys.key_of by fact.now }
{
    match (by, fact) {
        (By::Body, Fact::Body(call, _)) => Some(*call),
        (By::State, Fact::State(call, _)) => Some(*call),
        (By::Name, Fact::Name(_, name)) => Some(*name),
        (By::Call, Fact::Name(call, _)) => Some(*call),
        (By::Made, Fact::Made(session)) => Some(whole(*session)),
        (By::Left, Fact::Left(session)) => Some(whole(*session)),
        (By::Closed, Fact::Closed(session)) => Some(whole(*session)),
        (By::Gone, Fact::Gone(name)) => Some(*name),
        _ => None,
    }
}

// What the line at a place speaks of.
fn key_at(by: By, facts: &[Fact], place: usize) -> Option<Numbered>
    requires { place < length facts.now }
    ensures { IfSome (slice_get facts.now place) (λ fact. result ≡ keys.key_of by fact) }
{
    key_of(by, &facts[place])
}

// The table of the lines of this kind.
fn index(alloc: Global, facts: &[Fact], by: By) -> Result<Table, Memory>
    ensures { IfOk result (λ table. Indexes table.rows (map (keys.key_of by) facts.now)) }
{
    let mut table = Table::new(alloc);
    for place in 0..facts.len() {
        let key = key_at(by, facts, place);
        table.note(key, place)?;
    }
    Ok(table)
}

/// The facts of a text, one a line, with a table for each kind of line.
#[derive(Drop)]
pub(crate) struct Book {
    pub(crate) facts: Vec<Fact>,
    bodies: Table,
    states: Table,
    names: Table,
    calls: Table,
    made: Table,
    left: Table,
    closed: Table,
    gone: Table,
}

impl Book {
    /// Makes the tables.
    pub(crate) fn new(alloc: Global, facts: Vec<Fact>) -> Result<Book, Memory>
        ensures facts { IfOk result (λ book. book.facts.items ≡ facts.items) }
        ensures tables { IfOk result IsBook }
    {
        let said = facts.as_slice();
        let bodies = index(alloc, said, By::Body)?;
        let states = index(alloc, said, By::State)?;
        let names = index(alloc, said, By::Name)?;
        let calls = index(alloc, said, By::Call)?;
        let made = index(alloc, said, By::Made)?;
        let left = index(alloc, said, By::Left)?;
        let closed = index(alloc, said, By::Closed)?;
        let gone = index(alloc, said, By::Gone)?;
        Ok(Book {
            facts,
            bodies,
            states,
            names,
            calls,
            made,
            left,
            closed,
            gone,
        })
    }

    /// What the line at a place says, where there is one.
    pub(crate) fn fact(&self, place: usize) -> Option<&Fact>
        ensures { option_copied result ≡ slice_get self.now.facts.items place }
    {
        self.facts.get(place)
    }

    fn table(&self, by: By) -> &Table
        ensures { result.now ≡ table_of by self.now }
    {
        match by {
            By::Body => &self.bodies,
            By::State => &self.states,
            By::Name => &self.names,
            By::Call => &self.calls,
            By::Made => &self.made,
            By::Left => &self.left,
            By::Closed => &self.closed,
            By::Gone => &self.gone,
        }
    }

    /// The places of the lines of this kind that speak of the key.
    pub(crate) fn row(&self, by: By, key: Numbered) -> Option<Row>
        ensures { IsBook self.now → IsRow (map (keys.key_of by) self.now.facts.items) key result }
    {
        self.table(by).find(key)
    }

    /// Whether a line of this kind speaks of the key.
    pub(crate) fn has(&self, by: By, key: Numbered) -> bool
        requires { IsBook self.now }
        ensures { IsTrue result ↔ IsMarked by self.now.facts.items key }
    {
        self.row(by, key).is_some()
    }

    /// Whether a line of this kind before the place speaks of the key.
    pub(crate) fn has_before(&self, by: By, key: Numbered, place: usize) -> bool
        requires { IsBook self.now }
        ensures { IsTrue result ↔ IsMarkedBefore by self.now.facts.items key place }
    {
        is_before(self.row(by, key), place)
    }

    /// Whether two lines of this kind speak of the key.
    pub(crate) fn has_two(&self, by: By, key: Numbered) -> bool
        requires { IsBook self.now }
        ensures { IsTrue result ↔ IsMarkedTwice by self.now.facts.items key }
    {
        is_twice(self.row(by, key))
    }

    /// What the first line of this kind that speaks of the key says.
    pub(crate) fn first(&self, by: By, key: Numbered) -> Option<&Fact>
        requires { IsBook self.now }
        ensures { MatchOption result (IsMarked by self.now.facts.items key → ⊥) (λ fact. (place : ℕ) × At self.now.facts.items place fact.now × (keys.key_of by fact.now ≡ Some key)) }
    {
        match self.row(by, key) {
            Some(row) => self.fact(row.first),
            None => None,
        }
    }

    /// What the last line of this kind that speaks of the key says.
    pub(crate) fn last(&self, by: By, key: Numbered) -> Option<&Fact>
        requires { IsBook self.now }
        ensures { MatchOption result (IsMarked by self.now.facts.items key → ⊥) (λ fact. IsLastMark by self.now.facts.items key fact.now) }
    {
        match self.row(by, key) {
            Some(row) => self.fact(row.last),
            None => None,
        }
    }

    /// The call whose name this is.
    pub(crate) fn caller(&self, name: Numbered) -> Option<Numbered>
        requires { IsBook self.now }
        ensures { MatchOption result ((call : Numbered) → IsNameOf self.now.facts.items call name → ⊥) (λ call. IsNameOf self.now.facts.items call name) }
    {
        match self.first(By::Name, name) {
            Some(fact) => caller_in(fact),
            None => None,
        }
    }
}

/// Whether the first place is before this one.
pub(crate) fn is_before(row: Option<Row>, place: usize) -> bool
    ensures { result ≡ row_before row place }
{
    match row {
        Some(row) => row.first < place,
        None => false,
    }
}

// Whether there are two places.
fn is_twice(row: Option<Row>) -> bool
    ensures { result ≡ row_twice row }
{
    match row {
        Some(row) => row.first < row.last,
        None => false,
    }
}

/// Whether the first place of the one is before the last of the other.
pub(crate) fn is_later(own: Option<Row>, all: Option<Row>) -> bool
    ensures { result ≡ row_later own all }
{
    match (own, all) {
        (Some(own), Some(all)) => own.first < all.last,
        _ => false,
    }
}
