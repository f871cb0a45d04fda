//! Which lines show a break of a sentence.

ghost use Rattle.std.specs.Prelude.{◌≡◌, ◌+◌, ◌<◌, ◌≤◌, ◌↔◌, ℕ, List, IsTrue, IfOk, MatchOption, slice_get};
ghost use Rattle.trace_check.specs.Facts.{At};
ghost use Rattle.trace_check.specs.Lawful.{Fits, IsLawful, IsLawfulBody, IsLawfulName, IsLawfulState, IsNext, IsTrace};
ghost use Rattle.trace_check.specs.Sentences.{DoesWait, HasCause, HasEntry, HasNotRun, IsCause, IsNameOf, IsReplaced, Keeps, RanOnce, WasAsked, number_of};
ghost use Rattle.trace_check.specs.Books.{AreEntries, HasBody, HasLater, HasNoneBefore, HasReplied, IsBook, IsCallerAt, IsCurrent, IsExecuted, IsFirstFrom, IsFirstPlace, IsIdle, IsJudge, IsWaiting};
ghost use Rattle.trace_check.specs.declared.numbered.Numbered.{Numbered};
ghost use Rattle.trace_check.specs.declared.fact.Entry.{Entry};
ghost use Rattle.trace_check.specs.declared.fact.Told.{Told};
ghost use Rattle.trace_check.specs.declared.fact.Fact.TheVariants as said;
ghost use Rattle.trace_check.specs.declared.fact.Told.TheVariants as tells;
ghost use Rattle.trace_check.specs.declared.fact.Cause.{Cause};
ghost use Rattle.trace_check.specs.declared.sentence.Sentence.TheVariants as sentence;

use crate::book::{Book, By, is_before, is_later, whole};
use crate::fact::{Cause, Entry, Fact, Told};
use crate::numbered::Numbered;
use crate::sentence::Sentence;
use crate::starts::served;
use crate::table::{Row, Table};
use octets::Memory;
use std::alloc::Global;

// ---- where a line may stand

/// Whether the line at the place may stand there.
pub(crate) fn fits(book: &Book, place: usize) -> bool
    requires { IsBook book.now }
    ensures { IsTrue result ↔ Fits book.now.facts.items place }
{
    match book.fact(place) {
        Some(fact) => may_stand(book, place, fact),
        None => true,
    }
}

fn may_stand(book: &Book, place: usize, fact: &Fact) -> bool
    requires { IsBook book.now }
    ensures { IsTrue result ↔ IsLawful book.now.facts.items place fact.now }
{
    match fact {
        Fact::Body(call, _) => may_stand_body(book, place, *call),
        Fact::Name(call, name) => may_stand_name(book, place, *call, *name),
        Fact::State(call, _) => may_stand_state(book, place, *call),
        Fact::Entry(_) => true,
        Fact::Made(_) => true,
        Fact::Left(_) => true,
        Fact::Closed(_) => true,
        Fact::Gone(_) => true,
        Fact::Outside => false,
    }
}

// A body of the next call, of which a state is told.
fn may_stand_body(book: &Book, place: usize, call: Numbered) -> bool
    requires { IsBook book.now }
    ensures { IsTrue result ↔ IsLawfulBody book.now.facts.items call place }
{
    if !is_next(book, place, call) {
        return false;
    }
    if book.has_before(By::Body, call, place) {
        return false;
    }
    book.has(By::State, call)
}

// A new name of a call that has a body.
fn may_stand_name(book: &Book, place: usize, call: Numbered, name: Numbered) -> bool
    requires { IsBook book.now }
    ensures { IsTrue result ↔ IsLawfulName book.now.facts.items call name place }
{
    let known = book.has_before(By::Body, call, place);
    let old = book.has_before(By::Name, name, place);
    if !known {
        return false;
    }
    if old {
        return false;
    }
    true
}

// The only state of a call that has a body.
fn may_stand_state(book: &Book, place: usize, call: Numbered) -> bool
    requires { IsBook book.now }
    ensures { IsTrue result ↔ IsLawfulState book.now.facts.items call place }
{
    let known = book.has_before(By::Body, call, place);
    let old = book.has_before(By::State, call, place);
    if !known {
        return false;
    }
    if old {
        return false;
    }
    true
}

// The call before this one.
fn before(call: Numbered) -> Option<Numbered>
    ensures { MatchOption result (call.number < 2) (λ before. (before.owner ≡ call.owner) × (call.number ≡ before.number + 1) × (1 ≤ before.number)) }
{
    if call.number < 2 {
        return None;
    }
    Some(Numbered {
        owner: call.owner,
        number: call.number - 1,
    })
}

// Whether the call is its client's first, or the one before it has a body.
fn is_next(book: &Book, place: usize, call: Numbered) -> bool
    requires { IsBook book.now }
    ensures { IsTrue result ↔ IsNext book.now.facts.items call place }
{
    match before(call) {
        Some(before) => book.has_before(By::Body, before, place),
        None => call.number == 1,
    }
}

// ---- what lines say

// The entry, where the fact is one.
fn entry_in(fact: &Fact) -> Option<&Entry>
    ensures { MatchOption result ((entry : Entry) → fact.now ≡ said.Entry entry → ⊥) (λ entry. fact.now ≡ said.Entry entry.now) }
{
    match fact {
        Fact::Entry(entry) => Some(entry),
        _ => None,
    }
}

// The entry at the place, where there is one.
fn entry_at(book: &Book, place: usize) -> Option<&Entry>
    ensures { MatchOption result ((entry : Entry) → At book.now.facts.items place (said.Entry entry) → ⊥) (λ entry. At book.now.facts.items place (said.Entry entry.now)) }
{
    match book.fact(place) {
        Some(fact) => entry_in(fact),
        None => None,
    }
}

// What the fact tells of a call, where it does.
fn told_in(fact: &Fact) -> Option<(Numbered, &Told)>
    ensures { MatchOption result ((call : Numbered) (told : Told) → fact.now ≡ said.State call told → ⊥) (λ state. fact.now ≡ said.State state.0 state.1.now) }
{
    match fact {
        Fact::State(call, told) => Some((*call, told)),
        _ => None,
    }
}

// What the line at the place tells of a call, where it does.
fn told_at(book: &Book, place: usize) -> Option<(Numbered, &Told)>
    ensures { MatchOption result ((call : Numbered) (told : Told) → At book.now.facts.items place (said.State call told) → ⊥) (λ state. At book.now.facts.items place (said.State state.0 state.1.now)) }
{
    match book.fact(place) {
        Some(fact) => told_in(fact),
        None => None,
    }
}

// Whether the fact is a body, and this one.
fn is_body(fact: &Fact, request: &[u8]) -> bool
    ensures { IsTrue result ↔ ((call : Numbered) × (fact.now ≡ said.Body call request.now)) }
{
    match fact {
        Fact::Body(_, body) => body.as_slice() == request,
        _ => false,
    }
}

// Whether the fact tells of a call that waits.
fn is_wait(fact: &Fact) -> bool
    ensures { IsTrue result ↔ ((call : Numbered) × (told : Told) × (fact.now ≡ said.State call told) × DoesWait told) }
{
    match fact {
        Fact::State(_, told) => does_wait(told),
        _ => false,
    }
}

// The name, where the fact is one.
fn name_in(fact: &Fact) -> Option<Numbered>
    ensures { MatchOption result ((call name : Numbered) → fact.now ≡ said.Name call name → ⊥) (λ name. (call : Numbered) × (fact.now ≡ said.Name call name)) }
{
    match fact {
        Fact::Name(_, name) => Some(*name),
        _ => None,
    }
}

// ---- the calls of entries

// The call over whose name the line at the place is an entry.
fn caller_at(book: &Book, place: usize) -> Option<Numbered>
    requires { IsBook book.now }
    ensures { IsCallerAt book.now.facts.items place result }
{
    match entry_at(book, place) {
        Some(entry) => book.caller(entry.name),
        None => None,
    }
}

// The entries, by their calls.
fn executed(alloc: Global, book: &Book) -> Result<Table, Memory>
    requires book { IsBook book.now }
    requires lawful { IsTrace book.now.facts.items }
    ensures { IfOk result (λ table. IsExecuted book.now.facts.items table) }
{
    let mut table = Table::new(alloc);
    for place in 0..book.facts.len() {
        let caller = caller_at(book, place);
        table.note(caller, place)?;
    }
    Ok(table)
}

// ---- the six sentences

/// A trace with no bad line, its entries by their calls, and for each place whether the registers served it.
#[derive(Drop)]
pub(crate) struct Judge {
    book: Book,
    executed: Table,
    served: Vec<bool>,
}

impl Judge {
    /// Makes the tables of a trace.
    pub(crate) fn new(alloc: Global, book: Book) -> Result<Judge, Memory>
        requires book { IsBook book }
        requires lawful { IsTrace book.facts.items }
        ensures facts { IfOk result (λ judge. judge.book.facts.items ≡ book.facts.items) }
        ensures judge { IfOk result IsJudge }
    {
        let executed = executed(alloc, &book)?;
        let served = served(alloc, book.facts.as_slice())?;
        Ok(Judge {
            book,
            executed,
            served,
        })
    }

    /// The first line that shows a break of the least sentence that has such a line.
    pub(crate) fn first_break(&self) -> Option<(Sentence, usize)>
        requires { IsJudge self.now }
        ensures { IsFirstFrom self.now.book.facts.items 1 result }
    {
        let found = self.earlier(Sentence::Served, None);
        let found = self.earlier(Sentence::Unknown, found);
        let found = self.earlier(Sentence::Replaced, found);
        let found = self.earlier(Sentence::Done, found);
        let found = self.earlier(Sentence::AsSent, found);
        self.earlier(Sentence::AtMostOnce, found)
    }

    // The break of this sentence, or that of a later one.
    fn earlier(
        &self,
        sentence: Sentence,
        later: Option<(Sentence, usize)>,
    ) -> Option<(Sentence, usize)>
        requires { IsJudge self.now }
        ensures { IsFirstFrom self.now.book.facts.items (number_of sentence + 1) later → IsFirstFrom self.now.book.facts.items (number_of sentence) result }
    {
        match self.first_place(sentence) {
            Some(place) => Some((sentence, place)),
            None => later,
        }
    }

    // The first place that shows a break of the sentence.
    fn first_place(&self, sentence: Sentence) -> Option<usize>
        requires { IsJudge self.now }
        ensures { IsFirstPlace sentence self.now.book.facts.items result }
    {
        for place in 0..self.book.facts.len() {
            if !self.keeps(sentence, place) {
                return Some(place);
            }
        }
        None
    }

    // Whether the line at the place shows no break of the sentence.
    fn keeps(&self, sentence: Sentence, place: usize) -> bool
        requires { IsJudge self.now }
        ensures { IsTrue result ↔ Keeps sentence self.now.book.facts.items place }
    {
        match sentence {
            Sentence::AtMostOnce => self.is_first(place),
            Sentence::AsSent => self.was_asked(place),
            Sentence::Done => self.ran_once(place),
            Sentence::Replaced => self.is_unreplaced(place),
            Sentence::Unknown => self.has_cause(place),
            Sentence::Served => self.was_served(place),
        }
    }

    // The places of the entries over the names of a call.
    fn entries(&self, call: Numbered) -> Option<Row>
        requires { IsJudge self.now }
        ensures { AreEntries self.now.book.facts.items call result }
    {
        self.executed.find(call)
    }

    // ---- at most one entry

    // Whether no entry before this one is of the same call.
    fn is_first(&self, place: usize) -> bool
        requires { IsJudge self.now }
        ensures { IsTrue result ↔ Keeps sentence.AtMostOnce self.now.book.facts.items place }
    {
        match caller_at(&self.book, place) {
            Some(call) => self.has_none_before(call, place),
            None => true,
        }
    }

    fn has_none_before(&self, call: Numbered, place: usize) -> bool
        requires { IsJudge self.now }
        ensures { IsTrue result ↔ HasNoneBefore self.now.book.facts.items call place }
    {
        let row = self.entries(call);
        if is_before(row, place) {
            return false;
        }
        true
    }

    // ---- each entry was asked for

    fn was_asked(&self, place: usize) -> bool
        requires { IsJudge self.now }
        ensures { IsTrue result ↔ Keeps sentence.AsSent self.now.book.facts.items place }
    {
        match entry_at(&self.book, place) {
            Some(entry) => self.is_asked(entry),
            None => true,
        }
    }

    fn is_asked(&self, entry: &Entry) -> bool
        requires { IsJudge self.now }
        ensures { IsTrue result ↔ WasAsked self.now.book.facts.items entry.now }
    {
        match self.book.caller(entry.name) {
            Some(call) => self.has_body(call, entry.request.as_slice()),
            None => false,
        }
    }

    // Whether this is the body of the call.
    fn has_body(&self, call: Numbered, request: &[u8]) -> bool
        requires { IsJudge self.now }
        ensures { IsTrue result ↔ HasBody self.now.book.facts.items call request.now }
    {
        match self.book.first(By::Body, call) {
            Some(fact) => is_body(fact, request),
            None => false,
        }
    }

    // ---- a call that is done

    fn ran_once(&self, place: usize) -> bool
        requires { IsJudge self.now }
        ensures { IsTrue result ↔ Keeps sentence.Done self.now.book.facts.items place }
    {
        match told_at(&self.book, place) {
            Some((call, told)) => self.is_done_once(call, told),
            None => true,
        }
    }

    // Whether a call that is done has one entry, with its reply.
    fn is_done_once(&self, call: Numbered, told: &Told) -> bool
        requires { IsJudge self.now }
        ensures { IsTrue result ↔ ((reply : List ℕ) → told.now ≡ tells.Done reply → RanOnce self.now.book.facts.items call reply) }
    {
        match told {
            Told::Done(reply) => self.is_only(call, reply.as_slice()),
            _ => true,
        }
    }

    // Whether the call has one entry, with this reply.
    fn is_only(&self, call: Numbered, reply: &[u8]) -> bool
        requires { IsJudge self.now }
        ensures { IsTrue result ↔ RanOnce self.now.book.facts.items call reply.now }
    {
        match self.entries(call) {
            Some(row) => self.is_only_at(row, reply),
            None => false,
        }
    }

    fn is_only_at(&self, row: Row, reply: &[u8]) -> bool
        ensures { IsTrue result ↔ ((row.first ≡ row.last) × HasReplied self.now.book.facts.items row.first reply.now) }
    {
        let once = row.first == row.last;
        if !once {
            return false;
        }
        self.has_replied(row.first, reply)
    }

    // Whether the line at the place is an entry with this reply.
    fn has_replied(&self, place: usize, reply: &[u8]) -> bool
        ensures { IsTrue result ↔ HasReplied self.now.book.facts.items place reply.now }
    {
        match entry_at(&self.book, place) {
            Some(entry) => entry.reply.as_slice() == reply,
            None => false,
        }
    }

    // ---- replaced names, and calls that have not run

    fn is_unreplaced(&self, place: usize) -> bool
        requires { IsJudge self.now }
        ensures { IsTrue result ↔ Keeps sentence.Replaced self.now.book.facts.items place }
    {
        if !self.is_current(place) {
            return false;
        }
        self.has_not_run(place)
    }

    // Whether the line at the place is no entry over a replaced name.
    fn is_current(&self, place: usize) -> bool
        requires { IsJudge self.now }
        ensures { IsTrue result ↔ IsCurrent self.now.book.facts.items place }
    {
        match entry_at(&self.book, place) {
            Some(entry) => self.is_living(entry.name),
            None => true,
        }
    }

    // Whether the name is no replaced one of a call.
    fn is_living(&self, name: Numbered) -> bool
        requires { IsJudge self.now }
        ensures { IsTrue result ↔ ((call : Numbered) → IsNameOf self.now.book.facts.items call name → IsReplaced self.now.book.facts.items call name → ⊥) }
    {
        match self.book.caller(name) {
            Some(call) => self.is_last(call, name),
            None => true,
        }
    }

    // Whether the name is the last of a call that doesn't wait.
    fn is_last(&self, call: Numbered, name: Numbered) -> bool
        requires judge { IsJudge self.now }
        requires named { IsNameOf self.now.book.facts.items call name }
        ensures { IsTrue result ↔ (IsReplaced self.now.book.facts.items call name → ⊥) }
    {
        if self.has_later(call, name) {
            return false;
        }
        if self.waits(call) {
            return false;
        }
        true
    }

    // Whether the call has a later name.
    fn has_later(&self, call: Numbered, name: Numbered) -> bool
        requires judge { IsJudge self.now }
        requires named { IsNameOf self.now.book.facts.items call name }
        ensures { IsTrue result ↔ HasLater self.now.book.facts.items call name }
    {
        let own = self.book.row(By::Name, name);
        let all = self.book.row(By::Call, call);
        is_later(own, all)
    }

    // Whether the call waits for a number.
    fn waits(&self, call: Numbered) -> bool
        requires { IsJudge self.now }
        ensures { IsTrue result ↔ IsWaiting self.now.book.facts.items call }
    {
        match self.book.first(By::State, call) {
            Some(fact) => is_wait(fact),
            None => false,
        }
    }

    // Whether the line at the place tells of no call that has not run and yet has an entry.
    fn has_not_run(&self, place: usize) -> bool
        requires { IsJudge self.now }
        ensures { IsTrue result ↔ IsIdle self.now.book.facts.items place }
    {
        match told_at(&self.book, place) {
            Some((call, told)) => self.is_unrun(call, told),
            None => true,
        }
    }

    // Whether a call that has not run has no entry.
    fn is_unrun(&self, call: Numbered, told: &Told) -> bool
        requires { IsJudge self.now }
        ensures { IsTrue result ↔ (HasNotRun told.now → HasEntry self.now.book.facts.items call → ⊥) }
    {
        if !is_idle(told) {
            return true;
        }
        self.has_no_entry(call)
    }

    fn has_no_entry(&self, call: Numbered) -> bool
        requires { IsJudge self.now }
        ensures { IsTrue result ↔ (HasEntry self.now.book.facts.items call → ⊥) }
    {
        match self.entries(call) {
            Some(_) => false,
            None => true,
        }
    }

    // ---- causes

    fn has_cause(&self, place: usize) -> bool
        requires { IsJudge self.now }
        ensures { IsTrue result ↔ Keeps sentence.Unknown self.now.book.facts.items place }
    {
        match told_at(&self.book, place) {
            Some((call, told)) => self.is_lost_so(call, told),
            None => true,
        }
    }

    // Whether the cause that is told, where one is, holds of the last name of the call.
    fn is_lost_so(&self, call: Numbered, told: &Told) -> bool
        requires { IsJudge self.now }
        ensures { IsTrue result ↔ ((cause : Cause) → told.now ≡ tells.Unknown cause → HasCause self.now.book.facts.items call cause) }
    {
        match told {
            Told::Unknown(cause) => self.is_lost_by(call, *cause),
            _ => true,
        }
    }

    // Whether the cause holds of the last name of the call.
    fn is_lost_by(&self, call: Numbered, cause: Cause) -> bool
        requires { IsJudge self.now }
        ensures { IsTrue result ↔ HasCause self.now.book.facts.items call cause }
    {
        match self.book.last(By::Call, call) {
            Some(fact) => self.is_cause_at(fact, cause),
            None => false,
        }
    }

    // Whether the cause holds of the name that the fact is.
    fn is_cause_at(&self, fact: &Fact, cause: Cause) -> bool
        requires { IsJudge self.now }
        ensures { IsTrue result ↔ ((call name : Numbered) × (fact.now ≡ said.Name call name) × IsCause self.now.book.facts.items name cause) }
    {
        match name_in(fact) {
            Some(name) => self.is_cause(name, cause),
            None => false,
        }
    }

    fn is_cause(&self, name: Numbered, cause: Cause) -> bool
        requires { IsJudge self.now }
        ensures { IsTrue result ↔ IsCause self.now.book.facts.items name cause }
    {
        match cause {
            Cause::Session => self.book.has_two(By::Made, whole(name.owner)),
            Cause::Renewed => self.book.has(By::Left, whole(name.owner)),
            Cause::Ended => self.book.has(By::Closed, whole(name.owner)),
            Cause::Forgotten => self.book.has(By::Gone, name),
        }
    }

    // ---- replies

    fn served_at(&self, place: usize) -> Option<bool>
        ensures { result ≡ slice_get self.now.served.items place }
    {
        self.served.get(place).copied()
    }

    fn was_served(&self, place: usize) -> bool
        requires { IsJudge self.now }
        ensures { IsTrue result ↔ Keeps sentence.Served self.now.book.facts.items place }
    {
        match self.served_at(place) {
            Some(served) => served,
            None => true,
        }
    }
}

fn does_wait(told: &Told) -> bool
    ensures { IsTrue result ↔ DoesWait told.now }
{
    match told {
        Told::Queued => true,
        Told::Held => true,
        _ => false,
    }
}

fn is_idle(told: &Told) -> bool
    ensures { IsTrue result ↔ HasNotRun told.now }
{
    match told {
        Told::Queued => true,
        Told::Held => true,
        Told::Refused(_) => true,
        _ => false,
    }
}
