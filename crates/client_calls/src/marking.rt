//! Calls that are to be sent again.

ghost use Rattle.std.specs.Prelude.{◌≡◌, Some, fold, ℕ, List, map, slice_get, length};
ghost use Rattle.std.specs.List.{zip};
ghost use Rattle.call_table.specs.Kept.{Stands as StandsFor, state_in};
ghost use Rattle.call_table.specs.Table.{IsGiven, Sent, Table, inner_of, with_call};
ghost use Rattle.client_rules.specs.Asking.{alone, alone_if_sent};
ghost use Rattle.client_rules.specs.Taking.{goes_again};
ghost use Rattle.client_calls.specs.Marks.{table_alone, table_inner, table_states, table_told};
ghost use Rattle.client_calls.specs.Sound.{AreSound};

use call_table::{CallNo, Calls, Flags, Group};

/// The bit of a state that says that the message is known.
const IS_KNOWN: u8 = 32;

/// The bit of a state that says that there is an answer.
const HAS_ANSWER: u8 = 64;

/// Whether a message with this state is to be sent again: it isn't known, or its answer is there.
fn goes_again(state: u8) -> bool
    ensures { result ≡ goes_again state }
{
    state & IS_KNOWN == 0 || state & HAS_ANSWER != 0
}

/// A call that is sent is to be sent again, alone.
fn mark(calls: &mut Calls, call: CallNo)
    requires given { IsGiven call calls.old.rows }
    requires sent { state_in call calls.old.rows ≡ Some Sent }
    ensures stands { (table : Table) → StandsFor calls.old table → StandsFor calls.new (with_call call alone table) }
    ensures sound { (last : ℕ) → AreSound last calls.old.rows → AreSound last calls.new.rows }
{
    let flags = calls.flags(call);
    calls.set_flags(
        call,
        Flags {
            alone: true,
            dropping: flags.dropping,
        },
    );
}

/// All calls that are sent are to be sent again, alone.
pub fn mark_sent(calls: &mut Calls)
    ensures sound { (last : ℕ) → AreSound last calls.old.rows → AreSound last calls.new.rows }
    ensures stands { (table : Table) → StandsFor calls.old table → StandsFor calls.new (record table { calls = map alone_if_sent table.calls }) }
{
    let count = calls.members(Group::Outstanding);
    for k in 0..count {
        if let Some(sent) = calls.member(Group::Outstanding, k) {
            mark(calls, sent);
        }
    }
}

/// The call that is outstanding under this number, if there is one, is to be sent again, alone.
fn mark_number(calls: &mut Calls, number: u64)
    ensures stands { (table : Table) → StandsFor calls.old table → StandsFor calls.new (table_alone table number) }
    ensures sound { (last : ℕ) → AreSound last calls.old.rows → AreSound last calls.new.rows }
{
    if let Some(call) = calls.owner(number) {
        mark(calls, call);
    }
}

/// The calls that are outstanding under these message identifiers are to be sent again, alone.
pub fn mark_numbers(calls: &mut Calls, numbers: &[u64])
    ensures stands { (table : Table) → StandsFor calls.old table → StandsFor calls.new (fold table_alone table numbers.now) }
    ensures sound { (last : ℕ) → AreSound last calls.old.rows → AreSound last calls.new.rows }
{
    for place in 0..numbers.len() {
        mark_number(calls, numbers[place]);
    }
}

/// The call that is outstanding under this number, if there is one, is to be sent again where its state says so.
fn mark_state(calls: &mut Calls, number: u64, state: u8)
    ensures stands { (table : Table) → StandsFor calls.old table → StandsFor calls.new (table_told table (number, state)) }
    ensures sound { (last : ℕ) → AreSound last calls.old.rows → AreSound last calls.new.rows }
{
    if goes_again(state) {
        mark_number(calls, number);
    }
}

/// The calls that are outstanding under these numbers are to be sent again where their states say so.
fn mark_told(calls: &mut Calls, numbers: &[u64], states: &[u8])
    requires { length states.now ≡ length numbers.now }
    ensures stands { (table : Table) → StandsFor calls.old table → StandsFor calls.new (fold table_told table (zip numbers.now states.now)) }
    ensures sound { (last : ℕ) → AreSound last calls.old.rows → AreSound last calls.new.rows }
{
    for place in 0..numbers.len() {
        mark_state(calls, numbers[place], states[place]);
    }
}

/// The calls that are outstanding under these message identifiers are to be sent again, alone, where their states say so:
/// a message isn't known, or its answer is there. There is a state, a byte, for each; else no call is marked.
pub fn mark_states(calls: &mut Calls, numbers: &[u64], states: &[u8])
    ensures stands { (table : Table) → StandsFor calls.old table → StandsFor calls.new (table_states numbers.now states.now table) }
    ensures sound { (last : ℕ) → AreSound last calls.old.rows → AreSound last calls.new.rows }
{
    if states.len() == numbers.len() {
        mark_told(calls, numbers, states);
    }
}

/// A number of those in the packet that is remembered under this one.
fn inner_at(calls: &Calls, about: u64, k: usize) -> Option<u64>
    ensures told { (table : Table) → StandsFor calls.now table → (numbers : List ℕ) → inner_of about table.packets ≡ Some numbers → result ≡ slice_get numbers k }
{
    let inner = calls.inner(about)?;
    inner.ids().get(k).copied()
}

/// The calls that are outstanding under so many numbers of those in the packet that is remembered under this one are to be
/// sent again.
fn mark_first(calls: &mut Calls, about: u64, count: usize)
    ensures stands { (table : Table) → StandsFor calls.old table → (numbers : List ℕ) → inner_of about table.packets ≡ Some numbers → length numbers ≡ count → StandsFor calls.new (fold table_alone table numbers) }
    ensures sound { (last : ℕ) → AreSound last calls.old.rows → AreSound last calls.new.rows }
{
    for place in 0..count {
        if let Some(number) = inner_at(calls, about, place) {
            mark_number(calls, number);
        }
    }
}

/// The calls that are outstanding under the message identifiers in the packet that is remembered under this one are to be
/// sent again, alone. Where no packet is remembered under it, none is.
pub fn mark_inner(calls: &mut Calls, about: u64)
    ensures stands { (table : Table) → StandsFor calls.old table → StandsFor calls.new (table_inner (inner_of about table.packets) table) }
    ensures sound { (last : ℕ) → AreSound last calls.old.rows → AreSound last calls.new.rows }
{
    if let Some(inner) = calls.inner(about) {
        let count = inner.ids().len();
        mark_first(calls, about, count);
    }
}
