//! The summary of a world.

ghost use Rattle.std.specs.Prelude.{◌≡◌, ◌+◌, ◌-◌, ◌<◌, ◌^◌, ◌++◌, [], List, OnOk, OnErr};
ghost use Rattle.sim_text.specs.Counts.{calls_part, counted, tally_line, tally_of};
ghost use Rattle.call_table.specs.Kept.{shown};
ghost use Rattle.call_table.specs.Table.{Call};
ghost use Rattle.client_rules.specs.Client.{Client, calls_of};
ghost use Rattle.sim_text.specs.Clients.{StandsFor};

use crate::number::push_number;
use call_table::{CallNo, CallState};
use client_core::Holder;
use itoa::Integer;
use octets::{Memory, Octets};
use std::alloc::Global;
use std::marker::Model;

/// How many calls there are, and what became of them.
#[derive(Clone, Copy, Debug, PartialEq, Eq)]
pub struct Counts {
    calls: u128,
    done: u128,
    refused: u128,
    unknown: u128,
}

impl Model for Counts {
    ghost use Rattle.std.specs.Prelude.{◌≤◌};
    ghost use Rattle.sim_text.specs.Counts.{Tally};

    ghost Value = { Tally };

    ghost view = { λ counts. record { calls = counts.calls; done = counts.done; refused = counts.refused; unknown = counts.unknown } };

    ghost inverse = { λ tally. record { calls = tally.calls; done = tally.done; refused = tally.refused; unknown = tally.unknown } };

    ghost invariant = { λ counts. (counts.done ≤ counts.calls) × (counts.refused ≤ counts.calls) × (counts.unknown ≤ counts.calls) };
}

impl Counts {
    /// No call yet.
    pub fn new() -> Counts
        ensures { result ≡ tally_of [] }
    {
        Counts {
            calls: 0,
            done: 0,
            refused: 0,
            unknown: 0,
        }
    }

    /// Counts the calls of a client beside those before.
    pub fn add(&mut self, holder: &Holder)
        requires { self.old.calls < 2 ^ 127 }
        ensures counted { (whole : Client) (before : List Call) → StandsFor holder.now whole → self.old ≡ tally_of before → self.new ≡ tally_of (before ++ calls_of whole) }
        ensures few { self.new.calls < self.old.calls + 2 ^ 32 }
    {
        for place in 0..holder.calls() {
            let number = place as u64 + 1;
            let told = holder.state(CallNo { n: number });
            self.note(&told);
        }
    }

    /// Counts a call in this state.
    fn note(&mut self, state: &CallState<'_>)
        requires { self.old.calls < 2 ^ 128 - 1 }
        ensures { self.new ≡ counted (shown state.now) self.old }
    {
        match state {
            CallState::Done(_) => self.done += 1,
            CallState::Refused(_) => self.refused += 1,
            CallState::Unknown(_) => self.unknown += 1,
            CallState::Queued | CallState::Sent | CallState::Held => {}
        }
        self.calls += 1;
    }
}

/// What a summary tells.
#[derive(Clone, Copy, Debug, PartialEq, Eq)]
pub struct Summary {
    /// The calls of all clients.
    pub counts: Counts,
    /// How many entries there are for which the service ran.
    pub runs: u128,
    /// How many packets there are.
    pub packets: u64,
    /// Their length together, in bytes.
    pub bytes: u128,
}

/// Puts the line of a summary behind a text.
///
/// # Errors
///
/// `Memory`, and then the text is as it was.
pub fn summary_line(alloc: Global, into: &mut Octets, summary: &Summary) -> Result<(), Memory>
    ensures told { OnOk result (into.new ≡ into.old ++ tally_line summary.now.counts summary.now.runs summary.now.packets summary.now.bytes) }
    ensures unchanged_on_memory { OnErr result (into.new ≡ into.old) }
{
    let mut text = Octets::new(alloc);
    push_counts(alloc, &mut text, &summary.counts)?;
    push_counted(alloc, &mut text, b" runs ", summary.runs)?;
    push_counted(alloc, &mut text, b" packets ", summary.packets)?;
    push_counted(alloc, &mut text, b" bytes ", summary.bytes)?;
    text.push_all(alloc, b"\n")?;
    into.push_all(alloc, text.as_slice())
}

/// Puts what is counted of the calls behind a text.
fn push_counts(alloc: Global, text: &mut Octets, counts: &Counts) -> Result<(), Memory>
    ensures { OnOk result (text.new ≡ text.old ++ calls_part counts.now) }
{
    push_counted(alloc, text, b"calls ", counts.calls)?;
    push_counted(alloc, text, b" done ", counts.done)?;
    push_counted(alloc, text, b" refused ", counts.refused)?;
    push_counted(alloc, text, b" unknown ", counts.unknown)
}

/// Puts a word and a number behind a text.
fn push_counted<I: Integer>(
    alloc: Global,
    text: &mut Octets,
    word: &[u8],
    number: I,
) -> Result<(), Memory>
    ensures { OnOk result (text.new ≡ text.old ++ word.now ++ I.text number) }
{
    text.push_all(alloc, word)?;
    push_number(alloc, text, number)
}
