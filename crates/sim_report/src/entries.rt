//! The lines of all entries, and how many of them ran.

ghost use Rattle.std.specs.Prelude.{◌≡◌, ◌++◌, List, OnOk, length, map, take};
ghost use Rattle.std.specs.List.{filter, flat_map};
ghost use Rattle.server_dispatch.specs.Entries.{entry_told};
ghost use Rattle.world_rules.specs.Report.{entry_line};
ghost use Rattle.world_rules.specs.World.{Seat};
ghost use Rattle.sim_server.specs.Registers.{entered, entered_in};
ghost use Rattle.sim_clients.specs.Standing.{Stand};

use octets::{Memory, Octets};
use server_dispatch::Entry;
use sim_clients::Seats;
use sim_server::Recorded;
use sim_text::EntryLine;
use std::alloc::Global;

/// Puts the line of each entry behind a text.
pub(crate) fn push_entries(
    alloc: Global,
    text: &mut Octets,
    events: &[Recorded],
    clients: &Seats,
) -> Result<(), Memory>
    ensures told { (seats : List Seat) → Stand clients.now seats → OnOk result (text.new ≡ text.old ++ flat_map (entry_line seats) (flat_map entered_in events.now)) }
    ensures behind { take (length text.old) text.new ≡ text.old }
{
    for event in events {
        push_event(alloc, text, event.start, event.entries.as_slice(), clients)?;
    }
    Ok(())
}

/// Puts the line of each entry of one event behind a text; it was in this start.
fn push_event(
    alloc: Global,
    text: &mut Octets,
    start: u64,
    entries: &[Entry],
    clients: &Seats,
) -> Result<(), Memory>
    ensures told { (seats : List Seat) → Stand clients.now seats → OnOk result (text.new ≡ text.old ++ flat_map (entry_line seats) (map (entered start) (map entry_told entries.now))) }
    ensures behind { take (length text.old) text.new ≡ text.old }
{
    for entry in entries {
        push_entry(alloc, text, start, entry, clients)?;
    }
    Ok(())
}

/// Puts the line of an entry of this start behind a text.
fn push_entry(
    alloc: Global,
    text: &mut Octets,
    start: u64,
    entry: &Entry,
    clients: &Seats,
) -> Result<(), Memory>
    ensures told { (seats : List Seat) → Stand clients.now seats → OnOk result (text.new ≡ text.old ++ entry_line seats (entered start (entry_told entry.now))) }
    ensures behind { take (length text.old) text.new ≡ text.old }
{
    let line = EntryLine {
        start,
        client: clients.owner(entry.session).unwrap_or(0) as u64,
        number: entry.number,
        reply: &entry.reply,
        ran: entry.ran,
    };
    sim_text::entry_line(alloc, text, &line)
}

/// How many entries there are for which the service ran.
pub(crate) fn runs(events: &[Recorded]) -> u128
    ensures { result ≡ length (filter (λ entered. entered.entry.ran) (flat_map entered_in events.now)) }
{
    let mut runs = 0u128;
    for event in events {
        runs += runs_in(event.entries.as_slice()) as u128;
    }
    runs
}

/// How many entries of one event there are for which the service ran.
fn runs_in(entries: &[Entry]) -> usize
    ensures { result ≡ length (filter (λ entry. entry.ran) entries.now) }
{
    entries.iter().filter(|entry| entry.ran).count()
}
