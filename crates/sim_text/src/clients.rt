//! The lines of all calls.

ghost use Rattle.std.specs.Prelude.{◌≡◌, ◌+◌, ◌-◌, ◌<◌, ◌^◌, ◌++◌, List, Some, OnOk, OnErr, length, slice_get, take};
ghost use Rattle.std.specs.List.{flat_map};
ghost use Rattle.call_table.specs.Table.{Call};
ghost use Rattle.client_rules.specs.Client.{calls_of};
ghost use Rattle.world_rules.specs.Report.{call_lines, client_lines};
ghost use Rattle.world_rules.specs.World.{Seat};
ghost use Rattle.sim_text.specs.Counts.{tally_of};

use crate::client::calls_of_client;
use crate::summary::Counts;
use client_core::Holder;
use octets::{Memory, Octets};
use std::alloc::Global;

/// Clients that stand in order, and are lent one by one.
pub trait Clients {
    ghost use Rattle.std.specs.Prelude.{◌≡◌, List, MatchOption, None, length, slice_get};
    ghost use Rattle.world_rules.specs.World.{Seat};
    ghost use Rattle.sim_text.specs.Clients.{IsClientOf};

    /// The clients stand for these seats.
    ghost stands: { Self → List Seat → Type 0 };

    /// How many there are.
    fn client_count(&self) -> usize
        ensures { (seats : List Seat) → stands self.now seats → result ≡ length seats };

    /// The client at this place, from 0; none exactly where there is none.
    fn holder_at(&self, place: usize) -> Option<&Holder>
        ensures { (seats : List Seat) → stands self.now seats → MatchOption result (slice_get seats place ≡ None) (λ holder. IsClientOf holder.now (slice_get seats place)) };
}

/// Puts a line for each call of each client behind a text, in order.
///
/// # Errors
///
/// `Memory`, and then the text is as it was.
pub fn lines_of_clients<C: Clients>(
    alloc: Global,
    into: &mut Octets,
    clients: &C,
) -> Result<(), Memory>
    ensures told { (seats : List Seat) → C.stands clients.now seats → OnOk result (into.new ≡ into.old ++ client_lines 1 seats) }
    ensures behind { take (length into.old) into.new ≡ into.old }
    ensures unchanged_on_memory { OnErr result (into.new ≡ into.old) }
{
    let before = into.as_slice().len();
    let done = push_clients(alloc, into, clients);
    if done.is_err() {
        into.truncate(before);
    }
    done
}

/// Puts a line for each call of each client behind a text.
fn push_clients<C: Clients>(alloc: Global, text: &mut Octets, clients: &C) -> Result<(), Memory>
    ensures told { (seats : List Seat) → C.stands clients.now seats → OnOk result (text.new ≡ text.old ++ client_lines 1 seats) }
    ensures front { take (length text.old) text.new ≡ text.old }
{
    for place in 0..clients.client_count() {
        push_client(alloc, text, clients, place)?;
    }
    Ok(())
}

/// Puts a line for each call of the client at this place behind a text.
fn push_client<C: Clients>(
    alloc: Global,
    text: &mut Octets,
    clients: &C,
    place: usize,
) -> Result<(), Memory>
    requires { place < 2 ^ 64 - 1 }
    ensures told { (seats : List Seat) (seat : Seat) → C.stands clients.now seats → slice_get seats place ≡ Some seat
        → OnOk result (text.new ≡ text.old ++ call_lines (place + 1) 1 (calls_of seat.client)) }
    ensures front { take (length text.old) text.new ≡ text.old }
{
    match clients.holder_at(place) {
        Some(holder) => calls_of_client(alloc, text, place as u64 + 1, holder),
        None => Ok(()),
    }
}

impl Counts {
    /// Counts the calls of all clients.
    pub fn of<C: Clients>(clients: &C) -> Counts
        ensures { (seats : List Seat) → C.stands clients.now seats → result ≡ tally_of (flat_map (λ seat. calls_of seat.client) seats) }
    {
        let mut counts = Counts::new();
        for place in 0..clients.client_count() {
            counts.add_at(clients, place);
        }
        counts
    }

    /// Counts the calls of the client at this place beside those before.
    fn add_at<C: Clients>(&mut self, clients: &C, place: usize)
        requires { self.old.calls < 2 ^ 127 }
        ensures counted { (seats : List Seat) (seat : Seat) (before : List Call) → C.stands clients.now seats → slice_get seats place ≡ Some seat
            → self.old ≡ tally_of before → self.new ≡ tally_of (before ++ calls_of seat.client) }
        ensures few { self.new.calls < self.old.calls + 2 ^ 32 }
    {
        if let Some(holder) = clients.holder_at(place) {
            self.add(holder);
        }
    }
}
