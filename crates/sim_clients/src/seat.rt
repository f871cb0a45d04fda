//! A client in its seat.

ghost use Rattle.std.specs.Prelude.{◌≡◌, ◌≢◌, ℕ, None, Some, IfErr, IfOk, OnErr, OnOk, List, Option, is_some, length};
ghost use Rattle.call_table.specs.Table.{call_no};
ghost use Rattle.msg_ids.specs.Moments.{moment_of};
ghost use Rattle.draws.specs.Draws.{draw_after, word_after};
ghost use Rattle.envelope.specs.declared.parts.Dir.{Dir};
ghost use Rattle.envelope.specs.declared.parts.Dir.TheVariants.{Down};
ghost use Rattle.envelope.specs.declared.parts.Envelope.{Envelope};
ghost use Rattle.client_rules.specs.Asking.{attached, dropped};
ghost use Rattle.client_rules.specs.Client.{Client, calls_of};
ghost use Rattle.client_rules.specs.Events.{renewed, unless_fault};
ghost use Rattle.client_rules.specs.Learning.{ended};
ghost use Rattle.client_rules.specs.Flush.{flush};
ghost use Rattle.client_core.specs.Flushed.{setting_of};
ghost use Rattle.client_core.specs.Holding.{kept_of, wished};
ghost use Rattle.client_core.specs.Kept.{Stands};
ghost use Rattle.client_core.specs.declared.holder.Holder.TheVariants as held;
ghost use Rattle.world_rules.specs.Refusals.{goes_on, nothing_more, stands_open, undropped, unsent};
ghost use Rattle.world_rules.specs.World.{Seat as WorldSeat, seat_now};
ghost use Rattle.sim_clients.specs.declared.fault.SeatFault.TheVariants as told;
ghost use Rattle.sim_clients.specs.Held.{TakenSo, taken_in};
ghost use Rattle.sim_clients.specs.Standing.{HasKeysOf, IsReading, StandsFor, clocked, keys_of};
ghost use Rattle.sim_clients.specs.Told.{TellsRefusal, TellsSent, TellsUnsent, not_taken};

use crate::fault::SeatFault;
use crate::holding;
use crate::sent::Sent;
use client_core::{CallNo, Holder, OpeningClient, Wish};
use draws::Draw;
use envelope::Seal;
use msg_ids::Moment;
use std::alloc::Global;
use std::marker::Model;

/// A client in its state, with its clock in seconds. It is away only inside a call that moves it.
#[derive(Debug, Drop)]
pub(crate) struct Seat {
    holder: Option<Holder>,
    clock: u64,
}

impl Model for Seat {
    ghost use Rattle.std.specs.Prelude.{IsSome};
    ghost use Rattle.sim_clients.specs.Held.{held};
    ghost use Rattle.sim_clients.specs.Standing.{Kept};

    ghost Value = { Kept };

    ghost view = { λ seat. record { holder = held seat.holder; clock = seat.clock } };

    ghost invariant = { λ seat. IsSome seat.holder };
}

impl Seat {
    /// A client that joins, with its clock at 0.
    pub(crate) fn new(client: OpeningClient) -> Seat
        ensures { result ≡ record { holder = held.Opening client; clock = 0 } }
    {
        Seat {
            holder: Some(Holder::Opening(client)),
            clock: 0,
        }
    }

    /// The client.
    pub(crate) fn holder(&self) -> &Holder
        ensures { result.now ≡ self.now.holder }
    {
        match &self.holder {
            Some(holder) => holder,
            None => unreachable!(),
        }
    }

    /// The clock.
    pub(crate) fn clock(&self) -> u64
        ensures { result ≡ self.now.clock }
    {
        self.clock
    }

    /// The clock is set.
    pub(crate) fn set(&mut self, at: u64)
        ensures { self.new ≡ clocked at self.old }
    {
        self.clock = at;
    }

    /// Whether bytes that come down open at the client, at the greatest moment that it was given.
    pub(crate) fn opens<S: Seal>(
        &self,
        alloc: Global,
        seal: &S,
        bytes: &[u8],
    ) -> Result<bool, SeatFault>
        ensures refused { TellsRefusal None result }
        ensures told { (opens : ℕ → Dir → List ℕ → Option Envelope) (seat : WorldSeat) → IsReading S.lock (S.keys seal.now) opens
            → StandsFor self.now seat → IfOk result (λ told. told ≡ is_some (opens (seat_now seat) Down bytes.now)) }
    {
        let now = self.holder().moment().later(Moment::new(self.clock));
        holding::opens(alloc, now, seal, bytes)
    }

    /// The client submits a call.
    pub(crate) fn submit(
        &mut self,
        alloc: Global,
        body: &[u8],
        after: Option<CallNo>,
    ) -> Result<CallNo, SeatFault>
        ensures refused { (seat : WorldSeat) → Stands (kept_of self.old.holder) seat.client → TellsRefusal (goes_on seat (not_taken body.now after)) result }
        ensures stands { OnOk result ((client : Client) → Stands (kept_of self.old.holder) client → Stands (kept_of self.new.holder) (unless_fault body.now after client)) }
        ensures call { IfOk result (λ call. (client : Client) → Stands (kept_of self.old.holder) client → call ≡ call_no (length (calls_of client))) }
        ensures keys { keys_of self.new ≡ keys_of self.old }
        ensures clock { self.new.clock ≡ self.old.clock }
        ensures unchanged { OnErr result (self.new ≡ self.old) }
    {
        match &mut self.holder {
            Some(holder) => holding::submit(holder, alloc, body, after),
            None => unreachable!(),
        }
    }

    /// A connection of the client was opened.
    pub(crate) fn attach(&mut self) -> Result<(), SeatFault>
        ensures refused { (seat : WorldSeat) → Stands (kept_of self.old.holder) seat.client → TellsRefusal (goes_on seat nothing_more) result }
        ensures takes_no_memory { IfErr result (λ fault. fault ≢ told.Memory) }
        ensures stands { OnOk result ((client : Client) → Stands (kept_of self.old.holder) client → Stands (kept_of self.new.holder) (attached client)) }
        ensures keys { keys_of self.new ≡ keys_of self.old }
        ensures clock { self.new.clock ≡ self.old.clock }
        ensures unchanged { OnErr result (self.new ≡ self.old) }
    {
        match &mut self.holder {
            Some(holder) => holding::attach(holder),
            None => unreachable!(),
        }
    }

    /// The client does as it is asked.
    pub(crate) fn wish(&mut self, wish: Wish) -> Result<(), SeatFault>
        ensures refused { (seat : WorldSeat) → Stands (kept_of self.old.holder) seat.client → TellsRefusal (stands_open seat nothing_more) result }
        ensures takes_no_memory { IfErr result (λ fault. fault ≢ told.Memory) }
        ensures stands { OnOk result ((client : Client) → Stands (kept_of self.old.holder) client → Stands (kept_of self.new.holder) (wished wish client)) }
        ensures keys { keys_of self.new ≡ keys_of self.old }
        ensures clock { self.new.clock ≡ self.old.clock }
        ensures unchanged { OnErr result (self.new ≡ self.old) }
    {
        match &mut self.holder {
            Some(holder) => holding::wish(holder, wish),
            None => unreachable!(),
        }
    }

    /// The client is to have the answer to a call dropped.
    pub(crate) fn drop_answer(&mut self, call: CallNo) -> Result<(), SeatFault>
        ensures refused { (seat : WorldSeat) → Stands (kept_of self.old.holder) seat.client → TellsRefusal (stands_open seat (undropped call.n)) result }
        ensures takes_no_memory { IfErr result (λ fault. fault ≢ told.Memory) }
        ensures stands { OnOk result ((client : Client) → Stands (kept_of self.old.holder) client → Stands (kept_of self.new.holder) (dropped call client)) }
        ensures keys { keys_of self.new ≡ keys_of self.old }
        ensures clock { self.new.clock ≡ self.old.clock }
        ensures unchanged { OnErr result (self.new ≡ self.old) }
    {
        match &mut self.holder {
            Some(holder) => holding::drop_answer(holder, call),
            None => unreachable!(),
        }
    }

    /// The client sends what is due by its clock.
    pub(crate) fn flush<S: Seal, D: Draw>(
        &mut self,
        alloc: Global,
        seal: &S,
        draw: &mut D,
    ) -> Result<Option<Sent>, SeatFault>
        requires keys { HasKeysOf (S.keys seal.now) self.old }
        ensures refused { (seat : WorldSeat) → Stands (kept_of self.old.holder) seat.client
            → TellsUnsent (goes_on seat nothing_more) (goes_on seat (λ seat. unsent (flush (setting_of D.step (S.keys seal.now)) (moment_of self.old.clock) seat.client draw.old).answer)) result }
        ensures sent { (client : Client) → Stands (kept_of self.old.holder) client
            → IfOk result (TellsSent S.lock (S.keys seal.now) (flush (setting_of D.step (S.keys seal.now)) (moment_of self.old.clock) client draw.old).answer) }
        ensures stands { (client : Client) → Stands (kept_of self.old.holder) client
            → OnOk result (Stands (kept_of self.new.holder) (flush (setting_of D.step (S.keys seal.now)) (moment_of self.old.clock) client draw.old).client) }
        ensures drawn { (client : Client) → Stands (kept_of self.old.holder) client
            → OnOk result (draw.new ≡ (flush (setting_of D.step (S.keys seal.now)) (moment_of self.old.clock) client draw.old).draw) }
        ensures keys { keys_of self.new ≡ keys_of self.old }
        ensures clock { self.new.clock ≡ self.old.clock }
        ensures unchanged { (client : Client) → Stands (kept_of self.old.holder) client → OnErr result (Stands (kept_of self.new.holder) client) }
        ensures same_draw { (client : Client) → Stands (kept_of self.old.holder) client → OnErr result (draw.new ≡ draw.old) }
    {
        let now = Moment::new(self.clock);
        match &mut self.holder {
            Some(holder) => holding::flush(holder, alloc, now, seal, draw),
            None => unreachable!(),
        }
    }

    /// Bytes come down to the client, by its clock.
    pub(crate) fn take<S: Seal>(
        &mut self,
        alloc: Global,
        seal: &S,
        bytes: &[u8],
    ) -> Result<(), SeatFault>
        ensures refused { TellsRefusal None result }
        ensures taken { (opens : ℕ → Dir → List ℕ → Option Envelope) (client : Client) → IsReading S.lock (S.keys seal.now) opens
            → Stands (kept_of self.old.holder) client → TakenSo client (taken_in opens (moment_of self.old.clock) bytes.now client) self.new.holder result }
        ensures keys { keys_of self.new ≡ keys_of self.old }
        ensures clock { self.new.clock ≡ self.old.clock }
    {
        let came = Moment::new(self.clock);
        match self.holder.take() {
            Some(holder) => {
                let (holder, taken) = holding::take(holder, alloc, came, seal, bytes);
                put(&mut self.holder, holder);
                taken
            }
            None => unreachable!(),
        }
    }

    /// The client goes on in another session, whose number is drawn.
    pub(crate) fn renew<D: Draw>(&mut self, draw: &mut D) -> Result<(), SeatFault>
        ensures refused { (seat : WorldSeat) → Stands (kept_of self.old.holder) seat.client → TellsRefusal (stands_open seat nothing_more) result }
        ensures takes_no_memory { IfErr result (λ fault. fault ≢ told.Memory) }
        ensures stands { OnOk result ((client : Client) → Stands (kept_of self.old.holder) client → Stands (kept_of self.new.holder) (renewed (word_after D.step 0 draw.old) client)) }
        ensures drawn { OnOk result (draw.new ≡ draw_after D.step 1 draw.old) }
        ensures keys { keys_of self.new ≡ keys_of self.old }
        ensures clock { self.new.clock ≡ self.old.clock }
        ensures unchanged { OnErr result (self.new ≡ self.old) }
        ensures same_draw { OnErr result (draw.new ≡ draw.old) }
    {
        match self.holder.take() {
            Some(holder) => {
                let (holder, renewed) = holding::renew(holder, draw);
                put(&mut self.holder, holder);
                renewed
            }
            None => unreachable!(),
        }
    }

    /// The client ends.
    pub(crate) fn end(&mut self) -> Result<(), SeatFault>
        ensures refused { (seat : WorldSeat) → Stands (kept_of self.old.holder) seat.client → TellsRefusal (stands_open seat nothing_more) result }
        ensures takes_no_memory { IfErr result (λ fault. fault ≢ told.Memory) }
        ensures stands { OnOk result ((client : Client) → Stands (kept_of self.old.holder) client → Stands (kept_of self.new.holder) (ended client)) }
        ensures keys { keys_of self.new ≡ keys_of self.old }
        ensures clock { self.new.clock ≡ self.old.clock }
        ensures unchanged { OnErr result (self.new ≡ self.old) }
    {
        match self.holder.take() {
            Some(holder) => {
                let (holder, ended) = holding::end(holder);
                put(&mut self.holder, holder);
                ended
            }
            None => unreachable!(),
        }
    }
}

/// A value comes to a place, and what was there is dropped: what that takes is proved once, whatever the value is.
fn put<T: Drop>(place: &mut Option<T>, value: T)
    ensures { place.new ≡ Some value }
{
    *place = Some(value);
}
