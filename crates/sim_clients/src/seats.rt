//! The clients of a world.

ghost use Rattle.std.specs.Prelude.{◌≡◌, ◌≢◌, ◌≤◌, ◌==◌, ◌<◌, ◌∷◌, ◌++◌, ℕ, suc, [], None, Some, IfNone, IfErr, IfOk, IfSome, IsSome, MatchOption, OnErr, OnOk, List, Option, is_some, length, map, nat_lt, option_map, vec_capacity, vec_len};
ghost use Rattle.auth_keys.specs.declared.ring.RingKey.{RingKey};
ghost use Rattle.auth_keys.specs.Rings.{entry_of};
ghost use Rattle.call_table.specs.Table.{call_no};
ghost use Rattle.draws.specs.Draws.{draw_after, word_after};
ghost use Rattle.envelope.specs.declared.parts.Dir.{Dir};
ghost use Rattle.envelope.specs.declared.parts.Dir.TheVariants.{Down};
ghost use Rattle.envelope.specs.declared.parts.Envelope.{Envelope};
ghost use Rattle.client_rules.specs.Asking.{attached, dropped, pinged, salts_asked, ticked};
ghost use Rattle.client_rules.specs.Client.{calls_of, fresh_client, temporary_of};
ghost use Rattle.client_rules.specs.Events.{renewed, unless_fault};
ghost use Rattle.client_rules.specs.Learning.{ended};
ghost use Rattle.client_core.specs.Flushed.{setting_of};
ghost use Rattle.client_core.specs.Holding.{wished};
ghost use Rattle.world_rules.specs.Refusals.{NoClient, at_client, clients_max, goes_on, nothing_more, stands_open, undropped, unless, unsent};
ghost use Rattle.world_rules.specs.Run.{set};
ghost use Rattle.world_rules.specs.World.{Seat as WorldSeat, changed_at, counted, owner, seat_now};
ghost use Rattle.sim_clients.specs.declared.fault.SeatFault.TheVariants as told;
ghost use Rattle.sim_clients.specs.Standing.{Becomes, HaveKeys, IsReading, KeepKeys, Stand, flushed_by, taken_at};
ghost use Rattle.sim_clients.specs.Told.{IsClientOf, TellsRefusal, TellsSent, TellsUnsent, not_taken};

use crate::fault::SeatFault;
use crate::seat::Seat;
use crate::sent::Sent;
use client_core::{CallNo, Holder, OpeningClient, Wish};
use draws::Draw;
use envelope::Seal;
use msg_ids::Moment;
use octets::Memory;
use std::alloc::Global;
use std::marker::Model;

/// The most clients of a world.
const CLIENTS_MAX: usize = 64;

/// The clients of a world, counted from 1, each with its clock in seconds. Contracts see the list of them, each with its
/// state.
#[derive(Debug, Drop)]
pub struct Seats {
    seats: Vec<Seat>,
}

impl Model for Seats {
    ghost use Rattle.std.specs.Prelude.{◌≤◌, List, vec_len};
    ghost use Rattle.world_rules.specs.Refusals.{clients_max};
    ghost use Rattle.client_core.specs.Holding.{wished};
    ghost use Rattle.sim_clients.specs.Standing.{Kept};

    ghost Value = { List Kept };

    ghost view = { λ seats. seats.seats.items };

    ghost invariant = { λ seats. vec_len seats.seats ≤ clients_max };
}

impl Seats {
    /// No client yet. Takes no memory.
    pub fn new(alloc: Global) -> Seats
        ensures { result ≡ [] }
    {
        Seats {
            seats: Vec::new(alloc),
        }
    }

    /// How many clients there are.
    pub fn len(&self) -> usize
        ensures kept { result ≡ length self.now }
        ensures most { result ≤ clients_max }
        ensures count { (seats : List WorldSeat) → Stand self.now seats → result ≡ length seats }
    {
        self.seats.len()
    }

    /// Whether there is no client.
    pub fn is_empty(&self) -> bool
        ensures { result ≡ (length self.now == 0) }
    {
        self.seats.is_empty()
    }

    /// The client of this number, in its state; none exactly where there is no such client.
    pub fn holder(&self, c: usize) -> Option<&Holder>
        ensures kept { MatchOption result (counted c self.now ≡ None) (λ holder. option_map (λ kept. kept.holder) (counted c self.now) ≡ Some holder.now) }
        ensures stands { (seats : List WorldSeat) → Stand self.now seats → MatchOption result (counted c seats ≡ None) (λ holder. IsClientOf holder.now (counted c seats)) }
    {
        match self.place(c) {
            Some(place) => Some(self.seats[place].holder()),
            None => None,
        }
    }

    /// The clock of the client of this number, in seconds; none exactly where there is no such client.
    pub fn clock(&self, c: usize) -> Option<u64>
        ensures { (seats : List WorldSeat) → Stand self.now seats → result ≡ option_map (λ seat. seat.clock) (counted c seats) }
    {
        match self.place(c) {
            Some(place) => Some(self.seats[place].clock()),
            None => None,
        }
    }

    /// The number of the first client that has or had this session number, where there is one. It costs what the clients
    /// before it were renewed.
    pub fn owner(&self, session: u64) -> Option<usize>
        ensures { (seats : List WorldSeat) → Stand self.now seats → result ≡ owner session seats }
    {
        for place in 0..self.seats.len() {
            if self.seats[place].holder().owns(session) {
                return Some(place + 1);
            }
        }
        None
    }

    /// Whether bytes that come down open at the client of this number, at the greatest moment that it was given.
    ///
    /// # Errors
    ///
    /// `NoClient`: there is no such client. `Memory`: memory ran out.
    #[tactic(auto, using(crate::proofs::PlaceLemmas::no_seat))]
    pub fn opens<S: Seal>(
        &self,
        alloc: Global,
        c: usize,
        seal: &S,
        bytes: &[u8],
    ) -> Result<bool, SeatFault>
        ensures refused { (seats : List WorldSeat) → Stand self.now seats → TellsRefusal (at_client (counted c seats) nothing_more) result }
        ensures told { (opens : ℕ → Dir → List ℕ → Option Envelope) (seats : List WorldSeat) (seat : WorldSeat) → IsReading S.lock (S.keys seal.now) opens
            → Stand self.now seats → counted c seats ≡ Some seat → IfOk result (λ told. told ≡ is_some (opens (seat_now seat) Down bytes.now)) }
    {
        match self.place(c) {
            Some(place) => self.seats[place].opens(alloc, seal, bytes),
            None => Err(SeatFault::NoClient),
        }
    }

    /// A client joins under the permanent key of this identifier, its clock at 0, in a session whose number is drawn.
    ///
    /// # Errors
    ///
    /// `NoClient`: there are 64 clients. `Memory`: memory ran out. All is as it was.
    pub fn join<D: Draw>(&mut self, alloc: Global, key: u64, draw: &mut D) -> Result<(), SeatFault>
        ensures refused { (seats : List WorldSeat) → Stand self.old seats → TellsRefusal (unless (nat_lt (length seats) clients_max) NoClient) result }
        ensures stands { (seats : List WorldSeat) → Stand self.old seats
            → OnOk result (Stand self.new (seats ++ record { client = fresh_client key None (word_after D.step 0 draw.old); clock = 0 } ∷ [])) }
        ensures drawn { OnOk result (draw.new ≡ draw_after D.step 1 draw.old) }
        ensures keys { (ring : List RingKey) → HaveKeys ring self.old → IsSome (entry_of key ring) → HaveKeys ring self.new }
        ensures unchanged { OnErr result (self.new ≡ self.old) }
        ensures same_draw { OnErr result (draw.new ≡ draw.old) }
    {
        if self.seats.len() >= CLIENTS_MAX {
            return Err(SeatFault::NoClient);
        }
        reserve(&mut self.seats)?;
        let client = OpeningClient::new(alloc, key, draw)?;
        self.seats.push_reserved(Seat::new(client));
        Ok(())
    }

    /// A client joins under the temporary key `temp`, which is to be bound to the permanent key `perm` up to a moment. Its
    /// clock is at 0, and its session number is drawn.
    ///
    /// # Errors
    ///
    /// `NoClient`: there are 64 clients. `Memory`: memory ran out. All is as it was.
    pub fn join_temp<D: Draw>(
        &mut self,
        alloc: Global,
        temp: u64,
        perm: u64,
        expires: Moment,
        draw: &mut D,
    ) -> Result<(), SeatFault>
        ensures refused { (seats : List WorldSeat) → Stand self.old seats → TellsRefusal (unless (nat_lt (length seats) clients_max) NoClient) result }
        ensures stands { (seats : List WorldSeat) → Stand self.old seats
            → OnOk result (Stand self.new (seats ++ record { client = fresh_client temp (Some (temporary_of perm expires)) (word_after D.step 0 draw.old); clock = 0 } ∷ [])) }
        ensures drawn { OnOk result (draw.new ≡ draw_after D.step 1 draw.old) }
        ensures keys { (ring : List RingKey) → HaveKeys ring self.old → IsSome (entry_of temp ring) → IsSome (entry_of perm ring) → HaveKeys ring self.new }
        ensures unchanged { OnErr result (self.new ≡ self.old) }
        ensures same_draw { OnErr result (draw.new ≡ draw.old) }
    {
        if self.seats.len() >= CLIENTS_MAX {
            return Err(SeatFault::NoClient);
        }
        reserve(&mut self.seats)?;
        let client = OpeningClient::new_temp(alloc, temp, perm, expires, draw)?;
        self.seats.push_reserved(Seat::new(client));
        Ok(())
    }

    /// The clock of the client of this number is set, in seconds.
    ///
    /// # Errors
    ///
    /// `NoClient`: there is no such client, and all is as it was.
    #[tactic(auto, using(crate::proofs::PlaceLemmas::no_seat))]
    pub fn set_clock(&mut self, c: usize, at: u64) -> Result<(), SeatFault>
        ensures refused { (seats : List WorldSeat) → Stand self.old seats → TellsRefusal (at_client (counted c seats) nothing_more) result }
        ensures takes_no_memory { IfErr result (λ fault. fault ≢ told.Memory) }
        ensures stands { (seats : List WorldSeat) → Stand self.old seats → OnOk result (Stand self.new (changed_at c (set at) seats)) }
        ensures keys { KeepKeys self.old self.new }
        ensures unchanged { OnErr result (self.new ≡ self.old) }
    {
        match self.place(c) {
            Some(place) => {
                self.seats[place].set(at);
                Ok(())
            }
            None => Err(SeatFault::NoClient),
        }
    }

    /// The clocks of all clients are set, in seconds.
    pub fn set_all(&mut self, at: u64)
        ensures stands { (seats : List WorldSeat) → Stand self.old seats → Stand self.new (map (set at) seats) }
        ensures keys { KeepKeys self.old self.new }
    {
        for place in 0..self.seats.len() {
            self.seats[place].set(at);
        }
    }

    /// The client of this number submits a call with this body, which is to execute after an earlier call, if one is given.
    /// It answers the call, which is its last one.
    ///
    /// # Errors
    ///
    /// The first that holds: `NoClient`; `WrongState` where the client ended; `Submit`, by what the body or the earlier call
    /// is; `Memory`. All is as it was.
    #[tactic(auto, using(crate::proofs::PlaceLemmas::no_seat))]
    pub fn submit(
        &mut self,
        alloc: Global,
        c: usize,
        body: &[u8],
        after: Option<CallNo>,
    ) -> Result<CallNo, SeatFault>
        ensures refused { (seats : List WorldSeat) → Stand self.old seats → TellsRefusal (at_client (counted c seats) (λ seat. goes_on seat (not_taken body.now after))) result }
        ensures stands { OnOk result (Becomes c (λ seat. unless_fault body.now after seat.client) self.old self.new) }
        ensures call { IfOk result (λ call. (seats : List WorldSeat) (seat : WorldSeat) → Stand self.old seats → counted c seats ≡ Some seat → call ≡ call_no (length (calls_of seat.client))) }
        ensures keys { KeepKeys self.old self.new }
        ensures unchanged { OnErr result (self.new ≡ self.old) }
    {
        match self.place(c) {
            Some(place) => self.seats[place].submit(alloc, body, after),
            None => Err(SeatFault::NoClient),
        }
    }

    /// The client of this number sends what is due by its clock; nothing where nothing is. The seal has the keys of all
    /// clients.
    ///
    /// # Errors
    ///
    /// The first that holds: `NoClient`; `WrongState` where the client ended; `Spent`. Where memory runs out, it may be
    /// `Memory` in place of `Spent`. The draw is as it was, and the clients stand for what they stood for.
    #[tactic(auto, using(crate::proofs::PlaceLemmas::no_seat))]
    pub fn flush<S: Seal, D: Draw>(
        &mut self,
        alloc: Global,
        c: usize,
        seal: &S,
        draw: &mut D,
    ) -> Result<Option<Sent>, SeatFault>
        requires keys { HaveKeys (S.keys seal.now) self.old }
        ensures refused { (seats : List WorldSeat) → Stand self.old seats
            → TellsUnsent (at_client (counted c seats) (λ seat. goes_on seat nothing_more)) (at_client (counted c seats) (λ seat. goes_on seat (λ seat. unsent (flushed_by (setting_of D.step (S.keys seal.now)) draw.old seat).answer))) result }
        ensures sent { (seats : List WorldSeat) (seat : WorldSeat) → Stand self.old seats → counted c seats ≡ Some seat
            → IfOk result (TellsSent S.lock (S.keys seal.now) (flushed_by (setting_of D.step (S.keys seal.now)) draw.old seat).answer) }
        ensures stands { OnOk result (Becomes c (λ seat. (flushed_by (setting_of D.step (S.keys seal.now)) draw.old seat).client) self.old self.new) }
        ensures drawn { (seats : List WorldSeat) (seat : WorldSeat) → Stand self.old seats → counted c seats ≡ Some seat
            → OnOk result (draw.new ≡ (flushed_by (setting_of D.step (S.keys seal.now)) draw.old seat).draw) }
        ensures keys { KeepKeys self.old self.new }
        ensures unchanged { (seats : List WorldSeat) → Stand self.old seats → OnErr result (Stand self.new seats) }
        ensures same_draw { (seats : List WorldSeat) → Stand self.old seats → OnErr result (draw.new ≡ draw.old) }
    {
        match self.place(c) {
            Some(place) => self.seats[place].flush(alloc, seal, draw),
            None => Err(SeatFault::NoClient),
        }
    }

    /// Bytes come down to the client of this number, by its clock. It takes the packet that they open to; of others only the
    /// moment counts. An ended client takes none, and isn't given the moment.
    ///
    /// # Errors
    ///
    /// `NoClient`: there is no such client. `Memory`: memory ran out. The clients stand for what they stood for.
    #[tactic(auto, using(crate::proofs::PlaceLemmas::no_seat))]
    pub fn take<S: Seal>(
        &mut self,
        alloc: Global,
        c: usize,
        seal: &S,
        bytes: &[u8],
    ) -> Result<(), SeatFault>
        ensures refused { (seats : List WorldSeat) → Stand self.old seats → TellsRefusal (at_client (counted c seats) nothing_more) result }
        ensures taken { (opens : ℕ → Dir → List ℕ → Option Envelope) (seats : List WorldSeat) (seat : WorldSeat) → IsReading S.lock (S.keys seal.now) opens
            → Stand self.old seats → counted c seats ≡ Some seat → OnOk result (Stand self.new (taken_at opens c bytes.now seat seats)) }
        ensures keys { KeepKeys self.old self.new }
        ensures unchanged { (opens : ℕ → Dir → List ℕ → Option Envelope) (seats : List WorldSeat) → IsReading S.lock (S.keys seal.now) opens
            → Stand self.old seats → OnErr result (Stand self.new seats) }
    {
        match self.place(c) {
            Some(place) => self.seats[place].take(alloc, seal, bytes),
            None => Err(SeatFault::NoClient),
        }
    }

    /// The client of this number is to ask how its calls fared.
    ///
    /// # Errors
    ///
    /// `NoClient`, and `WrongState` where the client isn't open. All is as it was.
    pub fn tick(&mut self, c: usize) -> Result<(), SeatFault>
        ensures refused { (seats : List WorldSeat) → Stand self.old seats → TellsRefusal (at_client (counted c seats) (λ seat. stands_open seat nothing_more)) result }
        ensures takes_no_memory { IfErr result (λ fault. fault ≢ told.Memory) }
        ensures stands { OnOk result (Becomes c (λ seat. ticked seat.client) self.old self.new) }
        ensures keys { KeepKeys self.old self.new }
        ensures unchanged { OnErr result (self.new ≡ self.old) }
    {
        self.wish(c, Wish::Tick)
    }

    /// A connection of the client of this number was opened.
    ///
    /// # Errors
    ///
    /// `NoClient`, and `WrongState` where the client ended. All is as it was.
    #[tactic(auto, using(crate::proofs::PlaceLemmas::no_seat))]
    pub fn attach(&mut self, c: usize) -> Result<(), SeatFault>
        ensures refused { (seats : List WorldSeat) → Stand self.old seats → TellsRefusal (at_client (counted c seats) (λ seat. goes_on seat nothing_more)) result }
        ensures takes_no_memory { IfErr result (λ fault. fault ≢ told.Memory) }
        ensures stands { OnOk result (Becomes c (λ seat. attached seat.client) self.old self.new) }
        ensures keys { KeepKeys self.old self.new }
        ensures unchanged { OnErr result (self.new ≡ self.old) }
    {
        match self.place(c) {
            Some(place) => self.seats[place].attach(),
            None => Err(SeatFault::NoClient),
        }
    }

    /// The client of this number is to have a ping answered.
    ///
    /// # Errors
    ///
    /// `NoClient`, and `WrongState` where the client isn't open. All is as it was.
    pub fn ping(&mut self, c: usize, id: u64) -> Result<(), SeatFault>
        ensures refused { (seats : List WorldSeat) → Stand self.old seats → TellsRefusal (at_client (counted c seats) (λ seat. stands_open seat nothing_more)) result }
        ensures takes_no_memory { IfErr result (λ fault. fault ≢ told.Memory) }
        ensures stands { OnOk result (Becomes c (λ seat. pinged id seat.client) self.old self.new) }
        ensures keys { KeepKeys self.old self.new }
        ensures unchanged { OnErr result (self.new ≡ self.old) }
    {
        self.wish(c, Wish::Ping(id))
    }

    /// The client of this number is to ask for so many salts.
    ///
    /// # Errors
    ///
    /// `NoClient`, and `WrongState` where the client isn't open. All is as it was.
    pub fn ask_salts(&mut self, c: usize, count: u32) -> Result<(), SeatFault>
        ensures refused { (seats : List WorldSeat) → Stand self.old seats → TellsRefusal (at_client (counted c seats) (λ seat. stands_open seat nothing_more)) result }
        ensures takes_no_memory { IfErr result (λ fault. fault ≢ told.Memory) }
        ensures stands { OnOk result (Becomes c (λ seat. salts_asked count seat.client) self.old self.new) }
        ensures keys { KeepKeys self.old self.new }
        ensures unchanged { OnErr result (self.new ≡ self.old) }
    {
        self.wish(c, Wish::Salts(count))
    }

    /// The client of this number is to have the answer to one of its calls dropped.
    ///
    /// # Errors
    ///
    /// The first that holds: `NoClient`; `WrongState` where the client isn't open; `Submit(NoSuchCall)`; `NotSent` where the
    /// call isn't sent. All is as it was.
    #[tactic(auto, using(crate::proofs::PlaceLemmas::no_seat))]
    pub fn drop_answer(&mut self, c: usize, call: CallNo) -> Result<(), SeatFault>
        ensures refused { (seats : List WorldSeat) → Stand self.old seats → TellsRefusal (at_client (counted c seats) (λ seat. stands_open seat (undropped call.n))) result }
        ensures takes_no_memory { IfErr result (λ fault. fault ≢ told.Memory) }
        ensures stands { OnOk result (Becomes c (λ seat. dropped call seat.client) self.old self.new) }
        ensures keys { KeepKeys self.old self.new }
        ensures unchanged { OnErr result (self.new ≡ self.old) }
    {
        match self.place(c) {
            Some(place) => self.seats[place].drop_answer(call),
            None => Err(SeatFault::NoClient),
        }
    }

    /// The client of this number goes on in another session, whose number is drawn.
    ///
    /// # Errors
    ///
    /// `NoClient`, and `WrongState` where the client isn't open. All is as it was.
    #[tactic(auto, using(crate::proofs::PlaceLemmas::no_seat))]
    pub fn renew<D: Draw>(&mut self, c: usize, draw: &mut D) -> Result<(), SeatFault>
        ensures refused { (seats : List WorldSeat) → Stand self.old seats → TellsRefusal (at_client (counted c seats) (λ seat. stands_open seat nothing_more)) result }
        ensures takes_no_memory { IfErr result (λ fault. fault ≢ told.Memory) }
        ensures stands { OnOk result (Becomes c (λ seat. renewed (word_after D.step 0 draw.old) seat.client) self.old self.new) }
        ensures drawn { OnOk result (draw.new ≡ draw_after D.step 1 draw.old) }
        ensures keys { KeepKeys self.old self.new }
        ensures unchanged { OnErr result (self.new ≡ self.old) }
        ensures same_draw { OnErr result (draw.new ≡ draw.old) }
    {
        match self.place(c) {
            Some(place) => self.seats[place].renew(draw),
            None => Err(SeatFault::NoClient),
        }
    }

    /// The client of this number ends.
    ///
    /// # Errors
    ///
    /// `NoClient`, and `WrongState` where the client isn't open. All is as it was.
    #[tactic(auto, using(crate::proofs::PlaceLemmas::no_seat))]
    pub fn end(&mut self, c: usize) -> Result<(), SeatFault>
        ensures refused { (seats : List WorldSeat) → Stand self.old seats → TellsRefusal (at_client (counted c seats) (λ seat. stands_open seat nothing_more)) result }
        ensures takes_no_memory { IfErr result (λ fault. fault ≢ told.Memory) }
        ensures stands { OnOk result (Becomes c (λ seat. ended seat.client) self.old self.new) }
        ensures keys { KeepKeys self.old self.new }
        ensures unchanged { OnErr result (self.new ≡ self.old) }
    {
        match self.place(c) {
            Some(place) => self.seats[place].end(),
            None => Err(SeatFault::NoClient),
        }
    }

    /// The client of this number does as it is asked.
    #[tactic(auto, using(crate::proofs::PlaceLemmas::no_seat))]
    fn wish(&mut self, c: usize, wish: Wish) -> Result<(), SeatFault>
        ensures refused { (seats : List WorldSeat) → Stand self.old seats → TellsRefusal (at_client (counted c seats) (λ seat. stands_open seat nothing_more)) result }
        ensures takes_no_memory { IfErr result (λ fault. fault ≢ told.Memory) }
        ensures stands { OnOk result (Becomes c (λ seat. wished wish seat.client) self.old self.new) }
        ensures keys { KeepKeys self.old self.new }
        ensures unchanged { OnErr result (self.new ≡ self.old) }
    {
        match self.place(c) {
            Some(place) => self.seats[place].wish(wish),
            None => Err(SeatFault::NoClient),
        }
    }

    /// The place of the client of this number, from 0.
    fn place(&self, c: usize) -> Option<usize>
        ensures place { IfSome result (λ place. (c ≡ suc place) × (place < length self.now)) }
        ensures none { IfNone result (counted c self.now ≡ None) }
    {
        if c == 0 || c > self.seats.len() {
            return None;
        }
        Some(c - 1)
    }
}

/// Takes room for one more client.
///
/// # Errors
///
/// `Memory`: memory ran out.
fn reserve(seats: &mut Vec<Seat>) -> Result<(), Memory>
    ensures same { seats.new.items ≡ seats.old.items }
    ensures count { vec_len seats.new ≡ vec_len seats.old }
    ensures room { OnOk result (vec_len seats.new < vec_capacity seats.new) }
{
    seats.reserve(1)?;
    Ok(())
}
