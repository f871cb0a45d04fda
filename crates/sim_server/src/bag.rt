//! The bag of a world.

ghost use Rattle.std.specs.Prelude.{◌≡◌, ℕ, ◌<◌, ◌≤◌, ◌-◌, ◌++◌, ◌∷◌, [], map, option_map, length, slice_get, slice_index_or, IsTrue, OnOk, OnErr};
ghost use Rattle.world_rules.specs.World.{counted};
ghost use Rattle.sim_server.specs.declared.bag.Batch.{Batch};
ghost use Rattle.sim_server.specs.Bags.{AreCounted};
ghost use Rattle.sim_server.specs.Made.{GoesUp, made_of_out, packet_told, packets_in};

use octets::{Memory, Octets};
use server_output::Out;
use std::alloc::Global;
use std::marker::Model;

/// How many packets there are at most before an event, so that they can be counted after it.
const COUNT_MAX: u64 = 1 << 63;

/// A packet of the bag, lent.
#[derive(Clone, Copy, Debug)]
pub enum Packet<'a> {
    /// It goes up to the server.
    Up(&'a [u8]),
    /// It goes down, to the client that has or had this session number.
    Down {
        /// The session number in its envelope.
        session: u64,
        /// Its bytes.
        bytes: &'a [u8],
    },
}

// The packets that one event made.
#[derive(Debug, Drop)]
pub(crate) enum Packets {
    Up(Octets),
    Down(Vec<Out>),
}

// The same, with the count of packets before them.
#[derive(Debug, Drop)]
pub(crate) struct Batch {
    pub(crate) before: u64,
    pub(crate) packets: Packets,
}

impl Batch {
    // The packet at this place, from 0.
    fn packet(&self, place: u64) -> Option<Packet<'_>>
        ensures { option_map packet_told result ≡ slice_get (packets_in self.now) place }
    {
        match &self.packets {
            Packets::Up(bytes) if place == 0 => Some(Packet::Up(bytes.as_slice())),
            Packets::Up(_) => None,
            Packets::Down(outs) => match outs.as_slice().get(place as usize) {
                Some(out) => Some(Packet::Down {
                    session: out.session,
                    bytes: out.packet.as_slice(),
                }),
                None => None,
            },
        }
    }
}

// How many batches begin by this place. Most batches have one packet, so one more than the place is tried first; else it is
// found by halving.
fn begun_by(batches: &[Batch], place: u64) -> usize
    requires { AreCounted 0 batches.now }
    ensures within { result ≤ length batches.now }
    ensures begun { (k : ℕ) (d : Batch) → k < result → (slice_index_or batches.now k d).before ≤ place }
    ensures later { (k : ℕ) (d : Batch) → result ≤ k → k < length batches.now → place < (slice_index_or batches.now k d).before }
{
    if place < batches.len() as u64 && is_begun_by(batches, place as usize + 1, place) {
        return place as usize + 1;
    }
    batches.partition_point(|batch| batch.before <= place)
}

// Whether the last of so many batches begins by this place, and the next one doesn't.
fn is_begun_by(batches: &[Batch], begun: usize, place: u64) -> bool
    requires some { 0 < begun }
    requires there { begun ≤ length batches.now }
    ensures begun { IsTrue result → (d : Batch) → (slice_index_or batches.now (begun - 1) d).before ≤ place }
    ensures later { IsTrue result → (d : Batch) → begun < length batches.now → place < (slice_index_or batches.now begun d).before }
{
    batches[begun - 1].before <= place && (begun == batches.len() || place < batches[begun].before)
}

/// Every packet that was ever made, in order. What one event makes is put there whole, in room that was taken before it, so
/// that each packet's bytes are kept once. Contracts see the packets, and for how many more events there is room.
#[derive(Debug, Drop)]
pub struct Bag {
    batches: Vec<Batch>,
    count: u64,
    room: usize,
}

impl Model for Bag {
    ghost use Rattle.std.specs.Prelude.{vec_len, vec_capacity};
    ghost use Rattle.std.specs.List.{flat_map};
    ghost use Rattle.sim_server.specs.Made.{packets_in};
    ghost use Rattle.sim_server.specs.Bags.{Holds, IsBag};

    ghost Value = { Holds };

    ghost view = { λ bag. record { made = flat_map packets_in bag.batches.items; room = bag.room } };

    ghost invariant = { λ bag. IsBag bag.batches.items (vec_len bag.batches) (vec_capacity bag.batches) bag.count bag.room };
}

impl Bag {
    /// No packet. Takes no memory.
    pub(crate) fn new(alloc: Global) -> Bag
        ensures { result ≡ record { made = []; room = 0 } }
    {
        Bag {
            batches: Vec::new(alloc),
            count: 0,
            room: 0,
        }
    }

    /// Takes room for the packets of one event.
    ///
    /// # Errors
    ///
    /// `Memory`, and then nothing has changed. It comes too where there are 2^63 packets.
    pub(crate) fn reserve(&mut self, _alloc: Global) -> Result<(), Memory>
        ensures room { OnOk result (0 < self.new.room) }
        ensures same { self.new.made ≡ self.old.made }
        ensures unchanged_on_memory { OnErr result (self.new ≡ self.old) }
    {
        if self.count >= COUNT_MAX {
            return Err(Memory);
        }
        self.batches.reserve(1)?;
        self.room = 1;
        Ok(())
    }

    /// How many packets there are.
    pub fn count(&self) -> u64
        ensures { result ≡ length self.now.made }
    {
        self.count
    }

    /// The packet of this number, counted from 1.
    pub fn packet(&self, number: u64) -> Option<Packet<'_>>
        ensures { option_map packet_told result ≡ counted number self.now.made }
    {
        if number == 0 {
            return None;
        }
        let place = number - 1;
        let begun = begun_by(self.batches.as_slice(), place);
        if begun == 0 {
            return None;
        }
        let batch = &self.batches[begun - 1];
        batch.packet(place - batch.before)
    }

    /// A packet goes up. Takes no memory.
    pub(crate) fn goes_up(&mut self, bytes: Octets)
        requires { 0 < self.old.room }
        ensures { self.new.made ≡ self.old.made ++ GoesUp bytes ∷ [] }
    {
        let before = self.count;
        self.batches.push_reserved(Batch {
            before,
            packets: Packets::Up(bytes),
        });
        self.count += 1;
        self.room = 0;
    }

    /// These go down. Takes no memory.
    pub(crate) fn go_down(&mut self, outs: Vec<Out>)
        requires { 0 < self.old.room }
        ensures { self.new.made ≡ self.old.made ++ map made_of_out outs.items }
    {
        self.room = 0;
        // No batch is without a packet: a place is found by the batch that it begins in.
        if outs.is_empty() {
            return;
        }
        let before = self.count;
        let more = outs.as_slice().len() as u64;
        self.batches.push_reserved(Batch {
            before,
            packets: Packets::Down(outs),
        });
        self.count += more;
    }
}
