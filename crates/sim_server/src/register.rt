//! The entries of a world.

ghost use Rattle.std.specs.Prelude.{◌≡◌, ◌<◌, ◌++◌, [], map, OnOk, OnErr};
ghost use Rattle.std.specs.List.{flat_map};
ghost use Rattle.sim_server.specs.Registers.{entered, entered_in};

use octets::Memory;
use server_dispatch::Entries;
use std::alloc::Global;
use std::marker::Model;

/// What one event recorded, with the start of the server that did so.
#[derive(Debug, Drop)]
pub struct Recorded {
    /// The number of the start, from 1.
    pub start: u64,
    /// The answers, in order.
    pub entries: Entries,
}

/// The entries of all starts of a server, in order. What one event records is put there whole, in room that was taken
/// before it. Contracts see the entries, and for how many more events there is room.
#[derive(Debug, Drop)]
pub struct Register {
    recorded: Vec<Recorded>,
    room: usize,
}

impl Model for Register {
    ghost use Rattle.std.specs.Prelude.{◌+◌, ◌≤◌, vec_len, vec_capacity};
    ghost use Rattle.std.specs.List.{flat_map};
    ghost use Rattle.sim_server.specs.Registers.{Enters, entered_in};

    ghost Value = { Enters };

    ghost view = { λ register. record { entries = flat_map entered_in register.recorded.items; room = register.room } };

    ghost invariant = { λ register. vec_len register.recorded + register.room ≤ vec_capacity register.recorded };
}

impl Register {
    /// No entry. Takes no memory.
    pub(crate) fn new(alloc: Global) -> Register
        ensures { result ≡ record { entries = []; room = 0 } }
    {
        Register {
            recorded: Vec::new(alloc),
            room: 0,
        }
    }

    /// Takes room for the entries of one event.
    ///
    /// # Errors
    ///
    /// `Memory`, and then nothing has changed.
    pub(crate) fn reserve(&mut self, _alloc: Global) -> Result<(), Memory>
        ensures room { OnOk result (0 < self.new.room) }
        ensures same { self.new.entries ≡ self.old.entries }
        ensures unchanged_on_memory { OnErr result (self.new ≡ self.old) }
    {
        self.recorded.reserve(1)?;
        self.room = 1;
        Ok(())
    }

    /// The entries, as each event recorded them. Takes no memory.
    pub fn as_slice(&self) -> &[Recorded]
        ensures { flat_map entered_in result.now ≡ self.now.entries }
    {
        self.recorded.as_slice()
    }

    /// An event recorded these in this start. Takes no memory.
    pub(crate) fn records(&mut self, start: u64, entries: Entries)
        requires { 0 < self.old.room }
        ensures { self.new.entries ≡ self.old.entries ++ map (entered start) entries.entries }
    {
        self.recorded.push_reserved(Recorded { start, entries });
        self.room = 0;
    }
}
