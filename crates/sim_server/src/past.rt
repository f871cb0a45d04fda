//! What a world made so far.

ghost use Rattle.std.specs.Prelude.{◌≡◌, ◌<◌, ◌≤◌, ◌^◌, ◌++◌, ◌∷◌, ◌+◌, [], map, OnOk, OnErr};
ghost use Rattle.sim_server.specs.Made.{GoesUp, made_of_out};
ghost use Rattle.sim_server.specs.Registers.{entered};

use crate::bag::Bag;
use crate::register::Register;
use octets::{Memory, Octets};
use server_dispatch::Entries;
use server_output::Outs;
use std::alloc::Global;
use std::marker::Model;

/// What a world made so far: the starts of its server, counted, the packets, and the entries. Contracts see these, and
/// for how many more events there is room.
#[derive(Debug, Drop)]
pub(crate) struct Past {
    start: u64,
    bag: Bag,
    register: Register,
}

impl Model for Past {
    ghost use Rattle.std.specs.Prelude.{min};
    ghost use Rattle.sim_server.specs.Pasts.{Kept};

    ghost Value = { Kept };

    ghost view = { λ past. record {
      start = past.start;
      bag = past.bag.made;
      entries = past.register.entries;
      room = min past.bag.room past.register.room;
    } };
}

impl Past {
    /// The first start, and nothing made. Takes no memory.
    pub(crate) fn new(alloc: Global) -> Past
        ensures { result ≡ record { start = 1; bag = []; entries = []; room = 0 } }
    {
        Past {
            start: 1,
            bag: Bag::new(alloc),
            register: Register::new(alloc),
        }
    }

    /// Takes room for what one event makes.
    ///
    /// # Errors
    ///
    /// `Memory`.
    pub(crate) fn reserve(&mut self, alloc: Global) -> Result<(), Memory>
        ensures room { OnOk result (0 < self.new.room) }
        ensures same { self.new ≡ record self.old { room = self.new.room } }
    {
        self.bag.reserve(alloc)?;
        self.register.reserve(alloc)
    }

    /// The packets.
    pub(crate) fn bag(&self) -> &Bag
        ensures { result.now.made ≡ self.now.bag }
    {
        &self.bag
    }

    /// The entries.
    pub(crate) fn register(&self) -> &Register
        ensures { result.now.entries ≡ self.now.entries }
    {
        &self.register
    }

    /// An event of the server made these. Takes no memory.
    pub(crate) fn takes(&mut self, out: Outs, entries: Entries)
        requires { 0 < self.old.room }
        ensures bag { self.new.bag ≡ self.old.bag ++ map made_of_out out.outs }
        ensures entries { self.new.entries ≡ self.old.entries ++ map (entered self.old.start) entries.entries }
        ensures start { self.new.start ≡ self.old.start }
    {
        self.bag.go_down(out.into_vec());
        self.register.records(self.start, entries);
    }

    /// A client sent this. Takes no memory.
    pub(crate) fn goes_up(&mut self, bytes: Octets)
        requires { 0 < self.old.room }
        ensures bag { self.new.bag ≡ self.old.bag ++ GoesUp bytes ∷ [] }
        ensures entries { self.new.entries ≡ self.old.entries }
        ensures start { self.new.start ≡ self.old.start }
    {
        self.bag.goes_up(bytes);
    }

    /// The server starts again.
    ///
    /// # Errors
    ///
    /// `Memory`, and then nothing has changed. It comes exactly where starts can't be counted any more.
    pub(crate) fn starts_again(&mut self) -> Result<(), Memory>
        ensures again { OnOk result (self.new ≡ record self.old { start = self.old.start + 1 }) }
        ensures counted { OnErr result (2 ^ 64 ≤ self.old.start + 1) }
        ensures unchanged_on_memory { OnErr result (self.new ≡ self.old) }
    {
        match self.start.checked_add(1) {
            Some(start) => {
                self.start = start;
                Ok(())
            }
            None => Err(Memory),
        }
    }
}
