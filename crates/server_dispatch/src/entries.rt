//! The answers that an event records.

ghost use Rattle.std.specs.Prelude.{◌≡◌, ◌<◌, ◌+◌, ◌++◌, ◌∷◌, [], map, IfOk};
ghost use Rattle.server_dispatch.specs.Entries.{entry_told};

use octets::Memory;
use outbox::Bytes;
use std::alloc::Global;
use std::marker::Model;

/// An answer to a call of the service: by a run, or in place of one.
#[derive(Debug, Drop)]
pub struct Entry {
    /// The identifier of the key of the call's session.
    pub key: u64,
    /// The number of that session.
    pub session: u64,
    /// The call's message identifier.
    pub number: u64,
    /// The query that the service was given, or would have been given.
    pub request: Bytes,
    /// The content of the answer.
    pub reply: Bytes,
    /// Whether the service was given the query.
    pub ran: bool,
}

/// The answers that an event records, in order, in room that was taken before. Contracts see the list, and for how many
/// more answers there is room.
#[derive(Debug, Drop)]
pub struct Entries {
    entries: Vec<Entry>,
    room: usize,
}

impl Model for Entries {
    ghost use Rattle.std.specs.Prelude.{◌+◌, ◌≤◌, map, vec_len, vec_capacity};
    ghost use Rattle.server_dispatch.specs.Entries.{Held, entry_told};

    ghost Value = { Held };

    ghost view = { λ entries. record { entries = map entry_told entries.entries.items; room = entries.room } };

    ghost invariant = { λ entries. vec_len entries.entries + entries.room ≤ vec_capacity entries.entries };
}

impl Entries {
    /// None yet, and room for so many.
    ///
    /// # Errors
    ///
    /// `Memory`.
    pub fn new(alloc: Global, room: usize) -> Result<Entries, Memory>
        ensures { IfOk result (λ entries. entries ≡ record { entries = []; room = room }) }
    {
        Ok(Entries {
            entries: Vec::with_capacity(alloc, room)?,
            room,
        })
    }

    /// The answers in order. Takes no memory.
    pub fn as_slice(&self) -> &[Entry]
        ensures { map entry_told result.now ≡ self.now.entries }
    {
        self.entries.as_slice()
    }

    /// Records a further answer. Takes no memory.
    pub fn push(&mut self, entry: Entry)
        requires room { 0 < self.old.room }
        ensures pushed { self.new.entries ≡ self.old.entries ++ entry_told entry ∷ [] }
        ensures left { self.new.room + 1 ≡ self.old.room }
    {
        self.entries.push_reserved(entry);
        self.room -= 1;
    }
}
