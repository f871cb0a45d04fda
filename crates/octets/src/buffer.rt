//! Bytes that are written into room that was taken before.

ghost use Rattle.std.specs.Prelude.{◌≡◌, ◌+◌, ◌≤◌, ◌<◌, ◌^◌, ◌++◌, [], length, max, IfOk, OnOk, OnErr};
ghost use Rattle.octets.specs.Bytes.{IsBytes};

use crate::memory::Memory;
use crate::octets::Octets;
use std::alloc::Global;
use std::marker::Model;
use std::mem;

/// A text that is being written in room taken beforehand: no write into it fails. Contracts see the
/// bytes so far, and for how many more there is room.
#[derive(Debug, Drop)]
pub struct Buffer {
    bytes: Vec<u8>,
    room: usize,
}

impl Model for Buffer {
    ghost use Rattle.std.specs.Prelude.{ℕ, List, ◌+◌, ◌≤◌, vec_len, vec_capacity};
    ghost use Rattle.octets.specs.Bytes.{IsBytes};
    ghost use Rattle.octets.specs.Draft.{Draft};

    ghost Value = { Draft };

    ghost view = { λ buffer. record { bytes = buffer.bytes.items; room = buffer.room } };

    ghost invariant = { λ buffer. IsBytes buffer.bytes.items × (vec_len buffer.bytes + buffer.room ≤ vec_capacity buffer.bytes) };
}

impl Buffer {
    /// No byte yet, and room for `room` bytes.
    ///
    /// # Errors
    ///
    /// `Memory`.
    pub fn new(alloc: Global, room: usize) -> Result<Buffer, Memory>
        ensures { IfOk result (λ buffer. buffer ≡ record { bytes = []; room = room }) }
    {
        Ok(Buffer {
            bytes: Vec::with_capacity(alloc, room)?,
            room,
        })
    }

    /// The bytes of `text`, and room for `room` bytes behind them. They are moved and not copied where
    /// that room is there already; `text` has none until `into_octets` gives them back.
    ///
    /// # Errors
    ///
    /// `Memory`, and then the text is as it was.
    pub fn after(alloc: Global, text: &mut Octets, room: usize) -> Result<Buffer, Memory>
        ensures taken { IfOk result (λ buffer. buffer ≡ record { bytes = text.old; room = room }) }
        ensures left { OnOk result (text.new ≡ []) }
        ensures unchanged_on_memory { OnErr result (text.new ≡ text.old) }
    {
        text.bytes.reserve(room)?;
        let bytes = mem::replace(&mut text.bytes, Vec::new(alloc));
        Ok(Buffer { bytes, room })
    }

    /// Takes room until there is some for `room` bytes.
    ///
    /// # Errors
    ///
    /// `Memory`, and then the buffer is as it was.
    pub fn reserve(&mut self, _alloc: Global, room: usize) -> Result<(), Memory>
        ensures taken { OnOk result (self.new.room ≡ max self.old.room room) }
        ensures bytes { self.new.bytes ≡ self.old.bytes }
        ensures unchanged_on_memory { OnErr result (self.new ≡ self.old) }
    {
        if self.room < room {
            self.bytes.reserve(room)?;
            self.room = room;
        }
        Ok(())
    }

    /// Puts the bytes at the end. Takes no memory.
    pub fn push_all(&mut self, bytes: &[u8])
        requires { length bytes.now ≤ self.old.room }
        ensures written { self.new.bytes ≡ self.old.bytes ++ bytes.now }
        ensures room { self.new.room + length bytes.now ≡ self.old.room }
    {
        self.bytes.extend_from_slice(bytes).unwrap();
        self.room -= bytes.len();
    }

    /// For how many bytes there is room.
    pub fn room(&self) -> usize
        ensures { result ≡ self.now.room }
    {
        self.room
    }

    /// The bytes so far. Takes no memory.
    pub fn as_slice(&self) -> &[u8]
        ensures value { result.now ≡ self.now.bytes }
        ensures bytes { IsBytes self.now.bytes }
        ensures length { length self.now.bytes + self.now.room < 2 ^ 63 }
    {
        self.bytes.as_slice()
    }

    /// The bytes as octets. Takes no memory; what room is left stays with them.
    pub fn into_octets(self) -> Octets
        ensures { result ≡ self.bytes }
    {
        let Buffer { bytes, room: _ } = self;
        Octets { bytes }
    }
}
