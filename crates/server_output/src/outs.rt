//! What goes out.

ghost use Rattle.std.specs.Prelude.{◌≡◌, ◌<◌, ◌+◌, ◌++◌, ◌∷◌, [], length, IfOk};

use octets::{Memory, Octets};
use std::alloc::Global;
use std::marker::Model;

/// A packet that goes out.
#[derive(Debug, Drop)]
pub struct Out {
    /// The identifier of the key of its session.
    pub key: u64,
    /// The number of its session.
    pub session: u64,
    /// The sealed packet.
    pub packet: Octets,
}

/// What all packets of a session have in their envelopes (core.telegram.org/mtproto/description, "Encrypted Message").
#[derive(Clone, Copy, Debug, PartialEq, Eq)]
pub struct Header {
    /// The identifier of the authorisation key.
    pub key: u64,
    /// The session's number.
    pub session: u64,
    /// The server's salt.
    pub salt: u64,
}

/// What goes out, in order, in room that was taken before. Contracts see the list, and for how many more packets there is
/// room.
#[derive(Debug, Drop)]
pub struct Outs {
    outs: Vec<Out>,
    room: usize,
}

impl Model for Outs {
    ghost use Rattle.std.specs.Prelude.{◌+◌, ◌≤◌, vec_len, vec_capacity};
    ghost use Rattle.server_output.specs.Outs.{Going};

    ghost Value = { Going };

    ghost view = { λ outs. record { outs = outs.outs.items; room = outs.room } };

    ghost invariant = { λ outs. vec_len outs.outs + outs.room ≤ vec_capacity outs.outs };
}

impl Outs {
    /// Nothing yet, and room for so many packets.
    ///
    /// # Errors
    ///
    /// `Memory`.
    pub fn new(alloc: Global, packets: usize) -> Result<Outs, Memory>
        ensures { IfOk result (λ outs. outs ≡ record { outs = []; room = packets }) }
    {
        Ok(Outs {
            outs: Vec::with_capacity(alloc, packets)?,
            room: packets,
        })
    }

    /// What goes out, in order. Takes no memory.
    pub fn as_slice(&self) -> &[Out]
        ensures { result.now ≡ self.now.outs }
    {
        self.outs.as_slice()
    }

    /// What goes out, to be handed on. Takes no memory.
    pub fn into_vec(self) -> Vec<Out>
        ensures { result.items ≡ self.outs }
    {
        let Outs { outs, room: _ } = self;
        outs
    }

    /// A further packet goes out. Takes no memory.
    pub fn push(&mut self, out: Out)
        requires { 0 < self.old.room }
        ensures pushed { self.new.outs ≡ self.old.outs ++ out ∷ [] }
        ensures left { self.new.room + 1 ≡ self.old.room }
    {
        self.outs.push_reserved(out);
        self.room -= 1;
    }
}
