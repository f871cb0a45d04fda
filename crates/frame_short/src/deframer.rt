//! Reading a stream of abridged frames.

use crate::abridged::AbridgedForm;
use framing::laws::buffers_stand;
use framing::{Incoming, Next};
use octets::Memory;
use std::alloc::Global;
use std::marker::Model;

/// Reads a stream of abridged frames that comes in pieces. The start byte `ef` of a connection isn't part of the
/// stream.
#[derive(Debug, Drop)]
pub struct Deframer {
    stream: Incoming,
}

impl Model for Deframer {
    ghost use Rattle.framing.specs.Held.{Held};

    ghost Value = { Held };

    ghost view = { λ deframer. deframer.stream };
}

impl Deframer {
    ghost use Rattle.std.specs.Prelude.{◌≡◌, ◌++◌, ◌∷◌, List, ℕ, [], Ok, Some, IfSome, OnOk, OnErr};
    ghost use Rattle.std.specs.Borrow.{sem};
    ghost use Rattle.tl_codec.specs.declared.fault.FrameFault.{FrameFault};
    ghost use Rattle.framing.specs.Held.{with_piece};
    ghost use Rattle.framing.specs.Streams.{Begins};
    ghost use Rattle.framing.specs.Holding.{Stands, Answers, IsPacket, IsFault, Rests, taken};
    ghost use Rattle.frame_short.specs.Abridged.{abridged};
    ghost use Rattle.frame_short.specs.contracts.deframer.Deframer.{the_row};

    /// Reads a stream that has no byte yet. Takes no memory.
    pub fn new(alloc: Global) -> Deframer
        ensures { Stands abridged result [] [] }
    {
        buffers_stand::<AbridgedForm>();
        Deframer {
            stream: Incoming::new(alloc),
        }
    }

    /// Puts the next piece of the stream behind what came before. After a fault nothing is kept, and no memory taken.
    ///
    /// # Errors
    ///
    /// `Memory`, and then the stream is where it was.
    pub fn feed(&mut self, alloc: Global, piece: &[u8]) -> Result<(), Memory>
        ensures put { OnOk result (self.new ≡ with_piece piece.now self.old) }
        ensures stands { OnOk result ((packets : List (List ℕ)) (bytes : List ℕ)
            → Stands abridged self.old packets bytes → Stands abridged self.new packets (bytes ++ piece.now)) }
        ensures nothing_after_a_fault { IfSome self.old.fault (λ _. result ≡ Ok tt) }
        ensures unchanged_on_memory { OnErr result (self.new ≡ self.old) }
    {
        buffers_stand::<AbridgedForm>();
        self.stream.feed(alloc, piece)
    }

    /// What comes next in the stream: the next packet, `More` where a proper prefix of a frame is left, and maybe none
    /// of its bytes, or the fault that is met, which is held and comes again at each later call. A packet is lent
    /// until the next call, and then the stream stands past it. Takes no memory.
    pub fn next(&mut self) -> Next<'_>
        ensures answers { (packets : List (List ℕ)) (bytes : List ℕ)
            → Stands abridged self.old packets bytes → Answers abridged packets bytes result }
        ensures next_packet { (packets : List (List ℕ)) (packet bytes : List ℕ)
            → Stands abridged self.old packets bytes → Begins abridged (packets ++ packet ∷ []) bytes → IsPacket packet result }
        ensures* after { sem 𝓛 (Rests the_row self.entry (λ after.
            ((packets : List (List ℕ)) (bytes : List ℕ)
            → Stands abridged self.old packets bytes → Stands abridged after (taken packets result) bytes)
            × ((fault : FrameFault) → IsFault fault result → after.fault ≡ Some fault))) }
    {
        self.stream.next(&AbridgedForm {})
    }
}
