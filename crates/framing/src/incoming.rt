//! The buffer of a stream that comes in pieces.

use crate::form::Framing;
use crate::look::{Look, look_at};
use crate::next::Next;
use crate::passage::Passage;
use octets::Memory;
use std::alloc::Global;
use std::marker::Model;
use tl_codec::FrameFault;

/// The buffer of a stream that comes in pieces, and how far its packets were taken.
#[derive(Debug, Drop)]
pub struct Incoming {
    bytes: Vec<u8>,
    at: usize,
    number: u32,
    fault: Option<FrameFault>,
}

impl Model for Incoming {
    ghost use Rattle.std.specs.Prelude.{◌≤◌, drop, length};
    ghost use Rattle.framing.specs.Held.{Held};

    ghost Value = { Held };

    ghost view = { λ stream. record { left = drop stream.at stream.bytes.items; number = stream.number; fault = stream.fault } };

    ghost invariant = { λ stream. stream.at ≤ length stream.bytes.items };
}

impl Incoming {
    ghost use Rattle.std.specs.Prelude.{◌≡◌, List, ℕ, Ok, Some, IfSome, IfNone, OnOk, OnErr};
    ghost use Rattle.std.specs.Borrow.{sem};
    ghost use Rattle.tl_codec.specs.declared.fault.FrameFault.{FrameFault as StreamFault};
    ghost use Rattle.framing.specs.contracts.incoming.Incoming.{the_row};
    ghost use Rattle.framing.specs.Held.{nothing, with_piece};
    ghost use Rattle.framing.specs.Holding.{Stands, Answers, IsFault, Rests, taken};

    /// The buffer of a stream that has no byte yet. Takes no memory.
    pub fn new(alloc: Global) -> Incoming
        ensures { result ≡ nothing }
    {
        Incoming {
            bytes: Vec::new(alloc),
            at: 0,
            number: 0,
            fault: None,
        }
    }

    /// Puts the next piece of the stream behind what came before. After a fault nothing is kept.
    ///
    /// # Errors
    ///
    /// `Memory`, and then the stream is where it was.
    pub fn feed(&mut self, _alloc: Global, piece: &[u8]) -> Result<(), Memory>
        ensures put { OnOk result (self.new ≡ with_piece piece.now self.old) }
        ensures nothing_after_a_fault { IfSome self.old.fault (λ _. result ≡ Ok tt) }
        ensures unchanged_on_memory { OnErr result (self.new ≡ self.old) }
    {
        if self.fault.is_some() {
            return Ok(());
        }
        self.give_back();
        self.bytes.extend_from_slice(piece)?;
        Ok(())
    }

    /// The same of a piece that goes through `passage`, in place in the buffer. After a fault nothing goes through it.
    ///
    /// # Errors
    ///
    /// `Memory`, and then the stream is where it was, and so is the passage.
    pub fn feed_through<P: Passage>(
        &mut self,
        _alloc: Global,
        piece: &[u8],
        passage: &mut P,
    ) -> Result<(), Memory>
        ensures put { OnOk result (self.new ≡ with_piece (P.behind passage.old piece.now).0 self.old) }
        ensures passed { IfNone self.old.fault (OnOk result (passage.new ≡ (P.behind passage.old piece.now).1)) }
        ensures nothing_after_a_fault { IfSome self.old.fault (λ _. (result ≡ Ok tt) × (passage.new ≡ passage.old)) }
        ensures unchanged_on_memory { OnErr result ((self.new ≡ self.old) × (passage.new ≡ passage.old)) }
    {
        let None = self.fault else {
            return Ok(());
        };
        self.give_back();
        let start = self.bytes.len();
        self.bytes.extend_from_slice(piece)?;
        passage.pass(&mut self.bytes[start..]);
        Ok(())
    }

    // Moves what is left to the front, where that moves no more bytes than were taken.
    fn give_back(&mut self)
        ensures { self.new ≡ self.old }
    {
        let left = self.bytes.len() - self.at;
        if self.at < left {
            return;
        }
        self.bytes.copy_within(self.at.., 0);
        self.bytes.truncate(left);
        self.at = 0;
    }

    /// What comes next in the stream. A packet is lent until the stream is used again, and then the stream stands
    /// past it. A fault is held from then on.
    pub fn next<F: Framing>(&mut self, form: &F) -> Next<'_>
        ensures answers { (packets : List (List ℕ)) (bytes : List ℕ) → Stands (F.form form.now) self.old packets bytes → Answers (F.form form.now) packets bytes result }
        ensures* after { sem 𝓛 (Rests the_row self.entry (λ after.
            ((packets : List (List ℕ)) (bytes : List ℕ)
            → Stands (F.form form.now) self.old packets bytes → Stands (F.form form.now) after (taken packets result) bytes)
            × ((fault : StreamFault) → IsFault fault result → after.fault ≡ Some fault))) }
    {
        if let Some(fault) = self.fault {
            return Next::Fault(fault);
        }
        match look_at(form, self.number, &self.bytes[self.at..]) {
            Look::More => Next::More,
            Look::Fault(fault) => {
                self.bytes.clear();
                self.at = 0;
                self.fault = Some(fault);
                Next::Fault(fault)
            }
            Look::Whole { start, end, size } => {
                let from = self.at;
                self.at += size;
                self.number = self.number.wrapping_add(1);
                Next::Packet(&self.bytes[from + start..from + end])
            }
        }
    }
}
