//! The state of a wire whose form is known.

use crate::direction::Direction;
use crate::form::Form;
use frame_full::Framer;
use framing::{Incoming, Next, Passage};
use octets::{Memory, Octets};
use std::alloc::Global;
use std::marker::Model;
use std::mem;

/// The state of a wire whose form is known: what it holds of what came in, and its two directions. Contracts see it as a
/// `Line`.
#[derive(Debug, Drop)]
pub struct Framed {
    pub(crate) form: Form,
    pub(crate) stream: Incoming,
    pub(crate) reading: Direction,
    pub(crate) writing: Direction,
    // Numbers the frames of the full form.
    pub(crate) full: Framer,
}

impl Model for Framed {
    ghost use Rattle.transport.specs.Wires.{Line};

    ghost Value = { Line };

    ghost view = { λ framed. record { form = framed.form; held = framed.stream; reading = framed.reading; writing = framed.writing; number = framed.full } };
}

impl Framed {
    ghost use Rattle.std.specs.Prelude.{◌≡◌, ◌≤◌, ◌++◌, length, take, drop, IfSome, IfNone, Ok, OnOk, OnErr};
    ghost use Rattle.std.specs.Prelude.{List, ℕ, Some};
    ghost use Rattle.std.specs.Borrow.{sem};
    ghost use Rattle.tl_codec.specs.declared.fault.FrameFault.{FrameFault};
    ghost use Rattle.framing.specs.Holding.{Stands, Answers, IsFault, Rests, taken};
    ghost use Rattle.transport.specs.contracts.framed.Framed.{the_row};
    ghost use Rattle.transport.specs.Forms.{framing_of};
    ghost use Rattle.framing.specs.Held.{with_piece};
    ghost use Rattle.transport.specs.Forms.{frame_of, next_number, IsSent};
    ghost use Rattle.transport.specs.Directions.{through, behind};

    /// Puts a piece behind what came before, deciphered in place. After a fault nothing is kept.
    ///
    /// # Errors
    ///
    /// `Memory`, and then the state is as it was.
    pub(crate) fn feed(&mut self, alloc: Global, piece: &[u8]) -> Result<(), Memory>
        ensures put { OnOk result (self.new.held ≡ with_piece (through self.old.reading piece.now) self.old.held) }
        ensures passed { IfNone self.old.held.fault (OnOk result (self.new.reading ≡ behind self.old.reading (length piece.now))) }
        ensures same_out { (self.new.form ≡ self.old.form) × (self.new.writing ≡ self.old.writing) × (self.new.number ≡ self.old.number) }
        ensures nothing_after_a_fault { IfSome self.old.held.fault (λ _. (result ≡ Ok tt) × (self.new ≡ self.old)) }
        ensures unchanged_on_memory { OnErr result (self.new ≡ self.old) }
    {
        self.stream.feed_through(alloc, piece, &mut self.reading)
    }

    /// What comes next in the stream. A packet is lent until the next call.
    pub(crate) fn next(&mut self) -> Next<'_>
        ensures answers { (packets : List (List ℕ)) (text : List ℕ)
            → Stands (framing_of self.old.form) self.old.held packets text → Answers (framing_of self.old.form) packets text result }
        ensures* after { sem 𝓛 (Rests the_row self.entry (λ after.
            (after ≡ record self.old { held = after.held })
            × ((packets : List (List ℕ)) (text : List ℕ)
            → Stands (framing_of self.old.form) self.old.held packets text → Stands (framing_of self.old.form) after.held (taken packets result) text)
            × ((fault : FrameFault) → IsFault fault result → after.held.fault ≡ Some fault))) }
    {
        let form = self.form;
        self.stream.next(&form)
    }

    /// Puts the frame of a packet at the end, as it is before it is enciphered.
    ///
    /// # Errors
    ///
    /// `Memory`, and then the state and the text are as they were.
    pub(crate) fn frame(
        &mut self,
        alloc: Global,
        packet: &[u8],
        out: &mut Octets,
    ) -> Result<(), Memory>
        requires { IsSent self.old.form packet.now }
        ensures appended { OnOk result (out.new ≡ out.old ++ frame_of self.old.form self.old.number packet.now) }
        ensures counted { OnOk result (self.new ≡ record self.old { number = next_number self.old.form self.old.number }) }
        ensures unchanged_on_memory { OnErr result ((self.new ≡ self.old) × (out.new ≡ out.old)) }
    {
        match self.form {
            Form::Abridged => frame_short::Framer::new().frame(alloc, packet, out),
            Form::Intermediate => frame_len::Framer::new(false).frame(alloc, packet, out),
            Form::Padded => frame_len::Framer::new(true).frame(alloc, packet, out),
            Form::Full => self.full.frame(alloc, packet, out),
        }
    }

    /// Enciphers what stands from a place on, in place.
    pub(crate) fn encipher(&mut self, alloc: Global, out: &mut Octets, start: usize)
        requires { start ≤ length out.old }
        ensures text { out.new ≡ take start out.old ++ through self.old.writing (drop start out.old) }
        ensures passed { self.new ≡ record self.old { writing = behind self.old.writing (length (drop start out.old)) } }
    {
        let mut bytes = mem::replace(out, Octets::new(alloc)).into_vec();
        self.writing.pass(&mut bytes[start..]);
        *out = Octets::from(bytes);
    }
}
