//! One wire over all framings.

use crate::direction::Direction;
use crate::form::Form;
use crate::framed::Framed;
use crate::laws::first_bytes_tell_one_thing;
use crate::raw::{Raw, START_MAX};
use crate::start::{Told, look_at, start_of, tag_of};
use cipher_modes::Ctr;
use cipher_modes::laws::{ctr_pieces_equal_the_whole, ctr_undoes_itself};
use draws::Draw;
use frame_full::Framer;
use framing::laws::{buffers_stand, one_reading, streams_go_on};
use framing::{Incoming, Next};
use obfus::Init;
use obfus::laws::one_answer;
use octets::{Buffer, Memory, Octets};
use std::alloc::Global;
use std::marker::Model;

/// The data centre that a client names.
const DATA_CENTRE: u16 = 2;

/// One end of a connection. `Wire<Raw>` is a server's end whose form isn't known yet, `Wire<Framed>` an end of either
/// side whose form is known. Contracts see its state.
#[derive(Debug, Drop)]
pub struct Wire<S> {
    state: S,
}

impl<S> Model for Wire<S> {
    ghost Value = { S };

    ghost coded = { S.code };

    ghost view = { λ wire. wire.state };
}

/// What a server's end becomes as bytes come.
#[derive(Debug, Drop)]
pub enum RawStep {
    /// More bytes are needed to name a form.
    Raw(Wire<Raw>),
    /// The form is known.
    Framed(Wire<Framed>),
    /// The first 64 bytes name no form.
    Start {
        /// These bytes.
        bytes: [u8; START_MAX],
    },
    /// Memory ran out, and the wire is as it was.
    Memory(Wire<Raw>),
}

impl Wire<Raw> {
    ghost use Rattle.std.specs.Prelude.{◌≡◌, ◌++◌, [], ℕ, List};
    ghost use Rattle.transport.specs.Starts.{IsAwaited, IsOpened, IsRefused, Opening, Starts};
    ghost use Rattle.transport.specs.Steps.{IfRaw, IfFramed, IfStart, IfMemory, IsRaw, IsFramedOrMemory, IsStart};
    ghost use Rattle.transport.specs.Wires.{HasStarted};
    ghost use Rattle.transport.specs.Ends.{Takes};

    /// A server's end that no byte has come to. Takes no memory.
    pub fn server() -> Wire<Raw>
        ensures { result ≡ [] }
    {
        Wire { state: Raw::new() }
    }

    /// Takes the next piece: the wire awaits more, or knows the form, and then what is behind the start is fed to it, or
    /// names no form. `Memory` leaves the wire as it was, and comes only where the form is known.
    pub fn feed(self, alloc: Global, piece: &[u8]) -> RawStep
        ensures awaits { IfRaw result (λ wire. (wire ≡ self ++ piece.now) × IsAwaited (self ++ piece.now)) }
        ensures only_awaits { IsAwaited (self ++ piece.now) → IsRaw result }
        ensures opens { IfFramed result (λ wire. HasStarted wire (self ++ piece.now)) }
        ensures takes { IfFramed result (λ wire. Takes wire [] (self ++ piece.now)) }
        ensures only_opens { (opening : Opening) (rest : List ℕ) → Starts (self ++ piece.now) opening rest → IsFramedOrMemory result }
        ensures refuses { IfStart result (λ bytes. IsRefused (self ++ piece.now) bytes) }
        ensures only_refuses { (bytes : List ℕ) → IsRefused (self ++ piece.now) bytes → IsStart bytes result }
        ensures unchanged_on_memory { IfMemory result (λ wire. wire ≡ self) }
    {
        first_bytes_tell_one_thing();
        self.step(alloc, piece)
    }

    // The same, without those that say that it answers nothing else.
    fn step(self, alloc: Global, piece: &[u8]) -> RawStep
        ensures awaits { IfRaw result (λ wire. (wire ≡ self ++ piece.now) × IsAwaited (self ++ piece.now)) }
        ensures opens { IfFramed result (λ wire. HasStarted wire (self ++ piece.now)) }
        ensures refuses { IfStart result (λ bytes. IsRefused (self ++ piece.now) bytes) }
        ensures unchanged_on_memory { IfMemory result (λ wire. wire ≡ self) }
        ensures known_on_memory { IfMemory result (λ _. IsOpened (self ++ piece.now)) }
    {
        buffers_stand::<Form>();
        let (first, count) = self.state.with(piece);
        match look_at(first.as_slice()) {
            Told::Awaited => RawStep::Raw(Wire { state: first }),
            Told::Refused => RawStep::Start {
                bytes: first.whole(),
            },
            Told::Opens {
                start,
                form,
                up,
                down,
            } => {
                let mut wire = Wire::<Framed>::new(alloc, form, up, down);
                if wire.feed(alloc, &first.as_slice()[start..]).is_err() {
                    return RawStep::Memory(self);
                }
                if wire.feed(alloc, &piece[count..]).is_err() {
                    return RawStep::Memory(self);
                }
                RawStep::Framed(wire)
            }
        }
    }
}

impl Wire<Framed> {
    ghost use Rattle.std.specs.Prelude.{◌≡◌, ◌++◌, ◌∷◌, [], ℕ, List, length, Ok, Option, Some, OnOk, OnErr, IfOk, IfSome};
    ghost use Rattle.std.specs.Borrow.{sem};
    ghost use Rattle.cipher_modes.specs.CounterMode.{CtrState};
    ghost use Rattle.tl_codec.specs.declared.fault.FrameFault.{FrameFault};
    ghost use Rattle.framing.specs.Streams as streams;
    ghost use Rattle.framing.specs.Held.{nothing};
    ghost use Rattle.framing.specs.Holding.{Answers, IsFault, IsMore, Rests, taken};
    ghost use Rattle.transport.specs.contracts.framed.Framed as framed;
    ghost use Rattle.transport.specs.contracts.wire.Wire.{the_row};
    ghost use Rattle.transport.specs.Forms.{framing_of, frame_of, IsSent};
    ghost use Rattle.transport.specs.Directions.{through};
    ghost use Rattle.std.specs.Prelude.{◌≢◌, Bool, drop, true};
    ghost use Rattle.draws.specs.Draws.{draw_after, next_bytes};
    ghost use Rattle.transport.specs.Starts.{IsSentStart, words_drawn};
    ghost use Rattle.transport.specs.declared.form.Form.TheVariants as forms;
    ghost use Rattle.transport.specs.Wires.{Line, Hears, Tells, HasBegun};
    ghost use Rattle.transport.specs.Ends.{Sends, Takes, packet_of};
    ghost use Rattle.transport.specs.declared.form.Form.{Form as Framings};

    // An end of this form, whose two directions go through these streams. Takes no memory.
    fn new(alloc: Global, form: Form, reading: Option<Ctr>, writing: Option<Ctr>) -> Wire<Framed>
        ensures { result ≡ record { form = form; held = nothing; reading = reading; writing = writing; number = 0 } }
    {
        Wire {
            state: Framed {
                form,
                stream: Incoming::new(alloc),
                reading: Direction::new(reading),
                writing: Direction::new(writing),
                full: Framer::new(),
            },
        }
    }

    /// A client's end of this form, and the bytes that it sends first. The full form isn't obfuscated. An obfuscated
    /// connection draws 8 words.
    ///
    /// # Errors
    ///
    /// `Memory`, and then nothing was drawn.
    pub fn client<D: Draw>(
        alloc: Global,
        form: Form,
        obfuscate: bool,
        draw: &mut D,
    ) -> Result<(Wire<Framed>, Octets), Memory>
        requires full_is_plain { obfuscate ≡ true → form ≢ forms.Full }
        ensures begun { IfOk result (λ made. HasBegun made.0 form made.1) }
        ensures sent { IfOk result (λ made. IsSentStart obfuscate form (next_bytes D.step 64 draw.old) made.1) }
        ensures drawn { OnOk result (draw.new ≡ draw_after D.step (words_drawn obfuscate) draw.old) }
        ensures unchanged_on_memory { OnErr result (draw.new ≡ draw.old) }
    {
        buffers_stand::<Form>();
        if !obfuscate {
            let start = Octets::copy(alloc, start_of(form))?;
            let wire = Wire::<Framed>::new(alloc, form, None, None);
            return Ok((wire, start));
        }
        let mut start = Buffer::new(alloc, START_MAX)?;
        let Init { wire, up, down } = Init::make(draw, tag_of(form), DATA_CENTRE);
        start.push_all(&wire);
        let wire = Wire::<Framed>::new(alloc, form, Some(down), Some(up));
        Ok((wire, start.into_octets()))
    }

    /// Puts the next piece of the connection behind what came before, deciphered where it is obfuscated. After a fault
    /// nothing is kept, and no memory taken.
    ///
    /// # Errors
    ///
    /// `Memory`, and then the wire is as it was.
    pub fn feed(&mut self, alloc: Global, piece: &[u8]) -> Result<(), Memory>
        ensures hears { OnOk result ((from : Option CtrState) (packets : List (List ℕ)) (bytes : List ℕ)
            → Hears self.old from packets bytes → Hears self.new from packets (bytes ++ piece.now)) }
        ensures takes { OnOk result ((packets : List (List ℕ)) (bytes : List ℕ) → Takes self.old packets bytes → Takes self.new packets (bytes ++ piece.now)) }
        ensures same_out { (self.new.form ≡ self.old.form) × (self.new.writing ≡ self.old.writing) × (self.new.number ≡ self.old.number) }
        ensures nothing_after_a_fault { IfSome self.old.held.fault (λ _. (result ≡ Ok tt) × (self.new ≡ self.old)) }
        ensures unchanged_on_memory { OnErr result (self.new ≡ self.old) }
    {
        buffers_stand::<Form>();
        ctr_pieces_equal_the_whole();
        self.state.feed(alloc, piece)
    }

    /// What comes next in the connection: the next packet, `More` where what is left is a proper prefix of a frame, the
    /// empty one among them, or the fault that is met, which comes again at each later call. A packet is lent until the next call,
    /// and then the wire stands past it. Takes no memory.
    pub fn next(&mut self) -> Next<'_>
        ensures answers { (from : Option CtrState) (packets : List (List ℕ)) (bytes : List ℕ)
            → Hears self.old from packets bytes → Answers (framing_of self.old.form) packets (through from bytes) result }
        ensures sent { (client : Line) (sent heard left : List (List ℕ)) (packet bytes : List ℕ)
            → Sends client sent bytes → Takes self.old heard bytes → drop (length heard) sent ≡ packet ∷ left → packet_of result ≡ Some packet }
        ensures no_more { (client : Line) (sent heard : List (List ℕ)) (bytes : List ℕ)
            → Sends client sent bytes → Takes self.old heard bytes → drop (length heard) sent ≡ [] → IsMore result }
        ensures* after { sem 𝓛 (Rests (the_row framed.the_row) self.entry (λ after.
            ((from : Option CtrState) (packets : List (List ℕ)) (bytes : List ℕ)
            → Hears self.old from packets bytes → Hears after from (taken packets result) bytes)
            × (after.form ≡ self.old.form) × (after.writing ≡ self.old.writing) × (after.number ≡ self.old.number)
            × ((fault : FrameFault) → IsFault fault result → after.held.fault ≡ Some fault)
            × ((packets : List (List ℕ)) (bytes : List ℕ) → Takes self.old packets bytes → Takes after (taken packets result) bytes))) }
    {
        ctr_pieces_equal_the_whole();
        one_reading::<Form>();
        streams_go_on::<Form>();
        one_answer();
        self.state.next()
    }

    /// Puts the frame of a packet at the end, enciphered where the connection is obfuscated. The packet has 4 to 1,048,576
    /// bytes, a multiple of 4, and in the padded form 4 bytes, or 24 and a multiple of 16 more.
    ///
    /// # Errors
    ///
    /// `Memory`, and then the wire and the text are as they were.
    pub fn put(&mut self, alloc: Global, packet: &[u8], out: &mut Octets) -> Result<(), Memory>
        requires { IsSent self.old.form packet.now }
        ensures appended { OnOk result (out.new ≡ out.old ++ through self.old.writing (frame_of self.old.form self.old.number packet.now)) }
        ensures tells { OnOk result ((to : Option CtrState) (packets : List (List ℕ)) (bytes : List ℕ)
            → Tells self.old to packets bytes
            → Tells self.new to (packets ++ packet.now ∷ []) (bytes ++ through self.old.writing (frame_of self.old.form self.old.number packet.now))) }
        ensures sends_first { OnOk result ((form : Framings) (obfuscate : Bool) (drawn : List ℕ) → (obfuscate ≡ true → form ≢ forms.Full)
            → HasBegun self.old form out.old → IsSentStart obfuscate form drawn out.old → Sends self.new (packet.now ∷ []) out.new) }
        ensures sends { OnOk result ((packets more : List (List ℕ)) → Sends self.old packets out.old → more ≡ packets ++ packet.now ∷ []
            → Sends self.new more out.new) }
        ensures same_in { (self.new.form ≡ self.old.form) × (self.new.held ≡ self.old.held) × (self.new.reading ≡ self.old.reading) }
        ensures unchanged_on_memory { OnErr result ((self.new ≡ self.old) × (out.new ≡ out.old)) }
    {
        ctr_pieces_equal_the_whole();
        ctr_undoes_itself();
        frame_short::laws::written_frames();
        frame_len::laws::written_frames();
        frame_full::laws::written_frames();
        frame_full::laws::numbers_go_on();
        streams_go_on::<Form>();
        let start = out.as_slice().len();
        self.state.frame(alloc, packet, out)?;
        self.state.encipher(alloc, out, start);
        Ok(())
    }
}
