//! Laws of the definitions, each the contract of a function that does nothing.

ghost use Rattle.std.specs.Prelude.{◌≡◌, ◌≢◌, ◌++◌, ◌∷◌, [], ℕ, List, Bool, Option, None, true};
ghost use Rattle.cipher_modes.specs.CounterMode.{CtrState};
ghost use Rattle.framing.specs.Payload.{IsPayload};
ghost use Rattle.framing.specs.Holding.{Answers, IsMore, IsPacket};
ghost use Rattle.framing.specs.declared.next.Next.{Next};
ghost use Rattle.frame_full.specs.Full as full;
ghost use Rattle.transport.specs.Directions.{through};
ghost use Rattle.transport.specs.Forms.{IsSent, frame_of, framing_of};
ghost use Rattle.transport.specs.Starts.{BeginsFull, IsAwaited, IsRefused, IsSentStart, Opening, Starts};
ghost use Rattle.transport.specs.Wires.{HasBegun, HasStarted, Hears, Line, Tells};
ghost use Rattle.transport.specs.Ends.{Sends};
ghost use Rattle.transport.specs.Spelt.{SpellsMore, TellsMore};
ghost use Rattle.transport.specs.declared.form.Form.{Form as Framings};
ghost use Rattle.transport.specs.declared.form.Form.TheVariants as forms;

use crate::form::Form;
use cipher_modes::laws::{ctr_pieces_equal_the_whole, ctr_undoes_itself};
use framing::laws::{one_reading, streams_go_on};
use obfus::laws::one_answer;

/// The first bytes tell one thing: they are a start, with one opening and one rest, or await more bytes, or name no form.
/// So a server's end answers `Framed`, `Raw` and `Start` exactly where they do, but for want of memory.
pub fn first_bytes_tell_one_thing()
    ensures one_start { (bytes rest more : List ℕ) (one other : Opening) → Starts bytes one rest → Starts bytes other more
        → (one ≡ other) × (rest ≡ more) }
    ensures not_awaited { (bytes rest : List ℕ) (opening : Opening) → Starts bytes opening rest → IsAwaited bytes → ⊥ }
    ensures not_refused { (bytes rest wire : List ℕ) (opening : Opening) → Starts bytes opening rest → IsRefused bytes wire → ⊥ }
    ensures awaited_or_refused { (bytes wire : List ℕ) → IsAwaited bytes → IsRefused bytes wire → ⊥ }
{
    one_answer();
}

/// A server takes what a client sends for a start of its form, whatever packet comes first and whatever follows that. A
/// stream of the full form begins as no other form.
pub fn sent_starts_are_taken()
    ensures full { (packet more : List ℕ) → IsPayload packet → BeginsFull (full.frame_of 0 packet ++ more) }
    ensures taken { (line : Line) (form : Framings) (obfuscate : Bool) (drawn start packet more : List ℕ)
        → (obfuscate ≡ true → form ≢ forms.Full) → (begun : HasBegun line form start) → IsSentStart obfuscate form drawn start → IsSent form packet
        → Starts (start ++ (through line.writing (frame_of form line.number packet) ++ more)) begun.opening
        (through line.writing (frame_of form line.number packet) ++ more) }
{}

/// What one side's end has written, the other side's end reads: the same packets in order, whatever the pieces, and no
/// fault.
pub fn what_is_told_is_heard()
    ensures in_order { (one other : Line) (stream : Option CtrState) (told heard : List (List ℕ)) (bytes later : List ℕ)
        → one.form ≡ other.form → Tells one stream told (bytes ++ later) → Hears other stream heard bytes
        → (other.held.fault ≡ None) × ((left : List (List ℕ)) × (told ≡ heard ++ left)) }
    ensures next { (one other : Line) (stream : Option CtrState) (heard left : List (List ℕ)) (packet bytes : List ℕ) (answer : Next)
        → one.form ≡ other.form → Tells one stream (heard ++ packet ∷ left) bytes
        → Answers (framing_of other.form) heard (through stream bytes) answer → IsPacket packet answer }
    ensures no_more { (one other : Line) (stream : Option CtrState) (heard : List (List ℕ)) (bytes : List ℕ) (answer : Next)
        → one.form ≡ other.form → Tells one stream heard bytes
        → Answers (framing_of other.form) heard (through stream bytes) answer → IsMore answer }
{
    ctr_pieces_equal_the_whole();
    one_reading::<Form>();
    streams_go_on::<Form>();
}

/// A server's end that was given a client's first bytes, however many of them so far, refuses none, and once it knows the
/// form it hears what that client tells, and what it tells goes through the stream that the client hears: the law above
/// goes on from there, in both directions. Where the first packet is among them it knows the form, whatever follows.
pub fn ends_meet()
    ensures not_awaited { (client : Line) (form : Framings) (obfuscate : Bool) (drawn start packet more bytes : List ℕ)
        → (obfuscate ≡ true → form ≢ forms.Full) → HasBegun client form start → IsSentStart obfuscate form drawn start → IsSent form packet
        → bytes ≡ start ++ (through client.writing (frame_of form client.number packet) ++ more) → IsAwaited bytes → ⊥ }
    ensures not_refused { (client : Line) (form : Framings) (obfuscate : Bool) (drawn start packet more bytes later wire : List ℕ)
        → (obfuscate ≡ true → form ≢ forms.Full) → HasBegun client form start → IsSentStart obfuscate form drawn start → IsSent form packet
        → bytes ++ later ≡ start ++ (through client.writing (frame_of form client.number packet) ++ more) → IsRefused bytes wire → ⊥ }
    ensures meets { (client server : Line) (form : Framings) (obfuscate : Bool) (drawn start packet more bytes later : List ℕ)
        → (obfuscate ≡ true → form ≢ forms.Full) → (begun : HasBegun client form start) → IsSentStart obfuscate form drawn start → IsSent form packet
        → bytes ++ later ≡ start ++ (through client.writing (frame_of form client.number packet) ++ more) → (started : HasStarted server bytes)
        → (server.form ≡ client.form)
        × (started.rest ++ later ≡ through client.writing (frame_of form client.number packet) ++ more)
        × Hears server begun.opening.up [] started.rest
        × Tells server begun.opening.down [] [] }
{
    one_answer();
}

/// The same over all bytes of a connection from the client, its start among them: a server's end that was given a front of
/// what a client's end has sent refuses none of it, and knows the form once it has it all.
pub fn sent_bytes_are_taken()
    ensures not_awaited { (client : Line) (sent : List (List ℕ)) (bytes : List ℕ) → Sends client sent bytes → IsAwaited bytes → ⊥ }
    ensures not_refused { (client : Line) (sent : List (List ℕ)) (bytes later wire : List ℕ)
        → Sends client sent (bytes ++ later) → IsRefused bytes wire → ⊥ }
{
    one_answer();
}

/// What a wire spells with a packet more, where it tells that packet behind what it told: the writer's frame of it, behind the
/// frames of the packets before.
pub fn a_packet_more_is_spelt()
    ensures { (old new : Line) (packet : List ℕ) → new.form ≡ old.form → TellsMore old new packet → SpellsMore old new packet }
{
    ctr_pieces_equal_the_whole();
    ctr_undoes_itself();
}
