//! Laws of the grammar, each the contract of a function that does nothing.

ghost use Rattle.std.specs.Prelude.{◌≡◌, ◌⊎◌, ℕ, List, Option, Some, decimal, true};
ghost use Rattle.regs_service.specs.Requests.{Add, Get, is_name, request_of};
ghost use Rattle.sched_text.specs.declared.event.Event.{Event};
ghost use Rattle.sched_text.specs.declared.schedule.Placed.{Placed};
ghost use Rattle.sched_text.specs.Reading.{hex_at, number_at};
ghost use Rattle.sched_text.specs.Words.{IsHex, IsNumber};
ghost use Rattle.sched_text.specs.Bodies.{SaysCall, add_body, get_body, pad_bytes_max};
ghost use Rattle.sched_text.specs.Schedule.{HasBadLine, Spells};
ghost use Rattle.sched_text.specs.Speller.{AreInRange, placed_from, text_for};

use crate::body::PAD_BYTES_MAX;
use tl_codec::laws::written_again;

/// The constant is the limit that the definitions stand on.
pub fn constants_of_the_grammar()
    ensures { PAD_BYTES_MAX ≡ pad_bytes_max }
{}

/// A text spells at most one list of events, and none where a line is outside the grammar.
pub fn one_reading()
    ensures events { (text : List ℕ) (events others : List Placed) → Spells text events → Spells text others → events ≡ others }
    ensures not_both { (text : List ℕ) (events : List Placed) (bad : ℕ) → Spells text events → HasBadLine text bad → ⊥ }
    ensures bad_line { (text : List ℕ) (bad other : ℕ) → HasBadLine text bad → HasBadLine text other → bad ≡ other }
{}

/// A text spells events, or has a line outside the grammar.
pub fn every_text_is_read()
    ensures { (text : List ℕ) → ((events : List Placed) × Spells text events) ⊎ ((bad : ℕ) × HasBadLine text bad) }
{}

/// Each list of events whose numbers and bytes are in range has a text: one line an event.
pub fn every_list_has_a_text()
    ensures { (events : List Event) → AreInRange events → Spells (text_for events) (placed_from 1 events) }
{}

/// What is read of a word as a number or as bytes is what the word stands for, and all that a word stands for is read.
pub fn words_are_read()
    ensures number { (word : List ℕ) (number : ℕ) → number_at word ≡ Some number → IsNumber number × (word ≡ decimal number) }
    ensures every_number { (number : ℕ) → IsNumber number → number_at (decimal number) ≡ Some number }
    ensures bytes { (word bytes : List ℕ) → hex_at word ≡ Some bytes → IsHex bytes word }
    ensures all_bytes { (word bytes : List ℕ) → IsHex bytes word → hex_at word ≡ Some bytes }
{}

/// Words say at most one call.
pub fn one_call()
    ensures { (words : List (List ℕ)) (body other : List ℕ) (after next : Option ℕ) → SaysCall body after words → SaysCall other next words
        → (body ≡ other) × (after ≡ next) }
{}

/// The register service takes these bodies as its requests.
pub fn requests_of_the_registers()
    ensures add { (name : List ℕ) (amount : ℕ) → is_name name ≡ true → IsNumber amount → request_of (add_body name amount) ≡ Some (Add name amount) }
    ensures get { (name : List ℕ) → is_name name ≡ true → request_of (get_body name) ≡ Some (Get name) }
{
    written_again();
}
