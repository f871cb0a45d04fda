//! Laws of the definitions, each the contract of a function that does nothing.

ghost use Rattle.std.specs.Prelude.{◌≡◌, ◌<◌, ◌^◌, ℕ, false, List, length, Option};
ghost use Rattle.obfus.specs.Starts.{begins_as_another, begins_plain, start_bytes, start_of};
ghost use Rattle.obfus.specs.Streams.{ciphered, down_stream, up_stream};
ghost use Rattle.obfus.specs.Reads.{IsFaultOf, Reads};
ghost use Rattle.obfus.specs.declared.fault.ObfusFault.{ObfusFault};
ghost use Rattle.obfus.specs.declared.init.Pair.{Pair};
ghost use Rattle.obfus.specs.declared.tag.Tag.{Tag};

use crate::start::START_BYTES;
use cipher_modes::laws::ctr_undoes_itself;

/// The constant is the number of the standard.
pub fn constants_of_the_standard()
    ensures { START_BYTES ≡ start_bytes }
{}

/// What is sent of a start is deciphered as it is enciphered.
pub fn ciphering_undoes_itself()
    ensures { (secret : Option (List ℕ)) (start : List ℕ) → length start ≡ 64 → ciphered secret (ciphered secret start) ≡ start }
{
    ctr_undoes_itself();
}

/// The server reads of what is sent the form and the data centre that it was made for, and has the client's two streams,
/// whatever bytes were drawn. So what one side puts through a stream comes back from the other's.
pub fn starts_are_read()
    ensures { (secret : Option (List ℕ)) (tag : Tag) (dc : ℕ) (drawn : List ℕ) → length drawn ≡ 64 → dc < 2 ^ 16
        → Reads secret (ciphered secret (start_of tag dc drawn)) (record {
          tag = tag;
          dc = dc;
          up = up_stream secret (start_of tag dc drawn) 64;
          down = down_stream secret (start_of tag dc drawn) 0;
        }) }
{
    ctr_undoes_itself();
}

/// What is sent begins as no connection that isn't obfuscated, and as no request of HTTP or TLS, whatever was drawn.
pub fn starts_look_like_no_other()
    ensures not_plain { (secret : Option (List ℕ)) (tag : Tag) (dc : ℕ) (drawn : List ℕ) → length drawn ≡ 64
        → begins_plain (ciphered secret (start_of tag dc drawn)) ≡ false }
    ensures not_another { (secret : Option (List ℕ)) (tag : Tag) (dc : ℕ) (drawn : List ℕ) → length drawn ≡ 64
        → begins_as_another (ciphered secret (start_of tag dc drawn)) ≡ false }
{}

/// 64 bytes are read in one way, or have one fault, and not both.
pub fn one_answer()
    ensures pair { (secret : Option (List ℕ)) (wire : List ℕ) (pair other : Pair) → Reads secret wire pair → Reads secret wire other → pair ≡ other }
    ensures not_both { (secret : Option (List ℕ)) (wire : List ℕ) (pair : Pair) (fault : ObfusFault) → Reads secret wire pair → IsFaultOf secret wire fault → ⊥ }
    ensures fault { (secret : Option (List ℕ)) (wire : List ℕ) (fault other : ObfusFault) → IsFaultOf secret wire fault → IsFaultOf secret wire other → fault ≡ other }
{}
