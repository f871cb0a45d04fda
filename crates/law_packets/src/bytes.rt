//! Laws of what goes into packets from elsewhere, each the contract of a function that does nothing.

ghost use Rattle.std.specs.Prelude.{◌<◌, ◌^◌, ℕ, List};
ghost use Rattle.draws.specs.ChaChaWords.{ChaChaPlace, chacha_word};
ghost use Rattle.octets.specs.Bytes.{HasBytes, IsBytes};
ghost use Rattle.sched_text.specs.Bodies.{IsBody};
ghost use Rattle.temp_keys.specs.Messages.{binding_message};
ghost use Rattle.temp_keys.specs.declared.binding.Inner.{Inner};

/// A binding message is bytes.
pub fn bindings_are_bytes()
    ensures { (key random : List ℕ) (number : ℕ) (inner : Inner) (padding : List ℕ) → HasBytes 16 random → HasBytes 8 padding
        → IsBytes (binding_message key random number inner padding) }
{
    octets::laws::counts_of_bytes();
    aes_core::laws::blocks_are_bytes();
    auth_keys::laws::digests_are_bytes();
}

/// A body that words stand for is bytes.
pub fn bodies_are_bytes()
    ensures { (body : List ℕ) (words : List (List ℕ)) → IsBody body words → IsBytes body }
{
    octets::laws::bytes_stay_bytes();
}

/// A word of the generator that the program draws from has 64 bits.
pub fn words_have_64_bits()
    ensures { (draw : ChaChaPlace) → chacha_word draw.key draw.place < 2 ^ 64 }
{}
