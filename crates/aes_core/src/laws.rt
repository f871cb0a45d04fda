//! Laws of the definitions, each the contract of a function that does nothing.

ghost use Rattle.std.specs.Prelude.{◌≡◌, ℕ, ◌<◌, List};
ghost use Rattle.octets.specs.Bytes.{HasBytes};
ghost use Rattle.aes_core.specs.Field.{product, inverse};
ghost use Rattle.aes_core.specs.Cipher.{aes, inverse_aes};

/// The inverse of the S-box's definition is the multiplicative inverse of the field (FIPS 197, 4.4).
pub fn inverse_is_multiplicative()
    ensures inverse { (b : ℕ) → 0 < b → b < 256 → product b (inverse b) ≡ 1 }
    ensures zero { inverse 0 ≡ 0 }
{}

/// The inverse cipher undoes the cipher, for every key and block.
pub fn deciphering_undoes_enciphering()
    ensures { (key block : List ℕ) → HasBytes 32 key → HasBytes 16 block
        → inverse_aes key (aes key block) ≡ block }
{}

/// The cipher undoes the inverse cipher, for every key and block.
pub fn enciphering_undoes_deciphering()
    ensures { (key block : List ℕ) → HasBytes 32 key → HasBytes 16 block
        → aes key (inverse_aes key block) ≡ block }
{}

/// A block enciphered or deciphered is a block of bytes.
pub fn blocks_are_bytes()
    ensures enciphered { (key block : List ℕ) → HasBytes 32 key → HasBytes 16 block
        → HasBytes 16 (aes key block) }
    ensures deciphered { (key block : List ℕ) → HasBytes 32 key → HasBytes 16 block
        → HasBytes 16 (inverse_aes key block) }
{}
