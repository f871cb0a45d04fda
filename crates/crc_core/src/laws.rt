//! Laws of the definition, each the contract of a function that does nothing.

ghost use Rattle.std.specs.Prelude.{◌≡◌, ◌<◌, ◌^◌, ◌++◌, ℕ, List};
ghost use Rattle.crc_core.specs.Crc32.{fed, crc32};

/// Pieces in turn are the same as one call over all of them.
pub fn pieces_equal_the_whole()
    ensures { (register : ℕ) (front back : List ℕ) → fed (fed register front) back ≡ fed register (front ++ back) }
{}

/// The check is a number of 32 bits.
pub fn checks_have_32_bits()
    ensures { (bytes : List ℕ) → crc32 bytes < 2 ^ 32 }
{}
