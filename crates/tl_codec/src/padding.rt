//! Padding of strings to a multiple of 4 bytes.

ghost use Rattle.std.specs.Prelude.{◌≡◌, ◌≤◌};
ghost use Rattle.tl_codec.specs.Spelling as spelling;

use crate::tags::WORD_BYTES;

/// The first byte of a string whose length has three bytes; shorter lengths stand in that byte itself.
pub(crate) const LONG_FORM: u8 = 254;

/// The first byte that no string has.
pub(crate) const NO_FORM: u8 = 255;

/// How many bytes are missing to a multiple of 4.
pub(crate) fn padding_of(size: usize) -> usize
    ensures value { result ≡ spelling.padding_of size }
    ensures small { result ≤ 3 }
{
    (WORD_BYTES - size % WORD_BYTES) % WORD_BYTES
}
