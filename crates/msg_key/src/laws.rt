//! Laws of the definitions, each the contract of a function that does nothing.

ghost use Rattle.std.specs.Prelude.{◌≡◌, ℕ, List};
ghost use Rattle.octets.specs.Bytes.{HasBytes};
ghost use Rattle.msg_key.specs.Keys.{x_up, x_down, message_key, aes_key, aes_iv};

use crate::derivation::{DOWN, UP};
use octets::laws as of_bytes;

/// The constants are the numbers that the definitions stand on.
pub fn constants_of_the_standard()
    ensures up { UP ≡ x_up }
    ensures down { DOWN ≡ x_down }
{}

/// A message key has 16 bytes, a key of AES and an initialisation vector have 32.
pub fn keys_are_bytes()
    ensures message_key { (key plain : List ℕ) (x : ℕ) → HasBytes 16 (message_key key x plain) }
    ensures aes_key { (key msg_key : List ℕ) (x : ℕ) → HasBytes 32 (aes_key key x msg_key) }
    ensures aes_iv { (key msg_key : List ℕ) (x : ℕ) → HasBytes 32 (aes_iv key x msg_key) }
{
    of_bytes::counts_of_bytes();
}
