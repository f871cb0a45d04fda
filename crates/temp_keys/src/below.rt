//! What the crates below promise, for the proofs.

ghost use Rattle.temp_keys.specs.Below.{SealLaws};

use auth_keys::laws::digests_are_bytes;
use cipher_modes::laws::{ige_deciphering_undoes_enciphering, ige_meets_its_equations};
use octets::laws::counts_of_bytes;

/// The laws of digests and of enciphered texts.
pub fn seal_laws()
    ensures { SealLaws }
{
    counts_of_bytes();
    digests_are_bytes();
    ige_meets_its_equations();
    ige_deciphering_undoes_enciphering();
}
