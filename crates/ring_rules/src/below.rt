//! What the laws stand on.

ghost use Rattle.temp_keys.specs.Below.{SealLaws};

use auth_keys::laws::digests_are_bytes;
use cipher_modes::laws as of_modes;
use octets::laws as of_bytes;

/// The laws of digests and of enciphered texts.
pub(crate) fn seal_laws()
    ensures { SealLaws }
{
    of_bytes::counts_of_bytes();
    digests_are_bytes();
    of_modes::ige_meets_its_equations();
    of_modes::ige_deciphering_undoes_enciphering();
}
