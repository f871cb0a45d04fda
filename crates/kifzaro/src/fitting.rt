//! Packets that go over a wire.

ghost use Rattle.std.specs.Prelude.{◌≡◌, ℕ, List, true};
ghost use Rattle.auth_keys.specs.declared.ring.RingKey.{RingKey};
ghost use Rattle.envelope.specs.declared.parts.Dir.{Dir};
ghost use Rattle.envelope.specs.declared.parts.Envelope.{Envelope};
ghost use Rattle.envelope.specs.Lock.{mt_lock};
ghost use Rattle.envelope.specs.Packet.{Sealed};
ghost use Rattle.kifzaro.specs.Fitting.{Fits};

use envelope::laws::opens_what_it_sealed;
use envelope::{MtSeal, PACKET_BYTES_MAX, PACKET_BYTES_MIN};

/// What stands in front of a packet's blocks: the key's identifier and the message key.
const HEAD_BYTES: usize = 24;

/// A block of the cipher.
const BLOCK_BYTES: usize = 16;

/// Whether a packet may be put into a frame of any form, as `Wire::put` wants it: it has 72 to 1,048,576 bytes, 8 more than whole
/// blocks of 16. Each packet that was sealed has, and so each that a client or a server hands out.
#[tactic(auto, using(crate::proofs::FittingLemmas::fitting, crate::proofs::FittingLemmas::least_sealed, crate::proofs::FittingLemmas::most_sealed, crate::proofs::FittingLemmas::blocks_sealed))]
pub fn fits(packet: &[u8]) -> bool
    ensures fits { result ≡ true → Fits packet.now }
    ensures sealed { (ring : List RingKey) (dir : Dir) (envelope : Envelope) (padding : List ℕ) → Sealed mt_lock ring dir envelope padding packet.now → result ≡ true }
{
    opens_what_it_sealed::<MtSeal>();
    let len = packet.len();
    if len < PACKET_BYTES_MIN {
        return false;
    }
    if len > PACKET_BYTES_MAX {
        return false;
    }
    len % BLOCK_BYTES == HEAD_BYTES % BLOCK_BYTES
}
