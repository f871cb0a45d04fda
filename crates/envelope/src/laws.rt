//! Laws of the definitions, each the contract of a function that does nothing.

ghost use Rattle.std.specs.Prelude.{◌≡◌, ◌≢◌, ◌≤◌, ◌+◌, ◌-◌, ◌%◌, ℕ, List, Some, length};
ghost use Rattle.octets.specs.Bytes.{IsBytes};
ghost use Rattle.draws.specs.Draws.{next_bytes};
ghost use Rattle.auth_keys.specs.Rings.{entry_of};
ghost use Rattle.auth_keys.specs.declared.ring.RingKey.{RingKey};
ghost use Rattle.envelope.specs.declared.parts.Dir.{Dir};
ghost use Rattle.envelope.specs.declared.parts.Envelope.{Envelope};
ghost use Rattle.envelope.specs.declared.refusal.Refusal.{Refusal};
ghost use Rattle.envelope.specs.Lawful.{OpensWhatItSealed};
ghost use Rattle.envelope.specs.Lock.{LocksAgain, clear_lock, mt_lock};
ghost use Rattle.envelope.specs.Opening.{HasPlain, IsRefused, Opens, key_named};
ghost use Rattle.envelope.specs.Packet.{IsEnvelope, IsPadding, Lock, Sealed, body_max, block_bytes, least_padding, packet_max, packet_min, packet_of, padding_max, padding_min, plain_head};
ghost use Rattle.envelope.specs.Reading.{IsWhole, ReadsBack, envelope_in};
ghost use Rattle.envelope.specs.Sizes.{KeepsSizes};

use crate::cipher::{Cipher, ClearCipher, MtCipher, byte_laws};
use crate::limits::{
    BODY_BYTES_MAX, PACKET_BYTES_MAX, PACKET_BYTES_MIN, PADDING_BYTES_MAX, PADDING_BYTES_MIN,
};
use crate::seal::Seal;
use draws::Draw;

/// The constants are the limits that the definitions stand on.
pub fn limits_of_packets()
    ensures shortest { PACKET_BYTES_MIN ≡ packet_min }
    ensures longest { PACKET_BYTES_MAX ≡ packet_max }
    ensures longest_body { BODY_BYTES_MAX ≡ body_max }
    ensures shortest_padding { PADDING_BYTES_MIN ≡ padding_min }
    ensures longest_padding { PADDING_BYTES_MAX ≡ padding_max }
{}

/// The padding that is drawn has at least 12 bytes, makes the plain text whole blocks, and is the least that does.
pub fn least_padding_is_least()
    ensures enough { (body : ℕ) → padding_min ≤ least_padding body }
    ensures whole_blocks { (body : ℕ) → (plain_head + body + least_padding body) % block_bytes ≡ 0 }
    ensures least { (body count : ℕ) → padding_min ≤ count → (plain_head + body + count) % block_bytes ≡ 0 → least_padding body ≤ count }
{}

/// A seal opens what it sealed: in that direction, at every now at which the key is permanent or expires later, to the
/// same envelope and to no other; at every other now it refuses the packet. What it refuses opens to nothing.
pub fn opens_what_it_sealed<S: Seal>()
    ensures { OpensWhatItSealed S.lock }
{
    S::opens_what_it_sealed();
}

/// A packet is refused for one cause.
pub fn one_refusal()
    ensures { (lock : Lock) (ring : List RingKey) (now : ℕ) (dir : Dir) (packet : List ℕ) (refusal other : Refusal)
        → IsRefused lock ring now dir packet refusal → IsRefused lock ring now dir packet other → refusal ≡ other }
{}

/// What the seal without a cipher sealed for one direction opens to nothing in the other.
pub fn clear_packets_open_one_way()
    ensures { (ring : List RingKey) (now : ℕ) (dir other : Dir) (envelope : Envelope) (padding packet : List ℕ) (opened : Envelope)
        → dir ≢ other → Sealed clear_lock ring dir envelope padding packet → Opens clear_lock ring now other packet opened → ⊥ }
{
    ClearCipher::lawful();
    byte_laws();
}

/// The padding that is drawn for a body is lawful.
pub fn drawn_padding_is_lawful<D: Draw>()
    ensures { (step : D → ℕ × D) (body : ℕ) (draw : D) → IsPadding body (next_bytes step (least_padding body) draw) }
{}

/// The lock of the protocol keeps sizes, and so does the one without a cipher.
pub fn locks_keep_sizes()
    ensures protocol { KeepsSizes mt_lock }
    ensures clear { KeepsSizes clear_lock }
{
    msg_key::laws::keys_are_bytes();
    cipher_modes::laws::ige_meets_its_equations();
}

/// What is put together of a lawful envelope whose body isn't too long and lawful padding, under the key of the ring that the
/// envelope names, is sealed.
pub fn lawful_parts_are_sealed()
    ensures { (lock : Lock) (ring : List RingKey) (dir : Dir) (envelope : Envelope) (padding : List ℕ) (entry : RingKey) → KeepsSizes lock
        → entry_of envelope.key ring ≡ Some entry → IsEnvelope envelope → length envelope.body ≤ body_max → IsPadding (length envelope.body) padding
        → Sealed lock ring dir envelope padding (packet_of lock entry.key dir envelope padding) }
{}

/// A packet whose plain text is whole opens to the envelope that this text spells, under a lock that locks again what it unlocked.
pub fn whole_plain_texts_open()
    ensures { (lock : Lock) (ring : List RingKey) (now : ℕ) (dir : Dir) (packet plain : List ℕ) → LocksAgain lock → IsBytes packet → IsBytes plain
        → length plain ≡ length packet - 24 → HasPlain lock ring now dir packet plain → IsWhole plain
        → Opens lock ring now dir packet (envelope_in (key_named packet) plain) }
{
    byte_laws();
}

/// A packet that was sealed, by the seal of the protocol or by the one without a cipher, is read back: it names the envelope's
/// key, and its text spells the envelope and the padding.
pub fn sealed_packets_are_read_back()
    ensures of_the_protocol { ReadsBack mt_lock }
    ensures clear { ReadsBack clear_lock }
{
    MtCipher::lawful();
    ClearCipher::lawful();
    byte_laws();
}
