//! Laws of the definitions, each the contract of a function that does nothing.

ghost use Rattle.std.specs.Prelude.{◌≡◌, ◌≢◌, ◌<◌, ◌^◌, ℕ, List, Some, None, All, Contains};
ghost use Rattle.std.specs.Int.{w64, to_le_bytes};
ghost use Rattle.sha1.specs.Sha1.{sha1};
ghost use Rattle.octets.specs.Bytes.{HasBytes};
ghost use Rattle.auth_keys.specs.Keys.{identifier, identifier_bytes};
ghost use Rattle.auth_keys.specs.KeyFile.{IsRingOf, IsFaultOf};
ghost use Rattle.auth_keys.specs.Rings.{IsRing, entry_of, ring_keys_max};
ghost use Rattle.auth_keys.specs.declared.fault.KeyFault.{KeyFault};
ghost use Rattle.auth_keys.specs.declared.fault.KeyFault.TheVariants.{Memory};
ghost use Rattle.auth_keys.specs.declared.ring.RingKey.{RingKey};

use crate::ring::RING_KEYS_MAX;

/// The constant of this crate is the limit that the definitions speak of.
pub fn limit_of_a_ring()
    ensures keys { RING_KEYS_MAX ≡ ring_keys_max }
{}

/// A text has one reading: it is the text of one ring, or it has one fault, and not both.
pub fn one_reading()
    ensures ring { (text : List ℕ) (ring other : List RingKey) → IsRingOf text ring → IsRingOf text other → ring ≡ other }
    ensures no_fault { (text : List ℕ) (ring : List RingKey) (fault : KeyFault) → IsRingOf text ring → IsFaultOf text fault → fault ≡ Memory }
    ensures fault { (text : List ℕ) (fault other : KeyFault) → fault ≢ Memory → other ≢ Memory → IsFaultOf text fault → IsFaultOf text other → fault ≡ other }
{}

/// What `entry_of` finds is the key of the ring with that identifier, and it finds none where there is none.
pub fn one_key_of_an_identifier()
    ensures found { (id : ℕ) (ring : List RingKey) (entry : RingKey) → entry_of id ring ≡ Some entry → Contains ring entry × (identifier entry.key ≡ id) }
    ensures only { (ring : List RingKey) (entry : RingKey) → IsRing ring → Contains ring entry → entry_of (identifier entry.key) ring ≡ Some entry }
    ensures none { (id : ℕ) (ring : List RingKey) → entry_of id ring ≡ None → All (λ entry. identifier entry.key ≢ id) ring }
    ensures only_none { (id : ℕ) (ring : List RingKey) → All (λ entry. identifier entry.key ≢ id) ring → entry_of id ring ≡ None }
{}

/// A digest has 20 bytes.
pub fn digests_are_bytes()
    ensures { (message : List ℕ) → HasBytes 20 (sha1 message) }
{}

/// The identifier of a key is a `long` of TL, and as one it is spelt as bytes 12 to 19 of the digest.
pub fn identifiers_are_longs()
    ensures long { (key : List ℕ) → identifier key < 2 ^ 64 }
    ensures bytes { (key : List ℕ) → to_le_bytes w64 (identifier key) ≡ identifier_bytes key }
{}
