//! Rings of keys.

ghost use Rattle.std.specs.Prelude.{◌≡◌, ◌≢◌, ℕ, ◌≤◌, ◌<◌, ◌^◌, ◌↔◌, List, length, IsTrue, IfOk, IfErr, IfSome, IfNone, Some, None, All, HoldsAt};
ghost use Rattle.auth_keys.specs.Keys.{identifier};
ghost use Rattle.auth_keys.specs.Rings.{IsRing, entry_of, kind_in};
ghost use Rattle.auth_keys.specs.KeyFile.{IsRingOf, IsFaultOf};

use crate::fault::KeyFault;
use crate::key::{AuthKey, KeyKind};
use crate::reading::keys_of;
use std::alloc::Global;
use std::marker::Model;

/// How many keys a ring has at most.
pub const RING_KEYS_MAX: usize = 64;

/// A key of a ring, and how long it is good.
#[derive(Debug, Drop)]
pub struct RingKey {
    /// The key.
    pub key: AuthKey,
    /// How long it is good.
    pub kind: KeyKind,
}

/// At most 64 keys with different identifiers. Contracts see the list of these in the order of the key file.
#[derive(Debug, Drop)]
pub struct Ring {
    keys: Vec<RingKey>,
}

impl Model for Ring {
    ghost use Rattle.std.specs.Prelude.{List};
    ghost use Rattle.auth_keys.specs.Rings.{IsRing};
    ghost use Rattle.auth_keys.specs.declared.ring.RingKey.{RingKey};

    ghost Value = { List RingKey };

    ghost view = { λ ring. ring.keys.items };

    ghost invariant = { λ ring. IsRing ring.keys.items };
}

impl Ring {
    /// Reads the text of a key file. A line is `perm` and a key's 512 hexadecimal digits of either case, or `temp`, the
    /// moment of expiry in decimal from 1 to 4,000,000,000 and these digits, with one blank between words. Blank lines
    /// and lines that begin with `#` are left out; the last newline may be missing.
    ///
    /// # Errors
    ///
    /// The first line with a fault decides, and on one line the first of these: `BadLine`, the line isn't of that form;
    /// `TooMany`, it is the 65th key; `SameId`, a line before has a key with the same identifier. `Memory`.
    pub fn read(alloc: Global, text: &[u8]) -> Result<Ring, KeyFault>
        requires short { length text.now < 2 ^ 32 }
        ensures ring { IfOk result (IsRingOf text.now) }
        ensures fault { IfErr result (IsFaultOf text.now) }
    {
        let keys = keys_of(alloc, text)?;
        Ok(Ring { keys })
    }

    /// The key with this identifier, or `None` where the ring has no such key.
    pub fn find(&self, id: u64) -> Option<&AuthKey>
        ensures found { IfSome result (λ key. (kind : KeyKind) × (entry_of id self.now ≡ Some (record { key = key.now; kind = kind }))) }
        ensures none { IfNone result (entry_of id self.now ≡ None) }
        ensures lawful { IsRing self.now }
    {
        Some(&self.entry(id)?.key)
    }

    /// How long the key with this identifier is good, or `None` where the ring has no such key.
    pub fn kind(&self, id: u64) -> Option<KeyKind>
        ensures value { result ≡ kind_in (entry_of id self.now) }
        ensures lawful { IsRing self.now }
    {
        Some(self.entry(id)?.kind)
    }

    /// How many keys there are.
    pub fn len(&self) -> usize
        ensures value { result ≡ length self.now }
        ensures lawful { IsRing self.now }
    {
        self.keys.len()
    }

    /// Whether there is none.
    pub fn is_empty(&self) -> bool
        ensures { IsTrue result ↔ (length self.now ≡ 0) }
    {
        self.keys.is_empty()
    }

    // The key with this identifier, and its kind.
    fn entry(&self, id: u64) -> Option<&RingKey>
        ensures found { IfSome result (λ entry. entry_of id self.now ≡ Some entry.now) }
        ensures none { IfNone result (entry_of id self.now ≡ None) }
        ensures lawful { IsRing self.now }
    {
        let place = place_of_id(&self.keys, id)?;
        Some(&self.keys[place])
    }
}

/// The place of the key with this identifier, from 0, where there is one.
pub fn place_of_id(keys: &[RingKey], id: u64) -> Option<usize>
    ensures found { IfSome result (λ place. (place < length keys.now) × HoldsAt (λ entry. identifier entry.key ≡ id) keys.now place) }
    ensures first { IfSome result (λ place. (k : ℕ) → k < place → HoldsAt (λ entry. identifier entry.key ≢ id) keys.now k) }
    ensures none { IfNone result (All (λ entry. identifier entry.key ≢ id) keys.now) }
{
    keys.iter().position(|entry| entry.key.id() == id)
}
