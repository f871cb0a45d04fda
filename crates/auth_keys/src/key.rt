//! Authorisation keys, and how long they are good.

ghost use Rattle.std.specs.Prelude.{◌≡◌, ◌↔◌, ◌<◌, ◌^◌, IsTrue};
ghost use Rattle.auth_keys.specs.Keys.{IsKey, IsGoodAt, identifier};

use msg_ids::Moment;
use sha1::Sha1;
use std::fmt;
use std::marker::Model;

/// The bytes of a key.
const KEY_BYTES: usize = 256;

/// Where the identifier begins in a key's SHA-1.
const IDENTIFIER_START: usize = 12;

/// An authorisation key of 256 bytes (core.telegram.org/mtproto/description, "Authorization Key"). Contracts see the
/// bytes. Its text by `Debug` has the identifier alone.
#[derive(Drop)]
pub struct AuthKey {
    bytes: [u8; KEY_BYTES],
    // Kept, since packets name a key by it.
    id: u64,
}

impl Model for AuthKey {
    ghost use Rattle.std.specs.Prelude.{◌≡◌, ℕ, List};
    ghost use Rattle.auth_keys.specs.Keys.{IsKey, identifier};

    ghost Value = { List ℕ };

    ghost view = { λ key. key.bytes };

    ghost invariant = { λ key. IsKey key.bytes × (key.id ≡ identifier key.bytes) };
}

impl fmt::Debug for AuthKey {
    /// The identifier alone: the key is a secret.
    fn fmt<W: fmt::Write>(&self, f: &mut fmt::Formatter<W>) -> fmt::Result {
        f.debug_struct("AuthKey")
            .field("id", &self.id)
            .finish_non_exhaustive()
    }
}

impl AuthKey {
    /// The key of these 256 bytes. Takes no memory.
    pub fn new(bytes: &[u8; KEY_BYTES]) -> AuthKey
        ensures value { result ≡ bytes.now }
        ensures key { IsKey bytes.now }
    {
        let id = identifier(bytes);
        AuthKey { bytes: *bytes, id }
    }

    /// The key's identifier: bytes 12 to 19 of its SHA-1, as a `long` (core.telegram.org/mtproto/description, "Key
    /// Identifier").
    pub fn id(&self) -> u64
        ensures value { result ≡ identifier self.now }
        ensures long { identifier self.now < 2 ^ 64 }
    {
        self.id
    }

    /// The key's 256 bytes.
    pub fn bytes(&self) -> &[u8; KEY_BYTES]
        ensures value { result.now ≡ self.now }
        ensures key { IsKey self.now }
    {
        &self.bytes
    }
}

/// How long a key is good (core.telegram.org/api/pfs).
#[derive(Clone, Copy, Debug, PartialEq, Eq)]
pub enum KeyKind {
    /// A permanent key.
    Perm,
    /// A temporary key.
    Temp {
        /// The first moment at which it isn't good any more.
        expires: Moment,
    },
}

impl KeyKind {
    /// Whether a key of this kind is good at this moment: it is permanent, or expires after it.
    pub fn is_good_at(self, now: Moment) -> bool
        ensures { IsTrue result ↔ IsGoodAt now self }
    {
        match self {
            KeyKind::Perm => true,
            KeyKind::Temp { expires } => now < expires,
        }
    }
}

// The identifier of a key.
fn identifier(bytes: &[u8; KEY_BYTES]) -> u64
    ensures { result ≡ identifier bytes.now }
{
    let digest = Sha1::digest(bytes);
    let mut last = [0; 8];
    last.copy_from_slice(&digest[IDENTIFIER_START..]);
    u64::from_le_bytes(last)
}
