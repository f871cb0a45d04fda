//! The keys under which a client acts.

ghost use Rattle.std.specs.Prelude.{◌≡◌, Some, option_map};
ghost use Rattle.cmd_call.specs.Inner.{keys_of};
ghost use Rattle.cmd_call.specs.Keys.{keys_for, under_temporary};

use auth_keys::{KeyKind, Ring};
use msg_ids::Moment;

/// The keys under which a client acts.
#[derive(Clone, Copy, Debug)]
pub enum Acting {
    /// A permanent key.
    Perm {
        /// Its identifier.
        key: u64,
    },
    /// A temporary key, which is to be bound to a permanent one.
    Temp {
        /// Its identifier.
        key: u64,
        /// That of the permanent key.
        perm: u64,
        /// The first moment at which the temporary key isn't good any more.
        expires: Moment,
    },
}

/// The keys of a ring with these identifiers, `perm` for a temporary key alone; none where the ring lacks one that is needed.
pub fn keys_in_ring(ring: &Ring, key: u64, perm: Option<u64>) -> Option<Acting>
    ensures keys { option_map keys_of result ≡ keys_for ring.now key perm }
{
    match ring.kind(key)? {
        KeyKind::Perm => Some(Acting::Perm { key }),
        KeyKind::Temp { expires } => bound(ring, key, expires, perm),
    }
}

/// A temporary key with its permanent one, where that is named and is a permanent key of the ring.
fn bound(ring: &Ring, key: u64, expires: Moment, perm: Option<u64>) -> Option<Acting>
    ensures { option_map keys_of result ≡ under_temporary ring.now key expires perm }
{
    let Some(perm) = perm else {
        return None;
    };
    match ring.kind(perm) {
        Some(KeyKind::Perm) => Some(Acting::Temp { key, perm, expires }),
        _ => None,
    }
}
