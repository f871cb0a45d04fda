//! The key streams of a start.

ghost use Rattle.std.specs.Prelude.{◌≡◌, ◌++◌, length, take, drop};
ghost use Rattle.cipher_modes.specs.CounterMode.{applied, advanced};
ghost use Rattle.obfus.specs.Streams.{key_of, up_stream, down_stream, ciphered};

use crate::start::Start;
use cipher_modes::Ctr;
use sha2::{Digest, Sha256};

/// The secret of a proxy, where there is one.
pub(crate) type Secret = Option<[u8; 16]>;

// The key of a stream from the bytes of a start, and of the secret where there is one.
fn key_of(secret: Secret, bytes: &[u8]) -> [u8; 32]
    requires { length bytes.now ≡ 32 }
    ensures { result ≡ key_of secret bytes.now }
{
    if let Some(secret) = secret {
        let mut hasher = Sha256::new();
        hasher.update(bytes);
        hasher.update(&secret);
        hasher.finalize()
    } else {
        let mut key = [0; 32];
        key.copy_from_slice(bytes);
        key
    }
}

/// The stream from the client to the server, at its beginning.
#[tactic(auto, unfolding(crate::specs::Streams::up_stream))]
pub(crate) fn up_stream(secret: Secret, start: &Start) -> Ctr
    ensures { result ≡ up_stream secret start.now 0 }
{
    let mut iv = [0; 16];
    iv.copy_from_slice(&start[40..56]);
    Ctr::new(&key_of(secret, &start[8..40]), &iv)
}

/// The stream from the server to the client, at its beginning.
pub(crate) fn down_stream(secret: Secret, start: &Start) -> Ctr
    ensures { result ≡ down_stream secret start.now 0 }
{
    let mut reversed = *start;
    reversed.reverse();
    up_stream(secret, &reversed)
}

/// The start with its last 8 bytes enciphered, or deciphered, and the up stream behind its 64 bytes.
#[tactic(auto, unfolding(crate::specs::Streams::ciphered, crate::specs::Streams::up_stream))]
pub(crate) fn ciphered(secret: Secret, start: &Start) -> (Start, Ctr)
    ensures wire { result.0 ≡ ciphered secret start.now }
    ensures up { result.1 ≡ up_stream secret start.now 64 }
{
    let mut up = up_stream(secret, start);
    let wire = with_end_ciphered(&mut up, start);
    (wire, up)
}

// The start with its last 8 bytes enciphered by the stream, which goes past all of it.
fn with_end_ciphered(up: &mut Ctr, start: &Start) -> Start
    ensures wire { result ≡ take 56 start.now ++ drop 56 (applied up.old start.now) }
    ensures up { up.new ≡ advanced up.old 64 }
{
    let mut text = *start;
    up.apply(&mut text);
    let mut wire = *start;
    wire[56..].copy_from_slice(&text[56..]);
    wire
}
