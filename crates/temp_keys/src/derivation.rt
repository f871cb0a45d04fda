//! The derivation of MTProto 1.0 with x = 0 (core.telegram.org/mtproto/description_v1).

ghost use Rattle.std.specs.Prelude.{◌≡◌, ◌+◌, ◌≤◌, ◌++◌, length, take};
ghost use Rattle.octets.specs.Bytes.{HasBytes};
ghost use Rattle.auth_keys.specs.Keys.{substr};
ghost use Rattle.sha1.specs.Sha1.{sha1};
ghost use Rattle.temp_keys.specs.Derivation.{message_key, aes_key, aes_iv};

use aes_core::Key256;
use auth_keys::AuthKey;
use sha1::Sha1;

/// The bytes of a plain text.
pub const PLAIN_BYTES: usize = 80;

/// The bytes of a plain text that aren't padding.
const UNPADDED_BYTES: usize = 72;

/// The message key of a plain text: the last 16 bytes of the SHA-1 of what isn't padding.
#[tactic(auto, unfolding(crate::specs::Derivation::message_key))]
pub fn message_key(plain: &[u8]) -> [u8; 16]
    requires { length plain.now ≡ 80 }
    ensures { result ≡ message_key plain.now }
{
    let digest = Sha1::digest(&plain[..UNPADDED_BYTES]);
    let mut message_key = [0; 16];
    message_key.copy_from_slice(&digest[4..20]);
    message_key
}

/// The key of AES-256 and the initialisation vector of infinite garble extension for a message key.
#[tactic(auto, unfolding(crate::specs::Derivation::aes_key, crate::specs::Derivation::aes_iv))]
pub fn aes_of(key: &AuthKey, message_key: &[u8; 16]) -> (Key256, [u8; 32])
    ensures key { result.0 ≡ aes_key key.now message_key.now }
    ensures iv { result.1 ≡ aes_iv key.now message_key.now }
    ensures iv_bytes { HasBytes 32 result.1 }
{
    let key = key.bytes();
    let a = digest_of_two(message_key, &key[..32]);
    let b = digest_of_three(&key[32..48], message_key, &key[48..64]);
    let c = digest_of_two(&key[64..96], message_key);
    let d = digest_of_two(message_key, &key[96..128]);
    let aes_key = joined(&a[..8], &b[8..20], &c[4..16]);
    (Key256::new(&aes_key), joined_iv(&a, &b, &c, &d))
}

// The initialisation vector from the four digests.
fn joined_iv(a: &[u8; 20], b: &[u8; 20], c: &[u8; 20], d: &[u8; 20]) -> [u8; 32]
    ensures { result ≡ substr a.now 8 12 ++ substr b.now 0 8 ++ substr c.now 16 4 ++ substr d.now 0 8 }
{
    let mut whole = [0; 32];
    let b_at = put(&mut whole, 0, &a[8..20]);
    let c_at = put(&mut whole, b_at, &b[..8]);
    let d_at = put(&mut whole, c_at, &c[16..20]);
    put(&mut whole, d_at, &d[..8]);
    whole
}

// The digest of two texts as one.
fn digest_of_two(first: &[u8], last: &[u8]) -> [u8; 20]
    ensures digest { result ≡ sha1 (first.now ++ last.now) }
    ensures size { length result ≡ 20 }
{
    let mut hasher = Sha1::new();
    hasher.update(first);
    hasher.update(last);
    hasher.finalize()
}

// The digest of three texts as one.
fn digest_of_three(first: &[u8], middle: &[u8], last: &[u8]) -> [u8; 20]
    ensures digest { result ≡ sha1 (first.now ++ middle.now ++ last.now) }
    ensures size { length result ≡ 20 }
{
    let mut hasher = Sha1::new();
    hasher.update(first);
    hasher.update(middle);
    hasher.update(last);
    hasher.finalize()
}

// Three texts of 32 bytes together as one.
fn joined(first: &[u8], middle: &[u8], last: &[u8]) -> [u8; 32]
    requires { length first.now + length middle.now + length last.now ≡ 32 }
    ensures { result ≡ first.now ++ middle.now ++ last.now }
{
    let mut whole = [0; 32];
    let middle_at = put(&mut whole, 0, first);
    let last_at = put(&mut whole, middle_at, middle);
    put(&mut whole, last_at, last);
    whole
}

// Puts a part at its place, and gives the place behind it.
fn put(whole: &mut [u8; 32], place: usize, part: &[u8]) -> usize
    requires fits { place + length part.now ≤ 32 }
    ensures written { take result whole.new ≡ take place whole.old ++ part.now }
    ensures behind { result ≡ place + length part.now }
    ensures size { length whole.new ≡ 32 }
{
    let behind = place + part.len();
    whole[place..behind].copy_from_slice(part);
    behind
}
