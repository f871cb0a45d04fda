//! What an authorisation key and a text give (core.telegram.org/mtproto/description).

ghost use Rattle.sha2.specs.Sha256.{sha256};
ghost use Rattle.std.specs.Prelude.{◌≡◌, ◌++◌};
ghost use Rattle.auth_keys.specs.Keys.{substr};
ghost use Rattle.msg_key.specs.Keys.{IsX, message_key, aes_key, aes_iv};

use aes_core::Key256;
use auth_keys::AuthKey;
use sha2::{Digest, Sha256};

/// x of the equations for packets from the client to the server.
pub const UP: usize = 0;

/// x of the equations for packets from the server to the client.
pub const DOWN: usize = 8;

/// The message key of a plain text with its padding: the middle 128 bits of the SHA-256 of 32 bytes of the
/// authorisation key and the text (core.telegram.org/mtproto/description, "Message Key"). `x` is [`UP`] or [`DOWN`].
#[tactic(auto, unfolding(crate::specs::Keys::message_key))]
pub fn msg_key(key: &AuthKey, x: usize, plain: &[u8]) -> [u8; 16]
    requires { IsX x }
    ensures { result ≡ message_key key.now x plain.now }
{
    let large = digest(&key.bytes()[88 + x..120 + x], plain);
    let mut msg_key = [0; 16];
    msg_key.copy_from_slice(&large[8..24]);
    msg_key
}

/// The key of AES-256 and the initialisation vector of infinite garble extension for the text of a packet with this
/// message key (core.telegram.org/mtproto/description, "Defining AES Key and Initialization Vector"). `x` is [`UP`] or
/// [`DOWN`].
pub fn aes_of(key: &AuthKey, x: usize, msg_key: &[u8; 16]) -> (Key256, [u8; 32])
    requires { IsX x }
    ensures key { result.0 ≡ aes_key key.now x msg_key.now }
    ensures iv { result.1 ≡ aes_iv key.now x msg_key.now }
{
    let (cipher_key, iv) = key_and_iv_of(key, x, msg_key);
    (Key256::new(&cipher_key), iv)
}

/// The same, with the key as its 32 bytes: round keys are long, and made where they are used they aren't copied.
#[tactic(auto, unfolding(crate::specs::Keys::aes_key, crate::specs::Keys::aes_iv))]
pub fn key_and_iv_of(key: &AuthKey, x: usize, msg_key: &[u8; 16]) -> ([u8; 32], [u8; 32])
    requires { IsX x }
    ensures key { result.0 ≡ aes_key key.now x msg_key.now }
    ensures iv { result.1 ≡ aes_iv key.now x msg_key.now }
{
    let key = key.bytes();
    let a = digest(msg_key, &key[x..36 + x]);
    let b = digest(&key[40 + x..76 + x], msg_key);
    (three_parts(&a, &b), three_parts(&b, &a))
}

// The digest of two texts as one.
fn digest(first: &[u8], last: &[u8]) -> [u8; 32]
    ensures { result ≡ sha256 (first.now ++ last.now) }
{
    let mut hasher = Sha256::new();
    hasher.update(first);
    hasher.update(last);
    hasher.finalize()
}

// The first 8 bytes of a list, the 16 in the middle of another, and the last 8 of the first one.
fn three_parts(ends: &[u8; 32], middle: &[u8; 32]) -> [u8; 32]
    ensures { result ≡ substr ends.now 0 8 ++ substr middle.now 8 16 ++ substr ends.now 24 8 }
{
    let mut whole = *ends;
    whole[8..24].copy_from_slice(&middle[8..24]);
    whole
}
