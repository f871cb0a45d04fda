//! Message keys and the keys of AES that are derived from them: each call once, against another implementation of the equations: a few lines of Python over the SHA-256 of its
//! hashlib and the block of AES of OpenSSL 3 (`AES_encrypt`), under the authorisation key of the bytes `00` to `ff`.

ghost use Rattle.std.specs.Prelude.{◌≡◌};
ghost use Rattle.msg_key.specs.Keys.{message_key, aes_key};

use crate::digits::array_of;
use aes_core::Key256;
use auth_keys::AuthKey;
use msg_key::{DOWN, UP, aes_of, msg_key};
use std::test::*;
use test_asserts::same;

// A plain text with its padding: salt, session, number, sequence number, length, a body of 4 bytes and 12 of padding.
const PLAIN: &str = "\
0807060504030201181716151413121104000000000000000100000004000000\
a0a1a2a32d7f954c2df451585afe2a99";

fn bytes_from_0_to_255() -> [u8; 256] {
    let mut bytes = [0; 256];
    for i in 0..256 {
        bytes[i] = i as u8;
    }
    bytes
}

const UP_MESSAGE_KEY: &str = "5469462368e2cb4256ad02ab59a4a6b8";

const UP_IV: &str = "f4b1fce589a11df2545f3d8a53b8012881f06e16ea3fe76bb195a3b691e098d1";

// A block of zeros under the key of AES.
const UP_ZEROS: &str = "8dffb62f7b75e2b6b0b58a857e319937";

const DOWN_MESSAGE_KEY: &str = "1e22a414e4375812ab5a4a7c7361d7f5";

const DOWN_IV: &str = "3efb335bf1f4e666eeba1d7923e01109ff30a2bba9de72a6173b927a5dab614b";

// A block of zeros under the key of AES.
const DOWN_ZEROS: &str = "5684475e03677efd25e3c7c9aa2647f7";

// What a sealer does: the key of AES of a text. It needs no lemma.
fn key_of_text(key: &AuthKey, plain: &[u8]) -> Key256
    ensures { result ≡ aes_key key.now 8 (message_key key.now 8 plain.now) }
{
    aes_of(key, DOWN, &msg_key(key, DOWN, plain)).0
}

fn zeros_under(key: &Key256) -> [u8; 16] {
    let mut zeros = [0; 16];
    key.encrypt_block(&mut zeros);
    zeros
}

#[test]
fn keys_upwards(rt: HostRuntime) -> Result<(), Fail> {
    let key = AuthKey::new(&bytes_from_0_to_255());
    let plain: [u8; 48] = array_of(rt.alloc(), PLAIN)?;
    let message_key = array_of(rt.alloc(), UP_MESSAGE_KEY)?;
    same(msg_key(&key, UP, &plain), message_key)?;
    let (cipher_key, iv) = aes_of(&key, UP, &message_key);
    same(zeros_under(&cipher_key), array_of(rt.alloc(), UP_ZEROS)?)?;
    same(iv, array_of(rt.alloc(), UP_IV)?)
}

#[test]
fn keys_downwards(rt: HostRuntime) -> Result<(), Fail> {
    let key = AuthKey::new(&bytes_from_0_to_255());
    let plain: [u8; 48] = array_of(rt.alloc(), PLAIN)?;
    let message_key = array_of(rt.alloc(), DOWN_MESSAGE_KEY)?;
    same(msg_key(&key, DOWN, &plain), message_key)?;
    let (_cipher_key, iv) = aes_of(&key, DOWN, &message_key);
    same(
        zeros_under(&key_of_text(&key, &plain)),
        array_of(rt.alloc(), DOWN_ZEROS)?,
    )?;
    same(iv, array_of(rt.alloc(), DOWN_IV)?)
}
