//! What a seal does with a text.

ghost use Rattle.std.specs.Prelude.{◌≡◌, ◌%◌, length};
ghost use Rattle.msg_key.specs.Keys.{IsX};
ghost use Rattle.envelope.specs.Lock.{ByteLaws, x_of, mt_lock, clear_lock};

use crate::parts::Dir;
use aes_core::Key256;
use auth_keys::AuthKey;
use cipher_modes::{ige_decrypt, ige_encrypt, laws as of_modes};
use msg_key::{DOWN, UP, key_and_iv_of, laws as of_keys, msg_key};
use octets::laws as of_bytes;

/// The three functions in which seals differ. Texts are whole blocks.
pub trait Cipher {
    ghost use Rattle.envelope.specs.Packet.{Lock};
    ghost use Rattle.envelope.specs.Lock.{IsLock};

    ghost lock: { Lock };

    /// The message key of a plain text.
    fn message_key(key: &AuthKey, dir: Dir, plain: &[u8]) -> [u8; 16]
        ensures { result ≡ lock.message_key key.now dir plain.now };

    /// Makes the text of a plain text in place.
    fn lock(key: &AuthKey, dir: Dir, message_key: &[u8; 16], text: &mut [u8])
        requires { length text.old % 16 ≡ 0 }
        ensures { text.new ≡ lock.locked key.now dir message_key.now text.old };

    /// Makes the plain text of a text in place.
    fn unlock(key: &AuthKey, dir: Dir, message_key: &[u8; 16], text: &mut [u8])
        requires { length text.old % 16 ≡ 0 }
        ensures { text.new ≡ lock.unlocked key.now dir message_key.now text.old };

    /// What the proofs need of them.
    fn lawful()
        ensures { IsLock lock };
}

/// The cipher of MTProto 2.0.
pub struct MtCipher;

/// No cipher.
pub struct ClearCipher;

// x of the equations.
fn x_of(dir: Dir) -> usize
    ensures value { result ≡ x_of dir }
    ensures lawful { IsX result }
{
    match dir {
        Dir::Up => UP,
        Dir::Down => DOWN,
    }
}

impl Cipher for MtCipher {
    ghost lock = { mt_lock };

    fn message_key(key: &AuthKey, dir: Dir, plain: &[u8]) -> [u8; 16] {
        msg_key(key, x_of(dir), plain)
    }

    fn lock(key: &AuthKey, dir: Dir, message_key: &[u8; 16], text: &mut [u8]) {
        let (cipher_key, iv) = key_and_iv_of(key, x_of(dir), message_key);
        ige_encrypt(&Key256::new(&cipher_key), &iv, text);
    }

    fn unlock(key: &AuthKey, dir: Dir, message_key: &[u8; 16], text: &mut [u8]) {
        let (cipher_key, iv) = key_and_iv_of(key, x_of(dir), message_key);
        ige_decrypt(&Key256::new(&cipher_key), &iv, text);
    }

    fn lawful() {
        of_keys::keys_are_bytes();
        of_modes::ige_meets_its_equations();
        of_modes::ige_deciphering_undoes_enciphering();
        of_modes::ige_enciphering_undoes_deciphering();
    }
}

impl Cipher for ClearCipher {
    ghost lock = { clear_lock };

    fn message_key(_key: &AuthKey, dir: Dir, _plain: &[u8]) -> [u8; 16] {
        let mut bytes = [0; 16];
        bytes[0] = match dir {
            Dir::Up => 0,
            Dir::Down => 1,
        };
        bytes
    }

    fn lock(_key: &AuthKey, _dir: Dir, _message_key: &[u8; 16], _text: &mut [u8]) {}

    fn unlock(_key: &AuthKey, _dir: Dir, _message_key: &[u8; 16], _text: &mut [u8]) {}

    fn lawful() {
        of_bytes::counts_of_bytes();
    }
}

/// What the crate below promises of lists of bytes, for the proofs.
pub fn byte_laws()
    ensures { ByteLaws }
{
    of_bytes::bytes_stay_bytes();
    of_bytes::parts_are_bytes();
}
