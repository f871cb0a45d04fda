//! Infinite garble extension (core.telegram.org/mtproto/description).

ghost use Rattle.std.specs.Prelude.{◌≡◌, ◌%◌, length, take, drop};
ghost use Rattle.octets.specs.Bytes.{HasBytes};
ghost use Rattle.cipher_modes.specs.Ige.{ige, inverse_ige, ige_block, inverse_ige_block, MeetsIgeEquations};

use crate::block::{BLOCK_BYTES, Block, block_at, block_laws, xor_blocks};
use aes_core::Key256;

/// Enciphers a text of whole blocks in place: each block is
/// c_i = aes(p_i xor c_(i-1)) xor p_(i-1), where c_0 is the first and p_0 the last half of the
/// initialisation vector.
pub fn ige_encrypt(key: &Key256, iv: &[u8; 32], text: &mut [u8])
    requires { length text.old % 16 ≡ 0 }
    ensures enciphered { text.new ≡ ige key.now iv.now text.old }
    ensures meets_equations { MeetsIgeEquations key.now iv.now text.old text.new }
    ensures undone_by_decrypting { inverse_ige key.now iv.now text.new ≡ text.old }
{
    block_laws();
    let (mut cipher_before, mut plain_before) = halves(iv);
    'each_block: for i in 0..text.len() / BLOCK_BYTES {
        let plain = block_at(text, i);
        let cipher = encrypted(key, cipher_before, plain_before, plain);
        text[BLOCK_BYTES * i..BLOCK_BYTES * i + BLOCK_BYTES].copy_from_slice(&cipher);
        cipher_before = cipher;
        plain_before = plain;
    }
}

/// Deciphers a text of whole blocks in place, which undoes [`ige_encrypt`] under the same key and
/// initialisation vector.
pub fn ige_decrypt(key: &Key256, iv: &[u8; 32], text: &mut [u8])
    requires { length text.old % 16 ≡ 0 }
    ensures deciphered { text.new ≡ inverse_ige key.now iv.now text.old }
    ensures meets_equations { MeetsIgeEquations key.now iv.now text.new text.old }
    ensures undone_by_encrypting { ige key.now iv.now text.new ≡ text.old }
{
    block_laws();
    let (mut cipher_before, mut plain_before) = halves(iv);
    'each_block: for i in 0..text.len() / BLOCK_BYTES {
        let cipher = block_at(text, i);
        let plain = decrypted(key, cipher_before, plain_before, cipher);
        text[BLOCK_BYTES * i..BLOCK_BYTES * i + BLOCK_BYTES].copy_from_slice(&plain);
        cipher_before = cipher;
        plain_before = plain;
    }
}

// A block enciphered, after the enciphered and the plain block before it.
#[inline(always)]
fn encrypted(key: &Key256, cipher_before: Block, plain_before: Block, plain: Block) -> Block
    ensures block { result ≡ ige_block key.now cipher_before plain_before plain }
    ensures key_of_bytes { HasBytes 32 key.now }
{
    let mut block = xor_blocks(plain, cipher_before);
    key.encrypt_block(&mut block);
    xor_blocks(block, plain_before)
}

#[inline(always)]
fn decrypted(key: &Key256, cipher_before: Block, plain_before: Block, cipher: Block) -> Block
    ensures block { result ≡ inverse_ige_block key.now cipher_before plain_before cipher }
    ensures key_of_bytes { HasBytes 32 key.now }
{
    let mut block = xor_blocks(cipher, plain_before);
    key.decrypt_block(&mut block);
    xor_blocks(block, cipher_before)
}

// c_0 and p_0, the halves of the initialisation vector.
fn halves(iv: &[u8; 32]) -> (Block, Block)
    ensures first { result.0 ≡ take 16 iv.now }
    ensures last { result.1 ≡ drop 16 iv.now }
{
    (block_at(iv, 0), block_at(iv, 1))
}
