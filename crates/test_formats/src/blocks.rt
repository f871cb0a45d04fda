//! The block of AES: vectors of the standard and of another implementation, and a caller's try.

ghost use Rattle.std.specs.Prelude.{◌≡◌};

use crate::digits::array_of;
use aes_core::Key256;
use std::alloc::Global;
use std::test::Fail;
use test_asserts::{same, shows};

// FIPS 197, first edition (2001), appendix C.3.
const KEY: &str = "000102030405060708090a0b0c0d0e0f101112131415161718191a1b1c1d1e1f";

const PLAIN: &str = "00112233445566778899aabbccddeeff";

const ENCIPHERED: &str = "8ea2b7ca516745bfeafc49904b496089";

// SP 800-38A, F.1.5, the first block.
const OTHER_KEY: &str = "603deb1015ca71be2b73aef0857d77811f352c073b6108d72d9810a30914dff4";

const OTHER_PLAIN: &str = "6bc1bee22e409f96e93d7e117393172a";

const OTHER_ENCIPHERED: &str = "f3eed1bdb5d2a03c064b5a7e3db181f8";

// A block is enciphered so under a key, and deciphered again.
fn are_of(alloc: Global, key: &str, plain: &str, enciphered: &str) -> Result<(), Fail> {
    let key = Key256::new(&array_of(alloc, key)?);
    let (plain, enciphered) = (array_of(alloc, plain)?, array_of(alloc, enciphered)?);
    let mut block = plain;
    key.encrypt_block(&mut block);
    same(block, enciphered)?;
    key.decrypt_block(&mut block);
    same(block, plain)
}

#[test]
fn blocks_of_the_standards(rt: HostRuntime) -> Result<(), Fail> {
    are_of(rt.alloc(), KEY, PLAIN, ENCIPHERED)?;
    are_of(rt.alloc(), OTHER_KEY, OTHER_PLAIN, OTHER_ENCIPHERED)
}

// 1,000 blocks in turn from the first row on, each under the key of the two outputs before it. Both
// answers were computed with OpenSSL 3.0.19.
#[test]
fn blocks_under_keys_of_their_outputs(rt: HostRuntime) -> Result<(), Fail> {
    let (key, block) = (array_of(rt.alloc(), KEY)?, array_of(rt.alloc(), PLAIN)?);
    same(
        enciphered_in_turn(key, block),
        array_of(rt.alloc(), CHAIN_ENCIPHERED)?,
    )?;
    same(
        deciphered_in_turn(key, block),
        array_of(rt.alloc(), CHAIN_DECIPHERED)?,
    )
}

const CHAIN_ENCIPHERED: &str = "a989932badb8ec3c1d219dec85ac31a0";

const CHAIN_DECIPHERED: &str = "16fbe6a7435cc94d20790ec661496305";

fn enciphered_in_turn(key: [u8; 32], block: [u8; 16]) -> [u8; 16] {
    let (mut key, mut block) = (key, block);
    for _ in 0..1000 {
        Key256::new(&key).encrypt_block(&mut block);
        key = next_key(&key, &block);
    }
    block
}

fn deciphered_in_turn(key: [u8; 32], block: [u8; 16]) -> [u8; 16] {
    let (mut key, mut block) = (key, block);
    for _ in 0..1000 {
        Key256::new(&key).decrypt_block(&mut block);
        key = next_key(&key, &block);
    }
    block
}

fn next_key(key: &[u8; 32], block: &[u8; 16]) -> [u8; 32] {
    let mut next = [0; 32];
    next[..16].copy_from_slice(&key[16..]);
    next[16..].copy_from_slice(block);
    next
}

// A caller that has a block back needs no lemma.
fn there_and_back(key: &Key256, block: &mut [u8; 16])
    ensures { block.new ≡ block.old }
{
    key.encrypt_block(block);
    key.decrypt_block(block);
}

#[test]
fn a_key_does_not_show(rt: HostRuntime) -> Result<(), Fail> {
    let key = Key256::new(&array_of(rt.alloc(), KEY)?);
    let plain = array_of(rt.alloc(), PLAIN)?;
    let mut block = plain;
    there_and_back(&key, &mut block);
    same(block, plain)?;
    shows(rt.alloc(), &key, "Key256 { .. }")
}
