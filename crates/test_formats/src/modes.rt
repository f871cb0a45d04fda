//! Modes of AES: vectors of the standard and of another implementation, and callers' tries.

ghost use Rattle.std.specs.Prelude.{◌≡◌, ◌%◌, length};
ghost use Rattle.cipher_modes.specs.CounterMode.{applied, advanced};

use crate::digits::array_of;
use aes_core::Key256;
use cipher_modes::{Ctr, ige_decrypt, ige_encrypt};
use std::alloc::Global;
use std::test::Fail;
use test_asserts::{holds, same, same_at, shows};

// The key of FIPS 197's first edition (2001), appendix C.3, its block, and the block's answer.
const KEY: &str = "000102030405060708090a0b0c0d0e0f101112131415161718191a1b1c1d1e1f";

const BLOCK: &str = "00112233445566778899aabbccddeeff";

const BLOCK_ENCIPHERED: &str = "8ea2b7ca516745bfeafc49904b496089";

// Five blocks under the key above. The answer was computed with the AES-256 block of Python's
// `cryptography` 48.0.0 (OpenSSL 3) and the equation of the mode, a line a block.
const IGE_IV: &str = "202122232425262728292a2b2c2d2e2f303132333435363738393a3b3c3d3e3f";

const IGE_PLAIN: &str = "\
030a11181f262d343b424950575e656c737a81888f969da4abb2b9c0c7ced5dc\
e3eaf1f8ff060d141b222930373e454c535a61686f767d848b9299a0a7aeb5bc\
c3cad1d8dfe6edf4fb020910171e252c";

const IGE_ENCIPHERED: &str = "\
62dde7a435afbc7bc6b16a3b7de42d3eaeb02459b457bf8ea35b5a86e0fb4e58\
93593375f49ab3b91e6e1cff638a85f9500b4eacc2a0f85ad429fa84c07271c2\
4ca7f7d6aad0ac2cf52f6a3a59521af6";

// SP 800-38A, F.5.5.
const CTR_KEY: &str = "603deb1015ca71be2b73aef0857d77811f352c073b6108d72d9810a30914dff4";

const CTR_COUNTER: &str = "f0f1f2f3f4f5f6f7f8f9fafbfcfdfeff";

const CTR_PLAIN: &str = "\
6bc1bee22e409f96e93d7e117393172aae2d8a571e03ac9c9eb76fac45af8e51\
30c81c46a35ce411e5fbc1191a0a52eff69f2445df4f9b17ad2b417be66c3710";

const CTR_ENCIPHERED: &str = "\
601ec313775789a5b7a7f504bbf3d228f443e3ca4d62b59aca84e990cacaf5c5\
2b0930daa23de94ce87017ba2d84988ddfc9c58db67aada613c2dd08457941a6";

// The key streams of a counter that wraps at 128 bits and of one that carries past 64, under the key
// of FIPS 197 above, by the counter mode of Python's `cryptography` 48.0.0 (OpenSSL 3).
const WRAPPED_STREAM: &str = "e999e41d4ca770da5387117b5d8f57eef29000b62a499fd0a9f39a6add2e7780";

const CARRIED_COUNTER: &str = "0000000000000000ffffffffffffffff";

const CARRIED_STREAM: &str = "a6fbdb5cfde07d1b58fd362177bcffdf511dd5ef9a682b7da49f91c86c4f7ac3";

// The key of these digits.
fn key_of(alloc: Global, digits: &str) -> Result<Key256, Fail> {
    Ok(Key256::new(&array_of(alloc, digits)?))
}

// A text is enciphered so, and deciphered again.
fn are_of(key: &Key256, iv: &[u8; 32], plain: &[u8], enciphered: &[u8]) -> Result<(), Fail> {
    let mut text = [0; 80];
    let text = text.get_mut(..plain.len()).ok_or("too long")?;
    text.copy_from_slice(plain);
    holds(text.len() % 16 == 0)?;
    ige_encrypt(key, iv, text);
    let is_enciphered = *text == *enciphered;
    ige_decrypt(key, iv, text);
    same((is_enciphered, *text == *plain), (true, true))
}

#[test]
fn ige_of_one_block_under_zeros(rt: HostRuntime) -> Result<(), Fail> {
    let key = key_of(rt.alloc(), KEY)?;
    let plain: [u8; 16] = array_of(rt.alloc(), BLOCK)?;
    let enciphered: [u8; 16] = array_of(rt.alloc(), BLOCK_ENCIPHERED)?;
    are_of(&key, &[0; 32], &plain, &enciphered)
}

#[test]
fn ige_of_five_blocks(rt: HostRuntime) -> Result<(), Fail> {
    let key = key_of(rt.alloc(), KEY)?;
    let plain: [u8; 80] = array_of(rt.alloc(), IGE_PLAIN)?;
    let enciphered: [u8; 80] = array_of(rt.alloc(), IGE_ENCIPHERED)?;
    are_of(&key, &array_of(rt.alloc(), IGE_IV)?, &plain, &enciphered)
}

// The stream of this key and counter, given in digits.
fn stream_of(alloc: Global, key: &str, counter: &str) -> Result<Ctr, Fail> {
    Ok(Ctr::new(&array_of(alloc, key)?, &array_of(alloc, counter)?))
}

// What a stream makes of a text in pieces of this size.
fn applied_in_pieces<const N: usize>(
    stream: &mut Ctr,
    text: [u8; N],
    piece_bytes: usize,
) -> [u8; N] {
    let mut text = text;
    for piece in text.chunks_mut(piece_bytes.max(1)) {
        stream.apply(piece);
    }
    text
}

#[test]
fn ctr_of_the_standard_in_pieces(rt: HostRuntime) -> Result<(), Fail> {
    let plain: [u8; 64] = array_of(rt.alloc(), CTR_PLAIN)?;
    let enciphered: [u8; 64] = array_of(rt.alloc(), CTR_ENCIPHERED)?;
    for piece_bytes in [1, 7, 64] {
        let mut stream = stream_of(rt.alloc(), CTR_KEY, CTR_COUNTER)?;
        let text = applied_in_pieces(&mut stream, plain, piece_bytes);
        same_at(piece_bytes, text, enciphered)?;
    }
    Ok(())
}

// The first 32 bytes of the stream of this counter, under the key of FIPS 197, are these.
fn begins(alloc: Global, counter: &str, first: &str) -> Result<(), Fail> {
    let mut stream = stream_of(alloc, KEY, counter)?;
    same(
        applied_in_pieces(&mut stream, [0; 32], 32),
        array_of(alloc, first)?,
    )
}

#[test]
fn ctr_whose_counter_wraps(rt: HostRuntime) -> Result<(), Fail> {
    begins(
        rt.alloc(),
        "ffffffffffffffffffffffffffffffff",
        WRAPPED_STREAM,
    )?;
    begins(rt.alloc(), CARRIED_COUNTER, CARRIED_STREAM)
}

// A caller that has a text back needs no lemma, nor one that takes a stream in pieces.
fn there_and_back(key: &Key256, iv: &[u8; 32], text: &mut [u8])
    requires { length text.old % 16 ≡ 0 }
    ensures { text.new ≡ text.old }
{
    ige_encrypt(key, iv, text);
    ige_decrypt(key, iv, text);
}

fn two_pieces(stream: &mut Ctr, front: &mut [u8], back: &mut [u8])
    ensures front { front.new ≡ applied stream.old front.old }
    ensures back { back.new ≡ applied (advanced stream.old (length front.old)) back.old }
{
    stream.apply(front);
    stream.apply(back);
}

#[test]
fn a_stream_does_not_show(rt: HostRuntime) -> Result<(), Fail> {
    let mut text: [u8; 80] = array_of(rt.alloc(), IGE_PLAIN)?;
    let plain = text;
    let iv = array_of(rt.alloc(), IGE_IV)?;
    there_and_back(&key_of(rt.alloc(), KEY)?, &iv, &mut text);
    same(text, plain)?;
    let mut stream = stream_of(rt.alloc(), KEY, BLOCK)?;
    two_pieces(&mut stream, &mut text, &mut [0; 5]);
    shows(rt.alloc(), &stream, "Ctr { index: 5, used: 5, .. }")
}
