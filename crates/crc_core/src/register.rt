//! The register of the check, fed by tables (RFC 1952, section 8): four registers side by side, one for each word of a
//! block of sixteen bytes, then words of four bytes, and what is left byte by byte.

ghost use Rattle.std.specs.Prelude.{◌≡◌, ◌+◌, ◌≤◌, ◌%◌, length};
ghost use Rattle.crc_core.specs.Crc32.{fed_bits, fed_byte, fed};
ghost use Rattle.crc_core.specs.Words.{word_at};

use crate::table::{
    after_fifteen, after_four, after_fourteen, after_one, after_sixteen, after_thirteen,
    after_three, after_two,
};

/// The bytes of a word, and of a block.
const WORD_BYTES: usize = 4;

const BLOCK_BYTES: usize = 16;

/// The register after these bytes.
pub fn fed(register: u32, bytes: &[u8]) -> u32
    ensures { result ≡ fed register bytes.now }
{
    let whole = bytes.len() / BLOCK_BYTES * BLOCK_BYTES;
    let after = fed_blocks(register, &bytes[..whole]);
    fed_words(after, &bytes[whole..])
}

// The register after whole blocks. Each word of a block has a register of its own, which takes it to the word of the
// same place in the next block, so that none waits for another; over the last block they are put together.
fn fed_blocks(register: u32, bytes: &[u8]) -> u32
    requires { length bytes.now % 16 ≡ 0 }
    ensures { result ≡ fed register bytes.now }
{
    if bytes.is_empty() {
        return register;
    }
    let (mut first, mut second, mut third, mut fourth) = (register, 0, 0, 0);
    let last = bytes.len() - BLOCK_BYTES;
    'each_block: for i in 0..last / BLOCK_BYTES {
        let at = BLOCK_BYTES * i;
        first = after_block(first ^ word_at(bytes, at));
        second = after_block(second ^ word_at(bytes, at + 4));
        third = after_block(third ^ word_at(bytes, at + 8));
        fourth = after_block(fourth ^ word_at(bytes, at + 12));
    }
    let one = after_word(first ^ word_at(bytes, last));
    let two = after_word(one ^ (second ^ word_at(bytes, last + 4)));
    let three = after_word(two ^ (third ^ word_at(bytes, last + 8)));
    after_word(three ^ (fourth ^ word_at(bytes, last + 12)))
}

// The same of any bytes, word by word.
fn fed_words(register: u32, bytes: &[u8]) -> u32
    ensures { result ≡ fed register bytes.now }
{
    let mut after = register;
    'each_word: for i in 0..bytes.len() / WORD_BYTES {
        after = after_word(after ^ word_at(bytes, WORD_BYTES * i));
    }
    fed_bytes(after, &bytes[bytes.len() / WORD_BYTES * WORD_BYTES..])
}

// The same, byte by byte.
fn fed_bytes(register: u32, bytes: &[u8]) -> u32
    ensures { result ≡ fed register bytes.now }
{
    let mut after = register;
    for byte in bytes {
        after = fed_byte(after, *byte);
    }
    after
}

// The register after a byte.
#[inline(always)]
fn fed_byte(register: u32, byte: u8) -> u32
    ensures { result ≡ fed_byte register byte }
{
    let mixed = register ^ u32::from(byte);
    (mixed >> 8) ^ after_one(mixed)
}

// What a register becomes after a word of 0.
#[inline(always)]
fn after_word(register: u32) -> u32
    ensures { result ≡ fed_bits 32 register 0 }
{
    let low = after_four(register) ^ after_three(register >> 8);
    let high = after_two(register >> 16) ^ after_one(register >> 24);
    low ^ high
}

// What a register becomes after a block of 0.
#[inline(always)]
fn after_block(register: u32) -> u32
    ensures { result ≡ fed_bits 128 register 0 }
{
    let low = after_sixteen(register) ^ after_fifteen(register >> 8);
    let high = after_fourteen(register >> 16) ^ after_thirteen(register >> 24);
    low ^ high
}

// The word that begins at this place.
#[inline(always)]
fn word_at(bytes: &[u8], at: usize) -> u32
    requires { at + 4 ≤ length bytes.now }
    ensures { result ≡ word_at bytes.now at }
{
    u32::from_le_bytes([bytes[at], bytes[at + 1], bytes[at + 2], bytes[at + 3]])
}
