//! Blocks of 16 bytes.

ghost use Rattle.std.specs.Prelude.{◌≡◌, ◌≤◌, ◌+◌, ◌*◌, length};
ghost use Rattle.octets.specs.Bytes.{xor_bytes};
ghost use Rattle.cipher_modes.specs.Ige.{block};
ghost use Rattle.cipher_modes.specs.Below.{BlockLaws};

use aes_core::laws as of_blocks;
use octets::laws as of_bytes;

/// The bytes of a block of AES.
pub const BLOCK_BYTES: usize = 16;

/// A block of AES.
pub type Block = [u8; BLOCK_BYTES];

/// Block i of a text, counted from 0.
#[inline(always)]
pub fn block_at(text: &[u8], i: usize) -> Block
    requires { 16 * i + 16 ≤ length text.now }
    ensures { result ≡ block text.now i }
{
    let mut block = [0; BLOCK_BYTES];
    block.copy_from_slice(&text[BLOCK_BYTES * i..BLOCK_BYTES * i + BLOCK_BYTES]);
    block
}

/// The exclusive or of two blocks.
#[inline(always)]
pub fn xor_blocks(mut x: Block, y: Block) -> Block
    ensures { result ≡ xor_bytes x y }
{
    of_bytes::xor_by_places();
    'bytes: for i in 0..BLOCK_BYTES {
        x[i] ^= y[i];
    }
    x
}

/// What the crates below promise of lists of bytes and of blocks, for the proofs.
#[inline(always)]
pub fn block_laws()
    ensures { BlockLaws }
{
    of_bytes::counts_of_bytes();
    of_bytes::xor_is_a_sum();
    of_blocks::blocks_are_bytes();
    of_blocks::deciphering_undoes_enciphering();
    of_blocks::enciphering_undoes_deciphering();
}
