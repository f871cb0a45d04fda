//! Counter mode (NIST SP 800-38A, 6.5).

ghost use Rattle.std.specs.Prelude.{◌≡◌, ◌/◌, ◌%◌, length};
ghost use Rattle.aes_core.specs.Cipher.{aes};
ghost use Rattle.cipher_modes.specs.CounterMode.{counter_block, ctr_stream, applied, advanced};

use crate::block::{BLOCK_BYTES, Block, block_at, xor_blocks};
use aes_core::Key256;
use std::fmt;
use std::marker::Model;

/// A key stream of counter mode, and the place where it stands. Contracts see the key, the
/// initialisation vector and the place, in bytes modulo 2^132, where the stream repeats.
#[derive(Drop)]
pub struct Ctr {
    key: Key256,
    iv: Block,
    // The number of the block that the stream stands in, modulo 2^128, and that block.
    index: u128,
    stream: Block,
    // How many bytes of the block are used up.
    used: usize,
}

impl Model for Ctr {
    ghost use Rattle.std.specs.Prelude.{◌≡◌, ◌<◌, ◌+◌, ◌*◌};
    ghost use Rattle.aes_core.specs.Cipher.{aes};
    ghost use Rattle.cipher_modes.specs.CounterMode.{counter_block, CtrState};

    ghost Value = { CtrState };

    ghost view = { λ c. record { key = c.key; iv = c.iv; place = 16 * c.index + c.used } };

    ghost invariant = { λ c. (c.used < 16) × (c.stream ≡ aes c.key (counter_block c.iv c.index)) };
}

impl fmt::Debug for Ctr {
    /// Where the stream stands: the key and the stream are secrets.
    fn fmt<W: fmt::Write>(&self, f: &mut fmt::Formatter<W>) -> fmt::Result {
        f.debug_struct("Ctr")
            .field("index", &self.index)
            .field("used", &self.used)
            .finish_non_exhaustive()
    }
}

impl Ctr {
    /// The start of the stream of a key and an initialisation vector, which is the first counter
    /// block.
    pub fn new(key: &[u8; 32], iv: &[u8; 16]) -> Ctr
        ensures { result ≡ record { key = key.now; iv = iv.now; place = 0 } }
    {
        let key = Key256::new(key);
        let stream = stream_block(&key, iv, 0);
        Ctr {
            key,
            iv: *iv,
            index: 0,
            stream,
            used: 0,
        }
    }

    /// Xors a text with the stream from where it stands, in place, and moves on past the text. Texts
    /// in turn are as one call over the whole, whatever their lengths.
    pub fn apply(&mut self, text: &mut [u8])
        ensures applied { text.new ≡ applied self.old text.old }
        ensures advanced { self.new ≡ advanced self.old (length text.old) }
    {
        let to_block_end = (BLOCK_BYTES - self.used) % BLOCK_BYTES;
        if to_block_end < text.len() {
            let (first, others) = text.split_at_mut(to_block_end);
            let blocks_bytes = others.len() / BLOCK_BYTES * BLOCK_BYTES;
            let (blocks, last) = others.split_at_mut(blocks_bytes);
            self.apply_bytes(first);
            self.apply_blocks(blocks);
            self.apply_bytes(last);
        } else {
            self.apply_bytes(text);
        }
    }

    // The same, byte by byte.
    fn apply_bytes(&mut self, text: &mut [u8])
        ensures applied { text.new ≡ applied self.old text.old }
        ensures advanced { self.new ≡ advanced self.old (length text.old) }
    {
        // A field that is read tells the proof that the place is below 2^132, for an empty text too.
        let _ = &self.used;
        for byte in text.iter_mut() {
            *byte ^= self.next_byte();
        }
    }

    // The same, of whole blocks at a block's start.
    fn apply_blocks(&mut self, text: &mut [u8])
        requires whole_blocks { length text.old % 16 ≡ 0 }
        requires at_a_start { self.old.place % 16 ≡ 0 }
        ensures applied { text.new ≡ applied self.old text.old }
        ensures advanced { self.new ≡ advanced self.old (length text.old) }
    {
        // As in `apply_bytes`.
        let _ = &self.used;
        'each_block: for i in 0..text.len() / BLOCK_BYTES {
            let block = xor_blocks(block_at(text, i), self.next_block());
            text[BLOCK_BYTES * i..BLOCK_BYTES * i + BLOCK_BYTES].copy_from_slice(&block);
        }
    }

    // The block at whose start the stream stands, which moves on to the next.
    #[inline(always)]
    fn next_block(&mut self) -> Block
        requires { self.old.place % 16 ≡ 0 }
        ensures block { result ≡ aes self.old.key (counter_block self.old.iv (self.old.place / 16)) }
        ensures advanced { self.new ≡ advanced self.old 16 }
    {
        let block = self.stream;
        self.index = self.index.wrapping_add(1);
        self.stream = stream_block(&self.key, &self.iv, self.index);
        block
    }

    // The byte where the stream stands, which moves on by one.
    #[inline(always)]
    fn next_byte(&mut self) -> u8
        ensures byte { result ≡ ctr_stream self.old.key self.old.iv self.old.place }
        ensures advanced { self.new ≡ advanced self.old 1 }
    {
        let byte = self.stream[self.used];
        self.used += 1;
        if self.used == BLOCK_BYTES {
            self.used = 0;
            self.index = self.index.wrapping_add(1);
            self.stream = stream_block(&self.key, &self.iv, self.index);
        }
        byte
    }
}

// Block i of the key stream.
fn stream_block(key: &Key256, iv: &Block, i: u128) -> Block
    ensures { result ≡ aes key.now (counter_block iv.now i) }
{
    let mut block = u128::from_be_bytes(*iv).wrapping_add(i).to_be_bytes();
    key.encrypt_block(&mut block);
    block
}
