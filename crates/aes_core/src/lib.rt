//! AES with keys of 256 bits, a block of 16 bytes at a time, by FIPS 197 as updated in May 2023 (FIPS
//! 197-upd1), whose sections and tables are cited throughout. A key makes its round keys for both
//! directions once, and no call takes memory. Side channels are not treated: the rounds look up
//! tables, and a key is not wiped when it is dropped.
#![tactic(auto)]

ghost use Rattle.std.specs.Prelude.{◌≡◌};
ghost use Rattle.octets.specs.Bytes.{HasBytes};
ghost use Rattle.aes_core.specs.Cipher.{aes, inverse_aes};

use crate::round::{cipher, inverse_cipher};
use crate::schedule::{Schedule, inverse_schedule, key_schedule};
use std::fmt;
use std::marker::Model;

mod inverse_mixing;
pub mod laws;
mod mixing;
mod round;
mod schedule;
mod table;
mod words;

/// A key of 256 bits, with its round keys. Contracts see the 32 bytes of the key.
#[derive(Drop)]
pub struct Key256 {
    schedule: Schedule,
    // The schedule of the equivalent inverse cipher.
    inverse: Schedule,
}

impl Model for Key256 {
    ghost use Rattle.std.specs.Prelude.{List, ℕ, take};
    ghost use Rattle.aes_core.specs.KeySchedule.{IsExpansion};
    ghost use Rattle.aes_core.specs.Words.{bytes_of, IsInverseSchedule};

    ghost Value = { List ℕ };

    ghost view = { λ k. take 32 (bytes_of k.schedule) };

    ghost invariant = { λ k. IsExpansion (bytes_of k.schedule) × IsInverseSchedule k.inverse k.schedule };
}

impl fmt::Debug for Key256 {
    /// The name alone: the key is a secret.
    fn fmt<W: fmt::Write>(&self, f: &mut fmt::Formatter<W>) -> fmt::Result {
        f.debug_struct("Key256").finish_non_exhaustive()
    }
}

impl Key256 {
    /// The key of these 32 bytes.
    pub fn new(key: &[u8; 32]) -> Key256
        ensures { result ≡ key.now }
    {
        let schedule = key_schedule(key);
        let inverse = inverse_schedule(&schedule);
        Key256 { schedule, inverse }
    }

    // Never inlined: inside a mode's loop the compiler packs the state into vector registers,
    // and deciphering takes 1.7 times as long.
    /// Enciphers a block in place (FIPS 197, 5.1).
    #[inline(never)]
    pub fn encrypt_block(&self, block: &mut [u8; 16])
        ensures enciphered { block.new ≡ aes self.now block.old }
        ensures undone_by_inverse { inverse_aes self.now block.new ≡ block.old }
        ensures key_of_bytes { HasBytes 32 self.now }
    {
        *block = cipher(&self.schedule, block);
    }

    /// Deciphers a block in place (FIPS 197, 5.3).
    #[inline(never)]
    pub fn decrypt_block(&self, block: &mut [u8; 16])
        ensures deciphered { block.new ≡ inverse_aes self.now block.old }
        ensures undone_by_cipher { aes self.now block.new ≡ block.old }
        ensures key_of_bytes { HasBytes 32 self.now }
    {
        *block = inverse_cipher(&self.inverse, block);
    }
}
