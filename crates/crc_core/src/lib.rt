//! The cyclic redundancy check of 32 bits that ISO/IEC 3309, ITU-T V.42 (8.1.1.6.2) and RFC 1952 (section 8)
//! have, of a whole text or of one that comes in pieces. It is defined bit by bit, and computed by tables. No call
//! takes memory.
#![tactic(auto)]

ghost use Rattle.std.specs.Prelude.{◌≡◌, ◌++◌, ℕ, List, []};
ghost use Rattle.crc_core.specs.Crc32.{fed, register_after, told, crc32};

use crate::register::fed;
use std::marker::Model;

pub mod laws;
mod register;
mod table;

/// The check of a text that comes in pieces. Contracts see the register, a number of 32 bits.
#[derive(Clone, Copy, Debug)]
pub struct Crc {
    register: u32,
}

impl Model for Crc {
    ghost use Rattle.std.specs.Prelude.{ℕ};

    ghost Value = { ℕ };

    ghost view = { λ crc. crc.register };

    ghost inverse = { λ register. record { register = register } };
}

impl Crc {
    /// The check of no byte yet.
    pub fn new() -> Crc
        ensures { result ≡ register_after [] }
    {
        Crc { register: u32::MAX }
    }

    /// Puts the bytes behind those that were pushed before.
    pub fn push(&mut self, bytes: &[u8])
        ensures fed { self.new ≡ fed self.old bytes.now }
        ensures behind { (before : List ℕ) → self.old ≡ register_after before → self.new ≡ register_after (before ++ bytes.now) }
    {
        self.register = fed(self.register, bytes);
    }

    /// The check of all bytes that were pushed.
    pub fn value(&self) -> u32
        ensures told { result ≡ told self.now }
        ensures of_all { (bytes : List ℕ) → self.now ≡ register_after bytes → result ≡ crc32 bytes }
    {
        !self.register
    }
}

/// The check of the bytes.
pub fn crc32(bytes: &[u8]) -> u32
    ensures { result ≡ crc32 bytes.now }
{
    let mut crc = Crc::new();
    crc.push(bytes);
    crc.value()
}
