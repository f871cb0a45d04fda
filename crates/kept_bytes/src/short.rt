//! A few bytes in place.

use std::marker::Model;

/// The most bytes of a `Short`, with which it takes as many bytes as an `Octets` and its tag.
pub const SHORT_BYTES_MAX: usize = 30;

/// Up to 30 bytes, which take no memory of their own. Contracts see the list of them.
#[derive(Debug, Drop)]
pub struct Short {
    count: u8,
    bytes: [u8; SHORT_BYTES_MAX],
}

impl Model for Short {
    ghost use Rattle.std.specs.Prelude.{ℕ, List, ◌≤◌, take};

    ghost Value = { List ℕ };

    ghost view = { λ short. take short.count short.bytes };

    ghost invariant = { λ short. short.count ≤ 30 };
}

impl Short {
    ghost use Rattle.std.specs.Prelude.{◌≡◌, ◌≤◌, length};

    /// These bytes. There are at most 30.
    pub fn new(bytes: &[u8]) -> Short
        requires { length bytes.now ≤ 30 }
        ensures { result ≡ bytes.now }
    {
        let count = bytes.len();
        let mut kept = [0; SHORT_BYTES_MAX];
        kept[..count].copy_from_slice(bytes);
        Short {
            count: count as u8,
            bytes: kept,
        }
    }

    /// The bytes in order.
    pub fn as_slice(&self) -> &[u8]
        ensures { result.now ≡ self.now }
    {
        &self.bytes[..self.count as usize]
    }
}
