//! The client's first bytes.

use obfus::START_BYTES;
use std::fmt;
use std::marker::Model;

/// The client's first bytes, 64 at most. Contracts see them as a list.
#[derive(Drop)]
pub(crate) struct First {
    bytes: [u8; START_BYTES],
    count: usize,
}

impl Model for First {
    ghost use Rattle.std.specs.Prelude.{ℕ, List, ◌≤◌, take};

    ghost Value = { List ℕ };

    ghost view = { λ first. take first.count first.bytes };

    ghost invariant = { λ first. first.count ≤ 64 };
}

impl fmt::Debug for First {
    /// How many bytes came: they tell the keys to whoever has the secret.
    fn fmt<W: fmt::Write>(&self, f: &mut fmt::Formatter<W>) -> fmt::Result {
        f.debug_struct("First")
            .field("count", &self.count)
            .finish_non_exhaustive()
    }
}

impl First {
    ghost use Rattle.std.specs.Prelude.{◌≡◌, ◌≤◌, ◌-◌, ◌++◌, [], length, take, min};

    /// No byte yet.
    pub(crate) fn new() -> First
        ensures { result ≡ [] }
    {
        First {
            bytes: [0; START_BYTES],
            count: 0,
        }
    }

    /// These bytes with those of a piece behind them, 64 at most, and how many those are.
    pub(crate) fn with(&self, piece: &[u8]) -> (First, usize)
        ensures count { result.1 ≡ min (length piece.now) (64 - length self.now) }
        ensures bytes { result.0 ≡ self.now ++ take result.1 piece.now }
        ensures most { length result.0 ≤ 64 }
    {
        let count = piece.len().min(START_BYTES - self.count);
        let mut bytes = self.bytes;
        bytes[self.count..self.count + count].copy_from_slice(&piece[..count]);
        let whole = First {
            bytes,
            count: self.count + count,
        };
        (whole, count)
    }

    /// How many they are.
    pub(crate) fn len(&self) -> usize
        ensures { result ≡ length self.now }
    {
        self.count
    }

    /// All 64 of them.
    pub(crate) fn whole(&self) -> [u8; START_BYTES]
        requires { length self.now ≡ 64 }
        ensures { result ≡ self.now }
    {
        self.bytes
    }
}
