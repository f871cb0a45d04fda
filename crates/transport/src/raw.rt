//! The first bytes of a connection.

use std::fmt;
use std::marker::Model;

/// The bytes of the longest start.
pub(crate) const START_MAX: usize = 64;

/// The state of a wire whose form isn't known yet. Contracts see its first bytes.
#[derive(Drop)]
pub struct Raw {
    bytes: [u8; START_MAX],
    count: usize,
}

impl Model for Raw {
    ghost use Rattle.std.specs.Prelude.{ℕ, List, ◌≤◌, take};

    ghost Value = { List ℕ };

    ghost view = { λ raw. take raw.count raw.bytes };

    ghost invariant = { λ raw. raw.count ≤ 64 };
}

impl fmt::Debug for Raw {
    /// How many bytes came: they may tell the keys.
    fn fmt<W: fmt::Write>(&self, f: &mut fmt::Formatter<W>) -> fmt::Result {
        f.debug_struct("Raw")
            .field("count", &self.count)
            .finish_non_exhaustive()
    }
}

impl Raw {
    ghost use Rattle.std.specs.Prelude.{◌≡◌, ◌≤◌, ◌-◌, ◌++◌, [], length, take, min};

    /// No byte yet.
    pub(crate) fn new() -> Raw
        ensures { result ≡ [] }
    {
        Raw {
            bytes: [0; START_MAX],
            count: 0,
        }
    }

    /// The first bytes with those of a piece behind them, 64 at most, and how many those are.
    pub(crate) fn with(&self, piece: &[u8]) -> (Raw, usize)
        ensures count { result.1 ≡ min (length piece.now) (64 - length self.now) }
        ensures bytes { result.0 ≡ self.now ++ take result.1 piece.now }
        ensures most { length result.0 ≤ 64 }
    {
        let count = piece.len().min(START_MAX - self.count);
        let mut bytes = self.bytes;
        bytes[self.count..self.count + count].copy_from_slice(&piece[..count]);
        let whole = Raw {
            bytes,
            count: self.count + count,
        };
        (whole, count)
    }

    /// The first bytes, 64 at most.
    pub(crate) fn as_slice(&self) -> &[u8]
        ensures value { result.now ≡ self.now }
        ensures most { length self.now ≤ 64 }
    {
        &self.bytes[..self.count]
    }

    /// All 64 of them.
    pub(crate) fn whole(&self) -> [u8; START_MAX]
        requires { length self.now ≡ 64 }
        ensures { result ≡ self.now }
    {
        self.bytes
    }
}
