//! Bytes that own their memory.

ghost use Rattle.std.specs.Prelude.{◌≡◌, ◌<◌, ◌^◌, ◌++◌, [], length, take, IfOk, OnOk, OnErr};
ghost use Rattle.octets.specs.Bytes.{IsBytes};

use crate::memory::Memory;
use std::alloc::{AllocError, Global};
use std::marker::Model;

/// A list of bytes: a body, a packet, a string. Contracts see it as the list itself. A call that may
/// take memory is passed the allocator; the list keeps the one that it was made with.
#[derive(Debug, Drop)]
pub struct Octets {
    pub(crate) bytes: Vec<u8>,
}

impl Model for Octets {
    ghost use Rattle.std.specs.Prelude.{ℕ, List};

    ghost Value = { List ℕ };

    ghost use Rattle.octets.specs.Bytes.{IsBytes};

    ghost view = { λ octets. octets.bytes.items };

    ghost invariant = { λ octets. IsBytes octets.bytes.items };
}

impl Octets {
    /// No byte yet. Takes no memory.
    pub fn new(alloc: Global) -> Octets
        ensures { result ≡ [] }
    {
        Octets {
            bytes: Vec::new(alloc),
        }
    }

    /// A copy of the bytes.
    ///
    /// # Errors
    ///
    /// `Memory`.
    pub fn copy(alloc: Global, bytes: &[u8]) -> Result<Octets, Memory>
        ensures { IfOk result (λ octets. octets ≡ bytes.now) }
    {
        Ok(Octets {
            bytes: Vec::from_slice(alloc, bytes)?,
        })
    }

    /// Puts the bytes at the end.
    ///
    /// # Errors
    ///
    /// `Memory`, and then the list is as it was.
    pub fn push_all(&mut self, _alloc: Global, bytes: &[u8]) -> Result<(), Memory>
        ensures appended { OnOk result (self.new ≡ self.old ++ bytes.now) }
        ensures unchanged_on_memory { OnErr result (self.new ≡ self.old) }
    {
        self.bytes.extend_from_slice(bytes)?;
        Ok(())
    }

    /// Keeps the first `count` bytes, or all where there are fewer. Takes no memory.
    pub fn truncate(&mut self, count: usize)
        ensures { self.new ≡ take count self.old }
    {
        self.bytes.truncate(count);
    }

    /// The bytes in order. Takes no memory.
    pub fn as_slice(&self) -> &[u8]
        ensures value { result.now ≡ self.now }
        ensures bytes { IsBytes self.now }
        ensures length { length self.now < 2 ^ 63 }
    {
        self.bytes.as_slice()
    }

    /// The bytes as a `Vec`. Takes no memory.
    pub fn into_vec(self) -> Vec<u8>
        ensures value { result.items ≡ self }
        ensures bytes { IsBytes self }
    {
        let Octets { bytes } = self;
        bytes
    }
}

impl From<Vec<u8>> for Octets {
    ghost from_gives = { λ bytes octets. octets ≡ bytes.items };

    fn from(bytes: Vec<u8>) -> Octets {
        Octets { bytes }
    }
}

impl Clone for Octets {
    ghost is_clone = { λ octets copy. copy ≡ octets };

    fn clone(&self) -> Result<Octets, AllocError> {
        Ok(Octets {
            bytes: self.bytes.clone()?,
        })
    }
}
