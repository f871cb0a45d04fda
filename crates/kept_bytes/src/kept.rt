//! Bytes in place, or in memory of their own.

ghost use Rattle.std.specs.Prelude.{◌≡◌, IfOk};

use crate::short::{SHORT_BYTES_MAX, Short};
use octets::{Memory, Octets};
use std::alloc::Global;
use std::marker::Model;

/// Where the bytes are.
#[derive(Debug, Drop)]
enum Place {
    Here(Short),
    There(Octets),
}

/// A list of bytes that takes no memory of its own where it has up to 30. Contracts see it as the list.
#[derive(Debug, Drop)]
pub struct KeptBytes {
    place: Place,
}

impl Model for KeptBytes {
    ghost use Rattle.std.specs.Prelude.{ℕ, List};
    ghost use Rattle.kept_bytes.specs.Places.{bytes_at};

    ghost Value = { List ℕ };

    ghost view = { λ kept. bytes_at kept.place };
}

impl KeptBytes {
    /// A copy of the bytes.
    ///
    /// # Errors
    ///
    /// `Memory`.
    pub fn copy(alloc: Global, bytes: &[u8]) -> Result<KeptBytes, Memory>
        ensures { IfOk result (λ kept. kept ≡ bytes.now) }
    {
        let place = if bytes.len() <= SHORT_BYTES_MAX {
            Place::Here(Short::new(bytes))
        } else {
            Place::There(Octets::copy(alloc, bytes)?)
        };
        Ok(KeptBytes { place })
    }

    /// The bytes in order.
    pub fn as_slice(&self) -> &[u8]
        ensures { result.now ≡ self.now }
    {
        match &self.place {
            Place::Here(bytes) => bytes.as_slice(),
            Place::There(bytes) => bytes.as_slice(),
        }
    }
}

impl From<Octets> for KeptBytes {
    ghost from_gives = { λ bytes kept. kept ≡ bytes };

    /// Few bytes are copied and their memory is given up; of more the memory is kept. Takes none.
    fn from(bytes: Octets) -> KeptBytes {
        let place = if bytes.as_slice().len() <= SHORT_BYTES_MAX {
            Place::Here(Short::new(bytes.as_slice()))
        } else {
            Place::There(bytes)
        };
        KeptBytes { place }
    }
}
