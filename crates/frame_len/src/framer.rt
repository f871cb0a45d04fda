//! Writing intermediate or padded frames.

use crate::lengths::LENGTH_BYTES;
use octets::{Buffer, Memory, Octets};
use std::alloc::Global;
use std::marker::Model;

/// Writes intermediate or padded frames. Contracts see whether they are padded ones.
#[derive(Clone, Copy, Debug)]
pub struct Framer {
    padded: bool,
}

impl Model for Framer {
    ghost use Rattle.std.specs.Prelude.{Bool};

    ghost Value = { Bool };

    ghost view = { λ framer. framer.padded };

    ghost inverse = { λ padded. record { padded = padded } };
}

impl Framer {
    ghost use Rattle.std.specs.Prelude.{◌≡◌, ◌++◌, OnOk, OnErr};
    ghost use Rattle.frame_len.specs.Lengths.{IsWritten, frame_of};

    /// A fresh one, of padded frames or of intermediate ones.
    pub fn new(padded: bool) -> Framer
        ensures { result ≡ padded }
    {
        Framer { padded }
    }

    /// Puts the frame of the payload at the end: its length in bytes and the payload, in the padded form too, where no
    /// padding is added. The payload has 4 to 1,048,576 bytes, a multiple of 4, and in the padded form 4 bytes, or 24
    /// and a multiple of 16 more.
    ///
    /// # Errors
    ///
    /// `Memory`, and then the text is as it was.
    pub fn frame(&mut self, alloc: Global, payload: &[u8], out: &mut Octets) -> Result<(), Memory>
        requires { IsWritten self.old payload.now }
        ensures appended { OnOk result (out.new ≡ out.old ++ frame_of payload.now) }
        ensures unchanged_on_memory { OnErr result (out.new ≡ out.old) }
        ensures same_form { self.new ≡ self.old }
    {
        let mut text = Buffer::after(alloc, out, LENGTH_BYTES + payload.len())?;
        text.push_all(&(payload.len() as u32).to_le_bytes());
        text.push_all(payload);
        *out = text.into_octets();
        Ok(())
    }
}
