//! Writing abridged frames.

ghost use Rattle.std.specs.Prelude.{◌≡◌, ◌++◌, OnOk, OnErr};
ghost use Rattle.framing.specs.Payload.{IsPayload};
ghost use Rattle.frame_short.specs.Abridged.{frame_of};

use crate::abridged::{LONG_FORM, LONG_HEAD_BYTES, SHORT_HEAD_BYTES, WORD_BYTES};
use byteorder::{ByteOrder, LittleEndian};
use octets::{Buffer, Memory, Octets};
use std::alloc::Global;

/// Writes abridged frames.
#[derive(Clone, Copy, Debug)]
pub struct Framer {}

impl Framer {
    /// A fresh one.
    pub fn new() -> Framer {
        Framer {}
    }

    /// Puts the frame of the payload at the end: its length in words, in one byte where it is below 127, else in
    /// `7f` and 3 bytes, and the payload. The payload has 4 to 1,048,576 bytes, a multiple of 4.
    ///
    /// # Errors
    ///
    /// `Memory`, and then the text is as it was.
    pub fn frame(&mut self, alloc: Global, payload: &[u8], out: &mut Octets) -> Result<(), Memory>
        requires { IsPayload payload.now }
        ensures appended { OnOk result (out.new ≡ out.old ++ frame_of payload.now) }
        ensures unchanged_on_memory { OnErr result (out.new ≡ out.old) }
    {
        let words = payload.len() / WORD_BYTES;
        let mut text = Buffer::after(alloc, out, LONG_HEAD_BYTES + payload.len())?;
        if words < LONG_FORM as usize {
            text.push_all(&[words as u8]);
        } else {
            let mut head = [LONG_FORM; LONG_HEAD_BYTES];
            LittleEndian::write_u24(&mut head[SHORT_HEAD_BYTES..], words as u32);
            text.push_all(&head);
        }
        text.push_all(payload);
        *out = text.into_octets();
        Ok(())
    }
}
