//! Writing full frames.

ghost use Rattle.std.specs.Prelude.{◌≡◌, ◌++◌};
ghost use Rattle.crc_core.specs.Crc32.{crc32};

use crate::full::OVERHEAD_BYTES;
use crc_core::Crc;
use octets::{Buffer, Memory, Octets};
use std::alloc::Global;
use std::marker::Model;

/// Writes full frames, and counts them. Contracts see the number of the next one.
#[derive(Debug, Drop)]
pub struct Framer {
    number: u32,
}

impl Model for Framer {
    ghost use Rattle.std.specs.Prelude.{ℕ};

    ghost Value = { ℕ };

    ghost view = { λ framer. framer.number };
}

// The check of three texts, one behind the other.
fn sum_of(length: &[u8], number: &[u8], payload: &[u8]) -> u32
    ensures { result ≡ crc32 (length.now ++ (number.now ++ payload.now)) }
{
    let mut crc = Crc::new();
    crc.push(length);
    crc.push(number);
    crc.push(payload);
    crc.value()
}

impl Framer {
    ghost use Rattle.std.specs.Prelude.{◌≡◌, ◌++◌, ◌+◌, ◌<◌, ◌^◌, OnOk, OnErr};
    ghost use Rattle.framing.specs.Payload.{IsPayload};
    ghost use Rattle.framing.specs.Streams.{number_after};
    ghost use Rattle.frame_full.specs.Full.{frame_of};

    /// A fresh one: its first frame has number 0.
    pub fn new() -> Framer
        ensures { result ≡ 0 }
    {
        Framer { number: 0 }
    }

    /// Puts the frame of the payload at the end, with the next number. A number that reaches `2^32` wraps to 0. The
    /// payload has 4 to 1,048,576 bytes, a multiple of 4.
    ///
    /// # Errors
    ///
    /// `Memory`, and then the text is as it was, and so is the number.
    pub fn frame(&mut self, alloc: Global, payload: &[u8], out: &mut Octets) -> Result<(), Memory>
        requires { IsPayload payload.now }
        ensures appended { OnOk result (out.new ≡ out.old ++ frame_of self.old payload.now) }
        ensures counted { OnOk result (self.new ≡ number_after (self.old + 1)) }
        ensures text_on_memory { OnErr result (out.new ≡ out.old) }
        ensures number_on_memory { OnErr result (self.new ≡ self.old) }
        ensures in_range { self.old < 2 ^ 32 }
    {
        let size = payload.len() + OVERHEAD_BYTES;
        let length = (size as u32).to_le_bytes();
        let number = self.number.to_le_bytes();
        let mut text = Buffer::after(alloc, out, size)?;
        let sum = sum_of(&length, &number, payload);
        text.push_all(&length);
        text.push_all(&number);
        text.push_all(payload);
        text.push_all(&sum.to_le_bytes());
        *out = text.into_octets();
        self.number = self.number.wrapping_add(1);
        Ok(())
    }
}
