//! The full form of framing.

ghost use Rattle.frame_full.specs.Full.{full};
ghost use Rattle.frame_full.specs.Lawful.{full_lawful};

use byteorder::{ByteOrder, LittleEndian};
use crc_core::crc32;
use framing::{FrameFault, Framing, Length, PAYLOAD_MAX, Span};

/// The bytes of a number.
pub(crate) const NUMBER_BYTES: usize = 4;

/// The bytes before the payload: length and number.
pub(crate) const HEAD_BYTES: usize = 8;

/// The bytes beside the payload: length, number and sum.
pub(crate) const OVERHEAD_BYTES: usize = 12;

/// The bytes of the shortest frame.
pub(crate) const FRAME_MIN: usize = 16;

/// The full form.
#[derive(Clone, Copy, Debug)]
pub struct FullForm {}

impl Framing for FullForm {
    ghost form = { λ _. full };

    fn length(&self, text: &[u8]) -> Length {
        if text.len() < NUMBER_BYTES {
            return Length::Awaited;
        }
        let len = LittleEndian::read_u32(text);
        let size = len as usize;
        if size > PAYLOAD_MAX + OVERHEAD_BYTES {
            return Length::Wrong(FrameFault::TooLong { len });
        }
        if size < FRAME_MIN || size % NUMBER_BYTES != 0 {
            return Length::Wrong(FrameFault::BadLength { len });
        }
        Length::Size(size)
    }

    fn packet(&self, number: u32, frame: &[u8]) -> Result<Span, FrameFault> {
        let end = frame.len() - NUMBER_BYTES;
        let said = LittleEndian::read_u32(&frame[end..]);
        let found = crc32(&frame[..end]);
        if said != found {
            return Err(FrameFault::Sum { said, found });
        }
        let said = LittleEndian::read_u32(&frame[NUMBER_BYTES..]);
        if said != number {
            return Err(FrameFault::Count { said, want: number });
        }
        Ok(Span {
            start: HEAD_BYTES,
            end,
        })
    }

    ghost lawful = { λ _. full_lawful };
}
