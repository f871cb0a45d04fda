//! The intermediate form of framing and the padded one.

ghost use Rattle.std.specs.Prelude.{◌≡◌, ◌↔◌, ◌≤◌};
ghost use Rattle.std.specs.Bool.{IsTrue};
ghost use Rattle.frame_len.specs.Lengths.{IsBad, length_max, payload_of, form_of};
ghost use Rattle.frame_len.specs.Lawful.{lawful};

use byteorder::{ByteOrder, LittleEndian};
use framing::{FrameFault, Framing, Length, PAYLOAD_MAX, Span};

/// The bytes of a length.
pub(crate) const LENGTH_BYTES: usize = 4;

/// The greatest length of a padded frame: that of its longest payload, which has 24 bytes and a multiple of 16 more,
/// and 15.
const PADDED_MAX: usize = 1_048_583;

/// The bytes of a transport error, which is the shortest payload.
const ERROR_BYTES: usize = 4;

/// The bytes of the shortest payload behind it in the padded form, and the step from one to the next.
const SEALED_MIN: usize = 24;

const SEALED_STEP: usize = 16;

/// The intermediate form, or the padded one.
#[derive(Clone, Copy, Debug)]
pub struct LengthForm {
    /// Whether there is padding.
    pub padded: bool,
}

// The greatest length.
fn longest(padded: bool) -> usize
    ensures { result ≡ length_max padded }
{
    if padded { PADDED_MAX } else { PAYLOAD_MAX }
}

// Whether no frame has such a length, be it ever so short.
fn is_bad(padded: bool, len: usize) -> bool
    ensures { IsTrue result ↔ IsBad padded len }
{
    if padded {
        len < ERROR_BYTES
    } else {
        len == 0 || len % 4 != 0
    }
}

// How many bytes of payload stand behind such a length.
fn payload_bytes(padded: bool, len: usize) -> usize
    ensures { result ≡ payload_of padded len }
{
    if !padded {
        return len;
    }
    if len < SEALED_MIN {
        return ERROR_BYTES;
    }
    SEALED_MIN + SEALED_STEP * ((len - SEALED_MIN) / SEALED_STEP)
}

impl Framing for LengthForm {
    ghost form = { λ form. form_of form.padded };

    fn length(&self, text: &[u8]) -> Length {
        if text.len() < LENGTH_BYTES {
            return Length::Awaited;
        }
        let len = LittleEndian::read_u32(text);
        let behind = len as usize;
        if behind > longest(self.padded) {
            return Length::Wrong(FrameFault::TooLong { len });
        }
        if is_bad(self.padded, behind) {
            return Length::Wrong(FrameFault::BadLength { len });
        }
        Length::Size(LENGTH_BYTES + behind)
    }

    fn packet(&self, _number: u32, frame: &[u8]) -> Result<Span, FrameFault> {
        let payload = payload_bytes(self.padded, frame.len() - LENGTH_BYTES);
        Ok(Span {
            start: LENGTH_BYTES,
            end: LENGTH_BYTES + payload,
        })
    }

    ghost lawful = { λ form. lawful form.padded };
}
