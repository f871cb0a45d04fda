//! The abridged form of framing.

ghost use Rattle.std.specs.Prelude.{ℕ, List, ◌<◌, ◌^◌};
ghost use Rattle.framing.specs.Looks.{TellsLength};
ghost use Rattle.frame_short.specs.Abridged.{SaysWords, abridged};
ghost use Rattle.frame_short.specs.Lawful.{abridged_lawful};

use byteorder::{ByteOrder, LittleEndian};
use framing::{FrameFault, Framing, Length, PAYLOAD_MAX, Span};

/// The bytes of a word.
pub(crate) const WORD_BYTES: usize = 4;

/// The first byte of a length that has 3 more bytes. A byte below it is a length itself.
pub(crate) const LONG_FORM: u8 = 127;

/// The bytes of the short spelling of a length.
pub(crate) const SHORT_HEAD_BYTES: usize = 1;

/// The bytes of the long spelling of a length.
pub(crate) const LONG_HEAD_BYTES: usize = 4;

/// The abridged form.
#[derive(Clone, Copy, Debug)]
pub struct AbridgedForm {}

// What a length field of `head` bytes tells that says so many words.
fn length_of(head: usize, words: usize) -> Length
    requires head { head < 8 }
    requires words { words < 2 ^ 24 }
    ensures { (text : List ℕ) → SaysWords head words text → TellsLength abridged text result }
{
    if words > PAYLOAD_MAX / WORD_BYTES {
        return Length::Wrong(FrameFault::TooLong {
            len: (WORD_BYTES * words) as u32,
        });
    }
    if words == 0 {
        return Length::Wrong(FrameFault::BadLength { len: 0 });
    }
    Length::Size(head + WORD_BYTES * words)
}

impl Framing for AbridgedForm {
    ghost form = { λ _. abridged };

    fn length(&self, text: &[u8]) -> Length {
        let Some(first) = text.first() else {
            return Length::Awaited;
        };
        let first = *first;
        if first > LONG_FORM {
            return Length::Wrong(FrameFault::BadLength {
                len: u32::from(first),
            });
        }
        if first < LONG_FORM {
            return length_of(SHORT_HEAD_BYTES, first as usize);
        }
        if text.len() < LONG_HEAD_BYTES {
            return Length::Awaited;
        }
        length_of(LONG_HEAD_BYTES, LittleEndian::read_u24(&text[1..]) as usize)
    }

    fn packet(&self, _number: u32, frame: &[u8]) -> Result<Span, FrameFault> {
        let start = if frame[0] < LONG_FORM {
            SHORT_HEAD_BYTES
        } else {
            LONG_HEAD_BYTES
        };
        Ok(Span {
            start,
            end: frame.len(),
        })
    }

    ghost lawful = { λ _. abridged_lawful };
}
