//! The forms of framing.

ghost use Rattle.transport.specs.Forms.{framing_of};
ghost use Rattle.transport.specs.Lawful.{lawful};

use frame_full::FullForm;
use frame_len::LengthForm;
use frame_short::AbridgedForm;
use framing::{FrameFault, Framing, Length, Span};

/// A form of framing.
#[derive(Clone, Copy, Debug, PartialEq, Eq)]
pub enum Form {
    /// A length in words, in 1 or 4 bytes, and the packet.
    Abridged,
    /// A length in 4 bytes, and the packet.
    Intermediate,
    /// A length in 4 bytes, the packet and padding.
    Padded,
    /// A length, a number, the packet and a check.
    Full,
}

impl Framing for Form {
    ghost form = { framing_of };

    fn length(&self, text: &[u8]) -> Length {
        match self {
            Form::Abridged => AbridgedForm {}.length(text),
            Form::Intermediate => LengthForm { padded: false }.length(text),
            Form::Padded => LengthForm { padded: true }.length(text),
            Form::Full => FullForm {}.length(text),
        }
    }

    fn packet(&self, number: u32, frame: &[u8]) -> Result<Span, FrameFault> {
        match self {
            Form::Abridged => AbridgedForm {}.packet(number, frame),
            Form::Intermediate => LengthForm { padded: false }.packet(number, frame),
            Form::Padded => LengthForm { padded: true }.packet(number, frame),
            Form::Full => FullForm {}.packet(number, frame),
        }
    }

    ghost lawful = { lawful };
}
