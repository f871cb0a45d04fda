//! What a form of framing tells of the front of a text.

ghost use Rattle.std.specs.Prelude.{MatchResult};
ghost use Rattle.framing.specs.Streams.{Form, IsOutline};
ghost use Rattle.framing.specs.Laws.{IsForm};
ghost use Rattle.framing.specs.Looks.{TellsLength, IsFrameAt};

use tl_codec::FrameFault;

/// The most bytes of a payload.
pub const PAYLOAD_MAX: usize = 1_048_576;

/// What a length field at the front of a text tells.
#[derive(Clone, Copy, Debug, PartialEq, Eq)]
pub enum Length {
    /// The frame has so many bytes, those of its length field included.
    Size(usize),
    /// More of the length field is awaited.
    Awaited,
    /// No frame has such a length.
    Wrong(FrameFault),
}

/// Where a packet stands in its frame.
#[derive(Clone, Copy, Debug, PartialEq, Eq)]
pub struct Span {
    /// The place of its first byte.
    pub start: usize,
    /// The place behind its last byte.
    pub end: usize,
}

/// A form of framing: how a packet becomes a frame.
pub trait Framing {
    /// What its frames are, and which faults a text shows that has another thing in a frame's place.
    ghost form: { Self → Form };

    /// What the length field at the front of the text tells. It looks at no byte behind the length field.
    fn length(&self, text: &[u8]) -> Length
        ensures { TellsLength (form self.now) text.now result };

    /// Where the packet stands in a frame of this number, which has as many bytes as its length field says.
    ///
    /// # Errors
    ///
    /// The first fault of the whole, where it is no such frame.
    fn packet(&self, number: u32, frame: &[u8]) -> Result<Span, FrameFault>
        requires { IsOutline (form self.now) frame.now }
        ensures { MatchResult result (λ span. IsFrameAt (form self.now) number frame.now span) (λ fault. (form self.now).spoilt number fault frame.now) };

    /// The form of every value meets the laws of a form.
    ghost lawful: { (self : Self) → IsForm (form self) };
}
