//! One look at the front of a text.

ghost use Rattle.framing.specs.Looks.{Tells};

use crate::form::{Framing, Length};
use tl_codec::FrameFault;

/// What stands at the front of a text.
#[derive(Clone, Copy)]
pub(crate) enum Look {
    /// A whole frame of `size` bytes, whose packet stands from `start` to `end`.
    Whole {
        start: usize,
        end: usize,
        size: usize,
    },
    /// Less than its length field says, or that isn't whole; maybe no byte.
    More,
    /// No frame, and no bytes behind it make it one.
    Fault(FrameFault),
}

/// What stands at the front of the text, where the frame of this number is due. It looks at the length field alone,
/// unless the frame is whole.
pub(crate) fn look_at<F: Framing>(form: &F, number: u32, text: &[u8]) -> Look
    ensures { Tells (F.form form.now) number text.now result }
{
    let size = match form.length(text) {
        Length::Size(size) => size,
        Length::Awaited => return Look::More,
        Length::Wrong(fault) => return Look::Fault(fault),
    };
    if text.len() < size {
        return Look::More;
    }
    match form.packet(number, &text[..size]) {
        Ok(span) => Look::Whole {
            start: span.start,
            end: span.end,
            size,
        },
        Err(fault) => Look::Fault(fault),
    }
}
