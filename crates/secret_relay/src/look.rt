//! One look at the front of a text, for what goes out of it.

ghost use Rattle.secret_relay.specs.Going.{Sees};

use crate::fault::RelayFault;
use crate::frames::can_go_out;
use framing::{Framing, Length};
use transport::Form;

/// What stands at the front of a text.
#[derive(Clone, Copy)]
pub(crate) enum Look {
    /// A whole frame of `size` bytes, whose packet stands from `start` to `end` and can go out.
    Packet {
        start: usize,
        end: usize,
        size: usize,
    },
    /// A proper prefix of a frame, maybe no byte.
    More,
    /// No frame, or one whose packet can't go out.
    Fault(RelayFault),
}

/// What stands at the front of a text in one form, whose packets go out in another.
pub(crate) fn look_at(from: Form, to: Form, text: &[u8]) -> Look
    ensures { Sees from to text.now result }
{
    let size = match from.length(text) {
        Length::Size(size) => size,
        Length::Awaited => return Look::More,
        Length::Wrong(fault) => return Look::Fault(RelayFault::Frame(fault)),
    };
    if text.len() < size {
        return Look::More;
    }
    let span = match from.packet(0, &text[..size]) {
        Ok(span) => span,
        Err(fault) => return Look::Fault(RelayFault::Frame(fault)),
    };
    let packet = &text[span.start..span.end];
    if !can_go_out(to, packet) {
        return Look::Fault(RelayFault::Length { len: packet.len() });
    }
    Look::Packet {
        start: span.start,
        end: span.end,
        size,
    }
}
