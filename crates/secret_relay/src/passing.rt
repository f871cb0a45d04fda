//! The packets of a text in one form go out in another.

ghost use Rattle.std.specs.Prelude.{◌≡◌, ◌≢◌, ◌≤◌, ◌+◌, ◌++◌, List, drop, length, take, ℕ};
ghost use Rattle.transport.specs.declared.form.Form.TheVariants.{Full};
ghost use Rattle.secret_relay.specs.Going.{HasRoom, PassesOn};

use crate::fault::RelayFault;
use crate::frames::put_frame;
use crate::look::{Look, look_at};
use framing::{Framing, Length};
use octets::Buffer;
use transport::Form;

/// How far the packets of a text went out.
#[derive(Clone, Copy)]
pub(crate) struct Passed {
    /// How many bytes their frames have.
    pub(crate) taken: usize,
    /// What stands behind them, where it is no proper prefix of a frame.
    pub(crate) fault: Option<RelayFault>,
}

/// The room that is taken for what goes out of a text, of which the first `known` bytes are deciphered: none where the frame
/// that they begin isn't whole yet, so that a long packet in small pieces takes its room once.
pub(crate) fn room_for(from: Form, text: &[u8], known: usize) -> usize
    requires { known ≤ length text.now }
    ensures { (tail : List ℕ) → known + length tail ≡ length text.now → HasRoom from (take known text.now ++ tail) result }
{
    match from.length(&text[..known]) {
        Length::Size(size) if text.len() < size => 0,
        _ => 2 * text.len(),
    }
}

/// Writes the whole packets at the front of a text.
pub(crate) fn pass_on(from: Form, to: Form, text: &[u8], into: &mut Buffer) -> Passed
    requires from_plain { from ≢ Full }
    requires to_plain { to ≢ Full }
    requires room { HasRoom from text.now into.old.room }
    ensures within { result.taken ≤ length text.now }
    ensures passed { PassesOn from to result.fault text.now (drop result.taken text.now) into.old.bytes into.new.bytes }
{
    let mut taken = 0;
    'frames: loop {
        match look_at(from, to, &text[taken..]) {
            Look::Packet { start, end, size } => {
                put_frame(to, &text[taken + start..taken + end], into);
                taken += size;
            }
            Look::More => return Passed { taken, fault: None },
            Look::Fault(fault) => {
                return Passed {
                    taken,
                    fault: Some(fault),
                };
            }
        }
    }
}
