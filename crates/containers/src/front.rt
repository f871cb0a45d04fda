//! The message at the front of a text.

ghost use Rattle.std.specs.Prelude.{◌≡◌, ◌<◌, ◌≤◌, ◌+◌, ◌^◌, length, None, Some, MatchResult};
ghost use Rattle.containers.specs.Container.{begins_container, message_head};
ghost use Rattle.containers.specs.Parts.{after, cause_in, message_in, said_length};
ghost use Rattle.containers.specs.Lent.{message_of};

use crate::fault::Why;
use crate::limits::{LENGTH_AT, MESSAGE_HEAD_BYTES, SEQ_AT, WORD_BYTES};
use crate::part::Part;
use byteorder::{ByteOrder, LittleEndian};
use service_tl::MSG_CONTAINER;

/// Whether the body begins with `msg_container`.
#[tactic(auto, unfolding(crate::specs::Container::begins_container))]
pub fn is_container(body: &[u8]) -> bool
    ensures { result ≡ begins_container body.now }
{
    body.len() >= WORD_BYTES && LittleEndian::read_u32(body) == MSG_CONTAINER
}

// The length that the head at the front says, in bytes.
fn said(text: &[u8]) -> usize
    requires { message_head ≤ length text.now }
    ensures length { result ≡ said_length text.now }
    ensures fits { result < 2 ^ 32 }
{
    LittleEndian::read_u32(&text[LENGTH_AT..]) as usize
}

// The message at the front of the text, and what stands behind it.
#[tactic(auto, unfolding(crate::specs::Parts::message_in, crate::specs::Parts::after))]
pub(crate) fn front(text: &[u8]) -> (Part<'_>, &[u8])
    requires { message_head + said_length text.now ≤ length text.now }
    ensures part { message_of result.0 ≡ message_in text.now }
    ensures rest { result.1.now ≡ after text.now }
{
    let number = LittleEndian::read_u64(text);
    let seq = LittleEndian::read_u32(&text[SEQ_AT..]);
    let (_, behind) = text.split_at(MESSAGE_HEAD_BYTES);
    let (body, rest) = behind.split_at(said(text));
    (Part { number, seq, body }, rest)
}

// What stands behind the message at the front, or what is wrong with that.
#[tactic(auto, unfolding(crate::specs::Parts::cause_in))]
pub(crate) fn lawful_front(number: u64, text: &[u8]) -> Result<&[u8], Why>
    ensures { MatchResult result (λ rest. (cause_in number text.now ≡ None) × (rest.now ≡ after text.now)) (λ why. cause_in number text.now ≡ Some why) }
{
    if text.len() < MESSAGE_HEAD_BYTES {
        return Err(Why::Short);
    }
    let said = said(text);
    if said % WORD_BYTES != 0 {
        return Err(Why::Odd);
    }
    if text.len() < MESSAGE_HEAD_BYTES + said {
        return Err(Why::Short);
    }
    let (part, rest) = front(text);
    if part.number >= number {
        return Err(Why::NotBelow);
    }
    if is_container(part.body) {
        return Err(Why::Nested);
    }
    Ok(rest)
}
