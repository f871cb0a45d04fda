//! Messages put into one container.

ghost use Rattle.std.specs.Prelude.{◌≡◌, ◌<◌, ◌≤◌, ◌+◌, ◌^◌, ◌++◌, ◌∷◌, [], ◌↔◌, List, length, map, IsTrue, OnOk, OnErr};
ghost use Rattle.service_tl.specs.declared.lists.Message.{Message as Inner};
ghost use Rattle.containers.specs.Container.{AreWithin, bytes_max, container_head, container_of, head_of, message_head, messages_max, row, size_of};
ghost use Rattle.containers.specs.Lent.{message_of};

use crate::limits::{
    CONTAINER_BYTES_MAX, CONTAINER_HEAD_BYTES, CONTAINER_MESSAGES_MAX, MESSAGE_HEAD_BYTES,
};
use crate::part::Part;
use octets::{Buffer, Memory, Octets};
use service_tl::{MSG_CONTAINER, Message};
use std::alloc::Global;

/// Whether one more message, whose body has `next` bytes, can stand in a container that has `count`
/// messages and whose body has `bytes` bytes; an empty container's has 8. Each message adds its head of
/// 16 bytes and its body.
pub fn fits(count: usize, bytes: usize, next: usize) -> bool
    ensures limits { IsTrue result ↔ ((count + 1 ≤ messages_max) × (bytes + message_head + next ≤ bytes_max)) }
    ensures as_packed { (messages : List Inner) (message : Inner) → count ≡ length messages → bytes ≡ size_of messages → next ≡ length message.body
        → (IsTrue result ↔ AreWithin (messages ++ message ∷ [])) }
{
    count < CONTAINER_MESSAGES_MAX
        && bytes
            .saturating_add(MESSAGE_HEAD_BYTES)
            .saturating_add(next)
            <= CONTAINER_BYTES_MAX
}

/// Puts the container of these messages at the end. Room for it is taken once.
///
/// # Errors
///
/// `Memory`, and then the text is as it was.
pub fn container(alloc: Global, messages: &[Message], into: &mut Octets) -> Result<(), Memory>
    requires some { 0 < length messages.now }
    requires within { AreWithin messages.now }
    ensures appended { OnOk result (into.new ≡ into.old ++ container_of messages.now) }
    ensures unchanged_on_memory { OnErr result (into.new ≡ into.old) }
{
    let mut buffer = Buffer::after(alloc, into, size(messages))?;
    put_head(&mut buffer, messages.len());
    for message in messages {
        put(
            &mut buffer,
            message.number,
            message.seq,
            message.body.as_slice(),
        );
    }
    *into = buffer.into_octets();
    Ok(())
}

/// Puts the container of lent messages at the end, as `container` does. Each body is copied once.
///
/// # Errors
///
/// `Memory`, and then the text is as it was.
pub fn container_of_parts(
    alloc: Global,
    parts: &[Part<'_>],
    into: &mut Octets,
) -> Result<(), Memory>
    requires some { 0 < length parts.now }
    requires within { AreWithin (map message_of parts.now) }
    ensures appended { OnOk result (into.new ≡ into.old ++ container_of (map message_of parts.now)) }
    ensures unchanged_on_memory { OnErr result (into.new ≡ into.old) }
{
    let mut buffer = Buffer::after(alloc, into, container_size(parts))?;
    container_into(parts, &mut buffer);
    *into = buffer.into_octets();
    Ok(())
}

/// Puts the container of lent messages at the end, into room that is there. Each body is copied once.
/// Takes no memory.
pub fn container_into(parts: &[Part<'_>], buffer: &mut Buffer)
    requires some { 0 < length parts.now }
    requires within { AreWithin (map message_of parts.now) }
    requires room { size_of (map message_of parts.now) ≤ buffer.old.room }
    ensures written { buffer.new.bytes ≡ buffer.old.bytes ++ container_of (map message_of parts.now) }
    ensures room { buffer.new.room + size_of (map message_of parts.now) ≡ buffer.old.room }
{
    put_head(buffer, parts.len());
    for part in parts {
        put(buffer, part.number, part.seq, part.body);
    }
}

/// How many bytes the container of lent messages has. Takes no memory.
pub fn container_size(parts: &[Part<'_>]) -> usize
    requires { AreWithin (map message_of parts.now) }
    ensures { result ≡ size_of (map message_of parts.now) }
{
    let mut size = CONTAINER_HEAD_BYTES;
    for part in parts {
        size += MESSAGE_HEAD_BYTES + part.body.len();
    }
    size
}

// How many bytes the container of these messages has.
fn size(messages: &[Message]) -> usize
    requires { AreWithin messages.now }
    ensures { result ≡ size_of messages.now }
{
    let mut size = CONTAINER_HEAD_BYTES;
    for message in messages {
        size += MESSAGE_HEAD_BYTES + message.body.as_slice().len();
    }
    size
}

// Puts the constructor and the count at the end.
fn put_head(buffer: &mut Buffer, count: usize)
    requires room { container_head ≤ buffer.old.room }
    requires few { count ≤ messages_max }
    ensures written { buffer.new.bytes ≡ buffer.old.bytes ++ head_of count }
    ensures room { buffer.new.room + container_head ≡ buffer.old.room }
{
    buffer.push_all(&MSG_CONTAINER.to_le_bytes());
    buffer.push_all(&(count as u32).to_le_bytes());
}

// Puts a message, head and body, at the end.
#[tactic(auto, unfolding(crate::specs::Container::row))]
fn put(buffer: &mut Buffer, number: u64, seq: u32, body: &[u8])
    requires room { message_head + length body.now ≤ buffer.old.room }
    requires short { length body.now < 2 ^ 32 }
    ensures written { buffer.new.bytes ≡ buffer.old.bytes ++ row (record { number = number; seq = seq; body = body.now }) }
    ensures room { buffer.new.room + message_head + length body.now ≡ buffer.old.room }
{
    buffer.push_all(&number.to_le_bytes());
    buffer.push_all(&seq.to_le_bytes());
    buffer.push_all(&(body.len() as u32).to_le_bytes());
    buffer.push_all(body);
}
