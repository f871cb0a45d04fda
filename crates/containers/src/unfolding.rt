//! The inner messages of a container, copied.

ghost use Rattle.std.specs.Prelude.{◌≡◌, ◌≤◌, IsTrue, IfOk, length};
ghost use Rattle.containers.specs.Container.{begins_container, messages_max};
ghost use Rattle.containers.specs.Lent.{message_of};
ghost use Rattle.containers.specs.Parts.{parts_of};
ghost use Rattle.containers.specs.Unfolded.{Tells};

use crate::fault::Why;
use crate::part::Part;
use crate::parts::Parts;
use octets::{Memory, Octets};
use service_tl::{Message, Messages};
use std::alloc::Global;

/// What a container is.
#[derive(Debug, Drop)]
pub enum Unfolded {
    /// It is lawful, and these are its messages.
    Messages(Messages),
    /// It isn't lawful.
    Invalid {
        /// The first place with a fault, counted from 0.
        place: u32,
        /// The first fault there.
        why: Why,
    },
    /// It is lawful, and memory ran out.
    Memory,
}

/// Looks through the container that the body of the message with this number is, and copies its
/// messages. Each body is copied once.
pub fn unfold(alloc: Global, number: u64, body: &[u8]) -> Unfolded
    requires { IsTrue (begins_container body.now) }
    ensures { Tells (parts_of number body.now) result }
{
    match Parts::read(number, body) {
        Ok(parts) => match copied(alloc, parts) {
            Ok(messages) => Unfolded::Messages(messages),
            Err(Memory) => Unfolded::Memory,
        },
        Err(fault) => Unfolded::Invalid {
            place: fault.place,
            why: fault.why,
        },
    }
}

fn copy(alloc: Global, part: &Part<'_>) -> Result<Message, Memory>
    ensures { IfOk result (λ message. message ≡ message_of part.now) }
{
    Ok(Message {
        number: part.number,
        seq: part.seq,
        body: Octets::copy(alloc, part.body)?,
    })
}

fn copied(alloc: Global, parts: Parts<'_>) -> Result<Messages, Memory>
    ensures { IfOk result (λ messages. messages ≡ parts.entry) }
{
    let mut messages = Messages::with_capacity(alloc, parts.len())?;
    for part in parts {
        messages.push(alloc, copy(alloc, &part)?)?;
    }
    Ok(messages)
}
