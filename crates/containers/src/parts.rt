//! The inner messages of a container, one after the other.

ghost use Rattle.std.specs.Prelude.{◌≡◌, ◌≤◌, ◌==◌, [], IsTrue, length, None, Some, MatchResult};
ghost use Rattle.containers.specs.Container.{begins_container, messages_max};
ghost use Rattle.containers.specs.Parts.{parts_of, first_from, causes};

use crate::fault::{ContainerFault, Why};
use crate::front::{front, lawful_front};
use crate::limits::{CONTAINER_HEAD_BYTES, CONTAINER_MESSAGES_MAX, COUNT_AT};
use crate::part::Part;
use byteorder::{ByteOrder, LittleEndian};
use std::marker::Model;

/// The inner messages of a lawful container that are still to come, in order. They stand in the
/// container's body; looking at them takes no memory. Contracts see it as the list of these messages.
#[derive(Debug, Drop)]
pub struct Parts<'a> {
    count: u32,
    left: &'a [u8],
}

impl<'a> Model for Parts<'a> {
    ghost use Rattle.std.specs.Prelude.{List};
    ghost use Rattle.service_tl.specs.declared.lists.Message.{Message};

    ghost Value = { List Message };

    ghost use Rattle.containers.specs.Parts.{messages_in};
    ghost use Rattle.containers.specs.Whole.{IsPlace};

    ghost view = { λ parts. messages_in parts.count parts.left.now };

    ghost invariant = { λ parts. IsPlace parts.count parts.left.now };
}

impl<'a> Parts<'a> {
    /// Looks through the container that the body of the message with this number is, once, and lends
    /// its messages. Takes no memory.
    ///
    /// # Errors
    ///
    /// The first fault of a container that isn't lawful.
    #[tactic(auto, unfolding(crate::specs::Parts::parts_of))]
    pub fn read(number: u64, body: &'a [u8]) -> Result<Parts<'a>, ContainerFault>
        requires { IsTrue (begins_container body.now) }
        ensures { result ≡ parts_of number body.now }
    {
        if body.len() < CONTAINER_HEAD_BYTES {
            return Err(ContainerFault {
                place: 0,
                why: Why::Short,
            });
        }
        let count = LittleEndian::read_u32(&body[COUNT_AT..]);
        if count as usize > CONTAINER_MESSAGES_MAX {
            return Err(ContainerFault {
                place: 0,
                why: Why::TooMany,
            });
        }
        let (_, first) = body.split_at(CONTAINER_HEAD_BYTES);
        check(number, count, first)?;
        Ok(Parts { count, left: first })
    }

    /// No messages.
    pub fn none() -> Parts<'a>
        ensures { result ≡ [] }
    {
        Parts {
            count: 0,
            left: &[],
        }
    }

    /// The messages that are still to come, lent once more.
    pub fn again(&self) -> Parts<'a>
        ensures { result ≡ self.now }
    {
        Parts {
            count: self.count,
            left: self.left,
        }
    }

    /// How many messages are still to come.
    pub fn len(&self) -> usize
        ensures value { result ≡ length self.now }
        ensures few { result ≤ messages_max }
    {
        self.count as usize
    }

    /// Whether no message is still to come.
    pub fn is_empty(&self) -> bool
        ensures { result ≡ (length self.now == 0) }
    {
        self.count == 0
    }
}

// Looks at so many messages, one after the other, and at what is left behind them.
fn check(number: u64, count: u32, text: &[u8]) -> Result<(), ContainerFault>
    ensures { MatchResult result
        (λ _. first_from 0 (causes number count text.now) ≡ None)
        (λ fault. first_from 0 (causes number count text.now) ≡ Some fault) }
{
    let mut left = text;
    for place in 0..count {
        match lawful_front(number, left) {
            Ok(rest) => left = rest,
            Err(why) => return Err(ContainerFault { place, why }),
        }
    }
    if !left.is_empty() {
        return Err(ContainerFault {
            place: count,
            why: Why::Extra,
        });
    }
    Ok(())
}

impl<'a> Iterator for Parts<'a> {
    ghost use Rattle.std.specs.Iterator.{YieldsFirstBy, item_count};
    ghost use Rattle.containers.specs.Lent.{message_of};

    type Item = Part<'a>;

    ghost remaining = { item_count (λ parts. parts) };

    ghost next_gives = { YieldsFirstBy message_of (λ parts. parts) };

    fn next(&mut self) -> Option<Part<'a>> {
        if self.count == 0 {
            return None;
        }
        let (part, rest) = front(self.left);
        self.count -= 1;
        self.left = rest;
        Some(part)
    }
}
