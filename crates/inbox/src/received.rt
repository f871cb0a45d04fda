//! A message that comes, with what was read of it.

ghost use Rattle.std.specs.Prelude.{◌≡◌};

use crate::kind::{Kind, container_in, kind_among};
use crate::outer::Outer;
use containers::{ContainerFault, Parts};
use std::marker::Model;

/// A message as its envelope brings it, with the container that it is, if it is one: a container's frame is checked once, where
/// the message is read, and whoever judges it or finds what it needs goes by what was found. Contracts see the message.
#[derive(Debug, Drop)]
pub struct Received<'a> {
    pub(crate) message: &'a Outer,
    container: Option<Result<Parts<'a>, ContainerFault>>,
}

impl<'a> Model for Received<'a> {
    ghost use Rattle.std.specs.Prelude.{◌≡◌};
    ghost use Rattle.inbox.specs.declared.outer.Outer.{Outer};
    ghost use Rattle.inbox.specs.Kinds.{container_in};

    ghost Value = { Outer };

    ghost view = { λ received. received.message.now };

    ghost invariant = { λ received. received.container ≡ container_in received.message.now.number received.message.now.body };
}

impl<'a> Received<'a> {
    ghost use Rattle.inbox.specs.Inbox.{message_in};
    ghost use Rattle.inbox.specs.Kinds.{inner_messages, kind_of};

    /// Reads what an envelope brought. Takes no memory.
    pub fn read(message: &'a Outer) -> Received<'a>
        ensures { result ≡ message.now }
    {
        Received {
            message,
            container: container_in(message.number, message.body.as_slice()),
        }
    }

    /// Its number.
    pub fn number(&self) -> u64
        ensures { result ≡ self.now.number }
    {
        self.message.number
    }

    /// Its body.
    pub fn body(&self) -> &'a [u8]
        ensures { result.now ≡ self.now.body }
    {
        self.message.body.as_slice()
    }

    /// The messages inside it, in order: none where it is no lawful container.
    pub fn inner(&self) -> Parts<'a>
        ensures { result ≡ inner_messages (message_in self.now) }
    {
        match &self.container {
            Some(Ok(parts)) => parts.again(),
            _ => Parts::none(),
        }
    }

    /// What it is for judging.
    pub(crate) fn kind(&self) -> Kind
        ensures { result ≡ kind_of (message_in self.now) }
    {
        kind_among(&self.container, self.body())
    }
}
