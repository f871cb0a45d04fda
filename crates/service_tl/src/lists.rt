//! The lists that stand in items.

use std::alloc::{AllocError, Global};
use std::marker::Model;
use tl_codec::{Memory, Octets};

/// A salt and when it is valid, in seconds of the server's time.
#[derive(Clone, Copy, Debug, PartialEq, Eq)]
pub struct FutureSalt {
    /// The first second at which it is valid.
    pub valid_since: u32,
    /// The first second at which it isn't valid any more.
    pub valid_until: u32,
    /// The salt.
    pub salt: u64,
}

/// Salts in order, fewer than `2^32` of them. Contracts see it as the list itself.
#[derive(Debug, Drop)]
pub struct FutureSaltList {
    rows: Vec<FutureSalt>,
}

impl Model for FutureSaltList {
    ghost use Rattle.std.specs.Prelude.{List, length, ◌<◌, ◌^◌};
    ghost use Rattle.std.specs.List.{AllByRecursion};
    ghost use Rattle.service_tl.specs.declared.lists.FutureSalt.{FutureSalt};

    ghost Value = { List FutureSalt };

    ghost use Rattle.service_tl.specs.Sizes.{SaltFits};

    ghost view = { λ list. list.rows.items };

    ghost invariant = { λ list. (length list.rows.items < 2 ^ 32) × AllByRecursion SaltFits list.rows.items };
}

impl FutureSaltList {
    ghost use Rattle.std.specs.Prelude.{◌≡◌, ◌<◌, ◌^◌, ◌+◌, ◌++◌, ◌∷◌, [], length, OnOk, OnErr};
    ghost use Rattle.std.specs.List.{AllByRecursion};
    ghost use Rattle.service_tl.specs.Sizes.{SaltFits};

    /// No salt yet. Takes no memory.
    pub fn new(alloc: Global) -> FutureSaltList
        ensures { result ≡ [] }
    {
        FutureSaltList {
            rows: Vec::new(alloc),
        }
    }

    /// Puts a salt at the end.
    ///
    /// # Errors
    ///
    /// `Memory`, and then the list is as it was.
    pub fn push(&mut self, _alloc: Global, row: FutureSalt) -> Result<(), Memory>
        requires { length self.old + 1 < 2 ^ 32 }
        ensures pushed { OnOk result (self.new ≡ self.old ++ row ∷ []) }
        ensures unchanged_on_memory { OnErr result (self.new ≡ self.old) }
    {
        self.rows.push(row)?;
        Ok(())
    }

    /// The salts in order. Takes no memory.
    pub fn as_slice(&self) -> &[FutureSalt]
        ensures value { result.now ≡ self.now }
        ensures length { length self.now < 2 ^ 32 }
        ensures ranges { AllByRecursion SaltFits self.now }
    {
        self.rows.as_slice()
    }
}

impl Clone for FutureSaltList {
    ghost use Rattle.std.specs.Prelude.{◌≡◌};

    ghost is_clone = { λ list copy. copy ≡ list };

    fn clone(&self) -> Result<FutureSaltList, AllocError> {
        Ok(FutureSaltList {
            rows: self.rows.clone()?,
        })
    }
}

/// A message of a container.
#[derive(Debug, Drop)]
pub struct Message {
    /// Its number: the message identifier.
    pub number: u64,
    /// Its sequence number.
    pub seq: u32,
    /// Its body, of fewer than `2^32` bytes.
    pub body: Octets,
}

impl Clone for Message {
    ghost use Rattle.std.specs.Prelude.{◌≡◌};

    ghost is_clone = { λ message copy. copy ≡ message };

    fn clone(&self) -> Result<Message, AllocError> {
        Ok(Message {
            number: self.number,
            seq: self.seq,
            body: self.body.clone()?,
        })
    }
}

/// Messages in order, fewer than `2^32` of them and each of fewer than `2^32` bytes. Contracts see it as
/// the list itself.
#[derive(Debug, Drop)]
pub struct Messages {
    messages: Vec<Message>,
}

impl Model for Messages {
    ghost use Rattle.std.specs.Prelude.{List, length, ◌<◌, ◌^◌};
    ghost use Rattle.service_tl.specs.declared.lists.Message.{Message};

    ghost Value = { List Message };

    ghost use Rattle.std.specs.List.{AllByRecursion};
    ghost use Rattle.service_tl.specs.Sizes.{AreSized, IsInRange};

    ghost view = { λ list. list.messages.items };

    ghost invariant = { λ list. AreSized list.messages.items × AllByRecursion IsInRange list.messages.items };
}

impl Messages {
    ghost use Rattle.std.specs.Prelude.{◌≡◌, ◌<◌, ◌^◌, ◌+◌, ◌++◌, ◌∷◌, [], length, IfOk, OnOk, OnErr};
    ghost use Rattle.std.specs.List.{AllByRecursion};
    ghost use Rattle.service_tl.specs.Sizes.{AreSized, IsInRange};

    /// No message yet. Takes no memory.
    pub fn new(alloc: Global) -> Messages
        ensures { result ≡ [] }
    {
        Messages {
            messages: Vec::new(alloc),
        }
    }

    /// No message yet, and room for `count` of them. Contracts promise the empty list; the room is
    /// only asked for, so a push after it may still answer `Memory`.
    ///
    /// # Errors
    ///
    /// `Memory`.
    pub fn with_capacity(alloc: Global, count: usize) -> Result<Messages, Memory>
        ensures { IfOk result (λ messages. messages ≡ []) }
    {
        Ok(Messages {
            messages: Vec::with_capacity(alloc, count)?,
        })
    }

    /// Puts a message at the end.
    ///
    /// # Errors
    ///
    /// `Memory`, and then the list is as it was.
    pub fn push(&mut self, _alloc: Global, message: Message) -> Result<(), Memory>
        requires few { length self.old + 1 < 2 ^ 32 }
        requires short { length message.body < 2 ^ 32 }
        ensures pushed { OnOk result (self.new ≡ self.old ++ message ∷ []) }
        ensures unchanged_on_memory { OnErr result (self.new ≡ self.old) }
    {
        self.messages.push(message)?;
        Ok(())
    }

    /// The messages in order. Takes no memory.
    pub fn as_slice(&self) -> &[Message]
        ensures value { result.now ≡ self.now }
        ensures sizes { AreSized self.now }
        ensures ranges { AllByRecursion IsInRange self.now }
    {
        self.messages.as_slice()
    }
}

impl Clone for Messages {
    ghost use Rattle.std.specs.Prelude.{◌≡◌};

    ghost is_clone = { λ list copy. copy ≡ list };

    fn clone(&self) -> Result<Messages, AllocError> {
        Ok(Messages {
            messages: self.messages.clone()?,
        })
    }
}
