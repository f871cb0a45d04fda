//! How far the message of a number is.

/// The mark of a number that was judged.
#[derive(Clone, Copy, Debug, PartialEq, Eq)]
pub enum Mark {
    /// Refused for good, with the notice of this code.
    Noticed(u32),
    /// Accepted; neither a call nor a container.
    Service,
    /// An accepted container.
    Container,
    /// An accepted call that isn't answered yet.
    Waiting,
    /// Answered, and the reply is kept; false where the reply is an error.
    Replied(bool),
    /// Answered, and the reply was acknowledged and is no longer kept.
    Acked(bool),
    /// Answered, and the reply was dropped without an acknowledgement.
    Dropped(bool),
}

impl Mark {
    ghost use Rattle.std.specs.Prelude.{◌≡◌};
    ghost use Rattle.id_window.specs.Marks.{is_accepted};

    /// Whether the message was accepted.
    pub fn is_accepted(self) -> bool
        ensures { result ≡ is_accepted self }
    {
        !matches!(self, Mark::Noticed(_))
    }
}
