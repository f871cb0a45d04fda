//! What was judged.

ghost use Rattle.std.specs.Prelude.{◌≡◌};

use id_window::Mark;
use std::marker::Model;

/// What became of a message.
#[derive(Clone, Copy, Debug)]
pub enum Verdict {
    /// It was accepted now.
    Accepted,
    /// It came before, and its number has this mark.
    Again(Mark),
    /// It is refused with the notice of this code.
    Noticed(u32),
}

impl Verdict {
    ghost use Rattle.inbox.specs.Verdicts.{is_bare_accepted};

    /// Whether the message was accepted now.
    pub fn is_accepted(&self) -> bool
        ensures { result ≡ is_bare_accepted self.now }
    {
        matches!(self, Verdict::Accepted)
    }
}

/// A message's number and sequence number with its verdict.
#[derive(Clone, Copy, Debug)]
pub struct Judgement {
    /// The message's number.
    pub number: u64,
    /// Its sequence number.
    pub seq: u32,
    /// What became of it.
    pub verdict: Verdict,
}

/// Judgements in order: of a message, and then of those inside it. Contracts see it as the list itself.
#[derive(Debug, Drop)]
pub struct Judged {
    pub(crate) judgements: Vec<Judgement>,
}

impl Model for Judged {
    ghost use Rattle.std.specs.Prelude.{List};
    ghost use Rattle.inbox.specs.declared.judged.Judgement.{Judgement};

    ghost Value = { List Judgement };

    ghost view = { λ judged. judged.judgements.items };
}

impl Judged {
    /// The judgements in order. Takes no memory.
    pub fn as_slice(&self) -> &[Judgement]
        ensures { result.now ≡ self.now }
    {
        self.judgements.as_slice()
    }
}
