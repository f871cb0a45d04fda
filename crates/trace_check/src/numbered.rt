//! What facts name.

ghost use Rattle.std.specs.Prelude.{◌≡◌, MatchOption, Some, None};
ghost use Rattle.trace_check.specs.Reading.{numbered_from};

use sched_text::Words;

/// The number of a call of a client, or that of a message of a session. Calls of a client count from 1.
#[derive(Clone, Copy, PartialEq, Eq, PartialOrd, Ord)]
pub(crate) struct Numbered {
    /// The client, or the session.
    pub(crate) owner: u64,
    /// The number in it.
    pub(crate) number: u64,
}

/// The two numbers that the next words spell, if they spell such.
pub(crate) fn pair_of(words: &mut Words<'_>) -> Option<Numbered>
    ensures { MatchOption result (numbered_from words.old ≡ None) (λ numbered. numbered_from words.old ≡ Some (numbered, words.new)) }
{
    let owner = words.number()?;
    let number = words.number()?;
    Some(Numbered { owner, number })
}
