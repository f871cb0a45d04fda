//! The six sentences.

ghost use Rattle.std.specs.Prelude.{◌≡◌};
ghost use Rattle.trace_check.specs.Sentences.{number_of};

/// What has to hold of a trace.
#[derive(Clone, Copy)]
pub(crate) enum Sentence {
    /// A call has at most one entry.
    AtMostOnce,
    /// An entry was asked for, with this request.
    AsSent,
    /// A call that is done has one entry, with its reply.
    Done,
    /// A replaced name has no entry, nor has a call that has not run.
    Replaced,
    /// Where it isn't known what became of a call, its cause is there.
    Unknown,
    /// What ran has the replies of the registers.
    Served,
}

impl Sentence {
    /// Its number, from 1.
    pub(crate) fn number(self) -> u8
        ensures { result ≡ number_of self }
    {
        match self {
            Sentence::AtMostOnce => 1,
            Sentence::AsSent => 2,
            Sentence::Done => 3,
            Sentence::Replaced => 4,
            Sentence::Unknown => 5,
            Sentence::Served => 6,
        }
    }
}
