//! Statuses.

ghost use Rattle.std.specs.Prelude.{◌≡◌};
ghost use Rattle.statuses.specs.Statuses.{number_of};

/// How a run of the program ends.
#[derive(Clone, Copy, Debug, PartialEq, Eq)]
pub enum Status {
    /// What the command writes is written.
    Done,
    /// The words are refused.
    WordsRefused,
    /// The input is refused.
    InputRefused,
    /// The input can't be read.
    ReadFault,
    /// The output can't be written.
    WriteFault,
    /// The key file can't be read or is refused, or lacks a key.
    KeysRefused,
    /// Each call is decided, and one isn't done.
    NotAllDone,
    /// More connections were lost than may be.
    LinkLost,
    /// One connection gave as many pieces as it may.
    TurnsSpent,
    /// Memory ran out.
    Memory,
    /// A client has something to send, and fewer than 2,048 numbers left.
    NumbersSpent,
    /// No connections can be taken, or a child process can't be started, read or waited for.
    NotListening,
    /// The journal's file can't be opened, is neither empty nor a journal, or is full; or a call of its disk failed.
    JournalFault,
    /// A trace breaks a sentence of those by which calls execute at most once.
    Broken,
}

impl Status {
    /// Its number, with which the program ends.
    pub fn number(self) -> u8
        ensures { result ≡ number_of self }
    {
        match self {
            Status::Done => 0,
            Status::WordsRefused => 1,
            Status::InputRefused => 2,
            Status::ReadFault => 3,
            Status::WriteFault => 4,
            Status::KeysRefused => 5,
            Status::NotAllDone => 6,
            Status::LinkLost => 7,
            Status::TurnsSpent => 8,
            Status::Memory => 9,
            Status::NumbersSpent => 10,
            Status::NotListening => 11,
            Status::JournalFault => 12,
            Status::Broken => 13,
        }
    }
}
