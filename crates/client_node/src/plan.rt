//! How a batch goes, and how it ended.

use transport::Form;

/// How a batch of calls goes.
#[derive(Clone, Copy, Debug, PartialEq, Eq)]
pub struct Plan {
    /// The port of this machine that is connected to.
    pub port: u16,
    /// The form of the framing.
    pub form: Form,
    /// Whether connections are obfuscated; those of the full form aren't.
    pub obfuscate: bool,
    /// How many connections may be lost before the batch ends.
    pub retries: u32,
}

/// How a batch of calls ended.
#[derive(Clone, Copy, Debug, PartialEq, Eq)]
pub enum Batch {
    /// Each call is `Done`, `Refused` or `Unknown`.
    Decided,
    /// More connections were lost than the plan allows.
    LinkLost,
    /// One connection gave 1,000,000 pieces, and a call isn't decided.
    TurnsSpent,
    /// There may be no further numbers for what is to be sent.
    Spent,
    /// Memory ran out.
    Memory,
}
