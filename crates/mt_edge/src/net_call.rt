//! The calls of a net.

ghost use Rattle.std.specs.Prelude.{◌≡◌};

use crate::act::Act;
use crate::told::LinkTold;

/// What came of an attempt to get a connection.
#[derive(Debug, Drop)]
pub enum Outcome {
    /// The attempt failed.
    Failed,
    /// There is a connection, which wasn't given back yet.
    Open,
    /// There was a connection, and it was given back.
    Done {
        /// What its link told then.
        told: LinkTold,
        /// How many of the link's calls had failed.
        faults: u64,
    },
}

/// A call of a net that is noted in its record.
#[derive(Debug, Drop)]
pub enum NetCall {
    /// A call of `listen`.
    Listen {
        /// The port.
        port: u16,
        /// The answer.
        answer: Act,
    },
    /// A call of `connect`.
    Connect {
        /// The port.
        port: u16,
        /// What came of it.
        outcome: Outcome,
    },
    /// A call of `accept`.
    Accept {
        /// What came of it.
        outcome: Outcome,
    },
}

impl NetCall {
    ghost use Rattle.mt_edge.specs.Nets.{closed};

    /// Notes that the connection of this call was given back, where it is one that wasn't yet.
    pub(crate) fn give_back(&mut self, told: LinkTold, faults: u64)
        ensures { self.new ≡ closed told faults self.old }
    {
        match self {
            NetCall::Listen { .. } => {}
            NetCall::Connect { outcome, .. } => outcome.give_back(told, faults),
            NetCall::Accept { outcome } => outcome.give_back(told, faults),
        }
    }
}

impl Outcome {
    ghost use Rattle.mt_edge.specs.Nets.{given_back};

    /// Notes that the connection was given back, where it wasn't yet.
    pub(crate) fn give_back(&mut self, told: LinkTold, faults: u64)
        ensures { self.new ≡ given_back told faults self.old }
    {
        match self {
            Outcome::Open => *self = Outcome::Done { told, faults },
            Outcome::Failed | Outcome::Done { .. } => {}
        }
    }
}
