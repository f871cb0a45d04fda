//! Traces: what clients asked of a server and were told, and what the server executed, one fact a line. `check` answers
//! whether each call executed at most once, as it was sent, and what is told of it is so. `specs/Facts.antt` has what lines
//! say, `specs/Lawful.antt` where they may stand, `specs/Sentences.antt` the six sentences and the lines that show a break,
//! `specs/Answers.antt` the answer.
#![tactic(auto)]

mod book;
mod checking;
mod fact;
mod judge;
pub mod laws;
mod numbered;
mod sentence;
mod starts;
mod table;

pub use checking::{CheckFault, Checked, check};
pub use octets::{Memory, Octets};
