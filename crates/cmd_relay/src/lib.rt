//! The command `relay`: a captured connection that is obfuscated with a secret, turned into one in plain framing, a line for
//! each line. Its lines and what it makes of them are in specs/Captures.antt, what it promises is `RelayRun` of
//! specs/Runs.antt.
#![tactic(auto)]

mod capture;
pub mod laws;
mod line;
mod passing;
mod running;

pub use capture::{Piece, Way};
pub use running::run_relay;
