//! The command `check`: it reads a trace and writes whether the six sentences on calls that execute at most once hold of it,
//! or which fails first and at which line. What it promises is a word of specs/ (`CheckRun`).
#![tactic(auto)]

mod answering;
pub mod laws;
mod running;

pub use running::run_check;
