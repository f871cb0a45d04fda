//! The command `pair`: a script's calls as one batch over a server that is started and stops, and, where that loses the
//! connection, over one that is started anew. What is read before, and why nothing is started, is `specs/Checks.antt`; the
//! servers are `specs/Servers.antt`, the batches `specs/Batches.antt`, and what a run promises is `specs/Runs.antt`.
#![tactic(auto)]

mod batches;
mod checks;
mod halt;
mod running;
mod servers;

pub use running::run_pair;
