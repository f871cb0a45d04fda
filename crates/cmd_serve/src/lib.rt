//! The command `serve`: a server whose keys are those of a file, over the connections of a net, one after the other. What a run
//! promises is one record of specs/ (`ServeRun`): how the run goes (`Course`), and for each way the calls that it makes of the
//! outside, the trace of the server, its status and what is written. With a journal it also says what becomes of the journal's
//! file (`Keeping`), and which server comes of it.
#![tactic(auto)]

mod connection;
mod connections;
mod ending;
mod journal;
mod keeping;
pub mod laws;
mod lines;
mod running;
mod serving;

pub use running::run_serve;
