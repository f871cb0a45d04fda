//! The program `mtp`: its words, its input, its output and its status, over an outside that it is given (`run`), and over the
//! machine that it runs on (`run_here`). What each command promises is a word of the crate that carries it out (`SimRun` and
//! `LoadRun` of `cmd_sim`, `CallRun` of `cmd_call`, `ServeRun` of `cmd_serve`, `PairRun` of `cmd_pair`, `CheckRun` of `cmd_check`,
//! `RelayRun` of `cmd_relay`); `specs/Obeys.antt` lists them.
#![tactic(auto)]

mod app;
mod machine;

pub use app::run;
pub use machine::{Machine, run_here};
