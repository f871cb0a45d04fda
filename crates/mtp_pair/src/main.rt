//! `mtp_pair`, the program `mtp` once more: its stored run starts children of its own.
#![tactic(auto)]

use mtp_app::run_here;
use std::process::ExitCode;

fn main(rt: HostRuntime) -> ExitCode {
    run_here(&rt)
}
