//! The unfinished jobs of a server: calls that were accepted and aren't answered yet, in order of acceptance over all
//! sessions (core.telegram.org/api/invoking).
//!
//! Contracts see `Jobs` as that list and the room that is reserved (`specs/Held.antt`), and each call as a step over
//! the list (`specs/Jobs.antt`).
#![tactic(auto)]

mod job;
mod jobs;
pub mod laws;
mod owner;
mod owners;
mod stamp_search;
mod stamped;
mod telling;
mod totals;
mod wanted;

pub use job::Job;
pub use jobs::{JOB_BYTES_MAX, JOBS_MAX, Jobs, WAIT_SECONDS};
