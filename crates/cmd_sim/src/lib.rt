//! The commands that play schedules in one world over the cores: `sim` reads a schedule and writes the report of its world,
//! `load` plays the large schedule of so many calls and sums it up. What each promises is a word of specs/ (`SimRun`,
//! `LoadRun`).
#![tactic(auto)]

mod counted_draw;
mod key_ring;
pub mod laws;
mod loading;
mod running;
mod schedule_world;
mod sim;

pub use running::{run_load, run_sim};
