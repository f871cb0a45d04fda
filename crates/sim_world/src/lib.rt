//! One world, stepped over the cores: a server that may start again, clients with their clocks, and the bag of every packet
//! that was ever made. A `World` stands for a world of the definitions (`Stands`), and each event of a schedule makes it
//! stand for what the definitions say of that event, or is refused where they say so. Its report and its summary are made in
//! `sim_report`.
#![tactic(auto)]

mod cause;
mod clocks;
mod fault;
mod giving;
mod joining;
mod report;
mod sending;
mod serving;
mod stepping;
mod wishing;
mod world;

pub use fault::StepFault;
pub use world::World;
