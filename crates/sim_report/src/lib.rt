//! The report and the summary of a world, over its server's side and its clients: where these stand for a world of the
//! definitions, each is that world's (`specs/Report.antt` of `world_rules`), put behind another text, which stays as it was
//! where memory runs out. The lines are those of `sim_text`.
#![tactic(auto)]

mod bag;
mod entries;
mod seated;
mod telling;

pub use telling::{report, summary};
