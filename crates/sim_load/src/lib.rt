//! The large schedule: many calls of one client, each settled, with restarts of the server and packets that come again. `load`
//! steps a fresh `World` of `sim_world` through it, and the world that it gives back stands for what the definitions make of
//! as many calls (`specs/Load.antt` of `world_rules`).
#![tactic(auto)]

mod given;
mod loading;

pub use loading::load;
