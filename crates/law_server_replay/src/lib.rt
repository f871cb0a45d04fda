//! What playing the events of a server once more rests on: laws over the definitions of a server. No code runs by it.
#![tactic(auto)]

pub mod laws;
