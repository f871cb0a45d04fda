//! Laws of runs of `serve`, and of `call` and `pair`, that are together one joint run: what their clauses tell of each, and how the calls of
//! such runs execute.
//!
//! The trace of a run is a list of events of its end (`specs/Acts.antt`, `specs/Deeds.antt`); runs are joint where some list of steps
//! has these as its parts (`AreJoint`).
#![tactic(auto)]

pub mod laws;
