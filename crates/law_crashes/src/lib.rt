//! Laws of a server that keeps a journal, and its clients, over every schedule with crashes.
//!
//! A schedule (`specs/Crashes.antt`) is a list of steps in any order: a client does something, a call of the server is answered,
//! or a crash cuts the server off, inside a call too, and it is opened again from the records that its journal has
//! (`specs/Records.antt`). In each, calls execute at most once.
#![tactic(auto)]

pub mod laws;
