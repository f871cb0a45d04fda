//! Laws of a server and its clients over connections, between which a net may lose, repeat, reorder, cut, mix and invent.
//!
//! A joint run (`specs/Joint.antt`) is a list of steps in any order, each an event of the server's node or of a client's, each
//! end with words and moments of its own; the server may start again between any two. In each, calls execute at most once.
#![tactic(auto)]

pub mod laws;
