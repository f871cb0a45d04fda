//! What the events of a server are to the law on moves.
//!
//! A server of the definitions stands in a world of that law (`ServerStands`), and what it does in its events is a list of
//! lawful moves, after which the server behind the event stands there.
#![tactic(auto)]

pub mod laws;
