//! The law on the moves of a session's two ends, over definitions alone.
//!
//! A client and a server that keep MTProto sessions act by ten moves: a client acts by itself, sends and hears; a
//! server session is made, draws a salt, judges a message, forgets a number, answers a call, speaks and is lost. In
//! every list of these moves, packets lost, repeated and put out of order as they may be, each call is executed at
//! most once and reported as it was (MTProto: "Service Messages", "Service Messages about Messages"). No function here
//! does anything when it runs: each is a law, and its contract says it.
#![tactic(auto)]

pub mod laws;
