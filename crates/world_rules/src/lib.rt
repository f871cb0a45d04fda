//! What a world of servers and clients is: definitions, which the simulator meets, and laws of them.
//!
//! A world has a server that may start again, clients, their clocks, and the bag of all packets that were ever made. A
//! schedule is a list of events (`step`, `run_of`), each told by the rules of a server and of a client; its report is a
//! text (`report`), and what holds over every schedule is `Once` and `InOrder`.
#![tactic(auto)]

pub mod laws;
