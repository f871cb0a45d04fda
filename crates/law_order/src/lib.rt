//! Laws over every schedule of a world of servers and clients: the order of calls, and numbers. `specs/Keeping.antt` says what
//! is kept of the order. `specs/Numbers.antt` says that no client gives one number to two messages under one session number,
//! and that no server session says notice 19.
#![tactic(auto)]

pub mod client_laws;
pub mod client_numbers;
pub mod laws;
pub mod notices;
pub mod numbers;
pub mod server_laws;
