//! The clients of a simulated world with their clocks, over real clients (`client_core`): what each event does to the
//! list of them is what it does to the seats of a world (`world_rules`), which they stand for (`specs/Standing.antt`).
//! Clients are counted from 1, and there are at most 64.
#![tactic(auto)]

mod fault;
mod holding;
mod seat;
mod seats;
mod sent;

pub use fault::SeatFault;
pub use seats::Seats;
pub use sent::Sent;
