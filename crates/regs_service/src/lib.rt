//! Services, whose replies are a function of their state and of the request, and one of them: `Regs`,
//! named sums. `specs/Served.antt` says what the replies of any service are, one request after the other;
//! `specs/Registers.antt` what those of the registers are.
#![tactic(auto)]

pub mod laws;
mod registers;
mod reply;
mod request;
mod service;

pub use octets::Octets;
pub use registers::{NAMES_MAX, Regs};
pub use reply::VALUE;
pub use request::{ADD, GET, NAME_BYTES_MAX, is_register_name};
pub use service::{NoMemory, REPLY_BYTES_MAX, Service};
