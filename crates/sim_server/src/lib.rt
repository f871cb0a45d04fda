//! The server's side of a world: a server that may start again, with its service and its clock, and what was made so far, the
//! packets and the entries. A `Host` stands for that side of a world of the definitions (`Stands`), and each event of the
//! server makes it stand for what the definitions say of that event.
#![tactic(auto)]

mod bag;
mod hearing;
mod host;
mod past;
mod register;

pub use bag::{Bag, Packet};
pub use host::Host;
pub use register::{Recorded, Register};
