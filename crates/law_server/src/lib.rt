//! Laws of a server, over every list of events and the definitions alone: what its sessions, replies and jobs always are to
//! each other, and what one row leaves of that. `specs/Order.antt` says what holds between events, and within one.
//!
//! A session has a life (`specs/Lives.antt`): its calls are run or answered once, and while it has accepted nothing its packets
//! say that it is new. `specs/Drawing.antt` says what it draws.
#![tactic(auto)]

pub mod laws;
pub mod lives;
