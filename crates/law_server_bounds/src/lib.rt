//! Laws on how much a server keeps after every list of events, on how much one event gives, and on the packets that it makes:
//! the numbers of what it says fit their places, and each may be sealed; on the sizes of what it keeps and says. `specs/` says
//! what that is.
#![tactic(auto)]

pub mod laws;
pub mod sizes;
