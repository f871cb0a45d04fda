//! What a ring of keys makes of packets and of binding calls, worked out: definitions of what a packet opens to and what a
//! binding call binds, as functions, and laws that this is what sealing and binding say of them. No code runs by it.
#![tactic(auto)]

mod below;
pub mod laws;
