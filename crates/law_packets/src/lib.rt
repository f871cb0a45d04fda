//! The law that each packet of a world may be sealed, over every schedule: each event of an end leaves that end such that each
//! packet that it makes is lawful. `specs/Lawful.antt` says what that is. What goes into packets from elsewhere is bytes: binding
//! messages, and the bodies of calls that a text spells; words that are drawn have 64 bits.
#![tactic(auto)]

pub mod bytes;
pub mod client_laws;
pub mod laws;
