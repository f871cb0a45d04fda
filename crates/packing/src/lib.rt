//! How a server numbers its messages and puts them into packets (core.telegram.org/mtproto/description, "Message
//! Identifier"; core.telegram.org/mtproto/service_messages, "Containers"). `number` numbers an item, `front` tells how
//! many messages go into the next packet, `pack` puts these into one, and `packets` does it for all. Contracts stand on
//! `numbered` of `specs/Numbering.antt` and `groups` and `packets_of` of `specs/Packing.antt`.
#![tactic(auto)]

pub mod laws;
mod numbering;
mod packing;

pub use containers::Part;
pub use numbering::{OTHER_ADDITION, RESPONSE_ADDITION, number};
pub use packing::{front, pack, packed_size, packets};
