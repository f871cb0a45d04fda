//! What an event of one session owes, and its packets, in room that was taken before
//! (core.telegram.org/mtproto/description, core.telegram.org/mtproto/service_messages). An `OutgoingMessages` is the list of
//! messages that a session owes so far; `say` numbers what a server says, an `Outgoing`, and puts it behind the others. A
//! `Packets` has the room for all packets of such a list; a `Delivery` is a list with that room, and `send` seals its packets and
//! puts them into an `Outs`. Only `new` takes memory.
#![tactic(auto)]

pub mod laws;
mod outs;
mod owing;
mod packets;
mod said;

pub use outs::{Header, Out, Outs};
pub use owing::OutgoingMessages;
pub use packets::{Delivery, Packets, packets_most};
pub use said::Outgoing;
