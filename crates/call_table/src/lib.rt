//! The calls of a client: their bodies, under which message identifiers they were sent, and what became of them; with
//! them the acknowledgements that wait and the packets that are remembered
//! (core.telegram.org/mtproto/service_messages_about_messages).
//!
//! Contracts stand on `Table`, which has every name that a call was ever sent under (`specs/Table.antt`); a `Calls`
//! keeps less, and stands for such a table (`specs/Kept.antt`).
#![tactic(auto)]

mod call;
mod calls;
mod groups;
pub mod laws;
mod names;
mod packet;
mod row;

pub use call::{CallNo, CallState, Cause, Fate, Flags, Group, Living, Under};
pub use calls::{ACKS_MAX, CALLS_MAX, Calls, PACKETS_MAX};
pub use row::Progress;
