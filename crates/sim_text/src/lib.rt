//! The report and the summary of a world as text: a line for each call, for each entry and for all packets, and why a call
//! isn't taken. Each function puts its text behind another one, and leaves that as it was where memory runs out. The texts
//! are those of `world_rules` (its `specs/Report.antt`).
#![tactic(auto)]

mod call;
mod client;
mod clients;
mod entry;
mod fault;
pub mod laws;
mod number;
mod reply;
mod summary;
mod wire;

pub use call::{call_line, state_text};
pub use clients::{Clients, lines_of_clients};
pub use entry::{EntryLine, entry_line};
pub use fault::submit_cause;
pub use reply::reply_text;
pub use summary::{Counts, Summary, summary_line};
pub use wire::{Wire, wire_bytes, wire_line};
