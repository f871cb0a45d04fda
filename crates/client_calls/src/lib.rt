//! What becomes of a client's calls: by an answer, by what a server tells of messages, where a connection is opened, and of
//! all of them at once where a session is lost, left or ended. Each function changes the table for which the calls stand as
//! `specs/` says, and keeps them sound (`specs/Sound.antt`), so that each can be sent. That these changes are the steps of
//! the definition in `client_rules` is shown where a client makes them, in `client_core`.
#![tactic(auto)]

mod answering;
pub mod laws;
mod marking;
mod settling;

pub use answering::answer_call;
pub use marking::{mark_inner, mark_numbers, mark_sent, mark_states};
pub use settling::{Rule, settle_all};
