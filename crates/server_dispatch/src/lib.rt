//! What a server owes for each judgement, over one session within an event, in room that was taken before
//! (core.telegram.org/mtproto/service_messages, core.telegram.org/mtproto/service_messages_about_messages). A `Turn` is what
//! a session has so far of an event; with the session, the jobs and the bindings it is a `Speaking`, which stands for a
//! speaker of the definitions (`Speaks`). `opens` is what is owed first to a packet, `owes` is a row of their table, and
//! `finishes` and `gives_up` are what a job that was taken out owes. A `Short` is an answer that is the same text each time,
//! in place of a run.
#![tactic(auto)]

mod action;
mod answering;
mod bindings;
mod calls;
mod dropping;
mod dues;
mod entries;
mod opening;
mod owes;
mod repeating;
mod saying;
mod short;
mod speaking;
mod turn;
mod waiting;

pub use action::{Action, Answering, Asked, NOTICE_BYTES, Telling};
pub use bindings::Bindings;
pub use calls::{Awaited, CallDue};
pub use dues::{Due, dues_of};
pub use entries::{Entries, Entry};
pub use opening::acks_in;
pub use short::Short;
pub use speaking::Speaking;
pub use turn::Turn;
pub use waiting::Run;
