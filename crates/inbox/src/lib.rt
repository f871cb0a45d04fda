//! Judging what comes in: each message of a server session, and each message inside a container, is accepted, came
//! again, or is refused with a notice (core.telegram.org/mtproto/service_messages_about_messages). An `Inbox` remembers
//! the numbers that were judged with their marks. It judges a `Received`, a message whose frame was checked. Contracts
//! stand on `judge` and `judgements` of `specs/Judging.antt` and on `Stands` of `specs/Inbox.antt`, between an inbox and
//! the history that it comes from.
#![tactic(auto)]

mod draft;
mod inbox;
mod judged;
mod kind;
pub mod laws;
mod outer;
mod received;
mod refusal;
mod settling;

pub use id_window::Mark;
pub use inbox::Inbox;
pub use judged::{Judged, Judgement, Verdict};
pub use outer::Outer;
pub use received::Received;
