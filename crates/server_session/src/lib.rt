//! One session of a server as it is kept, and what it says within an event, in room that was taken before
//! (core.telegram.org/mtproto/description, "Session"; core.telegram.org/mtproto/service_messages). A `SessionState` stands for a
//! session of the definitions (`Stands`); what it judges, tells and says, that one does (`Says`). Only `new`, `judges` and
//! `reserve` take memory.
#![tactic(auto)]

mod calling;
mod contents;
mod dropping;
pub mod laws;
mod marking;
mod naming;
mod outlook;
mod repeating;
mod replying;
mod resending;
mod session;
mod telling;

pub use calling::Called;
pub use dropping::DroppedReply;
pub use outlook::Outlook;
pub use session::SessionState;
