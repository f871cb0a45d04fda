//! A client of one server session after another: what it submits, sends and learns, without sockets and clocks
//! (core.telegram.org/mtproto/description). An `OpeningClient` has learnt nothing of a session, an `OpenClient` has. What
//! each call does is the step of the definition in `client_rules`, on the client that the value stands for
//! (`specs/Kept.antt`).
#![tactic(auto)]

mod asking;
mod binding;
mod brought;
mod calling;
mod core_client;
mod due;
mod ended;
mod events;
mod fault;
mod filling;
mod flush;
mod flushing;
mod giving_up;
mod holder;
mod learning;
mod lone;
mod moving;
mod noticing;
mod number_list;
mod on_packet;
mod open;
mod opening;
mod owed;
mod rebinding;
mod receiving;
mod renewing;
mod saying;
mod says;
mod sealing;
mod sending_alone;
mod step;
mod taking;
mod turns;
mod waiting;

pub use binding::BindState;
pub use call_table::{CallNo, CallState, Cause};
pub use ended::EndedClient;
pub use fault::{NotSent, SubmitFault};
pub use flush::Flush;
pub use holder::Holder;
pub use moving::Wish;
pub use open::OpenClient;
pub use opening::OpeningClient;
pub use step::{OpenStep, OpeningStep};
