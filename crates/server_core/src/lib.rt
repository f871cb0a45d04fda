//! A server of sessions (core.telegram.org/mtproto/description, core.telegram.org/mtproto/service_messages). A `Server` keeps
//! what its events need of its sessions, their unfinished jobs and the bindings of temporary keys. It stands for a server of
//! the definitions that is between events (`StandsFor`), and each event makes it stand for what the definitions say of that event.
#![tactic(auto)]

mod among_others;
mod attaching;
mod desk;
mod desks;
mod destroying;
mod effects;
mod failures;
mod hearing;
pub mod laws;
mod leaving;
mod losing;
pub mod order_laws;
mod others;
mod outgoing;
mod packet_answers;
mod packets;
mod plain;
mod reserving;
mod room;
mod server;
mod session_name;
mod sessions;
mod settling;
mod settling_all;
mod speech;
pub mod tick_laws;
mod tick_turns;
mod ticking;
mod work;
mod working;

pub use desk::{DeskFault, Heard, Reply};
pub use desks::Desk;
pub use effects::Effects;
pub use plain::Plain;
pub use server::Server;
pub use session_name::SessionName;
pub use sessions::Sessions;
