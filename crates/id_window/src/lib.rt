//! What a server session remembers of the message identifiers that it judged: the greatest 16,384 of them with their
//! marks, the sequence numbers of those that were accepted, and the greatest one that it has forgotten
//! (core.telegram.org/mtproto/service_messages_about_messages). Contracts stand on `Stands` of `specs/Window.antt`,
//! between a window and the history that it comes from.
#![tactic(auto)]

mod cross;
pub mod laws;
mod mark;
mod neighbours;
mod rows;
mod window;

pub use cross::Cross;
pub use mark::Mark;
pub use rows::WINDOW_NUMBERS;
pub use window::Window;
