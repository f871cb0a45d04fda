//! The replies that a server session keeps until they are acknowledged
//! (core.telegram.org/mtproto/service_messages_about_messages), in order of making: at most 4,096, of at most 4,194,304
//! bytes together, which are limits of this project. Contracts see an `Outbox` as the list of its replies and the room
//! that is reserved for more; `specs/Replies.antt` says what each call does to that list.
#![tactic(auto)]

mod body;
mod kept;
pub mod laws;
mod outbox;
mod rows;

pub use body::{Body, HEAD_BYTES, SHORT_BYTES};
pub use bytes::Bytes;
pub use kept::Kept;
pub use outbox::{KEPT_BYTES_MAX, Outbox};
pub use rows::KEPT_REPLIES_MAX;
