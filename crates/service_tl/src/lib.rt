//! The service items of MTProto as bytes, both ways (core.telegram.org/mtproto/service_messages,
//! core.telegram.org/mtproto/service_messages_about_messages). A body is what `item_of` of its bytes
//! says, an item is written as `spelling_of` says, and what was written is read again.
#![tactic(auto)]

pub mod codes;
mod fields;
mod item;
pub mod laws;
mod lists;
mod numbers;
mod parsing;
mod parts;
mod reading;
mod results;
mod writing;

pub use item::Item;
pub use lists::{FutureSalt, FutureSaltList, Message, Messages};
pub use numbers::{
    AUTH_BIND_TEMP_AUTH_KEY, BAD_MSG_NOTIFICATION, BAD_SERVER_SALT, DESTROY_SESSION,
    DESTROY_SESSION_NONE, DESTROY_SESSION_OK, FUTURE_SALTS, GET_FUTURE_SALTS, GZIP_PACKED,
    INVOKE_AFTER_MSG, INVOKE_AFTER_MSGS, MSG_CONTAINER, MSG_DETAILED_INFO, MSG_NEW_DETAILED_INFO,
    MSG_RESEND_REQ, MSGS_ACK, MSGS_ALL_INFO, MSGS_STATE_INFO, MSGS_STATE_REQ, NEW_SESSION_CREATED,
    PING, PING_DELAY_DISCONNECT, PONG, RPC_ANSWER_DROPPED, RPC_ANSWER_DROPPED_RUNNING,
    RPC_ANSWER_UNKNOWN, RPC_DROP_ANSWER, RPC_ERROR, RPC_RESULT,
};
pub use parsing::{is_service, parse};
pub use results::{constructor_of, is_good};
pub use writing::write;
