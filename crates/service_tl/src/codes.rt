//! The codes of the notices `bad_msg_notification` and `bad_server_salt`
//! (core.telegram.org/mtproto/service_messages_about_messages, "Notice of Ignored Error Message").
//! `laws::codes_are_the_standards` ties them to the codes that the definitions have.

/// The message identifier is too low: most likely, the client's time is wrong.
pub const NUMBER_TOO_LOW: u32 = 16;

/// The message identifier is too high: most likely, the client's time is wrong.
pub const NUMBER_TOO_HIGH: u32 = 17;

/// The message identifier's two lowest bits aren't 0: it is no multiple of 4.
pub const NUMBER_NOT_FOURFOLD: u32 = 18;

/// A container has the message identifier of a message that came before.
pub const CONTAINER_NUMBER_TAKEN: u32 = 19;

/// The message is too old to say whether one with its identifier came before.
pub const FORGOTTEN: u32 = 20;

/// The sequence number is too low.
pub const SEQ_TOO_LOW: u32 = 32;

/// The sequence number is too high.
pub const SEQ_TOO_HIGH: u32 = 33;

/// An even sequence number was expected: the message isn't content-related.
pub const EVEN_SEQ_EXPECTED: u32 = 34;

/// An odd sequence number was expected: the message is content-related.
pub const ODD_SEQ_EXPECTED: u32 = 35;

/// The server salt isn't valid.
pub const WRONG_SALT: u32 = 48;

/// The container isn't lawful.
pub const INVALID_CONTAINER: u32 = 64;
