//! How large a container and its parts are.

/// The most messages in a container.
pub const CONTAINER_MESSAGES_MAX: usize = 1_020;

/// The most bytes in the body of a container that is put together.
pub const CONTAINER_BYTES_MAX: usize = 1_044_480;

/// The bytes of a container's constructor and count, which stand before the messages.
pub const CONTAINER_HEAD_BYTES: usize = 8;

/// The bytes of an inner message's number, seq and length, which stand before its body.
pub const MESSAGE_HEAD_BYTES: usize = 16;

/// The bytes of a word; an inner body has whole ones.
pub(crate) const WORD_BYTES: usize = 4;

/// Where the count stands in a container's body, behind the constructor.
pub(crate) const COUNT_AT: usize = 4;

/// Where the seq stands in an inner message's head, behind the number.
pub(crate) const SEQ_AT: usize = 8;

/// Where the body's length stands in an inner message's head, behind the seq.
pub(crate) const LENGTH_AT: usize = 12;
