//! How a message's sequence number agrees with those of the accepted messages around it.

/// Whether a message crosses accepted ones: sequence numbers never fall as the message identifiers rise, and no two
/// messages share an odd one (core.telegram.org/mtproto/service_messages_about_messages, codes 32 and 33).
#[derive(Clone, Copy, Debug, PartialEq, Eq)]
pub enum Cross {
    /// It crosses none.
    None,
    /// Its sequence number is too low: an accepted message of a lower identifier has a greater one, or the same odd one.
    Low,
    /// Its sequence number is too high: an accepted message of a greater identifier has a lower one, or the same odd one.
    High,
}
