//! What a session has so far of an event.

use crate::entries::Entries;
use server_output::OutgoingMessages;

/// What a session has so far of an event: the messages that it owes, and the answers that are recorded, in room that was
/// taken before.
#[derive(Debug, Drop)]
pub struct Turn {
    /// The messages that the session owes.
    pub owing: OutgoingMessages,
    /// The answers that the event records.
    pub entries: Entries,
}
