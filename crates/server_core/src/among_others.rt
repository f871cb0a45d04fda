//! The session that speaks in a packet's event, among the other sessions of its server.

use crate::others::Others;
use server_dispatch::Speaking;

/// The session that speaks in a packet's event, and the other sessions of its server.
#[derive(Drop)]
pub(crate) struct AmongOthers {
    /// The others.
    pub(crate) others: Others,
    /// The session that speaks.
    pub(crate) speaking: Speaking,
}
