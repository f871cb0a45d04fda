//! A packet that a client sends.

use octets::Octets;

/// A packet that a client sends: the number of its session, and its bytes as they are sealed.
#[derive(Debug, Drop)]
pub struct Sent {
    /// The session number in its envelope.
    pub session: u64,
    /// Its bytes.
    pub bytes: Octets,
}
