//! What an envelope brings.

use octets::Octets;

/// A message as its envelope brings it.
#[derive(Debug, Drop)]
pub struct Outer {
    /// Its number.
    pub number: u64,
    /// Its sequence number.
    pub seq: u32,
    /// The salt under which it was sent.
    pub salt: u64,
    /// Its body.
    pub body: Octets,
}
