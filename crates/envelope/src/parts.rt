//! What is sealed, and what a packet opens to.

use crate::refusal::Refusal;
use octets::Octets;

/// Which way a packet goes. Each way has message keys and AES keys of its own.
#[derive(Clone, Copy, Debug, PartialEq, Eq)]
pub enum Dir {
    /// From the client to the server.
    Up,
    /// From the server to the client.
    Down,
}

/// A message in its envelope (core.telegram.org/mtproto/description, "Encrypted Message").
#[derive(Clone, Debug, Drop)]
pub struct Envelope {
    /// The identifier of the authorisation key.
    pub key: u64,
    /// The server's salt.
    pub salt: u64,
    /// The session's identifier.
    pub session: u64,
    /// The message's identifier.
    pub number: u64,
    /// The message's sequence number.
    pub seq: u32,
    /// The message's body, whole words of 4 bytes.
    pub body: Octets,
}

/// What an envelope has beside the body.
#[derive(Clone, Copy, Debug, PartialEq, Eq)]
pub struct Head {
    /// The identifier of the authorisation key.
    pub key: u64,
    /// The server's salt.
    pub salt: u64,
    /// The session's identifier.
    pub session: u64,
    /// The message's identifier.
    pub number: u64,
    /// The message's sequence number.
    pub seq: u32,
}

/// What a packet opens to.
#[derive(Debug, Drop)]
pub enum Opened {
    /// The one envelope.
    Envelope(Envelope),
    /// The packet doesn't open, for this cause.
    Refused(Refusal),
    /// Memory ran out.
    Memory,
}
