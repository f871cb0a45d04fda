//! What becomes of a client by a packet.

use crate::ended::EndedClient;
use crate::open::OpenClient;
use crate::opening::OpeningClient;

/// What becomes of an opening client by a packet.
#[derive(Debug, Drop)]
pub enum OpeningStep {
    /// It has still learnt nothing of its session.
    Still(OpeningClient),
    /// It learnt the first unique number of its session.
    Opened(OpenClient),
    /// Memory ran out, and this is the client as it was.
    Memory(OpeningClient),
}

/// What becomes of an open client by a packet.
#[derive(Debug, Drop)]
pub enum OpenStep {
    /// It is still open.
    Still(OpenClient),
    /// It ended, by one unique number too many.
    Ended(EndedClient),
    /// Memory ran out, and this is the client as it was.
    Memory(OpenClient),
}
