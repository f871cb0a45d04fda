//! Records.

use octets::Octets;

/// What happened to a server. Its bytes are owned in a record that was read, and lent to one that is added.
#[derive(Debug, Drop)]
pub enum Event<B> {
    /// A packet came and was judged.
    Packet {
        /// Its bytes, sealed.
        packet: B,
    },
    /// Time went on.
    Tick,
    /// A session was attached to a connection.
    Attach {
        /// The identifier of its authorisation key.
        key: u64,
        /// Its session identifier.
        session: u64,
    },
    /// A run of a job began.
    Begin {
        /// Which of the ready jobs, from 0.
        job: u64,
    },
    /// The run before ended with this reply.
    Ran {
        /// The reply, at most 262,144 bytes and a multiple of 4.
        reply: B,
    },
    /// The run before was cut off.
    Interrupted,
}

/// A record of a journal.
#[derive(Debug, Drop)]
pub struct Record {
    /// The greatest moment so far, in seconds of Unix time, as it is written.
    pub moment: u64,
    /// The place of the draw before the event, in words.
    pub place: u64,
    /// What happened.
    pub event: Event<Octets>,
}
