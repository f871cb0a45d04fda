//! One session within an event, with all that it may change beside itself.

use crate::bindings::Bindings;
use crate::turn::Turn;
use server_session::SessionState;
use waits::Jobs;

/// One session within an event, with what it has so far of it, and with the jobs and the bindings of its server: what a
/// speaker of the definitions has.
#[derive(Debug, Drop)]
pub struct Speaking {
    /// What the session has so far of the event.
    pub turn: Turn,
    /// The session.
    pub standing: SessionState,
    /// The unfinished jobs of all sessions.
    pub jobs: Jobs,
    /// The bindings of all temporary keys.
    pub bindings: Bindings,
}
