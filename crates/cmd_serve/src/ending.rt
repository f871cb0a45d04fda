//! How the connections of a run end.

ghost use Rattle.std.specs.Prelude.{◌≡◌};
ghost use Rattle.cmd_serve.specs.Inner.{broken_by, ending_by};

use server_core::DeskFault;
use server_node::ConnEnd;

/// How the connections of a run end.
#[derive(Clone, Copy)]
pub(crate) enum Ending {
    /// As many were served as there should be.
    Served,
    /// As many packets were answered as there were to answer.
    Stopped,
    /// No further one could be taken.
    NotTaken,
    /// A call of the journal's disk failed.
    Journal,
    /// The journal has no room for what is to be recorded.
    Full,
    /// Memory ran out.
    Memory,
}

/// How the connections end by a fault of the desk.
fn broken_of(fault: DeskFault) -> Ending
    ensures { result ≡ broken_by fault }
{
    match fault {
        DeskFault::Full { .. } => Ending::Full,
        DeskFault::Disk | DeskFault::Closed | DeskFault::Memory => Ending::Journal,
    }
}

/// How the connections end by the end of one, or by none where it couldn't be taken; `None` where the next one follows.
pub(crate) fn ending_of(end: Option<ConnEnd>) -> Option<Ending>
    ensures { result ≡ ending_by end }
{
    match end {
        None => Some(Ending::NotTaken),
        Some(ConnEnd::Stopped) => Some(Ending::Stopped),
        Some(ConnEnd::Journal(fault)) => Some(broken_of(fault)),
        Some(ConnEnd::Memory) => Some(Ending::Memory),
        Some(_) => None,
    }
}
