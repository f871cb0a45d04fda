//! How a connection ended.

ghost use Rattle.std.specs.Prelude.{◌≡◌, ◌≢◌, false, true};
ghost use Rattle.client_node.specs.Ends.{batch_by};

use crate::plan::Batch;

/// What ended a connection, for the client.
#[derive(Clone, Copy, PartialEq, Eq)]
pub(crate) enum End {
    /// Each call is decided.
    Decided,
    /// The connection is lost, and a call isn't decided.
    Lost,
    /// It gave as many pieces as one connection gives, and a call isn't decided.
    TurnsSpent,
    /// There may be no further numbers for what is to be sent.
    Spent,
    /// Memory ran out.
    Memory,
}

/// Whether the connection is lost.
pub(crate) fn is_lost(end: End) -> bool
    ensures lost { result ≡ true → end ≡ End.Lost }
    ensures other { result ≡ false → end ≢ End.Lost }
{
    end == End::Lost
}

/// How the batch ends by it, where it goes no further.
pub(crate) fn batch_of(end: End) -> Batch
    ensures { result ≡ batch_by end }
{
    match end {
        End::Decided => Batch::Decided,
        End::Lost => Batch::LinkLost,
        End::TurnsSpent => Batch::TurnsSpent,
        End::Spent => Batch::Spent,
        End::Memory => Batch::Memory,
    }
}
