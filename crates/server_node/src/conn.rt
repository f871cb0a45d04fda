//! A connection that a server took, and how it ends.

use mt_edge::Link;
use server_core::DeskFault;
use std::marker::Model;
use transport::FrameFault;

/// A connection that a server took, and has neither read from nor written to, nor closed. Contracts see its link.
#[derive(Debug, Drop)]
pub struct Conn<L> {
    pub(crate) link: L,
}

impl<L> Model for Conn<L> {
    ghost Value = { L };

    ghost coded = { L.code };

    ghost view = { λ conn. conn.link };
}

impl<L: Link> Conn<L> {
    ghost use Rattle.std.specs.Prelude.{◌≡◌, false};

    /// The connection of this link, which is open. Takes no memory.
    pub fn new(link: L) -> Conn<L>
        requires open { (L.standing link).closed ≡ false }
        ensures { result ≡ link }
    {
        Conn { link }
    }
}

/// How a connection to a server ended.
#[derive(Clone, Copy, Debug, PartialEq, Eq)]
pub enum ConnEnd {
    /// A read came to the end.
    Ended,
    /// A call of the link failed.
    LinkFault,
    /// What came is no stream of frames.
    Frame(FrameFault),
    /// The first 64 bytes name no form.
    Start,
    /// As many pieces were read as one connection gives.
    TurnsSpent,
    /// As many packets were answered as there were left.
    Stopped,
    /// The desk came to a fault that isn't `Memory`.
    Journal(DeskFault),
    /// Memory ran out.
    Memory,
}
