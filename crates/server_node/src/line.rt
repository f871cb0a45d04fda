//! A server's end of a connection.

ghost use Rattle.std.specs.Prelude.{IfErr, IfOk};
ghost use Rattle.server_node.specs.Coming.{Fed, Unfed};
ghost use Rattle.server_node.specs.Doing.{IsFeedEnd};
ghost use Rattle.server_node.specs.Writes.{end_in};

use crate::conn::ConnEnd;
use octets::Memory;
use std::alloc::Global;
use transport::{Framed, Raw, RawStep, Wire};

/// A server's end of a connection.
#[derive(Drop)]
pub(crate) enum Line {
    /// Its form isn't known yet.
    Raw(Wire<Raw>),
    /// Its form is known.
    Framed(Wire<Framed>),
}

/// What it becomes by a piece.
///
/// # Errors
///
/// `Start`: the first 64 bytes name no form. `Memory`.
pub(crate) fn feed(line: Line, alloc: Global, piece: &[u8]) -> Result<Line, ConnEnd>
    ensures fed { IfOk result (λ after. Fed line piece.now after) }
    ensures unfed { IfErr result (λ end. Unfed line piece.now end) }
    ensures ends { IsFeedEnd (end_in result) }
{
    match line {
        Line::Raw(wire) => match wire.feed(alloc, piece) {
            RawStep::Raw(wire) => Ok(Line::Raw(wire)),
            RawStep::Framed(wire) => Ok(Line::Framed(wire)),
            RawStep::Start { bytes: _ } => Err(ConnEnd::Start),
            RawStep::Memory(_) => Err(ConnEnd::Memory),
        },
        Line::Framed(wire) => {
            let mut wire = wire;
            match wire.feed(alloc, piece) {
                Ok(()) => Ok(Line::Framed(wire)),
                Err(Memory) => Err(ConnEnd::Memory),
            }
        }
    }
}
