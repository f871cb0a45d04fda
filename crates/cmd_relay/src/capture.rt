//! Captures as text: one piece a line.

ghost use Rattle.std.specs.Prelude.{◌≡◌, ◌<◌, ◌^◌, ◌∷◌, ◌++◌, [], length, IfOk, IfErr, OnOk};
ghost use Rattle.cmd_relay.specs.Captures.{Spells};
ghost use Rattle.cmd_relay.specs.Inner.{IsFaultOf};

use crate::line::piece_of;
use octets::{Memory, Octets};
use sched_text::Lines;
use std::alloc::Global;
use std::fmt;
use std::marker::Model;

/// The way that a piece of a connection goes.
#[derive(Clone, Copy, Debug, PartialEq, Eq)]
pub enum Way {
    /// To the server.
    Up,
    /// To the client.
    Down,
}

/// A piece of a connection, as one side has sent it, and the number of its line, from 1.
#[derive(Drop)]
pub struct Piece {
    /// The way that it goes.
    pub way: Way,
    /// Its bytes.
    pub bytes: Octets,
    /// The number of its line.
    pub line: u32,
}

impl fmt::Debug for Piece {
    /// The way, the line and how many bytes it has: they are what one side has sent.
    fn fmt<W: fmt::Write>(&self, f: &mut fmt::Formatter<W>) -> fmt::Result {
        f.debug_struct("Piece")
            .field("way", &self.way)
            .field("line", &self.line)
            .field("count", &self.bytes.as_slice().len())
            .finish_non_exhaustive()
    }
}

/// Why a text is no capture.
#[derive(Clone, Copy)]
pub(crate) enum CaptureFault {
    /// The first line that is outside the grammar.
    BadLine { line: u32 },
    /// Memory ran out.
    Memory,
}

impl From<Memory> for CaptureFault {
    ghost use Rattle.std.specs.Prelude.{◌≡◌};
    ghost use Rattle.cmd_relay.specs.declared.capture.CaptureFault.TheVariants.{Memory};

    ghost from_gives = { λ _ fault. fault ≡ Memory };

    fn from(_memory: Memory) -> CaptureFault {
        CaptureFault::Memory
    }
}

/// Reads the pieces of a capture of fewer than 2^32 bytes.
///
/// # Errors
///
/// `BadLine` with the first line that is outside the grammar. `Memory`.
pub(crate) fn read_capture(alloc: Global, text: &[u8]) -> Result<Vec<Piece>, CaptureFault>
    requires { length text.now < 2 ^ 32 }
    ensures pieces { IfOk result (λ pieces. Spells text.now pieces.items) }
    ensures bad_line { IfErr result (IsFaultOf text.now) }
{
    let mut lines = Lines::new(text);
    let mut pieces = Vec::new(alloc);
    while let Some((line, words)) = lines.next() {
        let Some(said) = piece_of(alloc, words)? else {
            return Err(CaptureFault::BadLine { line });
        };
        let (way, bytes) = said;
        append(&mut pieces, Piece { way, bytes, line })?;
    }
    Ok(pieces)
}

// Puts a piece at the end.
fn append(pieces: &mut Vec<Piece>, last: Piece) -> Result<(), Memory>
    ensures { OnOk result (pieces.new.items ≡ pieces.old.items ++ last ∷ []) }
{
    pieces.push(last)?;
    Ok(())
}
