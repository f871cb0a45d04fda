//! One direction of a connection.

ghost use Rattle.std.specs.Prelude.{◌≡◌, length, None};
ghost use Rattle.transport.specs.Directions.{through, behind};

use cipher_modes::Ctr;
use framing::Passage;
use std::marker::Model;

/// One direction of a connection, with its key stream where it is obfuscated. Contracts see that stream.
#[derive(Debug, Drop)]
pub(crate) struct Direction {
    stream: Option<Ctr>,
}

impl Model for Direction {
    ghost use Rattle.std.specs.Prelude.{Option};
    ghost use Rattle.cipher_modes.specs.CounterMode.{CtrState};

    ghost Value = { Option CtrState };

    ghost view = { λ direction. direction.stream };
}

impl Direction {
    /// One of these bytes, as they come.
    pub(crate) fn new(stream: Option<Ctr>) -> Direction
        ensures { result ≡ stream }
    {
        Direction { stream }
    }
}

impl Passage for Direction {
    ghost behind = { λ direction text. (through direction text, behind direction (length text)) };

    fn pass(&mut self, text: &mut [u8]) {
        if let Some(stream) = &mut self.stream {
            stream.apply(text);
        }
    }
}
