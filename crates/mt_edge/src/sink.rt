//! What a program writes to.

ghost use Rattle.std.specs.Prelude.{◌≡◌, ◌<◌, ◌≤◌, ℕ, List, Option, length, IfSome, IsSomeAnd};
ghost use Rattle.mt_edge.specs.Put.{IsWithin, TakesOver, Counts};

/// The answer of a write.
#[derive(Clone, Copy, Debug, PartialEq, Eq)]
pub enum Put {
    /// The first `n` bytes of the piece are written: from 1 to its length.
    Took(usize),
    /// The write failed, and none of the piece is written.
    Failed,
}

/// A place that bytes go to, in order.
pub trait Sink {
    /// The bytes written, where the sink tells them.
    ghost written: { Self → Option (List ℕ) };

    /// How many writes have failed. It stays at 2^64 - 1 once it is there.
    ghost faults: { Self → ℕ };

    /// Writes from a piece that isn't empty.
    fn write(&mut self, piece: &[u8]) -> Put
        requires { 0 < length piece.now }
        ensures within { IsWithin result (length piece.now) }
        // Where the bytes written are told, the bytes taken from the piece's front stand behind them.
        ensures told { IfSome (written self.old) (λ before. IsSomeAnd (written self.new) (λ after. TakesOver result piece.now before after)) }
        ensures never_falls { faults self.old ≤ faults self.new }
        // A failed write raises the count by one, or leaves it at its last value. Any other leaves it as it was.
        ensures counted { Counts result (faults self.old) (faults self.new) };
}
