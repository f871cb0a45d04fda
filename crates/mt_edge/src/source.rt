//! What a program reads from.

ghost use Rattle.std.specs.Prelude.{◌≡◌, ◌<◌, ◌≤◌, ◌++◌, ◌∷◌, [], ℕ, List, Option, None, length, IfSome, IsSomeAnd};
ghost use Rattle.mt_edge.specs.Got.{IsWithin, HandsOver, Counts};

/// The answer of a read.
#[derive(Clone, Copy, Debug, PartialEq, Eq)]
pub enum Got {
    /// `n` bytes stand at the front of the buffer: from 1 to its length.
    Bytes(usize),
    /// Nothing is left.
    End,
    /// The read failed. What is left stays as it was.
    Failed,
}

/// A place that bytes come from, in order.
pub trait Source {
    ghost use Rattle.mt_edge.specs.declared.source.Got.{Got};

    /// The bytes left, where the source tells them.
    ghost left: { Self → Option (List ℕ) };

    /// The answers of its reads in order, where the source tells them. What it tells now, it told before each read.
    ghost reads: { Self → Option (List Got) } = { λ _. None };

    /// How many reads have failed. It stays at 2^64 - 1 once it is there.
    ghost faults: { Self → ℕ };

    /// Reads into a buffer that isn't empty.
    fn read(&mut self, into: &mut [u8]) -> Got
        requires { 0 < length into.old }
        ensures within { IsWithin result (length into.new) }
        // Where the bytes left are told, the read hands over the next of them, and answers `End` only after the last.
        ensures told { IfSome (left self.old) (λ before. IsSomeAnd (left self.new) (λ after. HandsOver result into.new before after)) }
        ensures noted { IfSome (reads self.new) (λ after. IsSomeAnd (reads self.old) (λ before. after ≡ before ++ result ∷ [])) }
        ensures never_falls { faults self.old ≤ faults self.new }
        // A failed read raises the count by one, or leaves it at its last value. Any other leaves it as it was.
        ensures counted { Counts result (faults self.old) (faults self.new) };
}
