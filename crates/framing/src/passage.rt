//! What the bytes of a stream go through.

ghost use Rattle.std.specs.Prelude.{◌≡◌, ℕ, List};

/// What the bytes of a stream go through on their way into its buffer, as a cipher. It can't fail.
pub trait Passage {
    /// What a text is behind it, and the passage after that text.
    ghost behind: { Self → List ℕ → List ℕ × Self };

    /// Changes a text in place.
    fn pass(&mut self, text: &mut [u8])
        ensures passed { text.new ≡ (behind self.old text.old).0 }
        ensures after { self.new ≡ (behind self.old text.old).1 };
}
