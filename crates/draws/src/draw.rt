//! What gives words.

ghost use Rattle.std.specs.Prelude.{◌≡◌, ◌+◌, ◌%◌, ◌^◌, ◌<◌, ℕ, List, length};
ghost use Rattle.draws.specs.Draws.{draw_after, words_for, next_bytes};

/// The bytes of a word.
const WORD_BYTES: usize = 8;

/// What gives words of 64 bits, one after another. It can't fail.
pub trait Draw {
    /// The next word, and the draw after it. So the words given from one moment to a later one, in order, are the next
    /// words of the draw at the first, and the draw at the later one is that after these words.
    ghost step: { Self → ℕ × Self };

    /// The next word.
    fn word(&mut self) -> u64
        ensures word { result ≡ (step self.old).0 }
        ensures after { self.new ≡ (step self.old).1 };
}

/// A draw that is made from a seed and a place. What it gives is a function of these two.
pub trait Seeded: Draw + Sized {
    /// The word of a seed at a place, from 0.
    ghost word_of: { List ℕ → ℕ → ℕ };

    /// The draw of a seed that stands at a place.
    ghost standing_at: { List ℕ → ℕ → Self };

    /// The place of a draw.
    ghost place_of: { Self → ℕ };

    /// The draw of this seed after `place` words.
    fn at(seed: &[u8; 32], place: u64) -> Self
        ensures standing { result ≡ standing_at seed.now place }
        ensures place { place_of result ≡ place };

    /// How many words of its seed come before its next word, modulo 2^64.
    fn place(&self) -> u64
        ensures { result ≡ place_of self.now };

    /// One step from a place below 2^64 gives the seed's word of that place, and the draw then stands at the next place,
    /// modulo 2^64.
    ghost steps: { (seed : List ℕ) (place : ℕ) → place < 2 ^ 64
        → Self.step (standing_at seed place) ≡ (word_of seed place, standing_at seed ((place + 1) % 2 ^ 64)) };

    /// A draw that stands at a place below 2^64 tells that place.
    ghost places: { (seed : List ℕ) (place : ℕ) → place < 2 ^ 64 → place_of (standing_at seed place) ≡ place };
}

/// Fills the buffer with the bytes of the next words, the least byte of each first. The last word is cut where the
/// buffer ends.
pub fn draw_bytes<D: Draw>(draw: &mut D, into: &mut [u8])
    ensures bytes { into.new ≡ next_bytes D.step (length into.old) draw.old }
    ensures after { draw.new ≡ draw_after D.step (words_for (length into.old)) draw.old }
{
    let words = into.len().div_ceil(WORD_BYTES);
    for k in 0..words {
        let bytes = draw.word().to_le_bytes();
        let start = k * WORD_BYTES;
        let count = (into.len() - start).min(WORD_BYTES);
        into[start..start + count].copy_from_slice(&bytes[..count]);
    }
}
