//! Words that are drawn by what takes effect alone.

ghost use Rattle.std.specs.Prelude.{◌≡◌};
ghost use Rattle.kifzaro.specs.Drawing.{drawn_from};

use draws::{ChaChaDraw, Seeded};
use std::fmt;
use std::marker::Model;

/// Where a draw stands: its seed, and how many words it has given. A call draws from [`Words::draw`], and only where it took
/// effect the words that it drew count as given. Contracts see the draw.
#[derive(Drop)]
pub(crate) struct Words {
    seed: [u8; 32],
    place: u64,
}

impl Model for Words {
    ghost use Rattle.draws.specs.ChaChaWords.{ChaChaPlace};
    ghost use Rattle.rand_chacha.specs.ChaCha.{key_of};

    ghost Value = { ChaChaPlace };

    ghost view = { λ words. record { key = key_of words.seed; place = words.place } };
}

impl Words {
    /// The draw of a seed that has given no word.
    pub(crate) fn new(seed: &[u8; 32]) -> Words
        ensures { result ≡ drawn_from seed.now }
    {
        Words {
            seed: *seed,
            place: 0,
        }
    }

    /// The draw as it stands.
    pub(crate) fn draw(&self) -> ChaChaDraw
        ensures { result ≡ self.now }
    {
        ChaChaDraw::at(&self.seed, self.place)
    }

    /// It stands where this draw does.
    pub(crate) fn reach(&mut self, draw: &ChaChaDraw)
        ensures { self.new ≡ record self.old { place = draw.now.place } }
    {
        self.place = draw.place();
    }
}

impl fmt::Debug for Words {
    /// The place alone: who knows the seed knows what is drawn.
    fn fmt<W: fmt::Write>(&self, f: &mut fmt::Formatter<W>) -> fmt::Result {
        f.debug_struct("Words")
            .field("place", &self.place)
            .finish_non_exhaustive()
    }
}
