//! The words that a world is drawn from.

ghost use Rattle.std.specs.Prelude.{◌≡◌, ◌+◌, ◌-◌, ◌^◌, ◌<◌, ◌↔◌, min, IsTrue};
ghost use Rattle.draws.specs.Steps.{step_word};
ghost use Rattle.cmd_sim.specs.Words.{counted_step, words_max};

use draws::Draw;
use std::marker::Model;

/// What is added from one word to the next, modulo 2^64. It is odd, so that no word comes twice among 2^64 words.
const STEP: u64 = 6_364_136_223_846_793_005;

/// A draw whose word i, from 1, is i times one odd number, modulo 2^64. It counts its words to 2^64 - 1 and no further, so
/// that what was counted below that is how many words it gave. Contracts see the count.
#[derive(Drop)]
pub(crate) struct CountedDraw {
    given: u64,
}

impl Model for CountedDraw {
    ghost use Rattle.std.specs.Prelude.{ℕ};

    ghost Value = { ℕ };

    ghost view = { λ draw. draw.given };
}

impl CountedDraw {
    /// A draw that gave no word.
    pub(crate) fn new() -> CountedDraw
        ensures { result ≡ 0 }
    {
        CountedDraw { given: 0 }
    }

    /// Whether the count isn't at its end: each word that it gave was another one.
    pub(crate) fn counts_on(&self) -> bool
        ensures { IsTrue result ↔ (self.now < words_max) }
    {
        self.given < u64::MAX
    }
}

impl Draw for CountedDraw {
    ghost step = { counted_step };

    fn word(&mut self) -> u64 {
        let next = self.given.wrapping_add(1);
        self.given = self.given.saturating_add(1);
        next.wrapping_mul(STEP)
    }
}
