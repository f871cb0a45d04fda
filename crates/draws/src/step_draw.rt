//! A draw whose words are known beforehand.

ghost use Rattle.std.specs.Prelude.{◌≡◌, ◌+◌, ◌%◌, ◌^◌, refl};
ghost use Rattle.draws.specs.Steps.{step_word};

use crate::draw::{Draw, Seeded};
use std::marker::Model;

/// What is added from one word to the next, modulo 2^64. It is odd, so that no word comes twice among 2^64 words.
const STEP: u64 = 6_364_136_223_846_793_005;

/// A draw whose word i, from 1, is i times one odd number, modulo 2^64, whatever the seed. Contracts see how many words
/// it gave, modulo 2^64.
#[derive(Debug, Drop)]
pub struct StepDraw {
    given: u64,
}

impl Model for StepDraw {
    ghost use Rattle.std.specs.Prelude.{ℕ};

    ghost Value = { ℕ };

    ghost view = { λ draw. draw.given };
}

impl StepDraw {
    /// A draw that gave no word.
    pub fn new() -> StepDraw
        ensures { result ≡ 0 }
    {
        StepDraw { given: 0 }
    }
}

impl Draw for StepDraw {
    ghost step = { λ given. (step_word (given + 1), (given + 1) % 2 ^ 64) };

    fn word(&mut self) -> u64 {
        self.given = self.given.wrapping_add(1);
        self.given.wrapping_mul(STEP)
    }
}

impl Seeded for StepDraw {
    ghost word_of = { λ _ place. step_word (place + 1) };

    ghost standing_at = { λ _ place. place };

    ghost place_of = { λ given. given };

    ghost steps = { λ _ _ _. refl };

    ghost places = { λ _ _ _. refl };

    fn at(_seed: &[u8; 32], place: u64) -> StepDraw {
        StepDraw { given: place }
    }

    fn place(&self) -> u64 {
        self.given
    }
}
