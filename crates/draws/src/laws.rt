//! Laws of draws.

ghost use Rattle.std.specs.Prelude.{◌≡◌, ◌≢◌, ◌+◌, ◌%◌, ◌^◌, ◌<◌, ℕ, List, ◌++◌, length};
ghost use Rattle.draws.specs.Draws.{draw_after, next_words, word_after};
ghost use Rattle.draws.specs.Steps.{step_word};

use crate::draw::{Draw, Seeded};

/// The first 2^64 - 1 words of a `StepDraw` aren't 0 and are pairwise different.
pub fn step_words_are_fresh()
    ensures not_zero { (i : ℕ) → 0 < i → i < 2 ^ 64 → step_word i ≢ 0 }
    ensures apart { (i j : ℕ) → i < 2 ^ 64 → j < 2 ^ 64 → i ≢ j → step_word i ≢ step_word j }
{}

/// A draw of a seed goes through the seed's words place by place.
pub fn seeded_draws_go_on<D: Seeded>()
    ensures after { (seed : List ℕ) (place n : ℕ) → place < 2 ^ 64
        → draw_after D.step n (D.standing_at seed place) ≡ D.standing_at seed ((place + n) % 2 ^ 64) }
    ensures word { (seed : List ℕ) (place n : ℕ) → place < 2 ^ 64
        → word_after D.step n (D.standing_at seed place) ≡ D.word_of seed ((place + n) % 2 ^ 64) }
{}

/// What is drawn adds up: so many words and then so many more are that many words.
pub fn draws_add_up<D: Draw>()
    ensures after { (n m : ℕ) (draw : D) → draw_after D.step (n + m) draw ≡ draw_after D.step m (draw_after D.step n draw) }
    ensures words { (n m : ℕ) (draw : D)
        → next_words D.step (n + m) draw ≡ next_words D.step n draw ++ next_words D.step m (draw_after D.step n draw) }
    ensures length { (n : ℕ) (draw : D) → length (next_words D.step n draw) ≡ n }
{}
