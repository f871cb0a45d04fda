//! A draw that nobody foretells without its seed.

ghost use Rattle.std.specs.Prelude.{◌≡◌, ◌+◌, ◌%◌, ◌^◌, refl};
ghost use Rattle.rand_chacha.specs.ChaCha.{key_of};
ghost use Rattle.draws.specs.ChaChaWords.{ChaChaPlace, chacha_word};

use crate::draw::{Draw, Seeded};
use rand_chacha::ChaCha20Rng;
use rand_core::SeedableRng;
use rand_core::utils::NextWord;
use std::marker::Model;

/// The words of the ChaCha20 stream of a seed, 64 bits each, the first 32 of them low. After 2^64 words it begins again.
/// Contracts see its key and its place.
#[derive(Debug, Drop)]
pub struct ChaChaDraw {
    rng: ChaCha20Rng,
    place: u64,
}

impl Model for ChaChaDraw {
    ghost use Rattle.std.specs.Prelude.{◌≡◌, ◌*◌};
    ghost use Rattle.draws.specs.ChaChaWords.{ChaChaPlace};

    ghost Value = { ChaChaPlace };

    ghost view = { λ draw. record { key = draw.rng.key; place = draw.place } };

    ghost invariant = { λ draw. (draw.rng.stream ≡ 0) × (draw.rng.word_pos ≡ 2 * draw.place) };
}

impl Draw for ChaChaDraw {
    ghost step = { λ draw. (chacha_word draw.key draw.place, record draw { place = (draw.place + 1) % 2 ^ 64 }) };

    fn word(&mut self) -> u64 {
        let low = self.rng.next_word();
        let high = self.rng.next_word();
        self.place = self.place.wrapping_add(1);
        if self.place == 0 {
            self.rng.set_word_pos(0);
        }
        u64::from(low) + u64::from(high) * (1 << 32)
    }
}

impl Seeded for ChaChaDraw {
    ghost word_of = { λ seed place. chacha_word (key_of seed) place };

    ghost standing_at = { λ seed place. record { key = key_of seed; place = place } };

    ghost place_of = { λ draw. draw.place };

    ghost steps = { λ _ _ _. refl };

    ghost places = { λ _ _ _. refl };

    fn at(seed: &[u8; 32], place: u64) -> ChaChaDraw {
        let mut rng = ChaCha20Rng::from_seed(*seed);
        rng.set_word_pos(2 * u128::from(place));
        ChaChaDraw { rng, place }
    }

    fn place(&self) -> u64 {
        self.place
    }
}
