//! Words that are drawn: for session numbers, unique numbers, salts and padding.
//!
//! A `Draw` gives words of 64 bits; a `Seeded` one is made from a seed and a place, and what it gives is a function of
//! these two. `StepDraw` is for runs that are to come out the same each time, `ChaChaDraw` for real ones. Contracts see
//! the words that a call draws as those of `D.step` from the draw before the call (`specs/Draws.antt`).
#![tactic(auto)]

mod chacha_draw;
mod draw;
pub mod laws;
mod step_draw;

pub use chacha_draw::ChaChaDraw;
pub use draw::{Draw, Seeded, draw_bytes};
pub use step_draw::StepDraw;
