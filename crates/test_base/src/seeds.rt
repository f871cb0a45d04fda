//! What is shown of a draw: not its seed.

use draws::{ChaChaDraw, Seeded};
use std::test::Fail;
use test_asserts::shows;

#[test]
fn no_byte_of_a_seed_is_shown(rt: HostRuntime) -> Result<(), Fail> {
    let draw = ChaChaDraw::at(&[7; 32], 3);
    shows(
        rt.alloc(),
        &draw,
        "ChaChaDraw { rng: ChaChaXRng { .. }, place: 3 }",
    )
}
