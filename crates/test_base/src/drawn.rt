//! Drawn words, beside vectors of the standard.

ghost use Rattle.std.specs.Prelude.{◌≡◌, ◌+◌, ◌<◌, ◌^◌, ◌%◌, ◌==◌, IsTrue};
ghost use Rattle.draws.specs.Draws.{draw_after, next_bytes, word_after};

use draws::laws::seeded_draws_go_on;
use draws::{ChaChaDraw, Draw, Seeded, StepDraw, draw_bytes};
use std::test::Fail;
use test_asserts::{holds, same};

fn gives<D: Draw>(draw: &mut D, expected: &[u64]) -> Result<(), Fail> {
    for word in expected {
        same(draw.word(), *word)?;
    }
    Ok(())
}

#[test]
fn step_words() -> Result<(), Fail> {
    // 6364136223846793005 times 1, 2 and 3, modulo 2^64.
    let words = [
        6_364_136_223_846_793_005,
        12_728_272_447_693_586_010,
        645_664_597_830_827_399,
    ];
    gives(&mut StepDraw::new(), &words)?;
    let mut draw: StepDraw = Seeded::at(&[7; 32], 1);
    gives(&mut draw, &[12_728_272_447_693_586_010])?;
    same(draw.place(), 2)?;
    Ok(())
}

// The key stream of RFC 8439, A.1, vectors 1 to 4, of a nonce of zeros: words 0 and 1 of blocks 0 and 1 of a key of zeros,
// of block 1 of a key that ends in 1, and of block 2 of a key whose second byte is 0xff.
#[test]
fn chacha_words() -> Result<(), Fail> {
    let first = [0x903d_f1a0_ade0_b876, 0x28bd_8653_e56a_5d40];
    same(place_behind(&[0; 32], 0, &first)?, 2)?;
    let second = [0x7a38_5155_bee7_079f, 0x0d08_2d73_7c97_ba98];
    same(place_behind(&[0; 32], 8, &second)?, 10)
}

#[test]
fn chacha_words_of_other_seeds() -> Result<(), Fail> {
    let third = [0x9249_f8ec_2452_eb3a, 0xddd4_ceb1_8d82_9d9b];
    same(place_behind(&with_byte(31, 1), 8, &third)?, 10)?;
    let fourth = [0x4bc4_2ef1_fb4d_d572, 0x327f_1394_df92_2636];
    same(place_behind(&with_byte(1, 0xff), 16, &fourth)?, 18)
}

// A seed of zeros but for this byte.
fn with_byte(place: usize, byte: u8) -> [u8; 32] {
    let mut seed = [0; 32];
    if let Some(it) = seed.get_mut(place) {
        *it = byte;
    }
    seed
}

// The words from a place of a seed's on are these; the place behind them.
fn place_behind(seed: &[u8; 32], place: u64, words: &[u64]) -> Result<u64, Fail> {
    let mut draw: ChaChaDraw = Seeded::at(seed, place);
    gives(&mut draw, words)?;
    Ok(draw.place())
}

// What a sender does: it draws a number, and then a nonce.
fn number_and_nonce<D: Draw>(draw: &mut D) -> (u64, [u8; 12])
    ensures number { result.0 ≡ word_after D.step 0 draw.old }
    ensures nonce { result.1 ≡ next_bytes D.step 12 (draw_after D.step 1 draw.old) }
    ensures after { draw.new ≡ draw_after D.step 3 draw.old }
{
    let number = draw.word();
    let mut nonce = [0; 12];
    draw_bytes(draw, &mut nonce);
    (number, nonce)
}

// What a journal does: it notes a place, and later draws the same words again.
fn drawn_again<D: Seeded + Drop>(seed: &[u8; 32]) -> bool
    ensures { IsTrue result }
{
    seeded_draws_go_on::<D>();
    let mut first = D::at(seed, 7);
    let _ = first.word();
    let mut again = D::at(seed, first.place());
    first.word() == again.word()
}

// 8 bytes of the word 12728272447693586010 and 4 of 645664597830827399, the least first.
#[test]
fn bytes_of_words() -> Result<(), Fail> {
    let mut draw = StepDraw::new();
    let (number, nonce) = number_and_nonce(&mut draw);
    same(number, 6_364_136_223_846_793_005)?;
    same(
        nonce,
        [
            0x5a, 0xfe, 0x2a, 0x99, 0x5a, 0xe8, 0xa3, 0xb0, 0x87, 0x7d, 0xc0, 0xe5,
        ],
    )?;
    same(draw.place(), 3)
}

#[test]
fn words_are_drawn_again() -> Result<(), Fail> {
    holds(drawn_again::<ChaChaDraw>(&[1; 32]))
}
