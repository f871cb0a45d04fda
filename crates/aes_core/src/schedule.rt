//! The key expansion (FIPS 197, 5.2), and that of the equivalent inverse cipher (5.3.5).

ghost use Rattle.std.specs.Prelude.{◌≡◌, ◌<◌, ◌≤◌};
ghost use Rattle.std.specs.Int.{w32, to_le_bytes};
ghost use Rattle.aes_core.specs.KeySchedule.{change, key_schedule, round_key};
ghost use Rattle.aes_core.specs.Words.{bytes_of, inverse_mixed_word, IsInverseSchedule};

use crate::inverse_mixing::inverse_mixed_column;
use crate::table::{sub_byte, sub_word};
use crate::words::{State, word_at};

/// The words of a key, Nk.
const KEY_WORDS: usize = 8;

/// The words of a schedule, 4 (Nr + 1).
const SCHEDULE_WORDS: usize = 60;

/// The words of a schedule, four for each round key.
pub type Schedule = [u32; SCHEDULE_WORDS];

// The first bytes of Rcon[1] to Rcon[7], which are the lowest of their words; the others are 0.
const ROUND_CONSTANTS: [u32; 7] = [0x01, 0x02, 0x04, 0x08, 0x10, 0x20, 0x40];

/// The schedule of a key.
pub fn key_schedule(key: &[u8; 32]) -> Schedule
    ensures { bytes_of result ≡ key_schedule key.now }
{
    let mut schedule = [0; SCHEDULE_WORDS];
    schedule[..KEY_WORDS].copy_from_slice(&key_words(key));
    'words: for i in KEY_WORDS..SCHEDULE_WORDS {
        schedule[i] = schedule[i - KEY_WORDS] ^ change(i, schedule[i - 1]);
    }
    schedule
}

/// The schedule of the equivalent inverse cipher, from that of a key.
pub fn inverse_schedule(schedule: &Schedule) -> Schedule
    ensures { IsInverseSchedule result schedule.now }
{
    let mut inverse = *schedule;
    'words: for i in 4..SCHEDULE_WORDS - 4 {
        inverse[i] = inverse_mixed_word(schedule[i]);
    }
    inverse
}

/// The round key of a round, a word for each column.
#[inline(always)]
pub fn round_key(schedule: &Schedule, round: usize) -> State
    requires { round < 15 }
    ensures { bytes_of result ≡ round_key (bytes_of schedule.now) round }
{
    [
        schedule[4 * round],
        schedule[4 * round + 1],
        schedule[4 * round + 2],
        schedule[4 * round + 3],
    ]
}

fn key_words(key: &[u8; 32]) -> [u32; KEY_WORDS]
    ensures { bytes_of result ≡ key.now }
{
    let mut words = [0; KEY_WORDS];
    'words: for i in 0..KEY_WORDS {
        words[i] = word_at(key, 4 * i);
    }
    words
}

// What is added to word i - 8, made from word i - 1.
fn change(i: usize, before: u32) -> u32
    requires after_key { 8 ≤ i }
    requires in_schedule { i < 60 }
    ensures { to_le_bytes w32 result ≡ change i (to_le_bytes w32 before) }
{
    let [a, b, c, d] = before.to_le_bytes();
    if i % KEY_WORDS == 0 {
        sub_word(b, c, d, a) ^ ROUND_CONSTANTS[i / KEY_WORDS - 1]
    } else if i % KEY_WORDS == 4 {
        sub_word(a, b, c, d)
    } else {
        before
    }
}

// A word as a column of InvMixColumns (5.3.3): the table that undoes the substitution is looked up at
// what is substituted.
fn inverse_mixed_word(word: u32) -> u32
    ensures { to_le_bytes w32 result ≡ inverse_mixed_word word }
{
    let [a, b, c, d] = word.to_le_bytes();
    inverse_mixed_column(sub_byte(a), sub_byte(b), sub_byte(c), sub_byte(d))
}
