//! The rounds on a state, and the cipher and its inverse under a schedule (FIPS 197, 5.1 and 5.3.5).

ghost use Rattle.std.specs.Prelude.{◌≡◌, List, ℕ};
ghost use Rattle.octets.specs.Bytes.{xor_bytes};
ghost use Rattle.aes_core.specs.Cipher.{sub_bytes, inverse_sub_bytes, shift_rows, inverse_shift_rows, mix_columns, inverse_mix_columns, cipher, inverse_cipher};
ghost use Rattle.aes_core.specs.Words.{bytes_of, IsInverseSchedule};

use crate::inverse_mixing::inverse_mixed_column;
use crate::mixing::mixed_column;
use crate::schedule::{Schedule, round_key};
use crate::table::{inverse_sub_word, sub_word};
use crate::words::{State, block_of, state_of, xor_states};

/// The rounds of the cipher, Nr.
const ROUNDS: usize = 14;

/// The cipher, under the schedule of a key (5.1).
#[inline(always)]
pub fn cipher(schedule: &Schedule, block: &[u8; 16]) -> [u8; 16]
    ensures { result ≡ cipher (bytes_of schedule.now) block.now }
{
    let mut state = xor_states(state_of(block), round_key(schedule, 0));
    'rounds: for round in 1..ROUNDS {
        // The key is read before the tables, so that each column is summed on its own.
        let key = round_key(schedule, round);
        state = xor_states(mixed_rows(state), key);
    }
    block_of(xor_states(last_rows(state), round_key(schedule, ROUNDS)))
}

/// The inverse cipher, under the schedule of the equivalent inverse cipher (5.3.5).
#[inline(always)]
pub fn inverse_cipher(inverse: &Schedule, block: &[u8; 16]) -> [u8; 16]
    ensures { (schedule : List ℕ) → IsInverseSchedule inverse.now schedule
        → result ≡ inverse_cipher (bytes_of schedule) block.now }
{
    let mut state = xor_states(state_of(block), round_key(inverse, ROUNDS));
    'rounds: for rounds_done in 1..ROUNDS {
        let key = round_key(inverse, ROUNDS - rounds_done);
        state = xor_states(inverse_mixed_rows(state), key);
    }
    block_of(xor_states(inverse_last_rows(state), round_key(inverse, 0)))
}

// SubBytes, ShiftRows and MixColumns (5.1.1 to 5.1.3).
#[inline(always)]
fn mixed_rows(state: State) -> State
    ensures { bytes_of result ≡ mix_columns (shift_rows (sub_bytes (bytes_of state))) }
{
    let s = block_of(state);
    [
        mixed_column(s[0], s[5], s[10], s[15]),
        mixed_column(s[4], s[9], s[14], s[3]),
        mixed_column(s[8], s[13], s[2], s[7]),
        mixed_column(s[12], s[1], s[6], s[11]),
    ]
}

// SubBytes and ShiftRows, of the last round.
#[inline(always)]
fn last_rows(state: State) -> State
    ensures { bytes_of result ≡ shift_rows (sub_bytes (bytes_of state)) }
{
    let s = block_of(state);
    [
        sub_word(s[0], s[5], s[10], s[15]),
        sub_word(s[4], s[9], s[14], s[3]),
        sub_word(s[8], s[13], s[2], s[7]),
        sub_word(s[12], s[1], s[6], s[11]),
    ]
}

// InvShiftRows, InvSubBytes and InvMixColumns (5.3.1 to 5.3.3).
#[inline(always)]
fn inverse_mixed_rows(state: State) -> State
    ensures { bytes_of result ≡ inverse_mix_columns (inverse_sub_bytes (inverse_shift_rows (bytes_of state))) }
{
    let s = block_of(state);
    [
        inverse_mixed_column(s[0], s[13], s[10], s[7]),
        inverse_mixed_column(s[4], s[1], s[14], s[11]),
        inverse_mixed_column(s[8], s[5], s[2], s[15]),
        inverse_mixed_column(s[12], s[9], s[6], s[3]),
    ]
}

// InvShiftRows and InvSubBytes, of the last round.
#[inline(always)]
fn inverse_last_rows(state: State) -> State
    ensures { bytes_of result ≡ inverse_sub_bytes (inverse_shift_rows (bytes_of state)) }
{
    let s = block_of(state);
    [
        inverse_sub_word(s[0], s[13], s[10], s[7]),
        inverse_sub_word(s[4], s[1], s[14], s[11]),
        inverse_sub_word(s[8], s[5], s[2], s[15]),
        inverse_sub_word(s[12], s[9], s[6], s[3]),
    ]
}
