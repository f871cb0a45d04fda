//! The authorisation keys `00` to `ff` and `ff` to `00` for tests of crates that need one: their identifiers, the bytes of
//! the first, the ring that has it alone, and the one that has both.
#![tactic(auto)]

ghost use Rattle.std.specs.Prelude.{◌≡◌, IfErr, IfOk, reverse};
ghost use Rattle.std.specs.String.{string_bytes};
ghost use Rattle.auth_keys.specs.KeyFile.{IsFaultOf, IsRingOf};
ghost use Rattle.test_keys.specs.Lines.{both_lines, from_0_to_255, line_of};

use auth_keys::{KeyFault, Ring};
use std::alloc::{AllocError, Global};

/// The identifier of the key `00` to `ff`: bytes 12 to 19 of its SHA-1, by Python's hashlib.
pub const KEY_ID: u64 = 0xc8df_57a4_6e58_d132;

/// That of the key `ff` to `00`, likewise.
pub const TEMP_ID: u64 = 0x134a_728f_0eb1_d196;

/// The 256 bytes of the key `00` to `ff`.
pub fn bytes_from_0_to_255() -> [u8; 256]
    ensures bytes { result ≡ from_0_to_255 }
{
    // The last one stands from the start.
    let mut bytes = [u8::MAX; 256];
    for byte in 0..u8::MAX {
        bytes[usize::from(byte)] = byte;
    }
    bytes
}

/// The line of a key file that has these words, a blank and the digits of the key. The words are `perm`, or `temp` and the
/// moment of expiry.
///
/// # Errors
///
/// Where there is no memory.
#[tactic(auto, unfolding(crate::specs::Lines::line_of))]
pub fn line(alloc: Global, words: &str) -> Result<String, AllocError>
    ensures line { IfOk result (λ line. string_bytes line ≡ line_of words.now) }
{
    let digits = hex::encode(alloc, bytes_from_0_to_255().as_slice())?;
    format!(in alloc; "{words} {digits}")
}

/// The ring of a key file with that line alone.
///
/// # Errors
///
/// What `Ring::read` answers to that line; `Memory`.
pub fn ring(alloc: Global, words: &str) -> Result<Ring, KeyFault>
    ensures ring { IfOk result (IsRingOf (line_of words.now)) }
    ensures fault { IfErr result (IsFaultOf (line_of words.now)) }
{
    match line(alloc, words) {
        Ok(line) if u32::try_from(line.len()).is_ok() => Ring::read(alloc, line.as_bytes()),
        _ => Err(KeyFault::Memory),
    }
}

/// The ring of the permanent key `00` to `ff` and the temporary key `ff` to `00`, which expires at the moment 7,200.
///
/// # Errors
///
/// What `Ring::read` answers to their two lines; `Memory`.
pub fn both_keys(alloc: Global) -> Result<Ring, KeyFault>
    ensures ring { IfOk result (IsRingOf both_lines) }
    ensures fault { IfErr result (IsFaultOf both_lines) }
{
    match two_lines(alloc) {
        Ok(lines) if u32::try_from(lines.len()).is_ok() => Ring::read(alloc, lines.as_bytes()),
        _ => Err(KeyFault::Memory),
    }
}

// Their lines.
#[tactic(auto, unfolding(crate::specs::Lines::both_lines))]
fn two_lines(alloc: Global) -> Result<String, AllocError>
    ensures { IfOk result (λ lines. string_bytes lines ≡ both_lines) }
{
    let perm = line(alloc, "perm")?;
    let temp = hex::encode(alloc, bytes_from_255_to_0().as_slice())?;
    format!(in alloc; "{perm}\ntemp 7200 {temp}\n")
}

// The 256 bytes of the key `ff` to `00`.
fn bytes_from_255_to_0() -> [u8; 256]
    ensures { result ≡ reverse from_0_to_255 }
{
    let mut bytes = bytes_from_0_to_255();
    bytes.reverse();
    bytes
}
