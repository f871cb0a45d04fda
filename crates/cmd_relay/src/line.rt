//! One line of a capture.

ghost use Rattle.std.specs.Prelude.{◌≡◌, ◌≢◌, ◌<◌, ◌∷◌, [], ℕ, true, false, List, length, slice_index, IfSome, IfNone, IfOk, MatchOption};
ghost use Rattle.sched_text.specs.Lines.{is_blank, words_of};
ghost use Rattle.cmd_relay.specs.Captures.{IsHex, SaysBytes, way_word};
ghost use Rattle.cmd_relay.specs.Inner.{words_in};
ghost use Rattle.cmd_relay.specs.declared.capture.Way.{Way as Ways};

use crate::capture::Way;
use hex::FromHexError;
use octets::{Memory, Octets};
use std::alloc::Global;

/// What a line says: a way and the bytes that were sent, where it says so.
///
/// # Errors
///
/// `Memory`.
pub(crate) fn piece_of(alloc: Global, line: &[u8]) -> Result<Option<(Way, Octets)>, Memory>
    ensures said { IfOk result (λ piece. IfSome piece (λ one. SaysBytes one.0 one.1 (words_of line.now))) }
    ensures nothing { IfOk result (λ piece. IfNone piece ((way : Ways) (bytes : List ℕ) → SaysBytes way bytes (words_of line.now) → ⊥)) }
{
    let Some((first, word)) = two_words(line) else {
        return Ok(None);
    };
    let Some(way) = way_of(first) else {
        return Ok(None);
    };
    match bytes_of(alloc, word)? {
        Some(bytes) => Ok(Some((way, bytes))),
        None => Ok(None),
    }
}

// The two words of a line that has so many.
fn two_words(line: &[u8]) -> Option<(&[u8], &[u8])>
    ensures two { IfSome result (λ words. words_of line.now ≡ words.0.now ∷ words.1.now ∷ []) }
    ensures others { IfNone result ((first word : List ℕ) → words_of line.now ≢ first ∷ word ∷ []) }
{
    let (first, rest) = first_word(line);
    let Some(rest) = rest else {
        return None;
    };
    let (word, more) = first_word(rest);
    match more {
        Some(_) => None,
        None => Some((first, word)),
    }
}

// The first word of a line, and what stands behind the blank that follows it.
fn first_word(line: &[u8]) -> (&[u8], Option<&[u8]>)
    ensures { words_of line.now ≡ result.0.now ∷ words_in result.1 }
{
    match place_of_blank(line) {
        Some(end) => (&line[..end], Some(&line[end + 1..])),
        None => (line, None),
    }
}

// The place of the first blank, a space or a tab, from 0, where there is one.
fn place_of_blank(line: &[u8]) -> Option<usize>
    ensures found { IfSome result (λ place. (place < length line.now) × (is_blank (slice_index line.now place) ≡ true)) }
    ensures first { IfSome result (λ place. (k : ℕ) → k < place → is_blank (slice_index line.now k) ≡ false) }
    ensures none { IfNone result ((k : ℕ) → k < length line.now → is_blank (slice_index line.now k) ≡ false) }
{
    line.iter().position(|byte| *byte == b' ' || *byte == b'\t')
}

// The way that a word names.
fn way_of(word: &[u8]) -> Option<Way>
    ensures named { IfSome result (λ way. word.now ≡ way_word way) }
    ensures none { IfNone result ((way : Ways) → word.now ≢ way_word way) }
{
    if word == b"up".as_slice() {
        Some(Way::Up)
    } else if word == b"down".as_slice() {
        Some(Way::Down)
    } else {
        None
    }
}

// The bytes that a word spells: a pair of hexadecimal digits a byte, or `-` for no byte.
fn bytes_of(alloc: Global, word: &[u8]) -> Result<Option<Octets>, Memory>
    ensures spelled { IfOk result (λ bytes. IfSome bytes (λ one. IsHex one word.now)) }
    ensures none { IfOk result (λ bytes. IfNone bytes ((one : List ℕ) → IsHex one word.now → ⊥)) }
{
    if word == b"-".as_slice() {
        return Ok(Some(Octets::new(alloc)));
    }
    match hex::decode(alloc, word) {
        Ok(bytes) if bytes.is_empty() => Ok(None),
        Ok(bytes) => Ok(Some(Octets::from(bytes))),
        Err(FromHexError::OutOfMemory) => Err(Memory),
        Err(_) => Ok(None),
    }
}
