//! Key files as text: a key a line, words with one blank between, a space or a tab.

ghost use Rattle.std.specs.Prelude.{◌≡◌, ◌≢◌, ◌+◌, ◌<◌, ◌≤◌, ◌^◌, ◌↔◌, ◌∷◌, ◌++◌, [], ℕ, true, false, List, length, IsTrue, IfOk, IfErr, IfSome, IfNone, OnOk, MatchOption, decimal, slice_index};
ghost use Rattle.std.specs.Prelude.{codes};
ghost use Rattle.msg_ids.specs.Moments.{latest_moment};
ghost use Rattle.auth_keys.specs.Rings.{IsRing};
ghost use Rattle.auth_keys.specs.KeyFile.{AreKeys, AreDigitsOf, HasNoBlank, IsFaultOf, IsLeftOut, Says, is_blank, lines_of};
ghost use Rattle.auth_keys.specs.Words.{IsCut};
ghost use Rattle.auth_keys.specs.declared.ring.RingKey.{RingKey};

use crate::fault::KeyFault;
use crate::key::{AuthKey, KeyKind};
use crate::ring::{RING_KEYS_MAX, RingKey, place_of_id};
use itoa::Buffer;
use msg_ids::Moment;
use octets::Memory;
use std::alloc::Global;

/// The keys of a key file, in order, each with its kind.
pub fn keys_of(alloc: Global, text: &[u8]) -> Result<Vec<RingKey>, KeyFault>
    requires short { length text.now < 2 ^ 32 }
    ensures keys { IfOk result (λ keys. AreKeys (lines_of text.now) keys.items) }
    ensures lawful { IfOk result (λ keys. IsRing keys.items) }
    ensures fault { IfErr result (IsFaultOf text.now) }
{
    let mut keys = Vec::new(alloc);
    // The number of each key's line.
    let mut lines = [0; RING_KEYS_MAX];
    let mut rest = text;
    let mut line = 0u32;
    while !rest.is_empty() {
        let (first, after) = first_line(rest);
        line += 1;
        if !is_left_out(first) {
            let Some(entry) = key_of(first) else {
                return Err(KeyFault::BadLine { line });
            };
            let count = keys.len();
            if count == RING_KEYS_MAX {
                return Err(KeyFault::TooMany { line });
            }
            if let Some(place) = place_of_id(&keys, entry.key.id()) {
                let first_line = lines[place];
                return Err(KeyFault::SameId { line, first_line });
            }
            append(&mut keys, entry)?;
            lines[count] = line;
        }
        rest = after;
    }
    Ok(keys)
}

/// Puts a key at the end.
fn append(keys: &mut Vec<RingKey>, last: RingKey) -> Result<(), Memory>
    ensures { OnOk result (keys.new.items ≡ keys.old.items ++ last ∷ []) }
{
    keys.push(last)?;
    Ok(())
}

/// The first line of a text that isn't empty, and what follows its newline.
fn first_line(text: &[u8]) -> (&[u8], &[u8])
    requires { 0 < length text.now }
    ensures lines { lines_of text.now ≡ result.0.now ∷ lines_of result.1.now }
    ensures shorter { length result.1.now < length text.now }
{
    match place_of(text, b'\n') {
        Some(end) => (&text[..end], &text[end + 1..]),
        None => (text, &text[text.len()..]),
    }
}

fn is_left_out(line: &[u8]) -> bool
    ensures { IsTrue result ↔ IsLeftOut line.now }
{
    match line.first() {
        Some(byte) => *byte == b'#',
        None => true,
    }
}

/// The key that a line says, where it says one.
fn key_of(line: &[u8]) -> Option<RingKey>
    ensures found { IfSome result (Says line.now) }
    ensures none { IfNone result ((entry : RingKey) → Says line.now entry → ⊥) }
{
    let (word, rest) = split_at_blank(line)?;
    if is_word(word, b"perm") {
        let key = key_of_digits(rest)?;
        let kind = KeyKind::Perm;
        return Some(RingKey { key, kind });
    }
    if !is_word(word, b"temp") {
        return None;
    }
    let (expires, digits) = split_at_blank(rest)?;
    let expires = expiry_of(expires)?;
    let key = key_of_digits(digits)?;
    let kind = KeyKind::Temp { expires };
    Some(RingKey { key, kind })
}

/// The key of 512 digits.
fn key_of_digits(digits: &[u8]) -> Option<AuthKey>
    ensures found { IfSome result (AreDigitsOf digits.now) }
    ensures none { IfNone result ((key : List ℕ) → AreDigitsOf digits.now key → ⊥) }
{
    let mut bytes = [0; 256];
    hex::decode_to_slice(digits, &mut bytes).ok()?;
    Some(AuthKey::new(&bytes))
}

/// The moment of expiry that a word spells, where it does: in decimal, with no sign and no leading zero.
fn expiry_of(word: &[u8]) -> Option<Moment>
    ensures found { IfSome result (λ expires. (1 ≤ expires) × (expires ≤ latest_moment) × (word.now ≡ decimal expires)) }
    ensures none { IfNone result ((expires : ℕ) → 1 ≤ expires → expires ≤ latest_moment → word.now ≢ decimal expires) }
{
    let seconds = number_of(word)?;
    if seconds < 1 || seconds > Moment::LATEST_SECONDS {
        return None;
    }
    Some(Moment::new(seconds))
}

/// Whether a word is this one.
fn is_word(word: &[u8], other: &[u8]) -> bool
    ensures { IsTrue result ↔ (word.now ≡ other.now) }
{
    word == other
}

/// What stands before and behind the first blank, where there is one.
fn split_at_blank(text: &[u8]) -> Option<(&[u8], &[u8])>
    ensures found { IfSome result (λ parts. IsCut text.now parts.0.now parts.1.now) }
    ensures none { IfNone result (HasNoBlank text.now) }
{
    let end = place_of_blank(text)?;
    Some((&text[..end], &text[end + 1..]))
}

/// The place of the first blank, a space or a tab, from 0, where there is one.
fn place_of_blank(text: &[u8]) -> Option<usize>
    ensures found { IfSome result (λ place. (place < length text.now) × (is_blank (slice_index text.now place) ≡ true)) }
    ensures first { IfSome result (λ place. (k : ℕ) → k < place → is_blank (slice_index text.now k) ≡ false) }
    ensures none { IfNone result ((k : ℕ) → k < length text.now → is_blank (slice_index text.now k) ≡ false) }
{
    text.iter().position(|byte| *byte == b' ' || *byte == b'\t')
}

/// The place of the first such byte, from 0, where there is one.
fn place_of(text: &[u8], byte: u8) -> Option<usize>
    ensures found { IfSome result (λ place. (place < length text.now) × (slice_index text.now place ≡ byte)) }
    ensures first { IfSome result (λ place. (k : ℕ) → k < place → slice_index text.now k ≢ byte) }
    ensures none { IfNone result ((k : ℕ) → k < length text.now → slice_index text.now k ≢ byte) }
{
    text.iter().position(|other| *other == byte)
}

/// The number that the word spells: in decimal, with no sign and no leading zero, below 2^64.
fn number_of(word: &[u8]) -> Option<u64>
    ensures found { IfSome result (λ number. (number < 2 ^ 64) × (word.now ≡ decimal number)) }
    ensures none { IfNone result ((number : ℕ) → number < 2 ^ 64 → word.now ≢ decimal number) }
{
    let text = str::from_utf8(word).ok()?;
    let number = text.parse::<u64>().ok()?;
    let mut buffer = Buffer::new();
    (buffer.format(number).as_bytes() == word).then_some(number)
}
