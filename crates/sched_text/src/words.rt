//! The words of a line, and what stands in one.

ghost use Rattle.std.specs.Prelude.{◌≡◌, ◌<◌, ◌∷◌, [], ℕ, true, false, length, slice_index, IfSome, IfNone, IfOk, MatchOption, Some, None};
ghost use Rattle.sched_text.specs.Lines.{is_blank, words_of};
ghost use Rattle.sched_text.specs.Rests.{words_in};
ghost use Rattle.sched_text.specs.Reading.{bytes_from, hex_at, is_end, number_at, number_from};

use hex::FromHexError;
use itoa::Buffer;
use octets::{Memory, Octets};
use std::alloc::Global;
use std::marker::Model;

/// The words of a line, one after the other. Contracts see the list of those that are left.
#[derive(Debug, Drop)]
pub struct Words<'a> {
    rest: Option<&'a [u8]>,
}

impl<'a> Model for Words<'a> {
    ghost use Rattle.std.specs.Prelude.{ℕ, List};
    ghost use Rattle.sched_text.specs.Rests.{words_in};

    ghost Value = { List (List ℕ) };

    ghost view = { λ words. words_in words.rest };
}

impl<'a> Words<'a> {
    /// The words of a line.
    pub fn new(line: &'a [u8]) -> Words<'a>
        ensures { result ≡ words_of line.now }
    {
        Words { rest: Some(line) }
    }

    /// The next word, where one is left.
    pub fn next(&mut self) -> Option<&'a [u8]>
        ensures none { IfNone result (self.old ≡ []) }
        ensures ended { IfNone result (self.new ≡ []) }
        ensures word { IfSome result (λ word. self.old ≡ word.now ∷ self.new) }
    {
        let (word, rest) = first_word(self.rest?);
        self.rest = rest;
        Some(word)
    }

    /// Whether no word is left. A line with no byte has one, an empty one.
    pub fn is_empty(&self) -> bool
        ensures { result ≡ is_end self.now }
    {
        match self.rest {
            Some(rest) => lacks_words(rest),
            None => true,
        }
    }

    /// The number that the next word spells, if it spells one: in decimal, with no sign and no leading zero, below 2^64.
    pub fn number(&mut self) -> Option<u64>
        ensures { MatchOption result (number_from self.old ≡ None) (λ number. number_from self.old ≡ Some (number, self.new)) }
    {
        number_of(self.next()?)
    }

    /// The bytes that the next word spells, if it spells some: a pair of hexadecimal digits a byte, or `-` for no byte.
    ///
    /// # Errors
    ///
    /// `Memory`.
    pub fn bytes(&mut self, alloc: Global) -> Result<Option<Octets>, Memory>
        ensures { IfOk result (λ bytes. MatchOption bytes (bytes_from self.old ≡ None) (λ bytes. bytes_from self.old ≡ Some (bytes, self.new))) }
    {
        match self.next() {
            Some(word) => bytes_of(alloc, word),
            None => Ok(None),
        }
    }
}

// Whether a line has no word. It has one, if an empty one.
fn lacks_words(line: &[u8]) -> bool
    ensures { result ≡ is_end (words_of line.now) }
{
    let (_word, _rest) = first_word(line);
    false
}

// The first word of a line, and what stands behind the blank that follows it.
fn first_word(line: &[u8]) -> (&[u8], Option<&[u8]>)
    ensures { words_of line.now ≡ result.0.now ∷ words_in result.1 }
{
    match place_of_blank(line) {
        Some(end) => (&line[..end], Some(&line[end + 1..])),
        None => (line, None),
    }
}

// The place of the first blank, a space or a tab, from 0, where there is one.
fn place_of_blank(line: &[u8]) -> Option<usize>
    ensures found { IfSome result (λ place. (place < length line.now) × (is_blank (slice_index line.now place) ≡ true)) }
    ensures first { IfSome result (λ place. (k : ℕ) → k < place → is_blank (slice_index line.now k) ≡ false) }
    ensures none { IfNone result ((k : ℕ) → k < length line.now → is_blank (slice_index line.now k) ≡ false) }
{
    line.iter().position(|byte| *byte == b' ' || *byte == b'\t')
}

/// The number that the word spells: in decimal, with no sign and no leading zero, below 2^64.
pub(crate) fn number_of(word: &[u8]) -> Option<u64>
    ensures { result ≡ number_at word.now }
{
    let text = str::from_utf8(word).ok()?;
    let number = text.parse::<u64>().ok()?;
    let mut buffer = Buffer::new();
    (buffer.format(number).as_bytes() == word).then_some(number)
}

/// The bytes that the word spells: a pair of hexadecimal digits a byte, or `-` for no byte.
#[tactic(auto, unfolding(crate::specs::Reading::hex_at))]
pub(crate) fn bytes_of(alloc: Global, word: &[u8]) -> Result<Option<Octets>, Memory>
    ensures { IfOk result (λ bytes. bytes ≡ hex_at word.now) }
{
    if word == b"-".as_slice() {
        return Ok(Some(Octets::new(alloc)));
    }
    match hex::decode(alloc, word) {
        Ok(bytes) if bytes.is_empty() => Ok(None),
        Ok(bytes) => Ok(Some(Octets::from(bytes))),
        Err(FromHexError::OutOfMemory) => Err(Memory),
        Err(_) => Ok(None),
    }
}
