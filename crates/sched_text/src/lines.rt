//! The lines of a text.

ghost use Rattle.std.specs.Prelude.{◌≡◌, ◌≢◌, ◌<◌, ◌^◌, ◌∷◌, [], ℕ, length, IfSome, IfNone, MatchOption, slice_index};
ghost use Rattle.sched_text.specs.Lines.{Line, is_left_out, lines_in, lines_of};

use std::marker::Model;

/// The lines of a text that have to say something, one after the other, each with its number. Lines
/// count from 1 and end with a newline, which the last may lack. Empty lines and those that begin with
/// `#` are counted and left out. Contracts see the list of those that are left.
#[derive(Debug, Drop)]
pub struct Lines<'a> {
    rest: &'a [u8],
    before: u32,
}

impl<'a> Model for Lines<'a> {
    ghost use Rattle.std.specs.Prelude.{List, length, ◌+◌, ◌<◌, ◌^◌};
    ghost use Rattle.sched_text.specs.Lines.{Line, lines_of, numbered};

    ghost Value = { List Line };

    ghost view = { λ lines. numbered (lines.before + 1) (lines_of lines.rest.now) };

    ghost invariant = { λ lines. lines.before + length lines.rest.now < 2 ^ 32 };
}

impl<'a> Lines<'a> {
    /// The lines of a text of fewer than 2^32 bytes.
    pub fn new(text: &'a [u8]) -> Lines<'a>
        requires { length text.now < 2 ^ 32 }
        ensures { result ≡ lines_in text.now }
    {
        Lines {
            rest: text,
            before: 0,
        }
    }

    /// The next line and its number, where one is left.
    pub fn next(&mut self) -> Option<(u32, &'a [u8])>
        ensures none { IfNone result (self.old ≡ []) }
        ensures ended { IfNone result (self.new ≡ []) }
        ensures line { IfSome result (λ line. self.old ≡ record { number = line.0; text = line.1.now } ∷ self.new) }
    {
        while !self.rest.is_empty() {
            let (line, rest) = first_line(self.rest);
            self.rest = rest;
            self.before += 1;
            if !left_out(line) {
                return Some((self.before, line));
            }
        }
        None
    }
}

// The first line of a text that isn't empty, and what follows its newline.
fn first_line(text: &[u8]) -> (&[u8], &[u8])
    requires { 0 < length text.now }
    ensures lines { lines_of text.now ≡ result.0.now ∷ lines_of result.1.now }
    ensures shorter { length result.1.now < length text.now }
{
    match place_of(text, b'\n') {
        Some(end) => (&text[..end], &text[end + 1..]),
        None => (text, &text[text.len()..]),
    }
}

fn left_out(line: &[u8]) -> bool
    ensures { result ≡ is_left_out line.now }
{
    match line.first() {
        Some(byte) => *byte == b'#',
        None => true,
    }
}

// The place of the first such byte, from 0, where there is one.
fn place_of(text: &[u8], byte: u8) -> Option<usize>
    ensures found { IfSome result (λ place. (place < length text.now) × (slice_index text.now place ≡ byte)) }
    ensures first { IfSome result (λ place. (k : ℕ) → k < place → slice_index text.now k ≢ byte) }
    ensures none { IfNone result ((k : ℕ) → k < length text.now → slice_index text.now k ≢ byte) }
{
    text.iter().position(|other| *other == byte)
}
