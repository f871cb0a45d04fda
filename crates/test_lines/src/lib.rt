//! What programs of tests read: lines of cases, each a first word and the words that are left, with bytes as hexadecimal digits;
//! and words of command lines.
#![tactic(auto)]

use octets::Octets;
use std::alloc::{AllocError, Global};
use std::test::Fail;

/// A line: its first word, and the words that are left, with a blank between them. Its bytes are taken from an allocator.
#[derive(Drop)]
pub struct Line<'a> {
    /// Where the bytes are taken.
    pub alloc: Global,
    /// The first word.
    pub verb: &'a str,
    left: &'a str,
}

impl<'a> Line<'a> {
    /// All of a line.
    pub fn of(alloc: Global, line: &'a str) -> Line<'a> {
        let (verb, left) = match line.split_once(' ') {
            Some(parts) => parts,
            None => (line, ""),
        };
        Line { alloc, verb, left }
    }

    /// Whether no word is left.
    pub fn is_empty(&self) -> bool {
        self.left.is_empty()
    }

    /// All words that are left, as they stand.
    pub fn rest(&self) -> &'a str {
        self.left
    }

    /// The next word.
    pub fn word(&mut self) -> &'a str {
        let left = self.left;
        match left.split_once(' ') {
            Some((word, left)) => {
                self.left = left;
                word
            }
            None => {
                self.left = "";
                left
            }
        }
    }

    /// The next word as a number.
    ///
    /// # Errors
    ///
    /// Where it is none.
    pub fn number(&mut self) -> Result<u64, Fail> {
        number_of(self.word())
    }

    /// The next word as a number of 32 bits.
    ///
    /// # Errors
    ///
    /// Where it is none.
    pub fn small(&mut self) -> Result<u32, Fail> {
        match u32::try_from(self.number()?) {
            Ok(small) => Ok(small),
            Err(_) => Err(Fail::new("too large")),
        }
    }

    /// The number and the sequence number of a message.
    ///
    /// # Errors
    ///
    /// Where the next two words are none.
    pub fn named(&mut self) -> Result<(u64, u32), Fail> {
        Ok((self.number()?, self.small()?))
    }

    /// The next word as bytes: hexadecimal digits with `+` between them, each perhaps behind a count and `*`.
    ///
    /// # Errors
    ///
    /// Where it isn't, or there is no memory.
    pub fn bytes(&mut self) -> Result<Octets, Fail> {
        bytes_of_pieces(self.alloc, self.word())
    }
}

/// The words of a line, with a blank between them.
///
/// # Errors
///
/// Where there is no memory.
pub fn words_of(alloc: Global, line: &str) -> Result<Vec<String>, AllocError> {
    line.split(' ')
        .map(|word| String::from_str(alloc, word))
        .try_collect(alloc)
}

// A number in decimal digits.
fn number_of(word: &str) -> Result<u64, Fail> {
    match word.parse::<u64>() {
        Ok(number) => Ok(number),
        Err(_) => Err(Fail::new("no number")),
    }
}

// The bytes of such pieces.
fn bytes_of_pieces(alloc: Global, pieces: &str) -> Result<Octets, Fail> {
    let mut bytes = Octets::new(alloc);
    for piece in pieces.split('+') {
        put_piece(alloc, &mut bytes, piece)?;
    }
    Ok(bytes)
}

// Puts hexadecimal digits at the end, as often as the count before them says.
fn put_piece(alloc: Global, into: &mut Octets, piece: &str) -> Result<(), Fail> {
    let (count, digits) = match piece.split_once('*') {
        Some((count, digits)) => (number_of(count)?, digits),
        None => (1, piece),
    };
    let bytes = bytes_of(alloc, digits)?;
    for _ in 0..count {
        into.push_all(alloc, bytes.as_slice())?;
    }
    Ok(())
}

/// The bytes of hexadecimal digits.
///
/// # Errors
///
/// Where they are none, or there is no memory.
pub fn bytes_of(alloc: Global, digits: &str) -> Result<Octets, Fail> {
    match hex::decode(alloc, digits) {
        Ok(bytes) => Ok(Octets::copy(alloc, bytes.as_slice())?),
        Err(_) => Err(Fail::new("no hexadecimal digits")),
    }
}
