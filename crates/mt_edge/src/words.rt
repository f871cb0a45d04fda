//! Words that a program was started with.

ghost use Rattle.std.specs.Prelude.{◌≡◌, map, string_bytes, IfSome, IfOk, vec_len};

use octets::{Buffer, Memory, Octets};
use std::alloc::Global;
use std::marker::Model;

/// The words of a start, in order. Contracts see the list of their bytes.
#[derive(Debug, Drop)]
pub struct Words {
    words: Vec<Octets>,
}

impl Model for Words {
    ghost use Rattle.std.specs.Prelude.{ℕ, List};

    ghost Value = { List (List ℕ) };

    ghost view = { λ words. words.words.items };
}

impl Words {
    /// The words. Takes no memory.
    pub fn words(&self) -> &[Octets]
        ensures { result.now ≡ self.now }
    {
        self.words.as_slice()
    }
}

/// Room for the words of one start, which was taken beforehand.
#[derive(Debug, Drop)]
pub(crate) struct WordsRoom {
    words: Vec<Octets>,
    texts: Vec<Buffer>,
}

impl WordsRoom {
    /// Room for `count` words of up to `word_bytes` bytes each.
    pub(crate) fn new(alloc: Global, count: usize, word_bytes: usize) -> Result<WordsRoom, Memory> {
        let words = Vec::with_capacity(alloc, count)?;
        let mut texts = Vec::with_capacity(alloc, count)?;
        for _ in 0..count {
            texts.push(Buffer::new(alloc, word_bytes)?)?;
        }
        Ok(WordsRoom { words, texts })
    }

    /// These words in the room, where they fit. Takes no memory.
    pub(crate) fn fill(self, words: &[String]) -> Option<Words>
        ensures { IfSome result (λ copy. copy ≡ map string_bytes words.now) }
    {
        let mut copy = self.words;
        let mut texts = self.texts;
        copy.clear();
        for word in words {
            let text = fill_text(texts.pop()?, word.as_bytes())?;
            if copy.len() >= copy.capacity() {
                return None;
            }
            copy.push(text).unwrap();
        }
        Some(Words { words: copy })
    }
}

/// These bytes in the room, where they fit.
fn fill_text(room: Buffer, bytes: &[u8]) -> Option<Octets>
    ensures { IfSome result (λ text. text ≡ bytes.now) }
{
    let mut text = room;
    if !text.as_slice().is_empty() || text.room() < bytes.len() {
        return None;
    }
    text.push_all(bytes);
    Some(text.into_octets())
}
