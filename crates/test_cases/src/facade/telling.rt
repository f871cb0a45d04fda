//! What goes out as text.

use kifzaro::{Error, Server};
use std::alloc::Global;
use std::test::Fail;

/// The text of a case so far.
#[derive(Drop)]
pub(crate) struct Text {
    alloc: Global,
    pub(crate) written: String,
}

impl Text {
    /// Nothing.
    pub(crate) fn new(alloc: Global) -> Text {
        Text {
            alloc,
            written: String::new(alloc),
        }
    }

    /// Adds a line.
    pub(crate) fn tell(&mut self, line: &str) -> Result<(), Fail> {
        self.written.push_str(line)?;
        self.written.push_str("\n")?;
        Ok(())
    }

    /// Adds a line of a word and a number.
    pub(crate) fn tell_number(&mut self, word: &str, number: u64) -> Result<(), Fail> {
        let line = format!(in self.alloc; "{word} {number}")?;
        self.tell(line.as_str())
    }

    /// Adds a line of a word and bytes, as hexadecimal digits.
    pub(crate) fn tell_bytes(&mut self, word: &str, bytes: &[u8]) -> Result<(), Fail> {
        let digits = hex::encode(self.alloc, bytes)?;
        self.written.push_str(word)?;
        self.written.push_str(" ")?;
        self.tell(digits.as_str())
    }

    /// Adds a line of the draw of a server, as `{:?}` shows it.
    pub(crate) fn tell_draw(&mut self, server: &Server) -> Result<(), Fail> {
        let shown = format!(in self.alloc; "{server:?}")?;
        let (_, behind) = shown.as_str().rsplit_once(", words: ").ok_or("no draw")?;
        let (words, _) = behind.split_once(", queue: ").ok_or("no queue")?;
        self.tell(words)
    }

    /// Adds a line of what an error tells.
    pub(crate) fn tell_error(&mut self, error: &Error) -> Result<(), Fail> {
        let line = format!(in self.alloc; "{error}")?;
        self.tell(line.as_str())
    }

    /// Adds a line of a word where a call is done, else of its error.
    pub(crate) fn tell_done(&mut self, word: &str, done: Result<(), Error>) -> Result<(), Fail> {
        match done {
            Ok(()) => self.tell(word),
            Err(error) => self.tell_error(&error),
        }
    }
}
