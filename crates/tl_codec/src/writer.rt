//! Writing TL values at the end of octets.

ghost use Rattle.std.specs.Prelude.{◌≡◌, ◌≤◌, ◌++◌, length, OnOk, OnErr};
ghost use Rattle.tl_codec.specs.Standard.{bytes_max, longs_max};
ghost use Rattle.tl_codec.specs.Spelling.{Int, Long, Bytes, Longs, Truth, Tag};

use crate::fill;
use crate::tags::{LONG_BYTES, WORD_BYTES};
use octets::{Buffer, Memory, Octets};
use std::alloc::Global;
use std::marker::Model;

/// Writes TL values at the end of the octets that it was made for.
#[derive(Debug, Drop)]
pub struct Writer<'a> {
    into: &'a mut Octets,
}

impl<'a> Model for Writer<'a> {
    ghost use Rattle.std.specs.Prelude.{List, ℕ};
    ghost use Rattle.std.specs.Borrow.{MutBor};

    ghost Value = { MutBor (List ℕ) };

    ghost view = { λ writer. writer.into };

    ghost inverse = { λ into. record { into = into } };
}

impl<'a> Writer<'a> {
    ghost use Rattle.tl_codec.specs.Writing.{Appends, WritesInto, IsSameText, text_of};

    /// A writer at the end of the octets.
    pub fn new(into: &'a mut Octets) -> Writer<'a>
        ensures same_text { WritesInto into.entry result }
        ensures text { text_of result ≡ into.old }
    {
        Writer { into }
    }

    /// Writes an `int`: 4 bytes, little-endian.
    ///
    /// # Errors
    ///
    /// `Memory`, and then the text is as it was, here and below.
    #[tactic(auto, unfolding(crate::specs::Spelling::spelling))]
    pub fn int(&mut self, alloc: Global, v: u32) -> Result<(), Memory>
        ensures same_text { IsSameText self.old self.new }
        ensures appended { OnOk result (Appends Int v (text_of self.old) (text_of self.new)) }
        ensures unchanged_on_memory { OnErr result (text_of self.new ≡ text_of self.old) }
    {
        let mut buffer = Buffer::after(alloc, self.into, WORD_BYTES)?;
        fill::int(&mut buffer, v);
        *self.into = buffer.into_octets();
        Ok(())
    }

    /// Writes the constructor number of a boxed object.
    ///
    /// # Errors
    ///
    /// `Memory`.
    #[tactic(auto, unfolding(crate::specs::Spelling::spelling))]
    pub fn tag(&mut self, alloc: Global, number: u32) -> Result<(), Memory>
        ensures same_text { IsSameText self.old self.new }
        ensures appended { OnOk result (Appends (Tag number) tt (text_of self.old) (text_of self.new)) }
        ensures unchanged_on_memory { OnErr result (text_of self.new ≡ text_of self.old) }
    {
        self.int(alloc, number)
    }

    /// Writes a `long`: 8 bytes, little-endian.
    ///
    /// # Errors
    ///
    /// `Memory`.
    pub fn long(&mut self, alloc: Global, v: u64) -> Result<(), Memory>
        ensures same_text { IsSameText self.old self.new }
        ensures appended { OnOk result (Appends Long v (text_of self.old) (text_of self.new)) }
        ensures unchanged_on_memory { OnErr result (text_of self.new ≡ text_of self.old) }
    {
        let mut buffer = Buffer::after(alloc, self.into, LONG_BYTES)?;
        fill::long(&mut buffer, v);
        *self.into = buffer.into_octets();
        Ok(())
    }

    /// Writes a `Bool`.
    ///
    /// # Errors
    ///
    /// `Memory`.
    pub fn boolean(&mut self, alloc: Global, v: bool) -> Result<(), Memory>
        ensures same_text { IsSameText self.old self.new }
        ensures appended { OnOk result (Appends Truth v (text_of self.old) (text_of self.new)) }
        ensures unchanged_on_memory { OnErr result (text_of self.new ≡ text_of self.old) }
    {
        let mut buffer = Buffer::after(alloc, self.into, WORD_BYTES)?;
        fill::boolean(&mut buffer, v);
        *self.into = buffer.into_octets();
        Ok(())
    }

    /// Writes raw bytes.
    ///
    /// # Errors
    ///
    /// `Memory`.
    pub fn raw(&mut self, alloc: Global, v: &[u8]) -> Result<(), Memory>
        ensures same_text { IsSameText self.old self.new }
        ensures appended { OnOk result (text_of self.new ≡ text_of self.old ++ v.now) }
        ensures unchanged_on_memory { OnErr result (text_of self.new ≡ text_of self.old) }
    {
        self.into.push_all(alloc, v)
    }

    /// Writes a `string` or `bytes` of at most 16,777,215 bytes: the length in its short form where it
    /// fits, and zeros as padding.
    ///
    /// # Errors
    ///
    /// `Memory`.
    pub fn bytes(&mut self, alloc: Global, v: &[u8]) -> Result<(), Memory>
        requires { length v.now ≤ bytes_max }
        ensures same_text { IsSameText self.old self.new }
        ensures appended { OnOk result (Appends Bytes v.now (text_of self.old) (text_of self.new)) }
        ensures unchanged_on_memory { OnErr result (text_of self.new ≡ text_of self.old) }
    {
        let mut buffer = Buffer::after(alloc, self.into, fill::string_size(v.len()))?;
        fill::bytes(&mut buffer, v);
        *self.into = buffer.into_octets();
        Ok(())
    }

    /// Writes a `Vector long` of at most 8,192 numbers.
    ///
    /// # Errors
    ///
    /// `Memory`.
    pub fn longs(&mut self, alloc: Global, v: &[u64]) -> Result<(), Memory>
        requires { length v.now ≤ longs_max }
        ensures same_text { IsSameText self.old self.new }
        ensures appended { OnOk result (Appends Longs v.now (text_of self.old) (text_of self.new)) }
        ensures unchanged_on_memory { OnErr result (text_of self.new ≡ text_of self.old) }
    {
        let room = 2 * WORD_BYTES + LONG_BYTES * v.len();
        let mut buffer = Buffer::after(alloc, self.into, room)?;
        fill::longs(&mut buffer, v);
        *self.into = buffer.into_octets();
        Ok(())
    }
}
