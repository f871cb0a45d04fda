//! Reading TL values from the front of a text.

ghost use Rattle.std.specs.Prelude.{◌≡◌, ◌≢◌, ◌+◌, ◌*◌, ◌≤◌, [], length, IfOk, OnErr, IfErr, MatchResult, Ok, Err};
ghost use Rattle.octets.specs.Bytes.{IsBytes};
ghost use Rattle.tl_codec.specs.Standard.{bytes_max};
ghost use Rattle.tl_codec.specs.Spelling.{Int, Long, Raw, Bytes, Longs, Truth, Tag};
ghost use Rattle.tl_codec.specs.Reading.{Takes, NoFront, UnlessMemory, with_rest, lent, read_at, raw_at, head_at, longs_in};

use crate::fault::TlFault;
use crate::padding::{LONG_FORM, NO_FORM, padding_of};
use crate::tags::{BOOL_FALSE, BOOL_TRUE, LONG_BYTES, LONGS_MAX, VECTOR, WORD_BYTES};
use byteorder::{ByteOrder, LittleEndian};
use octets::{IdList, Memory};
use std::alloc::Global;
use std::marker::Model;

/// A place in a text. Contracts see it as the bytes that are left. A refused read leaves the place where
/// it was.
#[derive(Debug, Drop)]
pub struct Reader<'a> {
    left: &'a [u8],
}

impl<'a> Model for Reader<'a> {
    ghost use Rattle.std.specs.Prelude.{ℕ, List};

    ghost Value = { List ℕ };

    ghost use Rattle.octets.specs.Bytes.{IsBytes};

    ghost view = { λ reader. reader.left.now };

    ghost invariant = { λ reader. IsBytes reader.left.now };
}

impl<'a> Reader<'a> {
    /// A reader at the start of the text.
    pub fn new(bytes: &'a [u8]) -> Reader<'a>
        ensures { result ≡ bytes.now }
    {
        Reader { left: bytes }
    }

    /// Reads `n` raw bytes, as of an `int128` (16) or an `int256` (32).
    ///
    /// # Errors
    ///
    /// `Short` where fewer are left.
    #[tactic(auto, unfolding(crate::specs::Spelling::spelling))]
    pub fn raw(&mut self, n: usize) -> Result<&'a [u8], TlFault>
        ensures taken { IfOk result (λ bytes. Takes (Raw n) bytes.now self.old self.new) }
        ensures refused { OnErr result (NoFront (Raw n) self.old) }
        ensures exact { read_at (Raw n) self.old ≡ with_rest (lent result) self.new }
        ensures unchanged_on_fault { OnErr result (self.new ≡ self.old) }
    {
        let (field, left) = front_of(self.left, n)?;
        self.left = left;
        Ok(field)
    }

    /// Reads an `int`: 4 bytes, little-endian.
    ///
    /// # Errors
    ///
    /// `Short` where fewer are left.
    #[tactic(auto, unfolding(crate::specs::Reading::number_at, crate::specs::Spelling::spelling))]
    pub fn int(&mut self) -> Result<u32, TlFault>
        ensures taken { IfOk result (λ number. Takes Int number self.old self.new) }
        ensures refused { OnErr result (NoFront Int self.old) }
        ensures exact { read_at Int self.old ≡ with_rest result self.new }
        ensures unchanged_on_fault { OnErr result (self.new ≡ self.old) }
    {
        let (field, left) = front_of(self.left, WORD_BYTES)?;
        self.left = left;
        Ok(LittleEndian::read_u32(field))
    }

    /// Reads a `long`: 8 bytes, little-endian.
    ///
    /// # Errors
    ///
    /// `Short` where fewer are left.
    #[tactic(auto, unfolding(crate::specs::Reading::number_at, crate::specs::Spelling::spelling))]
    pub fn long(&mut self) -> Result<u64, TlFault>
        ensures taken { IfOk result (λ number. Takes Long number self.old self.new) }
        ensures refused { OnErr result (NoFront Long self.old) }
        ensures exact { read_at Long self.old ≡ with_rest result self.new }
        ensures unchanged_on_fault { OnErr result (self.new ≡ self.old) }
    {
        let (field, left) = front_of(self.left, LONG_BYTES)?;
        self.left = left;
        Ok(LittleEndian::read_u64(field))
    }

    /// Reads a `string` or `bytes`: the content, without its length and padding. The long form is taken
    /// for any length, and any bytes as padding.
    ///
    /// # Errors
    ///
    /// `Short` where fewer bytes are left than the whole field takes with its padding, or than 4 where
    /// its length isn't known yet. `BadTag` at the byte `ff`, which begins no string.
    #[tactic(auto, unfolding(crate::specs::Reading::bytes_at, crate::specs::Spelling::spelling))]
    pub fn bytes(&mut self) -> Result<&'a [u8], TlFault>
        ensures taken { IfOk result (λ bytes. Takes Bytes bytes.now self.old self.new) }
        ensures refused { OnErr result (NoFront Bytes self.old) }
        ensures exact { read_at Bytes self.old ≡ with_rest (lent result) self.new }
        ensures unchanged_on_fault { OnErr result (self.new ≡ self.old) }
    {
        let (head, len) = head_of(self.left)?;
        let size = head + len + padding_of(head + len);
        let (field, left) = front_of(self.left, size)?;
        self.left = left;
        Ok(&field[head..head + len])
    }

    /// Reads the constructor `want`.
    ///
    /// # Errors
    ///
    /// `Short` where fewer than 4 bytes are left. `BadTag` where another constructor stands.
    #[tactic(auto, unfolding(crate::specs::Reading::tag_at, crate::specs::Spelling::spelling))]
    pub fn tag(&mut self, want: u32) -> Result<(), TlFault>
        ensures taken { IfOk result (λ _. Takes (Tag want) tt self.old self.new) }
        ensures refused { OnErr result (NoFront (Tag want) self.old) }
        ensures exact { read_at (Tag want) self.old ≡ with_rest result self.new }
        ensures unchanged_on_fault { OnErr result (self.new ≡ self.old) }
    {
        let mut ahead = Reader::new(self.left);
        let found = ahead.int()?;
        if found != want {
            return Err(TlFault::BadTag { found });
        }
        self.left = ahead.left;
        Ok(())
    }

    /// Reads a `Bool`.
    ///
    /// # Errors
    ///
    /// `Short` where fewer than 4 bytes are left. `BadTag` where neither constructor of a `Bool` stands.
    #[tactic(auto, unfolding(crate::specs::Reading::truth_at, crate::specs::Spelling::spelling))]
    pub fn boolean(&mut self) -> Result<bool, TlFault>
        ensures taken { IfOk result (λ value. Takes Truth value self.old self.new) }
        ensures refused { OnErr result (NoFront Truth self.old) }
        ensures exact { read_at Truth self.old ≡ with_rest result self.new }
        ensures unchanged_on_fault { OnErr result (self.new ≡ self.old) }
    {
        let mut ahead = Reader::new(self.left);
        let value = match ahead.int()? {
            BOOL_TRUE => true,
            BOOL_FALSE => false,
            found => return Err(TlFault::BadTag { found }),
        };
        self.left = ahead.left;
        Ok(value)
    }

    /// Reads a `Vector long` of at most 8,192 numbers. Room for them is taken once, and only where they
    /// are all there.
    ///
    /// # Errors
    ///
    /// `Short` where constructor or count are cut, or a number, with what is left of the first one that
    /// isn't whole. `BadTag` where another constructor stands. `TooMany` at a greater count. `Memory`.
    #[tactic(auto, unfolding(crate::specs::Reading::longs_at, crate::specs::Spelling::spelling))]
    pub fn longs(&mut self, alloc: Global) -> Result<IdList, TlFault>
        ensures taken { IfOk result (λ numbers. Takes Longs numbers self.old self.new) }
        ensures refused { IfErr result (λ fault. fault ≢ TlFault.Memory → NoFront Longs self.old) }
        ensures exact { UnlessMemory result (read_at Longs self.old ≡ with_rest result self.new) }
        ensures unchanged_on_fault { OnErr result (self.new ≡ self.old) }
    {
        let mut ahead = Reader::new(self.left);
        ahead.tag(VECTOR)?;
        let claimed = ahead.int()?;
        let count = claimed as usize;
        if count > LONGS_MAX {
            return Err(TlFault::TooMany { count: claimed });
        }
        if ahead.left.len() < LONG_BYTES * count {
            return Err(TlFault::Short {
                need: LONG_BYTES,
                have: ahead.left.len() % LONG_BYTES,
            });
        }
        let numbers = numbers_of(alloc, count, ahead.left)?;
        let (_, left) = ahead.left.split_at(LONG_BYTES * count);
        self.left = left;
        Ok(numbers)
    }

    /// All that is left, which may be nothing. Never fails.
    pub fn rest(&mut self) -> &'a [u8]
        ensures taken { result.now ≡ self.old }
        ensures ended { self.new ≡ [] }
    {
        let rest = self.left;
        self.left = &[];
        rest
    }

    /// Answers whether the text has ended.
    ///
    /// # Errors
    ///
    /// `Extra` exactly where bytes are left.
    pub fn end(&self) -> Result<(), TlFault>
        ensures { MatchResult result (λ _. self.now ≡ []) (λ fault. (fault ≡ TlFault.Extra (length self.now)) × (self.now ≢ [])) }
    {
        if self.left.is_empty() {
            Ok(())
        } else {
            Err(TlFault::Extra {
                bytes: self.left.len(),
            })
        }
    }
}

// The first `size` bytes and what follows them.
fn front_of(text: &[u8], size: usize) -> Result<(&[u8], &[u8]), TlFault>
    ensures exact { MatchResult result (λ parts. raw_at size text.now ≡ Ok (parts.0.now, parts.1.now)) (λ fault. raw_at size text.now ≡ Err fault) }
    ensures texts { IfOk result (λ parts. IsBytes parts.1.now) }
{
    if text.len() < size {
        return Err(TlFault::Short {
            need: size,
            have: text.len(),
        });
    }
    Ok(text.split_at(size))
}

// How many bytes the length in front of a string takes, and the length.
#[tactic(auto, unfolding(crate::specs::Reading::head_at))]
fn head_of(bytes: &[u8]) -> Result<(usize, usize), TlFault>
    ensures exact { MatchResult result (λ found. head_at bytes.now ≡ Ok found) (λ fault. head_at bytes.now ≡ Err fault) }
    ensures sized { IfOk result (λ found. found.0 + found.1 ≤ WORD_BYTES + bytes_max) }
{
    match bytes {
        [] => Err(TlFault::Short {
            need: WORD_BYTES,
            have: 0,
        }),
        [LONG_FORM, a, b, c, ..] => Ok((
            WORD_BYTES,
            LittleEndian::read_u24(&[*a, *b, *c]) as usize,
        )),
        [LONG_FORM, ..] => Err(TlFault::Short {
            need: WORD_BYTES,
            have: bytes.len(),
        }),
        [NO_FORM, ..] => Err(TlFault::BadTag {
            found: u32::from(NO_FORM),
        }),
        [len, ..] => Ok((1, *len as usize)),
    }
}

// The first `count` numbers of the bytes, 8 bytes each, little-endian. Their room is taken once.
fn numbers_of(alloc: Global, count: usize, bytes: &[u8]) -> Result<IdList, Memory>
    requires { 8 * count ≤ length bytes.now }
    ensures { IfOk result (λ list. list ≡ longs_in count bytes.now) }
{
    let mut numbers = Vec::with_capacity(alloc, count)?;
    let mut left = bytes;
    for _ in 0..count {
        let (number, rest) = left.split_at(LONG_BYTES);
        numbers.push(LittleEndian::read_u64(number))?;
        left = rest;
    }
    Ok(IdList::from(numbers))
}
