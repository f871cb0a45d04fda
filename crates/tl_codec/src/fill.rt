//! Writing TL values into room that was taken before, so that no write fails.
//! Raw bytes are put by the buffer's own `push_all`.

ghost use Rattle.std.specs.Prelude.{◌≡◌, ◌≤◌, ◌+◌, ◌*◌, ◌++◌, length, replicate};
ghost use Rattle.std.specs.List.{flat_map};
ghost use Rattle.byteorder.specs.Endian.{little_bytes};
ghost use Rattle.tl_codec.specs.Standard.{bytes_max, longs_max};
ghost use Rattle.tl_codec.specs.Spelling as spelling;
ghost use Rattle.tl_codec.specs.Spelling.{Int, Long, Bytes, Longs, Truth, Tag, size_of};
ghost use Rattle.tl_codec.specs.Writing.{Appends};

use crate::padding::{LONG_FORM, padding_of};
use crate::tags::{BOOL_FALSE, BOOL_TRUE, LONG_BYTES, VECTOR, WORD_BYTES};
use byteorder::{ByteOrder, LittleEndian};
use octets::Buffer;

/// Writes an `int`: 4 bytes, little-endian.
#[tactic(auto, unfolding(crate::specs::Spelling::spelling))]
pub fn int(into: &mut Buffer, v: u32)
    requires { 4 ≤ into.old.room }
    ensures appended { Appends Int v into.old.bytes into.new.bytes }
    ensures room { into.new.room + 4 ≡ into.old.room }
{
    let mut bytes = [0; WORD_BYTES];
    LittleEndian::write_u32(&mut bytes, v);
    into.push_all(&bytes);
}

/// Writes the constructor number of a boxed object.
#[tactic(auto, unfolding(crate::specs::Spelling::spelling))]
pub fn tag(into: &mut Buffer, number: u32)
    requires { 4 ≤ into.old.room }
    ensures appended { Appends (Tag number) tt into.old.bytes into.new.bytes }
    ensures room { into.new.room + 4 ≡ into.old.room }
{
    int(into, number);
}

/// Writes a `long`: 8 bytes, little-endian.
#[tactic(auto, unfolding(crate::specs::Spelling::spelling))]
pub fn long(into: &mut Buffer, v: u64)
    requires { 8 ≤ into.old.room }
    ensures appended { Appends Long v into.old.bytes into.new.bytes }
    ensures room { into.new.room + 8 ≡ into.old.room }
{
    let mut bytes = [0; LONG_BYTES];
    LittleEndian::write_u64(&mut bytes, v);
    into.push_all(&bytes);
}

/// Writes a `Bool`: 4 bytes.
#[tactic(auto, unfolding(crate::specs::Spelling::spelling))]
pub fn boolean(into: &mut Buffer, v: bool)
    requires { 4 ≤ into.old.room }
    ensures appended { Appends Truth v into.old.bytes into.new.bytes }
    ensures room { into.new.room + 4 ≡ into.old.room }
{
    int(into, if v { BOOL_TRUE } else { BOOL_FALSE });
}

/// How many bytes a `string` or `bytes` of `len` bytes takes, with its length and padding.
pub fn string_size(len: usize) -> usize
    requires { len ≤ bytes_max }
    ensures { result ≡ spelling.string_size len }
{
    let head = if len < LONG_FORM as usize {
        1
    } else {
        WORD_BYTES
    };
    head + len + padding_of(head + len)
}

/// Writes a `string` or `bytes`: the length in its short form where it fits, and zeros as padding.
#[tactic(auto, unfolding(crate::specs::Spelling::spelling))]
pub fn bytes(into: &mut Buffer, v: &[u8])
    requires fits { length v.now ≤ bytes_max }
    requires room { size_of Bytes v.now ≤ into.old.room }
    ensures appended { Appends Bytes v.now into.old.bytes into.new.bytes }
    ensures room { into.new.room + size_of Bytes v.now ≡ into.old.room }
{
    if v.len() < LONG_FORM as usize {
        padded(into, &[v.len() as u8], v);
    } else {
        let mut front = [LONG_FORM; WORD_BYTES];
        LittleEndian::write_u24(&mut front[1..], v.len() as u32);
        padded(into, &front, v);
    }
}

// Writes a string behind its length, and zeros to a multiple of 4.
fn padded(into: &mut Buffer, front: &[u8], content: &[u8])
    requires front { length front.now ≤ WORD_BYTES }
    requires content { length content.now ≤ bytes_max }
    requires room { length front.now + length content.now + spelling.padding_of (length front.now + length content.now) ≤ into.old.room }
    ensures appended { into.new.bytes
        ≡ into.old.bytes ++ (front.now ++ content.now ++ replicate (spelling.padding_of (length front.now + length content.now)) 0) }
    ensures room { into.new.room + (length front.now + length content.now + spelling.padding_of (length front.now + length content.now)) ≡ into.old.room }
{
    let padding = [0; 3];
    let size = padding_of(front.len() + content.len());
    into.push_all(front);
    into.push_all(content);
    into.push_all(&padding[..size]);
}

/// Writes a `Vector long`: its constructor, its count and the numbers.
#[tactic(auto, unfolding(crate::specs::Spelling::spelling))]
pub fn longs(into: &mut Buffer, v: &[u64])
    requires fits { length v.now ≤ longs_max }
    requires room { size_of Longs v.now ≤ into.old.room }
    ensures appended { Appends Longs v.now into.old.bytes into.new.bytes }
    ensures room { into.new.room + size_of Longs v.now ≡ into.old.room }
{
    tag(into, VECTOR);
    int(into, v.len() as u32);
    numbers(into, v);
}

// Writes the numbers, 8 bytes each.
#[tactic(auto, unfolding(crate::specs::Spelling::spelling))]
fn numbers(into: &mut Buffer, v: &[u64])
    requires { 8 * length v.now ≤ into.old.room }
    ensures appended { into.new.bytes ≡ into.old.bytes ++ flat_map (little_bytes 8) v.now }
    ensures room { into.new.room + 8 * length v.now ≡ into.old.room }
{
    for number in v {
        long(into, *number);
    }
}
