//! TL values: the worked texts of each form.

ghost use Rattle.std.specs.Prelude.{◌≡◌, ◌≤◌, ◌++◌, length, OnOk, Ok, OnErr};
ghost use Rattle.tl_codec.specs.Standard.{bytes_max};
ghost use Rattle.tl_codec.specs.Spelling.{Bytes, Truth, Tag, spelling};
ghost use Rattle.tl_codec.specs.Reading.{read_at, with_rest, lent};

use crate::rows::are_so;
use octets::Buffer;
use std::alloc::Global;
use std::test::*;
use test_asserts::{holds, same, shown, tells};
use tl_codec::{Memory, Octets, Reader, TlFault, Writer, fill};

// 254 bytes of content, behind the length in its long form and before two zeros.
fn sevens(alloc: Global) -> Result<Octets, Memory> {
    let mut text = Octets::copy(alloc, &[0xfe, 0xfe, 0, 0])?;
    text.push_all(alloc, content().as_slice())?;
    text.push_all(alloc, &[0, 0])?;
    Ok(text)
}

fn spelt(alloc: Global, content: &[u8]) -> Result<Octets, Memory>
    requires { length content.now ≤ bytes_max }
{
    let mut text = Octets::new(alloc);
    let mut writer = Writer::new(&mut text);
    writer.bytes(alloc, content)?;
    Ok(text)
}

// The spelling of a content is this text.
fn is_spelt(alloc: Global, content: &[u8], text: &[u8]) -> Result<(), Fail>
    requires { length content.now ≤ bytes_max }
{
    let spelt = spelt(alloc, content)?;
    let is_so = spelt.as_slice() == text;
    drop(spelt);
    holds(is_so)
}

#[test]
fn strings_are_padded(rt: HostRuntime) -> Result<(), Fail> {
    is_spelt(rt.alloc(), &[], &[0; 4])?;
    is_spelt(rt.alloc(), b"abc", b"\x03abc")
}

// Content of 254 bytes. No contract says what it is: such a list is computed by all that looks at it.
fn content() -> [u8; 254] {
    [7; 254]
}

// The spelling of the first bytes of this content, so many.
fn spelt_front(alloc: Global, count: usize) -> Result<Octets, Fail> {
    let content = content();
    let front = content.get(..count).ok_or("too long")?;
    Ok(spelt(alloc, front)?)
}

// Whether a text has 256 bytes, of which the first and the last are those of the last short length.
fn is_short(text: &[u8]) -> bool {
    text.len() == 256 && text.starts_with(&[0xfd, 7]) && text.ends_with(&[7, 0, 0])
}

#[test]
fn the_last_short_length(rt: HostRuntime) -> Result<(), Fail> {
    let short = spelt_front(rt.alloc(), 253)?;
    let is_short = is_short(short.as_slice());
    drop(short);
    holds(is_short)
}

#[test]
fn the_first_long_length(rt: HostRuntime) -> Result<(), Fail> {
    let want = sevens(rt.alloc())?;
    let done = are_long(rt.alloc(), want.as_slice());
    drop(want);
    done
}

// The spelling of that content is this text, and it is read from it.
fn are_long(alloc: Global, text: &[u8]) -> Result<(), Fail> {
    let is_read = Reader::new(text).bytes() == Ok(content().as_slice());
    let long = spelt_front(alloc, 254)?;
    let is_spelt = long.as_slice() == text;
    drop(long);
    same([is_spelt, is_read], [true, true])
}

/// The string at the front of a text, as `{:?}` shows it.
pub(crate) fn string(alloc: Global, text: &[u8]) -> Result<String, Fail> {
    Ok(shown(alloc, &Reader::new(text).bytes())?)
}

const STRINGS: &str = "\
string 00000000 Ok([])\n\
string 03616263 Ok([97, 98, 99])\n\
string fe03000061626309 Ok([97, 98, 99])\n\
string 0361 Err(Short { need: 4, have: 2 })\n\
string fe0300 Err(Short { need: 4, have: 3 })\n\
string ff Err(BadTag { found: 255 })\n";

#[test]
fn strings_are_read(rt: HostRuntime) -> Result<(), Fail> {
    are_so(rt.alloc(), STRINGS, 6)
}

/// The truth at the front of a text, likewise.
pub(crate) fn truth(alloc: Global, text: &[u8]) -> Result<String, Fail> {
    Ok(shown(alloc, &Reader::new(text).boolean())?)
}

const TRUTHS: &str = "\
truth b5757299 Ok(true)\n\
truth 379779bc Ok(false)\n\
truth 00000000 Err(BadTag { found: 0 })\n";

#[test]
fn truths_are_read(rt: HostRuntime) -> Result<(), Fail> {
    are_so(rt.alloc(), TRUTHS, 3)
}

// The same values behind a text, of which the room is taken once and which are written in place.
fn filled(
    alloc: Global,
    text: &mut Octets,
    number: u32,
    name: &[u8],
    found: bool,
) -> Result<(), Memory>
    requires { length name.now ≤ bytes_max }
    ensures appended { OnOk result (text.new ≡ text.old ++ (spelling (Tag number) tt ++ (spelling Bytes name.now ++ spelling Truth found))) }
    ensures unchanged_on_memory { OnErr result (text.new ≡ text.old) }
{
    let mut buffer = Buffer::after(alloc, text, 8 + fill::string_size(name.len()))?;
    fill::tag(&mut buffer, number);
    fill::bytes(&mut buffer, name);
    fill::boolean(&mut buffer, found);
    *text = buffer.into_octets();
    Ok(())
}

// A caller that reads: a refused read leaves the place where it was, so another form can be tried.
fn number_or_name<'a>(reader: &mut Reader<'a>, number: u32) -> Result<&'a [u8], TlFault>
    ensures numbered { OnOk (read_at (Tag number) reader.old) (OnOk result (read_at (Tag number) reader.old ≡ Ok (tt, reader.new))) }
    ensures named { OnErr (read_at (Tag number) reader.old) (read_at Bytes reader.old ≡ with_rest (lent result) reader.new) }
{
    match reader.tag(number) {
        Ok(()) => Ok(&[]),
        Err(_) => reader.bytes(),
    }
}

#[test]
fn values_are_read_again(rt: HostRuntime) -> Result<(), Fail> {
    let alloc = rt.alloc();
    let mut text = Octets::new(alloc);
    filled(alloc, &mut text, 1, b"abcd", true)?;
    let bytes = b"\x01\0\0\0\x04abcd\0\0\0\xb5\x75\x72\x99";
    same(text.as_slice(), bytes.as_slice())?;
    are_read(text.as_slice())
}

// The number 1, a name and a truth are read.
fn are_read(text: &[u8]) -> Result<(), Fail> {
    let mut reader = Reader::new(text);
    let is_number = number_or_name(&mut reader, 1) == Ok([].as_slice());
    let is_name = number_or_name(&mut reader, 1) == Ok(b"abcd".as_slice());
    let is_true = reader.boolean() == Ok(true);
    same([is_number, is_name, is_true], [true; 3])
}

#[test]
fn faults_are_told(rt: HostRuntime) -> Result<(), Fail> {
    let fault = TlFault::BadTag { found: 255 };
    let told = "constructor 000000ff is another than the one that is due";
    tells(rt.alloc(), &fault, told)?;
    tells(rt.alloc(), &TlFault::from(Memory), "out of memory")
}

// A constructor, a number and 16 bytes.
const FIELDS: &[u8] =
    b"\xec\x77\xbe\x7a\x01\x02\x03\x04\x05\x06\x07\x08\x09\x09\x09\x09\x09\x09\x09\x09\x09\x09\x09\x09\x09\x09\x09\x09";

#[test]
fn fields_are_written_one_after_the_other(rt: HostRuntime) -> Result<(), Fail> {
    let alloc = rt.alloc();
    let mut text = Octets::new(alloc);
    write_fields(alloc, &mut text)?;
    same(text.as_slice(), FIELDS)
}

fn write_fields(alloc: Global, text: &mut Octets) -> Result<(), Memory> {
    let mut writer = Writer::new(text);
    writer.tag(alloc, 0x7abe77ec)?;
    writer.long(alloc, 0x0807060504030201)?;
    writer.raw(alloc, &[9; 16])
}

#[test]
fn fields_are_read_one_after_the_other() -> Result<(), Fail> {
    let mut reader = Reader::new(FIELDS);
    same(
        reader.tag(0x62d6b459),
        Err(TlFault::BadTag { found: 0x7abe77ec }),
    )?;
    same(reader.tag(0x7abe77ec), Ok(()))?;
    same(reader.long(), Ok(0x0807060504030201))?;
    same(reader.end(), Err(TlFault::Extra { bytes: 16 }))?;
    Ok(())
}

#[test]
fn what_is_left_is_told() -> Result<(), Fail> {
    let mut reader = Reader::new(&[9; 16]);
    let is_read = reader.raw(12) == Ok([9; 12].as_slice());
    let ints = [reader.int(), reader.int()];
    let left = (is_read, reader.rest().len(), reader.end());
    let short = TlFault::Short { need: 4, have: 0 };
    same(ints, [Ok(0x09090909), Err(short)])?;
    same(left, (true, 0, Ok(())))
}

// A list with the one number 4.
const LIST: &[u8] = b"\x15\xc4\xb5\x1c\x01\0\0\0\x04\0\0\0\0\0\0\0";

fn written_list(alloc: Global) -> Result<Octets, Memory> {
    let mut text = Octets::new(alloc);
    let written = Writer::new(&mut text).longs(alloc, &[4]);
    match written {
        Ok(()) => Ok(text),
        Err(memory) => {
            drop(text);
            Err(memory)
        }
    }
}

#[test]
fn a_list_is_written_and_read(rt: HostRuntime) -> Result<(), Fail> {
    let text = written_list(rt.alloc())?;
    let is_written = text.as_slice() == LIST;
    drop(text);
    let read = Reader::new(LIST).longs(rt.alloc())?;
    let is_read = read.ids() == [4].as_slice();
    drop(read);
    same([is_written, is_read], [true, true])
}

/// Why a list of numbers at the front of a text isn't read, likewise. The reader stays where it was.
pub(crate) fn refused_list(alloc: Global, text: &[u8]) -> Result<String, Fail> {
    let mut reader = Reader::new(text);
    let fault = reader.longs(alloc).err();
    same(reader.rest(), text)?;
    Ok(shown(alloc, &fault)?)
}

const REFUSED: &str = "\
list 15c4b51c0100000004000000000000 Some(Short { need: 8, have: 7 })\n\
list 15c4b51c01200000 Some(TooMany { count: 8193 })\n\
list 15c4b51c00200000 Some(Short { need: 8, have: 0 })\n\
list 0100000004000000 Some(BadTag { found: 1 })\n";

#[test]
fn lists_are_refused(rt: HostRuntime) -> Result<(), Fail> {
    are_so(rt.alloc(), REFUSED, 4)
}
