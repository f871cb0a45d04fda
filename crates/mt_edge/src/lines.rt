//! Lines of a reader of std.

ghost use Rattle.std.specs.Prelude.{◌≡◌, ◌≢◌, ◌∷◌, [], IfSome, IsSomeAnd, length};
ghost use Rattle.std.specs.List.{All};
ghost use Rattle.mt_edge.specs.Lines.{HandsByte, ReadsLine, line_of};

use crate::answers::read_from;
use crate::source::Got;
use crate::spawner::Line;
use octets::{Memory, Octets};
use std::alloc::Global;
use std::io::Read;

/// The byte that ends a line.
const LINE_END: u8 = 10;

/// What a read of one byte gives.
#[derive(Clone, Copy)]
pub(crate) enum NextByte {
    /// The next byte.
    Byte(u8),
    /// Nothing is left.
    End,
    /// The read failed.
    Failed,
}

/// Reads one byte.
fn next_byte<R: Read>(reader: &mut R) -> NextByte
    ensures told { IfSome (R.remaining reader.old) (λ before. IsSomeAnd (R.remaining reader.new) (λ after. HandsByte result before after)) }
{
    let mut into = [0u8; 1];
    match read_from(reader, &mut into) {
        Got::Bytes(_) => NextByte::Byte(into[0]),
        Got::End => NextByte::End,
        Got::Failed => NextByte::Failed,
    }
}

/// What a read of a line gives.
pub(crate) enum NextLine {
    /// The next line, without its end.
    Text(Octets),
    /// No line is left.
    End,
    /// A read failed.
    Failed,
    /// No end of the line came within the bytes that it may have.
    TooLong,
    /// Memory ran out.
    Memory,
}

/// The answer of a spawner, by what a read of a line gave.
pub(crate) fn line_of(next: NextLine) -> Line
    ensures { result ≡ line_of next }
{
    match next {
        NextLine::Text(text) => Line::Text(text),
        NextLine::End => Line::End,
        NextLine::Failed | NextLine::TooLong => Line::Failed,
        NextLine::Memory => Line::Memory,
    }
}

/// The next line of a reader, where it is shorter than `max_bytes`; the last one may have no end.
pub(crate) fn read_line<R: Read>(alloc: Global, reader: &mut R, max_bytes: usize) -> NextLine
    ensures { ReadsLine max_bytes result (R.remaining reader.old) (R.remaining reader.new) }
{
    let mut text = Octets::new(alloc);
    'bytes: for _count in 0..max_bytes {
        match next_byte(reader) {
            NextByte::Byte(LINE_END) => return NextLine::Text(text),
            NextByte::Byte(byte) => {
                if let Err(Memory) = text.push_all(alloc, &[byte]) {
                    return NextLine::Memory;
                }
            }
            NextByte::End => return last_line(text),
            NextByte::Failed => return NextLine::Failed,
        }
    }
    NextLine::TooLong
}

/// The line at the end, where it has a byte.
fn last_line(text: Octets) -> NextLine
    ensures text { text ≢ [] → result ≡ NextLine.Text text }
    ensures end { text ≡ [] → result ≡ NextLine.End }
{
    if text.as_slice().is_empty() {
        NextLine::End
    } else {
        NextLine::Text(text)
    }
}
