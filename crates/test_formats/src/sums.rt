//! The check of 32 bits: values of catalogues and of zlib, and a caller's try.

ghost use Rattle.std.specs.Prelude.{◌≡◌, ◌++◌};
ghost use Rattle.crc_core.specs.Crc32.{crc32};

use crate::digits::array_of;
use crate::rows::{Asked, are_so};
use crc_core::{Crc, crc32};
use std::alloc::Global;
use std::test::Fail;
use test_asserts::{same, same_at};
use test_lines::bytes_of;

// Checks, and the texts as digits. The first is the check value of the catalogues of such checks, of `123456789`; the others are by
// Python's `zlib.crc32`, of no text, of `a`, of four zeros, and of a sentence on a quick brown fox.
const CHECKS: &str = "\
cbf43926 | 313233343536373839\n\
00000000 | \n\
e8b7be43 | 61\n\
2144df1c | 00000000\n\
414fa339 | 54686520717569636b2062726f776e20666f78206a756d7073206f76657220746865206c617a7920646f67\n";

// The check of a text that comes in pieces of this size.
fn in_pieces(text: &[u8], size: usize) -> u32 {
    let mut crc = Crc::new();
    for piece in text.chunks(size.max(1)) {
        crc.push(piece);
    }
    crc.value()
}

// The checks of a text, whole and in pieces.
fn checks(text: &[u8]) -> [u32; 4] {
    [
        crc32(text),
        in_pieces(text, 1),
        in_pieces(text, 7),
        in_pieces(text, 43),
    ]
}

/// A text of these digits has this check, whole and in pieces.
pub(crate) fn has_check(alloc: Global, digits: &str, want: &str) -> Result<(), Fail> {
    let text = bytes_of(alloc, digits)?;
    let checks = checks(text.as_slice());
    drop(text);
    let want: [u8; 4] = array_of(alloc, want)?;
    same_at(digits, checks, [u32::from_be_bytes(want); 4])
}

#[test]
fn checks_of_texts_whole_and_in_pieces(rt: HostRuntime) -> Result<(), Fail> {
    are_so(rt.alloc(), Asked::Check, CHECKS, 5)
}

// A caller that has a text in two pieces needs no lemma.
fn of_two_pieces(front: &[u8], back: &[u8]) -> u32
    ensures { result ≡ crc32 (front.now ++ back.now) }
{
    let mut crc = Crc::new();
    crc.push(front);
    crc.push(back);
    crc.value()
}

#[test]
fn a_sum_goes_on_after_it_is_read() -> Result<(), Fail> {
    let mut crc = Crc::new();
    crc.push(b"a");
    let first = crc.value();
    crc.push(b"b");
    let second = crc.value();
    same(of_two_pieces(b"1234", b"56789"), 0xcbf43926)?;
    same([first, second], [0xe8b7be43, crc32(b"ab")])
}
