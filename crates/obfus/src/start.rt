//! The 64 bytes that a connection starts with, before they are enciphered.

ghost use Rattle.std.specs.Prelude.{◌≡◌, drop};
ghost use Rattle.draws.specs.Draws.{draw_after, next_bytes};
ghost use Rattle.obfus.specs.Starts.{begins_as_another, begins_full, first_mended, marked, next_mended, start_of};

use crate::tag::Tag;
use draws::{Draw, draw_bytes};

/// The bytes of a start.
pub const START_BYTES: usize = 64;

/// The 64 bytes that a connection starts with.
pub(crate) type Start = [u8; START_BYTES];

// What stands in place of a byte that would look like another connection.
const MENDED: u8 = 0x01;

// Whether the bytes begin as no start may.
fn begins_as_another(start: &Start) -> bool
    ensures { result ≡ begins_as_another start.now }
{
    start.starts_with(b"\xef")
        || start.starts_with(b"HEAD")
        || start.starts_with(b"POST")
        || start.starts_with(b"GET ")
        || start.starts_with(b"OPTI")
        || start.starts_with(b"\x16\x03\x01\x02")
        || start.starts_with(b"\xdd\xdd\xdd\xdd")
        || start.starts_with(b"\xee\xee\xee\xee")
}

// Whether bytes 4 to 7 are zero, as in a first frame of the full form.
fn begins_full(start: &Start) -> bool
    ensures { result ≡ begins_full start.now }
{
    start[4..].starts_with(b"\0\0\0\0")
}

// Puts the tag and the data centre in their place.
fn mark(start: &mut Start, tag: Tag, dc: u16)
    ensures { start.new ≡ marked tag dc start.old }
{
    start[56..60].copy_from_slice(&tag.bytes());
    start[60..62].copy_from_slice(&dc.to_le_bytes());
}

/// Draws the start of a form and a data centre.
#[tactic(auto, unfolding(crate::specs::Starts::start_of))]
pub(crate) fn drawn_start<D: Draw>(draw: &mut D, tag: Tag, dc: u16) -> Start
    ensures start { result ≡ start_of tag dc (next_bytes D.step 64 draw.old) }
    ensures drawn { draw.new ≡ draw_after D.step 8 draw.old }
{
    let mut start = [0; START_BYTES];
    draw_bytes(draw, &mut start);
    mend(&mut start);
    mark(&mut start, tag, dc);
    start
}

// Changes bytes that would look like another connection.
fn mend(start: &mut Start)
    ensures { start.new ≡ next_mended (first_mended start.old) }
{
    if begins_as_another(start) {
        start[0] = MENDED;
    }
    if begins_full(start) {
        start[4] = MENDED;
    }
}
