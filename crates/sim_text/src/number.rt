//! Numbers in decimal.

ghost use Rattle.std.specs.Prelude.{◌≡◌, ◌++◌, OnOk};

use itoa::{Buffer, Integer};
use octets::{Memory, Octets};
use std::alloc::Global;

/// Puts a number behind a text.
pub(crate) fn push_number<I: Integer>(
    alloc: Global,
    text: &mut Octets,
    number: I,
) -> Result<(), Memory>
    ensures { OnOk result (text.new ≡ text.old ++ I.text number) }
{
    let mut buffer = Buffer::new();
    text.push_all(alloc, buffer.format(number).as_bytes())
}
