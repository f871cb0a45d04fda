//! The fields of an item, written one after the other into room that was taken before.

ghost use Rattle.std.specs.Prelude.{◌≡◌, ◌≤◌, ◌<◌, ◌^◌, ◌+◌, ◌*◌, ◌++◌, length, sum_by, IfSome};
ghost use Rattle.std.specs.List.{AllByRecursion};
ghost use Rattle.service_tl.specs.Fields.{Salts, Bodies, FieldFits, MessageFits, salt_row, message_row, field_spelling};
ghost use Rattle.service_tl.specs.Parts.{part_spelling, part_size, parts_size, message_size, boxed, PartFits};

use crate::lists::{FutureSalt, Message};
use octets::Buffer;
use tl_codec::fill;

const INT_BYTES: usize = 4;

const LONG_BYTES: usize = 8;

/// A field as it is written. `End` is no field, and fills up an array of them.
#[derive(Clone, Copy)]
pub(crate) enum Part<'a> {
    Int(u32),
    Long(u64),
    Bytes(&'a [u8]),
    Longs(&'a [u64]),
    Rest(&'a [u8]),
    Salts(&'a [FutureSalt]),
    Bodies(&'a [Message]),
    End,
}

/// How many bytes a constructor and the parts behind it take; none where there are too many to count.
pub(crate) fn size_of_parts(parts: &[Part<'_>; 4]) -> Option<usize>
    requires { AllByRecursion PartFits parts.now }
    ensures { IfSome result (λ size. size ≡ 4 + parts_size parts.now) }
{
    let [a, b, c, d] = parts;
    INT_BYTES
        .checked_add(size_of_part(a)?)?
        .checked_add(size_of_part(b)?)?
        .checked_add(size_of_part(c)?)?
        .checked_add(size_of_part(d)?)
}

fn size_of_part(part: &Part<'_>) -> Option<usize>
    requires { PartFits part.now }
    ensures { IfSome result (λ size. size ≡ part_size part.now) }
{
    match part {
        Part::Int(_) => Some(INT_BYTES),
        Part::Long(_) => Some(LONG_BYTES),
        Part::Bytes(content) => Some(fill::string_size(content.len())),
        Part::Longs(numbers) => Some(2 * INT_BYTES + LONG_BYTES * numbers.len()),
        Part::Rest(content) => Some(content.len()),
        Part::Salts(rows) => Some(INT_BYTES + (2 * INT_BYTES + LONG_BYTES) * rows.len()),
        Part::Bodies(messages) => size_of_messages(messages),
        Part::End => Some(0),
    }
}

fn size_of_messages(messages: &[Message]) -> Option<usize>
    ensures { IfSome result (λ size. size ≡ 4 + sum_by message_size messages.now) }
{
    let mut size = INT_BYTES;
    for message in messages {
        size = size
            .checked_add(LONG_BYTES + 2 * INT_BYTES)?
            .checked_add(message.body.as_slice().len())?;
    }
    Some(size)
}

/// Writes a constructor and the parts behind it.
pub(crate) fn fill_boxed(into: &mut Buffer, number: u32, parts: &[Part<'_>; 4])
    requires fits { AllByRecursion PartFits parts.now }
    requires room { 4 + parts_size parts.now ≤ into.old.room }
    ensures { into.new.bytes ≡ into.old.bytes ++ boxed number parts.now }
{
    let [a, b, c, d] = parts;
    fill::int(into, number);
    fill_part(into, a);
    fill_part(into, b);
    fill_part(into, c);
    fill_part(into, d);
}

fn fill_part(into: &mut Buffer, part: &Part<'_>)
    requires fits { PartFits part.now }
    requires room { part_size part.now ≤ into.old.room }
    ensures appended { into.new.bytes ≡ into.old.bytes ++ part_spelling part.now }
    ensures room { into.new.room + part_size part.now ≡ into.old.room }
{
    match part {
        Part::Int(value) => fill::int(into, *value),
        Part::Long(value) => fill::long(into, *value),
        Part::Bytes(content) => fill::bytes(into, content),
        Part::Longs(numbers) => fill::longs(into, numbers),
        Part::Rest(content) => into.push_all(content),
        Part::Salts(rows) => fill_salts(into, rows),
        Part::Bodies(messages) => fill_messages(into, messages),
        Part::End => {}
    }
}

fn fill_salts(into: &mut Buffer, rows: &[FutureSalt])
    requires few { length rows.now < 2 ^ 32 }
    requires room { 4 + 16 * length rows.now ≤ into.old.room }
    ensures appended { into.new.bytes ≡ into.old.bytes ++ field_spelling Salts rows.now }
    ensures room { into.new.room + (4 + 16 * length rows.now) ≡ into.old.room }
{
    fill::int(into, rows.len() as u32);
    for row in rows {
        fill_salt(into, row);
    }
}

fn fill_salt(into: &mut Buffer, row: &FutureSalt)
    requires { 16 ≤ into.old.room }
    ensures appended { into.new.bytes ≡ into.old.bytes ++ salt_row row.now }
    ensures room { into.new.room + 16 ≡ into.old.room }
{
    fill::int(into, row.valid_since);
    fill::int(into, row.valid_until);
    fill::long(into, row.salt);
}

fn fill_messages(into: &mut Buffer, messages: &[Message])
    requires fits { FieldFits Bodies messages.now }
    requires room { 4 + sum_by message_size messages.now ≤ into.old.room }
    ensures appended { into.new.bytes ≡ into.old.bytes ++ field_spelling Bodies messages.now }
    ensures room { into.new.room + (4 + sum_by message_size messages.now) ≡ into.old.room }
{
    fill::int(into, messages.len() as u32);
    for message in messages {
        fill_message(into, message);
    }
}

fn fill_message(into: &mut Buffer, message: &Message)
    requires fits { MessageFits message.now }
    requires room { message_size message.now ≤ into.old.room }
    ensures appended { into.new.bytes ≡ into.old.bytes ++ message_row message.now }
    ensures room { into.new.room + message_size message.now ≡ into.old.room }
{
    let body = message.body.as_slice();
    fill::long(into, message.number);
    fill::int(into, message.seq);
    fill::int(into, body.len() as u32);
    into.push_all(body);
}
