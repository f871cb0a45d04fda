//! Reading the fields of items: one function for each form that owns memory.

ghost use Rattle.std.specs.Prelude.{◌≡◌, ◌<◌, ◌^◌, length, IfOk};
ghost use Rattle.tl_codec.specs.Spelling.{Bytes};
ghost use Rattle.tl_codec.specs.Reading.{read_at};
ghost use Rattle.service_tl.specs.Fields.{Rest, Salts, Bodies, field_at, salt_at, message_at, items_at};
ghost use Rattle.service_tl.specs.Parts.{Answers};

use crate::lists::{FutureSalt, FutureSaltList, Message, Messages};
use std::alloc::Global;
use tl_codec::{Octets, Reader, TlFault};

/// A `string` or `bytes`.
pub(crate) fn octets(alloc: Global, reader: &mut Reader<'_>) -> Result<Octets, TlFault>
    ensures { Answers result reader.new (read_at Bytes reader.old) }
{
    let content = reader.bytes()?;
    Ok(Octets::copy(alloc, content)?)
}

/// The rest of the body.
pub(crate) fn rest(alloc: Global, reader: &mut Reader<'_>) -> Result<Octets, TlFault>
    ensures { Answers result reader.new (field_at Rest reader.old) }
{
    Ok(Octets::copy(alloc, reader.rest())?)
}

#[tactic(auto, unfolding(crate::specs::Fields::salt_at))]
fn salt(reader: &mut Reader<'_>) -> Result<FutureSalt, TlFault>
    ensures { Answers result reader.new (salt_at reader.old) }
{
    Ok(FutureSalt {
        valid_since: reader.int()?,
        valid_until: reader.int()?,
        salt: reader.long()?,
    })
}

#[tactic(auto, unfolding(crate::specs::Fields::message_at))]
fn message(alloc: Global, reader: &mut Reader<'_>) -> Result<Message, TlFault>
    ensures exact { Answers result reader.new (message_at reader.old) }
    ensures short { IfOk result (λ message. length message.body < 2 ^ 32) }
{
    let number = reader.long()?;
    let seq = reader.int()?;
    let bytes = reader.int()?;
    let body = reader.raw(bytes as usize)?;
    Ok(Message {
        number,
        seq,
        body: Octets::copy(alloc, body)?,
    })
}

/// A bare vector of bare salts.
#[tactic(auto, unfolding(crate::specs::Fields::vector_at))]
pub(crate) fn salts(alloc: Global, reader: &mut Reader<'_>) -> Result<FutureSaltList, TlFault>
    ensures { Answers result reader.new (field_at Salts reader.old) }
{
    let count = reader.int()?;
    let mut rows = FutureSaltList::new(alloc);
    for _ in 0..count {
        rows.push(alloc, salt(reader)?)?;
    }
    Ok(rows)
}

/// A bare vector of bare messages.
#[tactic(auto, unfolding(crate::specs::Fields::vector_at))]
pub(crate) fn messages(alloc: Global, reader: &mut Reader<'_>) -> Result<Messages, TlFault>
    ensures { Answers result reader.new (field_at Bodies reader.old) }
{
    let count = reader.int()?;
    let mut messages = Messages::new(alloc);
    for _ in 0..count {
        messages.push(alloc, message(alloc, reader)?)?;
    }
    Ok(messages)
}
