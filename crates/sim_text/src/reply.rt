//! A reply as text.

ghost use Rattle.std.specs.Prelude.{◌≡◌, ◌++◌, OnOk, OnErr, None, Some, drop, if◌then◌else◌};
ghost use Rattle.byteorder.specs.Endian.{little_number};
ghost use Rattle.world_rules.specs.Report.{is_plain, is_value, item_text, raw, reply_text};

use crate::number::push_number;
use byteorder::{ByteOrder, LittleEndian};
use octets::{Memory, Octets};
use regs_service::VALUE;
use service_tl::{Item, parse};
use std::alloc::Global;

/// How many bytes a value of the register service has, its constructor in front.
const VALUE_BYTES: usize = 12;

/// How many bytes its constructor has.
const TAG_BYTES: usize = 4;

/// Puts a reply behind a text: a value of the register service in decimal; `error`, the code and the text of an error whose
/// text has the bytes 32 to 126 alone; `dropped` for an answer that was dropped while its call ran; else `raw` and the
/// length in bytes.
///
/// # Errors
///
/// `Memory`, and then the text is as it was.
pub fn reply_text(alloc: Global, into: &mut Octets, reply: &[u8]) -> Result<(), Memory>
    ensures told { OnOk result (into.new ≡ into.old ++ reply_text reply.now) }
    ensures unchanged_on_memory { OnErr result (into.new ≡ into.old) }
{
    let mut text = Octets::new(alloc);
    push_reply(alloc, &mut text, reply)?;
    into.push_all(alloc, text.as_slice())
}

/// Puts a reply behind a text.
pub(crate) fn push_reply(alloc: Global, text: &mut Octets, reply: &[u8]) -> Result<(), Memory>
    ensures { OnOk result (text.new ≡ text.old ++ reply_text reply.now) }
{
    match value_of(reply) {
        Some(value) => push_number(alloc, text, value),
        None => {
            let item = parse(alloc, reply)?;
            push_item(alloc, text, reply, &item)
        }
    }
}

/// The value of the register service that a reply is.
fn value_of(reply: &[u8]) -> Option<u64>
    ensures { result ≡ (if is_value reply.now then Some (little_number 8 (drop 4 reply.now)) else None) }
{
    if reply.len() != VALUE_BYTES || LittleEndian::read_u32(reply) != VALUE {
        return None;
    }
    Some(LittleEndian::read_u64(&reply[TAG_BYTES..]))
}

/// Puts a reply that is this item, and no value, behind a text.
fn push_item(alloc: Global, text: &mut Octets, reply: &[u8], item: &Item) -> Result<(), Memory>
    ensures { OnOk result (text.new ≡ text.old ++ item_text reply.now item.now) }
{
    match item {
        Item::RpcError {
            error_code,
            error_message,
        } => push_error(alloc, text, reply, *error_code, error_message.as_slice()),
        Item::RpcAnswerDroppedRunning => text.push_all(alloc, b"dropped"),
        _ => push_raw(alloc, text, reply),
    }
}

/// Puts a reply that is this error behind a text.
fn push_error(
    alloc: Global,
    text: &mut Octets,
    reply: &[u8],
    code: u32,
    message: &[u8],
) -> Result<(), Memory>
    ensures { OnOk result (text.new ≡ text.old ++ item_text reply.now (Item.RpcError code message.now)) }
{
    if !is_plain(message) {
        return push_raw(alloc, text, reply);
    }
    text.push_all(alloc, b"error ")?;
    push_number(alloc, text, code)?;
    text.push_all(alloc, b" ")?;
    text.push_all(alloc, message)
}

/// Puts the length of a reply behind a text.
fn push_raw(alloc: Global, text: &mut Octets, reply: &[u8]) -> Result<(), Memory>
    ensures { OnOk result (text.new ≡ text.old ++ raw reply.now) }
{
    text.push_all(alloc, b"raw ")?;
    push_number(alloc, text, reply.len())
}

/// Whether a text has the bytes 32 to 126 alone.
fn is_plain(text: &[u8]) -> bool
    ensures { result ≡ is_plain text.now }
{
    text.iter().all(|byte| 32 <= *byte && *byte <= 126)
}
