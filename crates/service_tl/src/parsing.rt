//! What a body is.

ghost use Rattle.std.specs.Prelude.{◌≡◌, ◌↔◌, IsTrue, Contains, IfOk};
ghost use Rattle.service_tl.specs.Items.{IsOfSchema, ItemFits, IsWritable};
ghost use Rattle.service_tl.specs.Schema.{service_numbers};
ghost use Rattle.service_tl.specs.ItemOf.{item_of};

use crate::item::Item;
use crate::laws::items_fit;
use crate::numbers::*;
use crate::reading::item;
use std::alloc::Global;
use tl_codec::{Memory, Reader, TlFault};

// The constructors of the service items.
const SERVICE: [u32; 29] = [
    RPC_RESULT,
    RPC_ERROR,
    RPC_DROP_ANSWER,
    RPC_ANSWER_UNKNOWN,
    RPC_ANSWER_DROPPED_RUNNING,
    RPC_ANSWER_DROPPED,
    GET_FUTURE_SALTS,
    FUTURE_SALTS,
    PING,
    PING_DELAY_DISCONNECT,
    PONG,
    DESTROY_SESSION,
    DESTROY_SESSION_OK,
    DESTROY_SESSION_NONE,
    NEW_SESSION_CREATED,
    MSG_CONTAINER,
    MSGS_ACK,
    MSGS_STATE_REQ,
    MSGS_STATE_INFO,
    MSGS_ALL_INFO,
    MSG_RESEND_REQ,
    MSG_DETAILED_INFO,
    MSG_NEW_DETAILED_INFO,
    BAD_MSG_NOTIFICATION,
    BAD_SERVER_SALT,
    INVOKE_AFTER_MSG,
    INVOKE_AFTER_MSGS,
    AUTH_BIND_TEMP_AUTH_KEY,
    GZIP_PACKED,
];

/// The item that the body is. One of the schema can be written again.
///
/// # Errors
///
/// `Memory`.
pub fn parse(alloc: Global, body: &[u8]) -> Result<Item, Memory>
    ensures item { IfOk result (λ item. item ≡ item_of body.now) }
    ensures fits { IfOk result (λ item. IsOfSchema item → ItemFits item) }
    ensures writable { IfOk result (λ item. IsOfSchema item → IsWritable item) }
{
    let item = read(alloc, body)?;
    items_fit();
    Ok(item)
}

fn read(alloc: Global, body: &[u8]) -> Result<Item, Memory>
    ensures { IfOk result (λ item. item ≡ item_of body.now) }
{
    let mut reader = Reader::new(body);
    let Ok(number) = reader.int() else {
        return Ok(Item::Call);
    };
    if number == GZIP_PACKED {
        return Ok(Item::Packed);
    }
    match item(alloc, number, &mut reader) {
        Ok(Some(item)) => Ok(match reader.end() {
            Ok(()) => item,
            Err(_) => Item::Broken(number),
        }),
        Ok(None) => Ok(Item::Call),
        Err(TlFault::Memory) => Err(Memory),
        Err(_) => Ok(Item::Broken(number)),
    }
}

/// Whether the number is a constructor of a service item, `gzip_packed` among them.
pub fn is_service(tag: u32) -> bool
    ensures { IsTrue result ↔ Contains service_numbers tag }
{
    SERVICE.contains(&tag)
}
