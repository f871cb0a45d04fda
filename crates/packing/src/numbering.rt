//! Numbers of a server's messages.

ghost use Rattle.std.specs.Prelude.{◌≡◌, ◌<◌, ◌≤◌, ◌+◌};
ghost use Rattle.msg_ids.specs.Counters.{room};
ghost use Rattle.packing.specs.Numbering.{addition, after_item, is_content_related, numbered};

use msg_ids::{Moment, Numbers};
use service_tl::Item;

/// What is added to the number of a response to a client's message.
pub const RESPONSE_ADDITION: u64 = 1;

/// What is added to any other number of a server.
pub const OTHER_ADDITION: u64 = 3;

/// The number and the seq that a server gives to this item at this moment: the sender's next number and 1 more for a
/// response, 3 more for any other message. Takes no memory.
pub fn number(now: Moment, numbers: &mut Numbers, item: &Item) -> (u64, u32)
    requires { 0 < room numbers.old }
    ensures number { result.0 ≡ (numbered now numbers.old item.now).number }
    ensures seq { result.1 ≡ (numbered now numbers.old item.now).seq }
    ensures counted { numbers.new ≡ after_item now numbers.old item.now }
    ensures room_lasts { room numbers.old ≤ room numbers.new + 1 }
{
    let (number, seq) = numbers.next(now, is_content_related(item)).unwrap();
    (number + addition(item), seq)
}

fn addition(item: &Item) -> u64
    ensures value { result ≡ addition item.now }
    ensures small { result ≤ 3 }
{
    match item {
        Item::RpcResult { .. }
        | Item::Pong { .. }
        | Item::FutureSalts { .. }
        | Item::MsgsStateInfo { .. }
        | Item::DestroySessionOk { .. }
        | Item::DestroySessionNone { .. }
        | Item::BadMsgNotification { .. }
        | Item::BadServerSalt { .. } => RESPONSE_ADDITION,
        _ => OTHER_ADDITION,
    }
}

fn is_content_related(item: &Item) -> bool
    ensures { result ≡ is_content_related item.now }
{
    matches!(
        item,
        Item::RpcResult { .. } | Item::NewSessionCreated { .. }
    )
}
