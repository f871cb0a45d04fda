//! What a client says beside its calls, lent, and how it is spelt.

ghost use Rattle.std.specs.Prelude.{◌≡◌, ◌≤◌, ◌++◌, ◌+◌, length};
ghost use Rattle.service_tl.specs.Items.{ItemFits, spelling_of};
ghost use Rattle.service_tl.specs.Words.{IsWords};
ghost use Rattle.client_core.specs.declared.saying.Outgoing.{Outgoing};
ghost use Rattle.client_core.specs.Draft.{CanBeSaid, item_of, needs_answer, said_bytes};

use octets::Buffer;
use service_tl::laws::items_are_words;
use service_tl::{
    DESTROY_SESSION, GET_FUTURE_SALTS, MSG_RESEND_REQ, MSGS_ACK, MSGS_STATE_INFO, MSGS_STATE_REQ,
    PING, RPC_DROP_ANSWER,
};
use tl_codec::fill;
use tl_codec::laws::sizes_of_spellings;

/// An item that a client says, lent.
#[derive(Clone, Copy)]
pub(crate) enum Outgoing<'a> {
    Acks(&'a [u64]),
    Told { request: u64, info: &'a [u8] },
    Resent(&'a [u64]),
    States(&'a [u64]),
    Pings { id: u64 },
    Salts { count: u32 },
    Destroys { session: u64 },
    Drops { number: u64 },
}

/// Whether the message needs an acknowledgement.
pub(crate) fn needs_answer(said: &Outgoing<'_>) -> bool
    ensures { result ≡ needs_answer said.now }
{
    matches!(
        said,
        Outgoing::Salts { .. } | Outgoing::Destroys { .. } | Outgoing::Drops { .. }
    )
}

/// How many bytes the body has.
pub(crate) fn said_size(said: &Outgoing<'_>) -> usize
    requires lawful { CanBeSaid said.now }
    ensures { result ≡ said_bytes said.now }
{
    match said {
        Outgoing::Acks(ids) | Outgoing::Resent(ids) | Outgoing::States(ids) => 12 + 8 * ids.len(),
        Outgoing::Told { info, .. } => 12 + fill::string_size(info.len()),
        Outgoing::Salts { .. } => 8,
        Outgoing::Pings { .. } | Outgoing::Destroys { .. } | Outgoing::Drops { .. } => 12,
    }
}

/// Writes the item's body at the end.
pub(crate) fn spell(into: &mut Buffer, said: &Outgoing<'_>)
    requires lawful { CanBeSaid said.now }
    requires room { said_bytes said.now ≤ into.old.room }
    ensures written { into.new.bytes ≡ into.old.bytes ++ spelling_of (item_of said.now) }
    ensures left { into.new.room + said_bytes said.now ≡ into.old.room }
    ensures fits { ItemFits (item_of said.now) }
{
    match said {
        Outgoing::Acks(ids) => {
            fill::int(into, MSGS_ACK);
            fill::longs(into, ids);
        }
        Outgoing::Told { request, info } => {
            fill::int(into, MSGS_STATE_INFO);
            fill::long(into, *request);
            fill::bytes(into, info);
        }
        Outgoing::Resent(ids) => {
            fill::int(into, MSG_RESEND_REQ);
            fill::longs(into, ids);
        }
        Outgoing::States(ids) => {
            fill::int(into, MSGS_STATE_REQ);
            fill::longs(into, ids);
        }
        Outgoing::Pings { id } => {
            fill::int(into, PING);
            fill::long(into, *id);
        }
        Outgoing::Salts { count } => {
            fill::int(into, GET_FUTURE_SALTS);
            fill::int(into, *count);
        }
        Outgoing::Destroys { session } => {
            fill::int(into, DESTROY_SESSION);
            fill::long(into, *session);
        }
        Outgoing::Drops { number } => {
            fill::int(into, RPC_DROP_ANSWER);
            fill::long(into, *number);
        }
    }
}

/// The body of an item has as many bytes as is counted, and these are whole words of 4 bytes. Does nothing.
pub(crate) fn sizes_of_said()
    ensures sizes { (said : Outgoing) → CanBeSaid said → length (spelling_of (item_of said)) ≡ said_bytes said }
    ensures words { (said : Outgoing) → ItemFits (item_of said) → IsWords (spelling_of (item_of said)) }
    ensures few { (said : Outgoing) → CanBeSaid said → said_bytes said ≤ 65548 }
{
    sizes_of_spellings();
    items_are_words();
}
