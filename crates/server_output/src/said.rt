//! What a server says, lent, and how it is spelt.

ghost use Rattle.std.specs.Prelude.{◌≡◌, ◌≤◌, ◌<◌, ◌+◌, ◌*◌, ◌++◌, length, map, All};
ghost use Rattle.msg_ids.specs.Counters.{room};
ghost use Rattle.service_tl.specs.Fields.{FieldFits, Salts, field_spelling, salt_row};
ghost use Rattle.service_tl.specs.Sizes.{SaltFits};
ghost use Rattle.service_tl.specs.Items.{ItemFits, spelling_of};
ghost use Rattle.packing.specs.Numbering.{addition, after_item, is_content_related, numbered};
ghost use Rattle.server_rules.specs.Rows.{future_salt_of};
ghost use Rattle.server_output.specs.Items.{CanBeSaid, IsTimely, destroyed_bytes, destroyed_item, item_of, said_bytes, salts_max};

use msg_ids::{Moment, Numbers};
use octets::Buffer;
use packing::{OTHER_ADDITION, RESPONSE_ADDITION};
use salt_line::SaltRow;
use service_tl::codes::WRONG_SALT;
use service_tl::{
    BAD_MSG_NOTIFICATION, BAD_SERVER_SALT, DESTROY_SESSION_NONE, DESTROY_SESSION_OK, FUTURE_SALTS,
    MSGS_ACK, MSGS_STATE_INFO, NEW_SESSION_CREATED, PONG, RPC_RESULT,
};
use tl_codec::fill;

/// An item that a server says in an event, lent.
#[derive(Clone, Copy, Debug)]
pub enum Outgoing<'a> {
    /// The session is new (core.telegram.org/mtproto/service_messages, "New Session Creation Notification").
    NewSession {
        /// Calls before this message are lost.
        first: u64,
        /// A number of the server's own.
        unique: u64,
        /// The salt that is valid now.
        salt: u64,
    },
    /// These messages were received, at most 8,192 of them (core.telegram.org/mtproto/service_messages_about_messages,
    /// "Acknowledgment of Receipt").
    Acks(&'a [u64]),
    /// A message is refused (the same page, "Notice of Ignored Error Message").
    Notice {
        /// The message's identifier.
        number: u64,
        /// Its sequence number.
        seq: u32,
        /// The code of the cause.
        code: u32,
    },
    /// A message is refused for its salt, code 48 (the same section).
    BadSalt {
        /// The message's identifier.
        number: u64,
        /// Its sequence number.
        seq: u32,
        /// The salt that is valid now.
        salt: u64,
    },
    /// The answer to a ping (core.telegram.org/mtproto/service_messages, "Ping Messages (PING/PONG)").
    Pinged {
        /// The message that the ping came in.
        message: u64,
        /// The ping's identifier.
        ping: u64,
    },
    /// The rows of salts from a moment on, at most 64 (the same page, "Request for several future salts").
    Salts {
        /// The message that asked for them.
        request: u64,
        /// The moment, in seconds.
        now: u32,
        /// The rows.
        rows: &'a [SaltRow],
    },
    /// The states of at most 8,192 messages, a byte for each (core.telegram.org/mtproto/service_messages_about_messages,
    /// "Informational Message regarding Status of Messages").
    States {
        /// The message that asked for them.
        request: u64,
        /// The states.
        info: &'a [u8],
    },
    /// A session is gone (core.telegram.org/mtproto/service_messages, "Request to Destroy Session").
    Ended {
        /// Its number.
        session: u64,
    },
    /// There is no such session (the same section).
    NoSession {
        /// Its number.
        session: u64,
    },
    /// The answer to a call, whose content is whole words of 4 bytes and at most 1,044,468 bytes (the same page, "Response to
    /// an RPC query").
    Result {
        /// The call's message identifier.
        call: u64,
        /// The content.
        content: &'a [u8],
    },
}

impl Outgoing<'_> {
    /// That this session is gone, or that there was none.
    pub fn destroyed(session: u64, ok: bool) -> Outgoing<'static>
        ensures item { item_of result ≡ destroyed_item session ok }
        ensures bytes { said_bytes result ≡ destroyed_bytes }
        ensures lawful { CanBeSaid result }
    {
        if ok {
            Outgoing::Ended { session }
        } else {
            Outgoing::NoSession { session }
        }
    }
}

/// The number and the seq of a further message of this item.
pub(crate) fn number_of(now: Moment, numbers: &mut Numbers, said: &Outgoing<'_>) -> (u64, u32)
    requires { 0 < room numbers.old }
    ensures number { result.0 ≡ (numbered now numbers.old (item_of said.now)).number }
    ensures seq { result.1 ≡ (numbered now numbers.old (item_of said.now)).seq }
    ensures counted { numbers.new ≡ after_item now numbers.old (item_of said.now) }
    ensures room_lasts { room numbers.old ≤ room numbers.new + 1 }
{
    let (number, seq) = numbers.next(now, is_content_related(said)).unwrap();
    (number + addition(said), seq)
}

fn addition(said: &Outgoing<'_>) -> u64
    ensures value { result ≡ addition (item_of said.now) }
    ensures small { result ≤ 3 }
{
    match said {
        Outgoing::NewSession { .. } | Outgoing::Acks(_) => OTHER_ADDITION,
        _ => RESPONSE_ADDITION,
    }
}

fn is_content_related(said: &Outgoing<'_>) -> bool
    ensures { result ≡ is_content_related (item_of said.now) }
{
    matches!(said, Outgoing::NewSession { .. } | Outgoing::Result { .. })
}

/// Writes the item's body at the end.
pub(crate) fn spell(into: &mut Buffer, said: &Outgoing<'_>)
    requires lawful { CanBeSaid said.now }
    requires room { said_bytes said.now ≤ into.old.room }
    ensures written { into.new.bytes ≡ into.old.bytes ++ spelling_of (item_of said.now) }
    ensures left { into.new.room + said_bytes said.now ≡ into.old.room }
    ensures fits { ItemFits (item_of said.now) }
{
    match said {
        Outgoing::NewSession {
            first,
            unique,
            salt,
        } => {
            fill::int(into, NEW_SESSION_CREATED);
            fill::long(into, *first);
            fill::long(into, *unique);
            fill::long(into, *salt);
        }
        Outgoing::Acks(ids) => {
            fill::int(into, MSGS_ACK);
            fill::longs(into, ids);
        }
        Outgoing::Notice { number, seq, code } => {
            fill::int(into, BAD_MSG_NOTIFICATION);
            fill::long(into, *number);
            fill::int(into, *seq);
            fill::int(into, *code);
        }
        Outgoing::BadSalt { number, seq, salt } => {
            fill::int(into, BAD_SERVER_SALT);
            fill::long(into, *number);
            fill::int(into, *seq);
            fill::int(into, WRONG_SALT);
            fill::long(into, *salt);
        }
        Outgoing::Pinged { message, ping } => {
            fill::int(into, PONG);
            fill::long(into, *message);
            fill::long(into, *ping);
        }
        Outgoing::Salts { request, now, rows } => {
            fill::int(into, FUTURE_SALTS);
            fill::long(into, *request);
            fill::int(into, *now);
            salts(into, rows);
        }
        Outgoing::States { request, info } => {
            fill::int(into, MSGS_STATE_INFO);
            fill::long(into, *request);
            fill::bytes(into, info);
        }
        Outgoing::Ended { session } => {
            fill::int(into, DESTROY_SESSION_OK);
            fill::long(into, *session);
        }
        Outgoing::NoSession { session } => {
            fill::int(into, DESTROY_SESSION_NONE);
            fill::long(into, *session);
        }
        Outgoing::Result { call, content } => {
            fill::int(into, RPC_RESULT);
            fill::long(into, *call);
            into.push_all(content);
        }
    }
}

// Writes a bare vector of bare salts.
fn salts(into: &mut Buffer, rows: &[SaltRow])
    requires few { length rows.now ≤ salts_max }
    requires timely { All IsTimely rows.now }
    requires room { 4 + 16 * length rows.now ≤ into.old.room }
    ensures written { into.new.bytes ≡ into.old.bytes ++ field_spelling Salts (map future_salt_of rows.now) }
    ensures left { into.new.room + (4 + 16 * length rows.now) ≡ into.old.room }
    ensures fits { FieldFits Salts (map future_salt_of rows.now) }
{
    fill::int(into, rows.len() as u32);
    for row in rows {
        salt(into, row);
    }
}

// Writes a bare salt.
fn salt(into: &mut Buffer, row: &SaltRow)
    requires timely { IsTimely row.now }
    requires room { 16 ≤ into.old.room }
    ensures written { into.new.bytes ≡ into.old.bytes ++ salt_row (future_salt_of row.now) }
    ensures left { into.new.room + 16 ≡ into.old.room }
    ensures fits { SaltFits (future_salt_of row.now) }
{
    fill::int(into, row.since as u32);
    fill::int(into, row.until as u32);
    fill::long(into, row.salt);
}
