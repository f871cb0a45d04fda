//! Reading the fields behind a constructor.

ghost use Rattle.std.specs.Prelude.{◌≡◌};
ghost use Rattle.service_tl.specs.Schema.{calls, sessions, lists, notices, wrappers, schema, item_in};
ghost use Rattle.service_tl.specs.Parts.{Answers};

use crate::fields::{messages, octets, rest, salts};
use crate::item::Item;
use crate::numbers::*;
use std::alloc::Global;
use tl_codec::{Reader, TlFault};

// An answer to a call, or a call for none.
fn call_item(alloc: Global, number: u32, reader: &mut Reader<'_>) -> Result<Option<Item>, TlFault>
    ensures { Answers result reader.new (item_in calls number reader.old) }
{
    Ok(Some(match number {
        RPC_RESULT => Item::RpcResult {
            req_msg_id: reader.long()?,
            result: rest(alloc, reader)?,
        },
        RPC_ERROR => Item::RpcError {
            error_code: reader.int()?,
            error_message: octets(alloc, reader)?,
        },
        RPC_DROP_ANSWER => Item::RpcDropAnswer {
            req_msg_id: reader.long()?,
        },
        RPC_ANSWER_UNKNOWN => Item::RpcAnswerUnknown,
        RPC_ANSWER_DROPPED_RUNNING => Item::RpcAnswerDroppedRunning,
        RPC_ANSWER_DROPPED => Item::RpcAnswerDropped {
            msg_id: reader.long()?,
            seq_no: reader.int()?,
            bytes: reader.int()?,
        },
        _ => return Ok(None),
    }))
}

// Salts, pings and sessions.
fn session_item(
    alloc: Global,
    number: u32,
    reader: &mut Reader<'_>,
) -> Result<Option<Item>, TlFault>
    ensures { Answers result reader.new (item_in sessions number reader.old) }
{
    Ok(Some(match number {
        GET_FUTURE_SALTS => Item::GetFutureSalts { num: reader.int()? },
        FUTURE_SALTS => Item::FutureSalts {
            req_msg_id: reader.long()?,
            now: reader.int()?,
            salts: salts(alloc, reader)?,
        },
        PING => Item::Ping {
            ping_id: reader.long()?,
        },
        PING_DELAY_DISCONNECT => Item::PingDelayDisconnect {
            ping_id: reader.long()?,
            disconnect_delay: reader.int()?,
        },
        PONG => Item::Pong {
            msg_id: reader.long()?,
            ping_id: reader.long()?,
        },
        DESTROY_SESSION => Item::DestroySession {
            session_id: reader.long()?,
        },
        DESTROY_SESSION_OK => Item::DestroySessionOk {
            session_id: reader.long()?,
        },
        DESTROY_SESSION_NONE => Item::DestroySessionNone {
            session_id: reader.long()?,
        },
        NEW_SESSION_CREATED => Item::NewSessionCreated {
            first_msg_id: reader.long()?,
            unique_id: reader.long()?,
            server_salt: reader.long()?,
        },
        _ => return Ok(None),
    }))
}

// Containers, acknowledgements and states.
fn list_item(alloc: Global, number: u32, reader: &mut Reader<'_>) -> Result<Option<Item>, TlFault>
    ensures { Answers result reader.new (item_in lists number reader.old) }
{
    Ok(Some(match number {
        MSG_CONTAINER => Item::MsgContainer {
            messages: messages(alloc, reader)?,
        },
        MSGS_ACK => Item::MsgsAck {
            msg_ids: reader.longs(alloc)?,
        },
        MSGS_STATE_REQ => Item::MsgsStateReq {
            msg_ids: reader.longs(alloc)?,
        },
        MSGS_STATE_INFO => Item::MsgsStateInfo {
            req_msg_id: reader.long()?,
            info: octets(alloc, reader)?,
        },
        MSGS_ALL_INFO => Item::MsgsAllInfo {
            msg_ids: reader.longs(alloc)?,
            info: octets(alloc, reader)?,
        },
        MSG_RESEND_REQ => Item::MsgResendReq {
            msg_ids: reader.longs(alloc)?,
        },
        _ => return Ok(None),
    }))
}

// Notices about one message.
fn notice_item(number: u32, reader: &mut Reader<'_>) -> Result<Option<Item>, TlFault>
    ensures { Answers result reader.new (item_in notices number reader.old) }
{
    Ok(Some(match number {
        MSG_DETAILED_INFO => Item::MsgDetailedInfo {
            msg_id: reader.long()?,
            answer_msg_id: reader.long()?,
            bytes: reader.int()?,
            status: reader.int()?,
        },
        MSG_NEW_DETAILED_INFO => Item::MsgNewDetailedInfo {
            answer_msg_id: reader.long()?,
            bytes: reader.int()?,
            status: reader.int()?,
        },
        BAD_MSG_NOTIFICATION => Item::BadMsgNotification {
            bad_msg_id: reader.long()?,
            bad_msg_seqno: reader.int()?,
            error_code: reader.int()?,
        },
        BAD_SERVER_SALT => Item::BadServerSalt {
            bad_msg_id: reader.long()?,
            bad_msg_seqno: reader.int()?,
            error_code: reader.int()?,
            new_server_salt: reader.long()?,
        },
        _ => return Ok(None),
    }))
}

// Queries after other messages, and the binding of temporary keys.
fn wrapper_item(
    alloc: Global,
    number: u32,
    reader: &mut Reader<'_>,
) -> Result<Option<Item>, TlFault>
    ensures { Answers result reader.new (item_in wrappers number reader.old) }
{
    Ok(Some(match number {
        INVOKE_AFTER_MSG => Item::InvokeAfterMsg {
            msg_id: reader.long()?,
            query: rest(alloc, reader)?,
        },
        INVOKE_AFTER_MSGS => Item::InvokeAfterMsgs {
            msg_ids: reader.longs(alloc)?,
            query: rest(alloc, reader)?,
        },
        AUTH_BIND_TEMP_AUTH_KEY => Item::AuthBindTempAuthKey {
            perm_auth_key_id: reader.long()?,
            nonce: reader.long()?,
            expires_at: reader.int()?,
            encrypted_message: octets(alloc, reader)?,
        },
        _ => return Ok(None),
    }))
}

/// The item behind a constructor, where it is one of the schema.
pub(crate) fn item(
    alloc: Global,
    number: u32,
    reader: &mut Reader<'_>,
) -> Result<Option<Item>, TlFault>
    ensures { Answers result reader.new (item_in schema number reader.old) }
{
    if let Some(item) = call_item(alloc, number, reader)? {
        return Ok(Some(item));
    }
    if let Some(item) = session_item(alloc, number, reader)? {
        return Ok(Some(item));
    }
    if let Some(item) = list_item(alloc, number, reader)? {
        return Ok(Some(item));
    }
    if let Some(item) = notice_item(number, reader)? {
        return Ok(Some(item));
    }
    wrapper_item(alloc, number, reader)
}
