//! Writing items.

ghost use Rattle.std.specs.Prelude.{◌≡◌, ◌++◌, OnOk, OnErr};
ghost use Rattle.std.specs.List.{AllByRecursion};
ghost use Rattle.service_tl.specs.Items.{spelling_of, IsWritable, ItemFits};
ghost use Rattle.service_tl.specs.Parts.{boxed, PartFits};

use crate::item::Item;
use crate::numbers::*;
use crate::parts::Part::{Bodies, Bytes, End, Int, Long, Longs, Rest, Salts};
use crate::parts::{Part, fill_boxed, size_of_parts};
use octets::Buffer;
use std::alloc::Global;
use tl_codec::{Memory, Octets};

/// Writes an item at the end of the text. The room for it is taken once.
///
/// # Errors
///
/// `Memory`, and then the text is as it was.
pub fn write(alloc: Global, item: &Item, into: &mut Octets) -> Result<(), Memory>
    requires { IsWritable item.now }
    ensures appended { OnOk result (into.new ≡ into.old ++ spelling_of item.now) }
    ensures fits { OnOk result (ItemFits item.now) }
    ensures unchanged_on_memory { OnErr result (into.new ≡ into.old) }
{
    let (number, parts) = parts_of(item);
    let room = size_of_parts(&parts).ok_or(Memory)?;
    let mut buffer = Buffer::after(alloc, into, room)?;
    fill_boxed(&mut buffer, number, &parts);
    *into = buffer.into_octets();
    Ok(())
}

// An item's constructor and its fields in the schema's order.
fn parts_of(item: &Item) -> (u32, [Part<'_>; 4])
    requires { IsWritable item.now }
    ensures spelling { boxed result.0 result.1 ≡ spelling_of item.now }
    ensures parts { AllByRecursion PartFits result.1 }
    ensures fits { ItemFits item.now }
{
    match item {
        Item::RpcResult { req_msg_id, result } => (
            RPC_RESULT,
            [Long(*req_msg_id), Rest(result.as_slice()), End, End],
        ),
        Item::RpcError {
            error_code,
            error_message,
        } => (
            RPC_ERROR,
            [Int(*error_code), Bytes(error_message.as_slice()), End, End],
        ),
        Item::RpcDropAnswer { req_msg_id } => (RPC_DROP_ANSWER, [Long(*req_msg_id), End, End, End]),
        Item::RpcAnswerUnknown => (RPC_ANSWER_UNKNOWN, [End, End, End, End]),
        Item::RpcAnswerDroppedRunning => (RPC_ANSWER_DROPPED_RUNNING, [End, End, End, End]),
        Item::RpcAnswerDropped {
            msg_id,
            seq_no,
            bytes,
        } => (
            RPC_ANSWER_DROPPED,
            [Long(*msg_id), Int(*seq_no), Int(*bytes), End],
        ),
        Item::GetFutureSalts { num } => (GET_FUTURE_SALTS, [Int(*num), End, End, End]),
        Item::FutureSalts {
            req_msg_id,
            now,
            salts,
        } => (
            FUTURE_SALTS,
            [Long(*req_msg_id), Int(*now), Salts(salts.as_slice()), End],
        ),
        Item::Ping { ping_id } => (PING, [Long(*ping_id), End, End, End]),
        Item::PingDelayDisconnect {
            ping_id,
            disconnect_delay,
        } => (
            PING_DELAY_DISCONNECT,
            [Long(*ping_id), Int(*disconnect_delay), End, End],
        ),
        Item::Pong { msg_id, ping_id } => (PONG, [Long(*msg_id), Long(*ping_id), End, End]),
        Item::DestroySession { session_id } => (
            DESTROY_SESSION,
            [Long(*session_id), End, End, End],
        ),
        Item::DestroySessionOk { session_id } => (
            DESTROY_SESSION_OK,
            [Long(*session_id), End, End, End],
        ),
        Item::DestroySessionNone { session_id } => (
            DESTROY_SESSION_NONE,
            [Long(*session_id), End, End, End],
        ),
        Item::NewSessionCreated {
            first_msg_id,
            unique_id,
            server_salt,
        } => (
            NEW_SESSION_CREATED,
            [
                Long(*first_msg_id),
                Long(*unique_id),
                Long(*server_salt),
                End,
            ],
        ),
        Item::MsgContainer { messages } => (
            MSG_CONTAINER,
            [Bodies(messages.as_slice()), End, End, End],
        ),
        Item::MsgsAck { msg_ids } => (MSGS_ACK, [Longs(msg_ids.ids()), End, End, End]),
        Item::MsgsStateReq { msg_ids } => (MSGS_STATE_REQ, [Longs(msg_ids.ids()), End, End, End]),
        Item::MsgsStateInfo { req_msg_id, info } => (
            MSGS_STATE_INFO,
            [Long(*req_msg_id), Bytes(info.as_slice()), End, End],
        ),
        Item::MsgsAllInfo { msg_ids, info } => (
            MSGS_ALL_INFO,
            [Longs(msg_ids.ids()), Bytes(info.as_slice()), End, End],
        ),
        Item::MsgResendReq { msg_ids } => (MSG_RESEND_REQ, [Longs(msg_ids.ids()), End, End, End]),
        Item::MsgDetailedInfo {
            msg_id,
            answer_msg_id,
            bytes,
            status,
        } => (
            MSG_DETAILED_INFO,
            [
                Long(*msg_id),
                Long(*answer_msg_id),
                Int(*bytes),
                Int(*status),
            ],
        ),
        Item::MsgNewDetailedInfo {
            answer_msg_id,
            bytes,
            status,
        } => (
            MSG_NEW_DETAILED_INFO,
            [Long(*answer_msg_id), Int(*bytes), Int(*status), End],
        ),
        Item::BadMsgNotification {
            bad_msg_id,
            bad_msg_seqno,
            error_code,
        } => (
            BAD_MSG_NOTIFICATION,
            [
                Long(*bad_msg_id),
                Int(*bad_msg_seqno),
                Int(*error_code),
                End,
            ],
        ),
        Item::BadServerSalt {
            bad_msg_id,
            bad_msg_seqno,
            error_code,
            new_server_salt,
        } => (
            BAD_SERVER_SALT,
            [
                Long(*bad_msg_id),
                Int(*bad_msg_seqno),
                Int(*error_code),
                Long(*new_server_salt),
            ],
        ),
        Item::InvokeAfterMsg { msg_id, query } => (
            INVOKE_AFTER_MSG,
            [Long(*msg_id), Rest(query.as_slice()), End, End],
        ),
        Item::InvokeAfterMsgs { msg_ids, query } => (
            INVOKE_AFTER_MSGS,
            [Longs(msg_ids.ids()), Rest(query.as_slice()), End, End],
        ),
        Item::AuthBindTempAuthKey {
            perm_auth_key_id,
            nonce,
            expires_at,
            encrypted_message,
        } => (
            AUTH_BIND_TEMP_AUTH_KEY,
            [
                Long(*perm_auth_key_id),
                Long(*nonce),
                Int(*expires_at),
                Bytes(encrypted_message.as_slice()),
            ],
        ),
        Item::Packed | Item::Call | Item::Broken(_) => unreachable!(),
    }
}
