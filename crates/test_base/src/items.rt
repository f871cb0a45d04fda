//! Service items: one body of each constructor, worked out from the standard's schema, and bodies that are none.

ghost use Rattle.std.specs.Prelude.{◌≡◌, ◌++◌, ◌∷◌, [], IfOk, IfSome, None, OnOk, length};
ghost use Rattle.service_tl.specs.declared.item.Item.TheVariants.{MsgsAck, Pong};
ghost use Rattle.service_tl.specs.Items.{spelling_of, IsWritable, IsOfSchema};
ghost use Rattle.service_tl.specs.ItemOf.{item_of};

use crate::rows::are_so;
use service_tl::laws::items_again;
use service_tl::{FutureSalt, FutureSaltList, Item, Message, Messages, is_service, parse, write};
use std::alloc::{AllocError, Global};
use std::test::*;
use test_asserts::{holds, holds_at, same, shown, shows};
use tl_codec::{IdList, Memory, Octets};

// What is written of an item and parsed is that item.
fn written_and_parsed(alloc: Global, item: &Item) -> Result<Item, Memory>
    requires { IsWritable item.now }
    ensures { IfOk result (λ again. again ≡ item.now) }
{
    let mut text = Octets::new(alloc);
    write(alloc, item, &mut text)?;
    items_again();
    parse(alloc, text.as_slice())
}

// A body that is an item of the schema, in the writer's spelling: it says the same.
fn spelt_anew(alloc: Global, body: &[u8]) -> Result<Option<Octets>, Memory>
    ensures said { IfOk result (λ anew. IfSome anew (λ text. item_of text ≡ item_of body.now)) }
    ensures other { IfOk result (λ anew. anew ≡ None → IsOfSchema (item_of body.now) → ⊥) }
{
    let item = parse(alloc, body)?;
    let anew = spelling(alloc, &item);
    drop(item);
    anew
}

// An item in the writer's spelling, where it is one of the schema, which a writer takes.
fn spelling(alloc: Global, item: &Item) -> Result<Option<Octets>, Memory>
    requires { IsOfSchema item.now → IsWritable item.now }
    ensures said { IfOk result (λ anew. IfSome anew (λ text. item_of text ≡ item.now)) }
    ensures other { IfOk result (λ anew. anew ≡ None → IsOfSchema item.now → ⊥) }
{
    if !item.is_of_schema() {
        return Ok(None);
    }
    let mut text = Octets::new(alloc);
    write(alloc, item, &mut text)?;
    items_again();
    Ok(Some(text))
}

// An item is written behind a text, and let go of at one place.
fn add(alloc: Global, item: Item, text: &mut Octets) -> Result<(), Memory>
    requires { IsWritable item }
    ensures { OnOk result (text.new ≡ text.old ++ spelling_of item) }
{
    let written = write(alloc, &item, text);
    drop(item);
    written
}

// An item that the caller makes is written with no word of the schema.
fn ack_and_pong(alloc: Global, number: u64, ping_id: u64) -> Result<Octets, Memory>
    ensures { IfOk result (λ text. text ≡ spelling_of (MsgsAck (number ∷ [])) ++ spelling_of (Pong number ping_id)) }
{
    let mut text = Octets::new(alloc);
    let msg_ids = IdList::copy(alloc, &[number])?;
    add(alloc, Item::MsgsAck { msg_ids }, &mut text)?;
    let msg_id = number;
    add(alloc, Item::Pong { msg_id, ping_id }, &mut text)?;
    Ok(text)
}

// Whether a body is an item of the schema that is spelt as the body.
fn is_spelt_so(alloc: Global, body: &[u8]) -> Result<bool, Memory> {
    let anew = spelt_anew(alloc, body)?;
    let is_so = match &anew {
        Some(text) => text.as_slice() == body,
        None => false,
    };
    drop(anew);
    Ok(is_so)
}

/// The item that a body is, as `{:?}` shows it; it is written as the body.
pub(crate) fn again(alloc: Global, body: &[u8]) -> Result<String, Fail> {
    holds_at(body, is_spelt_so(alloc, body)?)?;
    read(alloc, body)
}

/// The item that a body is, as `{:?}` shows it.
pub(crate) fn read(alloc: Global, body: &[u8]) -> Result<String, Fail> {
    let item = parse(alloc, body)?;
    let text = shown(alloc, &item);
    drop(item);
    Ok(text?)
}

/// The writer's spelling of a body, likewise.
pub(crate) fn anew(alloc: Global, body: &[u8]) -> Result<String, Fail> {
    let anew = spelt_anew(alloc, body)?;
    let text = shown(alloc, &anew);
    drop(anew);
    Ok(text?)
}

// What is asked, a body's hexadecimal digits, and the item that it is, as `{:?}` shows it.
const ONE_OF_EACH: &str = "\
again 016d5cf3040000000000000001020304 RpcResult { req_msg_id: 4, result: Octets { bytes: [1, 2, 3, 4] } }\n\
again 016d5cf30400000000000000 RpcResult { req_msg_id: 4, result: Octets { bytes: [] } }\n\
again 19ca44219001000003414243 RpcError { error_code: 400, error_message: Octets { bytes: [65, 66, 67] } }\n\
again 40a7e4580400000000000000 RpcDropAnswer { req_msg_id: 4 }\n\
again 6ed32a5e RpcAnswerUnknown\n\
again 86e578cd RpcAnswerDroppedRunning\n\
again b7d83aa408000000000000000100000010000000 RpcAnswerDropped { msg_id: 8, seq_no: 1, bytes: 16 }\n\
again 04bd21b902000000 GetFutureSalts { num: 2 }\n\
again 950850ae0400000000000000e80300000200000000000000100e0000070000000000000008070000181500000800000000000000 FutureSalts { req_msg_id: 4, now: 1000, salts: FutureSaltList { rows: [FutureSalt { valid_since: 0, valid_until: 3600, salt: 7 }, FutureSalt { valid_since: 1800, valid_until: 5400, salt: 8 }] } }\n\
again ec77be7a0700000000000000 Ping { ping_id: 7 }\n\
again 8c7b42f307000000000000004b000000 PingDelayDisconnect { ping_id: 7, disconnect_delay: 75 }\n\
again c573773408000000000000000700000000000000 Pong { msg_id: 8, ping_id: 7 }\n\
again 262151e70807060504030201 DestroySession { session_id: 72623859790382856 }\n\
again fc4520e20807060504030201 DestroySessionOk { session_id: 72623859790382856 }\n\
again c950d3620807060504030201 DestroySessionNone { session_id: 72623859790382856 }\n\
again 0809c29e0c0000000000000088776655443322110700000000000000 NewSessionCreated { first_msg_id: 12, unique_id: 1234605616436508552, server_salt: 7 }\n\
again dcf8f17301000000080000000000000001000000040000000a0b0c0d MsgContainer { messages: Messages { messages: [Message { number: 8, seq: 1, body: Octets { bytes: [10, 11, 12, 13] } }] } }\n\
again 59b4d66215c4b51c010000000400000000000000 MsgsAck { msg_ids: IdList { numbers: [4] } }\n\
again 52fb69da15c4b51c010000000400000000000000 MsgsStateReq { msg_ids: IdList { numbers: [4] } }\n\
again 7db5de04040000000000000002010400 MsgsStateInfo { req_msg_id: 4, info: Octets { bytes: [1, 4] } }\n\
again 31d1c08c15c4b51c01000000040000000000000002010400 MsgsAllInfo { msg_ids: IdList { numbers: [4] }, info: Octets { bytes: [1, 4] } }\n\
again 081a867d15c4b51c010000000400000000000000 MsgResendReq { msg_ids: IdList { numbers: [4] } }\n\
again c63e6d27080000000000000014000000000000001000000000000000 MsgDetailedInfo { msg_id: 8, answer_msg_id: 20, bytes: 16, status: 0 }\n\
again dfb69d8014000000000000001000000000000000 MsgNewDetailedInfo { answer_msg_id: 20, bytes: 16, status: 0 }\n\
again 11f8efa704000000000000000100000030000000 BadMsgNotification { bad_msg_id: 4, bad_msg_seqno: 1, error_code: 48 }\n\
again 7b44abed040000000000000001000000300000000700000000000000 BadServerSalt { bad_msg_id: 4, bad_msg_seqno: 1, error_code: 48, new_server_salt: 7 }\n\
again 2d379fcb080000000000000001020304 InvokeAfterMsg { msg_id: 8, query: Octets { bytes: [1, 2, 3, 4] } }\n\
again f0b4c43d15c4b51c01000000040000000000000001020304 InvokeAfterMsgs { msg_ids: IdList { numbers: [4] }, query: Octets { bytes: [1, 2, 3, 4] } }\n\
again 052ad4cd01020304050607080900000000000000100e0000067365616c656400 AuthBindTempAuthKey { perm_auth_key_id: 578437695752307201, nonce: 9, expires_at: 3600, encrypted_message: Octets { bytes: [115, 101, 97, 108, 101, 100] } }\n";

#[test]
fn one_body_of_each_constructor(rt: HostRuntime) -> Result<(), Fail> {
    are_so(rt.alloc(), ONE_OF_EACH, 29)
}

// Three calls; what is packed, and not read; a ping with 4 bytes after it; a list of numbers that is cut, one that claims
// 8,193 of them, and one without its constructor; a container of one message that is cut, and one that claims two; salts of
// which the second is cut; a string in the long form.
const READ_OTHERWISE: &str = "read  Call\n\
read 0102 Call\n\
read 01020304 Call\n\
read a1cf7230 Packed\n\
read ec77be7a070000000000000000000000 Broken(2059302892)\n\
read 59b4d66215c4b51c0100000004000000000000 Broken(1658238041)\n\
read 59b4d66215c4b51c01200000 Broken(1658238041)\n\
read 59b4d662010000000400000000000000 Broken(1658238041)\n\
read dcf8f17301000000080000000000000001000000080000000a0b0c0d Broken(1945237724)\n\
read dcf8f17302000000080000000000000001000000040000000a0b0c0d Broken(1945237724)\n\
read 950850ae0400000000000000e80300000200000000000000100e00000700000000000000080700001815000008000000 Broken(2924480661)\n\
read 19ca442190010000fe03000041424300 RpcError { error_code: 400, error_message: Octets { bytes: [65, 66, 67] } }\n";

#[test]
fn bodies_that_are_read_otherwise(rt: HostRuntime) -> Result<(), Fail> {
    are_so(rt.alloc(), READ_OTHERWISE, 12)
}

#[test]
fn service_numbers_are_told() -> Result<(), Fail> {
    holds(is_service(0x3072cfa1) && is_service(0xf35c6d01) && is_service(0xcdd42a05))?;
    holds(!is_service(0x75a3f765) && !is_service(0x0a1b2c01) && !is_service(0))?;
    Ok(())
}

#[test]
fn what_was_written_is_parsed(rt: HostRuntime) -> Result<(), Fail> {
    let alloc = rt.alloc();
    let item = Item::Ping { ping_id: 7 };
    let again = written_and_parsed(alloc, &item);
    drop(item);
    let again = again?;
    let shown = shows(alloc, &again, "Ping { ping_id: 7 }");
    drop(again);
    shown
}

const ACK_AND_PONG: &str =
    "59b4d66215c4b51c010000000400000000000000c573773404000000000000000700000000000000";

#[test]
fn two_items_stand_in_one_text(rt: HostRuntime) -> Result<(), Fail> {
    let text = ack_and_pong(rt.alloc(), 4, 7)?;
    let digits = hex::encode(rt.alloc(), text.as_slice());
    drop(text);
    same(digits?.as_str(), ACK_AND_PONG)
}

// A string in the long form, and a call.
const SPELT_ANEW: &str = "\
anew 19ca442190010000fe03000041424300 Some(Octets { bytes: [25, 202, 68, 33, 144, 1, 0, 0, 3, 65, 66, 67] })\n\
anew 01020304 None\n";

#[test]
fn other_spellings_are_spelt_anew(rt: HostRuntime) -> Result<(), Fail> {
    are_so(rt.alloc(), SPELT_ANEW, 2)
}

// A list of one salt.
fn one_salt(alloc: Global) -> Result<FutureSaltList, Memory> {
    let mut salts = FutureSaltList::new(alloc);
    let salt = FutureSalt {
        valid_since: 0,
        valid_until: 3_600,
        salt: 7,
    };
    salts.push(alloc, salt)?;
    Ok(salts)
}

// A copy of salts has the same.
fn are_cloned(salts: &FutureSaltList) -> Result<(), Fail> {
    let copy = salts.clone()?;
    let is_same = copy.as_slice() == salts.as_slice();
    drop(copy);
    holds(is_same)
}

#[test]
fn salts_are_cloned(rt: HostRuntime) -> Result<(), Fail> {
    let salts = one_salt(rt.alloc())?;
    let done = are_cloned(&salts);
    drop(salts);
    done
}

// A message of the number 8, and how it is shown.
fn message(alloc: Global) -> Result<Message, Memory>
    ensures { IfOk result (λ message. length message.body ≡ 4) }
{
    Ok(Message {
        number: 8,
        seq: 1,
        body: Octets::copy(alloc, b"abcd")?,
    })
}

const SHOWN: &str = "Message { number: 8, seq: 1, body: Octets { bytes: [97, 98, 99, 100] } }";

#[test]
fn a_message_is_cloned(rt: HostRuntime) -> Result<(), Fail> {
    let message = message(rt.alloc())?;
    let copy: Result<_, AllocError> = message.clone();
    drop(message);
    shows(rt.alloc(), &copy?, SHOWN)
}

// A list of such a message.
fn one_message(alloc: Global) -> Result<Messages, Memory> {
    let message = message(alloc)?;
    let mut messages = Messages::with_capacity(alloc, 1)?;
    messages.push(alloc, message)?;
    Ok(messages)
}

// A copy of such a list.
fn copies(alloc: Global) -> Result<Messages, Fail> {
    let messages = one_message(alloc)?;
    let copies: Result<_, AllocError> = messages.clone();
    drop(messages);
    Ok(copies?)
}

#[test]
fn messages_are_cloned(rt: HostRuntime) -> Result<(), Fail> {
    let copies = copies(rt.alloc())?;
    let done = are_shown(rt.alloc(), copies.as_slice());
    drop(copies);
    done
}

// One message, that is shown so.
fn are_shown(alloc: Global, messages: &[Message]) -> Result<(), Fail> {
    same(messages.len(), 1)?;
    shows(
        alloc,
        &messages.first(),
        "Some(Message { number: 8, seq: 1, body: Octets { bytes: [97, 98, 99, 100] } })",
    )
}
