//! What a message body says to the session layer.

use crate::lists::{FutureSaltList, Messages};
use tl_codec::{IdList, Octets};

/// The item of a message body. A variant for each constructor of the schema, with its fields in the
/// schema's order, and what a body is beside these. A message's number is its message identifier.
#[derive(Debug, Drop)]
pub enum Item {
    /// The answer to a call: the result is the rest of the body.
    RpcResult {
        /// The number of the message that this is about.
        req_msg_id: u64,
        /// The result, of any length.
        result: Octets,
    },
    /// The answer to a call that failed.
    RpcError {
        /// The code.
        error_code: u32,
        /// Its text.
        error_message: Octets,
    },
    /// The client wants no answer to that call.
    RpcDropAnswer {
        /// The number of the message that this is about.
        req_msg_id: u64,
    },
    /// The server knows no such call, or has answered it and has forgotten it.
    RpcAnswerUnknown,
    /// The call was running; no answer comes.
    RpcAnswerDroppedRunning,
    /// The answer was there and is dropped: its message number, seq and length in bytes.
    RpcAnswerDropped {
        /// The message's number.
        msg_id: u64,
        /// Its sequence number.
        seq_no: u32,
        /// Its length in bytes.
        bytes: u32,
    },
    /// The client asks for salts to come.
    GetFutureSalts {
        /// How many.
        num: u32,
    },
    /// Salts and when each is valid, in seconds.
    FutureSalts {
        /// The number of the message that this is about.
        req_msg_id: u64,
        /// The server's time in seconds.
        now: u32,
        /// The salts, the earliest first.
        salts: FutureSaltList,
    },
    /// The peer wants a pong.
    Ping {
        /// The ping's identifier.
        ping_id: u64,
    },
    /// The same; the server may close the connection after that many seconds without another.
    PingDelayDisconnect {
        /// The ping's identifier.
        ping_id: u64,
        /// The seconds.
        disconnect_delay: u32,
    },
    /// The answer to a ping that came in that message.
    Pong {
        /// The message's number.
        msg_id: u64,
        /// The ping's identifier.
        ping_id: u64,
    },
    /// The client wants that session gone.
    DestroySession {
        /// The session's number.
        session_id: u64,
    },
    /// It is gone.
    DestroySessionOk {
        /// The session's number.
        session_id: u64,
    },
    /// There was none.
    DestroySessionNone {
        /// The session's number.
        session_id: u64,
    },
    /// The server began a new session; calls with a number below the first one were lost.
    NewSessionCreated {
        /// The first message number that isn't lost.
        first_msg_id: u64,
        /// A number of the server's own.
        unique_id: u64,
        /// The salt that is valid now.
        server_salt: u64,
    },
    /// Several messages in one.
    MsgContainer {
        /// The messages, in order.
        messages: Messages,
    },
    /// These messages were received.
    MsgsAck {
        /// The messages' numbers.
        msg_ids: IdList,
    },
    /// The peer asks how these messages fared.
    MsgsStateReq {
        /// The messages' numbers.
        msg_ids: IdList,
    },
    /// One byte of state for each message of that request.
    MsgsStateInfo {
        /// The number of the message that this is about.
        req_msg_id: u64,
        /// The bytes of state.
        info: Octets,
    },
    /// One byte of state for each of these messages, unasked.
    MsgsAllInfo {
        /// The messages' numbers.
        msg_ids: IdList,
        /// The bytes of state.
        info: Octets,
    },
    /// The peer wants these messages once more.
    MsgResendReq {
        /// The messages' numbers.
        msg_ids: IdList,
    },
    /// That message came before, and its answer is there; it is sent again where the peer asks for it.
    MsgDetailedInfo {
        /// The message's number.
        msg_id: u64,
        /// The answer's number.
        answer_msg_id: u64,
        /// Its length in bytes.
        bytes: u32,
        /// The state.
        status: u32,
    },
    /// A message of the peer's own was sent before and isn't acknowledged; it is sent again where asked for.
    MsgNewDetailedInfo {
        /// The answer's number.
        answer_msg_id: u64,
        /// Its length in bytes.
        bytes: u32,
        /// The state.
        status: u32,
    },
    /// That message is refused, for the reason of the code.
    BadMsgNotification {
        /// The refused message's number.
        bad_msg_id: u64,
        /// Its sequence number.
        bad_msg_seqno: u32,
        /// The code.
        error_code: u32,
    },
    /// The same for a wrong salt; the right one comes with it.
    BadServerSalt {
        /// The refused message's number.
        bad_msg_id: u64,
        /// Its sequence number.
        bad_msg_seqno: u32,
        /// The code.
        error_code: u32,
        /// The salt that is valid now.
        new_server_salt: u64,
    },
    /// The query, the rest of the body, runs after that message.
    InvokeAfterMsg {
        /// The message's number.
        msg_id: u64,
        /// The query.
        query: Octets,
    },
    /// The query, the rest of the body, runs after those messages.
    InvokeAfterMsgs {
        /// The messages' numbers.
        msg_ids: IdList,
        /// The query.
        query: Octets,
    },
    /// Binds a temporary key to a permanent one.
    AuthBindTempAuthKey {
        /// The permanent key's identifier.
        perm_auth_key_id: u64,
        /// A random number.
        nonce: u64,
        /// When the temporary key ends, in seconds.
        expires_at: u32,
        /// The binding message, sealed under the permanent key.
        encrypted_message: Octets,
    },
    /// A packed body, which isn't read.
    Packed,
    /// No service item: a call for the service, or fewer than 4 bytes.
    Call,
    /// A body that a service constructor begins and that isn't spelt right; its constructor.
    Broken(u32),
}

impl Item {
    ghost use Rattle.std.specs.Prelude.{◌↔◌, IsTrue};
    ghost use Rattle.service_tl.specs.Items.{IsOfSchema};

    /// Whether it is an item of the schema, which has a spelling: not `Packed`, `Call` or `Broken`.
    pub fn is_of_schema(&self) -> bool
        ensures { IsTrue result ↔ IsOfSchema self.now }
    {
        !matches!(self, Item::Packed | Item::Call | Item::Broken(_))
    }
}
