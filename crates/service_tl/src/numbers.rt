//! The constructor numbers of the service items, each with its line of the schema.
//! `laws::numbers_are_the_standards` ties them to the numbers that the definitions have.
//!
//! - Answers to calls, salts, pings, sessions, containers and packed objects:
//!   core.telegram.org/mtproto/service_messages.
//! - Acknowledgements, states and notices: core.telegram.org/mtproto/service_messages_about_messages.
//! - Queries after other messages: core.telegram.org/api/invoking. These two lines have `{X:Type}`
//!   before their fields in the public schema, which takes no bytes.
//! - The binding of temporary keys: core.telegram.org/method/auth.bindTempAuthKey.

/// `rpc_result#f35c6d01 req_msg_id:long result:Object = RpcResult`.
pub const RPC_RESULT: u32 = 0xf35c6d01;

/// `rpc_error#2144ca19 error_code:int error_message:string = RpcError`.
pub const RPC_ERROR: u32 = 0x2144ca19;

/// `rpc_drop_answer#58e4a740 req_msg_id:long = RpcDropAnswer`.
pub const RPC_DROP_ANSWER: u32 = 0x58e4a740;

/// `rpc_answer_unknown#5e2ad36e = RpcDropAnswer`.
pub const RPC_ANSWER_UNKNOWN: u32 = 0x5e2ad36e;

/// `rpc_answer_dropped_running#cd78e586 = RpcDropAnswer`.
pub const RPC_ANSWER_DROPPED_RUNNING: u32 = 0xcd78e586;

/// `rpc_answer_dropped#a43ad8b7 msg_id:long seq_no:int bytes:int = RpcDropAnswer`.
pub const RPC_ANSWER_DROPPED: u32 = 0xa43ad8b7;

/// `get_future_salts#b921bd04 num:int = FutureSalts`.
pub const GET_FUTURE_SALTS: u32 = 0xb921bd04;

/// `future_salts#ae500895 req_msg_id:long now:int salts:vector<future_salt> = FutureSalts`.
pub const FUTURE_SALTS: u32 = 0xae500895;

/// `ping#7abe77ec ping_id:long = Pong`.
pub const PING: u32 = 0x7abe77ec;

/// `ping_delay_disconnect#f3427b8c ping_id:long disconnect_delay:int = Pong`.
pub const PING_DELAY_DISCONNECT: u32 = 0xf3427b8c;

/// `pong#347773c5 msg_id:long ping_id:long = Pong`.
pub const PONG: u32 = 0x347773c5;

/// `destroy_session#e7512126 session_id:long = DestroySessionRes`.
pub const DESTROY_SESSION: u32 = 0xe7512126;

/// `destroy_session_ok#e22045fc session_id:long = DestroySessionRes`.
pub const DESTROY_SESSION_OK: u32 = 0xe22045fc;

/// `destroy_session_none#62d350c9 session_id:long = DestroySessionRes`.
pub const DESTROY_SESSION_NONE: u32 = 0x62d350c9;

/// `new_session_created#9ec20908 first_msg_id:long unique_id:long server_salt:long = NewSession`.
pub const NEW_SESSION_CREATED: u32 = 0x9ec20908;

/// `msg_container#73f1f8dc messages:vector<%Message> = MessageContainer`.
pub const MSG_CONTAINER: u32 = 0x73f1f8dc;

/// `msgs_ack#62d6b459 msg_ids:Vector long = MsgsAck`.
pub const MSGS_ACK: u32 = 0x62d6b459;

/// `msgs_state_req#da69fb52 msg_ids:Vector long = MsgsStateReq`.
pub const MSGS_STATE_REQ: u32 = 0xda69fb52;

/// `msgs_state_info#04deb57d req_msg_id:long info:string = MsgsStateInfo`.
pub const MSGS_STATE_INFO: u32 = 0x04deb57d;

/// `msgs_all_info#8cc0d131 msg_ids:Vector long info:string = MsgsAllInfo`.
pub const MSGS_ALL_INFO: u32 = 0x8cc0d131;

/// `msg_resend_req#7d861a08 msg_ids:Vector long = MsgResendReq`.
pub const MSG_RESEND_REQ: u32 = 0x7d861a08;

/// `msg_detailed_info#276d3ec6 msg_id:long answer_msg_id:long bytes:int status:int = MsgDetailedInfo`.
pub const MSG_DETAILED_INFO: u32 = 0x276d3ec6;

/// `msg_new_detailed_info#809db6df answer_msg_id:long bytes:int status:int = MsgDetailedInfo`.
pub const MSG_NEW_DETAILED_INFO: u32 = 0x809db6df;

/// `bad_msg_notification#a7eff811 bad_msg_id:long bad_msg_seqno:int error_code:int = BadMsgNotification`.
pub const BAD_MSG_NOTIFICATION: u32 = 0xa7eff811;

/// `bad_server_salt#edab447b bad_msg_id:long bad_msg_seqno:int error_code:int new_server_salt:long = BadMsgNotification`.
pub const BAD_SERVER_SALT: u32 = 0xedab447b;

/// `invokeAfterMsg#cb9f372d {X:Type} msg_id:long query:!X = X`.
pub const INVOKE_AFTER_MSG: u32 = 0xcb9f372d;

/// `invokeAfterMsgs#3dc4b4f0 {X:Type} msg_ids:Vector<long> query:!X = X`.
pub const INVOKE_AFTER_MSGS: u32 = 0x3dc4b4f0;

/// `auth.bindTempAuthKey#cdd42a05 perm_auth_key_id:long nonce:long expires_at:int encrypted_message:bytes = Bool`.
pub const AUTH_BIND_TEMP_AUTH_KEY: u32 = 0xcdd42a05;

/// `gzip_packed#3072cfa1 packed_data:string = Object`; not read.
pub const GZIP_PACKED: u32 = 0x3072cfa1;
