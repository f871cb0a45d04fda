//! The short answers that a server gives to calls and that are the same text each time, which takes no memory: the errors
//! in place of running a call, `boolTrue` to a binding, and that a call was dropped while it was unfinished or isn't known
//! (core.telegram.org/mtproto/service_messages, "RPC Error" and "Cancellation of an RPC Query").

ghost use Rattle.std.specs.Prelude.{◌≡◌, ◌≤◌, ◌%◌, length};
ghost use Rattle.service_tl.specs.Results.{is_good};
ghost use Rattle.server_dispatch.specs.Contents.{content_of, short_bytes_max};

use outbox::Bytes;

/// A short answer to a call.
#[derive(Clone, Copy, Debug, PartialEq, Eq)]
pub enum Short {
    /// The call is packed.
    PackedBodyRefused,
    /// The call, or the query in it, is a service message, or one that isn't spelt right.
    BadBody,
    /// The binding message isn't right.
    EncryptedMessageInvalid,
    /// The temporary key is bound to no permanent one.
    AuthKeyPermEmpty,
    /// The session has too many unfinished calls.
    JobsFull,
    /// A call that this one waits for wasn't answered well.
    MsgWaitFailed,
    /// The call has waited too long for others.
    MsgWaitTimeout,
    /// The call was dropped while it was unfinished.
    DroppedRunning,
    /// Nothing is known of the call whose answer was to be dropped.
    AnswerUnknown,
    /// The key is bound.
    BoolTrue,
}

impl Short {
    /// The content of the `rpc_result`. Takes no memory.
    #[tactic(auto, unfolding(tl_codec::specs::Spelling::spelling))]
    pub fn content(self) -> &'static [u8]
        ensures content { result.now ≡ content_of self }
        ensures words { length (content_of self) % 4 ≡ 0 }
        ensures short { length (content_of self) ≤ short_bytes_max }
    {
        match self {
            Short::PackedBodyRefused => b"\x19\xca\x44\x21\x90\x01\0\0\x13PACKED_BODY_REFUSED",
            Short::BadBody => b"\x19\xca\x44\x21\x90\x01\0\0\x08BAD_BODY\0\0\0",
            Short::EncryptedMessageInvalid => {
                b"\x19\xca\x44\x21\x90\x01\0\0\x19ENCRYPTED_MESSAGE_INVALID\0\0"
            }
            Short::AuthKeyPermEmpty => b"\x19\xca\x44\x21\x91\x01\0\0\x13AUTH_KEY_PERM_EMPTY",
            Short::JobsFull => b"\x19\xca\x44\x21\xa4\x01\0\0\x09JOBS_FULL\0\0",
            Short::MsgWaitFailed => b"\x19\xca\x44\x21\x90\x01\0\0\x0fMSG_WAIT_FAILED",
            Short::MsgWaitTimeout => b"\x19\xca\x44\x21\x90\x01\0\0\x10MSG_WAIT_TIMEOUT\0\0\0",
            Short::DroppedRunning => b"\x86\xe5\x78\xcd",
            Short::AnswerUnknown => b"\x6e\xd3\x2a\x5e",
            Short::BoolTrue => b"\xb5\x75\x72\x99",
        }
    }

    /// The content as bytes that are shared. Takes no memory.
    pub fn bytes(self) -> Bytes
        ensures content { result ≡ content_of self }
        ensures words { length (content_of self) % 4 ≡ 0 }
        ensures short { length (content_of self) ≤ short_bytes_max }
    {
        Bytes::from_static(self.content())
    }

    /// Whether a call that is answered so counts as answered well.
    #[tactic(auto, unfolding(tl_codec::specs::Spelling::spelling))]
    pub fn is_good(self) -> bool
        ensures { result ≡ is_good (content_of self) }
    {
        matches!(self, Short::AnswerUnknown | Short::BoolTrue)
    }
}
