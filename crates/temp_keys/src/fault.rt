//! Why a binding call is refused.

use std::fmt;
use thiserror::Error;

/// Why a binding call binds nothing. The first that holds is told.
#[derive(Clone, Copy, Debug, PartialEq, Eq, Error)]
pub enum BindFault {
    /// The call names no permanent key of the ring.
    #[error("no permanent key has the identifier")]
    NoPerm,
    /// The message is no binding message that was sealed under that key.
    #[error("the message isn't sealed under the permanent key")]
    Seal,
    /// The text of the message differs from the call.
    #[error("{which} of the message isn't that of the call")]
    Field {
        /// The first field that differs.
        which: InnerField,
    },
    /// The binding doesn't hold any more.
    #[error("the binding has expired")]
    Expired,
}

/// The fields that are compared between a binding message and its call, in this order.
#[derive(Clone, Copy, Debug, PartialEq, Eq)]
pub enum InnerField {
    /// The number of the binding call.
    Number,
    /// The nonce.
    Nonce,
    /// The identifier of the temporary key. It stands also for one that isn't a temporary key of the ring.
    Temp,
    /// The identifier of the permanent key.
    Perm,
    /// The session in which the binding call is sent.
    Session,
    /// The moment of expiry.
    Expires,
}

impl fmt::Display for InnerField {
    /// The field's name in the schema, and `msg_id` for the number.
    fn fmt<W: fmt::Write>(&self, f: &mut fmt::Formatter<W>) -> fmt::Result {
        f.write_str(match self {
            InnerField::Number => "msg_id",
            InnerField::Nonce => "nonce",
            InnerField::Temp => "temp_auth_key_id",
            InnerField::Perm => "perm_auth_key_id",
            InnerField::Session => "temp_session_id",
            InnerField::Expires => "expires_at",
        })
    }
}
