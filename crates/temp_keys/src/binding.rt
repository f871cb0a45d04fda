//! What a binding call says, and what it binds.

use octets::Octets;

/// `bind_auth_key_inner`, the object inside a binding message (core.telegram.org/api/pfs).
#[derive(Clone, Copy, Debug, PartialEq, Eq)]
pub struct Inner {
    /// The nonce of the binding call.
    pub nonce: u64,
    /// The identifier of the temporary key.
    pub temp: u64,
    /// The identifier of the permanent key.
    pub perm: u64,
    /// The session in which the binding call is sent.
    pub session: u64,
    /// The first moment at which the binding doesn't hold any more, in seconds of Unix time.
    pub expires: u32,
}

/// What a binding call says (core.telegram.org/method/auth.bindTempAuthKey).
#[derive(Debug, Drop)]
pub struct Binding {
    /// The identifier of the permanent key.
    pub perm: u64,
    /// The nonce, which stands in the message too.
    pub nonce: u64,
    /// The first moment at which the binding doesn't hold any more, in seconds of Unix time.
    pub expires: u32,
    /// The binding message.
    pub message: Octets,
}

/// A temporary key that is bound to a permanent one.
#[derive(Clone, Copy, Debug, PartialEq, Eq)]
pub struct Bound {
    /// The identifier of the temporary key.
    pub temp: u64,
    /// The identifier of the permanent key.
    pub perm: u64,
    /// The first moment at which the binding doesn't hold any more, in seconds of Unix time.
    pub expires: u32,
}
