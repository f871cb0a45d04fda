//! The name of a session.

use std::fmt;

/// What names a session of a server: the identifier of its key, and its number under that key. It is written as both in 16
/// hexadecimal digits, the key's before the number.
#[derive(Clone, Copy, PartialEq, Eq)]
pub struct SessionName {
    /// The identifier of the key.
    pub key: u64,
    /// The session's number.
    pub session: u64,
}

impl fmt::Display for SessionName {
    fn fmt<W: fmt::Write>(&self, f: &mut fmt::Formatter<W>) -> fmt::Result {
        write!(f, "{:016x}/{:016x}", self.key, self.session)
    }
}

impl fmt::Debug for SessionName {
    fn fmt<W: fmt::Write>(&self, f: &mut fmt::Formatter<W>) -> fmt::Result {
        write!(f, "SessionName({:016x}/{:016x})", self.key, self.session)
    }
}
