//! The answer of an act.

/// The answer of a call that only does something.
#[derive(Clone, Copy, Debug, PartialEq, Eq)]
pub enum Act {
    /// It is done.
    Ready,
    /// It failed.
    Failed,
}
