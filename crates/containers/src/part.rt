//! An inner message, lent.

ghost use Rattle.std.specs.Prelude.{◌<◌, ◌^◌, length};

/// An inner message whose body still stands in the container's.
#[derive(Clone, Copy, Debug, PartialEq, Eq)]
pub struct Part<'a> {
    /// Its number: the message identifier.
    pub number: u64,
    /// Its sequence number.
    pub seq: u32,
    /// Its body, of fewer than `2^32` bytes.
    pub body: &'a [u8],
    ghost short: { length body.now < 2 ^ 32 },
}
