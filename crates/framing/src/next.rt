//! What comes next in a stream.

use tl_codec::FrameFault;

/// What comes next in a stream.
#[derive(Clone, Copy, Debug, PartialEq, Eq)]
pub enum Next<'a> {
    /// The next packet, lent from the stream's buffer.
    Packet(&'a [u8]),
    /// What is left is less than its length field says, or that isn't whole; maybe it has no byte: more are awaited.
    More,
    /// What is left shows a fault: no frame begins so.
    Fault(FrameFault),
}
