//! The sizes of packets, in bytes.

ghost use Rattle.std.specs.Prelude.{◌≡◌, ◌≤◌};
ghost use Rattle.envelope.specs.Packet.{body_max, least_padding, sealed_size};

/// The shortest packet.
pub const PACKET_BYTES_MIN: usize = 72;

/// The longest packet: 1 MiB.
pub const PACKET_BYTES_MAX: usize = 1_048_576;

/// The longest body that is sealed.
pub const BODY_BYTES_MAX: usize = 1_044_480;

/// The shortest padding.
pub const PADDING_BYTES_MIN: usize = 12;

/// The longest padding.
pub const PADDING_BYTES_MAX: usize = 1024;

/// In front of the text: the key's identifier and the message key.
pub(crate) const PACKET_HEAD_BYTES: usize = 24;

/// In front of the body: salt, session, number, sequence number and length.
pub(crate) const PLAIN_HEAD_BYTES: usize = 32;

/// In front of the body in a packet: both.
pub const SEALED_HEAD_BYTES: usize = 56;

pub(crate) const BLOCK_BYTES: usize = 16;

/// Room for the longest padding that is drawn.
pub(crate) const PADDING_ROOM: usize = 27;

/// The least padding of at least 12 bytes with which the plain text of a body of so many bytes is whole blocks.
pub(crate) fn least_padding(body: usize) -> usize
    requires { body ≤ body_max }
    ensures value { result ≡ least_padding body }
    ensures room { result ≤ PADDING_ROOM }
{
    let without = PLAIN_HEAD_BYTES + body + PADDING_BYTES_MIN;
    PADDING_BYTES_MIN + (BLOCK_BYTES - without % BLOCK_BYTES) % BLOCK_BYTES
}

/// How many bytes the packet of a body of so many bytes has.
pub fn packet_bytes(body: usize) -> usize
    requires { body ≤ body_max }
    ensures { result ≡ sealed_size body }
{
    PACKET_HEAD_BYTES + PLAIN_HEAD_BYTES + body + least_padding(body)
}
