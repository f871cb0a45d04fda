//! The line on all packets.

ghost use Rattle.std.specs.Prelude.{◌≡◌, ◌++◌, OnOk, OnErr, length};
ghost use Rattle.sha2.specs.Sha256.{sha256};
ghost use Rattle.sim_text.specs.Bag.{joined, packets_line};

use crate::number::push_number;
use octets::{Memory, Octets};
use sha2::{Digest, Sha256};
use std::alloc::Global;

/// Packets that stand in order, and are lent one by one.
pub trait Wire {
    ghost use Rattle.std.specs.Prelude.{◌≡◌, ◌<◌, ℕ, List, Some, length, slice_get};

    /// The bytes of each packet, in order.
    ghost packets: { Self → List (List ℕ) };

    /// How many there are.
    fn packet_count(&self) -> u64
        ensures { result ≡ length (packets self.now) };

    /// The bytes of the packet at this place, from 0.
    fn packet_at(&self, place: u64) -> &[u8]
        requires { place < length (packets self.now) }
        ensures { slice_get (packets self.now) place ≡ Some result.now };
}

/// Puts the line on all packets behind a text: how many there are, their length together in bytes, and the SHA-256 of all,
/// one behind the other, in lower case hexadecimal.
///
/// # Errors
///
/// `Memory`, and then the text is as it was.
pub fn wire_line<W: Wire>(alloc: Global, into: &mut Octets, wire: &W) -> Result<(), Memory>
    ensures told { OnOk result (into.new ≡ into.old ++ packets_line (W.packets wire.now)) }
    ensures unchanged_on_memory { OnErr result (into.new ≡ into.old) }
{
    let mut text = Octets::new(alloc);
    push_wire(alloc, &mut text, wire)?;
    into.push_all(alloc, text.as_slice())
}

/// Puts the line on all packets behind a text.
fn push_wire<W: Wire>(alloc: Global, text: &mut Octets, wire: &W) -> Result<(), Memory>
    ensures { OnOk result (text.new ≡ text.old ++ packets_line (W.packets wire.now)) }
{
    text.push_all(alloc, b"packets ")?;
    push_number(alloc, text, wire.packet_count())?;
    text.push_all(alloc, b" ")?;
    push_number(alloc, text, wire_bytes(wire))?;
    text.push_all(alloc, b" ")?;
    let digest = hex::encode(alloc, digest_of(wire))?;
    text.push_all(alloc, digest.as_bytes())?;
    text.push_all(alloc, b"\n")
}

/// The length of all packets together, in bytes.
pub fn wire_bytes<W: Wire>(wire: &W) -> u128
    ensures { result ≡ length (joined (W.packets wire.now)) }
{
    let mut bytes = 0u128;
    for place in 0..wire.packet_count() {
        bytes += wire.packet_at(place).len() as u128;
    }
    bytes
}

/// The SHA-256 of all packets, one behind the other.
fn digest_of<W: Wire>(wire: &W) -> [u8; 32]
    ensures { result ≡ sha256 (joined (W.packets wire.now)) }
{
    let mut hasher = Sha256::new();
    for place in 0..wire.packet_count() {
        hasher.update(wire.packet_at(place));
    }
    hasher.finalize()
}
