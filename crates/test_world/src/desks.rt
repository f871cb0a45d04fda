//! A server with a journal in memory, and a client's packets to it.

use crate::envelopes::sealed;
use disks::MemDisk;
use draws::StepDraw;
use envelope::{ClearSeal, Dir, Envelope};
use octets::Octets;
use sess_journal::Kept;
use std::alloc::Global;
use std::test::Fail;
use test_keys::{KEY_ID, both_keys};

/// A server with a journal in memory.
pub(crate) type Server = Kept<MemDisk, ClearSeal, StepDraw>;

/// The first salt of the first session: the second word of a `StepDraw`.
const SALT: u64 = 12_728_272_447_693_586_010;

/// The session of the messages.
pub(crate) const SESSION: u64 = 9;

/// The call 4, which adds 5 to `x`.
const ADD_X_5: &[u8] = b"\x01\x2c\x1b\x0a\x01x\0\0\x05\0\0\0\0\0\0\0";

/// A container of the acknowledgement 8 of the message 7, and of the call 12, which adds 5 to `x`.
const BOTH: &[u8] = b"\xdc\xf8\xf1\x73\x02\0\0\0\
\x08\0\0\0\0\0\0\0\x02\0\0\0\x14\0\0\0\x59\xb4\xd6\x62\x15\xc4\xb5\x1c\x01\0\0\0\x07\0\0\0\0\0\0\0\
\x0c\0\0\0\0\0\0\0\x03\0\0\0\x10\0\0\0\x01\x2c\x1b\x0a\x01x\0\0\x05\0\0\0\0\0\0\0";

/// What seals the packets.
pub(crate) fn seal(alloc: Global) -> Result<ClearSeal, Fail> {
    Ok(ClearSeal::new(both_keys(alloc)?))
}

/// The packet of a message.
fn packet(alloc: Global, salt: u64, number: u64, seq: u32, body: &[u8]) -> Result<Octets, Fail> {
    let body = Octets::copy(alloc, body)?;
    let seal = seal(alloc)?;
    let envelope = Envelope {
        key: KEY_ID,
        salt,
        session: SESSION,
        number,
        seq,
        body,
    };
    let packet = sealed(alloc, &seal, Dir::Up, &envelope);
    drop(seal);
    drop(envelope);
    packet
}

/// The client's first packet: a call under a wrong salt.
pub(crate) fn first(alloc: Global) -> Result<Octets, Fail> {
    packet(alloc, 0, 4, 1, ADD_X_5)
}

/// Its second packet, under the salt that it was told: the container 16.
pub(crate) fn second(alloc: Global) -> Result<Octets, Fail> {
    packet(alloc, SALT, 16, 4, BOTH)
}

/// The disk in memory that holds these bytes, with room for more, and whose calls of these numbers fail.
pub(crate) fn disk(alloc: Global, bytes: &[u8], failing: &[u64]) -> Result<MemDisk, Fail> {
    Ok(MemDisk::new(alloc, bytes, failing, 1_000, 100)?)
}
