//! Captures, made by the client's start and the frames of the public standard.

use cipher_modes::Ctr;
use draws::{Seeded, StepDraw};
use obfus::{Init, Tag};
use octets::{Memory, Octets};
use secret_relay::{Form, Relay, RelayFault};
use std::alloc::Global;

/// The secret of the rows.
pub(crate) const SECRET: [u8; 16] = [0; 16];

/// A client's start of a form with the secret.
pub(crate) fn start(tag: Tag) -> Init {
    let mut draw: StepDraw = Seeded::at(&[0; 32], 7);
    Init::make_with(&mut draw, tag, 2, &SECRET)
}

/// The first bytes of a client that starts so.
pub(crate) fn wire_of(tag: Tag) -> [u8; 64] {
    let init = start(tag);
    let wire = init.wire;
    drop(init);
    wire
}

/// Bytes of the client come to a relay. Nothing is said of what it does with them, as what is known of a relay goes through each
/// line of a test; `relays` has tries of what a relay promises.
pub(crate) fn up(
    relay: &mut Relay,
    alloc: Global,
    piece: &[u8],
    out: &mut Octets,
) -> Result<(), RelayFault> {
    relay.up(alloc, piece, out)
}

/// The same of the server.
pub(crate) fn down(
    relay: &mut Relay,
    alloc: Global,
    piece: &[u8],
    out: &mut Octets,
) -> Result<(), RelayFault> {
    relay.down(alloc, piece, out)
}

/// A packet of so many bytes, which differ.
fn packet(alloc: Global, len: usize) -> Result<Octets, Memory> {
    let mut bytes = Vec::with_capacity(alloc, len)?;
    for i in 0..len {
        bytes.push((i % 251) as u8)?;
    }
    Ok(Octets::from(bytes))
}

/// The frame of a packet of so many bytes.
pub(crate) fn put(alloc: Global, form: Form, len: usize, into: &mut Octets) -> Result<(), Memory> {
    let packet = packet(alloc, len)?;
    put_packet(alloc, form, packet.as_slice(), into)
}

// The frame of a packet.
fn put_packet(alloc: Global, form: Form, packet: &[u8], into: &mut Octets) -> Result<(), Memory> {
    let Ok(len) = u32::try_from(packet.len()) else {
        return Err(Memory);
    };
    if form != Form::Abridged {
        into.push_all(alloc, &len.to_le_bytes())?;
    } else if len < 508 {
        into.push_all(alloc, &[(len / 4) as u8])?;
    } else {
        let words = (len / 4).to_le_bytes();
        into.push_all(alloc, &[0x7f, words[0], words[1], words[2]])?;
    }
    into.push_all(alloc, packet)
}

/// The text through a key stream.
pub(crate) fn through(stream: &mut Ctr, text: Octets) -> Octets {
    let mut bytes = text.into_vec();
    stream.apply(&mut bytes);
    Octets::from(bytes)
}

/// The form that a tag names.
pub(crate) fn form_of(tag: Tag) -> Form {
    match tag {
        Tag::Abridged => Form::Abridged,
        Tag::Intermediate => Form::Intermediate,
        Tag::Padded => Form::Padded,
    }
}
