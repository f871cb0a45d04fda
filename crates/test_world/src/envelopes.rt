//! The worked rows, packets of another implementation, and what a core does with a seal.

ghost use Rattle.std.specs.Prelude.{◌≡◌, ◌≤◌, ◌%◌, IfOk, IfSome, IsSome, length};
ghost use Rattle.auth_keys.specs.Rings.{entry_of};
ghost use Rattle.envelope.specs.Packet.{body_max};

use auth_keys::AuthKey;
use cipher_modes::ige_encrypt;
use draws::{Draw, StepDraw};
use envelope::{ClearSeal, Dir, Envelope, MtSeal, Opened, Refusal, Seal, laws, packet_bytes};
use msg_ids::Moment;
use msg_key::{UP, aes_of, msg_key};
use octets::{Buffer, Memory, Octets};
use std::alloc::Global;
use std::test::*;
use test_asserts::{holds, holds_at, same, tells};
use test_keys::{KEY_ID, bytes_from_0_to_255, ring};

// Two packets made by another implementation of the equations: a few lines of Python over the SHA-1 and SHA-256 of its
// hashlib and the block of AES of OpenSSL 3 (`AES_encrypt`). Key `00` to `ff`, salt 0102030405060708, session
// 1112131415161718, sequence number 1, body a0a1a2a3, and 12 bytes of padding, those of the first two words of a
// `StepDraw`; message 4 up, message 5 down.
const UP_PACKET: [u8; 72] = [
    0x32, 0xd1, 0x58, 0x6e, 0xa4, 0x57, 0xdf, 0xc8, 0x54, 0x69, 0x46, 0x23, 0x68, 0xe2, 0xcb, 0x42,
    0x56, 0xad, 0x02, 0xab, 0x59, 0xa4, 0xa6, 0xb8, 0x63, 0xbe, 0xad, 0xf7, 0x47, 0x08, 0xc4, 0x87,
    0xcf, 0x11, 0x73, 0xef, 0x6f, 0xe6, 0x77, 0xe6, 0xf5, 0x54, 0xc4, 0x98, 0xd1, 0x07, 0xcf, 0x90,
    0xf9, 0xcb, 0xb6, 0x5a, 0xec, 0xde, 0x12, 0xa8, 0x98, 0x44, 0xb3, 0x98, 0x40, 0x78, 0x60, 0x81,
    0xcf, 0x33, 0xf0, 0x89, 0x1d, 0x67, 0xdf, 0x9d,
];

const DOWN_PACKET: [u8; 72] = [
    0x32, 0xd1, 0x58, 0x6e, 0xa4, 0x57, 0xdf, 0xc8, 0xdb, 0xf9, 0x35, 0xfd, 0x27, 0xfb, 0x18, 0x26,
    0x07, 0x6b, 0x85, 0x94, 0xb6, 0xb8, 0x74, 0x72, 0x17, 0x35, 0x74, 0x05, 0x18, 0xb9, 0x0c, 0x71,
    0x5c, 0xf0, 0xbd, 0xac, 0x2c, 0xa1, 0xb6, 0x6d, 0xed, 0xd9, 0x4c, 0xab, 0xa2, 0x6e, 0xd8, 0x08,
    0x3c, 0x9e, 0x54, 0x77, 0x0c, 0x89, 0x9e, 0xfc, 0xd3, 0x5b, 0xe2, 0x30, 0x5c, 0x5c, 0xa4, 0xaa,
    0x69, 0x41, 0xa6, 0xeb, 0x74, 0x9e, 0xcb, 0xa4,
];

// The packet down without a cipher: the identifier, the direction, and the plain text as it is.
const CLEAR_PACKET: [u8; 72] = [
    0x32, 0xd1, 0x58, 0x6e, 0xa4, 0x57, 0xdf, 0xc8, 0x01, 0x00, 0x00, 0x00, 0x00, 0x00, 0x00, 0x00,
    0x00, 0x00, 0x00, 0x00, 0x00, 0x00, 0x00, 0x00, 0x08, 0x07, 0x06, 0x05, 0x04, 0x03, 0x02, 0x01,
    0x18, 0x17, 0x16, 0x15, 0x14, 0x13, 0x12, 0x11, 0x05, 0x00, 0x00, 0x00, 0x00, 0x00, 0x00, 0x00,
    0x01, 0x00, 0x00, 0x00, 0x04, 0x00, 0x00, 0x00, 0xa0, 0xa1, 0xa2, 0xa3, 0x2d, 0x7f, 0x95, 0x4c,
    0x2d, 0xf4, 0x51, 0x58, 0x5a, 0xfe, 0x2a, 0x99,
];

/// The most bytes of a body that a seal takes.
const BODY_MAX: usize = 1_044_480;

fn envelope(alloc: Global, number: u64) -> Result<Envelope, Memory>
    ensures { IfOk result (λ envelope. (envelope.key ≡ KEY_ID) × (length envelope.body ≡ 4)) }
{
    let body = Octets::copy(alloc, &[0xa0, 0xa1, 0xa2, 0xa3])?;
    Ok(Envelope {
        key: KEY_ID,
        salt: 0x0102_0304_0506_0708,
        session: 0x1112_1314_1516_1718,
        number,
        seq: 1,
        body,
    })
}

// A packet up whose plain text has so many bytes behind its head of 32, and says this length.
fn packet(alloc: Global, key: &AuthKey, behind: usize, said: u32) -> Result<Octets, Memory>
    requires short { behind ≤ 1040 }
    requires blocks { behind % 16 ≡ 0 }
{
    let mut room = [7; 1072];
    room[28..32].copy_from_slice(&said.to_le_bytes());
    let text = &mut room[..32 + behind];
    let message_key = msg_key(key, UP, text);
    let (cipher_key, iv) = aes_of(key, UP, &message_key);
    ige_encrypt(&cipher_key, &iv, text);
    let mut packet = Buffer::new(alloc, 1096)?;
    packet.push_all(&key.id().to_le_bytes());
    packet.push_all(&message_key);
    packet.push_all(text);
    Ok(packet.into_octets())
}

// The refusal of a packet up, where it is refused.
fn refusal<S: Seal>(
    alloc: Global,
    seal: &S,
    now: u64,
    packet: &[u8],
) -> Result<Option<Refusal>, Memory> {
    match seal.unseal(alloc, Moment::new(now), Dir::Up, packet) {
        Opened::Envelope(_envelope) => Ok(None),
        Opened::Refused(refusal) => Ok(Some(refusal)),
        Opened::Memory => Err(Memory),
    }
}

// The refusal of such a packet, where it is refused.
fn outcome(
    alloc: Global,
    seal: &MtSeal,
    behind: usize,
    said: u32,
) -> Result<Option<Refusal>, Fail> {
    if behind > 1040 || behind % 16 != 0 {
        return Err(Fail::new("no whole blocks"));
    }
    let key = AuthKey::new(&bytes_from_0_to_255());
    let packet = packet(alloc, &key, behind, said)?;
    Ok(refusal(alloc, seal, 0, packet.as_slice())?)
}

#[test]
fn lengths_and_paddings(rt: HostRuntime) -> Result<(), Fail> {
    let alloc = rt.alloc();
    let rows = [
        (16, 4, None),
        (16, 8, Some(Refusal::Padding { bytes: 8 })),
        (1040, 16, None),
        (1040, 12, Some(Refusal::Padding { bytes: 1028 })),
        (16, 3, Some(Refusal::Length { said: 3 })),
        (16, 20, Some(Refusal::Length { said: 20 })),
        (16, 16, Some(Refusal::Padding { bytes: 0 })),
    ];
    let seal = MtSeal::new(ring(alloc, "perm")?);
    for (behind, said, expected) in rows {
        same(outcome(alloc, &seal, behind, said)?, expected)?;
    }
    Ok(())
}

// The refusal of the first so many bytes of the packet up at a moment, where its key expires at 7200.
fn refusal_at(alloc: Global, now: u64, size: usize) -> Result<Option<Refusal>, Fail> {
    if size > 72 {
        return Err(Fail::new("no such bytes"));
    }
    let seal = MtSeal::new(ring(alloc, "temp 7200")?);
    Ok(refusal(alloc, &seal, now, &UP_PACKET[..size])?)
}

#[test]
fn keys_and_sizes(rt: HostRuntime) -> Result<(), Fail> {
    let rows = [
        (7199, 72, None),
        (7200, 72, Some(Refusal::NoKey { id: KEY_ID })),
        (0, 71, Some(Refusal::Size { len: 71 })),
    ];
    for (now, size, expected) in rows {
        same(refusal_at(rt.alloc(), now, size)?, expected)?;
    }
    Ok(())
}

// The refusal of the packet up where a bit of one of its bytes is turned.
fn refusal_turned(alloc: Global, place: usize) -> Result<Option<Refusal>, Fail> {
    if place >= 72 {
        return Err(Fail::new("no such byte"));
    }
    let mut turned = UP_PACKET;
    turned[place] ^= 1;
    let seal = MtSeal::new(ring(alloc, "perm")?);
    Ok(refusal(alloc, &seal, 0, &turned)?)
}

#[test]
fn a_bit_of_the_key_is_turned(rt: HostRuntime) -> Result<(), Fail> {
    same(
        refusal_turned(rt.alloc(), 3)?,
        Some(Refusal::NoKey {
            id: KEY_ID ^ 0x0100_0000,
        }),
    )?;
    Ok(())
}

#[test]
fn a_bit_of_the_text_is_turned(rt: HostRuntime) -> Result<(), Fail> {
    for place in [8, 23, 24, 71] {
        let found = refusal_turned(rt.alloc(), place)?;
        holds_at(place, matches!(found, Some(Refusal::KeyMismatch { .. })))?;
    }
    Ok(())
}

// What a core does: what was sealed under a key opens again while the key is good. It needs no lemma.
fn there_and_back<S: Seal, D: Draw>(
    alloc: Global,
    seal: &S,
    now: Moment,
    dir: Dir,
    env: &Envelope,
    draw: &mut D,
) -> Result<Option<Envelope>, Memory>
    requires key { IsSome (entry_of env.now.key (S.keys seal.now)) }
    requires words { length env.now.body % 4 ≡ 0 }
    requires short { length env.now.body ≤ body_max }
    ensures same { IfOk result (λ opened. IfSome opened (λ envelope. envelope ≡ env.now)) }
{
    laws::opens_what_it_sealed::<S>();
    let packet = seal.seal(alloc, dir, env, draw)?;
    match seal.unseal(alloc, now, dir, packet.as_slice()) {
        Opened::Envelope(envelope) => Ok(Some(envelope)),
        Opened::Refused(_refusal) => Ok(None),
        Opened::Memory => Err(Memory),
    }
}

/// The packet of an envelope, under a key that the seal has.
pub(crate) fn sealed<S: Seal>(
    alloc: Global,
    seal: &S,
    dir: Dir,
    envelope: &Envelope,
) -> Result<Octets, Fail> {
    let len = envelope.body.as_slice().len();
    if !seal.has(envelope.key) || len % 4 != 0 || len > BODY_MAX {
        return Err(Fail::new("no packet"));
    }
    Ok(seal.seal(alloc, dir, envelope, &mut StepDraw::new())?)
}

// The packet of the message of this number.
fn packet_of<S: Seal>(alloc: Global, seal: &S, dir: Dir, number: u64) -> Result<Octets, Fail> {
    let envelope = envelope(alloc, number)?;
    sealed(alloc, seal, dir, &envelope)
}

#[test]
fn a_seal_has_the_keys_of_its_ring(rt: HostRuntime) -> Result<(), Fail> {
    let seal = MtSeal::new(ring(rt.alloc(), "perm")?);
    same(
        (seal.has(KEY_ID), seal.has(0), seal.ring().len()),
        (true, false, 1),
    )?;
    Ok(())
}

#[test]
fn sealed_as_another_does(rt: HostRuntime) -> Result<(), Fail> {
    let alloc = rt.alloc();
    let seal = MtSeal::new(ring(alloc, "perm")?);
    let rows = [(Dir::Up, 4, UP_PACKET), (Dir::Down, 5, DOWN_PACKET)];
    for (dir, number, packet) in rows {
        let sealed = packet_of(alloc, &seal, dir, number)?;
        same(sealed.as_slice(), packet.as_slice())?;
    }
    Ok(())
}

// What a packet down opens to.
fn opened_down(alloc: Global, packet: &[u8]) -> Result<Envelope, Fail> {
    let seal = MtSeal::new(ring(alloc, "perm")?);
    match seal.unseal(alloc, Moment::new(0), Dir::Down, packet) {
        Opened::Envelope(envelope) => Ok(envelope),
        Opened::Refused(_) | Opened::Memory => Err(Fail::new("the packet doesn't open")),
    }
}

#[test]
fn opened_as_another_does(rt: HostRuntime) -> Result<(), Fail> {
    let opened = opened_down(rt.alloc(), &DOWN_PACKET)?;
    same(
        (
            opened.key,
            opened.salt,
            opened.session,
            opened.number,
            opened.seq,
        ),
        (KEY_ID, 0x0102_0304_0506_0708, 0x1112_1314_1516_1718, 5, 1),
    )?;
    same(opened.body.as_slice(), [0xa0, 0xa1, 0xa2, 0xa3].as_slice())?;
    Ok(())
}

#[test]
fn sealed_without_a_cipher(rt: HostRuntime) -> Result<(), Fail> {
    let seal = ClearSeal::new(ring(rt.alloc(), "perm")?);
    let packet = packet_of(rt.alloc(), &seal, Dir::Down, 5)?;
    same(
        (packet.as_slice(), packet_bytes(4)),
        (CLEAR_PACKET.as_slice(), 72),
    )?;
    Ok(())
}

#[test]
fn a_packet_down_is_none_up(rt: HostRuntime) -> Result<(), Fail> {
    let seal = ClearSeal::new(ring(rt.alloc(), "perm")?);
    let found = refusal(rt.alloc(), &seal, 0, &CLEAR_PACKET)?;
    holds(matches!(found, Some(Refusal::KeyMismatch { .. })))?;
    Ok(())
}

// Whether a message goes down and is opened there.
fn is_opened_again(alloc: Global) -> Result<bool, Fail> {
    let seal = ClearSeal::new(ring(alloc, "perm")?);
    if !seal.has(KEY_ID) {
        return Err(Fail::new("no key"));
    }
    let envelope = envelope(alloc, 5)?;
    let now = Moment::new(0);
    let again = there_and_back(
        alloc,
        &seal,
        now,
        Dir::Down,
        &envelope,
        &mut StepDraw::new(),
    )?;
    Ok(again.is_some())
}

#[test]
fn opened_without_a_cipher(rt: HostRuntime) -> Result<(), Fail> {
    holds(is_opened_again(rt.alloc())?)?;
    Ok(())
}

#[test]
fn refusals_are_told(rt: HostRuntime) -> Result<(), Fail> {
    let rows = [
        (Refusal::Size { len: 71 }, "a packet has no 71 bytes"),
        (
            Refusal::NoKey { id: 255 },
            "no key 00000000000000ff is good",
        ),
        (
            Refusal::KeyMismatch {
                said: [0; 16],
                found: [1; 16],
            },
            "the message key isn't that of the text",
        ),
        (Refusal::Length { said: 3 }, "no body has the length 3"),
        (
            Refusal::Padding { bytes: 8 },
            "8 bytes of padding stand behind the body",
        ),
    ];
    for (refusal, text) in rows {
        tells(rt.alloc(), &refusal, text)?;
    }
    Ok(())
}
