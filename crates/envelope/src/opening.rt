//! Packets opened.

ghost use Rattle.std.specs.Prelude.{◌≡◌, ◌≤◌, ◌%◌, ◌↔◌, IsTrue, IfOk, IfSome, IfNone, ◌+◌, length, take, drop};
ghost use Rattle.auth_keys.specs.declared.ring.RingKey.{RingKey};
ghost use Rattle.byteorder.specs.Endian.{little_number};
ghost use Rattle.envelope.specs.Answers.{IfEnvelope, IfRefused};
ghost use Rattle.envelope.specs.Lawful.{OpensWhatItSealed};
ghost use Rattle.envelope.specs.Opening.{IsGoodKey, IsPacketSize, IsRefused, Opens, message_key_said, text_of};
ghost use Rattle.envelope.specs.Reading.{IsPlainRefused, IsWhole, envelope_in};

use crate::cipher::{Cipher, byte_laws};
use crate::limits::{
    BLOCK_BYTES, PACKET_BYTES_MAX, PACKET_BYTES_MIN, PACKET_HEAD_BYTES, PADDING_BYTES_MAX,
    PADDING_BYTES_MIN, PLAIN_HEAD_BYTES,
};
use crate::parts::{Dir, Envelope, Opened};
use crate::refusal::Refusal;
use auth_keys::{AuthKey, Ring};
use byteorder::{ByteOrder, LittleEndian};
use msg_ids::Moment;
use octets::{Memory, Octets};
use std::alloc::Global;

/// Opens a packet under the good key of a ring that it names.
pub fn opened<C: Cipher>(alloc: Global, ring: &Ring, now: Moment, dir: Dir, packet: &[u8]) -> Opened
    ensures envelope { IfEnvelope result (Opens C.lock ring.now now dir packet.now) }
    ensures refused { IfRefused result (IsRefused C.lock ring.now now dir packet.now) }
{
    C::lawful();
    byte_laws();
    let len = packet.len();
    if !is_packet_size(len) {
        return Opened::Refused(Refusal::Size { len });
    }
    let id = long_at(packet, 0);
    let Some(key) = good_key(ring, now, id) else {
        return Opened::Refused(Refusal::NoKey { id });
    };
    let said = message_key_said(packet);
    let Ok(text) = unlocked::<C>(alloc, key, dir, &said, text_of(packet)) else {
        return Opened::Memory;
    };
    let plain = text.as_slice();
    let found = C::message_key(key, dir, plain);
    if !is_same(&said, &found) {
        return Opened::Refused(Refusal::KeyMismatch { said, found });
    }
    read_plain(id, text)
}

// The plain text of a text.
fn unlocked<C: Cipher>(
    alloc: Global,
    key: &AuthKey,
    dir: Dir,
    message_key: &[u8; 16],
    text: &[u8],
) -> Result<Octets, Memory>
    requires { length text.now % 16 ≡ 0 }
    ensures plain { IfOk result (λ plain. plain ≡ C.lock.unlocked key.now dir message_key.now text.now) }
    ensures same_length { IfOk result (λ plain. length plain ≡ length text.now) }
{
    let mut plain = Octets::copy(alloc, text)?.into_vec();
    C::unlock(key, dir, message_key, &mut plain);
    Ok(Octets::from(plain))
}

fn is_same(said: &[u8; 16], found: &[u8; 16]) -> bool
    ensures { IsTrue result ↔ (said.now ≡ found.now) }
{
    said.as_slice() == found.as_slice()
}

/// A law: packets of the cipher open to what was sealed.
pub fn opens_what_it_sealed<C: Cipher>()
    ensures { OpensWhatItSealed C.lock }
{
    C::lawful();
    byte_laws();
}

fn is_packet_size(len: usize) -> bool
    ensures { IsTrue result ↔ IsPacketSize len }
{
    PACKET_BYTES_MIN <= len
        && len <= PACKET_BYTES_MAX
        && (len - PACKET_HEAD_BYTES) % BLOCK_BYTES == 0
}

// The key with this identifier, where it is permanent or expires later.
fn good_key(ring: &Ring, now: Moment, id: u64) -> Option<&AuthKey>
    ensures found { IfSome result (λ key. (entry : RingKey) × IsGoodKey ring.now now id entry × (key.now ≡ entry.key)) }
    ensures none { IfNone result ((entry : RingKey) → IsGoodKey ring.now now id entry → ⊥) }
{
    let kind = ring.kind(id)?;
    if kind.is_good_at(now) {
        ring.find(id)
    } else {
        None
    }
}

fn message_key_said(packet: &[u8]) -> [u8; 16]
    requires { 24 ≤ length packet.now }
    ensures { result ≡ message_key_said packet.now }
{
    let mut said = [0; 16];
    said.copy_from_slice(&packet[8..PACKET_HEAD_BYTES]);
    said
}

fn text_of(packet: &[u8]) -> &[u8]
    requires { 24 ≤ length packet.now }
    ensures { result.now ≡ text_of packet.now }
{
    let (_head, text) = packet.split_at(PACKET_HEAD_BYTES);
    text
}

// The number of 8 bytes at a place.
fn long_at(bytes: &[u8], place: usize) -> u64
    requires { place + 8 ≤ length bytes.now }
    ensures { result ≡ little_number 8 (drop place bytes.now) }
{
    let (_before, number) = bytes.split_at(place);
    LittleEndian::read_u64(number)
}

// The number of 4 bytes at a place.
fn int_at(bytes: &[u8], place: usize) -> u32
    requires { place + 4 ≤ length bytes.now }
    ensures { result ≡ little_number 4 (drop place bytes.now) }
{
    let (_before, number) = bytes.split_at(place);
    LittleEndian::read_u32(number)
}

// Reads the envelope of a plain text, whose memory becomes the body's.
fn read_plain(key: u64, text: Octets) -> Opened
    requires { 32 ≤ length text }
    ensures envelope { IfEnvelope result (λ envelope. (envelope ≡ envelope_in key text) × IsWhole text) }
    ensures refused { IfRefused result (IsPlainRefused text) }
{
    let plain = text.as_slice();
    let said = int_at(plain, 28);
    let behind = plain.len() - PLAIN_HEAD_BYTES;
    if said % 4 != 0 || said as usize > behind {
        return Opened::Refused(Refusal::Length { said });
    }
    let bytes = behind - said as usize;
    if bytes < PADDING_BYTES_MIN || bytes > PADDING_BYTES_MAX {
        return Opened::Refused(Refusal::Padding { bytes });
    }
    Opened::Envelope(Envelope {
        key,
        salt: long_at(plain, 0),
        session: long_at(plain, 8),
        number: long_at(plain, 16),
        seq: int_at(plain, 24),
        body: body_of(text, said as usize),
    })
}

// The body of a plain text, moved to the front of its memory.
fn body_of(text: Octets, count: usize) -> Octets
    requires { 32 + count ≤ length text }
    ensures { result ≡ take count (drop 32 text) }
{
    let mut bytes = text.into_vec();
    bytes.copy_within(PLAIN_HEAD_BYTES..PLAIN_HEAD_BYTES + count, 0);
    bytes.truncate(count);
    Octets::from(bytes)
}
