//! Packets sealed.

ghost use Rattle.std.specs.Prelude.{◌≡◌, ◌≤◌, ◌+◌, ◌-◌, ◌%◌, ◌++◌, ℕ, List, IsSome, length, take, drop};
ghost use Rattle.byteorder.specs.Endian.{little_bytes};
ghost use Rattle.octets.specs.Bytes.{IsBytes};
ghost use Rattle.auth_keys.specs.Rings.{entry_of};
ghost use Rattle.draws.specs.Draws.{draw_after, next_bytes, words_for};
ghost use Rattle.envelope.specs.Packet.{IsEnvelope, IsPadding, Sealed, body_max, envelope_with, least_padding, packet_max, packet_of, plain_text, sealed_size, to_seal};

use crate::cipher::Cipher;
use crate::limits::{PACKET_HEAD_BYTES, PADDING_ROOM, SEALED_HEAD_BYTES, least_padding};
use crate::parts::{Dir, Head};
use auth_keys::{AuthKey, Ring};
use draws::{Draw, draw_bytes};
use octets::laws::parts_are_bytes;
use octets::{Buffer, Octets};

/// Seals a body in the room that it stands in, under the key of a ring that its head names.
pub fn sealed<C: Cipher, D: Draw>(
    text: Buffer,
    ring: &Ring,
    dir: Dir,
    head: &Head,
    draw: &mut D,
) -> Octets
    requires key { IsSome (entry_of head.now.key ring.now) }
    requires front { 56 ≤ length text.bytes }
    requires words { length (to_seal text.bytes) % 4 ≡ 0 }
    requires short { length (to_seal text.bytes) ≤ body_max }
    requires room { sealed_size (length (to_seal text.bytes)) ≤ length text.bytes + text.room }
    ensures sealed { Sealed C.lock ring.now dir (envelope_with head.now (to_seal text.bytes)) (next_bytes D.step (least_padding (length (to_seal text.bytes))) draw.old) result }
    ensures drawn { draw.new ≡ draw_after D.step (words_for (least_padding (length (to_seal text.bytes)))) draw.old }
{
    match ring.find(head.key) {
        Some(key) => sealed_under::<C, D>(text, key, dir, head, draw),
        None => unreachable!(),
    }
}

// Seals a body under a key, in the room that it stands in.
fn sealed_under<C: Cipher, D: Draw>(
    mut text: Buffer,
    key: &AuthKey,
    dir: Dir,
    head: &Head,
    draw: &mut D,
) -> Octets
    requires front { 56 ≤ length text.bytes }
    requires words { length (to_seal text.bytes) % 4 ≡ 0 }
    requires short { length (to_seal text.bytes) ≤ body_max }
    requires room { sealed_size (length (to_seal text.bytes)) ≤ length text.bytes + text.room }
    ensures spelled { result ≡ packet_of C.lock key.now dir (envelope_with head.now (to_seal text.bytes)) (next_bytes D.step (least_padding (length (to_seal text.bytes))) draw.old) }
    ensures drawn { draw.new ≡ draw_after D.step (words_for (least_padding (length (to_seal text.bytes)))) draw.old }
    ensures lawful { IsEnvelope (envelope_with head.now (to_seal text.bytes)) }
    ensures padded { IsPadding (length (to_seal text.bytes)) (next_bytes D.step (least_padding (length (to_seal text.bytes))) draw.old) }
    ensures fits { length result ≤ packet_max }
{
    lawful(head);
    let body = body_bytes(&text);
    let mut drawn = [0; PADDING_ROOM];
    let padding = &mut drawn[..least_padding(body)];
    draw_bytes(draw, padding);
    text.push_all(padding);
    let mut packet = text.into_octets().into_vec();
    seal_behind::<C>(key, dir, head, body as u32, &mut packet);
    Octets::from(packet)
}

// A head's numbers fit their types, so that with a body of whole words it is a lawful envelope.
fn lawful(head: &Head)
    ensures { (body : List ℕ) → IsBytes body → length body % 4 ≡ 0 → IsEnvelope (envelope_with head.now body) }
{
    let _key = head.key;
    let _salt = head.salt;
    let _session = head.session;
    let _number = head.number;
    let _seq = head.seq;
}

// How many bytes the body has.
fn body_bytes(text: &Buffer) -> usize
    requires { 56 ≤ length text.now.bytes }
    ensures value { result ≡ length (to_seal text.now.bytes) }
    ensures whole { length text.now.bytes ≡ 56 + result }
    ensures bytes { IsBytes (to_seal text.now.bytes) }
{
    parts_are_bytes();
    text.as_slice().len() - SEALED_HEAD_BYTES
}

// Makes a packet of a text that has its body, of so many bytes, and its padding behind the bytes in front.
fn seal_behind<C: Cipher>(key: &AuthKey, dir: Dir, head: &Head, body: u32, packet: &mut [u8])
    requires front { 56 ≤ length packet.old }
    requires blocks { (length packet.old - 24) % 16 ≡ 0 }
    ensures spelled { (text padding : List ℕ) → packet.old ≡ text ++ padding → 56 ≤ length text → body ≡ length (to_seal text)
        → packet.new ≡ packet_of C.lock key.now dir (envelope_with head.now (to_seal text)) padding }
    ensures count { length packet.new ≡ length packet.old }
{
    put_head(head, body, packet);
    seal_text::<C>(key, dir, packet);
}

// Puts what stands in front of a body of so many bytes over the bytes there, but for the message key.
fn put_head(head: &Head, body: u32, packet: &mut [u8])
    requires { 56 ≤ length packet.old }
    ensures key { take 8 packet.new ≡ little_bytes 8 head.now.key }
    ensures plain { (text padding : List ℕ) → packet.old ≡ text ++ padding → 56 ≤ length text → body ≡ length (to_seal text)
        → drop 24 packet.new ≡ plain_text (envelope_with head.now (to_seal text)) padding }
    ensures count { length packet.new ≡ length packet.old }
{
    let (front, text) = packet.split_at_mut(PACKET_HEAD_BYTES);
    front[..8].copy_from_slice(&head.key.to_le_bytes());
    put_plain_head(head, body, text);
}

// Puts what stands in front of a body in its plain text.
fn put_plain_head(head: &Head, body: u32, text: &mut [u8])
    requires { 32 ≤ length text.old }
    ensures written { text.new ≡ little_bytes 8 head.now.salt ++ (little_bytes 8 head.now.session ++ (little_bytes 8 head.now.number
        ++ (little_bytes 4 head.now.seq ++ (little_bytes 4 body ++ drop 32 text.old)))) }
    ensures count { length text.new ≡ length text.old }
{
    let (salt, text) = text.split_at_mut(8);
    let (session, text) = text.split_at_mut(8);
    let (number, text) = text.split_at_mut(8);
    let (seq, text) = text.split_at_mut(4);
    let (length, _body) = text.split_at_mut(4);
    salt.copy_from_slice(&head.salt.to_le_bytes());
    session.copy_from_slice(&head.session.to_le_bytes());
    number.copy_from_slice(&head.number.to_le_bytes());
    seq.copy_from_slice(&head.seq.to_le_bytes());
    length.copy_from_slice(&body.to_le_bytes());
}

// Makes a packet of one that has its plain text behind the identifier and room for the message key.
fn seal_text<C: Cipher>(key: &AuthKey, dir: Dir, packet: &mut [u8])
    requires head { 24 ≤ length packet.old }
    requires blocks { (length packet.old - 24) % 16 ≡ 0 }
    ensures { let plain = drop 24 packet.old in let message_key = C.lock.message_key key.now dir plain in
        packet.new ≡ take 8 packet.old ++ (message_key ++ C.lock.locked key.now dir message_key plain) }
{
    let (head, text) = packet.split_at_mut(PACKET_HEAD_BYTES);
    let message_key = C::message_key(key, dir, text);
    C::lock(key, dir, &message_key, text);
    head[8..].copy_from_slice(&message_key);
}
