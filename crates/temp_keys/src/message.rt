//! Binding messages, both ways.

ghost use Rattle.std.specs.Prelude.{◌≡◌, ◌≢◌, ℕ, ◌≤◌, ◌++◌, List, [], length, IfOk, IfSome, IfNone, OnOk, OnErr};
ghost use Rattle.octets.specs.Bytes.{HasBytes, IsBytes};
ghost use Rattle.draws.specs.Draws.{draw_after, next_bytes};
ghost use Rattle.temp_keys.specs.Messages.{Says, binding_message, message_bytes, sealed};
ghost use Rattle.temp_keys.specs.declared.binding.Inner.{Inner};

use crate::below::seal_laws;
use crate::binding::Inner;
use crate::derivation::{PLAIN_BYTES, aes_of, message_key};
pub use crate::plain::BIND_AUTH_KEY_INNER;
use crate::plain::{Said, fill, read};
use auth_keys::AuthKey;
use cipher_modes::{ige_decrypt, ige_encrypt};
use draws::{Draw, draw_bytes};
use octets::{Buffer, Memory, Octets};
use std::alloc::Global;

/// The bytes of a binding message.
pub const MESSAGE_BYTES: usize = 104;

/// The bytes of a binding message before its text.
const HEAD_BYTES: usize = 24;

/// The binding message of a call of this number, sealed under the permanent key: 104 bytes
/// (core.telegram.org/method/auth.bindTempAuthKey). It draws 16 bytes and then 8.
///
/// # Errors
///
/// `Memory`, and then nothing was drawn.
pub fn bind_message<D: Draw>(
    alloc: Global,
    perm: &AuthKey,
    number: u64,
    inner: &Inner,
    draw: &mut D,
) -> Result<Octets, Memory>
    ensures message { IfOk result (λ message. message ≡ binding_message perm.now (next_bytes D.step 16 draw.old) number inner.now (next_bytes D.step 8 (draw_after D.step 2 draw.old))) }
    ensures says { IfOk result (λ message. Says perm.now message number inner.now) }
    ensures size { IfOk result (λ message. length message ≡ message_bytes) }
    ensures drawn { OnOk result (draw.new ≡ draw_after D.step 3 draw.old) }
    ensures unchanged_on_memory { OnErr result (draw.new ≡ draw.old) }
{
    let message = Buffer::new(alloc, MESSAGE_BYTES)?;
    let plain = Buffer::new(alloc, PLAIN_BYTES)?;
    Ok(bind_message_in(message, plain, perm, number, inner, draw))
}

/// As [`bind_message`], in room that was taken before: it takes no memory. The buffers have no byte yet, and room for
/// 104 bytes of the message and 80 of its plain text.
pub fn bind_message_in<D: Draw>(
    mut message: Buffer,
    mut plain: Buffer,
    perm: &AuthKey,
    number: u64,
    inner: &Inner,
    draw: &mut D,
) -> Octets
    requires message { (message.bytes ≡ []) × (message_bytes ≤ message.room) }
    requires plain { (plain.bytes ≡ []) × (80 ≤ plain.room) }
    ensures message { result ≡ binding_message perm.now (next_bytes D.step 16 draw.old) number inner.now (next_bytes D.step 8 (draw_after D.step 2 draw.old)) }
    ensures says { Says perm.now result number inner.now }
    ensures size { length result ≡ message_bytes }
    ensures drawn { draw.new ≡ draw_after D.step 3 draw.old }
{
    seal_laws();
    let mut random = [0; 16];
    draw_bytes(draw, &mut random);
    let mut padding = [0; 8];
    draw_bytes(draw, &mut padding);
    let inner = *inner;
    fill(&mut plain, &random, &Said { number, inner }, &padding);
    seal(&mut message, perm, plain);
    message.into_octets()
}

// Writes a plain text sealed.
fn seal(message: &mut Buffer, key: &AuthKey, plain: Buffer)
    requires plain { length plain.bytes ≡ 80 }
    requires room { 104 ≤ message.old.room }
    ensures written { message.new.bytes ≡ message.old.bytes ++ sealed key.now plain.bytes }
{
    let mut text = plain.into_octets().into_vec();
    let message_key = message_key(&text);
    let (aes_key, iv) = aes_of(key, &message_key);
    ige_encrypt(&aes_key, &iv, &mut text);
    message.push_all(&key.id().to_le_bytes());
    message.push_all(&message_key);
    message.push_all(&text);
}

/// The number of the call and the inner object that a message says, where it is a binding message under this key.
pub fn opened(key: &AuthKey, message: &[u8]) -> Option<Said>
    ensures found { IfSome result (λ said. Says key.now message.now said.number said.inner) }
    ensures none { IfNone result ((number : ℕ) (inner : Inner) → Says key.now message.now number inner → ⊥) }
{
    seal_laws();
    read(&plain_of(key, message)?)
}

// The plain text of a sealed one, where it was sealed under this key.
fn plain_of(key: &AuthKey, message: &[u8]) -> Option<[u8; PLAIN_BYTES]>
    ensures found { IfSome result (λ plain. message.now ≡ sealed key.now plain) }
    ensures none { IfNone result ((plain : List ℕ) → HasBytes 80 plain → message.now ≢ sealed key.now plain) }
{
    seal_laws();
    let id = key.id().to_le_bytes();
    if message.len() != MESSAGE_BYTES || &message[..8] != id.as_slice() {
        return None;
    }
    let mut said_key = [0; 16];
    said_key.copy_from_slice(&message[8..HEAD_BYTES]);
    let (aes_key, iv) = aes_of(key, &said_key);
    let mut plain = [0; PLAIN_BYTES];
    plain.copy_from_slice(&message[HEAD_BYTES..MESSAGE_BYTES]);
    ige_decrypt(&aes_key, &iv, &mut plain);
    if message_key(&plain) != said_key {
        return None;
    }
    Some(plain)
}
