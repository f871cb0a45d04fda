//! The plain text of a binding message.

ghost use Rattle.std.specs.Prelude.{◌≡◌, ◌≢◌, ℕ, ◌<◌, ◌≤◌, ◌+◌, ◌^◌, ◌++◌, List, length, take, drop, IfSome, IfNone};
ghost use Rattle.octets.specs.Bytes.{HasBytes, IsBytes};
ghost use Rattle.temp_keys.specs.Messages.{IsInner, plain_text, inner_text, int, long};
ghost use Rattle.temp_keys.specs.declared.binding.Inner.{Inner};

use crate::binding::Inner;
use crate::derivation::PLAIN_BYTES;
use octets::Buffer;

/// The constructor of `bind_auth_key_inner`.
pub const BIND_AUTH_KEY_INNER: u32 = 0x75a3_f765;

/// The bytes of the inner object.
pub const INNER_BYTES: u32 = 40;

/// Where the parts stand: the number of the call, its seq, its length, and the inner object's constructor and fields.
const NUMBER_AT: usize = 16;

const SEQ_AT: usize = 24;

const LENGTH_AT: usize = 28;

const CONSTRUCTOR_AT: usize = 32;

const NONCE_AT: usize = 36;

const TEMP_AT: usize = 44;

const PERM_AT: usize = 52;

const SESSION_AT: usize = 60;

const EXPIRES_AT: usize = 68;

/// The number of a call, and the inner object of its message.
#[derive(Clone, Copy, Debug)]
pub struct Said {
    pub number: u64,
    pub inner: Inner,
}

/// Writes the plain text.
#[tactic(auto, unfolding(crate::specs::Messages::plain_text))]
pub fn fill(plain: &mut Buffer, random: &[u8; 16], said: &Said, padding: &[u8; 8])
    requires { 80 ≤ plain.old.room }
    ensures written { plain.new.bytes ≡ plain.old.bytes ++ plain_text random.now said.now.number said.now.inner padding.now }
    ensures fits { (said.now.number < 2 ^ 64) × IsInner said.now.inner }
    ensures random_bytes { HasBytes 16 random.now }
    ensures padding_bytes { HasBytes 8 padding.now }
{
    plain.push_all(random);
    plain.push_all(&said.number.to_le_bytes());
    plain.push_all(&0u32.to_le_bytes());
    plain.push_all(&INNER_BYTES.to_le_bytes());
    fill_inner(plain, &said.inner);
    plain.push_all(padding);
}

// Writes the inner object.
#[tactic(auto, unfolding(crate::specs::Messages::inner_text))]
fn fill_inner(plain: &mut Buffer, inner: &Inner)
    requires { 40 ≤ plain.old.room }
    ensures written { plain.new.bytes ≡ plain.old.bytes ++ inner_text inner.now }
    ensures room { plain.new.room + 40 ≡ plain.old.room }
    ensures fits { IsInner inner.now }
{
    plain.push_all(&BIND_AUTH_KEY_INNER.to_le_bytes());
    plain.push_all(&inner.nonce.to_le_bytes());
    plain.push_all(&inner.temp.to_le_bytes());
    plain.push_all(&inner.perm.to_le_bytes());
    plain.push_all(&inner.session.to_le_bytes());
    plain.push_all(&inner.expires.to_le_bytes());
}

/// What a plain text says, where it is one.
pub fn read(plain: &[u8; PLAIN_BYTES]) -> Option<Said>
    ensures found { IfSome result (λ said. plain.now ≡ plain_text (take 16 plain.now) said.number said.inner (drop 72 plain.now)) }
    ensures fits { IfSome result (λ said. (said.number < 2 ^ 64) × IsInner said.inner) }
    ensures bytes { HasBytes 80 plain.now }
    ensures none { IfNone result ((random padding : List ℕ) (number : ℕ) (inner : Inner) → length random ≡ 16 → plain.now ≢ plain_text random number inner padding) }
{
    if int_at(plain, SEQ_AT) != 0
        || int_at(plain, LENGTH_AT) != INNER_BYTES
        || int_at(plain, CONSTRUCTOR_AT) != BIND_AUTH_KEY_INNER
    {
        return None;
    }
    let inner = Inner {
        nonce: long_at(plain, NONCE_AT),
        temp: long_at(plain, TEMP_AT),
        perm: long_at(plain, PERM_AT),
        session: long_at(plain, SESSION_AT),
        expires: int_at(plain, EXPIRES_AT),
    };
    let number = long_at(plain, NUMBER_AT);
    Some(Said { number, inner })
}

// The `long` at a place.
fn long_at(plain: &[u8; PLAIN_BYTES], place: usize) -> u64
    requires { place + 8 ≤ 80 }
    ensures value { long result ≡ take 8 (drop place plain.now) }
    ensures fits { result < 2 ^ 64 }
{
    let mut bytes = [0; 8];
    bytes.copy_from_slice(&plain[place..place + 8]);
    u64::from_le_bytes(bytes)
}

// The `int` at a place.
fn int_at(plain: &[u8; PLAIN_BYTES], place: usize) -> u32
    requires { place + 4 ≤ 80 }
    ensures value { int result ≡ take 4 (drop place plain.now) }
    ensures fits { result < 2 ^ 32 }
{
    let mut bytes = [0; 4];
    bytes.copy_from_slice(&plain[place..place + 4]);
    u32::from_le_bytes(bytes)
}
