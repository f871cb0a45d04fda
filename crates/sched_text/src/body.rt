//! The bodies of calls.

ghost use Rattle.std.specs.Prelude.{◌≡◌, ◌≤◌, ℕ, List, Option, IfOk, IfSome, IfNone, MatchOption, length};
ghost use Rattle.regs_service.specs.Requests.{name_bytes_max};
ghost use Rattle.sched_text.specs.Bodies.{SaysCall, add_body, get_body, packed_body, pad_body};
ghost use Rattle.sched_text.specs.Lines.{words_of};
ghost use Rattle.sched_text.specs.declared.verb.Kind.TheVariants as kind;
ghost use Rattle.sched_text.specs.Reading.{after_at, body_at, body_with, call_at};

use crate::verb::{Kind, kind_of};
use crate::words::{Words, bytes_of, number_of};
use octets::{Buffer, Memory, Octets};
use regs_service::{ADD, GET, is_register_name};
use service_tl::GZIP_PACKED;
use std::alloc::Global;
use tl_codec::fill;

/// The most bytes of a `pad`.
pub const PAD_BYTES_MAX: u64 = 1_048_576;

const TAG_BYTES: usize = 4;

const LONG_BYTES: usize = 8;

/// What a line says of a call.
#[derive(Debug, Drop)]
pub struct CallLine {
    /// The bytes of the body.
    pub body: Octets,
    /// The call that it waits for, as `after` names it.
    pub after: Option<u64>,
}

/// The body of a request that adds.
#[tactic(auto, unfolding(tl_codec::specs::Spelling::spelling))]
fn add_request(alloc: Global, name: &[u8], amount: u64) -> Result<Octets, Memory>
    requires { length name.now ≤ name_bytes_max }
    ensures { IfOk result (λ body. body ≡ add_body name.now amount) }
{
    let room = TAG_BYTES + fill::string_size(name.len()) + LONG_BYTES;
    let mut buffer = Buffer::new(alloc, room)?;
    fill::tag(&mut buffer, ADD);
    fill::bytes(&mut buffer, name);
    fill::long(&mut buffer, amount);
    Ok(buffer.into_octets())
}

/// The body of a request that gets.
#[tactic(auto, unfolding(tl_codec::specs::Spelling::spelling))]
fn get_request(alloc: Global, name: &[u8]) -> Result<Octets, Memory>
    requires { length name.now ≤ name_bytes_max }
    ensures { IfOk result (λ body. body ≡ get_body name.now) }
{
    let room = TAG_BYTES + fill::string_size(name.len());
    let mut buffer = Buffer::new(alloc, room)?;
    fill::tag(&mut buffer, GET);
    fill::bytes(&mut buffer, name);
    Ok(buffer.into_octets())
}

/// So many zeros.
fn pad(alloc: Global, len: usize) -> Result<Octets, Memory>
    ensures { IfOk result (λ body. body ≡ pad_body len) }
{
    Ok(Octets::from(vec![in alloc; 0u8; len]?))
}

/// A packed object, of which nothing is read.
#[tactic(auto, unfolding(tl_codec::specs::Spelling::spelling))]
fn packed(alloc: Global) -> Result<Octets, Memory>
    ensures { IfOk result (λ body. body ≡ packed_body) }
{
    let mut buffer = Buffer::new(alloc, TAG_BYTES + TAG_BYTES)?;
    fill::tag(&mut buffer, GZIP_PACKED);
    buffer.push_all(&[0; TAG_BYTES]);
    Ok(buffer.into_octets())
}

/// The body at the front of the words, of which it takes its own, if one stands there.
pub(crate) fn body_of(alloc: Global, words: &mut Words<'_>) -> Result<Option<Octets>, Memory>
    ensures { IfOk result (λ body. MatchOption body (body_at words.old ≡ None) (λ body. body_at words.old ≡ Some (body, words.new))) }
{
    let Some(kind) = words.next().and_then(kind_of) else {
        return Ok(None);
    };
    match kind {
        Kind::Add => add_of(alloc, words),
        Kind::Get => get_of(alloc, words),
        Kind::Pad => pad_of(alloc, words),
        Kind::Packed => Ok(Some(packed(alloc)?)),
        Kind::Hex => hex_of(alloc, words),
    }
}

// The body behind `add`.
fn add_of(alloc: Global, words: &mut Words<'_>) -> Result<Option<Octets>, Memory>
    ensures { IfOk result (λ body. MatchOption body (body_with kind.Add words.old ≡ None) (λ body. body_with kind.Add words.old ≡ Some (body, words.new))) }
{
    let Some(name) = words.next() else {
        return Ok(None);
    };
    let Some(amount) = words.next() else {
        return Ok(None);
    };
    if !is_register_name(name) {
        return Ok(None);
    }
    match number_of(amount) {
        Some(amount) => Ok(Some(add_request(alloc, name, amount)?)),
        None => Ok(None),
    }
}

// The body behind `get`.
fn get_of(alloc: Global, words: &mut Words<'_>) -> Result<Option<Octets>, Memory>
    ensures { IfOk result (λ body. MatchOption body (body_with kind.Get words.old ≡ None) (λ body. body_with kind.Get words.old ≡ Some (body, words.new))) }
{
    match words.next() {
        Some(name) if is_register_name(name) => Ok(Some(get_request(alloc, name)?)),
        _ => Ok(None),
    }
}

// The body behind `pad`.
fn pad_of(alloc: Global, words: &mut Words<'_>) -> Result<Option<Octets>, Memory>
    ensures { IfOk result (λ body. MatchOption body (body_with kind.Pad words.old ≡ None) (λ body. body_with kind.Pad words.old ≡ Some (body, words.new))) }
{
    let Some(word) = words.next() else {
        return Ok(None);
    };
    match number_of(word) {
        Some(len) if len <= PAD_BYTES_MAX => Ok(Some(pad(alloc, len as usize)?)),
        _ => Ok(None),
    }
}

// The body behind `hex`.
fn hex_of(alloc: Global, words: &mut Words<'_>) -> Result<Option<Octets>, Memory>
    ensures { IfOk result (λ body. MatchOption body (body_with kind.Hex words.old ≡ None) (λ body. body_with kind.Hex words.old ≡ Some (body, words.new))) }
{
    match words.next() {
        Some(word) => bytes_of(alloc, word),
        None => Ok(None),
    }
}

// The call that `after` names, or none where nothing stands there.
fn after_of(mut words: Words<'_>) -> Option<Option<u64>>
    ensures { result ≡ after_at words.entry }
{
    let Some(word) = words.next() else {
        return Some(None);
    };
    let call = words.next()?;
    if word == b"after".as_slice() && words.next().is_none() {
        Some(Some(number_of(call)?))
    } else {
        None
    }
}

/// The call that the words say, if they say one.
pub(crate) fn call_line(alloc: Global, mut words: Words<'_>) -> Result<Option<CallLine>, Memory>
    ensures { IfOk result (λ call. call ≡ call_at words.entry) }
{
    let Some(body) = body_of(alloc, &mut words)? else {
        return Ok(None);
    };
    match after_of(words) {
        Some(after) => Ok(Some(CallLine { body, after })),
        None => Ok(None),
    }
}

/// The call that a line says, with the words of a schedule's `call` behind the client, if it says one.
///
/// # Errors
///
/// `Memory`.
pub fn call_of(alloc: Global, line: &[u8]) -> Result<Option<CallLine>, Memory>
    ensures said { IfOk result (λ call. IfSome call (λ call. SaysCall call.body call.after (words_of line.now))) }
    ensures nothing { IfOk result (λ call. IfNone call ((body : List ℕ) (after : Option ℕ) → SaysCall body after (words_of line.now) → ⊥)) }
{
    call_line(alloc, Words::new(line))
}
