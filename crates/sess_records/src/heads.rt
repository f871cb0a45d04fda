//! The front of a record: its length field, its kind, its moment and its place; and the rest of it.

ghost use Rattle.std.specs.Prelude.{◌≡◌, ◌≤◌, ◌+◌, ◌%◌, ◌++◌, true, false, length, take, drop, vec_len, IfOk, IsTrue, ◌↔◌};
ghost use Rattle.std.specs.Int.{w32, w64, to_le_bytes};
ghost use Rattle.sess_records.specs.Format.{kind_of, rest_of, size_of};
ghost use Rattle.sess_records.specs.Calls.{event_in};
ghost use Rattle.sess_records.specs.Steps.{AreNumbers, HasNoEvent, IsOf, MayHave, head_bytes};

use crate::records::Event;
use octets::{Memory, Octets};
use std::alloc::Global;

/// How many bytes the front has.
pub(crate) const HEAD_BYTES: usize = 21;

/// How many bytes of the front its length field counts.
pub(crate) const COUNTED_BYTES: u32 = 17;

/// How many bytes a reply has at most.
const REPLY_BYTES_MAX: usize = 262_144;

/// The front of a record.
#[derive(Clone, Copy)]
pub(crate) struct Head {
    /// How many bytes stand behind the length field.
    pub(crate) size: u32,
    /// The kind.
    pub(crate) kind: u8,
    /// The moment, in seconds.
    pub(crate) moment: u64,
    /// The draw's place, in words.
    pub(crate) place: u64,
}

/// The number of the eight bytes from a place on.
fn long_at(bytes: &[u8], at: usize) -> u64
    requires { at + 8 ≤ length bytes.now }
    ensures { to_le_bytes w64 result ≡ take 8 (drop at bytes.now) }
{
    let mut long = [0; 8];
    long.copy_from_slice(&bytes[at..at + 8]);
    u64::from_le_bytes(long)
}

/// The number of the four bytes from a place on.
fn word_at(bytes: &[u8], at: usize) -> u32
    requires { at + 4 ≤ length bytes.now }
    ensures { to_le_bytes w32 result ≡ take 4 (drop at bytes.now) }
{
    let mut word = [0; 4];
    word.copy_from_slice(&bytes[at..at + 4]);
    u32::from_le_bytes(word)
}

/// The front that these bytes are.
pub(crate) fn head_of(bytes: &[u8; HEAD_BYTES]) -> Head
    ensures { head_bytes result ≡ bytes.now }
{
    let size = word_at(bytes, 0);
    let kind = bytes[4];
    let moment = long_at(bytes, 5);
    let place = long_at(bytes, 13);
    Head {
        size,
        kind,
        moment,
        place,
    }
}

/// The bytes of a front.
pub(crate) fn bytes_of(head: Head) -> [u8; HEAD_BYTES]
    ensures { result ≡ head_bytes head }
{
    let kind = head.kind;
    let [s0, s1, s2, s3] = head.size.to_le_bytes();
    let [m0, m1, m2, m3, m4, m5, m6, m7] = head.moment.to_le_bytes();
    let [p0, p1, p2, p3, p4, p5, p6, p7] = head.place.to_le_bytes();
    [
        s0, s1, s2, s3, kind, m0, m1, m2, m3, m4, m5, m6, m7, p0, p1, p2, p3, p4, p5, p6, p7,
    ]
}

/// The 16 bytes of two numbers.
pub(crate) fn two_longs(first: u64, second: u64) -> [u8; 16]
    ensures { result ≡ to_le_bytes w64 first ++ to_le_bytes w64 second }
{
    let [a0, a1, a2, a3, a4, a5, a6, a7] = first.to_le_bytes();
    let [b0, b1, b2, b3, b4, b5, b6, b7] = second.to_le_bytes();
    [
        a0, a1, a2, a3, a4, a5, a6, a7, b0, b1, b2, b3, b4, b5, b6, b7,
    ]
}

/// The kind of an event.
pub(crate) fn kind_byte(event: &Event<&[u8]>) -> u8
    ensures { result ≡ kind_of (event_in event.now) }
{
    match event {
        Event::Packet { .. } => 1,
        Event::Tick => 2,
        Event::Attach { .. } => 3,
        Event::Begin { .. } => 4,
        Event::Ran { .. } => 5,
        Event::Interrupted => 6,
    }
}

/// The numbers of an event as bytes.
pub(crate) fn numbers_of(event: &Event<&[u8]>) -> [u8; 16]
    ensures { AreNumbers (event_in event.now) result }
{
    match event {
        Event::Attach { key, session } => two_longs(*key, *session),
        Event::Begin { job } => two_longs(*job, 0),
        _ => [0; 16],
    }
}

/// What stands behind the moment and the place of an event, whose numbers are these.
pub(crate) fn rest_in<'a>(event: &'a Event<&'a [u8]>, numbers: &'a [u8; 16]) -> &'a [u8]
    requires { AreNumbers (event_in event.now) numbers.now }
    ensures rest { result.now ≡ rest_of (event_in event.now) }
    ensures size { size_of (event_in event.now) ≡ 22 + length result.now }
{
    match event {
        Event::Packet { packet } => *packet,
        Event::Ran { reply } => *reply,
        Event::Attach { .. } => numbers.as_slice(),
        Event::Begin { .. } => &numbers[..8],
        Event::Tick | Event::Interrupted => &[],
    }
}

/// Whether a reply may have so many bytes.
fn is_reply(count: usize) -> bool
    ensures { IsTrue result ↔ (count ≤ 262144) × (count % 4 ≡ 0) }
{
    count <= REPLY_BYTES_MAX && count % 4 == 0
}

/// Whether an event of this kind may have so many bytes behind its moment and its place.
#[tactic(auto, using(crate::proofs::KindLemmas::no_event_of, crate::proofs::KindLemmas::may_by))]
pub(crate) fn may_have(kind: u8, count: usize) -> bool
    ensures yes { result ≡ true → MayHave kind count }
    ensures no { result ≡ false → HasNoEvent kind count }
{
    match kind {
        1 => true,
        2 | 6 => count == 0,
        3 => count == 16,
        4 => count == 8,
        5 => is_reply(count),
        _ => false,
    }
}

/// The session that two numbers name.
fn attach_of(rest: &[u8]) -> Event<Octets>
    requires { length rest.now ≡ 16 }
    ensures { IsOf 3 rest.now result }
{
    Event::Attach {
        key: long_at(rest, 0),
        session: long_at(rest, 8),
    }
}

/// The job that a number names.
fn begin_of(rest: &[u8]) -> Event<Octets>
    requires { length rest.now ≡ 8 }
    ensures { IsOf 4 rest.now result }
{
    Event::Begin {
        job: long_at(rest, 0),
    }
}

/// The event of a kind with this rest, which may be one.
#[tactic(auto, using(crate::proofs::KindLemmas::tick_bytes, crate::proofs::KindLemmas::last_kind, crate::proofs::KindLemmas::last_bytes, crate::proofs::KindLemmas::attach_count, crate::proofs::KindLemmas::begin_count, crate::proofs::KindLemmas::reply_of))]
pub(crate) fn event_of(kind: u8, rest: Octets) -> Event<Octets>
    requires { MayHave kind (length rest) }
    ensures { IsOf kind rest result }
{
    match kind {
        1 => Event::Packet { packet: rest },
        2 => Event::Tick,
        3 => attach_of(rest.as_slice()),
        4 => begin_of(rest.as_slice()),
        5 => Event::Ran { reply: rest },
        _ => Event::Interrupted,
    }
}

/// So many zeros.
pub(crate) fn zeros(alloc: Global, count: usize) -> Result<Vec<u8>, Memory>
    ensures { IfOk result (λ bytes. vec_len bytes ≡ count) }
{
    Ok(vec![in alloc; 0u8; count]?)
}
