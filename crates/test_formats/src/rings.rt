//! Keys and rings: the worked rows, what no clause says, and each call once.

ghost use Rattle.std.specs.Prelude.{◌≡◌, ◌<◌, ◌^◌, length, IfSome, IfNone, OnOk, OnErr, Some};
ghost use Rattle.auth_keys.specs.Keys.{IsGoodAt};
ghost use Rattle.auth_keys.specs.KeyFile.{IsRingOf};
ghost use Rattle.auth_keys.specs.Rings.{entry_of};
ghost use Rattle.auth_keys.specs.declared.key.KeyKind.{KeyKind};
ghost use Rattle.auth_keys.specs.declared.ring.RingKey.{RingKey};

use crate::rows::{Asked, are_so};
use auth_keys::{AuthKey, KeyFault, KeyKind, Ring};
use msg_ids::Moment;
use std::alloc::{AllocError, Global};
use std::test::Fail;
use test_asserts::{holds, same, same_at, shown, shows, tells};

// The identifiers of the two keys, by Python's hashlib: int.from_bytes(sha1(key).digest()[12:20], "little").
const UP_ID: u64 = 0xc8df_57a4_6e58_d132;

const DOWN_ID: u64 = 0x134a_728f_0eb1_d196;

// The key `00` to `ff`.
fn up() -> [u8; 256] {
    let mut bytes = [0; 256];
    for byte in 0..=255u8 {
        bytes[usize::from(byte)] = byte;
    }
    bytes
}

// The key `ff` to `00`.
fn down() -> [u8; 256] {
    let mut bytes = [0; 256];
    for byte in 0..=255u8 {
        bytes[usize::from(255 - byte)] = byte;
    }
    bytes
}

// How many keys a text has, or its fault.
fn count(alloc: Global, text: &str) -> Result<usize, KeyFault> {
    if u32::try_from(text.len()).is_err() {
        return Err(KeyFault::Memory);
    }
    let ring = Ring::read(alloc, text.as_bytes())?;
    let count = ring.len();
    drop(ring);
    Ok(count)
}

#[test]
fn identifiers_of_keys(rt: HostRuntime) -> Result<(), Fail> {
    let key = AuthKey::new(&up());
    same(key.id(), UP_ID)?;
    same(
        key.id().to_le_bytes(),
        [0x32, 0xd1, 0x58, 0x6e, 0xa4, 0x57, 0xdf, 0xc8],
    )?;
    same(*key.bytes(), up())?;
    same(AuthKey::new(&down()).id(), DOWN_ID)?;
    shows(rt.alloc(), &key, "AuthKey { id: 14474384091129631026, .. }")?;
    Ok(())
}

// Texts, in which `UP` stands for the digits of the key `00` to `ff`, `DOWN` for those of the other and `;` for a newline, and what
// each is.
const TEXTS: &str = "\
Ok(0) | \n\
Ok(1) | perm UP\n\
Ok(1) | perm\tUP\n\
Ok(2) | # keys;;perm UP;temp 7200 DOWN;\n\
Ok(2) | temp 1\tUP;temp\t4000000000 DOWN;\n\
Err(BadLine { line: 1 }) | perm 00\n\
Err(BadLine { line: 1 }) | temp 0 UP\n\
Err(BadLine { line: 1 }) | temp 01 UP\n\
Err(BadLine { line: 1 }) | temp 4000000001 UP\n\
Err(BadLine { line: 3 }) | ;perm UP;perm  DOWN\n\
Err(BadLine { line: 1 }) | perm UP\r;\n\
Err(BadLine { line: 1 }) |  ;perm UP;\n\
Err(BadLine { line: 2 }) | perm UP;\t;\n\
Err(BadLine { line: 1 }) | perm\t\tUP\n\
Err(BadLine { line: 1 }) | \tperm UP\n\
Err(BadLine { line: 1 }) | temp 1 UP\t\n\
Err(SameId { line: 2, first_line: 1 }) | perm UP;perm UP;\n\
Err(SameId { line: 4, first_line: 2 }) | #;perm UP;;temp 9 UP;perm 0\n";

// Such a text with the digits.
fn with_digits(alloc: Global, text: &str, up: &str, down: &str) -> Result<String, AllocError> {
    let text = text.replace(alloc, ";", "\n")?;
    let text = text.as_str().replace(alloc, "UP", up)?;
    text.as_str().replace(alloc, "DOWN", down)
}

// The same with the digits of both keys.
fn with_keys(alloc: Global, text: &str) -> Result<String, Fail> {
    let up = hex::encode(alloc, up().as_slice())?;
    let down = hex::encode_upper(alloc, down().as_slice())?;
    Ok(with_digits(alloc, text, up.as_str(), down.as_str())?)
}

/// Such a text has so many keys, or this fault.
pub(crate) fn is_counted(alloc: Global, text: &str, want: &str) -> Result<(), Fail> {
    let whole = with_keys(alloc, text)?;
    let count = count(alloc, whole.as_str());
    drop(whole);
    same_at(text, shown(alloc, &count)?.as_str(), want)
}

#[test]
fn rings_and_faults_of_texts(rt: HostRuntime) -> Result<(), Fail> {
    are_so(rt.alloc(), Asked::Ring, TEXTS, 18)
}

// The text of the keys that have one byte 256 times.
fn like_keys(alloc: Global, count: u8) -> Result<String, AllocError> {
    let mut text = String::new(alloc);
    for byte in 0..count {
        let digits = hex::encode(alloc, [byte; 256].as_slice())?;
        text.push_str("perm ")?;
        text.push_str(digits.as_str())?;
        text.push_str("\n")?;
    }
    Ok(text)
}

#[test]
fn at_most_64_keys(rt: HostRuntime) -> Result<(), Fail> {
    let alloc = rt.alloc();
    let mut text = like_keys(alloc, 64)?;
    same(count(alloc, &text), Ok(64))?;
    // A key too many that has the identifier of another is too many.
    text.push_str(&like_keys(alloc, 1)?)?;
    same(count(alloc, &text), Err(KeyFault::TooMany { line: 65 }))?;
    same(
        count(alloc, &like_keys(alloc, 65)?),
        Err(KeyFault::TooMany { line: 65 }),
    )?;
    Ok(())
}

// A caller that wants a key which is good now needs no lemma.
fn good_key(ring: &Ring, id: u64, now: Moment) -> Option<&AuthKey>
    ensures good { IfSome result (λ key. (kind : KeyKind) × (entry_of id ring.now ≡ Some (record { key = key.now; kind = kind })) × IsGoodAt now kind) }
    ensures none { IfNone result ((entry : RingKey) → entry_of id ring.now ≡ Some entry → IsGoodAt now entry.kind → ⊥) }
{
    if !ring.kind(id)?.is_good_at(now) {
        return None;
    }
    ring.find(id)
}

// Nor one that reads a ring again and keeps the old one where that fails.
fn read_again(alloc: Global, ring: &mut Ring, text: &[u8]) -> Result<(), KeyFault>
    requires { length text.now < 2 ^ 32 }
    ensures read { OnOk result (IsRingOf text.now ring.new) }
    ensures kept { OnErr result (ring.new ≡ ring.old) }
{
    *ring = Ring::read(alloc, text)?;
    Ok(())
}

// The ring of both keys, of which the second expires at the moment 7,200, read behind a ring of none; by a text that is refused it
// stays.
fn both(alloc: Global) -> Result<Ring, Fail> {
    let text = text_of_both(alloc)?;
    let mut ring = Ring::read(alloc, b"")?;
    match reads(alloc, &mut ring, text.as_str()) {
        Ok(()) => Ok(ring),
        Err(fail) => {
            drop(ring);
            Err(fail)
        }
    }
}

fn text_of_both(alloc: Global) -> Result<String, AllocError> {
    let up = hex::encode(alloc, up().as_slice())?;
    let down = hex::encode(alloc, down().as_slice())?;
    format!(in alloc; "perm {up}\ntemp 7200 {down}")
}

fn reads(alloc: Global, ring: &mut Ring, text: &str) -> Result<(), Fail> {
    holds(ring.is_empty())?;
    if u32::try_from(text.len()).is_err() {
        return Err(Fail::new("too long"));
    }
    read_again(alloc, ring, text.as_bytes())?;
    same(
        read_again(alloc, ring, b"perm"),
        Err(KeyFault::BadLine { line: 1 }),
    )
}

// What a ring says of an identifier: the kind of its key, the identifier of the key, and whether it is good at 7,199 and at
// 7,200.
fn told(alloc: Global, ring: &Ring, id: u64) -> Result<String, AllocError> {
    let kind = ring.kind(id);
    let found = ring.find(id).map(|key| key.id());
    let before = good_key(ring, id, Moment::new(7_199)).is_some();
    let at = good_key(ring, id, Moment::new(7_200)).is_some();
    format!(in alloc; "{kind:?} {found:?} {before} {at}")
}

#[test]
fn keys_of_a_ring(rt: HostRuntime) -> Result<(), Fail> {
    let ring = both(rt.alloc())?;
    let done = are_two(rt.alloc(), &ring);
    drop(ring);
    done
}

fn are_two(alloc: Global, ring: &Ring) -> Result<(), Fail> {
    same(ring.len(), 2)?;
    let rows = [
        (UP_ID, "Some(Perm) Some(14474384091129631026) true true"),
        (
            DOWN_ID,
            "Some(Temp { expires: Moment { seconds: 7200 } }) Some(1390049393749643670) true false",
        ),
        (7, "None None false false"),
    ];
    for (id, want) in rows {
        same_at(id, told(alloc, ring, id)?.as_str(), want)?;
    }
    Ok(())
}

#[test]
fn faults_are_told(rt: HostRuntime) -> Result<(), Fail> {
    let alloc = rt.alloc();
    let rows = [
        (KeyFault::BadLine { line: 3 }, "line 3 is no key"),
        (KeyFault::TooMany { line: 65 }, "line 65 is a key too many"),
        (
            KeyFault::SameId {
                line: 2,
                first_line: 1,
            },
            "the key of line 2 has the identifier of that of line 1",
        ),
        (KeyFault::Memory, "out of memory"),
    ];
    for (fault, told) in rows {
        tells(alloc, &fault, told)?;
    }
    Ok(())
}
