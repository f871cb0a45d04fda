//! Obfuscated connections: a caller's try, and the starts of another implementation: a few lines of Python over its hashlib and the counter mode
//! of `cryptography` 48.0.0 (OpenSSL 3).

ghost use Rattle.std.specs.Prelude.{◌≡◌, Some};

use crate::digits::array_of;
use crate::rows::{Asked, are_so};
use cipher_modes::Ctr;
use cipher_modes::laws::ctr_undoes_itself;
use draws::{Draw, Seeded, StepDraw};
use obfus::{Init, ObfusFault, Pair, Tag};
use std::alloc::Global;
use std::test::*;
use test_asserts::{holds, same, same_at, shows, tells};

const SECRET: &str = "a0a1a2a3a4a5a6a7a8a9aaabacadaeaf";

// Padded, data centre 2, without a secret. The first word drawn was `ef10203040506070`.
const PADDED_WIRE: &str = "\
01102030405060701c90b57c6d44b2c8490f4bc99a380421768ee015c82c5679\
a30d7662f520a8d1d08c0baf2215fa29fd0ba1fb4f094c823817e9119ca5a5e3";

const PADDED_UP: &str = "0acae9ed822294240a0325cbaa90d77d";

const PADDED_DOWN: &str = "5e423e732aca1e1feaae5aac14572465";

// Intermediate, data centre 65,533 (-3 as it is written elsewhere), with the secret. The first word drawn was `HEAD`
// and zeros.
const SECRET_WIRE: &str = "\
014541440100000075c4d6902df45158a2436cdd5ae8a3b0cfc2012a88dcf508\
fc419776b5d0476129c12cc3e2c499b95640c20f10b9eb1137f8abb3fe507f4c";

const SECRET_UP: &str = "4d3c5094f954f338de7612b8ea13dcf3";

const SECRET_DOWN: &str = "0910b4738b1009cfbcd7e133c7f3add8";

// The words from a place on. Word i of the draw is i times an odd number, so each word stands at some place.
fn words_from(place: u64) -> StepDraw {
    Seeded::at(&[0; 32], place)
}

// What both sides do: a client starts, a server reads it, and a text goes up and another down. It needs no lemma.
fn through_both_ends<D: Draw>(
    draw: &mut D,
    tag: Tag,
    dc: u16,
    up: &mut [u8],
    down: &mut [u8],
) -> Option<(Tag, u16)>
    ensures read { result ≡ Some (tag, dc) }
    ensures up { up.new ≡ up.old }
    ensures down { down.new ≡ down.old }
{
    ctr_undoes_itself();
    let mut client = Init::make(draw, tag, dc);
    let Ok(mut server) = Init::read(&client.wire) else {
        return None;
    };
    client.up.apply(up);
    server.up.apply(up);
    server.down.apply(down);
    client.down.apply(down);
    Some((server.tag, server.dc))
}

// The next 16 bytes of a stream.
fn next_of(stream: &mut Ctr) -> [u8; 16] {
    let mut bytes = [0; 16];
    stream.apply(&mut bytes);
    bytes
}

// What a start that is read says: its form, its data centre, and the next bytes of both streams.
fn said(pair: Pair) -> (Tag, u16, [[u8; 16]; 2]) {
    let mut pair = pair;
    let bytes = [next_of(&mut pair.up), next_of(&mut pair.down)];
    (pair.tag, pair.dc, bytes)
}

#[test]
fn starts_of_another_implementation(rt: HostRuntime) -> Result<(), Fail> {
    let mut made = Init::make(&mut words_from(1_824_739_628_307_071_498), Tag::Padded, 2);
    same(next_of(&mut made.up), array_of(rt.alloc(), PADDED_UP)?)?;
    same(made.wire, array_of(rt.alloc(), PADDED_WIRE)?)
}

#[test]
fn starts_with_a_secret_of_another_implementation(rt: HostRuntime) -> Result<(), Fail> {
    let mut draw = words_from(15_641_190_205_301_778_279);
    let secret = array_of(rt.alloc(), SECRET)?;
    let mut made = Init::make_with(&mut draw, Tag::Intermediate, 0xfffd, &secret);
    same(next_of(&mut made.down), array_of(rt.alloc(), SECRET_DOWN)?)?;
    same(made.wire, array_of(rt.alloc(), SECRET_WIRE)?)
}

#[test]
fn starts_are_read(rt: HostRuntime) -> Result<(), Fail> {
    let Ok(pair) = Init::read(&array_of(rt.alloc(), PADDED_WIRE)?) else {
        return Err(Fail::new("a start isn't read"));
    };
    let streams = [
        array_of(rt.alloc(), PADDED_UP)?,
        array_of(rt.alloc(), PADDED_DOWN)?,
    ];
    same(said(pair), (Tag::Padded, 2, streams))
}

#[test]
fn starts_with_a_secret_are_read(rt: HostRuntime) -> Result<(), Fail> {
    let secret = array_of(rt.alloc(), SECRET)?;
    let Ok(pair) = Init::read_with(&array_of(rt.alloc(), SECRET_WIRE)?, &secret) else {
        return Err(Fail::new("a start with a secret isn't read"));
    };
    let streams = [
        array_of(rt.alloc(), SECRET_UP)?,
        array_of(rt.alloc(), SECRET_DOWN)?,
    ];
    same(said(pair), (Tag::Intermediate, 0xfffd, streams))
}

#[test]
fn a_start_without_its_secret(rt: HostRuntime) -> Result<(), Fail> {
    let Err(fault) = Init::read(&array_of(rt.alloc(), SECRET_WIRE)?) else {
        return Err(Fail::new("a start is read without its secret"));
    };
    let found = [0x88, 0x60, 0x81, 0x9b];
    same(fault, ObfusFault::Tag { found })?;
    tells(rt.alloc(), &fault, "no framing has the tag 8860819b")
}

// The first five bytes of starts, and the place from which their words are drawn: eight times where the first word drawn gives
// four bytes that no start may begin with, and once where it may.
const FIRST: &str = "\
0100000001 | 5383791521531687434\n\
0145414401 | 6192201290120226663\n\
014f535401 | 10715563388864732815\n\
0145542001 | 6431618291855638210\n\
0150544901 | 10117145984160373482\n\
0103010201 | 14963223826458373421\n\
01dddddd01 | 7510082978430617456\n\
01eeeeee01 | 3138705716797845349\n\
5055542001 | 11354016309052406927\n";

/// A start whose words are from this place on has these first bytes.
pub(crate) fn begins(alloc: Global, place: &str, want: &str) -> Result<(), Fail> {
    let made = Init::make(&mut words_from(place.parse::<u64>()?), Tag::Abridged, 1);
    let first = hex::encode(alloc, &made.wire[..5])?;
    same_at(place, first.as_str(), want)
}

#[test]
fn first_bytes(rt: HostRuntime) -> Result<(), Fail> {
    are_so(rt.alloc(), Asked::Start, FIRST, 9)
}

#[test]
fn texts_come_back(rt: HostRuntime) -> Result<(), Fail> {
    let mut up = [0x55; 1000];
    let mut down = [0xaa; 77];
    let mut draw = words_from(0);
    let read = through_both_ends(&mut draw, Tag::Padded, 2, &mut up, &mut down);
    same(read, Some((Tag::Padded, 2)))?;
    holds(up == [0x55; 1000] && down == [0xaa; 77])?;
    let made = Init::make(&mut draw, Tag::Abridged, 1);
    shows(
        rt.alloc(),
        &made,
        "Init { up: Ctr { index: 4, used: 0, .. }, down: Ctr { index: 0, used: 0, .. }, .. }",
    )?;
    Ok(())
}
