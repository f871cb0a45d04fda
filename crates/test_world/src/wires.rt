//! A caller's try, the worked rows, and each call once. The obfuscated bytes are those of a few lines of Python over the
//! counter mode of `cryptography` 48.0.0 (OpenSSL 3).

ghost use Rattle.std.specs.Prelude.{◌≡◌, ◌≢◌, ◌++◌, ◌∷◌, [], List, ℕ, Option, true, IfOk};
ghost use Rattle.std.specs.Bool.{OnTrue};
ghost use Rattle.cipher_modes.specs.CounterMode.{CtrState};
ghost use Rattle.transport.specs.Forms.{IsSent};
ghost use Rattle.transport.specs.Wires.{Hears};
ghost use Rattle.transport.specs.declared.form.Form.TheVariants as forms;

use draws::{Draw, Seeded, StepDraw};
use octets::{Memory, Octets};
use std::alloc::Global;
use std::test::*;
use test_asserts::{holds, same, same_at, shows};
use transport::{Form, Framed, Next, RawStep, Wire};

// What a client sends first of the padded form, obfuscated, where the first word drawn was `ef10203040506070`.
const PADDED_START: [u8; 64] = [
    0x01, 0x10, 0x20, 0x30, 0x40, 0x50, 0x60, 0x70, 0x1c, 0x90, 0xb5, 0x7c, 0x6d, 0x44, 0xb2, 0xc8,
    0x49, 0x0f, 0x4b, 0xc9, 0x9a, 0x38, 0x04, 0x21, 0x76, 0x8e, 0xe0, 0x15, 0xc8, 0x2c, 0x56, 0x79,
    0xa3, 0x0d, 0x76, 0x62, 0xf5, 0x20, 0xa8, 0xd1, 0xd0, 0x8c, 0x0b, 0xaf, 0x22, 0x15, 0xfa, 0x29,
    0xfd, 0x0b, 0xa1, 0xfb, 0x4f, 0x09, 0x4c, 0x82, 0x38, 0x17, 0xe9, 0x11, 0x9c, 0xa5, 0xa5, 0xe3,
];

// The frame `04000000 6cfeffff` behind it, and as the server's first frame.
const PADDED_UP: [u8; 8] = [0x0e, 0xca, 0xe9, 0xed, 0xee, 0xdc, 0x6b, 0xdb];

const PADDED_DOWN: [u8; 8] = [0x5a, 0x42, 0x3e, 0x73, 0x46, 0x34, 0xe1, 0xe0];

// The words of this draw are a place times an odd number, so each word stands at some place.
fn drawn() -> StepDraw {
    Seeded::at(&[0; 32], 1_824_739_628_307_071_498)
}

// Feeds a piece and copies the packet that comes next, where there is one.
fn take_packet(
    wire: &mut Wire<Framed>,
    alloc: Global,
    piece: &[u8],
    into: &mut Octets,
) -> Result<bool, Memory>
    ensures taken { IfOk result (λ found. OnTrue found ((from : Option CtrState) (packets : List (List ℕ)) (bytes : List ℕ)
        → Hears wire.old from packets bytes → Hears wire.new from (packets ++ into.new ∷ []) (bytes ++ piece.now))) }
    ensures same_form { wire.new.form ≡ wire.old.form }
{
    wire.feed(alloc, piece)?;
    match wire.next() {
        Next::Packet(packet) => {
            *into = Octets::copy(alloc, packet)?;
            Ok(true)
        }
        Next::More | Next::Fault(_) => Ok(false),
    }
}

// A client's end that has written its start and a packet, and the text.
fn begun<D: Draw>(
    alloc: Global,
    form: Form,
    obfuscate: bool,
    draw: &mut D,
    packet: &[u8],
) -> Result<(Wire<Framed>, Octets), Memory>
    requires full_is_plain { obfuscate ≡ true → form ≢ forms.Full }
    requires sent { IsSent form packet.now }
    ensures form { IfOk result (λ made. made.0.form ≡ form) }
{
    let (mut wire, mut text) = Wire::<Framed>::client(alloc, form, obfuscate, draw)?;
    wire.put(alloc, packet, &mut text)?;
    Ok((wire, text))
}

// Puts a packet that may have any length, at an end of this form.
fn put(
    wire: &mut Wire<Framed>,
    alloc: Global,
    form: Form,
    packet: &[u8],
    out: &mut Octets,
) -> Result<(), Fail>
    requires { wire.old.form ≡ form }
    ensures { wire.new.form ≡ form }
{
    let size = packet.len();
    if size < 4 || size > 1_048_576 || size % 4 != 0 {
        return Err(Fail::new("no payload"));
    }
    if form == Form::Padded && (size < 24 || size % 16 != 8) {
        return Err(Fail::new("no payload of the padded form"));
    }
    wire.put(alloc, packet, out)?;
    Ok(())
}

// Takes the packets that came, and puts them into a text, each behind its mark.
fn take_all(wire: &mut Wire<Framed>, alloc: Global, text: &mut Octets) -> Result<(), Memory> {
    for _ in 0..3 {
        match wire.next() {
            Next::Packet(packet) => {
                text.push_all(alloc, b"packet")?;
                text.push_all(alloc, packet)?;
            }
            Next::More => return Ok(()),
            Next::Fault(_) => text.push_all(alloc, b"fault")?,
        }
    }
    Ok(())
}

// What a server's end becomes with the next piece, whatever it is by now. Its packets are put into a text.
fn fed(step: RawStep, alloc: Global, piece: &[u8], text: &mut Octets) -> Result<RawStep, Memory> {
    let mut wire = match step {
        RawStep::Raw(raw) => match raw.feed(alloc, piece) {
            RawStep::Framed(wire) => wire,
            other => return Ok(other),
        },
        RawStep::Framed(mut wire) => {
            wire.feed(alloc, piece)?;
            wire
        }
        other => return Ok(other),
    };
    take_all(&mut wire, alloc, text)?;
    Ok(RawStep::Framed(wire))
}

// The packets of a connection that comes in pieces of this size, and the server's end.
fn read(alloc: Global, stream: &[u8], size: usize) -> Result<(RawStep, Octets), Memory> {
    let mut step = RawStep::Raw(Wire::server());
    let mut text = Octets::new(alloc);
    for piece in stream.chunks(size.max(1)) {
        step = fed(step, alloc, piece, &mut text)?;
    }
    Ok((step, text))
}

// Whether a connection is read in pieces of each of these sizes, and its packets give this text.
fn is_read(alloc: Global, stream: &[u8], sizes: &[usize], want: &[u8]) -> Result<bool, Memory> {
    for size in sizes {
        let (step, text) = read(alloc, stream, *size)?;
        if !matches!(step, RawStep::Framed(_)) || text.as_slice() != want {
            return Ok(false);
        }
    }
    Ok(true)
}

// What a client sends first, and two packets, of which the first has 504 bytes.
fn two_sent(alloc: Global, form: Form, obfuscate: bool, second: &[u8]) -> Result<Octets, Fail> {
    if obfuscate && form == Form::Full {
        return Err(Fail::new("the full form isn't obfuscated"));
    }
    let (mut client, mut stream) = Wire::<Framed>::client(alloc, form, obfuscate, &mut drawn())?;
    put(&mut client, alloc, form, &[3; 504], &mut stream)?;
    put(&mut client, alloc, form, second, &mut stream)?;
    Ok(stream)
}

// Both packets, each behind its mark.
fn two_marked(alloc: Global, second: &[u8]) -> Result<Octets, Memory> {
    let mut text = Octets::copy(alloc, b"packet")?;
    text.push_all(alloc, &[3; 504])?;
    text.push_all(alloc, b"packet")?;
    text.push_all(alloc, second)?;
    Ok(text)
}

// How many bytes were sent, and whether they are read in pieces of 1, 7 and 2000 bytes.
fn sent_and_read(
    alloc: Global,
    form: Form,
    obfuscate: bool,
    second: &[u8],
) -> Result<(usize, bool), Fail> {
    let stream = two_sent(alloc, form, obfuscate, second)?;
    let text = two_marked(alloc, second)?;
    let is_read = is_read(alloc, stream.as_slice(), &[1, 7, 2000], text.as_slice())?;
    Ok((stream.as_slice().len(), is_read))
}

#[test]
fn each_form_in_any_pieces(rt: HostRuntime) -> Result<(), Fail> {
    let short: &[u8] = &[7; 508];
    let long: &[u8] = &[7; 520];
    let rows = [
        (Form::Abridged, false, short, 1 + 505 + 512),
        (Form::Abridged, true, short, 64 + 505 + 512),
        (Form::Intermediate, false, short, 4 + 508 + 512),
        (Form::Intermediate, true, short, 64 + 508 + 512),
        (Form::Padded, false, long, 4 + 508 + 524),
        (Form::Padded, true, long, 64 + 508 + 524),
        (Form::Full, false, short, 516 + 520),
    ];
    for (form, obfuscate, second, size) in rows {
        same_at(
            form,
            sent_and_read(rt.alloc(), form, obfuscate, second)?,
            (size, true),
        )?;
    }
    Ok(())
}

// The transport's error 404.
const ERROR: &[u8; 4] = b"\x6c\xfe\xff\xff";

// A client's end that has sent the error, in the padded form and obfuscated.
fn padded(alloc: Global) -> Result<(Wire<Framed>, Octets), Memory> {
    begun(alloc, Form::Padded, true, &mut drawn(), ERROR)
}

// What another implementation sends so.
fn padded_up(alloc: Global) -> Result<Octets, Memory> {
    let mut text = Octets::copy(alloc, &PADDED_START)?;
    text.push_all(alloc, &PADDED_UP)?;
    Ok(text)
}

#[test]
fn sent_as_by_another_implementation(rt: HostRuntime) -> Result<(), Fail> {
    let (_, sent) = padded(rt.alloc())?;
    same(sent.as_slice(), padded_up(rt.alloc())?.as_slice())?;
    Ok(())
}

// Whether a server's end reads the error and nothing behind it; and what it answers by an error of its own.
fn answered(alloc: Global) -> Result<(bool, bool, Octets), Fail> {
    let RawStep::Framed(mut server) = Wire::server().feed(alloc, padded_up(alloc)?.as_slice())
    else {
        return Err(Fail::new("a start isn't read"));
    };
    let first = server.next() == Next::Packet(ERROR);
    let second = server.next() == Next::More;
    let mut answer = Octets::new(alloc);
    server.put(alloc, ERROR, &mut answer)?;
    Ok((first, second, answer))
}

#[test]
fn answered_as_by_another_implementation(rt: HostRuntime) -> Result<(), Fail> {
    let (first, second, answer) = answered(rt.alloc())?;
    same(
        (first, second, answer.as_slice()),
        (true, true, PADDED_DOWN.as_slice()),
    )?;
    Ok(())
}

// Whether the client's end takes a packet by each piece of that answer; and the packet.
fn taken(alloc: Global) -> Result<(bool, bool, Octets), Memory> {
    let (mut client, _) = padded(alloc)?;
    let mut packet = Octets::new(alloc);
    let first = take_packet(&mut client, alloc, &PADDED_DOWN[..5], &mut packet)?;
    let second = take_packet(&mut client, alloc, &PADDED_DOWN[5..], &mut packet)?;
    Ok((first, second, packet))
}

#[test]
fn an_answer_is_taken_in_two_pieces(rt: HostRuntime) -> Result<(), Fail> {
    let (first, second, packet) = taken(rt.alloc())?;
    same(
        (first, second, packet.as_slice()),
        (false, true, ERROR.as_slice()),
    )?;
    Ok(())
}

// A start of 64 bytes with these 8 bytes first.
fn start(alloc: Global, first: &[u8], number: &[u8]) -> Result<Octets, Memory> {
    let mut bytes = Octets::copy(alloc, first)?;
    bytes.push_all(alloc, number)?;
    bytes.push_all(alloc, &[0x5a; 56])?;
    Ok(bytes)
}

// Whether it is read as a start that carries no tag, in pieces of 1, 7 and 64 bytes.
fn has_no_tag(alloc: Global, start: &[u8]) -> Result<bool, Memory> {
    for size in [1, 7, 64] {
        let (step, _) = read(alloc, start, size)?;
        let RawStep::Start { bytes } = step else {
            return Ok(false);
        };
        if bytes.as_slice() != start {
            return Ok(false);
        }
    }
    Ok(true)
}

// Whether more bytes are awaited behind its first 63, and behind the others alone.
fn is_awaited(alloc: Global, start: &[u8]) -> Result<bool, Memory> {
    for cut in start.chunks(63) {
        let (step, _) = read(alloc, cut, 64)?;
        if !matches!(step, RawStep::Raw(_)) {
            return Ok(false);
        }
    }
    Ok(true)
}

// A start of 64 bytes that carries no tag, and its first bytes alone.
#[test]
fn no_form(rt: HostRuntime) -> Result<(), Fail> {
    let alloc = rt.alloc();
    let rows: [(&[u8], &[u8]); 4] = [
        (b"\xee\xee\xee\x01", b"\0\0\0\x01"),
        (b"\xdd\xdd\xdd\xee", b"\0\0\x01\0"),
        (b"\x10\0\0\0", b"\0\x01\0\0"),
        (b"\x01\xef\xef\xef", b"\x01\0\0\0"),
    ];
    for (first, number) in rows {
        let start = start(alloc, first, number)?;
        let start = start.as_slice();
        same(
            (has_no_tag(alloc, start)?, is_awaited(alloc, start)?),
            (true, true),
        )?;
    }
    Ok(())
}

// Two full frames. The check is that of zlib.
const FULL: &[u8; 36] =
    b"\x10\0\0\0\0\0\0\0\x6c\xfe\xff\xff\x0d\x2f\x41\x07\x14\0\0\0\x01\0\0\0abcdefgh\x1a\x80\xc5\x8e";

// The first 8 bytes belong to the first frame.
#[test]
fn full_frames_are_read_from_the_first_byte(rt: HostRuntime) -> Result<(), Fail> {
    let text = b"packet\x6c\xfe\xff\xffpacketabcdefgh";
    holds(is_read(rt.alloc(), FULL, &[1, 7, 8, 9, 36], text)?)?;
    Ok(())
}

// What a client sends in the full form by the error and a packet of 8 bytes.
fn full_sent(alloc: Global) -> Result<Octets, Memory> {
    let (mut client, mut sent) = Wire::<Framed>::client(alloc, Form::Full, false, &mut drawn())?;
    client.put(alloc, ERROR, &mut sent)?;
    client.put(alloc, b"abcdefgh", &mut sent)?;
    Ok(sent)
}

#[test]
fn full_frames_are_sent(rt: HostRuntime) -> Result<(), Fail> {
    same(full_sent(rt.alloc())?.as_slice(), FULL.as_slice())?;
    Ok(())
}

#[test]
fn an_end_is_shown_without_its_bytes(rt: HostRuntime) -> Result<(), Fail> {
    let (step, _) = read(rt.alloc(), &FULL[..7], 7)?;
    shows(
        rt.alloc(),
        &step,
        "Raw(Wire { state: Raw { count: 7, .. } })",
    )?;
    Ok(())
}
