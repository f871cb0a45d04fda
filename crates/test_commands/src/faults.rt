//! What ends a relay, and what doesn't.

use crate::captures::{SECRET, down, put, start, through, up, wire_of};
use obfus::Tag;
use octets::{Memory, Octets};
use secret_relay::{Form, FrameFault, Relay, RelayFault};
use std::alloc::Global;
use std::test::*;
use test_asserts::{holds_at, same, same_at, shown, tells};

// The client's start, and behind it packets of 504 and 508 bytes, in the abridged form.
fn capture(alloc: Global) -> Result<Octets, Memory> {
    let mut text = Octets::new(alloc);
    put(alloc, Form::Abridged, 504, &mut text)?;
    put(alloc, Form::Abridged, 508, &mut text)?;
    behind_start(alloc, text)
}

// A client's start, and a text of its behind it.
fn behind_start(alloc: Global, text: Octets) -> Result<Octets, Memory> {
    let mut init = start(Tag::Abridged);
    let text = through(&mut init.up, text);
    let wire = init.wire;
    drop(init);
    both(alloc, &wire, text.as_slice())
}

fn both(alloc: Global, first: &[u8], second: &[u8]) -> Result<Octets, Memory> {
    let mut whole = Octets::copy(alloc, first)?;
    whole.push_all(alloc, second)?;
    Ok(whole)
}

// What goes out of a capture that comes to a relay, cut at these places.
fn pieces(
    relay: &mut Relay,
    alloc: Global,
    capture: &[u8],
    cuts: &[usize],
) -> Result<Octets, Fail> {
    let mut out = Octets::new(alloc);
    let mut from = 0;
    for cut in cuts {
        let piece = capture.get(from..*cut).ok_or("a cut in order")?;
        up(relay, alloc, piece, &mut out)?;
        from = *cut;
    }
    let piece = capture.get(from..).ok_or("a cut in the capture")?;
    up(relay, alloc, piece, &mut out)?;
    Ok(out)
}

// The same of the capture, towards the intermediate form.
fn cut_at(alloc: Global, cuts: &[usize]) -> Result<Octets, Fail> {
    let capture = capture(alloc)?;
    let mut relay = Relay::new(Form::Intermediate, &SECRET);
    let out = pieces(&mut relay, alloc, capture.as_slice(), cuts);
    drop(relay);
    out
}

// Both packets go out whole where the capture is cut at these places.
fn go_out_whole(alloc: Global, cuts: &[usize]) -> Result<(), Fail> {
    let out = cut_at(alloc, cuts)?;
    let out = out.as_slice();
    same_at(cuts, out.len(), 4 + 508 + 512)?;
    holds_at(
        cuts,
        out.starts_with(&[0xee, 0xee, 0xee, 0xee, 0xf8, 0x01, 0x00, 0x00]),
    )?;
    let second = out.get(512..).ok_or("512 bytes")?;
    holds_at(cuts, second.starts_with(&[0xfc, 0x01, 0x00, 0x00]))
}

// The last two cuts lie inside the length of the second packet.
#[test]
fn packets_go_out_whole(rt: HostRuntime) -> Result<(), Fail> {
    let alloc = rt.alloc();
    go_out_whole(alloc, &[0, 0])?;
    go_out_whole(alloc, &[63, 63])?;
    go_out_whole(alloc, &[64, 64 + 505 + 2])?;
    go_out_whole(alloc, &[64 + 505 + 1, 64 + 505 + 3])
}

#[test]
fn a_start_goes_out(rt: HostRuntime) -> Result<(), Fail> {
    let alloc = rt.alloc();
    let mut relay = Relay::new(Form::Intermediate, &SECRET);
    let mut out = Octets::new(alloc);
    let done = up(&mut relay, alloc, &wire_of(Tag::Abridged), &mut out);
    drop(relay);
    done?;
    same(out.as_slice(), [0xee, 0xee, 0xee, 0xee].as_slice())
}

// The server may not begin, neither with a byte nor with none.
fn is_early(relay: &mut Relay, alloc: Global, out: &mut Octets) -> Result<(), Fail> {
    same(down(relay, alloc, &[0], out), Err(RelayFault::Early))?;
    same(down(relay, alloc, &[], out), Err(RelayFault::Early))
}

// It may once the client's first bytes are there.
fn may_begin(relay: &mut Relay, alloc: Global, wire: &[u8], out: &mut Octets) -> Result<(), Fail> {
    is_early(relay, alloc, out)?;
    let front = wire.get(..63).ok_or("63 bytes of a start")?;
    up(relay, alloc, front, out)?;
    same(down(relay, alloc, &[0], out), Err(RelayFault::Early))?;
    let last = wire.get(63..).ok_or("a start of 64 bytes")?;
    up(relay, alloc, last, out)?;
    Ok(down(relay, alloc, &[4, 0, 0], out)?)
}

#[test]
fn the_server_may_not_begin(rt: HostRuntime) -> Result<(), Fail> {
    let alloc = rt.alloc();
    let mut relay = Relay::new(Form::Intermediate, &SECRET);
    let mut out = Octets::new(alloc);
    let done = may_begin(&mut relay, alloc, &wire_of(Tag::Padded), &mut out);
    drop(relay);
    done?;
    same(out.as_slice(), [0xee, 0xee, 0xee, 0xee].as_slice())
}

// The tag `efefefef` of a start becomes `10203040`.
fn change_tag(wire: &mut [u8]) -> Result<(), Fail> {
    let tag = wire.get_mut(56..60).ok_or("a start of 64 bytes")?;
    for (byte, wanted) in tag.iter_mut().zip([0x10, 0x20, 0x30, 0x40]) {
        *byte ^= 0xef ^ wanted;
    }
    Ok(())
}

// By this piece of the client a relay ends with a fault, and stays so: a piece more of either side has the same answer.
fn ends(
    relay: &mut Relay,
    alloc: Global,
    piece: &[u8],
    more: &[u8],
    fault: RelayFault,
    out: &mut Octets,
) -> Result<(), Fail> {
    same(up(relay, alloc, piece, out), Err(fault))?;
    let len = out.as_slice().len();
    same(up(relay, alloc, more, out), Err(fault))?;
    same(down(relay, alloc, &[0], out), Err(fault))?;
    same(out.as_slice().len(), len)
}

#[test]
fn a_start_with_another_tag(rt: HostRuntime) -> Result<(), Fail> {
    let alloc = rt.alloc();
    let mut wire = wire_of(Tag::Abridged);
    change_tag(&mut wire)?;
    let mut out = Octets::new(alloc);
    let mut relay = Relay::new(Form::Padded, &SECRET);
    let fault = RelayFault::Start {
        found: [0x10, 0x20, 0x30, 0x40],
    };
    let done = ends(&mut relay, alloc, &wire, &[], fault, &mut out);
    drop(relay);
    done?;
    same(out.as_slice().len(), 0)?;
    tells(alloc, &fault, "no framing has the tag 10203040")
}

#[test]
fn a_packet_that_padding_hides(rt: HostRuntime) -> Result<(), Fail> {
    let alloc = rt.alloc();
    let capture = capture(alloc)?;
    let mut out = Octets::new(alloc);
    let mut relay = Relay::new(Form::Padded, &SECRET);
    let fault = RelayFault::Length { len: 508 };
    let done = ends(&mut relay, alloc, capture.as_slice(), &[0], fault, &mut out);
    drop(relay);
    done?;
    let text = out.as_slice();
    same(text.len(), 4 + 508)?;
    same(
        text.get(..8),
        Some([0xdd, 0xdd, 0xdd, 0xdd, 0xf8, 0x01, 0x00, 0x00].as_slice()),
    )
}

// The same behind the client's first 64 bytes, which come alone.
fn ends_behind_start(
    relay: &mut Relay,
    alloc: Global,
    capture: &[u8],
    fault: RelayFault,
    out: &mut Octets,
) -> Result<(), Fail> {
    let wire = capture.get(..64).ok_or("a start of 64 bytes")?;
    let piece = capture.get(64..).ok_or("a start of 64 bytes")?;
    up(relay, alloc, wire, out)?;
    ends(relay, alloc, piece, &[0], fault, out)
}

#[test]
fn a_frame_that_is_none(rt: HostRuntime) -> Result<(), Fail> {
    let alloc = rt.alloc();
    let capture = behind_start(alloc, Octets::copy(alloc, &[1, 9, 9, 9, 9, 0])?)?;
    let mut out = Octets::new(alloc);
    let mut relay = Relay::new(Form::Intermediate, &SECRET);
    let fault = RelayFault::Frame(FrameFault::BadLength { len: 0 });
    let done = ends_behind_start(&mut relay, alloc, capture.as_slice(), fault, &mut out);
    drop(relay);
    done?;
    same(
        out.as_slice(),
        [0xee, 0xee, 0xee, 0xee, 4, 0, 0, 0, 9, 9, 9, 9].as_slice(),
    )
}

// By this piece of the server, behind a start of the client, a relay ends with a fault, and nothing goes out.
fn ends_down(
    relay: &mut Relay,
    alloc: Global,
    wire: &[u8],
    piece: &[u8],
    fault: RelayFault,
) -> Result<(), Fail> {
    let mut out = Octets::new(alloc);
    up(relay, alloc, wire, &mut out)?;
    let mut other = Octets::new(alloc);
    same(down(relay, alloc, piece, &mut other), Err(fault))?;
    same(up(relay, alloc, &[0], &mut other), Err(fault))?;
    same(other.as_slice().len(), 0)
}

#[test]
fn a_frame_that_is_too_long(rt: HostRuntime) -> Result<(), Fail> {
    let alloc = rt.alloc();
    let mut relay = Relay::new(Form::Intermediate, &SECRET);
    let fault = RelayFault::Frame(FrameFault::TooLong { len: 0x0100_0000 });
    let wire = wire_of(Tag::Abridged);
    let done = ends_down(&mut relay, alloc, &wire, &[0, 0, 0, 1], fault);
    drop(relay);
    done
}

#[test]
fn a_relay_shows_no_secret(rt: HostRuntime) -> Result<(), Fail> {
    let relay = Relay::new(Form::Padded, &[7; 16]);
    let text = shown(rt.alloc(), &relay);
    drop(relay);
    same(
        text?.as_str(),
        "Relay { form: Padded, phase: Awaits(First { count: 0, .. }), .. }",
    )
}

// How a relay is shown behind a start with 3 bytes of a packet, and 5 bytes of the server.
fn shown_behind(relay: &mut Relay, alloc: Global) -> Result<String, Fail> {
    let capture = capture(alloc)?;
    let front = capture.as_slice().get(..67).ok_or("a start and 3 bytes")?;
    let mut out = Octets::new(alloc);
    up(relay, alloc, front, &mut out)?;
    down(relay, alloc, &[4, 0, 0, 0, 9], &mut out)?;
    Ok(shown(alloc, relay)?)
}

#[test]
fn a_relay_shows_no_packet(rt: HostRuntime) -> Result<(), Fail> {
    let mut relay = Relay::new(Form::Padded, &SECRET);
    let text = shown_behind(&mut relay, rt.alloc());
    drop(relay);
    same(
        text?.as_str(),
        "Relay { form: Padded, phase: Links(Link { form: Abridged, client_bytes: 3, server_bytes: 5, .. }), .. }",
    )
}
