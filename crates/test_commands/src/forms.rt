//! Every form towards every other, whole and in pieces.

use crate::captures::{SECRET, down, form_of, put, start, through, up};
use obfus::{Init, Tag};
use octets::{Memory, Octets};
use secret_relay::{Form, Relay};
use std::alloc::Global;
use std::test::*;
use test_asserts::holds_at;

const SIZES: [usize; 4] = [4, 40, 504, 1_048];

const TAGS: [Tag; 3] = [Tag::Abridged, Tag::Intermediate, Tag::Padded];

const FORMS: [Form; 3] = [Form::Abridged, Form::Intermediate, Form::Padded];

fn start_of(form: Form) -> &'static [u8] {
    match form {
        Form::Abridged => b"\xef",
        Form::Intermediate => b"\xee\xee\xee\xee",
        Form::Padded => b"\xdd\xdd\xdd\xdd",
        Form::Full => b"",
    }
}

// Packets of one connection, as each end has them in its stream.
#[derive(Drop)]
struct Streams {
    up: Octets,
    down: Octets,
    upwards: Octets,
    downwards: Octets,
}

// The packets in a form, behind a front.
fn framed(alloc: Global, form: Form, front: &[u8]) -> Result<Octets, Memory> {
    let mut text = Octets::copy(alloc, front)?;
    for size in SIZES {
        put(alloc, form, size, &mut text)?;
    }
    Ok(text)
}

// The same packets in the client's form and in the server's, none of them ciphered.
fn streams_of(alloc: Global, tag: Tag, form: Form) -> Result<Streams, Memory> {
    Ok(Streams {
        up: framed(alloc, form_of(tag), b"")?,
        down: framed(alloc, form, b"")?,
        upwards: framed(alloc, form, start_of(form))?,
        downwards: framed(alloc, form_of(tag), b"")?,
    })
}

// The same streams as they go over the wire, on which the client's are ciphered.
fn ciphered(init: &mut Init, streams: Streams) -> Streams {
    Streams {
        up: through(&mut init.up, streams.up),
        down: streams.down,
        upwards: streams.upwards,
        downwards: through(&mut init.down, streams.downwards),
    }
}

// What goes out where both sides come in pieces of so many bytes, one of each side in turn.
fn send(
    alloc: Global,
    relay: &mut Relay,
    streams: &Streams,
    step: usize,
    sent_up: &mut Octets,
    sent_down: &mut Octets,
) -> Result<(), Fail> {
    let coming = streams.down.as_slice();
    let mut from = 0_usize;
    for piece in streams.up.as_slice().chunks(step.max(1)) {
        up(relay, alloc, piece, sent_up)?;
        let to = coming.len().min(from.saturating_add(step));
        if let Some(other) = coming.get(from..to) {
            down(relay, alloc, other, sent_down)?;
        }
        from = to;
    }
    let left = coming.get(from..).ok_or("a place in the text")?;
    for other in left.chunks(step.max(1)) {
        down(relay, alloc, other, sent_down)?;
    }
    Ok(())
}

// The client's first bytes come to a relay in pieces of so many bytes.
fn begin(
    alloc: Global,
    relay: &mut Relay,
    wire: &[u8],
    step: usize,
    out: &mut Octets,
) -> Result<(), Fail> {
    for piece in wire.chunks(step.max(1)) {
        up(relay, alloc, piece, out)?;
    }
    Ok(())
}

// Whether a relay towards a form sends what is due behind the client's first bytes, and then of each stream.
fn is_sent(
    alloc: Global,
    relay: &mut Relay,
    form: Form,
    wire: &[u8],
    streams: &Streams,
    step: usize,
) -> Result<bool, Fail> {
    let mut sent_up = Octets::new(alloc);
    begin(alloc, relay, wire, step, &mut sent_up)?;
    if sent_up.as_slice() != start_of(form) {
        return Ok(false);
    }
    let mut sent_down = Octets::new(alloc);
    send(alloc, relay, streams, step, &mut sent_up, &mut sent_down)?;
    Ok(
        sent_up.as_slice() == streams.upwards.as_slice()
            && sent_down.as_slice() == streams.downwards.as_slice(),
    )
}

// Whether a capture towards a form, in pieces of so many bytes, goes out as the same packets in the other form.
fn is_relayed(alloc: Global, tag: Tag, form: Form, step: usize) -> Result<bool, Fail> {
    if form == Form::Full || step == 0 {
        return Err(Fail::new("no form of a relay, or no pieces"));
    }
    let streams = streams_of(alloc, tag, form)?;
    let mut init = start(tag);
    let streams = ciphered(&mut init, streams);
    let mut relay = Relay::new(form, &SECRET);
    let is_sent = is_sent(alloc, &mut relay, form, &init.wire, &streams, step);
    drop(init);
    drop(relay);
    drop(streams);
    is_sent
}

#[test]
fn every_form_towards_every_other(rt: HostRuntime) -> Result<(), Fail> {
    for tag in TAGS {
        for form in FORMS {
            for step in [1, 7, 100_000] {
                holds_at((tag, form, step), is_relayed(rt.alloc(), tag, form, step)?)?;
            }
        }
    }
    Ok(())
}
