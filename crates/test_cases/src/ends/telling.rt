//! What goes out as text.

ghost use Rattle.std.specs.Prelude.{IsTrue};
ghost use Rattle.containers.specs.Container.{begins_container};

use crate::ends::parts::Names;
use containers::{Parts, is_container};
use envelope::{Dir, Envelope, Opened, Seal};
use msg_ids::Moment;
use octets::Octets;
use server_core::Effects;
use server_dispatch::Entry;
use server_output::Out;
use sha2::{Digest, Sha256};
use std::alloc::Global;
use std::test::Fail;

/// The most bytes that are told as they are; of more the length and the SHA-256 are.
const SHOWN_MAX: usize = 512;

/// The text of a case so far, to which nothing is added while it is muted.
#[derive(Drop)]
pub(crate) struct Text {
    pub(crate) written: String,
    pub(crate) is_muted: bool,
}

impl Text {
    /// Nothing.
    pub(crate) fn new(alloc: Global) -> Text {
        Text {
            written: String::new(alloc),
            is_muted: false,
        }
    }

    /// Adds a piece, unless it is muted.
    pub(crate) fn push(&mut self, piece: &str) -> Result<(), Fail> {
        if !self.is_muted {
            self.written.push_str(piece)?;
        }
        Ok(())
    }
}

/// The envelope of a packet that goes in this direction.
pub(crate) fn opened<S: Seal>(
    alloc: Global,
    seal: &S,
    dir: Dir,
    packet: &[u8],
) -> Result<Envelope, Fail> {
    match seal.unseal(alloc, Moment::new(0), dir, packet) {
        Opened::Envelope(envelope) => Ok(envelope),
        Opened::Refused(_) | Opened::Memory => Err(Fail::new("the packet doesn't open")),
    }
}

/// What an event of a server gave: its packets with their messages, and its entries. A packet or an entry that isn't the
/// session's is told to be another's.
pub(crate) fn tell_effects<S: Seal>(
    alloc: Global,
    text: &mut Text,
    seal: &S,
    names: Names,
    effects: &Effects,
) -> Result<(), Fail> {
    for out in effects.out.as_slice() {
        tell_out(alloc, text, seal, names, out)?;
    }
    for entry in effects.entries.as_slice() {
        tell_entry(alloc, text, names, entry)?;
    }
    Ok(())
}

// A packet that goes out.
fn tell_out<S: Seal>(
    alloc: Global,
    text: &mut Text,
    seal: &S,
    names: Names,
    out: &Out,
) -> Result<(), Fail> {
    let envelope = opened(alloc, seal, Dir::Down, out.packet.as_slice())?;
    let told = tell_down(alloc, text, names, out, &envelope);
    drop(envelope);
    told
}

// The same with its envelope.
fn tell_down(
    alloc: Global,
    text: &mut Text,
    names: Names,
    out: &Out,
    envelope: &Envelope,
) -> Result<(), Fail> {
    tell_envelope(alloc, text, out.packet.as_slice().len(), envelope)?;
    if (out.key, out.session) != (names.key, names.session) {
        text.push("of another key or session\n")?;
    }
    if (envelope.key, envelope.session) != (names.key, names.session) {
        text.push("under another key or session\n")?;
    }
    let salt = envelope.salt;
    if salt != names.salt {
        text.push(format!(in alloc; "under salt {salt}\n")?.as_str())?;
    }
    Ok(())
}

// A packet: how many bytes it has, the number and the seq of its message, and its body or the messages in it.
fn tell_envelope(
    alloc: Global,
    text: &mut Text,
    bytes: usize,
    envelope: &Envelope,
) -> Result<(), Fail> {
    let (number, seq) = (envelope.number, envelope.seq);
    let body = envelope.body.as_slice();
    if !is_container(body) {
        return text.push(message_line(alloc, bytes, number, seq, body)?.as_str());
    }
    text.push(format!(in alloc; "{bytes} bytes: {number} {seq}\n")?.as_str())?;
    tell_parts(alloc, text, number, body)
}

// A packet of one message.
fn message_line(
    alloc: Global,
    bytes: usize,
    number: u64,
    seq: u32,
    body: &[u8],
) -> Result<String, Fail> {
    let body = shown(alloc, body)?;
    Ok(format!(in alloc; "{bytes} bytes: {number} {seq} {body}\n")?)
}

// The messages of a container, a line for each.
fn tell_parts(alloc: Global, text: &mut Text, number: u64, body: &[u8]) -> Result<(), Fail>
    requires { IsTrue (begins_container body.now) }
{
    let Ok(parts) = Parts::read(number, body) else {
        return Err(Fail::new("no container"));
    };
    for part in parts {
        text.push(part_line(alloc, part.number, part.seq, part.body)?.as_str())?;
    }
    Ok(())
}

// A message of a container.
fn part_line(alloc: Global, number: u64, seq: u32, body: &[u8]) -> Result<String, Fail> {
    let body = shown(alloc, body)?;
    Ok(format!(in alloc; "- {number} {seq} {body}\n")?)
}

// An answer to a call: whether it ran, its number, its request and its reply.
fn entry_line(alloc: Global, entry: &Entry) -> Result<String, Fail> {
    let verb = if entry.ran { "ran" } else { "answered" };
    let number = entry.number;
    let request = shown(alloc, entry.request.as_slice())?;
    let reply = shown(alloc, entry.reply.as_slice())?;
    Ok(format!(in alloc; "{verb} {number} {request} {reply}\n")?)
}

// The line of an answer is told, and that it is another's where it is.
fn tell_entry(alloc: Global, text: &mut Text, names: Names, entry: &Entry) -> Result<(), Fail> {
    text.push(entry_line(alloc, entry)?.as_str())?;
    if (entry.key, entry.session) != (names.key, names.session) {
        text.push("of another key or session\n")?;
    }
    Ok(())
}

/// A packet of a client: how many bytes it has, its salt, the number and the seq of its message, and its body.
pub(crate) fn tell_sent<S: Seal>(
    alloc: Global,
    text: &mut Text,
    seal: &S,
    packet: &Octets,
) -> Result<(), Fail> {
    let envelope = opened(alloc, seal, Dir::Up, packet.as_slice())?;
    let line = sent_line(alloc, packet.as_slice().len(), &envelope);
    drop(envelope);
    text.push(line?.as_str())
}

// The same of its envelope.
fn sent_line(alloc: Global, bytes: usize, envelope: &Envelope) -> Result<String, Fail> {
    let (salt, number, seq) = (envelope.salt, envelope.number, envelope.seq);
    let body = shown(alloc, envelope.body.as_slice())?;
    Ok(format!(in alloc; "{bytes} bytes: {salt} {number} {seq} {body}\n")?)
}

// Bytes as hexadecimal digits; of many the length and the SHA-256.
fn shown(alloc: Global, bytes: &[u8]) -> Result<String, Fail> {
    if bytes.len() > SHOWN_MAX {
        let length = bytes.len();
        let digest = hex::encode(alloc, digest(bytes).as_slice())?;
        return Ok(format!(in alloc; "({length} {digest})")?);
    }
    Ok(hex::encode(alloc, bytes)?)
}

// The SHA-256 of bytes.
fn digest(bytes: &[u8]) -> [u8; 32] {
    let mut hasher = Sha256::new();
    hasher.update(bytes);
    hasher.finalize()
}
