//! What is written over a connection.

ghost use Rattle.std.specs.Prelude.{◌≡◌, ◌∷◌, [], List, IfErr, OnOk};
ghost use Rattle.transport.specs.Forms.{IsSent};
ghost use Rattle.server_node.specs.Steps.{Framings, HearsAlike, IsSameIn, IsSendEnd, Said, going_out, is_sendable};
ghost use Rattle.server_node.specs.Writes.{Goes, WrittenBy, end_in, unknown_key};
ghost use Rattle.server_core.specs.declared.session_name.SessionName.{SessionName as Name};

use crate::conn::ConnEnd;
use crate::heard::HeardSessions;
use crate::line::Line;
use mt_edge::{Link, Put};
use octets::{Memory, Octets};
use server_core::SessionName;
use server_output::{Out, Outs};
use std::alloc::Global;
use transport::laws::a_packet_more_is_spelt;
use transport::{Framed, Wire};

/// Writes a whole piece to a link.
///
/// # Errors
///
/// `LinkFault`: a write failed, and what is written is a front of the piece.
pub(crate) fn send<L: Link>(link: &mut L, piece: &[u8]) -> Result<(), ConnEnd>
    ensures written { WrittenBy (end_in result) piece.now (L.told link.old) (L.told link.new) }
    ensures goes { Goes (end_in result) (L.standing link.old) (L.faults link.old) (L.told link.old) (L.standing link.new) (L.faults link.new) (L.told link.new) }
    ensures ends { IfErr result (λ end. end ≡ ConnEnd.LinkFault) }
{
    let mut rest = piece;
    while !rest.is_empty() {
        match link.write(rest) {
            Put::Took(count) => rest = &rest[count..],
            Put::Failed => return Err(ConnEnd::LinkFault),
        }
    }
    Ok(())
}

// Whether a packet is as long as sealed ones are, which each form carries.
fn is_sendable(packet: &[u8]) -> bool
    ensures { result ≡ is_sendable packet.now }
{
    packet.len() >= 72 && packet.len() <= 1_048_576 && packet.len() % 16 == 8
}

// Puts the frame of a packet at the end.
fn put_one(
    alloc: Global,
    wire: &mut Wire<Framed>,
    packet: &[u8],
    text: &mut Octets,
) -> Result<(), Memory>
    requires fits { IsSent wire.old.form packet.now }
    ensures framed { OnOk result (Framings wire.old text.old (packet.now ∷ []) wire.new text.new) }
    ensures same_in { IsSameIn wire.old wire.new }
{
    a_packet_more_is_spelt();
    wire.put(alloc, packet, text)?;
    Ok(())
}

// Puts the frame of a packet at the end where its session was heard on the connection.
fn put_heard(
    alloc: Global,
    wire: &mut Wire<Framed>,
    heard: &HeardSessions,
    out: &Out,
    text: &mut Octets,
) -> Result<(), Memory>
    ensures framed { OnOk result (Framings wire.old text.old (going_out heard.now (out.now ∷ [])) wire.new text.new) }
    ensures same_in { IsSameIn wire.old wire.new }
{
    let name = SessionName {
        key: out.key,
        session: out.session,
    };
    if heard.has(name) && is_sendable(out.packet.as_slice()) {
        put_one(alloc, wire, out.packet.as_slice(), text)?;
    }
    Ok(())
}

// Puts the frames of those packets at the end whose sessions were heard on the connection.
fn put_all(
    alloc: Global,
    wire: &mut Wire<Framed>,
    heard: &HeardSessions,
    outs: &Outs,
    text: &mut Octets,
) -> Result<(), Memory>
    ensures framed { OnOk result (Framings wire.old text.old (going_out heard.now outs.now.outs) wire.new text.new) }
    ensures same_in { IsSameIn wire.old wire.new }
{
    for out in outs.as_slice() {
        put_heard(alloc, wire, heard, out, text)?;
    }
    Ok(())
}

/// Sends, of the packets that an event gives, those whose sessions were heard on the connection, in one run of writes.
///
/// # Errors
///
/// `LinkFault`: a write failed, and what is written is a front of their frames. `Memory`: nothing is written.
#[tactic(auto, using(crate::proofs::Going::said_all, crate::proofs::Going::said_front, crate::proofs::Going::said_memory))]
pub(crate) fn say_framed<L: Link>(
    alloc: Global,
    wire: &mut Wire<Framed>,
    link: &mut L,
    heard: &HeardSessions,
    outs: &Outs,
    text: &mut Octets,
) -> Result<(), ConnEnd>
    ensures said { Said (Line.Framed wire.old) heard.now (L.told link.old) (going_out heard.now outs.now.outs) (end_in result) (Line.Framed wire.new) (L.told link.new) }
    ensures goes { Goes (end_in result) (L.standing link.old) (L.faults link.old) (L.told link.old) (L.standing link.new) (L.faults link.new) (L.told link.new) }
    ensures ends { IsSendEnd (end_in result) }
    ensures same_in { IsSameIn wire.old wire.new }
{
    text.truncate(0);
    match put_all(alloc, wire, heard, outs, text) {
        Ok(()) => send(link, text.as_slice()),
        Err(Memory) => Err(ConnEnd::Memory),
    }
}

/// The same where the form of the connection may not be known yet, and then no session was heard on it and nothing is sent.
///
/// # Errors
///
/// `LinkFault`: a write failed, and what is written is a front of their frames. `Memory`: nothing is written.
pub(crate) fn say<L: Link>(
    alloc: Global,
    line: &mut Line,
    link: &mut L,
    heard: &HeardSessions,
    outs: &Outs,
    text: &mut Octets,
) -> Result<(), ConnEnd>
    ensures said { Said line.old heard.now (L.told link.old) (going_out heard.now outs.now.outs) (end_in result) line.new (L.told link.new) }
    ensures goes { Goes (end_in result) (L.standing link.old) (L.faults link.old) (L.told link.old) (L.standing link.new) (L.faults link.new) (L.told link.new) }
    ensures ends { IsSendEnd (end_in result) }
    ensures same_in { HearsAlike line.old line.new }
{
    match line {
        Line::Raw(_) => Ok(()),
        Line::Framed(wire) => say_framed(alloc, wire, link, heard, outs, text),
    }
}

/// The transport error for a packet under a key that isn't known: -404.
const UNKNOWN_KEY: [u8; 4] = [0x6c, 0xfe, 0xff, 0xff];

/// Sends the transport error for a key that isn't known.
///
/// # Errors
///
/// `LinkFault`: a write failed, and what is written is a front of the frame. `Memory`: nothing is written.
#[tactic(auto, using(crate::proofs::Going::said_all, crate::proofs::Going::said_front))]
pub(crate) fn say_unknown<L: Link>(
    alloc: Global,
    wire: &mut Wire<Framed>,
    link: &mut L,
    text: &mut Octets,
) -> Result<(), ConnEnd>
    ensures said { (heard : List Name) → Said (Line.Framed wire.old) heard (L.told link.old) (unknown_key ∷ []) (end_in result) (Line.Framed wire.new) (L.told link.new) }
    ensures goes { Goes (end_in result) (L.standing link.old) (L.faults link.old) (L.told link.old) (L.standing link.new) (L.faults link.new) (L.told link.new) }
    ensures ends { IsSendEnd (end_in result) }
    ensures same_in { IsSameIn wire.old wire.new }
{
    text.truncate(0);
    match put_one(alloc, wire, &UNKNOWN_KEY, text) {
        Ok(()) => send(link, text.as_slice()),
        Err(Memory) => Err(ConnEnd::Memory),
    }
}
