//! What a connection brings.

ghost use Rattle.std.specs.Prelude.{◌≡◌, ◌≢◌, ◌∷◌, [], IfErr};
ghost use Rattle.octets.specs.Bytes.{IsBytes};
ghost use Rattle.server_node.specs.Coming.{CameBy, NextBy, SameOut, SaysBy, TookAll, TookBy, came_by};
ghost use Rattle.server_node.specs.Doing.{Did, IsEventEnd, IsPacketEnd, IsPacketsEnd, end_by, stop_by};
ghost use Rattle.server_node.specs.Record.{Answered, counted_down};
ghost use Rattle.server_node.specs.Steps.{IsSameIn, IsSendEnd};
ghost use Rattle.server_node.specs.Trace.{Attach};
ghost use Rattle.server_node.specs.Writes.{CountsDesk, Goes, end_in};

use crate::conn::ConnEnd;
use crate::heard::HeardSessions;
use crate::line::Line;
use crate::sending::{say_framed, say_unknown};
use envelope::Refusal;
use envelope::laws::{one_refusal, opens_what_it_sealed};
use msg_ids::Moment;
use mt_edge::Link;
use octets::{Memory, Octets};
use regs_service::Service;
use server_core::{Desk, DeskFault, Heard, Reply, SessionName};
use std::alloc::Global;
use transport::{Framed, Next, Wire};

/// How a connection ends by a fault of the desk.
pub(crate) fn end_of(fault: DeskFault) -> ConnEnd
    ensures { result ≡ end_by fault }
{
    match fault {
        DeskFault::Memory => ConnEnd::Memory,
        fault => ConnEnd::Journal(fault),
    }
}

// A connection is opened for the session of this name, and what it owes is sent.
#[tactic(auto, using(crate::proofs::Events::fault_is_end, crate::proofs::Events::send_is_end, crate::proofs::DeskCounts::desk_sends, crate::proofs::DeskCounts::desk_fails))]
fn attach<L: Link, K: Desk, V: Service>(
    alloc: Global,
    desk: &mut K,
    name: SessionName,
    now: Moment,
    wire: &mut Wire<Framed>,
    link: &mut L,
    heard: &HeardSessions,
    text: &mut Octets,
) -> Result<(), ConnEnd>
    ensures did { (service : V) → Did K.D.step V.step K.S.lock (K.keys desk.old)
        (record { desk = K.StandsFor desk.old; behind = K.Behind desk.old; drawn = K.drawn desk.old; service = service; heard = heard.now; line = Line.Framed wire.old; told = L.told link.old })
        (λ rules talk. Attach now name ∷ []) (end_in result)
        (record { desk = K.StandsFor desk.new; behind = K.Behind desk.new; drawn = K.drawn desk.new; service = service; heard = heard.now; line = Line.Framed wire.new; told = L.told link.new }) }
    ensures goes { Goes (end_in result) (L.standing link.old) (L.faults link.old) (L.told link.old) (L.standing link.new) (L.faults link.new) (L.told link.new) }
    ensures ends { IsEventEnd K.MayAnswer (end_in result) }
    ensures same_in { IsSameIn wire.old wire.new }
    ensures same_keys { K.keys desk.new ≡ K.keys desk.old }
    ensures same_binding { K.bound_to desk.new ≡ K.bound_to desk.old }
    ensures desk_counted { CountsDesk (end_in result) (K.fault_count desk.old) (K.fault_count desk.new) }
{
    opens_what_it_sealed::<K::S>();
    match desk.attach(alloc, name.key, name.session, now) {
        Ok(effects) => say_framed(alloc, wire, link, heard, &effects.out, text),
        Err(fault) => Err(end_of(fault)),
    }
}

/// What came next over a connection.
#[derive(Clone, Copy)]
enum Came {
    /// No further packet is whole.
    Nothing,
    /// A packet.
    Packet,
    /// The first packet of this session.
    First(SessionName),
}

// The members of a slice are bytes. Does nothing.
fn are_bytes(packet: &[u8])
    ensures { IsBytes packet.now }
{}

// The desk takes the next packet of the connection, where one is whole.
#[tactic(auto, using(crate::proofs::Events::fault_is_packet_end, crate::proofs::DeskCounts::desk_fails))]
fn take_next<K: Desk>(
    alloc: Global,
    desk: &mut K,
    now: Moment,
    wire: &mut Wire<Framed>,
) -> Result<Option<Reply>, ConnEnd>
    ensures next { NextBy K.D.step K.S.lock (K.keys desk.old) (K.StandsFor desk.old) (K.drawn desk.old) now wire.old result (K.StandsFor desk.new) (K.Behind desk.new) (K.drawn desk.new) wire.new }
    ensures same_out { SameOut wire.old wire.new }
    ensures ends { IsPacketEnd K.MayAnswer (end_in result) }
    ensures no_fault { IfErr result (λ end. end ≢ ConnEnd.LinkFault) }
    ensures same_keys { K.keys desk.new ≡ K.keys desk.old }
    ensures same_binding { K.bound_to desk.new ≡ K.bound_to desk.old }
    ensures desk_counted { CountsDesk (end_in result) (K.fault_count desk.old) (K.fault_count desk.new) }
{
    match wire.next() {
        Next::Packet(packet) => {
            are_bytes(packet);
            match desk.on_packet(alloc, now, packet) {
                Ok(reply) => Ok(Some(reply)),
                Err(fault) => Err(end_of(fault)),
            }
        }
        Next::More => Ok(None),
        Next::Fault(fault) => Err(ConnEnd::Frame(fault)),
    }
}

// What a packet owes is sent.
#[tactic(auto, using(crate::proofs::Going::said_memory, crate::proofs::Goings::goes_none, crate::proofs::Goings::goes_same))]
fn answer<L: Link>(
    alloc: Global,
    reply: &Reply,
    wire: &mut Wire<Framed>,
    link: &mut L,
    heard: &mut HeardSessions,
    text: &mut Octets,
) -> Result<Came, ConnEnd>
    ensures says { SaysBy wire.old heard.old (L.told link.old) reply.now.heard reply.now.out.outs result wire.new heard.new (L.told link.new) }
    ensures goes { Goes (end_in result) (L.standing link.old) (L.faults link.old) (L.told link.old) (L.standing link.new) (L.faults link.new) (L.told link.new) }
    ensures ends { IsSendEnd (end_in result) }
    ensures same_in { IsSameIn wire.old wire.new }
{
    match reply.heard {
        Heard::NotOpened(Refusal::NoKey { id: _ }) => {
            match say_unknown(alloc, wire, link, text) {
                Ok(()) => Ok(Came::Packet),
                Err(end) => Err(end),
            }
        }
        Heard::NotOpened(_) => Ok(Came::Packet),
        Heard::Judged { key, session } => {
            let name = SessionName { key, session };
            match heard.note(name) {
                Ok(is_first) => match say_framed(alloc, wire, link, heard, &reply.out, text) {
                    Ok(()) => Ok(came_of(is_first, name)),
                    Err(end) => Err(end),
                },
                Err(Memory) => Err(ConnEnd::Memory),
            }
        }
    }
}

// A packet came of a session of this name.
fn came_of(is_first: bool, name: SessionName) -> Came
    ensures { result ≡ came_by is_first name }
{
    if is_first {
        Came::First(name)
    } else {
        Came::Packet
    }
}

// The desk takes the next packet of the connection, where one is whole, and what it owes is sent.
#[tactic(auto, using(crate::proofs::Goings::goes_none, crate::proofs::Goings::goes_same, crate::proofs::Events::send_is_packet_end, crate::proofs::DeskCounts::desk_sends))]
fn hear<L: Link, K: Desk, V: Service>(
    alloc: Global,
    desk: &mut K,
    now: Moment,
    wire: &mut Wire<Framed>,
    link: &mut L,
    heard: &mut HeardSessions,
    text: &mut Octets,
) -> Result<Came, ConnEnd>
    ensures came { CameBy K.D.step V.step K.S.lock (K.keys desk.old)
        (λ (service : V). record { desk = K.StandsFor desk.old; behind = K.Behind desk.old; drawn = K.drawn desk.old; service = service; heard = heard.old; line = Line.Framed wire.old; told = L.told link.old })
        now wire.old wire.new result
        (λ (service : V). record { desk = K.StandsFor desk.new; behind = K.Behind desk.new; drawn = K.drawn desk.new; service = service; heard = heard.new; line = Line.Framed wire.new; told = L.told link.new }) }
    ensures goes { Goes (end_in result) (L.standing link.old) (L.faults link.old) (L.told link.old) (L.standing link.new) (L.faults link.new) (L.told link.new) }
    ensures ends { IsPacketEnd K.MayAnswer (end_in result) }
    ensures same_form { wire.new.form ≡ wire.old.form }
    ensures same_keys { K.keys desk.new ≡ K.keys desk.old }
    ensures same_binding { K.bound_to desk.new ≡ K.bound_to desk.old }
    ensures desk_counted { CountsDesk (end_in result) (K.fault_count desk.old) (K.fault_count desk.new) }
{
    opens_what_it_sealed::<K::S>();
    one_refusal();
    match take_next(alloc, desk, now, wire) {
        Ok(Some(reply)) => answer(alloc, &reply, wire, link, heard, text),
        Ok(None) => Ok(Came::Nothing),
        Err(end) => Err(end),
    }
}

// The next packet of the connection comes, and what it owes is sent; directly after a session's first packet comes its
// attach. It says whether there was a packet.
#[tactic(auto, using(crate::proofs::Goings::event_is_packet_end, crate::proofs::Goings::goes_both, crate::proofs::DeskCounts::desk_after))]
fn take_packet<L: Link, K: Desk, V: Service>(
    alloc: Global,
    desk: &mut K,
    now: Moment,
    wire: &mut Wire<Framed>,
    link: &mut L,
    heard: &mut HeardSessions,
    text: &mut Octets,
) -> Result<bool, ConnEnd>
    ensures took { TookBy K.D.step V.step K.S.lock (K.keys desk.old)
        (λ (service : V). record { desk = K.StandsFor desk.old; behind = K.Behind desk.old; drawn = K.drawn desk.old; service = service; heard = heard.old; line = Line.Framed wire.old; told = L.told link.old })
        now wire.old wire.new result
        (λ (service : V). record { desk = K.StandsFor desk.new; behind = K.Behind desk.new; drawn = K.drawn desk.new; service = service; heard = heard.new; line = Line.Framed wire.new; told = L.told link.new }) }
    ensures goes { Goes (end_in result) (L.standing link.old) (L.faults link.old) (L.told link.old) (L.standing link.new) (L.faults link.new) (L.told link.new) }
    ensures ends { IsPacketEnd K.MayAnswer (end_in result) }
    ensures same_form { wire.new.form ≡ wire.old.form }
    ensures same_keys { K.keys desk.new ≡ K.keys desk.old }
    ensures same_binding { K.bound_to desk.new ≡ K.bound_to desk.old }
    ensures desk_counted { CountsDesk (end_in result) (K.fault_count desk.old) (K.fault_count desk.new) }
{
    match hear::<L, K, V>(alloc, desk, now, wire, link, heard, text) {
        Ok(Came::Nothing) => Ok(false),
        Ok(Came::Packet) => Ok(true),
        Ok(Came::First(name)) => {
            match attach::<L, K, V>(alloc, desk, name, now, wire, link, heard, text) {
                Ok(()) => Ok(true),
                Err(end) => Err(end),
            }
        }
        Err(end) => Err(end),
    }
}

// One packet more was answered.
fn count_down(left: &mut Option<u64>) -> Result<(), ConnEnd>
    requires some { left.old ≢ Some 0 }
    ensures counted { left.new ≡ counted_down left.old }
    ensures stops { result ≡ stop_by left.new }
{
    match *left {
        Some(count) => {
            *left = Some(count - 1);
            if count == 1 {
                return Err(ConnEnd::Stopped);
            }
            Ok(())
        }
        None => Ok(()),
    }
}

/// More packets than one connection has bytes: pieces of 65,536 bytes, 1,000,000 of them.
const PACKETS_MAX: u64 = 65_536_000_001;

/// The packets that are whole come, one after the other.
///
/// # Errors
///
/// Why the connection ends.
#[tactic(auto, using(crate::proofs::Goings::goes_both, crate::proofs::Goings::one_fewer, crate::proofs::Goings::still_left, crate::proofs::Goings::packet_is_packets_end, crate::proofs::DeskCounts::desk_after, crate::proofs::DeskCounts::desk_stops))]
pub(crate) fn take_packets<L: Link, K: Desk, V: Service>(
    alloc: Global,
    desk: &mut K,
    now: Moment,
    wire: &mut Wire<Framed>,
    link: &mut L,
    heard: &mut HeardSessions,
    text: &mut Octets,
    left: &mut Option<u64>,
) -> Result<(), ConnEnd>
    requires some { left.old ≢ Some 0 }
    ensures took { TookAll K.D.step V.step K.S.lock (K.keys desk.old)
        (λ (service : V). record { desk = K.StandsFor desk.old; behind = K.Behind desk.old; drawn = K.drawn desk.old; service = service; heard = heard.old; line = Line.Framed wire.old; told = L.told link.old })
        now wire.old wire.new left.old left.new (end_in result)
        (λ (service : V). record { desk = K.StandsFor desk.new; behind = K.Behind desk.new; drawn = K.drawn desk.new; service = service; heard = heard.new; line = Line.Framed wire.new; told = L.told link.new }) }
    ensures goes { Goes (end_in result) (L.standing link.old) (L.faults link.old) (L.told link.old) (L.standing link.new) (L.faults link.new) (L.told link.new) }
    ensures ends { IsPacketsEnd K.MayAnswer (end_in result) }
    ensures left { Answered (end_in result) left.old left.new }
    ensures same_form { wire.new.form ≡ wire.old.form }
    ensures same_keys { K.keys desk.new ≡ K.keys desk.old }
    ensures same_binding { K.bound_to desk.new ≡ K.bound_to desk.old }
    ensures desk_counted { CountsDesk (end_in result) (K.fault_count desk.old) (K.fault_count desk.new) }
{
    'packets: for _count in 0..PACKETS_MAX {
        match take_packet::<L, K, V>(alloc, desk, now, wire, link, heard, text) {
            Ok(true) => {}
            Ok(false) => return Ok(()),
            Err(end) => return Err(end),
        }
        if let Err(end) = count_down(left) {
            return Err(end);
        }
    }
    Ok(())
}
