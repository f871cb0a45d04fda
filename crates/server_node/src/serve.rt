//! A server's connection.

ghost use Rattle.std.specs.Prelude.{◌≡◌, ◌≢◌, IfSome, IsSome, IsSomeAnd, length};
ghost use Rattle.server_core.specs.declared.desk.DeskFault.{DeskFault};
ghost use Rattle.server_core.specs.declared.desk.DeskFault.TheVariants as faults;
ghost use Rattle.server_node.specs.Coming.{TookWhole, line_in};
ghost use Rattle.server_node.specs.Connection.{ServerTrace, Sight};
ghost use Rattle.server_node.specs.Doing.{IsPacketsEnd, IsPieceEnd, IsTurnEnd};
ghost use Rattle.server_node.specs.Record.{Answered, ReadTo, Turned};
ghost use Rattle.server_node.specs.Served.{Begins};
ghost use Rattle.server_node.specs.Trace.{IsOutside, Outside, Talk, rules_of};
ghost use Rattle.server_node.specs.Turns.{TookPiece, TookTurn};
ghost use Rattle.server_node.specs.Writes.{CountsBy, CountsDesk, Goes, end_in};

use crate::conn::{Conn, ConnEnd};
use crate::heard::HeardSessions;
use crate::line::{Line, feed};
use crate::taking::take_packets;
use crate::working::work_all;
use msg_ids::Moment;
use mt_edge::{Clock, Got, Link};
use octets::Octets;
use regs_service::Service;
use server_core::Desk;
use std::alloc::Global;
use transport::Wire;

/// The bytes that each read is offered room for.
const PIECE_BYTES: usize = 65_536;

/// The most pieces that one connection gives.
const TURNS_MAX: u32 = 1_000_000;

// The packets that are whole come, where the form of the connection is known.
#[tactic(auto, using(crate::proofs::Goings::goes_none, crate::proofs::Goings::none_answered))]
fn take_whole<L: Link, K: Desk, V: Service>(
    alloc: Global,
    line: &mut Line,
    now: Moment,
    desk: &mut K,
    link: &mut L,
    heard: &mut HeardSessions,
    text: &mut Octets,
    left: &mut Option<u64>,
) -> Result<(), ConnEnd>
    requires some { left.old ≢ Some 0 }
    ensures took { TookWhole K.D.step V.step K.S.lock (K.keys desk.old)
        (λ (service : V). record { desk = K.StandsFor desk.old; behind = K.Behind desk.old; drawn = K.drawn desk.old; service = service; heard = heard.old; line = line.old; told = L.told link.old })
        now line.old line.new left.old left.new (end_in result)
        (λ (service : V). record { desk = K.StandsFor desk.new; behind = K.Behind desk.new; drawn = K.drawn desk.new; service = service; heard = heard.new; line = line.new; told = L.told link.new }) }
    ensures goes { Goes (end_in result) (L.standing link.old) (L.faults link.old) (L.told link.old) (L.standing link.new) (L.faults link.new) (L.told link.new) }
    ensures ends { IsPacketsEnd K.MayAnswer (end_in result) }
    ensures left { Answered (end_in result) left.old left.new }
    ensures same_keys { K.keys desk.new ≡ K.keys desk.old }
    ensures same_binding { K.bound_to desk.new ≡ K.bound_to desk.old }
    ensures desk_counted { CountsDesk (end_in result) (K.fault_count desk.old) (K.fault_count desk.new) }
{
    match line {
        Line::Raw(_) => Ok(()),
        Line::Framed(wire) => {
            take_packets::<L, K, V>(alloc, desk, now, wire, link, heard, text, left)
        }
    }
}

// All that a piece brings.
#[tactic(auto, using(crate::proofs::Goings::goes_both, crate::proofs::Goings::feed_goes, crate::proofs::Goings::feed_is_piece_end, crate::proofs::Goings::packets_is_piece_end, crate::proofs::Goings::feed_answered, crate::proofs::Goings::event_is_piece_end, crate::proofs::Goings::answered_then, crate::proofs::DeskCounts::desk_after, crate::proofs::DeskCounts::desk_feeds))]
fn take_piece<L: Link, K: Desk, V: Service>(
    alloc: Global,
    line: Line,
    piece: &[u8],
    now: Moment,
    desk: &mut K,
    service: &mut V,
    link: &mut L,
    heard: &mut HeardSessions,
    text: &mut Octets,
    left: &mut Option<u64>,
) -> Result<Line, ConnEnd>
    requires some { left.old ≢ Some 0 }
    ensures took { TookPiece K.D.step V.step K.S.lock (K.keys desk.old) piece.now now
        (record { desk = K.StandsFor desk.old; behind = K.Behind desk.old; drawn = K.drawn desk.old; service = service.old; heard = heard.old; line = line; told = L.told link.old })
        (record { desk = K.StandsFor desk.new; behind = K.Behind desk.new; drawn = K.drawn desk.new; service = service.new; heard = heard.new; line = line_in result; told = L.told link.new })
        left.old left.new (end_in result) }
    ensures goes { Goes (end_in result) (L.standing link.old) (L.faults link.old) (L.told link.old) (L.standing link.new) (L.faults link.new) (L.told link.new) }
    ensures ends { IsPieceEnd K.MayAnswer (end_in result) }
    ensures left { Answered (end_in result) left.old left.new }
    ensures same_keys { K.keys desk.new ≡ K.keys desk.old }
    ensures same_binding { K.bound_to desk.new ≡ K.bound_to desk.old }
    ensures desk_counted { CountsDesk (end_in result) (K.fault_count desk.old) (K.fault_count desk.new) }
{
    let mut line = match feed(line, alloc, piece) {
        Ok(line) => line,
        Err(end) => return Err(end),
    };
    if let Err(end) = take_whole::<L, K, V>(alloc, &mut line, now, desk, link, heard, text, left) {
        return Err(end);
    }
    match work_all(alloc, desk, service, now, &mut line, link, heard, text) {
        Ok(()) => Ok(line),
        Err(end) => Err(end),
    }
}

// One piece is read, and all that it brings is done.
#[tactic(auto, using(crate::proofs::Turning::turned_piece, crate::proofs::Turning::turned_end, crate::proofs::Turning::turned_failed, crate::proofs::Turning::piece_is_turn_end, crate::proofs::Turning::counted_after))]
fn take_turn<L: Link, K: Desk, V: Service, C: Clock>(
    alloc: Global,
    line: Line,
    into: &mut [u8],
    desk: &mut K,
    service: &mut V,
    clock: &mut C,
    link: &mut L,
    heard: &mut HeardSessions,
    text: &mut Octets,
    left: &mut Option<u64>,
) -> Result<Line, ConnEnd>
    requires room { length into.old ≡ 65536 }
    requires some { left.old ≢ Some 0 }
    ensures took { TookTurn K.D.step V.step K.S.lock (K.keys desk.old)
        (record { desk = K.StandsFor desk.old; behind = K.Behind desk.old; drawn = K.drawn desk.old; service = service.old; heard = heard.old; line = line; told = L.told link.old })
        (record { desk = K.StandsFor desk.new; behind = K.Behind desk.new; drawn = K.drawn desk.new; service = service.new; heard = heard.new; line = line_in result; told = L.told link.new })
        (record { told = L.told link.old; given = C.given clock.old; left = left.old }) (record { told = L.told link.new; given = C.given clock.new; left = left.new }) (end_in result) }
    ensures turned { IfSome (L.told link.new) (λ after. IsSomeAnd (L.told link.old) (λ before. Turned (end_in result) (length into.new) before after)) }
    ensures same_standing { L.standing link.new ≡ L.standing link.old }
    ensures counted { CountsBy (end_in result) (L.faults link.old) (L.faults link.new) }
    ensures first_fault { IsSome (L.told link.old) → L.faults link.old ≡ 0 → IsSome (L.told link.new) }
    ensures ends { IsTurnEnd K.MayAnswer (end_in result) }
    ensures left { Answered (end_in result) left.old left.new }
    ensures same_keys { K.keys desk.new ≡ K.keys desk.old }
    ensures same_binding { K.bound_to desk.new ≡ K.bound_to desk.old }
    ensures desk_counted { CountsDesk (end_in result) (K.fault_count desk.old) (K.fault_count desk.new) }
{
    match link.read(into) {
        Got::Bytes(count) => {
            let now = clock.now();
            let piece = &into[..count];
            take_piece(
                alloc, line, piece, now, desk, service, link, heard, text, left,
            )
        }
        Got::End => Err(ConnEnd::Ended),
        Got::Failed => Err(ConnEnd::LinkFault),
    }
}

// The pieces of a connection, one after the other.
#[tactic(auto, using(crate::proofs::Turning::none_read, crate::proofs::Turning::one_more_read, crate::proofs::Turning::read_to_end, crate::proofs::Turning::all_read, crate::proofs::Turning::journal_in, crate::proofs::Goings::fewer_both, crate::proofs::DeskCounts::desk_after))]
fn take_turns<L: Link, K: Desk, V: Service, C: Clock>(
    alloc: Global,
    into: &mut [u8],
    desk: &mut K,
    service: &mut V,
    clock: &mut C,
    link: &mut L,
    left: &mut Option<u64>,
) -> ConnEnd
    requires room { length into.old ≡ 65536 }
    requires some { left.old ≢ Some 0 }
    ensures trace { (outside : Outside) (talk : Talk K.D V) → IsOutside K.S.lock (K.keys desk.old) outside → Begins (K.StandsFor desk.old) (K.drawn desk.old) service.old talk
        → ServerTrace (rules_of K.D.step V.step outside) talk (record { told = L.told link.old; given = C.given clock.old; left = left.old }) result
        (K.StandsFor desk.new) (K.Behind desk.new) (K.drawn desk.new) service.new (record { told = L.told link.new; given = C.given clock.new; left = left.new }) }
    ensures record { IfSome (L.told link.new) (λ after. IsSomeAnd (L.told link.old) (λ before. ReadTo result before after)) }
    ensures same_standing { L.standing link.new ≡ L.standing link.old }
    ensures counted { CountsBy (Some result) (L.faults link.old) (L.faults link.new) }
    ensures first_fault { IsSome (L.told link.old) → L.faults link.old ≡ 0 → IsSome (L.told link.new) }
    ensures left { Answered (Some result) left.old left.new }
    ensures journal { (fault : DeskFault) → result ≡ ConnEnd.Journal fault → K.MayAnswer fault × (fault ≢ faults.Memory) }
    ensures same_keys { K.keys desk.new ≡ K.keys desk.old }
    ensures same_binding { K.bound_to desk.new ≡ K.bound_to desk.old }
    ensures desk_counted { CountsDesk (Some result) (K.fault_count desk.old) (K.fault_count desk.new) }
{
    let mut heard = HeardSessions::new(alloc);
    let mut text = Octets::new(alloc);
    let mut line = Line::Raw(Wire::server());
    'turns: for _count in 0..TURNS_MAX {
        match take_turn(
            alloc, line, into, desk, service, clock, link, &mut heard, &mut text, left,
        ) {
            Ok(next) => line = next,
            Err(end) => return end,
        }
    }
    ConnEnd::TurnsSpent
}

/// Serves one connection: hands its packets to a desk and writes what comes of them, until it ends. What it reads, does and
/// writes is the trace of a server (`specs/Connection.antt`), up to the end and its cause. It gives the link back as open
/// as it was. `left` counts the packets that are still to be answered, where they are counted; it isn't 0
/// at the start.
pub fn serve_one<L: Link, K: Desk, V: Service, C: Clock>(
    alloc: Global,
    conn: Conn<L>,
    desk: &mut K,
    service: &mut V,
    clock: &mut C,
    left: &mut Option<u64>,
) -> (L, ConnEnd)
    requires some { left.old ≢ Some 0 }
    // What it did is the trace of a server: its turns, one a piece that was read, and how it closed behind them. By these the
    // server, the draw and the service, the bytes written, the reads, the moments and the count are what they are.
    ensures trace { (outside : Outside) (talk : Talk K.D V) → IsOutside K.S.lock (K.keys desk.old) outside → Begins (K.StandsFor desk.old) (K.drawn desk.old) service.old talk
        → ServerTrace (rules_of K.D.step V.step outside) talk (record { told = L.told conn; given = C.given clock.old; left = left.old }) result.1
        (K.StandsFor desk.new) (K.Behind desk.new) (K.drawn desk.new) service.new (record { told = L.told result.0; given = C.given clock.new; left = left.new }) }
    // What was read: pieces, each into 65,536 bytes of room, and the read that ended it, if one did.
    ensures record { IfSome (L.told result.0) (λ after. IsSomeAnd (L.told conn) (λ before. ReadTo result.1 before after)) }
    // The link is in its place, and the call doesn't close it.
    ensures same_standing { L.standing result.0 ≡ L.standing conn }
    // The count of the link's faults is one more, or still its last value, exactly where it ended by that; else it is the same.
    ensures counted { CountsBy (Some result.1) (L.faults conn) (L.faults result.0) }
    ensures first_fault { IsSome (L.told conn) → L.faults conn ≡ 0 → IsSome (L.told result.0) }
    // None is left exactly where it ended by that.
    ensures left { Answered (Some result.1) left.old left.new }
    ensures journal { (fault : DeskFault) → result.1 ≡ ConnEnd.Journal fault → K.MayAnswer fault × (fault ≢ faults.Memory) }
    ensures same_keys { K.keys desk.new ≡ K.keys desk.old }
    ensures same_binding { K.bound_to desk.new ≡ K.bound_to desk.old }
    // The count of the faults of what the desk keeps its events on rose where it ended by one, and else it is the same.
    ensures desk_counted { CountsDesk (Some result.1) (K.fault_count desk.old) (K.fault_count desk.new) }
{
    let Conn { link } = conn;
    let mut link = link;
    match vec![in alloc; 0u8; PIECE_BYTES] {
        Ok(into) => {
            let mut into = into;
            let end = take_turns(alloc, &mut into, desk, service, clock, &mut link, left);
            (link, end)
        }
        Err(_) => (link, ConnEnd::Memory),
    }
}
