//! What a client sends before the next piece is read.

ghost use Rattle.std.specs.Prelude.{◌≡◌, ◌+◌, ◌*◌, IfOk, IsSome, OnOk};
ghost use Rattle.client_rules.specs.Client.{Client};
ghost use Rattle.client_core.specs.Flushed.{setting_of};
ghost use Rattle.client_node.specs.Course.{is_decided};
ghost use Rattle.client_node.specs.Flow.{AllFlushes, CountsEnd, OneFlush, ended_by};
ghost use Rattle.client_node.specs.Standing.{DecidedBy, HasKeys, StandsFor, count_of};
ghost use Rattle.client_node.specs.Writes.{seen};

use crate::calls::{Cursor, is_decided};
use crate::end::End;
use crate::holding::flush;
use crate::sending::send_packet;
use client_core::{Flush, Holder};
use draws::Draw;
use envelope::Seal;
use envelope::laws::opens_what_it_sealed;
use law_client::bounds::flushes_leave_less;
use msg_ids::Moment;
use mt_edge::Link;
use octets::Octets;
use std::alloc::Global;
use transport::{Framed, Wire};

/// More flushes than find something due: each packet leaves less that waits, at most nine things beside three for each call.
fn most_flushes(calls: u32) -> u64
    ensures { result ≡ 10 + 3 * calls }
{
    10 + 3 * calls as u64
}

/// How a flush that gave a packet ends, by whether each call is decided now and what its write came to.
fn end_of(is_decided: bool, sent: Result<(), End>) -> Result<bool, End>
    ensures { result ≡ ended_by is_decided sent }
{
    match sent {
        Err(End::Memory) => Err(End::Memory),
        _ if is_decided => Err(End::Decided),
        Ok(()) => Ok(true),
        Err(end) => Err(end),
    }
}

/// Flushes once: whether a packet was sent, so that more may be due.
///
/// # Errors
///
/// Why the connection ends: by `Decided` and `Lost` once the packet is written, as far as writes don't fail.
#[tactic(auto, using(crate::proofs::Flowing::flow_packet, crate::proofs::Flowing::flush_nothing, crate::proofs::Flowing::flush_spent, crate::proofs::Flowing::flush_memory, crate::proofs::Flowing::ended_counts, crate::proofs::Flowing::ended_decided, crate::proofs::KindLemmas::all_decided, crate::proofs::Sendable::told_sendable))]
fn flush_once<L: Link, S: Seal, D: Draw>(
    client: &mut Holder,
    alloc: Global,
    now: Moment,
    wire: &mut Wire<Framed>,
    link: &mut L,
    frame: &mut Octets,
    cursor: &mut Cursor,
    seal: &S,
    draw: &mut D,
) -> Result<bool, End>
    requires keys { HasKeys (S.keys seal.now) client.old }
    ensures flow { OneFlush (setting_of D.step (S.keys seal.now)) S.lock (S.keys seal.now) now client.old draw.old wire.old (seen (L.told link.old) (L.faults link.old)) result client.new draw.new wire.new (seen (L.told link.new) (L.faults link.new)) }
    ensures keys { HasKeys (S.keys seal.now) client.new }
    ensures count { count_of client.new ≡ count_of client.old }
    ensures decided { DecidedBy result client.new }
    ensures goes_on { IsSome (L.told link.old) → OnOk result (IsSome (L.told link.new)) }
    ensures first_fault { IsSome (L.told link.old) → L.faults link.old ≡ 0 → IsSome (L.told link.new) }
    ensures counted { CountsEnd result (L.faults link.old) (L.faults link.new) }
    ensures same_standing { L.standing link.new ≡ L.standing link.old }
    ensures same_in { (wire.new.form ≡ wire.old.form) × (wire.new.held ≡ wire.old.held) × (wire.new.reading ≡ wire.old.reading) }
{
    opens_what_it_sealed::<S>();
    match flush(client, alloc, now, seal, draw) {
        Flush::Packet(packet) => {
            let is_decided = is_decided(client, cursor);
            end_of(
                is_decided,
                send_packet(alloc, wire, link, frame, packet.as_slice()),
            )
        }
        Flush::Nothing => {
            if is_decided(client, cursor) {
                Err(End::Decided)
            } else {
                Ok(false)
            }
        }
        Flush::Spent => Err(End::Spent),
        Flush::Memory => Err(End::Memory),
    }
}

/// Flushes until nothing is due.
///
/// # Errors
///
/// Why the connection ends.
#[tactic(auto, using(crate::proofs::AllFlowing::so_far_none, crate::proofs::AllFlowing::so_far_more, crate::proofs::AllFlowing::all_done, crate::proofs::AllFlowing::all_failed, crate::proofs::Flowing::counts_from))]
pub(crate) fn flush_all<L: Link, S: Seal, D: Draw>(
    client: &mut Holder,
    alloc: Global,
    now: Moment,
    wire: &mut Wire<Framed>,
    link: &mut L,
    frame: &mut Octets,
    cursor: &mut Cursor,
    seal: &S,
    draw: &mut D,
) -> Result<(), End>
    requires keys { HasKeys (S.keys seal.now) client.old }
    ensures flow { AllFlushes (setting_of D.step (S.keys seal.now)) S.lock (S.keys seal.now) now client.old draw.old wire.old (seen (L.told link.old) (L.faults link.old)) result client.new draw.new wire.new (seen (L.told link.new) (L.faults link.new)) }
    ensures keys { HasKeys (S.keys seal.now) client.new }
    ensures count { count_of client.new ≡ count_of client.old }
    ensures decided { DecidedBy result client.new }
    ensures goes_on { IsSome (L.told link.old) → OnOk result (IsSome (L.told link.new)) }
    ensures first_fault { IsSome (L.told link.old) → L.faults link.old ≡ 0 → IsSome (L.told link.new) }
    ensures counted { CountsEnd result (L.faults link.old) (L.faults link.new) }
    ensures same_standing { L.standing link.new ≡ L.standing link.old }
    ensures same_in { (wire.new.form ≡ wire.old.form) × (wire.new.held ≡ wire.old.held) × (wire.new.reading ≡ wire.old.reading) }
{
    flushes_leave_less::<D>();
    let most = most_flushes(client.calls());
    'flushes: for _count in 0..most {
        match flush_once(client, alloc, now, wire, link, frame, cursor, seal, draw) {
            Ok(true) => {}
            Ok(false) => return Ok(()),
            Err(end) => return Err(end),
        }
    }
    Ok(())
}
