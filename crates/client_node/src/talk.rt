//! A connection that is open.

ghost use Rattle.std.specs.Prelude.{◌≡◌, ◌≢◌, IsSome, OnOk, false, length, true};
ghost use Rattle.transport.specs.Starts.{Opening};
ghost use Rattle.transport.specs.declared.form.Form.TheVariants as forms;
ghost use Rattle.client_node.specs.Course.{Course, Reading, is_decided};
ghost use Rattle.client_node.specs.Ends.{CountsLink, CountsTurn};
ghost use Rattle.client_node.specs.Runs.{Conversed, HasOpened, Talked, TookTurn};
ghost use Rattle.client_node.specs.Standing.{DecidedBy, DecidedIn, HasKeys, IsReading, KeepsKeys, StandsAs, count_of};
ghost use Rattle.client_node.specs.Talks.{began, piece_bytes, rules_of};
ghost use Rattle.client_node.specs.Writes.{seen};

use crate::calls::Cursor;
use crate::end::End;
use crate::flushing::flush_all;
use crate::hearing::take_piece;
use crate::holding::{attach, renew};
use crate::plan::Plan;
use crate::sending::send;
use client_core::Holder;
use draws::Draw;
use envelope::Seal;
use msg_ids::Moment;
use mt_edge::{Clock, Got, Link};
use octets::{Memory, Octets};
use std::alloc::Global;
use transport::{Framed, Wire};

/// The most pieces that one connection gives.
const TURNS_MAX: u32 = 1_000_000;

/// Reads a piece, which the client hears. It answers the moment after the read.
///
/// # Errors
///
/// Why the connection ends.
#[tactic(auto, using(crate::proofs::Talking::same_turn, crate::proofs::Talking::read_failed))]
fn take_turn<L: Link, S: Seal, C: Clock, D: Draw>(
    client: Holder,
    alloc: Global,
    wire: &mut Wire<Framed>,
    link: &mut L,
    into: &mut [u8],
    cursor: &mut Cursor,
    seal: &S,
    clock: &mut C,
    draw: &mut D,
) -> (Holder, Result<Moment, End>)
    requires room { length into.old ≡ piece_bytes }
    ensures keys { KeepsKeys client result.0 }
    ensures count { count_of result.0 ≡ count_of client }
    ensures decided { DecidedBy result.1 result.0 }
    ensures goes_on { IsSome (L.told link.old) → OnOk result.1 (IsSome (L.told link.new)) }
    ensures first_fault { IsSome (L.told link.old) → L.faults link.old ≡ 0 → IsSome (L.told link.new) }
    ensures counted { CountsTurn result.1 (L.faults link.old) (L.faults link.new) }
    ensures same_standing { L.standing link.new ≡ L.standing link.old }
    ensures turn { TookTurn D.step S.lock (S.keys seal.now) client draw.old wire.old (seen (L.told link.old) (L.faults link.old)) (C.given clock.old) result.1 result.0 draw.new wire.new (seen (L.told link.new) (L.faults link.new)) (C.given clock.new) }
    ensures same_out { (wire.new.form ≡ wire.old.form) × (wire.new.writing ≡ wire.old.writing) × (wire.new.number ≡ wire.old.number) }
{
    match link.read(into) {
        Got::Bytes(count) => {
            let now = clock.now();
            let (client, taken) = take_piece(
                client,
                alloc,
                now,
                wire,
                &into[..count],
                cursor,
                seal,
                draw,
            );
            match taken {
                Ok(()) => (client, Ok(now)),
                Err(end) => (client, Err(end)),
            }
        }
        Got::End | Got::Failed => (client, Err(End::Lost)),
    }
}

/// The turns of a connection: what is due is sent, and a piece is read, over and over.
#[tactic(auto, using(crate::proofs::Talking::flushed_counts, crate::proofs::Talking::counts_after))]
fn take_turns<L: Link, S: Seal, C: Clock, D: Draw>(
    client: Holder,
    alloc: Global,
    wire: &mut Wire<Framed>,
    link: &mut L,
    frame: &mut Octets,
    into: &mut [u8],
    first: Moment,
    cursor: &mut Cursor,
    seal: &S,
    clock: &mut C,
    draw: &mut D,
) -> (Holder, End)
    requires keys { HasKeys (S.keys seal.now) client }
    requires room { length into.old ≡ piece_bytes }
    ensures keys { HasKeys (S.keys seal.now) result.0 }
    ensures count { count_of result.0 ≡ count_of client }
    ensures decided { DecidedIn result.1 result.0 }
    ensures first_fault { IsSome (L.told link.old) → L.faults link.old ≡ 0 → IsSome (L.told link.new) }
    ensures counted { CountsLink result.1 (L.faults link.old) (L.faults link.new) }
    ensures same_standing { L.standing link.new ≡ L.standing link.old }
    ensures talked { (course : Course D) (reading : Reading) (opening : Opening) → IsReading S.lock (S.keys seal.now) reading
        → StandsAs client draw.old course → is_decided course.client ≡ false → HasOpened wire.old opening
        → Talked (rules_of D.step S.lock (S.keys seal.now) reading) opening (began first course) (seen (L.told link.old) (L.faults link.old)) (C.given clock.old) result.1 result.0 draw.new (seen (L.told link.new) (L.faults link.new)) (C.given clock.new) }
{
    let mut client = client;
    let mut now = first;
    'turns: for _count in 0..TURNS_MAX {
        if let Err(end) = flush_all(
            &mut client,
            alloc,
            now,
            wire,
            link,
            frame,
            cursor,
            seal,
            draw,
        ) {
            return (client, end);
        }
        let (next, turn) = take_turn(client, alloc, wire, link, into, cursor, seal, clock, draw);
        client = next;
        match turn {
            Ok(moment) => now = moment,
            Err(end) => return (client, end),
        }
    }
    match flush_all(
        &mut client,
        alloc,
        now,
        wire,
        link,
        frame,
        cursor,
        seal,
        draw,
    ) {
        Ok(()) => (client, End::TurnsSpent),
        Err(end) => (client, end),
    }
}

/// Everything that is done over an open connection: the start of its form, an attach, and its turns. It stays open.
#[tactic(auto, using(crate::proofs::Talking::sent_counts, crate::proofs::Talking::sent_decided, crate::proofs::Talking::same_link, crate::proofs::Talking::counts_after))]
pub(crate) fn talk<L: Link, S: Seal, C: Clock, D: Draw>(
    client: Holder,
    alloc: Global,
    plan: &Plan,
    link: &mut L,
    into: &mut [u8],
    cursor: &mut Cursor,
    seal: &S,
    clock: &mut C,
    draw: &mut D,
) -> (Holder, End)
    requires full_is_plain { plan.now.obfuscate ≡ true → plan.now.form ≢ forms.Full }
    requires keys { HasKeys (S.keys seal.now) client }
    requires room { length into.old ≡ piece_bytes }
    requires open { (L.standing link.old).closed ≡ false }
    ensures keys { HasKeys (S.keys seal.now) result.0 }
    ensures count { count_of result.0 ≡ count_of client }
    ensures decided { DecidedIn result.1 result.0 }
    ensures first_fault { IsSome (L.told link.old) → L.faults link.old ≡ 0 → IsSome (L.told link.new) }
    ensures counted { CountsLink result.1 (L.faults link.old) (L.faults link.new) }
    ensures same_standing { L.standing link.new ≡ L.standing link.old }
    ensures conversed { (course : Course D) (reading : Reading) → IsReading S.lock (S.keys seal.now) reading → StandsAs client draw.old course → is_decided course.client ≡ false
        → Conversed (rules_of D.step S.lock (S.keys seal.now) reading) plan.now course (seen (L.told link.old) (L.faults link.old)) (C.given clock.old) result.1 result.0 draw.new (seen (L.told link.new) (L.faults link.new)) (C.given clock.new) }
{
    let now = clock.now();
    let (mut wire, start) = match Wire::<Framed>::client(alloc, plan.form, plan.obfuscate, draw) {
        Ok(begun) => begun,
        Err(Memory) => return (client, End::Memory),
    };
    if let Err(end) = send(link, start.as_slice()) {
        return (client, end);
    }
    let mut client = client;
    attach(&mut client);
    let client = renew(client, cursor, draw);
    let mut frame = start;
    take_turns(
        client, alloc, &mut wire, link, &mut frame, into, now, cursor, seal, clock, draw,
    )
}
