//! A batch of calls.

ghost use Rattle.std.specs.Prelude.{◌≡◌, ◌≢◌, ◌<◌, ◌≤◌, IfSome, IsSome, IsSomeAnd, false, length, true};
ghost use Rattle.transport.specs.declared.form.Form.TheVariants as forms;
ghost use Rattle.client_rules.specs.Client.{Client};
ghost use Rattle.client_node.specs.Connects.{Connects, Uses};
ghost use Rattle.client_node.specs.Counts.{Counted};
ghost use Rattle.client_node.specs.Course.{Course, Reading, is_decided};
ghost use Rattle.client_node.specs.Standing.{AllDecided, HasKeys, IsReading, LeavesUndecided, StandsAs, StandsFor, count_of};
ghost use Rattle.client_node.specs.Talks.{piece_bytes, rules_of};
ghost use Rattle.client_node.specs.Trace.{ClientTrace};

use crate::calls::{Cursor, is_decided};
use crate::connection::connect;
use crate::end::{batch_of, is_lost};
use crate::plan::{Batch, Plan};
use client_core::Holder;
use draws::Draw;
use envelope::Seal;
use mt_edge::{Clock, Net};
use std::alloc::Global;

/// The bytes that each read is offered room for.
const PIECE_BYTES: usize = 65_536;

/// Connects again and again until the batch ended.
#[tactic(auto, using(crate::proofs::Connecting::none_lost, crate::proofs::Connecting::one_more_lost, crate::proofs::Connecting::ends_here, crate::proofs::Connecting::too_many_lost, crate::proofs::Connecting::decided_batch, crate::proofs::Connecting::still_tells))]
fn connect_all<N: Net, S: Seal, C: Clock, D: Draw>(
    client: Holder,
    alloc: Global,
    plan: &Plan,
    net: &mut N,
    into: &mut [u8],
    cursor: &mut Cursor,
    seal: &S,
    clock: &mut C,
    draw: &mut D,
) -> (Holder, Batch)
    requires full_is_plain { plan.now.obfuscate ≡ true → plan.now.form ≢ forms.Full }
    requires keys { HasKeys (S.keys seal.now) client }
    requires room { length into.old ≡ piece_bytes }
    ensures keys { HasKeys (S.keys seal.now) result.0 }
    ensures count { count_of result.0 ≡ count_of client }
    ensures decided { result.1 ≡ Batch.Decided → AllDecided result.0 }
    ensures connects { IfSome (N.calls net.new) (λ after. IsSomeAnd (N.calls net.old) (λ before. Connects plan.now result.1 before after)) }
    ensures goes_on { IsSome (N.calls net.old) → N.faults net.old ≡ 0 → N.faults net.new ≤ 1 → IsSome (N.calls net.new) }
    ensures still_tells { IsSome (N.calls net.old) → plan.now.retries < N.room net.old → IsSome (N.calls net.new) }
    ensures faults { IfSome (N.calls net.new) (λ after. IsSomeAnd (N.calls net.old) (λ before. Counted before after (N.faults net.old) (N.faults net.new))) }
    ensures trace { (course : Course D) (reading : Reading) → IsReading S.lock (S.keys seal.now) reading → StandsAs client draw.old course → is_decided course.client ≡ false
        → ClientTrace (rules_of D.step S.lock (S.keys seal.now) reading) plan.now course result.1 (N.calls net.old) (N.calls net.new) (C.given clock.old) (C.given clock.new) result.0 draw.new }
{
    let mut client = client;
    'lost: for _count in 0..plan.retries {
        let (next, end) = connect(client, alloc, plan, net, into, cursor, seal, clock, draw);
        client = next;
        if !is_lost(end) {
            return (client, batch_of(end));
        }
    }
    let (client, end) = connect(client, alloc, plan, net, into, cursor, seal, clock, draw);
    (client, batch_of(end))
}

/// Runs a client's calls over connections of a net, one after the other, and says how that ended. With no call to decide it
/// connects to nothing. Each connection is to the plan's port, and is given back before the next one and at the end. What it
/// sends, reads and hears over each is the trace of the client (`specs/Trace.antt`), up to the answer and its cause.
pub fn run_batch<N: Net, S: Seal, C: Clock, D: Draw>(
    alloc: Global,
    client: Holder,
    plan: &Plan,
    net: &mut N,
    seal: &S,
    clock: &mut C,
    draw: &mut D,
) -> (Holder, Batch)
    requires full_is_plain { plan.now.obfuscate ≡ true → plan.now.form ≢ forms.Full }
    requires keys { HasKeys (S.keys seal.now) client }
    ensures nothing_to_decide { (whole : Client) → StandsFor client whole → is_decided whole ≡ true
        → (result.0 ≡ client) × (result.1 ≡ Batch.Decided) × (net.new ≡ net.old) × (clock.new ≡ clock.old) × (draw.new ≡ draw.old) }
    ensures decided { result.1 ≡ Batch.Decided → AllDecided result.0 }
    ensures undecided { (course : Course D) (reading : Reading) → IsReading S.lock (S.keys seal.now) reading → StandsAs client draw.old course
        → LeavesUndecided result.1 result.0 }
    ensures uses { IfSome (N.calls net.new) (λ after. IsSomeAnd (N.calls net.old) (λ before. Uses plan.now result.1 before after)) }
    ensures goes_on { IsSome (N.calls net.old) → N.faults net.old ≡ 0 → N.faults net.new ≤ 1 → IsSome (N.calls net.new) }
    // Where it tells, it goes on telling while it can note each attempt, and its count rises by one for each that failed.
    ensures still_tells { IsSome (N.calls net.old) → plan.now.retries < N.room net.old → IsSome (N.calls net.new) }
    ensures faults { IfSome (N.calls net.new) (λ after. IsSomeAnd (N.calls net.old) (λ before. Counted before after (N.faults net.old) (N.faults net.new))) }
    ensures keys { HasKeys (S.keys seal.now) result.0 }
    ensures count { count_of result.0 ≡ count_of client }
    ensures trace { (course : Course D) (reading : Reading) → IsReading S.lock (S.keys seal.now) reading → StandsAs client draw.old course
        → ClientTrace (rules_of D.step S.lock (S.keys seal.now) reading) plan.now course result.1 (N.calls net.old) (N.calls net.new) (C.given clock.old) (C.given clock.new) result.0 draw.new }
{
    let mut cursor = Cursor::new();
    if is_decided(&client, &mut cursor) {
        return (client, Batch::Decided);
    }
    match vec![in alloc; 0u8; PIECE_BYTES] {
        Ok(into) => {
            let mut into = into;
            connect_all(
                client,
                alloc,
                plan,
                net,
                &mut into,
                &mut cursor,
                seal,
                clock,
                draw,
            )
        }
        Err(_) => (client, Batch::Memory),
    }
}
