//! One connection of a batch.

ghost use Rattle.std.specs.Prelude.{◌≡◌, ◌≢◌, ◌<◌, ◌≤◌, ◌+◌, ◌⊎◌, IfSome, IsSome, IsSomeAnd, false, length, true};
ghost use Rattle.mt_edge.specs.Faults.{one_more};
ghost use Rattle.transport.specs.declared.form.Form.TheVariants as forms;
ghost use Rattle.client_node.specs.Counts.{Counted};
ghost use Rattle.client_node.specs.Course.{Course, Reading, is_decided};
ghost use Rattle.client_node.specs.Ends.{Connected};
ghost use Rattle.client_node.specs.Runs.{Tried};
ghost use Rattle.client_node.specs.Standing.{DecidedIn, HasKeys, IsReading, StandsAs, count_of};
ghost use Rattle.client_node.specs.Talks.{piece_bytes, rules_of};

use crate::calls::Cursor;
use crate::end::End;
use crate::plan::Plan;
use crate::talk::talk;
use client_core::Holder;
use draws::Draw;
use envelope::Seal;
use mt_edge::{Clock, Link, Linked, Net};
use std::alloc::Global;

/// Connects, talks over the connection, closes it and gives it back. An attempt that fails is a lost connection.
#[tactic(auto, using(crate::proofs::Connecting::gave_back, crate::proofs::Connecting::attempt_failed, crate::proofs::Counting::failed_counted, crate::proofs::Talking::counts_after))]
pub(crate) fn connect<N: Net, S: Seal, C: Clock, D: Draw>(
    client: Holder,
    alloc: Global,
    plan: &Plan,
    net: &mut N,
    into: &mut [u8],
    cursor: &mut Cursor,
    seal: &S,
    clock: &mut C,
    draw: &mut D,
) -> (Holder, End)
    requires full_is_plain { plan.now.obfuscate ≡ true → plan.now.form ≢ forms.Full }
    requires keys { HasKeys (S.keys seal.now) client }
    requires room { length into.old ≡ piece_bytes }
    ensures keys { HasKeys (S.keys seal.now) result.0 }
    ensures count { count_of result.0 ≡ count_of client }
    ensures decided { DecidedIn result.1 result.0 }
    ensures connected { IfSome (N.calls net.new) (λ after. IsSomeAnd (N.calls net.old) (λ before. Connected plan.now.port result.1 before after)) }
    ensures first_fault { IsSome (N.calls net.old) → N.faults net.old ≡ 0 → IsSome (N.calls net.new) }
    ensures still_tells { IsSome (N.calls net.old) → 0 < N.room net.old → IsSome (N.calls net.new) }
    ensures room { N.room net.old ≤ N.room net.new + 1 }
    ensures faults { IfSome (N.calls net.new) (λ after. IsSomeAnd (N.calls net.old) (λ before. Counted before after (N.faults net.old) (N.faults net.new))) }
    ensures counted { ((N.faults net.new ≡ N.faults net.old) × (IsSome (N.calls net.old) → IsSome (N.calls net.new))) ⊎ (N.faults net.new ≡ one_more (N.faults net.old)) }
    ensures tried { (course : Course D) (reading : Reading) → IsReading S.lock (S.keys seal.now) reading → StandsAs client draw.old course → is_decided course.client ≡ false
        → Tried (rules_of D.step S.lock (S.keys seal.now) reading) plan.now course (N.calls net.old) (C.given clock.old) result.1 result.0 draw.new (N.calls net.new) (C.given clock.new) }
{
    match net.connect(plan.port) {
        Linked::Link(link) => {
            let mut link = link;
            let (client, end) = talk(
                client, alloc, plan, &mut link, into, cursor, seal, clock, draw,
            );
            link.close();
            net.done(link);
            (client, end)
        }
        Linked::Failed => (client, End::Lost),
    }
}
