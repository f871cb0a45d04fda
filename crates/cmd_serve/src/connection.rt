//! One connection of a run.

ghost use Rattle.std.specs.Prelude.{◌≡◌, ◌≢◌, IsSome, Some};
ghost use Rattle.server_node.specs.Trace.{IsOutside, Outside, rules_of};
ghost use Rattle.cmd_serve.specs.Connections.{Between};
ghost use Rattle.cmd_serve.specs.Inner.{CountsTaken, CountsTaking, IsDeskEnd, LeavesCount, StandsAt, Took};

use mt_edge::{Clock, Link, Linked, Net};
use regs_service::Service;
use server_core::Desk;
use server_node::{Conn, ConnEnd, serve_one};
use std::alloc::Global;

/// Takes the next connection, serves it, closes its link and gives it back; how it ended, or
/// `None` where no connection could be taken.
pub(crate) fn serve_next<N: Net, K: Desk, V: Service, C: Clock>(
    alloc: Global,
    net: &mut N,
    desk: &mut K,
    service: &mut V,
    clock: &mut C,
    left: &mut Option<u64>,
) -> Option<ConnEnd>
    requires some { left.old ≢ Some 0 }
    ensures took { (outside : Outside) (before : Between K.D V) → IsOutside K.S.lock (K.keys desk.old) outside
        → StandsAt (K.StandsFor desk.old) (K.drawn desk.old) service.old (C.given clock.old) left.old before
        → Took (rules_of K.D.step V.step outside) before (N.calls net.old) result
        (record { desk = K.StandsFor desk.new; behind = K.Behind desk.new; drawn = K.drawn desk.new; service = service.new; given = C.given clock.new; left = left.new; calls = N.calls net.new }) }
    ensures counted { CountsTaking result (N.faults net.old) (N.faults net.new) }
    ensures first_fault { IsSome (N.calls net.old) → N.faults net.old ≡ 0 → IsSome (N.calls net.new) }
    ensures left { LeavesCount result left.old left.new }
    ensures journal { IsDeskEnd K.MayAnswer result }
    ensures desk_counted { CountsTaken result (K.fault_count desk.old) (K.fault_count desk.new) }
    ensures same_keys { K.keys desk.new ≡ K.keys desk.old }
    ensures same_binding { K.bound_to desk.new ≡ K.bound_to desk.old }
{
    match net.accept() {
        Linked::Link(link) => {
            let (link, end) = serve_one(alloc, Conn::new(link), desk, service, clock, left);
            let mut link = link;
            link.close();
            net.done(link);
            Some(end)
        }
        Linked::Failed => None,
    }
}
