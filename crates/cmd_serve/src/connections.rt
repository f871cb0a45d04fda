//! The connections of a run, one after the other.

ghost use Rattle.std.specs.Prelude.{◌≡◌, ◌≢◌, IsSome, Some};
ghost use Rattle.server_core.specs.declared.desk.DeskFault.{DeskFault};
ghost use Rattle.server_rules.specs.Server.{Server as Rules};
ghost use Rattle.server_node.specs.Trace.{IsOutside, Outside, rules_of};
ghost use Rattle.cmd_serve.specs.Connections.{Between, CountsEnding};
ghost use Rattle.cmd_serve.specs.Inner.{CountsDeskBy, IsServeFault, MayBeFull, ServedAll, StandsAt};
ghost use Rattle.cmd_serve.specs.declared.ending.Ending.TheVariants.{Full};

use crate::connection::serve_next;
use crate::ending::{Ending, ending_of};
use mt_edge::{Clock, Net};
use regs_service::Service;
use server_core::Desk;
use std::alloc::Global;

/// Serves so many connections, one after the other, and says how they ended.
pub(crate) fn serve_all<N: Net, K: Desk, V: Service, C: Clock>(
    alloc: Global,
    conns: u32,
    net: &mut N,
    desk: &mut K,
    service: &mut V,
    clock: &mut C,
    left: &mut Option<u64>,
) -> Ending
    requires some { left.old ≢ Some 0 }
    requires faults { (fault : DeskFault) (one : K) (server : Rules) → K.MayAnswer fault → K.Behind one fault server → IsServeFault fault }
    ensures served { (outside : Outside) (first : Between K.D V) → IsOutside K.S.lock (K.keys desk.old) outside
        → StandsAt (K.StandsFor desk.old) (K.drawn desk.old) service.old (C.given clock.old) left.old first
        → ServedAll (rules_of K.D.step V.step outside) first conns (N.calls net.old) result
        (record { desk = K.StandsFor desk.new; behind = K.Behind desk.new; drawn = K.drawn desk.new; service = service.new; given = C.given clock.new; left = left.new; calls = N.calls net.new }) }
    ensures counted { CountsEnding result (N.faults net.old) (N.faults net.new) }
    ensures desk_counted { (outside : Outside) (first : Between K.D V) → IsOutside K.S.lock (K.keys desk.old) outside
        → StandsAt (K.StandsFor desk.old) (K.drawn desk.old) service.old (C.given clock.old) left.old first
        → CountsDeskBy result (K.fault_count desk.old) (K.fault_count desk.new) }
    ensures full { result ≡ Full → MayBeFull K.MayAnswer }
    ensures same_keys { K.keys desk.new ≡ K.keys desk.old }
    ensures first_fault { IsSome (N.calls net.old) → N.faults net.old ≡ 0 → IsSome (N.calls net.new) }
    ensures same_binding { K.bound_to desk.new ≡ K.bound_to desk.old }
{
    'connections: for _served in 0..conns {
        let end = serve_next(alloc, net, desk, service, clock, left);
        if let Some(ending) = ending_of(end) {
            return ending;
        }
    }
    Ending::Served
}
