//! What a server does once no whole packet is left.

ghost use Rattle.std.specs.Prelude.{◌≡◌, ◌<◌, ◌∷◌, []};
ghost use Rattle.server_node.specs.Doing.{Did, IsEventEnd, Worked};
ghost use Rattle.server_node.specs.Steps.{HearsAlike};
ghost use Rattle.server_node.specs.Trace.{Run, Tick};
ghost use Rattle.server_node.specs.Writes.{CountsDesk, Goes, end_in};

use crate::conn::ConnEnd;
use crate::heard::HeardSessions;
use crate::line::Line;
use crate::sending::say;
use crate::taking::end_of;
use envelope::laws::opens_what_it_sealed;
use msg_ids::Moment;
use mt_edge::Link;
use octets::Octets;
use regs_service::Service;
use server_core::Desk;
use server_core::order_laws::runs_leave_fewer_jobs;
use std::alloc::Global;

// A tick, and what it owes is sent.
#[tactic(auto, using(crate::proofs::Events::did_tick, crate::proofs::Events::did_fail, crate::proofs::Events::fault_is_end, crate::proofs::Events::send_is_end, crate::proofs::DeskCounts::desk_sends, crate::proofs::DeskCounts::desk_fails))]
fn tick<L: Link, K: Desk, V: Service>(
    alloc: Global,
    desk: &mut K,
    now: Moment,
    line: &mut Line,
    link: &mut L,
    heard: &HeardSessions,
    text: &mut Octets,
) -> Result<(), ConnEnd>
    ensures did { (service : V) → Did K.D.step V.step K.S.lock (K.keys desk.old)
        (record { desk = K.StandsFor desk.old; behind = K.Behind desk.old; drawn = K.drawn desk.old; service = service; heard = heard.now; line = line.old; told = L.told link.old })
        (λ rules talk. Tick now ∷ []) (end_in result)
        (record { desk = K.StandsFor desk.new; behind = K.Behind desk.new; drawn = K.drawn desk.new; service = service; heard = heard.now; line = line.new; told = L.told link.new }) }
    ensures goes { Goes (end_in result) (L.standing link.old) (L.faults link.old) (L.told link.old) (L.standing link.new) (L.faults link.new) (L.told link.new) }
    ensures ends { IsEventEnd K.MayAnswer (end_in result) }
    ensures same_in { HearsAlike line.old line.new }
    ensures same_keys { K.keys desk.new ≡ K.keys desk.old }
    ensures same_binding { K.bound_to desk.new ≡ K.bound_to desk.old }
    ensures desk_counted { CountsDesk (end_in result) (K.fault_count desk.old) (K.fault_count desk.new) }
{
    opens_what_it_sealed::<K::S>();
    match desk.tick(alloc, now) {
        Ok(effects) => say(alloc, line, link, heard, &effects.out, text),
        Err(fault) => Err(end_of(fault)),
    }
}

// The first ready job runs, and what that owes is sent.
#[tactic(auto, using(crate::proofs::Events::did_run, crate::proofs::Events::did_fail, crate::proofs::Events::fault_is_end, crate::proofs::Events::send_is_end, crate::proofs::DeskCounts::desk_sends, crate::proofs::DeskCounts::desk_fails))]
fn run_first<L: Link, K: Desk, V: Service>(
    alloc: Global,
    desk: &mut K,
    service: &mut V,
    now: Moment,
    line: &mut Line,
    link: &mut L,
    heard: &HeardSessions,
    text: &mut Octets,
) -> Result<(), ConnEnd>
    requires ready { 0 < K.ready_jobs desk.old }
    ensures did { Did K.D.step V.step K.S.lock (K.keys desk.old)
        (record { desk = K.StandsFor desk.old; behind = K.Behind desk.old; drawn = K.drawn desk.old; service = service.old; heard = heard.now; line = line.old; told = L.told link.old })
        (λ rules talk. Run now ∷ []) (end_in result)
        (record { desk = K.StandsFor desk.new; behind = K.Behind desk.new; drawn = K.drawn desk.new; service = service.new; heard = heard.now; line = line.new; told = L.told link.new }) }
    ensures goes { Goes (end_in result) (L.standing link.old) (L.faults link.old) (L.told link.old) (L.standing link.new) (L.faults link.new) (L.told link.new) }
    ensures ends { IsEventEnd K.MayAnswer (end_in result) }
    ensures same_in { HearsAlike line.old line.new }
    ensures same_keys { K.keys desk.new ≡ K.keys desk.old }
    ensures same_binding { K.bound_to desk.new ≡ K.bound_to desk.old }
    ensures desk_counted { CountsDesk (end_in result) (K.fault_count desk.old) (K.fault_count desk.new) }
{
    opens_what_it_sealed::<K::S>();
    match desk.work(alloc, 0, service, now) {
        Ok(effects) => say(alloc, line, link, heard, &effects.out, text),
        Err(fault) => Err(end_of(fault)),
    }
}

/// A tick, and then the first ready job runs until none is ready: each run leaves fewer jobs.
///
/// # Errors
///
/// Why the connection ends.
#[tactic(auto, using(crate::proofs::Goings::goes_both, crate::proofs::Goings::goes_none, crate::proofs::DeskCounts::desk_after))]
pub(crate) fn work_all<L: Link, K: Desk, V: Service>(
    alloc: Global,
    desk: &mut K,
    service: &mut V,
    now: Moment,
    line: &mut Line,
    link: &mut L,
    heard: &HeardSessions,
    text: &mut Octets,
) -> Result<(), ConnEnd>
    ensures worked { Worked K.D.step V.step K.S.lock (K.keys desk.old)
        (record { desk = K.StandsFor desk.old; behind = K.Behind desk.old; drawn = K.drawn desk.old; service = service.old; heard = heard.now; line = line.old; told = L.told link.old })
        now (end_in result)
        (record { desk = K.StandsFor desk.new; behind = K.Behind desk.new; drawn = K.drawn desk.new; service = service.new; heard = heard.now; line = line.new; told = L.told link.new }) }
    ensures goes { Goes (end_in result) (L.standing link.old) (L.faults link.old) (L.told link.old) (L.standing link.new) (L.faults link.new) (L.told link.new) }
    ensures ends { IsEventEnd K.MayAnswer (end_in result) }
    ensures same_in { HearsAlike line.old line.new }
    ensures same_keys { K.keys desk.new ≡ K.keys desk.old }
    ensures same_binding { K.bound_to desk.new ≡ K.bound_to desk.old }
    ensures desk_counted { CountsDesk (end_in result) (K.fault_count desk.old) (K.fault_count desk.new) }
{
    if let Err(end) = tick::<L, K, V>(alloc, desk, now, line, link, heard, text) {
        return Err(end);
    }
    runs_leave_fewer_jobs::<K::D, V>();
    let most = desk.unfinished();
    'runs: for _count in 0..most {
        if desk.ready() == 0 {
            return Ok(());
        }
        if let Err(end) = run_first(alloc, desk, service, now, line, link, heard, text) {
            return Err(end);
        }
    }
    Ok(())
}
