//! What is served with a desk, and the lines about it.

ghost use Rattle.std.specs.Prelude.{◌≡◌, ◌≢◌, ◌⊎◌, IfErr, OnOk, Some};
ghost use Rattle.regs_service.specs.Registers as registers;
ghost use Rattle.server_core.specs.declared.desk.DeskFault.{DeskFault};
ghost use Rattle.server_rules.specs.Server.{Server as Rules};
ghost use Rattle.server_node.specs.Trace.{IsOutside, Outside, rules_of};
ghost use Rattle.cmd_serve.specs.Connections.{Between};
ghost use Rattle.cmd_serve.specs.Inner.{CountsDeskBy, EndsBehind, Hears, IsDeaf, IsMute, IsServeFault, MayBeFull, ServesOn, StandsAt};
ghost use Rattle.cmd_serve.specs.Lines.{last_line, listening};
ghost use Rattle.cmd_serve.specs.Runs.{Registers};
ghost use Rattle.cmd_serve.specs.declared.ending.Ending.TheVariants.{Full, Served};

use crate::connections::serve_all;
use crate::ending::Ending;
use crate::lines::{JOURNAL_FAULT, Lines, say};
use commands::ServeOptions;
use mt_edge::{Act, Clock, Net, Sink, WriteFault, write_all};
use regs_service::{Regs, Service};
use server_core::Desk;
use statuses::Status;
use std::alloc::Global;

/// Listens on the port, and writes the first line.
///
/// # Errors
///
/// How the run ends: by `NotListening`, where a line says so, or by `WriteFault`.
pub(crate) fn listen<O: Sink, N: Net>(
    lines: &Lines,
    port: u16,
    out: &mut O,
    net: &mut N,
) -> Result<(), Status>
    requires first { lines.now.first ≡ listening port }
    ensures hears { OnOk result (Hears port
        (record { told = N.calls; faults = N.faults; before = net.old; after = net.new })
        (record { told = O.written; faults = O.faults; before = out.old; after = out.new })) }
    ensures not { IfErr result (λ one. IsDeaf port
        (record { told = N.calls; faults = N.faults; before = net.old; after = net.new })
        (record { told = O.written; faults = O.faults; before = out.old; after = out.new }) one ⊎ IsMute port
        (record { told = N.calls; faults = N.faults; before = net.old; after = net.new })
        (record { told = O.written; faults = O.faults; before = out.old; after = out.new }) one) }
{
    match net.listen(port) {
        Act::Ready => {}
        Act::Failed => return Err(say(out, Status::NotListening, b"not listening\n")),
    }
    match write_all(out, lines.first.as_slice()) {
        Ok(()) => Ok(()),
        Err(WriteFault) => Err(Status::WriteFault),
    }
}

/// Serves connections with a desk and a fresh register service.
pub(crate) fn serve<N: Net, K: Desk, C: Clock>(
    alloc: Global,
    desk: &mut K,
    options: &ServeOptions,
    net: &mut N,
    clock: &mut C,
) -> Ending
    requires some { options.now.stop_after ≢ Some 0 }
    requires faults { (fault : DeskFault) (one : K) (server : Rules) → K.MayAnswer fault → K.Behind one fault server → IsServeFault fault }
    ensures serves { (outside : Outside) (first : Between K.D Registers) → IsOutside K.S.lock (K.keys desk.old) outside
        → StandsAt (K.StandsFor desk.old) (K.drawn desk.old) registers.fresh (C.given clock.old) options.now.stop_after first
        → ServesOn (rules_of K.D.step registers.step outside) options.now first
        (record { told = N.calls; faults = N.faults; before = net.old; after = net.new })
        (C.given clock.new) (K.StandsFor desk.new) (K.Behind desk.new) (K.drawn desk.new) result }
    ensures desk_counted { (outside : Outside) (first : Between K.D Registers) → IsOutside K.S.lock (K.keys desk.old) outside
        → StandsAt (K.StandsFor desk.old) (K.drawn desk.old) registers.fresh (C.given clock.old) options.now.stop_after first
        → CountsDeskBy result (K.fault_count desk.old) (K.fault_count desk.new) }
    ensures full { result ≡ Full → MayBeFull K.MayAnswer }
    ensures same_keys { K.keys desk.new ≡ K.keys desk.old }
    ensures same_binding { K.bound_to desk.new ≡ K.bound_to desk.old }
{
    let mut service = Regs::fresh(alloc);
    let mut left = options.stop_after;
    serve_all(
        alloc,
        options.conns,
        net,
        desk,
        &mut service,
        clock,
        &mut left,
    )
}

/// Writes the last line, by how the connections ended.
pub(crate) fn last<O: Sink>(lines: &Lines, out: &mut O, ending: Ending) -> Status
    ensures { EndsBehind lines.now.last (record { told = O.written; faults = O.faults; before = out.old; after = out.new }) ending result }
{
    match ending {
        Ending::Served => say(out, Status::Done, lines.last.as_slice()),
        Ending::Stopped => say(out, Status::Done, b"stopped\n"),
        Ending::NotTaken => say(out, Status::NotListening, b"not listening\n"),
        Ending::Journal | Ending::Full => say(out, Status::JournalFault, JOURNAL_FAULT),
        Ending::Memory => Status::Memory,
    }
}
