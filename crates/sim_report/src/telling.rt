//! The report and the summary.

ghost use Rattle.std.specs.Prelude.{◌≡◌, ◌++◌, OnOk, OnErr, length, take};
ghost use Rattle.world_rules.specs.Report.{report, summary, whole_report, wire_line};
ghost use Rattle.world_rules.specs.Setting.{Setting};
ghost use Rattle.world_rules.specs.World.{World};
ghost use Rattle.sim_server.specs.Hosts.{Stands};
ghost use Rattle.sim_clients.specs.Standing.{Stand};

use crate::bag::Packets;
use crate::entries::{push_entries, runs};
use crate::seated::Seated;
use draws::Draw;
use envelope::Seal;
use octets::{Memory, Octets};
use regs_service::Service;
use sim_clients::Seats;
use sim_server::Host;
use sim_text::laws::{lines_of_packets, summaries};
use sim_text::{Counts, Summary, lines_of_clients, summary_line, wire_bytes};
use std::alloc::Global;

/// Puts the report of a world behind a text: a line for each call, then one for each entry, and with `wire` one on all
/// packets.
///
/// # Errors
///
/// `Memory`, and then the text is as it was.
pub fn report<S: Seal, V: Service, D: Draw>(
    alloc: Global,
    host: &Host<S, V>,
    clients: &Seats,
    wire: bool,
    into: &mut Octets,
) -> Result<(), Memory>
    ensures told { (setting : Setting D V) (draw : D) (world : World D V) → Stands setting host.now draw world → Stand clients.now world.seats
        → OnOk result (into.new ≡ into.old ++ whole_report setting wire world) }
    ensures unchanged_on_memory { OnErr result (into.new ≡ into.old) }
{
    let before = into.as_slice().len();
    let done = push_report::<S, V, D>(alloc, host, clients, wire, into);
    if done.is_err() {
        into.truncate(before);
    }
    done
}

/// Puts the summary of a world behind a text.
///
/// # Errors
///
/// `Memory`, and then the text is as it was.
pub fn summary<S: Seal, V: Service, D: Draw>(
    alloc: Global,
    host: &Host<S, V>,
    clients: &Seats,
    into: &mut Octets,
) -> Result<(), Memory>
    ensures told { (setting : Setting D V) (draw : D) (world : World D V) → Stands setting host.now draw world → Stand clients.now world.seats
        → OnOk result (into.new ≡ into.old ++ summary setting world) }
    ensures unchanged_on_memory { OnErr result (into.new ≡ into.old) }
{
    lines_of_packets::<D, V>();
    summaries::<D, V>();
    let bag = host.bag();
    let line = Summary {
        counts: Counts::of(&Seated { seats: clients }),
        runs: runs(host.register().as_slice()),
        packets: bag.count(),
        bytes: wire_bytes(&Packets { bag }),
    };
    summary_line(alloc, into, &line)
}

/// Puts the report of a world behind a text.
fn push_report<S: Seal, V: Service, D: Draw>(
    alloc: Global,
    host: &Host<S, V>,
    clients: &Seats,
    wire: bool,
    text: &mut Octets,
) -> Result<(), Memory>
    ensures told { (setting : Setting D V) (draw : D) (world : World D V) → Stands setting host.now draw world → Stand clients.now world.seats
        → OnOk result (text.new ≡ text.old ++ whole_report setting wire world) }
    ensures behind { take (length text.old) text.new ≡ text.old }
{
    push_lines::<S, V, D>(alloc, host, clients, text)?;
    if wire {
        push_packets::<S, V, D>(alloc, host, text)?;
    }
    Ok(())
}

/// Puts the lines of all calls and of all entries behind a text.
fn push_lines<S: Seal, V: Service, D: Draw>(
    alloc: Global,
    host: &Host<S, V>,
    clients: &Seats,
    text: &mut Octets,
) -> Result<(), Memory>
    ensures told { (setting : Setting D V) (draw : D) (world : World D V) → Stands setting host.now draw world → Stand clients.now world.seats
        → OnOk result (text.new ≡ text.old ++ report world) }
    ensures behind { take (length text.old) text.new ≡ text.old }
{
    lines_of_clients(alloc, text, &Seated { seats: clients })?;
    push_entries(alloc, text, host.register().as_slice(), clients)
}

/// Puts the line on all packets behind a text.
fn push_packets<S: Seal, V: Service, D: Draw>(
    alloc: Global,
    host: &Host<S, V>,
    text: &mut Octets,
) -> Result<(), Memory>
    ensures told { (setting : Setting D V) (draw : D) (world : World D V) → Stands setting host.now draw world
        → OnOk result (text.new ≡ text.old ++ wire_line setting world) }
    ensures behind { take (length text.old) text.new ≡ text.old }
{
    lines_of_packets::<D, V>();
    sim_text::wire_line(alloc, text, &Packets { bag: host.bag() })
}
