//! A run of `serve`.

ghost use Rattle.std.specs.Prelude.{◌≡◌, ◌≢◌, None, Some};
ghost use Rattle.cmd_serve.specs.Inner.{RunsAlone, RunsWith};
ghost use Rattle.cmd_serve.specs.Lines.{last_line, listening};
ghost use Rattle.cmd_serve.specs.Runs.{ServeRun};
ghost use Rattle.cmd_serve.specs.declared.ending.Ending.TheVariants.{Served};

use crate::journal::with_journal;
use crate::laws::rings_say_as_worked_out;
use crate::lines::{Lines, lines_of, say};
use crate::serving::{last, listen, serve};
use auth_keys::Ring;
use auth_keys::laws::one_reading;
use commands::ServeOptions;
use disks::Disks;
use draws::{Draw, Seeded};
use envelope::MtSeal;
use key_files::{KeysFault, read_ring, refused_line, unread_line};
use mt_edge::{Clock, KeyFiles, Net, Sink};
use server_core::{Plain, Server};
use statuses::Status;
use std::alloc::Global;

/// Reads a key file, opens the journal where there is to be one, listens on a port and writes `listening P`; then serves
/// connections with the keys of that file, one after the other, with one register service, and writes `served N`, or `stopped`
/// where as many packets were answered as the options say. Each link is given back before the next connection is taken and at
/// the end, and then the journal's file.
///
/// An empty file gets a new journal, whose seed is four words of the draw. Another is opened, with the clock asked once: the
/// server is that of its records, and a run that was cut off is answered as such.
///
/// `Done`: both lines are written. `KeysRefused`: the key file can't be read (`key file not read`), or is no ring (`key file
/// refused at line N`). `JournalFault` (`journal fault`, behind the first line where that is written): the journal's file can't be
/// opened, is neither empty nor a lawful journal, or is full, or a call of it failed. `NotListening`: a listen or an accept failed
/// (`not listening`, likewise). `WriteFault`: a write failed; after one of the first line no connection is taken. `Memory`: nothing
/// is written, or the first line.
pub fn run_serve<O: Sink, F: KeyFiles, N: Net, C: Clock, D: Seeded + Drop, K: Disks>(
    alloc: Global,
    options: &ServeOptions,
    out: &mut O,
    files: &mut F,
    net: &mut N,
    clock: &mut C,
    draw: &mut D,
    disks: &mut K,
) -> Status
where
    K::K: Drop,
    requires some { options.now.stop_after ≢ Some 0 }
    ensures run { ServeRun (record { step = D.step; standing_at = D.standing_at; place_of = D.place_of }) options.now
        (record { told = F.told; faults = F.faults; before = files.old; after = files.new })
        (record { told = N.calls; faults = N.faults; before = net.old; after = net.new })
        (record { told = O.written; faults = O.faults; before = out.old; after = out.new })
        (record { before = C.given clock.old; after = C.given clock.new })
        (record { before = draw.old; after = draw.new })
        (record { told = K.told; faults = K.faults; before = disks.old; after = disks.new }) result }
{
    one_reading();
    match read_ring(alloc, options.keys.as_str(), files) {
        Ok(ring) => with_ring(alloc, ring, options, out, net, clock, draw, disks),
        Err(KeysFault::Unread) => say(out, Status::KeysRefused, unread_line()),
        Err(KeysFault::Refused { line }) => match refused_line(alloc, line) {
            Ok(text) => say(out, Status::KeysRefused, text.as_slice()),
            Err(_) => Status::Memory,
        },
        Err(KeysFault::Memory) => Status::Memory,
    }
}

/// Serves with the keys of a ring.
fn with_ring<O: Sink, N: Net, C: Clock, D: Seeded + Drop, K: Disks>(
    alloc: Global,
    ring: Ring,
    options: &ServeOptions,
    out: &mut O,
    net: &mut N,
    clock: &mut C,
    draw: &mut D,
    disks: &mut K,
) -> Status
where
    K::K: Drop,
    requires some { options.now.stop_after ≢ Some 0 }
    ensures run { RunsWith (record { step = D.step; standing_at = D.standing_at; place_of = D.place_of }) options.now ring
        (record { told = N.calls; faults = N.faults; before = net.old; after = net.new })
        (record { told = O.written; faults = O.faults; before = out.old; after = out.new })
        (record { before = C.given clock.old; after = C.given clock.new })
        (record { before = draw.old; after = draw.new })
        (record { told = K.told; faults = K.faults; before = disks.old; after = disks.new }) result }
{
    let Ok(lines) = lines_of(alloc, options.port, options.conns) else {
        return Status::Memory;
    };
    match &options.journal {
        None => without_journal(alloc, ring, &lines, options, out, net, clock, draw),
        Some(name) => with_journal(
            alloc,
            ring,
            name.as_str(),
            &lines,
            options,
            out,
            net,
            clock,
            draw,
            disks,
        ),
    }
}

/// Serves with the keys of a ring: a server that has no sessions yet, and keeps nothing.
fn without_journal<O: Sink, N: Net, C: Clock, D: Draw>(
    alloc: Global,
    ring: Ring,
    lines: &Lines,
    options: &ServeOptions,
    out: &mut O,
    net: &mut N,
    clock: &mut C,
    draw: &mut D,
) -> Status
    requires some { options.now.stop_after ≢ Some 0 }
    requires first { lines.now.first ≡ listening options.now.port }
    requires last { lines.now.last ≡ last_line options.now.conns Served }
    ensures run { RunsAlone D.step options.now ring
        (record { told = N.calls; faults = N.faults; before = net.old; after = net.new })
        (record { told = O.written; faults = O.faults; before = out.old; after = out.new })
        (record { before = C.given clock.old; after = C.given clock.new })
        (record { before = draw.old; after = draw.new }) result }
{
    rings_say_as_worked_out();
    if let Err(status) = listen(lines, options.port, out, net) {
        return status;
    }
    let mut server = Server::new(alloc, MtSeal::new(ring));
    let mut desk = Plain {
        server: &mut server,
        draw,
    };
    let ending = serve(alloc, &mut desk, options, net, clock);
    last(lines, out, ending)
}
