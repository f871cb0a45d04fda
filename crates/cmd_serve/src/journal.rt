//! A run with a journal.

ghost use Rattle.std.specs.Prelude.{◌≡◌, ◌≢◌, ℕ, List, Some};
ghost use Rattle.auth_keys.specs.declared.ring.RingKey.{RingKey};
ghost use Rattle.server_rules.specs.Server.{Server};
ghost use Rattle.sess_journal.specs.Keeping.{StandsFor, count_of, disk_in, place_by};
ghost use Rattle.cmd_serve.specs.Inner.{RunsWith, EndsBecause, ServesKept, first_kept};
ghost use Rattle.cmd_serve.specs.Journals.{basis_of};
ghost use Rattle.cmd_serve.specs.Lines.{last_line, listening};
ghost use Rattle.cmd_serve.specs.declared.ending.Ending.TheVariants.{Served};

use crate::keeping::keeping;
use crate::laws::rings_say_as_worked_out;
use crate::lines::{JOURNAL_FAULT, Lines, say};
use crate::serving::{last, listen, serve};
use auth_keys::Ring;
use commands::ServeOptions;
use disks::{Disk, DiskOpen, Disks};
use draws::Seeded;
use envelope::MtSeal;
use mt_edge::{Clock, Net, Sink};
use sess_journal::Kept;
use sess_records::JournalFault;
use sess_records::laws::calls_in_a_row;
use statuses::Status;
use std::alloc::Global;

/// Opens the journal of this name, serves with it, and gives its file back.
pub(crate) fn with_journal<O: Sink, N: Net, C: Clock, D: Seeded + Drop, K: Disks>(
    alloc: Global,
    ring: Ring,
    name: &str,
    lines: &Lines,
    options: &ServeOptions,
    out: &mut O,
    net: &mut N,
    clock: &mut C,
    draw: &mut D,
    disks: &mut K,
) -> Status
where
    K::K: Drop,
    requires some { options.now.stop_after ≢ Some 0 }
    requires first { lines.now.first ≡ listening options.now.port }
    requires last { lines.now.last ≡ last_line options.now.conns Served }
    requires named { options.now.journal ≡ Some name.now }
    ensures run { RunsWith (record { step = D.step; standing_at = D.standing_at; place_of = D.place_of }) options.now ring
        (record { told = N.calls; faults = N.faults; before = net.old; after = net.new })
        (record { told = O.written; faults = O.faults; before = out.old; after = out.new })
        (record { before = C.given clock.old; after = C.given clock.new })
        (record { before = draw.old; after = draw.new })
        (record { told = K.told; faults = K.faults; before = disks.old; after = disks.new }) result }
{
    let disk = match disks.open(name) {
        DiskOpen::Disk(disk) => disk,
        DiskOpen::Failed => return say(out, Status::JournalFault, JOURNAL_FAULT),
    };
    match keeping(alloc, disk, ring, clock, draw) {
        Ok(kept) => {
            let (disk, status) = serve_kept(alloc, kept, lines, options, out, net, clock);
            disks.done(disk);
            status
        }
        Err((disk, fault)) => {
            disks.done(disk);
            shut(out, fault)
        }
    }
}

/// Serves with the server of a journal, and gives its file back.
fn serve_kept<O: Sink, N: Net, C: Clock, D: Seeded + Drop, K: Disk + Drop>(
    alloc: Global,
    kept: Kept<K, MtSeal, D>,
    lines: &Lines,
    options: &ServeOptions,
    out: &mut O,
    net: &mut N,
    clock: &mut C,
) -> (K, Status)
    requires some { options.now.stop_after ≢ Some 0 }
    requires first { lines.now.first ≡ listening options.now.port }
    requires last { lines.now.last ≡ last_line options.now.conns Served }
    ensures serves { (server : Server) → StandsFor (λ (own : List RingKey) (seed : List ℕ). basis_of (record { step = D.step; standing_at = D.standing_at; place_of = D.place_of }) own seed) K.told kept server
        → ServesKept (record { step = D.step; standing_at = D.standing_at; place_of = D.place_of }) options.now kept.server.seal K.told K.place K.faults
        (first_kept options.now (C.given clock.old) server kept.draw) (place_by K.place (disk_in kept.book)) (count_of K.faults (disk_in kept.book))
        (record { told = N.calls; faults = N.faults; before = net.old; after = net.new })
        (record { told = O.written; faults = O.faults; before = out.old; after = out.new }) (C.given clock.new) result }
{
    rings_say_as_worked_out();
    calls_in_a_row();
    let mut kept = kept;
    if let Err(status) = listen(lines, options.port, out, net) {
        return (kept.into_disk(), status);
    }
    let ending = serve(alloc, &mut kept, options, net, clock);
    let status = last(lines, out, ending);
    let disk = kept.into_disk();
    (disk, status)
}

/// No server comes of the file.
fn shut<O: Sink>(out: &mut O, fault: JournalFault) -> Status
    ensures { EndsBecause (record { told = O.written; faults = O.faults; before = out.old; after = out.new }) fault result }
{
    match fault {
        JournalFault::Disk | JournalFault::NotJournal { .. } => {
            say(out, Status::JournalFault, JOURNAL_FAULT)
        }
        JournalFault::Memory => Status::Memory,
    }
}
