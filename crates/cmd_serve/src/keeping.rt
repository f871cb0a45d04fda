//! The journal of a run.

ghost use Rattle.std.specs.Prelude.{◌≡◌, ◌≢◌, ◌∷◌, [], ℕ, List, Option, IfErr, IfOk, IfSome};
ghost use Rattle.draws.specs.Draws.{draw_after, next_bytes};
ghost use Rattle.mt_edge.specs.Clocks.{Gave};
ghost use Rattle.cmd_serve.specs.Inner.{OpensFile, ShutsFile};

use auth_keys::Ring;
use disks::{Disk, DiskLen};
use draws::{Draw, Seeded, draw_bytes};
use envelope::{MtSeal, Seal};
use msg_ids::Moment;
use mt_edge::Clock;
use sess_journal::Kept;
use sess_journal::laws::records_lead_to_one_server;
use sess_records::JournalFault;
use std::alloc::Global;

/// The server of the journal that an open file has: of a new one, whose seed is four words of the draw, where the file is empty;
/// and else of the one that it spells, with the clock asked once.
///
/// # Errors
///
/// The file, and `Disk` where a call of it failed, `NotJournal` where it is neither empty nor a lawful journal, or `Memory`.
pub(crate) fn keeping<K: Disk + Drop, C: Clock, D: Seeded + Drop>(
    alloc: Global,
    disk: K,
    ring: Ring,
    clock: &mut C,
    draw: &mut D,
) -> Result<Kept<K, MtSeal, D>, (K, JournalFault)>
    ensures opens { IfOk result (OpensFile (record { step = D.step; standing_at = D.standing_at; place_of = D.place_of }) ring K.told K.place K.faults disk (C.given clock.old) (C.given clock.new) draw.old draw.new) }
    ensures shuts { IfErr result (ShutsFile (record { step = D.step; standing_at = D.standing_at; place_of = D.place_of }) ring K.told K.place K.faults disk (C.given clock.old) (C.given clock.new) draw.old draw.new) }
{
    let mut disk = disk;
    match disk.len() {
        DiskLen::Len(0) => begin(alloc, disk, ring, draw),
        DiskLen::Len(_) => go_on(alloc, disk, ring, clock.now()),
        DiskLen::Failed => Err((disk, JournalFault::Disk)),
    }
}

/// The server of a new journal in an empty file.
fn begin<K: Disk + Drop, D: Seeded + Drop>(
    alloc: Global,
    disk: K,
    ring: Ring,
    draw: &mut D,
) -> Result<Kept<K, MtSeal, D>, (K, JournalFault)>
    requires empty { IfSome (K.told disk) (λ file. file.contents ≡ []) }
    ensures opens { (given : Option (List ℕ)) → IfOk result (OpensFile (record { step = D.step; standing_at = D.standing_at; place_of = D.place_of }) ring K.told K.place K.faults disk given given draw.old draw.new) }
    ensures shuts { (given : Option (List ℕ)) → IfErr result (ShutsFile (record { step = D.step; standing_at = D.standing_at; place_of = D.place_of }) ring K.told K.place K.faults disk given given draw.old draw.new) }
{
    MtSeal::opens_what_it_sealed();
    records_lead_to_one_server::<D>();
    let seed = new_seed(draw);
    Kept::create(alloc, disk, MtSeal::new(ring), &seed)
}

/// The server of the journal that a file spells, which isn't empty, opened at this moment.
fn go_on<K: Disk + Drop, D: Seeded + Drop>(
    alloc: Global,
    disk: K,
    ring: Ring,
    now: Moment,
) -> Result<Kept<K, MtSeal, D>, (K, JournalFault)>
    requires some { IfSome (K.told disk) (λ file. file.contents ≢ []) }
    ensures opens { (given given_then : Option (List ℕ)) (draw : D) → Gave (now ∷ []) given given_then
        → IfOk result (OpensFile (record { step = D.step; standing_at = D.standing_at; place_of = D.place_of }) ring K.told K.place K.faults disk given given_then draw draw) }
    ensures shuts { (given given_then : Option (List ℕ)) (draw : D) → Gave (now ∷ []) given given_then
        → IfErr result (ShutsFile (record { step = D.step; standing_at = D.standing_at; place_of = D.place_of }) ring K.told K.place K.faults disk given given_then draw draw) }
{
    MtSeal::opens_what_it_sealed();
    records_lead_to_one_server::<D>();
    Kept::open(alloc, disk, MtSeal::new(ring), now)
}

/// The seed of a new journal: the bytes of four words.
fn new_seed<D: Draw>(draw: &mut D) -> [u8; 32]
    ensures seed { result ≡ next_bytes D.step 32 draw.old }
    ensures after { draw.new ≡ draw_after D.step 4 draw.old }
{
    let mut seed = [0; 32];
    draw_bytes(draw, &mut seed);
    seed
}
