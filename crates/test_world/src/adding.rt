//! What a caller of a journal may rely on.

ghost use Rattle.std.specs.Prelude.{◌≡◌, [], ◌∷◌, ◌++◌, IfOk};
ghost use Rattle.sess_records.specs.declared.records.Event.TheVariants.{Tick, Begin};
ghost use Rattle.sess_records.specs.Standing.{Holds};

use crate::reading::{Outcome, outcome_of};
use disks::{Disk, MemDisk};
use sess_records::{Event, Journal, Opening};
use std::alloc::Global;
use std::test::Fail;
use test_asserts::{same, shows};

/// Makes a journal and adds two records, one after the other.
fn two_records<K: Disk>(disk: K) -> Result<Journal<K>, K>
    ensures { IfOk result (λ journal. Holds K.told (([] ++ record { moment = 5; place = 2; event = Tick } ∷ []) ++ record { moment = 6; place = 2; event = Begin 1 } ∷ []) journal) }
{
    let journal = Journal::create(disk, &[3; 32])?;
    let journal = journal.add(5, 2, Event::Tick)?;
    journal.add(6, 2, Event::Begin { job: 1 })
}

/// Makes a journal and adds two records, and opens its disk again, whether a call of it failed or not.
fn read_again<K: Disk + Drop>(alloc: Global, disk: K) -> Outcome {
    match two_records(disk) {
        Ok(journal) => outcome_of(alloc, journal.into_disk()),
        Err(disk) => outcome_of(alloc, disk),
    }
}

#[test]
fn records_one_after_the_other(rt: HostRuntime) -> Result<(), Fail> {
    let disk = MemDisk::new(rt.alloc(), b"", &[], 200, 32)?;
    let Ok(journal) = two_records(disk) else {
        return Err("not added".into());
    };
    same((journal.len(), journal.seed()), (41 + 22 + 30, [3; 32]))?;
    same(
        outcome_of(rt.alloc(), journal.into_disk()),
        Outcome::Records(2, 93),
    )?;
    Ok(())
}

#[test]
fn a_failed_disk_is_opened_again(rt: HostRuntime) -> Result<(), Fail> {
    // The making has three calls, and each record six: the last of them is the sync of its gate.
    for number in 1..=16u64 {
        let disk = MemDisk::new(rt.alloc(), b"", &[number], 200, 40)?;
        let want = match number {
            1..=2 => Outcome::NotJournal(0),
            3..=8 => Outcome::Records(0, 41),
            9..=14 => Outcome::Records(1, 63),
            15 => Outcome::Records(2, 93),
            _ => Outcome::Failed,
        };
        same(read_again(rt.alloc(), disk), want)?;
    }
    Ok(())
}

#[test]
fn no_byte_of_a_seed_is_shown(rt: HostRuntime) -> Result<(), Fail> {
    let disk = MemDisk::new(rt.alloc(), b"", &[], 200, 32)?;
    let Ok(journal) = two_records(disk) else {
        return Err("not added".into());
    };
    shows(rt.alloc(), &journal, "Journal { len: 93, .. }")?;
    let Ok(opening) = Opening::new(journal.into_disk()) else {
        return Err("not opened".into());
    };
    shows(rt.alloc(), &opening, "Opening { place: 41, .. }")
}
