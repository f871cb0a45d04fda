//! A journal that records are added to.

ghost use Rattle.std.specs.Prelude.{◌≡◌, ◌≤◌, ◌<◌, ◌+◌, ◌-◌, ◌^◌, ◌++◌, ◌∷◌, [], ℕ, List, length, IfSome, IsSomeAnd, is_some};
ghost use Rattle.mt_edge.specs.Acts.{Counts as CountsAct};
ghost use Rattle.sess_records.specs.Standing.{IsSure};
ghost use Rattle.sess_records.specs.Steps.{Adds, head_bytes};

use crate::header::{HEADER_BYTES, header_of};
use crate::heads::{COUNTED_BYTES, HEAD_BYTES, Head, bytes_of, kind_byte, numbers_of, rest_in};
use crate::records::Event;
use crate::writes::{begin, stage, turn};
use disks::Disk;
use disks::laws::{crashes_after_a_sync, crashes_by_acts};
use mt_edge::Act;
use std::fmt;
use std::marker::Model;

/// A journal on a disk, behind whose last record stands a closed gate. No call of its disk has failed. Its text by `Debug`
/// has its length alone.
#[derive(Drop)]
pub struct Journal<K: Disk> {
    pub(crate) disk: K,
    pub(crate) seed: [u8; 32],
    pub(crate) len: u64,
}

impl<K: Disk> Model for Journal<K> {
    ghost use Rattle.sess_records.specs.Seen.{File};
    ghost use Rattle.sess_records.specs.Standing.{IsJournal};

    ghost Value = { File K };

    ghost view = { λ j. record { disk = j.disk; seed = j.seed; len = j.len } };

    ghost invariant = { λ j. IsJournal j.seed j.len (K.told j.disk) };
}

impl<K: Disk> fmt::Debug for Journal<K> {
    /// The length alone: who knows the seed knows what a server draws.
    fn fmt<W: fmt::Write>(&self, f: &mut fmt::Formatter<W>) -> fmt::Result {
        f.debug_struct("Journal")
            .field("len", &self.len)
            .finish_non_exhaustive()
    }
}

/// Writes a record behind the closed gate at the end of a file of this length, and a closed gate behind it, makes sure of
/// that, opens the gate before the record, and makes sure of that.
fn put_behind<K: Disk>(disk: &mut K, len: u64, head: Head, rest: &[u8]) -> Act
    requires headed { 41 ≤ len }
    requires whole { IfSome (K.told disk.old) (λ file. len ≡ length file.contents) }
    requires room { len + (22 + length rest.now) < 2 ^ 64 }
    ensures added { IfSome (K.told disk.old) (λ before. IsSomeAnd (K.told disk.new) (λ after. (front : List ℕ) (shut : ℕ)
        → len ≡ length front + 1 → IsSure (front ++ shut ∷ []) before → Adds result front shut (head_bytes head ++ rest.now) before after)) }
    ensures tells { is_some (K.told disk.new) ≡ is_some (K.told disk.old) }
    ensures counted { CountsAct result (K.faults disk.old) (K.faults disk.new) }
    ensures same_place { K.place disk.new ≡ K.place disk.old }
{
    let front = bytes_of(head);
    let Act::Ready = stage(disk, len, &front, rest) else {
        return Act::Failed;
    };
    turn(disk, len - 1)
}

impl<K: Disk> Journal<K> {
    ghost use Rattle.std.specs.Prelude.{◌≡◌, ◌<◌, ◌+◌, ◌^◌, ◌++◌, ◌∷◌, [], List, IfOk, IfErr, is_some};
    ghost use Rattle.mt_edge.specs.Faults.{Rose};
    ghost use Rattle.sess_records.specs.declared.records.Record.{Record};
    ghost use Rattle.sess_records.specs.Format.{IsEvent, size_of};
    ghost use Rattle.sess_records.specs.Standing.{Holds, LeavesOneOf};
    ghost use Rattle.sess_records.specs.Calls.{disk_after, event_in};

    /// A journal with no records, in the place of all that the disk holds.
    ///
    /// # Errors
    ///
    /// The disk, where a call of it failed; it may hold anything then.
    pub fn create(disk: K, seed: &[u8; 32]) -> Result<Journal<K>, K>
        ensures empty { IfOk result (λ journal. Holds K.told [] journal) }
        ensures seed { IfOk result (λ journal. journal.seed ≡ seed.now) }
        ensures len { IfOk result (λ journal. journal.len ≡ 41) }
        ensures cause { IfErr result (λ back. Rose (K.faults disk) (K.faults back)) }
        ensures counted { IfOk result (λ journal. K.faults journal.disk ≡ K.faults disk) }
        ensures tells { is_some (K.told (disk_after result)) ≡ is_some (K.told disk) }
        ensures same_place { K.place (disk_after result) ≡ K.place disk }
    {
        let mut disk = disk;
        let header = header_of(seed);
        let Act::Ready = begin(&mut disk, &header) else {
            return Err(disk);
        };
        let seed = *seed;
        Ok(Journal {
            disk,
            seed,
            len: HEADER_BYTES as u64,
        })
    }

    /// Adds a record behind the others, with a moment in seconds of Unix time and a place of the draw in words. It is written
    /// behind the closed gate, and made sure of, before its gate is opened and that is made sure of. Takes no memory, and
    /// reads nothing of the file.
    ///
    /// # Errors
    ///
    /// The disk, where a call of it failed. The file may have the record then, or not, and the disk is to be opened again.
    pub fn add(self, moment: u64, place: u64, event: Event<&[u8]>) -> Result<Journal<K>, K>
        requires lawful { IsEvent (event_in event) }
        requires short { size_of (event_in event) < 2 ^ 32 }
        requires room { self.len + size_of (event_in event) < 2 ^ 64 }
        ensures added { IfOk result (λ journal. (entries : List Record) → Holds K.told entries self
            → Holds K.told (entries ++ record { moment = moment; place = place; event = event_in event.entry } ∷ []) journal) }
        ensures seed { IfOk result (λ journal. journal.seed ≡ self.seed) }
        ensures len { IfOk result (λ journal. journal.len ≡ self.len + size_of (event_in event.entry)) }
        ensures cause { IfErr result (λ back. Rose (K.faults self.disk) (K.faults back)) }
        ensures counted { IfOk result (λ journal. K.faults journal.disk ≡ K.faults self.disk) }
        ensures tells { is_some (K.told (disk_after result)) ≡ is_some (K.told self.disk) }
        ensures same_place { K.place (disk_after result) ≡ K.place self.disk }
        // A crash at any moment of the call leaves the records from before it, or these and the new one; and so does the call.
        ensures any_moment { (entries : List Record) → Holds K.told entries self
            → LeavesOneOf K.told entries (record { moment = moment; place = place; event = event_in event.entry }) self (disk_after result) }
    {
        crashes_by_acts();
        crashes_after_a_sync();
        let Journal { disk, seed, len } = self;
        let mut disk = disk;
        let numbers = numbers_of(&event);
        let rest = rest_in(&event, &numbers);
        let head = Head {
            size: rest.len() as u32 + COUNTED_BYTES,
            kind: kind_byte(&event),
            moment,
            place,
        };
        let Act::Ready = put_behind(&mut disk, len, head, rest) else {
            return Err(disk);
        };
        Ok(Journal {
            disk,
            seed,
            len: len + (HEAD_BYTES + rest.len()) as u64 + 1,
        })
    }

    /// The seed.
    pub fn seed(&self) -> [u8; 32]
        ensures { result ≡ self.now.seed }
    {
        self.seed
    }

    /// The length of the file, in bytes, up to the closed gate behind the last record.
    pub fn len(&self) -> u64
        ensures { result ≡ self.now.len }
    {
        self.len
    }

    /// The disk, as it stands.
    pub fn into_disk(self) -> K
        ensures { result ≡ self.disk }
    {
        let Journal { disk, .. } = self;
        disk
    }
}
