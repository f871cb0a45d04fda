//! A journal that is read, record by record.

use crate::fault::JournalFault;
use crate::header::{HEADER_BYTES, look};
use crate::journal::Journal;
use crate::reading::record_at;
use crate::records::Record;
use crate::writes::{OPEN, trim};
use disks::Disk;
use disks::laws::{crashes_after_a_sync, crashes_by_acts};
use mt_edge::Act;
use std::alloc::Global;
use std::fmt;
use std::marker::Model;

/// A journal that is read from its first record on. It has taken some records, and knows whether another has to follow.
/// Its text by `Debug` has its place alone.
#[derive(Drop)]
pub struct Opening<K: Disk> {
    disk: K,
    seed: [u8; 32],
    at: u64,
    gate: u8,
    len: u64,
}

impl<K: Disk> Model for Opening<K> {
    ghost use Rattle.sess_records.specs.Seen.{Reading};
    ghost use Rattle.sess_records.specs.Standing.{IsOpening};

    ghost Value = { Reading K };

    ghost view = { λ o. record { disk = o.disk; seed = o.seed; at = o.at; gate = o.gate; len = o.len } };

    ghost invariant = { λ o. IsOpening o.seed o.gate o.at o.len (K.told o.disk) };
}

impl<K: Disk> fmt::Debug for Opening<K> {
    /// The place alone: who knows the seed knows what a server draws.
    fn fmt<W: fmt::Write>(&self, f: &mut fmt::Formatter<W>) -> fmt::Result {
        f.debug_struct("Opening")
            .field("place", &self.at)
            .finish_non_exhaustive()
    }
}

impl<K: Disk> Opening<K> {
    ghost use Rattle.std.specs.Prelude.{◌≡◌, ◌≢◌, ◌<◌, ◌≤◌, ◌+◌, ◌^◌, ◌++◌, ◌∷◌, [], List, IsTrue, ◌↔◌, IfOk, IfErr, OnOk, OnErr, IfSome, IsSomeAnd, is_some};
    ghost use Rattle.mt_edge.specs.Faults.{Rose};
    ghost use Rattle.sess_records.specs.declared.records.Record.{Record};
    ghost use Rattle.sess_records.specs.Crashes.{Leaves};
    ghost use Rattle.sess_records.specs.Format.{IsFault, IsRecord, size_of};
    ghost use Rattle.sess_records.specs.Standing.{HasNext, HasTaken, Holds, LeavesTaken};
    ghost use Rattle.sess_records.specs.Calls.{HasCause, IfNotJournal, Stays, disk_after, disk_of};

    /// Whether the next gate is open, so that a record has to follow.
    pub fn has_next(&self) -> bool
        ensures { IsTrue result ↔ HasNext self.now }
    {
        self.gate == OPEN
    }

    /// The place behind the next gate, where the next record stands if there is one.
    pub fn place(&self) -> u64
        ensures { result ≡ self.now.at }
    {
        self.at
    }

    /// The seed.
    pub fn seed(&self) -> [u8; 32]
        ensures { result ≡ self.now.seed }
    {
        self.seed
    }

    /// The disk, as it stands.
    pub fn into_disk(self) -> K
        ensures { result ≡ self.disk }
    {
        let Opening { disk, .. } = self;
        disk
    }

    /// A journal from its first record on. The disk is made sure of as it stands before anything is read.
    ///
    /// # Errors
    ///
    /// The disk, and `Disk` where a call of it failed, or `NotJournal` at 0 where the file doesn't begin with a header; the
    /// file stays as it is then.
    pub fn new(disk: K) -> Result<Opening<K>, (K, JournalFault)>
        ensures empty { IfOk result (λ opening. HasTaken K.told [] opening) }
        ensures same { IfOk result (λ opening. IfSome (K.told disk) (λ before. IsSomeAnd (K.told opening.disk) (λ after. after.contents ≡ before.contents))) }
        ensures place { IfOk result (λ opening. (opening.at ≡ 41) × (41 ≤ opening.len)) }
        ensures short { IfOk result (λ opening. opening.len < 2 ^ 63) }
        ensures refused { IfErr result (λ back. IfNotJournal back.1 (λ at. (at ≡ 0) × IfSome (K.told disk) (λ before. IsFault at before.contents))) }
        ensures unchanged { IfErr result (λ back. IfNotJournal back.1 (λ _. IfSome (K.told disk) (λ before. IsSomeAnd (K.told back.0) (λ after. after.contents ≡ before.contents)))) }
        ensures not_memory { IfErr result (λ back. back.1 ≢ JournalFault.Memory) }
        ensures cause { IfErr result (λ back. HasCause back.1 (K.faults disk) (K.faults back.0)) }
        ensures counted { IfOk result (λ opening. K.faults opening.disk ≡ K.faults disk) }
        ensures tells { is_some (K.told (disk_of result)) ≡ is_some (K.told disk) }
        ensures same_place { K.place (disk_of result) ≡ K.place disk }
        // A crash since an earlier moment leaves what it might have left before, or what a read gave; and so does the call.
        ensures any_moment { IfSome (K.told disk) (λ before. IsSomeAnd (K.told (disk_of result)) (λ after. Leaves before after (λ left. left ≡ before.contents))) }
    {
        let mut disk = disk;
        let front = match look(&mut disk) {
            Ok(front) => front,
            Err(fault) => return Err((disk, fault)),
        };
        let seed = front.seed;
        Ok(Opening {
            disk,
            seed,
            at: HEADER_BYTES as u64,
            gate: front.gate,
            len: front.len,
        })
    }

    /// The next record, which is lawful by itself. It takes memory for its own bytes alone.
    ///
    /// # Errors
    ///
    /// `Disk`, where a call of the disk failed. `NotJournal`, where no record stands at this place. `Memory`. The opening
    /// stays at this place.
    pub fn next(&mut self, alloc: Global) -> Result<Record, JournalFault>
        requires next { HasNext self.old }
        ensures taken { IfOk result (λ entry. (entries : List Record) → HasTaken K.told entries self.old → HasTaken K.told (entries ++ entry ∷ []) self.new) }
        ensures lawful { IfOk result (λ entry. IsRecord entry) }
        ensures goes_on { IfOk result (λ entry. self.new.at ≡ self.old.at + size_of entry.event) }
        ensures nearer { OnOk result ((self.old.at < self.new.at) × (self.new.at ≤ self.new.len)) }
        ensures refused { IfErr result (λ fault. IfNotJournal fault (λ at. (at ≡ self.old.at) × IfSome (K.told self.old.disk) (λ file. (entries : List Record)
            → HasTaken K.told entries self.old → IsFault at file.contents))) }
        ensures unchanged { OnErr result (Stays self.old self.new) }
        ensures cause { IfErr result (λ fault. HasCause fault (K.faults self.old.disk) (K.faults self.new.disk)) }
        ensures counted { OnOk result (K.faults self.new.disk ≡ K.faults self.old.disk) }
        ensures told { K.told self.new.disk ≡ K.told self.old.disk }
        ensures same { (self.new.seed ≡ self.old.seed) × (self.new.len ≡ self.old.len) }
        ensures same_place { K.place self.new.disk ≡ K.place self.old.disk }
    {
        let found = record_at(alloc, &mut self.disk, self.at, self.len)?;
        self.at = found.next;
        self.gate = found.gate;
        Ok(found.entry)
    }

    /// The journal of all records that were taken. What stands behind the closed gate is cut, and that is made sure of.
    ///
    /// # Errors
    ///
    /// The disk, where a call of it failed; it is to be opened again, and has the same records.
    pub fn finish(self) -> Result<Journal<K>, K>
        requires no_next { HasNext self → ⊥ }
        ensures holds { IfOk result (λ journal. (entries : List Record) → HasTaken K.told entries self → Holds K.told entries journal) }
        ensures seed { IfOk result (λ journal. journal.seed ≡ self.seed) }
        ensures len { IfOk result (λ journal. journal.len ≡ self.at) }
        ensures cause { IfErr result (λ back. Rose (K.faults self.disk) (K.faults back)) }
        ensures counted { IfOk result (λ journal. K.faults journal.disk ≡ K.faults self.disk) }
        ensures tells { is_some (K.told (disk_after result)) ≡ is_some (K.told self.disk) }
        ensures same_place { K.place (disk_after result) ≡ K.place self.disk }
        ensures any_moment { (entries : List Record) → HasTaken K.told entries self → LeavesTaken K.told entries self (disk_after result) }
    {
        crashes_by_acts();
        crashes_after_a_sync();
        let Opening { disk, seed, at, .. } = self;
        let mut disk = disk;
        let Act::Ready = trim(&mut disk, at) else {
            return Err(disk);
        };
        Ok(Journal {
            disk,
            seed,
            len: at,
        })
    }
}
