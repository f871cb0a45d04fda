//! The journal of a desk, until a call of its disk fails.

ghost use Rattle.std.specs.Prelude.{◌≡◌, ◌≤◌, ◌<◌, ◌+◌, true, None, Some, List, IfOk, IfErr, IfSome, IsSomeAnd, OnOk, MatchOption, is_some};
ghost use Rattle.server_core.specs.declared.desk.DeskFault.TheVariants as faults;
ghost use Rattle.sess_records.specs.declared.records.Record.{Record};
ghost use Rattle.sess_records.specs.Calls.{event_in};
ghost use Rattle.sess_records.specs.Format.{IsEvent, size_of};
ghost use Rattle.sess_records.specs.Standing.{Holds, LeavesOneOf};
ghost use Rattle.sess_journal.specs.Keeping.{Added, HasCounted, IsSameDisk, OfDisks, disk_in, journal_bytes_max};

use disks::Disk;
use server_core::DeskFault;
use sess_records::{Event, Journal};
use std::marker::Model;

/// How long a journal may be, in bytes.
pub const JOURNAL_BYTES_MAX: u64 = 268_435_456;

/// The journal of a desk, until a call of its disk fails, and the disk from then on.
#[derive(Drop)]
pub(crate) struct Book<K: Disk + Drop> {
    journal: Option<Journal<K>>,
    lost: Option<K>,
}

impl<K: Disk + Drop> Model for Book<K> {
    ghost use Rattle.std.specs.Prelude.{◌≡◌, is_none, is_some};
    ghost use Rattle.sess_journal.specs.Keeping.{Book as Seen};

    ghost Value = { Seen K };

    ghost view = { λ book. record { journal = book.journal; lost = book.lost } };

    ghost invariant = { λ book. is_some book.lost ≡ is_none book.journal };
}

impl<K: Disk + Drop> Book<K> {
    /// This journal.
    pub(crate) fn new(journal: Journal<K>) -> Book<K>
        ensures { result ≡ record { journal = Some journal; lost = None } }
    {
        Book {
            journal: Some(journal),
            lost: None,
        }
    }

    /// Its disk is there, whether the journal is open or closed. Does nothing.
    #[tactic(auto, using(crate::proofs::TraitLemmas::disk_there))]
    pub(crate) fn has_disk(&self)
        ensures { is_some (disk_in self.now) ≡ true }
    {
        let _ = self.lost.is_some();
    }

    /// The length of the journal in bytes, while it is open.
    pub(crate) fn len(&self) -> Option<u64>
        ensures { MatchOption self.now.journal (result ≡ None) (λ file. result ≡ Some file.len) }
    {
        let journal = self.journal.as_ref()?;
        Some(journal.len())
    }

    /// The seed, where the journal is open and has room for so many bytes more.
    ///
    /// # Errors
    ///
    /// `Closed`, and then `Full`.
    pub(crate) fn seed_with_room(&self, bytes: u64) -> Result<[u8; 32], DeskFault>
        ensures open { IfOk result (λ seed. IsSomeAnd self.now.journal (λ file. (seed ≡ file.seed) × (file.len + bytes ≤ journal_bytes_max))) }
        ensures refused { IfErr result (λ fault. MatchOption self.now.journal (fault ≡ faults.Closed) (λ file. (fault ≡ faults.Full file.len) × (journal_bytes_max < file.len + bytes))) }
    {
        let Some(journal) = &self.journal else {
            return Err(DeskFault::Closed);
        };
        let len = journal.len();
        if len > JOURNAL_BYTES_MAX || bytes > JOURNAL_BYTES_MAX - len {
            return Err(DeskFault::Full { len });
        }
        Ok(journal.seed())
    }

    /// Adds a record.
    ///
    /// # Errors
    ///
    /// `Disk`, and then it is closed.
    pub(crate) fn add(
        &mut self,
        moment: u64,
        place: u64,
        event: Event<&[u8]>,
    ) -> Result<(), DeskFault>
        requires open { is_some self.old.journal ≡ true }
        requires lawful { IsEvent (event_in event) }
        requires room { IfSome self.old.journal (λ file. file.len + size_of (event_in event) ≤ journal_bytes_max) }
        ensures added { OnOk result (IfSome self.old.journal (λ before. IsSomeAnd self.new.journal (Added K.told before (record { moment = moment; place = place; event = event_in event.entry })))) }
        ensures disk { IfErr result (λ fault. fault ≡ faults.Disk) }
        ensures counted { HasCounted K.faults result self.old self.new }
        ensures same_disk { OfDisks self.old self.new (IsSameDisk K.told K.place) }
        ensures any_moment { IfSome self.old.journal (λ before. IsSomeAnd (disk_in self.new) (λ disk. (entries : List Record) → Holds K.told entries before
            → LeavesOneOf K.told entries (record { moment = moment; place = place; event = event_in event.entry }) before disk)) }
    {
        let journal = self.journal.take().unwrap();
        match journal.add(moment, place, event) {
            Ok(journal) => {
                self.journal = Some(journal);
                Ok(())
            }
            Err(disk) => {
                self.lost = Some(disk);
                Err(DeskFault::Disk)
            }
        }
    }

    /// The disk, as it stands.
    pub(crate) fn into_disk(self) -> K
        ensures { Some result ≡ disk_in self }
    {
        let Book { journal, lost } = self;
        match journal {
            Some(journal) => journal.into_disk(),
            None => lost.unwrap(),
        }
    }
}
