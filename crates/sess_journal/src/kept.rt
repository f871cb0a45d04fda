//! A server that keeps a journal.

ghost use Rattle.std.specs.Prelude.{◌≡◌, ◌≤◌, ◌<◌, ◌^◌, ℕ, List, [], ◌++◌, None, Some, IfOk, IfErr, IfSome, IsSomeAnd, MatchOption, OnOk, is_some, true};
ghost use Rattle.disks.specs.Told.{DiskTold};
ghost use Rattle.mt_edge.specs.Faults.{Rose};
ghost use Rattle.sess_records.specs.declared.records.Record.{Record};
ghost use Rattle.sess_records.specs.Calls.{HasCause, IfNotJournal};
ghost use Rattle.sess_records.specs.Crashes.{Leaves};
ghost use Rattle.sess_records.specs.Standing.{HasNext, Holds};
ghost use Rattle.server_rules.specs.Server.{fresh_server};
ghost use Rattle.sess_journal.specs.Keeping.{IsSameDisk, KeepsFor, Opened, Resumed, disk_in, ending};
ghost use Rattle.sess_journal.specs.Opening.{IsKeptAfter, IsLawfulFile, MayBecome, disk_left};
ghost use Rattle.sess_journal.specs.Files.{IsNoJournalAt};
ghost use Rattle.sess_journal.specs.Playing.{Follows, IsReady, StandsAt, basis_for};
ghost use Rattle.sess_journal.specs.Replay.{Reached, Replays, at_first, bases_of};

use crate::book::Book;
use crate::laws::lawful_files_are_opened;
use crate::played::{PlayFault, Played};
use disks::Disk;
use draws::Seeded;
use envelope::Seal;
use msg_ids::Moment;
use server_core::Server;
use sess_records::laws::calls_in_a_row;
use sess_records::{Event, Journal, JournalFault, Opening};
use std::alloc::Global;
use std::fmt;
use std::marker::Model;

/// A server that keeps a journal of what it does on a disk, from which it comes back after a crash. Its text by `Debug` has
/// its journal's length alone.
#[derive(Drop)]
pub struct Kept<K: Disk + Drop, S: Seal + Drop, D: Seeded + Drop> {
    pub(crate) book: Book<K>,
    pub(crate) server: Server<S>,
    pub(crate) latest: Moment,
    pub(crate) draw: D,
}

impl<K: Disk + Drop, S: Seal + Drop, D: Seeded + Drop> Model for Kept<K, S, D> {
    ghost use Rattle.sess_journal.specs.Keeping.{Seen};

    ghost Value = { Seen K S D };

    ghost view = { λ kept. record {
      server = kept.server;
      latest = kept.latest;
      draw = kept.draw;
      book = kept.book;
    } };
}

impl<K: Disk + Drop, S: Seal + Drop, D: Seeded + Drop> fmt::Debug for Kept<K, S, D> {
    /// The length of the journal alone, where a call of its disk hasn't failed: all else is a secret, or leads to one.
    fn fmt<W: fmt::Write>(&self, f: &mut fmt::Formatter<W>) -> fmt::Result {
        f.debug_struct("Kept")
            .field("len", &self.book.len())
            .finish_non_exhaustive()
    }
}

impl<K: Disk + Drop, S: Seal + Drop, D: Seeded + Drop> Kept<K, S, D> {
    /// It has its disk, whether its journal is open or closed. Does nothing.
    pub(crate) fn has_disk(&self)
        ensures { is_some (disk_in self.now.book) ≡ true }
    {
        self.book.has_disk();
    }

    /// A server without sessions, jobs and bindings, with a journal without records in the place of all that the disk holds.
    ///
    /// # Errors
    ///
    /// The disk and `Disk`, where a call of it failed; it may hold anything then.
    pub fn create(
        alloc: Global,
        disk: K,
        seal: S,
        seed: &[u8; 32],
    ) -> Result<Kept<K, S, D>, (K, JournalFault)>
        ensures stands { IfOk result (λ kept. KeepsFor (bases_of S.lock S.keys D.step D.standing_at D.place_of) K.told [] kept fresh_server) }
        ensures seal { IfOk result (λ kept. kept.server.seal ≡ seal) }
        ensures seed { IfOk result (λ kept. IsSomeAnd kept.book.journal (λ file. file.seed ≡ seed.now)) }
        ensures cause { IfErr result (λ back. (back.1 ≡ JournalFault.Disk) × Rose (K.faults disk) (K.faults back.0)) }
        ensures counted { IfOk result (λ kept. IsSomeAnd (disk_in kept.book) (λ other. K.faults other ≡ K.faults disk)) }
        ensures same_disk { IsSomeAnd (disk_left result) (IsSameDisk K.told K.place disk) }
    {
        let journal = match Journal::create(disk, seed) {
            Ok(journal) => journal,
            Err(disk) => return Err((disk, JournalFault::Disk)),
        };
        let played = Played::new(alloc, seal, *seed);
        Ok(kept_by(journal, played))
    }

    /// The server of the records that the disk spells. A run that began in the last of them and was cut off is answered, at
    /// the later of this moment and the server's, by `rpc_error 500 RUN_INTERRUPTED`, and recorded so.
    ///
    /// # Errors
    ///
    /// The disk, and `Disk` where a call of it failed, `NotJournal` with the first place where neither a header nor a
    /// lawful record stands, or `Memory`. After `NotJournal` the file is as it was, and after `Memory` it has the same
    /// records.
    pub fn open(
        alloc: Global,
        disk: K,
        seal: S,
        now: Moment,
    ) -> Result<Kept<K, S, D>, (K, JournalFault)>
        // The server is the one that the records of the file lead to, and those of a run that was cut off.
        ensures opened { IfOk result (Opened (bases_of S.lock S.keys D.step D.standing_at D.place_of) K.told disk now) }
        ensures seal { IfOk result (λ kept. kept.server.seal ≡ seal) }
        ensures refused { IfErr result (λ back. IfNotJournal back.1 (λ at. IfSome (K.told disk) (λ before.
            IsNoJournalAt (bases_of S.lock S.keys D.step D.standing_at D.place_of seal) at before.contents))) }
        // A file of lawful records is a journal.
        ensures journals_are_opened { (seed : List ℕ) (entries : List Record) (reached : Reached) → IfSome (K.told disk) (λ before.
            IsLawfulFile (bases_of S.lock S.keys D.step D.standing_at D.place_of seal) seed entries reached before.contents → IfErr result (λ back. IfNotJournal back.1 (λ _. ⊥))) }
        ensures cause { IfErr result (λ back. HasCause back.1 (K.faults disk) (K.faults back.0)) }
        ensures counted { IfOk result (λ kept. IsSomeAnd (disk_in kept.book) (λ other. K.faults other ≡ K.faults disk)) }
        ensures same_disk { IsSomeAnd (disk_left result) (IsSameDisk K.told K.place disk) }
        ensures unchanged { IfErr result (λ back. IfSome (K.told disk) (λ before. IsSomeAnd (K.told back.0) (λ after. IsKeptAfter back.1 before.contents after.contents))) }
        // A crash since an earlier moment leaves what it might have left before, or the file as it was, or its records and the
        // end of a run that was cut off; and so does the call.
        ensures any_moment { IfSome (K.told disk) (λ before. IsSomeAnd (disk_left result) (λ other. IsSomeAnd (K.told other) (λ after.
            Leaves before after (MayBecome (bases_of S.lock S.keys D.step D.standing_at D.place_of seal) now before.contents)))) }
    {
        S::opens_what_it_sealed();
        calls_in_a_row();
        lawful_files_are_opened::<D>();
        let mut opening = match Opening::new(disk) {
            Ok(opening) => opening,
            Err(back) => return Err(back),
        };
        let mut played = Played::new(alloc, seal, opening.seed());
        if let Err(fault) = play_all(alloc, &mut opening, &mut played) {
            return Err((opening.into_disk(), fault));
        }
        match opening.finish() {
            Ok(journal) => resume(alloc, journal, played, now),
            Err(disk) => Err((disk, JournalFault::Disk)),
        }
    }

    /// The length of its journal in bytes, up to the closed gate behind the last record, while that is open.
    pub fn journal_len(&self) -> Option<u64>
        ensures { MatchOption self.now.book.journal (result ≡ None) (λ file. result ≡ Some file.len) }
    {
        self.book.len()
    }

    /// The disk, as it stands.
    pub fn into_disk(self) -> K
        ensures { Some result ≡ disk_in self.book }
    {
        let Kept { book, .. } = self;
        book.into_disk()
    }
}

/// A server with its journal.
fn kept_by<K: Disk + Drop, S: Seal + Drop, D: Seeded + Drop>(
    journal: Journal<K>,
    played: Played<S, D>,
) -> Kept<K, S, D>
    ensures server { result.server ≡ played.server }
    ensures latest { result.latest ≡ played.latest }
    ensures draw { result.draw ≡ played.draw }
    ensures book { result.book ≡ record { journal = Some journal; lost = None } }
{
    let Played {
        server,
        latest,
        draw,
        ..
    } = played;
    Kept {
        book: Book::new(journal),
        server,
        latest,
        draw,
    }
}

/// Plays the next record.
///
/// # Errors
///
/// `Disk`, where a call of the disk failed. `NotJournal`, where no lawful record stands at this place. `Memory`.
fn play_next<K: Disk, S: Seal + Drop, D: Seeded + Drop>(
    alloc: Global,
    opening: &mut Opening<K>,
    played: &mut Played<S, D>,
) -> Result<(), JournalFault>
    requires next { HasNext opening.old }
    requires ready { IsReady played.old }
    requires follows { Follows (bases_of S.lock S.keys D.step D.standing_at D.place_of) K.told opening.old played.old }
    ensures ready { OnOk result (IsReady played.new) }
    ensures follows { OnOk result (Follows (bases_of S.lock S.keys D.step D.standing_at D.place_of) K.told opening.new played.new) }
    ensures refused { IfErr result (λ fault. IfNotJournal fault (λ at. IfSome (K.told opening.old.disk) (λ file. IsNoJournalAt (bases_of S.lock S.keys D.step D.standing_at D.place_of played.old.server.seal) at file.contents))) }
    ensures cause { IfErr result (λ fault. HasCause fault (K.faults opening.old.disk) (K.faults opening.new.disk)) }
    ensures counted { OnOk result (K.faults opening.new.disk ≡ K.faults opening.old.disk) }
    ensures nearer { OnOk result ((opening.old.at < opening.new.at) × (opening.new.at ≤ opening.new.len)) }
    ensures told { K.told opening.new.disk ≡ K.told opening.old.disk }
    ensures same_place { K.place opening.new.disk ≡ K.place opening.old.disk }
    ensures same { (opening.new.seed ≡ opening.old.seed) × (opening.new.len ≡ opening.old.len) }
    ensures same_seal { played.new.server.seal ≡ played.old.server.seal }
{
    let at = opening.place();
    let entry = opening.next(alloc)?;
    match played.play(alloc, &entry) {
        Ok(()) => Ok(()),
        Err(PlayFault::Memory) => Err(JournalFault::Memory),
        Err(PlayFault::Unlawful) => Err(JournalFault::NotJournal { at }),
    }
}

/// Plays all records that follow.
///
/// # Errors
///
/// As for one.
fn play_all<K: Disk, S: Seal + Drop, D: Seeded + Drop>(
    alloc: Global,
    opening: &mut Opening<K>,
    played: &mut Played<S, D>,
) -> Result<(), JournalFault>
    requires inside { opening.old.at ≤ opening.old.len }
    requires ready { IsReady played.old }
    requires follows { Follows (bases_of S.lock S.keys D.step D.standing_at D.place_of) K.told opening.old played.old }
    ensures ready { OnOk result (IsReady played.new) }
    ensures follows { OnOk result (Follows (bases_of S.lock S.keys D.step D.standing_at D.place_of) K.told opening.new played.new) }
    ensures all { OnOk result (HasNext opening.new → ⊥) }
    ensures inside { OnOk result (opening.new.at ≤ opening.new.len) }
    ensures refused { IfErr result (λ fault. IfNotJournal fault (λ at. IfSome (K.told opening.old.disk) (λ file. IsNoJournalAt (bases_of S.lock S.keys D.step D.standing_at D.place_of played.old.server.seal) at file.contents))) }
    ensures cause { IfErr result (λ fault. HasCause fault (K.faults opening.old.disk) (K.faults opening.new.disk)) }
    ensures counted { OnOk result (K.faults opening.new.disk ≡ K.faults opening.old.disk) }
    ensures told { K.told opening.new.disk ≡ K.told opening.old.disk }
    ensures same_place { K.place opening.new.disk ≡ K.place opening.old.disk }
    ensures same { (opening.new.seed ≡ opening.old.seed) × (opening.new.len ≡ opening.old.len) }
    ensures same_seal { played.new.server.seal ≡ played.old.server.seal }
{
    'records: while opening.has_next() {
        play_next(alloc, opening, played)?;
    }
    Ok(())
}

/// Answers a run that was cut off, where one is, and records that.
///
/// # Errors
///
/// The disk, and `Disk` where a call of it failed, or `Memory`.
fn resume<K: Disk + Drop, S: Seal + Drop, D: Seeded + Drop>(
    alloc: Global,
    journal: Journal<K>,
    played: Played<S, D>,
    now: Moment,
) -> Result<Kept<K, S, D>, (K, JournalFault)>
    requires ready { IsReady played }
    requires short { journal.len < 2 ^ 63 }
    ensures resumed { IfOk result (λ kept. (entries : List Record) (reached : Reached) → Holds K.told entries journal
        → played.seed ≡ journal.seed → Replays (basis_for (bases_of S.lock S.keys D.step D.standing_at D.place_of) played) entries at_first reached → StandsAt (bases_of S.lock S.keys D.step D.standing_at D.place_of) reached played
        → Resumed (bases_of S.lock S.keys D.step D.standing_at D.place_of) K.told journal.seed now reached (entries ++ ending now reached) kept) }
    ensures seal { IfOk result (λ kept. kept.server.seal ≡ played.server.seal) }
    ensures cause { IfErr result (λ back. (IfNotJournal back.1 (λ at. ⊥)) × HasCause back.1 (K.faults journal.disk) (K.faults back.0)) }
    ensures counted { IfOk result (λ kept. IsSomeAnd (disk_in kept.book) (λ other. K.faults other ≡ K.faults journal.disk)) }
    ensures same_disk { IsSomeAnd (disk_left result) (IsSameDisk K.told K.place journal.disk) }
    ensures unchanged { IfErr result (λ back. back.1 ≡ JournalFault.Memory → back.0 ≡ journal.disk) }
    // Since an earlier moment, at which the file spelt these records.
    ensures any_moment { (first : DiskTold) (entries : List Record) (reached : Reached) → Holds K.told entries journal → played.seed ≡ journal.seed
        → IsLawfulFile (bases_of S.lock S.keys D.step D.standing_at D.place_of played.server.seal) journal.seed entries reached first.contents
        → StandsAt (bases_of S.lock S.keys D.step D.standing_at D.place_of) reached played
        → IfSome (K.told journal.disk) (λ before. IsSomeAnd (disk_left result) (λ other. IsSomeAnd (K.told other) (λ after.
        Leaves first before (MayBecome (bases_of S.lock S.keys D.step D.standing_at D.place_of played.server.seal) now first.contents)
        → Leaves first after (MayBecome (bases_of S.lock S.keys D.step D.standing_at D.place_of played.server.seal) now first.contents)))) }
{
    let Some(_job) = played.begun else {
        return Ok(kept_by(journal, played));
    };
    let mut played = played;
    let place = played.draw.place();
    let moment = played.latest.later(now).seconds();
    let Ok(_done) = played.interrupted(alloc, moment, place) else {
        return Err((journal.into_disk(), JournalFault::Memory));
    };
    match journal.add(moment, place, Event::Interrupted) {
        Ok(journal) => Ok(kept_by(journal, played)),
        Err(disk) => Err((disk, JournalFault::Disk)),
    }
}
