//! What follows from the definitions of records, and what comes back after a crash, as contracts of functions that do nothing.

ghost use Rattle.std.specs.Prelude.{◌≡◌, ◌++◌, [], true, ℕ, List, Some, IsSomeAnd, is_some};
ghost use Rattle.disks.specs.Told.{DiskTold};
ghost use Rattle.sess_records.specs.declared.records.Record.{Record};
ghost use Rattle.envelope.specs.Lawful.{OpensWhatItSealed};
ghost use Rattle.sess_records.specs.Crashes.{Leaves};
ghost use Rattle.sess_records.specs.Format.{Spells};
ghost use Rattle.server_rules.specs.Server.{Server as Rules, fresh_server};
ghost use Rattle.sess_journal.specs.Back.{ComesBack, HoldsBytes, HoldsSome, MayHold, MayLeaveIn, ReturnsAfter};
ghost use Rattle.sess_journal.specs.Histories.{Comes};
ghost use Rattle.sess_journal.specs.Keeping.{Adds, KeepsFor, Opened, Seen, disk_in};
ghost use Rattle.sess_journal.specs.Opening.{MayBecome};
ghost use Rattle.sess_journal.specs.Files.{IsNoJournalAt};
ghost use Rattle.sess_journal.specs.Replay.{Basis, Reached, Replays, at_first, bases_of};

use disks::Disk;
use disks::laws::{crashes_after_a_sync, crashes_by_acts};
use draws::{Draw, Seeded};
use envelope::Seal;
use sess_records::laws::{calls_in_a_row, files_spell_one_list};

/// Records lead to one server, whose packets open to one envelope each. Those in front of a list of lawful records are lawful.
pub fn records_lead_to_one_server<D: Draw>()
    ensures one { (basis : Basis D) (entries : List Record) (before after other : Reached) → OpensWhatItSealed basis.lock
        → Replays basis entries before after → Replays basis entries before other → after ≡ other }
    ensures parts { (basis : Basis D) (entries more : List Record) (before after : Reached) → Replays basis (entries ++ more) before after
        → (between : Reached) × Replays basis entries before between × Replays basis more between after }
    ensures whole { (basis : Basis D) (entries more : List Record) (before between after : Reached) → Replays basis entries before between
        → Replays basis more between after → Replays basis (entries ++ more) before after }
{}

/// A file that spells lawful records is no journal from no place on.
pub fn lawful_files_are_opened<D: Draw>()
    ensures { (by_seed : List ℕ → Basis D) (seed : List ℕ) (entries : List Record) (reached : Reached) (file : List ℕ) (at : ℕ)
        → OpensWhatItSealed (by_seed seed).lock → Spells seed entries file → Replays (by_seed seed) entries at_first reached
        → IsNoJournalAt by_seed at file → ⊥ }
{
    files_spell_one_list();
}

/// After a crash at any moment of a call of a [`Kept`](crate::Kept), or after the call alone, whoever opens what is left under the
/// same ring has the server of all records from before the call and of the first ones that it added, with a run that was cut
/// off answered as such; and what is left is a journal. After a crash between two calls it is the server of all records, so
/// whatever was answered before a crash is there. After a crash in an opening it is the server of what was there, and of the
/// end that the opening gave to a run that was cut off, or not.
pub fn what_comes_back<K: Disk, S: Seal, D: Seeded>()
    ensures back { (entries more : List Record) (before after desk : Seen K S D) (left : List ℕ) (disk : K) (now : ℕ)
        → Adds (bases_of S.lock S.keys D.step D.standing_at D.place_of) K.told entries more before after → MayHold K.told before.book after.book left
        → HoldsBytes K.told disk left → S.keys desk.server.seal ≡ S.keys before.server.seal
        → Opened (bases_of S.lock S.keys D.step D.standing_at D.place_of) K.told disk now desk
        → ComesBack (bases_of S.lock S.keys D.step D.standing_at D.place_of) K.told entries more now before desk }
    ensures at_rest { (entries : List Record) (server : Rules) (before desk : Seen K S D) (left : List ℕ) (disk : K) (now : ℕ)
        → KeepsFor (bases_of S.lock S.keys D.step D.standing_at D.place_of) K.told entries before server → MayHold K.told before.book before.book left
        → HoldsBytes K.told disk left → S.keys desk.server.seal ≡ S.keys before.server.seal
        → Opened (bases_of S.lock S.keys D.step D.standing_at D.place_of) K.told disk now desk
        → ComesBack (bases_of S.lock S.keys D.step D.standing_at D.place_of) K.told entries [] now before desk }
    ensures in_open { (seal : S) (seed : List ℕ) (entries more : List Record) (reached : Reached) (before after : DiskTold) (earlier now : ℕ) (desk : Seen K S D) (left : List ℕ) (disk : K)
        → Replays (bases_of S.lock S.keys D.step D.standing_at D.place_of seal seed) (entries ++ more) at_first reached → HoldsSome seed entries more before
        → Leaves before after (MayBecome (bases_of S.lock S.keys D.step D.standing_at D.place_of seal) earlier before.contents) → MayLeaveIn before after left
        → HoldsBytes K.told disk left → S.keys desk.server.seal ≡ S.keys seal
        → Opened (bases_of S.lock S.keys D.step D.standing_at D.place_of) K.told disk now desk
        → ReturnsAfter (bases_of S.lock S.keys D.step D.standing_at D.place_of) K.told seal seed entries more earlier now desk }
    ensures is_journal { (entries more : List Record) (before after : Seen K S D) (left : List ℕ) (seal : S) (at : ℕ)
        → Adds (bases_of S.lock S.keys D.step D.standing_at D.place_of) K.told entries more before after → MayHold K.told before.book after.book left
        → S.keys seal ≡ S.keys before.server.seal
        → IsNoJournalAt (bases_of S.lock S.keys D.step D.standing_at D.place_of seal) at left → ⊥ }
{
    S::opens_what_it_sealed();
    crashes_by_acts();
    crashes_after_a_sync();
    calls_in_a_row();
    files_spell_one_list();
    lawful_files_are_opened::<D>();
    records_lead_to_one_server::<D>();
}

/// A disk that tells, and has a new journal, is a journal whatever happens to it: by calls of servers under one ring, whatever
/// they answer, by openings under it, whatever they answer, and by crashes at any moment. So `open` never answers
/// `NotJournal` on it.
pub fn journals_stay_journals<K: Disk, S: Seal, D: Seeded>()
    ensures { (seal : S) (desk : Seen K S D) (first last : K) (disks : List K) (at : ℕ)
        → KeepsFor (bases_of S.lock S.keys D.step D.standing_at D.place_of) K.told [] desk fresh_server → disk_in desk.book ≡ Some first → is_some (K.told first) ≡ true
        → S.keys desk.server.seal ≡ S.keys seal
        → Comes (bases_of S.lock S.keys D.step D.standing_at D.place_of) K.told seal first disks last
        → IsSomeAnd (K.told last) (λ file. IsNoJournalAt (bases_of S.lock S.keys D.step D.standing_at D.place_of seal) at file.contents → ⊥) }
{
    S::opens_what_it_sealed();
    crashes_by_acts();
    crashes_after_a_sync();
    calls_in_a_row();
    files_spell_one_list();
    lawful_files_are_opened::<D>();
    records_lead_to_one_server::<D>();
}
