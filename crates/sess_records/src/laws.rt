//! What follows from the format.

ghost use Rattle.std.specs.Prelude.{◌≡◌, ◌≢◌, ◌≤◌, ◌+◌, ◌++◌, ◌∷◌, [], ℕ, List, length};
ghost use Rattle.disks.specs.Told.{DiskTold};
ghost use Rattle.sess_records.specs.declared.records.Record.{Record};
ghost use Rattle.sess_records.specs.declared.records.Event.TheVariants.{Begin, Ran};
ghost use Rattle.sess_records.specs.Crashes.{LeavesOnly};
ghost use Rattle.sess_records.specs.Format.{IsFault, IsReply, Reached, Spells, open_gate, size_of, spelt, work_bytes};
ghost use Rattle.sess_records.specs.Standing.{Behind, Settled, SpellsOneOf, SpellsSome};

/// A file spells one list or none, and is no journal from one place on. What an opening has read of it is the front of
/// that list.
pub fn files_spell_one_list()
    ensures seed { (seed other : List ℕ) (entries others : List Record) (file : List ℕ) → Spells seed entries file → Spells other others file → seed ≡ other }
    ensures entries { (seed other : List ℕ) (entries others : List Record) (file : List ℕ) → Spells seed entries file → Spells other others file → entries ≡ others }
    ensures front { (seed other : List ℕ) (entries others : List Record) (gate at : ℕ) (file : List ℕ) → Reached seed entries gate at file → Spells other others file
        → (seed ≡ other) × ((more : List Record) × (others ≡ entries ++ more)) }
    ensures no_fault { (seed : List ℕ) (entries : List Record) (at : ℕ) (file : List ℕ) → Spells seed entries file → IsFault at file → ⊥ }
    ensures one_fault { (at other : ℕ) (file : List ℕ) → IsFault at file → IsFault other file → at ≡ other }
{}

/// How many bytes records add to a file, and how many those of one run add at most.
pub fn records_have_sizes()
    ensures spelt { (entry : Record) → length (spelt entry) + 1 ≡ size_of entry.event }
    ensures work { (job : ℕ) (reply : List ℕ) → IsReply reply → size_of (Begin job) + size_of (Ran reply) ≤ work_bytes }
{}

/// What the calls of a journal and of an opening leave one after the other.
pub fn calls_in_a_row()
    // A settled file spells its records, and one that was read up to a closed gate those that were read.
    ensures spells { (seed : List ℕ) (entries : List Record) (len : ℕ) (told : DiskTold) → Settled seed entries len told → Spells seed entries told.contents }
    ensures read { (seed : List ℕ) (entries : List Record) (gate at len : ℕ) (told : DiskTold) → Behind seed entries gate at len told → gate ≢ open_gate → Spells seed entries told.contents }
    // A call that adds one record adds some.
    ensures one { (seed : List ℕ) (entries : List Record) (entry : Record) (before after : DiskTold)
        → LeavesOnly before after (SpellsOneOf seed entries entry) → LeavesOnly before after (SpellsSome seed entries (entry ∷ [])) }
    // Calls that add some records, and others behind them, leave some of all of these.
    ensures more { (seed : List ℕ) (entries some others : List Record) (before between after : DiskTold)
        → LeavesOnly before between (SpellsSome seed entries some) → LeavesOnly between after (SpellsSome seed (entries ++ some) others)
        → LeavesOnly before after (SpellsSome seed entries (some ++ others)) }
{}
