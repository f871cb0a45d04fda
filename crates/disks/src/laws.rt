//! What follows from the disk model.

ghost use Rattle.std.specs.Prelude.{◌≡◌, ℕ, ◌+◌, ◌≤◌, List, ◌++◌, ◌⊎◌, take, drop, length};
ghost use Rattle.disks.specs.declared.disk_act.DiskAct.{DiskAct};
ghost use Rattle.disks.specs.declared.disk_act.DiskAct.TheVariants.{Write};
ghost use Rattle.disks.specs.Crash.{MayLeave, after_act, synced_at};
ghost use Rattle.disks.specs.Told.{DiskTold, MayHaveLeft, Noted, now};

/// What a crash since a given moment may have left, act by act.
pub fn crashes_by_acts()
    // At the given moment itself it is what a crash now may leave.
    ensures at_once { (told : DiskTold) (left : List ℕ) → MayHaveLeft (length told.acts) told left → MayLeave (now told) left }
    // After one more act it is what it was before, or what a crash now may leave.
    ensures one_more { (since : ℕ) (act : DiskAct) (before after : DiskTold) (left : List ℕ) → after.first ≡ before.first → Noted act before after
        → MayHaveLeft since after left → MayHaveLeft since before left ⊎ MayLeave (now after) left }
    // A call that noted nothing changes nothing of it.
    ensures no_more { (since : ℕ) (before after : DiskTold) (left : List ℕ) → after.first ≡ before.first → after.acts ≡ before.acts
        → MayHaveLeft since after left → MayHaveLeft since before left }
{}

/// What a crash may leave after a sync, and after one write behind it.
pub fn crashes_after_a_sync()
    // After a sync it is what a read gave then.
    ensures synced { (bytes left : List ℕ) → MayLeave (synced_at bytes) left → left ≡ bytes }
    // After a write behind the end it begins with that.
    ensures behind { (bytes left : List ℕ) (count : ℕ) → MayLeave (after_act (synced_at bytes) (Write (length bytes) count)) left
        → left ≡ bytes ++ drop (length bytes) left }
    // After a write inside it is that but for what was written.
    ensures inside { (bytes left : List ℕ) (at count : ℕ) → at + count ≤ length bytes → MayLeave (after_act (synced_at bytes) (Write at count)) left
        → left ≡ take at bytes ++ (take count (drop at left) ++ drop (at + count) bytes) }
{}
