//! Files that are opened by name.

ghost use Rattle.std.specs.Prelude.{◌≡◌, ◌≤◌, ℕ, Option, IfSome, IsSome, IsSomeAnd};
ghost use Rattle.disks.specs.Crash.{MayLeave};
ghost use Rattle.disks.specs.Told.{now};
ghost use Rattle.disks.specs.Named.{ByDisk, Closes, Counts, CountsDone, IfDisk, NamesTold, Opens, OpensNone};

use crate::disk::Disk;

/// The answer of an attempt to open a file.
#[derive(Debug, Drop)]
pub enum DiskOpen<K> {
    /// The open file.
    Disk(K),
    /// The attempt failed.
    Failed,
}

/// Files that are opened by name. What they tell now, they told before each call, and those that tell go on telling.
pub trait Disks {
    /// An open file.
    type K: Disk;

    /// The files by name, and the names that were asked for, where they are told.
    ghost told: { Self → Option NamesTold };

    /// How many calls have failed, and how many files came back with faults. It stays at 2^64 - 1 once it is there.
    ghost faults: { Self → ℕ };

    /// Opens the file of this name.
    fn open(&mut self, name: &str) -> DiskOpen<Self::K>
        ensures no_fault_yet { IfDisk result (λ disk. Self.K.faults disk ≡ 0) }
        // What a read gives is one of the contents that a crash now may leave.
        ensures possible { IfDisk result (λ disk. IfSome (Self.K.told disk) (λ holds. MayLeave (now holds) holds.contents)) }
        ensures told { IfSome (told self.new) (λ after. IsSomeAnd (told self.old) (λ before. ByDisk result
            (λ disk. IsSomeAnd (Self.K.told disk) (λ holds. Opens name.now (Self.K.place disk) holds.contents before after))
            (OpensNone name.now before after))) }
        ensures goes_on { IsSome (told self.old) → IsSome (told self.new) }
        ensures never_falls { faults self.old ≤ faults self.new }
        ensures counted { Counts result (faults self.old) (faults self.new) };

    /// Takes an open file back, which it handed out. It is closed then.
    fn done(&mut self, disk: Self::K)
        ensures told { IfSome (told self.new) (λ after. IsSomeAnd (told self.old) (λ before. IsSomeAnd (Self.K.told disk) (λ holds.
            Closes (Self.K.place disk) holds.contents before after))) }
        ensures goes_on { IsSome (told self.old) → IsSome (told self.new) }
        ensures never_falls { faults self.old ≤ faults self.new }
        ensures counted { CountsDone (Self.K.faults disk) (faults self.old) (faults self.new) };
}
