//! Files that are read whole, by name.

ghost use Rattle.std.specs.Prelude.{◌≡◌, ◌≢◌, ◌<◌, ◌≤◌, ◌+◌, ℕ, Option, length, IfSome, IsSome, IsSomeAnd};
ghost use Rattle.mt_edge.specs.Files.{Asks, Counts, FilesTold, IfContents};

use octets::Octets;
use std::alloc::Global;
use std::fmt;

/// A file.
#[derive(Drop)]
pub struct NamedFile {
    /// Its name.
    pub name: Octets,
    /// Its contents.
    pub contents: Octets,
}

impl fmt::Debug for NamedFile {
    /// The name, and how many bytes it has: they may be keys.
    fn fmt<W: fmt::Write>(&self, f: &mut fmt::Formatter<W>) -> fmt::Result {
        f.debug_struct("NamedFile")
            .field("name", &self.name)
            .field("count", &self.contents.as_slice().len())
            .finish_non_exhaustive()
    }
}

/// The answer of a read of a file.
#[derive(Drop)]
pub enum FileGot {
    /// All of the file, at most 1,048,576 bytes.
    Contents(Octets),
    /// There is no such file, it is longer, or the read failed.
    Failed,
    /// Memory ran out.
    Memory,
}

impl fmt::Debug for FileGot {
    /// What it is, and how many bytes of contents: they may be keys.
    fn fmt<W: fmt::Write>(&self, f: &mut fmt::Formatter<W>) -> fmt::Result {
        match self {
            FileGot::Contents(contents) => f
                .debug_struct("Contents")
                .field("count", &contents.as_slice().len())
                .finish_non_exhaustive(),
            FileGot::Failed => f.write_str("Failed"),
            FileGot::Memory => f.write_str("Memory"),
        }
    }
}

/// Files that are read whole. What they tell now, they told before each call. A read that gives contents leaves them
/// telling; so does one that fails while there is room to note it, and the first one.
pub trait KeyFiles {
    /// The files by name, and the names that were asked for, where they are told.
    ghost told: { Self → Option FilesTold };

    /// How many more reads they can note, failed ones among them.
    ghost room: { Self → ℕ };

    /// How many reads have failed. It stays at 2^64 - 1 once it is there.
    ghost faults: { Self → ℕ };

    /// The contents of the file of this name.
    fn read(&mut self, alloc: Global, name: &str) -> FileGot
        ensures short { IfContents result (λ contents. length contents ≤ 1048576) }
        ensures told { IfSome (told self.new) (λ after. IsSomeAnd (told self.old) (λ before. Asks result name.now before after)) }
        ensures goes_on { IfContents result (λ _. IsSome (told self.old) → IsSome (told self.new)) }
        ensures first_fault { IsSome (told self.old) → result ≡ FileGot.Failed → faults self.old ≡ 0 → IsSome (told self.new) }
        ensures still_tells { IsSome (told self.old) → result ≢ FileGot.Memory → 0 < room self.old → IsSome (told self.new) }
        ensures room { room self.old ≤ room self.new + 1 }
        ensures never_falls { faults self.old ≤ faults self.new }
        ensures counted { Counts result (faults self.old) (faults self.new) };
}
