//! Programs that this one starts.

ghost use Rattle.std.specs.Prelude.{◌≡◌, ◌≤◌, ℕ, List, Option, map, string_bytes, IfSome, IsSomeAnd};
ghost use Rattle.mt_edge.specs.Acts.{Counts as CountsAct};
ghost use Rattle.mt_edge.specs.Kids.{Counts, NotesAct, NotesLine};

use crate::act::Act;
use crate::kid_call::KidCall;
use octets::Octets;
use std::alloc::Global;

/// The answer of a read of a line.
#[derive(Debug, Drop)]
pub enum Line {
    /// The next line, without its end.
    Text(Octets),
    /// No line is left.
    End,
    /// The read failed.
    Failed,
    /// Memory ran out.
    Memory,
}

/// What starts a program, reads the lines that it writes, and waits for its end. A start that failed started nothing, so
/// lines and the end are still those of the program before it. One that tells its calls goes on telling them; a call that
/// failed may be left out of its record.
pub trait Spawner {
    ghost use Rattle.mt_edge.specs.declared.kid_call.KidCall.{KidCall};

    /// The calls in order, a start with its words, where the spawner tells them.
    ghost calls: { Self → Option (List KidCall) };

    /// How many calls have failed. It stays at 2^64 - 1 once it is there.
    ghost faults: { Self → ℕ };

    /// Starts the program with these words. Where it fails, the program that was started last stays the one before it.
    fn start(&mut self, words: &[String]) -> Act
        ensures told { IfSome (calls self.old) (λ before. IsSomeAnd (calls self.new) (λ after. NotesAct result (KidCall.Start (map string_bytes words.now) result) before after)) }
        ensures never_falls { faults self.old ≤ faults self.new }
        ensures counted { CountsAct result (faults self.old) (faults self.new) };

    /// The next line that the program that was started last wrote.
    fn line(&mut self, alloc: Global) -> Line
        ensures told { IfSome (calls self.old) (λ before. IsSomeAnd (calls self.new) (λ after. NotesLine result (KidCall.Line result) before after)) }
        ensures never_falls { faults self.old ≤ faults self.new }
        ensures counted { Counts result (faults self.old) (faults self.new) };

    /// Waits for the end of the program that was started last. It is `Ready` exactly where it ended with status 0.
    fn wait(&mut self) -> Act
        ensures told { IfSome (calls self.old) (λ before. IsSomeAnd (calls self.new) (λ after. NotesAct result (KidCall.Wait result) before after)) }
        ensures never_falls { faults self.old ≤ faults self.new }
        ensures counted { CountsAct result (faults self.old) (faults self.new) };
}
