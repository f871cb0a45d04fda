//! A connection.

ghost use Rattle.std.specs.Prelude.{◌≡◌, ◌≢◌, ◌<◌, ◌≤◌, ◌+◌, ℕ, Option, length, true, IfSome, IsSome, IsSomeAnd};
ghost use Rattle.mt_edge.specs.Got.{IsWithin, Counts};
ghost use Rattle.mt_edge.specs.Put.{IsWithin as IsPutWithin, Counts as CountsPut};
ghost use Rattle.mt_edge.specs.Links.{Standing, Told, ReadsOver, WritesOver};

use crate::sink::Put;
use crate::source::Got;

/// One end of a connection. What it tells now, it told before each call. Each write leaves it telling, failed or not; so
/// does a read that doesn't fail, and one that fails while there is room to note it, and the first one.
pub trait Link {
    /// What came, what is left, what was written, and the reads, where the link tells them.
    ghost told: { Self → Option Told };

    /// The place that the call that handed the link out has in the record of its net, and whether the link is closed. Only
    /// `close` changes it.
    ghost standing: { Self → Standing };

    /// How many more reads it can note, failed ones among them.
    ghost room: { Self → ℕ };

    /// How many reads and writes have failed. It stays at 2^64 - 1 once it is there.
    ghost faults: { Self → ℕ };

    /// Reads into a buffer that isn't empty. On a closed link it fails.
    fn read(&mut self, into: &mut [u8]) -> Got
        requires { 0 < length into.old }
        ensures within { IsWithin result (length into.new) }
        ensures closed { (standing self.old).closed ≡ true → result ≡ Got.Failed }
        ensures told { IfSome (told self.new) (λ after. IsSomeAnd (told self.old) (λ before. ReadsOver result into.new before after)) }
        ensures goes_on { IsSome (told self.old) → result ≢ Got.Failed → IsSome (told self.new) }
        ensures first_fault { IsSome (told self.old) → faults self.old ≡ 0 → IsSome (told self.new) }
        ensures still_tells { IsSome (told self.old) → 0 < room self.old → IsSome (told self.new) }
        ensures room { room self.old ≤ room self.new + 1 }
        ensures same_standing { standing self.new ≡ standing self.old }
        ensures never_falls { faults self.old ≤ faults self.new }
        ensures counted { Counts result (faults self.old) (faults self.new) };

    /// Writes from a piece that isn't empty. On a closed link it fails.
    fn write(&mut self, piece: &[u8]) -> Put
        requires { 0 < length piece.now }
        ensures within { IsPutWithin result (length piece.now) }
        ensures closed { (standing self.old).closed ≡ true → result ≡ Put.Failed }
        ensures told { IfSome (told self.new) (λ after. IsSomeAnd (told self.old) (λ before. WritesOver result piece.now before after)) }
        ensures still_tells { IsSome (told self.old) → IsSome (told self.new) }
        ensures same_room { room self.new ≡ room self.old }
        ensures same_standing { standing self.new ≡ standing self.old }
        ensures never_falls { faults self.old ≤ faults self.new }
        ensures counted { CountsPut result (faults self.old) (faults self.new) };

    /// Closes the connection. What it tells, its room, its place and its count stay.
    fn close(&mut self)
        ensures told { told self.new ≡ told self.old }
        ensures same_room { room self.new ≡ room self.old }
        ensures same_place { (standing self.new).place ≡ (standing self.old).place }
        ensures closed { (standing self.new).closed ≡ true }
        ensures counted { faults self.new ≡ faults self.old };
}
