//! A file that is read and written at places, and may be lost in parts by a crash.

ghost use Rattle.std.specs.Prelude.{◌≡◌, ◌+◌, ◌^◌, ◌≤◌, ◌<◌, ℕ, Option, length, take, drop, IfSome, IsSomeAnd, is_some};
ghost use Rattle.mt_edge.specs.Acts.{Counts as CountsAct};
ghost use Rattle.disks.specs.Crash.{overwritten};
ghost use Rattle.disks.specs.Told.{Changes, Counts, DiskTold, IfLen, Syncs};

use crate::disk_act::DiskAct;
use crate::disk_len::DiskLen;
use mt_edge::Act;

/// An open file. One that tells what it holds goes on telling, and one that doesn't never begins. After a crash between two calls or inside one it may hold
/// whatever `MayLeave` allows at the moment before or after that call.
pub trait Disk {
    ghost use Rattle.disks.specs.declared.disk_act.DiskAct.{DiskAct};

    /// What a read gives, and what the file was asked for, where it tells them.
    ghost told: { Self → Option DiskTold };

    /// The place, from 0, that the file has among those of the `Disks` that opened it. No call changes it.
    ghost place: { Self → ℕ };

    /// How many calls have failed. It stays at 2^64 - 1 once it is there.
    ghost faults: { Self → ℕ };

    /// The length of the file, in bytes. No file is longer than 2^63 - 1.
    fn len(&mut self) -> DiskLen
        ensures short { IfLen result (λ len. len < 2 ^ 63) }
        ensures length { IfSome (told self.old) (λ before. IfLen result (λ len. len ≡ length before.contents)) }
        ensures told { told self.new ≡ told self.old }
        ensures same_place { place self.new ≡ place self.old }
        ensures never_falls { faults self.old ≤ faults self.new }
        ensures counted { Counts result (faults self.old) (faults self.new) };

    /// Reads the bytes from the place `at` on, all that the buffer has room for.
    fn read(&mut self, at: u64, into: &mut [u8]) -> Act
        requires { IfSome (told self.old) (λ before. at + length into.old ≤ length before.contents) }
        ensures bytes { result ≡ Act.Ready → IfSome (told self.old) (λ before. into.new ≡ take (length into.old) (drop at before.contents)) }
        ensures told { told self.new ≡ told self.old }
        ensures same_place { place self.new ≡ place self.old }
        ensures never_falls { faults self.old ≤ faults self.new }
        ensures counted { CountsAct result (faults self.old) (faults self.new) };

    /// Writes the bytes from the place `at` on, past the end where they reach it.
    fn write(&mut self, at: u64, bytes: &[u8]) -> Act
        requires { IfSome (told self.old) (λ before. at ≤ length before.contents) }
        ensures told { IfSome (told self.old) (λ before. IsSomeAnd (told self.new) (λ after.
            Changes result (DiskAct.Write at (length bytes.now)) (overwritten at bytes.now before.contents) before after)) }
        ensures tells { is_some (told self.new) ≡ is_some (told self.old) }
        ensures same_place { place self.new ≡ place self.old }
        ensures never_falls { faults self.old ≤ faults self.new }
        ensures counted { CountsAct result (faults self.old) (faults self.new) };

    /// Cuts the file to its first `len` bytes.
    fn cut(&mut self, len: u64) -> Act
        requires { IfSome (told self.old) (λ before. len ≤ length before.contents) }
        ensures told { IfSome (told self.old) (λ before. IsSomeAnd (told self.new) (λ after.
            Changes result (DiskAct.Cut len) (take len before.contents) before after)) }
        ensures tells { is_some (told self.new) ≡ is_some (told self.old) }
        ensures same_place { place self.new ≡ place self.old }
        ensures never_falls { faults self.old ≤ faults self.new }
        ensures counted { CountsAct result (faults self.old) (faults self.new) };

    /// Makes sure of the file as it is: after a crash it holds what a read gives now.
    fn sync(&mut self) -> Act
        ensures told { IfSome (told self.old) (λ before. IsSomeAnd (told self.new) (λ after. Syncs result before after)) }
        ensures tells { is_some (told self.new) ≡ is_some (told self.old) }
        ensures same_place { place self.new ≡ place self.old }
        ensures never_falls { faults self.old ≤ faults self.new }
        ensures counted { CountsAct result (faults self.old) (faults self.new) };
}
