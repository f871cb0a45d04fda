//! What is written to a disk, and what a crash leaves of it.

ghost use Rattle.std.specs.Prelude.{◌≡◌, ◌<◌, ◌≤◌, ◌+◌, ◌^◌, ◌++◌, ◌∷◌, [], ℕ, List, length, IfSome, IsSomeAnd, is_some};
ghost use Rattle.mt_edge.specs.Acts.{Counts as CountsAct};
ghost use Rattle.mt_edge.specs.declared.act.Act.{Act};
ghost use Rattle.sess_records.specs.Steps.{Appends, Opens, Settles, Shortens, Staged, Stages, Trims, Turns};
ghost use Rattle.sess_records.specs.Standing.{IsSure};

use disks::Disk;
use disks::laws::{crashes_after_a_sync, crashes_by_acts};
use mt_edge::Act;

/// A gate that is open.
pub(crate) const OPEN: u8 = 1;

/// A closed gate, as it is written.
pub(crate) const CLOSED: u8 = 0;

/// Writes bytes behind the end.
fn append<K: Disk>(disk: &mut K, end: u64, bytes: &[u8]) -> Act
    requires { IfSome (K.told disk.old) (λ before. end ≡ length before.contents) }
    ensures longer { result ≡ Act.Ready → IfSome (K.told disk.old) (λ before. IsSomeAnd (K.told disk.new) (λ after. length after.contents ≡ end + length bytes.now)) }
    ensures enough { result ≡ Act.Ready → (place : ℕ) → place ≤ end → IfSome (K.told disk.new) (λ after. place ≤ length after.contents) }
    ensures appended { IfSome (K.told disk.old) (λ before. IsSomeAnd (K.told disk.new) (λ after. (base tail : List ℕ) → Staged base tail before → Appends result base (tail ++ bytes.now) before after)) }
    ensures tells { is_some (K.told disk.new) ≡ is_some (K.told disk.old) }
    ensures counted { CountsAct result (K.faults disk.old) (K.faults disk.new) }
    ensures same_place { K.place disk.new ≡ K.place disk.old }
{
    crashes_by_acts();
    disk.write(end, bytes)
}

/// Makes sure of a disk as it stands.
pub(crate) fn settle<K: Disk>(disk: &mut K) -> Act
    ensures settled { IfSome (K.told disk.old) (λ before. IsSomeAnd (K.told disk.new) (λ after. Settles result before after)) }
    ensures tells { is_some (K.told disk.new) ≡ is_some (K.told disk.old) }
    ensures counted { CountsAct result (K.faults disk.old) (K.faults disk.new) }
    ensures same_place { K.place disk.new ≡ K.place disk.old }
{
    crashes_by_acts();
    crashes_after_a_sync();
    disk.sync()
}

/// Writes an open gate at a place.
fn open_at<K: Disk>(disk: &mut K, gate: u64) -> Act
    requires { IfSome (K.told disk.old) (λ before. gate ≤ length before.contents) }
    ensures opened { IfSome (K.told disk.old) (λ before. IsSomeAnd (K.told disk.new) (λ after. (front back : List ℕ) (shut : ℕ) → gate ≡ length front → IsSure (front ++ shut ∷ back) before
        → Opens result front back before after)) }
    ensures tells { is_some (K.told disk.new) ≡ is_some (K.told disk.old) }
    ensures counted { CountsAct result (K.faults disk.old) (K.faults disk.new) }
    ensures same_place { K.place disk.new ≡ K.place disk.old }
{
    crashes_by_acts();
    crashes_after_a_sync();
    disk.write(gate, &[OPEN])
}

/// Cuts what is behind a place.
fn shorten<K: Disk>(disk: &mut K, end: u64) -> Act
    requires { IfSome (K.told disk.old) (λ before. end ≤ length before.contents) }
    ensures shortened { IfSome (K.told disk.old) (λ before. IsSomeAnd (K.told disk.new) (λ after. (front back : List ℕ) → end ≡ length front → IsSure (front ++ back) before
        → Shortens result front before after)) }
    ensures tells { is_some (K.told disk.new) ≡ is_some (K.told disk.old) }
    ensures counted { CountsAct result (K.faults disk.old) (K.faults disk.new) }
    ensures same_place { K.place disk.new ≡ K.place disk.old }
{
    crashes_by_acts();
    disk.cut(end)
}

/// Writes two parts behind the end, which is behind a closed gate, and a closed gate behind them, and makes sure of all.
pub(crate) fn stage<K: Disk>(disk: &mut K, end: u64, head: &[u8], rest: &[u8]) -> Act
    requires whole { IfSome (K.told disk.old) (λ before. end ≡ length before.contents) }
    requires room { end + length head.now + length rest.now + 1 < 2 ^ 64 }
    ensures longer { result ≡ Act.Ready → IfSome (K.told disk.old) (λ before. IsSomeAnd (K.told disk.new) (λ after. length after.contents ≡ end + length head.now + length rest.now + 1)) }
    ensures staged { IfSome (K.told disk.old) (λ before. IsSomeAnd (K.told disk.new) (λ after. (base : List ℕ) → IsSure base before
        → Stages result base ((head.now ++ rest.now) ++ 0 ∷ []) before after)) }
    ensures tells { is_some (K.told disk.new) ≡ is_some (K.told disk.old) }
    ensures counted { CountsAct result (K.faults disk.old) (K.faults disk.new) }
    ensures same_place { K.place disk.new ≡ K.place disk.old }
{
    let Act::Ready = append(disk, end, head) else {
        return Act::Failed;
    };
    let behind = end + head.len() as u64;
    let Act::Ready = append(disk, behind, rest) else {
        return Act::Failed;
    };
    let Act::Ready = append(disk, behind + rest.len() as u64, &[CLOSED]) else {
        return Act::Failed;
    };
    settle(disk)
}

/// Opens the gate at a place, and makes sure of it.
pub(crate) fn turn<K: Disk>(disk: &mut K, gate: u64) -> Act
    requires { IfSome (K.told disk.old) (λ before. gate ≤ length before.contents) }
    ensures turned { IfSome (K.told disk.old) (λ before. IsSomeAnd (K.told disk.new) (λ after. (front back : List ℕ) (shut : ℕ) → gate ≡ length front → IsSure (front ++ shut ∷ back) before
        → Turns result front back before after)) }
    ensures tells { is_some (K.told disk.new) ≡ is_some (K.told disk.old) }
    ensures counted { CountsAct result (K.faults disk.old) (K.faults disk.new) }
    ensures same_place { K.place disk.new ≡ K.place disk.old }
{
    let Act::Ready = open_at(disk, gate) else {
        return Act::Failed;
    };
    settle(disk)
}

/// Cuts what is behind a place, and makes sure of it.
pub(crate) fn trim<K: Disk>(disk: &mut K, end: u64) -> Act
    requires { IfSome (K.told disk.old) (λ before. end ≤ length before.contents) }
    ensures trimmed { IfSome (K.told disk.old) (λ before. IsSomeAnd (K.told disk.new) (λ after. (front back : List ℕ) → end ≡ length front → IsSure (front ++ back) before
        → Trims result front before after)) }
    ensures tells { is_some (K.told disk.new) ≡ is_some (K.told disk.old) }
    ensures counted { CountsAct result (K.faults disk.old) (K.faults disk.new) }
    ensures same_place { K.place disk.new ≡ K.place disk.old }
{
    let Act::Ready = shorten(disk, end) else {
        return Act::Failed;
    };
    settle(disk)
}

/// Writes these bytes in the place of all that there is, and makes sure of them.
pub(crate) fn begin<K: Disk>(disk: &mut K, bytes: &[u8]) -> Act
    ensures begun { result ≡ Act.Ready → IfSome (K.told disk.old) (λ _. IsSomeAnd (K.told disk.new) (λ after. IsSure bytes.now after)) }
    ensures tells { is_some (K.told disk.new) ≡ is_some (K.told disk.old) }
    ensures counted { CountsAct result (K.faults disk.old) (K.faults disk.new) }
    ensures same_place { K.place disk.new ≡ K.place disk.old }
{
    let Act::Ready = disk.cut(0) else {
        return Act::Failed;
    };
    let Act::Ready = disk.write(0, bytes) else {
        return Act::Failed;
    };
    settle(disk)
}
