//! Counts of faults.

ghost use Rattle.std.specs.Prelude.{◌≡◌, ◌≤◌};
ghost use Rattle.mt_edge.specs.Faults.{one_more};

/// The count after one more fault. It stays at 2^64 - 1 once it is there.
pub fn raised(faults: u64) -> u64
    ensures one_more { result ≡ one_more faults }
    ensures never_falls { faults ≤ result }
{
    faults.saturating_add(1)
}
