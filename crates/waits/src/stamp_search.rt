//! A search for the stamp from which on the ready job of a place is the first one.

ghost use Rattle.std.specs.Prelude.{◌≡◌, ◌+◌, ◌<◌};
ghost use Rattle.waits.specs.Jobs.{is_ready};
ghost use Rattle.waits.specs.Stamps.{count_before, tally, AreStamped};

use crate::owners::Owners;
use crate::wanted::Wanted;

/// A stamp, and how many jobs with a stamp below it are ready.
#[derive(Clone, Copy)]
struct Bound {
    stamp: u64,
    ready: usize,
}

/// A stamp between two: their middle, or the one below which just so many are ready if the ready jobs between the two stand
/// evenly.
fn between(low: Bound, high: Bound, count: usize, halves: bool) -> u64
    requires apart { low.stamp + 1 < high.stamp }
    requires more { low.ready < count }
    requires less { count < high.ready }
    ensures above { low.stamp < result }
    ensures below { result < high.stamp }
{
    let stamps = u128::from(high.stamp - low.stamp);
    let share = if halves {
        stamps / 2
    } else {
        stamps * ((count - low.ready) as u128) / ((high.ready - low.ready) as u128)
    };
    low.stamp + share.clamp(1, stamps - 1) as u64
}

/// A stamp below which just so many jobs are ready. More than these are, and all stamps are below the limit.
///
/// Two bounds come closer until just so many are ready below the lower one. What is tried between them is by turns the stamp
/// that is right if the ready jobs stand evenly, and the middle. So one try is enough where each stamp between them is a ready
/// job's, and else there are at most twice as many as the stamps can be halved.
pub(crate) fn least_stamp(owners: &Owners, limit: u64, count: usize) -> u64
    requires enough { count < tally (λ x. is_ready x.one) owners.now.jobs }
    requires stamped { AreStamped limit owners.now.jobs }
    ensures { count_before (λ x. is_ready x.one) result owners.now.jobs ≡ count }
{
    if count == 0 {
        return 0;
    }
    let first = owners.first_stamp(&Wanted::Ready(0), limit);
    let mut low = Bound {
        stamp: first,
        ready: 0,
    };
    let mut high = Bound {
        stamp: limit,
        ready: owners.ready_before(limit),
    };
    let mut halves = false;
    while low.ready < count && high.stamp - low.stamp > 1 {
        let stamp = between(low, high, count, halves);
        let ready = owners.ready_before(stamp);
        if ready <= count {
            low = Bound { stamp, ready };
        } else {
            high = Bound { stamp, ready };
        }
        halves = !halves;
    }
    low.stamp
}
