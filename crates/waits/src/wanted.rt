//! What a search over jobs looks for, and a search over those of one session.

ghost use Rattle.std.specs.Prelude.{◌≡◌, ◌≤◌, true, nat_le, position, IfSome, IfNone};
ghost use Rattle.waits.specs.Stamps.{count_before, tally, IsRising};
ghost use Rattle.waits.specs.Wanted.{is_wanted};
ghost use Rattle.waits.specs.Parts.{IsFirst};
ghost use Rattle.waits.specs.declared.stamped.Stamped.{Stamped as One};

use crate::stamped::{Nodes, Stamped};
use crate::totals::one_if;
use msg_ids::Moment;

/// What a search looks for.
#[derive(Clone, Copy, Debug)]
pub(crate) enum Wanted {
    /// A job that has failed.
    Failed,
    /// A job that has waited too long at this moment.
    Overdue(Moment),
    /// A job that is ready, and whose stamp isn't below this one.
    Ready(u64),
    /// The call of this number in this session of this key.
    Call(u64, u64, u64),
    /// A job that waits for that call.
    Waiter(u64, u64, u64),
}

impl Wanted {
    /// No job with a stamp below this one is looked for.
    pub(crate) fn least_stamp(&self) -> u64
        ensures { (x : One) → is_wanted self.now x ≡ true → result ≤ x.stamp }
    {
        match *self {
            Wanted::Ready(from) => from,
            _ => 0,
        }
    }
}

/// Whether a job is what is looked for.
pub(crate) fn is_wanted(wanted: &Wanted, job: &Stamped) -> bool
    ensures { result ≡ is_wanted wanted.now job.now }
{
    match *wanted {
        Wanted::Failed => job.one.failed,
        Wanted::Overdue(now) => job.one.is_overdue(now),
        Wanted::Ready(from) => from <= job.stamp && job.one.is_ready(),
        Wanted::Call(key, session, number) => {
            job.one.job.number == number && job.one.is_of(key, session)
        }
        Wanted::Waiter(key, session, number) => job.one.waits_for(key, session, number),
    }
}

/// Where a job that is looked for stands among those of its session, and its stamp.
#[derive(Clone, Copy, Debug)]
pub(crate) struct First {
    pub at: usize,
    pub stamp: u64,
}

/// The place of the first job that is looked for.
pub(crate) fn place_in(jobs: &Nodes, wanted: &Wanted) -> Option<usize>
    ensures { result ≡ position (is_wanted wanted.now) jobs.now }
{
    jobs.iter().position(|job| is_wanted(wanted, job))
}

/// The first job that is looked for and has a stamp below the limit. Looks at no job behind.
pub(crate) fn first_in(jobs: &Nodes, wanted: &Wanted, limit: u64) -> Option<First>
    requires { IsRising jobs.now }
    ensures found { IfSome result (λ first. IsFirst (is_wanted wanted.now) limit jobs.now first) }
    ensures none { IfNone result (count_before (is_wanted wanted.now) limit jobs.now ≡ 0) }
{
    let mut at = 0;
    for job in jobs.iter() {
        if job.stamp >= limit {
            return None;
        }
        if is_wanted(wanted, job) {
            return Some(First {
                at,
                stamp: job.stamp,
            });
        }
        at += 1;
    }
    None
}

/// Whether the last stamp shows that all are below this one. Looks at the last job alone, and where this is 0 at none.
pub(crate) fn are_before(jobs: &Nodes, stamp: u64) -> bool
    requires { IsRising jobs.now }
    ensures { result ≡ true → tally (λ x. nat_le stamp x.stamp) jobs.now ≡ 0 }
{
    if stamp == 0 {
        return false;
    }
    match jobs.back() {
        Some(last) => last.stamp < stamp,
        None => true,
    }
}

/// How many jobs are looked for and have a stamp below the limit. Looks at no job behind.
pub(crate) fn count_in(jobs: &Nodes, wanted: &Wanted, limit: u64) -> usize
    requires { IsRising jobs.now }
    ensures { result ≡ count_before (is_wanted wanted.now) limit jobs.now }
{
    let mut count = 0;
    for job in jobs.iter() {
        if job.stamp >= limit {
            return count;
        }
        count += one_if(is_wanted(wanted, job));
    }
    count
}
