//! How many jobs there are, of all or of one session, and how far they are.

ghost use Rattle.std.specs.Prelude.{◌≡◌, [], List, false};
ghost use Rattle.waits.specs.Jobs.{one_if};
ghost use Rattle.waits.specs.Stamps.{IsWith, tally};
ghost use Rattle.waits.specs.Wanted.{is_wanted};
ghost use Rattle.waits.specs.Totals.{AreTotals, AreBelow, Counts, Holds, Differ};
ghost use Rattle.waits.specs.declared.stamped.Stamped.{Stamped as Job};

use crate::stamped::Stamped;
use crate::wanted::Wanted;

/// How many jobs there are.
#[derive(Clone, Copy, Debug)]
pub(crate) struct Totals {
    pub count: usize,
    /// How many of them wait for a call.
    pub waiting: usize,
    /// How many of them aren't ready.
    pub blocked: usize,
    /// How many of them have failed.
    pub failing: usize,
}

/// 1 where this holds.
pub(crate) fn one_if(holds: bool) -> usize
    ensures { result ≡ one_if holds }
{
    if holds { 1 } else { 0 }
}

impl Totals {
    /// Those of no job.
    pub(crate) fn none() -> Totals
        ensures { AreTotals [] result }
    {
        Totals {
            count: 0,
            waiting: 0,
            blocked: 0,
            failing: 0,
        }
    }

    /// Whether one of the jobs may be what is looked for.
    pub(crate) fn may_have(self, wanted: &Wanted) -> bool
        ensures { (xs : List Job) → AreTotals xs self → result ≡ false → tally (is_wanted wanted.now) xs ≡ 0 }
    {
        match *wanted {
            Wanted::Failed => self.failing > 0,
            Wanted::Overdue(_) => self.waiting > 0,
            Wanted::Ready(_) => self.blocked < self.count,
            Wanted::Call(_, _, _) => self.count > 0,
            Wanted::Waiter(_, _, _) => self.waiting > 0,
        }
    }

    /// What they are with one job more.
    pub(crate) fn with(self, job: &Stamped) -> Totals
        requires { AreBelow self }
        ensures { (others all : List Job) → IsWith job.now others all → AreTotals others self → AreTotals all result }
    {
        Totals {
            count: self.count + 1,
            waiting: self.waiting + one_if(job.one.is_waiting()),
            blocked: self.blocked + one_if(!job.one.is_ready()),
            failing: self.failing + one_if(job.one.failed),
        }
    }

    /// What they are without a job that they count.
    pub(crate) fn without(self, job: &Stamped) -> Totals
        requires { Counts job.now self }
        ensures { (others all : List Job) → IsWith job.now others all → AreTotals all self → AreTotals others result }
    {
        Totals {
            count: self.count - 1,
            waiting: self.waiting - one_if(job.one.is_waiting()),
            blocked: self.blocked - one_if(!job.one.is_ready()),
            failing: self.failing - one_if(job.one.failed),
        }
    }

    /// What they are where a part of the jobs has these totals in place of those.
    pub(crate) fn changed(self, before: Totals, after: Totals) -> Totals
        requires { Holds self before after }
        ensures { Differ self before after result }
    {
        Totals {
            count: self.count - before.count + after.count,
            waiting: self.waiting - before.waiting + after.waiting,
            blocked: self.blocked - before.blocked + after.blocked,
            failing: self.failing - before.failing + after.failing,
        }
    }
}
