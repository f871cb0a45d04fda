//! Jobs are told that a call was answered, each in its place.

ghost use Rattle.std.specs.Prelude.{◌≡◌, ◌+◌, ◌<◌, ◌≤◌, ◌^◌, ◌∷◌, ◌++◌, [], length, map, take, drop};
ghost use Rattle.waits.specs.Stamps.{after, bytes_of};
ghost use Rattle.waits.specs.Totals.{AreTotals};
ghost use Rattle.waits.specs.Limits.{most_jobs, most_job_bytes};

use crate::stamped::{Nodes, cut, join, only};
use crate::totals::Totals;
use std::mem;

/// That the call of a number in a session of a key was answered, well or not.
#[derive(Clone, Copy, Debug)]
pub(crate) struct Answer {
    pub key: u64,
    pub session: u64,
    pub number: u64,
    pub ok: bool,
}

/// Tells the job of a single node.
fn tell(node: &mut Nodes, answer: Answer)
    requires { length node.old ≡ 1 }
    ensures { node.new ≡ map (after answer.key answer.session answer.number answer.ok) node.old }
{
    let job = node.front_mut().unwrap();
    job.one
        .settle(answer.key, answer.session, answer.number, answer.ok);
}

/// Tells the first of the jobs that are left, puts it behind those that were told, and counts it again.
pub(crate) fn tell_next(
    told: &mut Nodes,
    left: &mut Nodes,
    totals: &mut Totals,
    bytes: &mut usize,
    answer: Answer,
)
    requires some { 0 < length left.old }
    requires fits { length told.old + length left.old ≤ most_jobs }
    requires totals { AreTotals (told.old ++ left.old) totals.old }
    requires bytes { bytes.old ≡ bytes_of (told.old ++ left.old) }
    requires bytes_fit { bytes.old ≤ most_job_bytes }
    ensures left { left.new ≡ drop 1 left.old }
    ensures told { told.new ≡ told.old ++ map (after answer.key answer.session answer.number answer.ok) (take 1 left.old) }
    ensures totals { AreTotals (told.new ++ left.new) totals.new }
    ensures bytes { bytes.new ≡ bytes_of (told.new ++ left.new) }
    ensures bytes_fit { bytes.new ≤ bytes.old }
{
    let later = cut(left, 1);
    let before = only(left);
    let others = totals.without(before);
    let bytes_of_others = *bytes - before.one.job.load();
    tell(left, answer);
    let after = only(left);
    *totals = others.with(after);
    *bytes = bytes_of_others + after.one.job.load();
    join(told, mem::replace(left, later));
}

/// Tells all jobs that are left so.
pub(crate) fn tell_all(
    told: &mut Nodes,
    left: &mut Nodes,
    totals: &mut Totals,
    bytes: &mut usize,
    answer: Answer,
)
    requires fits { length told.old + length left.old ≤ most_jobs }
    requires totals { AreTotals (told.old ++ left.old) totals.old }
    requires bytes { bytes.old ≡ bytes_of (told.old ++ left.old) }
    requires bytes_fit { bytes.old ≤ most_job_bytes }
    ensures left { left.new ≡ [] }
    ensures told { told.new ≡ told.old ++ map (after answer.key answer.session answer.number answer.ok) left.old }
    ensures totals { AreTotals told.new totals.new }
    ensures bytes { bytes.new ≡ bytes_of told.new }
    ensures bytes_fit { bytes.new ≤ bytes.old }
{
    while !left.is_empty() {
        tell_next(told, left, totals, bytes, answer);
    }
}
