//! A caller's try, the worked rows, and each call once. The rows are steps, which jobs do one after the other.

ghost use Rattle.std.specs.Prelude.{◌≡◌, ◌<◌, true, false, Ok, OnErr, OnOk, IfSome, IfNone, Some};
ghost use Rattle.waits.specs.Jobs.{Queue, accepted, ready_job, without_ready};

use crate::steps::{Plays, Step, are_played, nothing, number, pair, put};
use bytes::Bytes;
use msg_ids::Moment;
use octets::{IdList, Memory};
use std::alloc::Global;
use std::test::Fail;
use test_asserts::same;
use waits::{JOB_BYTES_MAX, JOBS_MAX, Job, Jobs, WAIT_SECONDS};

// Accepts a job where its session has room for it, and says whether it did.
fn accept(jobs: &mut Jobs, alloc: Global, job: Job) -> Result<bool, Memory>
    ensures accepted { result ≡ Ok true → jobs.new.jobs ≡ accepted job jobs.old.jobs }
    ensures full { result ≡ Ok false → jobs.new ≡ jobs.old }
    ensures unchanged_on_memory { OnErr result (jobs.new ≡ jobs.old) }
{
    let (count, bytes) = jobs.load(job.key, job.session);
    if count == JOBS_MAX || job.load() > JOB_BYTES_MAX - bytes {
        drop(job);
        return Ok(false);
    }
    if let Err(fault) = jobs.reserve(alloc, 1) {
        drop(job);
        return Err(fault);
    }
    jobs.add(job);
    Ok(true)
}

// Takes out the ready job of a place among the ready ones.
fn take(jobs: &mut Jobs, k: usize) -> Option<Job>
    ensures taken { IfSome result (λ job. ready_job k jobs.old.jobs ≡ Some job) }
    ensures others { IfSome result (λ _. jobs.new.jobs ≡ without_ready k jobs.old.jobs) }
    ensures unchanged { IfNone result (jobs.new ≡ jobs.old) }
{
    if k >= jobs.ready() {
        return None;
    }
    Some(jobs.take(k))
}

// Accepts a call of a session of key 1 at the moment 100, with a request of 4 bytes.
fn call(
    jobs: &mut Jobs,
    alloc: Global,
    session: u64,
    number: u64,
    after: &[u64],
) -> Result<bool, Fail> {
    let job = Job {
        key: 1,
        session,
        number,
        since: Moment::new(100),
        after: IdList::copy(alloc, after)?,
        request: Bytes::from_static(b"call"),
    };
    Ok(accept(jobs, alloc, job)?)
}

// The number of a job, 0 where there is none.
fn number_of(job: Option<Job>) -> u64 {
    let number = match &job {
        Some(job) => job.number,
        None => 0,
    };
    drop(job);
    number
}

// The number of the ready job of this place, 0 where there is none.
fn ready_number(jobs: &Jobs, place: usize) -> u64 {
    match jobs.ready_at(place) {
        Some(job) => job.number,
        None => 0,
    }
}

// How many jobs and bytes a session has.
fn load(jobs: &Jobs, alloc: Global, session: u64) -> Result<String, Fail> {
    let (count, bytes) = jobs.load(1, session);
    pair(alloc, count as u64, bytes as u64)
}

// How many jobs are overdue at a moment, of all and of a session.
fn overdue(jobs: &Jobs, alloc: Global, seconds: u64, session: u64) -> Result<String, Fail> {
    let now = Moment::new(seconds);
    let (all, of_session) = (jobs.overdue(now), jobs.overdue_of(1, session, now));
    pair(alloc, all as u64, of_session as u64)
}

// What jobs say of a step that changes nothing: of all, and of a session.
fn asked(jobs: &Jobs, alloc: Global, step: Step<'_>) -> Result<String, Fail> {
    let [first, second, ..] = step.numbers;
    match step.verb {
        "ready" => number(alloc, jobs.ready() as u64),
        "len" => number(alloc, jobs.len() as u64),
        "at" => number(alloc, ready_number(jobs, first as usize)),
        "load" => load(jobs, alloc, first),
        "waiting" => number(alloc, jobs.waiting(1, first) as u64),
        "blocked" => number(alloc, jobs.blocked(1, first) as u64),
        "has" => number(alloc, u64::from(jobs.has(1, first, second))),
        "overdue" => overdue(jobs, alloc, first, second),
        _ => Err(Fail::new("no step")),
    }
}

// A call of a session behind up to two others, each not 0: 1 where it is accepted.
fn call_after(jobs: &mut Jobs, alloc: Global, numbers: [u64; 4]) -> Result<String, Fail> {
    let [session, name, first, second] = numbers;
    let accepted = if first == 0 {
        call(jobs, alloc, session, name, &[])?
    } else if second == 0 {
        call(jobs, alloc, session, name, &[first])?
    } else {
        call(jobs, alloc, session, name, &[first, second])?
    };
    number(alloc, u64::from(accepted))
}

// Calls of this number of three sessions: how many are accepted.
fn calls_of(jobs: &mut Jobs, alloc: Global, name: u64) -> Result<u64, Fail> {
    let first = u64::from(call(jobs, alloc, 1, name, &[])?);
    let second = u64::from(call(jobs, alloc, 2, name, &[])?);
    let third = u64::from(call(jobs, alloc, 3, name, &[])?);
    Ok(first.wrapping_add(second).wrapping_add(third))
}

// The same in so many rounds, from number 8 on.
fn calls_of_three(jobs: &mut Jobs, alloc: Global, rounds: u64) -> Result<String, Fail> {
    let mut accepted = 0u64;
    for round in 0..rounds {
        let name = round.wrapping_mul(4).wrapping_add(8);
        accepted = accepted.wrapping_add(calls_of(jobs, alloc, name)?);
    }
    number(alloc, accepted)
}

// So many jobs are taken out.
fn takes(jobs: &mut Jobs, alloc: Global, count: u64) -> Result<String, Fail> {
    for _ in 0..count {
        drop(take(jobs, 0));
    }
    nothing(alloc)
}

fn reserves(jobs: &mut Jobs, alloc: Global, count: u64) -> Result<String, Fail> {
    jobs.reserve(alloc, count as usize)?;
    nothing(alloc)
}

// A call of a session is answered, well or not.
fn settles(jobs: &mut Jobs, alloc: Global, numbers: [u64; 4]) -> Result<String, Fail> {
    let [session, name, good, _] = numbers;
    jobs.settle(1, session, name, good == 1);
    nothing(alloc)
}

fn forgets(jobs: &mut Jobs, alloc: Global, session: u64) -> Result<String, Fail> {
    jobs.forget(1, session);
    nothing(alloc)
}

// A step that changes jobs and takes none out.
fn does(jobs: &mut Jobs, alloc: Global, step: Step<'_>) -> Result<String, Fail> {
    let numbers = step.numbers;
    match step.verb {
        "call" => call_after(jobs, alloc, numbers),
        "calls" => calls_of_three(jobs, alloc, numbers[0]),
        "takes" => takes(jobs, alloc, numbers[0]),
        "reserve" => reserves(jobs, alloc, numbers[0]),
        "settle" => settles(jobs, alloc, numbers),
        "forget" => forgets(jobs, alloc, numbers[0]),
        _ => asked(jobs, alloc, step),
    }
}

// The number of the job that a step takes out, 0 where it takes none; whether the step is one that takes.
fn taken(jobs: &mut Jobs, step: Step<'_>) -> (u64, bool) {
    let [first, second, ..] = step.numbers;
    match step.verb {
        "next" => (number_of(take(jobs, 0)), true),
        "take" => (number_of(take(jobs, first as usize)), true),
        "failed" => (number_of(jobs.failed()), true),
        "expired" => (number_of(jobs.expired(Moment::new(first))), true),
        "cancel" => (number_of(jobs.cancel(1, first, second)), true),
        _ => (0, false),
    }
}

// Jobs, and others that they were copied from.
#[derive(Drop)]
struct Both {
    jobs: Jobs,
    other: Jobs,
}

impl Both {
    // Goes on with a copy.
    fn copies(&mut self, alloc: Global) -> Result<String, Fail> {
        let copy = self.jobs.copy(alloc)?;
        put(&mut self.other, std::mem::replace(&mut self.jobs, copy));
        nothing(alloc)
    }

    // Goes on with what was copied, or with the copy again.
    fn swaps(&mut self, alloc: Global) -> Result<String, Fail> {
        std::mem::swap(&mut self.jobs, &mut self.other);
        nothing(alloc)
    }
}

impl Plays for Both {
    fn begun(alloc: Global) -> Result<Both, Fail> {
        Ok(Both {
            jobs: Jobs::new(alloc),
            other: Jobs::new(alloc),
        })
    }

    fn played(&mut self, alloc: Global, step: Step<'_>) -> Result<String, Fail> {
        let (name, takes) = taken(&mut self.jobs, step);
        if takes {
            return number(alloc, name);
        }
        match step.verb {
            "copy" => self.copies(alloc),
            "swap" => self.swaps(alloc),
            _ => does(&mut self.jobs, alloc, step),
        }
    }
}

// 8 and 12, and 16 after both, are run as they get ready. 8 and 12 are answered in this order, and in the other one.
const AFTER_TWO_OTHERS: &str = "\
call 1 8 = 1\n\
call 1 12 = 1\n\
call 1 16 8 12 = 1\n\
ready = 2\n\
load 1 = 3 28\n\
waiting 1 = 1\n\
at 0 = 8\n\
at 1 = 12\n\
at 2 = 0\n\
next = 8\n\
next = 12\n\
settle 1 8 1\n\
ready = 0\n\
load 1 = 1 12\n\
settle 1 12 1\n\
waiting 1 = 0\n\
ready = 1\n\
next = 16\n\
len = 0\n\
new\n\
call 1 8 = 1\n\
call 1 12 = 1\n\
call 1 16 8 12 = 1\n\
ready = 2\n\
load 1 = 3 28\n\
waiting 1 = 1\n\
at 0 = 8\n\
at 1 = 12\n\
at 2 = 0\n\
next = 8\n\
next = 12\n\
settle 1 12 1\n\
ready = 0\n\
load 1 = 1 12\n\
settle 1 8 1\n\
waiting 1 = 0\n\
ready = 1\n\
next = 16\n\
len = 0\n";

#[test]
fn a_job_waits_for_each_of_two_others(rt: HostRuntime) -> Result<(), Fail> {
    are_played::<Both>(rt.alloc(), AFTER_TWO_OTHERS)
}

const FAILED: &str = "\
call 1 12 8 = 1\n\
call 1 16 8 = 1\n\
failed = 0\n\
settle 1 8 0\n\
ready = 0\n\
failed = 12\n\
failed = 16\n\
failed = 0\n";

#[test]
fn a_job_fails_with_one_that_it_waits_for(rt: HostRuntime) -> Result<(), Fail> {
    are_played::<Both>(rt.alloc(), FAILED)
}

// A job that waits for its own number, since the moment 100.
const EXPIRED: &str = "\
call 1 8 = 1\n\
call 1 16 16 = 1\n\
expired 129 = 0\n\
new\n\
call 1 8 = 1\n\
call 1 16 16 = 1\n\
expired 130 = 16\n\
new\n\
call 1 8 = 1\n\
call 1 16 16 = 1\n\
expired 131 = 16\n";

#[test]
fn a_job_waits_for_thirty_seconds(rt: HostRuntime) -> Result<(), Fail> {
    same(WAIT_SECONDS, 30)?;
    are_played::<Both>(rt.alloc(), EXPIRED)
}

// Of all, and of session 2, where one of each waits.
const OVERDUE: &str = "\
call 1 8 8 = 1\n\
call 2 12 12 = 1\n\
overdue 129 2 = 0 0\n\
overdue 130 2 = 2 1\n";

#[test]
fn overdue_jobs_are_counted(rt: HostRuntime) -> Result<(), Fail> {
    are_played::<Both>(rt.alloc(), OVERDUE)
}

const OF_TWO_SESSIONS: &str = "\
call 1 12 8 = 1\n\
call 2 12 8 = 1\n\
call 2 16 = 1\n\
settle 2 8 1\n\
ready = 2\n\
load 1 = 1 12\n\
load 2 = 2 8\n\
copy\n\
cancel 2 12 = 12\n\
has 2 12 = 0\n\
has 1 12 = 1\n\
swap\n\
forget 2\n\
has 2 16 = 0\n\
len = 1\n\
swap\n\
len = 2\n";

#[test]
fn sessions_have_jobs_of_their_own(rt: HostRuntime) -> Result<(), Fail> {
    are_played::<Both>(rt.alloc(), OF_TWO_SESSIONS)
}

// A session has its own jobs where those of three stand between one another, some are taken out, and one session is
// forgotten and heard again.
const OF_THREE_SESSIONS: &str = "\
calls 40 = 120\n\
call 2 400 8 = 1\n\
next = 8\n\
cancel 3 12 = 12\n\
forget 2\n\
len = 78\n\
waiting 2 = 0\n\
has 2 400 = 0\n\
call 2 404 408 = 1\n\
settle 2 408 1\n\
blocked 2 = 0\n\
takes 76\n\
len = 3\n\
reserve 4\n\
len = 3\n\
has 1 164 = 1\n\
has 3 164 = 1\n\
has 3 12 = 0\n\
load 2 = 1 4\n\
cancel 3 164 = 164\n\
next = 164\n\
next = 404\n";

#[test]
fn sessions_keep_theirs_among_others(rt: HostRuntime) -> Result<(), Fail> {
    are_played::<Both>(rt.alloc(), OF_THREE_SESSIONS)
}

// Ready jobs are counted over all sessions, in order of acceptance.
const BY_PLACE: &str = "\
call 1 8 = 1\n\
call 2 12 = 1\n\
call 3 16 = 1\n\
call 2 20 8 = 1\n\
call 1 24 = 1\n\
ready = 4\n\
at 2 = 16\n\
at 3 = 24\n\
at 4 = 0\n\
take 2 = 16\n\
at 2 = 24\n\
take 2 = 24\n\
take 2 = 0\n\
take 1 = 12\n\
next = 8\n\
ready = 0\n\
len = 1\n";

#[test]
fn a_ready_job_has_its_place_among_all(rt: HostRuntime) -> Result<(), Fail> {
    are_played::<Both>(rt.alloc(), BY_PLACE)
}
