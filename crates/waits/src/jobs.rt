//! The unfinished jobs of a server.

ghost use Rattle.std.specs.Prelude.{◌≡◌, ◌+◌, ◌<◌, ◌≤◌, [], Some, length, max, IfOk, IfNone, IfSome, OnOk, OnErr};
ghost use Rattle.std.specs.Option.{option_copied};
ghost use Rattle.std.specs.List.{list_any};
ghost use Rattle.waits.specs.Limits.{most_jobs, most_job_bytes};
ghost use Rattle.waits.specs.Jobs.{accepted, is_call, is_overdue, has_failed, ready_count, ready_job, without_ready, first_job, without_first, settled, without_session, job_count, job_bytes, waiting_count, blocked_count_of, overdue_count, overdue_count_of, load_of};

use crate::job::{Job, Unfinished};
use crate::owners::Owners;
use crate::stamp_search::least_stamp;
use crate::stamped::Stamped;
use crate::telling::Answer;
use crate::wanted::Wanted;
use msg_ids::Moment;
use octets::Memory;
use std::alloc::Global;
use std::marker::Model;

/// How many unfinished jobs a session has at most.
pub const JOBS_MAX: usize = 4_096;

/// How many bytes the loads of a session's unfinished jobs have at most.
pub const JOB_BYTES_MAX: usize = 4_194_304;

/// How many seconds a job waits for others before it is answered instead.
pub const WAIT_SECONDS: u64 = 30;

/// The unfinished jobs of a server, in order of acceptance over all sessions.
///
/// Each session has its own jobs, in order, and each job has a stamp, by which those of all sessions are in order. So what
/// a session asks, or is told, looks at no job of another one. A search over all looks, in each session that may have what
/// is looked for, at the jobs up to the first such one. That for a later place among the ready ones tries a few stamps, and
/// counts for each how many ready jobs are in front of it: in a session of which all are, without a look at more than the
/// last. A job stands in a node that was made before, and the node of one that is taken out is kept for the next.
#[derive(Debug, Drop)]
pub struct Jobs {
    owners: Owners,
    // The stamp of the next job, above those of all others.
    stamp: u64,
    room: usize,
}

impl Model for Jobs {
    ghost use Rattle.waits.specs.Held.{Held};

    ghost Value = { Held };

    ghost use Rattle.waits.specs.Stamps.{queue_of};
    ghost use Rattle.waits.specs.Stands.{Stands};

    ghost view = { λ jobs. record { jobs = queue_of jobs.owners.jobs; room = jobs.room } };

    ghost invariant = { λ jobs. Stands jobs };
}

impl Jobs {
    /// No job yet. Takes no memory.
    pub fn new(alloc: Global) -> Jobs
        ensures { result ≡ record { jobs = []; room = 0 } }
    {
        Jobs {
            owners: Owners::new(alloc),
            stamp: 0,
            room: 0,
        }
    }

    /// Takes room for so many further jobs, or keeps more room that is there.
    ///
    /// # Errors
    ///
    /// `Memory`, and then nothing has changed; also where the stamps of jobs, of which there are 2^64 - 1, don't suffice.
    pub fn reserve(&mut self, alloc: Global, count: usize) -> Result<(), Memory>
        ensures reserved { OnOk result (self.new ≡ record self.old { room = max self.old.room count }) }
        ensures unchanged_on_memory { OnErr result (self.new ≡ self.old) }
    {
        let room = self.room.max(count);
        if u64::MAX - (room as u64) < self.stamp {
            return Err(Memory);
        }
        self.owners.reserve(alloc, room)?;
        self.room = room;
        Ok(())
    }

    /// Puts a job behind all others. Room for it has to be reserved, and with it its session has to have at most
    /// `JOBS_MAX` jobs and `JOB_BYTES_MAX` bytes of loads. Takes no memory.
    pub fn add(&mut self, job: Job)
        requires room { 0 < self.old.room }
        requires fits { job_count job.key job.session self.old.jobs < most_jobs }
        requires bytes_fit { job_bytes job.key job.session self.old.jobs + load_of job ≤ most_job_bytes }
        ensures added { self.new.jobs ≡ accepted job self.old.jobs }
        ensures room { self.new.room + 1 ≡ self.old.room }
    {
        let one = Unfinished { job, failed: false };
        let stamp = self.stamp;
        self.owners.put(Stamped { stamp, one });
        self.stamp += 1;
        self.room -= 1;
    }

    /// How many jobs are ready: they wait for no call, and none that they waited for was answered otherwise than well.
    pub fn ready(&self) -> usize
        ensures count { result ≡ ready_count self.now.jobs }
    {
        let totals = self.owners.totals();
        totals.count - totals.blocked
    }

    /// The ready job of this place among the ready ones, from 0 in order of acceptance: the one that `take` takes out;
    /// `None` exactly where the place isn't less than `ready()`.
    pub fn ready_at(&self, k: usize) -> Option<&Job>
        ensures job { option_copied result ≡ ready_job k self.now.jobs }
        ensures there { IfSome result (λ _. k < ready_count self.now.jobs) }
        ensures none { IfNone result (ready_count self.now.jobs ≤ k) }
    {
        if k >= self.ready() {
            return None;
        }
        let least = least_stamp(&self.owners, self.stamp, k);
        self.owners.first(&Wanted::Ready(least), self.stamp)
    }

    /// Takes out the ready job of this place among the ready ones, from 0 in order of acceptance. The place has to be
    /// less than `ready()`. Takes no memory.
    pub fn take(&mut self, k: usize) -> Job
        requires { k < ready_count self.old.jobs }
        ensures job { ready_job k self.old.jobs ≡ Some result }
        ensures others { self.new ≡ record self.old { jobs = without_ready k self.old.jobs } }
    {
        let from = least_stamp(&self.owners, self.stamp, k);
        let Some(job) = self.owners.take_first(&Wanted::Ready(from), self.stamp) else {
            unreachable!()
        };
        job
    }

    /// Tells the jobs of this session that wait for the call of this number that it was answered. Where it was
    /// answered well they wait for it no more; else they have failed. Takes no memory. Looks at no job where none of the
    /// session's has waited for a number as great.
    pub fn settle(&mut self, key: u64, session: u64, number: u64, ok: bool)
        ensures { self.new ≡ record self.old { jobs = settled key session number ok self.old.jobs } }
    {
        self.owners.settle(Answer {
            key,
            session,
            number,
            ok,
        });
    }

    /// Takes out the first job that has failed; `None` where none has. Takes no memory.
    pub fn failed(&mut self) -> Option<Job>
        ensures job { result ≡ first_job has_failed self.old.jobs }
        ensures others { self.new ≡ record self.old { jobs = without_first has_failed self.old.jobs } }
    {
        self.owners.take_first(&Wanted::Failed, self.stamp)
    }

    /// Takes out the first job that waits for a call and was accepted `WAIT_SECONDS` or more before `now`, whether it
    /// has failed or not; `None` where there is none. Takes no memory.
    pub fn expired(&mut self, now: Moment) -> Option<Job>
        ensures job { result ≡ first_job (is_overdue now) self.old.jobs }
        ensures others { self.new ≡ record self.old { jobs = without_first (is_overdue now) self.old.jobs } }
    {
        self.owners.take_first(&Wanted::Overdue(now), self.stamp)
    }

    /// Takes out the first job of this number in this session; `None` where there is none. Takes no memory.
    pub fn cancel(&mut self, key: u64, session: u64, number: u64) -> Option<Job>
        ensures job { result ≡ first_job (is_call key session number) self.old.jobs }
        ensures others { self.new ≡ record self.old { jobs = without_first (is_call key session number) self.old.jobs } }
    {
        self.owners.take_call(key, session, number, self.stamp)
    }

    /// Forgets all jobs of a session. Takes no memory.
    pub fn forget(&mut self, key: u64, session: u64)
        ensures { self.new ≡ record self.old { jobs = without_session key session self.old.jobs } }
    {
        self.owners.forget(key, session);
    }

    /// How many jobs a session has, and the bytes of their loads: of each the length of its request, and 8 bytes for
    /// each number that it waits for.
    pub fn load(&self, key: u64, session: u64) -> (usize, usize)
        ensures count { result.0 ≡ job_count key session self.now.jobs }
        ensures bytes { result.1 ≡ job_bytes key session self.now.jobs }
        ensures jobs_within { result.0 ≤ most_jobs }
        ensures bytes_within { result.1 ≤ most_job_bytes }
    {
        self.owners.load(key, session)
    }

    /// How many jobs of a session wait for a call.
    pub fn waiting(&self, key: u64, session: u64) -> usize
        ensures count { result ≡ waiting_count key session self.now.jobs }
        ensures within { result ≤ most_jobs }
    {
        self.owners.totals_of(key, session).waiting
    }

    /// How many jobs of a session aren't ready: each waits for a call, or has failed.
    pub fn blocked(&self, key: u64, session: u64) -> usize
        ensures count { result ≡ blocked_count_of key session self.now.jobs }
        ensures within { result ≤ most_jobs }
    {
        self.owners.totals_of(key, session).blocked
    }

    /// How many jobs wait for a call and were accepted `WAIT_SECONDS` or more before `now`. Looks at no job where none
    /// waits.
    pub fn overdue(&self, now: Moment) -> usize
        ensures count { result ≡ overdue_count now self.now.jobs }
    {
        self.owners.count(&Wanted::Overdue(now), self.stamp)
    }

    /// How many of these a session has. Looks at no job where none of the session waits, and at none of another session.
    pub fn overdue_of(&self, key: u64, session: u64, now: Moment) -> usize
        ensures count { result ≡ overdue_count_of key session now self.now.jobs }
    {
        self.owners
            .count_of(key, session, &Wanted::Overdue(now), self.stamp)
    }

    /// Whether an unfinished job has this number in this session.
    pub fn has(&self, key: u64, session: u64, number: u64) -> bool
        ensures { result ≡ list_any (is_call key session number) self.now.jobs }
    {
        self.owners.has(key, session, number)
    }

    /// How many unfinished jobs there are.
    pub fn len(&self) -> usize
        ensures { result ≡ length self.now.jobs }
    {
        self.owners.totals().count
    }

    /// The same jobs, and the same room reserved.
    ///
    /// # Errors
    ///
    /// `Memory`.
    pub fn copy(&self, alloc: Global) -> Result<Jobs, Memory>
        ensures { IfOk result (λ jobs. jobs ≡ self.now) }
    {
        Ok(Jobs {
            owners: self.owners.copy(alloc, self.room)?,
            stamp: self.stamp,
            room: self.room,
        })
    }
}
