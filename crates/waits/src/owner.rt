//! The jobs of one session.

ghost use Rattle.std.specs.Prelude.{◌≡◌, ◌+◌, ◌<◌, ◌≤◌, ◌&&◌, ◌∷◌, ◌++◌, [], true, false, length, take, drop, map, slice_index_or, IfOk, IfSome, IfNone};
ghost use Rattle.std.specs.List.{list_any};
ghost use Rattle.waits.specs.Limits.{most_jobs, most_job_bytes};
ghost use Rattle.waits.specs.Jobs.{is_of, is_ready, load_of};
ghost use Rattle.waits.specs.Numbers.{are_above};
ghost use Rattle.waits.specs.Stamps.{after, bytes_of, count_before, tally};
ghost use Rattle.waits.specs.Totals.{AreTotals};
ghost use Rattle.waits.specs.Wanted.{is_wanted};
ghost use Rattle.waits.specs.declared.stamped.Stamped.{Stamped as One};
ghost use Rattle.waits.specs.Parts.{is_part_of, is_later, IsFirst, IsTaken};

use crate::job::Job;
use crate::stamped::{Nodes, Stamped, cut, fill, join, only, pick};
use crate::telling::{self, Answer};
use crate::totals::Totals;
use crate::wanted::{First, Wanted, are_before, count_in, first_in, is_wanted, place_in};
use octets::Memory;
use std::alloc::Global;
use std::collections::LinkedList;
use std::marker::Model;

/// The jobs of a session in order of acceptance, and what is counted of them. Contracts see whose they are, and the jobs.
#[derive(Debug, Drop)]
pub(crate) struct Owner {
    key: u64,
    session: u64,
    jobs: Nodes,
    totals: Totals,
    /// The bytes of their loads.
    bytes: usize,
    /// None of them waits for a number above this one.
    greatest: u64,
    /// Whether it is known that no two of them wait for one number.
    single: bool,
}

impl Model for Owner {
    ghost use Rattle.waits.specs.Parts.{Part};

    ghost Value = { Part };

    ghost use Rattle.waits.specs.Owned.{IsOwned};

    ghost view = { λ owner. record { key = owner.key; session = owner.session; jobs = owner.jobs } };

    ghost invariant = { λ owner. IsOwned owner };
}

/// Whether still no two jobs wait for one number with this one, where none of the others waits for one above the greatest.
fn stays_single(single: bool, greatest: u64, job: &Job) -> bool
    ensures { result ≡ (single && are_above greatest job.now.after) }
{
    single && job.waits_above(greatest)
}

impl Owner {
    /// A session with no job, which are in a list without nodes.
    pub(crate) fn new(nodes: Nodes, key: u64, session: u64) -> Owner
        requires { nodes ≡ [] }
        ensures { result ≡ record { key = key; session = session; jobs = [] } }
    {
        Owner {
            key,
            session,
            jobs: nodes,
            totals: Totals::none(),
            bytes: 0,
            greatest: 0,
            single: true,
        }
    }

    /// Whether they are of this session of this key.
    pub(crate) fn is_of(&self, key: u64, session: u64) -> bool
        ensures { result ≡ is_part_of key session self.now }
    {
        self.key == key && self.session == session
    }

    /// How many there are.
    pub(crate) fn totals(&self) -> Totals
        ensures totals { AreTotals self.now.jobs result }
        ensures within { result.count ≤ most_jobs }
    {
        self.totals
    }

    /// The bytes of their loads.
    pub(crate) fn bytes(&self) -> usize
        ensures bytes { result ≡ bytes_of self.now.jobs }
        ensures within { result ≤ most_job_bytes }
    {
        self.bytes
    }

    /// Whether one may be looked for, by what is counted of them and by the last stamp. Looks at the last one alone.
    fn may_have(&self, wanted: &Wanted) -> bool
        ensures { result ≡ false → tally (is_wanted wanted.now) self.now.jobs ≡ 0 }
    {
        self.totals.may_have(wanted) && !are_before(&self.jobs, wanted.least_stamp())
    }

    /// The first that is looked for and has a stamp below the limit. Looks at no job behind.
    pub(crate) fn first(&self, wanted: &Wanted, limit: u64) -> Option<First>
        ensures found { IfSome result (λ first. IsFirst (is_wanted wanted.now) limit self.now.jobs first) }
        ensures none { IfNone result (count_before (is_wanted wanted.now) limit self.now.jobs ≡ 0) }
    {
        if !self.may_have(wanted) {
            return None;
        }
        first_in(&self.jobs, wanted, limit)
    }

    /// Whether one is looked for.
    pub(crate) fn has(&self, wanted: &Wanted) -> bool
        ensures { result ≡ list_any (is_wanted wanted.now) self.now.jobs }
    {
        self.jobs.iter().any(|job| is_wanted(wanted, job))
    }

    /// How many are looked for and have a stamp below the limit. Looks at no job behind.
    pub(crate) fn count(&self, wanted: &Wanted, limit: u64) -> usize
        ensures { result ≡ count_before (is_wanted wanted.now) limit self.now.jobs }
    {
        if !self.may_have(wanted) {
            return 0;
        }
        count_in(&self.jobs, wanted, limit)
    }

    /// How many are ready and have a stamp below the limit. Looks at the last one alone where that is below the limit, or none
    /// is ready, and else at no job behind.
    pub(crate) fn ready_before(&self, limit: u64) -> usize
        ensures { result ≡ count_before (λ x. is_ready x.one) limit self.now.jobs }
    {
        if are_before(&self.jobs, limit) {
            return self.totals.count - self.totals.blocked;
        }
        self.count(&Wanted::Ready(0), limit)
    }

    /// The job at a place, with its stamp.
    pub(crate) fn job(&self, at: usize) -> &Stamped
        requires { at < length self.now.jobs }
        ensures { (d : One) → result.now ≡ slice_index_or self.now.jobs at d }
    {
        self.jobs.iter().nth(at).unwrap()
    }

    /// Puts a job of the session behind the others, into this node.
    pub(crate) fn push(&mut self, job: Stamped, mut node: Nodes)
        requires node { length node ≡ 1 }
        requires own { is_of self.old.key self.old.session job.one ≡ true }
        requires fits { length self.old.jobs < most_jobs }
        requires bytes_fit { bytes_of self.old.jobs + load_of job.one.job ≤ most_job_bytes }
        requires later { is_later job self.old.jobs }
        ensures { self.new ≡ record self.old { jobs = self.old.jobs ++ job ∷ [] } }
    {
        self.totals = self.totals.with(&job);
        self.bytes += job.one.job.load();
        self.single = stays_single(self.single, self.greatest, &job.one.job);
        self.greatest = self.greatest.max(job.one.job.greatest());
        fill(&mut node, job);
        join(&mut self.jobs, node);
    }

    /// Takes out the job at a place, in its node.
    pub(crate) fn take_at(&mut self, at: usize) -> Nodes
        requires { at < length self.old.jobs }
        ensures { IsTaken at self.old self.new result }
    {
        let node = pick(&mut self.jobs, at);
        let job = only(&node);
        self.totals = self.totals.without(job);
        self.bytes -= job.one.job.load();
        node
    }

    /// Tells the jobs that wait for a call how it was answered. Looks at none behind the first one where it is known that no
    /// two wait for one number.
    pub(crate) fn settle(&mut self, answer: Answer)
        requires { is_part_of answer.key answer.session self.old ≡ true }
        ensures { self.new ≡ record self.old { jobs = map (after answer.key answer.session answer.number answer.ok) self.old.jobs } }
    {
        if self.totals.waiting == 0 || self.greatest < answer.number {
            return;
        }
        let wanted = Wanted::Waiter(answer.key, answer.session, answer.number);
        let Some(at) = place_in(&self.jobs, &wanted) else {
            return;
        };
        let mut rest = cut(&mut self.jobs, at);
        telling::tell_next(
            &mut self.jobs,
            &mut rest,
            &mut self.totals,
            &mut self.bytes,
            answer,
        );
        if !self.single {
            telling::tell_all(
                &mut self.jobs,
                &mut rest,
                &mut self.totals,
                &mut self.bytes,
                answer,
            );
        }
        join(&mut self.jobs, rest);
    }

    /// A copy that shares the bytes of the requests.
    ///
    /// # Errors
    ///
    /// `Memory`.
    pub(crate) fn copy(&self, alloc: Global) -> Result<Owner, Memory>
        ensures { IfOk result (λ copy. copy ≡ self.now) }
    {
        let mut jobs = LinkedList::new(alloc);
        for job in self.jobs.iter() {
            if jobs.push_back(job.copy()?).is_err() {
                return Err(Memory);
            }
        }
        Ok(Owner {
            key: self.key,
            session: self.session,
            jobs,
            totals: self.totals,
            bytes: self.bytes,
            greatest: self.greatest,
            single: self.single,
        })
    }
}
