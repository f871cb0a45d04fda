//! The jobs of all sessions, each session's for itself.

ghost use Rattle.std.specs.Prelude.{◌≡◌, ◌+◌, ◌<◌, ◌≤◌, ◌^◌, [], List, not, length, map, position, vec_len, vec_capacity, IfOk, IfSome, IfNone, OnOk, OnErr};
ghost use Rattle.std.specs.List.{filter, list_any};
ghost use Rattle.waits.specs.Limits.{most_jobs, most_job_bytes};
ghost use Rattle.waits.specs.Jobs.{is_of, is_ready, load_of, is_call};
ghost use Rattle.waits.specs.Stamps.{after, bytes_of, count_before, own, IsWith};
ghost use Rattle.waits.specs.Totals.{AreTotals};
ghost use Rattle.waits.specs.Wanted.{is_wanted};
ghost use Rattle.waits.specs.Parts.{is_part_of, is_later, all_of};
ghost use Rattle.waits.specs.Kept.{AreKept, AreParts, IsFirstAt, IsFirstOf, IsOut, IsThere};
ghost use Rattle.waits.specs.declared.stamped.Stamped.{Stamped as One};

use crate::job::Job;
use crate::owner::Owner;
use crate::stamped::{self, Nodes, Stamped, only};
use crate::telling::Answer;
use crate::totals::Totals;
use crate::wanted::Wanted;
use octets::Memory;
use std::alloc::Global;
use std::collections::LinkedList;
use std::marker::Model;
use std::mem;

/// So many empty nodes at least are let be.
const SPARE_MIN: usize = 64;

/// The jobs of all sessions, and nodes in which no job stands. Contracts see the jobs with their stamps, those of one
/// session after those of another, and for how many more there is room: places for their sessions, and nodes.
#[derive(Debug, Drop)]
pub(crate) struct Owners {
    list: Vec<Owner>,
    totals: Totals,
    spare: Nodes,
}

impl Model for Owners {
    ghost use Rattle.std.specs.Prelude.{◌-◌, min, length, vec_len, vec_capacity};
    ghost use Rattle.waits.specs.Kept.{Kept};

    ghost Value = { Kept };

    ghost use Rattle.waits.specs.Parts.{all_of};
    ghost use Rattle.waits.specs.Kept.{AreKept};

    ghost view = { λ owners. record { jobs = all_of owners.list.items; room = min (vec_capacity owners.list - vec_len owners.list) (length owners.spare) } };

    ghost invariant = { λ owners. AreKept owners.list.items owners.totals };
}

/// A session's place among those that have jobs, and a job's among the session's.
#[derive(Clone, Copy, Debug)]
pub(crate) struct Place {
    pub owner: usize,
    pub at: usize,
}

/// The place of a session among those that have jobs.
fn find(list: &Vec<Owner>, key: u64, session: u64) -> Option<usize>
    ensures { result ≡ position (is_part_of key session) list.now.items }
{
    list.iter().position(|owner| owner.is_of(key, session))
}

/// The place of the job with the least stamp of those that are looked for and have a stamp below the limit. The search in
/// a session ends at the first stamp that isn't below the least one so far.
fn first_place(list: &Vec<Owner>, wanted: &Wanted, limit: u64) -> Option<Place>
    ensures found { IfSome result (λ place. IsFirstAt (is_wanted wanted.now) list.now.items place) }
    ensures none { IfNone result (count_before (is_wanted wanted.now) limit (all_of list.now.items) ≡ 0) }
{
    let mut least = limit;
    let mut found = None;
    for owner in 0..list.len() {
        if let Some(first) = list[owner].first(wanted, least) {
            least = first.stamp;
            found = Some(Place {
                owner,
                at: first.at,
            });
        }
    }
    found
}

/// The place of the call of this number with the least stamp in this session, if that is below the limit.
fn call_place(list: &Vec<Owner>, key: u64, session: u64, number: u64, limit: u64) -> Option<Place>
    requires { AreParts list.now.items }
    ensures found { IfSome result (λ place. IsFirstAt (λ x. is_call key session number x.one) list.now.items place) }
    ensures none { IfNone result (count_before (λ x. is_call key session number x.one) limit (all_of list.now.items) ≡ 0) }
{
    let owner = find(list, key, session)?;
    let first = list[owner].first(&Wanted::Call(key, session, number), limit)?;
    Some(Place {
        owner,
        at: first.at,
    })
}

/// Takes out the job of a place, whose node goes to others. A session with no other job is forgotten.
fn take_out(list: &mut Vec<Owner>, totals: &mut Totals, spare: &mut Nodes, place: Place) -> Job
    requires kept { AreKept list.old.items totals.old }
    requires there { IsThere list.old.items place }
    ensures out { IsOut place list.old.items list.new.items result }
    ensures kept { AreKept list.new.items totals.new }
    ensures len { vec_len list.new ≤ vec_len list.old }
    ensures capacity { vec_capacity list.new ≡ vec_capacity list.old }
    ensures spare { length spare.old ≤ length spare.new }
{
    let node = list[place.owner].take_at(place.at);
    *totals = totals.without(only(&node));
    sweep(list, place.owner);
    stamped::empty(node, spare)
}

/// Forgets a session that has no job.
fn sweep(list: &mut Vec<Owner>, place: usize)
    requires within { place < length list.old.items }
    requires parts { AreParts list.old.items }
    ensures jobs { all_of list.new.items ≡ all_of list.old.items }
    ensures parts { AreParts list.new.items }
    ensures len { vec_len list.new ≤ vec_len list.old }
    ensures capacity { vec_capacity list.new ≡ vec_capacity list.old }
{
    if list[place].totals().count == 0 {
        list.remove(place);
    }
}

impl Owners {
    /// No job.
    pub(crate) fn new(alloc: Global) -> Owners
        ensures jobs { result.jobs ≡ [] }
    {
        Owners {
            list: Vec::new(alloc),
            totals: Totals::none(),
            spare: LinkedList::new(alloc),
        }
    }

    /// Takes room for so many further jobs, of any sessions. Where far more nodes are empty, most of them are given back.
    ///
    /// # Errors
    ///
    /// `Memory`.
    pub(crate) fn reserve(&mut self, alloc: Global, count: usize) -> Result<(), Memory>
        ensures jobs { self.new.jobs ≡ self.old.jobs }
        ensures kept { OnErr result (self.old.room ≤ self.new.room) }
        ensures reserved { OnOk result (count ≤ self.new.room) }
    {
        self.list.reserve(count)?;
        stamped::prepare(&mut self.spare, alloc, count)?;
        if self.totals.count.max(SPARE_MIN) < self.spare.len() - count {
            drop(stamped::cut(&mut self.spare, count));
            let least = self.list.len().saturating_add(count);
            self.list.shrink_to(least);
        }
        Ok(())
    }

    /// How many jobs there are.
    pub(crate) fn totals(&self) -> Totals
        ensures { AreTotals self.now.jobs result }
    {
        self.totals
    }

    /// How many jobs a session has.
    pub(crate) fn totals_of(&self, key: u64, session: u64) -> Totals
        ensures totals { AreTotals (own key session self.now.jobs) result }
        ensures within { result.count ≤ most_jobs }
    {
        match find(&self.list, key, session) {
            Some(place) => self.list[place].totals(),
            None => Totals::none(),
        }
    }

    /// How many jobs a session has, and the bytes of their loads.
    pub(crate) fn load(&self, key: u64, session: u64) -> (usize, usize)
        ensures count { result.0 ≡ length (own key session self.now.jobs) }
        ensures bytes { result.1 ≡ bytes_of (own key session self.now.jobs) }
        ensures jobs_within { result.0 ≤ most_jobs }
        ensures bytes_within { result.1 ≤ most_job_bytes }
    {
        match find(&self.list, key, session) {
            Some(place) => (self.list[place].totals().count, self.list[place].bytes()),
            None => (0, 0),
        }
    }

    /// How many jobs with a stamp below the limit are looked for.
    pub(crate) fn count(&self, wanted: &Wanted, limit: u64) -> usize
        ensures { result ≡ count_before (is_wanted wanted.now) limit self.now.jobs }
    {
        if !self.totals.may_have(wanted) {
            return 0;
        }
        let mut count = 0;
        for place in 0..self.list.len() {
            count += self.list[place].count(wanted, limit);
        }
        count
    }

    /// How many jobs with a stamp below the limit are ready. Looks, in a session whose last stamp is below it, at that job alone.
    pub(crate) fn ready_before(&self, limit: u64) -> usize
        ensures { result ≡ count_before (λ x. is_ready x.one) limit self.now.jobs }
    {
        let mut count = 0;
        for place in 0..self.list.len() {
            count += self.list[place].ready_before(limit);
        }
        count
    }

    /// How many of a session's are.
    pub(crate) fn count_of(&self, key: u64, session: u64, wanted: &Wanted, limit: u64) -> usize
        ensures { result ≡ count_before (is_wanted wanted.now) limit (own key session self.now.jobs) }
    {
        match find(&self.list, key, session) {
            Some(place) => self.list[place].count(wanted, limit),
            None => 0,
        }
    }

    /// Whether a session has the call of this number.
    pub(crate) fn has(&self, key: u64, session: u64, number: u64) -> bool
        ensures { result ≡ list_any (λ x. is_call key session number x.one) self.now.jobs }
    {
        match find(&self.list, key, session) {
            Some(place) => self.list[place].has(&Wanted::Call(key, session, number)),
            None => false,
        }
    }

    /// The job with the least stamp of those that are looked for and have a stamp below the limit.
    pub(crate) fn first(&self, wanted: &Wanted, limit: u64) -> Option<&Job>
        ensures found { IfSome result (λ job. (x : One) × (others : List One) × (job.now ≡ x.one.job) × IsFirstOf (is_wanted wanted.now) x others self.now.jobs) }
        ensures none { IfNone result (count_before (is_wanted wanted.now) limit self.now.jobs ≡ 0) }
    {
        let place = first_place(&self.list, wanted, limit)?;
        Some(&self.list[place.owner].job(place.at).one.job)
    }

    /// A stamp below which no job is looked for: by the first one that is, where one has a stamp below the limit.
    pub(crate) fn first_stamp(&self, wanted: &Wanted, limit: u64) -> u64
        ensures { count_before (is_wanted wanted.now) result self.now.jobs ≡ 0 }
    {
        match first_place(&self.list, wanted, limit) {
            Some(place) => self.list[place.owner].job(place.at).stamp,
            None => limit,
        }
    }

    /// Puts a job behind the others of its session. There is room for it.
    pub(crate) fn put(&mut self, job: Stamped)
        requires room { 0 < self.old.room }
        requires few { length self.old.jobs + 1 < 2 ^ 64 }
        requires fits { length (own job.one.job.key job.one.job.session self.old.jobs) < most_jobs }
        requires bytes_fit { bytes_of (own job.one.job.key job.one.job.session self.old.jobs) + load_of job.one.job ≤ most_job_bytes }
        requires later { is_later job self.old.jobs }
        ensures put { IsWith job self.old.jobs self.new.jobs }
        ensures room { self.old.room ≤ self.new.room + 1 }
    {
        let rest = stamped::cut(&mut self.spare, 1);
        let node = mem::replace(&mut self.spare, rest);
        self.totals = self.totals.with(&job);
        put_in(&mut self.list, job, node);
    }

    /// Takes out the job with the least stamp of those that are looked for and have a stamp below the limit.
    pub(crate) fn take_first(&mut self, wanted: &Wanted, limit: u64) -> Option<Job>
        ensures found { IfSome result (λ job. (x : One) × (job ≡ x.one.job) × IsFirstOf (is_wanted wanted.now) x self.new.jobs self.old.jobs) }
        ensures none { IfNone result (count_before (is_wanted wanted.now) limit self.old.jobs ≡ 0) }
        ensures unchanged { IfNone result (self.new ≡ self.old) }
        ensures room { self.old.room ≤ self.new.room }
    {
        if !self.totals.may_have(wanted) {
            return None;
        }
        let place = first_place(&self.list, wanted, limit)?;
        Some(take_out(&mut self.list, &mut self.totals, &mut self.spare, place))
    }

    /// Takes out the call of this number with the least stamp in a session, if that is below the limit.
    pub(crate) fn take_call(
        &mut self,
        key: u64,
        session: u64,
        number: u64,
        limit: u64,
    ) -> Option<Job>
        ensures found { IfSome result (λ job. (x : One) × (job ≡ x.one.job) × IsFirstOf (λ y. is_call key session number y.one) x self.new.jobs self.old.jobs) }
        ensures none { IfNone result (count_before (λ y. is_call key session number y.one) limit self.old.jobs ≡ 0) }
        ensures unchanged { IfNone result (self.new ≡ self.old) }
        ensures room { self.old.room ≤ self.new.room }
    {
        let place = call_place(&self.list, key, session, number, limit)?;
        Some(take_out(&mut self.list, &mut self.totals, &mut self.spare, place))
    }

    /// Tells the jobs of a session how a call was answered.
    pub(crate) fn settle(&mut self, answer: Answer)
        ensures jobs { self.new.jobs ≡ map (after answer.key answer.session answer.number answer.ok) self.old.jobs }
        ensures room { self.new.room ≡ self.old.room }
    {
        let Some(place) = find(&self.list, answer.key, answer.session) else {
            return;
        };
        let before = self.list[place].totals();
        self.list[place].settle(answer);
        self.totals = self.totals.changed(before, self.list[place].totals());
    }

    /// Forgets the jobs of a session, and gives back their nodes.
    pub(crate) fn forget(&mut self, key: u64, session: u64)
        ensures jobs { self.new.jobs ≡ filter (λ x. not (is_of key session x.one)) self.old.jobs }
        ensures room { self.old.room ≤ self.new.room }
    {
        let Some(place) = find(&self.list, key, session) else {
            return;
        };
        let owner = self.list.remove(place);
        self.totals = self.totals.changed(owner.totals(), Totals::none());
    }

    /// The same jobs, with room for so many more.
    ///
    /// # Errors
    ///
    /// `Memory`.
    pub(crate) fn copy(&self, alloc: Global, count: usize) -> Result<Owners, Memory>
        ensures jobs { IfOk result (λ copy. copy.jobs ≡ self.now.jobs) }
        ensures room { IfOk result (λ copy. count ≤ copy.room) }
    {
        let mut list = copies(&self.list, alloc)?;
        list.reserve(count)?;
        let mut spare = LinkedList::new(alloc);
        stamped::prepare(&mut spare, alloc, count)?;
        Ok(Owners {
            list,
            totals: self.totals,
            spare,
        })
    }
}

/// Puts a job into a node behind the others of its session. There is a place for the session.
fn put_in(list: &mut Vec<Owner>, job: Stamped, mut node: Nodes)
    requires node { length node ≡ 1 }
    requires room { vec_len list.old < vec_capacity list.old }
    requires parts { AreParts list.old.items }
    requires fits { length (own job.one.job.key job.one.job.session (all_of list.old.items)) < most_jobs }
    requires bytes_fit { bytes_of (own job.one.job.key job.one.job.session (all_of list.old.items)) + load_of job.one.job ≤ most_job_bytes }
    requires later { is_later job (all_of list.old.items) }
    ensures put { IsWith job (all_of list.old.items) (all_of list.new.items) }
    ensures parts { AreParts list.new.items }
    ensures len { vec_len list.new ≤ vec_len list.old + 1 }
    ensures capacity { vec_capacity list.new ≡ vec_capacity list.old }
{
    let (key, session) = (job.one.job.key, job.one.job.session);
    match find(list, key, session) {
        Some(place) => list[place].push(job, node),
        None => {
            let mut owner = Owner::new(stamped::cut(&mut node, 1), key, session);
            owner.push(job, node);
            list.push_reserved(owner);
        }
    }
}

/// Copies of the sessions with their jobs.
fn copies(list: &Vec<Owner>, alloc: Global) -> Result<Vec<Owner>, Memory>
    ensures { IfOk result (λ copy. copy.items ≡ list.now.items) }
{
    let mut copy = Vec::new(alloc);
    for owner in list.iter() {
        copy.push(owner.copy(alloc)?)?;
    }
    Ok(copy)
}
