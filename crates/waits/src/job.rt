//! A call that was accepted and isn't answered yet.

ghost use Rattle.std.specs.Prelude.{◌≡◌, IfOk};
ghost use Rattle.waits.specs.Jobs.{is_of, is_ready, is_waiting, is_overdue, load_of, waits_for, after_answer};
ghost use Rattle.waits.specs.Numbers.{are_above, greatest_of};

use crate::jobs::WAIT_SECONDS;
use bytes::Bytes;
use msg_ids::Moment;
use octets::{IdList, Memory};

/// What each number that a job waits for adds to its load, in bytes.
const NUMBER_BYTES: usize = 8;

/// A call that a server accepted and hasn't answered yet.
#[derive(Debug, Drop)]
pub struct Job {
    /// The identifier of the key of its session.
    pub key: u64,
    /// The number of its session.
    pub session: u64,
    /// Its message identifier.
    pub number: u64,
    /// When it was accepted.
    pub since: Moment,
    /// The message identifiers of the calls that it still waits for.
    pub after: IdList,
    /// The query that the service is given.
    pub request: Bytes,
}

impl Job {
    /// What the job counts against the bytes of its session: the length of its request, and 8 bytes for each number
    /// that it waits for.
    pub fn load(&self) -> usize
        ensures { result ≡ load_of self.now }
    {
        self.request.len() + NUMBER_BYTES * self.after.ids().len()
    }

    /// The greatest number that it waits for, and 0 where it waits for none.
    pub(crate) fn greatest(&self) -> u64
        ensures { result ≡ greatest_of self.now.after }
    {
        self.after
            .ids()
            .iter()
            .fold(0, |most, number| most.max(*number))
    }

    /// Whether each number that it waits for is above this one.
    pub(crate) fn waits_above(&self, floor: u64) -> bool
        ensures { result ≡ are_above floor self.now.after }
    {
        self.after.ids().iter().all(|number| floor < *number)
    }

    /// A copy that shares the bytes of the request.
    ///
    /// # Errors
    ///
    /// `Memory`.
    pub(crate) fn copy(&self) -> Result<Job, Memory>
        ensures { IfOk result (λ job. job ≡ self.now) }
    {
        Ok(Job {
            key: self.key,
            session: self.session,
            number: self.number,
            since: self.since,
            after: self.after.clone()?,
            request: self.request.clone()?,
        })
    }
}

/// A job that isn't answered yet, and whether a call that it waits for was answered otherwise than well.
#[derive(Debug, Drop)]
pub(crate) struct Unfinished {
    pub job: Job,
    pub failed: bool,
}

impl Unfinished {
    /// A copy that shares the bytes of the request.
    ///
    /// # Errors
    ///
    /// `Memory`.
    pub(crate) fn copy(&self) -> Result<Unfinished, Memory>
        ensures { IfOk result (λ one. one ≡ self.now) }
    {
        Ok(Unfinished {
            job: self.job.copy()?,
            failed: self.failed,
        })
    }

    /// Whether it belongs to this session of this key.
    pub(crate) fn is_of(&self, key: u64, session: u64) -> bool
        ensures { result ≡ is_of key session self.now }
    {
        self.job.key == key && self.job.session == session
    }

    /// Whether it waits for a call.
    pub(crate) fn is_waiting(&self) -> bool
        ensures { result ≡ is_waiting self.now }
    {
        !self.job.after.ids().is_empty()
    }

    /// Whether it has waited too long at this moment.
    pub(crate) fn is_overdue(&self, now: Moment) -> bool
        ensures { result ≡ is_overdue now self.now }
    {
        self.is_waiting() && self.job.since.seconds() + WAIT_SECONDS <= now.seconds()
    }

    /// Whether it waits for no call, and none was answered otherwise than well.
    pub(crate) fn is_ready(&self) -> bool
        ensures { result ≡ is_ready self.now }
    {
        !self.failed && !self.is_waiting()
    }

    /// Whether it waits for the call of this number in this session.
    pub(crate) fn waits_for(&self, key: u64, session: u64, number: u64) -> bool
        ensures { result ≡ waits_for key session number self.now }
    {
        self.is_of(key, session) && self.job.after.ids().contains(&number)
    }

    /// Tells it that the call of this number in this session was answered, well or not.
    pub(crate) fn settle(&mut self, key: u64, session: u64, number: u64, ok: bool)
        ensures { self.new ≡ after_answer key session number ok self.old }
    {
        if self.waits_for(key, session, number) {
            if ok {
                self.job.after.remove_all(number);
            } else {
                self.failed = true;
            }
        }
    }
}
