//! What is asked of a call before it becomes a job.

ghost use Rattle.std.specs.Prelude.{◌≡◌, ◌+◌, ◌==◌, ◌&&◌, ◌||◌, nat_le, nat_lt, not, ℕ, List, option_map, IfOk};
ghost use Rattle.std.specs.List.{filter, list_any};
ghost use Rattle.service_tl.specs.Results.{constructor_of};
ghost use Rattle.waits.specs.Jobs.{job_bytes, job_count};
ghost use Rattle.waits.specs.Limits.{most_job_bytes, most_jobs};
ghost use Rattle.temp_keys.specs.Checking.{is_temporary};
ghost use Rattle.server_rules.specs.Server.{Session};
ghost use Rattle.server_rules.specs.Waiting.{outlook};
ghost use Rattle.server_rules.specs.Calls.{each_once, is_bound, is_in_vain, is_over, query_refusal};
ghost use Rattle.server_dispatch.specs.Contents.{content_of};
ghost use Rattle.server_session.specs.SessionState.{Stands};
ghost use Rattle.server_dispatch.specs.Action.{call_needed};

use crate::bindings::Bindings;
use crate::short::Short;
use auth_keys::{KeyKind, Ring};
use msg_ids::Moment;
use octets::{IdList, Memory};
use outbox::Bytes;
use server_session::{Outlook, SessionState};
use service_tl::{GZIP_PACKED, constructor_of, is_service};
use std::alloc::Global;
use std::marker::Model;
use waits::{JOB_BYTES_MAX, JOBS_MAX, Jobs};

/// The numbers that a call waits for. Contracts see the list.
#[derive(Debug, Drop)]
pub struct Awaited {
    numbers: Vec<u64>,
}

impl Model for Awaited {
    ghost use Rattle.std.specs.Prelude.{ℕ, List};

    ghost Value = { List ℕ };

    ghost view = { λ awaited. awaited.numbers.items };
}

impl Awaited {
    /// Those of these numbers that weren't answered well already.
    pub(crate) fn keep_awaited(&mut self, standing: &SessionState, jobs: &Jobs)
        ensures { (now : ℕ) (session : Session) → Stands now standing.now session
            → self.new ≡ filter (λ other. not (is_over (outlook session jobs.now.jobs other))) self.old }
    {
        leave_awaited(standing, jobs, &mut self.numbers);
    }
}

impl From<Awaited> for IdList {
    ghost from_gives = { λ awaited list. list ≡ awaited };

    fn from(awaited: Awaited) -> IdList {
        IdList::from(awaited.numbers)
    }
}

/// What a call for the service needs in an event, in memory of its own.
#[derive(Debug, Drop)]
pub struct CallDue {
    /// The call's message identifier.
    pub number: u64,
    /// The query that the service is given.
    pub query: Bytes,
    /// The numbers that the call names to wait for, each once.
    pub wait: Awaited,
}

impl CallDue {
    /// What the call of this number needs that gives the service this query and names these numbers to wait for.
    ///
    /// # Errors
    ///
    /// `Memory`.
    pub fn new(alloc: Global, number: u64, numbers: &[u64], query: &[u8]) -> Result<CallDue, Memory>
        ensures { IfOk result (λ due. due ≡ call_needed number numbers.now query.now) }
    {
        Ok(CallDue {
            number,
            query: Bytes::copy_from_slice(alloc, query)?,
            wait: Awaited {
                numbers: each_once(alloc, numbers)?,
            },
        })
    }
}

// Each number of a list once, where it comes first.
fn each_once(alloc: Global, numbers: &[u64]) -> Result<Vec<u64>, Memory>
    ensures { IfOk result (λ once. once.items ≡ each_once numbers.now) }
{
    let mut once = Vec::with_capacity(alloc, numbers.len())?;
    for place in 0..numbers.len() {
        let number = numbers[place];
        if !has(once.as_slice(), number) {
            once.push_reserved(number);
        }
    }
    Ok(once)
}

/// Whether a number is among these.
pub(crate) fn has(numbers: &[u64], number: u64) -> bool
    ensures { result ≡ list_any (λ other. other == number) numbers.now }
{
    numbers.contains(&number)
}

/// The answer to a query that isn't one for the service, since a service constructor begins it; `None` to one that is.
pub(crate) fn query_refusal(query: &[u8]) -> Option<Short>
    ensures { option_map content_of result ≡ query_refusal (constructor_of query.now) }
{
    let number = constructor_of(query)?;
    if number == GZIP_PACKED {
        Some(Short::PackedBodyRefused)
    } else if is_service(number) {
        Some(Short::BadBody)
    } else {
        None
    }
}

/// Whether a key is a temporary one that is bound to none now.
pub(crate) fn is_unbound(ring: &Ring, bindings: &Bindings, now: Moment, key: u64) -> bool
    ensures { result ≡ (is_temporary ring.now key && not (is_bound now key bindings.now.bindings)) }
{
    is_temporary(ring, key) && !bindings.is_bound(now, key)
}

// Whether a key is a temporary one of the ring.
fn is_temporary(ring: &Ring, key: u64) -> bool
    ensures { result ≡ is_temporary ring.now key }
{
    matches!(ring.kind(key), Some(KeyKind::Temp { expires: _ }))
}

/// Whether the session of this key and number has as many jobs as it may, or too many bytes with a further load.
pub(crate) fn is_full(jobs: &Jobs, key: u64, session: u64, load: usize) -> bool
    ensures { result ≡ (nat_le most_jobs (job_count key session jobs.now.jobs) || nat_lt most_job_bytes (job_bytes key session jobs.now.jobs + load)) }
{
    let (count, bytes) = jobs.load(key, session);
    count >= JOBS_MAX || load > JOB_BYTES_MAX - bytes
}

// Of the numbers, those that weren't answered well already.
fn leave_awaited(standing: &SessionState, jobs: &Jobs, numbers: &mut Vec<u64>)
    ensures { (now : ℕ) (session : Session) → Stands now standing.now session
        → numbers.new.items ≡ filter (λ other. not (is_over (outlook session jobs.now.jobs other))) numbers.old.items }
{
    numbers.retain(|number| is_awaited(standing, jobs, *number));
}

// Whether a number wasn't answered well already.
fn is_awaited(standing: &SessionState, jobs: &Jobs, number: u64) -> bool
    ensures { (now : ℕ) (session : Session) → Stands now standing.now session → result ≡ not (is_over (outlook session jobs.now.jobs number)) }
{
    !matches!(standing.outlook(jobs, number), Outlook::Over)
}

/// Whether one of the numbers will never be answered well.
pub(crate) fn waits_in_vain(standing: &SessionState, jobs: &Jobs, numbers: &[u64]) -> bool
    ensures { (now : ℕ) (session : Session) → Stands now standing.now session
        → result ≡ list_any (λ other. is_in_vain (outlook session jobs.now.jobs other)) numbers.now }
{
    for place in 0..numbers.len() {
        if is_in_vain(standing, jobs, numbers[place]) {
            return true;
        }
    }
    false
}

// Whether a number will never be answered well.
fn is_in_vain(standing: &SessionState, jobs: &Jobs, number: u64) -> bool
    ensures { (now : ℕ) (session : Session) → Stands now standing.now session → result ≡ is_in_vain (outlook session jobs.now.jobs number) }
{
    matches!(standing.outlook(jobs, number), Outlook::InVain)
}
