//! The room for all that the sessions of a server say in a tick.

ghost use Rattle.std.specs.Prelude.{◌≡◌, ◌≤◌, ◌<◌, [], All, IfOk, OnErr, OnOk, length, slice_index_or, slice_set, sum_by, max, min, vec_capacity, false};
ghost use Rattle.waits.specs.Jobs.{overdue_count_of};
ghost use Rattle.waits.specs.Limits.{most_jobs};
ghost use Rattle.server_rules.specs.Server.{sessions_max};
ghost use Rattle.server_session.specs.declared.session.SessionState.{SessionState as One};
ghost use Rattle.server_session.specs.Names.{name_kept};
ghost use Rattle.server_session.specs.Rooms.{with_replies_left};
ghost use Rattle.server_session.specs.SessionState.{key_of, number_of, replies_left};
ghost use Rattle.server_core.specs.Answering.{answers_left};
ghost use Rattle.server_core.specs.Reserving.{AreFresh, AreReserved, IsFresh};
ghost use Rattle.server_core.specs.Sessions.{AreApart};

use crate::room::SHORT_RESULT_BYTES;
use crate::sessions::Sessions;
use crate::tick_turns::{TickTurn, TickTurns};
use msg_ids::Moment;
use octets::Memory;
use server_dispatch::{Entries, Turn};
use server_output::{OutgoingMessages, Packets};
use std::alloc::Global;
use waits::Jobs;

impl TickTurn {
    // Nothing said yet, and room for so many answers. Takes no memory where there are none.
    fn new(alloc: Global, most: usize) -> Result<TickTurn, Memory>
        requires few { most ≤ most_jobs }
        ensures { IfOk result (IsFresh most) }
    {
        let bytes = most * SHORT_RESULT_BYTES;
        let packets = if most == 0 {
            None
        } else {
            Some(Packets::new(alloc, most, bytes)?)
        };
        Ok(TickTurn {
            turn: Turn {
                owing: OutgoingMessages::new(alloc, most, bytes)?,
                entries: Entries::new(alloc, 0)?,
            },
            packets,
            left: most,
            spoke: false,
        })
    }
}

impl Sessions {
    // How many answers the session at this place gives at most in a tick at this moment, none where no job of it is overdue; and
    // how many are. Where none of all is left to be found, none is looked for.
    fn most_answers(&self, place: usize, jobs: &Jobs, now: Moment, left: usize) -> (usize, usize)
        requires place { place < length self.now }
        ensures enough { (d : One) → All (λ one. one.failed ≡ false) jobs.now.jobs
            → (left ≡ 0 → overdue_count_of (key_of (slice_index_or self.now place d)) (number_of (slice_index_or self.now place d)) now jobs.now.jobs ≡ 0)
            → answers_left now jobs.now.jobs (name_kept (slice_index_or self.now place d)) ≤ result.0 }
        ensures few { result.0 ≤ most_jobs }
        ensures found { (d : One) → result.1 ≤ overdue_count_of (key_of (slice_index_or self.now place d)) (number_of (slice_index_or self.now place d)) now jobs.now.jobs }
        ensures apart { AreApart self.now }
    {
        let standing = &self.list[place];
        if left == 0 {
            return (0, 0);
        }
        let overdue = jobs.overdue_of(standing.key(), standing.number(), now);
        if overdue == 0 {
            return (0, 0);
        }
        (jobs.blocked(standing.key(), standing.number()), overdue)
    }

    // Takes the memory that the session at this place needs for so many answers. Its room for answers before.
    fn reserve_at(&mut self, alloc: Global, place: usize, answers: usize) -> Result<usize, Memory>
        requires place { place < length self.old }
        ensures reserved { (d : One) → OnOk result (self.new ≡ slice_set self.old place (with_replies_left (max (replies_left (slice_index_or self.old place d)) answers) (slice_index_or self.old place d))) }
        ensures before { (d : One) → IfOk result (λ before. before ≡ replies_left (slice_index_or self.old place d)) }
        ensures unchanged_on_memory { OnErr result (self.new ≡ self.old) }
    {
        let standing = &mut self.list[place];
        let before = standing.replies_left();
        standing.reserve(alloc, answers)?;
        Ok(before)
    }

    // Lowers the room for answers of the session at this place to so much.
    fn release_at(&mut self, place: usize, answers: usize)
        requires place { place < length self.old }
        ensures { (d : One) → self.new ≡ slice_set self.old place (with_replies_left (min (replies_left (slice_index_or self.old place d)) answers) (slice_index_or self.old place d)) }
    {
        self.list[place].release(answers);
    }
}

/// The voices of these sessions in a tick at this moment, who have said nothing. Only those of which a job is overdue have
/// room to answer.
///
/// # Errors
///
/// `Memory`.
pub(crate) fn fresh_voices(
    alloc: Global,
    now: Moment,
    sessions: &Sessions,
    jobs: &Jobs,
) -> Result<TickTurns, Memory>
    requires few { length sessions.now ≤ sessions_max }
    ensures fresh { IfOk result (λ voices. AreFresh now jobs.now.jobs sessions.now voices.list.items) }
    ensures order { IfOk result (λ voices. voices.order.items ≡ []) }
    ensures capacity { IfOk result (λ voices. length sessions.now ≤ vec_capacity voices.order) }
    ensures entries { IfOk result (λ voices. voices.entries ≡ record { entries = []; room = sum_by (λ voice. voice.left) voices.list.items }) }
{
    let count = sessions.count();
    let mut list = Vec::with_capacity(alloc, count)?;
    let mut total = 0;
    let mut left = jobs.overdue(now);
    for place in 0..count {
        let (most, overdue) = sessions.most_answers(place, jobs, now, left);
        left = left.saturating_sub(overdue);
        list.push_reserved(TickTurn::new(alloc, most)?);
        total += most;
    }
    Ok(TickTurns {
        list,
        order: Vec::with_capacity(alloc, count)?,
        entries: Entries::new(alloc, total)?,
    })
}

/// Takes the memory that these sessions need for the answers of their voices, from this place on.
///
/// # Errors
///
/// `Memory`, and then all are as they were.
pub(crate) fn reserves(
    sessions: &mut Sessions,
    voices: &[TickTurn],
    alloc: Global,
    place: usize,
) -> Result<(), Memory>
    requires long { length voices.now ≡ length sessions.old }
    ensures reserved { OnOk result (AreReserved place sessions.old voices.now sessions.new) }
    ensures unchanged_on_memory { OnErr result (sessions.new ≡ sessions.old) }
{
    if place >= sessions.count() {
        return Ok(());
    }
    let before = sessions.reserve_at(alloc, place, voices[place].left)?;
    if reserves(sessions, voices, alloc, place + 1).is_err() {
        sessions.release_at(place, before);
        return Err(Memory);
    }
    Ok(())
}
