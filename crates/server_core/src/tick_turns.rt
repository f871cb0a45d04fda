//! What the sessions of a server owe in a tick, as its jobs are answered.

ghost use Rattle.std.specs.Prelude.{◌≡◌, ◌≤◌, ◌<◌, ◌+◌, ◌++◌, ◌∷◌, if◌then◌else◌, ℕ, Bool, List, [], All, Some, None, true, false, length, slice_index_or, slice_set, vec_capacity, vec_len};
ghost use Rattle.std.specs.List.{position};
ghost use Rattle.auth_keys.specs.declared.ring.RingKey.{RingKey};
ghost use Rattle.waits.specs.Jobs.{first_job, without_first};
ghost use Rattle.waits.specs.declared.job.Unfinished.{Unfinished};
ghost use Rattle.server_dispatch.specs.Contents.{content_of, short_bytes_max};
ghost use Rattle.server_output.specs.Items.{result_bytes};
ghost use Rattle.server_rules.specs.Server.{Binding};
ghost use Rattle.server_rules.specs.Event.{Speaker, State};
ghost use Rattle.server_rules.specs.Waiting.{all_given_up, first_given_up, given_up, gives_up};
ghost use Rattle.server_rules.specs.Answer.{ticks};
ghost use Rattle.law_server.specs.Order.{IsUnanswered};
ghost use Rattle.server_session.specs.declared.session.SessionState.{SessionState};
ghost use Rattle.server_session.specs.SessionState.{replies_left};
ghost use Rattle.server_session.specs.Says.{Keys, setting_of};
ghost use Rattle.server_dispatch.specs.Speaks.{HasRoom, Speaks, Spends};
ghost use Rattle.server_core.specs.Losing.{IsHere};
ghost use Rattle.server_core.specs.Sessions.{AreApart, is_kept_as};
ghost use Rattle.server_core.specs.Answering.{AreInTick, AreVoices, IsDueTest, IsInTick, content_for, first_for, test_of, turn_with};

use crate::sessions::Sessions;
use draws::Draw;
use law_server::laws::{rows_keep_order, taken_jobs_are_open};
use msg_ids::Moment;
use server_dispatch::{Entries, Short, Turn};
use server_output::Packets;
use server_session::laws::sessions_stand_later;
use std::mem;
use waits::{Job, Jobs};

/// Why a job is answered in a tick, in place of a run.
#[derive(Clone, Copy)]
pub(crate) enum Cause {
    /// It has waited too long.
    Overdue,
    /// A call that it waits for wasn't answered well.
    Failed,
}

impl Cause {
    // Takes out the first job that is answered for this cause; `None` where there is none.
    fn take(self, jobs: &mut Jobs, now: Moment) -> Option<Job>
        ensures job { result ≡ first_job (test_of now self) jobs.old.jobs }
        ensures others { jobs.new ≡ record jobs.old { jobs = without_first (test_of now self) jobs.old.jobs } }
    {
        match self {
            Cause::Overdue => jobs.expired(now),
            Cause::Failed => jobs.failed(),
        }
    }

    // The answer to it.
    fn short(self) -> Short
        ensures { content_of result ≡ content_for self }
    {
        match self {
            Cause::Overdue => Short::MsgWaitTimeout,
            Cause::Failed => Short::MsgWaitFailed,
        }
    }
}

/// A job that was taken out, and the answer to it in place of a run.
#[derive(Drop)]
struct GivenUp {
    job: Job,
    short: Short,
}

/// What a session owes in a tick, and the room for its packets.
#[derive(Drop)]
pub(crate) struct TickTurn {
    /// What it owes. Its entries are none: those of a tick are kept together.
    pub(crate) turn: Turn,
    /// The room for its packets; none where it gives no answer, and once they went out.
    pub(crate) packets: Option<Packets>,
    /// How many more answers it gives at most.
    pub(crate) left: usize,
    /// Whether it has said something.
    pub(crate) spoke: bool,
}

/// What all sessions owe in a tick, each at its place.
#[derive(Drop)]
pub(crate) struct TickTurns {
    pub(crate) list: Vec<TickTurn>,
    /// The places of the sessions that spoke, in the order of their first words.
    pub(crate) order: Vec<usize>,
    /// The answers of the tick.
    pub(crate) entries: Entries,
}

impl Sessions {
    /// The session at this place gives up a job that was taken out. Takes no memory.
    pub(crate) fn gives_up<D: Draw>(
        &mut self,
        place: usize,
        turn: &mut Turn,
        jobs: &mut Jobs,
        now: Moment,
        job: Job,
        short: Short,
    )
        requires place { place < length self.old }
        requires room { (d : SessionState) → HasRoom 1 (result_bytes short_bytes_max) 1 (slice_index_or self.old place d) turn.old }
        requires replies { (d : SessionState) → 0 < replies_left (slice_index_or self.old place d) }
        ensures others { (d : SessionState) → self.new ≡ slice_set self.old place (slice_index_or self.new place d) }
        ensures spends { (d : SessionState) → Spends now 1 (result_bytes short_bytes_max) 1 (slice_index_or self.old place d) turn.old (slice_index_or self.new place d) turn.new }
        ensures replies_last { (d : SessionState) → replies_left (slice_index_or self.new place d) + 1 ≡ replies_left (slice_index_or self.old place d) }
        ensures speaks { (d : SessionState) (keys : Keys) (bindings : List Binding) (draw : D) (speaker : Speaker D) → IsUnanswered speaker.session.replies job.number
            → Speaks now (slice_index_or self.old place d) turn.old jobs.old.jobs bindings draw speaker
            → Speaks now (slice_index_or self.new place d) turn.new jobs.new.jobs bindings draw (gives_up (setting_of now D.step keys) (content_of short) job speaker) }
        ensures apart { AreApart self.old }
    {
        let standing = &mut self.list[place];
        turn.gives_up::<D>(now, standing, jobs, job, short);
    }
}

impl TickTurn {
    // Its place is noted with its first words.
    fn begins(&mut self, order: &mut Vec<usize>, place: usize)
        requires room { self.old.spoke ≡ false → vec_len order.old < vec_capacity order.old }
        ensures order { order.new.items ≡ (if self.old.spoke then order.old.items else order.old.items ++ place ∷ []) }
        ensures capacity { vec_capacity order.new ≡ vec_capacity order.old }
        ensures spoke { self.new ≡ record self.old { spoke = true } }
    {
        if !self.spoke {
            self.spoke = true;
            order.push_reserved(place);
        }
    }

    // The session at this place gives up a job that was taken out, and the answer is one of the tick.
    fn gives_up<D: Draw>(
        &mut self,
        entries: &mut Entries,
        sessions: &mut Sessions,
        place: usize,
        jobs: &mut Jobs,
        now: Moment,
        given_up: GivenUp,
    )
        requires place { place < length sessions.old }
        requires room { (d : SessionState) → HasRoom 1 (result_bytes short_bytes_max) 1 (slice_index_or sessions.old place d) (turn_with self.old entries.old) }
        requires replies { (d : SessionState) → 0 < replies_left (slice_index_or sessions.old place d) }
        ensures others { (d : SessionState) → sessions.new ≡ slice_set sessions.old place (slice_index_or sessions.new place d) }
        ensures spends { (d : SessionState) → Spends now 1 (result_bytes short_bytes_max) 1 (slice_index_or sessions.old place d) (turn_with self.old entries.old)
            (slice_index_or sessions.new place d) (turn_with self.new entries.new) }
        ensures replies_last { (d : SessionState) → replies_left (slice_index_or sessions.new place d) + 1 ≡ replies_left (slice_index_or sessions.old place d) }
        ensures speaks { (d : SessionState) (keys : Keys) (bindings : List Binding) (draw : D) (speaker : Speaker D) → IsUnanswered speaker.session.replies given_up.job.number
            → Speaks now (slice_index_or sessions.old place d) (turn_with self.old entries.old) jobs.old.jobs bindings draw speaker
            → Speaks now (slice_index_or sessions.new place d) (turn_with self.new entries.new) jobs.new.jobs bindings draw (gives_up (setting_of now D.step keys) (content_of given_up.short) given_up.job speaker) }
        ensures same_packets { self.new.packets ≡ self.old.packets }
        ensures same_left { self.new.left ≡ self.old.left }
        ensures still_spoke { self.new.spoke ≡ self.old.spoke }
        ensures apart { AreApart sessions.old }
    {
        let GivenUp { job, short } = given_up;
        mem::swap(&mut self.turn.entries, entries);
        sessions.gives_up::<D>(place, &mut self.turn, jobs, now, job, short);
        mem::swap(&mut self.turn.entries, entries);
    }
}

impl TickTurns {
    // The session at this place answers a job that was taken out, unless it has no answer left.
    fn answers<D: Draw>(
        &mut self,
        place: usize,
        now: Moment,
        sessions: &mut Sessions,
        jobs: &mut Jobs,
        job: Job,
        short: Short,
    )
        requires place { place < length sessions.old }
        requires voices { AreVoices sessions.old self.old.list.items self.old.order.items self.old.entries.room }
        requires capacity { length sessions.old ≤ vec_capacity self.old.order }
        ensures voices { AreVoices sessions.new self.new.list.items self.new.order.items self.new.entries.room }
        ensures capacity { length sessions.new ≤ vec_capacity self.new.order }
        ensures same_count { length sessions.new ≡ length sessions.old }
        ensures here { (ring : List RingKey) → All (IsHere ring now) sessions.old → All (IsHere ring now) sessions.new }
        ensures ticks { (keys : Keys) (test : Unfinished → Bool) (bindings : List Binding) (draw : D) (state : State D) → IsDueTest now test
            → IsInTick now sessions.old self.old.list.items self.old.order.items self.old.entries.entries state.jobs bindings draw state
            → first_job test state.jobs ≡ Some job → jobs.old.jobs ≡ without_first test state.jobs
            → position (is_kept_as (record { key = job.key; session = job.session })) sessions.old ≡ Some place
            → IsInTick now sessions.new self.new.list.items self.new.order.items self.new.entries.entries jobs.new.jobs bindings draw
            (given_up (setting_of now D.step keys) (content_of short) (Some job) (record state { jobs = without_first test state.jobs })) }
    {
        taken_jobs_are_open::<D>();
        rows_keep_order::<D>();
        sessions_stand_later();
        let voice = &mut self.list[place];
        if voice.left > 0 {
            voice.left -= 1;
            voice.begins(&mut self.order, place);
            let given_up = GivenUp { job, short };
            voice.gives_up::<D>(&mut self.entries, sessions, place, jobs, now, given_up);
        }
    }

    // Where a job is answered for this cause, the first one is. Whether there was one.
    fn answers_next<D: Draw>(
        &mut self,
        cause: Cause,
        now: Moment,
        sessions: &mut Sessions,
        jobs: &mut Jobs,
    ) -> bool
        requires tick { AreInTick D now sessions.old self.old.list.items self.old.order.items self.old.entries.entries jobs.old.jobs }
        requires voices { AreVoices sessions.old self.old.list.items self.old.order.items self.old.entries.room }
        requires capacity { length sessions.old ≤ vec_capacity self.old.order }
        ensures tick { AreInTick D now sessions.new self.new.list.items self.new.order.items self.new.entries.entries jobs.new.jobs }
        ensures voices { AreVoices sessions.new self.new.list.items self.new.order.items self.new.entries.room }
        ensures capacity { length sessions.new ≤ vec_capacity self.new.order }
        ensures same_count { length sessions.new ≡ length sessions.old }
        ensures here { (ring : List RingKey) → All (IsHere ring now) sessions.old → All (IsHere ring now) sessions.new }
        ensures ticks { (keys : Keys) (bindings : List Binding) (draw : D) (state : State D)
            → IsInTick now sessions.old self.old.list.items self.old.order.items self.old.entries.entries jobs.old.jobs bindings draw state
            → IsInTick now sessions.new self.new.list.items self.new.order.items self.new.entries.entries jobs.new.jobs bindings draw
            (first_given_up (setting_of now D.step keys) (content_for cause) (first_for now cause) state) }
        ensures none { result ≡ false → first_job (test_of now cause) jobs.old.jobs ≡ None }
    {
        taken_jobs_are_open::<D>();
        sessions_stand_later();
        let Some(job) = cause.take(jobs, now) else {
            return false;
        };
        let Some(place) = sessions.place(job.key, job.session) else {
            unreachable!()
        };
        self.answers::<D>(place, now, sessions, jobs, job, cause.short());
        true
    }

    // Each job that is answered for this cause is, the first in order of acceptance first.
    fn answers_each<D: Draw>(
        &mut self,
        cause: Cause,
        now: Moment,
        sessions: &mut Sessions,
        jobs: &mut Jobs,
    )
        requires tick { AreInTick D now sessions.old self.old.list.items self.old.order.items self.old.entries.entries jobs.old.jobs }
        requires voices { AreVoices sessions.old self.old.list.items self.old.order.items self.old.entries.room }
        requires capacity { length sessions.old ≤ vec_capacity self.old.order }
        ensures tick { AreInTick D now sessions.new self.new.list.items self.new.order.items self.new.entries.entries jobs.new.jobs }
        ensures voices { AreVoices sessions.new self.new.list.items self.new.order.items self.new.entries.room }
        ensures capacity { length sessions.new ≤ vec_capacity self.new.order }
        ensures same_count { length sessions.new ≡ length sessions.old }
        ensures here { (ring : List RingKey) → All (IsHere ring now) sessions.old → All (IsHere ring now) sessions.new }
        ensures ticks { (keys : Keys) (bindings : List Binding) (draw : D) (state : State D)
            → IsInTick now sessions.old self.old.list.items self.old.order.items self.old.entries.entries jobs.old.jobs bindings draw state
            → IsInTick now sessions.new self.new.list.items self.new.order.items self.new.entries.entries jobs.new.jobs bindings draw
            (all_given_up (setting_of now D.step keys) (content_for cause) (first_for now cause) (length jobs.old.jobs) state) }
    {
        for step in 0..jobs.len() {
            if !self.answers_next::<D>(cause, now, sessions, jobs) {
                return;
            }
        }
    }

    /// Each job that has waited too long is answered, and then each that fails by that. Takes no memory.
    pub(crate) fn answers_all<D: Draw>(
        &mut self,
        now: Moment,
        sessions: &mut Sessions,
        jobs: &mut Jobs,
    )
        requires tick { AreInTick D now sessions.old self.old.list.items self.old.order.items self.old.entries.entries jobs.old.jobs }
        requires voices { AreVoices sessions.old self.old.list.items self.old.order.items self.old.entries.room }
        requires capacity { length sessions.old ≤ vec_capacity self.old.order }
        ensures tick { AreInTick D now sessions.new self.new.list.items self.new.order.items self.new.entries.entries jobs.new.jobs }
        ensures voices { AreVoices sessions.new self.new.list.items self.new.order.items self.new.entries.room }
        ensures same_count { length sessions.new ≡ length sessions.old }
        ensures here { (ring : List RingKey) → All (IsHere ring now) sessions.old → All (IsHere ring now) sessions.new }
        ensures ticks { (keys : Keys) (bindings : List Binding) (draw : D) (state : State D)
            → IsInTick now sessions.old self.old.list.items self.old.order.items self.old.entries.entries jobs.old.jobs bindings draw state
            → IsInTick now sessions.new self.new.list.items self.new.order.items self.new.entries.entries jobs.new.jobs bindings draw
            (ticks (setting_of now D.step keys) state) }
    {
        self.answers_each::<D>(Cause::Overdue, now, sessions, jobs);
        self.answers_each::<D>(Cause::Failed, now, sessions, jobs);
    }
}
