//! The room that a packet's event takes before anything is judged.

ghost use Rattle.std.specs.Prelude.{◌≡◌, ◌≤◌, ◌*◌, ◌+◌, ◌∷◌, ℕ, [], IfOk, OnErr, OnOk, length, map, max, vec_len};
ghost use Rattle.waits.specs.Jobs.{Queue, blocked_count_of};
ghost use Rattle.inbox.specs.Inbox.{message_in};
ghost use Rattle.inbox.specs.Judging.{judgements, session_after};
ghost use Rattle.inbox.specs.Refusals.{InEnvelope};
ghost use Rattle.inbox.specs.Verdicts.{bare_judgement};
ghost use Rattle.law_server.specs.Order.{IsOrderly};
ghost use Rattle.server_rules.specs.Server.{Session, mark_in, remembered};
ghost use Rattle.server_dispatch.specs.declared.action.Action.TheVariants.{Nothing};
ghost use Rattle.outbox.specs.Replies.{kept_bytes_max, kept_replies_max};
ghost use Rattle.server_output.specs.Batch.{packets_most};
ghost use Rattle.server_rules.specs.Answer.{room_min};
ghost use Rattle.server_session.specs.Names.{name_kept};
ghost use Rattle.server_session.specs.Unsaid.{IsCalled};
ghost use Rattle.server_session.specs.Rooms.{with_replies_left};
ghost use Rattle.server_session.specs.SessionState.{IsAt, Stands, key_of, number_of, numbers_left, replies_left};
ghost use Rattle.server_core.specs.Room.{CanTake, dues_in, dues_most, packet_bytes, packet_messages, settling_messages};
ghost use Rattle.server_core.specs.SettlingAll.{AreFitting, calls_by};
ghost use Rattle.server_core.specs.Speech.{IsRoomFor};

use crate::speech::Speech;
use inbox::{Judged, Outer, Received};
use msg_ids::Moment;
use octets::Memory;
use server_dispatch::{Action, Bindings, Due, Entries, NOTICE_BYTES, dues_of};
use server_session::laws::called_replies_are_few;
use server_session::{Called, SessionState};
use std::alloc::Global;
use waits::Jobs;

/// The bytes of bodies by which a session says that it is new, and which messages it received, beside their numbers.
const OPENING_BYTES: usize = 40;

/// The bytes of a number.
const NUMBER_BYTES: usize = 8;

/// What each short answer takes at most, in bytes.
pub(crate) const SHORT_RESULT_BYTES: usize = 48;

/// The room for all that a session says and records by a packet, and what its messages need.
#[derive(Drop)]
pub(crate) struct PacketRoom {
    /// What each message needs where it is accepted; where the number of the message in the envelope is kept, one entry for that
    /// message, without an action.
    pub(crate) dues: Vec<Due>,
    /// None yet, and room for the numbers that are acknowledged.
    pub(crate) acks: Vec<u64>,
    /// How many jobs of the session may fail by the packet at most: those that aren't ready, and its own.
    pub(crate) limit: usize,
    /// For how many kept replies there is room, which the messages may call for.
    pub(crate) called: Called,
    pub(crate) speech: Speech,
    pub(crate) entries: Entries,
}

impl PacketRoom {
    ghost use Rattle.server_core.specs.Room.{IsPacketRoom};

    /// What the messages of a packet need, and the room for all that a session says and records by it, before it is judged.
    ///
    /// # Errors
    ///
    /// `Memory`.
    pub(crate) fn new(
        alloc: Global,
        outer: &Received<'_>,
        standing: &SessionState,
        jobs: &Jobs,
    ) -> Result<PacketRoom, Memory>
        ensures room { IfOk result (IsPacketRoom standing.now) }
        ensures dues { (now : ℕ) (session : Session) → Stands now standing.now session
            → IfOk result (λ room. room.dues.items ≡ dues_in (mark_in session outer.now.number) (message_in outer.now)) }
        ensures limit { IfOk result (λ room. room.limit ≡ blocked_count_of (key_of standing.now) (number_of standing.now) jobs.now.jobs + length room.dues.items) }
    {
        let dues = dues_in(alloc, outer, standing)?;
        let called = called_by(standing, dues.as_slice());
        let count = dues.len();
        let limit = jobs.blocked(standing.key(), standing.number()) + count;
        Ok(PacketRoom {
            acks: Vec::with_capacity(alloc, count)?,
            speech: speech_for(alloc, called, dues.as_slice(), limit)?,
            entries: Entries::new(alloc, count + limit)?,
            dues,
            limit,
            called,
        })
    }
}

/// Takes all room for a packet's event, before it is judged: what `PacketRoom` has, and in the session, the jobs and the
/// bindings.
///
/// # Errors
///
/// `Memory`, and then the session is as it was, and so are the jobs and the bindings but for their room.
pub(crate) fn takes_room(
    alloc: Global,
    outer: &Received<'_>,
    standing: &mut SessionState,
    jobs: &mut Jobs,
    bindings: &mut Bindings,
) -> Result<PacketRoom, Memory>
    ensures room { IfOk result (CanTake standing.new jobs.new.room bindings.new.room) }
    ensures dues { (now : ℕ) (session : Session) → Stands now standing.old session
        → IfOk result (λ room. room.dues.items ≡ dues_in (mark_in session outer.now.number) (message_in outer.now)) }
    ensures limit { IfOk result (λ room. room.limit ≡ blocked_count_of (key_of standing.old) (number_of standing.old) jobs.old.jobs + length room.dues.items) }
    ensures kept { IfOk result (λ room. standing.new ≡ with_replies_left (max (replies_left standing.old) (settling_messages (length room.dues.items) room.limit)) standing.old) }
    ensures same_jobs { jobs.new.jobs ≡ jobs.old.jobs }
    ensures same_bindings { bindings.new.bindings ≡ bindings.old.bindings }
    ensures unchanged_on_memory { OnErr result (standing.new ≡ standing.old) }
{
    let room = PacketRoom::new(alloc, outer, standing, jobs)?;
    let count = room.dues.len();
    jobs.reserve(alloc, count)?;
    bindings.reserve(alloc, count)?;
    standing.reserve(alloc, 2 * count + room.limit)?;
    Ok(room)
}

/// Looks through a packet once, takes all room for its event, and then the session judges it and remembers it. No memory is
/// needed after that.
///
/// # Errors
///
/// `Memory`, and then the session is as it was, and so are the jobs and the bindings but for their room.
pub(crate) fn judges_in_room(
    alloc: Global,
    now: Moment,
    outer: &Outer,
    standing: &mut SessionState,
    jobs: &mut Jobs,
    bindings: &mut Bindings,
) -> Result<(PacketRoom, Judged), Memory>
    requires at { IsAt now standing.old }
    ensures room { IfOk result (λ both. CanTake standing.new jobs.new.room bindings.new.room both.0) }
    ensures dues { (session : Session) → Stands now standing.old session
        → IfOk result (λ both. both.0.dues.items ≡ dues_in (mark_in session outer.now.number) (message_in outer.now)) }
    ensures limit { IfOk result (λ both. both.0.limit ≡ blocked_count_of (key_of standing.old) (number_of standing.old) jobs.old.jobs + length both.0.dues.items) }
    ensures judged { (session : Session) → Stands now standing.old session
        → IfOk result (λ both. both.1 ≡ map bare_judgement (judgements (InEnvelope now session.salts outer.now.salt) (remembered session) (message_in outer.now))) }
    ensures fitting { (session : Session) → Stands now standing.old session
        → IfOk result (λ both. AreFitting both.1 both.0.dues.items) }
    ensures stands { (session : Session) (queue : Queue) → Stands now standing.old session
        → IsOrderly session.history session.replies session.counters.last queue
        → OnOk result (Stands now standing.new (record session { history = (session_after (InEnvelope now session.salts outer.now.salt) (remembered session) (message_in outer.now)).history })) }
    ensures same_numbers { numbers_left standing.new ≡ numbers_left standing.old }
    ensures same_name { name_kept standing.new ≡ name_kept standing.old }
    ensures at { IsAt now standing.new }
    ensures same_jobs { jobs.new.jobs ≡ jobs.old.jobs }
    ensures same_bindings { bindings.new.bindings ≡ bindings.old.bindings }
    ensures unchanged_on_memory { OnErr result (standing.new ≡ standing.old) }
{
    let before = standing.replies_left();
    let received = Received::read(outer);
    let room = takes_room(alloc, &received, standing, jobs, bindings)?;
    match standing.judges(alloc, now, &received) {
        Ok(judged) => Ok((room, judged)),
        Err(memory) => {
            standing.release(before);
            Err(memory)
        }
    }
}

// What each message of a packet needs where it is accepted. Where the number of the message in the envelope is kept, that message
// came again or gets a notice, and what is inside it isn't judged: so it stands alone, and no item of it is read.
fn dues_in(alloc: Global, outer: &Received<'_>, standing: &SessionState) -> Result<Vec<Due>, Memory>
    ensures dues { (now : ℕ) (session : Session) → Stands now standing.now session
        → IfOk result (λ dues. dues.items ≡ dues_in (mark_in session outer.now.number) (message_in outer.now)) }
    ensures few { IfOk result (λ dues. vec_len dues ≤ 1021) }
{
    match standing.mark(outer.number()) {
        None => dues_of(alloc, outer),
        Some(_) => due_alone(alloc, outer.number()),
    }
}

// The message of this number alone, which needs nothing accepted.
fn due_alone(alloc: Global, number: u64) -> Result<Vec<Due>, Memory>
    ensures dues { IfOk result (λ dues. dues.items ≡ record { number = number; action = Nothing } ∷ []) }
    ensures few { IfOk result (λ dues. vec_len dues ≤ 1021) }
{
    let mut dues = Vec::with_capacity(alloc, 1)?;
    dues.push_reserved(Due {
        number,
        action: Action::Nothing,
    });
    Ok(dues)
}

// The room for all that a session says by a packet whose messages need this, where so many jobs may fail by it, and so many kept
// replies may be called for.
fn speech_for(alloc: Global, called: Called, dues: &[Due], limit: usize) -> Result<Speech, Memory>
    requires few { length dues.now ≤ 1021 }
    requires few_jobs { limit ≤ 5117 }
    requires few_replies { called.count ≤ kept_replies_max }
    requires short { called.bytes ≤ kept_bytes_max }
    ensures room { IfOk result (IsRoomFor (packet_messages (length dues.now) limit + called.count) (packet_bytes dues.now limit + called.bytes)) }
    ensures numbers { IfOk result (λ speech. packet_messages (length dues.now) limit + packets_most speech.packets.messages speech.packets.bytes ≤ room_min) }
{
    let opening = OPENING_BYTES + NUMBER_BYTES * dues.len();
    let settling = most_bytes(dues) + limit * SHORT_RESULT_BYTES;
    Speech::new(
        alloc,
        2 + 2 * dues.len() + limit + called.count,
        opening + settling + called.bytes,
    )
}

// The kept replies that these may call for. It costs no more than to look for each.
fn called_by(standing: &SessionState, dues: &[Due]) -> Called
    ensures { IsCalled (calls_by dues.now) standing.now result }
{
    called_replies_are_few();
    let mut called = standing.calls_for_none();
    for due in dues {
        called = due.calls_for(standing, called);
    }
    called
}

// The bytes of bodies that these take at most.
fn most_bytes(dues: &[Due]) -> usize
    requires few { length dues.now ≤ 1021 }
    ensures sum { result ≡ dues_most dues.now }
    ensures few { result ≤ 8208 * length dues.now }
{
    let mut bytes = 0;
    for due in dues {
        bytes += NOTICE_BYTES.max(due.action.bytes());
    }
    bytes
}
