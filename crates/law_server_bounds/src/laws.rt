//! Laws on how much a server keeps, how much one event gives, and the packets that it makes, each the contract of a function
//! that does nothing.

ghost use Rattle.std.specs.Prelude.{◌≡◌, ℕ, Bool, All, List, None, Some};
ghost use Rattle.std.specs.List.{AllByRecursion};
ghost use Rattle.inbox.specs.Acceptance.{IsAcceptable};
ghost use Rattle.outbox.specs.Replies.{IsWithin};
ghost use Rattle.regs_service.specs.Served.{Step};
ghost use Rattle.waits.specs.Jobs.{AreWithinLimits};
ghost use Rattle.server_rules.specs.Server.{Name, Server, Session, kept_replies, remembered, session_named};
ghost use Rattle.server_rules.specs.Event.{Envelope, Setting};
ghost use Rattle.server_rules.specs.Answer.{begun, hears, message_in, name_in};
ghost use Rattle.server_rules.specs.Events.{Course, Event, after_event, begun_course, course_of};
ghost use Rattle.law_server_bounds.specs.Giving.{GivesFew};
ghost use Rattle.law_server_bounds.specs.Runs.{AreShortRuns, IsShortRun};
ghost use Rattle.law_server_bounds.specs.Small.{DrawsWords};
ghost use Rattle.law_server_bounds.specs.Taking.{IsTaken};
ghost use Rattle.law_server_bounds.specs.Losing.{IsLostIn};
ghost use Rattle.law_server_bounds.specs.Steady.{IsFair, IsSealable, IsSteady};

use crate::sizes::{packets_are_whole, sizes_stay_small, what_is_owed_is_small};
use draws::Draw;
use law_server::laws::{sessions_have_room, sessions_speak};

/// After every list of events each session keeps at most 4,096 replies, of 4,194,304 bytes together, as long as each reply
/// of the service on the way has at most 262,144 bytes.
pub fn replies_are_few<D: Draw, V>()
    ensures event { (setting : Setting D) (serve : Step V) (service : V) (course : Course D V) (event : Event) → IsShortRun serve course event
        → All (λ session. IsWithin (kept_replies session.replies)) course.server.sessions
        → All (λ session. IsWithin (kept_replies session.replies)) (after_event setting serve service course event).server.sessions }
    ensures all { (setting : Setting D) (serve : Step V) (service : V) (draw : D) (events : List Event)
        → AreShortRuns setting serve service (begun_course service draw) events
        → All (λ session. IsWithin (kept_replies session.replies)) (course_of setting serve service draw events).server.sessions }
{
    server_rules::laws::oldest_replies_are_dropped::<D>();
}

/// After every list of events each session has at most 4,096 unfinished jobs, of 4,194,304 bytes together, where a number
/// that a job waits for counts 8 bytes beside its request.
pub fn jobs_are_few<D: Draw, V>()
    ensures event { (setting : Setting D) (serve : Step V) (service : V) (course : Course D V) (event : Event)
        → AreWithinLimits course.server.jobs → AreWithinLimits (after_event setting serve service course event).server.jobs }
    ensures all { (setting : Setting D) (serve : Step V) (service : V) (draw : D) (events : List Event)
        → AreWithinLimits (course_of setting serve service draw events).server.jobs }
{
    server_rules::laws::oldest_replies_are_dropped::<D>();
}

/// One event of a server whose sessions keep at most 4,096 replies each gives at most 8,192 packets more than there were
/// unfinished jobs before it, and at most as many entries. So does each event after a list in which runs are as short as
/// `replies_are_few` asks.
pub fn events_give_few<D: Draw, V>()
    ensures event { (setting : Setting D) (serve : Step V) (service : V) (course : Course D V) (event : Event)
        → All (λ session. IsWithin (kept_replies session.replies)) course.server.sessions
        → GivesFew D V course (after_event setting serve service course event) }
    ensures all { (setting : Setting D) (serve : Step V) (service : V) (draw : D) (events : List Event) (event : Event)
        → AreShortRuns setting serve service (begun_course service draw) events
        → GivesFew D V (course_of setting serve service draw events) (after_event setting serve service (course_of setting serve service draw events) event) }
{
    server_rules::laws::oldest_replies_are_dropped::<D>();
    law_server::laws::sessions_speak::<D>();
    packing::laws::packets_have_all_messages();
}

/// A packet's message that nothing refuses is accepted in that event: its session, which stands until all is sent, has
/// recorded its number, and owes its acknowledgement where its seq is odd. A call for the service is a job then or has a reply, unless
/// the session is lost in the end.
pub fn lawful_messages_are_taken<D: Draw>()
    ensures { (setting : Setting D) (envelope : Envelope) (server : Server) (draw : D) (session : Session)
        → session_named (name_in envelope) (hears setting envelope (begun server draw)).sessions ≡ Some session
        → IsAcceptable setting.now session.salts envelope.salt (remembered session) (message_in envelope)
        → IsTaken D setting envelope server draw }
{
    law_server::laws::sessions_speak::<D>();
    law_server::laws::sessions_speak_for_themselves::<D>();
    inbox::laws::acceptable_messages_are_accepted();
}

/// Where a name has a session before an event and none after it, that session was lost for one of these causes: a loss of its
/// name, a restart, a packet that makes a session where 256 stand and it was heard least recently, a packet in which another
/// session of its key accepts a message that asks to destroy it, or want of room for further numbers when all is sent.
pub fn sessions_are_lost_for_a_cause<D: Draw, V>()
    ensures { (setting : Setting D) (serve : Step V) (service : V) (course : Course D V) (event : Event) (name : Name) (session : Session)
        → session_named name course.server.sessions ≡ Some session
        → session_named name (after_event setting serve service course event).server.sessions ≡ None
        → IsLostIn setting serve course name event }
{
    law_server::laws::sessions_speak::<D>();
    law_server::laws::sessions_speak_for_themselves::<D>();
}

/// Each event of a steady server leaves it steady, and each packet that it makes may be sealed: its number and its seq fit
/// their places, since one event gives a session fewer numbers than it has room for.
pub fn packets_may_be_sealed<D: Draw, V>()
    ensures steady { (known : ℕ → Bool) (setting : Setting D) (serve : Step V) (service : V) (course : Course D V) (event : Event) → DrawsWords setting
        → IsFair known serve course event → IsSteady known course.server → IsSteady known (after_event setting serve service course event).server }
    ensures packets { (known : ℕ → Bool) (setting : Setting D) (serve : Step V) (service : V) (course : Course D V) (event : Event) → DrawsWords setting
        → IsFair known serve course event → IsSteady known course.server → AllByRecursion (IsSealable known) course.packets
        → AllByRecursion (IsSealable known) (after_event setting serve service course event).packets }
{
    containers::laws::parts_are_exact();
    packing::laws::packets_have_all_messages();
    msg_ids::laws::room_lasts();
    envelope::laws::drawn_padding_is_lawful::<D>();
    sessions_speak::<D>();
    sessions_have_room::<D, V>();
    replies_are_few::<D, V>();
    jobs_are_few::<D, V>();
    what_is_owed_is_small::<D>();
    sizes_stay_small::<D, V>();
    packets_are_whole::<D, V>();
}
