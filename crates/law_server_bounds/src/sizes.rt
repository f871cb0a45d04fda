//! Laws of the sizes of what a server keeps and says, each the contract of a function that does nothing.

ghost use Rattle.std.specs.Prelude.{◌≡◌, ℕ, List, [], Some};
ghost use Rattle.std.specs.List.{AllByRecursion};
ghost use Rattle.regs_service.specs.Served.{Step};
ghost use Rattle.waits.specs.declared.job.Job.{Job};
ghost use Rattle.waits.specs.Jobs.{ready_job};
ghost use Rattle.server_rules.specs.Server.{Name, Server};
ghost use Rattle.server_rules.specs.Event.{Envelope, Setting, State, speaks};
ghost use Rattle.server_rules.specs.Sending.{all_sent};
ghost use Rattle.server_rules.specs.Answer.{attaches, begun, runs, takes, ticks};
ghost use Rattle.server_rules.specs.Events.{Course, Event, after_event, course_of};
ghost use Rattle.law_server_bounds.specs.Small.{AreSmall, IsContent, DrawsWords, HasSmallEnvelope, IsSmallEnvelope, IsSmallState, IsWholeSent, GivesReplies};

use draws::Draw;

/// The numbers that a server keeps fit their places after every list of events, where those that come and the words that
/// are drawn do, and replies of the service are whole words and short.
pub fn sizes_stay_small<D: Draw, V>()
    ensures event { (setting : Setting D) (serve : Step V) (service : V) (course : Course D V) (event : Event) → DrawsWords setting → GivesReplies serve
        → HasSmallEnvelope event → AreSmall course.server.sessions course.server.jobs
        → AreSmall (after_event setting serve service course event).server.sessions (after_event setting serve service course event).server.jobs }
    ensures all { (setting : Setting D) (serve : Step V) (service : V) (draw : D) (events : List Event) → DrawsWords setting → GivesReplies serve
        → AllByRecursion HasSmallEnvelope events
        → AreSmall (course_of setting serve service draw events).server.sessions (course_of setting serve service draw events).server.jobs }
{
    service_tl::laws::items_fit();
    containers::laws::parts_are_exact();
    containers::laws::container_sizes();
    packing::laws::packets_have_all_messages();
}

/// What an event owes, before it is sent, spells items whose numbers fit their places, and each was given its number before
/// the next one of its session.
pub fn what_is_owed_is_small<D: Draw>()
    ensures packet { (setting : Setting D) (envelope : Envelope) (server : Server) (draw : D) → DrawsWords setting → IsSmallEnvelope envelope
        → AreSmall server.sessions server.jobs → IsSmallState (takes setting envelope (begun server draw)) }
    ensures work { (setting : Setting D) (place : ℕ) (job : Job) (reply : List ℕ) (server : Server) (draw : D) → DrawsWords setting → IsContent reply
        → ready_job place server.jobs ≡ Some job → AreSmall server.sessions server.jobs → IsSmallState (runs setting place job reply (begun server draw)) }
    ensures tick { (setting : Setting D) (server : Server) (draw : D) → DrawsWords setting → AreSmall server.sessions server.jobs
        → IsSmallState (ticks setting (begun server draw)) }
    ensures attach { (setting : Setting D) (name : Name) (server : Server) (draw : D) → DrawsWords setting → AreSmall server.sessions server.jobs
        → IsSmallState (speaks name (attaches setting) (begun server draw)) }
{
    service_tl::laws::items_fit();
    containers::laws::parts_are_exact();
}

/// Each packet that an event makes is one of such messages: its key, salt, session and body are such as an envelope has, and
/// the body has at most 1,044,480 bytes. Where its number and its seq fit their places too, and its body begins as a
/// container, it is a lawful one.
pub fn packets_are_whole<D: Draw, V>()
    ensures sent { (setting : Setting D) (state : State D) → DrawsWords setting → IsSmallState state → state.sent ≡ []
        → IsSmallState (all_sent setting state) × AllByRecursion IsWholeSent (all_sent setting state).sent }
    ensures event { (setting : Setting D) (serve : Step V) (service : V) (course : Course D V) (event : Event) → DrawsWords setting → GivesReplies serve
        → HasSmallEnvelope event → AreSmall course.server.sessions course.server.jobs → AllByRecursion IsWholeSent course.packets
        → AllByRecursion IsWholeSent (after_event setting serve service course event).packets }
    ensures all { (setting : Setting D) (serve : Step V) (service : V) (draw : D) (events : List Event) → DrawsWords setting → GivesReplies serve
        → AllByRecursion HasSmallEnvelope events → AllByRecursion IsWholeSent (course_of setting serve service draw events).packets }
{
    service_tl::laws::items_fit();
    containers::laws::parts_are_exact();
    containers::laws::container_sizes();
    packing::laws::packets_have_all_messages();
}
