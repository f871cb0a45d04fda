//! Laws of the lives of a server's sessions, each the contract of a function that does nothing.

ghost use Rattle.std.specs.Prelude.{◌≡◌, true, false, [], ◌∷◌, ℕ, List, Some, ◌++◌, All};
ghost use Rattle.regs_service.specs.Served.{Step};
ghost use Rattle.packing.specs.Packing.{groups};
ghost use Rattle.id_window.specs.History.{History};
ghost use Rattle.inbox.specs.Inbox.{was_heard};
ghost use Rattle.inbox.specs.Verdicts.{Judgement, Verdict};
ghost use Rattle.server_rules.specs.Server.{Session, name_of, session_named};
ghost use Rattle.server_rules.specs.Event.{Envelope, Setting, Speaker, State};
ghost use Rattle.server_rules.specs.Rows.{owes};
ghost use Rattle.server_rules.specs.Sending.{messages_by};
ghost use Rattle.server_rules.specs.Answer.{attaches, opens, takes_by};
ghost use Rattle.law_server.specs.Order.{IsOrderly, jobs_of};
ghost use Rattle.server_rules.specs.Events.{Event, course_of};
ghost use Rattle.law_server.specs.Lives.{history_by, told_of};
ghost use Rattle.law_server.specs.Announced.{IsAnnounced};
ghost use Rattle.law_server.specs.Courses.{GoOn};
ghost use Rattle.law_server.specs.Drawing.{DrawsSalts};
ghost use Rattle.law_server.specs.Witness as shown;
ghost use Rattle.law_server.specs.LivedWitness as lived;
ghost use Rattle.law_server.specs.Finality.{AreApart, AreLived, IsFinal, IsOfLife, IsStanding};

use draws::Draw;

/// The events with their lives are the events.
pub fn lives_are_of_courses<D: Draw, V>()
    ensures { (setting : Setting D) (serve : Step V) (service : V) (draw : D) (events : List Event)
        → (told_of setting serve service draw events).course ≡ course_of setting serve service draw events }
{}

/// After every list of events a life that stands is that of its session, and what becomes of a life's calls is final:
/// no number was judged twice; while the session stands an accepted call has either its job or exactly one entry, and
/// once it is lost one entry at most, with what the call asks; a number that was noticed has neither, nor has an accepted
/// message that is no call of the service, as a binding call that is spelt right.
pub fn calls_are_entered_once<D: Draw, V>()
    ensures standing { (setting : Setting D) (serve : Step V) (service : V) (draw : D) (events : List Event)
        → All (IsStanding (told_of setting serve service draw events).course.server.sessions) (told_of setting serve service draw events).lives }
    ensures final_ { (setting : Setting D) (serve : Step V) (service : V) (draw : D) (events : List Event)
        → All (IsFinal (told_of setting serve service draw events).course.server.jobs) (told_of setting serve service draw events).lives }
{
    crate::laws::servers_stay_in_order::<D, V>();
    crate::laws::packets_are_judged();
    crate::laws::sessions_speak::<D>();
    crate::laws::sessions_speak_for_themselves::<D>();
}

/// After every list of events each session that stands has one life that stands, and each unfinished job is a call that
/// such a life accepted: a lost session has none.
pub fn sessions_live_once<D: Draw, V>()
    ensures lived { (setting : Setting D) (serve : Step V) (service : V) (draw : D) (events : List Event)
        → AreLived (told_of setting serve service draw events).course.server.sessions (told_of setting serve service draw events).lives }
    ensures apart { (setting : Setting D) (serve : Step V) (service : V) (draw : D) (events : List Event)
        → AreApart (told_of setting serve service draw events).lives }
    ensures jobs { (setting : Setting D) (serve : Step V) (service : V) (draw : D) (events : List Event)
        → All (IsOfLife (told_of setting serve service draw events).lives) (told_of setting serve service draw events).course.server.jobs }
{
    crate::laws::servers_stay_in_order::<D, V>();
    crate::laws::packets_are_judged();
    crate::laws::sessions_speak::<D>();
    crate::laws::sessions_speak_for_themselves::<D>();
}

/// Over every list of events each life goes on in its place: what it judged, accepted, entered and sent is only added to,
/// a number that its window dropped is at most its floor from then on, and once it has ended it stays as it was.
pub fn lives_go_on<D: Draw, V>()
    ensures { (setting : Setting D) (serve : Step V) (service : V) (draw : D) (events : List Event) (more : List Event)
        → GoOn (told_of setting serve service draw events).lives (told_of setting serve service draw (events ++ more)).lives }
{
    crate::laws::servers_stay_in_order::<D, V>();
    crate::laws::packets_are_judged();
    crate::laws::sessions_speak::<D>();
    crate::laws::sessions_speak_for_themselves::<D>();
    crate::laws::floors_never_fall();
}

/// After every list of events, as long as a session has accepted nothing each packet that it made begins with its
/// `new_session_created`: that is the packet's message, or the first one in its container.
pub fn new_sessions_always_begin<D: Draw, V>()
    ensures { (setting : Setting D) (serve : Step V) (service : V) (draw : D) (events : List Event)
        → All IsAnnounced (told_of setting serve service draw events).lives }
{
    crate::laws::servers_stay_in_order::<D, V>();
    crate::laws::packets_are_judged();
    crate::laws::sessions_speak::<D>();
    crate::laws::sessions_speak_for_themselves::<D>();
    crate::laws::floors_never_fall();
    crate::laws::new_sessions_say_so::<D>();
}

/// A session speaks before it has accepted anything. Two calls are accepted, of which one waits for the other, and are
/// entered once each when both have run. A session is lost with an unfinished call, and made again: it lives twice. A
/// binding call that is spelt right is accepted, and becomes neither a job nor an entry.
pub fn lives_that_happen()
    ensures unheard { lived.standing (lived.told (shown.wrong_salt ∷ [])) ≡ (true, false) ∷ [] }
    ensures speaks { lived.packets (lived.told (shown.wrong_salt ∷ [])) ≡ 1 ∷ [] }
    ensures asked { lived.accepted (lived.told (shown.call ∷ shown.waiting_call ∷ [])) ≡ ((4, true) ∷ (8, true) ∷ []) ∷ [] }
    ensures waits { lived.unfinished (lived.told (shown.call ∷ shown.waiting_call ∷ [])) ≡ 4 ∷ 8 ∷ [] }
    ensures none_yet { lived.entered (lived.told (shown.call ∷ shown.waiting_call ∷ [])) ≡ [] ∷ [] }
    ensures one_ran { lived.entered (lived.told (shown.call ∷ shown.waiting_call ∷ shown.run ∷ [])) ≡ ((4, true) ∷ []) ∷ [] }
    ensures one_left { lived.unfinished (lived.told (shown.call ∷ shown.waiting_call ∷ shown.run ∷ [])) ≡ 8 ∷ [] }
    ensures both_ran { lived.entered (lived.told (shown.call ∷ shown.waiting_call ∷ shown.run ∷ shown.run ∷ [])) ≡ ((4, true) ∷ (8, true) ∷ []) ∷ [] }
    ensures lost { lived.standing (lived.told (shown.call ∷ lived.loss ∷ shown.wrong_salt ∷ [])) ≡ (false, true) ∷ (true, false) ∷ [] }
    ensures lost_calls { lived.accepted (lived.told (shown.call ∷ lived.loss ∷ shown.wrong_salt ∷ [])) ≡ ((4, true) ∷ []) ∷ [] ∷ [] }
    ensures lost_jobs { lived.unfinished (lived.told (shown.call ∷ lived.loss ∷ shown.wrong_salt ∷ [])) ≡ [] }
    ensures bound { lived.accepted lived.bound ≡ ((4, false) ∷ []) ∷ [] }
    ensures bound_entered { lived.entered lived.bound ≡ [] ∷ [] }
    ensures bound_unfinished { lived.unfinished lived.bound ≡ [] }
{}

/// What a session that has accepted nothing, with this packet, owes to the packet goes out together.
pub fn new_sessions_owe_little<D: Draw>()
    ensures { (setting : Setting D) (envelope : Envelope) (state : State D) (session : Session) → state.sent ≡ [] → state.owed ≡ []
        → IsOrderly session.history session.replies session.counters.last (jobs_of (name_of session) state.jobs)
        → session_named (name_of session) state.sessions ≡ Some session → was_heard (history_by setting envelope session) ≡ false
        → groups (messages_by (name_of session) (takes_by setting envelope (Some session) state).owed)
        ≡ messages_by (name_of session) (takes_by setting envelope (Some session) state).owed ∷ [] }
{
    crate::laws::sessions_speak::<D>();
    crate::laws::sessions_speak_for_themselves::<D>();
    crate::laws::floors_never_fall();
    crate::laws::new_sessions_say_so::<D>();
}

/// What a session says for a judgement, where it opens an event and where it is attached, draws words for its salts alone: those
/// of so many periods from now, each once. Its unique number stays.
pub fn sessions_draw_salts<D: Draw>()
    ensures owes { (setting : Setting D) (speaker : Speaker D) (number seq : ℕ) (verdict : Verdict) (body : List ℕ)
        → DrawsSalts setting speaker (owes setting number seq verdict body speaker) }
    ensures opens { (setting : Setting D) (speaker : Speaker D) (history : History) (judged : List Judgement)
        → DrawsSalts setting speaker (opens setting history judged speaker) }
    ensures attaches { (setting : Setting D) (speaker : Speaker D) → DrawsSalts setting speaker (attaches setting speaker) }
{}
