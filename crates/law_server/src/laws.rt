//! Laws of a server, each the contract of a function that does nothing.

ghost use Rattle.std.specs.Prelude.{map, Bool, ◌≡◌, ◌≢◌, ◌≤◌, ℕ, [], ◌∷◌, ◌++◌, true, false, All, Contains, List, Option, Some, length};
ghost use Rattle.service_tl.specs.declared.item.Item.{Item};
ghost use Rattle.service_tl.specs.declared.item.Item.TheVariants.{RpcResult};
ghost use Rattle.service_tl.specs.Items.{spelling_of};
ghost use Rattle.service_tl.specs.declared.lists.Message.{Message};
ghost use Rattle.id_window.specs.History.{History, FirstJudgement, EachOnce, floor, is_kept, was_accepted};
ghost use Rattle.id_window.specs.Marks.{mark_of};
ghost use Rattle.id_window.specs.declared.mark.Mark.{Mark};
ghost use Rattle.inbox.specs.Refusals.{Way};
ghost use Rattle.inbox.specs.Judging.{judgements, session_after, Session as Remembered};
ghost use Rattle.regs_service.specs.Served.{Step};
ghost use Rattle.waits.specs.declared.job.Job.{Job};
ghost use Rattle.waits.specs.declared.job.Unfinished.{Unfinished};
ghost use Rattle.waits.specs.Jobs.{Queue, first_job, without_first, ready_job, without_ready};
ghost use Rattle.server_rules.specs.Server.{Name, Server, Session, Reply, has_accepted, kept_of, kept_replies, mark_after, marks_of, name_of, remembered, reply_to, session_named};
ghost use Rattle.server_rules.specs.Event.{Envelope, Owed, Sent, Setting, Speaker, State, BindingCall, speaker_in, speaks};
ghost use Rattle.server_rules.specs.Events.{Event, Course, course_of, after_event};
ghost use Rattle.server_rules.specs.Speaking.{says, says_again, says_it_is_new, answers, answers_in_place, made_room};
ghost use Rattle.server_rules.specs.Waiting.{after_failures, gives_up, tells_of};
ghost use Rattle.server_rules.specs.Calls.{accepts_call, binds, drops_answer};
ghost use Rattle.server_rules.specs.Rows.{accepts, acknowledges, answers_broken, came_again, notices, sends_again, takes_acks, tells_salts, tells_states};
ghost use Rattle.server_rules.specs.Answer.{after_attach, attaches, begun, finishes, hears, opens};
ghost use Rattle.server_rules.specs.Sending.{messages_by, sends};
ghost use Rattle.inbox.specs.Inbox.{was_heard};
ghost use Rattle.inbox.specs.Verdicts.{Judgement, Verdict};
ghost use Rattle.msg_ids.specs.Counters.{Counters, room};
ghost use Rattle.packing.specs.Packing.{packets_of};
ghost use Rattle.law_server.specs.Start.{BeginsWith, SaysItIsNew, new_owed};
ghost use Rattle.server_rules.specs.Rows.{owes, row};
ghost use Rattle.law_server.specs.Speech.{SaidFor};
ghost use Rattle.law_server.specs.Witness as shown;
ghost use Rattle.law_server.specs.Going.{none_open, open_by, open_only, past_in, past_with};
ghost use Rattle.law_server.specs.Order.{AreOrdered, IsGoingOn, IsOrderly, IsMidway, IsSpeaking, IsTold, IsUnanswered, HasNoJob, WasCalled, is_for_service, opens_of, reply_made};

use draws::Draw;

/// What a fresh server has fits, each event leaves what fits so, and thus after every list of events a server's sessions,
/// replies and jobs fit each other: no number is judged twice, each reply is the only one to a number that was accepted,
/// each job is one of a session that stands and waits for its only answer, and none that has failed is left.
pub fn servers_stay_in_order<D: Draw, V>()
    ensures fresh { AreOrdered [] [] }
    ensures event { (setting : Setting D) (serve : Step V) (service : V) (course : Course D V) (event : Event)
        → AreOrdered course.server.sessions course.server.jobs
        → AreOrdered (after_event setting serve service course event).server.sessions (after_event setting serve service course event).server.jobs }
    ensures all { (setting : Setting D) (serve : Step V) (service : V) (draw : D) (events : List Event)
        → AreOrdered (course_of setting serve service draw events).server.sessions (course_of setting serve service draw events).server.jobs }
{
    id_window::laws::numbers_are_judged_once();
    server_rules::laws::marks_follow_history();
}

/// After a packet's messages were judged the marks are those of the history then and of the same replies; what was
/// accepted is open, and was accepted as a call where it is one for the service.
pub fn packets_are_judged()
    ensures marks { (way : Way) (session : Session) (message : Message) (jobs : Queue)
        → IsOrderly session.history session.replies session.counters.last jobs
        → session_after way (remembered session) message ≡ record {
          history = (session_after way (remembered session) message).history;
          marks = marks_of (session_after way (remembered session) message).history session.replies;
        } }
    ensures opened { (way : Way) (session : Session) (message : Message) (jobs : Queue)
        → IsOrderly session.history session.replies session.counters.last jobs
        → IsMidway (opens_of (judgements way (remembered session) message)) (session_after way (remembered session) message).history
        session.replies session.counters.last jobs }
    ensures told { (way : Way) (session : Session) (message : Message) (jobs : Queue)
        → IsOrderly session.history session.replies session.counters.last jobs
        → All (λ judgement. IsTold judgement.number judgement.verdict (session_after way (remembered session) message).history) (judgements way (remembered session) message) }
{
    id_window::laws::numbers_are_judged_once();
    server_rules::laws::marks_follow_history();
}

/// The event of a packet keeps all in order: its session is heard, and opens with what it judged, whose accepted numbers are
/// open then; the row of a judgement answers its number, or leaves it, and then jobs are told and those that fail answered.
pub fn packets_settle_in_order<D: Draw>()
    ensures hears { (setting : Setting D) (envelope : Envelope) (server : Server) (draw : D) → AreOrdered server.sessions server.jobs
        → IsGoingOn (past_in (hears setting envelope (begun server draw)).sessions) none_open
        (hears setting envelope (begun server draw)).sessions (hears setting envelope (begun server draw)).jobs }
    ensures opens { (setting : Setting D) (way : Way) (message : Message) (state : State D) (session : Session)
        → session_named (name_of session) state.sessions ≡ Some session → IsGoingOn (past_in state.sessions) none_open state.sessions state.jobs
        → IsGoingOn (past_with (name_of session) (session_after way (remembered session) message).history (past_in state.sessions))
        (open_only (name_of session) (opens_of (judgements way (remembered session) message)))
        (speaks (name_of session) (opens setting (session_after way (remembered session) message).history (judgements way (remembered session) message)) state).sessions
        (speaks (name_of session) (opens setting (session_after way (remembered session) message).history (judgements way (remembered session) message)) state).jobs }
    ensures row { (setting : Setting D) (name : Name) (number seq : ℕ) (verdict : Verdict) (body : List ℕ) (past : Name → History) (numbers : List ℕ) (state : State D)
        → IsTold number verdict (past name)
        → IsGoingOn past (open_only name (open_by verdict number numbers)) state.sessions state.jobs
        → IsGoingOn past (open_only name numbers) (row setting name number seq verdict body state).sessions (row setting name number seq verdict body state).jobs }
    ensures tells { (name : Name) (number : ℕ) (past : Name → History) (numbers : List ℕ) (state : State D)
        → IsGoingOn past (open_only name numbers) state.sessions state.jobs
        → IsGoingOn past (open_only name numbers) (speaks name (tells_of number) state).sessions (speaks name (tells_of number) state).jobs }
    ensures failures { (setting : Setting D) (past : Name → History) (opened : Name → List ℕ) (state : State D) → IsGoingOn past opened state.sessions state.jobs
        → IsGoingOn past opened (after_failures setting state).sessions (after_failures setting state).jobs }
    ensures own_past { (name : Name) (history : History) (past : Name → History) → past_with name history past name ≡ history }
    ensures own_open { (name : Name) (numbers : List ℕ) → open_only name numbers name ≡ numbers }
{
    id_window::laws::numbers_are_judged_once();
    server_rules::laws::marks_follow_history();
}

/// What a session says, and what becomes of its replies and jobs, leaves it in order, its other numbers open as they were
/// and the jobs of other sessions alone.
pub fn speech_keeps_order<D: Draw>()
    ensures says { (setting : Setting D) (item : Item) (name : Name) (others : Name → Queue) (past : History) (opened : List ℕ) (speaker : Speaker D)
        → IsSpeaking name others past opened speaker → IsSpeaking name others past opened (says setting item speaker) }
    ensures says_again { (reply : Reply) (name : Name) (others : Name → Queue) (past : History) (opened : List ℕ) (speaker : Speaker D)
        → IsSpeaking name others past opened speaker → IsSpeaking name others past opened (says_again reply speaker) }
    ensures new { (setting : Setting D) (name : Name) (others : Name → Queue) (past : History) (opened : List ℕ) (speaker : Speaker D)
        → IsSpeaking name others past opened speaker → IsSpeaking name others past opened (says_it_is_new setting speaker) }
    ensures acknowledges { (setting : Setting D) (numbers : List ℕ) (name : Name) (others : Name → Queue) (past : History) (opened : List ℕ) (speaker : Speaker D)
        → IsSpeaking name others past opened speaker → IsSpeaking name others past opened (acknowledges setting numbers speaker) }
    ensures notices { (setting : Setting D) (number seq code : ℕ) (name : Name) (others : Name → Queue) (past : History) (opened : List ℕ) (speaker : Speaker D)
        → IsSpeaking name others past opened speaker → IsSpeaking name others past opened (notices setting number seq code speaker) }
    ensures came_again { (setting : Setting D) (number seq : ℕ) (mark : Option Mark) (name : Name) (others : Name → Queue) (past : History) (opened : List ℕ) (speaker : Speaker D)
        → IsSpeaking name others past opened speaker → IsSpeaking name others past opened (came_again setting number seq mark speaker) }
    ensures answers { (setting : Setting D) (call : ℕ) (content : List ℕ) (name : Name) (others : Name → Queue) (past : History) (opened : List ℕ) (speaker : Speaker D)
        → IsSpeaking name others past (call ∷ opened) speaker → IsSpeaking name others past opened (answers setting call content speaker) }
    ensures in_place { (setting : Setting D) (call : ℕ) (request content : List ℕ) (name : Name) (others : Name → Queue) (past : History) (opened : List ℕ) (speaker : Speaker D)
        → IsSpeaking name others past (call ∷ opened) speaker → IsSpeaking name others past opened (answers_in_place setting call request content speaker) }
    ensures left { (number : ℕ) (name : Name) (others : Name → Queue) (past : History) (opened : List ℕ) (speaker : Speaker D)
        → IsSpeaking name others past (number ∷ opened) speaker → IsSpeaking name others past opened speaker }
    ensures tells { (number : ℕ) (name : Name) (others : Name → Queue) (past : History) (opened : List ℕ) (speaker : Speaker D)
        → IsSpeaking name others past opened speaker → IsSpeaking name others past opened (tells_of number speaker) }
    ensures acks { (numbers : List ℕ) (name : Name) (others : Name → Queue) (past : History) (opened : List ℕ) (speaker : Speaker D)
        → IsSpeaking name others past opened speaker → IsSpeaking name others past opened (takes_acks numbers speaker) }
    ensures attaches { (setting : Setting D) (name : Name) (others : Name → Queue) (past : History) (speaker : Speaker D)
        → IsSpeaking name others past [] speaker → IsSpeaking name others past [] (attaches setting speaker) }
    ensures sends { (setting : Setting D) (messages : List Message) (name : Name) (others : Name → Queue) (past : History) (opened : List ℕ) (speaker : Speaker D)
        → IsSpeaking name others past opened speaker → IsSpeaking name others past opened (sends setting messages speaker) }
{}

/// Each row of what an accepted message owes leaves its session in order, and its number is answered, a job, or left.
pub fn rows_keep_order<D: Draw>()
    ensures accepts { (setting : Setting D) (number : ℕ) (item : Item) (body : List ℕ) (name : Name) (others : Name → Queue) (past : History) (opened : List ℕ) (speaker : Speaker D)
        → (is_for_service item ≡ true → WasCalled number speaker.session.history)
        → IsSpeaking name others past (number ∷ opened) speaker → IsSpeaking name others past opened (accepts setting number item body speaker) }
    ensures call { (setting : Setting D) (number : ℕ) (numbers request : List ℕ) (name : Name) (others : Name → Queue) (past : History) (opened : List ℕ) (speaker : Speaker D)
        → WasCalled number speaker.session.history
        → IsSpeaking name others past (number ∷ opened) speaker → IsSpeaking name others past opened (accepts_call setting number numbers request speaker) }
    ensures broken { (setting : Setting D) (number constructor : ℕ) (body : List ℕ) (name : Name) (others : Name → Queue) (past : History) (opened : List ℕ) (speaker : Speaker D)
        → IsSpeaking name others past (number ∷ opened) speaker → IsSpeaking name others past opened (answers_broken setting number constructor body speaker) }
    ensures drops { (setting : Setting D) (number call : ℕ) (name : Name) (others : Name → Queue) (past : History) (opened : List ℕ) (speaker : Speaker D)
        → IsSpeaking name others past (number ∷ opened) speaker → IsSpeaking name others past opened (drops_answer setting number call speaker) }
    ensures binds { (setting : Setting D) (call : BindingCall) (name : Name) (others : Name → Queue) (past : History) (opened : List ℕ) (speaker : Speaker D)
        → IsSpeaking name others past (call.number ∷ opened) speaker → IsSpeaking name others past opened (binds setting call speaker) }
    ensures salts { (setting : Setting D) (number count : ℕ) (name : Name) (others : Name → Queue) (past : History) (opened : List ℕ) (speaker : Speaker D)
        → IsSpeaking name others past opened speaker → IsSpeaking name others past opened (tells_salts setting number count speaker) }
    ensures states { (setting : Setting D) (number : ℕ) (numbers : List ℕ) (name : Name) (others : Name → Queue) (past : History) (opened : List ℕ) (speaker : Speaker D)
        → IsSpeaking name others past opened speaker → IsSpeaking name others past opened (tells_states setting number numbers speaker) }
    ensures sends_again { (setting : Setting D) (number : ℕ) (numbers : List ℕ) (name : Name) (others : Name → Queue) (past : History) (opened : List ℕ) (speaker : Speaker D)
        → IsSpeaking name others past opened speaker → IsSpeaking name others past opened (sends_again setting number numbers speaker) }
    ensures finishes { (setting : Setting D) (job : Job) (reply : List ℕ) (name : Name) (others : Name → Queue) (past : History) (opened : List ℕ) (speaker : Speaker D)
        → IsSpeaking name others past (job.number ∷ opened) speaker → IsSpeaking name others past opened (finishes setting job reply speaker) }
    ensures gives_up { (setting : Setting D) (content : List ℕ) (job : Job) (name : Name) (others : Name → Queue) (past : History) (opened : List ℕ) (speaker : Speaker D)
        → IsSpeaking name others past (job.number ∷ opened) speaker → IsSpeaking name others past opened (gives_up setting content job speaker) }
{}

/// Where a job of a session that speaks is taken out, its number is open, and all else stays as it was.
pub fn taken_jobs_are_open<D: Draw>()
    ensures first { (test : Unfinished → Bool) (job : Job) (name : Name) (others : Name → Queue) (past : History) (opened : List ℕ) (speaker : Speaker D)
        → first_job test speaker.jobs ≡ Some job → job.key ≡ name.key → job.session ≡ name.session
        → IsSpeaking name others past opened speaker
        → IsSpeaking name others past (job.number ∷ opened) (record speaker { jobs = without_first test speaker.jobs }) }
    ensures ready { (place : ℕ) (job : Job) (name : Name) (others : Name → Queue) (past : History) (opened : List ℕ) (speaker : Speaker D)
        → ready_job place speaker.jobs ≡ Some job → job.key ≡ name.key → job.session ≡ name.session
        → IsSpeaking name others past opened speaker
        → IsSpeaking name others past (job.number ∷ opened) (record speaker { jobs = without_ready place speaker.jobs }) }
{}

/// The mark of a number that was judged is that of its outcome, and of the reply to it where there is one.
pub fn marks_are_of_replies()
    ensures { (history : History) (replies : List Reply) (judgement : FirstJudgement) → EachOnce history → Contains history judgement
        → mark_of judgement.number (marks_of history replies) ≡ Some (mark_after replies judgement.number judgement.outcome) }
{}

/// An answer is the reply to its call, and the reply to another call is what making room left of it; the kept replies
/// are those that room left, and then the new one.
pub fn answers_are_kept<D: Draw>()
    ensures reply { (setting : Setting D) (call : ℕ) (content : List ℕ) (speaker : Speaker D) → IsUnanswered speaker.session.replies call
        → reply_to call (answers setting call content speaker).session.replies ≡ Some (reply_made setting call content speaker) }
    ensures others { (setting : Setting D) (call : ℕ) (content : List ℕ) (speaker : Speaker D) (number : ℕ) → number ≢ call
        → reply_to number (answers setting call content speaker).session.replies
        ≡ reply_to number (made_room (length (spelling_of (RpcResult call content))) speaker.session.replies) }
    ensures kept { (setting : Setting D) (call : ℕ) (content : List ℕ) (speaker : Speaker D)
        → kept_replies (answers setting call content speaker).session.replies
        ≡ kept_replies (made_room (length (spelling_of (RpcResult call content))) speaker.session.replies) ++ kept_of (reply_made setting call content speaker) ∷ [] }
{}

/// Where a session speaks and keeps its name, it is the one of that name afterwards, and the sessions of other names are
/// what they were.
pub fn sessions_speak<D: Draw>()
    ensures own { (name : Name) (speak : Speaker D → Speaker D) (state : State D) (session : Session) → session_named name state.sessions ≡ Some session
        → name_of (speak (speaker_in state session)).session ≡ name
        → session_named name (speaks name speak state).sessions ≡ Some (speak (speaker_in state session)).session }
    ensures others { (name other : Name) (speak : Speaker D → Speaker D) (state : State D) (session : Session) → session_named name state.sessions ≡ Some session
        → name_of (speak (speaker_in state session)).session ≡ name → other ≢ name
        → session_named other (speaks name speak state).sessions ≡ session_named other state.sessions }
{}

/// A number of a standing session that was noticed has neither a reply nor a job, and two judgements of one number are one.
pub fn noticed_numbers_are_over()
    ensures once { (history : History) (one other : FirstJudgement) → EachOnce history → Contains history one → Contains history other
        → one.number ≡ other.number → one ≡ other }
    ensures replies { (history : History) (replies : List Reply) (last : ℕ) (jobs : Queue) (judgement : FirstJudgement) → IsOrderly history replies last jobs
        → Contains history judgement → was_accepted judgement.outcome ≡ false → IsUnanswered replies judgement.number }
    ensures jobs { (history : History) (replies : List Reply) (last : ℕ) (jobs : Queue) (judgement : FirstJudgement) → IsOrderly history replies last jobs
        → Contains history judgement → was_accepted judgement.outcome ≡ false → HasNoJob jobs judgement.number }
{}

/// A server has 256 sessions at most after every list of events.
pub fn sessions_are_few<D: Draw, V>()
    ensures event { (setting : Setting D) (serve : Step V) (service : V) (course : Course D V) (event : Event)
        → length course.server.sessions ≤ 256 → length (after_event setting serve service course event).server.sessions ≤ 256 }
    ensures all { (setting : Setting D) (serve : Step V) (service : V) (draw : D) (events : List Event)
        → length (course_of setting serve service draw events).server.sessions ≤ 256 }
{}

/// The floor never falls as a history goes on, so a number that was judged and is kept no more is at most the floor from
/// then on. A packet only adds to its session's history.
pub fn floors_never_fall()
    ensures rises { (history later : History) → floor history ≤ floor (history ++ later) }
    ensures dropped { (history later : History) (judgement : FirstJudgement) → Contains history judgement → is_kept judgement.number history ≡ false
        → judgement.number ≤ floor (history ++ later) }
    ensures added { (way : Way) (session : Remembered) (message : Message)
        → (later : History) × ((session_after way session message).history ≡ session.history ++ later) }
{
    id_window::laws::others_are_not_above_the_floor();
}

/// A binding call that is spelt right becomes no job and makes no entry, whether it is right or not.
pub fn binding_calls_enter_nothing<D: Draw>()
    ensures jobs { (setting : Setting D) (call : BindingCall) (speaker : Speaker D) → (binds setting call speaker).jobs ≡ speaker.jobs }
    ensures entries { (setting : Setting D) (call : BindingCall) (speaker : Speaker D) → (binds setting call speaker).entries ≡ speaker.entries }
{}

/// A session that has accepted nothing has no replies and no jobs. Where it has accepted nothing once a packet was judged,
/// what it owes then begins with its `new_session_created`; an attach owes that alone; and the first packet made of
/// messages begins with the first of these.
pub fn new_sessions_say_so<D: Draw>()
    ensures replies { (history : History) (replies : List Reply) (last : ℕ) (jobs : Queue) → IsOrderly history replies last jobs
        → was_heard history ≡ false → replies ≡ [] }
    ensures jobs { (history : History) (replies : List Reply) (last : ℕ) (jobs : Queue) → IsOrderly history replies last jobs
        → was_heard history ≡ false → jobs ≡ [] }
    ensures packet { (setting : Setting D) (history : History) (judged : List Judgement) (speaker : Speaker D) → was_heard history ≡ false
        → (later : List Owed) × ((opens setting history judged speaker).owed ≡ speaker.owed ++ new_owed setting speaker ∷ later) }
    ensures attach { (setting : Setting D) (speaker : Speaker D) (jobs : Queue)
        → IsOrderly speaker.session.history speaker.session.replies speaker.session.counters.last jobs → has_accepted speaker.session ≡ false
        → attaches setting speaker ≡ says_it_is_new setting speaker }
    ensures begins { (now : ℕ) (counters : Counters) (message : Message) (messages : List Message)
        → (first : Message) × (others : List Message) × (packets_of now counters (message ∷ messages) ≡ first ∷ others) × BeginsWith message first.body }
{}

/// A session that speaks does so for itself: it stays the same one with the same history, and what it owes further and
/// what is entered further is its own, and it makes no packet yet. This is so of each row, of a job that is given up or
/// has run, and of an attach.
pub fn sessions_speak_for_themselves<D: Draw>()
    ensures owes { (setting : Setting D) (speaker : Speaker D) (number seq : ℕ) (verdict : Verdict) (body : List ℕ)
        → SaidFor D speaker (owes setting number seq verdict body speaker) }
    ensures gives_up { (setting : Setting D) (speaker : Speaker D) (content : List ℕ) (job : Job) → SaidFor D speaker (gives_up setting content job speaker) }
    ensures finishes { (setting : Setting D) (speaker : Speaker D) (job : Job) (reply : List ℕ) → SaidFor D speaker (finishes setting job reply speaker) }
    ensures attaches { (setting : Setting D) (speaker : Speaker D) → SaidFor D speaker (attaches setting speaker) }
{}

/// After every list of events each session of a server has room for 16,384 further numbers.
pub fn sessions_have_room<D: Draw, V>()
    ensures event { (setting : Setting D) (serve : Step V) (service : V) (course : Course D V) (event : Event)
        → All (λ session. 16384 ≤ room session.counters) course.server.sessions
        → All (λ session. 16384 ≤ room session.counters) (after_event setting serve service course event).server.sessions }
    ensures all { (setting : Setting D) (serve : Step V) (service : V) (draw : D) (events : List Event)
        → All (λ session. 16384 ≤ room session.counters) (course_of setting serve service draw events).server.sessions }
{}

/// Where a connection is opened for a session that has accepted nothing, it makes one packet, and that is its
/// `new_session_created`.
pub fn attached_sessions_start<D: Draw>()
    ensures { (setting : Setting D) (name : Name) (server : Server) (draw : D) (session : Session) → AreOrdered server.sessions server.jobs
        → session_named name server.sessions ≡ Some session → has_accepted session ≡ false
        → (packet : Sent) × ((after_attach setting name server draw).packets ≡ packet ∷ []) × (packet.envelope.key ≡ session.key)
        × (packet.envelope.session ≡ session.number) × SaysItIsNew session packet.envelope.body }
{}

/// A session speaks before it has accepted anything. Two calls are accepted, of which one waits for the other, and are
/// entered once each when both have run.
pub fn courses_that_happen()
    ensures unheard { shown.accepted (shown.course (shown.wrong_salt ∷ [])) ≡ false ∷ [] }
    ensures packets { length (shown.course (shown.wrong_salt ∷ [])).packets ≡ 1 }
    ensures waits { shown.waiting (shown.course (shown.call ∷ shown.waiting_call ∷ [])) ≡ (4, []) ∷ (8, 4 ∷ []) ∷ [] }
    ensures none_yet { shown.entered (shown.course (shown.call ∷ shown.waiting_call ∷ [])) ≡ [] }
    ensures ran { shown.entered (shown.course (shown.call ∷ shown.waiting_call ∷ shown.run ∷ shown.run ∷ [])) ≡ (4, true) ∷ (8, true) ∷ [] }
    ensures done { shown.waiting (shown.course (shown.call ∷ shown.waiting_call ∷ shown.run ∷ shown.run ∷ [])) ≡ [] }
{}

/// What a session owes further comes after what it owed, and leaves what the others owe as it was.
pub fn messages_are_owed_by_name<D: Draw>()
    ensures own { (before after : Speaker D) → SaidFor D before after
        → (more : List Message) × (messages_by (name_of before.session) after.owed ≡ messages_by (name_of before.session) before.owed ++ more) }
    ensures others { (before after : Speaker D) (other : Name) → SaidFor D before after → other ≢ name_of before.session
        → messages_by other after.owed ≡ messages_by other before.owed }
{}
