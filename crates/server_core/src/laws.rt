//! Laws of an event in which one session speaks, each the contract of a function that does nothing.

ghost use Rattle.std.specs.Prelude.{◌≡◌, ◌∷◌, ℕ, List, Some, All, Contains, false, length, true};
ghost use Rattle.msg_ids.specs.Counters.{is_odd};
ghost use Rattle.id_window.specs.History.{History};
ghost use Rattle.inbox.specs.Verdicts.{Judgement};
ghost use Rattle.regs_service.specs.Served.{Step};
ghost use Rattle.waits.specs.Jobs.{Queue, ready_job};
ghost use Rattle.waits.specs.declared.job.Job.{Job};
ghost use Rattle.law_server.specs.Order.{AreOrdered, IsMidway, IsSpeaking, IsTold, jobs_of, opens_of};
ghost use Rattle.server_rules.specs.Event.{Entry, Envelope, Sent, Setting, Speaker, State, speaker_in, spoken};
ghost use Rattle.server_rules.specs.Server.{Name, Server, Session, name_of, remembered, session_named};
ghost use Rattle.server_rules.specs.Waiting.{after_failures};
ghost use Rattle.server_rules.specs.Answer.{after_packet, after_work, begun, hears, is_spent, message_in, name_in, opens, runs};
ghost use Rattle.law_server_bounds.specs.Taking.{IsTaken};
ghost use Rattle.server_core.specs.Acceptance.{Acknowledges, IsAcceptedBy};
ghost use Rattle.inbox.specs.Acceptance.{IsAcceptable};
ghost use Rattle.server_core.specs.Working.{run_entry};
ghost use Rattle.server_core.specs.One.{AreOwnFailures, fails_all, finishes_all};
ghost use Rattle.server_core.specs.Among.{Among, IsAlone, IsInOrder, IsOrderlySpeaker, heard_among, packet_among, settles_among, speaks_among};

use draws::Draw;
use law_server::laws::{
    noticed_numbers_are_over, packets_are_judged, rows_keep_order, sessions_speak,
    sessions_speak_for_themselves, speech_keeps_order, taken_jobs_are_open,
};
use law_server_bounds::laws::lawful_messages_are_taken;
use packing::laws::packets_have_all_messages;

/// Where all jobs that have failed are those of the session that speaks, that session answers them all.
pub fn one_session_fails<D: Draw>()
    ensures { (setting : Setting D) (state : State D) (speaker : Speaker D) (before : Session)
        → session_named (name_of speaker.session) state.sessions ≡ Some before → AreOwnFailures (name_of speaker.session) speaker.jobs
        → after_failures setting (spoken state speaker) ≡ spoken state (fails_all setting (length speaker.jobs) speaker) }
{}

/// Where no job has failed before, a run is an event of the session alone whose job has run.
pub fn one_session_runs<D: Draw>()
    ensures { (setting : Setting D) (place : ℕ) (job : Job) (reply : List ℕ) (state : State D) (session : Session)
        → session_named (record { key = job.key; session = job.session }) state.sessions ≡ Some session → All (λ one. one.failed ≡ false) state.jobs
        → runs setting place job reply state ≡ spoken state (finishes_all setting place job reply (speaker_in state session)) }
{}

/// Where a server is in order, the first entry of a run is that run.
pub fn runs_come_first<D: Draw, V>()
    ensures { (setting : Setting D) (place : ℕ) (serve : Step V) (service : V) (server : Server) (draw : D) (job : Job)
        → AreOrdered server.sessions server.jobs → ready_job place server.jobs ≡ Some job
        → (later : List Entry) × ((after_work setting place serve service server draw).0.entries ≡ run_entry job (serve service job.request).0 ∷ later) }
{}

/// Where no job has failed before and each session has room for an event, a packet is an event of its session alone, but for
/// the other sessions that it destroys.
pub fn one_session_takes<D: Draw>()
    ensures { (setting : Setting D) (envelope : Envelope) (server : Server) (draw : D)
        → All (λ session. is_spent session ≡ false) server.sessions → All (λ one. one.failed ≡ false) server.jobs
        → after_packet setting envelope server draw ≡ packet_among setting envelope server draw }
{
    sessions_speak_for_themselves::<D>();
}

/// A packet's session is alone of its name as it is heard, and stays so as it judges and settles: no other has its name, all
/// jobs that have failed are its own, and so is all that is owed.
pub fn one_session_stays_alone<D: Draw>()
    ensures heard { (setting : Setting D) (envelope : Envelope) (server : Server) (draw : D)
        → All (λ session. is_spent session ≡ false) server.sessions → All (λ one. one.failed ≡ false) server.jobs
        → IsAlone (name_in envelope) (heard_among setting envelope (begun server draw)) }
    ensures opens { (setting : Setting D) (name : Name) (history : History) (judged : List Judgement) (among : Among D)
        → IsAlone name among → IsAlone name (speaks_among (opens setting history judged) among) }
    ensures settles { (setting : Setting D) (name : Name) (judgement : Judgement) (body : List ℕ) (among : Among D)
        → IsAlone name among → IsAlone name (settles_among setting among (judgement, body)) }
{
    sessions_speak_for_themselves::<D>();
}

/// A packet's session is in order as it is heard, and stays so: once it has judged, the numbers that it accepted are open,
/// and each is answered, a job, or left when its judgement is settled.
pub fn one_session_stays_in_order<D: Draw>()
    ensures heard { (setting : Setting D) (envelope : Envelope) (server : Server) (draw : D) → AreOrdered server.sessions server.jobs
        → IsOrderlySpeaker (name_in envelope) (heard_among setting envelope (begun server draw)).speaker }
    ensures opens { (setting : Setting D) (history : History) (judged : List Judgement) (name : Name) (opened : List ℕ) (speaker : Speaker D)
        → name_of speaker.session ≡ name → IsMidway opened history speaker.session.replies speaker.session.counters.last (jobs_of name speaker.jobs)
        → IsInOrder name history opened (opens setting history judged speaker) }
    ensures settles { (setting : Setting D) (name : Name) (others : Name → Queue) (past : History) (judgement : Judgement) (judged : List Judgement) (body : List ℕ) (among : Among D)
        → IsAlone name among → IsTold judgement.number judgement.verdict past → IsSpeaking name others past (opens_of (judgement ∷ judged)) among.speaker
        → IsInOrder name past (opens_of judged) (settles_among setting among (judgement, body)).speaker }
{
    sessions_speak_for_themselves::<D>();
    speech_keeps_order::<D>();
    rows_keep_order::<D>();
    taken_jobs_are_open::<D>();
}

/// A packet's message that nothing refuses is accepted by its session, and a call is a job then or answered, unless the session
/// has no room for a further event when all is sent and is lost.
pub fn acceptable_messages_are_accepted<D: Draw>()
    ensures { (setting : Setting D) (envelope : Envelope) (server : Server) (draw : D) (session : Session)
        → All (λ session. is_spent session ≡ false) server.sessions → AreOrdered server.sessions server.jobs
        → session_named (name_in envelope) (hears setting envelope (begun server draw)).sessions ≡ Some session
        → IsAcceptable setting.now session.salts envelope.salt (remembered session) (message_in envelope)
        → IsAcceptedBy setting envelope server draw session (after_packet setting envelope server draw).server }
{
    sessions_speak_for_themselves::<D>();
    one_session_stays_in_order::<D>();
    packets_are_judged();
    noticed_numbers_are_over();
    lawful_messages_are_taken::<D>();
    inbox::laws::acceptable_messages_are_accepted();
}

/// A packet whose message is accepted in an event and has an odd seq is acknowledged by one of the packets of that event.
pub fn acknowledgements_go_out<D: Draw>()
    ensures { (setting : Setting D) (envelope : Envelope) (server : Server) (draw : D)
        → IsTaken D setting envelope server draw → is_odd envelope.seq ≡ true
        → (one : Sent) × Contains (after_packet setting envelope server draw).packets one × Acknowledges (name_in envelope) envelope.number one }
{
    sessions_speak::<D>();
    packets_have_all_messages();
}
