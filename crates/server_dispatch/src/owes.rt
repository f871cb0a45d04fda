//! What a session owes for a judgement.

ghost use Rattle.std.specs.Prelude.{◌≡◌, ◌≤◌, ◌<◌, ◌+◌, ◌∷◌, ℕ, Bool, List, false, true};
ghost use Rattle.id_window.specs.History.{History};
ghost use Rattle.outbox.specs.declared.kept.Kept.{Kept};
ghost use Rattle.inbox.specs.Verdicts.{Verdict};
ghost use Rattle.waits.specs.Jobs.{Queue};
ghost use Rattle.server_rules.specs.Event.{Speaker};
ghost use Rattle.server_rules.specs.Rows.{owes};
ghost use Rattle.server_rules.specs.Server.{Name};
ghost use Rattle.law_server.specs.Order.{IsSpeaking};
ghost use Rattle.server_session.specs.SessionState.{IsAt};
ghost use Rattle.server_session.specs.Unsaid.{CallsFor};
ghost use Rattle.server_session.specs.Says.{Keys, setting_of};
ghost use Rattle.server_dispatch.specs.Action.{answering_bytes, due_bytes, due_calls, due_of};
ghost use Rattle.server_dispatch.specs.Owed.{IsCallOf, answers_so, open_with};
ghost use Rattle.server_dispatch.specs.Rings.{AreOf};
ghost use Rattle.server_dispatch.specs.Spare.{HasSpare, Uses};
ghost use Rattle.server_dispatch.specs.Speaks.{IsSpokenBy};

use crate::action::{Action, Answering, Telling};
use crate::short::Short;
use crate::speaking::Speaking;
use auth_keys::Ring;
use draws::Draw;
use msg_ids::Moment;

impl Speaking {
    /// What the session owes for the judgement of the message of this number, by what that needs. `Action::Destroys` owes
    /// nothing here, since it touches another session. Room for a job and for a binding has to be reserved, and room for the
    /// kept replies that the due calls for and that weren't said in this event. Takes no memory.
    pub fn owes<D: Draw>(
        &mut self,
        now: Moment,
        ring: &Ring,
        draw: &mut D,
        number: u64,
        due: Action,
    )
        requires room { HasSpare (due_calls number due) 2 (due_bytes due) 1 2 self.old.standing self.old.turn }
        requires job_room { 0 < self.old.jobs.room }
        requires binding_room { 0 < self.old.bindings.room }
        requires at { IsAt now self.old.standing }
        ensures speaks { (keys : Keys) (seq : ℕ) (verdict : Verdict) (body : List ℕ) (speaker : Speaker D) (name : Name) (others : Name → Queue) (past : History) (opened : List ℕ)
            → AreOf ring.now keys → due ≡ due_of number seq verdict body → IsSpeaking name others past (open_with number verdict opened) speaker
            → IsSpokenBy now self.old draw.old speaker
            → IsSpokenBy now self.new draw.new (owes (setting_of now D.step keys) number seq verdict body speaker) }
        ensures uses { (called : Kept → Bool) → CallsFor (due_calls number due) called → Uses called now 2 (due_bytes due) 1 2 self.old.standing self.old.turn self.new.standing self.new.turn }
        ensures job_room_lasts { self.old.jobs.room ≤ self.new.jobs.room + 1 }
        ensures binding_room_lasts { self.old.bindings.room ≤ self.new.bindings.room + 1 }
    {
        match due {
            Action::Notice { seq, code } => {
                self.turn
                    .notices(now, &mut self.standing, draw, number, seq, code);
            }
            Action::CameAgain { seq } => {
                self.turn
                    .came_again(now, &mut self.standing, draw, number, seq);
            }
            Action::Tells(Telling::Pongs(ping)) => {
                self.standing
                    .answers_ping::<D>(now, &mut self.turn.owing, number, ping);
            }
            Action::Tells(Telling::Salts(count)) => {
                self.standing
                    .tells_salts(now, &mut self.turn.owing, draw, number, count);
            }
            Action::Tells(Telling::Acks(ids)) => self.standing.takes_acks::<D>(ids.ids()),
            Action::Tells(Telling::States(asked)) => {
                self.standing
                    .tells_states::<D>(now, &mut self.turn.owing, number, asked.ids());
            }
            Action::Tells(Telling::Resends(asked)) => {
                self.standing
                    .sends_again::<D>(now, &mut self.turn.owing, number, asked.ids());
            }
            Action::Answers(answering) => {
                self.gives::<D>(now, ring, number, answering);
            }
            Action::Destroys(_) | Action::Nothing => {}
        }
    }

    // What the session owes to an accepted message that is answered, or becomes a job.
    fn gives<D: Draw>(&mut self, now: Moment, ring: &Ring, number: u64, answering: Answering)
        requires room { HasSpare (λ kept. false) 2 answering_bytes 1 2 self.old.standing self.old.turn }
        requires job_room { 0 < self.old.jobs.room }
        requires binding_room { 0 < self.old.bindings.room }
        ensures speaks { (keys : Keys) (numbers : List ℕ) (draw : D) (speaker : Speaker D) (name : Name) (others : Name → Queue) (past : History) (opened : List ℕ)
            → AreOf ring.now keys → IsCallOf number numbers answering → IsSpeaking name others past (number ∷ opened) speaker
            → IsSpokenBy now self.old draw speaker
            → IsSpokenBy now self.new draw (answers_so (setting_of now D.step keys) number numbers answering speaker) }
        ensures uses { (called : Kept → Bool) → Uses called now 2 answering_bytes 1 2 self.old.standing self.old.turn self.new.standing self.new.turn }
        ensures job_room_lasts { self.old.jobs.room ≤ self.new.jobs.room + 1 }
        ensures binding_room_lasts { self.old.bindings.room ≤ self.new.bindings.room + 1 }
    {
        match answering {
            Answering::PackedBody(body) => {
                self.turn.answers_in_place::<D>(
                    now,
                    &mut self.standing,
                    number,
                    body,
                    Short::PackedBodyRefused,
                );
            }
            Answering::BrokenBody { constructor, body } => {
                self.turn
                    .answers_broken::<D>(now, &mut self.standing, number, constructor, body);
            }
            Answering::Binds(binding) => {
                self.turn.binds::<D>(
                    now,
                    &mut self.standing,
                    &mut self.bindings,
                    ring,
                    number,
                    &binding,
                );
            }
            Answering::Drops(call) => {
                self.turn
                    .drops_answer::<D>(now, &mut self.standing, &mut self.jobs, number, call);
            }
            Answering::ForService(due) => {
                self.turn.accepts_call::<D>(
                    now,
                    &mut self.standing,
                    &mut self.jobs,
                    &self.bindings,
                    ring,
                    due,
                );
            }
        }
    }
}
