//! A judgement is settled: its row, then what the jobs owe that waited for its number.

ghost use Rattle.std.specs.Prelude.{◌≡◌, ◌≤◌, ◌<◌, ◌+◌, ◌*◌, ℕ, Bool, List};
ghost use Rattle.id_window.specs.History.{History};
ghost use Rattle.outbox.specs.declared.kept.Kept.{Kept};
ghost use Rattle.inbox.specs.Verdicts.{Verdict};
ghost use Rattle.server_rules.specs.Server.{Name};
ghost use Rattle.server_dispatch.specs.Contents.{short_bytes_max};
ghost use Rattle.server_output.specs.Items.{result_bytes};
ghost use Rattle.server_session.specs.SessionState.{IsAt};
ghost use Rattle.server_session.specs.Unsaid.{CallsFor};
ghost use Rattle.server_session.specs.Says.{Keys, setting_of};
ghost use Rattle.server_dispatch.specs.Action.{due_bytes, due_calls, due_of};
ghost use Rattle.server_dispatch.specs.Rings.{AreOf};
ghost use Rattle.server_dispatch.specs.Spare.{HasSpare, Uses};
ghost use Rattle.server_core.specs.Among.{Among};
ghost use Rattle.server_core.specs.Failures.{blocked_of};
ghost use Rattle.server_core.specs.Others.{AreLeft};
ghost use Rattle.server_core.specs.Settling.{IsAmong, IsSettling, settled_among};

use crate::among_others::AmongOthers;
use crate::destroying::destroys;
use crate::failures::tells_jobs;
use auth_keys::Ring;
use draws::Draw;
use law_server::laws::{
    rows_keep_order, sessions_speak_for_themselves, speech_keeps_order, taken_jobs_are_open,
};
use msg_ids::Moment;
use server_dispatch::Action;

impl AmongOthers {
    /// A judgement on the message of this number is settled, by what the message needs: its row, and then each job of the session
    /// that fails by it is answered. So many are answered at most; there are no more where so many jobs of the session aren't
    /// ready, this one among them where it becomes one. Says how many were. Takes no memory.
    pub(crate) fn settles<D: Draw>(
        &mut self,
        now: Moment,
        ring: &Ring,
        draw: &mut D,
        number: u64,
        due: Action,
        limit: usize,
    ) -> usize
        requires room { HasSpare (due_calls number due) (2 + limit) (due_bytes due + limit * result_bytes short_bytes_max) (1 + limit) (2 + limit) self.old.speaking.standing self.old.speaking.turn }
        requires job_room { 0 < self.old.speaking.jobs.room }
        requires binding_room { 0 < self.old.speaking.bindings.room }
        requires at { IsAt now self.old.speaking.standing }
        ensures settled { (keys : Keys) (name : Name) (past : History) (seq : ℕ) (verdict : Verdict) (body opened : List ℕ) (among : Among D)
            → AreOf ring.now keys → due ≡ due_of number seq verdict body → IsSettling name past number verdict opened among → blocked_of name among.speaker.jobs + 1 ≤ limit
            → IsAmong now self.old draw.old among
            → IsAmong now self.new draw.new (settled_among (setting_of now D.step keys) number seq verdict body among) }
        ensures fewer { (keys : Keys) (name : Name) (past : History) (seq : ℕ) (verdict : Verdict) (body opened : List ℕ) (among : Among D)
            → AreOf ring.now keys → due ≡ due_of number seq verdict body → IsSettling name past number verdict opened among
            → IsAmong now self.old draw.old among
            → blocked_of name self.new.speaking.jobs.jobs + result ≤ blocked_of name among.speaker.jobs + 1 }
        ensures few { result ≤ limit }
        ensures uses { (called : Kept → Bool) → CallsFor (due_calls number due) called
            → Uses called now (2 + result) (due_bytes due + result * result_bytes short_bytes_max) (1 + result) (2 + result) self.old.speaking.standing self.old.speaking.turn self.new.speaking.standing self.new.speaking.turn }
        ensures job_room_lasts { self.old.speaking.jobs.room ≤ self.new.speaking.jobs.room + 1 }
        ensures binding_room_lasts { self.old.speaking.bindings.room ≤ self.new.speaking.bindings.room + 1 }
        ensures left { AreLeft self.old.others self.new.others }
    {
        rows_keep_order::<D>();
        speech_keeps_order::<D>();
        taken_jobs_are_open::<D>();
        sessions_speak_for_themselves::<D>();
        match due {
            Action::Destroys(destroyed) => {
                destroys::<D>(
                    &mut self.speaking.turn,
                    now,
                    &mut self.speaking.standing,
                    &mut self.others,
                    &mut self.speaking.jobs,
                    destroyed,
                );
                tells_jobs::<D>(&mut self.speaking, now, number, limit)
            }
            other => {
                self.speaking.owes(now, ring, draw, number, other);
                tells_jobs::<D>(&mut self.speaking, now, number, limit)
            }
        }
    }
}
