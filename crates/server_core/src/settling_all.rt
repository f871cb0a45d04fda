//! All judgements of a packet are settled.

ghost use Rattle.std.specs.Prelude.{◌≡◌, ◌≤◌, ◌+◌, ◌*◌, ℕ, Bool, List, length, map};
ghost use Rattle.std.specs.List.{sum_by};
ghost use Rattle.id_window.specs.History.{History};
ghost use Rattle.outbox.specs.declared.kept.Kept.{Kept};
ghost use Rattle.inbox.specs.Verdicts.{Judgement as Told, bare_judgement};
ghost use Rattle.server_rules.specs.Server.{Name};
ghost use Rattle.server_dispatch.specs.Contents.{short_bytes_max};
ghost use Rattle.server_output.specs.Items.{result_bytes};
ghost use Rattle.server_session.specs.SessionState.{IsAt};
ghost use Rattle.server_session.specs.Unsaid.{CallsFor};
ghost use Rattle.server_session.specs.Says.{Keys, setting_of};
ghost use Rattle.server_dispatch.specs.Rings.{AreOf};
ghost use Rattle.server_dispatch.specs.Spare.{HasSpare, Uses};
ghost use Rattle.server_core.specs.Among.{Among};
ghost use Rattle.server_core.specs.Others.{AreLeft};
ghost use Rattle.server_core.specs.Settling.{IsAmong};
ghost use Rattle.server_core.specs.SettlingAll.{AreDue, AreSettling, all_settled, calls_of, due_most};

use crate::among_others::AmongOthers;
use crate::laws::{one_session_stays_alone, one_session_stays_in_order};
use auth_keys::Ring;
use draws::Draw;
use inbox::Judgement;
use msg_ids::Moment;
use server_dispatch::Due;

impl AmongOthers {
    /// Judgements on a packet's messages are settled in order, by what each message needs where it is accepted. So many jobs that
    /// fail are answered at most; there are no more where so many jobs of the session aren't ready, one for each judgement among
    /// them. Takes no memory.
    pub(crate) fn settles_all<D: Draw>(
        &mut self,
        now: Moment,
        ring: &Ring,
        draw: &mut D,
        judged: &[Judgement],
        dues: Vec<Due>,
        limit: usize,
    )
        requires enough { length judged.now ≤ length dues.items }
        requires room { HasSpare (calls_of judged.now dues.items) (2 * length dues.items + limit) (sum_by due_most dues.items + limit * result_bytes short_bytes_max) (length dues.items + limit) (2 * length dues.items + limit) self.old.speaking.standing self.old.speaking.turn }
        requires job_room { length judged.now ≤ self.old.speaking.jobs.room }
        requires binding_room { length judged.now ≤ self.old.speaking.bindings.room }
        requires at { IsAt now self.old.speaking.standing }
        ensures settled { (keys : Keys) (name : Name) (past : History) (told : List Told) (bodies : List (List ℕ)) (among : Among D)
            → AreOf ring.now keys → judged.now ≡ map bare_judgement told → AreDue told bodies dues.items → AreSettling name past limit told among
            → IsAmong now self.old draw.old among
            → IsAmong now self.new draw.new (all_settled (setting_of now D.step keys) told bodies among) }
        ensures uses { (called : Kept → Bool) → CallsFor (calls_of judged.now dues.items) called
            → Uses called now (2 * length dues.items + limit) (sum_by due_most dues.items + limit * result_bytes short_bytes_max) (length dues.items + limit) (2 * length dues.items + limit) self.old.speaking.standing self.old.speaking.turn self.new.speaking.standing self.new.speaking.turn }
        ensures left { AreLeft self.old.others self.new.others }
    {
        one_session_stays_alone::<D>();
        one_session_stays_in_order::<D>();
        let mut left = limit;
        for (judgement, due) in judged.iter().zip(dues) {
            let due = due.action.judged(judgement.seq, &judgement.verdict);
            left -= self.settles(now, ring, draw, judgement.number, due, left);
        }
    }
}
