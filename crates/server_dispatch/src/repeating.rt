//! What a session owes to messages that came again.

ghost use Rattle.std.specs.Prelude.{◌≡◌, ◌≤◌, ℕ, Bool, List};
ghost use Rattle.outbox.specs.declared.kept.Kept.{Kept};
ghost use Rattle.waits.specs.Jobs.{Queue};
ghost use Rattle.server_rules.specs.Event.{Speaker};
ghost use Rattle.server_rules.specs.Rows.{came_again};
ghost use Rattle.server_rules.specs.Server.{Binding, mark_in};
ghost use Rattle.server_output.specs.Items.{bad_salt_bytes};
ghost use Rattle.server_session.specs.SessionState.{IsAt, outbox_of};
ghost use Rattle.server_session.specs.Says.{Keys, setting_of};
ghost use Rattle.server_session.specs.Unsaid.{CallsFor, is_to};
ghost use Rattle.server_dispatch.specs.Spare.{HasSpare, Uses};
ghost use Rattle.server_dispatch.specs.Speaks.{Speaks};

use crate::turn::Turn;
use draws::Draw;
use inbox::Mark;
use msg_ids::Moment;
use server_session::SessionState;
use service_tl::codes::FORGOTTEN;

impl Turn {
    /// What the session owes to a message that came again, by the mark that its number has now: its notice, its kept reply
    /// unless that was said in this event, notice 20 where the reply was dropped, and else nothing. Beside the notice there is
    /// room for the kept reply unless it was said.
    pub(crate) fn came_again<D: Draw>(
        &mut self,
        now: Moment,
        standing: &mut SessionState,
        draw: &mut D,
        number: u64,
        seq: u32,
    )
        requires room { HasSpare (is_to number) 1 bad_salt_bytes 0 0 standing.old self.old }
        requires at { IsAt now standing.old }
        ensures speaks { (keys : Keys) (jobs : Queue) (bindings : List Binding) (speaker : Speaker D) → Speaks now standing.old self.old jobs bindings draw.old speaker
            → Speaks now standing.new self.new jobs bindings draw.new (came_again (setting_of now D.step keys) number seq (mark_in speaker.session number) speaker) }
        ensures uses { (called : Kept → Bool) → CallsFor (is_to number) called → Uses called now 1 bad_salt_bytes 0 0 standing.old self.old standing.new self.new }
        ensures same_replies { outbox_of standing.new ≡ outbox_of standing.old }
    {
        match standing.mark(number) {
            Some(Mark::Noticed(code)) => self.notices(now, standing, draw, number, seq, code),
            Some(Mark::Replied(_)) => standing.says_kept::<D>(&mut self.owing, number),
            Some(Mark::Dropped(_)) => self.notices(now, standing, draw, number, seq, FORGOTTEN),
            _ => {}
        }
    }
}
