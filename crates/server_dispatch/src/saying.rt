//! What a session says by `Turn` that keeps no reply and touches no job: that it is new, what it received, notices, and whether
//! another session was destroyed.

ghost use Rattle.std.specs.Prelude.{◌≡◌, ◌≤◌, ℕ, List, length};
ghost use Rattle.waits.specs.Jobs.{Queue};
ghost use Rattle.server_rules.specs.Server.{Binding};
ghost use Rattle.server_rules.specs.Event.{Speaker};
ghost use Rattle.server_rules.specs.Speaking.{says, says_it_is_new};
ghost use Rattle.server_rules.specs.Rows.{acknowledges, notices};
ghost use Rattle.server_output.specs.Items.{acks_bytes, bad_salt_bytes, destroyed_bytes, destroyed_item, ids_max, new_session_bytes};
ghost use Rattle.server_session.specs.SessionState.{IsAt, outbox_of};
ghost use Rattle.server_session.specs.Says.{Keys, setting_of};
ghost use Rattle.server_session.specs.Unsaid.{NoMoreUnsaid};
ghost use Rattle.server_dispatch.specs.Speaks.{HasRoom, Speaks, Spends};

use crate::turn::Turn;
use draws::Draw;
use msg_ids::Moment;
use server_session::SessionState;

impl Turn {
    /// The session says that it is new.
    pub fn says_it_is_new<D: Draw>(
        &mut self,
        now: Moment,
        standing: &mut SessionState,
        draw: &mut D,
    )
        requires room { HasRoom 1 new_session_bytes 0 standing.old self.old }
        requires at { IsAt now standing.old }
        ensures speaks { (keys : Keys) (jobs : Queue) (bindings : List Binding) (speaker : Speaker D) → Speaks now standing.old self.old jobs bindings draw.old speaker
            → Speaks now standing.new self.new jobs bindings draw.new (says_it_is_new (setting_of now D.step keys) speaker) }
        ensures spends { Spends now 1 new_session_bytes 0 standing.old self.old standing.new self.new }
        ensures unsaid { NoMoreUnsaid standing.old self.old.owing standing.new self.new.owing }
        ensures same_replies { outbox_of standing.new ≡ outbox_of standing.old }
    {
        standing.says_it_is_new(now, &mut self.owing, draw);
    }

    /// The session says which messages it received, unless there is none.
    pub fn acknowledges<D: Draw>(&mut self, now: Moment, standing: &mut SessionState, ids: &[u64])
        requires few { length ids.now ≤ ids_max }
        requires room { HasRoom 1 (acks_bytes (length ids.now)) 0 standing.old self.old }
        ensures speaks { (keys : Keys) (jobs : Queue) (bindings : List Binding) (draw : D) (speaker : Speaker D) → Speaks now standing.old self.old jobs bindings draw speaker
            → Speaks now standing.new self.new jobs bindings draw (acknowledges (setting_of now D.step keys) ids.now speaker) }
        ensures spends { Spends now 1 (acks_bytes (length ids.now)) 0 standing.old self.old standing.new self.new }
        ensures unsaid { NoMoreUnsaid standing.old self.old.owing standing.new self.new.owing }
        ensures same_replies { outbox_of standing.new ≡ outbox_of standing.old }
    {
        standing.acknowledges::<D>(now, &mut self.owing, ids);
    }

    /// The session says that a message of this number and seq is refused with this code; 48 has the right salt with it.
    pub fn notices<D: Draw>(
        &mut self,
        now: Moment,
        standing: &mut SessionState,
        draw: &mut D,
        number: u64,
        seq: u32,
        code: u32,
    )
        requires room { HasRoom 1 bad_salt_bytes 0 standing.old self.old }
        requires at { IsAt now standing.old }
        ensures speaks { (keys : Keys) (jobs : Queue) (bindings : List Binding) (speaker : Speaker D) → Speaks now standing.old self.old jobs bindings draw.old speaker
            → Speaks now standing.new self.new jobs bindings draw.new (notices (setting_of now D.step keys) number seq code speaker) }
        ensures spends { Spends now 1 bad_salt_bytes 0 standing.old self.old standing.new self.new }
        ensures unsaid { NoMoreUnsaid standing.old self.old.owing standing.new self.new.owing }
        ensures same_replies { outbox_of standing.new ≡ outbox_of standing.old }
    {
        standing.notices(now, &mut self.owing, draw, number, seq, code);
    }

    /// The session says that another session of its key is gone, or that there was none.
    pub fn says_destroyed<D: Draw>(
        &mut self,
        now: Moment,
        standing: &mut SessionState,
        session: u64,
        ok: bool,
    )
        requires room { HasRoom 1 destroyed_bytes 0 standing.old self.old }
        ensures speaks { (keys : Keys) (jobs : Queue) (bindings : List Binding) (draw : D) (speaker : Speaker D) → Speaks now standing.old self.old jobs bindings draw speaker
            → Speaks now standing.new self.new jobs bindings draw (says (setting_of now D.step keys) (destroyed_item session ok) speaker) }
        ensures spends { Spends now 1 destroyed_bytes 0 standing.old self.old standing.new self.new }
        ensures unsaid { NoMoreUnsaid standing.old self.old.owing standing.new self.new.owing }
        ensures same_replies { outbox_of standing.new ≡ outbox_of standing.old }
    {
        standing.says_destroyed::<D>(now, &mut self.owing, session, ok);
    }
}
