//! How a client goes on in another session.

ghost use Rattle.std.specs.Prelude.{◌≡◌};

use crate::binding::Binding;
use crate::core_client::Core;
use crate::rebinding::set_binding;
use crate::waiting::Waiting;
use client_calls::{Rule, settle_all};
use draws::Draw;
use msg_ids::Numbers;

impl Waiting {
    ghost use Rattle.std.specs.Prelude.{◌≡◌, Some};
    ghost use Rattle.client_rules.specs.Client.{nothing_waits};
    ghost use Rattle.client_core.specs.Kept.{waiting_in};
    ghost use Rattle.client_core.specs.Sound.{CanWait};

    /// Nothing waits but to destroy a former session.
    fn start_anew(&mut self, former: u64)
        ensures waits { waiting_in self.new ≡ record nothing_waits { destroyed = Some former } }
        ensures can_wait { CanWait self.new }
        ensures room { self.new.resent.room ≡ self.old.resent.room }
    {
        self.told = None;
        self.resent.clear();
        self.states = false;
        self.ping = None;
        self.salts = None;
        self.destroyed = Some(former);
    }
}

impl Core {
    ghost use Rattle.std.specs.Prelude.{◌≡◌, [], true};
    ghost use Rattle.draws.specs.Draws.{draw_after, word_after};
    ghost use Rattle.client_rules.specs.Client.{Client, is_open};
    ghost use Rattle.client_rules.specs.Events.{renewed};
    ghost use Rattle.client_core.specs.Kept.{Stands};

    /// What was of the session alone is forgotten: its calls, its marks and what waits, but to destroy it.
    fn leave_session(&mut self)
        requires open { is_open self.old.rest ≡ true }
        ensures stands { (client : Client) → Stands self.old client → Stands self.new (renewed self.old.rest.session client) }
        ensures learnt { self.new.rest.learnt ≡ [] }
    {
        settle_all(&mut self.calls, Rule::Renewed);
        set_binding(&mut self.temporary, Binding::Needed);
        self.former.push(self.session);
        self.salt = 0;
        self.learnt.clear();
        self.numbers = Numbers::new();
        self.waiting.start_anew(self.session);
        self.asked = None;
        self.calls.clear_acks();
        self.calls.forget_packets();
    }

    /// An open client goes on in another session, whose number is drawn. Takes no memory.
    pub(crate) fn renew<D: Draw>(&mut self, draw: &mut D)
        requires open { is_open self.old.rest ≡ true }
        ensures stands { (client : Client) → Stands self.old client → Stands self.new (renewed (word_after D.step 0 draw.old) client) }
        ensures after { draw.new ≡ draw_after D.step 1 draw.old }
        ensures learnt { self.new.rest.learnt ≡ [] }
    {
        self.leave_session();
        self.session = draw.word();
    }
}
