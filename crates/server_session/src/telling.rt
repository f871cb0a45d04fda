//! A session tells how far messages are.

ghost use Rattle.std.specs.Prelude.{◌≡◌, ◌≤◌, ◌<◌, ◌+◌, ℕ, length, map, take};
ghost use Rattle.inbox.specs.States.{state_byte};
ghost use Rattle.server_rules.specs.Event.{Speaker};
ghost use Rattle.server_rules.specs.Rows.{tells_states};
ghost use Rattle.server_rules.specs.Server.{Session, marks_of};
ghost use Rattle.server_output.specs.Items.{ids_max, states_bytes};

use crate::session::SessionState;
use draws::Draw;
use msg_ids::Moment;
use server_output::{Outgoing, OutgoingMessages};

/// How many states are told at once.
const STATES_MAX: usize = 8_192;

impl SessionState {
    ghost use Rattle.server_session.specs.Says.{Keys, Says, setting_of};
    ghost use Rattle.server_session.specs.SessionState.{IsAt, Stands, key_of, number_of, numbers_left, outbox_of};
    ghost use Rattle.server_session.specs.Unsaid.{NoMoreUnsaid, StaySaid};

    /// Tells how far each of these messages is, a byte for each, to the request in this message.
    pub fn tells_states<D: Draw>(
        &mut self,
        now: Moment,
        owing: &mut OutgoingMessages,
        request: u64,
        ids: &[u64],
    )
        requires few { length ids.now ≤ ids_max }
        requires place { 0 < owing.old.places }
        requires bytes { states_bytes (length ids.now) ≤ owing.old.room }
        requires numbers { 0 < numbers_left self.old }
        ensures says { (keys : Keys) (draw : D) (speaker : Speaker D) → Says now self.old owing.old draw speaker
            → Says now self.new owing.new draw (tells_states (setting_of now D.step keys) request ids.now speaker) }
        ensures places { owing.new.places + 1 ≡ owing.old.places }
        ensures left { owing.new.room + states_bytes (length ids.now) ≡ owing.old.room }
        ensures taken { (owing.new.places_taken ≡ owing.old.places_taken) × (owing.new.bytes_taken ≡ owing.old.bytes_taken) }
        ensures numbers_last { numbers_left self.old ≤ numbers_left self.new + 1 }
        ensures same_replies { outbox_of self.new ≡ outbox_of self.old }
        ensures stays_said { StaySaid owing.old.messages owing.new.messages }
        ensures unsaid { NoMoreUnsaid self.old owing.old self.new owing.new }
        ensures same_key { key_of self.new ≡ key_of self.old }
        ensures same_number { number_of self.new ≡ number_of self.old }
        ensures at { IsAt now self.old → IsAt now self.new }
    {
        let mut states = [0; STATES_MAX];
        self.states(ids, &mut states);
        let said = Outgoing::States {
            request,
            info: &states[..ids.len()],
        };
        owing.say(now, &mut self.numbers, &said);
    }

    // Writes the state of each of these numbers.
    fn states(&self, ids: &[u64], states: &mut [u8])
        requires { length ids.now ≤ length states.old }
        ensures states { (now : ℕ) (session : Session) → Stands now self.now session
            → take (length ids.now) states.new ≡ map (state_byte session.history (marks_of session.history session.replies)) ids.now }
        ensures length { length states.new ≡ length states.old }
    {
        for place in 0..ids.len() {
            states[place] = self.inbox.state(ids[place]);
        }
    }
}
