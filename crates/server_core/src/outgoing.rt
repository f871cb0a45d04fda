//! What the sessions of a server owe in a tick goes out.

ghost use Rattle.std.specs.Prelude.{◌≡◌, ◌≤◌, ◌<◌, ◌*◌, ◌+◌, ℕ, List, ◌∷◌, [], All, IsSome, length, slice_index_or, slice_set};
ghost use Rattle.auth_keys.specs.Rings.{entry_of};
ghost use Rattle.server_output.specs.Batch.{packets_most};
ghost use Rattle.server_output.specs.Outs.{AreSent};
ghost use Rattle.server_rules.specs.Event.{Speaker, State};
ghost use Rattle.server_rules.specs.Sending.{sends};
ghost use Rattle.server_session.specs.declared.session.SessionState.{SessionState};
ghost use Rattle.server_session.specs.Names.{name_kept};
ghost use Rattle.server_session.specs.SessionState.{IsAt, Stands, key_of, numbers_left};
ghost use Rattle.server_session.specs.Says.{Keys, Says, setting_of};
ghost use Rattle.server_core.specs.Outgoing.{CanSend, IsSending};
ghost use Rattle.server_core.specs.Sessions.{AreApart};

use crate::sessions::Sessions;
use crate::tick_turns::TickTurns;
use draws::Draw;
use envelope::Seal;
use msg_ids::Moment;
use server_output::{Delivery, Outs};
use server_session::laws::sessions_stand_later;

impl Sessions {
    /// The session at this place sends all that it owes. Takes no memory.
    pub(crate) fn sends<S: Seal, D: Draw>(
        &mut self,
        place: usize,
        now: Moment,
        delivery: Delivery<'_>,
        seal: &S,
        draw: &mut D,
        outs: &mut Outs,
    )
        requires place { place < length self.old }
        requires few { delivery.owing.now.places_taken ≤ delivery.packets.messages }
        requires short { delivery.owing.now.bytes_taken ≤ delivery.packets.bytes }
        requires key { (d : SessionState) → IsSome (entry_of (key_of (slice_index_or self.old place d)) (S.keys seal.now)) }
        requires numbers { (d : SessionState) → packets_most delivery.packets.messages delivery.packets.bytes ≤ numbers_left (slice_index_or self.old place d) }
        requires outs { packets_most delivery.packets.messages delivery.packets.bytes ≤ outs.old.room }
        requires at { (d : SessionState) → IsAt now (slice_index_or self.old place d) }
        ensures others { (d : SessionState) → self.new ≡ slice_set self.old place (slice_index_or self.new place d) }
        ensures stands { (d : SessionState) (keys : Keys) (speaker : Speaker D) → Says now (slice_index_or self.old place d) delivery.entry.owing.now draw.old speaker
            → Stands now (slice_index_or self.new place d) (sends (setting_of now D.step keys) delivery.entry.owing.now.messages speaker).session }
        ensures drawn { (d : SessionState) (keys : Keys) (speaker : Speaker D) → Says now (slice_index_or self.old place d) delivery.entry.owing.now draw.old speaker
            → draw.new ≡ (sends (setting_of now D.step keys) delivery.entry.owing.now.messages speaker).draw }
        ensures sent { (d : SessionState) (keys : Keys) (speaker : Speaker D) → Says now (slice_index_or self.old place d) delivery.entry.owing.now draw.old speaker
            → AreSent S.lock (S.keys seal.now) speaker.sent outs.old.outs
            → AreSent S.lock (S.keys seal.now) (sends (setting_of now D.step keys) delivery.entry.owing.now.messages speaker).sent outs.new.outs }
        ensures room_lasts { outs.old.room ≤ outs.new.room + packets_most delivery.entry.packets.messages delivery.entry.packets.bytes }
        ensures same_name { (d : SessionState) → name_kept (slice_index_or self.new place d) ≡ name_kept (slice_index_or self.old place d) }
        ensures at { (d : SessionState) → IsAt now (slice_index_or self.new place d) }
        ensures apart { AreApart self.old }
    {
        let standing = &mut self.list[place];
        standing.sends(now, delivery, seal, draw, outs);
    }
}

impl TickTurns {
    // The session at this place sends all that it owes, unless it has sent already.
    fn sends_at<S: Seal, D: Draw>(
        &mut self,
        place: usize,
        now: Moment,
        sessions: &mut Sessions,
        seal: &S,
        draw: &mut D,
        outs: &mut Outs,
    )
        requires place { place < length sessions.old }
        requires sendable { CanSend (S.keys seal.now) now sessions.old self.old.list.items }
        requires outs { 5 ≤ outs.old.room }
        ensures sendable { CanSend (S.keys seal.now) now sessions.new self.new.list.items }
        ensures room_lasts { outs.old.room ≤ outs.new.room + 5 }
        ensures same_count { length sessions.new ≡ length sessions.old }
        ensures same_order { self.new.order ≡ self.old.order }
        ensures same_entries { self.new.entries ≡ self.old.entries }
        ensures sends { (keys : Keys) (later : List ℕ) (start : State D)
            → IsSending S.lock (S.keys seal.now) (setting_of now D.step keys) sessions.old self.old.list.items (place ∷ later) draw.old outs.old.outs start
            → IsSending S.lock (S.keys seal.now) (setting_of now D.step keys) sessions.new self.new.list.items later draw.new outs.new.outs start }
    {
        sessions_stand_later();
        let voice = &mut self.list[place];
        if let Some(packets) = voice.packets.take() {
            let delivery = Delivery {
                owing: &voice.turn.owing,
                packets,
            };
            sessions.sends(place, now, delivery, seal, draw, outs);
        }
    }

    /// Each session that spoke sends all that it owes, in the order of their first words. Takes no memory.
    pub(crate) fn sends<S: Seal, D: Draw>(
        &mut self,
        now: Moment,
        sessions: &mut Sessions,
        seal: &S,
        draw: &mut D,
        outs: &mut Outs,
    )
        requires places { All (λ place. place < length sessions.old) self.old.order.items }
        requires sendable { CanSend (S.keys seal.now) now sessions.old self.old.list.items }
        requires outs { 5 * length self.old.order.items ≤ outs.old.room }
        ensures sendable { CanSend (S.keys seal.now) now sessions.new self.new.list.items }
        ensures same_count { length sessions.new ≡ length sessions.old }
        ensures same_entries { self.new.entries ≡ self.old.entries }
        ensures sends { (keys : Keys) (start : State D)
            → IsSending S.lock (S.keys seal.now) (setting_of now D.step keys) sessions.old self.old.list.items self.old.order.items draw.old outs.old.outs start
            → IsSending S.lock (S.keys seal.now) (setting_of now D.step keys) sessions.new self.new.list.items [] draw.new outs.new.outs start }
    {
        for k in 0..self.order.len() {
            let place = self.order[k];
            self.sends_at(place, now, sessions, seal, draw, outs);
        }
    }
}
