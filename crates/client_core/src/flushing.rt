//! A client's next packet: what waits and the queued calls, in order, and how it is sent.

ghost use Rattle.std.specs.Prelude.{◌≡◌, ◌≤◌, ◌<◌, ◌+◌, ◌%◌, ℕ, [], List, IfSome, IsSome, false, true, length, min, vec_len, vec_capacity};
ghost use Rattle.auth_keys.specs.Rings.{entry_of};
ghost use Rattle.call_table.specs.Kept.{numbers_in};
ghost use Rattle.containers.specs.Container.{container_head};
ghost use Rattle.envelope.specs.Packet.{sealed_size};
ghost use Rattle.msg_ids.specs.Counters.{room};
ghost use Rattle.client_rules.specs.Client.{Client, after_message, numbered};
ghost use Rattle.client_rules.specs.Filling.{Filling, empty, fills, numbers_max};
ghost use Rattle.client_rules.specs.Flush.{has_any, remembers, remembers_lone, sends};
ghost use Rattle.client_rules.specs.Sending.{draw_after_packet, packet_of};
ghost use Rattle.client_core.specs.Asked.{HasRoom};
ghost use Rattle.client_core.specs.Draft.{Goes, HasNumbers, HasRoomFor, TakesUp};
ghost use Rattle.client_core.specs.Filled.{CanBeSealed, IsPacked, body_in, lone_of, waiting_said};
ghost use Rattle.client_core.specs.Flushed.{IsSealed, Sent, setting_of};
ghost use Rattle.client_core.specs.Kept.{Stands};
ghost use Rattle.client_core.specs.Owed.{asked_count, calls_most, needs_binding, owed_bytes, owed_numbers, waiting_bytes};

use crate::asking::BindRoom;
use crate::core_client::Core;
use crate::filling::{Draft, Filled};
use crate::says::given;
use client_calls::laws::calls_stay_sound;
use draws::Draw;
use envelope::Seal;
use octets::{Buffer, Octets};

impl Core {
    /// What waits beside the calls and the binding goes, as far as it fits. The lists have room for the acknowledgements
    /// and for the numbers of calls.
    fn says_waiting<D: Draw>(&mut self, draft: &mut Draft, acks: Vec<u64>, states: Vec<u64>)
        requires numbers { HasNumbers self.old draft.old }
        requires bytes { HasRoomFor (waiting_bytes self.old) draft.old }
        requires no_acks { (acks.items ≡ []) × (vec_len acks ≡ 0) }
        requires no_states { (states.items ≡ []) × (vec_len states ≡ 0) }
        requires acks { length self.old.calls.acks ≤ vec_capacity acks }
        requires states { asked_count self.old.rest.waiting.states self.old.calls.rows ≤ vec_capacity states }
        ensures goes { (filling : Filling D) → Goes self.old draft.old filling → Goes self.new draft.new (waiting_said filling) }
        ensures numbers { HasNumbers self.new draft.new }
        ensures takes { TakesUp (waiting_bytes self.old) 0 draft.old draft.new }
        ensures rows { self.new.calls.rows ≡ self.old.calls.rows }
        ensures temporary { self.new.rest.temporary ≡ self.old.rest.temporary }
        ensures key { self.new.rest.key ≡ self.old.rest.key }
        ensures learnt { self.new.rest.learnt ≡ self.old.rest.learnt }
        ensures room { self.new.calls.room ≡ self.old.calls.room }
    {
        self.says_acks::<D>(draft, acks);
        self.says_told::<D>(draft);
        self.says_resent::<D>(draft);
        self.says_states::<D>(draft, states);
        self.says_ping::<D>(draft);
        self.says_salts::<D>(draft);
        self.says_destroyed::<D>(draft);
    }

    /// Fills a packet: what waits, the binding, the answers to drop and the queued calls, as far as they fit.
    pub(crate) fn fills<S: Seal, D: Draw>(
        &mut self,
        draft: &mut Draft,
        acks: Vec<u64>,
        states: Vec<u64>,
        binding: BindRoom,
        seal: &S,
        draw: &mut D,
    )
        requires numbers { HasNumbers self.old draft.old }
        requires bytes { HasRoomFor (owed_bytes self.old) draft.old }
        requires no_acks { (acks.items ≡ []) × (vec_len acks ≡ 0) }
        requires no_states { (states.items ≡ []) × (vec_len states ≡ 0) }
        requires acks { length self.old.calls.acks ≤ vec_capacity acks }
        requires states { asked_count self.old.rest.waiting.states self.old.calls.rows ≤ vec_capacity states }
        requires binding { needs_binding self.old.rest ≡ true → HasRoom binding }
        requires reserved { calls_most self.old ≤ self.old.calls.room }
        requires places { owed_numbers self.old ≤ draft.old.numbers }
        requires perm { IfSome self.old.rest.temporary (λ temporary. IsSome (entry_of temporary.perm (S.keys seal.now))) }
        ensures goes { (client : Client) → Goes self.old draft.old (empty client draw.old) → Goes self.new draft.new (fills (setting_of D.step (S.keys seal.now)) client draw.old) }
        ensures drawn { (client : Client) → Goes self.old draft.old (empty client draw.old) → draw.new ≡ (fills (setting_of D.step (S.keys seal.now)) client draw.old).draw }
        ensures numbers { HasNumbers self.new draft.new }
        ensures same_room { length draft.new.rows + draft.new.room ≡ length draft.old.rows + draft.old.room }
        ensures key { self.new.rest.key ≡ self.old.rest.key }
        ensures learnt { self.new.rest.learnt ≡ self.old.rest.learnt }
    {
        self.says_waiting::<D>(draft, acks, states);
        self.says_binding(draft, binding, seal, draw);
        self.says_drops::<D>(draft);
        self.says_calls::<D>(draft);
    }

    /// Sends the only message of a packet as it is.
    fn send_lone<S: Seal, D: Draw>(&mut self, filled: Filled, seal: &S, draw: &mut D) -> Octets
        requires key { IsSome (entry_of self.old.rest.key (S.keys seal.now)) }
        requires can_be_sealed { CanBeSealed filled }
        ensures stands { (client : Client) → Stands self.old client → Stands self.new (remembers_lone filled.number filled.inner client) }
        ensures sealed { (client : Client) → Stands self.new client
            → IsSealed S.lock (S.keys seal.now) (packet_of (setting_of D.step (S.keys seal.now)) client draw.old (lone_of filled)) result }
        ensures drawn { draw.new ≡ draw_after_packet (setting_of D.step (S.keys seal.now)) draw.old (lone_of filled) }
        ensures learnt { self.new.rest.learnt ≡ self.old.rest.learnt }
    {
        let Filled {
            count: _,
            number,
            seq,
            text,
            inner,
        } = filled;
        self.remember_lone(number, inner);
        self.sealed_in_place(seal, text, number, seq, draw)
    }

    /// Sends the messages of a packet in a container, which gets its number now.
    fn send_container<S: Seal, D: Draw>(&mut self, filled: Filled, seal: &S, draw: &mut D) -> Octets
        requires key { IsSome (entry_of self.old.rest.key (S.keys seal.now)) }
        requires can_be_sealed { CanBeSealed filled }
        requires numbers { 0 < room self.old.rest.counters }
        ensures stands { (client : Client) → Stands self.old client
            → Stands self.new (remembers (numbered false (body_in filled) client).number filled.inner (after_message false client)) }
        ensures sealed { (client : Client) → Stands self.old client
            → IsSealed S.lock (S.keys seal.now) (packet_of (setting_of D.step (S.keys seal.now)) client draw.old (numbered false (body_in filled) client)) result }
        ensures drawn { (client : Client) → Stands self.old client
            → draw.new ≡ draw_after_packet (setting_of D.step (S.keys seal.now)) draw.old (numbered false (body_in filled) client) }
        ensures learnt { self.new.rest.learnt ≡ self.old.rest.learnt }
    {
        let Filled {
            count: _,
            number: _,
            seq: _,
            text,
            inner,
        } = filled;
        calls_stay_sound();
        let at = self.time();
        let (number, seq) = given(&mut self.numbers, at, false);
        self.calls.remember(number, inner);
        self.sealed_in_place(seal, text, number, seq, draw)
    }

    /// Sends what a packet was filled with: a single message as it is, more in a container.
    fn send_filled<S: Seal, D: Draw>(&mut self, filled: Filled, seal: &S, draw: &mut D) -> Octets
        requires key { IsSome (entry_of self.old.rest.key (S.keys seal.now)) }
        requires can_be_sealed { CanBeSealed filled }
        requires numbers { 0 < room self.old.rest.counters }
        ensures sent { (filling : Filling D) → Stands self.old filling.client → IsPacked filled filling → filling.draw ≡ draw.old → has_any filling.messages ≡ true
            → Sent S.lock (S.keys seal.now) (sends (setting_of D.step (S.keys seal.now)) filling.messages filling) result self.new draw.new }
        ensures learnt { self.new.rest.learnt ≡ self.old.rest.learnt }
    {
        let count = filled.count;
        if count == 1 {
            self.send_lone(filled, seal, draw)
        } else {
            self.send_container(filled, seal, draw)
        }
    }

    /// Sends a packet that has a message, in room that was taken before.
    pub(crate) fn send_draft<S: Seal, D: Draw>(
        &mut self,
        draft: Draft,
        packet: Buffer,
        seal: &S,
        draw: &mut D,
    ) -> Octets
        requires key { IsSome (entry_of self.old.rest.key (S.keys seal.now)) }
        requires empty { packet.bytes ≡ [] }
        requires room { sealed_size (container_head + length draft.rows) ≤ packet.room }
        requires numbers { HasNumbers self.old draft }
        ensures sent { (filling : Filling D) → Goes self.old draft filling → filling.draw ≡ draw.old → has_any filling.messages ≡ true
            → Sent S.lock (S.keys seal.now) (sends (setting_of D.step (S.keys seal.now)) filling.messages filling) result self.new draw.new }
        ensures learnt { self.new.rest.learnt ≡ self.old.rest.learnt }
    {
        let filled = draft.finish(packet);
        self.send_filled(filled, seal, draw)
    }
}
