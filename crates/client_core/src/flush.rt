//! What a client sends next.

ghost use Rattle.std.specs.Prelude.{◌≡◌, ◌≤◌, ◌+◌, ◌-◌, [], None, IfOk, IfSome, IsSome, min, nat_lt, false, true, OnOk, vec_len, vec_capacity, length};
ghost use Rattle.auth_keys.specs.Rings.{entry_of};
ghost use Rattle.call_table.specs.Table.{group_of};
ghost use Rattle.call_table.specs.Kept.{numbers_in};
ghost use Rattle.call_table.specs.declared.call.Group.TheVariants.{Alone};
ghost use Rattle.containers.specs.Container.{bytes_max, container_head};
ghost use Rattle.envelope.specs.Packet.{sealed_size};
ghost use Rattle.msg_ids.specs.Counters.{room as numbers_left};
ghost use Rattle.client_rules.specs.Client.{Client, at_moment, calls_of};
ghost use Rattle.client_rules.specs.Filling.{fills, numbers_max};
ghost use Rattle.client_rules.specs.Flush.{binding_alone, first_marked, has_any, room_min, sends};
ghost use Rattle.client_core.specs.Asked.{HasNoRoom, HasRoom};
ghost use Rattle.client_core.specs.Draft.{HasRoomFor, nothing_yet};
ghost use Rattle.client_core.specs.Due.{is_due_beside};
ghost use Rattle.client_core.specs.Flushed.{Flushes, Sent, setting_of};
ghost use Rattle.client_core.specs.Keys.{HasKeys, keys_in};
ghost use Rattle.client_core.specs.Kept.{Stands};
ghost use Rattle.client_core.specs.Owed.{asked_count, calls_most, needs_binding, owed_bytes, owed_numbers};
ghost use Rattle.client_core.specs.Sealing.{TellsSealed};

use crate::asking::BindRoom;
use crate::calling::call_alone;
use crate::core_client::Core;
use crate::filling::Draft;
use crate::lone::binding_alone;
use crate::open::OpenClient;
use crate::opening::OpeningClient;
use containers::CONTAINER_HEAD_BYTES;
use containers::laws::container_sizes;
use draws::Draw;
use envelope::{Seal, packet_bytes};
use msg_ids::Moment;
use octets::{Buffer, Memory, Octets};
use std::alloc::Global;

/// What a flush gives.
#[derive(Debug, Drop)]
pub enum Flush {
    /// The packet that is to be sent.
    Packet(Octets),
    /// Nothing is to be sent.
    Nothing,
    /// Something is to be sent, and there may not be numbers for it.
    Spent,
    /// Memory ran out.
    Memory,
}

/// Room for a packet: for lists of the acknowledgements and of the numbers of calls, a binding call, the messages, and the
/// packet.
#[derive(Drop)]
pub(crate) struct PacketRoom {
    acks: Vec<u64>,
    states: Vec<u64>,
    binding: BindRoom,
    draft: Draft,
    packet: Buffer,
}

impl Core {
    /// Takes room for a packet of what waits: for the bytes that may go, worked out first, and no more; and at least for the
    /// numbers of what may go.
    fn packet_room(&self, alloc: Global) -> Result<PacketRoom, Memory>
        ensures no_acks { IfOk result (λ room. (room.acks.items ≡ []) × (vec_len room.acks ≡ 0)) }
        ensures acks { IfOk result (λ room. length self.now.calls.acks ≤ vec_capacity room.acks) }
        ensures no_states { IfOk result (λ room. (room.states.items ≡ []) × (vec_len room.states ≡ 0)) }
        ensures states { IfOk result (λ room. asked_count self.now.rest.waiting.states self.now.calls.rows ≤ vec_capacity room.states) }
        ensures binding { IfOk result (λ room. needs_binding self.now.rest ≡ true → HasRoom room.binding) }
        ensures no_binding { IfOk result (λ room. needs_binding self.now.rest ≡ false → HasNoRoom room.binding) }
        ensures draft { IfOk result (λ room. room.draft ≡ record nothing_yet { room = min (owed_bytes self.now) (bytes_max - container_head); numbers = room.draft.numbers }) }
        ensures numbers { IfOk result (λ room. owed_numbers self.now ≤ room.draft.numbers) }
        ensures packet { IfOk result (λ room. room.packet ≡ record { bytes = []; room = sealed_size (container_head + min (owed_bytes self.now) (bytes_max - container_head)) }) }
    {
        container_sizes();
        let bytes = self.owed_bytes();
        Ok(PacketRoom {
            acks: Vec::with_capacity(alloc, self.calls.acks())?,
            states: Vec::with_capacity(alloc, self.asked_count())?,
            binding: BindRoom::new(alloc, self.needs_binding())?,
            draft: Draft::new(alloc, bytes, self.owed_numbers())?,
            packet: Buffer::new(alloc, packet_bytes(CONTAINER_HEAD_BYTES + bytes))?,
        })
    }

    /// Takes room for the calls of a packet.
    ///
    /// # Errors
    ///
    /// `Memory`: memory ran out, and the client is as it was.
    fn reserve_calls(&mut self, alloc: Global) -> Result<(), Memory>
        ensures reserved { OnOk result (calls_most self.new ≤ self.new.calls.room) }
        ensures stands { (client : Client) → Stands self.old client → Stands self.new client }
        ensures rest { self.new.rest ≡ self.old.rest }
        ensures acks { self.new.calls.acks ≡ self.old.calls.acks }
        ensures rows { self.new.calls.rows ≡ self.old.calls.rows }
    {
        let count = self.calls_most();
        self.calls.reserve(alloc, count)
    }

    /// Fills a packet and sends it, where it has a message.
    fn send_fresh<S: Seal, D: Draw>(
        &mut self,
        now: Moment,
        room: PacketRoom,
        seal: &S,
        draw: &mut D,
    ) -> Octets
        requires key { IsSome (entry_of self.old.rest.key (S.keys seal.now)) }
        requires perm { IfSome self.old.rest.temporary (λ temporary. IsSome (entry_of temporary.perm (S.keys seal.now))) }
        requires numbers { nat_lt (numbers_left self.old.rest.counters) room_min ≡ false }
        requires reserved { calls_most self.old ≤ self.old.calls.room }
        requires no_acks { (room.acks.items ≡ []) × (vec_len room.acks ≡ 0) }
        requires acks { length self.old.calls.acks ≤ vec_capacity room.acks }
        requires no_states { (room.states.items ≡ []) × (vec_len room.states ≡ 0) }
        requires states { asked_count self.old.rest.waiting.states self.old.calls.rows ≤ vec_capacity room.states }
        requires binding { needs_binding self.old.rest ≡ true → HasRoom room.binding }
        requires draft { room.draft ≡ record nothing_yet { room = room.draft.room; numbers = room.draft.numbers } }
        requires owed { HasRoomFor (owed_bytes self.old) room.draft }
        requires places { owed_numbers self.old ≤ room.draft.numbers }
        requires no_packet { room.packet.bytes ≡ [] }
        requires packet { sealed_size (container_head + room.draft.room) ≤ room.packet.room }
        ensures sent { (client : Client) → Stands self.old client
            → has_any (fills (setting_of D.step (S.keys seal.now)) (at_moment now client) draw.old).messages ≡ true
            → Sent S.lock (S.keys seal.now) (sends (setting_of D.step (S.keys seal.now)) (fills (setting_of D.step (S.keys seal.now)) (at_moment now client) draw.old).messages
            (fills (setting_of D.step (S.keys seal.now)) (at_moment now client) draw.old)) result self.new draw.new }
        ensures learnt { self.new.rest.learnt ≡ self.old.rest.learnt }
    {
        let PacketRoom {
            acks,
            states,
            binding,
            mut draft,
            packet,
        } = room;
        self.at(now);
        self.fills(&mut draft, acks, states, binding, seal, draw);
        self.send_draft(draft, packet, seal, draw)
    }

    /// Takes room for what waits and sends a packet of it, where it has a message.
    fn flush_due<S: Seal, D: Draw>(
        &mut self,
        alloc: Global,
        now: Moment,
        seal: &S,
        draw: &mut D,
    ) -> Flush
        requires key { IsSome (entry_of self.old.rest.key (S.keys seal.now)) }
        requires perm { IfSome self.old.rest.temporary (λ temporary. IsSome (entry_of temporary.perm (S.keys seal.now))) }
        requires numbers { nat_lt (numbers_left self.old.rest.counters) room_min ≡ false }
        ensures flushes { (client : Client) → Stands self.old client → binding_alone client.temporary ≡ None
            → first_marked (calls_of client) (group_of Alone (calls_of client)) ≡ None
            → has_any (fills (setting_of D.step (S.keys seal.now)) (at_moment now client) draw.old).messages ≡ true
            → nat_lt (numbers_left client.counters) room_min ≡ false
            → Flushes (setting_of D.step (S.keys seal.now)) S.lock (S.keys seal.now) now client draw.old result self.new draw.new }
        ensures learnt { self.new.rest.learnt ≡ self.old.rest.learnt }
    {
        match self.reserve_calls(alloc) {
            Err(Memory) => Flush::Memory,
            Ok(()) => match self.packet_room(alloc) {
                Err(Memory) => Flush::Memory,
                Ok(room) => Flush::Packet(self.send_fresh(now, room, seal, draw)),
            },
        }
    }

    /// Sends what waits and the queued calls, where nothing goes alone.
    fn flush_rest<S: Seal, D: Draw>(
        &mut self,
        alloc: Global,
        now: Moment,
        seal: &S,
        draw: &mut D,
    ) -> Flush
        requires key { IsSome (entry_of self.old.rest.key (S.keys seal.now)) }
        requires perm { IfSome self.old.rest.temporary (λ temporary. IsSome (entry_of temporary.perm (S.keys seal.now))) }
        ensures flushes { (client : Client) → Stands self.old client → binding_alone client.temporary ≡ None
            → first_marked (calls_of client) (group_of Alone (calls_of client)) ≡ None
            → Flushes (setting_of D.step (S.keys seal.now)) S.lock (S.keys seal.now) now client draw.old result self.new draw.new }
        ensures learnt { self.new.rest.learnt ≡ self.old.rest.learnt }
    {
        self.due_tells::<S, D>(seal);
        if !self.is_due_beside() {
            self.at(now);
            self.gives_up::<D>();
            return Flush::Nothing;
        }
        if self.is_spent() {
            return Flush::Spent;
        }
        self.flush_due(alloc, now, seal, draw)
    }

    /// What is sent next: a binding that is to go again, alone; else the first call that is, alone; else what waits and
    /// the queued calls.
    pub(crate) fn flush<S: Seal, D: Draw>(
        &mut self,
        alloc: Global,
        now: Moment,
        seal: &S,
        draw: &mut D,
    ) -> Flush
        requires key { IsSome (entry_of self.old.rest.key (S.keys seal.now)) }
        requires perm { IfSome self.old.rest.temporary (λ temporary. IsSome (entry_of temporary.perm (S.keys seal.now))) }
        ensures flushes { (client : Client) → Stands self.old client
            → Flushes (setting_of D.step (S.keys seal.now)) S.lock (S.keys seal.now) now client draw.old result self.new draw.new }
        ensures learnt { self.new.rest.learnt ≡ self.old.rest.learnt }
    {
        match binding_alone(alloc, &self.temporary) {
            Err(Memory) => Flush::Memory,
            Ok(Some(message)) => self.flush_binding(alloc, now, message, seal, draw),
            Ok(None) => match call_alone(alloc, &self.calls) {
                Err(Memory) => Flush::Memory,
                Ok(Some(marked)) => self.flush_call(alloc, now, marked, seal, draw),
                Ok(None) => self.flush_rest(alloc, now, seal, draw),
            },
        }
    }
}

impl OpeningClient {
    /// What is sent next, at a moment: a binding that is to go again, alone; else the first call that is, alone; else what
    /// waits and the queued calls, in order, as far as they fit into one packet. `Nothing` comes exactly where nothing is
    /// to be sent; queued calls whose turn came may have been refused with code 0 by then. `Spent` comes exactly where
    /// something is and there are fewer than 2,048 further numbers, and changes nothing. By `Memory` the client is as it
    /// was, and so is the draw. The seal has the client's key, and the permanent one to which that is to be bound.
    pub fn flush<S: Seal, D: Draw>(
        &mut self,
        alloc: Global,
        now: Moment,
        seal: &S,
        draw: &mut D,
    ) -> Flush
        requires keys { HasKeys (S.keys seal.now) (keys_in self.old) }
        ensures flushes { (client : Client) → Stands self.old client
            → Flushes (setting_of D.step (S.keys seal.now)) S.lock (S.keys seal.now) now client draw.old result self.new draw.new }
        ensures sealed { TellsSealed S.lock (S.keys seal.now) result }
        ensures keys { keys_in self.new ≡ keys_in self.old }
        ensures session { self.new.rest.session ≡ self.old.rest.session }
        ensures count { length self.new.calls.rows ≡ length self.old.calls.rows }
    {
        self.core.flush(alloc, now, seal, draw)
    }
}

impl OpenClient {
    /// What is sent next, at a moment: a binding that is to go again, alone; else the first call that is, alone; else what
    /// waits and the queued calls, in order, as far as they fit into one packet. `Nothing` comes exactly where nothing is
    /// to be sent; queued calls whose turn came may have been refused with code 0 by then. `Spent` comes exactly where
    /// something is and there are fewer than 2,048 further numbers, and changes nothing. By `Memory` the client is as it
    /// was, and so is the draw. The seal has the client's key, and the permanent one to which that is to be bound.
    pub fn flush<S: Seal, D: Draw>(
        &mut self,
        alloc: Global,
        now: Moment,
        seal: &S,
        draw: &mut D,
    ) -> Flush
        requires keys { HasKeys (S.keys seal.now) (keys_in self.old) }
        ensures flushes { (client : Client) → Stands self.old client
            → Flushes (setting_of D.step (S.keys seal.now)) S.lock (S.keys seal.now) now client draw.old result self.new draw.new }
        ensures sealed { TellsSealed S.lock (S.keys seal.now) result }
        ensures keys { keys_in self.new ≡ keys_in self.old }
        ensures session { self.new.rest.session ≡ self.old.rest.session }
        ensures count { length self.new.calls.rows ≡ length self.old.calls.rows }
    {
        self.core.flush(alloc, now, seal, draw)
    }
}
