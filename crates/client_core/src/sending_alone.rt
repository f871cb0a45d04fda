//! What a client sends alone, at a flush.

ghost use Rattle.std.specs.Prelude.{◌≡◌, ◌≤◌, ◌<◌, ◌∷◌, [], Some, None, IfOk, OnOk, IsSome, nat_lt, length};
ghost use Rattle.auth_keys.specs.Rings.{entry_of};
ghost use Rattle.call_table.specs.Kept.{state_in};
ghost use Rattle.call_table.specs.Table.{IsGiven, Sent, group_of};
ghost use Rattle.call_table.specs.declared.call.Group.TheVariants.{Alone};
ghost use Rattle.envelope.specs.Packet.{body_max, sealed_size};
ghost use Rattle.msg_ids.specs.Counters.{room};
ghost use Rattle.client_rules.specs.Client.{Client, calls_of};
ghost use Rattle.client_rules.specs.Flush.{binding_alone, first_marked, room_min};
ghost use Rattle.client_core.specs.Calling.{marked_in};
ghost use Rattle.client_core.specs.Flushed.{Flushes, setting_of};
ghost use Rattle.client_core.specs.Kept.{Stands};
ghost use Rattle.client_core.specs.Sound.{IsSendable};

use crate::calling::Marked;
use crate::core_client::Core;
use crate::flush::Flush;
use crate::lone::Lone;
use draws::Draw;
use envelope::Seal;
use msg_ids::Moment;
use octets::Memory;
use service_tl::Message;
use std::alloc::Global;

/// How many further numbers there have to be.
const ROOM_MIN: u64 = 2_048;

impl Core {
    /// Whether there may be too few numbers for a packet.
    pub(crate) fn is_spent(&self) -> bool
        ensures kept { result ≡ nat_lt (room self.now.rest.counters) room_min }
        ensures client { (client : Client) → Stands self.now client → nat_lt (room client.counters) room_min ≡ result }
    {
        self.numbers.room() < ROOM_MIN
    }

    /// Sends a binding again, alone, where there are numbers left.
    pub(crate) fn flush_binding<S: Seal, D: Draw>(
        &mut self,
        alloc: Global,
        now: Moment,
        message: Message,
        seal: &S,
        draw: &mut D,
    ) -> Flush
        requires key { IsSome (entry_of self.old.rest.key (S.keys seal.now)) }
        requires sendable { IsSendable message }
        requires alone { binding_alone self.old.rest.temporary ≡ Some message }
        ensures flushes { (client : Client) → Stands self.old client
            → Flushes (setting_of D.step (S.keys seal.now)) S.lock (S.keys seal.now) now client draw.old result self.new draw.new }
        ensures learnt { self.new.rest.learnt ≡ self.old.rest.learnt }
    {
        if self.is_spent() {
            return Flush::Spent;
        }
        match Lone::new(alloc, message) {
            Err(Memory) => Flush::Memory,
            Ok(lone) => Flush::Packet(self.send_binding(now, lone, seal, draw)),
        }
    }

    /// Sends a call again, alone, where there are numbers left.
    pub(crate) fn flush_call<S: Seal, D: Draw>(
        &mut self,
        alloc: Global,
        now: Moment,
        marked: Marked,
        seal: &S,
        draw: &mut D,
    ) -> Flush
        requires key { IsSome (entry_of self.old.rest.key (S.keys seal.now)) }
        requires given { IsGiven marked.call self.old.calls.rows }
        requires sent { state_in marked.call self.old.calls.rows ≡ Some Sent }
        requires sendable { IsSendable marked.message }
        ensures flushes { (client : Client) → Stands self.old client → binding_alone client.temporary ≡ None
            → Some (marked_in marked) ≡ first_marked (calls_of client) (group_of Alone (calls_of client))
            → Flushes (setting_of D.step (S.keys seal.now)) S.lock (S.keys seal.now) now client draw.old result self.new draw.new }
        ensures learnt { self.new.rest.learnt ≡ self.old.rest.learnt }
    {
        if self.is_spent() {
            return Flush::Spent;
        }
        let Marked { call, message } = marked;
        match self.take_lone(alloc, message) {
            Err(Memory) => Flush::Memory,
            Ok(lone) => Flush::Packet(self.send_call(now, call, lone, seal, draw)),
        }
    }

    /// Takes what a call needs that goes again, alone.
    ///
    /// # Errors
    ///
    /// `Memory`: memory ran out.
    fn take_lone(&mut self, alloc: Global, message: Message) -> Result<Lone, Memory>
        requires short { length message.body ≤ body_max }
        ensures message { IfOk result (λ lone. lone.message ≡ message) }
        ensures inner { IfOk result (λ lone. lone.inner ≡ message.number ∷ []) }
        ensures packet { IfOk result (λ lone. lone.packet ≡ record { bytes = []; room = sealed_size (length message.body) }) }
        ensures reserved { OnOk result (0 < self.new.calls.room) }
        ensures stands { (client : Client) → Stands self.old client → Stands self.new client }
        ensures rest { self.new.rest ≡ self.old.rest }
        ensures rows { self.new.calls.rows ≡ self.old.calls.rows }
    {
        self.calls.reserve(alloc, 1)?;
        Lone::new(alloc, message)
    }
}
