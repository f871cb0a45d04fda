//! How a packet is looked at.

ghost use Rattle.std.specs.Prelude.{◌≡◌};

use crate::brought::read_envelope;
use crate::core_client::Core;
use call_table::laws::tables_tell;
use envelope::{Dir, Envelope, Opened, Refusal, Seal};
use msg_ids::Moment;
use octets::Memory;
use std::alloc::Global;

impl Core {
    ghost use Rattle.std.specs.Prelude.{◌≡◌, ◌≤◌, ◌<◌, [], ℕ, List, Some, true, false, max, IfOk, OnOk, OnErr};
    ghost use Rattle.envelope.specs.Opening.{Opens};
    ghost use Rattle.envelope.specs.declared.parts.Envelope.{Envelope};
    ghost use Rattle.envelope.specs.declared.parts.Dir.TheVariants.{Down};
    ghost use Rattle.call_table.specs.declared.call.CallNo.{CallNo};
    ghost use Rattle.call_table.specs.Table.{Done};
    ghost use Rattle.call_table.specs.Kept.{state_in};
    ghost use Rattle.client_rules.specs.Client.{Client, at_moment, is_open};
    ghost use Rattle.client_rules.specs.Taking.{is_for, take};
    ghost use Rattle.client_core.specs.Kept.{Stands};
    ghost use Rattle.client_core.specs.Own.{Came};
    ghost use Rattle.client_core.specs.Results.{BringsResult};
    ghost use Rattle.client_core.specs.Took.{TellsWhy, TookBy};

    /// Whether it has learnt a unique number of its session.
    pub(crate) fn is_open(&self) -> bool
        ensures open { result ≡ is_open self.now.rest }
        ensures opening { result ≡ false → self.now.rest.learnt ≡ [] }
        ensures client { (client : Client) → Stands self.now client → result ≡ is_open client }
    {
        !self.learnt.ids().is_empty()
    }

    /// Whether an envelope is for this client's session.
    fn is_for(&self, envelope: &Envelope) -> bool
        ensures told { (client : Client) → Stands self.now client → result ≡ is_for client envelope.now }
        ensures living { self.now.rest.has_ended ≡ false }
    {
        envelope.key == self.key && envelope.session == self.session && envelope.number % 2 == 1
    }

    /// Takes the room that so many messages may need.
    ///
    /// # Errors
    ///
    /// `Memory`: memory ran out.
    fn make_room(&mut self, count: usize) -> Result<(), Memory>
        ensures learnt { OnOk result (count ≤ self.new.room.learnt) }
        ensures resent { OnOk result (count ≤ self.new.room.resent) }
        ensures sessions { OnOk result (0 < self.new.room.sessions) }
        ensures rest { self.new.rest ≡ self.old.rest }
        ensures calls { self.new.calls ≡ self.old.calls }
    {
        self.learnt.reserve(count)?;
        self.waiting.resent.reserve(count)?;
        self.former.reserve(1)?;
        Ok(())
    }

    /// The packet of this envelope came at a moment. It answers whether the client has ended.
    ///
    /// # Errors
    ///
    /// `Memory`: memory ran out, and the client is as it was.
    fn take_envelope(
        &mut self,
        alloc: Global,
        now: Moment,
        envelope: &Envelope,
    ) -> Result<bool, Memory>
        ensures stands { (client : Client) → Stands self.old client → TookBy result self.new client (take now envelope.now client) }
        ensures open { is_open self.old.rest ≡ true → is_open self.new.rest ≡ true }
        ensures opening { self.old.rest.learnt ≡ [] → IfOk result (λ ended. ended ≡ false) }
        ensures learnt { OnErr result (self.new.rest.learnt ≡ self.old.rest.learnt) }
    {
        if !self.is_for(envelope) {
            self.reach(now);
            return Ok(false);
        }
        let lessons = read_envelope(alloc, envelope)?;
        self.make_room(lessons.len())?;
        self.reach(now);
        let ended = self.take_lessons(envelope.number, lessons);
        self.drop_idle_wish();
        Ok(ended)
    }

    /// A packet came at a moment. It answers whether the client has ended, and why the packet doesn't open, where it doesn't.
    ///
    /// # Errors
    ///
    /// `Memory`: memory ran out, and the client is as it was.
    pub(crate) fn receive<S: Seal>(
        &mut self,
        alloc: Global,
        now: Moment,
        seal: &S,
        packet: &[u8],
    ) -> (Result<bool, Memory>, Option<Refusal>)
        ensures opened { (client : Client) (envelope : Envelope) → Stands self.old client → Opens S.lock (S.keys seal.now) (max client.now now) Down packet.now envelope
            → TookBy result.0 self.new client (take now envelope client) }
        ensures other { (client : Client) → Stands self.old client → ((envelope : Envelope) → Opens S.lock (S.keys seal.now) (max client.now now) Down packet.now envelope → ⊥)
            → TookBy result.0 self.new client (at_moment now client) }
        ensures results { (client : Client) (envelope : Envelope) (call : CallNo) (answer : List ℕ) → Stands self.old client → Opens S.lock (S.keys seal.now) (max client.now now) Down packet.now envelope
            → BringsResult now envelope client call answer → IfOk result.0 (λ ended. state_in call self.new.calls.rows ≡ Some (Done answer)) }
        ensures why { (client : Client) → Stands self.old client → TellsWhy S.lock (S.keys seal.now) (max client.now now) packet.now result.0 result.1 }
        ensures came { (client : Client) → Stands self.old client → Came result.0 self.new client }
        ensures open { is_open self.old.rest ≡ true → is_open self.new.rest ≡ true }
        ensures opening { self.old.rest.learnt ≡ [] → IfOk result.0 (λ ended. ended ≡ false) }
        ensures learnt { OnErr result.0 (self.new.rest.learnt ≡ self.old.rest.learnt) }
    {
        tables_tell();
        S::opens_what_it_sealed();
        match seal.unseal(alloc, self.moment.later(now), Dir::Down, packet) {
            Opened::Envelope(envelope) => (self.take_envelope(alloc, now, &envelope), None),
            Opened::Refused(why) => {
                self.reach(now);
                (Ok(false), Some(why))
            }
            Opened::Memory => (Err(Memory), None),
        }
    }
}
