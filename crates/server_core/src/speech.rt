//! What one session says in an event, in room that was taken before.

ghost use Rattle.std.specs.Prelude.{◌≡◌, ◌≤◌, ◌+◌, ◌^◌, ℕ, [], IfOk, IsSome};
ghost use Rattle.auth_keys.specs.Rings.{entry_of};
ghost use Rattle.server_output.specs.Batch.{packets_most};
ghost use Rattle.server_output.specs.Outs.{AreSent};
ghost use Rattle.server_rules.specs.Event.{Speaker};
ghost use Rattle.server_session.specs.Names.{name_kept};
ghost use Rattle.server_session.specs.Says.{Keys, Says, setting_of};
ghost use Rattle.server_session.specs.SessionState.{IsAt, Stands, key_of, numbers_left};
ghost use Rattle.server_core.specs.One.{says_its_own};

use draws::Draw;
use envelope::Seal;
use msg_ids::Moment;
use octets::Memory;
use server_output::{Delivery, OutgoingMessages, Outs, Packets, packets_most};
use server_session::SessionState;
use std::alloc::Global;

/// What one session owes in an event, and the room for its packets.
#[derive(Drop)]
pub(crate) struct Speech {
    pub(crate) owing: OutgoingMessages,
    pub(crate) packets: Packets,
    pub(crate) outs: Outs,
}

impl Speech {
    ghost use Rattle.server_core.specs.Speech.{IsRoomFor};

    /// Nothing owed yet, and room for so many messages, whose bodies have so many bytes together, and for their packets.
    ///
    /// # Errors
    ///
    /// `Memory`.
    pub(crate) fn new(alloc: Global, messages: usize, bytes: usize) -> Result<Speech, Memory>
        requires few { messages ≤ 2 ^ 32 }
        requires short { bytes ≤ 2 ^ 48 }
        ensures { IfOk result (IsRoomFor messages bytes) }
    {
        Ok(Speech {
            owing: OutgoingMessages::new(alloc, messages, bytes)?,
            packets: Packets::new(alloc, messages, bytes)?,
            outs: Outs::new(alloc, packets_most(messages, bytes))?,
        })
    }

    /// Sends all that the session owes; a session that owes nothing sends nothing. Takes no memory.
    pub(crate) fn sends<S: Seal, D: Draw>(
        self,
        standing: &mut SessionState,
        now: Moment,
        seal: &S,
        draw: &mut D,
    ) -> Outs
        requires few { self.owing.places_taken ≤ self.packets.messages }
        requires short { self.owing.bytes_taken ≤ self.packets.bytes }
        requires key { IsSome (entry_of (key_of standing.old) (S.keys seal.now)) }
        requires numbers { packets_most self.packets.messages self.packets.bytes ≤ numbers_left standing.old }
        requires outs { packets_most self.packets.messages self.packets.bytes ≤ self.outs.room }
        requires nothing { self.outs.outs ≡ [] }
        requires at { IsAt now standing.old }
        ensures stands { (keys : Keys) (speaker : Speaker D) → Says now standing.old self.owing draw.old speaker
            → Stands now standing.new (says_its_own (setting_of now D.step keys) speaker).session }
        ensures drawn { (keys : Keys) (speaker : Speaker D) → Says now standing.old self.owing draw.old speaker
            → draw.new ≡ (says_its_own (setting_of now D.step keys) speaker).draw }
        ensures sent { (keys : Keys) (speaker : Speaker D) → Says now standing.old self.owing draw.old speaker → speaker.sent ≡ []
            → AreSent S.lock (S.keys seal.now) (says_its_own (setting_of now D.step keys) speaker).sent result.outs }
        ensures same_name { name_kept standing.new ≡ name_kept standing.old }
        ensures at { IsAt now standing.new }
    {
        let Speech {
            owing,
            packets,
            mut outs,
        } = self;
        if owing.len() > 0 {
            let delivery = Delivery {
                owing: &owing,
                packets,
            };
            standing.sends(now, delivery, seal, draw, &mut outs);
        }
        outs
    }
}
