//! The packet of a client's message.

ghost use Rattle.std.specs.Prelude.{◌≡◌, ◌≤◌, ◌+◌, ◌%◌, [], IsSome, length};
ghost use Rattle.auth_keys.specs.Rings.{entry_of};
ghost use Rattle.envelope.specs.Packet.{body_max, sealed_size, to_seal};
ghost use Rattle.client_rules.specs.Client.{Client};
ghost use Rattle.client_rules.specs.Sending.{draw_after_packet, packet_of};
ghost use Rattle.client_core.specs.Flushed.{IsSealed, setting_of};
ghost use Rattle.client_core.specs.Kept.{Stands};

use crate::core_client::Core;
use draws::Draw;
use envelope::{Dir, Envelope, Head, Seal};
use octets::{Buffer, Octets};
use service_tl::Message;

impl Core {
    /// Seals a message under the client's session number and salt, in room that was taken before. What room is left over
    /// is given up.
    pub(crate) fn sealed<S: Seal, D: Draw>(
        &self,
        seal: &S,
        room: Buffer,
        message: Message,
        draw: &mut D,
    ) -> Octets
        requires key { IsSome (entry_of self.now.rest.key (S.keys seal.now)) }
        requires words { length message.body % 4 ≡ 0 }
        requires short { length message.body ≤ body_max }
        requires empty { room.bytes ≡ [] }
        requires room { sealed_size (length message.body) ≤ room.room }
        ensures sealed { (client : Client) → Stands self.now client
            → IsSealed S.lock (S.keys seal.now) (packet_of (setting_of D.step (S.keys seal.now)) client draw.old message) result }
        ensures drawn { draw.new ≡ draw_after_packet (setting_of D.step (S.keys seal.now)) draw.old message }
    {
        let envelope = Envelope {
            key: self.key,
            salt: self.salt,
            session: self.session,
            number: message.number,
            seq: message.seq,
            body: message.body,
        };
        fitted(seal.seal_in(room, Dir::Up, &envelope, draw))
    }

    /// Seals the body of a message where it stands, behind room for what a seal puts in front. What room is left over is
    /// given up.
    pub(crate) fn sealed_in_place<S: Seal, D: Draw>(
        &self,
        seal: &S,
        text: Buffer,
        number: u64,
        seq: u32,
        draw: &mut D,
    ) -> Octets
        requires key { IsSome (entry_of self.now.rest.key (S.keys seal.now)) }
        requires front { 56 ≤ length text.bytes }
        requires words { length (to_seal text.bytes) % 4 ≡ 0 }
        requires short { length (to_seal text.bytes) ≤ body_max }
        requires room { sealed_size (length (to_seal text.bytes)) ≤ length text.bytes + text.room }
        ensures sealed { (client : Client) → Stands self.now client
            → IsSealed S.lock (S.keys seal.now) (packet_of (setting_of D.step (S.keys seal.now)) client draw.old
            (record { number = number; seq = seq; body = to_seal text.bytes })) result }
        ensures drawn { draw.new ≡ draw_after_packet (setting_of D.step (S.keys seal.now)) draw.old (record { number = number; seq = seq; body = to_seal text.bytes }) }
    {
        let head = Head {
            key: self.key,
            salt: self.salt,
            session: self.session,
            number,
            seq,
        };
        fitted(seal.seal_in_place(text, Dir::Up, &head, draw))
    }
}

/// The same bytes, in no more room than they have. Where memory has none for that, they stay where they are.
fn fitted(packet: Octets) -> Octets
    ensures { result ≡ packet }
{
    let mut bytes = packet.into_vec();
    bytes.shrink_to_fit();
    Octets::from(bytes)
}
