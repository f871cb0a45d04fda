//! What every seal promises, and the two that there are.

ghost use Rattle.std.specs.Prelude.{◌≡◌, ◌≤◌, ◌+◌, ◌%◌, ◌↔◌, [], IfOk, OnOk, OnErr, IsSome, IsTrue, length};
ghost use Rattle.auth_keys.specs.Rings.{entry_of};
ghost use Rattle.draws.specs.Draws.{draw_after, next_bytes, words_for};
ghost use Rattle.envelope.specs.Answers.{IfEnvelope, IfRefused};
ghost use Rattle.envelope.specs.Lawful.{OpensWhatItSealed};
ghost use Rattle.envelope.specs.Lock.{mt_lock, clear_lock};
ghost use Rattle.envelope.specs.Opening.{IsRefused, Opens};
ghost use Rattle.envelope.specs.Packet.{Sealed, body_max, envelope_with, least_padding, sealed_size, to_seal};

use crate::cipher::{ClearCipher, MtCipher};
use crate::limits::{SEALED_HEAD_BYTES, packet_bytes};
use crate::opening::{opened, opens_what_it_sealed};
use crate::parts::{Dir, Envelope, Head, Opened};
use crate::sealing::sealed;
use auth_keys::Ring;
use draws::Draw;
use msg_ids::Moment;
use octets::{Buffer, Memory, Octets};
use std::alloc::Global;
use std::marker::Model;

/// What seals envelopes and opens packets under the keys of a ring
/// (core.telegram.org/mtproto/description). Two seals differ in what they do with a text (`lock`) alone.
pub trait Seal {
    ghost use Rattle.std.specs.Prelude.{List};
    ghost use Rattle.auth_keys.specs.declared.ring.RingKey.{RingKey};
    ghost use Rattle.envelope.specs.Packet.{Lock};

    /// The message key of a plain text, and the text under it.
    ghost lock: { Lock };

    /// The keys of the ring.
    ghost keys: { Self → List RingKey };

    /// The ring.
    fn ring(&self) -> &Ring
        ensures { result.now ≡ keys self.now };

    /// Seals a body where it stands: the buffer has [`SEALED_HEAD_BYTES`] bytes of any kind, then the body, and room for
    /// the rest of [`packet_bytes`]. The padding is that of [`Seal::seal`]. Takes no memory.
    fn seal_in_place<D: Draw>(&self, text: Buffer, dir: Dir, head: &Head, draw: &mut D) -> Octets
        requires key { IsSome (entry_of head.now.key (keys self.now)) }
        requires front { 56 ≤ length text.bytes }
        requires words { length (to_seal text.bytes) % 4 ≡ 0 }
        requires short { length (to_seal text.bytes) ≤ body_max }
        requires room { sealed_size (length (to_seal text.bytes)) ≤ length text.bytes + text.room }
        ensures sealed { Sealed lock (keys self.now) dir (envelope_with head.now (to_seal text.bytes)) (next_bytes D.step (least_padding (length (to_seal text.bytes))) draw.old) result }
        ensures drawn { draw.new ≡ draw_after D.step (words_for (least_padding (length (to_seal text.bytes)))) draw.old };

    /// Opens a packet that comes at this moment in this direction: to the one envelope that it is the packet of, under
    /// a key of the ring that is permanent or expires later. It is refused for the first case that holds; the cases
    /// are those of [`Refusal`](crate::Refusal), in their order.
    fn unseal(&self, alloc: Global, now: Moment, dir: Dir, packet: &[u8]) -> Opened
        ensures envelope { IfEnvelope result (Opens lock (keys self.now) now dir packet.now) }
        ensures refused { IfRefused result (IsRefused lock (keys self.now) now dir packet.now) };

    /// A law: the seal opens what it sealed, and a packet that it refuses opens to nothing. Does nothing.
    fn opens_what_it_sealed()
        ensures { OpensWhatItSealed lock };

    /// Seals an envelope for a direction, under the key of the ring that it names. The body is whole words of 4 bytes,
    /// at most 1,044,480 bytes. The padding is the least of at least 12 bytes that makes the plain text whole blocks of
    /// 16; its bytes are drawn.
    ///
    /// # Errors
    ///
    /// `Memory`, and then nothing was drawn.
    final fn seal<D: Draw>(
        &self,
        alloc: Global,
        dir: Dir,
        env: &Envelope,
        draw: &mut D,
    ) -> Result<Octets, Memory>
        requires key { IsSome (entry_of env.now.key (keys self.now)) }
        requires words { length env.now.body % 4 ≡ 0 }
        requires short { length env.now.body ≤ body_max }
        ensures sealed { IfOk result (Sealed lock (keys self.now) dir env.now (next_bytes D.step (least_padding (length env.now.body)) draw.old)) }
        ensures drawn { OnOk result (draw.new ≡ draw_after D.step (words_for (least_padding (length env.now.body))) draw.old) }
        ensures unchanged_on_memory { OnErr result (draw.new ≡ draw.old) }
    {
        let room = Buffer::new(alloc, packet_bytes(env.body.as_slice().len()))?;
        Ok(self.seal_in(room, dir, env, draw))
    }

    /// As [`Seal::seal`], in room that was taken before: it takes no memory. The buffer has no byte yet, and room for
    /// [`packet_bytes`] bytes.
    final fn seal_in<D: Draw>(&self, room: Buffer, dir: Dir, env: &Envelope, draw: &mut D) -> Octets
        requires key { IsSome (entry_of env.now.key (keys self.now)) }
        requires words { length env.now.body % 4 ≡ 0 }
        requires short { length env.now.body ≤ body_max }
        requires empty { room.bytes ≡ [] }
        requires room { sealed_size (length env.now.body) ≤ room.room }
        ensures sealed { Sealed lock (keys self.now) dir env.now (next_bytes D.step (least_padding (length env.now.body)) draw.old) result }
        ensures drawn { draw.new ≡ draw_after D.step (words_for (least_padding (length env.now.body))) draw.old }
    {
        let mut text = room;
        text.push_all(&[0; SEALED_HEAD_BYTES]);
        text.push_all(env.body.as_slice());
        let head = Head {
            key: env.key,
            salt: env.salt,
            session: env.session,
            number: env.number,
            seq: env.seq,
        };
        self.seal_in_place(text, dir, &head, draw)
    }

    /// Whether the ring has the key with this identifier.
    final fn has(&self, key: u64) -> bool
        ensures { IsTrue result ↔ IsSome (entry_of key (keys self.now)) }
    {
        self.ring().find(key).is_some()
    }
}

/// The seal of MTProto 2.0. Contracts see the keys of its ring.
#[derive(Debug, Drop)]
pub struct MtSeal {
    ring: Ring,
}

impl Model for MtSeal {
    ghost use Rattle.std.specs.Prelude.{List};
    ghost use Rattle.auth_keys.specs.declared.ring.RingKey.{RingKey};

    ghost Value = { List RingKey };

    ghost view = { λ seal. seal.ring };
}

impl MtSeal {
    /// The seal of this ring.
    pub fn new(ring: Ring) -> MtSeal
        ensures { result ≡ ring }
    {
        MtSeal { ring }
    }
}

impl Seal for MtSeal {
    ghost lock = { mt_lock };

    ghost keys = { λ seal. seal };

    fn ring(&self) -> &Ring {
        &self.ring
    }

    fn seal_in_place<D: Draw>(&self, text: Buffer, dir: Dir, head: &Head, draw: &mut D) -> Octets {
        sealed::<MtCipher, D>(text, &self.ring, dir, head, draw)
    }

    fn unseal(&self, alloc: Global, now: Moment, dir: Dir, packet: &[u8]) -> Opened {
        opened::<MtCipher>(alloc, &self.ring, now, dir, packet)
    }

    fn opens_what_it_sealed() {
        opens_what_it_sealed::<MtCipher>();
    }
}

/// A seal without a cipher, for tests: a packet has the plain text as it is, and in place of the message key 16 bytes
/// for the direction, of which the first is 0 up and 1 down and the others are zero. Contracts see the keys of its ring.
#[derive(Debug, Drop)]
pub struct ClearSeal {
    ring: Ring,
}

impl Model for ClearSeal {
    ghost use Rattle.std.specs.Prelude.{List};
    ghost use Rattle.auth_keys.specs.declared.ring.RingKey.{RingKey};

    ghost Value = { List RingKey };

    ghost view = { λ seal. seal.ring };
}

impl ClearSeal {
    /// The seal of this ring.
    pub fn new(ring: Ring) -> ClearSeal
        ensures { result ≡ ring }
    {
        ClearSeal { ring }
    }
}

impl Seal for ClearSeal {
    ghost lock = { clear_lock };

    ghost keys = { λ seal. seal };

    fn ring(&self) -> &Ring {
        &self.ring
    }

    fn seal_in_place<D: Draw>(&self, text: Buffer, dir: Dir, head: &Head, draw: &mut D) -> Octets {
        sealed::<ClearCipher, D>(text, &self.ring, dir, head, draw)
    }

    fn unseal(&self, alloc: Global, now: Moment, dir: Dir, packet: &[u8]) -> Opened {
        opened::<ClearCipher>(alloc, &self.ring, now, dir, packet)
    }

    fn opens_what_it_sealed() {
        opens_what_it_sealed::<ClearCipher>();
    }
}
