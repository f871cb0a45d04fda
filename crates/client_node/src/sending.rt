//! What is sent over a connection.

ghost use Rattle.std.specs.Prelude.{◌≡◌, ◌++◌, ◌∷◌, [], ℕ, List, Option, IfErr, IfSome, IsSome, IsSomeAnd, OnOk};
ghost use Rattle.cipher_modes.specs.CounterMode.{CtrState};
ghost use Rattle.transport.specs.Forms.{IsSent};
ghost use Rattle.client_node.specs.Writes.{CountsBy, StaysBy, TellsMore, WroteBy};
ghost use Rattle.transport.specs.Spelt.{Spells, framed};

use crate::end::End;
use mt_edge::{Link, Put};
use octets::{Memory, Octets};
use std::alloc::Global;
use transport::laws::a_packet_more_is_spelt;
use transport::{Framed, Wire};

/// Writes a whole piece to a link.
///
/// # Errors
///
/// `Lost`: a write failed, and what is written is a front of the piece.
pub(crate) fn send<L: Link>(link: &mut L, piece: &[u8]) -> Result<(), End>
    ensures told { IfSome (L.told link.new) (λ after. IsSomeAnd (L.told link.old) (λ before. WroteBy result piece.now before after)) }
    ensures goes_on { IsSome (L.told link.old) → OnOk result (IsSome (L.told link.new)) }
    ensures first_fault { IsSome (L.told link.old) → L.faults link.old ≡ 0 → IsSome (L.told link.new) }
    ensures same_standing { L.standing link.new ≡ L.standing link.old }
    ensures counted { CountsBy result (L.faults link.old) (L.faults link.new) }
    ensures fails { IfErr result (λ end. end ≡ End.Lost) }
{
    let mut rest = piece;
    while !rest.is_empty() {
        match link.write(rest) {
            Put::Took(count) => rest = &rest[count..],
            Put::Failed => return Err(End::Lost),
        }
    }
    Ok(())
}

/// Sends a packet in a frame, for which it uses the room of a text that is spent.
///
/// # Errors
///
/// `Lost`: a write failed. `Memory`: memory ran out, and nothing is written.
#[tactic(auto, using(crate::proofs::Writing::stays_unless_memory))]
pub(crate) fn send_packet<L: Link>(
    alloc: Global,
    wire: &mut Wire<Framed>,
    link: &mut L,
    frame: &mut Octets,
    packet: &[u8],
) -> Result<(), End>
    requires sent { IsSent wire.old.form packet.now }
    ensures told { IfSome (L.told link.new) (λ after. IsSomeAnd (L.told link.old) (λ before. WroteBy result (framed wire.old packet.now) before after)) }
    ensures goes_on { IsSome (L.told link.old) → OnOk result (IsSome (L.told link.new)) }
    ensures first_fault { IsSome (L.told link.old) → L.faults link.old ≡ 0 → IsSome (L.told link.new) }
    ensures same_standing { L.standing link.new ≡ L.standing link.old }
    ensures counted { CountsBy result (L.faults link.old) (L.faults link.new) }
    ensures tells { TellsMore result ((to : Option CtrState) (packets : List (List ℕ)) (bytes : List ℕ) → Spells wire.old to packets bytes
        → Spells wire.new to (packets ++ packet.now ∷ []) (bytes ++ framed wire.old packet.now)) }
    ensures unchanged_on_memory { StaysBy result (wire.new ≡ wire.old) }
    ensures same_in { (wire.new.form ≡ wire.old.form) × (wire.new.held ≡ wire.old.held) × (wire.new.reading ≡ wire.old.reading) }
{
    a_packet_more_is_spelt();
    frame.truncate(0);
    match wire.put(alloc, packet, frame) {
        Ok(()) => send(link, frame.as_slice()),
        Err(Memory) => Err(End::Memory),
    }
}
