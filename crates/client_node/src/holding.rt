//! The events of a client, whatever state it is in.

ghost use Rattle.std.specs.Prelude.{◌≡◌, max, List, Option, length};
ghost use Rattle.auth_keys.specs.declared.ring.RingKey.{RingKey};
ghost use Rattle.envelope.specs.declared.parts.Envelope.{Envelope};
ghost use Rattle.client_rules.specs.Client.{Client};
ghost use Rattle.client_rules.specs.Events.{takes};
ghost use Rattle.client_core.specs.Flushed.{setting_of};
ghost use Rattle.client_core.specs.Keys.{HasKeys as HasKeysOf, keys_in};
ghost use Rattle.client_core.specs.Kept.{Stands};
ghost use Rattle.client_core.specs.Sealing.{TellsSealed};
ghost use Rattle.client_node.specs.Course.{Course, Opening, Open, attached_in, heard_in, renews};
ghost use Rattle.client_node.specs.Standing.{FlushedAs, HasKeys, HeardAs, IsOpened, KeepsKeys, StandsAs, StandsFor, count_of, kept_of, phase_of};

use crate::calls::{Cursor, must_renew};
use client_core::{Flush, Holder};
use draws::Draw;
use envelope::Seal;
use msg_ids::Moment;
use octets::Memory;
use std::alloc::Global;

/// A connection was opened. An ended client sends nothing again.
#[tactic(auto, using(crate::proofs::HolderLemmas::kept_in))]
pub(crate) fn attach(client: &mut Holder)
    ensures stands { (whole : Client) → StandsFor client.old whole → StandsFor client.new (attached_in (phase_of client.old) whole) }
    ensures phase { phase_of client.new ≡ phase_of client.old }
    ensures keys { KeepsKeys client.old client.new }
    ensures count { count_of client.new ≡ count_of client.old }
{
    let _state = client.has_ended();
    client.attach();
}

/// What is sent next. An ended client sends nothing.
#[tactic(auto, using(crate::proofs::HolderLemmas::living_has))]
pub(crate) fn flush<S: Seal, D: Draw>(
    client: &mut Holder,
    alloc: Global,
    now: Moment,
    seal: &S,
    draw: &mut D,
) -> Flush
    requires keys { HasKeys (S.keys seal.now) client.old }
    ensures flushes { (course : Course D) → StandsAs client.old draw.old course
        → FlushedAs (setting_of D.step (S.keys seal.now)) S.lock (S.keys seal.now) now course result client.new draw.new }
    ensures sealed { TellsSealed S.lock (S.keys seal.now) result }
    ensures keys { HasKeys (S.keys seal.now) client.new }
    ensures count { count_of client.new ≡ count_of client.old }
{
    let _state = client.has_ended();
    client.flush(alloc, now, seal, draw)
}

/// The client goes on in another session where it has to.
#[tactic(auto, using(crate::proofs::HolderLemmas::stays))]
pub(crate) fn renew<D: Draw>(client: Holder, cursor: &mut Cursor, draw: &mut D) -> Holder
    ensures renews { (course : Course D) → StandsAs client draw.old course → StandsAs result draw.new (renews D.step course) }
    ensures keys { KeepsKeys client result }
    ensures count { count_of result ≡ count_of client }
{
    if !must_renew(&client, cursor) {
        return client;
    }
    client.renew(draw)
}

/// A packet came. An ended client takes none.
///
/// # Errors
///
/// `Memory`: memory ran out, and the client is as it was.
pub(crate) fn hear<S: Seal>(
    client: Holder,
    alloc: Global,
    now: Moment,
    seal: &S,
    packet: &[u8],
) -> (Holder, Result<(), Memory>)
    ensures hears { (whole : Client) (opened : Option Envelope) → StandsFor client whole → IsOpened S.lock (S.keys seal.now) (max whole.now now) packet.now opened
        → HeardAs (phase_of client) whole (heard_in (phase_of client) now opened whole) result.0 result.1 }
    ensures keys { KeepsKeys client result.0 }
    ensures count { count_of result.0 ≡ count_of client }
{
    let _state = client.has_ended();
    let (client, taken) = client.on_packet(alloc, now, seal, packet);
    match taken {
        Ok(_why) => (client, Ok(())),
        Err(memory) => (client, Err(memory)),
    }
}
