//! The events of a client, whatever state it is in.

ghost use Rattle.std.specs.Prelude.{◌≡◌, Ok, Some, IfErr, IfOk, OnErr, OnOk, false, length, max, true};
ghost use Rattle.call_table.specs.Table.{call_no};
ghost use Rattle.draws.specs.Draws.{draw_after, word_after};
ghost use Rattle.envelope.specs.declared.parts.Dir.TheVariants.{Down};
ghost use Rattle.envelope.specs.declared.parts.Envelope.{Envelope};
ghost use Rattle.envelope.specs.Opening.{Opens};
ghost use Rattle.client_rules.specs.Asking.{attached, can_drop, dropped, submit_fault, submitted};
ghost use Rattle.client_rules.specs.Client.{Client, at_moment, calls_of};
ghost use Rattle.client_rules.specs.Events.{renewed};
ghost use Rattle.client_rules.specs.Learning.{ended};
ghost use Rattle.client_rules.specs.Taking.{take};
ghost use Rattle.client_core.specs.Flushed.{Flushes, setting_of};
ghost use Rattle.client_core.specs.declared.flush.Flush.TheVariants as flushed;
ghost use Rattle.client_core.specs.Holding.{is_open_now, kept_of, wished};
ghost use Rattle.client_core.specs.Keys.{HasKeys, keys_in};
ghost use Rattle.client_core.specs.Kept.{Stands};
ghost use Rattle.kifzaro.specs.Clients.{Comes, TellsDropped, TellsEnded, TellsHeard, TellsOpen, TellsSubmit};
ghost use Rattle.kifzaro.specs.Holding.{told_of};
ghost use Rattle.kifzaro.specs.declared.error.Error.TheVariants as errors;

use crate::error::Error;
use client_core::{CallNo, Flush, Holder, NotSent, Wish};
use draws::Draw;
use envelope::{Refusal, Seal};
use msg_ids::Moment;
use octets::Memory;
use std::alloc::Global;

/// A value comes to a place, and what was there is dropped: what that takes is proved once, whatever the value is.
pub(crate) fn put<T: Drop>(place: &mut Option<T>, value: T)
    ensures { place.new ≡ Some value }
{
    *place = Some(value);
}

/// A client submits a call.
pub(crate) fn submit(
    holder: &mut Holder,
    alloc: Global,
    body: &[u8],
    after: Option<CallNo>,
) -> Result<CallNo, Error>
    ensures refused { (client : Client) → Stands (kept_of holder.old) client → TellsSubmit client.has_ended (submit_fault body.now after client) result }
    ensures stands { OnOk result ((client : Client) → Stands (kept_of holder.old) client → Stands (kept_of holder.new) (submitted body.now after client)) }
    ensures call { IfOk result (λ call. (client : Client) → Stands (kept_of holder.old) client → call ≡ call_no (length (calls_of client))) }
    ensures keys { keys_in (kept_of holder.new) ≡ keys_in (kept_of holder.old) }
    ensures unchanged { OnErr result (holder.new ≡ holder.old) }
{
    if holder.has_ended() {
        return Err(Error::Ended);
    }
    Ok(holder.submit(alloc, body, after)?)
}

/// A connection of a client was opened.
pub(crate) fn attach(holder: &mut Holder) -> Result<(), Error>
    ensures refused { (client : Client) → Stands (kept_of holder.old) client → TellsEnded client.has_ended result }
    ensures stands { OnOk result ((client : Client) → Stands (kept_of holder.old) client → Stands (kept_of holder.new) (attached client)) }
    ensures keys { keys_in (kept_of holder.new) ≡ keys_in (kept_of holder.old) }
    ensures unchanged { OnErr result (holder.new ≡ holder.old) }
{
    if holder.has_ended() {
        return Err(Error::Ended);
    }
    holder.attach();
    Ok(())
}

/// An open client does as it is asked.
pub(crate) fn ask(holder: &mut Holder, wish: Wish) -> Result<(), Error>
    ensures refused { (client : Client) → Stands (kept_of holder.old) client → TellsOpen (is_open_now client) result }
    ensures stands { OnOk result ((client : Client) → Stands (kept_of holder.old) client → Stands (kept_of holder.new) (wished wish client)) }
    ensures keys { keys_in (kept_of holder.new) ≡ keys_in (kept_of holder.old) }
    ensures unchanged { OnErr result (holder.new ≡ holder.old) }
{
    if !holder.is_open() {
        return Err(Error::NotOpen);
    }
    holder.ask(wish);
    Ok(())
}

/// An open client is to have the answer to a call dropped.
pub(crate) fn drop_answer(holder: &mut Holder, call: CallNo) -> Result<(), Error>
    ensures refused { (client : Client) → Stands (kept_of holder.old) client → TellsDropped (is_open_now client) (can_drop call client) result }
    ensures stands { OnOk result ((client : Client) → Stands (kept_of holder.old) client → Stands (kept_of holder.new) (dropped call client)) }
    ensures keys { keys_in (kept_of holder.new) ≡ keys_in (kept_of holder.old) }
    ensures unchanged { OnErr result (holder.new ≡ holder.old) }
{
    if !holder.is_open() {
        return Err(Error::NotOpen);
    }
    match holder.drop_answer(call) {
        Ok(()) => Ok(()),
        Err(NotSent) => Err(Error::NotSent),
    }
}

/// A client that hasn't ended sends what is due at a moment; one that has sends nothing.
pub(crate) fn flush<S: Seal, D: Draw>(
    holder: &mut Holder,
    alloc: Global,
    now: Moment,
    seal: &S,
    draw: &mut D,
) -> Flush
    requires keys { HasKeys (S.keys seal.now) (keys_in (kept_of holder.old)) }
    ensures flushes { (client : Client) → Stands (kept_of holder.old) client → client.has_ended ≡ false
        → Flushes (setting_of D.step (S.keys seal.now)) S.lock (S.keys seal.now) now client draw.old result (kept_of holder.new) draw.new }
    ensures ended { (client : Client) → Stands (kept_of holder.old) client → client.has_ended ≡ true → (result ≡ flushed.Nothing) × (holder.new ≡ holder.old) × (draw.new ≡ draw.old) }
    ensures keys { keys_in (kept_of holder.new) ≡ keys_in (kept_of holder.old) }
{
    holder.flush(alloc, now, seal, draw)
}

/// A packet comes to a client at a moment: it takes one that opens, and of any other the moment alone counts. One that has
/// ended takes none.
#[tactic(auto, using(crate::proofs::HearingLemmas::comes_told, crate::proofs::HearingLemmas::heard_told, crate::proofs::HearingLemmas::stays_told))]
pub(crate) fn hear<S: Seal>(
    holder: Holder,
    alloc: Global,
    now: Moment,
    seal: &S,
    packet: &[u8],
) -> (Holder, Result<(), Error>)
    ensures told { (client : Client) → Stands (kept_of holder) client → client.has_ended ≡ false → TellsHeard S.lock (S.keys seal.now) (max client.now now) packet.now result.1 }
    ensures opened { (client : Client) (envelope : Envelope) → Stands (kept_of holder) client → client.has_ended ≡ false
        → Opens S.lock (S.keys seal.now) (max client.now now) Down packet.now envelope → Comes client (take now envelope client) result.0 result.1 }
    ensures other { (client : Client) → Stands (kept_of holder) client → client.has_ended ≡ false
        → ((envelope : Envelope) → Opens S.lock (S.keys seal.now) (max client.now now) Down packet.now envelope → ⊥) → Comes client (at_moment now client) result.0 result.1 }
    ensures ended { (client : Client) → Stands (kept_of holder) client → client.has_ended ≡ true → (result.0 ≡ holder) × (result.1 ≡ Ok tt) }
    ensures stays { (client : Client) → Stands (kept_of holder) client → IfErr result.1 (λ error. error ≡ errors.Memory → Stands (kept_of result.0) client) }
    ensures keys { keys_in (kept_of result.0) ≡ keys_in (kept_of holder) }
{
    let _state = holder.has_ended();
    let (holder, heard) = holder.on_packet(alloc, now, seal, packet);
    (holder, told(heard))
}

// Why a packet doesn't open, where it doesn't, or that memory ran out.
fn told(heard: Result<Option<Refusal>, Memory>) -> Result<(), Error>
    ensures { result ≡ told_of heard }
{
    match heard {
        Ok(None) => Ok(()),
        Ok(Some(why)) => Err(Error::Refused(why)),
        Err(Memory) => Err(Error::Memory),
    }
}

/// An open client goes on in another session, whose number is drawn.
pub(crate) fn renew<D: Draw>(holder: Holder, draw: &mut D) -> (Holder, Result<(), Error>)
    ensures refused { (client : Client) → Stands (kept_of holder) client → TellsOpen (is_open_now client) result.1 }
    ensures stands { OnOk result.1 ((client : Client) → Stands (kept_of holder) client → Stands (kept_of result.0) (renewed (word_after D.step 0 draw.old) client)) }
    ensures drawn { OnOk result.1 (draw.new ≡ draw_after D.step 1 draw.old) }
    ensures keys { keys_in (kept_of result.0) ≡ keys_in (kept_of holder) }
    ensures unchanged { OnErr result.1 ((result.0 ≡ holder) × (draw.new ≡ draw.old)) }
{
    if !holder.is_open() {
        return (holder, Err(Error::NotOpen));
    }
    (holder.renew(draw), Ok(()))
}

/// An open client ends.
pub(crate) fn end(holder: Holder) -> (Holder, Result<(), Error>)
    ensures refused { (client : Client) → Stands (kept_of holder) client → TellsOpen (is_open_now client) result.1 }
    ensures stands { OnOk result.1 ((client : Client) → Stands (kept_of holder) client → Stands (kept_of result.0) (ended client)) }
    ensures keys { keys_in (kept_of result.0) ≡ keys_in (kept_of holder) }
    ensures unchanged { OnErr result.1 (result.0 ≡ holder) }
{
    if !holder.is_open() {
        return (holder, Err(Error::NotOpen));
    }
    (holder.end(), Ok(()))
}
