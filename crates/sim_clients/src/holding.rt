//! The events of a client, whatever state it is in.

ghost use Rattle.std.specs.Prelude.{◌≡◌, ◌≢◌, ℕ, None, IfErr, IfOk, OnErr, OnOk, List, Option, false, is_some, length, max, true};
ghost use Rattle.call_table.specs.Table.{call_no};
ghost use Rattle.draws.specs.Draws.{draw_after, word_after};
ghost use Rattle.envelope.specs.declared.parts.Dir.{Dir as Way};
ghost use Rattle.envelope.specs.declared.parts.Dir.TheVariants.{Down};
ghost use Rattle.envelope.specs.declared.parts.Envelope.{Envelope};
ghost use Rattle.client_rules.specs.Asking.{attached, dropped};
ghost use Rattle.client_rules.specs.Client.{Client, calls_of};
ghost use Rattle.client_rules.specs.Events.{renewed, takes, unless_fault};
ghost use Rattle.client_rules.specs.Learning.{ended};
ghost use Rattle.client_rules.specs.Flush.{flush};
ghost use Rattle.client_core.specs.Flushed.{Flushes, setting_of};
ghost use Rattle.client_core.specs.Holding.{is_open_now, kept_of, wished};
ghost use Rattle.client_core.specs.Keys.{HasKeys, keys_in};
ghost use Rattle.client_core.specs.Kept.{Stands};
ghost use Rattle.world_rules.specs.Refusals.{goes_on, nothing_more, stands_open, undropped, unsent};
ghost use Rattle.world_rules.specs.World.{Seat};
ghost use Rattle.sim_clients.specs.declared.fault.SeatFault.TheVariants as told;
ghost use Rattle.sim_clients.specs.Held.{TakenSo, taken_in};
ghost use Rattle.sim_clients.specs.Standing.{IsReading};
ghost use Rattle.sim_clients.specs.Told.{TellsRefusal, TellsSent, TellsUnsent, not_taken};

use crate::fault::SeatFault;
use crate::sent::Sent;
use client_core::{CallNo, Flush, Holder, NotSent, SubmitFault, Wish};
use draws::Draw;
use envelope::laws::opens_what_it_sealed;
use envelope::{Dir, Opened, Seal};
use msg_ids::Moment;
use std::alloc::Global;

/// Whether bytes that come down open at a moment.
pub(crate) fn opens<S: Seal>(
    alloc: Global,
    now: Moment,
    seal: &S,
    bytes: &[u8],
) -> Result<bool, SeatFault>
    ensures refused { TellsRefusal None result }
    ensures told { (opens : ℕ → Way → List ℕ → Option Envelope) → IsReading S.lock (S.keys seal.now) opens → IfOk result (λ told. told ≡ is_some (opens now Down bytes.now)) }
{
    opens_what_it_sealed::<S>();
    match seal.unseal(alloc, now, Dir::Down, bytes) {
        Opened::Envelope(_) => Ok(true),
        Opened::Refused(_) => Ok(false),
        Opened::Memory => Err(SeatFault::Memory),
    }
}

/// A client submits a call.
pub(crate) fn submit(
    holder: &mut Holder,
    alloc: Global,
    body: &[u8],
    after: Option<CallNo>,
) -> Result<CallNo, SeatFault>
    ensures refused { (seat : Seat) → Stands (kept_of holder.old) seat.client → TellsRefusal (goes_on seat (not_taken body.now after)) result }
    ensures stands { OnOk result ((client : Client) → Stands (kept_of holder.old) client → Stands (kept_of holder.new) (unless_fault body.now after client)) }
    ensures call { IfOk result (λ call. (client : Client) → Stands (kept_of holder.old) client → call ≡ call_no (length (calls_of client))) }
    ensures keys { keys_in (kept_of holder.new) ≡ keys_in (kept_of holder.old) }
    ensures unchanged { OnErr result (holder.new ≡ holder.old) }
{
    if holder.has_ended() {
        return Err(SeatFault::WrongState);
    }
    Ok(holder.submit(alloc, body, after)?)
}

/// A connection of a client was opened.
pub(crate) fn attach(holder: &mut Holder) -> Result<(), SeatFault>
    ensures refused { (seat : Seat) → Stands (kept_of holder.old) seat.client → TellsRefusal (goes_on seat nothing_more) result }
    ensures takes_no_memory { IfErr result (λ fault. fault ≢ told.Memory) }
    ensures stands { OnOk result ((client : Client) → Stands (kept_of holder.old) client → Stands (kept_of holder.new) (attached client)) }
    ensures keys { keys_in (kept_of holder.new) ≡ keys_in (kept_of holder.old) }
    ensures unchanged { OnErr result (holder.new ≡ holder.old) }
{
    if holder.has_ended() {
        return Err(SeatFault::WrongState);
    }
    holder.attach();
    Ok(())
}

/// An open client does as it is asked.
pub(crate) fn wish(holder: &mut Holder, wish: Wish) -> Result<(), SeatFault>
    ensures refused { (seat : Seat) → Stands (kept_of holder.old) seat.client → TellsRefusal (stands_open seat nothing_more) result }
    ensures takes_no_memory { IfErr result (λ fault. fault ≢ told.Memory) }
    ensures stands { OnOk result ((client : Client) → Stands (kept_of holder.old) client → Stands (kept_of holder.new) (wished wish client)) }
    ensures keys { keys_in (kept_of holder.new) ≡ keys_in (kept_of holder.old) }
    ensures unchanged { OnErr result (holder.new ≡ holder.old) }
{
    if !holder.is_open() {
        return Err(SeatFault::WrongState);
    }
    holder.ask(wish);
    Ok(())
}

/// An open client is to have the answer to a call dropped.
pub(crate) fn drop_answer(holder: &mut Holder, call: CallNo) -> Result<(), SeatFault>
    ensures refused { (seat : Seat) → Stands (kept_of holder.old) seat.client → TellsRefusal (stands_open seat (undropped call.n)) result }
    ensures takes_no_memory { IfErr result (λ fault. fault ≢ told.Memory) }
    ensures stands { OnOk result ((client : Client) → Stands (kept_of holder.old) client → Stands (kept_of holder.new) (dropped call client)) }
    ensures keys { keys_in (kept_of holder.new) ≡ keys_in (kept_of holder.old) }
    ensures unchanged { OnErr result (holder.new ≡ holder.old) }
{
    if !holder.is_open() {
        return Err(SeatFault::WrongState);
    }
    drops(holder, call)
}

fn drops(holder: &mut Holder, call: CallNo) -> Result<(), SeatFault>
    requires open { is_open_now (kept_of holder.old).rest ≡ true }
    ensures refused { (seat : Seat) → Stands (kept_of holder.old) seat.client → TellsRefusal (undropped call.n seat) result }
    ensures takes_no_memory { IfErr result (λ fault. fault ≢ told.Memory) }
    ensures stands { OnOk result ((whole : Client) → Stands (kept_of holder.old) whole → Stands (kept_of holder.new) (dropped call whole)) }
    ensures keys { keys_in (kept_of holder.new) ≡ keys_in (kept_of holder.old) }
    ensures unchanged { OnErr result (holder.new ≡ holder.old) }
{
    if call.n == 0 || call.n > holder.calls() as u64 {
        return Err(SeatFault::Submit(SubmitFault::NoSuchCall));
    }
    match holder.drop_answer(call) {
        Ok(()) => Ok(()),
        Err(NotSent) => Err(SeatFault::NotSent),
    }
}

/// A client sends what is due at a moment.
pub(crate) fn flush<S: Seal, D: Draw>(
    holder: &mut Holder,
    alloc: Global,
    now: Moment,
    seal: &S,
    draw: &mut D,
) -> Result<Option<Sent>, SeatFault>
    requires keys { HasKeys (S.keys seal.now) (keys_in (kept_of holder.old)) }
    ensures refused { (seat : Seat) → Stands (kept_of holder.old) seat.client
        → TellsUnsent (goes_on seat nothing_more) (goes_on seat (λ seat. unsent (flush (setting_of D.step (S.keys seal.now)) now seat.client draw.old).answer)) result }
    ensures sent { (client : Client) → Stands (kept_of holder.old) client
        → IfOk result (TellsSent S.lock (S.keys seal.now) (flush (setting_of D.step (S.keys seal.now)) now client draw.old).answer) }
    ensures stands { (client : Client) → Stands (kept_of holder.old) client
        → OnOk result (Stands (kept_of holder.new) (flush (setting_of D.step (S.keys seal.now)) now client draw.old).client) }
    ensures drawn { (client : Client) → Stands (kept_of holder.old) client
        → OnOk result (draw.new ≡ (flush (setting_of D.step (S.keys seal.now)) now client draw.old).draw) }
    ensures keys { keys_in (kept_of holder.new) ≡ keys_in (kept_of holder.old) }
    ensures unchanged { (client : Client) → Stands (kept_of holder.old) client → OnErr result (Stands (kept_of holder.new) client) }
    ensures same_draw { (client : Client) → Stands (kept_of holder.old) client → OnErr result (draw.new ≡ draw.old) }
{
    if holder.has_ended() {
        return Err(SeatFault::WrongState);
    }
    let session = holder.session();
    match holder.flush(alloc, now, seal, draw) {
        Flush::Packet(bytes) => Ok(Some(Sent { session, bytes })),
        Flush::Nothing => Ok(None),
        Flush::Spent => Err(SeatFault::Spent),
        Flush::Memory => Err(SeatFault::Memory),
    }
}

/// Bytes come down to a client at a moment. An ended client takes none.
pub(crate) fn take<S: Seal>(
    holder: Holder,
    alloc: Global,
    now: Moment,
    seal: &S,
    bytes: &[u8],
) -> (Holder, Result<(), SeatFault>)
    ensures refused { TellsRefusal None result.1 }
    ensures taken { (opens : ℕ → Way → List ℕ → Option Envelope) (client : Client) → IsReading S.lock (S.keys seal.now) opens
        → Stands (kept_of holder) client → TakenSo client (taken_in opens now bytes.now client) result.0 result.1 }
    ensures keys { keys_in (kept_of result.0) ≡ keys_in (kept_of holder) }
{
    if holder.has_ended() {
        return (holder, Ok(()));
    }
    let (holder, taken) = holder.on_packet(alloc, now, seal, bytes);
    match taken {
        Ok(_why) => (holder, Ok(())),
        Err(memory) => (holder, Err(SeatFault::from(memory))),
    }
}

/// An open client goes on in another session, whose number is drawn.
pub(crate) fn renew<D: Draw>(holder: Holder, draw: &mut D) -> (Holder, Result<(), SeatFault>)
    ensures refused { (seat : Seat) → Stands (kept_of holder) seat.client → TellsRefusal (stands_open seat nothing_more) result.1 }
    ensures takes_no_memory { IfErr result.1 (λ fault. fault ≢ told.Memory) }
    ensures stands { OnOk result.1 ((client : Client) → Stands (kept_of holder) client → Stands (kept_of result.0) (renewed (word_after D.step 0 draw.old) client)) }
    ensures drawn { OnOk result.1 (draw.new ≡ draw_after D.step 1 draw.old) }
    ensures keys { keys_in (kept_of result.0) ≡ keys_in (kept_of holder) }
    ensures unchanged { OnErr result.1 (result.0 ≡ holder) }
    ensures same_draw { OnErr result.1 (draw.new ≡ draw.old) }
{
    if !holder.is_open() {
        return (holder, Err(SeatFault::WrongState));
    }
    (holder.renew(draw), Ok(()))
}

/// An open client ends.
pub(crate) fn end(holder: Holder) -> (Holder, Result<(), SeatFault>)
    ensures refused { (seat : Seat) → Stands (kept_of holder) seat.client → TellsRefusal (stands_open seat nothing_more) result.1 }
    ensures takes_no_memory { IfErr result.1 (λ fault. fault ≢ told.Memory) }
    ensures stands { OnOk result.1 ((client : Client) → Stands (kept_of holder) client → Stands (kept_of result.0) (ended client)) }
    ensures keys { keys_in (kept_of result.0) ≡ keys_in (kept_of holder) }
    ensures unchanged { OnErr result.1 (result.0 ≡ holder) }
{
    if !holder.is_open() {
        return (holder, Err(SeatFault::WrongState));
    }
    (holder.end(), Ok(()))
}
