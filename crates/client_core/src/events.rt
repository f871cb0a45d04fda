//! The calls and the events of a client, whatever state it is in.

ghost use Rattle.std.specs.Prelude.{◌≡◌, ◌+◌, None, Ok, Some, IfOk, OnErr, OnOk, false, length, max, true};
ghost use Rattle.call_table.specs.Kept.{shown, state_in};
ghost use Rattle.call_table.specs.Table.{IsGiven, call_no, state_at};
ghost use Rattle.envelope.specs.Opening.{Opens};
ghost use Rattle.envelope.specs.declared.parts.Dir.TheVariants.{Down};
ghost use Rattle.envelope.specs.declared.parts.Envelope.{Envelope};
ghost use Rattle.client_rules.specs.Asking.{attached, submit_fault, submitted};
ghost use Rattle.client_rules.specs.Client.{Client, at_moment, calls_of};
ghost use Rattle.client_rules.specs.Taking.{take};
ghost use Rattle.client_core.specs.Flushed.{Flushes, setting_of};
ghost use Rattle.client_core.specs.declared.flush.Flush.TheVariants as flushed;
ghost use Rattle.client_core.specs.declared.holder.Holder.TheVariants as holder;
ghost use Rattle.client_core.specs.Holding.{Became, kept_of, phase_of, unless_ended};
ghost use Rattle.client_core.specs.Keys.{HasKeys, keys_in};
ghost use Rattle.client_core.specs.Kept.{Stands};
ghost use Rattle.client_core.specs.Sealing.{TellsSealed};
ghost use Rattle.client_core.specs.Told.{TellsFault};
ghost use Rattle.client_core.specs.Took.{IsWhy};

use crate::fault::SubmitFault;
use crate::flush::Flush;
use crate::holder::Holder;
use crate::open::OpenClient;
use crate::opening::OpeningClient;
use crate::step::{OpenStep, OpeningStep};
use call_table::{CallNo, CallState};
use draws::Draw;
use envelope::{Refusal, Seal};
use msg_ids::Moment;
use octets::Memory;
use std::alloc::Global;

impl Holder {
    /// How many calls there are.
    pub fn calls(&self) -> u32
        ensures kept { result ≡ length (kept_of self.now).calls.rows }
        ensures count { (client : Client) → Stands (kept_of self.now) client → result ≡ length (calls_of client) }
    {
        match self {
            Holder::Opening(client) => client.calls(),
            Holder::Open(client) => client.calls(),
            Holder::Ended(client) => client.calls(),
        }
    }

    /// What became of a call that this client gave.
    pub fn state(&self, call: CallNo) -> CallState<'_>
        requires given { IsGiven call (kept_of self.now).calls.rows }
        ensures kept { state_in call (kept_of self.now).calls.rows ≡ Some (shown result) }
        ensures state { (client : Client) → Stands (kept_of self.now) client → state_at call (calls_of client) ≡ Some (shown result) }
    {
        match self {
            Holder::Opening(client) => client.state(call),
            Holder::Open(client) => client.state(call),
            Holder::Ended(client) => client.state(call),
        }
    }

    /// A client that hasn't ended submits a call with this body, which is to execute after an earlier call, if one is
    /// given. It answers the call, which is the last one and `Queued`.
    ///
    /// # Errors
    ///
    /// The first `SubmitFault` that holds, in their order, and the client is as it was.
    pub fn submit(
        &mut self,
        alloc: Global,
        body: &[u8],
        after: Option<CallNo>,
    ) -> Result<CallNo, SubmitFault>
        requires living { (kept_of self.old).rest.has_ended ≡ false }
        ensures refused { (client : Client) → Stands (kept_of self.old) client → TellsFault (submit_fault body.now after client) result }
        ensures call { IfOk result (λ call. (client : Client) → Stands (kept_of self.old) client → call ≡ call_no (length (calls_of client))) }
        ensures stands { OnOk result ((client : Client) → Stands (kept_of self.old) client → Stands (kept_of self.new) (submitted body.now after client)) }
        ensures phase { phase_of self.new ≡ phase_of self.old }
        ensures keys { keys_in (kept_of self.new) ≡ keys_in (kept_of self.old) }
        ensures count { OnOk result (length (kept_of self.new).calls.rows ≡ length (kept_of self.old).calls.rows + 1) }
        ensures unchanged { OnErr result (self.new ≡ self.old) }
    {
        let _state = self.has_ended();
        match self {
            Holder::Opening(client) => client.submit(alloc, body, after),
            Holder::Open(client) => client.submit(alloc, body, after),
            Holder::Ended(_) => unreachable!(),
        }
    }

    /// A connection was opened: the binding that was asked for and all calls that are `Sent` are to be sent again, each
    /// alone and under its number. An ended client sends nothing again.
    pub fn attach(&mut self)
        ensures stands { (client : Client) → Stands (kept_of self.old) client → Stands (kept_of self.new) (unless_ended attached client) }
        ensures ended { (kept_of self.old).rest.has_ended ≡ true → self.new ≡ self.old }
        ensures phase { phase_of self.new ≡ phase_of self.old }
        ensures keys { keys_in (kept_of self.new) ≡ keys_in (kept_of self.old) }
        ensures count { length (kept_of self.new).calls.rows ≡ length (kept_of self.old).calls.rows }
    {
        let _state = self.has_ended();
        match self {
            Holder::Opening(client) => client.attach(),
            Holder::Open(client) => client.attach(),
            Holder::Ended(_) => {}
        }
    }

    /// What is sent next, at a moment, as of [`OpenClient::flush`]; an ended client sends nothing. The seal has the key of
    /// a client that hasn't ended, and the permanent one to which that is to be bound.
    pub fn flush<S: Seal, D: Draw>(
        &mut self,
        alloc: Global,
        now: Moment,
        seal: &S,
        draw: &mut D,
    ) -> Flush
        requires keys { (kept_of self.old).rest.has_ended ≡ false → HasKeys (S.keys seal.now) (keys_in (kept_of self.old)) }
        ensures flushes { (client : Client) → Stands (kept_of self.old) client → (kept_of self.old).rest.has_ended ≡ false
            → Flushes (setting_of D.step (S.keys seal.now)) S.lock (S.keys seal.now) now client draw.old result (kept_of self.new) draw.new }
        ensures ended { (kept_of self.old).rest.has_ended ≡ true → (result ≡ flushed.Nothing) × (self.new ≡ self.old) × (draw.new ≡ draw.old) }
        ensures sealed { TellsSealed S.lock (S.keys seal.now) result }
        ensures phase { phase_of self.new ≡ phase_of self.old }
        ensures keys { keys_in (kept_of self.new) ≡ keys_in (kept_of self.old) }
        ensures session { (kept_of self.new).rest.session ≡ (kept_of self.old).rest.session }
        ensures count { length (kept_of self.new).calls.rows ≡ length (kept_of self.old).calls.rows }
    {
        let _state = self.has_ended();
        match self {
            Holder::Opening(client) => client.flush(alloc, now, seal, draw),
            Holder::Open(client) => client.flush(alloc, now, seal, draw),
            Holder::Ended(_) => Flush::Nothing,
        }
    }

    /// A packet from the server came at a moment, as to [`OpenClient::receive`]. It tells why the packet doesn't open;
    /// nothing where it opens. An ended client takes none, and tells nothing.
    ///
    /// # Errors
    ///
    /// `Memory`: memory ran out, and the client is as it was.
    pub fn on_packet<S: Seal>(
        self,
        alloc: Global,
        now: Moment,
        seal: &S,
        packet: &[u8],
    ) -> (Holder, Result<Option<Refusal>, Memory>)
        ensures opened { (client : Client) (envelope : Envelope) → Stands (kept_of self) client → (kept_of self).rest.has_ended ≡ false
            → Opens S.lock (S.keys seal.now) (max client.now now) Down packet.now envelope → Became self client (take now envelope client) result.0 result.1 }
        ensures other { (client : Client) → Stands (kept_of self) client → (kept_of self).rest.has_ended ≡ false
            → ((envelope : Envelope) → Opens S.lock (S.keys seal.now) (max client.now now) Down packet.now envelope → ⊥) → Became self client (at_moment now client) result.0 result.1 }
        ensures ended { (kept_of self).rest.has_ended ≡ true → (result.0 ≡ self) × (result.1 ≡ Ok None) }
        ensures why { (client : Client) → Stands (kept_of self) client → (kept_of self).rest.has_ended ≡ false
            → IfOk result.1 (IsWhy S.lock (S.keys seal.now) (max client.now now) packet.now) }
        ensures stays { (client : Client) → Stands (kept_of self) client → OnErr result.1 (Stands (kept_of result.0) client) }
        ensures keys { keys_in (kept_of result.0) ≡ keys_in (kept_of self) }
        ensures count { length (kept_of result.0).calls.rows ≡ length (kept_of self).calls.rows }
    {
        let _state = self.has_ended();
        match self {
            Holder::Opening(client) => opening_takes(client, alloc, now, seal, packet),
            Holder::Open(client) => open_takes(client, alloc, now, seal, packet),
            Holder::Ended(client) => (Holder::Ended(client), Ok(None)),
        }
    }
}

// What an opening client becomes by a packet.
fn opening_takes<S: Seal>(
    client: OpeningClient,
    alloc: Global,
    now: Moment,
    seal: &S,
    packet: &[u8],
) -> (Holder, Result<Option<Refusal>, Memory>)
    ensures opened { (whole : Client) (envelope : Envelope) → Stands client whole → Opens S.lock (S.keys seal.now) (max whole.now now) Down packet.now envelope
        → Became (holder.Opening client) whole (take now envelope whole) result.0 result.1 }
    ensures other { (whole : Client) → Stands client whole → ((envelope : Envelope) → Opens S.lock (S.keys seal.now) (max whole.now now) Down packet.now envelope → ⊥)
        → Became (holder.Opening client) whole (at_moment now whole) result.0 result.1 }
    ensures why { (whole : Client) → Stands client whole → IfOk result.1 (IsWhy S.lock (S.keys seal.now) (max whole.now now) packet.now) }
    ensures stays { (whole : Client) → Stands client whole → OnErr result.1 (Stands (kept_of result.0) whole) }
    ensures keys { keys_in (kept_of result.0) ≡ keys_in client }
    ensures count { length (kept_of result.0).calls.rows ≡ length client.calls.rows }
{
    let (step, why) = client.receive(alloc, now, seal, packet);
    match step {
        OpeningStep::Still(client) => (Holder::Opening(client), Ok(why)),
        OpeningStep::Opened(client) => (Holder::Open(client), Ok(why)),
        OpeningStep::Memory(client) => (Holder::Opening(client), Err(Memory)),
    }
}

// What an open client becomes by a packet.
fn open_takes<S: Seal>(
    client: OpenClient,
    alloc: Global,
    now: Moment,
    seal: &S,
    packet: &[u8],
) -> (Holder, Result<Option<Refusal>, Memory>)
    ensures opened { (whole : Client) (envelope : Envelope) → Stands client whole → Opens S.lock (S.keys seal.now) (max whole.now now) Down packet.now envelope
        → Became (holder.Open client) whole (take now envelope whole) result.0 result.1 }
    ensures other { (whole : Client) → Stands client whole → ((envelope : Envelope) → Opens S.lock (S.keys seal.now) (max whole.now now) Down packet.now envelope → ⊥)
        → Became (holder.Open client) whole (at_moment now whole) result.0 result.1 }
    ensures why { (whole : Client) → Stands client whole → IfOk result.1 (IsWhy S.lock (S.keys seal.now) (max whole.now now) packet.now) }
    ensures stays { (whole : Client) → Stands client whole → OnErr result.1 (Stands (kept_of result.0) whole) }
    ensures keys { keys_in (kept_of result.0) ≡ keys_in client }
    ensures count { length (kept_of result.0).calls.rows ≡ length client.calls.rows }
{
    let (step, why) = client.receive(alloc, now, seal, packet);
    match step {
        OpenStep::Still(client) => (Holder::Open(client), Ok(why)),
        OpenStep::Ended(client) => (Holder::Ended(client), Ok(why)),
        OpenStep::Memory(client) => (Holder::Open(client), Err(Memory)),
    }
}
