//! What becomes of a client by a packet, at a renewal and at its end.

ghost use Rattle.std.specs.Prelude.{◌≡◌, ℕ, List, Ok, Some, false, length, true};
ghost use Rattle.call_table.specs.declared.call.CallNo.{CallNo};
ghost use Rattle.call_table.specs.Kept.{state_in};
ghost use Rattle.call_table.specs.Table.{Done};
ghost use Rattle.client_rules.specs.Client.{Client, is_open};
ghost use Rattle.client_core.specs.Keys.{keys_in};
ghost use Rattle.client_core.specs.Kept.{Stands};
ghost use Rattle.client_core.specs.One.{StandsForOne};
ghost use Rattle.client_core.specs.Results.{HasDone, HasDoneOpening};
ghost use Rattle.client_core.specs.Took.{IsDoneOpen, IsDoneOpening, TookBy, TookOpen, TookOpening, open_left, opening_left};

use crate::core_client::Core;
use crate::ended::EndedClient;
use crate::open::OpenClient;
use crate::opening::OpeningClient;
use crate::step::{OpenStep, OpeningStep};
use draws::Draw;
use envelope::{Refusal, Seal};
use msg_ids::Moment;
use octets::Memory;
use std::alloc::Global;

/// A client that has learnt a unique number is open.
fn opened_or_still(core: Box<Core>) -> OpeningStep
    requires { StandsForOne core.value }
    ensures taken { (before after : Client) → Stands core.value after → TookOpening result before after }
    ensures done { (call : CallNo) (answer : List ℕ) → state_in call core.value.calls.rows ≡ Some (Done answer) → HasDoneOpening call answer result }
    ensures left { opening_left result ≡ core.value }
    ensures not_memory { IsDoneOpening result }
{
    if core.is_open() {
        OpeningStep::Opened(OpenClient { core })
    } else {
        OpeningStep::Still(OpeningClient { core })
    }
}

/// An open client that received a packet, and may have ended by it.
fn open_or_ended(core: Box<Core>, ended: bool) -> OpenStep
    requires open { is_open core.value.rest ≡ true }
    requires stands { ended ≡ false → StandsForOne core.value }
    ensures taken { (before after : Client) → TookBy (Ok ended) core.value before after → TookOpen result before after }
    ensures done { (call : CallNo) (answer : List ℕ) → state_in call core.value.calls.rows ≡ Some (Done answer) → HasDone call answer result }
    ensures keys { keys_in (open_left result) ≡ keys_in core.value }
    ensures session { (open_left result).rest.session ≡ core.value.rest.session }
    ensures count { length (open_left result).calls.rows ≡ length core.value.calls.rows }
    ensures not_memory { IsDoneOpen result }
{
    if ended {
        OpenStep::Ended(EndedClient { core })
    } else {
        OpenStep::Still(OpenClient { core })
    }
}

impl OpeningClient {
    ghost use Rattle.std.specs.Prelude.{◌≡◌, ℕ, List, max};
    ghost use Rattle.call_table.specs.declared.call.CallNo.{CallNo};
    ghost use Rattle.envelope.specs.Opening.{Opens};
    ghost use Rattle.envelope.specs.declared.parts.Envelope.{Envelope};
    ghost use Rattle.envelope.specs.declared.parts.Dir.TheVariants.{Down};
    ghost use Rattle.client_rules.specs.Client.{Client, at_moment};
    ghost use Rattle.client_rules.specs.Taking.{take};
    ghost use Rattle.client_core.specs.Kept.{Stands};
    ghost use Rattle.client_core.specs.Results.{BringsResult, HasDoneOpening};
    ghost use Rattle.client_core.specs.Took.{StaysOpening, TellsWhyOpening, TookOpening};

    /// A packet from the server came at a moment. It is looked at where it opens under the client's key, came for its
    /// session and is lawful; of any other only the moment counts. It costs what it brings, and a unique number the calls
    /// that are outstanding. It opens exactly where the packet taught the first unique number. Where memory runs out, the
    /// client is as it was.
    pub fn on_packet<S: Seal>(
        self,
        alloc: Global,
        now: Moment,
        seal: &S,
        packet: &[u8],
    ) -> OpeningStep
        ensures opened { (client : Client) (envelope : Envelope) → Stands self client → Opens S.lock (S.keys seal.now) (max client.now now) Down packet.now envelope
            → TookOpening result client (take now envelope client) }
        ensures other { (client : Client) → Stands self client → ((envelope : Envelope) → Opens S.lock (S.keys seal.now) (max client.now now) Down packet.now envelope → ⊥)
            → TookOpening result client (at_moment now client) }
        ensures results { (client : Client) (envelope : Envelope) (call : CallNo) (answer : List ℕ) → Stands self client → Opens S.lock (S.keys seal.now) (max client.now now) Down packet.now envelope
            → BringsResult now envelope client call answer → HasDoneOpening call answer result }
        ensures keys { keys_in (opening_left result) ≡ keys_in self }
        ensures session { (opening_left result).rest.session ≡ self.rest.session }
        ensures count { length (opening_left result).calls.rows ≡ length self.calls.rows }
    {
        self.receive(alloc, now, seal, packet).0
    }

    /// As [`OpeningClient::on_packet`], and tells why the packet doesn't open; nothing where it opens, or memory ran out.
    pub fn receive<S: Seal>(
        self,
        alloc: Global,
        now: Moment,
        seal: &S,
        packet: &[u8],
    ) -> (OpeningStep, Option<Refusal>)
        ensures opened { (client : Client) (envelope : Envelope) → Stands self client → Opens S.lock (S.keys seal.now) (max client.now now) Down packet.now envelope
            → TookOpening result.0 client (take now envelope client) }
        ensures other { (client : Client) → Stands self client → ((envelope : Envelope) → Opens S.lock (S.keys seal.now) (max client.now now) Down packet.now envelope → ⊥)
            → TookOpening result.0 client (at_moment now client) }
        ensures why { (client : Client) → Stands self client → TellsWhyOpening S.lock (S.keys seal.now) (max client.now now) packet.now result.0 result.1 }
        ensures unchanged_on_memory { (client : Client) → Stands self client → StaysOpening client result.0 }
        ensures results { (client : Client) (envelope : Envelope) (call : CallNo) (answer : List ℕ) → Stands self client → Opens S.lock (S.keys seal.now) (max client.now now) Down packet.now envelope
            → BringsResult now envelope client call answer → HasDoneOpening call answer result.0 }
        ensures keys { keys_in (opening_left result.0) ≡ keys_in self }
        ensures session { (opening_left result.0).rest.session ≡ self.rest.session }
        ensures count { length (opening_left result.0).calls.rows ≡ length self.calls.rows }
    {
        let OpeningClient { mut core } = self;
        let (taken, why) = core.receive(alloc, now, seal, packet);
        match taken {
            Ok(_) => (opened_or_still(core), why),
            Err(Memory) => (OpeningStep::Memory(OpeningClient { core }), why),
        }
    }
}

impl OpenClient {
    ghost use Rattle.std.specs.Prelude.{◌≡◌, ℕ, List, max};
    ghost use Rattle.call_table.specs.declared.call.CallNo.{CallNo};
    ghost use Rattle.draws.specs.Draws.{draw_after, word_after};
    ghost use Rattle.envelope.specs.Opening.{Opens};
    ghost use Rattle.envelope.specs.declared.parts.Envelope.{Envelope};
    ghost use Rattle.envelope.specs.declared.parts.Dir.TheVariants.{Down};
    ghost use Rattle.client_rules.specs.Client.{Client, at_moment};
    ghost use Rattle.client_rules.specs.Events.{renewed};
    ghost use Rattle.client_rules.specs.Learning.{ended};
    ghost use Rattle.client_rules.specs.Taking.{take};
    ghost use Rattle.client_core.specs.Kept.{Stands};
    ghost use Rattle.client_core.specs.Results.{BringsResult, HasDone};
    ghost use Rattle.client_core.specs.Took.{StaysOpen, TellsWhyOpen, TookOpen};

    /// A packet from the server came at a moment. It is looked at where it opens under the client's key, came for its
    /// session and is lawful; of any other only the moment counts. It costs what it brings, and a unique number the calls
    /// that are outstanding. The client ends exactly where the packet taught the 1,025th unique number. Where memory runs
    /// out, the client is as it was.
    pub fn on_packet<S: Seal>(self, alloc: Global, now: Moment, seal: &S, packet: &[u8]) -> OpenStep
        ensures opened { (client : Client) (envelope : Envelope) → Stands self client → Opens S.lock (S.keys seal.now) (max client.now now) Down packet.now envelope
            → TookOpen result client (take now envelope client) }
        ensures other { (client : Client) → Stands self client → ((envelope : Envelope) → Opens S.lock (S.keys seal.now) (max client.now now) Down packet.now envelope → ⊥)
            → TookOpen result client (at_moment now client) }
        ensures results { (client : Client) (envelope : Envelope) (call : CallNo) (answer : List ℕ) → Stands self client → Opens S.lock (S.keys seal.now) (max client.now now) Down packet.now envelope
            → BringsResult now envelope client call answer → HasDone call answer result }
        ensures keys { keys_in (open_left result) ≡ keys_in self }
        ensures session { (open_left result).rest.session ≡ self.rest.session }
        ensures count { length (open_left result).calls.rows ≡ length self.calls.rows }
    {
        self.receive(alloc, now, seal, packet).0
    }

    /// As [`OpenClient::on_packet`], and tells why the packet doesn't open; nothing where it opens, or memory ran out.
    pub fn receive<S: Seal>(
        self,
        alloc: Global,
        now: Moment,
        seal: &S,
        packet: &[u8],
    ) -> (OpenStep, Option<Refusal>)
        ensures opened { (client : Client) (envelope : Envelope) → Stands self client → Opens S.lock (S.keys seal.now) (max client.now now) Down packet.now envelope
            → TookOpen result.0 client (take now envelope client) }
        ensures other { (client : Client) → Stands self client → ((envelope : Envelope) → Opens S.lock (S.keys seal.now) (max client.now now) Down packet.now envelope → ⊥)
            → TookOpen result.0 client (at_moment now client) }
        ensures why { (client : Client) → Stands self client → TellsWhyOpen S.lock (S.keys seal.now) (max client.now now) packet.now result.0 result.1 }
        ensures unchanged_on_memory { (client : Client) → Stands self client → StaysOpen client result.0 }
        ensures results { (client : Client) (envelope : Envelope) (call : CallNo) (answer : List ℕ) → Stands self client → Opens S.lock (S.keys seal.now) (max client.now now) Down packet.now envelope
            → BringsResult now envelope client call answer → HasDone call answer result.0 }
        ensures keys { keys_in (open_left result.0) ≡ keys_in self }
        ensures session { (open_left result.0).rest.session ≡ self.rest.session }
        ensures count { length (open_left result.0).calls.rows ≡ length self.calls.rows }
    {
        let OpenClient { mut core } = self;
        let (taken, why) = core.receive(alloc, now, seal, packet);
        match taken {
            Ok(ended) => (open_or_ended(core, ended), why),
            Err(Memory) => (OpenStep::Memory(OpenClient { core }), why),
        }
    }

    /// The client goes on in another session, whose number is drawn: of calls that are `Sent` it isn't known what became,
    /// those that are `Held` are `Queued`, and the former session is to be destroyed. Takes no memory.
    pub fn renew<D: Draw>(self, draw: &mut D) -> OpeningClient
        ensures stands { (client : Client) → Stands self client → Stands result (renewed (word_after D.step 0 draw.old) client) }
        ensures keys { keys_in result ≡ keys_in self }
        ensures session { result.rest.session ≡ word_after D.step 0 draw.old }
        ensures count { length result.calls.rows ≡ length self.calls.rows }
        ensures after { draw.new ≡ draw_after D.step 1 draw.old }
    {
        let OpenClient { mut core } = self;
        core.renew(draw);
        OpeningClient { core }
    }

    /// The client ends: of calls that are `Sent` it isn't known what became, and the others that weren't decided are
    /// `Refused` with code 0. Takes no memory.
    pub fn end(self) -> EndedClient
        ensures stands { (client : Client) → Stands self client → Stands result (ended client) }
        ensures keys { keys_in result ≡ keys_in self }
        ensures session { result.rest.session ≡ self.rest.session }
        ensures count { length result.calls.rows ≡ length self.calls.rows }
    {
        let OpenClient { mut core } = self;
        core.finish();
        EndedClient { core }
    }
}
