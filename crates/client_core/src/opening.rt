//! A client that has learnt nothing of its present session.

ghost use Rattle.std.specs.Prelude.{◌≡◌, ◌+◌, None, Some, IfOk, OnOk, OnErr, length};

use crate::binding::{Binding, Temporary};
use crate::core_client::Core;
use crate::fault::SubmitFault;
use call_table::{CallNo, CallState};
use draws::Draw;
use msg_ids::Moment;
use octets::Memory;
use std::alloc::Global;
use std::marker::Model;

/// A client that has learnt no unique number of its present session. Contracts see what it keeps of the client that it
/// stands for.
#[derive(Debug, Drop)]
pub struct OpeningClient {
    pub(crate) core: Box<Core>,
}

impl Model for OpeningClient {
    ghost use Rattle.std.specs.Prelude.{◌≡◌, []};
    ghost use Rattle.client_core.specs.Kept.{Contents};
    ghost use Rattle.client_core.specs.One.{StandsForOne};

    ghost Value = { Contents };

    ghost view = { λ client. client.core.value };

    ghost invariant = { λ client. (client.core.value.rest.learnt ≡ []) × StandsForOne client.core.value };
}

impl OpeningClient {
    ghost use Rattle.draws.specs.Draws.{draw_after, word_after};
    ghost use Rattle.call_table.specs.Table.{Queued, IsGiven, call_no, state_at};
    ghost use Rattle.call_table.specs.Kept.{shown, state_in};
    ghost use Rattle.client_rules.specs.Client.{Client, fresh_client, temporary_of, calls_of};
    ghost use Rattle.client_rules.specs.Asking.{attached, submit_fault, submitted};
    ghost use Rattle.client_core.specs.Keys.{keys_in};
    ghost use Rattle.client_core.specs.Kept.{Stands};
    ghost use Rattle.client_core.specs.Told.{TellsFault};

    /// A client under the permanent key of this identifier, in a session whose number is drawn.
    ///
    /// # Errors
    ///
    /// `Memory`: memory ran out, and nothing was drawn.
    pub fn new<D: Draw>(alloc: Global, key: u64, draw: &mut D) -> Result<OpeningClient, Memory>
        ensures stands { IfOk result (λ client. Stands client (fresh_client key None (word_after D.step 0 draw.old))) }
        ensures keys { IfOk result (λ client. keys_in client ≡ record { key = key; bound_to = None }) }
        ensures session { IfOk result (λ client. client.rest.session ≡ word_after D.step 0 draw.old) }
        ensures count { IfOk result (λ client. length client.calls.rows ≡ 0) }
        ensures after { OnOk result (draw.new ≡ draw_after D.step 1 draw.old) }
        ensures unchanged_on_memory { OnErr result (draw.new ≡ draw.old) }
    {
        Ok(OpeningClient {
            core: Core::new(alloc, key, None, draw)?,
        })
    }

    /// A client under the temporary key `temp`, which is to be bound to the permanent key `perm` up to a moment.
    ///
    /// # Errors
    ///
    /// `Memory`: memory ran out, and nothing was drawn.
    pub fn new_temp<D: Draw>(
        alloc: Global,
        temp: u64,
        perm: u64,
        expires: Moment,
        draw: &mut D,
    ) -> Result<OpeningClient, Memory>
        ensures stands { IfOk result (λ client. Stands client (fresh_client temp (Some (temporary_of perm expires)) (word_after D.step 0 draw.old))) }
        ensures keys { IfOk result (λ client. keys_in client ≡ record { key = temp; bound_to = Some (record { perm = perm; expires = expires }) }) }
        ensures session { IfOk result (λ client. client.rest.session ≡ word_after D.step 0 draw.old) }
        ensures count { IfOk result (λ client. length client.calls.rows ≡ 0) }
        ensures after { OnOk result (draw.new ≡ draw_after D.step 1 draw.old) }
        ensures unchanged_on_memory { OnErr result (draw.new ≡ draw.old) }
    {
        let temporary = Temporary {
            perm,
            expires,
            binding: Binding::Needed,
            is_alone: false,
        };
        Ok(OpeningClient {
            core: Core::new(alloc, temp, Some(temporary), draw)?,
        })
    }

    /// The number of the present session.
    pub fn session(&self) -> u64
        ensures kept { result ≡ self.now.rest.session }
        ensures session { (client : Client) → Stands self.now client → result ≡ client.session }
    {
        self.core.session()
    }

    /// How many calls there are.
    pub fn calls(&self) -> u32
        ensures kept { result ≡ length self.now.calls.rows }
        ensures count { (client : Client) → Stands self.now client → result ≡ length (calls_of client) }
    {
        self.core.count()
    }

    /// What became of a call that this client gave.
    pub fn state(&self, call: CallNo) -> CallState<'_>
        requires given { IsGiven call self.now.calls.rows }
        ensures kept { state_in call self.now.calls.rows ≡ Some (shown result) }
        ensures state { (client : Client) → Stands self.now client → state_at call (calls_of client) ≡ Some (shown result) }
    {
        self.core.state(call)
    }

    /// Submits a call with this body, which is to execute after an earlier call, if one is given. It answers the call,
    /// which is the last one and `Queued`.
    ///
    /// # Errors
    ///
    /// The first `SubmitFault` that holds, in their order, and the client is as it was.
    pub fn submit(
        &mut self,
        alloc: Global,
        body: &[u8],
        after: Option<CallNo>,
    ) -> Result<CallNo, SubmitFault>
        ensures refused { (client : Client) → Stands self.old client → TellsFault (submit_fault body.now after client) result }
        ensures call { IfOk result (λ call. (client : Client) → Stands self.old client → call ≡ call_no (length (calls_of client))) }
        ensures stands { OnOk result ((client : Client) → Stands self.old client → Stands self.new (submitted body.now after client)) }
        ensures given { IfOk result (λ call. IsGiven call self.new.calls.rows) }
        ensures queued { IfOk result (λ call. state_in call self.new.calls.rows ≡ Some Queued) }
        ensures keys { keys_in self.new ≡ keys_in self.old }
        ensures session { self.new.rest.session ≡ self.old.rest.session }
        ensures count { OnOk result (length self.new.calls.rows ≡ length self.old.calls.rows + 1) }
        ensures unchanged { OnErr result (self.new ≡ self.old) }
    {
        self.core.submit(alloc, body, after)
    }

    /// A connection was opened: the binding that was asked for and all calls that are `Sent` are to be sent again, each
    /// alone and under its number.
    pub fn attach(&mut self)
        ensures stands { (client : Client) → Stands self.old client → Stands self.new (attached client) }
        ensures keys { keys_in self.new ≡ keys_in self.old }
        ensures session { self.new.rest.session ≡ self.old.rest.session }
        ensures count { length self.new.calls.rows ≡ length self.old.calls.rows }
    {
        self.core.attach();
    }
}
