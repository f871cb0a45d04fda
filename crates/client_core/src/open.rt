//! A client that has learnt of its present session.

ghost use Rattle.std.specs.Prelude.{◌≡◌, ◌+◌, Some, IfOk, OnOk, OnErr, length, option_map};

use crate::binding::BindState;
use crate::core_client::Core;
use crate::fault::{NotSent, SubmitFault};
use call_table::{CallNo, CallState};
use std::alloc::Global;
use std::marker::Model;

/// A client that has learnt a unique number of its present session. Contracts see what it keeps of the client that it
/// stands for.
#[derive(Debug, Drop)]
pub struct OpenClient {
    pub(crate) core: Box<Core>,
}

impl Model for OpenClient {
    ghost use Rattle.std.specs.Prelude.{◌≡◌, true};
    ghost use Rattle.client_rules.specs.Client.{is_open};
    ghost use Rattle.client_core.specs.Kept.{Contents};
    ghost use Rattle.client_core.specs.One.{StandsForOne};

    ghost Value = { Contents };

    ghost view = { λ client. client.core.value };

    ghost invariant = { λ client. (is_open client.core.value.rest ≡ true) × StandsForOne client.core.value };
}

impl OpenClient {
    ghost use Rattle.call_table.specs.Table.{Queued, IsGiven, call_no, state_at};
    ghost use Rattle.call_table.specs.Kept.{shown as told, state_in};
    ghost use Rattle.client_rules.specs.Client.{Client, calls_of};
    ghost use Rattle.client_rules.specs.Asking.{attached, binding_of, can_drop, dropped, pinged, salts_asked, submit_fault, submitted, ticked};
    ghost use Rattle.client_core.specs.Keys.{keys_in};
    ghost use Rattle.client_core.specs.Kept.{Stands};
    ghost use Rattle.client_core.specs.Told.{TellsDrop, TellsFault, shown};

    /// The number of the present session.
    pub fn session(&self) -> u64
        ensures kept { result ≡ self.now.rest.session }
        ensures session { (client : Client) → Stands self.now client → result ≡ client.session }
    {
        self.core.session()
    }

    /// How many calls there are.
    pub fn calls(&self) -> u32
        ensures kept { result ≡ length self.now.calls.rows }
        ensures count { (client : Client) → Stands self.now client → result ≡ length (calls_of client) }
    {
        self.core.count()
    }

    /// What became of a call that this client gave.
    pub fn state(&self, call: CallNo) -> CallState<'_>
        requires given { IsGiven call self.now.calls.rows }
        ensures kept { state_in call self.now.calls.rows ≡ Some (told result) }
        ensures state { (client : Client) → Stands self.now client → state_at call (calls_of client) ≡ Some (told result) }
    {
        self.core.state(call)
    }

    /// Submits a call with this body, which is to execute after an earlier call, if one is given. It answers the call,
    /// which is the last one and `Queued`.
    ///
    /// # Errors
    ///
    /// The first `SubmitFault` that holds, in their order, and the client is as it was.
    pub fn submit(
        &mut self,
        alloc: Global,
        body: &[u8],
        after: Option<CallNo>,
    ) -> Result<CallNo, SubmitFault>
        ensures refused { (client : Client) → Stands self.old client → TellsFault (submit_fault body.now after client) result }
        ensures call { IfOk result (λ call. (client : Client) → Stands self.old client → call ≡ call_no (length (calls_of client))) }
        ensures stands { OnOk result ((client : Client) → Stands self.old client → Stands self.new (submitted body.now after client)) }
        ensures given { IfOk result (λ call. IsGiven call self.new.calls.rows) }
        ensures queued { IfOk result (λ call. state_in call self.new.calls.rows ≡ Some Queued) }
        ensures keys { keys_in self.new ≡ keys_in self.old }
        ensures session { self.new.rest.session ≡ self.old.rest.session }
        ensures count { OnOk result (length self.new.calls.rows ≡ length self.old.calls.rows + 1) }
        ensures unchanged { OnErr result (self.new ≡ self.old) }
    {
        self.core.submit(alloc, body, after)
    }

    /// A connection was opened: the binding that was asked for and all calls that are `Sent` are to be sent again, each
    /// alone and under its number.
    pub fn attach(&mut self)
        ensures stands { (client : Client) → Stands self.old client → Stands self.new (attached client) }
        ensures keys { keys_in self.new ≡ keys_in self.old }
        ensures session { self.new.rest.session ≡ self.old.rest.session }
        ensures count { length self.new.calls.rows ≡ length self.old.calls.rows }
    {
        self.core.attach();
    }

    /// The server is to be asked how the calls that are sent fared, if there is one.
    pub fn tick(&mut self)
        ensures stands { (client : Client) → Stands self.old client → Stands self.new (ticked client) }
        ensures keys { keys_in self.new ≡ keys_in self.old }
        ensures session { self.new.rest.session ≡ self.old.rest.session }
        ensures count { length self.new.calls.rows ≡ length self.old.calls.rows }
    {
        self.core.tick();
    }

    /// The server is to answer a ping of this number. It takes the place of a ping that still waits.
    pub fn ping(&mut self, id: u64)
        ensures stands { (client : Client) → Stands self.old client → Stands self.new (pinged id client) }
        ensures keys { keys_in self.new ≡ keys_in self.old }
        ensures session { self.new.rest.session ≡ self.old.rest.session }
        ensures count { length self.new.calls.rows ≡ length self.old.calls.rows }
    {
        self.core.ping(id);
    }

    /// The server is to tell so many of its next salts. It takes the place of a request for salts that still waits.
    pub fn ask_salts(&mut self, n: u32)
        ensures stands { (client : Client) → Stands self.old client → Stands self.new (salts_asked n client) }
        ensures keys { keys_in self.new ≡ keys_in self.old }
        ensures session { self.new.rest.session ≡ self.old.rest.session }
        ensures count { length self.new.calls.rows ≡ length self.old.calls.rows }
    {
        self.core.ask_salts(n);
    }

    /// The server is to be asked to drop the answer to a call.
    ///
    /// # Errors
    ///
    /// `NotSent`: the client has no such call, or it isn't `Sent`, and the client is as it was.
    pub fn drop_answer(&mut self, call: CallNo) -> Result<(), NotSent>
        ensures told { (client : Client) → Stands self.old client → TellsDrop (can_drop call client) result }
        ensures stands { (client : Client) → Stands self.old client → Stands self.new (dropped call client) }
        ensures keys { keys_in self.new ≡ keys_in self.old }
        ensures session { self.new.rest.session ≡ self.old.rest.session }
        ensures count { length self.new.calls.rows ≡ length self.old.calls.rows }
        ensures unchanged { OnErr result (self.new ≡ self.old) }
    {
        self.core.drop_answer(call)
    }

    /// What became of the binding of the temporary key; none exactly where the client's key is permanent.
    pub fn binding(&self) -> Option<BindState>
        ensures { (client : Client) → Stands self.now client → result ≡ option_map shown (binding_of client) }
    {
        self.core.binding()
    }
}
