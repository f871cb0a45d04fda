//! A client that ended.

ghost use Rattle.std.specs.Prelude.{◌≡◌, Some, length};

use crate::core_client::Core;
use call_table::{CallNo, CallState};
use std::marker::Model;

/// A client that ended, and only tells what became of its calls. Contracts see what it keeps of the client that it
/// stands for.
#[derive(Debug, Drop)]
pub struct EndedClient {
    pub(crate) core: Box<Core>,
}

impl Model for EndedClient {
    ghost use Rattle.std.specs.Prelude.{true};
    ghost use Rattle.client_core.specs.Kept.{Contents, at_end};

    ghost Value = { Contents };

    ghost view = { λ client. at_end client.core.value };
}

impl EndedClient {
    ghost use Rattle.call_table.specs.Table.{IsGiven, state_at};
    ghost use Rattle.call_table.specs.Kept.{shown, state_in};
    ghost use Rattle.client_rules.specs.Client.{Client, calls_of};
    ghost use Rattle.client_core.specs.Kept.{Stands};

    /// The number of the last session.
    pub fn session(&self) -> u64
        ensures kept { result ≡ self.now.rest.session }
        ensures session { (client : Client) → Stands self.now client → result ≡ client.session }
    {
        self.core.session()
    }

    /// How many calls there are.
    pub fn calls(&self) -> u32
        ensures kept { result ≡ length self.now.calls.rows }
        ensures count { (client : Client) → Stands self.now client → result ≡ length (calls_of client) }
    {
        self.core.count()
    }

    /// What became of a call that this client gave.
    pub fn state(&self, call: CallNo) -> CallState<'_>
        requires given { IsGiven call self.now.calls.rows }
        ensures kept { state_in call self.now.calls.rows ≡ Some (shown result) }
        ensures state { (client : Client) → Stands self.now client → state_at call (calls_of client) ≡ Some (shown result) }
    {
        self.core.state(call)
    }
}
