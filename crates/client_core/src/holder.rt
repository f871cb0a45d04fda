//! A client in one of its states.

ghost use Rattle.std.specs.Prelude.{◌≡◌, false, true};
ghost use Rattle.client_rules.specs.Client.{Client, is_open};
ghost use Rattle.client_core.specs.Holding.{IsInState, is_open_now, kept_of, owns};
ghost use Rattle.client_core.specs.Kept.{Stands};

use crate::core_client::Core;
use crate::ended::EndedClient;
use crate::open::OpenClient;
use crate::opening::OpeningClient;
use msg_ids::Moment;

/// A client in one of its three states.
#[derive(Debug, Drop)]
pub enum Holder {
    /// It has learnt nothing of its present session.
    Opening(OpeningClient),
    /// It has learnt of its present session.
    Open(OpenClient),
    /// It ended.
    Ended(EndedClient),
}

impl Holder {
    /// What the three states share; that it ended isn't kept there.
    pub(crate) fn core(&self) -> &Core
        ensures key { result.now.rest.key ≡ (kept_of self.now).rest.key }
        ensures session { result.now.rest.session ≡ (kept_of self.now).rest.session }
        ensures former { result.now.rest.former ≡ (kept_of self.now).rest.former }
        ensures moment { result.now.rest.now ≡ (kept_of self.now).rest.now }
        ensures temporary { result.now.rest.temporary ≡ (kept_of self.now).rest.temporary }
    {
        match self {
            Holder::Opening(client) => &client.core,
            Holder::Open(client) => &client.core,
            Holder::Ended(client) => &client.core,
        }
    }

    /// The identifier of the key under which it acts.
    pub fn key(&self) -> u64
        ensures { (client : Client) → Stands (kept_of self.now) client → result ≡ client.key }
    {
        self.core().key
    }

    /// The number of its present session; once it ended, of its last one.
    pub fn session(&self) -> u64
        ensures { (client : Client) → Stands (kept_of self.now) client → result ≡ client.session }
    {
        self.core().session
    }

    /// Whether a session number is its own, now or formerly. It costs what it was renewed.
    pub fn owns(&self, session: u64) -> bool
        ensures { (client : Client) → Stands (kept_of self.now) client → result ≡ owns session client }
    {
        let core = self.core();
        core.session == session || core.former.has(session)
    }

    /// The greatest moment that it was given.
    pub fn moment(&self) -> Moment
        ensures { (client : Client) → Stands (kept_of self.now) client → result ≡ client.now }
    {
        self.core().moment
    }

    /// Whether it ended.
    pub fn has_ended(&self) -> bool
        ensures kept { result ≡ (kept_of self.now).rest.has_ended }
        ensures ended { (client : Client) → Stands (kept_of self.now) client → result ≡ client.has_ended }
        ensures state { IsInState self.now }
    {
        match self {
            Holder::Opening(client) => client.has_ended(),
            Holder::Open(client) => client.has_ended(),
            Holder::Ended(client) => client.has_ended(),
        }
    }

    /// Whether it is open: it has learnt of its present session, and hasn't ended.
    pub fn is_open(&self) -> bool
        ensures kept { result ≡ is_open_now (kept_of self.now).rest }
        ensures open { (client : Client) → Stands (kept_of self.now) client → result ≡ is_open_now client }
        ensures state { IsInState self.now }
    {
        !self.has_ended() && matches!(self, Holder::Open(_))
    }
}

impl Core {
    // Whether it ended: it didn't.
    fn has_ended(&self) -> bool
        ensures told { result ≡ self.now.rest.has_ended }
        ensures ended { self.now.rest.has_ended ≡ false }
    {
        let _key = self.key;
        false
    }
}

impl OpeningClient {
    // Whether it ended: it didn't, and has learnt nothing.
    fn has_ended(&self) -> bool
        ensures told { result ≡ self.now.rest.has_ended }
        ensures ended { self.now.rest.has_ended ≡ false }
        ensures opening { is_open self.now.rest ≡ false }
    {
        self.core.has_ended()
    }
}

impl OpenClient {
    // Whether it ended: it didn't, and has learnt something.
    fn has_ended(&self) -> bool
        ensures told { result ≡ self.now.rest.has_ended }
        ensures ended { self.now.rest.has_ended ≡ false }
        ensures open { is_open self.now.rest ≡ true }
    {
        self.core.has_ended()
    }
}

impl EndedClient {
    // Whether it ended: it did.
    fn has_ended(&self) -> bool
        ensures told { result ≡ self.now.rest.has_ended }
        ensures ended { self.now.rest.has_ended ≡ true }
    {
        let _core = &self.core;
        true
    }
}
