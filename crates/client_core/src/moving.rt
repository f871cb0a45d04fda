//! What an open client alone does, held in its state, and what became of a client's binding.

ghost use Rattle.std.specs.Prelude.{◌≡◌, OnErr, length, option_map, true};
ghost use Rattle.draws.specs.Draws.{draw_after, word_after};
ghost use Rattle.client_rules.specs.Asking.{binding_of, can_drop, dropped};
ghost use Rattle.client_rules.specs.Client.{Client};
ghost use Rattle.client_rules.specs.Events.{renewed};
ghost use Rattle.client_rules.specs.Learning.{ended};
ghost use Rattle.client_core.specs.Holding.{Ended, Opening, is_open_now, kept_of, phase_of, wished};
ghost use Rattle.client_core.specs.Keys.{keys_in};
ghost use Rattle.client_core.specs.Kept.{Stands};
ghost use Rattle.client_core.specs.Told.{TellsDrop, shown};

use crate::binding::BindState;
use crate::fault::NotSent;
use crate::holder::Holder;
use crate::open::OpenClient;
use call_table::CallNo;
use draws::Draw;

/// What an open client may be asked to do. It takes no memory, and no open client refuses it.
#[derive(Clone, Copy, Debug)]
pub enum Wish {
    /// To ask how its calls fared.
    Tick,
    /// To have a ping of this number answered.
    Ping(u64),
    /// To ask for so many salts.
    Salts(u32),
}

fn grant(client: &mut OpenClient, wish: Wish)
    ensures stands { (whole : Client) → Stands client.old whole → Stands client.new (wished wish whole) }
    ensures keys { keys_in client.new ≡ keys_in client.old }
    ensures session { client.new.rest.session ≡ client.old.rest.session }
    ensures count { length client.new.calls.rows ≡ length client.old.calls.rows }
{
    match wish {
        Wish::Tick => client.tick(),
        Wish::Ping(id) => client.ping(id),
        Wish::Salts(count) => client.ask_salts(count),
    }
}

impl Holder {
    /// What became of the binding of the temporary key; none exactly where the client's key is permanent.
    pub fn binding(&self) -> Option<BindState>
        ensures { (client : Client) → Stands (kept_of self.now) client → result ≡ option_map shown (binding_of client) }
    {
        match &self.core().temporary {
            None => None,
            Some(temporary) => Some(temporary.binding.state()),
        }
    }

    /// An open client does as it is asked.
    pub fn ask(&mut self, wish: Wish)
        requires open { is_open_now (kept_of self.old).rest ≡ true }
        ensures stands { (client : Client) → Stands (kept_of self.old) client → Stands (kept_of self.new) (wished wish client) }
        ensures phase { phase_of self.new ≡ phase_of self.old }
        ensures keys { keys_in (kept_of self.new) ≡ keys_in (kept_of self.old) }
        ensures session { (kept_of self.new).rest.session ≡ (kept_of self.old).rest.session }
        ensures count { length (kept_of self.new).calls.rows ≡ length (kept_of self.old).calls.rows }
    {
        // For its clause: the client is held in its state.
        let _state = self.is_open();
        match self {
            Holder::Open(client) => grant(client, wish),
            Holder::Opening(_) | Holder::Ended(_) => unreachable!(),
        }
    }

    /// The server is to be asked to drop the answer to a call of an open client.
    ///
    /// # Errors
    ///
    /// `NotSent`: the client has no such call, or it isn't `Sent`, and the client is as it was.
    pub fn drop_answer(&mut self, call: CallNo) -> Result<(), NotSent>
        requires open { is_open_now (kept_of self.old).rest ≡ true }
        ensures told { (client : Client) → Stands (kept_of self.old) client → TellsDrop (can_drop call client) result }
        ensures stands { (client : Client) → Stands (kept_of self.old) client → Stands (kept_of self.new) (dropped call client) }
        ensures phase { phase_of self.new ≡ phase_of self.old }
        ensures keys { keys_in (kept_of self.new) ≡ keys_in (kept_of self.old) }
        ensures session { (kept_of self.new).rest.session ≡ (kept_of self.old).rest.session }
        ensures count { length (kept_of self.new).calls.rows ≡ length (kept_of self.old).calls.rows }
        ensures unchanged { OnErr result (self.new ≡ self.old) }
    {
        // For its clause: the client is held in its state.
        let _state = self.is_open();
        match self {
            Holder::Open(client) => client.drop_answer(call),
            Holder::Opening(_) | Holder::Ended(_) => unreachable!(),
        }
    }

    /// An open client goes on in another session, whose number is drawn, as of [`OpenClient::renew`]. Takes no memory.
    pub fn renew<D: Draw>(self, draw: &mut D) -> Holder
        requires open { is_open_now (kept_of self).rest ≡ true }
        ensures stands { (client : Client) → Stands (kept_of self) client → Stands (kept_of result) (renewed (word_after D.step 0 draw.old) client) }
        ensures after { draw.new ≡ draw_after D.step 1 draw.old }
        ensures phase { phase_of result ≡ Opening }
        ensures keys { keys_in (kept_of result) ≡ keys_in (kept_of self) }
        ensures count { length (kept_of result).calls.rows ≡ length (kept_of self).calls.rows }
    {
        // For its clause: the client is held in its state, so neither of the other two is met.
        let _state = self.is_open();
        match self {
            Holder::Open(client) => Holder::Opening(client.renew(draw)),
            Holder::Opening(client) => Holder::Opening(client),
            Holder::Ended(client) => Holder::Ended(client),
        }
    }

    /// An open client ends, as of [`OpenClient::end`]. Takes no memory.
    pub fn end(self) -> Holder
        requires open { is_open_now (kept_of self).rest ≡ true }
        ensures stands { (client : Client) → Stands (kept_of self) client → Stands (kept_of result) (ended client) }
        ensures phase { phase_of result ≡ Ended }
        ensures keys { keys_in (kept_of result) ≡ keys_in (kept_of self) }
        ensures count { length (kept_of result).calls.rows ≡ length (kept_of self).calls.rows }
    {
        // For its clause, as of a renewal.
        let _state = self.is_open();
        match self {
            Holder::Open(client) => Holder::Ended(client.end()),
            Holder::Opening(client) => Holder::Opening(client),
            Holder::Ended(client) => Holder::Ended(client),
        }
    }
}
