//! A client.

ghost use Rattle.std.specs.Prelude.{◌≡◌, None, Some, Ok, IfErr, IfOk, IfSome, MatchBool, MatchOption, OnErr, OnOk, false, length, max, true};
ghost use Rattle.auth_keys.specs.KeyFile.{IsRingOf};
ghost use Rattle.call_table.specs.Kept.{shown};
ghost use Rattle.call_table.specs.Table.{call_no, is_open};
ghost use Rattle.draws.specs.Draws.{draw_after, word_after};
ghost use Rattle.envelope.specs.declared.parts.Dir.TheVariants.{Down};
ghost use Rattle.envelope.specs.declared.parts.Envelope.{Envelope};
ghost use Rattle.envelope.specs.Lock.{mt_lock};
ghost use Rattle.envelope.specs.Opening.{Opens};
ghost use Rattle.client_rules.specs.Asking.{attached, can_drop, dropped, pinged, salts_asked, submit_fault, submitted, ticked};
ghost use Rattle.client_rules.specs.Client.{Client as Rules, at_moment, calls_of, fresh_client, temporary_of};
ghost use Rattle.client_rules.specs.Events.{renewed};
ghost use Rattle.client_rules.specs.Learning.{ended};
ghost use Rattle.client_rules.specs.Taking.{take};
ghost use Rattle.client_core.specs.Flushed.{Flushes, setting_of};
ghost use Rattle.client_core.specs.declared.flush.Flush.TheVariants as flushed;
ghost use Rattle.client_core.specs.Holding.{is_open_now, kept_of};
ghost use Rattle.kifzaro.specs.Clients.{AreDecided, Becomes, Is, IsNoClient, Polls, TellsDropped, TellsEnded, TellsHeard, TellsNoCall, TellsOpen, TellsReply, TellsSubmit, TellsTaken, outcome, perm_fault, state_of, temp_fault};
ghost use Rattle.kifzaro.specs.Drawing.{drawing, drawn_from};
ghost use Rattle.kifzaro.specs.declared.error.Error.TheVariants as errors;

use crate::error::Error;
use crate::holding;
use crate::rings::{seal_with_perm, seal_with_temp};
use crate::telling::put;
use client_core::{CallNo, CallState, Flush, Holder, OpeningClient, Wish};
use draws::{ChaChaDraw, Seeded};
use envelope::MtSeal;
use msg_ids::Moment;
use octets::{Memory, Octets};
use std::alloc::Global;
use std::marker::Model;

/// A client with its own ring of keys and its own draw. It is a client of the rules, and each call is one of its events.
/// Contracts see the client in its state, the ring, the draw, and a packet that was made and isn't handed out yet.
#[derive(Debug, Drop)]
pub struct Client {
    // Away only inside a call that moves it.
    holder: Option<Holder>,
    seal: MtSeal,
    draw: ChaChaDraw,
    waiting: Option<Octets>,
}

impl Model for Client {
    ghost use Rattle.std.specs.Prelude.{IsSome};
    ghost use Rattle.client_core.specs.Holding.{kept_of};
    ghost use Rattle.client_core.specs.Keys.{HasKeys, keys_in};
    ghost use Rattle.kifzaro.specs.Clients.{Kept, held};

    ghost Value = { Kept };

    ghost view = { λ client. record { holder = held client.holder; ring = client.seal; draw = client.draw; waiting = client.waiting } };

    ghost invariant = { λ client. IsSome client.holder × HasKeys client.seal (keys_in (kept_of (held client.holder))) };
}

impl Client {
    /// A client under the permanent key of this identifier, which the text of a key file has, in a session whose number is
    /// drawn. All that it draws comes of the seed, which has to be secret and used once.
    ///
    /// # Errors
    ///
    /// `Keys` or `LongKeys`, the text is no key file; `NoKey`, it hasn't that key; `NotPermanent`, it has it as a temporary
    /// one; `Memory`.
    pub fn new(alloc: Global, keys: &[u8], key: u64, seed: &[u8; 32]) -> Result<Client, Error>
        ensures is { IfOk result (λ client. Is client (fresh_client key None (word_after drawing 0 (drawn_from seed.now)))) }
        ensures ring { IfOk result (λ client. IsRingOf keys.now client.ring) }
        ensures drawn { IfOk result (λ client. client.draw ≡ draw_after drawing 1 (drawn_from seed.now)) }
        ensures nothing_waits { IfOk result (λ client. client.waiting ≡ None) }
        ensures kind { IfOk result (λ client. perm_fault key client.ring ≡ None) }
        ensures refused { IfErr result (IsNoClient keys.now (perm_fault key)) }
    {
        let seal = seal_with_perm(alloc, keys, key)?;
        let mut draw = ChaChaDraw::at(seed, 0);
        let client = OpeningClient::new(alloc, key, &mut draw)?;
        Ok(Client {
            holder: Some(Holder::Opening(client)),
            seal,
            draw,
            waiting: None,
        })
    }

    /// A client under the temporary key `temp`, which it has the server bind to the permanent key `perm` up to the moment
    /// `expires`. The text of a key file has both keys.
    ///
    /// # Errors
    ///
    /// `Keys` or `LongKeys`, the text is no key file; `NoKey` or `NotTemporary`, it hasn't the temporary key, or has it as a
    /// permanent one; `NoKey` or `NotPermanent` of the permanent one, where the other is good; `Memory`.
    pub fn new_temp(
        alloc: Global,
        keys: &[u8],
        temp: u64,
        perm: u64,
        expires: Moment,
        seed: &[u8; 32],
    ) -> Result<Client, Error>
        ensures is { IfOk result (λ client. Is client (fresh_client temp (Some (temporary_of perm expires)) (word_after drawing 0 (drawn_from seed.now)))) }
        ensures ring { IfOk result (λ client. IsRingOf keys.now client.ring) }
        ensures drawn { IfOk result (λ client. client.draw ≡ draw_after drawing 1 (drawn_from seed.now)) }
        ensures nothing_waits { IfOk result (λ client. client.waiting ≡ None) }
        ensures kinds { IfOk result (λ client. temp_fault temp perm client.ring ≡ None) }
        ensures refused { IfErr result (IsNoClient keys.now (temp_fault temp perm)) }
    {
        let seal = seal_with_temp(alloc, keys, temp, perm)?;
        let mut draw = ChaChaDraw::at(seed, 0);
        let client = OpeningClient::new_temp(alloc, temp, perm, expires, &mut draw)?;
        Ok(Client {
            holder: Some(Holder::Opening(client)),
            seal,
            draw,
            waiting: None,
        })
    }

    /// The client, which is there.
    fn holder(&self) -> &Holder
        ensures { result.now ≡ self.now.holder }
    {
        match &self.holder {
            Some(holder) => holder,
            None => unreachable!(),
        }
    }

    /// The number of its present session; once it ended, of its last one.
    pub fn session(&self) -> u64
        ensures { (client : Rules) → Is self.now client → result ≡ client.session }
    {
        self.holder().session()
    }

    /// Whether it is open: it has learnt of its present session, and hasn't ended.
    pub fn is_open(&self) -> bool
        ensures { (client : Rules) → Is self.now client → result ≡ is_open_now client }
    {
        self.holder().is_open()
    }

    /// Whether it ended.
    pub fn has_ended(&self) -> bool
        ensures { (client : Rules) → Is self.now client → result ≡ client.has_ended }
    {
        self.holder().has_ended()
    }

    /// How many calls it has.
    pub fn calls(&self) -> u32
        ensures { (client : Rules) → Is self.now client → result ≡ length (calls_of client) }
    {
        self.holder().calls()
    }

    /// Submits a call with this body, whole words of 4 bytes and at most 262,144 bytes, which is to execute after an earlier
    /// call, if one is given. It answers the call, which is `Queued`.
    ///
    /// # Errors
    ///
    /// `Ended`; `Submit`, the body or the earlier call isn't taken; `Memory`. The client is as it was.
    pub fn submit(
        &mut self,
        alloc: Global,
        body: &[u8],
        after: Option<CallNo>,
    ) -> Result<CallNo, Error>
        ensures refused { (client : Rules) → Is self.old client → TellsSubmit client.has_ended (submit_fault body.now after client) result }
        ensures is { (client : Rules) → Is self.old client → OnOk result (Is self.new (submitted body.now after client)) }
        ensures call { (client : Rules) → Is self.old client → IfOk result (λ call. call ≡ call_no (length (calls_of client))) }
        ensures rest { self.new ≡ record self.old { holder = self.new.holder } }
        ensures unchanged { OnErr result (self.new ≡ self.old) }
    {
        match &mut self.holder {
            Some(holder) => holding::submit(holder, alloc, body, after),
            None => unreachable!(),
        }
    }

    /// A connection was opened: what was sent and isn't answered is to be sent again.
    ///
    /// # Errors
    ///
    /// `Ended`.
    pub fn attach(&mut self) -> Result<(), Error>
        ensures refused { (client : Rules) → Is self.old client → TellsEnded client.has_ended result }
        ensures is { (client : Rules) → Is self.old client → OnOk result (Is self.new (attached client)) }
        ensures rest { self.new ≡ record self.old { holder = self.new.holder } }
        ensures unchanged { OnErr result (self.new ≡ self.old) }
    {
        match &mut self.holder {
            Some(holder) => holding::attach(holder),
            None => unreachable!(),
        }
    }

    /// The server is to be asked how the calls that are sent fared, if there is one.
    ///
    /// # Errors
    ///
    /// `NotOpen`.
    pub fn tick(&mut self) -> Result<(), Error>
        ensures refused { (client : Rules) → Is self.old client → TellsOpen (is_open_now client) result }
        ensures is { (client : Rules) → Is self.old client → OnOk result (Is self.new (ticked client)) }
        ensures rest { self.new ≡ record self.old { holder = self.new.holder } }
        ensures unchanged { OnErr result (self.new ≡ self.old) }
    {
        match &mut self.holder {
            Some(holder) => holding::ask(holder, Wish::Tick),
            None => unreachable!(),
        }
    }

    /// The server is to answer a ping of this number. It takes the place of a ping that still waits.
    ///
    /// # Errors
    ///
    /// `NotOpen`.
    pub fn ping(&mut self, id: u64) -> Result<(), Error>
        ensures refused { (client : Rules) → Is self.old client → TellsOpen (is_open_now client) result }
        ensures is { (client : Rules) → Is self.old client → OnOk result (Is self.new (pinged id client)) }
        ensures rest { self.new ≡ record self.old { holder = self.new.holder } }
        ensures unchanged { OnErr result (self.new ≡ self.old) }
    {
        match &mut self.holder {
            Some(holder) => holding::ask(holder, Wish::Ping(id)),
            None => unreachable!(),
        }
    }

    /// The server is to tell so many of its next salts. It takes the place of a request for salts that still waits.
    ///
    /// # Errors
    ///
    /// `NotOpen`.
    pub fn ask_salts(&mut self, count: u32) -> Result<(), Error>
        ensures refused { (client : Rules) → Is self.old client → TellsOpen (is_open_now client) result }
        ensures is { (client : Rules) → Is self.old client → OnOk result (Is self.new (salts_asked count client)) }
        ensures rest { self.new ≡ record self.old { holder = self.new.holder } }
        ensures unchanged { OnErr result (self.new ≡ self.old) }
    {
        match &mut self.holder {
            Some(holder) => holding::ask(holder, Wish::Salts(count)),
            None => unreachable!(),
        }
    }

    /// The server is to be asked to drop the answer to a call.
    ///
    /// # Errors
    ///
    /// `NotOpen`; `NotSent`, the client has no such call, or it isn't `Sent`.
    pub fn drop_answer(&mut self, call: CallNo) -> Result<(), Error>
        ensures refused { (client : Rules) → Is self.old client → TellsDropped (is_open_now client) (can_drop call client) result }
        ensures is { (client : Rules) → Is self.old client → OnOk result (Is self.new (dropped call client)) }
        ensures rest { self.new ≡ record self.old { holder = self.new.holder } }
        ensures unchanged { OnErr result (self.new ≡ self.old) }
    {
        match &mut self.holder {
            Some(holder) => holding::drop_answer(holder, call),
            None => unreachable!(),
        }
    }

    /// A packet came at a moment. It is looked at where it opens under the client's key, came for its session and is lawful;
    /// of any other only the moment counts. A client that has ended takes none.
    ///
    /// # Errors
    ///
    /// `Refused`, why the packet doesn't open, and only the moment counts; `Memory`, and then it is the client that it was.
    pub fn handle_packet(&mut self, alloc: Global, now: Moment, packet: &[u8]) -> Result<(), Error>
        ensures told { (client : Rules) → Is self.old client → client.has_ended ≡ false → TellsHeard mt_lock self.old.ring (max client.now now) packet.now result }
        ensures opened { (client : Rules) (envelope : Envelope) → Is self.old client → client.has_ended ≡ false
            → Opens mt_lock self.old.ring (max client.now now) Down packet.now envelope → Becomes client (take now envelope client) self.new result }
        ensures other { (client : Rules) → Is self.old client → client.has_ended ≡ false
            → ((envelope : Envelope) → Opens mt_lock self.old.ring (max client.now now) Down packet.now envelope → ⊥)
            → Becomes client (at_moment now client) self.new result }
        ensures ended { (client : Rules) → Is self.old client → client.has_ended ≡ true → (self.new ≡ self.old) × (result ≡ Ok tt) }
        ensures stays { (client : Rules) → Is self.old client → IfErr result (λ error. error ≡ errors.Memory → Is self.new client) }
        ensures rest { self.new ≡ record self.old { holder = self.new.holder } }
    {
        match self.holder.take() {
            Some(holder) => {
                let (holder, heard) = holding::hear(holder, alloc, now, &self.seal, packet);
                holding::put(&mut self.holder, holder);
                heard
            }
            None => unreachable!(),
        }
    }

    /// The client goes on in another session, whose number is drawn: of calls that are `Sent` it isn't known what became, those
    /// that are `Held` are `Queued`, and the former session is to be destroyed. A packet that waits is still handed out.
    ///
    /// # Errors
    ///
    /// `NotOpen`.
    pub fn renew(&mut self) -> Result<(), Error>
        ensures refused { (client : Rules) → Is self.old client → TellsOpen (is_open_now client) result }
        ensures is { (client : Rules) → Is self.old client → OnOk result (Is self.new (renewed (word_after drawing 0 self.old.draw) client)) }
        ensures drawn { OnOk result (self.new.draw ≡ draw_after drawing 1 self.old.draw) }
        ensures rest { self.new ≡ record self.old { holder = self.new.holder; draw = self.new.draw } }
        ensures unchanged { OnErr result (self.new ≡ self.old) }
    {
        match self.holder.take() {
            Some(holder) => {
                let (holder, done) = holding::renew(holder, &mut self.draw);
                holding::put(&mut self.holder, holder);
                done
            }
            None => unreachable!(),
        }
    }

    /// The client ends: of calls that are `Sent` it isn't known what became, and the others that weren't decided are
    /// `Refused` with code 0. A packet that waits is still handed out.
    ///
    /// # Errors
    ///
    /// `NotOpen`.
    pub fn end(&mut self) -> Result<(), Error>
        ensures refused { (client : Rules) → Is self.old client → TellsOpen (is_open_now client) result }
        ensures is { (client : Rules) → Is self.old client → OnOk result (Is self.new (ended client)) }
        ensures rest { self.new ≡ record self.old { holder = self.new.holder } }
        ensures unchanged { OnErr result (self.new ≡ self.old) }
    {
        match self.holder.take() {
            Some(holder) => {
                let (holder, done) = holding::end(holder);
                holding::put(&mut self.holder, holder);
                done
            }
            None => unreachable!(),
        }
    }

    // What is due at a moment, where no packet waits.
    fn flush(&mut self, alloc: Global, now: Moment) -> Flush
        ensures flushes { (client : Rules) → Is self.old client → client.has_ended ≡ false
            → Flushes (setting_of drawing self.old.ring) mt_lock self.old.ring now client self.old.draw result (kept_of self.new.holder) self.new.draw }
        ensures ended { (client : Rules) → Is self.old client → client.has_ended ≡ true → (result ≡ flushed.Nothing) × (self.new ≡ self.old) }
        ensures rest { self.new ≡ record self.old { holder = self.new.holder; draw = self.new.draw } }
    {
        match &mut self.holder {
            Some(holder) => holding::flush(holder, alloc, now, &self.seal, &mut self.draw),
            None => unreachable!(),
        }
    }

    /// Makes the packet that is to be sent next, at a moment, unless one that was made waits to be handed out. It waits then,
    /// and `waiting()` has its bytes; none waits where nothing is to be sent.
    ///
    /// # Errors
    ///
    /// `Spent`, there may not be numbers for what is to be sent; `Memory`. By both it is the client that it was.
    pub fn prepare_transmit(&mut self, alloc: Global, now: Moment) -> Result<(), Error>
        ensures waits { IfSome self.old.waiting (λ _. (result ≡ Ok tt) × (self.new ≡ self.old)) }
        ensures polls { (client : Rules) → Is self.old client → self.old.waiting ≡ None
            → Polls (setting_of drawing self.old.ring) mt_lock self.old.ring now client self.old.draw (outcome result self.new.waiting) (kept_of self.new.holder) self.new.draw }
        ensures none_on_fault { OnErr result (self.new.waiting ≡ None) }
        ensures same_ring { self.new.ring ≡ self.old.ring }
    {
        if self.waiting.is_some() {
            return Ok(());
        }
        match self.flush(alloc, now) {
            Flush::Packet(packet) => {
                self.waiting = Some(packet);
                Ok(())
            }
            Flush::Nothing => Ok(()),
            Flush::Spent => Err(Error::Spent),
            Flush::Memory => Err(Error::Memory),
        }
    }

    /// The packet that was made and waits to be handed out, if there is one.
    pub fn waiting(&self) -> Option<&[u8]>
        ensures { MatchOption result (self.now.waiting ≡ None) (λ packet. self.now.waiting ≡ Some packet.now) }
    {
        match &self.waiting {
            Some(packet) => Some(packet.as_slice()),
            None => None,
        }
    }

    /// Hands out the packet that waits, if there is one, at the front of the room, and tells its length.
    ///
    /// # Errors
    ///
    /// `TooShort`, with the length that is needed: the packet waits on, and the room is as it was.
    pub fn take_transmit(&mut self, room: &mut [u8]) -> Result<Option<usize>, Error>
        ensures none { self.old.waiting ≡ None → (result ≡ Ok None) × (room.new ≡ room.old) × (self.new ≡ self.old) }
        ensures some { IfSome self.old.waiting (λ packet. TellsTaken packet room.old room.new result) }
        ensures handed { OnOk result (self.new ≡ record self.old { waiting = None }) }
        ensures unchanged { OnErr result (self.new ≡ self.old) }
    {
        let Some(packet) = &self.waiting else {
            return Ok(None);
        };
        let len = put(packet.as_slice(), room)?;
        self.waiting = None;
        Ok(Some(len))
    }

    /// The packet that is to be sent next, at a moment: one that was made and waits, or else what is due now. Each packet is
    /// handed out once.
    ///
    /// # Errors
    ///
    /// `Spent`, there may not be numbers for what is to be sent; `Memory`. By both it is the client that it was.
    pub fn poll_transmit(&mut self, alloc: Global, now: Moment) -> Result<Option<Octets>, Error>
        ensures handed { IfSome self.old.waiting (λ packet. (result ≡ Ok (Some packet)) × (self.new ≡ record self.old { waiting = None })) }
        ensures polls { (client : Rules) → Is self.old client → self.old.waiting ≡ None
            → Polls (setting_of drawing self.old.ring) mt_lock self.old.ring now client self.old.draw result (kept_of self.new.holder) self.new.draw }
        ensures once { self.new.waiting ≡ None }
        ensures same_ring { self.new.ring ≡ self.old.ring }
    {
        self.prepare_transmit(alloc, now)?;
        Ok(self.waiting.take())
    }

    /// What became of a call.
    ///
    /// # Errors
    ///
    /// `NoCall`, the client has no such call.
    #[tactic(auto, using(crate::proofs::DecidedLemmas::state_there))]
    pub fn state(&self, call: CallNo) -> Result<CallState<'_>, Error>
        ensures state { (client : Rules) → Is self.now client → IfOk result (λ state. state_of call client ≡ Some (shown state)) }
        ensures refused { (client : Rules) → Is self.now client → IfErr result (TellsNoCall call client) }
    {
        let holder = self.holder();
        if call.n == 0 || call.n > u64::from(holder.calls()) {
            return Err(Error::NoCall);
        }
        Ok(holder.state(call))
    }

    /// Puts the reply to a call at the front of the room, and tells its length. The client keeps the reply.
    ///
    /// # Errors
    ///
    /// `NoCall`; `NoReply`, it isn't `Done`; `TooShort`, with the length that is needed. The room is as it was.
    #[tactic(auto, using(crate::proofs::DecidedLemmas::none_told))]
    pub fn take_reply(&self, call: CallNo, room: &mut [u8]) -> Result<usize, Error>
        ensures told { (client : Rules) → Is self.now client → TellsReply (state_of call client) room.old room.new result }
    {
        match self.state(call)? {
            CallState::Done(reply) => put(reply, room),
            _ => Err(Error::NoReply),
        }
    }

    /// Whether it is known of each call what became of it, or known that it isn't: each is `Done`, `Refused` or `Unknown`.
    pub fn calls_decided(&self) -> bool
        ensures { (client : Rules) → Is self.now client → MatchBool result (AreDecided (calls_of client)) (AreDecided (calls_of client) → ⊥) }
    {
        let holder = self.holder();
        for place in 0..holder.calls() {
            let call = CallNo {
                n: u64::from(place) + 1,
            };
            if is_undecided(&holder.state(call)) {
                return false;
            }
        }
        true
    }
}

// Whether it isn't known yet what becomes of a call in this state.
fn is_undecided(state: &CallState<'_>) -> bool
    ensures { result ≡ is_open (shown state.now) }
{
    match state {
        CallState::Queued | CallState::Sent | CallState::Held => true,
        CallState::Done(_) | CallState::Refused(_) | CallState::Unknown(_) => false,
    }
}
