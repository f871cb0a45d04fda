//! What waits beside the calls goes into a packet.

ghost use Rattle.std.specs.Prelude.{◌≡◌, ◌<◌, ◌≤◌, ◌+◌, ◌++◌, ◌∷◌, ℕ, List, [], drop, fold, option_map, slice_get, length, min, take, vec_len, vec_capacity, IfSome, IsSome, IsTrue, IsFalse, false, true, None, Some};
ghost use Rattle.msg_ids.specs.Counters.{after_next, next_number, room, seq_of};
ghost use Rattle.call_table.specs.Kept.{numbers_in, state_in};
ghost use Rattle.call_table.specs.Table.{IsGiven, Sent};
ghost use Rattle.service_tl.specs.Items.{spelling_of};
ghost use Rattle.auth_keys.specs.Rings.{entry_of};
ghost use Rattle.client_rules.specs.Client.{Client, is_open, time_of, with_binding};
ghost use Rattle.client_rules.specs.Client as rules;
ghost use Rattle.service_tl.specs.declared.lists.Message.{Message};
ghost use Rattle.draws.specs.Draws.{draw_after};
ghost use Rattle.client_rules.specs.Filling.{Filling, changes, says, says_acks, says_binding, says_destroyed, says_drop, says_ping, says_resent, says_salts, says_states, says_told, numbers_max};
ghost use Rattle.containers.specs.Container.{message_head};
ghost use Rattle.client_core.specs.Draft.{CanBeSaid, DropsSoFar, Goes, HasNumbers, HasRoomFor, Holds, TakesUp, drops, enters, item_of, needs_answer, said_bytes};
ghost use Rattle.client_core.specs.Owed.{SameQueue, asked_count, binding_bytes, binding_most, binding_numbers, drops_bytes, holds_back, list_bytes, needs_binding, one_bytes, salts_bytes, told_bytes};
ghost use Rattle.client_core.specs.Asked.{HasRoom, asked_message, bind_body_bytes};
ghost use Rattle.client_core.specs.Flushed.{setting_of};
ghost use Rattle.client_core.specs.Kept.{Stands, asked_in, waiting_in};
ghost use Rattle.client_core.specs.Sound.{CanWait};

use crate::asking::{BODY_BYTES, BindRoom, sizes_of_bindings};
use crate::binding::Binding;
use crate::core_client::Core;
use crate::filling::Draft;
use crate::rebinding::{Needed, need_of, set_binding};
use crate::saying::Outgoing;
use crate::waiting::{Asked, Waiting};
use auth_keys::AuthKey;
use call_table::{CallNo, Calls, Flags, Group};
use client_calls::laws::calls_stay_sound;
use draws::Draw;
use envelope::Seal;
use msg_ids::{Moment, Numbers};
use octets::IdList;
use temp_keys::Inner;
use tl_codec::LONGS_MAX;

impl Core {
    /// The server's time, as far as the client knows.
    pub(crate) fn time(&self) -> Moment
        ensures { (client : Client) → Stands self.now client → result ≡ time_of client }
    {
        let passed = self
            .moment
            .seconds()
            .saturating_sub(self.clock.here.seconds());
        Moment::new(self.clock.there.saturating_add(passed))
    }

    /// Says an item in the packet, where it fits, and whether it does.
    pub(crate) fn say<D: Draw>(&mut self, draft: &mut Draft, said: &Outgoing<'_>) -> bool
        requires lawful { CanBeSaid said.now }
        requires numbers { HasNumbers self.old draft.old }
        requires bytes { HasRoomFor (message_head + said_bytes said.now) draft.old }
        ensures goes { IsTrue result → (filling : Filling D) → Goes self.old draft.old filling
            → Goes self.new draft.new (says (needs_answer said.now) (item_of said.now) (λ client. client) filling) }
        ensures then { IsTrue result → (filling : Filling D) (change : Client → Client) → Goes self.old draft.old filling
            → says (needs_answer said.now) (item_of said.now) change filling ≡ changes change (says (needs_answer said.now) (item_of said.now) (λ client. client) filling) }
        ensures stays { IsFalse result → (filling : Filling D) (change : Client → Client) → Goes self.old draft.old filling
            → Goes self.new draft.new (says (needs_answer said.now) (item_of said.now) change filling) }
        ensures full { IsFalse result → draft.new.is_full ≡ true }
        ensures fits { result ≡ enters (said_bytes said.now) draft.old }
        ensures size { length (spelling_of (item_of said.now)) ≡ said_bytes said.now }
        ensures number { IsTrue result → draft.new.number ≡ self.new.rest.counters.last }
        ensures numbers { HasNumbers self.new draft.new }
        ensures takes { TakesUp (message_head + said_bytes said.now) 0 draft.old draft.new }
        ensures rest { record self.new.rest { counters = self.old.rest.counters } ≡ self.old.rest }
        ensures calls { self.new.calls ≡ self.old.calls }
    {
        let at = self.time();
        draft.say(at, &mut self.numbers, said)
    }

    /// A ping goes, where one waits.
    #[tactic(auto, using(crate::proofs::RoomLemmas::takes_none))]
    pub(crate) fn says_ping<D: Draw>(&mut self, draft: &mut Draft)
        requires numbers { HasNumbers self.old draft.old }
        requires bytes { HasRoomFor one_bytes draft.old }
        ensures goes { (filling : Filling D) → Goes self.old draft.old filling → Goes self.new draft.new (says_ping filling.client.waiting.ping filling) }
        ensures numbers { HasNumbers self.new draft.new }
        ensures takes { TakesUp one_bytes 0 draft.old draft.new }
        ensures waiting { record self.new.rest.waiting { ping = None } ≡ record self.old.rest.waiting { ping = None } }
        ensures rest { record self.new.rest { counters = self.old.rest.counters; waiting = self.old.rest.waiting } ≡ self.old.rest }
        ensures calls { self.new.calls ≡ self.old.calls }
    {
        if let Some(id) = self.waiting.ping {
            if self.say::<D>(draft, &Outgoing::Pings { id }) {
                self.waiting.ping = None;
            }
        }
    }

    /// A request for salts goes, where one waits.
    #[tactic(auto, using(crate::proofs::RoomLemmas::takes_none))]
    pub(crate) fn says_salts<D: Draw>(&mut self, draft: &mut Draft)
        requires numbers { HasNumbers self.old draft.old }
        requires bytes { HasRoomFor salts_bytes draft.old }
        ensures goes { (filling : Filling D) → Goes self.old draft.old filling → Goes self.new draft.new (says_salts filling.client.waiting.salts filling) }
        ensures numbers { HasNumbers self.new draft.new }
        ensures takes { TakesUp salts_bytes 0 draft.old draft.new }
        ensures waiting { record self.new.rest.waiting { salts = None } ≡ record self.old.rest.waiting { salts = None } }
        ensures rest { record self.new.rest { counters = self.old.rest.counters; waiting = self.old.rest.waiting } ≡ self.old.rest }
        ensures calls { self.new.calls ≡ self.old.calls }
    {
        if let Some(count) = self.waiting.salts {
            if self.say::<D>(draft, &Outgoing::Salts { count }) {
                self.waiting.salts = None;
            }
        }
    }

    /// A request to destroy a former session goes, where one waits and the client is open.
    #[tactic(auto, using(crate::proofs::RoomLemmas::takes_none))]
    pub(crate) fn says_destroyed<D: Draw>(&mut self, draft: &mut Draft)
        requires numbers { HasNumbers self.old draft.old }
        requires bytes { HasRoomFor one_bytes draft.old }
        ensures goes { (filling : Filling D) → Goes self.old draft.old filling → Goes self.new draft.new (says_destroyed filling.client.waiting.destroyed filling) }
        ensures numbers { HasNumbers self.new draft.new }
        ensures takes { TakesUp one_bytes 0 draft.old draft.new }
        ensures waiting { record self.new.rest.waiting { destroyed = None } ≡ record self.old.rest.waiting { destroyed = None } }
        ensures rest { record self.new.rest { counters = self.old.rest.counters; waiting = self.old.rest.waiting } ≡ self.old.rest }
        ensures calls { self.new.calls ≡ self.old.calls }
    {
        if !self.is_open() {
            return;
        }
        if let Some(session) = self.waiting.destroyed {
            if self.say::<D>(draft, &Outgoing::Destroys { session }) {
                self.waiting.destroyed = None;
            }
        }
    }

    /// The states that the server asked for go, where they wait.
    #[tactic(auto, using(crate::proofs::RoomLemmas::takes_none))]
    pub(crate) fn says_told<D: Draw>(&mut self, draft: &mut Draft)
        requires numbers { HasNumbers self.old draft.old }
        requires bytes { HasRoomFor (told_bytes self.old.rest.waiting.told) draft.old }
        ensures goes { (filling : Filling D) → Goes self.old draft.old filling → Goes self.new draft.new (says_told filling.client.waiting.told filling) }
        ensures numbers { HasNumbers self.new draft.new }
        ensures takes { TakesUp (told_bytes self.old.rest.waiting.told) 0 draft.old draft.new }
        ensures waiting { record self.new.rest.waiting { told = None } ≡ record self.old.rest.waiting { told = None } }
        ensures rest { record self.new.rest { counters = self.old.rest.counters; waiting = self.old.rest.waiting } ≡ self.old.rest }
        ensures calls { self.new.calls ≡ self.old.calls }
    {
        let at = self.time();
        if let Some(states) = &self.waiting.told {
            let said = Outgoing::Told {
                request: states.request,
                info: states.info.as_slice(),
            };
            if draft.say(at, &mut self.numbers, &said) {
                forget_told(&mut self.waiting);
            }
        }
    }

    /// Answers are asked for that are there, where some are to be.
    #[tactic(auto, using(crate::proofs::RoomLemmas::takes_none))]
    pub(crate) fn says_resent<D: Draw>(&mut self, draft: &mut Draft)
        requires numbers { HasNumbers self.old draft.old }
        requires bytes { HasRoomFor (list_bytes (length self.old.rest.waiting.resent)) draft.old }
        ensures goes { (filling : Filling D) → Goes self.old draft.old filling → Goes self.new draft.new (says_resent filling.client.waiting.resent filling) }
        ensures numbers { HasNumbers self.new draft.new }
        ensures takes { TakesUp (list_bytes (length self.old.rest.waiting.resent)) 0 draft.old draft.new }
        ensures waiting { record self.new.rest.waiting { resent = [] } ≡ record self.old.rest.waiting { resent = [] } }
        ensures rest { record self.new.rest { counters = self.old.rest.counters; waiting = self.old.rest.waiting } ≡ self.old.rest }
        ensures calls { self.new.calls ≡ self.old.calls }
    {
        let at = self.time();
        let numbers = self.waiting.resent.ids();
        if numbers.is_empty() {
            return;
        }
        if draft.say(at, &mut self.numbers, &Outgoing::Resent(numbers)) {
            self.waiting.resent.clear();
        }
    }

    /// The acknowledgements go that wait. The list has room for them.
    #[tactic(auto, using(crate::proofs::RoomLemmas::takes_none))]
    pub(crate) fn says_acks<D: Draw>(&mut self, draft: &mut Draft, list: Vec<u64>)
        requires numbers { HasNumbers self.old draft.old }
        requires bytes { HasRoomFor (list_bytes (length self.old.calls.acks)) draft.old }
        requires empty { (list.items ≡ []) × (vec_len list ≡ 0) }
        requires room { length self.old.calls.acks ≤ vec_capacity list }
        ensures goes { (filling : Filling D) → Goes self.old draft.old filling → Goes self.new draft.new (says_acks filling.client.table.acks filling) }
        ensures numbers { HasNumbers self.new draft.new }
        ensures takes { TakesUp (list_bytes (length self.old.calls.acks)) 0 draft.old draft.new }
        ensures rest { record self.new.rest { counters = self.old.rest.counters } ≡ self.old.rest }
        ensures rows { self.new.calls.rows ≡ self.old.calls.rows }
        ensures room { self.new.calls.room ≡ self.old.calls.room }
    {
        if self.calls.acks() == 0 {
            return;
        }
        let acks = acks_in(&self.calls, list);
        if self.say::<D>(draft, &Outgoing::Acks(&acks)) {
            self.calls.clear_acks();
        }
    }

    /// The states of calls are asked for, where there is a wish to. The list has room for their numbers.
    #[tactic(auto, using(crate::proofs::RoomLemmas::takes_none))]
    pub(crate) fn says_states<D: Draw>(&mut self, draft: &mut Draft, list: Vec<u64>)
        requires numbers { HasNumbers self.old draft.old }
        requires bytes { HasRoomFor (list_bytes (asked_count self.old.rest.waiting.states self.old.calls.rows)) draft.old }
        requires empty { (list.items ≡ []) × (vec_len list ≡ 0) }
        requires room { asked_count self.old.rest.waiting.states self.old.calls.rows ≤ vec_capacity list }
        ensures goes { (filling : Filling D) → Goes self.old draft.old filling → Goes self.new draft.new (says_states filling.client.waiting.states filling) }
        ensures numbers { HasNumbers self.new draft.new }
        ensures takes { TakesUp (list_bytes (asked_count self.old.rest.waiting.states self.old.calls.rows)) 0 draft.old draft.new }
        ensures waiting { record self.new.rest.waiting { states = false } ≡ record self.old.rest.waiting { states = false } }
        ensures rest { record self.new.rest { counters = self.old.rest.counters; waiting = self.old.rest.waiting; asked = self.old.rest.asked } ≡ self.old.rest }
        ensures calls { self.new.calls ≡ self.old.calls }
    {
        if !self.waiting.states {
            return;
        }
        let numbers = living_in(&self.calls, list);
        if self.say::<D>(draft, &Outgoing::States(&numbers)) {
            self.waiting.states = false;
            asks(&mut self.asked, draft.number(), numbers);
        }
    }

    /// A binding is asked for, where the client is open and needs it, and the message fits.
    pub(crate) fn says_binding<S: Seal, D: Draw>(
        &mut self,
        draft: &mut Draft,
        room: BindRoom,
        seal: &S,
        draw: &mut D,
    )
        requires numbers { HasNumbers self.old draft.old }
        requires bytes { HasRoomFor (binding_most self.old.rest) draft.old }
        requires place { binding_numbers self.old.rest ≤ draft.old.numbers }
        requires room { needs_binding self.old.rest ≡ true → HasRoom room }
        requires perm { IfSome self.old.rest.temporary (λ temporary. IsSome (entry_of temporary.perm (S.keys seal.now))) }
        ensures goes { (filling : Filling D) → Goes self.old draft.old filling → filling.draw ≡ draw.old
            → Goes self.new draft.new (says_binding (setting_of D.step (S.keys seal.now)) filling.client.temporary filling) }
        ensures drawn { (filling : Filling D) → Goes self.old draft.old filling → filling.draw ≡ draw.old
            → (says_binding (setting_of D.step (S.keys seal.now)) filling.client.temporary filling).draw ≡ draw.new }
        ensures numbers { HasNumbers self.new draft.new }
        ensures takes { TakesUp (binding_most self.old.rest) (binding_numbers self.old.rest) draft.old draft.new }
        ensures held { holds_back self.old.rest ≡ true → holds_back self.new.rest ≡ true }
        ensures rest { record self.new.rest { counters = self.old.rest.counters; temporary = self.old.rest.temporary } ≡ self.old.rest }
        ensures calls { self.new.calls ≡ self.old.calls }
    {
        sizes_of_bindings::<D>();
        let Some(needed) = need_of(&self.temporary) else {
            drop(room);
            return;
        };
        let Some(key) = seal.ring().find(needed.perm) else {
            drop(room);
            return;
        };
        if !self.is_open() {
            drop(room);
            return;
        }
        if !draft.takes(BODY_BYTES) {
            drop(room);
            return;
        }
        let at = self.time();
        self.ask_binding(draft, at, room, key, needed, draw);
    }

    /// Asks for a binding in a packet in which the message fits.
    fn ask_binding<D: Draw>(
        &mut self,
        draft: &mut Draft,
        at: Moment,
        room: BindRoom,
        key: &AuthKey,
        needed: Needed,
        draw: &mut D,
    )
        requires numbers { HasNumbers self.old draft.old }
        requires bytes { HasRoomFor binding_bytes draft.old }
        requires place { 0 < draft.old.numbers }
        requires room { HasRoom room }
        requires fits { enters bind_body_bytes draft.old ≡ true }
        ensures holds { (messages : List Message) → Holds draft.old messages
            → Holds draft.new (messages ++ asked_message D.step key.now at self.old.rest needed draw.old ∷ []) }
        ensures inner { draft.new.inner ≡ draft.old.inner ++ next_number self.old.rest.counters.last at ∷ [] }
        ensures kept { draft.new.is_full ≡ draft.old.is_full }
        ensures asked { self.new.rest ≡ with_binding (rules.Asked (asked_message D.step key.now at self.old.rest needed draw.old)) (record self.old.rest { counters = after_next self.old.rest.counters at true }) }
        ensures drawn { draw.new ≡ draw_after D.step 4 draw.old }
        ensures numbers { HasNumbers self.new draft.new }
        ensures takes { TakesUp binding_bytes 1 draft.old draft.new }
        ensures calls { self.new.calls ≡ self.old.calls }
    {
        calls_stay_sound();
        let (number, seq) = given(&mut self.numbers, at, true);
        let inner = Inner {
            nonce: draw.word(),
            temp: self.key,
            perm: needed.perm,
            session: self.session,
            expires: needed.expires,
        };
        let body = room.body(key, number, &inner, draw);
        draft.put(number, seq, body.as_slice());
        set_binding(&mut self.temporary, Binding::Asked { number, seq, body });
    }

    /// The answer to a call is to be dropped: that goes, where it fits, and whether it does.
    pub(crate) fn says_drop<D: Draw>(&mut self, draft: &mut Draft, call: CallNo) -> bool
        requires given { IsGiven call self.old.calls.rows }
        requires sent { state_in call self.old.calls.rows ≡ Some Sent }
        requires numbers { HasNumbers self.old draft.old }
        requires bytes { HasRoomFor one_bytes draft.old }
        ensures goes { (filling : Filling D) → Goes self.old draft.old filling → Goes self.new draft.new (says_drop filling call) }
        ensures left { IsTrue result → (filling : Filling D) → Goes self.old draft.old filling → slice_get (drops filling) 0 ≡ Some call → drops (says_drop filling call) ≡ drop 1 (drops filling) }
        ensures full { IsFalse result → draft.new.is_full ≡ true }
        ensures room { self.new.calls.room ≡ self.old.calls.room }
        ensures numbers { HasNumbers self.new draft.new }
        ensures takes { TakesUp one_bytes 0 draft.old draft.new }
        ensures queued { SameQueue self.old.calls.rows self.new.calls.rows }
        ensures rest { record self.new.rest { counters = self.old.rest.counters } ≡ self.old.rest }
    {
        let Some(living) = self.calls.living(call) else {
            return true;
        };
        let number = living.number;
        if !self.say::<D>(draft, &Outgoing::Drops { number }) {
            return false;
        }
        calls_stay_sound();
        let flags = self.calls.flags(call);
        self.calls.set_flags(
            call,
            Flags {
                alone: flags.alone,
                dropping: false,
            },
        );
        true
    }

    /// The next wish to drop an answer goes, where it fits.
    fn says_next_drop<D: Draw>(&mut self, draft: &mut Draft)
        requires room { draft.old.is_full ≡ false }
        requires numbers { HasNumbers self.old draft.old }
        requires bytes { HasRoomFor one_bytes draft.old }
        ensures so_far { (first : Filling D) (k count : ℕ) → k < count → DropsSoFar first self.old draft.old k count → DropsSoFar first self.new draft.new (k + 1) count }
        ensures numbers { HasNumbers self.new draft.new }
        ensures takes { TakesUp one_bytes 0 draft.old draft.new }
        ensures queued { SameQueue self.old.calls.rows self.new.calls.rows }
        ensures rest { record self.new.rest { counters = self.old.rest.counters } ≡ self.old.rest }
        ensures room { self.new.calls.room ≡ self.old.calls.room }
    {
        if let Some(call) = self.calls.member(Group::Dropping, 0) {
            let _ = self.says_drop::<D>(draft, call);
        }
    }

    /// The wishes to drop answers go, in call order, as far as they fit.
    pub(crate) fn says_drops<D: Draw>(&mut self, draft: &mut Draft)
        requires numbers { HasNumbers self.old draft.old }
        requires bytes { HasRoomFor (drops_bytes self.old.calls.rows) draft.old }
        ensures goes { (filling : Filling D) → Goes self.old draft.old filling → Goes self.new draft.new (fold says_drop filling (drops filling)) }
        ensures numbers { HasNumbers self.new draft.new }
        ensures takes { TakesUp (drops_bytes self.old.calls.rows) 0 draft.old draft.new }
        ensures queued { SameQueue self.old.calls.rows self.new.calls.rows }
        ensures rest { record self.new.rest { counters = self.old.rest.counters } ≡ self.old.rest }
        ensures room { self.new.calls.room ≡ self.old.calls.room }
    {
        let count = self.calls.members(Group::Dropping);
        for k in 0..count {
            if draft.is_full() {
                return;
            }
            self.says_next_drop::<D>(draft);
        }
    }
}

/// The next number and its seq, where there is room for one.
pub(crate) fn given(numbers: &mut Numbers, at: Moment, content: bool) -> (u64, u32)
    requires room { 0 < room numbers.old }
    ensures given { result ≡ (next_number numbers.old.last at, seq_of numbers.old.content_messages content) }
    ensures counted { numbers.new ≡ after_next numbers.old at content }
    ensures room_lasts { room numbers.old ≤ room numbers.new + 1 }
{
    numbers.next(at, content).unwrap()
}

/// The states of these were asked for by the message of this number.
fn asks(asked: &mut Option<Asked>, number: u64, numbers: Vec<u64>)
    ensures { option_map asked_in asked.new ≡ Some (record { number = number; numbers = numbers.items }) }
{
    *asked = Some(Asked {
        number,
        numbers: IdList::from(numbers),
    });
}

/// No states wait any more.
fn forget_told(waiting: &mut Waiting)
    ensures can_wait { CanWait waiting.old → CanWait waiting.new }
    ensures told { waiting_in waiting.new ≡ record (waiting_in waiting.old) { told = None } }
{
    waiting.told = None;
}

/// The acknowledgements that wait, in a list that has room for them.
#[tactic(auto, using(crate::proofs::ListLemmas::take_get, crate::proofs::ListLemmas::get_none))]
fn acks_in(calls: &Calls, mut list: Vec<u64>) -> Vec<u64>
    requires empty { (list.items ≡ []) × (vec_len list ≡ 0) }
    requires room { length calls.now.acks ≤ vec_capacity list }
    ensures { result.items ≡ calls.now.acks }
{
    for k in 0..calls.acks() {
        if let Some(number) = calls.ack_at(k) {
            list.push_reserved(number);
        }
    }
    list
}

/// The least numbers under which calls are outstanding, at most 8,192, in a list that has room for them.
#[tactic(auto, using(crate::proofs::ListLemmas::take_get, crate::proofs::ListLemmas::get_none, crate::proofs::ListLemmas::take_none))]
fn living_in(calls: &Calls, mut list: Vec<u64>) -> Vec<u64>
    requires empty { (list.items ≡ []) × (vec_len list ≡ 0) }
    requires room { min (length (numbers_in calls.now.rows)) numbers_max ≤ vec_capacity list }
    ensures { result.items ≡ take numbers_max (numbers_in calls.now.rows) }
{
    for k in 0..LONGS_MAX {
        match calls.living_at(k) {
            None => return list,
            Some(number) => list.push_reserved(number),
        }
    }
    list
}
