//! What an opening and an open client share.

ghost use Rattle.byteorder.specs.Endian.{little_number};
ghost use Rattle.call_table.specs.Kept.{Stands as StandsFor, state_in};
ghost use Rattle.call_table.specs.Table.{IsEarlier, IsGiven, Sent, Table, at, calls_max, state_at};
ghost use Rattle.client_rules.specs.Asking.{alone_if_asked, begins_service, body_bytes_max, is_call_sent, fault_at, has_call, has_earlier, is_refused};
ghost use Rattle.client_core.specs.Kept.{temporary_in};
ghost use Rattle.client_core.specs.Sound.{CanBind};
ghost use Rattle.client_core.specs.Told.{TellsDrop, TellsFault};
ghost use Rattle.std.specs.Prelude.{◌≡◌, if◌then◌else◌, ◌<◌, ◌≤◌, ◌%◌, ◌&&◌, ◌+◌, [], None, option_map, Option, Some, IfOk, IfSome, IsTrue, OnOk, OnErr, length};

use crate::binding::{BindState, Temporary};
use crate::fault::{NotSent, SubmitFault};
use crate::number_list::NumberList;
use crate::waiting::{Asked, Waiting};
use byteorder::{ByteOrder, LittleEndian};
use call_table::{CALLS_MAX, CallNo, CallState, Calls, Flags, Group};
use client_calls::laws::calls_stay_sound;
use client_calls::mark_sent;
use draws::Draw;
use msg_ids::{Moment, Numbers};
use octets::Memory;
use service_tl::{GZIP_PACKED, is_service};
use std::alloc::Global;
use std::fmt;
use std::marker::Model;

/// The most bytes of a call's body.
const BODY_BYTES_MAX: usize = 262_144;

/// The bytes of a word.
const WORD_BYTES: usize = 4;

/// The server's time at a moment of the client's own.
#[derive(Clone, Copy)]
pub(crate) struct Clock {
    pub(crate) there: u64,
    pub(crate) here: Moment,
}

/// A client that hasn't ended.
#[derive(Drop)]
pub(crate) struct Core {
    pub(crate) key: u64,
    pub(crate) temporary: Option<Temporary>,
    pub(crate) session: u64,
    pub(crate) former: NumberList,
    pub(crate) salt: u64,
    pub(crate) learnt: NumberList,
    pub(crate) moment: Moment,
    pub(crate) clock: Clock,
    pub(crate) numbers: Numbers,
    pub(crate) waiting: Waiting,
    pub(crate) asked: Option<Asked>,
    pub(crate) calls: Calls,
}

impl Model for Core {
    ghost use Rattle.std.specs.Prelude.{false, option_map};
    ghost use Rattle.call_table.specs.Table.{no_calls};
    ghost use Rattle.client_core.specs.Kept.{CanRenew, Contents, temporary_in, waiting_in, asked_in};

    ghost Value = { Contents };

    ghost use Rattle.client_calls.specs.Sound.{AreSound};
    ghost use Rattle.client_core.specs.Sound.{CanBind, CanWait};

    ghost view = { λ core. record {
      rest = record {
        key = core.key;
        temporary = option_map temporary_in core.temporary;
        session = core.session;
        former = core.former.numbers;
        salt = core.salt;
        learnt = core.learnt.numbers;
        now = core.moment;
        clock = record { there = core.clock.there; here = core.clock.here };
        counters = core.numbers;
        waiting = waiting_in core.waiting;
        asked = option_map asked_in core.asked;
        table = no_calls;
        has_ended = false;
      };
      calls = core.calls;
      room = record { sessions = core.former.room; learnt = core.learnt.room; resent = core.waiting.resent.room };
    } };

    ghost invariant = { λ core. AreSound core.numbers.last core.calls.rows × CanBind core.temporary × (CanWait core.waiting × CanRenew core.learnt.numbers core.former.room) };
}

impl fmt::Debug for Core {
    /// Its session, and how many calls it has: all of it would be long.
    fn fmt<W: fmt::Write>(&self, f: &mut fmt::Formatter<W>) -> fmt::Result {
        let calls = self.calls.count();
        f.debug_struct("Core")
            .field("session", &self.session)
            .field("calls", &calls)
            .finish_non_exhaustive()
    }
}

impl Core {
    ghost use Rattle.draws.specs.Draws.{draw_after, word_after};
    ghost use Rattle.call_table.specs.Table.{Queued, call_no};
    ghost use Rattle.call_table.specs.Kept.{shown as told};
    ghost use Rattle.client_rules.specs.Client.{Client, fresh_client, calls_of};
    ghost use Rattle.client_rules.specs.Asking.{attached, binding_of, can_drop, dropped, submit_fault, submitted, ticked, pinged, salts_asked};
    ghost use Rattle.client_core.specs.Keys.{keys_in};
    ghost use Rattle.client_core.specs.Kept.{Stands};
    ghost use Rattle.client_core.specs.Told.{shown};

    /// A client in a session whose number is drawn. It stands in a box: the client moves with each packet that it takes.
    pub(crate) fn new<D: Draw>(
        alloc: Global,
        key: u64,
        temporary: Option<Temporary>,
        draw: &mut D,
    ) -> Result<Box<Core>, Memory>
        requires { CanBind temporary }
        ensures stands { IfOk result (λ core. Stands core.value (fresh_client key (option_map temporary_in temporary) (word_after D.step 0 draw.old))) }
        ensures after { OnOk result (draw.new ≡ draw_after D.step 1 draw.old) }
        ensures learnt { IfOk result (λ core. core.value.rest.learnt ≡ []) }
        ensures count { IfOk result (λ core. length core.value.calls.rows ≡ 0) }
        ensures unchanged_on_memory { OnErr result (draw.new ≡ draw.old) }
    {
        let mut core = Box::new(alloc, Core::fresh(alloc, key, temporary)?)?;
        core.begins(draw.word());
        Ok(core)
    }

    // The session of a client that has sent nothing.
    fn begins(&mut self, session: u64)
        ensures stands { (client : Client) → Stands self.old client → Stands self.new (record client { session = session }) }
        ensures learnt { self.new.rest.learnt ≡ self.old.rest.learnt }
        ensures calls { self.new.calls ≡ self.old.calls }
    {
        self.session = session;
    }

    // A client whose session has no number yet.
    fn fresh(alloc: Global, key: u64, temporary: Option<Temporary>) -> Result<Core, Memory>
        requires { CanBind temporary }
        ensures stands { IfOk result (λ core. Stands core (fresh_client key (option_map temporary_in temporary) 0)) }
        ensures learnt { IfOk result (λ core. core.rest.learnt ≡ []) }
        ensures count { IfOk result (λ core. length core.calls.rows ≡ 0) }
    {
        let mut former = NumberList::new(alloc);
        former.reserve(1)?;
        let calls = Calls::new(alloc)?;
        let learnt = NumberList::new(alloc);
        let waiting = Waiting::new(alloc);
        Ok(Core {
            key,
            temporary,
            session: 0,
            former,
            salt: 0,
            learnt,
            moment: Moment::new(0),
            clock: Clock {
                there: 0,
                here: Moment::new(0),
            },
            numbers: Numbers::new(),
            waiting,
            asked: None,
            calls,
        })
    }

    /// The number of the present session.
    pub(crate) fn session(&self) -> u64
        ensures { result ≡ self.now.rest.session }
    {
        self.session
    }

    /// How many calls there are.
    pub(crate) fn count(&self) -> u32
        ensures kept { result ≡ length self.now.calls.rows }
        ensures count { (table : Table) → StandsFor self.now.calls table → result ≡ length table.calls }
    {
        self.calls.count()
    }

    /// What became of a call.
    pub(crate) fn state(&self, call: CallNo) -> CallState<'_>
        requires given { IsGiven call self.now.calls.rows }
        ensures kept { state_in call self.now.calls.rows ≡ Some (told result) }
        ensures state { (table : Table) → StandsFor self.now.calls table → state_at call table.calls ≡ Some (told result) }
    {
        self.calls.state(call)
    }

    /// Submits a call.
    pub(crate) fn submit(
        &mut self,
        alloc: Global,
        body: &[u8],
        after: Option<CallNo>,
    ) -> Result<CallNo, SubmitFault>
        ensures refused { (client : Client) → Stands self.old client → TellsFault (submit_fault body.now after client) result }
        ensures call { IfOk result (λ call. (client : Client) → Stands self.old client → call ≡ call_no (length (calls_of client))) }
        ensures stands { OnOk result ((client : Client) → Stands self.old client → Stands self.new (submitted body.now after client)) }
        ensures rest { self.new.rest ≡ self.old.rest }
        ensures count { OnOk result (length self.new.calls.rows ≡ length self.old.calls.rows + 1) }
        ensures given { IfOk result (λ call. IsGiven call self.new.calls.rows) }
        ensures queued { IfOk result (λ call. state_in call self.new.calls.rows ≡ Some Queued) }
        ensures unchanged { OnErr result (self.new ≡ self.old) }
    {
        check(self.calls.count(), body, after)?;
        match self.calls.add(alloc, body, after) {
            Ok(call) => Ok(call),
            Err(Memory) => Err(SubmitFault::Memory),
        }
    }

    /// The states of the calls are to be asked for, where one is sent.
    #[tactic(auto, using(crate::proofs::TestLemmas::any_of_group))]
    pub(crate) fn tick(&mut self)
        ensures stands { (client : Client) → Stands self.old client → Stands self.new (ticked client) }
        ensures keys { keys_in self.new ≡ keys_in self.old }
        ensures session { self.new.rest.session ≡ self.old.rest.session }
        ensures calls { self.new.calls ≡ self.old.calls }
        ensures learnt { self.new.rest.learnt ≡ self.old.rest.learnt }
    {
        let has_sent = self.calls.members(Group::Outstanding) > 0;
        self.waiting.states = has_sent || self.waiting.states;
    }

    /// A ping waits, in place of an earlier one.
    pub(crate) fn ping(&mut self, id: u64)
        ensures stands { (client : Client) → Stands self.old client → Stands self.new (pinged id client) }
        ensures keys { keys_in self.new ≡ keys_in self.old }
        ensures session { self.new.rest.session ≡ self.old.rest.session }
        ensures calls { self.new.calls ≡ self.old.calls }
        ensures learnt { self.new.rest.learnt ≡ self.old.rest.learnt }
    {
        self.waiting.ping = Some(id);
    }

    /// A request for salts waits, in place of an earlier one.
    pub(crate) fn ask_salts(&mut self, n: u32)
        ensures stands { (client : Client) → Stands self.old client → Stands self.new (salts_asked n client) }
        ensures keys { keys_in self.new ≡ keys_in self.old }
        ensures session { self.new.rest.session ≡ self.old.rest.session }
        ensures calls { self.new.calls ≡ self.old.calls }
        ensures learnt { self.new.rest.learnt ≡ self.old.rest.learnt }
    {
        self.waiting.salts = Some(n);
    }

    /// A connection was opened: the binding that was asked for and all calls that are sent go again.
    pub(crate) fn attach(&mut self)
        ensures stands { (client : Client) → Stands self.old client → Stands self.new (attached client) }
        ensures learnt { self.new.rest.learnt ≡ self.old.rest.learnt }
    {
        mark_asked(&mut self.temporary);
        mark_sent(&mut self.calls);
    }

    /// The answer to a call is to be dropped.
    pub(crate) fn drop_answer(&mut self, call: CallNo) -> Result<(), NotSent>
        ensures told { (client : Client) → Stands self.old client → TellsDrop (can_drop call client) result }
        ensures stands { (client : Client) → Stands self.old client → Stands self.new (dropped call client) }
        ensures rest { self.new.rest ≡ self.old.rest }
        ensures unchanged { OnErr result (self.new ≡ self.old) }
    {
        if !can_drop(&self.calls, call) {
            return Err(NotSent);
        }
        calls_stay_sound();
        let flags = self.calls.flags(call);
        self.calls.set_flags(
            call,
            Flags {
                alone: flags.alone,
                dropping: true,
            },
        );
        Ok(())
    }

    /// What became of the binding; none under a permanent key.
    pub(crate) fn binding(&self) -> Option<BindState>
        ensures { (client : Client) → Stands self.now client → result ≡ option_map shown (binding_of client) }
    {
        match &self.temporary {
            None => None,
            Some(temporary) => Some(temporary.binding.state()),
        }
    }
}

/// A binding that was asked for is to be asked for again, alone.
fn mark_asked(temporary: &mut Option<Temporary>)
    ensures can_bind { CanBind temporary.old → CanBind temporary.new }
    ensures marked { option_map temporary_in temporary.new ≡ option_map alone_if_asked (option_map temporary_in temporary.old) }
{
    if let Some(temporary) = temporary {
        temporary.mark();
    }
}

/// Whether a call is `Sent`.
fn is_sent(calls: &Calls, call: CallNo) -> bool
    requires given { IsGiven call calls.now.rows }
    ensures sent { IsTrue result → state_in call calls.now.rows ≡ Some Sent }
    ensures told { (table : Table) → StandsFor calls.now table → is_call_sent (at call table.calls) ≡ result }
    ensures state { IsTrue result → (table : Table) → StandsFor calls.now table → state_at call table.calls ≡ Some Sent }
{
    matches!(calls.state(call), CallState::Sent)
}

/// Whether there is this call, and it is `Sent`.
fn can_drop(calls: &Calls, call: CallNo) -> bool
    ensures given { IsTrue result → IsGiven call calls.now.rows }
    ensures sent { IsTrue result → state_in call calls.now.rows ≡ Some Sent }
    ensures told { (table : Table) → StandsFor calls.now table → (has_call (length table.calls) call && is_call_sent (at call table.calls)) ≡ result }
{
    has_earlier(calls.count(), Some(call)) && is_sent(calls, call)
}

/// Whether a client of so many calls takes this one, memory aside.
fn check(count: u32, body: &[u8], after: Option<CallNo>) -> Result<(), SubmitFault>
    ensures told { TellsFault (fault_at count body.now after) result }
    ensures few { OnOk result (count < calls_max) }
    ensures earlier { OnOk result (IfSome after (λ one. IsEarlier count one)) }
    ensures words { OnOk result (length body.now % 4 ≡ 0) }
    ensures short { OnOk result (length body.now ≤ body_bytes_max) }
{
    let len = body.len();
    if len > BODY_BYTES_MAX {
        return Err(SubmitFault::TooLong { len });
    }
    if len % WORD_BYTES != 0 {
        return Err(SubmitFault::NotWords { len });
    }
    if let Some(tag) = service_tag(body) {
        return Err(SubmitFault::ServiceTag { tag });
    }
    if !has_earlier(count, after) {
        return Err(SubmitFault::NoSuchCall);
    }
    if count as usize >= CALLS_MAX {
        return Err(SubmitFault::TooMany);
    }
    Ok(())
}

fn has_earlier(count: u32, after: Option<CallNo>) -> bool
    ensures told { result ≡ has_earlier count after }
    ensures earlier { IsTrue result → IfSome after (λ one. IsEarlier count one) }
{
    match after {
        None => true,
        Some(call) => 0 < call.n && call.n <= count as u64,
    }
}

/// The constructor of the session layer that begins the body, other than that of a packed body.
fn service_tag(body: &[u8]) -> Option<u32>
    ensures { result ≡ (if begins_service body.now then Some (little_number 4 body.now) else None) }
{
    if body.len() < WORD_BYTES {
        return None;
    }
    let tag = LittleEndian::read_u32(body);
    if is_refused(tag) { Some(tag) } else { None }
}

fn is_refused(tag: u32) -> bool
    ensures { result ≡ is_refused tag }
{
    if tag == GZIP_PACKED {
        return false;
    }
    is_service(tag)
}
