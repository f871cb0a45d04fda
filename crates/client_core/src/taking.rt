//! What a packet changes.

ghost use Rattle.std.specs.Prelude.{◌≡◌, ℕ, max, option_map};
ghost use Rattle.call_table.specs.Kept.{Stands as StandsFor};
ghost use Rattle.call_table.specs.Table.{Table};
ghost use Rattle.client_calls.specs.Sound.{AreSound};
ghost use Rattle.client_core.specs.Brought.{table_told_of};
ghost use Rattle.client_core.specs.Kept.{asked_in};

use crate::binding::Binding;
use crate::brought::{Brought, Incoming};
use crate::core_client::Core;
use crate::rebinding::{binding_by, has_asked, set_binding};
use crate::waiting::{Asked, States};
use call_table::{CallNo, Calls, Fate, Group};
use client_calls::laws::calls_stay_sound;
use client_calls::{answer_call, mark_numbers, mark_states};
use msg_ids::Moment;
use octets::{IdList, Octets};
use tl_codec::LONGS_MAX;

/// The calls that are outstanding under the numbers that a request of this number asked about are to be sent again where
/// their states say so.
fn mark_asked_states(calls: &mut Calls, asked: &Option<Asked>, request: u64, states: &[u8])
    ensures stands { (table : Table) → StandsFor calls.old table → StandsFor calls.new (table_told_of (option_map asked_in asked.now) request states.now table) }
    ensures sound { (last : ℕ) → AreSound last calls.old.rows → AreSound last calls.new.rows }
{
    if let Some(asked) = asked {
        if asked.number == request {
            mark_states(calls, asked.numbers.ids(), states);
        }
    }
}

impl Core {
    ghost use Rattle.std.specs.Prelude.{◌≡◌, ◌≤◌, ◌<◌, ◌+◌, IsTrue, true, false, Some, None, length, fold, max};
    ghost use Rattle.std.specs.List.{AllByRecursion};
    ghost use Rattle.tl_codec.specs.Standard.{longs_max};
    ghost use Rattle.client_rules.specs.Client.{Client, at_moment, is_open, with_binding};
    ghost use Rattle.client_rules.specs.Learning.{learnt_max};
    ghost use Rattle.client_rules.specs.Taking.{alone_number, asks_answer, becomes, has_asked, told_of, told_states, without_idle_wish};
    ghost use Rattle.client_core.specs.Brought.{IsFit, acknowledges_number, answered, answered_as, row_of, takes_lesson, tells, wished};
    ghost use Rattle.client_core.specs.Kept.{Stands, at_end, binding_in};
    ghost use Rattle.client_core.specs.Sound.{CanGoAgain};
    ghost use Rattle.call_table.specs.Kept.{state_in};
    ghost use Rattle.call_table.specs.Table.{IsGiven, Sent};
    ghost use Rattle.client_core.specs.Took.{Took};

    /// A moment is given.
    pub(crate) fn reach(&mut self, now: Moment)
        ensures stands { (client : Client) → Stands self.old client → Stands self.new (at_moment now client) }
        ensures living { self.new.rest.has_ended ≡ false }
        ensures room { self.new.room ≡ self.old.room }
        ensures learnt { self.new.rest.learnt ≡ self.old.rest.learnt }
    {
        self.moment = self.moment.later(now);
    }

    /// A message with an odd seq is acknowledged.
    fn acknowledge(&mut self, number: u64, seq: u32)
        ensures living { self.old.rest.has_ended ≡ false }
        ensures stands { (client : Client) → Stands self.old client → Stands self.new (acknowledges_number number seq client) }
        ensures room { self.new.room ≡ self.old.room }
        ensures learnt { self.new.rest.learnt ≡ self.old.rest.learnt }
    {
        if seq % 2 == 1 {
            self.calls.push_ack(number);
        }
    }

    /// An outstanding call becomes this.
    pub(crate) fn settle_call(&mut self, call: CallNo, fate: Fate)
        requires given { IsGiven call self.old.calls.rows }
        requires sent { state_in call self.old.calls.rows ≡ Some Sent }
        ensures stands { (client : Client) → Stands self.old client → Stands self.new (becomes call fate client) }
        ensures room { self.new.room ≡ self.old.room }
        ensures learnt { self.new.rest.learnt ≡ self.old.rest.learnt }
    {
        calls_stay_sound();
        self.calls.settle(call, fate);
    }

    /// The binding becomes this, where there is one.
    pub(crate) fn rebind(&mut self, binding: Binding)
        requires { CanGoAgain binding }
        ensures stands { (client : Client) → Stands self.old client → Stands self.new (with_binding (binding_in binding) client) }
        ensures room { self.new.room ≡ self.old.room }
        ensures learnt { self.new.rest.learnt ≡ self.old.rest.learnt }
    {
        set_binding(&mut self.temporary, binding);
    }

    /// The binding is answered where it was asked for by the message of this number.
    fn answer_binding(&mut self, about: u64, answer: &Octets, code: u32)
        ensures stands { (client : Client) → Stands self.old client → Stands self.new (answered_as None (has_asked about client.temporary) answer.now code client) }
        ensures room { self.new.room ≡ self.old.room }
        ensures learnt { self.new.rest.learnt ≡ self.old.rest.learnt }
    {
        if has_asked(&self.temporary, about) {
            self.rebind(binding_by(answer.as_slice(), code));
        }
    }

    /// The message of this number is answered, by an error of this code where the code isn't 0.
    fn answer(&mut self, about: u64, answer: Octets, code: u32)
        ensures stands { (client : Client) → Stands self.old client → Stands self.new (answered about answer code client) }
        ensures room { self.new.room ≡ self.old.room }
        ensures learnt { self.new.rest.learnt ≡ self.old.rest.learnt }
    {
        if let Some(answer) = answer_call(&mut self.calls, about, answer) {
            self.answer_binding(about, &answer, code);
        }
    }

    /// The states are told of the messages that a request asked about.
    fn hear_states(&mut self, request: u64, info: &Octets)
        ensures stands { (client : Client) → Stands self.old client → Stands self.new (told_of client.asked request info.now client) }
        ensures room { self.new.room ≡ self.old.room }
        ensures learnt { self.new.rest.learnt ≡ self.old.rest.learnt }
    {
        mark_asked_states(&mut self.calls, &self.asked, request, info.as_slice());
    }

    /// The states are told of these messages.
    fn hear_all(&mut self, numbers: &IdList, info: &Octets)
        ensures stands { (client : Client) → Stands self.old client → Stands self.new (told_states numbers.now info.now client) }
        ensures room { self.new.room ≡ self.old.room }
        ensures learnt { self.new.rest.learnt ≡ self.old.rest.learnt }
    {
        mark_states(&mut self.calls, numbers.ids(), info.as_slice());
    }

    /// These messages are wanted again.
    fn send_again(&mut self, numbers: &IdList)
        ensures stands { (client : Client) → Stands self.old client → Stands self.new (fold alone_number client numbers.now) }
        ensures room { self.new.room ≡ self.old.room }
        ensures learnt { self.new.rest.learnt ≡ self.old.rest.learnt }
    {
        mark_numbers(&mut self.calls, numbers.ids());
    }

    /// These states are to be told of the messages that a request asks about, in place of what waited before.
    fn tell(&mut self, request: u64, info: Octets)
        requires { length info ≤ longs_max }
        ensures stands { (client : Client) → Stands self.old client → Stands self.new (tells request info client) }
        ensures room { self.new.room ≡ self.old.room }
        ensures learnt { self.new.rest.learnt ≡ self.old.rest.learnt }
    {
        self.waiting.told = Some(States { request, info });
    }

    /// There is an answer of this number, which is asked for. Room for it was taken before.
    fn ask_answer(&mut self, answer: u64)
        requires room { 0 < self.old.room.resent }
        ensures stands { (client : Client) → Stands self.old client → Stands self.new (asks_answer answer client) }
        ensures resent { self.old.room.resent ≤ self.new.room.resent + 1 }
        ensures room { self.new.room.learnt ≡ self.old.room.learnt }
        ensures sessions { self.new.room.sessions ≡ self.old.room.sessions }
        ensures learnt { self.new.rest.learnt ≡ self.old.rest.learnt }
    {
        if self.waiting.resent.ids().len() < LONGS_MAX {
            self.waiting.resent.push(answer);
        }
    }

    /// What a message brings that tells states or asks for something.
    fn take_wish(&mut self, number: u64, brought: Brought)
        requires room { 0 < self.old.room.resent }
        requires fit { IsFit brought }
        ensures stands { (client : Client) → Stands self.old client → Stands self.new (wished number brought client) }
        ensures resent { self.old.room.resent ≤ self.new.room.resent + 1 }
        ensures room { self.new.room.learnt ≡ self.old.room.learnt }
        ensures sessions { self.new.room.sessions ≡ self.old.room.sessions }
        ensures learnt { self.new.rest.learnt ≡ self.old.rest.learnt }
    {
        match brought {
            Brought::Told { request, info } => self.hear_states(request, &info),
            Brought::Fared { numbers, info } => self.hear_all(&numbers, &info),
            Brought::Again { numbers } => self.send_again(&numbers),
            Brought::Asks { info } => self.tell(number, info),
            Brought::Waits { answer } => self.ask_answer(answer),
            _ => {}
        }
    }

    /// What a message of this number brings, in a packet with this outer number. It answers whether the client has ended.
    fn take_brought(&mut self, outer: u64, number: u64, brought: Brought) -> bool
        requires resent { 0 < self.old.room.resent }
        requires learnt { 0 < self.old.room.learnt }
        requires sessions { 0 < self.old.room.sessions }
        requires fit { IsFit brought }
        ensures stands { (client : Client) → Stands self.old client → Took result self.new (row_of outer number brought client) }
        ensures resent { self.old.room.resent ≤ self.new.room.resent + 1 }
        ensures room { self.old.room.learnt ≤ self.new.room.learnt + 1 }
        ensures sessions { self.new.room.sessions ≡ self.old.room.sessions }
        ensures grows { length self.new.rest.learnt ≤ length self.old.rest.learnt + 1 }
        ensures open { is_open self.old.rest ≡ true → is_open self.new.rest ≡ true }
        ensures full { IsTrue result → learnt_max ≤ length self.old.rest.learnt }
    {
        match brought {
            Brought::Session { unique, salt } => self.learn(outer, unique, salt),
            Brought::Answer {
                about,
                result: answer,
                code,
            } => {
                self.answer(about, answer, code);
                false
            }
            Brought::Notice { about, code, salt } => {
                self.notice(outer, about, code, salt);
                false
            }
            other => {
                self.take_wish(number, other);
                false
            }
        }
    }

    /// A message of a packet with this outer number. It answers whether the client has ended.
    fn take_lesson(&mut self, outer: u64, lesson: Incoming) -> bool
        requires resent { 0 < self.old.room.resent }
        requires learnt { 0 < self.old.room.learnt }
        requires sessions { 0 < self.old.room.sessions }
        requires fit { IsFit lesson.brought }
        ensures stands { (client : Client) → Stands self.old client → Took result self.new (takes_lesson outer client lesson) }
        ensures resent { self.old.room.resent ≤ self.new.room.resent + 1 }
        ensures room { self.old.room.learnt ≤ self.new.room.learnt + 1 }
        ensures sessions { self.new.room.sessions ≡ self.old.room.sessions }
        ensures grows { length self.new.rest.learnt ≤ length self.old.rest.learnt + 1 }
        ensures open { is_open self.old.rest ≡ true → is_open self.new.rest ≡ true }
        ensures full { IsTrue result → learnt_max ≤ length self.old.rest.learnt }
    {
        self.acknowledge(lesson.number, lesson.seq);
        self.take_brought(outer, lesson.number, lesson.brought)
    }

    /// The messages of a packet with this outer number, one after the other, until the client ends, if it does. It
    /// answers whether it has ended.
    pub(crate) fn take_lessons(&mut self, outer: u64, lessons: Vec<Incoming>) -> bool
        requires resent { length lessons.items ≤ self.old.room.resent }
        requires learnt { length lessons.items ≤ self.old.room.learnt }
        requires sessions { 0 < self.old.room.sessions }
        requires fit { AllByRecursion (λ lesson. IsFit lesson.brought) lessons.items }
        ensures stands { (client : Client) → Stands self.old client → Took result self.new (fold (takes_lesson outer) client lessons.items) }
        ensures open { is_open self.old.rest ≡ true → is_open self.new.rest ≡ true }
        ensures full { IsTrue result → learnt_max < length self.old.rest.learnt + length lessons.items }
    {
        for lesson in lessons {
            if self.take_lesson(outer, lesson) {
                return true;
            }
        }
        false
    }

    /// A wish to ask for states ends where no call is sent any more.
    #[tactic(auto, using(crate::proofs::TestLemmas::any_of_group))]
    pub(crate) fn drop_idle_wish(&mut self)
        ensures stands { (client : Client) → Stands self.old client → Stands self.new (without_idle_wish client) }
        ensures ended { (client : Client) → Stands (at_end self.old) client → Stands (at_end self.new) (without_idle_wish client) }
        ensures living { self.new.rest.has_ended ≡ false }
        ensures learnt { self.new.rest.learnt ≡ self.old.rest.learnt }
    {
        let has_sent = self.calls.members(Group::Outstanding) > 0;
        self.waiting.states = has_sent && self.waiting.states;
    }
}
