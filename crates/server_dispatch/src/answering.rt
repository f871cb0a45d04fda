//! Answers of a session to calls, which it keeps.

ghost use Rattle.std.specs.Prelude.{◌≡◌, ◌≤◌, ◌<◌, ◌+◌, ℕ, List};
ghost use Rattle.waits.specs.Jobs.{Queue};
ghost use Rattle.server_rules.specs.Server.{Binding as BindingOfRules};
ghost use Rattle.server_rules.specs.Event.{BindingCall, Speaker};
ghost use Rattle.server_rules.specs.Speaking.{answers, answers_in_place};
ghost use Rattle.server_rules.specs.Rows.{answers_broken};
ghost use Rattle.server_rules.specs.Calls.{binds};
ghost use Rattle.law_server.specs.Order.{IsUnanswered};
ghost use Rattle.server_dispatch.specs.Contents.{content_of, short_bytes_max};
ghost use Rattle.server_output.specs.Items.{result_bytes};
ghost use Rattle.server_session.specs.SessionState.{replies_left};
ghost use Rattle.server_session.specs.Says.{Keys, setting_of};
ghost use Rattle.server_session.specs.Unsaid.{NoMoreUnsaid};
ghost use Rattle.server_dispatch.specs.Rings.{AreOf};
ghost use Rattle.server_dispatch.specs.Speaks.{HasRoom, Speaks, Spends};

use crate::bindings::Bindings;
use crate::entries::Entry;
use crate::short::Short;
use crate::turn::Turn;
use auth_keys::Ring;
use draws::Draw;
use msg_ids::Moment;
use outbox::Bytes;
use server_session::SessionState;
use service_tl::RPC_DROP_ANSWER;
use temp_keys::{Binding, check};

impl Turn {
    /// The session gives a call that has no answer one of the short ones, and keeps it.
    pub(crate) fn answers_shortly<D: Draw>(
        &mut self,
        now: Moment,
        standing: &mut SessionState,
        call: u64,
        short: Short,
    )
        requires room { HasRoom 1 (result_bytes short_bytes_max) 0 standing.old self.old }
        requires replies { 0 < replies_left standing.old }
        ensures speaks { (keys : Keys) (jobs : Queue) (bindings : List BindingOfRules) (draw : D) (speaker : Speaker D) → IsUnanswered speaker.session.replies call
            → Speaks now standing.old self.old jobs bindings draw speaker
            → Speaks now standing.new self.new jobs bindings draw (answers (setting_of now D.step keys) call (content_of short) speaker) }
        ensures spends { Spends now 1 (result_bytes short_bytes_max) 0 standing.old self.old standing.new self.new }
        ensures unsaid { NoMoreUnsaid standing.old self.old.owing standing.new self.new.owing }
        ensures replies_last { replies_left standing.new + 1 ≡ replies_left standing.old }
    {
        standing.answers::<D>(now, &mut self.owing, call, short.bytes());
    }

    /// The session gives a call one of the short answers in place of running this request of it, which is recorded so.
    pub(crate) fn answers_in_place<D: Draw>(
        &mut self,
        now: Moment,
        standing: &mut SessionState,
        call: u64,
        request: Bytes,
        short: Short,
    )
        requires room { HasRoom 1 (result_bytes short_bytes_max) 1 standing.old self.old }
        requires replies { 0 < replies_left standing.old }
        ensures speaks { (keys : Keys) (jobs : Queue) (bindings : List BindingOfRules) (draw : D) (speaker : Speaker D) → IsUnanswered speaker.session.replies call
            → Speaks now standing.old self.old jobs bindings draw speaker
            → Speaks now standing.new self.new jobs bindings draw (answers_in_place (setting_of now D.step keys) call request (content_of short) speaker) }
        ensures spends { Spends now 1 (result_bytes short_bytes_max) 1 standing.old self.old standing.new self.new }
        ensures unsaid { NoMoreUnsaid standing.old self.old.owing standing.new self.new.owing }
        ensures replies_last { replies_left standing.new + 1 ≡ replies_left standing.old }
    {
        self.answers_shortly::<D>(now, standing, call, short);
        self.entries.push(Entry {
            key: standing.key(),
            session: standing.number(),
            number: call,
            request,
            reply: short.bytes(),
            ran: false,
        });
    }

    /// The session answers a message that isn't spelt right. One that asks to drop an answer is no call for the service.
    pub(crate) fn answers_broken<D: Draw>(
        &mut self,
        now: Moment,
        standing: &mut SessionState,
        number: u64,
        constructor: u32,
        body: Bytes,
    )
        requires room { HasRoom 1 (result_bytes short_bytes_max) 1 standing.old self.old }
        requires replies { 0 < replies_left standing.old }
        ensures speaks { (keys : Keys) (jobs : Queue) (bindings : List BindingOfRules) (draw : D) (speaker : Speaker D) → IsUnanswered speaker.session.replies number
            → Speaks now standing.old self.old jobs bindings draw speaker
            → Speaks now standing.new self.new jobs bindings draw (answers_broken (setting_of now D.step keys) number constructor body speaker) }
        ensures spends { Spends now 1 (result_bytes short_bytes_max) 1 standing.old self.old standing.new self.new }
        ensures unsaid { NoMoreUnsaid standing.old self.old.owing standing.new self.new.owing }
        ensures replies_last { replies_left standing.new + 1 ≡ replies_left standing.old }
    {
        if constructor == RPC_DROP_ANSWER {
            self.answers_shortly::<D>(now, standing, number, Short::BadBody);
        } else {
            self.answers_in_place::<D>(now, standing, number, body, Short::BadBody);
        }
    }

    /// The session answers a binding call that is spelt right: it binds its temporary key, in place of what that was bound
    /// to, or is refused (core.telegram.org/method/auth.bindTempAuthKey).
    pub fn binds<D: Draw>(
        &mut self,
        now: Moment,
        standing: &mut SessionState,
        bindings: &mut Bindings,
        ring: &Ring,
        number: u64,
        binding: &Binding,
    )
        requires room { HasRoom 1 (result_bytes short_bytes_max) 0 standing.old self.old }
        requires replies { 0 < replies_left standing.old }
        requires binding_room { 0 < bindings.old.room }
        ensures speaks { (keys : Keys) (jobs : Queue) (draw : D) (speaker : Speaker D) → AreOf ring.now keys → IsUnanswered speaker.session.replies number
            → Speaks now standing.old self.old jobs bindings.old.bindings draw speaker
            → Speaks now standing.new self.new jobs bindings.new.bindings draw (binds (setting_of now D.step keys)
            (record { number = number; perm = binding.now.perm; nonce = binding.now.nonce; expires = binding.now.expires; message = binding.now.message }) speaker) }
        ensures spends { Spends now 1 (result_bytes short_bytes_max) 0 standing.old self.old standing.new self.new }
        ensures unsaid { NoMoreUnsaid standing.old self.old.owing standing.new self.new.owing }
        ensures replies_last { replies_left standing.new + 1 ≡ replies_left standing.old }
        ensures binding_room_lasts { bindings.old.room ≤ bindings.new.room + 1 }
    {
        match check(
            ring,
            now,
            standing.key(),
            standing.number(),
            number,
            binding,
        ) {
            Ok(bound) => {
                bindings.put(bound);
                self.answers_shortly::<D>(now, standing, number, Short::BoolTrue);
            }
            Err(_) => {
                self.answers_shortly::<D>(now, standing, number, Short::EncryptedMessageInvalid);
            }
        }
    }
}
