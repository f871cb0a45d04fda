//! The body of a call as it goes, and a call that goes again, alone.

ghost use Rattle.std.specs.Prelude.{◌≡◌, ◌≤◌, ◌<◌, ◌+◌, ◌++◌, ◌∷◌, [], IfOk, IfSome, IsSome, ℕ, List, Option, Some, length, option_map};
ghost use Rattle.auth_keys.specs.Rings.{entry_of};
ghost use Rattle.envelope.specs.Packet.{sealed_size};
ghost use Rattle.service_tl.specs.declared.lists.Message.{Message};
ghost use Rattle.call_table.specs.declared.call.Group.TheVariants.{Alone};
ghost use Rattle.call_table.specs.Kept.{Stands as StandsFor, state_in};
ghost use Rattle.call_table.specs.Table.{IsGiven, Sent, Table, group_of, with_call as with_call_in};
ghost use Rattle.client_rules.specs.Client.{Client, at_moment, with_call};
ghost use Rattle.client_rules.specs.Filling.{body_behind};
ghost use Rattle.client_rules.specs.Flush.{first_marked, gone_again, remembers_lone};
ghost use Rattle.client_rules.specs.Sending.{draw_after_packet, packet_of};
ghost use Rattle.client_core.specs.Flushed.{IsSealed, setting_of};
ghost use Rattle.client_core.specs.Kept.{Stands};
ghost use Rattle.client_calls.specs.Sound.{AreSound};
ghost use Rattle.client_core.specs.Sound.{IsSendable};
ghost use Rattle.client_core.specs.Calling.{marked_in, wrap_bytes};

use crate::core_client::Core;
use crate::lone::Lone;
use call_table::{CallNo, Calls, Flags, Group};
use client_calls::laws::calls_stay_sound;
use draws::Draw;
use envelope::Seal;
use msg_ids::Moment;
use octets::{Buffer, Memory, Octets};
use service_tl::{INVOKE_AFTER_MSG, Message};
use std::alloc::Global;
use tl_codec::fill;
use tl_codec::laws::sizes_of_spellings;

/// The bytes in front of the body of a call that is to execute after another.
const WRAP_BYTES: usize = 12;

/// A call that is to go again, alone, with its message.
#[derive(Drop)]
pub(crate) struct Marked {
    pub(crate) call: CallNo,
    pub(crate) message: Message,
}

/// How many bytes stand in front of the body of a call, which is to execute after another where one is given.
pub(crate) fn wrap_size<X: Copy>(wrap: Option<X>) -> usize
    ensures { result ≡ wrap_bytes wrap }
{
    match wrap {
        None => 0,
        Some(_) => WRAP_BYTES,
    }
}

/// Writes the body of a call at the end, as it goes.
pub(crate) fn put_call(into: &mut Buffer, wrap: Option<u64>, body: &[u8])
    requires room { wrap_bytes wrap + length body.now ≤ into.old.room }
    ensures written { into.new.bytes ≡ into.old.bytes ++ body_behind wrap body.now }
    ensures left { into.new.room + (wrap_bytes wrap + length body.now) ≡ into.old.room }
    ensures size { length (body_behind wrap body.now) ≡ wrap_bytes wrap + length body.now }
{
    sizes_of_spellings();
    if let Some(number) = wrap {
        fill::int(into, INVOKE_AFTER_MSG);
        fill::long(into, number);
    }
    into.push_all(body);
}

/// The body of a call has as many bytes as is counted. Does nothing.
pub(crate) fn sizes_of_calls()
    ensures { (wrap : Option ℕ) (body : List ℕ) → length (body_behind wrap body) ≡ wrap_bytes wrap + length body }
{
    sizes_of_spellings();
}

/// The body of a call, as it goes.
fn body_of(alloc: Global, wrap: Option<u64>, body: &[u8]) -> Result<Octets, Memory>
    ensures body { IfOk result (λ octets. octets ≡ body_behind wrap body.now) }
    ensures size { IfOk result (λ octets. length octets ≡ wrap_bytes wrap + length body.now) }
{
    let mut text = Buffer::new(alloc, wrap_size(wrap) + body.len())?;
    put_call(&mut text, wrap, body);
    Ok(text.into_octets())
}

/// The first call that is to go again, alone, with its message.
pub(crate) fn call_alone(alloc: Global, calls: &Calls) -> Result<Option<Marked>, Memory>
    ensures told { IfOk result (λ marked. (table : Table) → StandsFor calls.now table
        → option_map marked_in marked ≡ first_marked table.calls (group_of Alone table.calls)) }
    ensures given { IfOk result (λ marked. IfSome marked (λ one. IsGiven one.call calls.now.rows)) }
    ensures sent { IfOk result (λ marked. IfSome marked (λ one. state_in one.call calls.now.rows ≡ Some Sent)) }
    ensures can_go { IfOk result (λ marked. (last : ℕ) → AreSound last calls.now.rows → IfSome marked (λ one. IsSendable one.message)) }
{
    let Some(call) = calls.member(Group::Alone, 0) else {
        return Ok(None);
    };
    let Some(living) = calls.living(call) else {
        return Ok(None);
    };
    let message = Message {
        number: living.number,
        seq: living.seq,
        body: body_of(alloc, living.wrap, calls.body(call))?,
    };
    Ok(Some(Marked { call, message }))
}

/// A call goes again: its mark ends, and its number goes under this salt too.
fn go_again(calls: &mut Calls, call: CallNo, salt: u64)
    requires given { IsGiven call calls.old.rows }
    requires sent { state_in call calls.old.rows ≡ Some Sent }
    requires reserved { 0 < calls.old.room }
    ensures stands { (table : Table) → StandsFor calls.old table → StandsFor calls.new (with_call_in call (gone_again salt) table) }
    ensures sound { (last : ℕ) → AreSound last calls.old.rows → AreSound last calls.new.rows }
{
    calls_stay_sound();
    let flags = calls.flags(call);
    calls.set_flags(
        call,
        Flags {
            alone: false,
            dropping: flags.dropping,
        },
    );
    calls.again(call, salt);
}

impl Core {
    /// Sends a call again, alone.
    pub(crate) fn send_call<S: Seal, D: Draw>(
        &mut self,
        now: Moment,
        call: CallNo,
        lone: Lone,
        seal: &S,
        draw: &mut D,
    ) -> Octets
        requires key { IsSome (entry_of self.old.rest.key (S.keys seal.now)) }
        requires given { IsGiven call self.old.calls.rows }
        requires sent { state_in call self.old.calls.rows ≡ Some Sent }
        requires reserved { 0 < self.old.calls.room }
        requires sendable { IsSendable lone.message }
        requires inner { lone.inner ≡ lone.message.number ∷ [] }
        requires packet { lone.packet ≡ record { bytes = []; room = sealed_size (length lone.message.body) } }
        ensures stands { (client : Client) → Stands self.old client
            → Stands self.new (remembers_lone lone.message.number (lone.message.number ∷ []) (with_call call (gone_again client.salt) (at_moment now client))) }
        ensures sealed { (client : Client) → Stands self.new client
            → IsSealed S.lock (S.keys seal.now) (packet_of (setting_of D.step (S.keys seal.now)) client draw.old lone.message) result }
        ensures drawn { draw.new ≡ draw_after_packet (setting_of D.step (S.keys seal.now)) draw.old lone.message }
        ensures learnt { self.new.rest.learnt ≡ self.old.rest.learnt }
    {
        let Lone {
            message,
            inner,
            packet,
        } = lone;
        self.at(now);
        go_again(&mut self.calls, call, self.salt);
        self.remember_lone(message.number, inner);
        self.sealed(seal, packet, message, draw)
    }
}
