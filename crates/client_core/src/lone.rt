//! What goes alone: a message that is sent again, under its number.

ghost use Rattle.std.specs.Prelude.{◌≡◌, ◌≤◌, ◌∷◌, [], IfOk, IfSome, OnOk, OnErr, IsSome, Some, length, option_map};
ghost use Rattle.auth_keys.specs.Rings.{entry_of};
ghost use Rattle.envelope.specs.Packet.{body_max, sealed_size};
ghost use Rattle.client_rules.specs.Client.{Client, Asked, at_moment, with_binding};
ghost use Rattle.client_rules.specs.Flush.{asked_alone, binding_alone, remembers_lone};
ghost use Rattle.service_tl.specs.declared.lists.Message.{Message};
ghost use Rattle.client_rules.specs.Sending.{draw_after_packet, packet_of};
ghost use Rattle.client_core.specs.Flushed.{IsSealed, setting_of};
ghost use Rattle.client_core.specs.Kept.{Stands, binding_in, temporary_in};
ghost use Rattle.client_core.specs.Sound.{CanBind, CanGoAgain, IsSendable};

use crate::binding::{Binding, Temporary};
use crate::core_client::Core;
use draws::Draw;
use envelope::{Seal, packet_bytes};
use msg_ids::Moment;
use octets::{Buffer, IdList, Memory, Octets};
use service_tl::Message;
use std::alloc::Global;

/// A message that is to go alone, the list of its number, and room for its packet.
#[derive(Drop)]
pub(crate) struct Lone {
    pub(crate) message: Message,
    pub(crate) inner: IdList,
    pub(crate) packet: Buffer,
}

impl Lone {
    /// Takes what a message needs that goes alone.
    pub(crate) fn new(alloc: Global, message: Message) -> Result<Lone, Memory>
        requires short { length message.body ≤ body_max }
        ensures message { IfOk result (λ lone. lone.message ≡ message) }
        ensures inner { IfOk result (λ lone. lone.inner ≡ message.number ∷ []) }
        ensures packet { IfOk result (λ lone. lone.packet ≡ record { bytes = []; room = sealed_size (length message.body) }) }
    {
        let inner = IdList::copy(alloc, &[message.number])?;
        let packet = Buffer::new(alloc, packet_bytes(message.body.as_slice().len()))?;
        Ok(Lone {
            message,
            inner,
            packet,
        })
    }
}

/// The message that asked for a binding, where it is to go again, alone.
pub(crate) fn binding_alone(
    alloc: Global,
    temporary: &Option<Temporary>,
) -> Result<Option<Message>, Memory>
    ensures told { IfOk result (λ message. message ≡ binding_alone (option_map temporary_in temporary.now)) }
    ensures can_go { IfOk result (λ message. CanBind temporary.now → IfSome message IsSendable) }
{
    match temporary {
        None => Ok(None),
        Some(temporary) => asked_alone(alloc, temporary.is_alone, &temporary.binding),
    }
}

fn asked_alone(alloc: Global, is_alone: bool, binding: &Binding) -> Result<Option<Message>, Memory>
    ensures told { IfOk result (λ message. message ≡ asked_alone is_alone (binding_in binding.now)) }
    ensures can_go { IfOk result (λ message. CanGoAgain binding.now → IfSome message IsSendable) }
{
    if !is_alone {
        return Ok(None);
    }
    match binding {
        Binding::Asked { number, seq, body } => Ok(Some(Message {
            number: *number,
            seq: *seq,
            body: Octets::copy(alloc, body.as_slice())?,
        })),
        _ => Ok(None),
    }
}

/// The binding goes alone now.
fn unmark_binding(temporary: &mut Option<Temporary>)
    ensures can_bind { CanBind temporary.old → CanBind temporary.new }
    ensures bound { (client : Client) (message : Message) → client.temporary ≡ option_map temporary_in temporary.old
        → binding_alone client.temporary ≡ Some message → (with_binding (Asked message) client).temporary ≡ option_map temporary_in temporary.new }
{
    if let Some(temporary) = temporary {
        temporary.is_alone = false;
    }
}

impl Core {
    /// A moment is given to the client.
    pub(crate) fn at(&mut self, now: Moment)
        ensures stands { (client : Client) → Stands self.old client → Stands self.new (at_moment now client) }
        ensures key { self.new.rest.key ≡ self.old.rest.key }
        ensures temporary { self.new.rest.temporary ≡ self.old.rest.temporary }
        ensures learnt { self.new.rest.learnt ≡ self.old.rest.learnt }
        ensures counters { self.new.rest.counters ≡ self.old.rest.counters }
        ensures waiting { self.new.rest.waiting ≡ self.old.rest.waiting }
        ensures calls { self.new.calls ≡ self.old.calls }
        ensures kept { record self.new { rest = record self.new.rest { now = self.old.rest.now } } ≡ self.old }
    {
        self.moment = self.moment.max(now);
    }

    /// A lone message is remembered, unless it is a call.
    pub(crate) fn remember_lone(&mut self, number: u64, inner: IdList)
        ensures stands { (client : Client) → Stands self.old client → Stands self.new (remembers_lone number inner client) }
        ensures rest { self.new.rest ≡ self.old.rest }
    {
        if self.calls.owner(number).is_none() {
            self.calls.remember(number, inner);
        }
    }

    /// Sends a binding again, alone.
    pub(crate) fn send_binding<S: Seal, D: Draw>(
        &mut self,
        now: Moment,
        lone: Lone,
        seal: &S,
        draw: &mut D,
    ) -> Octets
        requires key { IsSome (entry_of self.old.rest.key (S.keys seal.now)) }
        requires sendable { IsSendable lone.message }
        requires alone { binding_alone self.old.rest.temporary ≡ Some lone.message }
        requires inner { lone.inner ≡ lone.message.number ∷ [] }
        requires packet { lone.packet ≡ record { bytes = []; room = sealed_size (length lone.message.body) } }
        ensures stands { (client : Client) → Stands self.old client
            → Stands self.new (remembers_lone lone.message.number (lone.message.number ∷ []) (with_binding (Asked lone.message) (at_moment now client))) }
        ensures sealed { (client : Client) → Stands self.new client
            → IsSealed S.lock (S.keys seal.now) (packet_of (setting_of D.step (S.keys seal.now)) client draw.old lone.message) result }
        ensures drawn { draw.new ≡ draw_after_packet (setting_of D.step (S.keys seal.now)) draw.old lone.message }
        ensures learnt { self.new.rest.learnt ≡ self.old.rest.learnt }
    {
        let Lone {
            message,
            inner,
            packet,
        } = lone;
        self.at(now);
        unmark_binding(&mut self.temporary);
        self.remember_lone(message.number, inner);
        self.sealed(seal, packet, message, draw)
    }
}
