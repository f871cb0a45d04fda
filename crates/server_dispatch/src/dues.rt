//! What the messages of a packet need where they are accepted, made before they are judged.

ghost use Rattle.std.specs.Prelude.{◌≡◌, ◌≤◌, ◌+◌, ◌∷◌, ◌++◌, ◌||◌, Bool, map, IfOk, OnOk, vec_len};
ghost use Rattle.containers.specs.Container.{messages_max};
ghost use Rattle.containers.specs.Lent.{message_of};
ghost use Rattle.outbox.specs.declared.kept.Kept.{Kept};
ghost use Rattle.inbox.specs.Inbox.{message_in};
ghost use Rattle.inbox.specs.Kinds.{inner_messages, item_told};
ghost use Rattle.server_session.specs.Unsaid.{IsCalled, is_among, is_to};
ghost use Rattle.server_dispatch.specs.Action.{accepted_needed, asked_by, due_needed};

use crate::action::{Action, accepted_needed};
use containers::{Part, Parts, is_container};
use inbox::Received;
use octets::Memory;
use server_session::{Called, SessionState};
use service_tl::{Item, parse};
use std::alloc::Global;

/// What a message needs where it is accepted.
#[derive(Debug, Drop)]
pub struct Due {
    /// The message's identifier.
    pub number: u64,
    /// What it needs.
    pub action: Action,
}

impl Due {
    /// Beside these kept replies, those that the message may call for: the reply to it, where it comes again, and those that it
    /// asks for. Takes no memory.
    pub fn calls_for(&self, standing: &SessionState, called: Called) -> Called
        ensures { (which : Kept → Bool) → IsCalled which standing.now called
            → IsCalled (λ kept. is_among (asked_by self.now.action) kept || (is_to self.now.number kept || which kept)) standing.now result }
    {
        let called = standing.calls_for(called, self.number);
        standing.calls_for_numbers(called, self.action.asked())
    }
}

/// What each message of a packet needs where it is accepted: the one in the envelope, and then those inside it where it is a
/// lawful container, at most 1,021.
///
/// # Errors
///
/// `Memory`.
pub fn dues_of(alloc: Global, outer: &Received<'_>) -> Result<Vec<Due>, Memory>
    ensures dues { IfOk result (λ dues. dues.items ≡ map due_needed (message_in outer.now ∷ inner_messages (message_in outer.now))) }
    ensures few { IfOk result (λ dues. vec_len dues ≤ messages_max + 1) }
{
    let mut dues = Vec::new(alloc);
    dues.push(due_told(alloc, outer.number(), outer.body())?)?;
    add_parts(alloc, outer.inner(), &mut dues)?;
    Ok(dues)
}

// Puts behind these what each of these messages needs.
fn add_parts(alloc: Global, parts: Parts<'_>, dues: &mut Vec<Due>) -> Result<(), Memory>
    ensures added { OnOk result (dues.new.items ≡ dues.old.items ++ map due_needed parts.entry) }
    ensures few { OnOk result (vec_len dues.new ≤ vec_len dues.old + messages_max) }
{
    dues.reserve(parts.len())?;
    for part in parts {
        dues.push(part_due(alloc, &part)?)?;
    }
    Ok(())
}

fn part_due(alloc: Global, part: &Part<'_>) -> Result<Due, Memory>
    ensures { IfOk result (λ due. due ≡ due_needed (message_of part.now)) }
{
    due_told(alloc, part.number, part.body)
}

// What the message of this number and body needs where it is accepted; a container nothing.
fn due_told(alloc: Global, number: u64, body: &[u8]) -> Result<Due, Memory>
    ensures { IfOk result (λ due. due ≡ record { number = number; action = accepted_needed number (item_told body.now) body.now }) }
{
    let action = if is_container(body) {
        Action::Nothing
    } else {
        let item = parse(alloc, body)?;
        accepted_needed(alloc, number, &item, body)?
    };
    Ok(Due { number, action })
}
