//! The line of a call.

ghost use Rattle.std.specs.Prelude.{◌≡◌, ◌++◌, OnOk, OnErr};
ghost use Rattle.call_table.specs.Kept.{shown};
ghost use Rattle.call_table.specs.Table.{Call};
ghost use Rattle.world_rules.specs.Report.{call_line, cause_text, state_text};

use crate::number::push_number;
use crate::reply::push_reply;
use call_table::{CallState, Cause};
use octets::{Memory, Octets};
use std::alloc::Global;

/// Puts the line of a call behind a text: of the client and the call of these numbers, each counted from 1, in this state.
///
/// # Errors
///
/// `Memory`, and then the text is as it was.
pub fn call_line(
    alloc: Global,
    into: &mut Octets,
    client: u64,
    number: u64,
    state: &CallState<'_>,
) -> Result<(), Memory>
    ensures told { (call : Call) → call.state ≡ shown state.now → OnOk result (into.new ≡ into.old ++ call_line client number call) }
    ensures unchanged_on_memory { OnErr result (into.new ≡ into.old) }
{
    let mut text = Octets::new(alloc);
    push_call(alloc, &mut text, client, number, state)?;
    into.push_all(alloc, text.as_slice())
}

/// Puts the line of a call behind a text.
fn push_call(
    alloc: Global,
    text: &mut Octets,
    client: u64,
    number: u64,
    state: &CallState<'_>,
) -> Result<(), Memory>
    ensures { (call : Call) → call.state ≡ shown state.now → OnOk result (text.new ≡ text.old ++ call_line client number call) }
{
    text.push_all(alloc, b"call ")?;
    push_number(alloc, text, client)?;
    text.push_all(alloc, b" ")?;
    push_number(alloc, text, number)?;
    text.push_all(alloc, b" ")?;
    push_state(alloc, text, state)?;
    text.push_all(alloc, b"\n")
}

/// Puts what became of a call behind a text.
///
/// # Errors
///
/// `Memory`, and then the text is as it was.
pub fn state_text(alloc: Global, into: &mut Octets, state: &CallState<'_>) -> Result<(), Memory>
    ensures told { OnOk result (into.new ≡ into.old ++ state_text (shown state.now)) }
    ensures unchanged_on_memory { OnErr result (into.new ≡ into.old) }
{
    let mut text = Octets::new(alloc);
    push_state(alloc, &mut text, state)?;
    into.push_all(alloc, text.as_slice())
}

/// Puts what became of a call behind a text.
fn push_state(alloc: Global, text: &mut Octets, state: &CallState<'_>) -> Result<(), Memory>
    ensures { OnOk result (text.new ≡ text.old ++ state_text (shown state.now)) }
{
    match state {
        CallState::Queued => text.push_all(alloc, b"queued"),
        CallState::Sent => text.push_all(alloc, b"sent"),
        CallState::Held => text.push_all(alloc, b"held"),
        CallState::Done(reply) => {
            text.push_all(alloc, b"done ")?;
            push_reply(alloc, text, reply)
        }
        CallState::Refused(code) => {
            text.push_all(alloc, b"refused ")?;
            push_number(alloc, text, *code)
        }
        CallState::Unknown(cause) => {
            text.push_all(alloc, b"unknown ")?;
            text.push_all(alloc, cause_of(*cause).as_bytes())
        }
    }
}

/// Why it isn't known what became of a call.
fn cause_of(cause: Cause) -> &'static str
    ensures { result.now ≡ cause_text cause }
{
    match cause {
        Cause::Session => "session",
        Cause::Renewed => "renewed",
        Cause::Ended => "ended",
        Cause::Forgotten => "forgotten",
    }
}
