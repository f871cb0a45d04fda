//! What became of a client's calls, as text.

ghost use Rattle.std.specs.Prelude.{◌≡◌, ◌++◌, IfOk, OnOk};
ghost use Rattle.call_table.specs.Kept.{shown};
ghost use Rattle.call_table.specs.Table.{Call};
ghost use Rattle.client_node.specs.Standing.{StandsFor};
ghost use Rattle.client_rules.specs.Client.{Client, calls_of};
ghost use Rattle.world_rules.specs.Report.{is_done};
ghost use Rattle.cmd_call.specs.Table.{are_done, table, table_line};

use client_core::{CallNo, CallState, Holder};
use itoa::Buffer;
use octets::{Memory, Octets};
use sim_text::state_text;
use std::alloc::Global;

/// A line for each call of a client, in order.
///
/// # Errors
///
/// `Memory`.
pub(crate) fn table(alloc: Global, holder: &Holder) -> Result<Octets, Memory>
    ensures { (whole : Client) → StandsFor holder.now whole → IfOk result (λ text. text ≡ table (calls_of whole)) }
{
    let mut text = Octets::new(alloc);
    for place in 0..holder.calls() {
        let number = place as u64 + 1;
        let told = holder.state(CallNo { n: number });
        push_line(alloc, &mut text, number, &told)?;
    }
    Ok(text)
}

/// Whether each call of a client is done.
pub(crate) fn are_done(holder: &Holder) -> bool
    ensures { (whole : Client) → StandsFor holder.now whole → result ≡ are_done (calls_of whole) }
{
    for place in 0..holder.calls() {
        let call = CallNo {
            n: place as u64 + 1,
        };
        if !is_done(&holder.state(call)) {
            return false;
        }
    }
    true
}

/// Whether a call in this state is done.
fn is_done(state: &CallState<'_>) -> bool
    ensures { result ≡ is_done (shown state.now) }
{
    matches!(state, CallState::Done(_))
}

/// Puts the line of a call behind a text.
fn push_line(
    alloc: Global,
    text: &mut Octets,
    number: u64,
    state: &CallState<'_>,
) -> Result<(), Memory>
    ensures { (call : Call) → call.state ≡ shown state.now → OnOk result (text.new ≡ text.old ++ table_line number call) }
{
    let mut buffer = Buffer::new();
    text.push_all(alloc, b"call ")?;
    text.push_all(alloc, buffer.format(number).as_bytes())?;
    text.push_all(alloc, b" ")?;
    state_text(alloc, text, state)?;
    text.push_all(alloc, b"\n")
}
