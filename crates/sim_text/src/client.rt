//! The lines of a client's calls.

ghost use Rattle.std.specs.Prelude.{◌≡◌, ◌++◌, OnOk, OnErr, length, take};
ghost use Rattle.client_rules.specs.Client.{Client, calls_of};
ghost use Rattle.world_rules.specs.Report.{call_lines};
ghost use Rattle.sim_text.specs.Clients.{StandsFor};

use crate::call::call_line;
use call_table::CallNo;
use client_core::Holder;
use octets::{Memory, Octets};
use std::alloc::Global;

/// Puts a line for each call of a client behind a text, in order; `client` is the client's number, counted from 1.
///
/// # Errors
///
/// `Memory`, and then the text is as it was.
pub(crate) fn calls_of_client(
    alloc: Global,
    into: &mut Octets,
    client: u64,
    holder: &Holder,
) -> Result<(), Memory>
    ensures told { (whole : Client) → StandsFor holder.now whole → OnOk result (into.new ≡ into.old ++ call_lines client 1 (calls_of whole)) }
    ensures behind { take (length into.old) into.new ≡ into.old }
    ensures unchanged_on_memory { OnErr result (into.new ≡ into.old) }
{
    let before = into.as_slice().len();
    let done = push_calls(alloc, into, client, holder);
    if done.is_err() {
        into.truncate(before);
    }
    done
}

/// Puts a line for each call of a client behind a text.
fn push_calls(alloc: Global, text: &mut Octets, client: u64, holder: &Holder) -> Result<(), Memory>
    ensures told { (whole : Client) → StandsFor holder.now whole → OnOk result (text.new ≡ text.old ++ call_lines client 1 (calls_of whole)) }
    ensures front { take (length text.old) text.new ≡ text.old }
{
    for place in 0..holder.calls() {
        let number = place as u64 + 1;
        let told = holder.state(CallNo { n: number });
        call_line(alloc, text, client, number, &told)?;
    }
    Ok(())
}
