//! A client that is given the calls of a script.

ghost use Rattle.std.specs.Prelude.{◌≡◌, ◌<◌, [], IfOk, OnErr, OnOk};
ghost use Rattle.client_core.specs.Keys.{keys_in};
ghost use Rattle.client_core.specs.Kept.{Stands};
ghost use Rattle.client_rules.specs.Client.{Client, calls_of};
ghost use Rattle.draws.specs.Draws.{draw_after, word_after};
ghost use Rattle.cmd_call.specs.Inner.{TellsUntaken, keys_of};
ghost use Rattle.cmd_call.specs.Keys.{client_under};
ghost use Rattle.cmd_call.specs.Script.{earlier_of, given_all, untaken};

use crate::keys::Acting;
use call_script::Script;
use client_core::{CallNo, OpeningClient, SubmitFault};
use draws::Draw;
use octets::Memory;
use std::alloc::Global;

/// The call that isn't taken.
#[derive(Clone, Copy, Debug)]
pub struct Untaken {
    /// The number of its line, from 1.
    pub line: u32,
    /// Why it isn't taken.
    pub fault: SubmitFault,
}

/// A client under these keys. The number of its session is drawn.
///
/// # Errors
///
/// `Memory`, and then nothing was drawn.
pub fn opening<D: Draw>(alloc: Global, keys: Acting, draw: &mut D) -> Result<OpeningClient, Memory>
    ensures stands { IfOk result (λ client. Stands client (client_under (keys_of keys) (word_after D.step 0 draw.old))) }
    ensures keys { IfOk result (λ client. keys_in client ≡ keys_of keys) }
    ensures after { OnOk result (draw.new ≡ draw_after D.step 1 draw.old) }
    ensures unchanged_on_memory { OnErr result (draw.new ≡ draw.old) }
{
    match keys {
        Acting::Perm { key } => OpeningClient::new(alloc, key, draw),
        Acting::Temp { key, perm, expires } => {
            OpeningClient::new_temp(alloc, key, perm, expires, draw)
        }
    }
}

/// Submits the calls of a script to a client that has none yet.
///
/// # Errors
///
/// The first call that isn't taken.
pub fn submit_all(client: &mut OpeningClient, alloc: Global, script: &Script) -> Result<(), Untaken>
    ensures told { (whole : Client) → Stands client.old whole → calls_of whole ≡ [] → TellsUntaken (untaken script.now) result }
    ensures stands { OnOk result ((whole : Client) → Stands client.old whole → Stands client.new (given_all script.now whole)) }
    ensures keys { keys_in client.new ≡ keys_in client.old }
{
    for place in 0..script.len() {
        let after = earlier(script.after(place));
        if let Err(fault) = client.submit(alloc, script.body(place), after) {
            return Err(Untaken {
                line: script.line(place),
                fault,
            });
        }
    }
    Ok(())
}

/// Submits the calls of a script to a client that has none yet, and gives up the script.
///
/// # Errors
///
/// The first call that isn't taken.
pub(crate) fn submit_whole(
    client: &mut OpeningClient,
    alloc: Global,
    script: Script,
) -> Result<(), Untaken>
    ensures told { (whole : Client) → Stands client.old whole → calls_of whole ≡ [] → TellsUntaken (untaken script) result }
    ensures stands { OnOk result ((whole : Client) → Stands client.old whole → Stands client.new (given_all script whole)) }
    ensures keys { keys_in client.new ≡ keys_in client.old }
{
    submit_all(client, alloc, &script)
}

/// The call of this number.
fn earlier(after: Option<u64>) -> Option<CallNo>
    ensures { result ≡ earlier_of after }
{
    match after {
        Some(n) => Some(CallNo { n }),
        None => None,
    }
}
