//! The batch of a client, and what is told of it.

ghost use Rattle.std.specs.Prelude.{◌≡◌, ◌≢◌, ◌++◌, true, IfErr, IfOk};
ghost use Rattle.client_core.specs.Keys.{HasKeys, keys_in};
ghost use Rattle.client_node.specs.Course.{Course};
ghost use Rattle.client_node.specs.Standing.{StandsAs, StandsFor};
ghost use Rattle.client_rules.specs.Client.{Client, calls_of};
ghost use Rattle.transport.specs.declared.form.Form.TheVariants as forms;
ghost use Rattle.cmd_call.specs.Inner.{LeftFrom, RanFrom};
ghost use Rattle.cmd_call.specs.Owed.{around_of};
ghost use Rattle.cmd_call.specs.Runs.{UsesNet};
ghost use Rattle.cmd_call.specs.Table.{TellsBatch, are_done, decided_status, table};

use crate::telling::{are_done, table};
use auth_keys::Ring;
use client_core::{Holder, OpeningClient};
use client_node::{Batch, Plan, run_batch};
use commands::CallOptions;
use draws::Draw;
use envelope::MtSeal;
use mt_edge::{Clock, Net};
use octets::Memory;
use ring_rules::laws::packets_open_as_worked_out;
use statuses::{Answer, Status};
use std::alloc::Global;

/// Runs a client's calls under the keys of a ring, and tells what became of them.
///
/// # Errors
///
/// `Memory`.
pub(crate) fn run<N: Net, C: Clock, D: Draw>(
    alloc: Global,
    options: &CallOptions<'_>,
    client: OpeningClient,
    ring: Ring,
    net: &mut N,
    clock: &mut C,
    draw: &mut D,
) -> Result<Answer, Memory>
    requires full_is_plain { options.now.obfuscate ≡ true → options.now.form ≢ forms.Full }
    requires keys { HasKeys ring (keys_in client) }
    ensures ran { (course : Course D) → StandsAs (Holder.Opening client) draw.old course → IfOk result (λ answer. RanFrom options.now ring course
        (around_of N.calls N.room N.faults C.given D.step net.old net.new clock.old clock.new draw.old draw.new)
        answer.status answer.text) }
    ensures left { (course : Course D) → StandsAs (Holder.Opening client) draw.old course → IfErr result (λ _. LeftFrom options.now ring course
        (around_of N.calls N.room N.faults C.given D.step net.old net.new clock.old clock.new draw.old draw.new)) }
    ensures connects { UsesNet options.now
        (around_of N.calls N.room N.faults C.given D.step net.old net.new clock.old clock.new draw.old draw.new) }
{
    packets_open_as_worked_out();
    let plan = Plan {
        port: options.port,
        form: options.form,
        obfuscate: options.obfuscate,
        retries: options.retries,
    };
    let seal = MtSeal::new(ring);
    let (holder, end) = run_batch(
        alloc,
        Holder::Opening(client),
        &plan,
        net,
        &seal,
        clock,
        draw,
    );
    let answer = batch_answer(alloc, &holder, end);
    drop(holder);
    answer
}

/// What is told of a client's batch that ended so: the table of its calls and, unless each is decided, a line on that.
///
/// # Errors
///
/// `Memory`, also where the batch ended by that.
pub fn batch_answer(alloc: Global, holder: &Holder, end: Batch) -> Result<Answer, Memory>
    ensures { (whole : Client) → StandsFor holder.now whole → IfOk result (λ answer. TellsBatch end (calls_of whole) answer.status answer.text) }
{
    match end {
        Batch::Decided => Ok(Answer {
            status: decided_status(holder),
            text: table(alloc, holder)?,
        }),
        Batch::LinkLost => with_line(alloc, holder, Status::LinkLost, "link lost\n"),
        Batch::TurnsSpent => with_line(alloc, holder, Status::TurnsSpent, "turns spent\n"),
        Batch::Spent => with_line(alloc, holder, Status::NumbersSpent, "numbers spent\n"),
        Batch::Memory => Err(Memory),
    }
}

/// The status where each call of a client is decided.
fn decided_status(holder: &Holder) -> Status
    ensures { (whole : Client) → StandsFor holder.now whole → result ≡ decided_status (are_done (calls_of whole)) }
{
    if are_done(holder) {
        Status::Done
    } else {
        Status::NotAllDone
    }
}

/// A status, and the table of a client's calls with a line behind it.
fn with_line(alloc: Global, holder: &Holder, status: Status, line: &str) -> Result<Answer, Memory>
    ensures status { IfOk result (λ answer. answer.status ≡ status) }
    ensures text { (whole : Client) → StandsFor holder.now whole → IfOk result (λ answer. answer.text ≡ table (calls_of whole) ++ line.now) }
{
    let mut text = table(alloc, holder)?;
    text.push_all(alloc, line.as_bytes())?;
    Ok(Answer { status, text })
}
