//! The batches over the servers, one after the other.

ghost use Rattle.std.specs.Prelude.{◌≡◌, ◌<◌, ◌↔◌, IsTrue, IfOk};
ghost use Rattle.cmd_call.specs.Owed.{around_of};
ghost use Rattle.client_node.specs.Course.{Course};
ghost use Rattle.client_node.specs.Standing.{AllDecided, HasKeys, StandsAs};
ghost use Rattle.cmd_pair.specs.Batches.{IsBatch, OwesPair};
ghost use Rattle.cmd_pair.specs.Inner.{PairBy, ServesBy, WaitsBy};
ghost use Rattle.cmd_pair.specs.Servers.{kids_of, server_words};

use crate::halt::KidFault;
use crate::servers::{Server, begin};
use auth_keys::Ring;
use client_core::{Holder, OpeningClient};
use client_node::{Batch, Plan, run_batch};
use cmd_call::batch_answer;
use cmd_call::laws::{batches_are_worked_out, statuses_have_causes};
use commands::PairOptions;
use draws::Draw;
use envelope::MtSeal;
use mt_edge::{Act, Clock, Net, Spawner};
use octets::Memory;
use statuses::{Answer, Status};
use std::alloc::Global;
use transport::Form;

/// Runs a client's batch over the server on this port.
fn run_on<N: Net, C: Clock, D: Draw>(
    alloc: Global,
    port: u16,
    client: Holder,
    seal: &MtSeal,
    net: &mut N,
    clock: &mut C,
    draw: &mut D,
) -> (Holder, Batch)
    requires { HasKeys seal.now client }
    ensures ran { (course : Course D) (drawn : D) → StandsAs client draw.old course → IsBatch seal.now port course
        (around_of N.calls N.room N.faults C.given D.step net.old net.new clock.old clock.new drawn draw.new) result.1 result.0 }
    ensures decided { result.1 ≡ Batch.Decided → AllDecided result.0 }
    ensures keys { HasKeys seal.now result.0 }
{
    batches_are_worked_out::<D>();
    let plan = Plan {
        port,
        form: Form::Intermediate,
        obfuscate: false,
        retries: 0,
    };
    run_batch(alloc, client, &plan, net, seal, clock, draw)
}

/// Waits for the end of the server that was started last, where memory didn't run out in the batch over it: nothing may have
/// been connected to then, and a server that waits for its connection never ends.
///
/// # Errors
///
/// `Failed`: it failed. `Memory`.
fn wait_for_end<P: Spawner>(end: Batch, kids: &mut P) -> Result<(), KidFault>
    ensures { WaitsBy result (kids_of P.calls P.faults kids.old kids.new) }
{
    if ran_out(end) {
        return Err(KidFault::Memory);
    }
    match kids.wait() {
        Act::Ready => Ok(()),
        Act::Failed => Err(KidFault::Failed),
    }
}

/// Whether memory ran out in a batch.
fn ran_out(end: Batch) -> bool
    ensures { IsTrue result ↔ (end ≡ Batch.Memory) }
{
    matches!(end, Batch::Memory)
}

/// A batch, once its server has ended.
///
/// # Errors
///
/// `Failed`: the wait failed. `Memory`.
fn ended<P: Spawner>(batch: (Holder, Batch), kids: &mut P) -> Result<(Holder, Batch), KidFault>
    ensures waits { WaitsBy result (kids_of P.calls P.faults kids.old kids.new) }
    ensures same { IfOk result (λ done. done ≡ batch) }
{
    match wait_for_end(batch.1, kids) {
        Ok(()) => Ok(batch),
        Err(fault) => {
            drop(batch);
            Err(fault)
        }
    }
}

/// Starts a server, runs a client's batch over it, and waits for the server's end.
///
/// # Errors
///
/// `Failed`: a call of the spawner failed. `Memory`.
fn over_server<P: Spawner, N: Net, C: Clock, D: Draw>(
    alloc: Global,
    server: &Server<'_>,
    client: Holder,
    seal: &MtSeal,
    kids: &mut P,
    net: &mut N,
    clock: &mut C,
    draw: &mut D,
) -> Result<(Holder, Batch), KidFault>
    requires { HasKeys seal.now client }
    ensures spawns { ServesBy (server_words server.now.keys.now server.now.port server.now.stop_after) result (kids_of P.calls P.faults kids.old kids.new) }
    ensures ran { (course : Course D) (drawn : D) → StandsAs client draw.old course → IfOk result (λ done. IsBatch seal.now server.now.port course
        (around_of N.calls N.room N.faults C.given D.step net.old net.new clock.old clock.new drawn draw.new) done.1 done.0) }
    ensures decided { IfOk result (λ done. done.1 ≡ Batch.Decided → AllDecided done.0) }
    ensures keys { IfOk result (λ done. HasKeys seal.now done.0) }
{
    begin(alloc, server, kids)?;
    let batch = run_on(alloc, server.port, client, seal, net, clock, draw);
    ended(batch, kids)
}

/// Runs a client's batch over a server that stops, and, where that loses its connection, goes on with the client over a
/// second one.
///
/// # Errors
///
/// `Failed`: a call of the spawner failed. `Memory`.
fn over_both<P: Spawner, N: Net, C: Clock, D: Draw>(
    alloc: Global,
    options: &PairOptions<'_>,
    client: Holder,
    seal: &MtSeal,
    kids: &mut P,
    net: &mut N,
    clock: &mut C,
    draw: &mut D,
) -> Result<(Holder, Batch), KidFault>
    requires port { options.now.port < 65535 }
    requires keys { HasKeys seal.now client }
    ensures ran { (course : Course D) (drawn : D) → StandsAs client draw.old course → PairBy options.now seal.now course
        (around_of N.calls N.room N.faults C.given D.step net.old net.new clock.old clock.new drawn draw.new)
        (kids_of P.calls P.faults kids.old kids.new) result }
    ensures decided { IfOk result (λ done. done.1 ≡ Batch.Decided → AllDecided done.0) }
{
    let first = Server {
        keys: options.keys.as_str(),
        port: options.port,
        stop_after: Some(options.stop_after),
    };
    let (client, end) = over_server(alloc, &first, client, seal, kids, net, clock, draw)?;
    if !is_lost(end) {
        return Ok((client, end));
    }
    let second = Server {
        keys: options.keys.as_str(),
        port: options.port + 1,
        stop_after: None,
    };
    over_server(alloc, &second, client, seal, kids, net, clock, draw)
}

/// Whether a batch lost its connection.
fn is_lost(end: Batch) -> bool
    ensures { IsTrue result ↔ (end ≡ Batch.LinkLost) }
{
    matches!(end, Batch::LinkLost)
}

/// Runs a client's batch under the keys of a ring over the servers, and tells what became of it.
///
/// # Errors
///
/// `Memory`.
pub(crate) fn run<P: Spawner, N: Net, C: Clock, D: Draw>(
    alloc: Global,
    options: &PairOptions<'_>,
    client: OpeningClient,
    ring: Ring,
    kids: &mut P,
    net: &mut N,
    clock: &mut C,
    draw: &mut D,
) -> Result<Answer, Memory>
    requires port { options.now.port < 65535 }
    requires keys { HasKeys ring (Holder.Opening client) }
    ensures { (course : Course D) (drawn : D) → StandsAs (Holder.Opening client) draw.old course → IfOk result (λ answer. OwesPair options.now ring course
        (around_of N.calls N.room N.faults C.given D.step net.old net.new clock.old clock.new drawn draw.new)
        (kids_of P.calls P.faults kids.old kids.new) answer.status answer.text) }
{
    statuses_have_causes::<D>();
    let seal = MtSeal::new(ring);
    let client = Holder::Opening(client);
    match over_both(alloc, options, client, &seal, kids, net, clock, draw) {
        Ok((client, end)) => {
            let answer = batch_answer(alloc, &client, end);
            drop(client);
            answer
        }
        Err(KidFault::Failed) => Answer::new(alloc, Status::NotListening, b"child fault\n"),
        Err(KidFault::Memory) => Err(Memory),
    }
}
