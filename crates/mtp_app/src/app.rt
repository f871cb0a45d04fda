//! The top call.

ghost use Rattle.std.specs.Prelude.{◌≡◌, ◌⊎◌, ℕ, Bool, map, string_bytes};
ghost use Rattle.cmd_call.specs.Runs.{CallRun};
ghost use Rattle.cmd_check.specs.Runs.{CheckRun};
ghost use Rattle.cmd_pair.specs.Runs.{PairRun};
ghost use Rattle.cmd_relay.specs.Runs.{RelayRun};
ghost use Rattle.commands.specs.Pages.{page_text, version_text};
ghost use Rattle.commands.specs.Says.{IsLawful, Says};
ghost use Rattle.commands.specs.declared.command.CallOptions.{CallOptions};
ghost use Rattle.commands.specs.declared.command.Command.{Command as Said};
ghost use Rattle.commands.specs.declared.command.Command.TheVariants as command;
ghost use Rattle.commands.specs.declared.command.PairOptions.{PairOptions};
ghost use Rattle.commands.specs.declared.command.RelayOptions.{RelayOptions};
ghost use Rattle.commands.specs.declared.command.ServeOptions.{ServeOptions};
ghost use Rattle.commands.specs.declared.page.Page.{Page};
ghost use Rattle.cmd_sim.specs.Runs.{LoadRun, SimRun};
ghost use Rattle.cmd_serve.specs.Runs.{ServeRun};
ghost use Rattle.statuses.specs.Lines.{words_refused};
ghost use Rattle.statuses.specs.Outside.{PlainRun};
ghost use Rattle.statuses.specs.Statuses.{EndsBy};
ghost use Rattle.statuses.specs.declared.status.Status.TheVariants as status;
ghost use Rattle.mtp_app.specs.Obeys.{AreOffline, AreWithoutChildren, AreWithoutDisks, AreWithoutInput, IsUnbegun, Obeys, Stays};

use cmd_call::run_call;
use cmd_check::laws::memory_may_run_out as memory_may_end_a_check;
use cmd_check::run_check;
use cmd_pair::run_pair;
use cmd_relay::laws::memory_may_run_out as memory_may_end_a_relay;
use cmd_relay::run_relay;
use cmd_serve::run_serve;
use cmd_sim::laws::memory_may_run_out;
use cmd_sim::{run_load, run_sim};
use commands::laws::one_reading;
use commands::{Command, WordsFault, read, version};
use disks::Disks;
use mt_edge::{Clock, KeyFiles, Net, Seeded, Sink, Source, Spawner};
use statuses::{Answer, Status, tell};
use std::alloc::Global;

/// What is written where the words are refused.
const WORDS_REFUSED: &str = "words refused\n";

/// Runs the program on its words, without its own name, and answers its status.
///
/// - `sim [--wire]` reads a schedule to its end and writes the report of its world, with `--wire` also a line on all packets.
/// - `load N` plays the large schedule of so many calls and writes one line that sums it up.
/// - `serve --keys F --port P --conns N [--stop-after K] [--journal F]` serves connections of the net.
/// - `call --keys F --key ID --port P --form FORM [--obfuscate] [--retries R] [--perm ID]` reads a script and runs it as one
///   batch over connections of the net.
/// - `pair --keys F --key ID --port P --stop-after K` reads a script, starts a server that stops behind K packets, and runs it as
///   one batch over that server and, where that loses its connection, over a second one.
/// - `check` reads the facts of a trace to their end and writes whether its calls execute at most once, or else which sentence
///   doesn't hold and the line that shows it.
/// - `relay --secret HEX --form FORM` reads a captured connection and passes it on as a proxy with a secret does, a line for each
///   of its lines.
/// - `--help`, alone or behind the name of a command, and `--version` write a text.
///
/// Status 0: what was to be written is written, by `call` and `pair` each call is done, and by `check` each sentence holds. 1: the
/// words are refused. 2: the input is refused, with the line and the cause. 3: the input can't be read. 4: the output can't be
/// written. 5: the key file isn't read or is refused, or lacks a key. 6: each call is decided, and one isn't done. 7: more
/// connections were lost than may be. 8: one connection gave as many pieces as it may. 9: memory ran out. 10: a client has
/// something to send and fewer than 2,048 numbers left. 11: no connections can be taken, or a server can't be started, read or
/// waited for. 12: the file of the journal can't be opened, is neither empty nor a journal, or is full, or a call of it failed.
/// 13: a sentence about the trace doesn't hold.
pub fn run<
    S: Source,
    O: Sink,
    F: KeyFiles,
    N: Net,
    P: Spawner,
    C: Clock,
    D: Seeded + Drop,
    K: Disks,
>(
    alloc: Global,
    words: &[String],
    input: &mut S,
    out: &mut O,
    files: &mut F,
    net: &mut N,
    kids: &mut P,
    clock: &mut C,
    draw: &mut D,
    disks: &mut K,
) -> u8
where
    K::K: Drop,
    ensures sim { (wire : Bool) → Says (map string_bytes words.now) (command.Sim wire) → EndsBy result (SimRun wire
        (record { told = S.left; faults = S.faults; before = input.old; after = input.new })
        (record { told = O.written; faults = O.faults; before = out.old; after = out.new })) }
    ensures load { (calls : ℕ) → Says (map string_bytes words.now) (command.Load calls) → EndsBy result (LoadRun calls
        (record { told = O.written; faults = O.faults; before = out.old; after = out.new })) }
    // Memory may run out while the words are read; then the command isn't begun.
    ensures serve { (options : ServeOptions) → Says (map string_bytes words.now) (command.Serve options) → EndsBy result (λ one. ServeRun (record { step = D.step; standing_at = D.standing_at; place_of = D.place_of }) options
        (record { told = F.told; faults = F.faults; before = files.old; after = files.new })
        (record { told = N.calls; faults = N.faults; before = net.old; after = net.new })
        (record { told = O.written; faults = O.faults; before = out.old; after = out.new })
        (record { before = C.given clock.old; after = C.given clock.new })
        (record { before = draw.old; after = draw.new })
        (record { told = K.told; faults = K.faults; before = disks.old; after = disks.new }) one ⊎ (IsUnbegun
        (record { told = O.written; faults = O.faults; before = out.old; after = out.new })
        (record { told = F.told; faults = F.faults; before = files.old; after = files.new })
        (record { calls = N.calls; room = N.room; faults = N.faults; given = C.given; step = D.step; net = net.old; net_then = net.new; clock = clock.old; clock_then = clock.new; draw = draw.old; draw_then = draw.new }) one × (disks.new ≡ disks.old))) }
    ensures call { (options : CallOptions) → Says (map string_bytes words.now) (command.Call options) → EndsBy result (λ one. CallRun options
        (record { told = S.left; faults = S.faults; before = input.old; after = input.new })
        (record { told = O.written; faults = O.faults; before = out.old; after = out.new })
        (record { told = F.told; faults = F.faults; before = files.old; after = files.new })
        (record { calls = N.calls; room = N.room; faults = N.faults; given = C.given; step = D.step; net = net.old; net_then = net.new; clock = clock.old; clock_then = clock.new; draw = draw.old; draw_then = draw.new }) one ⊎ IsUnbegun
        (record { told = O.written; faults = O.faults; before = out.old; after = out.new })
        (record { told = F.told; faults = F.faults; before = files.old; after = files.new })
        (record { calls = N.calls; room = N.room; faults = N.faults; given = C.given; step = D.step; net = net.old; net_then = net.new; clock = clock.old; clock_then = clock.new; draw = draw.old; draw_then = draw.new }) one) }
    ensures pair { (options : PairOptions) → Says (map string_bytes words.now) (command.Pair options) → EndsBy result (λ one. PairRun options
        (record { told = S.left; faults = S.faults; before = input.old; after = input.new })
        (record { told = O.written; faults = O.faults; before = out.old; after = out.new })
        (record { told = F.told; faults = F.faults; before = files.old; after = files.new })
        (record { calls = N.calls; room = N.room; faults = N.faults; given = C.given; step = D.step; net = net.old; net_then = net.new; clock = clock.old; clock_then = clock.new; draw = draw.old; draw_then = draw.new })
        (record { calls = P.calls; faults = P.faults; before = kids.old; after = kids.new }) one ⊎ (IsUnbegun
        (record { told = O.written; faults = O.faults; before = out.old; after = out.new })
        (record { told = F.told; faults = F.faults; before = files.old; after = files.new })
        (record { calls = N.calls; room = N.room; faults = N.faults; given = C.given; step = D.step; net = net.old; net_then = net.new; clock = clock.old; clock_then = clock.new; draw = draw.old; draw_then = draw.new }) one × (kids.new ≡ kids.old))) }
    ensures check { Says (map string_bytes words.now) command.Check → EndsBy result (CheckRun
        (record { told = S.left; faults = S.faults; before = input.old; after = input.new })
        (record { told = O.written; faults = O.faults; before = out.old; after = out.new })) }
    ensures relay { (options : RelayOptions) → Says (map string_bytes words.now) (command.Relay options) → EndsBy result (RelayRun options.form options.secret
        (record { told = S.left; faults = S.faults; before = input.old; after = input.new })
        (record { told = O.written; faults = O.faults; before = out.old; after = out.new })) }
    ensures help { (page : Page) → Says (map string_bytes words.now) (command.Help page) → EndsBy result (λ one. PlainRun
        (record { told = O.written; faults = O.faults; before = out.old; after = out.new }) status.Done (page_text page) one) }
    ensures version { Says (map string_bytes words.now) command.Version → EndsBy result (λ one. PlainRun
        (record { told = O.written; faults = O.faults; before = out.old; after = out.new }) status.Done version_text one) }
    // Words that say no command are refused.
    ensures refused { ((said : Said) → Says (map string_bytes words.now) said → ⊥) → EndsBy result (λ one. PlainRun
        (record { told = O.written; faults = O.faults; before = out.old; after = out.new }) status.WordsRefused words_refused one) }
    // Only `sim`, `call`, `pair`, `check` and `relay` read the input.
    ensures unread { AreWithoutInput (map string_bytes words.now) → input.new ≡ input.old }
    // Only `serve`, `call` and `pair` use files, the net, the clock or drawn words, and only `pair` starts children.
    ensures offline { AreOffline (map string_bytes words.now) → (files.new ≡ files.old) × (net.new ≡ net.old) × (clock.new ≡ clock.old) × (draw.new ≡ draw.old) }
    ensures alone { AreWithoutChildren (map string_bytes words.now) → kids.new ≡ kids.old }
    // Only `serve` opens the file of a journal.
    ensures unopened { AreWithoutDisks (map string_bytes words.now) → disks.new ≡ disks.old }
{
    one_reading();
    memory_may_run_out::<S, O>();
    memory_may_end_a_check::<S, O>();
    memory_may_end_a_relay::<S, O>();
    match read(alloc, words) {
        Ok(command) => obey(
            alloc, &command, input, out, files, net, kids, clock, draw, disks,
        )
        .number(),
        Err(WordsFault::Refused) => plain(alloc, Status::WordsRefused, WORDS_REFUSED, out).number(),
        Err(WordsFault::Memory) => Status::Memory.number(),
    }
}

/// Carries out a command.
fn obey<S: Source, O: Sink, F: KeyFiles, N: Net, P: Spawner, C: Clock, D: Seeded + Drop, K: Disks>(
    alloc: Global,
    command: &Command,
    input: &mut S,
    out: &mut O,
    files: &mut F,
    net: &mut N,
    kids: &mut P,
    clock: &mut C,
    draw: &mut D,
    disks: &mut K,
) -> Status
where
    K::K: Drop,
    requires { IsLawful command.now }
    ensures obeys { Obeys (record { step = D.step; standing_at = D.standing_at; place_of = D.place_of }) command.now
        (record { told = S.left; faults = S.faults; before = input.old; after = input.new })
        (record { told = O.written; faults = O.faults; before = out.old; after = out.new })
        (record { told = F.told; faults = F.faults; before = files.old; after = files.new })
        (record { calls = N.calls; room = N.room; faults = N.faults; given = C.given; step = D.step; net = net.old; net_then = net.new; clock = clock.old; clock_then = clock.new; draw = draw.old; draw_then = draw.new })
        (record { calls = P.calls; faults = P.faults; before = kids.old; after = kids.new })
        (record { told = K.told; faults = K.faults; before = disks.old; after = disks.new })
        result }
    ensures stays { Stays command.now
        (record { told = S.left; faults = S.faults; before = input.old; after = input.new })
        (record { told = F.told; faults = F.faults; before = files.old; after = files.new })
        (record { calls = N.calls; room = N.room; faults = N.faults; given = C.given; step = D.step; net = net.old; net_then = net.new; clock = clock.old; clock_then = clock.new; draw = draw.old; draw_then = draw.new })
        (record { calls = P.calls; faults = P.faults; before = kids.old; after = kids.new })
        (record { told = K.told; faults = K.faults; before = disks.old; after = disks.new }) }
{
    match command {
        Command::Sim { wire } => run_sim(alloc, *wire, input, out),
        Command::Load { calls } => run_load(alloc, *calls, out),
        Command::Serve(options) => run_serve(alloc, options, out, files, net, clock, draw, disks),
        Command::Call(options) => run_call(alloc, options, input, out, files, net, clock, draw),
        Command::Pair(options) => run_pair(
            alloc, options, input, out, files, net, kids, clock, draw,
        ),
        Command::Check => run_check(alloc, input, out),
        Command::Relay(options) => run_relay(
            alloc,
            options.form,
            options.secret.as_bytes(),
            input,
            out,
        ),
        Command::Help(page) => plain(alloc, Status::Done, page.text(), out),
        Command::Version => plain(alloc, Status::Done, version(), out),
    }
}

/// Writes a text, and ends by a status.
fn plain<O: Sink>(alloc: Global, due: Status, text: &str, out: &mut O) -> Status
    ensures { PlainRun (record { told = O.written; faults = O.faults; before = out.old; after = out.new }) due text.now result }
{
    match Answer::new(alloc, due, text.as_bytes()) {
        Ok(answer) => tell(out, &answer),
        Err(_memory) => Status::Memory,
    }
}
