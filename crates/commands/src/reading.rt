//! The words of the command line.

ghost use Rattle.std.specs.Prelude.{◌≡◌, ◌≢◌, ◌↔◌, [], ℕ, Bool, List, IsTrue, IfOk, IfErr, IfSome, IfNone, map, string_bytes, codes};
ghost use Rattle.std.specs.List.{list_any};
ghost use Rattle.std.specs.Str.{bytes_eq};
ghost use Rattle.commands.specs.Simple.{sim, load, serve, call, pair, check, relay};
ghost use Rattle.commands.specs.Values.{HasFlag, HasNumber};
ghost use Rattle.commands.specs.Says.{IsLawful, Says, SaysServe, SaysCall, SaysPair, SaysRelay, page_word};
ghost use Rattle.commands.specs.Inner.{IsTold, RefusesUnlessMemory, SaysNothing};
ghost use Rattle.commands.specs.declared.command.Command.{Command};
ghost use Rattle.commands.specs.declared.command.ServeOptions.{ServeOptions};
ghost use Rattle.commands.specs.declared.command.CallOptions.{CallOptions};
ghost use Rattle.commands.specs.declared.command.PairOptions.{PairOptions};
ghost use Rattle.commands.specs.declared.command.RelayOptions.{RelayOptions};
ghost use Rattle.commands.specs.declared.page.Page.{Page};

use crate::command::{
    CallOptions, Command, FileName, PairOptions, RelayOptions, ServeOptions, WordsFault,
};
use crate::page::Page;
use crate::simple::{
    Taken, call_command, check_command, load_command, pair_command, relay_command, serve_command,
    sim_command, take,
};
use std::alloc::Global;
use transport::Form;

/// The command that the words say: the words of the command line without the program's own name.
///
/// # Errors
///
/// `Refused` where the words say no command. `Memory`.
pub fn read<'a>(alloc: Global, words: &'a [String]) -> Result<Command<'a>, WordsFault>
    ensures said { IfOk result (Says (map string_bytes words.entry.now)) }
    ensures lawful { IfOk result IsLawful }
    ensures refused { IfErr result (λ fault. fault ≡ WordsFault.Refused → (command : Command) → Says (map string_bytes words.entry.now) command → ⊥) }
{
    let Some(first) = words.first() else {
        return Err(WordsFault::Refused);
    };
    if asks_help(words) {
        return match page_of(first.as_str()) {
            Some(page) => Ok(Command::Help(page)),
            None => Err(WordsFault::Refused),
        };
    }
    match first.as_str() {
        "sim" => Ok(Command::Sim {
            wire: told_sim(alloc, words)?,
        }),
        "load" => Ok(Command::Load {
            calls: told_load(alloc, words)?,
        }),
        "serve" => Ok(Command::Serve(told_serve(alloc, words)?)),
        "call" => Ok(Command::Call(told_call(alloc, words)?)),
        "pair" => Ok(Command::Pair(told_pair(alloc, words)?)),
        "check" => {
            told_check(alloc, words)?;
            Ok(Command::Check)
        }
        "relay" => Ok(Command::Relay(told_relay(alloc, words)?)),
        "--version" if words.len() == 1 => Ok(Command::Version),
        _ => Err(WordsFault::Refused),
    }
}

/// Whether a word is `--help`.
fn asks_help(words: &[String]) -> bool
    ensures { result ≡ list_any (λ word. bytes_eq (string_bytes word) (codes "--help")) words.now }
{
    words.iter().any(|word| word.as_str() == "--help")
}

/// The page of help that is asked for behind a first word.
fn page_of(first: &str) -> Option<Page>
    ensures found { IfSome result (λ page. first.now ≡ page_word page) }
    ensures none { IfNone result ((page : Page) → first.now ≢ page_word page) }
{
    match first {
        "--help" => Some(Page::Program),
        "sim" => Some(Page::Sim),
        "load" => Some(Page::Load),
        "serve" => Some(Page::Serve),
        "call" => Some(Page::Call),
        "pair" => Some(Page::Pair),
        "check" => Some(Page::Check),
        "relay" => Some(Page::Relay),
        _ => None,
    }
}

/// What `sim` is told: whether `--wire` is there.
fn told_sim(alloc: Global, words: &[String]) -> Result<bool, WordsFault>
    ensures found { IfOk result (IsTold sim (HasFlag (codes "wire")) (map string_bytes words.now)) }
    ensures refused { IfErr result (RefusesUnlessMemory sim (HasFlag (codes "wire")) (map string_bytes words.now)) }
{
    let taken = take(sim_command(alloc)?, words)?;
    Ok(taken.flag("wire"))
}

/// What `load` is told: how many calls.
fn told_load(alloc: Global, words: &[String]) -> Result<u32, WordsFault>
    ensures found { IfOk result (IsTold load (HasNumber (codes "calls") 1 10000) (map string_bytes words.now)) }
    ensures refused { IfErr result (RefusesUnlessMemory load (HasNumber (codes "calls") 1 10000) (map string_bytes words.now)) }
{
    let taken = take(load_command(alloc)?, words)?;
    Ok(taken.number("calls", 1, 10_000)? as u32)
}

/// What `serve` is told.
fn told_serve<'a>(alloc: Global, words: &'a [String]) -> Result<ServeOptions<'a>, WordsFault>
    ensures found { IfOk result (IsTold serve SaysServe (map string_bytes words.entry.now)) }
    ensures refused { IfErr result (RefusesUnlessMemory serve SaysServe (map string_bytes words.entry.now)) }
{
    let taken = take(serve_command(alloc)?, words)?;
    serve_options(&taken)
}

/// What `call` is told.
fn told_call<'a>(alloc: Global, words: &'a [String]) -> Result<CallOptions<'a>, WordsFault>
    ensures found { IfOk result (IsTold call SaysCall (map string_bytes words.entry.now)) }
    ensures refused { IfErr result (RefusesUnlessMemory call SaysCall (map string_bytes words.entry.now)) }
{
    let taken = take(call_command(alloc)?, words)?;
    call_options(&taken)
}

/// What `pair` is told.
fn told_pair<'a>(alloc: Global, words: &'a [String]) -> Result<PairOptions<'a>, WordsFault>
    ensures found { IfOk result (IsTold pair SaysPair (map string_bytes words.entry.now)) }
    ensures refused { IfErr result (RefusesUnlessMemory pair SaysPair (map string_bytes words.entry.now)) }
{
    let taken = take(pair_command(alloc)?, words)?;
    pair_options(&taken)
}

/// That `check` is told nothing.
fn told_check(alloc: Global, words: &[String]) -> Result<(), WordsFault>
    ensures found { IfOk result (IsTold check SaysNothing (map string_bytes words.now)) }
    ensures refused { IfErr result (RefusesUnlessMemory check SaysNothing (map string_bytes words.now)) }
{
    take(check_command(alloc)?, words)?;
    Ok(())
}

/// What `relay` is told.
fn told_relay(alloc: Global, words: &[String]) -> Result<RelayOptions, WordsFault>
    ensures found { IfOk result (IsTold relay SaysRelay (map string_bytes words.now)) }
    ensures refused { IfErr result (RefusesUnlessMemory relay SaysRelay (map string_bytes words.now)) }
{
    let taken = take(relay_command(alloc)?, words)?;
    relay_options(&taken)
}

/// The options of `serve`.
fn serve_options<'a>(taken: &Taken<'a>) -> Result<ServeOptions<'a>, WordsFault>
    ensures found { IfOk result (SaysServe taken.now) }
    ensures refused { IfErr result (λ _. (options : ServeOptions) → SaysServe taken.now options → ⊥) }
{
    let keys = FileName::new(taken.needed("keys")?);
    let port = taken.number("port", 1, 65_535)? as u16;
    let conns = taken.number("conns", 1, 1_000)? as u32;
    let stop_after = taken.may_number("stop-after", 1, 1_000_000_000)?;
    let journal = taken.may_file("journal");
    Ok(ServeOptions {
        keys,
        port,
        conns,
        stop_after,
        journal,
    })
}

/// The options of `call`.
fn call_options<'a>(taken: &Taken<'a>) -> Result<CallOptions<'a>, WordsFault>
    ensures found { IfOk result (SaysCall taken.now) }
    ensures refused { IfErr result (λ _. (options : CallOptions) → SaysCall taken.now options → ⊥) }
{
    let keys = FileName::new(taken.needed("keys")?);
    let key = taken.id("key")?;
    let port = taken.number("port", 1, 65_535)? as u16;
    let form = taken.form("form")?;
    let obfuscate = taken.flag("obfuscate");
    let retries = taken.number("retries", 0, 1_000)? as u32;
    let perm = taken.may_id("perm")?;
    if obfuscate && form == Form::Full {
        return Err(WordsFault::Refused);
    }
    Ok(CallOptions {
        keys,
        key,
        port,
        form,
        obfuscate,
        retries,
        perm,
    })
}

/// The options of `pair`.
fn pair_options<'a>(taken: &Taken<'a>) -> Result<PairOptions<'a>, WordsFault>
    ensures found { IfOk result (SaysPair taken.now) }
    ensures refused { IfErr result (λ _. (options : PairOptions) → SaysPair taken.now options → ⊥) }
{
    let keys = FileName::new(taken.needed("keys")?);
    let key = taken.id("key")?;
    let port = taken.number("port", 1, 65_534)? as u16;
    let stop_after = taken.number("stop-after", 1, 1_000_000_000)?;
    Ok(PairOptions {
        keys,
        key,
        port,
        stop_after,
    })
}

/// The options of `relay`.
fn relay_options(taken: &Taken<'_>) -> Result<RelayOptions, WordsFault>
    ensures found { IfOk result (SaysRelay taken.now) }
    ensures refused { IfErr result (λ _. (options : RelayOptions) → SaysRelay taken.now options → ⊥) }
{
    let secret = taken.secret("secret")?;
    let form = taken.form("form")?;
    if form == Form::Full {
        return Err(WordsFault::Refused);
    }
    Ok(RelayOptions { secret, form })
}
