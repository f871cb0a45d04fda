//! The simple commands, and what they make of words.

ghost use Rattle.std.specs.Prelude.{◌≡◌, ◌≢◌, true, false, [], IfOk, IfErr, map, string_bytes, option_map};
ghost use Rattle.clap.specs.Words.{app_of, is_simple_and_free, rule_of};
ghost use Rattle.commands.specs.Simple.{sim, load, serve, call, pair, check, relay, option, needed, defaulted, flag, operand, faults, rows};
ghost use Rattle.commands.specs.Values.{text_of};

use crate::command::WordsFault;
use clap::error::ErrorKind;
use clap::{Arg, ArgAction, ArgMatches};
use octets::Memory;
use std::alloc::Global;
use std::marker::Model;

/// What a simple command takes words for. Contracts see a row for each argument that is there or has a default.
#[derive(Drop)]
pub(crate) struct Taken<'a> {
    matches: ArgMatches<'a>,
}

impl<'a> Model for Taken<'a> {
    ghost use Rattle.std.specs.Prelude.{List};
    ghost use Rattle.clap.specs.Words.{Row, found_of, rows_of};

    ghost Value = { List Row };

    ghost view = { λ taken. rows_of (found_of taken.matches) };
}

impl<'a> Taken<'a> {
    /// The text of an argument, where it is there or has a default.
    pub(crate) fn text(&self, name: &str) -> Option<&'a str>
        ensures { option_map (λ text. text.now) result ≡ text_of name.now self.now }
    {
        self.matches.get_str(name)
    }
}

/// What a simple command takes words for, the first of which is its name.
pub(crate) fn take<'a>(
    command: clap::Command<'a>,
    words: &'a [String],
) -> Result<Taken<'a>, WordsFault>
    requires { is_simple_and_free (app_of command) ≡ true }
    ensures taken { IfOk result (λ _. faults (app_of command.entry) (map string_bytes words.entry.now) ≡ []) }
    ensures rows { IfOk result (λ taken. taken ≡ rows (app_of command.entry) (map string_bytes words.entry.now)) }
    ensures refused { IfErr result (λ fault. fault ≡ WordsFault.Refused → faults (app_of command.entry) (map string_bytes words.entry.now) ≢ []) }
{
    match command.try_get_matches_from(words) {
        Ok(matches) => Ok(Taken { matches }),
        Err(error) => match error.kind() {
            ErrorKind::OutOfMemory => Err(WordsFault::Memory),
            _ => Err(WordsFault::Refused),
        },
    }
}

/// `sim [--wire]`.
pub(crate) fn sim_command<'a>(alloc: Global) -> Result<clap::Command<'a>, Memory>
    ensures { IfOk result (λ command. app_of command ≡ sim) }
{
    Ok(clap::Command::new(alloc, "sim").arg(flag(alloc, "wire"))?)
}

/// `load N`.
pub(crate) fn load_command<'a>(alloc: Global) -> Result<clap::Command<'a>, Memory>
    ensures { IfOk result (λ command. app_of command ≡ load) }
{
    Ok(clap::Command::new(alloc, "load").arg(operand(alloc, "calls"))?)
}

/// `serve --keys F --port P --conns N [--stop-after K] [--journal F]`.
pub(crate) fn serve_command<'a>(alloc: Global) -> Result<clap::Command<'a>, Memory>
    ensures { IfOk result (λ command. app_of command ≡ serve) }
{
    let command = clap::Command::new(alloc, "serve")
        .arg(needed(alloc, "keys"))?
        .arg(needed(alloc, "port"))?
        .arg(needed(alloc, "conns"))?
        .arg(option(alloc, "stop-after"))?
        .arg(option(alloc, "journal"))?;
    Ok(command)
}

/// `call --keys F --key ID --port P --form FORM [--obfuscate] [--retries R] [--perm ID]`.
pub(crate) fn call_command<'a>(alloc: Global) -> Result<clap::Command<'a>, Memory>
    ensures { IfOk result (λ command. app_of command ≡ call) }
{
    let command = clap::Command::new(alloc, "call")
        .arg(needed(alloc, "keys"))?
        .arg(needed(alloc, "key"))?
        .arg(needed(alloc, "port"))?
        .arg(needed(alloc, "form"))?
        .arg(flag(alloc, "obfuscate"))?
        .arg(defaulted(alloc, "retries", "0"))?
        .arg(option(alloc, "perm"))?;
    Ok(command)
}

/// `pair --keys F --key ID --port P --stop-after K`.
pub(crate) fn pair_command<'a>(alloc: Global) -> Result<clap::Command<'a>, Memory>
    ensures { IfOk result (λ command. app_of command ≡ pair) }
{
    let command = clap::Command::new(alloc, "pair")
        .arg(needed(alloc, "keys"))?
        .arg(needed(alloc, "key"))?
        .arg(needed(alloc, "port"))?
        .arg(needed(alloc, "stop-after"))?;
    Ok(command)
}

/// `check`.
pub(crate) fn check_command<'a>(alloc: Global) -> Result<clap::Command<'a>, Memory>
    ensures { IfOk result (λ command. app_of command ≡ check) }
{
    Ok(clap::Command::new(alloc, "check"))
}

/// `relay --secret HEX --form FORM`.
pub(crate) fn relay_command<'a>(alloc: Global) -> Result<clap::Command<'a>, Memory>
    ensures { IfOk result (λ command. app_of command ≡ relay) }
{
    let command = clap::Command::new(alloc, "relay")
        .arg(needed(alloc, "secret"))?
        .arg(needed(alloc, "form"))?;
    Ok(command)
}

/// `--NAME VALUE`, which may be left out.
fn option<'a>(alloc: Global, name: &'a str) -> Arg<'a>
    ensures rule { rule_of result ≡ option name.entry.now }
    ensures own { result.global ≡ false }
{
    Arg::new(alloc, name).long(name)
}

/// `--NAME VALUE`, which has to be there.
fn needed<'a>(alloc: Global, name: &'a str) -> Arg<'a>
    ensures rule { rule_of result ≡ needed name.entry.now }
    ensures own { result.global ≡ false }
{
    Arg::new(alloc, name).long(name).required(true)
}

/// `--NAME VALUE`, with what stands for it where it is left out.
fn defaulted<'a>(alloc: Global, name: &'a str, value: &'a str) -> Arg<'a>
    ensures rule { rule_of result ≡ defaulted name.entry.now value.entry.now }
    ensures own { result.global ≡ false }
{
    Arg::new(alloc, name).long(name).default_value(value)
}

/// `--NAME`, with no value.
fn flag<'a>(alloc: Global, name: &'a str) -> Arg<'a>
    ensures rule { rule_of result ≡ flag name.entry.now }
    ensures own { result.global ≡ false }
{
    Arg::new(alloc, name).long(name).action(ArgAction::SetTrue)
}

/// A value with no `--NAME` before it, which has to be there.
fn operand<'a>(alloc: Global, name: &'a str) -> Arg<'a>
    ensures rule { rule_of result ≡ operand name.entry.now }
    ensures own { result.global ≡ false }
{
    Arg::new(alloc, name).required(true)
}
