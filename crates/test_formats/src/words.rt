//! Command lines: words and what they say; words that are refused; the pages of help.

ghost use Rattle.std.specs.Prelude.{◌≡◌, ◌⊎◌, IfOk, map, string_bytes};
ghost use Rattle.commands.specs.Says.{Says};

use crate::rows::{Asked, are_so};
use commands::{Command, Page, WordsFault, read, version};
use std::alloc::Global;
use std::test::Fail;
use test_asserts::{holds, holds_at, same, same_at, shown};
use test_lines::words_of;

// How many calls the words want of `load`, or 0.
fn calls_wanted(alloc: Global, words: &[String]) -> Result<u32, WordsFault>
    ensures { IfOk result (λ calls. (calls ≡ 0) ⊎ Says (map string_bytes words.now) (Command.Load calls)) }
{
    match read(alloc, words)? {
        Command::Load { calls } => Ok(calls),
        _ => Ok(0),
    }
}

// What words say, and the line that has them. In a key the least byte comes first: the bytes 01 to 08 are 0x0807060504030201, and those whose
// last is 01 are 2^56.
const SAID: &str = "\
Sim { wire: false } | sim\n\
Sim { wire: true } | sim --wire\n\
Sim { wire: false } | sim --\n\
Load { calls: 1 } | load 1\n\
Load { calls: 10000 } | load 10000\n\
Load { calls: 7 } | load -- 7\n\
Serve(ServeOptions { keys: FileName { text: \"f\" }, port: 1, conns: 1, stop_after: None, journal: None }) | serve --keys f --port 1 --conns 1\n\
Serve(ServeOptions { keys: FileName { text: \"-k\" }, port: 65535, conns: 1000, stop_after: Some(1), journal: Some(FileName { text: \"-j\" }) }) | serve --stop-after 1 --journal=-j --conns=1000 --port=65535 --keys=-k\n\
Serve(ServeOptions { keys: FileName { text: \"serve\" }, port: 80, conns: 2, stop_after: Some(1000000000), journal: None }) | serve --keys serve --port 80 --conns 2 --stop-after 1000000000\n\
Call(CallOptions { keys: FileName { text: \"k\" }, key: 578437695752307201, port: 8443, form: Abridged, obfuscate: false, retries: 0, perm: None }) | call --keys k --key 0102030405060708 --port 8443 --form abridged\n\
Call(CallOptions { keys: FileName { text: \"k\" }, key: 72057594037927936, port: 1, form: Padded, obfuscate: true, retries: 1000, perm: Some(18446744073709551615) }) | call --obfuscate --perm ffffffffffffffff --retries 1000 --keys k --key 0000000000000001 --port 1 --form padded\n\
Call(CallOptions { keys: FileName { text: \"k\" }, key: 15715755, port: 1, form: Full, obfuscate: false, retries: 0, perm: None }) | call --keys k --key abcdef0000000000 --port 1 --form full --retries 0\n\
Call(CallOptions { keys: FileName { text: \"k\" }, key: 0, port: 1, form: Intermediate, obfuscate: true, retries: 0, perm: None }) | call --keys k --key 0000000000000000 --port 1 --form intermediate --obfuscate\n\
Pair(PairOptions { keys: FileName { text: \"f\" }, key: 578437695752307201, port: 65534, stop_after: 1000000000 }) | pair --keys f --key 0102030405060708 --port 65534 --stop-after 1000000000\n\
Check | check\n\
Relay(RelayOptions { secret: Secret(..), form: Padded }) | relay --secret 000102030405060708090a0b0c0d0e0F --form padded\n\
Help(Program) | --help\n\
Help(Program) | --help sim\n\
Help(Sim) | sim --help\n\
Help(Load) | load x --help\n\
Help(Serve) | serve --port 0 --help\n\
Help(Call) | call --help --bogus\n\
Help(Pair) | pair --help\n\
Help(Check) | check --help\n\
Help(Relay) | relay --help\n\
Version | --version\n";

/// The words of a line say what is shown so.
pub(crate) fn says(alloc: Global, line: &str, want: &str) -> Result<(), Fail> {
    let words = words_of(alloc, line)?;
    let said = said(alloc, words.as_slice());
    drop(words);
    same_at(line, said?.as_str(), want)
}

// What words say, as it is shown.
fn said(alloc: Global, words: &[String]) -> Result<String, Fail> {
    let said = read(alloc, words)?;
    let text = shown(alloc, &said);
    drop(said);
    Ok(text?)
}

#[test]
fn words_and_what_they_say(rt: HostRuntime) -> Result<(), Fail> {
    are_so(rt.alloc(), Asked::Words, SAID, 26)
}

// Lines whose words are refused, of which the first has one word without a character.
const REFUSED: &str = "\
refused | \n\
refused | Sim\n\
refused | sim x\n\
refused | sim --wire --wire\n\
refused | sim --wire=true\n\
refused | sim --wir\n\
refused | sim -wire\n\
refused | sim -h\n\
refused | load\n\
refused | load 0\n\
refused | load 10001\n\
refused | load 01\n\
refused | load +1\n\
refused | load -1\n\
refused | load 1 2\n\
refused | load 1x\n\
refused | load 18446744073709551617\n\
refused | load --calls 1\n\
refused | serve\n\
refused | serve --port 1 --conns 1\n\
refused | serve --keys f --conns 1\n\
refused | serve --keys f --port 1\n\
refused | serve --keys f --port 0 --conns 1\n\
refused | serve --keys f --port 65536 --conns 1\n\
refused | serve --keys f --port 080 --conns 1\n\
refused | serve --keys f --port 1 --conns 0\n\
refused | serve --keys f --port 1 --conns 1001\n\
refused | serve --keys f --port 1 --conns 1 --stop-after 0\n\
refused | serve --keys f --port 1 --conns 1 --stop-after 1000000001\n\
refused | serve --keys f --port 1 --conns 1 --stop-after\n\
refused | serve --keys f --port 1 --conns 1 --conns 1\n\
refused | serve --keys f --port 1 --conns 1 --journal\n\
refused | serve --keys f --port 1 --conns 1 --journal j --journal j\n\
refused | serve --keys f --port 1 --conns 1 x\n\
refused | serve --keys -f --port 1 --conns 1\n\
refused | call --keys k --key 0102030405060708 --port 1\n\
refused | call --keys k --key 0102030405060708 --form full\n\
refused | call --keys k --port 1 --form full\n\
refused | call --key 0102030405060708 --port 1 --form full\n\
refused | call --keys k --key 0102030405060708 --port 1 --form Full\n\
refused | call --keys k --key 0102030405060708 --port 1 --form full --obfuscate\n\
refused | call --keys k --key 010203040506070 --port 1 --form full\n\
refused | call --keys k --key 01020304050607080 --port 1 --form full\n\
refused | call --keys k --key 010203040506070F --port 1 --form full\n\
refused | call --keys k --key 010203040506070g --port 1 --form full\n\
refused | call --keys k --key 0102030405060708 --port 1 --form full --retries 1001\n\
refused | call --keys k --key 0102030405060708 --port 1 --form full --retries 00\n\
refused | call --keys k --key 0102030405060708 --port 1 --form full --perm 0\n\
refused | pair\n\
refused | pair --keys f --key 0102030405060708 --port 65535 --stop-after 1\n\
refused | pair --keys f --key 0102030405060708 --port 1 --stop-after 0\n\
refused | pair --keys f --key 0102030405060708 --port 1\n\
refused | check x\n\
refused | relay\n\
refused | relay --form padded\n\
refused | relay --secret 000102030405060708090a0b0c0d0e0f\n\
refused | relay --secret 000102030405060708090a0b0c0d0e0f --form full\n\
refused | relay --secret 000102030405060708090a0b0c0d0e --form padded\n\
refused | relay --secret 000102030405060708090a0b0c0d0e0g --form padded\n\
refused | help\n\
refused | -h\n\
refused | --version x\n\
refused | --version --help\n";

/// The words of a line are refused.
pub(crate) fn is_refused(alloc: Global, line: &str, want: &str) -> Result<(), Fail> {
    let words = words_of(alloc, line)?;
    let refused = are_refused(alloc, words.as_slice());
    drop(words);
    same_at(line, if refused { "refused" } else { "said" }, want)
}

fn are_refused(alloc: Global, words: &[String]) -> bool {
    let said = read(alloc, words);
    let refused = matches!(&said, Err(WordsFault::Refused));
    drop(said);
    refused
}

#[test]
fn words_that_are_refused(rt: HostRuntime) -> Result<(), Fail> {
    are_so(rt.alloc(), Asked::Refused, REFUSED, 63)?;
    holds(are_refused(rt.alloc(), &[]))
}

// Whether a page begins so, ends with a newline and has no line of more than 80 bytes.
fn is_page(text: &str, front: &str) -> bool {
    text.starts_with(front) && text.ends_with("\n") && text.lines().all(|line| line.len() <= 80)
}

#[test]
fn pages() -> Result<(), Fail> {
    let pages = [
        (Page::Program, "mtp: "),
        (Page::Sim, "mtp sim "),
        (Page::Load, "mtp load "),
        (Page::Serve, "mtp serve "),
        (Page::Call, "mtp call "),
        (Page::Pair, "mtp pair "),
        (Page::Check, "mtp check\n"),
        (Page::Relay, "mtp relay "),
    ];
    for (page, front) in pages {
        holds_at(front, is_page(page.text(), front))?;
    }
    same(version(), "mtp 0.1.0\n")
}

#[test]
fn a_caller_has_its_calls(rt: HostRuntime) -> Result<(), Fail> {
    let words = words_of(rt.alloc(), "load 3")?;
    let calls = calls_wanted(rt.alloc(), words.as_slice());
    drop(words);
    same(calls?, 3)
}

// The first two bytes of the secret that words tell a relay, and the last one.
fn secret_of(alloc: Global, words: &[String]) -> Result<Option<[u8; 3]>, Fail> {
    let said = read(alloc, words)?;
    let secret = match &said {
        Command::Relay(options) => {
            let bytes = options.secret.as_bytes();
            Some([bytes[0], bytes[1], bytes[15]])
        }
        _ => None,
    };
    drop(said);
    Ok(secret)
}

#[test]
fn a_secret_is_its_digits(rt: HostRuntime) -> Result<(), Fail> {
    let words = words_of(
        rt.alloc(),
        "relay --secret 000102030405060708090a0b0c0d0eff --form abridged",
    )?;
    let secret = secret_of(rt.alloc(), words.as_slice());
    drop(words);
    same(secret?, Some([0, 1, 255]))
}
