//! A server that is started, and what it is asked.

ghost use Rattle.std.specs.Prelude.{◌≡◌, ◌++◌, ◌∷◌, [], map, string_bytes, IfOk, OnOk};
ghost use Rattle.cmd_pair.specs.Inner.{BeginsBy};
ghost use Rattle.cmd_pair.specs.Servers.{kids_of, server_words};

use crate::halt::KidFault;
use itoa::Buffer;
use mt_edge::{Act, Line, Spawner};
use octets::Memory;
use std::alloc::Global;

/// What a server is told.
#[derive(Clone, Copy)]
pub(crate) struct Server<'a> {
    /// The file of the keys.
    pub(crate) keys: &'a str,
    /// The port to listen on.
    pub(crate) port: u16,
    /// Behind how many packets it stops, if it is told to.
    pub(crate) stop_after: Option<u64>,
}

/// The words of a server that takes one connection.
///
/// # Errors
///
/// `Memory`.
fn words_of(alloc: Global, server: &Server<'_>) -> Result<Vec<String>, Memory>
    ensures { IfOk result (λ words. map string_bytes words.items ≡ server_words server.now.keys.now server.now.port server.now.stop_after) }
{
    let mut buffer = Buffer::new();
    let mut words = Vec::new(alloc);
    push_word(alloc, &mut words, "serve")?;
    push_word(alloc, &mut words, "--keys")?;
    push_word(alloc, &mut words, server.keys)?;
    push_word(alloc, &mut words, "--port")?;
    push_word(alloc, &mut words, buffer.format(server.port))?;
    push_word(alloc, &mut words, "--conns")?;
    push_word(alloc, &mut words, "1")?;
    if let Some(packets) = server.stop_after {
        push_word(alloc, &mut words, "--stop-after")?;
        push_word(alloc, &mut words, buffer.format(packets))?;
    }
    Ok(words)
}

/// Puts a word behind the others.
fn push_word(alloc: Global, words: &mut Vec<String>, text: &str) -> Result<(), Memory>
    ensures { OnOk result (map string_bytes words.new.items ≡ map string_bytes words.old.items ++ text.now ∷ []) }
{
    let word = String::from_str(alloc, text)?;
    words.push(word)?;
    Ok(())
}

/// Starts a server, and reads one line of it.
///
/// # Errors
///
/// `Failed`: a call of the spawner failed. `Memory`.
pub(crate) fn begin<P: Spawner>(
    alloc: Global,
    server: &Server<'_>,
    kids: &mut P,
) -> Result<(), KidFault>
    ensures { BeginsBy (server_words server.now.keys.now server.now.port server.now.stop_after) result (kids_of P.calls P.faults kids.old kids.new) }
{
    let words = words_of(alloc, server)?;
    start(alloc, words.as_slice(), kids)
}

/// Starts a server with these words, and reads one line of it.
///
/// # Errors
///
/// `Failed`: a call of the spawner failed. `Memory`.
fn start<P: Spawner>(alloc: Global, words: &[String], kids: &mut P) -> Result<(), KidFault>
    ensures { BeginsBy (map string_bytes words.now) result (kids_of P.calls P.faults kids.old kids.new) }
{
    match kids.start(words) {
        Act::Ready => match kids.line(alloc) {
            Line::Text(_) => Ok(()),
            Line::End => Ok(()),
            Line::Failed => Err(KidFault::Failed),
            Line::Memory => Err(KidFault::Memory),
        },
        Act::Failed => Err(KidFault::Failed),
    }
}
