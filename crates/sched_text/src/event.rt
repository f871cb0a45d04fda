//! Events, and the lines that say them.

ghost use Rattle.std.specs.Prelude.{◌≡◌, IfOk};
ghost use Rattle.sched_text.specs.Lines.{words_of};
ghost use Rattle.sched_text.specs.Reading.{attach_at, call_event, client_at, clock_at, event_at, event_with, foreign_at, listed, restart_at, salts_at, short_event, tick_at};

use crate::arguments::{Arguments, arguments_of, is_server_word, one_of, two_of};
use crate::body::{CallLine, call_line};
use crate::verb::{Short, Verb, verb_of};
use crate::words::{Words, bytes_of, number_of};
use octets::{Memory, Octets};
use std::alloc::Global;

/// An event of a schedule. Clients, packets and jobs count from 1, and moments are in seconds.
#[derive(Debug, Drop)]
pub enum Event {
    /// A new client.
    Client,
    /// A new client under the temporary key.
    ClientTemp,
    /// All clocks are set.
    ClockAll {
        at: u64,
    },
    /// The server's clock is set.
    ClockServer {
        at: u64,
    },
    /// A client's clock is set.
    ClockClient {
        client: u64,
        at: u64,
    },
    /// A client submits a call, which may wait for another one.
    Call {
        client: u64,
        body: Octets,
        after: Option<u64>,
    },
    /// A client sends what is due.
    Flush {
        client: u64,
    },
    /// A packet, counted in the order in which they were made, comes to its end.
    Give {
        packet: u64,
    },
    /// Bytes that nobody sent come to the server.
    ForeignServer {
        bytes: Octets,
    },
    /// Bytes that nobody sent come to a client.
    ForeignClient {
        client: u64,
        bytes: Octets,
    },
    /// A job runs, counted among those that are ready.
    Work {
        job: u64,
    },
    /// A tick at the server.
    TickServer,
    /// A tick at a client.
    TickClient {
        client: u64,
    },
    /// An attach at the server, for a client's present session.
    AttachServer {
        client: u64,
    },
    /// An attach at a client.
    AttachClient {
        client: u64,
    },
    /// A client sends a ping.
    Ping {
        client: u64,
    },
    /// A client asks for salts.
    Salts {
        client: u64,
        count: u32,
    },
    /// A client drops the answer to one of its calls.
    DropAnswer {
        client: u64,
        call: u64,
    },
    /// A client renews its session.
    Renew {
        client: u64,
    },
    /// A client ends.
    End {
        client: u64,
    },
    /// The server loses a client's present session.
    Lose {
        client: u64,
    },
    /// The server starts anew.
    Restart,
}

/// The event that a line says, if it says one.
pub(crate) fn event_of(alloc: Global, line: &[u8]) -> Result<Option<Event>, Memory>
    ensures { IfOk result (λ event. event ≡ event_at (words_of line.now)) }
{
    let mut words = Words::new(line);
    match words.next().and_then(verb_of) {
        Some(verb) => event_behind(alloc, verb, words),
        None => Ok(None),
    }
}

// The event whose first word was read, by what stands behind it.
fn event_behind(alloc: Global, verb: Verb, words: Words<'_>) -> Result<Option<Event>, Memory>
    ensures { IfOk result (λ event. event ≡ event_with verb words.entry) }
{
    match verb {
        Verb::Call => call_of(alloc, words),
        Verb::Foreign => match arguments_of(words) {
            Some(arguments) => foreign_of(alloc, arguments),
            None => Ok(None),
        },
        Verb::Plain(first) => match arguments_of(words) {
            Some(arguments) => Ok(short_of(first, arguments)),
            None => Ok(None),
        },
    }
}

// The event behind `call`.
fn call_of(alloc: Global, mut words: Words<'_>) -> Result<Option<Event>, Memory>
    ensures { IfOk result (λ event. event ≡ call_event words.entry) }
{
    let Some(client) = words.next().and_then(number_of) else {
        return Ok(None);
    };
    let Some(call) = call_line(alloc, words)? else {
        return Ok(None);
    };
    let CallLine { body, after } = call;
    Ok(Some(Event::Call {
        client,
        body,
        after,
    }))
}

// The event behind `foreign`.
fn foreign_of(alloc: Global, arguments: Arguments<'_>) -> Result<Option<Event>, Memory>
    ensures { IfOk result (λ event. event ≡ foreign_at (listed arguments.entry)) }
{
    let Arguments::Two(first, word) = arguments else {
        return Ok(None);
    };
    if is_server_word(first) {
        let bytes = bytes_of(alloc, word)?;
        return Ok(bytes.map(|bytes| Event::ForeignServer { bytes }));
    }
    let Some(client) = number_of(first) else {
        return Ok(None);
    };
    let bytes = bytes_of(alloc, word)?;
    Ok(bytes.map(|bytes| Event::ForeignClient { client, bytes }))
}

// The event behind any other first word.
fn short_of(first: Short, arguments: Arguments<'_>) -> Option<Event>
    ensures { result ≡ short_event first (listed arguments.entry) }
{
    match first {
        Short::Client => client_of(arguments),
        Short::Clock => clock_of(arguments),
        Short::Flush => one_of(arguments).map(|client| Event::Flush { client }),
        Short::Give => one_of(arguments).map(|packet| Event::Give { packet }),
        Short::Work => one_of(arguments).map(|job| Event::Work { job }),
        Short::Tick => tick_of(arguments),
        Short::Attach => attach_of(arguments),
        Short::Ping => one_of(arguments).map(|client| Event::Ping { client }),
        Short::Salts => salts_of(arguments),
        Short::DropAnswer => {
            two_of(arguments).map(|(client, call)| Event::DropAnswer { client, call })
        }
        Short::Renew => one_of(arguments).map(|client| Event::Renew { client }),
        Short::End => one_of(arguments).map(|client| Event::End { client }),
        Short::Lose => one_of(arguments).map(|client| Event::Lose { client }),
        Short::Restart => restart_of(arguments),
    }
}

// The event behind `client`.
fn client_of(arguments: Arguments<'_>) -> Option<Event>
    ensures { result ≡ client_at (listed arguments.entry) }
{
    match arguments {
        Arguments::Nothing => Some(Event::Client),
        Arguments::One(word) if word == b"temp".as_slice() => Some(Event::ClientTemp),
        _ => None,
    }
}

// The event behind `clock`.
fn clock_of(arguments: Arguments<'_>) -> Option<Event>
    ensures { result ≡ clock_at (listed arguments.entry) }
{
    match arguments {
        Arguments::Nothing => None,
        Arguments::One(at) => number_of(at).map(|at| Event::ClockAll { at }),
        Arguments::Two(first, at) if is_server_word(first) => {
            number_of(at).map(|at| Event::ClockServer { at })
        }
        Arguments::Two(client, at) => {
            let client = number_of(client)?;
            let at = number_of(at)?;
            Some(Event::ClockClient { client, at })
        }
    }
}

// The event behind `tick`.
fn tick_of(arguments: Arguments<'_>) -> Option<Event>
    ensures { result ≡ tick_at (listed arguments.entry) }
{
    match arguments {
        Arguments::One(word) if is_server_word(word) => Some(Event::TickServer),
        Arguments::One(client) => number_of(client).map(|client| Event::TickClient { client }),
        _ => None,
    }
}

// The event behind `attach`.
fn attach_of(arguments: Arguments<'_>) -> Option<Event>
    ensures { result ≡ attach_at (listed arguments.entry) }
{
    match arguments {
        Arguments::One(client) => number_of(client).map(|client| Event::AttachClient { client }),
        Arguments::Two(first, client) if is_server_word(first) => {
            number_of(client).map(|client| Event::AttachServer { client })
        }
        _ => None,
    }
}

// The event behind `salts`.
fn salts_of(arguments: Arguments<'_>) -> Option<Event>
    ensures { result ≡ salts_at (listed arguments.entry) }
{
    let (client, count) = two_of(arguments)?;
    let count = u32::try_from(count).ok()?;
    Some(Event::Salts { client, count })
}

// The event behind `restart`.
fn restart_of(arguments: Arguments<'_>) -> Option<Event>
    ensures { result ≡ restart_at (listed arguments.entry) }
{
    match arguments {
        Arguments::Nothing => Some(Event::Restart),
        _ => None,
    }
}
