//! What words may say, and why they may say nothing.

ghost use Rattle.std.specs.Prelude.{◌≡◌};

use crate::page::Page;
use octets::Memory;
use std::fmt;
use std::marker::Model;
use thiserror::Error;
use transport::Form;

/// The name of a file. Contracts see its bytes.
#[derive(Debug, Drop)]
pub struct FileName<'a> {
    text: &'a str,
}

impl<'a> Model for FileName<'a> {
    ghost use Rattle.std.specs.Prelude.{ℕ, List};

    ghost Value = { List ℕ };

    ghost view = { λ name. name.text.now };
}

impl<'a> FileName<'a> {
    /// The file of this name.
    pub(crate) fn new(text: &'a str) -> FileName<'a>
        ensures { result ≡ text.entry.now }
    {
        FileName { text }
    }

    /// The name.
    pub fn as_str(&self) -> &'a str
        ensures { result.now ≡ self.now }
    {
        self.text
    }
}

/// A command.
#[derive(Debug, Drop)]
pub enum Command<'a> {
    /// `sim`: play a schedule.
    Sim {
        /// `--wire`: add the line on all packets.
        wire: bool,
    },
    /// `load`: play the schedule of so many calls.
    Load {
        /// How many, from 1 to 10,000.
        calls: u32,
    },
    /// `serve`: serve connections.
    Serve(ServeOptions<'a>),
    /// `call`: run a batch of calls.
    Call(CallOptions<'a>),
    /// `pair`: run a batch of calls over a server that stops and one that is started anew.
    Pair(PairOptions<'a>),
    /// `check`: tell whether calls of a trace execute at most once.
    Check,
    /// `relay`: pass a captured connection on as a proxy with a secret does.
    Relay(RelayOptions),
    /// `--help` among the words: print a page of help.
    Help(Page),
    /// `--version`: print the version.
    Version,
}

/// What `serve` is told.
#[derive(Debug, Drop)]
pub struct ServeOptions<'a> {
    /// `--keys`: the file of keys.
    pub keys: FileName<'a>,
    /// `--port`: the port to listen on, from 1.
    pub port: u16,
    /// `--conns`: how many connections to serve, from 1 to 1,000.
    pub conns: u32,
    /// `--stop-after`: after how many packets to stop, from 1 to 1,000,000,000.
    pub stop_after: Option<u64>,
    /// `--journal`: the file that keeps the sessions over a crash.
    pub journal: Option<FileName<'a>>,
}

/// What `call` is told.
#[derive(Debug, Drop)]
pub struct CallOptions<'a> {
    /// `--keys`: the file of keys.
    pub keys: FileName<'a>,
    /// `--key`: the identifier of the key.
    pub key: u64,
    /// `--port`: the port to connect to, from 1.
    pub port: u16,
    /// `--form`: how packets are framed.
    pub form: Form,
    /// `--obfuscate`: whether connections are obfuscated; never with full frames.
    pub obfuscate: bool,
    /// `--retries`: how many connections may be lost, at most 1,000; 0 where it is left out.
    pub retries: u32,
    /// `--perm`: the identifier of the permanent key behind a temporary one.
    pub perm: Option<u64>,
}

/// What `pair` is told.
#[derive(Debug, Drop)]
pub struct PairOptions<'a> {
    /// `--keys`: the file of keys.
    pub keys: FileName<'a>,
    /// `--key`: the identifier of the key.
    pub key: u64,
    /// `--port`: the port of the first server, from 1 to 65,534. That of the second one is the next.
    pub port: u16,
    /// `--stop-after`: after how many packets the first server stops, from 1 to 1,000,000,000.
    pub stop_after: u64,
}

/// The secret of a proxy: 16 bytes, which are never printed. Contracts see its bytes.
#[derive(Drop)]
pub struct Secret {
    bytes: [u8; 16],
}

impl Model for Secret {
    ghost use Rattle.std.specs.Prelude.{ℕ, List};

    ghost Value = { List ℕ };

    ghost view = { λ secret. secret.bytes };
}

impl Secret {
    /// The secret of these bytes.
    pub(crate) fn new(bytes: [u8; 16]) -> Secret
        ensures { result ≡ bytes }
    {
        Secret { bytes }
    }

    /// Its bytes.
    pub fn as_bytes(&self) -> &[u8; 16]
        ensures { result.now ≡ self.now }
    {
        &self.bytes
    }
}

impl fmt::Debug for Secret {
    /// No byte of it.
    fn fmt<W: fmt::Write>(&self, f: &mut fmt::Formatter<W>) -> fmt::Result {
        f.write_str("Secret(..)")
    }
}

/// What `relay` is told.
#[derive(Debug, Drop)]
pub struct RelayOptions {
    /// `--secret`: the secret of the proxy.
    pub secret: Secret,
    /// `--form`: how the server's side is framed, never in full frames.
    pub form: Form,
}

/// Why words say no command.
#[derive(Clone, Copy, Debug, PartialEq, Eq, Error)]
pub enum WordsFault {
    /// The words say no command.
    #[error("words refused")]
    Refused,
    /// Memory ran out.
    #[error("out of memory")]
    Memory,
}

impl From<Memory> for WordsFault {
    ghost use Rattle.std.specs.Prelude.{◌≡◌};
    ghost use Rattle.commands.specs.declared.command.WordsFault.TheVariants.{Memory};

    ghost from_gives = { λ _ fault. fault ≡ Memory };

    fn from(_memory: Memory) -> WordsFault {
        WordsFault::Memory
    }
}
