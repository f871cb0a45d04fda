//! Scripts.

ghost use Rattle.std.specs.Prelude.{◌≡◌, ◌<◌, ◌^◌, ◌↔◌, ◌∷◌, ◌++◌, [], length, IsTrue, IfOk, IfErr, IfSome, OnOk, slice_get};
ghost use Rattle.call_script.specs.Scripts.{IsFaultOf, Spells};

use kept_bytes::KeptBytes;
use octets::{Memory, Octets};
use sched_text::{CallLine, Lines, call_of};
use std::alloc::Global;
use std::error::Error;
use std::fmt;
use std::marker::Model;

/// A call of a script and the number of its line, from 1: what contracts see of a call that a `Script` keeps.
#[derive(Debug, Drop)]
pub struct ScriptCall {
    /// The bytes of its body.
    pub body: Octets,
    /// The call that it waits for, counted from 1.
    pub after: Option<u64>,
    /// The number of its line.
    pub line: u32,
}

/// Why a text is no script.
#[derive(Clone, Copy, Debug, PartialEq, Eq)]
pub enum ScriptFault {
    /// The first line that is outside the grammar.
    BadLine { line: u32 },
    /// Memory ran out.
    Memory,
}

impl fmt::Display for ScriptFault {
    fn fmt<W: fmt::Write>(&self, f: &mut fmt::Formatter<W>) -> fmt::Result {
        match self {
            ScriptFault::BadLine { line } => write!(f, "line {line} is no call"),
            ScriptFault::Memory => write!(f, "out of memory"),
        }
    }
}

impl Error for ScriptFault {}

impl From<Memory> for ScriptFault {
    ghost use Rattle.std.specs.Prelude.{◌≡◌};
    ghost use Rattle.call_script.specs.declared.script.ScriptFault.TheVariants.{Memory};

    ghost from_gives = { λ _ fault. fault ≡ Memory };

    fn from(_memory: Memory) -> ScriptFault {
        ScriptFault::Memory
    }
}

/// A `ScriptCall` as it is kept.
#[derive(Debug, Drop)]
struct Row {
    body: KeptBytes,
    after: Option<u64>,
    line: u32,
}

impl Model for Row {
    ghost use Rattle.call_script.specs.declared.script.ScriptCall.{ScriptCall};

    ghost Value = { ScriptCall };

    ghost view = { λ row. record { body = row.body; after = row.after; line = row.line } };
}

impl Row {
    // The call of a line with this number.
    fn new(call: CallLine, line: u32) -> Row
        ensures { result ≡ record { body = call.body; after = call.after; line = line } }
    {
        let CallLine { body, after } = call;
        Row {
            body: KeptBytes::from(body),
            after,
            line,
        }
    }

    fn body(&self) -> &[u8]
        ensures { result.now ≡ self.now.body }
    {
        self.body.as_slice()
    }

    fn after(&self) -> Option<u64>
        ensures { result ≡ self.now.after }
    {
        self.after
    }

    fn line(&self) -> u32
        ensures { result ≡ self.now.line }
    {
        self.line
    }
}

/// The calls of a script, each with the number of its line. Contracts see the list of these. A call whose body has up to 30
/// bytes takes no memory beside its row.
#[derive(Debug, Drop)]
pub struct Script {
    calls: Vec<Row>,
}

impl Model for Script {
    ghost use Rattle.std.specs.Prelude.{List};
    ghost use Rattle.call_script.specs.declared.script.ScriptCall.{ScriptCall};

    ghost Value = { List ScriptCall };

    ghost view = { λ script. script.calls.items };
}

impl Script {
    /// How many calls there are.
    pub fn len(&self) -> usize
        ensures { result ≡ length self.now }
    {
        self.calls.len()
    }

    /// Whether there is none.
    pub fn is_empty(&self) -> bool
        ensures { IsTrue result ↔ (length self.now ≡ 0) }
    {
        self.calls.is_empty()
    }

    /// The bytes of the body of the call at a place, from 0.
    pub fn body(&self, k: usize) -> &[u8]
        requires { k < length self.now }
        ensures { IfSome (slice_get self.now k) (λ call. result.now ≡ call.body) }
    {
        self.calls[k].body()
    }

    /// The call, counted from 1, that the call at a place waits for; none exactly where its line has no
    /// `after`.
    pub fn after(&self, k: usize) -> Option<u64>
        requires { k < length self.now }
        ensures { IfSome (slice_get self.now k) (λ call. result ≡ call.after) }
    {
        self.calls[k].after()
    }

    /// The number of the line of the call at a place. Lines count from 1.
    pub fn line(&self, k: usize) -> u32
        requires { k < length self.now }
        ensures { IfSome (slice_get self.now k) (λ call. result ≡ call.line) }
    {
        self.calls[k].line()
    }
}

/// Reads a script of fewer than 2^32 bytes.
///
/// # Errors
///
/// `BadLine` with the first line that is outside the grammar. `Memory`.
pub fn read_script(alloc: Global, text: &[u8]) -> Result<Script, ScriptFault>
    requires { length text.now < 2 ^ 32 }
    ensures calls { IfOk result (λ script. Spells text.now script) }
    ensures bad_line { IfErr result (IsFaultOf text.now) }
{
    let mut lines = Lines::new(text);
    let mut calls = Vec::new(alloc);
    while let Some((line, words)) = lines.next() {
        let Some(call) = call_of(alloc, words)? else {
            return Err(ScriptFault::BadLine { line });
        };
        let row = Row::new(call, line);
        append(&mut calls, row)?;
    }
    Ok(Script { calls })
}

// Puts a call at the end.
fn append(calls: &mut Vec<Row>, last: Row) -> Result<(), Memory>
    ensures { OnOk result (calls.new.items ≡ calls.old.items ++ last ∷ []) }
{
    calls.push(last)?;
    Ok(())
}
