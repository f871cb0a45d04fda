//! Callers of both crates, proved from contracts alone.

ghost use Rattle.std.specs.Prelude.{◌<◌, ◌^◌, IfOk, IsTrue, length};
ghost use Rattle.cmd_check.specs.Check.{ExecutesOnce};
ghost use Rattle.trace_check.specs.Answers.{AllHoldIn};

use cmd_check::run_check;
use mt_edge::{MemSink, MemSource};
use octets::{Memory, Octets};
use statuses::Status;
use std::alloc::Global;
use std::test::Fail;
use test_asserts::{holds, same};
use trace_check::laws::one_answer;
use trace_check::{CheckFault, Checked, check};

/// Two calls of one client, of which the second fails at the server.
const TRACE: &[u8] = b"body 1 1 00\nname 1 1 9 4\nentry 1 9 4 00 01 answer\nstate 1 1 done 01\n\
body 1 2 02\nname 1 2 9 8\nstate 1 2 refused 400\n";

/// Whether all six sentences hold of a trace.
fn is_whole(alloc: Global, text: &[u8]) -> Result<bool, CheckFault>
    requires { length text.now < 2 ^ 32 }
    ensures { IfOk result (λ whole. IsTrue whole → AllHoldIn text.now) }
{
    match check(alloc, text)? {
        Checked::Yes => Ok(true),
        Checked::Broken { .. } => Ok(false),
    }
}

/// A text that is checked again is found the same.
fn again(alloc: Global, text: &[u8]) -> Result<bool, CheckFault>
    requires { length text.now < 2 ^ 32 }
    ensures { IfOk result (λ same. IsTrue same) }
{
    one_answer();
    let first = check(alloc, text)?;
    let second = check(alloc, text)?;
    Ok(first == second)
}

/// Whether the command says so of a text.
fn says_yes(alloc: Global, text: &[u8]) -> Result<bool, Memory>
    ensures { IfOk result (λ yes. IsTrue yes → ExecutesOnce text.now) }
{
    let mut input = MemSource::new(alloc, text, 4_096, &[])?;
    let mut out = MemSink::new(alloc, 4_096, 4_096, &[])?;
    Ok(run_check(alloc, &mut input, &mut out) == Status::Done)
}

/// A trace, a text that is none, and the trace again.
#[test]
fn one_after_the_other(rt: HostRuntime) -> Result<(), Fail> {
    let alloc = rt.alloc();
    holds(is_whole(alloc, TRACE)?)?;
    holds(again(alloc, TRACE)?)?;
    let bad = Octets::copy(alloc, b"made 9\nmad 9\n")?;
    if bad.as_slice().len() > 100 {
        return Err(Fail::new("too long"));
    }
    match is_whole(alloc, bad.as_slice()) {
        Err(CheckFault::BadLine { line }) => same(line, 2)?,
        _ => return Err(Fail::new("no bad line")),
    }
    holds(!says_yes(alloc, bad.as_slice())?)?;
    holds(says_yes(alloc, TRACE)?)?;
    holds(says_yes(alloc, b"")?)?;
    Ok(())
}
