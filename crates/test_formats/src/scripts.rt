//! A script, and lines outside the grammar.

ghost use Rattle.std.specs.Prelude.{◌<◌, ◌^◌, ◌⊎◌, length, IfOk};
ghost use Rattle.call_script.specs.Scripts.{Spells};

use crate::rows::{Asked, are_so};
use crate::schedules::lines_of;
use call_script::{Script, ScriptFault, read_script};
use std::alloc::Global;
use std::test::*;
use test_asserts::{holds, same, same_at, tells};

// The first text's calls, or the second's where the first has none.
fn first_or_second(alloc: Global, first: &[u8], second: &[u8]) -> Result<Script, ScriptFault>
    requires first { length first.now < 2 ^ 32 }
    requires second { length second.now < 2 ^ 32 }
    ensures { IfOk result (λ script. Spells first.now script ⊎ Spells second.now script) }
{
    match read_script(alloc, first) {
        Ok(script) => Ok(script),
        Err(_) => read_script(alloc, second),
    }
}

// The calls of a script: the digits of its body, the call after which it goes, and its line.
const FIVE: &str = "\
012c1b0a017800000500000000000000 None 2\n\
022c1b0a01780000 Some(1) 4\n\
0000 None 5\n\
a1cf723000000000 Some(3) 6\n\
0af0 Some(18446744073709551615) 7\n";

// The call of this place, as a row has it.
fn told(alloc: Global, script: &Script, place: usize) -> Result<String, Fail> {
    if place >= script.len() {
        return Ok(String::from_str(alloc, "none")?);
    }
    let body = hex::encode(alloc, script.body(place))?;
    let (after, line) = (script.after(place), script.line(place));
    Ok(format!(in alloc; "{body} {after:?} {line}")?)
}

#[test]
fn five_calls(rt: HostRuntime) -> Result<(), Fail> {
    let alloc = rt.alloc();
    let text =
        b"# five\nadd x 5\n\nget x after 1\npad\t2\npacked after 3\nhex 0aF0 after 18446744073709551615";
    let script = first_or_second(alloc, b"call 1 add x 5", text)?;
    let done = are_five(alloc, &script);
    drop(script);
    done?;
    let none = read_script(alloc, b"")?;
    let is_empty = none.is_empty();
    drop(none);
    holds(is_empty)
}

fn are_five(alloc: Global, script: &Script) -> Result<(), Fail> {
    same(script.len(), 5)?;
    same(FIVE.lines().count(), 5)?;
    for (place, row) in FIVE.lines().enumerate() {
        tells(alloc, &told(alloc, script, place)?, row)?;
    }
    Ok(())
}

// The bad line of a text, and the text, in which `;` stands for a newline.
const BAD: &str = "\
1 | client\n\
3 | get x;;add x 05\n\
1 | get x\r;\n\
1 | get x after\n\
1 | get  x\n\
1 | get\t\tx\n\
1 | \tget x\n\
1 | get x\t\n\
1 | hex 1\n\
1 | pad 1048577;jump\n";

// The bad line of a short text.
fn bad_line(alloc: Global, text: &str) -> Result<Option<u32>, Fail> {
    holds(text.len() < 100)?;
    match read_script(alloc, text.as_bytes()) {
        Ok(script) => {
            drop(script);
            Ok(None)
        }
        Err(ScriptFault::BadLine { line }) => Ok(Some(line)),
        Err(ScriptFault::Memory) => Err(Fail::new("out of memory")),
    }
}

/// A text has this bad line.
pub(crate) fn is_bad(alloc: Global, text: &str, want: &str) -> Result<(), Fail> {
    let lines = lines_of(alloc, text)?;
    let line = bad_line(alloc, lines.as_str());
    drop(lines);
    same_at(text, line?, Some(want.parse::<u32>()?))
}

#[test]
fn bad_lines(rt: HostRuntime) -> Result<(), Fail> {
    are_so(rt.alloc(), Asked::BadCall, BAD, 10)
}

#[test]
fn faults_are_told(rt: HostRuntime) -> Result<(), Fail> {
    let fault = ScriptFault::BadLine { line: 7 };
    tells(rt.alloc(), &fault, "line 7 is no call")?;
    tells(rt.alloc(), &ScriptFault::Memory, "out of memory")
}
