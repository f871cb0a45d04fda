//! Children in memory and of this machine, and a link that is read to its end.

ghost use Rattle.std.specs.Prelude.{◌≡◌, true, [], IfSome};

use mt_edge::{Act, ChildKids, Got, Line, Link, MemKid, MemKids, MemLink, Spawner};
use octets::Octets;
use std::alloc::{AllocError, Global};
use std::test::Fail;
use test_asserts::same;

/// What a node does: it reads a link to its end, and hands on whether the end came.
fn read_to_end<L: Link>(link: &mut L) -> bool
    ensures { result ≡ true → IfSome (L.told link.new) (λ after. after.left ≡ []) }
{
    let mut into = [0u8; 2];
    for _ in 0..u64::MAX {
        match link.read(&mut into) {
            Got::Bytes(_) => {}
            Got::End => return true,
            Got::Failed => return false,
        }
    }
    false
}

#[test]
fn links_are_read_to_their_end(rt: HostRuntime) -> Result<(), Fail> {
    let mut link = MemLink::new(rt.alloc(), b"hello", 3, &[5], 0, 6)?;
    let ended = [read_to_end(&mut link), read_to_end(&mut link)];
    drop(link);
    same(ended, [true, false])
}

/// These two words.
fn two_words(alloc: Global, first: &str, second: &str) -> Result<Vec<String>, AllocError> {
    let mut words = Vec::new(alloc);
    words.push(String::from_str(alloc, first)?)?;
    words.push(String::from_str(alloc, second)?)?;
    Ok(words)
}

/// What a line is, in one word.
fn kind_of(line: &Line) -> &'static str {
    match line {
        Line::Text(text) => {
            if text.as_slice() == b"ready".as_slice() {
                "ready"
            } else {
                "another"
            }
        }
        Line::End => "end",
        Line::Failed => "failed",
        Line::Memory => "memory",
    }
}

/// What starting a child, reading a line and waiting came to.
type Life = (Act, &'static str, Act);

/// Starts a child, reads a line and waits.
fn life<P: Spawner>(kids: &mut P, alloc: Global, words: &[String]) -> Life {
    let started = kids.start(words);
    let line = kids.line(alloc);
    let ended = kids.wait();
    (started, kind_of(&line), ended)
}

/// The same of a child with these two words.
pub(crate) fn life_of<P: Spawner>(
    kids: &mut P,
    alloc: Global,
    first: &str,
    second: &str,
) -> Result<Life, Fail> {
    let words = two_words(alloc, first, second)?;
    let life = life(kids, alloc, words.as_slice());
    drop(words);
    Ok(life)
}

/// A child in memory that writes a line `ready` and ends well.
fn ready_kid(alloc: Global) -> Result<MemKid, Fail> {
    let mut lines = Vec::new(alloc);
    lines.push(Octets::copy(alloc, b"ready")?)?;
    Ok(MemKid { lines, status: 0 })
}

/// Two children in memory, of which the first to start is such a one, and the other writes no line and ends with another status.
/// The last call fails.
fn two_kids(alloc: Global) -> Result<MemKids, Fail> {
    let mut kids = Vec::new(alloc);
    let lines = Vec::new(alloc);
    kids.push(MemKid { lines, status: 3 })?;
    kids.push(ready_kid(alloc)?)?;
    Ok(MemKids::new(alloc, kids, &[8], 8, 2, 8)?)
}

fn live_in_turn(kids: &mut MemKids, alloc: Global) -> Result<(), Fail> {
    let lives = [
        life_of(kids, alloc, "serve", "--conns")?,
        life_of(kids, alloc, "serve", "--conns")?,
        life_of(kids, alloc, "serve", "--conns")?,
    ];
    let wanted = [
        (Act::Ready, "ready", Act::Ready),
        (Act::Ready, "end", Act::Failed),
        (Act::Failed, "failed", Act::Failed),
    ];
    same(lives, wanted)?;
    same((kids.calls().len(), kids.faults()), (8, 4))
}

#[test]
fn children_in_memory(rt: HostRuntime) -> Result<(), Fail> {
    let mut kids = two_kids(rt.alloc())?;
    let done = live_in_turn(&mut kids, rt.alloc());
    drop(kids);
    done
}

/// What a child of this script comes to, that a program of this machine runs.
fn life_here(rt: &HostRuntime, program: &str, script: &str) -> Result<Life, Fail> {
    let mut kids = ChildKids::new(rt, String::from_str(rt.alloc(), program)?);
    let life = life_of(&mut kids, rt.alloc(), "-c", script);
    drop(kids);
    life
}

/// The children of a shell live in turn, a ready one first, then one that ends with another status.
fn live_here<P: Spawner>(kids: &mut P, alloc: Global) -> Result<(), Fail> {
    let life = life_of(kids, alloc, "-c", "echo ready")?;
    same(life, (Act::Ready, "ready", Act::Ready))?;
    let life = life_of(kids, alloc, "-c", "exit 3")?;
    same(life, (Act::Ready, "end", Act::Failed))
}

#[test]
fn children_of_this_machine(rt: HostRuntime) -> Result<(), Fail> {
    let mut kids = ChildKids::new(&rt, String::from_str(rt.alloc(), "sh")?);
    let done = live_here(&mut kids, rt.alloc());
    drop(kids);
    done?;
    let life = life_here(&rt, "no_such_program", "echo ready")?;
    same(life, (Act::Failed, "failed", Act::Failed))
}

#[test]
fn a_child_doesnt_take_our_input(rt: HostRuntime) -> Result<(), Fail> {
    let looks = "test \"$(readlink /proc/self/fd/0)\" = /dev/null && echo ready";
    let life = life_here(&rt, "sh", looks)?;
    same(life, (Act::Ready, "ready", Act::Ready))
}

/// Starts a child, fails to start another, reads a line and waits: what each came to.
fn life_beside<P: Spawner>(
    kids: &mut P,
    alloc: Global,
    words: &[String],
    faulty: &[String],
) -> (Act, Act, &'static str, Act) {
    let started = kids.start(words);
    let failed = kids.start(faulty);
    let line = kids.line(alloc);
    let ended = kids.wait();
    (started, failed, kind_of(&line), ended)
}

/// What such a life of a child with two words comes to, where the other one has another second word.
fn is_ready<P: Spawner>(kids: &mut P, alloc: Global, words: [&str; 3]) -> Result<(), Fail> {
    let [first, second, other] = words;
    let good = two_words(alloc, first, second)?;
    let faulty = two_words(alloc, first, other)?;
    let life = life_beside(kids, alloc, good.as_slice(), faulty.as_slice());
    drop(faulty);
    drop(good);
    same(life, (Act::Ready, Act::Failed, "ready", Act::Ready))
}

/// One child in memory, which is ready.
fn one_kid(alloc: Global) -> Result<MemKids, Fail> {
    let mut kids = Vec::new(alloc);
    kids.push(ready_kid(alloc)?)?;
    Ok(MemKids::new(alloc, kids, &[], 4, 2, 8)?)
}

#[test]
fn a_start_that_failed_in_memory(rt: HostRuntime) -> Result<(), Fail> {
    let mut kids = one_kid(rt.alloc())?;
    let done = is_ready(&mut kids, rt.alloc(), ["serve", "--conns", "--conns"]);
    let faults = kids.faults();
    drop(kids);
    done?;
    same(faults, 1)
}

#[test]
fn a_start_that_failed_on_this_machine(rt: HostRuntime) -> Result<(), Fail> {
    let mut kids = ChildKids::new(&rt, String::from_str(rt.alloc(), "sh")?);
    let done = is_ready(&mut kids, rt.alloc(), ["-c", "echo ready", "echo \0"]);
    drop(kids);
    done
}
