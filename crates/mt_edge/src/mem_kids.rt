//! Programs in memory, for tests.

ghost use Rattle.std.specs.Prelude.{◌≡◌, ◌≢◌, ◌<◌, ◌≤◌, ◌+◌, [], None, Some, vec_len, vec_capacity, IfOk, IsSomeAnd, MatchOption};
ghost use Rattle.mt_edge.specs.Kids.{Begins, Counts, Ends, Pops};

use crate::act::Act;
use crate::faults::raised;
use crate::kid_call::KidCall;
use crate::spawner::{Line, Spawner};
use crate::tcp::after_act;
use crate::words::WordsRoom;
use octets::{Memory, Octets};
use std::alloc::Global;

/// What a child will do.
#[derive(Debug, Drop)]
pub struct MemKid {
    /// The lines that it writes, the last one first.
    pub lines: Vec<Octets>,
    /// The status with which it ends.
    pub status: u8,
}

/// Programs in memory, one a start in the order given. The calls of the given numbers fail, counted together from 1, and
/// so does each one past the room for what is noted, a start with words for which there is no room or with no child left,
/// and a read or a wait before the first start that succeeded. A call that finds no room isn't noted.
#[derive(Debug, Drop)]
pub struct MemKids {
    kids: Vec<MemKid>,
    current: Option<MemKid>,
    calls: Vec<KidCall>,
    room: usize,
    words: Vec<WordsRoom>,
    failing: Vec<u64>,
    made: u64,
    faults: u64,
    ghost in_room: { vec_len calls ≤ room },
    ghost room_taken: { room ≤ vec_capacity calls },
}

impl MemKids {
    /// These children, the last one to be started first. There is room for `room` calls, and in each for `words` words of
    /// up to `word_bytes` bytes, all taken now.
    ///
    /// # Errors
    ///
    /// `Memory`.
    pub fn new(
        alloc: Global,
        kids: Vec<MemKid>,
        failing: &[u64],
        room: usize,
        words: usize,
        word_bytes: usize,
    ) -> Result<MemKids, Memory>
        ensures calls { IfOk result (λ kids_. ⟦<MemKids as Spawner>⟧.calls kids_ ≡ Some []) }
        ensures faults { IfOk result (λ kids_. ⟦<MemKids as Spawner>⟧.faults kids_ ≡ 0) }
    {
        Ok(MemKids {
            kids,
            current: None,
            calls: Vec::with_capacity(alloc, room)?,
            room,
            words: rooms(alloc, room, words, word_bytes)?,
            failing: Vec::from_slice(alloc, failing)?,
            made: 0,
            faults: 0,
        })
    }

    /// The calls so far. Takes no memory.
    pub fn calls(&self) -> &[KidCall]
        ensures { ⟦<MemKids as Spawner>⟧.calls self.now ≡ Some result.now }
    {
        self.calls.as_slice()
    }

    /// How many calls have failed.
    pub fn faults(&self) -> u64
        ensures { result ≡ ⟦<MemKids as Spawner>⟧.faults self.now }
    {
        self.faults
    }

    /// Counts a call: whether its number is one that may go.
    fn may_go(&mut self) -> bool
        ensures calls { self.new.calls ≡ self.old.calls }
        ensures room { self.new.room ≡ self.old.room }
        ensures faults { self.new.faults ≡ self.old.faults }
    {
        self.made = self.made.saturating_add(1);
        !self.failing.contains(&self.made)
    }

    /// Makes the next child the one that was started last, where there is one.
    fn begin(&mut self) -> Act
        ensures begins { Begins result self.old.kids.items self.new.kids.items self.old.current self.new.current }
        ensures calls { self.new.calls ≡ self.old.calls }
        ensures room { self.new.room ≡ self.old.room }
        ensures faults { self.new.faults ≡ self.old.faults }
    {
        match self.kids.pop() {
            Some(kid) => {
                self.current = Some(kid);
                Act::Ready
            }
            None => Act::Failed,
        }
    }

    /// The next line of the child, and a copy of it.
    fn next_line(&mut self, alloc: Global) -> (Line, Line)
        ensures same { result.0 ≡ result.1 }
        ensures line { MatchOption self.old.current ((result.0 ≡ Line.Failed) × (self.new.current ≡ None))
            (λ kid. IsSomeAnd self.new.current (λ after. Pops result.0 kid.lines.items after.lines.items × (after.status ≡ kid.status))) }
        ensures kids { self.new.kids ≡ self.old.kids }
        ensures calls { self.new.calls ≡ self.old.calls }
        ensures room { self.new.room ≡ self.old.room }
        ensures faults { self.new.faults ≡ self.old.faults }
    {
        match &mut self.current {
            Some(kid) => pop_line(alloc, &mut kid.lines),
            None => (Line::Failed, Line::Failed),
        }
    }

    /// The status of the child as an answer.
    fn status(&self) -> Act
        ensures { MatchOption self.now.current (result ≡ Act.Failed) (λ kid. Ends kid.status result) }
    {
        match &self.current {
            Some(kid) => act_of_status(kid.status),
            None => Act::Failed,
        }
    }
}

/// Room for the words of each of so many calls.
fn rooms(
    alloc: Global,
    room: usize,
    words: usize,
    word_bytes: usize,
) -> Result<Vec<WordsRoom>, Memory> {
    let mut rooms = Vec::with_capacity(alloc, room)?;
    for _ in 0..room {
        rooms.push(WordsRoom::new(alloc, words, word_bytes)?)?;
    }
    Ok(rooms)
}

/// The last of these lines, which goes, and a copy of it. For want of memory it stays.
fn pop_line(alloc: Global, lines: &mut Vec<Octets>) -> (Line, Line)
    ensures same { result.0 ≡ result.1 }
    ensures line { Pops result.0 lines.old.items lines.new.items }
{
    let copy = match lines.last() {
        None => return (Line::End, Line::End),
        Some(line) => Octets::copy(alloc, line.as_slice()),
    };
    let Ok(copy) = copy else {
        return (Line::Memory, Line::Memory);
    };
    match lines.pop() {
        Some(line) => two_texts(line, copy),
        None => (Line::End, Line::End),
    }
}

/// Two equal texts as answers.
fn two_texts(line: Octets, copy: Octets) -> (Line, Line)
    requires { line ≡ copy }
    ensures same { result.0 ≡ result.1 }
    ensures line { result.0 ≡ Line.Text line }
{
    (Line::Text(line), Line::Text(copy))
}

/// The answer of a wait, by the status with which the child ended.
fn act_of_status(status: u8) -> Act
    ensures { Ends status result }
{
    if status == 0 { Act::Ready } else { Act::Failed }
}

/// The count after a read of a line.
pub(crate) fn after_line(answer: &Line, faults: u64) -> u64
    ensures counted { Counts answer.now faults result }
    ensures never_falls { faults ≤ result }
{
    match answer {
        Line::Failed => raised(faults),
        Line::Text(_) | Line::End | Line::Memory => faults,
    }
}

impl Spawner for MemKids {
    ghost calls = { λ kids. Some kids.calls.items };

    ghost faults = { λ kids. kids.faults };

    fn start(&mut self, words: &[String]) -> Act {
        let may_go = self.may_go();
        let copy = self.words.pop().and_then(|room| room.fill(words));
        let (true, Some(words)) = (self.calls.len() < self.room, copy) else {
            self.faults = raised(self.faults);
            return Act::Failed;
        };
        let answer = if may_go { self.begin() } else { Act::Failed };
        self.faults = after_act(answer, self.faults);
        self.calls.push(KidCall::Start { words, answer }).unwrap();
        answer
    }

    fn line(&mut self, alloc: Global) -> Line {
        let may_go = self.may_go();
        if self.calls.len() >= self.room {
            self.faults = raised(self.faults);
            return Line::Failed;
        }
        let (answer, noted) = if may_go {
            self.next_line(alloc)
        } else {
            (Line::Failed, Line::Failed)
        };
        self.faults = after_line(&answer, self.faults);
        self.calls.push(KidCall::Line { answer: noted }).unwrap();
        answer
    }

    fn wait(&mut self) -> Act {
        let may_go = self.may_go();
        if self.calls.len() >= self.room {
            self.faults = raised(self.faults);
            return Act::Failed;
        }
        let answer = if may_go { self.status() } else { Act::Failed };
        self.faults = after_act(answer, self.faults);
        self.calls.push(KidCall::Wait { answer }).unwrap();
        answer
    }
}
