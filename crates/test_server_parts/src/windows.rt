//! Windows of numbers: a caller's try, the worked rows, and each call once. The rows are steps, which a window does one after
//! the other.

ghost use Rattle.std.specs.Prelude.{◌≡◌, true, Ok, Some, IfOk};
ghost use Rattle.id_window.specs.Marks.{Marks, given};
ghost use Rattle.id_window.specs.History.{History, AcceptedCall, noted, found};
ghost use Rattle.id_window.specs.Window.{Stands};

use crate::steps::{Plays, Step, are_played, show, tell};
use id_window::{Cross, Mark, WINDOW_NUMBERS, Window};
use octets::Memory;
use std::alloc::Global;
use std::test::Fail;
use test_asserts::same;

// Notes a call where it is new and crosses nothing, and says whether it did.
fn accept_call(window: &mut Window, alloc: Global, number: u64, seq: u32) -> Result<bool, Memory>
    ensures noted { (history : History) (marks : Marks) → Stands window.old history marks → result ≡ Ok true
        → Stands window.new (noted number seq AcceptedCall history) (given number Mark.Waiting marks) }
{
    if window.find(number).is_some() || number <= window.floor() {
        return Ok(false);
    }
    match window.crosses(number, seq) {
        Cross::None => {}
        _ => return Ok(false),
    }
    window.reserve(alloc, 1)?;
    window.note(number, seq, Mark::Waiting);
    Ok(true)
}

// Notes a new call and answers it, and goes on with the window where memory runs out.
fn accept_and_answer(window: &mut Window, alloc: Global, number: u64, seq: u32) -> Option<Mark>
    ensures answered { (history : History) (marks : Marks) → Stands window.old history marks → result ≡ Some (Mark.Replied true)
        → Stands window.new (noted number seq AcceptedCall history) (given number (Mark.Replied true) (given number Mark.Waiting marks)) }
{
    match accept_call(window, alloc, number, seq) {
        Ok(true) => {}
        _ => return None,
    }
    match window.find(number) {
        Some(Mark::Waiting) => {}
        _ => return None,
    }
    window.set(number, Mark::Replied(true));
    Some(Mark::Replied(true))
}

// The mark of a number, in a copy.
fn find_in_copy(window: &Window, alloc: Global, number: u64) -> Result<Option<Mark>, Memory>
    ensures { (history : History) (marks : Marks) → Stands window.now history marks
        → IfOk result (λ mark. mark ≡ found number history marks) }
{
    let copy = window.copy(alloc)?;
    Ok(copy.find(number))
}

// Notes a number that is new and crosses nothing, with any mark.
fn note_new(
    window: &mut Window,
    alloc: Global,
    number: u64,
    seq: u32,
    mark: Mark,
) -> Result<Option<(u64, Mark)>, Fail> {
    if window.find(number).is_some() || number <= window.floor() {
        return Err("not new".into());
    }
    match window.crosses(number, seq) {
        Cross::None => {}
        _ => return Err("crosses".into()),
    }
    window.reserve(alloc, 1)?;
    Ok(window.note(number, seq, mark))
}

// A mark by a number: a service message's, that of a call that waits, and those of notices.
fn mark_of(number: u64) -> Mark {
    match number {
        0 => Mark::Service,
        1 => Mark::Waiting,
        _ => Mark::Noticed((number & 0xff) as u32),
    }
}

// Its floor and its greatest number, and those of a copy.
fn edges(window: &Window, alloc: Global) -> Result<String, Fail> {
    let copy = window.copy(alloc)?;
    let (floor, greatest) = (window.floor(), window.greatest());
    let (copied_floor, copied_greatest) = (copy.floor(), copy.greatest());
    Ok(format!(in alloc; "{floor} {greatest}, {copied_floor} {copied_greatest}")?)
}

// So many numbers of service messages, 4 apart: how many of them made the window forget one.
fn noted(window: &mut Window, alloc: Global, count: u64) -> Result<u64, Fail> {
    let mut forgotten = 0u64;
    for k in 0..count {
        let number = k.wrapping_mul(4).wrapping_add(4);
        let seq = k.wrapping_mul(2).wrapping_add(2);
        if note_new(window, alloc, number, low(seq), Mark::Service)?.is_some() {
            forgotten = forgotten.wrapping_add(1);
        }
    }
    Ok(forgotten)
}

// The lower half of a number.
fn low(number: u64) -> u32 {
    (number & 0xffff_ffff) as u32
}

fn notes(window: &mut Window, alloc: Global, numbers: [u64; 4]) -> Result<String, Fail> {
    let [number, seq, mark, _] = numbers;
    let forgotten = note_new(window, alloc, number, low(seq), mark_of(mark))?;
    show(alloc, &forgotten)
}

fn notes_many(window: &mut Window, alloc: Global, count: u64) -> Result<String, Fail> {
    tell(alloc, &noted(window, alloc, count)?)
}

fn accepts(window: &mut Window, alloc: Global, number: u64, seq: u64) -> Result<String, Fail> {
    tell(alloc, &accept_call(window, alloc, number, low(seq))?)
}

fn finds_in_copy(window: &Window, alloc: Global, number: u64) -> Result<String, Fail> {
    show(alloc, &find_in_copy(window, alloc, number)?)
}

impl Plays for Window {
    fn begun(alloc: Global) -> Result<Window, Fail> {
        Ok(Window::new(alloc)?)
    }

    fn played(&mut self, alloc: Global, step: Step<'_>) -> Result<String, Fail> {
        let [number, seq, ..] = step.numbers;
        match step.verb {
            "note" => notes(self, alloc, step.numbers),
            "notes" => notes_many(self, alloc, number),
            "accept" => accepts(self, alloc, number, seq),
            "answer" => show(alloc, &accept_and_answer(self, alloc, number, low(seq))),
            "find" => show(alloc, &self.find(number)),
            "copied" => finds_in_copy(self, alloc, number),
            "crosses" => show(alloc, &self.crosses(number, low(seq))),
            "edges" => edges(self, alloc),
            _ => Err(Fail::new("no step")),
        }
    }
}

// A number below a full window comes straight back.
const FULL: &str = "\
notes 16384 = 0\n\
edges = 0 65536, 0 65536\n\
note 65540 65535 1 = Some((4, Service))\n\
edges = 4 65540, 4 65540\n\
note 6 0 18 = Some((6, Noticed(18)))\n\
find 6 = None\n\
find 8 = Some(Service)\n\
copied 65540 = Some(Waiting)\n\
edges = 6 65540, 6 65540\n";

#[test]
fn a_full_window_forgets_its_least_number(rt: HostRuntime) -> Result<(), Fail> {
    are_played::<Window>(rt.alloc(), FULL)
}

// A noticed number crosses nothing, and even seqs may be shared.
const CROSSING: &str = "\
note 8 1 1 = None\n\
crosses 12 1 = Low\n\
crosses 4 3 = High\n\
crosses 4 1 = High\n\
crosses 12 3 = None\n\
crosses 8 3 = None\n\
crosses 4 0 = None\n\
note 16 9 34 = None\n\
crosses 20 9 = None\n\
note 20 4 0 = None\n\
crosses 24 4 = None\n\
crosses 24 3 = Low\n";

#[test]
fn crossing_rows(rt: HostRuntime) -> Result<(), Fail> {
    are_played::<Window>(rt.alloc(), CROSSING)
}

const CHANGED: &str = "\
answer 8 1 = Some(Replied(true))\n\
find 8 = Some(Replied(true))\n\
copied 8 = Some(Replied(true))\n\
accept 8 3 = false\n";

#[test]
fn marks_change(rt: HostRuntime) -> Result<(), Fail> {
    same(WINDOW_NUMBERS, 16_384)?;
    are_played::<Window>(rt.alloc(), CHANGED)
}
