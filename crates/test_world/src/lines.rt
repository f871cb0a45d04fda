//! The texts of a report, by hand.

ghost use Rattle.std.specs.Prelude.{◌≡◌, map};

use call_table::{CallState, Cause};
use octets::{Memory, Octets};
use sim_text::{
    Counts, EntryLine, Summary, Wire, call_line, entry_line, reply_text, summary_line, wire_line,
};
use std::alloc::Global;
use std::test::Fail;
use test_asserts::same;

/// A value of the register service.
const FIVE: [u8; 12] = [3, 44, 27, 10, 5, 0, 0, 0, 0, 0, 0, 0];

/// An error with code 400 and the text `NO`.
const REFUSED: [u8; 12] = [25, 202, 68, 33, 144, 1, 0, 0, 2, 78, 79, 0];

/// The same, but that the text ends with the byte 127.
const DELETED: [u8; 12] = [25, 202, 68, 33, 144, 1, 0, 0, 2, 78, 127, 0];

/// An answer that was dropped while its call ran.
const DROPPED: [u8; 4] = [134, 229, 120, 205];

const TEXTS: &str = "5,error 400 NO,raw 12,dropped,raw 0,call 64 65536 queued
call 1 2 done 5
call 1 3 refused 0
call 1 4 unknown forgotten
run 2 1 24 5
answer 1 0 12 dropped
packets 2 3 ba7816bf8f01cfea414140de5dae2223b00361a396177a9cb410ff61f20015ad
calls 0 done 0 refused 0 unknown 0 runs 1 packets 2 bytes 3
";

/// The packets `a` and `bc`.
#[derive(Drop)]
struct Letters {
    first: [u8; 1],
    second: [u8; 2],
}

impl Wire for Letters {
    ghost use Rattle.std.specs.Prelude.{[], ◌∷◌};

    ghost packets = { λ letters. letters.first ∷ letters.second ∷ [] };

    fn packet_count(&self) -> u64 {
        2
    }

    fn packet_at(&self, place: u64) -> &[u8] {
        if place == 0 {
            self.first.as_slice()
        } else {
            self.second.as_slice()
        }
    }
}

fn replies(alloc: Global, text: &mut Octets) -> Result<(), Memory> {
    reply_text(alloc, text, &FIVE)?;
    text.push_all(alloc, b",")?;
    reply_text(alloc, text, &REFUSED)?;
    text.push_all(alloc, b",")?;
    reply_text(alloc, text, &DELETED)?;
    text.push_all(alloc, b",")?;
    reply_text(alloc, text, &DROPPED)?;
    text.push_all(alloc, b",")?;
    reply_text(alloc, text, &[])?;
    text.push_all(alloc, b",")
}

fn calls(alloc: Global, text: &mut Octets) -> Result<(), Memory> {
    call_line(alloc, text, 64, 65_536, &CallState::Queued)?;
    call_line(alloc, text, 1, 2, &CallState::Done(&FIVE))?;
    call_line(alloc, text, 1, 3, &CallState::Refused(0))?;
    call_line(alloc, text, 1, 4, &CallState::Unknown(Cause::Forgotten))
}

fn entries(alloc: Global, text: &mut Octets) -> Result<(), Memory> {
    let ran = EntryLine {
        start: 2,
        client: 1,
        number: 24,
        reply: &FIVE,
        ran: true,
    };
    let answered = EntryLine {
        start: 1,
        client: 0,
        number: 12,
        reply: &DROPPED,
        ran: false,
    };
    entry_line(alloc, text, &ran)?;
    entry_line(alloc, text, &answered)
}

fn rest(alloc: Global, text: &mut Octets) -> Result<(), Memory> {
    let letters = Letters {
        first: *b"a",
        second: *b"bc",
    };
    let summary = Summary {
        counts: Counts::new(),
        runs: 1,
        packets: 2,
        bytes: 3,
    };
    wire_line(alloc, text, &letters)?;
    summary_line(alloc, text, &summary)
}

#[test]
fn texts(rt: HostRuntime) -> Result<(), Fail> {
    let alloc = rt.alloc();
    let mut text = Octets::new(alloc);
    replies(alloc, &mut text)?;
    calls(alloc, &mut text)?;
    entries(alloc, &mut text)?;
    rest(alloc, &mut text)?;
    same(text.as_slice(), TEXTS.as_bytes())?;
    Ok(())
}
