//! Why a new message is refused, by the standard's codes.

ghost use Rattle.std.specs.Prelude.{◌≡◌, ◌≤◌};
ghost use Rattle.salt_line.specs.Line.{Line, Stands as LineStands};
ghost use Rattle.id_window.specs.Marks.{Marks};
ghost use Rattle.id_window.specs.Crossing.{crossing};
ghost use Rattle.id_window.specs.History.{History, floor, crosses};
ghost use Rattle.id_window.specs.Window.{Stands};
ghost use Rattle.inbox.specs.Refusals.{InEnvelope, by_number, by_envelope, by_parity, by_neighbours, by_body, first_code};

use crate::kind::Kind;
use id_window::{Cross, Window};
use msg_ids::Moment;
use salt_line::SaltLine;
use service_tl::codes::{
    EVEN_SEQ_EXPECTED, FORGOTTEN, INVALID_CONTAINER, NUMBER_NOT_FOURFOLD, NUMBER_TOO_HIGH,
    NUMBER_TOO_LOW, ODD_SEQ_EXPECTED, SEQ_TOO_HIGH, SEQ_TOO_LOW, WRONG_SALT,
};

/// How many seconds old a message is at most.
const OLDEST_SECONDS: u64 = 300;

/// How many seconds ahead a message is at most.
const NEWEST_SECONDS: u64 = 30;

/// A number has its second in its high 32 bits.
const SECOND_BITS: u32 = 32;

/// The code with which a message is refused for its envelope: for its time, or for its salt.
pub(crate) fn by_envelope(now: Moment, line: &SaltLine, number: u64, salt: u64) -> Option<u32>
    requires { line.now.latest ≤ now }
    ensures { (salts : Line) → LineStands line.now salts → result ≡ by_envelope (InEnvelope now salts salt) number }
{
    let second = number >> SECOND_BITS;
    if second + OLDEST_SECONDS < now.seconds() {
        return Some(NUMBER_TOO_LOW);
    }
    if second > now.seconds() + NEWEST_SECONDS {
        return Some(NUMBER_TOO_HIGH);
    }
    if line.judge(now, salt) {
        return None;
    }
    Some(WRONG_SALT)
}

/// The code with which a message is refused whose number isn't kept, where this is the code by its envelope.
pub(crate) fn refusal(
    window: &Window,
    envelope: Option<u32>,
    number: u64,
    seq: u32,
    kind: Kind,
) -> Option<u32>
    ensures value { result ≡ first_code envelope window.now.floor (crossing number seq window.now.accepted) number seq kind }
    ensures stands { (history : History) (marks : Marks) → Stands window.now history marks
        → result ≡ first_code envelope (floor history) (crosses number seq history) number seq kind }
{
    by_number(window.floor(), number)
        .or(envelope)
        .or(by_parity(kind, seq))
        .or(by_neighbours(window.crosses(number, seq)))
        .or(by_body(kind))
}

fn by_number(floor: u64, number: u64) -> Option<u32>
    ensures { result ≡ by_number floor number }
{
    if number <= floor {
        return Some(FORGOTTEN);
    }
    if number % 4 == 0 {
        return None;
    }
    Some(NUMBER_NOT_FOURFOLD)
}

fn by_parity(kind: Kind, seq: u32) -> Option<u32>
    ensures { result ≡ by_parity kind seq }
{
    if seq % 2 == 1 {
        return if kind.needs_even() {
            Some(EVEN_SEQ_EXPECTED)
        } else {
            None
        };
    }
    if kind.needs_odd() {
        Some(ODD_SEQ_EXPECTED)
    } else {
        None
    }
}

fn by_neighbours(cross: Cross) -> Option<u32>
    ensures { result ≡ by_neighbours cross }
{
    match cross {
        Cross::None => None,
        Cross::Low => Some(SEQ_TOO_LOW),
        Cross::High => Some(SEQ_TOO_HIGH),
    }
}

fn by_body(kind: Kind) -> Option<u32>
    ensures { result ≡ by_body kind }
{
    match kind {
        Kind::Unlawful => Some(INVALID_CONTAINER),
        _ => None,
    }
}
