//! The two accepted neighbours of a number. Since accepted messages don't cross, their sequence numbers never fall as
//! the numbers rise, so what crosses any of them crosses a neighbour.

ghost use Rattle.std.specs.Prelude.{◌≡◌, ◌≤◌, map, length, None};
ghost use Rattle.id_window.specs.Window.{Rises};
ghost use Rattle.id_window.specs.Places.{place, last_below, first_above, is_some_past, is_some_short};

use crate::rows::Accepted;
use std::collections::VecDeque;

/// The last entry below a number, which has this place.
pub(crate) fn last_below(accepted: &VecDeque<Accepted>, number: u64, at: usize) -> Option<Accepted>
    requires at { at ≡ place number (map (λ one. one.number) accepted.now.items) }
    requires within { at ≤ length accepted.now.items }
    ensures { result ≡ last_below number accepted.now.items None }
{
    if at == 0 {
        return None;
    }
    Some(accepted[at - 1])
}

/// The first entry above a number, which has this place.
pub(crate) fn first_above(accepted: &VecDeque<Accepted>, number: u64, at: usize) -> Option<Accepted>
    requires ascending { Rises (map (λ one. one.number) accepted.now.items) }
    requires at { at ≡ place number (map (λ one. one.number) accepted.now.items) }
    requires within { at ≤ length accepted.now.items }
    ensures { result ≡ first_above number accepted.now.items }
{
    if at == accepted.len() {
        return None;
    }
    let first = accepted[at];
    if first.number != number {
        return Some(first);
    }
    if at + 1 == accepted.len() {
        return None;
    }
    Some(accepted[at + 1])
}

/// Whether an accepted sequence number is above this one, or equal to it and odd.
pub(crate) fn is_past(accepted: Option<Accepted>, seq: u32) -> bool
    ensures { result ≡ is_some_past seq accepted }
{
    match accepted {
        Some(one) => one.seq > seq || one.seq == seq && one.seq % 2 == 1,
        None => false,
    }
}

/// Whether an accepted sequence number is below this one, or equal to it and odd.
pub(crate) fn is_short(accepted: Option<Accepted>, seq: u32) -> bool
    ensures { result ≡ is_some_short seq accepted }
{
    match accepted {
        Some(one) => one.seq < seq || one.seq == seq && one.seq % 2 == 1,
        None => false,
    }
}
