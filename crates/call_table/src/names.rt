//! The living message identifiers in ascending order, with the places of their calls. They are searched by halving.

ghost use Rattle.std.specs.Prelude.{◌≡◌, ◌↔◌, IsTrue, ◌<◌, ◌≤◌, IfSome, IsSome, map, length};
ghost use Rattle.std.specs.List.{AllByRecursion};
ghost use Rattle.std.specs.VecDeque.{deque_len, deque_capacity};
ghost use Rattle.call_table.specs.Held.{Rises, found, place, without_own};

use std::collections::VecDeque;

/// A living message identifier, with the place of its call, from 0.
#[derive(Clone, Copy, Debug)]
pub(crate) struct Named {
    pub(crate) number: u64,
    pub(crate) place: u32,
}

/// How many names have a number below this one.
pub(crate) fn place_of(names: &VecDeque<Named>, number: u64) -> usize
    requires { Rises (map (λ one. one.number) names.now.items) }
    ensures place { result ≡ place number (map (λ one. one.number) names.now.items) }
    ensures within { result ≤ length names.now.items }
{
    names.partition_point(|one| one.number < number)
}

/// The place of the call of this number.
pub(crate) fn find(names: &VecDeque<Named>, number: u64) -> Option<u32>
    requires { Rises (map (λ one. one.number) names.now.items) }
    ensures { result ≡ found number names.now.items }
{
    let at = place_of(names, number);
    if at == names.len() {
        return None;
    }
    let one = names[at];
    if one.number != number {
        return None;
    }
    Some(one.place)
}

/// Whether every name has a number below this one.
pub(crate) fn are_below(names: &VecDeque<Named>, number: u64) -> bool
    requires { Rises (map (λ one. one.number) names.now.items) }
    ensures { IsTrue result ↔ AllByRecursion (λ one. one.number < number) names.now.items }
{
    let count = names.len();
    if count == 0 {
        return true;
    }
    names[count - 1].number < number
}

/// Takes out the name of this number, where there is one.
pub(crate) fn forget(names: &mut VecDeque<Named>, number: Option<u64>)
    requires { Rises (map (λ one. one.number) names.old.items) }
    ensures left { names.new.items ≡ without_own number names.old.items }
    ensures capacity { deque_capacity names.new ≡ deque_capacity names.old }
    ensures fewer { deque_len names.new ≤ deque_len names.old }
{
    let Some(number) = number else {
        return;
    };
    let at = place_of(names, number);
    if at == names.len() {
        return;
    }
    if names[at].number == number {
        names.remove(at);
    }
}
