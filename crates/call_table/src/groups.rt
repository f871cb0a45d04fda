//! The places of the calls of each group, in call order, two bytes each. They are searched by halving; where a place
//! enters or leaves, those behind it or before it move, whichever are fewer.

ghost use Rattle.std.specs.Prelude.{◌≡◌, ◌<◌, ◌≤◌, ◌^◌, ◌==◌, [], IfOk, OnOk, length, slice_get};
ghost use Rattle.std.specs.VecDeque.{deque_capacity};
ghost use Rattle.call_table.specs.declared.call.Group.{Group};
ghost use Rattle.call_table.specs.Kept.{is_row_in, passes};
ghost use Rattle.call_table.specs.Held.{AreGrouped, HaveRoom, Rises, capacity_in, place, places_in, with_member};

use crate::call::Group;
use crate::row::Row;
use octets::Memory;
use std::alloc::Global;
use std::collections::VecDeque;

/// How many of these places are below this one.
fn place_of(places: &VecDeque<u16>, member: u16) -> usize
    requires { Rises places.now.items }
    ensures place { result ≡ place member places.now.items }
    ensures within { result ≤ length places.now.items }
{
    places.partition_point(|one| *one < member)
}

/// Whether this member stands at a place of the list.
fn is_at(places: &VecDeque<u16>, at: usize, member: u16) -> bool
    ensures { result ≡ passes (λ one. one == member) (slice_get places.now.items at) }
{
    at < places.len() && places[at] == member
}

/// Puts a place among the others, or takes it out.
pub(crate) fn put(places: &mut VecDeque<u16>, member: u16, enters: bool)
    requires ascending { Rises places.old.items }
    requires room { length places.old.items < deque_capacity places.old }
    ensures placed { places.new.items ≡ with_member member enters places.old.items }
    ensures capacity { deque_capacity places.old ≤ deque_capacity places.new }
{
    let at = place_of(places, member);
    let is_there = is_at(places, at, member);
    if enters {
        if is_there {
            return;
        }
        let placed: Result<_, _> = places.insert(at, member);
        placed.unwrap();
    } else if is_there {
        places.remove(at);
    }
}

/// The places of the calls of each group.
#[derive(Debug, Drop)]
pub(crate) struct Groups {
    pub(crate) queued: VecDeque<u16>,
    pub(crate) outstanding: VecDeque<u16>,
    pub(crate) held: VecDeque<u16>,
    pub(crate) alone: VecDeque<u16>,
    pub(crate) dropping: VecDeque<u16>,
}

/// Takes room for so many places in all.
fn make_room(places: &mut VecDeque<u16>, room: usize) -> Result<(), Memory>
    ensures room { OnOk result (room ≤ deque_capacity places.new) }
    ensures places { places.new.items ≡ places.old.items }
    ensures capacity { deque_capacity places.old ≤ deque_capacity places.new }
{
    let missing = room.saturating_sub(places.len());
    places.reserve(missing)?;
    Ok(())
}

impl Groups {
    /// No place, and room for one.
    pub(crate) fn new(alloc: Global) -> Result<Groups, Memory>
        ensures grouped { IfOk result (AreGrouped []) }
        ensures room { IfOk result (HaveRoom 0) }
    {
        Ok(Groups {
            queued: VecDeque::with_capacity(alloc, 1)?,
            outstanding: VecDeque::with_capacity(alloc, 1)?,
            held: VecDeque::with_capacity(alloc, 1)?,
            alone: VecDeque::with_capacity(alloc, 1)?,
            dropping: VecDeque::with_capacity(alloc, 1)?,
        })
    }

    /// Takes room for more places than these in each group.
    pub(crate) fn reserve(&mut self, count: usize) -> Result<(), Memory>
        requires { count < 2 ^ 63 }
        ensures room { OnOk result (HaveRoom count self.new) }
        ensures places { (group : Group) → places_in group self.new ≡ places_in group self.old }
        ensures capacity { (group : Group) → capacity_in group self.old ≤ capacity_in group self.new }
    {
        make_room(&mut self.queued, count + 1)?;
        make_room(&mut self.outstanding, count + 1)?;
        make_room(&mut self.held, count + 1)?;
        make_room(&mut self.alone, count + 1)?;
        make_room(&mut self.dropping, count + 1)?;
        Ok(())
    }

    /// Puts a call's place into the groups of which it is one, and takes it out of the others.
    pub(crate) fn enter(&mut self, place: u16, row: &Row)
        requires ascending { (group : Group) → Rises (places_in group self.old) }
        requires room { (group : Group) → length (places_in group self.old) < capacity_in group self.old }
        ensures placed { (group : Group) → places_in group self.new ≡ with_member place (is_row_in group row.now) (places_in group self.old) }
        ensures capacity { (group : Group) → capacity_in group self.old ≤ capacity_in group self.new }
    {
        put(&mut self.queued, place, row.is_in(Group::Queued));
        put(&mut self.outstanding, place, row.is_in(Group::Outstanding));
        put(&mut self.held, place, row.is_in(Group::Held));
        put(&mut self.alone, place, row.is_in(Group::Alone));
        put(&mut self.dropping, place, row.is_in(Group::Dropping));
    }

    /// The places of a group.
    pub(crate) fn of(&self, group: Group) -> &VecDeque<u16>
        ensures { result.now.items ≡ places_in group self.now }
    {
        match group {
            Group::Queued => &self.queued,
            Group::Outstanding => &self.outstanding,
            Group::Held => &self.held,
            Group::Alone => &self.alone,
            Group::Dropping => &self.dropping,
        }
    }
}
