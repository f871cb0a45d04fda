//! The table of a client's calls.

ghost use Rattle.std.specs.Prelude.{◌≡◌, ◌≢◌, ◌↔◌, IsTrue, ◌<◌, ◌≤◌, ◌-◌, ◌+◌, ◌++◌, ◌∷◌, [], true, max, length, map, slice_get, option_map, Some, None, IfOk, OnOk, OnErr, IfSome, IsSome};
ghost use Rattle.std.specs.List.{AllByRecursion};

use crate::call::{CallNo, CallState, Fate, Flags, Group, Living, Under};
use crate::groups::Groups;
use crate::names::{Named, are_below, find, forget};
use crate::packet::Packet;
use crate::row::Row;
use circular_buffer::HeapCircularBuffer;
use kept_bytes::KeptBytes;
use octets::{IdList, Memory};
use std::alloc::Global;
use std::collections::VecDeque;
use std::marker::Model;

/// The most calls of a table.
pub const CALLS_MAX: usize = 65_536;

/// The most acknowledgements that wait.
pub const ACKS_MAX: usize = 8_192;

/// The most packets that are remembered.
pub const PACKETS_MAX: usize = 64;

/// The calls of a client, at most 65,536; the acknowledgements that wait, at most 8,192; and the packets that are
/// remembered, at most 64. None but `new`, `add` and `reserve` takes memory.
///
/// The call of a living message identifier is found in time of the logarithm of how many are outstanding. The calls of
/// each `Group` are kept in order, so that going through them costs their own count and not that of all calls.
#[derive(Debug, Drop)]
pub struct Calls {
    rows: Vec<Row>,
    names: VecDeque<Named>,
    groups: Groups,
    acks: HeapCircularBuffer<u64>,
    packets: HeapCircularBuffer<Packet>,
    reserved: usize,
}

impl Model for Calls {
    ghost use Rattle.std.specs.Prelude.{◌+◌, ◌≤◌, length};
    ghost use Rattle.std.specs.VecDeque.{deque_len, deque_capacity};
    ghost use Rattle.call_table.specs.Kept.{Contents};
    ghost use Rattle.call_table.specs.Held.{IsHeld};

    ghost Value = { Contents };

    ghost view = { λ calls. record {
      rows = calls.rows.items;
      acks = calls.acks.items;
      packets = calls.packets.items;
      room = calls.reserved;
    } };

    ghost invariant = { λ calls. IsHeld calls.rows.items calls.names.items calls.groups calls.acks.capacity calls.packets.capacity
        × (deque_len calls.names + calls.reserved ≤ deque_capacity calls.names) };
}

impl Calls {
    ghost use Rattle.call_table.specs.Table.{Table, Queued, Sent, IsGiven, acks_max, acknowledged, added, at, call_no, calls_max, flagged, group_of, inner_of, is_open, living_name, living_numbers, no_calls, no_flags, owner, places_from, remembered, sent, sent_again, settled, state_at, under_of, with_call};
    ghost use Rattle.call_table.specs.Kept.{IsBelow, IsMember, Stands, again_row, flagged_row, is_row_in, living_in, new_row, numbers_in, owner_in, passes, sent_row, settled_row, shown, state_in, under_in, with_row};

    /// A table of no call. Takes the room for all acknowledgements and packets.
    ///
    /// # Errors
    ///
    /// `Memory`: memory ran out.
    pub fn new(alloc: Global) -> Result<Calls, Memory>
        ensures kept { IfOk result (λ calls. calls ≡ record { rows = []; acks = []; packets = []; room = 0 }) }
        ensures stands { IfOk result (λ calls. Stands calls no_calls) }
    {
        Ok(Calls {
            rows: Vec::new(alloc),
            names: VecDeque::new(alloc),
            groups: Groups::new(alloc)?,
            acks: HeapCircularBuffer::with_capacity(alloc, ACKS_MAX)?,
            packets: HeapCircularBuffer::with_capacity(alloc, PACKETS_MAX)?,
            reserved: 0,
        })
    }

    /// How many calls there are.
    pub fn count(&self) -> u32
        ensures kept { result ≡ length self.now.rows }
        ensures few { length self.now.rows ≤ calls_max }
        ensures count { (table : Table) → Stands self.now table → result ≡ length table.calls }
    {
        self.rows.len() as u32
    }

    /// Submits a call with this body, which is to execute after an earlier call of this table, if one is given. There
    /// are fewer than 65,536 calls so far. It answers the call, which is `Queued`.
    ///
    /// # Errors
    ///
    /// `Memory`: memory ran out, and the table is as it was.
    pub fn add(
        &mut self,
        alloc: Global,
        body: &[u8],
        after: Option<CallNo>,
    ) -> Result<CallNo, Memory>
        requires few { length self.old.rows < calls_max }
        requires earlier { IfSome after (λ one. IsGiven one self.old.rows) }
        ensures call { IfOk result (λ call. call ≡ call_no (length self.old.rows)) }
        ensures kept { OnOk result (self.new ≡ record self.old { rows = self.old.rows ++ new_row body.now after ∷ [] }) }
        ensures stands { OnOk result ((table : Table) → Stands self.old table → Stands self.new (added body.now after table)) }
        ensures given { IfOk result (λ call. IsGiven call self.new.rows) }
        ensures queued { IfOk result (λ call. state_in call self.new.rows ≡ Some Queued) }
        ensures unchanged_on_memory { OnErr result (self.new ≡ self.old) }
    {
        let place = self.rows.len();
        let body = KeptBytes::copy(alloc, body)?;
        self.rows.reserve(1)?;
        self.groups.reserve(place + 1)?;
        let row = Row::new(body, after);
        self.groups.enter(place as u16, &row);
        self.rows.push_reserved(row);
        Ok(CallNo {
            n: place as u64 + 1,
        })
    }

    /// What became of a call that this table gave.
    pub fn state(&self, call: CallNo) -> CallState<'_>
        requires given { IsGiven call self.now.rows }
        ensures kept { state_in call self.now.rows ≡ Some (shown result) }
        ensures state { (table : Table) → Stands self.now table → state_at call table.calls ≡ Some (shown result) }
    {
        self.rows[place_of(call)].state()
    }

    /// The body of a call that this table gave.
    pub fn body(&self, call: CallNo) -> &[u8]
        requires given { IsGiven call self.now.rows }
        ensures kept { option_map (λ row. row.body) (at call self.now.rows) ≡ Some result.now }
        ensures body { (table : Table) → Stands self.now table → option_map (λ one. one.body) (at call table.calls) ≡ Some result.now }
    {
        self.rows[place_of(call)].body()
    }

    /// The earlier call after which a call that this table gave is to execute; none exactly where it was submitted
    /// without one.
    pub fn after(&self, call: CallNo) -> Option<CallNo>
        requires given { IsGiven call self.now.rows }
        ensures kept { option_map (λ row. row.after) (at call self.now.rows) ≡ Some result }
        ensures given { IfSome result (λ one. IsGiven one self.now.rows) }
        ensures earlier { IfSome result (λ one. one.n < call.n) }
        ensures after { (table : Table) → Stands self.now table → option_map (λ one. one.after) (at call table.calls) ≡ Some result }
    {
        self.rows[place_of(call)].after()
    }

    /// The message under which a call that this table gave is outstanding; none exactly where the call isn't `Sent`.
    pub fn living(&self, call: CallNo) -> Option<Living>
        requires given { IsGiven call self.now.rows }
        ensures kept { option_map (λ row. living_in row.progress) (at call self.now.rows) ≡ Some result }
        ensures living { (table : Table) → Stands self.now table → option_map (λ one. option_map (λ name. name.message) (living_name one)) (at call table.calls) ≡ Some result }
    {
        self.rows[place_of(call)].living()
    }

    /// Under which salts the living message of a `Sent` call was sent.
    pub fn under(&self, call: CallNo) -> Under
        requires given { IsGiven call self.now.rows }
        requires sent { state_in call self.now.rows ≡ Some Sent }
        ensures kept { option_map (λ row. under_in row.progress) (at call self.now.rows) ≡ Some (Some result) }
        ensures under { (table : Table) → Stands self.now table → option_map (λ one. option_map (λ name. under_of name.salts) (living_name one)) (at call table.calls) ≡ Some (Some result) }
    {
        self.rows[place_of(call)].under().unwrap()
    }

    /// What is still to be done about a call that this table gave; nothing where it isn't `Sent`.
    pub fn flags(&self, call: CallNo) -> Flags
        requires given { IsGiven call self.now.rows }
        ensures kept { option_map (λ row. row.flags) (at call self.now.rows) ≡ Some result }
        ensures unmarked { state_in call self.now.rows ≢ Some Sent → result ≡ no_flags }
        ensures flags { (table : Table) → Stands self.now table → option_map (λ one. one.flags) (at call table.calls) ≡ Some result }
    {
        self.rows[place_of(call)].flags()
    }

    /// The outstanding call of a message identifier; none exactly where there is none.
    pub fn owner(&self, number: u64) -> Option<CallNo>
        ensures kept { result ≡ owner_in number self.now.rows }
        ensures given { IfSome result (λ call. IsGiven call self.now.rows) }
        ensures sent { IfSome result (λ call. state_in call self.now.rows ≡ Some Sent) }
        ensures owner { (table : Table) → Stands self.now table → result ≡ owner number table.calls }
    {
        let place = find(&self.names, number)?;
        Some(CallNo {
            n: place as u64 + 1,
        })
    }

    /// The living message identifier that has so many others below it; none exactly at their count, which is that of the
    /// calls that are `Sent`, and past it.
    pub fn living_at(&self, k: usize) -> Option<u64>
        ensures kept { result ≡ slice_get (numbers_in self.now.rows) k }
        ensures owned { IfSome result (λ number. IsSome (owner_in number self.now.rows)) }
        ensures living { (table : Table) → Stands self.now table → result ≡ slice_get (living_numbers table.calls) k }
    {
        let one = self.names.get(k)?;
        Some(one.number)
    }

    /// How many calls a group has.
    pub fn members(&self, group: Group) -> usize
        ensures kept { result ≡ length (places_from (is_row_in group) 0 self.now.rows) }
        ensures members { (table : Table) → Stands self.now table → result ≡ length (group_of group table.calls) }
    {
        self.groups.of(group).len()
    }

    /// The call of a group that has so many of its calls before it, in call order; none exactly at their count and past
    /// it.
    pub fn member(&self, group: Group, k: usize) -> Option<CallNo>
        ensures kept { result ≡ option_map call_no (slice_get (places_from (is_row_in group) 0 self.now.rows) k) }
        ensures given { IfSome result (λ call. IsGiven call self.now.rows) }
        ensures one { IfSome result (λ call. IsMember group call self.now.rows) }
        ensures member { (table : Table) → Stands self.now table → result ≡ slice_get (group_of group table.calls) k }
    {
        let place = *self.groups.of(group).get(k)?;
        Some(CallNo {
            n: place as u64 + 1,
        })
    }

    /// Whether a message identifier is above every living one, as `send` needs it.
    pub fn is_above(&self, number: u64) -> bool
        ensures { IsTrue result ↔ AllByRecursion (IsBelow number) self.now.rows }
    {
        are_below(&self.names, number)
    }

    /// Takes room for so many calls of `send` or `again`, or keeps more room that is there.
    ///
    /// # Errors
    ///
    /// `Memory`: memory ran out, and the table is as it was.
    pub fn reserve(&mut self, _alloc: Global, n: usize) -> Result<(), Memory>
        ensures kept { OnOk result (self.new ≡ record self.old { room = max self.old.room n }) }
        ensures stands { OnOk result ((table : Table) → Stands self.old table → Stands self.new table) }
        ensures unchanged_on_memory { OnErr result (self.new ≡ self.old) }
    {
        let room = n.max(self.reserved);
        self.names.reserve(room)?;
        self.reserved = room;
        Ok(())
    }

    /// Sends a `Queued` call in this session as this message, whose message identifier is above every living one, under
    /// this salt. Room for it is reserved.
    pub fn send(&mut self, call: CallNo, session: u64, living: Living, salt: u64)
        requires given { IsGiven call self.old.rows }
        requires queued { state_in call self.old.rows ≡ Some Queued }
        requires above { AllByRecursion (IsBelow living.number) self.old.rows }
        requires reserved { 0 < self.old.room }
        ensures kept { self.new ≡ with_row call (sent_row living salt) (record self.old { room = self.old.room - 1 }) }
        ensures stands { (table : Table) → Stands self.old table → Stands self.new (with_call call (sent session living salt) table) }
    {
        let place = place_of(call);
        self.names.push_back_reserved(Named {
            number: living.number,
            place: place as u32,
        });
        self.reserved -= 1;
        let row = &mut self.rows[place];
        row.send(living, salt);
        self.groups.enter(place as u16, row);
    }

    /// The living message of a `Sent` call was sent once more, under this salt. Room for it is reserved.
    pub fn again(&mut self, call: CallNo, salt: u64)
        requires given { IsGiven call self.old.rows }
        requires sent { state_in call self.old.rows ≡ Some Sent }
        requires reserved { 0 < self.old.room }
        ensures kept { self.new ≡ with_row call (again_row salt) (record self.old { room = self.old.room - 1 }) }
        ensures stands { (table : Table) → Stands self.old table → Stands self.new (with_call call (sent_again salt) table) }
    {
        self.reserved -= 1;
        self.rows[place_of(call)].send_again(salt);
    }

    /// Something becomes of a call that is `Queued`, `Sent` or `Held`. Nothing is to be done about it any more.
    pub fn settle(&mut self, call: CallNo, fate: Fate)
        requires given { IsGiven call self.old.rows }
        requires open { passes is_open (state_in call self.old.rows) ≡ true }
        ensures kept { self.new ≡ with_row call (settled_row fate) self.old }
        ensures stands { (table : Table) → Stands self.old table → Stands self.new (with_call call (settled fate) table) }
    {
        let place = place_of(call);
        let row = &mut self.rows[place];
        forget(&mut self.names, row.number());
        row.settle(fate);
        self.groups.enter(place as u16, row);
    }

    /// Says what is to be done about a `Sent` call, in place of what was said before.
    pub fn set_flags(&mut self, call: CallNo, flags: Flags)
        requires given { IsGiven call self.old.rows }
        requires sent { state_in call self.old.rows ≡ Some Sent }
        ensures kept { self.new ≡ with_row call (flagged_row flags) self.old }
        ensures stands { (table : Table) → Stands self.old table → Stands self.new (with_call call (flagged flags) table) }
    {
        let place = place_of(call);
        let row = &mut self.rows[place];
        row.set_flags(flags);
        self.groups.enter(place as u16, row);
    }

    /// How many acknowledgements wait.
    pub fn acks(&self) -> usize
        ensures kept { result ≡ length self.now.acks }
        ensures few { length self.now.acks ≤ acks_max }
        ensures acks { (table : Table) → Stands self.now table → result ≡ length table.acks }
    {
        self.acks.len()
    }

    /// The waiting acknowledgement that has so many before it; none exactly at their count and past it.
    pub fn ack_at(&self, k: usize) -> Option<u64>
        ensures kept { result ≡ slice_get self.now.acks k }
        ensures ack { (table : Table) → Stands self.now table → result ≡ slice_get table.acks k }
    {
        self.acks.get(k).copied()
    }

    /// An acknowledgement waits, behind the others. It pushes out the oldest of 8,192.
    pub fn push_ack(&mut self, number: u64)
        ensures kept { self.new ≡ record self.old { acks = acknowledged number self.old.acks } }
        ensures stands { (table : Table) → Stands self.old table → Stands self.new (record table { acks = acknowledged number table.acks }) }
    {
        let _ = self.acks.push_back(number);
    }

    /// No acknowledgement waits any more.
    pub fn clear_acks(&mut self)
        ensures kept { self.new ≡ record self.old { acks = [] } }
        ensures stands { (table : Table) → Stands self.old table → Stands self.new (record table { acks = [] }) }
    {
        self.acks.clear();
    }

    /// Remembers a packet by its outer message identifier, with those of the calls in it. It pushes out the oldest of
    /// 64.
    pub fn remember(&mut self, outer: u64, inner: IdList)
        ensures kept { self.new ≡ record self.old { packets = remembered outer inner self.old.packets } }
        ensures stands { (table : Table) → Stands self.old table → Stands self.new (record table { packets = remembered outer inner table.packets }) }
    {
        let _ = self.packets.push_back(Packet { outer, inner });
    }

    /// The message identifiers of the calls in the packet that was remembered last under this number; none exactly
    /// where no packet is remembered under it.
    pub fn inner(&self, outer: u64) -> Option<&IdList>
        ensures kept { option_map (λ inner. inner.now) result ≡ inner_of outer self.now.packets }
        ensures inner { (table : Table) → Stands self.now table → option_map (λ inner. inner.now) result ≡ inner_of outer table.packets }
    {
        let mut found = None;
        for packet in self.packets.iter() {
            if packet.outer == outer {
                found = Some(&packet.inner);
            }
        }
        found
    }

    /// No packet is remembered any more.
    pub fn forget_packets(&mut self)
        ensures kept { self.new ≡ record self.old { packets = [] } }
        ensures stands { (table : Table) → Stands self.old table → Stands self.new (record table { packets = [] }) }
    {
        self.packets.clear();
    }
}

/// The place of a call, from 0.
fn place_of(call: CallNo) -> usize
    requires { 0 < call.n }
    ensures { result ≡ call.n - 1 }
{
    (call.n - 1) as usize
}
