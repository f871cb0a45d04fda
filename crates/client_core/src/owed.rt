//! For how many bytes of messages and how many numbers a flush takes room: for what waits and may go, and no more than a
//! packet may have.

ghost use Rattle.std.specs.Prelude.{◌≡◌, ◌≤◌, ◌<◌, ◌+◌, ◌-◌, ◌^◌, Some, min, option_map};
ghost use Rattle.containers.specs.Container.{bytes_max, container_head, messages_max};
ghost use Rattle.call_table.specs.Table.{IsGiven};
ghost use Rattle.client_core.specs.Kept.{temporary_in};
ghost use Rattle.client_core.specs.Owed.{asked_count, bytes_at, calls_most, drops_bytes, follows_at, front_bytes, front_of, has_unbound, holds_back, more_behind, needs_binding, owed_bytes, owed_numbers, told_bytes, waiting_bytes};

use crate::asking::{BODY_BYTES, if_needed};
use crate::binding::{Binding, Temporary};
use crate::calling::wrap_size;
use crate::core_client::Core;
use crate::rebinding::need_of;
use call_table::{CallNo, Group};
use containers::laws::container_sizes;
use containers::{
    CONTAINER_BYTES_MAX, CONTAINER_HEAD_BYTES, CONTAINER_MESSAGES_MAX, MESSAGE_HEAD_BYTES,
};
use tl_codec::{LONGS_MAX, fill};

/// The bytes of a message that names so many others.
const LIST_HEAD_BYTES: usize = MESSAGE_HEAD_BYTES + 12;

/// The bytes of a message of a number alone.
const ONE_BYTES: usize = MESSAGE_HEAD_BYTES + 12;

/// The bytes of a request for salts.
const SALTS_BYTES: usize = MESSAGE_HEAD_BYTES + 8;

/// The most bytes of the messages of a packet.
const BYTES_MAX: usize = CONTAINER_BYTES_MAX - CONTAINER_HEAD_BYTES;

impl Core {
    /// For the states of how many calls is asked.
    pub(crate) fn asked_count(&self) -> usize
        ensures { result ≡ asked_count self.now.rest.waiting.states self.now.calls.rows }
    {
        if !self.waiting.states {
            return 0;
        }
        self.calls.members(Group::Outstanding).min(LONGS_MAX)
    }

    /// The bytes of how messages fared.
    fn told_bytes(&self) -> usize
        ensures bytes { result ≡ told_bytes self.now.rest.waiting.told }
        ensures few { result ≤ 65564 }
    {
        match &self.waiting.told {
            None => 0,
            Some(states) => LIST_HEAD_BYTES + fill::string_size(states.info.as_slice().len()),
        }
    }

    /// The bytes of what waits beside the calls and the binding.
    fn waiting_bytes(&self) -> usize
        ensures bytes { result ≡ waiting_bytes self.now }
        ensures few { result < 2 ^ 20 }
    {
        let lists = self.calls.acks() + self.waiting.resent.ids().len() + self.asked_count();
        3 * LIST_HEAD_BYTES + 8 * lists + self.told_bytes() + 2 * ONE_BYTES + SALTS_BYTES
    }

    /// The bytes of the wishes to drop answers.
    fn drops_bytes(&self) -> usize
        ensures bytes { result ≡ drops_bytes self.now.calls.rows }
        ensures few { result < 2 ^ 40 }
    {
        let _few = self.calls.count();
        ONE_BYTES * self.calls.members(Group::Dropping)
    }

    /// Whether a binding is to be asked for.
    pub(crate) fn needs_binding(&self) -> bool
        ensures { result ≡ needs_binding self.now.rest }
    {
        self.is_open() && need_of(&self.temporary).is_some()
    }

    /// The bytes of a call that is queued, at most.
    fn call_bytes(&self, call: CallNo) -> usize
        requires given { IsGiven call self.now.calls.rows }
        ensures bytes { result ≡ bytes_at self.now.calls.rows (Some (call.n - 1)) }
        ensures few { result ≤ 2 ^ 63 + 28 }
    {
        MESSAGE_HEAD_BYTES + wrap_size(self.calls.after(call)) + self.calls.body(call).len()
    }

    /// Whether a call is to execute after another.
    fn follows(&self, call: CallNo) -> bool
        requires given { IsGiven call self.now.calls.rows }
        ensures { result ≡ follows_at self.now.calls.rows (Some (call.n - 1)) }
    {
        self.calls.after(call).is_some()
    }

    /// The bytes of the queued calls up to the last one that may go in a packet, or those of a packet where they have as many
    /// or more. A call that is to execute after no other goes when its turn comes, where none is held back.
    fn front_bytes(&self) -> usize
        ensures { result ≡ min (front_bytes messages_max self.now.calls.rows) bytes_max }
    {
        container_sizes();
        let mut left = CONTAINER_MESSAGES_MAX;
        let mut bytes = 0;
        for k in 0..self.calls.members(Group::Queued) {
            let Some(call) = self.calls.member(Group::Queued, k) else {
                return bytes;
            };
            bytes += self.call_bytes(call);
            if bytes >= CONTAINER_BYTES_MAX {
                return CONTAINER_BYTES_MAX;
            }
            left = left_behind(self.follows(call), left);
            if left == 0 {
                return bytes;
            }
        }
        bytes
    }

    /// Whether the binding of an open client's temporary key holds all calls back.
    fn holds_back(&self) -> bool
        ensures { result ≡ holds_back self.now.rest }
    {
        self.is_open() && has_unbound(&self.temporary)
    }

    /// The bytes of the queued calls that may go in a packet, or those of a packet where they have as many or more.
    fn queued_bytes(&self) -> usize
        ensures { result ≡ min (front_of self.now) bytes_max }
    {
        if self.holds_back() {
            return 0;
        }
        self.front_bytes()
    }

    /// How many queued calls may go in a packet.
    pub(crate) fn calls_most(&self) -> usize
        ensures count { result ≡ calls_most self.now }
        ensures few { result ≤ messages_max }
    {
        container_sizes();
        if self.holds_back() {
            return 0;
        }
        self.calls
            .members(Group::Queued)
            .min(CONTAINER_MESSAGES_MAX)
    }

    /// How many numbers of calls and of a binding may be in a packet of what waits.
    pub(crate) fn owed_numbers(&self) -> usize
        ensures { result ≡ owed_numbers self.now }
    {
        if_needed(self.needs_binding(), 1) + self.calls_most()
    }

    /// For how many bytes of messages a packet of what waits needs room.
    pub(crate) fn owed_bytes(&self) -> usize
        ensures { result ≡ min (owed_bytes self.now) (bytes_max - container_head) }
    {
        container_sizes();
        let binding = if_needed(self.needs_binding(), MESSAGE_HEAD_BYTES + BODY_BYTES);
        let bytes = self.waiting_bytes() + binding + self.drops_bytes();
        (bytes + self.queued_bytes()).min(BYTES_MAX)
    }
}

/// Whether the binding of a temporary key doesn't hold.
fn has_unbound(temporary: &Option<Temporary>) -> bool
    ensures { result ≡ has_unbound (option_map temporary_in temporary.now) }
{
    match temporary {
        None => false,
        Some(temporary) => match &temporary.binding {
            Binding::Bound => false,
            _ => true,
        },
    }
}

/// How many more calls may go behind one, where so many may with it: as many where it may wait.
fn left_behind(waits: bool, left: usize) -> usize
    requires { 0 < left }
    ensures { result ≡ more_behind waits (left - 1) }
{
    if waits { left } else { left - 1 }
}
