//! A packet that is filled, in room that was taken before.

ghost use Rattle.std.specs.List.{flat_map};
ghost use Rattle.std.specs.Prelude.{◌≡◌, ◌≤◌, ◌<◌, ◌+◌, ◌*◌, ◌%◌, ◌^◌, ◌++◌, ◌∷◌, [], List, true, is_some, IfOk, IfSome, IfNone, OnSome, IsTrue, IsFalse, length};
ghost use Rattle.msg_ids.specs.Counters.{after_next, next_number, room, seq_of};
ghost use Rattle.service_tl.specs.declared.lists.Message.{Message};
ghost use Rattle.service_tl.specs.Items.{spelling_of};
ghost use Rattle.byteorder.specs.Endian.{little_bytes};
ghost use Rattle.containers.specs.Container.{bytes_max, container_head, message_head, messages_max, row};
ghost use Rattle.envelope.specs.Packet.{sealed_size, to_seal};
ghost use Rattle.packing.specs.Packing.{packed};
ghost use Rattle.client_rules.specs.Asking.{body_bytes_max};
ghost use Rattle.client_rules.specs.Filling.{body_behind};
ghost use Rattle.client_core.specs.Calling.{call_message, wrap_bytes};
ghost use Rattle.client_core.specs.Filled.{CanBeSealed, body_in};
ghost use Rattle.client_core.specs.Draft.{CanBeSaid, HasRoomFor, Holds, TakesUp, enters, filled_up, item_of, needs_answer, nothing_yet, said_bytes, said_message};

use crate::calling::{put_call, sizes_of_calls, wrap_size};
use crate::saying::{Outgoing, needs_answer, said_size, sizes_of_said, spell};
use containers::laws::container_sizes;
use containers::{
    CONTAINER_BYTES_MAX, CONTAINER_HEAD_BYTES, CONTAINER_MESSAGES_MAX, MESSAGE_HEAD_BYTES, fits,
};
use envelope::SEALED_HEAD_BYTES;
use msg_ids::{Moment, Numbers};
use octets::{Buffer, IdList, Memory};
use service_tl::MSG_CONTAINER;
use std::alloc::Global;
use std::marker::Model;

/// What a packet was filled with: how many messages, the last one's number and seq, the packet's body behind room for what
/// a seal puts in front, and the numbers of the calls in it and of the binding.
#[derive(Drop)]
pub(crate) struct Filled {
    pub(crate) count: usize,
    pub(crate) number: u64,
    pub(crate) seq: u32,
    pub(crate) text: Buffer,
    pub(crate) inner: IdList,
}

/// A packet that is filled: its messages so far, as they stand in a container, how many, the numbers of the calls among
/// them and of the binding, and whether an item didn't fit. There is room for what it is to have, so no further item takes
/// memory.
#[derive(Drop)]
pub(crate) struct Draft {
    rows: Buffer,
    count: usize,
    inner: Vec<u64>,
    is_full: bool,
    number: u64,
    seq: u32,
}

impl Model for Draft {
    ghost use Rattle.std.specs.Prelude.{◌≡◌, ◌≤◌, ◌+◌, ◌-◌, ◌*◌, ◌%◌, length, vec_len, vec_capacity};
    ghost use Rattle.containers.specs.Container.{bytes_max, container_head, message_head, messages_max};
    ghost use Rattle.client_core.specs.Draft.{Draft};

    ghost Value = { Draft };

    ghost view = { λ draft. record {
      rows = draft.rows.bytes;
      count = draft.count;
      inner = draft.inner.items;
      is_full = draft.is_full;
      number = draft.number;
      seq = draft.seq;
      room = draft.rows.room;
      numbers = vec_capacity draft.inner - vec_len draft.inner;
    } };

    ghost invariant = { λ draft. (container_head + length draft.rows.bytes ≤ bytes_max)
        × (draft.count ≤ messages_max) × (length draft.rows.bytes % 4 ≡ 0)
        × (message_head * draft.count ≤ length draft.rows.bytes) × (vec_len draft.inner ≤ draft.count) };
}

impl Draft {
    /// No message yet, and room for so many bytes of messages, and so many numbers of calls and of a binding.
    pub(crate) fn new(alloc: Global, bytes: usize, numbers: usize) -> Result<Draft, Memory>
        ensures empty { IfOk result (λ draft. draft ≡ record nothing_yet { room = bytes; numbers = draft.numbers }) }
        ensures numbers { IfOk result (λ draft. numbers ≤ draft.numbers) }
        ensures holds { IfOk result (λ draft. Holds draft []) }
    {
        container_sizes();
        Ok(Draft {
            rows: Buffer::new(alloc, bytes)?,
            count: 0,
            inner: Vec::with_capacity(alloc, numbers)?,
            is_full: false,
            number: 0,
            seq: 0,
        })
    }

    /// Whether a further message with a body of so many bytes fits. The packet is full from then on where it doesn't.
    pub(crate) fn takes(&mut self, size: usize) -> bool
        ensures told { result ≡ enters size self.old }
        ensures kept { IsTrue result → self.new ≡ self.old }
        ensures full { IsFalse result → self.new ≡ filled_up self.old }
    {
        let bytes = CONTAINER_HEAD_BYTES + self.rows.as_slice().len();
        if !self.is_full && fits(self.count, bytes, size) {
            return true;
        }
        self.is_full = true;
        false
    }

    /// Says an item under the next number, where it fits, and whether it does. The packet is full from then on where it
    /// doesn't.
    pub(crate) fn say(&mut self, at: Moment, numbers: &mut Numbers, said: &Outgoing<'_>) -> bool
        requires lawful { CanBeSaid said.now }
        requires numbers { messages_max < self.old.count + room numbers.old }
        requires room { HasRoomFor (message_head + said_bytes said.now) self.old }
        ensures told { result ≡ enters (said_bytes said.now) self.old }
        ensures size { length (spelling_of (item_of said.now)) ≡ said_bytes said.now }
        ensures number { IsTrue result → self.new.number ≡ numbers.new.last }
        ensures counted { IsTrue result → numbers.new ≡ after_next numbers.old at (needs_answer said.now) }
        ensures holds { IsTrue result → (messages : List Message) → Holds self.old messages → Holds self.new (messages ++ said_message at numbers.old said.now ∷ []) }
        ensures inner { IsTrue result → self.new.inner ≡ self.old.inner }
        ensures open { IsTrue result → self.new.is_full ≡ self.old.is_full }
        ensures full { IsFalse result → self.new ≡ filled_up self.old }
        ensures takes { TakesUp (message_head + said_bytes said.now) 0 self.old self.new }
        ensures uncounted { IsFalse result → numbers.new ≡ numbers.old }
        ensures room_lasts { self.old.count + room numbers.old ≤ self.new.count + room numbers.new }
    {
        container_sizes();
        sizes_of_said();
        if !self.takes(said_size(said)) {
            return false;
        }
        let (number, seq) = numbers.next(at, needs_answer(said)).unwrap();
        put_said(&mut self.rows, number, seq, said);
        self.count += 1;
        self.number = number;
        self.seq = seq;
        true
    }

    /// Puts a call under the next number, where it fits: its message identifier and sequence number. The packet is full
    /// from then on where it doesn't.
    pub(crate) fn send(
        &mut self,
        at: Moment,
        numbers: &mut Numbers,
        wrap: Option<u64>,
        body: &[u8],
    ) -> Option<(u64, u32)>
        requires words { length body.now % 4 ≡ 0 }
        requires short { length body.now ≤ body_bytes_max }
        requires numbers { messages_max < self.old.count + room numbers.old }
        requires room { self.old.count < messages_max → HasRoomFor (message_head + (wrap_bytes wrap + length body.now)) self.old }
        requires place { self.old.count < messages_max → 0 < self.old.numbers }
        ensures told { is_some result ≡ enters (wrap_bytes wrap + length body.now) self.old }
        ensures given { IfSome result (λ given. given ≡ (next_number numbers.old.last at, seq_of numbers.old.content_messages true)) }
        ensures counted { OnSome result (numbers.new ≡ after_next numbers.old at true) }
        ensures holds { OnSome result ((messages : List Message) → Holds self.old messages → Holds self.new (messages ++ call_message at numbers.old wrap body.now ∷ [])) }
        ensures inner { OnSome result (self.new.inner ≡ self.old.inner ++ next_number numbers.old.last at ∷ []) }
        ensures kept { OnSome result (self.new.is_full ≡ self.old.is_full) }
        ensures count { OnSome result (self.new.count ≡ self.old.count + 1) }
        ensures size { length (body_behind wrap body.now) ≡ wrap_bytes wrap + length body.now }
        ensures few { OnSome result (self.old.count < messages_max) }
        ensures full { IfNone result (self.new ≡ filled_up self.old) }
        ensures takes { TakesUp (message_head + (wrap_bytes wrap + length body.now)) 1 self.old self.new }
        ensures uncounted { IfNone result (numbers.new ≡ numbers.old) }
        ensures room_lasts { self.old.count + room numbers.old ≤ self.new.count + room numbers.new }
    {
        container_sizes();
        sizes_of_calls();
        if !self.takes(wrap_size(wrap) + body.len()) {
            return None;
        }
        let (number, seq) = numbers.next(at, true).unwrap();
        put_sent(&mut self.rows, number, seq, wrap, body);
        self.inner.push_reserved(number);
        self.count += 1;
        self.number = number;
        self.seq = seq;
        Some((number, seq))
    }

    /// Puts a message under a number that was given, which is among those of the calls in the packet and of the binding.
    /// It was found to fit.
    pub(crate) fn put(&mut self, number: u64, seq: u32, body: &[u8])
        requires fits { enters (length body.now) self.old ≡ true }
        requires words { length body.now % 4 ≡ 0 }
        requires short { length body.now ≤ body_bytes_max }
        requires room { HasRoomFor (message_head + length body.now) self.old }
        requires place { 0 < self.old.numbers }
        ensures takes { TakesUp (message_head + length body.now) 1 self.old self.new }
        ensures holds { (messages : List Message) → Holds self.old messages
            → Holds self.new (messages ++ record { number = number; seq = seq; body = body.now } ∷ []) }
        ensures inner { self.new.inner ≡ self.old.inner ++ number ∷ [] }
        ensures kept { self.new.is_full ≡ self.old.is_full }
        ensures count { self.new.count ≡ self.old.count + 1 }
    {
        container_sizes();
        put_sent(&mut self.rows, number, seq, None, body);
        self.inner.push_reserved(number);
        self.count += 1;
        self.number = number;
        self.seq = seq;
    }

    /// Whether an item didn't fit.
    pub(crate) fn is_full(&self) -> bool
        ensures { result ≡ self.now.is_full }
    {
        self.is_full
    }

    /// What it was filled with, in room for its packet that was taken before. What room the numbers leave over is given up.
    pub(crate) fn finish(self, mut packet: Buffer) -> Filled
        requires empty { packet.bytes ≡ [] }
        requires room { sealed_size (container_head + length self.rows) ≤ packet.room }
        ensures can_be_sealed { CanBeSealed result }
        ensures count { result.count ≡ self.count }
        ensures body { (messages : List Message) → Holds self messages → body_in result ≡ packed messages }
        ensures number { result.number ≡ self.number }
        ensures seq { result.seq ≡ self.seq }
        ensures inner { result.inner ≡ self.inner }
        ensures few { result.count ≤ messages_max }
    {
        let Draft {
            rows,
            count,
            mut inner,
            is_full: _,
            number,
            seq,
        } = self;
        inner.shrink_to_fit();
        put_packet(&mut packet, count, rows.as_slice());
        Filled {
            count,
            number,
            seq,
            text: packet,
            inner: IdList::from(inner),
        }
    }

    /// The number of the last message.
    pub(crate) fn number(&self) -> u64
        ensures { result ≡ self.now.number }
    {
        self.number
    }
}

// Puts a message of a call at the end, as it stands in a container.
fn put_sent(rows: &mut Buffer, number: u64, seq: u32, wrap: Option<u64>, body: &[u8])
    requires short { length body.now ≤ body_bytes_max }
    requires room { message_head + (wrap_bytes wrap + length body.now) ≤ rows.old.room }
    ensures written { rows.new.bytes ≡ rows.old.bytes ++ row (record { number = number; seq = seq; body = body_behind wrap body.now }) }
    ensures left { rows.new.room + message_head + (wrap_bytes wrap + length body.now) ≡ rows.old.room }
    ensures body { length (body_behind wrap body.now) ≡ wrap_bytes wrap + length body.now }
    ensures size { length rows.new.bytes ≡ length rows.old.bytes + message_head + (wrap_bytes wrap + length body.now) }
{
    put_head(rows, number, seq, wrap_size(wrap) + body.len());
    put_call(rows, wrap, body);
}

// Puts a message of this item at the end, as it stands in a container.
fn put_said(rows: &mut Buffer, number: u64, seq: u32, said: &Outgoing<'_>)
    requires lawful { CanBeSaid said.now }
    requires room { message_head + said_bytes said.now ≤ rows.old.room }
    ensures written { rows.new.bytes ≡ rows.old.bytes ++ row (record { number = number; seq = seq; body = spelling_of (item_of said.now) }) }
    ensures left { rows.new.room + message_head + said_bytes said.now ≡ rows.old.room }
    ensures body { length (spelling_of (item_of said.now)) ≡ said_bytes said.now }
    ensures size { length rows.new.bytes ≡ length rows.old.bytes + message_head + said_bytes said.now }
    ensures words { said_bytes said.now % 4 ≡ 0 }
{
    sizes_of_said();
    put_head(rows, number, seq, said_size(said));
    spell(rows, said);
}

// Puts the body of a packet of so many messages as they stand in a container, behind room for what a seal puts in front.
fn put_packet(packet: &mut Buffer, count: usize, rows: &[u8])
    requires few { count ≤ messages_max }
    requires heads { message_head * count ≤ length rows.now }
    requires room { 56 + (container_head + length rows.now) ≤ packet.old.room }
    requires words { length rows.now % 4 ≡ 0 }
    requires empty { packet.old.bytes ≡ [] }
    ensures packet { (messages : List Message) → rows.now ≡ flat_map row messages → count ≡ length messages → to_seal packet.new.bytes ≡ packed messages }
    ensures front { 56 ≤ length packet.new.bytes }
    ensures words { length (to_seal packet.new.bytes) % 4 ≡ 0 }
    ensures short { length (to_seal packet.new.bytes) ≤ container_head + length rows.now }
    ensures room { length packet.new.bytes + packet.new.room ≡ packet.old.room }
{
    packet.push_all(&[0; SEALED_HEAD_BYTES]);
    if count == 1 {
        packet.push_all(&rows[MESSAGE_HEAD_BYTES..]);
        return;
    }
    packet.push_all(&MSG_CONTAINER.to_le_bytes());
    packet.push_all(&(count as u32).to_le_bytes());
    packet.push_all(rows);
}

// Puts the head of a message whose body comes next.
fn put_head(rows: &mut Buffer, number: u64, seq: u32, size: usize)
    requires short { size < 2 ^ 32 }
    requires room { message_head ≤ rows.old.room }
    ensures size { length rows.new.bytes ≡ length rows.old.bytes + message_head }
    ensures written { rows.new.bytes ≡ rows.old.bytes ++ (little_bytes 8 number ++ (little_bytes 4 seq ++ little_bytes 4 size)) }
    ensures left { rows.new.room + message_head ≡ rows.old.room }
{
    rows.push_all(&number.to_le_bytes());
    rows.push_all(&seq.to_le_bytes());
    rows.push_all(&(size as u32).to_le_bytes());
}
