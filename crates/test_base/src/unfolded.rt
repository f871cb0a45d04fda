//! Containers: the worked bodies, and messages that are put together and unfolded again.

ghost use Rattle.std.specs.Prelude.{◌≡◌, ◌<◌, ◌++◌, ◌∷◌, [], List, length, IsTrue, OnErr, IsErr, IfOk, None, Some, Ok};
ghost use Rattle.std.specs.Bool.{OnTrue};
ghost use Rattle.std.specs.List.{AllByRecursion};
ghost use Rattle.service_tl.specs.declared.lists.Message.{Message as Inner};
ghost use Rattle.containers.specs.Container.{AreWithin, IsInner, KeepsRules, begins_container, container_of};
ghost use Rattle.containers.specs.Parts.{parts_of};
ghost use Rattle.containers.specs.Unfolded.{Tells};

use crate::rows::are_so;
use containers::{
    CONTAINER_HEAD_BYTES, ContainerFault, MESSAGE_HEAD_BYTES, Message, Messages, Part, Parts,
    Unfolded, Why, container, container_of_parts, fits, is_container, laws, unfold,
};
use octets::{Memory, Octets};
use std::alloc::Global;
use std::marker::Model;
use std::test::*;
use test_asserts::{holds, holds_at, same, shown, shows, tells};

// Where and why the container in message 100 isn't lawful.
fn fault_of(alloc: Global, body: &[u8]) -> Result<Option<(u32, Why)>, Fail> {
    holds_at(body, is_container(body))?;
    match unfold(alloc, 100, body) {
        Unfolded::Invalid { place, why } => Ok(Some((place, why))),
        Unfolded::Messages(_) => Ok(None),
        Unfolded::Memory => Err(Fail::new("out of memory")),
    }
}

/// The same as `{:?}` shows it.
pub(crate) fn fault(alloc: Global, body: &[u8]) -> Result<String, Fail> {
    Ok(shown(alloc, &fault_of(alloc, body)?)?)
}

// Puts messages together and unfolds them, as one end's packet reaches the other.
fn unfolded_again(alloc: Global, number: u64, messages: &[Message]) -> Result<Unfolded, Memory>
    requires some { 0 < length messages.now }
    requires within { AreWithin messages.now }
    requires inner { AllByRecursion (IsInner number) messages.now }
    ensures { IfOk result (Tells (Ok messages.now)) }
{
    let mut text = Octets::new(alloc);
    container(alloc, messages, &mut text)?;
    laws::packed_is_unfolded();
    Ok(unfold(alloc, number, text.as_slice()))
}

// Whether the message keeps the rules of a container with this number, as a caller looks before it packs.
fn keeps_rules(number: u64, message: &Message) -> bool
    ensures { OnTrue result (KeepsRules number message.now) }
{
    message.body.as_slice().len() % 4 == 0
        && message.number < number
        && !is_container(message.body.as_slice())
}

// The same for all of a list, and they are put together and unfolded.
fn list_unfolded_again(alloc: Global, number: u64, messages: &Messages) -> Result<Unfolded, Memory>
    requires some { 0 < length messages.now }
    requires within { AreWithin messages.now }
    requires rules { AllByRecursion (KeepsRules number) messages.now }
    ensures { IfOk result (Tells (Ok messages.now)) }
{
    let list = messages.as_slice();
    laws::inner_messages();
    unfolded_again(alloc, number, list)
}

// Messages for one container, as they come: what the next one needs is counted.
#[derive(Drop)]
struct Packer {
    messages: Vec<Message>,
    bytes: usize,
}

impl Model for Packer {
    ghost use Rattle.std.specs.Prelude.{◌≡◌, List};
    ghost use Rattle.service_tl.specs.declared.lists.Message.{Message};
    ghost use Rattle.containers.specs.Container.{AreWithin, size_of};

    ghost Value = { List Message };

    ghost view = { λ packer. packer.messages.items };

    ghost invariant = { λ packer. AreWithin packer.messages.items × (packer.bytes ≡ size_of packer.messages.items) };
}

impl Packer {
    fn new(alloc: Global) -> Packer
        ensures { result ≡ [] }
    {
        Packer {
            messages: Vec::new(alloc),
            bytes: CONTAINER_HEAD_BYTES,
        }
    }

    // Takes the message where it fits.
    fn add(&mut self, _alloc: Global, message: Message) -> Result<bool, Memory>
        ensures { IfOk result (λ taken. OnTrue taken (self.new ≡ self.old ++ message ∷ [])) }
    {
        let body = message.body.as_slice().len();
        if !fits(self.messages.len(), self.bytes, body) {
            return Ok(false);
        }
        laws::container_sizes();
        self.messages.push(message)?;
        self.bytes += MESSAGE_HEAD_BYTES + body;
        Ok(true)
    }

    // Puts their container at the end, where there are any.
    fn pack(&self, alloc: Global, into: &mut Octets) -> Result<bool, Memory>
        ensures within { AreWithin self.now }
        ensures packed { IfOk result (λ done. OnTrue done (into.new ≡ into.old ++ container_of self.now)) }
    {
        let messages = self.messages.as_slice();
        if messages.is_empty() {
            return Ok(false);
        }
        container(alloc, messages, into)?;
        Ok(true)
    }
}

// What is asked, the digits of a container in message 100, and where and why it isn't lawful.
const FAULTS: &str = "\
fault dcf8f173 Some((0, Short))\n\
fault dcf8f17300000000 None\n\
fault dcf8f173fd030000 Some((0, TooMany))\n\
fault dcf8f17301000000040000000000000001000000000000 Some((0, Short))\n\
fault dcf8f1730100000004000000000000000100000003000000 Some((0, Odd))\n\
fault dcf8f1730100000004000000000000000100000004000000 Some((0, Short))\n\
fault dcf8f1730100000064000000000000000100000000000000 Some((0, NotBelow))\n\
fault dcf8f1730100000004000000000000000000000008000000dcf8f17300000000 Some((0, Nested))\n\
fault dcf8f173010000000400000000000000010000000000000000000000 Some((1, Extra))\n\
fault dcf8f173020000000400000000000000010000000000000064000000000000000100000000000000 Some((1, NotBelow))\n";

#[test]
fn faults_have_their_places(rt: HostRuntime) -> Result<(), Fail> {
    are_so(rt.alloc(), FAULTS, 10)
}

// A message with number 4 and the body `abcd`, and behind it one with number 8 and none.
fn abcd_and_none(alloc: Global) -> Result<Vec<Message>, Fail> {
    let mut messages = Vec::new(alloc);
    messages.push(made(4, 1, Octets::copy(alloc, b"abcd")?))?;
    messages.push(made(8, 2, Octets::new(alloc)))?;
    Ok(messages)
}

fn made(number: u64, seq: u32, body: Octets) -> Message {
    Message { number, seq, body }
}

// The container of these.
const OF_TWO: &[u8] =
    b"\xdc\xf8\xf1\x73\x02\0\0\0\x04\0\0\0\0\0\0\0\x01\0\0\0\x04\0\0\0abcd\x08\0\0\0\0\0\0\0\x02\0\0\0\0\0\0\0";

#[test]
fn two_are_put_together(rt: HostRuntime) -> Result<(), Fail> {
    let alloc = rt.alloc();
    let messages = abcd_and_none(alloc)?;
    let text = behind_dots(alloc, messages.as_slice());
    drop(messages);
    let text = text?;
    same(
        text.as_slice().split_at_checked(2),
        Some((b"..".as_slice(), OF_TWO)),
    )
}

// Two dots, and messages put together behind them.
fn behind_dots(alloc: Global, messages: &[Message]) -> Result<Octets, Fail> {
    let mut text = Octets::copy(alloc, b"..")?;
    holds(paired(alloc, messages, &mut text)?)?;
    Ok(text)
}

#[test]
fn two_are_unfolded(rt: HostRuntime) -> Result<(), Fail> {
    let alloc = rt.alloc();
    let messages = abcd_and_none(alloc)?;
    let want = shown(alloc, &messages.as_slice());
    drop(messages);
    let want = want?;
    holds(is_container(OF_TWO))?;
    let unfolded = unfold(alloc, 12, OF_TWO);
    let done = are_in(alloc, &unfolded, want.as_str());
    drop(unfolded);
    done
}

// Messages that are shown so are what was unfolded.
fn are_in(alloc: Global, unfolded: &Unfolded, want: &str) -> Result<(), Fail> {
    match unfolded {
        Unfolded::Messages(inner) => shows(alloc, &inner.as_slice(), want),
        Unfolded::Invalid { .. } | Unfolded::Memory => Err(Fail::new("not unfolded")),
    }
}

// The seq of the first inner message, as a caller that copies nothing reads it.
fn first_seq(number: u64, body: &[u8]) -> Option<u32>
    requires { IsTrue (begins_container body.now) }
    ensures none { IsErr (parts_of number body.now) → result ≡ None }
    ensures empty { parts_of number body.now ≡ Ok [] → result ≡ None }
    ensures first { (message : Inner) (others : List Inner) → parts_of number body.now ≡ Ok (message ∷ others) → result ≡ Some message.seq }
{
    let mut parts = Parts::read(number, body).ok()?;
    let part = parts.next()?;
    Some(part.seq)
}

// Puts two messages together where they fit, as a caller does that counts what it took.
fn paired(alloc: Global, pair: &[Message], into: &mut Octets) -> Result<bool, Memory>
    ensures packed { IfOk result (λ done. OnTrue done (into.new ≡ into.old ++ container_of pair.now)) }
    ensures unchanged_on_memory { OnErr result (into.new ≡ into.old) }
{
    let [first, second] = pair else {
        return Ok(false);
    };
    let (first, second) = (first.body.as_slice().len(), second.body.as_slice().len());
    if !fits(0, CONTAINER_HEAD_BYTES, first) {
        return Ok(false);
    }
    if !fits(1, CONTAINER_HEAD_BYTES + MESSAGE_HEAD_BYTES + first, second) {
        return Ok(false);
    }
    container(alloc, pair, into)?;
    Ok(true)
}

// A message that is lent, and the container of it.
const ABCD: Part<'static> = Part {
    number: 4,
    seq: 1,
    body: b"abcd",
};

const OF_ABCD: &[u8] = b"\xdc\xf8\xf1\x73\x01\0\0\0\x04\0\0\0\0\0\0\0\x01\0\0\0\x04\0\0\0abcd";

#[test]
fn lent_messages_are_put_together(rt: HostRuntime) -> Result<(), Fail> {
    let mut text = Octets::new(rt.alloc());
    container_of_parts(rt.alloc(), &[ABCD], &mut text)?;
    same(text.as_slice(), OF_ABCD)
}

// The messages of the container are that one, and no other.
fn is_abcd(parts: &mut Parts<'_>) -> Result<(), Fail> {
    let count = parts.len();
    let is_first = parts.next() == Some(ABCD);
    let is_empty = parts.is_empty();
    let is_last = parts.next().is_none();
    same((count, [is_first, is_empty, is_last]), (1, [true; 3]))
}

#[test]
fn lent_messages_are_read() -> Result<(), Fail> {
    holds(is_container(OF_ABCD))?;
    is_abcd(&mut Parts::read(8, OF_ABCD)?)?;
    same(first_seq(8, OF_ABCD), Some(1))
}

#[test]
fn limits_are_taken() -> Result<(), Fail> {
    let found = [
        fits(1_019, 8, 0),
        fits(1_020, 8, 0),
        fits(0, 8, 1_044_456),
        fits(0, 8, 1_044_457),
        fits(0, usize::MAX, usize::MAX),
    ];
    same(found, [true, false, true, false, false])
}

// The body of a container of 1,020 messages without a body.
fn many_messages(alloc: Global) -> Result<Octets, Memory> {
    let mut body = Octets::copy(alloc, b"\xdc\xf8\xf1\x73\xfc\x03\0\0")?;
    for _ in 0..1_020 {
        body.push_all(alloc, b"\x04\0\0\0\0\0\0\0\x01\0\0\0\0\0\0\0")?;
    }
    Ok(body)
}

#[test]
fn as_many_messages_as_may_be_are_unfolded(rt: HostRuntime) -> Result<(), Fail> {
    let alloc = rt.alloc();
    let body = many_messages(alloc)?;
    holds(is_container(body.as_slice()))?;
    let unfolded = unfold(alloc, 100, body.as_slice());
    let count = match &unfolded {
        Unfolded::Messages(inner) => Some(inner.as_slice().len()),
        Unfolded::Invalid { .. } | Unfolded::Memory => None,
    };
    drop(unfolded);
    same(count, Some(1_020))
}

#[test]
fn faults_are_told(rt: HostRuntime) -> Result<(), Fail> {
    let rows = [
        (Why::Nested, "a container in a container"),
        (Why::NotBelow, "a number that isn't below the container's"),
        (Why::Odd, "a length that isn't a multiple of 4"),
        (Why::Short, "too few bytes"),
        (Why::TooMany, "too many messages"),
        (Why::Extra, "bytes behind the last message"),
    ];
    for (why, want) in rows {
        tells(rt.alloc(), &why, want)?;
    }
    let fault = ContainerFault {
        place: 1,
        why: Why::Extra,
    };
    tells(
        rt.alloc(),
        &fault,
        "bytes behind the last message at message 1 of a container",
    )?;
    Ok(())
}

#[test]
#[tactic(auto, unfolding(containers::specs::Container::begins_container))]
fn packed_is_unfolded_again(rt: HostRuntime) -> Result<(), Fail> {
    let alloc = rt.alloc();
    let body = Octets::copy(alloc, b"abcd")?;
    let mut messages = Vec::new(alloc);
    messages.push(Message {
        number: 4,
        seq: 1,
        body,
    })?;
    match unfolded_again(alloc, 12, messages.as_slice())? {
        Unfolded::Messages(inner) => same(inner.as_slice().len(), 1)?,
        Unfolded::Invalid { .. } | Unfolded::Memory => return Err(Fail::new("not unfolded")),
    }
    Ok(())
}

#[test]
#[tactic(auto, unfolding(containers::specs::Container::begins_container))]
fn list_is_unfolded_again(rt: HostRuntime) -> Result<(), Fail> {
    let alloc = rt.alloc();
    let body = Octets::copy(alloc, b"abcd")?;
    let mut messages = Messages::new(alloc);
    messages.push(
        alloc,
        Message {
            number: 4,
            seq: 1,
            body,
        },
    )?;
    match list_unfolded_again(alloc, 12, &messages)? {
        Unfolded::Messages(inner) => same(inner.as_slice().len(), 1)?,
        Unfolded::Invalid { .. } | Unfolded::Memory => return Err(Fail::new("not unfolded")),
    }
    Ok(())
}

// Whether a message with this seq and no body is taken.
fn is_taken(packer: &mut Packer, alloc: Global, seq: u32) -> Result<bool, Fail> {
    let message = Message {
        number: 4,
        seq,
        body: Octets::copy(alloc, b"")?,
    };
    holds(keeps_rules(100, &message))?;
    Ok(packer.add(alloc, message)?)
}

// As many messages as may be are taken, and no more: the size of their container.
fn packed(packer: &mut Packer, alloc: Global) -> Result<usize, Fail> {
    for seq in 0..1_021 {
        holds(is_taken(packer, alloc, seq)? == (seq < 1_020))?;
    }
    let mut text = Octets::new(alloc);
    holds(packer.pack(alloc, &mut text)?)?;
    Ok(text.as_slice().len())
}

#[test]
fn messages_are_packed_as_they_come(rt: HostRuntime) -> Result<(), Fail> {
    let mut packer = Packer::new(rt.alloc());
    let size = packed(&mut packer, rt.alloc());
    drop(packer);
    same(size?, 16_328)
}
