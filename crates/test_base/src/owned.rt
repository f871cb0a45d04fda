//! Bytes and numbers that own their memory: what no clause says, and each call once.

ghost use Rattle.std.specs.Prelude.{◌≡◌, ◌<◌, ◌+◌, ◌^◌, ◌++◌, length, OnOk, OnErr};

use octets::{Buffer, IdList, Memory, Octets};
use std::alloc::{AllocError, Global};
use std::test::*;
use test_asserts::{holds, same, tells};

// A copy of bytes has those, and they have two where they are cut.
fn is_copied(text: &mut Octets) -> Result<(), Fail> {
    let copy: Result<Octets, AllocError> = text.clone();
    text.truncate(2);
    are_abcde(copy?)?;
    same(text.as_slice(), b"ab".as_slice())
}

fn are_abcde(text: Octets) -> Result<(), Fail> {
    let are = text.as_slice() == b"abcde".as_slice();
    drop(text);
    holds(are)
}

#[test]
fn bytes_own_their_memory(rt: HostRuntime) -> Result<(), Fail> {
    let mut text = Octets::copy(rt.alloc(), b"abc")?;
    let pushed = text.push_all(rt.alloc(), b"de");
    let done = is_copied(&mut text);
    drop(text);
    done?;
    Ok(pushed?)
}

#[test]
fn bytes_become_a_vec_and_come_back(rt: HostRuntime) -> Result<(), Fail> {
    let alloc = rt.alloc();
    let bytes = Octets::copy(alloc, b"abc")?.into_vec();
    same(Octets::from(bytes).as_slice(), b"abc".as_slice())?;
    same(Octets::new(alloc).as_slice().len(), 0)?;
    Ok(())
}

// A copy of numbers has these.
fn are_copied(list: &IdList, numbers: &[u64]) -> Result<(), Fail> {
    let copy = list.clone()?;
    let are = copy.ids() == numbers;
    drop(copy);
    holds(are)
}

// Two numbers, and a third behind them.
fn three_numbers(alloc: Global) -> Result<IdList, Memory> {
    let mut list = IdList::new(alloc);
    list.push_all(alloc, &[3, u64::MAX])?;
    list.push_all(alloc, &[4])?;
    Ok(list)
}

#[test]
fn numbers_own_their_memory(rt: HostRuntime) -> Result<(), Fail> {
    let list = three_numbers(rt.alloc())?;
    let done = are_copied(&list, &[3, u64::MAX, 4]);
    drop(list);
    done
}

#[test]
fn numbers_come_from_a_vec_and_from_a_slice(rt: HostRuntime) -> Result<(), Fail> {
    let list = IdList::from(vec![in rt.alloc(); 7]?);
    let is_seven = list.ids() == [7].as_slice();
    drop(list);
    let list = IdList::copy(rt.alloc(), &[4])?;
    let is_four = list.ids() == [4].as_slice();
    drop(list);
    same([is_seven, is_four], [true, true])
}

// Puts two parts behind a text, both or none, as a crate above does.
fn put(alloc: Global, text: &mut Octets, front: &[u8], back: &[u8]) -> Result<(), Memory>
    requires { length front.now + length back.now < 2 ^ 32 }
    ensures appended { OnOk result (text.new ≡ text.old ++ (front.now ++ back.now)) }
    ensures unchanged_on_memory { OnErr result (text.new ≡ text.old) }
{
    let mut buffer = Buffer::after(alloc, text, front.len() + back.len())?;
    buffer.push_all(front);
    buffer.push_all(back);
    *text = buffer.into_octets();
    Ok(())
}

#[test]
fn a_buffer_is_filled(rt: HostRuntime) -> Result<(), Fail> {
    let mut text = Octets::copy(rt.alloc(), b"ab")?;
    let done = put(rt.alloc(), &mut text, b"cd", b"e");
    are_abcde(text)?;
    done?;
    let mut buffer = Buffer::new(rt.alloc(), 2)?;
    let done = is_full(&mut buffer, rt.alloc());
    drop(buffer);
    done
}

// A buffer of two bytes takes a third, and is full.
fn is_full(buffer: &mut Buffer, alloc: Global) -> Result<(), Fail> {
    buffer.reserve(alloc, 3)?;
    buffer.push_all(b"xyz");
    same(buffer.as_slice(), b"xyz".as_slice())?;
    same(buffer.room(), 0)
}

#[test]
fn memory_is_told(rt: HostRuntime) -> Result<(), Fail> {
    tells(rt.alloc(), &Memory, "out of memory")?;
    Ok(())
}
