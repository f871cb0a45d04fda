//! Moments, and the numbers and seqs that a sender gives.

ghost use Rattle.std.specs.Prelude.{◌<◌, IfSome};

use msg_ids::{Moment, Numbers};
use std::test::Fail;
use test_asserts::{holds, same};

#[test]
fn moments_end() -> Result<(), Fail> {
    let ends = [
        Moment::new(4_000_000_000).seconds(),
        Moment::new(u64::MAX).seconds(),
    ];
    same(ends, [4_000_000_000; 2])?;
    holds(Moment::new(3) < Moment::new(4))
}

// What a sender gives to a message in this second, content-related or not.
fn given(numbers: &mut Numbers, seconds: u64, content: bool) -> Option<(u64, u32)> {
    numbers.next(Moment::new(seconds), content)
}

#[test]
fn numbers_and_seqs() -> Result<(), Fail> {
    let mut numbers = Numbers::new();
    let five = [
        given(&mut numbers, 0, true),
        given(&mut numbers, 0, false),
        given(&mut numbers, 1, true),
        given(&mut numbers, 0, true),
        given(&mut numbers, 1, false),
    ];
    let wanted = [
        Some((4, 1)),
        Some((8, 2)),
        Some((4294967296, 3)),
        Some((4294967300, 5)),
        Some((4294967304, 6)),
    ];
    same(five, wanted)?;
    let last = given(&mut Numbers::new(), 4_000_000_000, false);
    same(last, Some((17179869184000000000, 0)))
}

#[test]
fn room_falls() -> Result<(), Fail> {
    let mut numbers = Numbers::new();
    let (first, copy) = (numbers.room(), numbers);
    let is_given = given(&mut numbers, 0, true).is_some();
    let rooms = [first, numbers.room(), copy.room()];
    same(rooms, [1_073_741_824, 1_073_741_823, 1_073_741_824])?;
    holds(is_given)
}

// What a sender does: it looks whether there is room, and then numbers two messages.
fn number_two(numbers: &mut Numbers, at: Moment) -> Option<(u64, u64)>
    ensures { IfSome result (λ both. both.0 < both.1) }
{
    if numbers.room() < 2 {
        return None;
    }
    let (first, _) = numbers.next(at, true).unwrap();
    let (second, _) = numbers.next(at, false).unwrap();
    Some((first, second))
}

#[test]
fn two_messages() -> Result<(), Fail> {
    let mut numbers = Numbers::new();
    same(
        number_two(&mut numbers, Moment::new(1)),
        Some((4294967296, 4294967300)),
    )?;
    Ok(())
}
