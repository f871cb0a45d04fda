//! Kept replies: a caller's try, the worked rows, and each call once. The rows are steps, which an outbox does one after the
//! other.

ghost use Rattle.std.specs.Prelude.{◌≡◌, ◌≤◌, true, false, Ok, length, OnErr};
ghost use Rattle.outbox.specs.Replies.{kept_bytes_max, with_kept, with_room_for};

use crate::steps::{Plays, Step, are_played, number, show, zeros};
use octets::Memory;
use outbox::{Body, Bytes, KEPT_BYTES_MAX, KEPT_REPLIES_MAX, Kept, Outbox};
use std::alloc::Global;
use std::test::Fail;
use test_asserts::{same, told};

// Keeps a reply where it fits, and says whether it did; else the oldest one is dropped.
fn keep_or_drop(outbox: &mut Outbox, alloc: Global, kept: Kept) -> Result<bool, Memory>
    requires { length kept.body ≤ kept_bytes_max }
    ensures kept { result ≡ Ok true → outbox.new.replies ≡ with_kept kept outbox.old.replies }
    ensures dropped { result ≡ Ok false → outbox.new.replies ≡ with_room_for (length kept.body) outbox.old.replies }
    ensures unchanged_on_memory { OnErr result (outbox.new ≡ outbox.old) }
{
    if outbox.make_room(kept.body.len()).is_some() {
        return Ok(false);
    }
    outbox.reserve(alloc, 1)?;
    outbox.keep(kept);
    Ok(true)
}

// The number of the reply to a call, in a copy that lost the reply of another number.
fn number_in_copy(
    outbox: &Outbox,
    alloc: Global,
    call: u64,
    other: u64,
) -> Result<Option<u64>, Memory> {
    let mut copy = outbox.copy(alloc)?;
    copy.ack(other);
    Ok(copy.by_call(call).map(|kept| kept.number))
}

// The reply to the call of this place, of 262,156 bytes, whose number is one more: which reply was dropped for it, and whether it
// is kept.
fn kept_or_dropped(
    outbox: &mut Outbox,
    alloc: Global,
    place: u64,
    body: &Body,
) -> Result<(Option<u64>, bool), Fail> {
    if body.len() > KEPT_BYTES_MAX {
        return Err(Fail::new("too long"));
    }
    let dropped = outbox.make_room(body.len());
    let call = place.wrapping_mul(4);
    let kept = Kept {
        call,
        number: call.wrapping_add(1),
        seq: 1,
        body: body.copy()?,
    };
    if kept.body.len() > KEPT_BYTES_MAX {
        return Err(Fail::new("too long"));
    }
    Ok((dropped, keep_or_drop(outbox, alloc, kept)?))
}

// A body of 262,156 bytes.
fn great_body(alloc: Global) -> Result<Body, Fail> {
    let zeros = zeros(alloc, 262_144)?;
    let bytes = Bytes::copy_from_slice(alloc, zeros.as_slice())?;
    Ok(Body::shared([0; 12], bytes))
}

// The reply to the call of a place: which reply was dropped for it, and whether it wasn't kept.
fn keeps(
    outbox: &mut Outbox,
    alloc: Global,
    place: u64,
    body: &Body,
    text: &mut String,
) -> Result<(), Fail> {
    let (dropped, kept) = kept_or_dropped(outbox, alloc, place, body)?;
    if let Some(call) = dropped {
        text.push_str(format!(in alloc; "{call} for {place}, ")?.as_str())?;
    }
    if !kept {
        text.push_str(format!(in alloc; "not {place}, ")?.as_str())?;
    }
    Ok(())
}

fn keeps_all(
    outbox: &mut Outbox,
    alloc: Global,
    count: u64,
    body: &Body,
    text: &mut String,
) -> Result<(), Fail> {
    for k in 0..count {
        keeps(outbox, alloc, k.wrapping_add(1), body, text)?;
    }
    Ok(())
}

// The replies to so many calls: which were dropped for which, and how many are kept.
fn kept_all(outbox: &mut Outbox, alloc: Global, count: u64) -> Result<String, Fail> {
    let mut text = String::new(alloc);
    let body = great_body(alloc)?;
    let done = keeps_all(outbox, alloc, count, &body, &mut text);
    drop(body);
    done?;
    text.push_str(told(alloc, &outbox.len())?.as_str())?;
    Ok(text)
}

fn copied(outbox: &Outbox, alloc: Global, call: u64, other: u64) -> Result<String, Fail> {
    show(alloc, &number_in_copy(outbox, alloc, call, other)?)
}

impl Plays for Outbox {
    fn begun(alloc: Global) -> Result<Outbox, Fail> {
        Ok(Outbox::new(alloc)?)
    }

    fn played(&mut self, alloc: Global, step: Step<'_>) -> Result<String, Fail> {
        let [first, second, ..] = step.numbers;
        match step.verb {
            "keep" => kept_all(self, alloc, first),
            "bytes" => number(alloc, self.bytes() as u64),
            "copied" => copied(self, alloc, first, second),
            "ack" => show(alloc, &self.ack(first)),
            "at" => show(alloc, &self.at(first as usize).map(|kept| kept.call)),
            "call" => show(alloc, &self.by_call(first).map(|kept| kept.number)),
            "number" => show(alloc, &self.by_number(first).map(|kept| kept.call)),
            _ => Err(Fail::new("no step")),
        }
    }
}

const SEVENTEEN: &str = "\
keep 17 = 4 for 16, 8 for 17, 15\n\
bytes = 3932340\n\
at 0 = Some(12)\n\
at 1 = Some(16)\n\
at 2 = Some(20)\n\
at 3 = Some(24)\n\
ack 17 = Some(16)\n\
ack 17 = None\n\
bytes = 3670184\n\
call 16 = None\n\
call 20 = Some(21)\n\
number 21 = Some(20)\n\
copied 68 13 = Some(69)\n";

#[test]
fn seventeen_replies(rt: HostRuntime) -> Result<(), Fail> {
    same((KEPT_REPLIES_MAX, KEPT_BYTES_MAX), (4_096, 4_194_304))?;
    are_played::<Outbox>(rt.alloc(), SEVENTEEN)
}
