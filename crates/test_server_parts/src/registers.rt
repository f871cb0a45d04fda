//! The worked rows of the registers, as bytes of requests and replies in hexadecimal digits, and what a server does with a
//! service.

ghost use Rattle.std.specs.Prelude.{◌≡◌, List, [], ◌∷◌, ◌++◌, IfOk, OnErr};
ghost use Rattle.regs_service.specs.Served.{Served, Ran, state_after, requests_of};

use octets::{Memory, Octets};
use regs_service::{NoMemory, Regs, Service, is_register_name, laws};
use std::alloc::Global;
use std::test::*;
use test_asserts::{holds, same, same_at};

// One more run of a server that keeps what it served.
fn one_more<V: Service>(alloc: Global, service: &mut V, request: &[u8]) -> Result<Octets, NoMemory>
    ensures goes_on { (runs : List Ran) → Served V.step V.fresh_state runs
        → service.old ≡ state_after V.step V.fresh_state (requests_of runs)
        → IfOk result (λ reply. Served V.step V.fresh_state (runs ++ record { request = request.now; reply = reply } ∷ [])) }
    ensures state { (runs : List Ran)
        → service.old ≡ state_after V.step V.fresh_state (requests_of runs)
        → IfOk result (λ reply. service.new ≡ state_after V.step V.fresh_state (requests_of (runs ++ record { request = request.now; reply = reply } ∷ []))) }
    ensures failed { OnErr result (service.new ≡ service.old) }
{
    laws::served_grows::<V>();
    service.run(alloc, request)
}

// A run that failed, then another on a copy: the second alone was served.
fn fails_and_goes_on<V: Service>(
    alloc: Global,
    first: &[u8],
    second: &[u8],
) -> Result<Octets, Memory>
    ensures { IfOk result (λ reply. Served V.step V.fresh_state (record { request = second.now; reply = reply } ∷ [])) }
{
    let mut service = V::fresh(alloc);
    if service.run(alloc, first).is_ok() {
        return Err(Memory);
    }
    let mut copy = service.copy(alloc)?;
    Ok(copy.run(alloc, second)?)
}

const GET_X: &[u8] = b"\x02\x2c\x1b\x0a\x01x\0\0";

const ADD_X_5: &[u8] = b"\x01\x2c\x1b\x0a\x01x\0\0\x05\0\0\0\0\0\0\0";

const ADD_X_ALL: &[u8] = b"\x01\x2c\x1b\x0a\x01x\0\0\xff\xff\xff\xff\xff\xff\xff\xff";

const VALUE_0: &[u8] = b"\x03\x2c\x1b\x0a\0\0\0\0\0\0\0\0";

const VALUE_5: &[u8] = b"\x03\x2c\x1b\x0a\x05\0\0\0\0\0\0\0";

const TOO_MANY: &[u8] = b"\x19\xca\x44\x21\x90\x01\0\0\x08TOO_MANY\0\0\0";

// Requests to the registers, one after the other, and their replies: nothing, `get x`, `add x 5`, `get x`, no request, `add x` of
// 2^64 - 1, `get x`; then a name in the long form with padding that isn't zeros; then a byte too many, a byte too few, no name,
// names of 32 and of 33 bytes, and a capital.
const RUNS: &str = " 19ca4421900100000b4241445f52455155455354\n\
022c1b0a01780000 032c1b0a0000000000000000\n\
012c1b0a017800000500000000000000 032c1b0a0500000000000000\n\
022c1b0a01780000 032c1b0a0500000000000000\n\
00000000 19ca4421900100000b4241445f52455155455354\n\
012c1b0a01780000ffffffffffffffff 19ca44219001000009544f4f5f4c415247450000\n\
022c1b0a01780000 032c1b0a0500000000000000\n\
022c1b0afe01000078070809 032c1b0a0500000000000000\n\
022c1b0a0178000000 19ca4421900100000b4241445f52455155455354\n\
022c1b0a017800 19ca4421900100000b4241445f52455155455354\n\
022c1b0a00000000 19ca4421900100000b4241445f52455155455354\n\
022c1b0a206162636465666768696a6b6c6d6e6f707172737475767778797a303132333435000000 032c1b0a0000000000000000\n\
022c1b0a216162636465666768696a6b6c6d6e6f707172737475767778797a303132333435360000 19ca4421900100000b4241445f52455155455354\n\
022c1b0a01580000 19ca4421900100000b4241445f52455155455354\n";

// The reply to a request that is foreseen, and that comes, in hexadecimal digits.
fn foreseen(alloc: Global, regs: &Regs, request: &[u8]) -> Result<String, Fail> {
    let reply = regs.foresee(alloc, request)?;
    let digits = hex::encode(alloc, reply.as_slice());
    drop(reply);
    Ok(digits?)
}

fn reply(alloc: Global, regs: &mut Regs, request: &[u8]) -> Result<String, Fail> {
    let reply = regs.run(alloc, request)?;
    let digits = hex::encode(alloc, reply.as_slice());
    drop(reply);
    Ok(digits?)
}

// The reply to a request is foreseen so, and comes.
fn replies(
    alloc: Global,
    regs: &mut Regs,
    row: &str,
    request: &[u8],
    want: &str,
) -> Result<(), Fail> {
    same_at(row, foreseen(alloc, regs, request)?.as_str(), want)?;
    same_at(row, reply(alloc, regs, request)?.as_str(), want)
}

fn is_run(alloc: Global, regs: &mut Regs, row: &str) -> Result<(), Fail> {
    let (request, want) = row.split_once(' ').ok_or("a request and a reply")?;
    match hex::decode(alloc, request) {
        Ok(request) => replies(alloc, regs, row, request.as_slice(), want),
        Err(_) => Err(Fail::new("digits")),
    }
}

fn are_run(alloc: Global, regs: &mut Regs) -> Result<(), Fail> {
    for row in RUNS.lines() {
        is_run(alloc, regs, row)?;
    }
    one_more_on_copy(alloc, regs)
}

#[test]
fn sums_and_refusals(rt: HostRuntime) -> Result<(), Fail> {
    let mut regs = Regs::fresh(rt.alloc());
    let done = are_run(rt.alloc(), &mut regs);
    drop(regs);
    done?;
    same(RUNS.lines().count(), 14)
}

#[test]
fn names_of_registers(rt: HostRuntime) -> Result<(), Fail> {
    holds(is_register_name(b"x"))?;
    holds(fails_and_goes_on::<Regs>(rt.alloc(), ADD_X_5, GET_X).is_err())
}

// A copy replies to `get x`.
fn one_more_on_copy(alloc: Global, regs: &Regs) -> Result<(), Fail> {
    let mut copy = regs.copy(alloc)?;
    let reply = one_more(alloc, &mut copy, GET_X);
    drop(copy);
    same(reply?.as_slice(), VALUE_5)
}

// The request that adds 5 to the register of four letters that this number stands for.
fn request_of(number: u32) -> [u8; 20] {
    let mut request = *b"\x01\x2c\x1b\x0a\x04aaaa\0\0\0\x05\0\0\0\0\0\0\0";
    let [low, high, ..] = number.to_le_bytes();
    request[5] = b'a' + low % 16;
    request[6] = b'a' + low / 16;
    request[7] = b'a' + high % 16;
    request[8] = b'a' + high / 16;
    request
}

// A reply of the registers.
fn is_reply(alloc: Global, regs: &mut Regs, request: &[u8], want: &[u8]) -> Result<(), Fail> {
    let reply = regs.run(alloc, request)?;
    let done = same(reply.as_slice(), want);
    drop(reply);
    done
}

// 65,536 names of four letters each, whose sums are 5. Behind them comes another name, and then an add to the first one.
fn have_an_end(alloc: Global, regs: &mut Regs) -> Result<(), Fail> {
    for k in 0..65_536_u32 {
        is_reply(alloc, regs, &request_of(k), VALUE_5)?;
    }
    is_reply(alloc, regs, ADD_X_5, TOO_MANY)?;
    same(regs.names(), 65_536)?;
    is_reply(alloc, regs, ADD_X_ALL, TOO_MANY)?;
    is_reply(alloc, regs, GET_X, VALUE_0)?;
    let none = b"\x01\x2c\x1b\x0a\x04aaaa\0\0\0\0\0\0\0\0\0\0\0";
    is_reply(alloc, regs, none, VALUE_5)
}

#[test]
fn names_have_an_end(rt: HostRuntime) -> Result<(), Fail> {
    let mut regs = Regs::fresh(rt.alloc());
    let done = have_an_end(rt.alloc(), &mut regs);
    drop(regs);
    done
}
