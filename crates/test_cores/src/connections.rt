//! One connection over memory.

ghost use Rattle.std.specs.Prelude.{◌≢◌, IsSome, Some};
ghost use Rattle.auth_keys.specs.Rings.{entry_of};

use draws::StepDraw;
use envelope::{Dir, Envelope, MtSeal, Seal};
use msg_ids::Moment;
use mt_edge::{Link, Linked, ListClock, MemLink, MemNet, Net, NetCall, Outcome};
use octets::{Memory, Octets};
use regs_service::{Regs, Service};
use server_core::{Plain, Server};
use server_node::{Conn, ConnEnd, serve_one};
use std::alloc::Global;
use std::test::*;
use test_asserts::{holds, same};
use test_keys::{KEY_ID, ring};

// The call `add x 5`.
const BODY: &[u8] = b"\x01\x2c\x1b\x0a\x01x\0\0\x05\0\0\0\0\0\0\0";

// The call's packet under number 4 and seq 1 in session 9, with salt 0.
fn sealed<S: Seal>(alloc: Global, seal: &S) -> Result<Octets, Memory>
    requires { IsSome (entry_of KEY_ID (S.keys seal.now)) }
{
    let envelope = Envelope {
        key: KEY_ID,
        salt: 0,
        session: 9,
        number: 4,
        seq: 1,
        body: Octets::copy(alloc, BODY)?,
    };
    seal.seal(alloc, Dir::Up, &envelope, &mut StepDraw::new())
}

// What one connection brings: the start of the intermediate form, and that packet in a frame.
fn brought(alloc: Global, seal: &MtSeal) -> Result<Octets, Fail> {
    if !seal.has(KEY_ID) {
        return Err(Fail::new("no key"));
    }
    let packet = sealed(alloc, seal)?;
    let mut text = Octets::copy(alloc, b"\xee\xee\xee\xee\x58\0\0\0")?;
    text.push_all(alloc, packet.as_slice())?;
    Ok(text)
}

// What a connection that brings it came to over memory, where these calls of its link fail, and the net that it was of.
fn served(alloc: Global, failing: &[u64]) -> Result<(ConnEnd, MemNet), Fail> {
    let seal = MtSeal::new(ring(alloc, "perm")?);
    let text = brought(alloc, &seal)?;
    let link = MemLink::new(alloc, text.as_slice(), 100, failing, 1_000, 10)?;
    ended(alloc, seal, link, &mut None)
}

// What a connection over this link came to, where so many packets are left to be answered, and the net that it was of.
fn ended(
    alloc: Global,
    seal: MtSeal,
    link: MemLink,
    left: &mut Option<u64>,
) -> Result<(ConnEnd, MemNet), Fail>
    requires { left.old ≢ Some 0 }
{
    let mut clock = ListClock::new(alloc, &[Moment::new(0)])?;
    let mut links = Vec::new(alloc);
    links.push(link)?;
    let mut net = MemNet::new(alloc, links, &[], 8)?;
    let Linked::Link(link) = net.accept() else {
        return Err(Fail::new("no link"));
    };
    let (mut link, end) = spoken(alloc, seal, Conn::new(link), &mut clock, left);
    link.close();
    net.done(link);
    Ok((end, net))
}

// What such a connection came to, and its link again. Nothing here may fail, so that the server is let go of at one place.
fn spoken(
    alloc: Global,
    seal: MtSeal,
    conn: Conn<MemLink>,
    clock: &mut ListClock,
    left: &mut Option<u64>,
) -> (MemLink, ConnEnd)
    requires { left.old ≢ Some 0 }
{
    let mut server = Server::new(alloc, seal);
    let mut draw = StepDraw::new();
    let mut service = Regs::fresh(alloc);
    let mut desk = Plain {
        server: &mut server,
        draw: &mut draw,
    };
    let (link, end) = serve_one(alloc, conn, &mut desk, &mut service, clock, left);
    drop(server);
    drop(service);
    (link, end)
}

// What was written over the connection of a net.
fn written(net: &MemNet) -> &[u8] {
    match net.calls().first() {
        Some(
            NetCall::Accept {
                outcome: Outcome::Done { told, .. },
            },
        ) => told.written(),
        _ => &[],
    }
}

// Whether these are two frames of the intermediate form, of 168 and 104 bytes.
fn are_two_frames(text: &[u8]) -> bool {
    text.len() == 280 && text.starts_with(b"\xa8\0\0\0") && text[172..].starts_with(b"\x68\0\0\0")
}

// A session's first packet is answered, and then its attach.
#[test]
fn a_session_is_answered_and_attached(rt: HostRuntime) -> Result<(), Fail> {
    let (end, net) = served(rt.alloc(), &[])?;
    same((end, are_two_frames(written(&net))), (ConnEnd::Ended, true))?;
    Ok(())
}

// A read, two writes of the answer, two of the attach, and a read that comes to the end: whichever fails ends it.
#[test]
fn each_call_that_fails_ends_it(rt: HostRuntime) -> Result<(), Fail> {
    for call in 1..=7u64 {
        let (end, _) = served(rt.alloc(), &[call])?;
        same(end == ConnEnd::LinkFault, call <= 6)?;
    }
    Ok(())
}

// The start of the intermediate form, and three packets under a key that isn't known, each in a frame: one piece.
fn three_packets(alloc: Global) -> Result<Octets, Fail> {
    let mut text = Octets::copy(alloc, b"\xee\xee\xee\xee")?;
    for _ in 0..3 {
        text.push_all(alloc, b"\x58\0\0\0")?;
        text.push_all(alloc, &[1; 88])?;
    }
    Ok(text)
}

// Each is answered by the transport error, -404, in a frame. Of three packets in one piece as many are answered as are left; the
// read that comes to the end follows only where they are fewer.
#[test]
fn as_many_packets_as_are_left(rt: HostRuntime) -> Result<(), Fail> {
    let alloc = rt.alloc();
    let text = three_packets(alloc)?;
    let error = b"\x04\0\0\0\x6c\xfe\xff\xff";
    for (count, answered, end) in [
        (1, 1, ConnEnd::Stopped),
        (2, 2, ConnEnd::Stopped),
        (3, 3, ConnEnd::Stopped),
        (4, 3, ConnEnd::Ended),
    ] {
        let link = MemLink::new(alloc, text.as_slice(), 1_000, &[], 1_000, 10)?;
        let mut left = Some(count);
        let (came_to, net) = ended(alloc, MtSeal::new(ring(alloc, "perm")?), link, &mut left)?;
        same(came_to, end)?;
        same(left, Some(count - answered))?;
        same(written(&net).len() as u64, 8 * answered)?;
        holds(written(&net).starts_with(error.as_slice()))?;
    }
    Ok(())
}
