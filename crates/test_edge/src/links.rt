//! Links, nets and clocks, and std objects that fail.

ghost use Rattle.std.specs.Prelude.{◌≡◌, ◌<◌, ◌+◌, ◌++◌, length, IfSome, IsSomeAnd};
ghost use Rattle.mt_edge.specs.Got.{handed};
ghost use Rattle.mt_edge.specs.Put.{taken};

use msg_ids::Moment;
use mt_edge::{
    Act, Clock, DiskFiles, FileGot, Got, KeyFiles, Link, LinkTold, Linked, ListClock, MemFiles,
    MemLink, MemNet, NamedFile, Net, NetCall, Outcome, Put, ReadSource, Sink, Source, SystemClock,
    TcpNet, WriteSink,
};
use octets::Octets;
use std::alloc::Global;
use std::fs;
use std::io::{self, ErrorKind, Read, Write};
use std::test::Fail;
use test_asserts::{holds, same, shown};

/// What a node does: it reads once and writes once, and hands on what came of both.
fn read_and_write<L: Link>(link: &mut L, into: &mut [u8], piece: &[u8]) -> (Got, Put)
    requires into { 0 < length into.old }
    requires piece { 0 < length piece.now }
    ensures told { IfSome (L.told link.new) (λ after. IsSomeAnd (L.told link.old) (λ before.
        (after.came ≡ before.came ++ handed result.0 into.new) × (after.written ≡ before.written ++ taken result.1 piece.now))) }
    ensures same_standing { L.standing link.new ≡ L.standing link.old }
{
    let got = link.read(into);
    let put = link.write(piece);
    (got, put)
}

/// What a node does: it takes a connection and gives it back, and one call is noted.
fn take_and_give_back<N: Net>(net: &mut N) -> bool
    ensures noted { IfSome (N.calls net.new) (λ after. IsSomeAnd (N.calls net.old) (λ before. length after ≡ length before + 1)) }
{
    match net.accept() {
        Linked::Link(link) => {
            let mut link = link;
            link.close();
            net.done(link);
            true
        }
        Linked::Failed => false,
    }
}

/// What a read gives, and the first bytes then.
fn read<L: Link>(link: &mut L) -> (Got, [u8; 3]) {
    let mut into = [0u8; 8];
    let got = link.read(&mut into);
    (got, [into[0], into[1], into[2]])
}

/// What a write of a piece gives, which isn't empty.
fn write<L: Link>(link: &mut L, piece: &[u8; 4]) -> Put {
    link.write(piece)
}

fn cuts_fails_and_ends(link: &mut MemLink) -> Result<(), Fail> {
    let reads = [read(link), read(link), read(link), read(link)];
    let writes = [write(link, b"abcd"), write(link, b"defg")];
    let last = read(link);
    let faults = link.faults();
    same(
        reads,
        [
            (Got::Bytes(3), *b"hel"),
            (Got::Failed, [0; 3]),
            (Got::Bytes(2), *b"lo\0"),
            (Got::End, [0; 3]),
        ],
    )?;
    same(writes, [Put::Took(3), Put::Failed])?;
    same((last.0, faults), (Got::Failed, 3))
}

#[test]
fn links_cut_fail_and_end(rt: HostRuntime) -> Result<(), Fail> {
    let mut link = MemLink::new(rt.alloc(), b"hello", 3, &[2], 4, 5)?;
    let done = cuts_fails_and_ends(&mut link);
    drop(link);
    done
}

#[test]
fn closed_links_fail(rt: HostRuntime) -> Result<(), Fail> {
    let mut into = [0u8; 4];
    let mut link = MemLink::new(rt.alloc(), b"abc", 2, &[], 8, 4)?;
    link.close();
    let both = read_and_write(&mut link, &mut into, b"x");
    drop(link);
    same(both, (Got::Failed, Put::Failed))
}

/// What a call of a net came to.
fn kind_of(call: &NetCall) -> &'static str {
    match call {
        NetCall::Listen { port: 443, .. } => "listens",
        NetCall::Accept { outcome } => match outcome {
            Outcome::Failed => "no link",
            Outcome::Open => "open link",
            Outcome::Done { told, .. } => told_of(told),
        },
        NetCall::Connect { port: 80, .. } => "connects",
        _ => "another",
    }
}

/// Whether a link came to what the exchange below makes of it.
fn told_of(told: &LinkTold) -> &'static str {
    let is_right = told.came() == b"ab".as_slice()
        && told.left() == b"c".as_slice()
        && told.written() == b"xy".as_slice()
        && told.reads().len() == 1;
    if is_right { "right" } else { "wrong" }
}

/// A connection is taken, read from, written to and given back.
fn exchange(net: &mut MemNet) -> (Got, Put) {
    let mut into = [0u8; 4];
    match net.accept() {
        Linked::Link(link) => {
            let mut link = link;
            let both = read_and_write(&mut link, &mut into, b"xyz");
            link.close();
            net.done(link);
            both
        }
        Linked::Failed => (Got::Failed, Put::Failed),
    }
}

/// A net of one link, whose fourth call fails.
fn net_of_one(alloc: Global) -> Result<MemNet, Fail> {
    let mut links = Vec::new(alloc);
    links.push(MemLink::new(alloc, b"abc", 2, &[], 8, 4)?)?;
    Ok(MemNet::new(alloc, links, &[4], 8)?)
}

fn notes_its_calls(net: &mut MemNet) -> Result<(), Fail> {
    same(net.listen(443), Act::Ready)?;
    same(exchange(net), (Got::Bytes(2), Put::Took(2)))?;
    holds(!take_and_give_back(net))?;
    holds(matches!(net.connect(80), Linked::Failed))?;
    same(net.faults(), 2)?;
    let wanted = ["listens", "right", "no link", "connects"];
    same(net.calls().len(), wanted.len())?;
    for (call, want) in net.calls().iter().zip(wanted) {
        same(kind_of(call), want)?;
    }
    Ok(())
}

#[test]
fn nets_note_their_calls(rt: HostRuntime) -> Result<(), Fail> {
    let mut net = net_of_one(rt.alloc())?;
    let done = notes_its_calls(&mut net);
    drop(net);
    done
}

#[test]
fn clocks_go_on_with_their_last_moment(rt: HostRuntime) -> Result<(), Fail> {
    let mut clock = ListClock::new(rt.alloc(), &[Moment::new(7), Moment::new(9)])?;
    for seconds in [7, 9, 9] {
        same(clock.now().seconds(), seconds)?;
    }
    Ok(())
}

/// A reader and writer that fails, but takes one byte at a time where `is_short`. It passes on at a flush alone.
#[derive(Drop)]
struct Odd {
    is_short: bool,
    fails_flush: bool,
    held: u64,
    passed: u64,
}

impl Read for Odd {
    fn read(&mut self, _into: &mut [u8]) -> io::Result<usize> {
        Err(io::Error::from(ErrorKind::BrokenPipe))
    }
}

impl Write for Odd {
    fn write(&mut self, piece: &[u8]) -> io::Result<usize> {
        if self.is_short && !piece.is_empty() {
            self.held = self.held.saturating_add(1);
            Ok(1)
        } else {
            Err(io::Error::from(ErrorKind::BrokenPipe))
        }
    }

    fn flush(&mut self) -> io::Result<()> {
        if self.fails_flush {
            return Err(io::Error::from(ErrorKind::BrokenPipe));
        }
        self.passed = self.passed.saturating_add(self.held);
        self.held = 0;
        Ok(())
    }
}

fn make_odd(is_short: bool, fails_flush: bool) -> Odd {
    Odd {
        is_short,
        fails_flush,
        held: 0,
        passed: 0,
    }
}

/// What a read gives, and the count of faults then.
fn read_once<R: Read + Drop>(source: ReadSource<R>) -> (Got, u64) {
    let mut source = source;
    let got = source.read(&mut [0u8; 4]);
    (got, source.faults())
}

fn sources_of_std_fail() -> Result<(), Fail> {
    let odd = read_once(ReadSource::new(make_odd(true, false)));
    let empty = read_once(ReadSource::new(b"".as_slice()));
    same([odd, empty], [(Got::Failed, 1), (Got::End, 0)])
}

/// What two writes give, each with the count of faults then, and what the object holds and passed on.
fn write_twice(odd: Odd) -> ([(Put, u64); 2], [u64; 2]) {
    let mut sink = WriteSink::new(odd);
    let first = (sink.write(b"abc"), sink.faults());
    let second = (sink.write(b"bc"), sink.faults());
    let odd = sink.into_inner();
    ([first, second], [odd.held, odd.passed])
}

fn sinks_of_std_fail() -> Result<(), Fail> {
    let failed = [(Put::Failed, 1), (Put::Failed, 2)];
    same(write_twice(make_odd(false, false)), (failed, [0, 0]))?;
    same(write_twice(make_odd(true, true)), (failed, [1, 0]))?;
    let took = [(Put::Took(1), 0), (Put::Took(1), 0)];
    same(write_twice(make_odd(true, false)), (took, [0, 2]))
}

#[test]
fn objects_of_std_that_fail() -> Result<(), Fail> {
    sources_of_std_fail()?;
    sinks_of_std_fail()
}

/// What a read of the file of this name gave, and how many bytes.
fn read_by_name<F: KeyFiles>(files: &mut F, alloc: Global, name: &str) -> (&'static str, usize) {
    match files.read(alloc, name) {
        FileGot::Contents(text) => {
            let text = text.as_slice();
            let told = if text == b"key".as_slice() {
                "key"
            } else {
                "others"
            };
            (told, text.len())
        }
        FileGot::Failed => ("failed", 0),
        FileGot::Memory => ("no memory", 0),
    }
}

/// A file `ring`, whose third read fails.
fn one_file(alloc: Global) -> Result<MemFiles, Fail> {
    let mut files = Vec::new(alloc);
    let name = Octets::copy(alloc, b"ring")?;
    let contents = Octets::copy(alloc, b"key")?;
    files.push(NamedFile { name, contents })?;
    Ok(MemFiles::new(alloc, files, &[3], 4)?)
}

fn files_in_memory(alloc: Global) -> Result<(), Fail> {
    let mut files = one_file(alloc)?;
    let first = read_by_name(&mut files, alloc, "ring");
    let other = read_by_name(&mut files, alloc, "other");
    let third = read_by_name(&mut files, alloc, "ring");
    drop(files);
    same(
        (first, other, third),
        (("key", 3), ("failed", 0), ("failed", 0)),
    )
}

/// What a read gives of so many bytes, in a file of this machine.
fn written_and_read<F: KeyFiles>(
    files: &mut F,
    rt: &HostRuntime,
    name: &str,
    bytes: usize,
) -> Result<(&'static str, usize), Fail> {
    let text = vec![in rt.alloc(); 7u8; bytes]?;
    fs::write(rt, name, text.as_slice())?;
    Ok(read_by_name(files, rt.alloc(), name))
}

fn files_of_this_machine(rt: &HostRuntime) -> Result<(), Fail> {
    let name = "mt_edge_file.tmp";
    fs::write(rt, name, b"key".as_slice())?;
    let mut files = DiskFiles::new(rt);
    same(read_by_name(&mut files, rt.alloc(), name), ("key", 3))?;
    same(
        written_and_read(&mut files, rt, name, 1_048_577)?,
        ("failed", 0),
    )?;
    same(
        written_and_read(&mut files, rt, name, 1_048_576)?,
        ("others", 1_048_576),
    )?;
    fs::remove_file(rt, name)?;
    same(read_by_name(&mut files, rt.alloc(), name), ("failed", 0))
}

#[test]
fn files_are_read_by_name(rt: HostRuntime) -> Result<(), Fail> {
    files_in_memory(rt.alloc())?;
    files_of_this_machine(&rt)
}

#[test]
fn a_file_of_keys_shows_no_byte(rt: HostRuntime) -> Result<(), Fail> {
    let alloc = rt.alloc();
    let name = Octets::copy(alloc, b"")?;
    let contents = Octets::copy(alloc, b"key")?;
    let file = NamedFile { name, contents };
    let text = shown(alloc, &file);
    drop(file);
    holds(!text?.as_str().contains("107"))
}

#[test]
fn what_was_read_of_keys_shows_no_byte(rt: HostRuntime) -> Result<(), Fail> {
    let got = FileGot::Contents(Octets::copy(rt.alloc(), b"key")?);
    let text = shown(rt.alloc(), &got);
    drop(got);
    same(text?.as_str(), "Contents { count: 3, .. }")
}

/// Listens on the first of some ports that isn't taken.
fn free_port<N: Net>(net: &mut N) -> Option<u16> {
    for port in 42_600..42_700 {
        if net.listen(port) == Act::Ready {
            return Some(port);
        }
    }
    None
}

/// Bytes go from one end to the other, and back.
fn speak<A: Link, B: Link>(near: &mut A, far: &mut B) -> Result<(), Fail> {
    let there = (near.write(b"abc"), read(far));
    let back = (far.write(b"de"), read(near));
    same(there, (Put::Took(3), (Got::Bytes(3), *b"abc")))?;
    same(back, (Put::Took(2), (Got::Bytes(2), *b"de\0")))
}

/// Two ends speak; what the near one reads where the far one is closed, and what it reads and writes where it is closed itself.
fn spoken<A: Net, B: Net>(
    other: &mut A,
    near: A::L,
    net: &mut B,
    far: B::L,
) -> Result<(Got, (Got, Put)), Fail> {
    let (mut near, mut far) = (near, far);
    let spoke = speak(&mut near, &mut far);
    far.close();
    net.done(far);
    let ended = near.read(&mut [0u8; 4]);
    near.close();
    let both = read_and_write(&mut near, &mut [0u8; 4], b"f");
    other.done(near);
    spoke?;
    Ok((ended, both))
}

/// The same of an end of a connection that a net takes at its other end.
fn accepted<A: Net, B: Net>(
    other: &mut A,
    near: A::L,
    net: &mut B,
) -> Result<(Got, (Got, Put)), Fail> {
    match net.accept() {
        Linked::Link(far) => spoken(other, near, net, far),
        Linked::Failed => {
            let mut near = near;
            near.close();
            other.done(near);
            Err("no link".into())
        }
    }
}

/// The same of a net that connects to a port on which another one listens, and on which it can't listen too.
fn connected<A: Net, B: Net>(
    other: &mut A,
    net: &mut B,
    port: u16,
) -> Result<(Got, (Got, Put)), Fail> {
    same(other.listen(port), Act::Failed)?;
    match other.connect(port) {
        Linked::Link(near) => accepted(other, near, net),
        Linked::Failed => Err("no connection".into()),
    }
}

#[test]
fn sockets_of_this_machine(rt: HostRuntime) -> Result<(), Fail> {
    let mut net = TcpNet::new(&rt);
    let mut other = TcpNet::new(&rt);
    let both = match free_port(&mut net) {
        Some(port) => connected(&mut other, &mut net, port),
        None => Err("no free port".into()),
    };
    drop(other);
    drop(net);
    same(both?, (Got::End, (Got::Failed, Put::Failed)))
}

#[test]
fn the_clock_of_this_machine(rt: HostRuntime) -> Result<(), Fail> {
    let mut clock = SystemClock::new(&rt);
    let first = clock.now();
    holds(first.seconds() > 1_600_000_000 && clock.now() >= first)?;
    Ok(())
}
