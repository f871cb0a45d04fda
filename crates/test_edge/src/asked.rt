//! What the adapters ask of the library, in order, noted by stand-ins for its sockets and its clock.

ghost use Rattle.std.specs.Prelude.{◌≡◌, true, IfOk};

use mt_edge::{
    Act, Clock, Got, Link, Linked, Net, Put, ReadSource, Sink, Source, SystemClock, TcpNet,
    WriteSink,
};
use std::cell::Cell;
use std::io::{self, ErrorKind, Read, Write};
use std::net::{Ipv4Addr, Net as Sockets, OpenListener, OpenStream, Shutdown, SocketAddr};
use std::os::fd::{AsRawFd, RawFd};
use std::test::Fail;
use std::time::{Clock as Time, Duration};
use test_asserts::same;

/// What was asked of stand-ins: the digits of a number to the base 16, one a call, and what the last call was given.
#[derive(Drop)]
struct Notes {
    calls: Cell<u64>,
    address: Cell<SocketAddr>,
    offered: Cell<usize>,
    is_failing: Cell<bool>,
}

impl Notes {
    fn new(is_failing: bool) -> Notes {
        Notes {
            calls: Cell::new(0),
            address: Cell::new(SocketAddr::from((Ipv4Addr::UNSPECIFIED, 0))),
            offered: Cell::new(0),
            is_failing: Cell::new(is_failing),
        }
    }

    fn add(&self, digit: u64) {
        self.calls
            .set(self.calls.get().wrapping_mul(16).wrapping_add(digit));
    }

    fn addressed(&self, digit: u64, address: SocketAddr) {
        self.add(digit);
        self.address.set(address);
    }

    fn offered(&self, digit: u64, bytes: usize) {
        self.add(digit);
        self.offered.set(bytes);
    }

    /// The answer of a call, by whether calls fail.
    fn answer<T: Drop>(&self, value: T) -> io::Result<T>
        ensures { IfOk result (λ given. given ≡ value) }
    {
        if self.is_failing.get() {
            Err(io::Error::from(ErrorKind::BrokenPipe))
        } else {
            Ok(value)
        }
    }
}

const BIND: u64 = 1;

const CONNECT: u64 = 2;

const ACCEPT: u64 = 3;

const NO_DELAY: u64 = 4;

const SHUT_BOTH: u64 = 5;

const READ: u64 = 6;

const WRITE: u64 = 7;

const FLUSH: u64 = 8;

const OTHER: u64 = 15;

/// Sockets that note what is asked of them.
#[derive(Drop)]
struct NotedSockets<'a> {
    notes: &'a Notes,
}

/// A listener of these.
#[derive(Drop)]
struct NotedListener<'a> {
    notes: &'a Notes,
}

/// A stream of these.
#[derive(Drop)]
struct NotedStream<'a> {
    notes: &'a Notes,
}

impl<'a> Sockets for NotedSockets<'a> {
    type Stream = NotedStream<'a>;

    type Listener = NotedListener<'a>;

    fn bind(&self, addr: SocketAddr) -> io::Result<NotedListener<'a>> {
        self.notes.addressed(BIND, addr);
        self.notes.answer(NotedListener { notes: self.notes })
    }

    fn connect(&self, addr: SocketAddr) -> io::Result<NotedStream<'a>> {
        self.notes.addressed(CONNECT, addr);
        self.notes.answer(NotedStream { notes: self.notes })
    }
}

impl<'a> OpenListener for NotedListener<'a> {
    type Stream = NotedStream<'a>;

    fn accept(&self) -> io::Result<(NotedStream<'a>, SocketAddr)> {
        self.notes.add(ACCEPT);
        self.notes.answer((NotedStream { notes: self.notes }, self.notes.address.get()))
    }
}

impl<'a> OpenStream for NotedStream<'a> {
    fn shutdown(&self, how: Shutdown) -> io::Result<()> {
        self.notes.add(if how == Shutdown::Both {
            SHUT_BOTH
        } else {
            OTHER
        });
        Ok(())
    }

    fn set_nodelay(&self, nodelay: bool) -> io::Result<()> {
        self.notes.add(if nodelay { NO_DELAY } else { OTHER });
        Ok(())
    }
}

impl<'a> Read for NotedStream<'a> {
    fn read(&mut self, into: &mut [u8]) -> io::Result<usize> {
        self.notes.offered(READ, into.len());
        self.notes.answer(into.len().min(1))
    }
}

impl<'a> Write for NotedStream<'a> {
    fn write(&mut self, piece: &[u8]) -> io::Result<usize> {
        self.notes.offered(WRITE, piece.len());
        self.notes.answer(piece.len().min(2))
    }

    fn flush(&mut self) -> io::Result<()> {
        self.notes.add(FLUSH);
        Ok(())
    }
}

impl<'a> AsRawFd for NotedStream<'a> {
    fn as_raw_fd(&self) -> RawFd {
        -1
    }
}

impl<'a> AsRawFd for NotedListener<'a> {
    fn as_raw_fd(&self) -> RawFd {
        -1
    }
}

/// What was asked so far: the digits of the calls, and the bytes that the last one was given. They are forgotten.
fn asked(notes: &Notes) -> (u64, usize) {
    let asked = (notes.calls.get(), notes.offered.get());
    notes.calls.set(0);
    notes.offered.set(0);
    asked
}

/// What was asked so far, and whether this port of 127.0.0.1 was told.
fn asked_of(notes: &Notes, port: u16) -> ((u64, usize), bool) {
    let local = SocketAddr::from((Ipv4Addr::LOCALHOST, port));
    (asked(notes), notes.address.get() == local)
}

/// A net over these sockets.
type NotedNet<'a> = TcpNet<NotedSockets<'a>>;

/// A link of it.
type NotedLink<'a> = <NotedNet<'a> as Net>::L;

fn noted_net(notes: &Notes) -> NotedNet<'_> {
    TcpNet::new(NotedSockets { notes })
}

fn is_link(linked: Linked<NotedLink<'_>>) -> bool {
    match linked {
        Linked::Link(_) => true,
        Linked::Failed => false,
    }
}

/// Whether a connection is taken, which is let go of.
fn accepts(net: &mut NotedNet<'_>) -> bool {
    is_link(net.accept())
}

/// Whether one is made to port 80, likewise.
fn connects(net: &mut NotedNet<'_>) -> bool {
    is_link(net.connect(80))
}

fn asks_once(net: &mut NotedNet<'_>, notes: &Notes) -> Result<(), Fail> {
    let listened = (net.listen(443), asked_of(notes, 443));
    let accepted = (accepts(net), asked(notes));
    let connected = (connects(net), asked_of(notes, 80));
    same(listened, (Act::Ready, ((0x1, 0), true)))?;
    same(accepted, (true, (0x34, 0)))?;
    same(connected, (true, ((0x24, 0), true)))
}

#[test]
fn a_net_asks_once_for_this_machine(_rt: HostRuntime) -> Result<(), Fail> {
    let notes = Notes::new(false);
    let mut net = noted_net(&notes);
    let done = asks_once(&mut net, &notes);
    drop(net);
    done
}

fn fails_once(net: &mut NotedNet<'_>, notes: &Notes) -> Result<(), Fail> {
    let listened = (net.listen(443), asked(notes));
    let connected = (connects(net), asked(notes));
    let accepted = (accepts(net), asked(notes));
    same(listened, (Act::Failed, (0x1, 0)))?;
    same([connected, accepted], [(false, (0x2, 0)), (false, (0, 0))])
}

#[test]
fn a_net_asks_once_where_it_fails(_rt: HostRuntime) -> Result<(), Fail> {
    let notes = Notes::new(true);
    let mut net = noted_net(&notes);
    let done = fails_once(&mut net, &notes);
    drop(net);
    done
}

/// What a link answers to a read of nine bytes, and what was asked then.
fn reads<L: Link>(link: &mut L, notes: &Notes) -> (Got, (u64, usize))
    ensures same_standing { L.standing link.new ≡ L.standing link.old }
{
    let got = link.read(&mut [0u8; 9]);
    (got, asked(notes))
}

/// What it answers to a write of three, likewise.
fn writes<L: Link>(link: &mut L, notes: &Notes) -> (Put, (u64, usize))
    ensures same_standing { L.standing link.new ≡ L.standing link.old }
{
    let put = link.write(b"abc");
    (put, asked(notes))
}

/// What is asked where a connection is taken and calls fail from then on, and what its link answers.
fn broken(net: &mut NotedNet<'_>, notes: &Notes) -> Result<(), Fail> {
    let Linked::Link(link) = net.connect(80) else {
        return Err("no link".into());
    };
    let mut link = link;
    let connected = asked(notes);
    notes.is_failing.set(true);
    let accepted = (accepts(net), asked(notes));
    let (read, written) = (reads(&mut link, notes), writes(&mut link, notes));
    drop(link);
    same((connected, accepted), ((0x24, 0), (false, (0x3, 0))))?;
    same(read, (Got::Failed, (0x6, 9)))?;
    same(written, (Put::Failed, (0x78, 3)))
}

#[test]
fn what_fails_is_asked_once(_rt: HostRuntime) -> Result<(), Fail> {
    let notes = Notes::new(false);
    let mut net = noted_net(&notes);
    let listened = (net.listen(443), asked(&notes));
    let done = broken(&mut net, &notes);
    drop(net);
    done?;
    same(listened, (Act::Ready, (0x1, 0)))
}

/// What is asked where a link is closed, and what it answers then.
fn closed<L: Link>(link: &mut L, notes: &Notes) -> Result<(), Fail>
    ensures closed { (L.standing link.new).closed ≡ true }
{
    link.close();
    let closed = asked(notes);
    let (read, written) = (reads(link, notes), writes(link, notes));
    same(closed, (0x5, 0))?;
    same(read, (Got::Failed, (0, 0)))?;
    same(written, (Put::Failed, (0, 0)))
}

fn hands_on(net: &mut NotedNet<'_>, notes: &Notes) -> Result<(), Fail> {
    let Linked::Link(link) = net.connect(80) else {
        return Err("no link".into());
    };
    let mut link = link;
    let connected = asked(notes);
    let (read, written) = (reads(&mut link, notes), writes(&mut link, notes));
    let closed = closed(&mut link, notes);
    net.done(link);
    closed?;
    same([connected, asked(notes)], [(0x24, 0), (0, 0)])?;
    same(read, (Got::Bytes(1), (0x6, 9)))?;
    same(written, (Put::Took(2), (0x78, 3)))
}

#[test]
fn a_link_hands_on_whole_pieces_once(_rt: HostRuntime) -> Result<(), Fail> {
    let notes = Notes::new(false);
    let mut net = noted_net(&notes);
    let done = hands_on(&mut net, &notes);
    drop(net);
    done
}

#[test]
fn a_source_and_a_sink_hand_on_whole_pieces_once(_rt: HostRuntime) -> Result<(), Fail> {
    let notes = Notes::new(false);
    let mut source = ReadSource::new(NotedStream { notes: &notes });
    let read = (source.read(&mut [0u8; 9]), asked(&notes));
    drop(source);
    let mut sink = WriteSink::new(NotedStream { notes: &notes });
    let written = (sink.write(b"abc"), asked(&notes));
    drop(sink);
    same(read, (Got::Bytes(1), (0x6, 9)))?;
    same(written, (Put::Took(2), (0x78, 3)))
}

/// A clock that stands still, or that can't be read.
#[derive(Drop)]
struct Still {
    is_failing: bool,
}

impl Time for Still {
    fn monotonic(&self) -> io::Result<Duration> {
        Ok(Duration::from_secs(7))
    }

    fn since_1970(&self) -> io::Result<Duration> {
        if self.is_failing {
            return Err(io::Error::from(ErrorKind::BrokenPipe));
        }
        Ok(Duration::new(1_718_000_000, 999_999_999))
    }
}

#[test]
fn the_moment_is_the_second_that_the_library_tells() -> Result<(), Fail> {
    let mut clock = SystemClock::new(Still { is_failing: false });
    same(clock.now().seconds(), 1_718_000_000)?;
    let mut clock = SystemClock::new(Still { is_failing: true });
    same(clock.now().seconds(), 0)?;
    Ok(())
}
