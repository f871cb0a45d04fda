//! Connections over TCP on this machine, 127.0.0.1. They tell whether they are closed, and nothing else.

ghost use Rattle.std.specs.Prelude.{◌≡◌, ◌<◌, ◌≤◌, ◌∷◌, [], None, Some, Ok, length, false, true, IfOk, IfErr, IsErr, IfSome, IsSome, IsSomeAnd};
ghost use Rattle.std.specs.Net.Socket.{IsPlainSocket};
ghost use Rattle.mt_edge.specs.Addresses.{IsLocal};
ghost use Rattle.mt_edge.specs.Acts.{Counts as CountsAct};
ghost use Rattle.mt_edge.specs.Nets.{Counts};
ghost use Rattle.mt_edge.specs.Got.{IsWithin, HandsOver, Counts as CountsRead};
ghost use Rattle.mt_edge.specs.Put.{IsWithin as IsPutWithin, TakesFront, Counts as CountsPut};

use crate::act::Act;
use crate::answers::{after_read, after_write, read_from, write_to};
use crate::faults::raised;
use crate::link::Link;
use crate::net::{Linked, Net};
use crate::sink::Put;
use crate::source::Got;
use std::io::{self, ErrorKind, Read, Write};
use std::net::{Ipv4Addr, Net as Sockets, OpenListener, OpenStream, Shutdown, SocketAddr};

/// One end of a connection over TCP. Each piece is flushed as it is written. Once it is closed, reads and writes fail.
#[derive(Debug, Drop)]
pub struct TcpLink<S> {
    stream: S,
    is_closed: bool,
    faults: u64,
}

impl<S: Read + Write + OpenStream + Drop> Link for TcpLink<S> {
    ghost told = { λ _. None };

    ghost standing = { λ link. record { place = 0; closed = link.is_closed } };

    ghost room = { λ _. 0 };

    ghost faults = { λ link. link.faults };

    #[tactic(auto, using(crate::proofs::HandLemmas::none_handed))]
    fn read(&mut self, into: &mut [u8]) -> Got
        requires { 0 < length into.old }
        ensures within { IsWithin result (length into.new) }
        ensures closed { self.old.is_closed ≡ true → result ≡ Got.Failed }
        ensures same_standing { self.new.is_closed ≡ self.old.is_closed }
        ensures never_falls { self.old.faults ≤ self.new.faults }
        ensures counted { CountsRead result self.old.faults self.new.faults }
        // What it hands over is what its stream handed over, where that tells.
        ensures stream { IfSome (S.remaining self.old.stream) (λ before. IsSomeAnd (S.remaining self.new.stream) (λ after. HandsOver result into.new before after)) }
    {
        if self.is_closed {
            self.faults = raised(self.faults);
            return Got::Failed;
        }
        let got = read_from(&mut self.stream, into);
        self.faults = after_read(got, self.faults);
        got
    }

    #[tactic(auto, using(crate::proofs::PutLemmas::front_taken, crate::proofs::PutLemmas::none_taken))]
    fn write(&mut self, piece: &[u8]) -> Put
        requires { 0 < length piece.now }
        ensures within { IsPutWithin result (length piece.now) }
        ensures closed { self.old.is_closed ≡ true → result ≡ Put.Failed }
        ensures same_standing { self.new.is_closed ≡ self.old.is_closed }
        ensures never_falls { self.old.faults ≤ self.new.faults }
        ensures counted { CountsPut result self.old.faults self.new.faults }
        // What it took is what its stream took, where that tells, and a write that failed was tried once.
        ensures stream { TakesFront result piece.now (S.contents self.old.stream) (S.contents self.new.stream) }
    {
        if self.is_closed {
            self.faults = raised(self.faults);
            return Put::Failed;
        }
        let put = write_to(&mut self.stream, piece).put;
        self.faults = after_write(put, self.faults);
        put
    }

    fn close(&mut self) {
        let _ = self.stream.shutdown(Shutdown::Both);
        self.is_closed = true;
    }
}

/// The answer of an attempt, by what std answered. Small writes of the connection aren't held back.
fn linked_of<S: OpenStream + Drop>(answer: io::Result<S>) -> Linked<TcpLink<S>>
    ensures link { IfOk answer (λ stream. result ≡ Linked.Link (record { stream = stream; is_closed = false; faults = 0 })) }
    ensures failed { IfErr answer (λ _. result ≡ Linked.Failed) }
{
    match answer {
        Ok(stream) => {
            let _ = stream.set_nodelay(true);
            Linked::Link(TcpLink {
                stream,
                is_closed: false,
                faults: 0,
            })
        }
        Err(_) => Linked::Failed,
    }
}

/// The count after an attempt.
fn after_attempt<L>(linked: &Linked<L>, faults: u64) -> u64
    ensures counted { Counts linked.now faults result }
    ensures never_falls { faults ≤ result }
{
    match linked {
        Linked::Failed => raised(faults),
        Linked::Link(_) => faults,
    }
}

/// The answer of an act, by what std answered.
pub fn act_of<T>(answer: &io::Result<T>) -> Act
    ensures ready { IfOk answer.now (λ _. result ≡ Act.Ready) }
    ensures failed { IfErr answer.now (λ _. result ≡ Act.Failed) }
{
    match answer {
        Ok(_) => Act::Ready,
        Err(_) => Act::Failed,
    }
}

/// The count after an act.
pub fn after_act(act: Act, faults: u64) -> u64
    ensures counted { CountsAct act faults result }
    ensures never_falls { faults ≤ result }
{
    match act {
        Act::Failed => raised(faults),
        Act::Ready => faults,
    }
}

/// The address of a port of this machine.
fn loopback(port: u16) -> SocketAddr
    ensures address { IsLocal result }
    ensures port { IsPlainSocket result port }
{
    SocketAddr::from((Ipv4Addr::LOCALHOST, port))
}

/// The stream of an answer of std, without the address of its peer.
fn stream_of<S: Drop>(answer: io::Result<(S, SocketAddr)>) -> io::Result<S>
    ensures stream { IfOk answer (λ both. result ≡ Ok both.0) }
    ensures failed { IfErr answer (λ _. IsErr result) }
{
    match answer {
        Ok((stream, _peer)) => Ok(stream),
        Err(error) => Err(error),
    }
}

/// The ports of this machine, 127.0.0.1.
#[derive(Drop)]
pub struct TcpNet<R: Sockets + Drop> {
    sockets: R,
    listener: Option<R::Listener>,
    faults: u64,
}

impl<R: Sockets + Drop> TcpNet<R> {
    /// A net with no fault yet, which listens on no port.
    pub fn new(sockets: R) -> TcpNet<R>
        ensures { ⟦<TcpNet<R> as Net>⟧.faults result ≡ 0 }
    {
        TcpNet {
            sockets,
            listener: None,
            faults: 0,
        }
    }

    /// What std answers to the next connection.
    fn next_stream(&self) -> io::Result<R::Stream>
        ensures none { self.now.listener ≡ None → IsErr result }
    {
        match &self.listener {
            Some(listener) => stream_of(listener.accept()),
            None => Err(io::Error::from(ErrorKind::NotConnected)),
        }
    }
}

impl<R: Sockets + Drop> Net for TcpNet<R> {
    type L = TcpLink<R::Stream>;

    ghost calls = { λ _. None };

    ghost room = { λ _. 0 };

    ghost faults = { λ net. net.faults };

    fn listen(&mut self, port: u16) -> Act {
        let bound = self.sockets.bind(loopback(port));
        let answer = act_of(&bound);
        self.listener = bound.ok();
        self.faults = after_act(answer, self.faults);
        answer
    }

    fn accept(&mut self) -> Linked<TcpLink<R::Stream>> {
        let linked = linked_of(self.next_stream());
        self.faults = after_attempt(&linked, self.faults);
        linked
    }

    fn connect(&mut self, port: u16) -> Linked<TcpLink<R::Stream>> {
        let linked = linked_of(self.sockets.connect(loopback(port)));
        self.faults = after_attempt(&linked, self.faults);
        linked
    }

    fn done(&mut self, link: TcpLink<R::Stream>) {
        drop(link);
    }
}
