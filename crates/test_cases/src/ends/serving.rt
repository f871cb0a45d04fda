//! A server, and what events make of it.

use crate::ends::parts::{Message, Names, Parts, packet};
use crate::ends::telling::{Text, tell_effects};
use crate::ends::zeros::Zeros;
use draws::StepDraw;
use envelope::{Dir, Refusal, Seal};
use msg_ids::Moment;
use octets::Octets;
use regs_service::{Regs, Service};
use server_core::{Effects, Heard, Reply, Server};
use std::alloc::Global;
use std::test::Fail;
use test_lines::Line;

/// The number of the session of a server's cases.
const SESSION: u64 = 9;

/// The first salt of the first session: the second word of a `StepDraw`.
const SALT: u64 = 12_728_272_447_693_586_010;

/// The packets that the two ends sent last, and the frames of those that were framed.
#[derive(Drop)]
pub(crate) struct Sent {
    pub(crate) up: Octets,
    pub(crate) down: Octets,
    pub(crate) frames: Octets,
}

impl Sent {
    /// Nothing was sent.
    pub(crate) fn new(alloc: Global) -> Sent {
        Sent {
            up: Octets::new(alloc),
            down: Octets::new(alloc),
            frames: Octets::new(alloc),
        }
    }

    /// The first packet that went out in an event is the one that was sent last.
    fn goes_out(&mut self, alloc: Global, effects: &Effects) -> Result<(), Fail> {
        if let Some(out) = effects.out.as_slice().first() {
            self.down = Octets::copy(alloc, out.packet.as_slice())?;
        }
        Ok(())
    }
}

/// A server with the registers, and who speaks to it.
#[derive(Drop)]
pub(crate) struct Served<S: Seal> {
    server: Server<S>,
    service: Regs,
    draw: StepDraw,
    pub(crate) names: Names,
    pub(crate) parts: Parts,
}

impl<S: Seal> Served<S> {
    /// A fresh server, to which session 9 speaks under this key.
    pub(crate) fn new(alloc: Global, seal: S, key: u64) -> Served<S> {
        Served {
            server: Server::new(alloc, seal),
            service: Regs::fresh(alloc),
            draw: StepDraw::new(),
            names: Names {
                key,
                session: SESSION,
                salt: SALT,
            },
            parts: Parts::new(alloc),
        }
    }

    /// Who speaks, and which messages are put together: whether the line told that.
    pub(crate) fn is_prepared(&mut self, line: &mut Line<'_>) -> Result<bool, Fail> {
        match line.verb {
            "session" => self.names.session = line.number()?,
            "salt" => self.names.salt = line.number()?,
            "part" => self.parts.one(line)?,
            "parts" => self.parts.many(line)?,
            _ => return Ok(false),
        }
        Ok(true)
    }

    // A packet comes.
    fn hears(&mut self, alloc: Global, packet: &[u8]) -> Result<Reply, Fail> {
        Ok(
            self.server
                .on_packet(alloc, Moment::new(0), packet, &mut self.draw)?,
        )
    }

    // A message comes at moment 0.
    fn hears_message(&mut self, alloc: Global, message: Message<'_>) -> Result<Effects, Fail> {
        let packet = packet(alloc, self.server.seal(), Dir::Up, self.names, message)?;
        let reply = self.hears(alloc, packet.as_slice())?;
        Ok(effects_of(reply))
    }

    // What a line tells happens; nothing where the line tells no event of a server.
    fn happens(&mut self, line: &mut Line<'_>, sent: &Sent) -> Result<Option<Effects>, Fail> {
        let alloc = line.alloc;
        match line.verb {
            "alone" => {
                let (number, seq) = line.named()?;
                let body = line.bytes()?;
                let effects = self.hears_message(alloc, (number, seq, body.as_slice()))?;
                Ok(Some(effects))
            }
            "together" => {
                let (number, seq) = line.named()?;
                let body = self.parts.container(alloc)?;
                let effects = self.hears_message(alloc, (number, seq, body.as_slice()))?;
                Ok(Some(effects))
            }
            "give" => Ok(Some(effects_of(self.hears(alloc, sent.up.as_slice())?))),
            _ => self.goes_on(line),
        }
    }

    // The same of events in which nothing comes.
    fn goes_on(&mut self, line: &mut Line<'_>) -> Result<Option<Effects>, Fail> {
        let alloc = line.alloc;
        match line.verb {
            "work" => {
                let place = line.number()?;
                Ok(Some(self.runs(alloc, place)?))
            }
            "zeros" => {
                let (place, words) = (line.number()?, line.small()?);
                Ok(Some(self.runs_zeros(alloc, place, words)?))
            }
            "clock" => {
                let now = Moment::new(line.number()?);
                Ok(Some(self.server.tick(alloc, now, &mut self.draw)?))
            }
            "open" => Ok(Some(self.attaches(alloc)?)),
            _ => Ok(None),
        }
    }

    // The ready job of a place runs.
    fn runs(&mut self, alloc: Global, place: u64) -> Result<Effects, Fail> {
        let (server, draw) = (&mut self.server, &mut self.draw);
        works(server, alloc, place, &mut self.service, draw)
    }

    // The same over a service whose reply is so many words of zeros.
    fn runs_zeros(&mut self, alloc: Global, place: u64, words: u32) -> Result<Effects, Fail> {
        let mut service = Zeros { words };
        let (server, draw) = (&mut self.server, &mut self.draw);
        works(server, alloc, place, &mut service, draw)
    }

    // The session is attached to a connection.
    fn attaches(&mut self, alloc: Global) -> Result<Effects, Fail> {
        let Names { key, session, .. } = self.names;
        let (now, draw) = (Moment::new(0), &mut self.draw);
        Ok(self.server.attach(alloc, key, session, now, draw)?)
    }

    // What an event gave, and how many jobs are ready then of how many.
    fn tells(
        &self,
        alloc: Global,
        effects: &Effects,
        sent: &mut Sent,
        text: &mut Text,
    ) -> Result<(), Fail> {
        sent.goes_out(alloc, effects)?;
        tell_effects(alloc, text, self.server.seal(), self.names, effects)?;
        let (ready, all) = (self.server.ready(), self.server.unfinished());
        text.push(format!(in alloc; "{ready} of {all} ready\n")?.as_str())
    }

    /// An event of the server, whose effects are told: whether the line told one.
    pub(crate) fn is_played(
        &mut self,
        line: &mut Line<'_>,
        sent: &mut Sent,
        text: &mut Text,
    ) -> Result<bool, Fail> {
        let Some(effects) = self.happens(line, sent)? else {
            return Ok(false);
        };
        let told = self.tells(line.alloc, &effects, sent, text);
        drop(effects);
        told?;
        Ok(true)
    }

    // A packet comes, and what was heard is told.
    fn hears_and_tells(
        &mut self,
        alloc: Global,
        packet: &[u8],
        sent: &mut Sent,
        text: &mut Text,
    ) -> Result<(), Fail> {
        let reply = self.hears(alloc, packet)?;
        let heard = tell_heard(alloc, &reply, text);
        let effects = effects_of(reply);
        let told = match heard {
            Ok(()) => self.tells(alloc, &effects, sent, text),
            Err(fail) => Err(fail),
        };
        drop(effects);
        told
    }

    /// Bytes come, or the packet of a message that isn't in a container, and what was heard is told: whether the line told that.
    pub(crate) fn is_heard(
        &mut self,
        line: &mut Line<'_>,
        sent: &mut Sent,
        text: &mut Text,
    ) -> Result<bool, Fail> {
        let alloc = line.alloc;
        let packet = match line.verb {
            "raw" => line.bytes()?,
            "heard" => {
                let (number, seq) = line.named()?;
                let body = line.bytes()?;
                let message = (number, seq, body.as_slice());
                packet(alloc, self.server.seal(), Dir::Up, self.names, message)?
            }
            _ => return Ok(false),
        };
        self.hears_and_tells(alloc, packet.as_slice(), sent, text)?;
        Ok(true)
    }

    /// Each proper prefix of the packet of a container comes, the shortest first, and a letter is told of each: whether the
    /// line told that, by the number and the seq of the container.
    pub(crate) fn is_cut(&mut self, line: &mut Line<'_>, text: &mut Text) -> Result<bool, Fail> {
        if line.verb != "cut" {
            return Ok(false);
        }
        let alloc = line.alloc;
        let (number, seq) = line.named()?;
        let body = self.parts.container(alloc)?;
        let message = (number, seq, body.as_slice());
        let packet = packet(alloc, self.server.seal(), Dir::Up, self.names, message)?;
        let packet = packet.as_slice();
        for count in 0..packet.len() {
            let reply = self.hears(alloc, &packet[..count])?;
            let letter = letter(&reply, count);
            drop(reply);
            text.push(letter)?;
        }
        text.push("\n")?;
        Ok(true)
    }
}

// The ready job of this place runs.
fn works<S: Seal, V: Service>(
    server: &mut Server<S>,
    alloc: Global,
    place: u64,
    service: &mut V,
    draw: &mut StepDraw,
) -> Result<Effects, Fail> {
    match usize::try_from(place) {
        Ok(place) if place < server.ready() => {
            Ok(server.work(alloc, place, service, Moment::new(0), draw)?)
        }
        _ => Err(Fail::new("no job")),
    }
}

// What a server heard as a line.
fn tell_heard(alloc: Global, reply: &Reply, text: &mut Text) -> Result<(), Fail> {
    let heard = &reply.heard;
    text.push(format!(in alloc; "{heard:?}\n")?.as_str())
}

// What a packet gave.
fn effects_of(reply: Reply) -> Effects {
    let Reply {
        heard: _,
        out,
        entries,
    } = reply;
    Effects { out, entries }
}

// What a server heard of so many bytes: `S` where it refuses their count, `K` where it refuses their message key.
fn letter(reply: &Reply, bytes: usize) -> &'static str {
    if !reply.out.as_slice().is_empty() || !reply.entries.as_slice().is_empty() {
        return "answered";
    }
    match reply.heard {
        Heard::NotOpened(Refusal::Size { len }) if len == bytes => "S",
        Heard::NotOpened(Refusal::KeyMismatch { .. }) => "K",
        Heard::NotOpened(_) | Heard::Judged { .. } => "another",
    }
}
