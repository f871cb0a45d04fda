//! What passes between a client and a server.

use crate::facade::telling::Text;
use kifzaro::{Client, Error, Moment, Octets, Out, Server};
use std::alloc::Global;
use std::test::Fail;
use test_lines::Line;

/// The most room that a line may lend.
const ROOM_MAX: usize = 4096;

/// The packet that the client sent last, the moment, and the client's clock, which tells that moment unless a line set it. The
/// client and the server stand beside it, each by itself: what holds both is dear to prove.
#[derive(Drop)]
pub(crate) struct Way {
    pub(crate) up: Octets,
    pub(crate) now: Moment,
    pub(crate) clock: Moment,
}

impl Way {
    /// Nothing was sent yet.
    pub(crate) fn new(alloc: Global, now: Moment) -> Way {
        Way {
            up: Octets::new(alloc),
            now,
            clock: now,
        }
    }

    // The client's next packet: whether there is one.
    fn polls(&mut self, alloc: Global, client: &mut Client) -> Result<bool, Error> {
        match client.poll_transmit(alloc, self.clock)? {
            Some(packet) => {
                self.up = packet;
                Ok(true)
            }
            None => Ok(false),
        }
    }

    // It reaches the server: the session that it tells of.
    fn goes_up(&self, alloc: Global, server: &mut Server) -> Result<u64, Error> {
        Ok(
            server
                .handle_packet(alloc, self.now, self.up.as_slice())?
                .session,
        )
    }

    // A packet that the server sent reaches the client.
    fn reaches(&self, alloc: Global, client: &mut Client, out: &Out) -> Result<(), Error> {
        client.handle_packet(alloc, self.clock, out.packet.as_slice())
    }

    // The server's next packet reaches the client: whether there is one.
    fn comes_down(
        &self,
        alloc: Global,
        client: &mut Client,
        server: &mut Server,
    ) -> Result<bool, Error> {
        match server.poll_transmit(alloc) {
            Some(out) => {
                self.reaches(alloc, client, &out)?;
                Ok(true)
            }
            None => Ok(false),
        }
    }

    // All that the server has to send: at most ten packets.
    fn all_come_down(
        &self,
        alloc: Global,
        client: &mut Client,
        server: &mut Server,
    ) -> Result<bool, Error> {
        for _ in 0..10 {
            if !self.comes_down(alloc, client, server)? {
                return Ok(true);
            }
        }
        Ok(true)
    }

    // The client's next packet reaches the server, and what the server sends reaches the client.
    fn turns(
        &mut self,
        alloc: Global,
        client: &mut Client,
        server: &mut Server,
    ) -> Result<bool, Error> {
        if self.polls(alloc, client)? {
            self.goes_up(alloc, server)?;
        }
        self.all_come_down(alloc, client, server)
    }

    // Turns until a request is ready, at most six: what the client has to learn first takes a few.
    fn turns_until_asked(
        &mut self,
        alloc: Global,
        client: &mut Client,
        server: &mut Server,
    ) -> Result<bool, Error> {
        for _ in 0..6 {
            if server.ready() > 0 {
                return Ok(true);
            }
            self.turns(alloc, client, server)?;
        }
        Ok(true)
    }

    // The client's packet comes back to it.
    fn comes_back(&self, alloc: Global, client: &mut Client) -> Result<bool, Error> {
        client.handle_packet(alloc, self.clock, self.up.as_slice())?;
        Ok(true)
    }

    // Something passes: whether there was something, where the line told that.
    fn passes(
        &mut self,
        line: &mut Line<'_>,
        client: &mut Client,
        server: &mut Server,
    ) -> Option<Result<bool, Error>> {
        match line.verb {
            "poll" => Some(self.polls(line.alloc, client)),
            "up" => Some(self.is_known(line.alloc, client, server)),
            "down" => Some(self.comes_down(line.alloc, client, server)),
            "back" => Some(self.comes_back(line.alloc, client)),
            "all" => Some(self.all_come_down(line.alloc, client, server)),
            "turns" => Some(self.turns_until_asked(line.alloc, client, server)),
            _ => None,
        }
    }

    // The client's packet reaches the server: whether it tells of the client's session.
    fn is_known(&self, alloc: Global, client: &Client, server: &mut Server) -> Result<bool, Error> {
        Ok(self.goes_up(alloc, server)? == client.session())
    }

    /// Something passes between both, or the client's clock is set: whether the line told that.
    pub(crate) fn has_passed(
        &mut self,
        line: &mut Line<'_>,
        client: &mut Client,
        server: &mut Server,
        text: &mut Text,
    ) -> Result<bool, Fail> {
        if line.verb == "clock" {
            self.clock = Moment::new(line.number()?);
            text.tell("set")?;
            return Ok(true);
        }
        match self.passes(line, client, server) {
            Some(Ok(true)) => text.tell("passed")?,
            Some(Ok(false)) => text.tell("nothing")?,
            Some(Err(error)) => text.tell_error(&error)?,
            None => return Ok(false),
        }
        Ok(true)
    }
}

// How much room a line lends.
fn room_of(line: &mut Line<'_>) -> Result<usize, Fail> {
    Ok((line.small()? as usize).min(ROOM_MAX))
}

// The packet that waits went into room.
fn tells_taken(taken: Result<Option<usize>, Error>, text: &mut Text) -> Result<(), Fail> {
    match taken {
        Ok(Some(len)) => text.tell_number("taken", len as u64),
        Ok(None) => text.tell("nothing"),
        Err(error) => text.tell_error(&error),
    }
}

/// A packet of the client is made, or goes into room, or other bytes come to it: whether the line told that.
pub(crate) fn is_moved(
    client: &mut Client,
    line: &mut Line<'_>,
    now: Moment,
    text: &mut Text,
) -> Result<bool, Fail> {
    match line.verb {
        "make" => text.tell_done("made", client.prepare_transmit(line.alloc, now))?,
        "take" => {
            let (mut room, len) = ([0; ROOM_MAX], room_of(line)?);
            tells_taken(client.take_transmit(&mut room[..len.min(ROOM_MAX)]), text)?;
        }
        "hear" => {
            let bytes = line.bytes()?;
            text.tell_done(
                "heard",
                client.handle_packet(line.alloc, now, bytes.as_slice()),
            )?;
        }
        _ => return Ok(false),
    }
    Ok(true)
}

// Bytes come to a server.
fn hears(server: &mut Server, alloc: Global, now: Moment, bytes: &[u8]) -> Result<(), Error> {
    server.handle_packet(alloc, now, bytes)?;
    Ok(())
}

/// The same of the server.
pub(crate) fn is_moved_down(
    server: &mut Server,
    line: &mut Line<'_>,
    now: Moment,
    text: &mut Text,
) -> Result<bool, Fail> {
    match line.verb {
        "lend" => {
            let (mut room, len) = ([0; ROOM_MAX], room_of(line)?);
            tells_taken(
                server.take_transmit(line.alloc, &mut room[..len.min(ROOM_MAX)]),
                text,
            )?;
        }
        "heard" => {
            let bytes = line.bytes()?;
            text.tell_done("heard", hears(server, line.alloc, now, bytes.as_slice()))?;
        }
        _ => return Ok(false),
    }
    Ok(true)
}
