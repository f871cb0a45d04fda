//! A case: its lines in order, over a server and a client.

ghost use Rattle.std.specs.Prelude.{◌≡◌, IfOk};
ghost use Rattle.client_core.specs.Holding.{kept_of};
ghost use Rattle.client_core.specs.Keys.{HasKeys, keys_in};

use crate::ends::batching::{is_linked, is_run};
use crate::ends::serving::{Sent, Served};
use crate::ends::talking::{
    is_flushed, is_told, is_wished, joins, leaves, packet_of_line, packets_of_sessions, takes_all,
};
use crate::ends::telling::Text;
use client_core::Holder;
use draws::{Seeded, StepDraw};
use envelope::{ClearSeal, MtSeal, Seal};
use mt_edge::MemLink;
use octets::Octets;
use std::alloc::Global;
use std::test::Fail;
use test_keys::{KEY_ID, TEMP_ID, both_keys};
use test_lines::Line;

/// What a case has beside its client.
#[derive(Drop)]
struct Case<S: Seal> {
    served: Served<S>,
    sent: Sent,
    links: Vec<MemLink>,
    draw: StepDraw,
    text: Text,
}

impl<S: Seal> Case<S> {
    // A line that doesn't speak of the client: whether it is one.
    fn is_apart(&mut self, line: &mut Line<'_>, seal: &S) -> Result<bool, Fail> {
        match line.verb {
            "mute" => self.text.is_muted = true,
            "tell" => self.text.is_muted = false,
            "draw" => self.draw = Seeded::at(&[0; 32], line.number()?),
            _ => {
                return Ok(
                    self.served.is_prepared(line)?
                        || self.served.is_played(line, &mut self.sent, &mut self.text)?
                        || self.served.is_heard(line, &mut self.sent, &mut self.text)?
                        || self.served.is_cut(line, &mut self.text)?
                        || is_linked(line, &mut self.sent, &mut self.links)?
                        || is_run(line, seal, &mut self.links, &mut self.text)?,
                );
            }
        }
        Ok(true)
    }

    // A line by which the client stays what it is, opening, open or ended: whether it is one.
    fn is_done(&mut self, line: &mut Line<'_>, seal: &S, client: &mut Holder) -> Result<bool, Fail>
        requires keys { HasKeys (S.keys seal.now) (keys_in (kept_of client.old)) }
        ensures keys { keys_in (kept_of client.new) ≡ keys_in (kept_of client.old) }
    {
        if self.is_apart(line, seal)? || is_told(client, line, &mut self.text)? {
            return Ok(true);
        }
        if is_wished(client, line)? {
            return Ok(true);
        }
        let (draw, sent, text) = (&mut self.draw, &mut self.sent, &mut self.text);
        is_flushed(client, line, seal, draw, sent, text)
    }

    // The packets that come down to the client by a line.
    fn brought(&mut self, line: &mut Line<'_>, seal: &S) -> Result<Vec<Octets>, Fail> {
        let alloc = line.alloc;
        let packet = match line.verb {
            "sessions" => return packets_of_sessions(line, seal, self.served.names),
            "hear" | "hears" => packet_of_line(line, seal, &mut self.served)?,
            "take" => Octets::copy(alloc, self.sent.down.as_slice())?,
            _ => return Err(Fail::new("no such line")),
        };
        let mut packets = Vec::new(alloc);
        packets.push(packet)?;
        Ok(packets)
    }

    // What becomes of the client by a line that tells something that comes to it, or that it leaves its session.
    fn becomes(&mut self, line: &mut Line<'_>, seal: &S, client: Holder) -> Result<Holder, Fail>
        ensures keys { IfOk result (λ left. keys_in (kept_of left) ≡ keys_in (kept_of client)) }
    {
        if line.verb == "renew" || line.verb == "end" {
            return leaves(client, line.verb == "end", &mut self.draw);
        }
        match self.brought(line, seal) {
            Ok(packets) => takes_all(client, line.alloc, seal, packets.as_slice()),
            Err(fail) => {
                drop(client);
                Err(fail)
            }
        }
    }

    // A line, and what becomes of the client by it.
    fn plays(&mut self, line: &mut Line<'_>, seal: &S, client: Holder) -> Result<Holder, Fail>
        requires keys { HasKeys (S.keys seal.now) (keys_in (kept_of client)) }
        ensures keys { IfOk result (λ left. keys_in (kept_of left) ≡ keys_in (kept_of client)) }
    {
        let mut client = client;
        match self.is_done(line, seal, &mut client) {
            Ok(true) => Ok(client),
            Ok(false) => self.becomes(line, seal, client),
            Err(fail) => {
                drop(client);
                Err(fail)
            }
        }
    }

    // The lines of a case, one after the other.
    fn plays_all(
        &mut self,
        alloc: Global,
        seal: &S,
        client: Holder,
        lines: &str,
    ) -> Result<(), Fail>
        requires keys { HasKeys (S.keys seal.now) (keys_in (kept_of client)) }
    {
        let mut client = client;
        for line in lines.lines() {
            client = self.plays(&mut Line::of(alloc, line), seal, client)?;
        }
        drop(client);
        Ok(())
    }
}

// What is told of lines, over a server and a client that have done nothing yet.
fn told<S: Seal + Drop>(
    alloc: Global,
    seal: &S,
    served: Served<S>,
    key: u64,
    lines: &str,
) -> Result<String, Fail> {
    let mut case = Case {
        served,
        sent: Sent::new(alloc),
        links: Vec::new(alloc),
        draw: StepDraw::new(),
        text: Text::new(alloc),
    };
    let done = match joins(alloc, seal, key, &mut case.draw) {
        Ok(client) => case.plays_all(alloc, seal, client, lines),
        Err(fail) => Err(fail),
    };
    let written = std::mem::replace(&mut case.text.written, String::new(alloc));
    drop(case);
    done?;
    Ok(written)
}

// The same of a seal for each end.
fn told_by<S: Seal + Drop>(
    alloc: Global,
    seal: S,
    servers: S,
    key: u64,
    lines: &str,
) -> Result<String, Fail> {
    let served = Served::new(alloc, servers, key);
    told(alloc, &seal, served, key, lines)
}

// The seals of the keys, without a cipher and with it.
fn clear(alloc: Global) -> Result<ClearSeal, Fail> {
    Ok(ClearSeal::new(both_keys(alloc)?))
}

fn sealed(alloc: Global) -> Result<MtSeal, Fail> {
    Ok(MtSeal::new(both_keys(alloc)?))
}

// What is told of lines under a key, where this is how it is sealed.
fn told_under(alloc: Global, how: &str, key: u64, lines: &str) -> Result<String, Fail> {
    if how == "clear" {
        let seal = clear(alloc)?;
        return told_by(alloc, seal, clear(alloc)?, key, lines);
    }
    let seal = sealed(alloc)?;
    told_by(alloc, seal, sealed(alloc)?, key, lines)
}

/// What is told of a case: its first line, and then what its other lines give. The second line says how packets are sealed,
/// `clear` or `sealed`, and under which key, `perm` or `temp`.
pub(crate) fn played(alloc: Global, case: &str) -> Result<String, Fail> {
    let Some((title, rest)) = case.split_once('\n') else {
        return Err(Fail::new("no case"));
    };
    let (how, lines) = rest.split_once('\n').ok_or("no line")?;
    let (how, key) = how.split_once(' ').ok_or("no key")?;
    let key = if key == "temp" { TEMP_ID } else { KEY_ID };
    let told = told_under(alloc, how, key, lines)?;
    Ok(format!(in alloc; "{title}\n{told}\n")?)
}
