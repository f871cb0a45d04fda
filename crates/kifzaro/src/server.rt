//! A server.

ghost use Rattle.std.specs.Prelude.{◌≡◌, ◌<◌, ◌↔◌, ◌∷◌, ℕ, List, None, Some, Ok, [], Err, IfErr, IfOk, IfSome, IsTrue, MatchOption, OnErr, OnOk, is_some, max, true};
ghost use Rattle.auth_keys.specs.KeyFile.{IsRingOf};
ghost use Rattle.envelope.specs.declared.parts.Dir.TheVariants.{Up};
ghost use Rattle.envelope.specs.declared.parts.Envelope.{Envelope as Sealed};
ghost use Rattle.envelope.specs.Lock.{mt_lock};
ghost use Rattle.envelope.specs.Opening.{Opens};
ghost use Rattle.server_core.specs.Desks.{request_at};
ghost use Rattle.server_core.specs.Packets.{brought_in};
ghost use Rattle.server_dispatch.specs.Rings.{AreOf};
ghost use Rattle.server_output.specs.declared.outs.Out.{Out as Going};
ghost use Rattle.server_rules.specs.Answer.{after_attach, after_packet, after_restart, after_tick};
ghost use Rattle.server_rules.specs.Server.{Server as Rules, fresh_server};
ghost use Rattle.server_session.specs.Says.{Keys, setting_of};
ghost use Rattle.waits.specs.Jobs.{ready_count};
ghost use Rattle.kifzaro.specs.Clients.{TellsTaken};
ghost use Rattle.kifzaro.specs.Drawing.{drawing, drawn_from};
ghost use Rattle.kifzaro.specs.Errors.{IsKeysError};
ghost use Rattle.kifzaro.specs.Queues.{IsFirst};
ghost use Rattle.kifzaro.specs.Rooms.{TellsRoom};
ghost use Rattle.kifzaro.specs.Servers.{Did, Is, Leaves, StaysAt, TellsAnswered, TellsEvent, TellsHeard, after_reply};
ghost use Rattle.kifzaro.specs.declared.error.Error.TheVariants as errors;

use crate::error::Error;
use crate::given::{Given, is_reply};
use crate::queue::Queue;
use crate::rings::seal_of;
use crate::telling::put;
use crate::words::Words;
use draws::ChaChaDraw;
use envelope::MtSeal;
use law_server_replay::laws::events_draw_words;
use msg_ids::Moment;
use octets::Memory;
use server_core::{Heard, Server as Core, SessionName};
use server_output::Out;
use std::alloc::Global;
use std::marker::Model;

/// A server with its own ring of keys and its own draw. It is a server of the rules, and each call that isn't refused is one
/// of its events.
///
/// Calls of its sessions are answered from outside: [`Server::next_request`] lends the next ready request, [`Server::answer`]
/// gives its reply, and both are one event together. Between the two the server is busy: each other event is refused as
/// `Busy`, and so is a further request, while packets that were made before are still handed out. Contracts see what it keeps
/// of its sessions, the draw, the packets that aren't handed out yet, and the request that waits for its answer.
#[derive(Debug, Drop)]
pub struct Server {
    server: Core<MtSeal>,
    words: Words,
    queue: Queue,
    // Whether the request of the first ready job was handed out and waits for its answer.
    asked: bool,
}

impl Model for Server {
    ghost use Rattle.std.specs.Prelude.{◌≡◌, ◌<◌, is_some, true};
    ghost use Rattle.server_core.specs.Desks.{request_at};
    ghost use Rattle.waits.specs.Jobs.{ready_count};
    ghost use Rattle.kifzaro.specs.Queues.{all_in};
    ghost use Rattle.kifzaro.specs.Servers.{Kept, handed_out};

    ghost Value = { Kept };

    ghost view = { λ server. record { server = server.server; draw = server.words; waiting = all_in server.queue; asked = handed_out server.asked server.server.jobs } };

    // A request waits for its answer only where a job is ready.
    ghost invariant = { λ server. server.asked ≡ true → (0 < ready_count server.server.jobs) × (is_some (request_at 0 server.server.jobs) ≡ true) };
}

impl Server {
    /// A server without sessions, with the keys of the text of a key file. All that it draws comes of the seed, which has to
    /// be secret and used once.
    ///
    /// # Errors
    ///
    /// `Keys` or `LongKeys`, the text is no key file; `Memory`.
    pub fn new(alloc: Global, keys: &[u8], seed: &[u8; 32]) -> Result<Server, Error>
        ensures is { IfOk result (λ server. Is server fresh_server) }
        ensures ring { IfOk result (λ server. IsRingOf keys.now server.server.seal) }
        ensures drawn { IfOk result (λ server. server.draw ≡ drawn_from seed.now) }
        ensures nothing_waits { IfOk result (λ server. (server.waiting ≡ []) × (server.asked ≡ None)) }
        ensures refused { IfErr result (IsKeysError keys.now) }
    {
        Ok(Server {
            server: Core::new(alloc, seal_of(alloc, keys)?),
            words: Words::new(seed),
            queue: Queue::new(alloc),
            asked: false,
        })
    }

    /// Whether a request that was handed out waits for its answer.
    pub fn is_busy(&self) -> bool
        ensures { result ≡ is_some self.now.asked }
    {
        self.asked
    }

    /// A packet came at a moment: the session that its envelope names judges what is in it, and answers. It answers the name
    /// of that session. What goes out waits to be handed out.
    ///
    /// # Errors
    ///
    /// `Busy`, a request waits for its answer; `Refused`, why the packet doesn't open, and only the moment has changed;
    /// `Memory`, and nothing has changed.
    pub fn handle_packet(
        &mut self,
        alloc: Global,
        now: Moment,
        packet: &[u8],
    ) -> Result<SessionName, Error>
        ensures heard { TellsHeard self.old.asked mt_lock self.old.server.seal (max self.old.server.moment now) packet.now result }
        ensures busy { is_some self.old.asked ≡ true → result ≡ Err errors.Busy }
        ensures given { (keys : Keys) (server : Rules) (envelope : Sealed) → AreOf self.old.server.seal keys → Is self.old server
            → Opens mt_lock self.old.server.seal (max self.old.server.moment now) Up packet.now envelope
            → OnOk result (Did self.old self.new (after_packet (setting_of (max self.old.server.moment now) drawing keys) (brought_in envelope) server self.old.draw)) }
        ensures leaves { Leaves now self.old self.new result }
        ensures stays { (server : Rules) → Is self.old server → StaysAt (max self.old.server.moment now) server self.new result }
        ensures same_ring { self.new.server.seal ≡ self.old.server.seal }
    {
        events_draw_words::<ChaChaDraw, ()>();
        if self.asked {
            return Err(Error::Busy);
        }
        if self.queue.make_room().is_err() {
            return Err(Error::Memory);
        }
        let mut draw = self.words.draw();
        match self.server.on_packet(alloc, now, packet, &mut draw) {
            Ok(reply) => match reply.heard {
                Heard::NotOpened(refusal) => Err(Error::Refused(refusal)),
                Heard::Judged { key, session } => {
                    self.words.reach(&draw);
                    self.queue.put(reply.out);
                    Ok(SessionName { key, session })
                }
            },
            Err(Memory) => Err(Error::Memory),
        }
    }

    /// Time passed: jobs that have waited too long are answered.
    ///
    /// # Errors
    ///
    /// `Busy`; `Memory`, as of [`Server::handle_packet`].
    pub fn tick(&mut self, alloc: Global, now: Moment) -> Result<(), Error>
        ensures told { TellsEvent self.old.asked result }
        ensures busy { is_some self.old.asked ≡ true → result ≡ Err errors.Busy }
        ensures given { (keys : Keys) (server : Rules) → Is self.old server
            → OnOk result (Did self.old self.new (after_tick (setting_of (max self.old.server.moment now) drawing keys) server self.old.draw)) }
        ensures leaves { Leaves now self.old self.new result }
        ensures stays { (server : Rules) → Is self.old server → OnErr result (Is self.new server) }
        ensures same_ring { self.new.server.seal ≡ self.old.server.seal }
    {
        events_draw_words::<ChaChaDraw, Given>();
        if self.asked {
            return Err(Error::Busy);
        }
        if self.queue.make_room().is_err() {
            return Err(Error::Memory);
        }
        let mut draw = self.words.draw();
        match self.server.tick(alloc, now, &mut draw) {
            Ok(effects) => {
                self.words.reach(&draw);
                self.queue.put(effects.out);
                Ok(())
            }
            Err(Memory) => Err(Error::Memory),
        }
    }

    /// A connection was opened for a session: what the server keeps for it is said again.
    ///
    /// # Errors
    ///
    /// `Busy`; `Memory`, as of [`Server::handle_packet`].
    pub fn attach(&mut self, alloc: Global, name: SessionName, now: Moment) -> Result<(), Error>
        ensures told { TellsEvent self.old.asked result }
        ensures busy { is_some self.old.asked ≡ true → result ≡ Err errors.Busy }
        ensures given { (keys : Keys) (server : Rules) → Is self.old server
            → OnOk result (Did self.old self.new (after_attach (setting_of (max self.old.server.moment now) drawing keys) (record { key = name.key; session = name.session }) server self.old.draw)) }
        ensures leaves { Leaves now self.old self.new result }
        ensures stays { (server : Rules) → Is self.old server → OnErr result (Is self.new server) }
        ensures same_ring { self.new.server.seal ≡ self.old.server.seal }
    {
        events_draw_words::<ChaChaDraw, Given>();
        if self.asked {
            return Err(Error::Busy);
        }
        if self.queue.make_room().is_err() {
            return Err(Error::Memory);
        }
        let mut draw = self.words.draw();
        match self
            .server
            .attach(alloc, name.key, name.session, now, &mut draw)
        {
            Ok(effects) => {
                self.words.reach(&draw);
                self.queue.put(effects.out);
                Ok(())
            }
            Err(Memory) => Err(Error::Memory),
        }
    }

    /// Starts again, at the same moment: no session, no job and no binding is left. Packets that wait are still handed out.
    /// Takes no memory.
    ///
    /// # Errors
    ///
    /// `Busy`.
    pub fn restart(&mut self, alloc: Global) -> Result<(), Error>
        ensures busy { is_some self.old.asked ≡ true → result ≡ Err errors.Busy }
        ensures done { self.old.asked ≡ None → result ≡ Ok tt }
        ensures is { (server : Rules) → Is self.old server → OnOk result (Is self.new (after_restart server)) }
        ensures rest { OnOk result (self.new ≡ record self.old { server = self.new.server }) }
        ensures unchanged { OnErr result (self.new ≡ self.old) }
        ensures same_ring { self.new.server.seal ≡ self.old.server.seal }
    {
        if self.asked {
            return Err(Error::Busy);
        }
        self.server.restart(alloc);
        Ok(())
    }

    /// How many requests are ready to be handed out, the one that was handed out and waits for its answer among them.
    pub fn ready(&self) -> usize
        ensures { (server : Rules) → Is self.now server → result ≡ ready_count server.jobs }
    {
        self.server.ready()
    }

    /// Hands out the next ready request, that of the job which was accepted first: [`Server::request`] lends its bytes. Whether
    /// there is one. Until [`Server::answer`] gives its reply, the server is busy. Takes no memory.
    ///
    /// # Errors
    ///
    /// `Busy`, one that was handed out waits for its answer. The server is as it was.
    pub fn next_request(&mut self) -> Result<bool, Error>
        ensures busy { is_some self.old.asked ≡ true → result ≡ Err errors.Busy }
        ensures told { IfErr result (λ error. (error ≡ errors.Busy) × (is_some self.old.asked ≡ true)) }
        ensures there { IfOk result (λ there. there ≡ is_some self.new.asked) }
        ensures ready { (server : Rules) → Is self.old server → IfOk result (λ there. IsTrue there ↔ (0 < ready_count server.jobs)) }
        ensures first { (server : Rules) → Is self.old server → OnOk result (self.new.asked ≡ request_at 0 server.jobs) }
        ensures lends { OnOk result (self.new ≡ record self.old { asked = request_at 0 self.old.server.jobs }) }
        ensures unchanged { OnErr result (self.new ≡ self.old) }
        ensures same_ring { self.new.server.seal ≡ self.old.server.seal }
    {
        if self.asked {
            return Err(Error::Busy);
        }
        let Some(_request) = self.server.ready_request(0) else {
            return Ok(false);
        };
        self.asked = true;
        Ok(true)
    }

    /// The request that was handed out and waits for its answer, if there is one: that of the first ready job.
    pub fn request(&self) -> Option<&[u8]>
        ensures asked { MatchOption result (self.now.asked ≡ None) (λ request. self.now.asked ≡ Some request.now) }
        ensures first { (server : Rules) → Is self.now server → IfSome result (λ request. request_at 0 server.jobs ≡ Some request.now) }
    {
        if !self.asked {
            return None;
        }
        self.server.ready_request(0)
    }

    /// The request that was handed out has run, and this is its reply: whole words of 4 bytes, at most 262,144 bytes. The
    /// session that asked keeps and sends it.
    ///
    /// # Errors
    ///
    /// `NotAsked`, no request was handed out; `BadReply`, or `Memory`, and the request waits on.
    pub fn answer(&mut self, alloc: Global, now: Moment, reply: &[u8]) -> Result<(), Error>
        ensures told { TellsAnswered self.old.asked reply.now result }
        ensures given { (keys : Keys) (server : Rules) → Is self.old server
            → OnOk result (Did self.old self.new (after_reply (setting_of (max self.old.server.moment now) drawing keys) reply.now server self.old.draw)) }
        ensures own { (server : Rules) → Is self.old server → OnOk result (request_at 0 server.jobs ≡ self.old.asked) }
        ensures leaves { Leaves now self.old self.new result }
        ensures stays { (server : Rules) → Is self.old server → OnErr result (Is self.new server) }
        ensures same_ring { self.new.server.seal ≡ self.old.server.seal }
    {
        events_draw_words::<ChaChaDraw, Given>();
        if !self.asked {
            return Err(Error::NotAsked);
        }
        if !is_reply(reply) {
            return Err(Error::BadReply { len: reply.len() });
        }
        let mut given = Given::new(alloc, reply)?;
        self.queue.make_room()?;
        let mut draw = self.words.draw();
        let effects = self.server.work(alloc, 0, &mut given, now, &mut draw)?;
        self.words.reach(&draw);
        self.asked = false;
        self.queue.put(effects.out);
        Ok(())
    }

    /// The packet that is to be sent next, and the session that it is for; none exactly where none waits. Each is handed out
    /// once, in the order in which they were made. Takes no memory.
    pub fn poll_transmit(&mut self, alloc: Global) -> Option<Out>
        ensures { MatchOption result ((self.old.waiting ≡ []) × (self.new ≡ self.old)) (λ out. (self.old.waiting ≡ out ∷ self.new.waiting)
            × (self.new ≡ record self.old { waiting = self.new.waiting })) }
    {
        self.queue.take(alloc)
    }

    /// For which session the packet is that is to be sent next; none exactly where none waits.
    pub fn next_transmit(&self) -> Option<SessionName>
        ensures { MatchOption result (self.now.waiting ≡ []) (λ name. (out : Going) × IsFirst out self.now.waiting × (out.key ≡ name.key) × (out.session ≡ name.session)) }
    {
        match self.queue.first() {
            Some(out) => Some(SessionName {
                key: out.key,
                session: out.session,
            }),
            None => None,
        }
    }

    /// Hands out the packet that is to be sent next, if there is one, at the front of the room, and tells its length.
    ///
    /// # Errors
    ///
    /// `TooShort`, with the length that is needed: the packet waits on, and the room is as it was.
    pub fn take_transmit(&mut self, alloc: Global, room: &mut [u8]) -> Result<Option<usize>, Error>
        ensures none { self.old.waiting ≡ [] → (result ≡ Ok None) × (room.new ≡ room.old) × (self.new ≡ self.old) }
        ensures some { (out : Going) (rest : List Going) → self.old.waiting ≡ out ∷ rest
            → TellsTaken out.packet room.old room.new result × OnOk result (self.new ≡ record self.old { waiting = rest }) }
        ensures unchanged { OnErr result (self.new ≡ self.old) }
    {
        let Some(out) = self.queue.first() else {
            return Ok(None);
        };
        let len = put(out.packet.as_slice(), room)?;
        let _out = self.queue.take(alloc);
        Ok(Some(len))
    }

    /// Puts the request that was handed out at the front of the room, and tells its length. It waits on.
    ///
    /// # Errors
    ///
    /// `NotAsked`, no request was handed out; `TooShort`, with the length that is needed. The room is as it was.
    pub fn copy_request(&self, room: &mut [u8]) -> Result<usize, Error>
        ensures { MatchOption self.now.asked ((result ≡ Err errors.NotAsked) × (room.new ≡ room.old)) (λ request. TellsRoom request room.old room.new result) }
    {
        match self.request() {
            Some(request) => put(request, room),
            None => Err(Error::NotAsked),
        }
    }
}
