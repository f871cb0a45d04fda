//! A packet comes to a server (core.telegram.org/mtproto/description, "Encrypted Message").

ghost use Rattle.std.specs.Prelude.{◌≡◌, ◌≤◌, [], None, Some, IfOk, IsSome, OnErr, OnOk, max};
ghost use Rattle.std.specs.List.{position};
ghost use Rattle.auth_keys.specs.Rings.{entry_of};
ghost use Rattle.envelope.specs.declared.parts.Dir.TheVariants.{Up};
ghost use Rattle.envelope.specs.declared.parts.Envelope.{Envelope as Sealed};
ghost use Rattle.envelope.specs.declared.refusal.Refusal.{Refusal as Refused};
ghost use Rattle.envelope.specs.Opening.{IsRefused, Opens};
ghost use Rattle.inbox.specs.Acceptance.{IsAcceptable};
ghost use Rattle.server_dispatch.specs.Rings.{AreOf};
ghost use Rattle.server_rules.specs.Answer.{after_packet, begun, hears as heard_in, message_in, name_in};
ghost use Rattle.server_rules.specs.Server.{Server as Rules, Session, remembered, session_named};
ghost use Rattle.server_session.specs.Says.{Keys, setting_of};
ghost use Rattle.server_core.specs.declared.desk.Heard.TheVariants.{Judged, NotOpened};
ghost use Rattle.server_core.specs.Acceptance.{WasTaken};
ghost use Rattle.server_core.specs.Effects.{Gives};
ghost use Rattle.server_core.specs.Packets.{IsHeardOf, NothingIsDone, brought, brought_in, effects_in};
ghost use Rattle.server_core.specs.Desks.{Does};
ghost use Rattle.server_core.specs.Server.{StandsFor};
ghost use Rattle.server_core.specs.Sessions.{is_kept_as};

use crate::desk::{Heard, Reply};
use crate::effects::Effects;
use crate::hearing::{hears_known, makes_place};
use crate::laws::{
    acceptable_messages_are_accepted, acknowledgements_go_out, one_session_stays_alone,
    one_session_stays_in_order, one_session_takes,
};
use crate::order_laws::{events_keep_order, losses_keep_order};
use crate::packet_answers::JudgedPacket;
use crate::room::judges_in_room;
use crate::server::{Server, is_early};
use crate::session_name::SessionName;
use draws::Draw;
use envelope::{Dir, Envelope, Opened, Refusal, Seal};
use inbox::Outer;
use law_server_bounds::laws::lawful_messages_are_taken;
use msg_ids::Moment;
use octets::Memory;
use ring_rules::laws::rings_have_keys;
use server_session::SessionState;
use server_session::laws::sessions_stand_later;
use std::alloc::Global;

impl<S: Seal> Server<S> {
    /// A packet comes. It is opened, as one that goes up, at the greatest moment that the server was given. The session that its
    /// envelope names judges what is in it, and answers; it is made where there is none of its name, and then, where the server
    /// has 256, the one heard least recently is lost first. A packet that doesn't open changes nothing but the moment.
    ///
    /// # Errors
    ///
    /// `Memory`, and then the server is as it was. What was drawn is not given back.
    pub fn on_packet<D: Draw>(
        &mut self,
        alloc: Global,
        now: Moment,
        packet: &[u8],
        draw: &mut D,
    ) -> Result<Reply, Memory>

        // What it opens to, or why it doesn't open. By the seal's law no packet both opens and is refused.
        ensures heard { IfOk result (λ reply. IsHeardOf S.lock (S.keys self.old.seal) (max self.old.moment now) packet.now reply.heard) }
        ensures refused { (refusal : Refused) → IsRefused S.lock (S.keys self.old.seal) (max self.old.moment now) Up packet.now refusal
            → IfOk result (NothingIsDone (max self.old.moment now) self.old self.new draw.old draw.new) }
        ensures stays { (server : Rules) (refusal : Refused) → StandsFor self.old server → IsRefused S.lock (S.keys self.old.seal) (max self.old.moment now) Up packet.now refusal
            → OnOk result (StandsFor self.new (record server { now = max self.old.moment now })) }
        ensures given { (keys : Keys) (server : Rules) (envelope : Sealed) → AreOf (S.keys self.old.seal) keys → StandsFor self.old server
            → Opens S.lock (S.keys self.old.seal) (max self.old.moment now) Up packet.now envelope
            → IfOk result (λ reply. Does (StandsFor self.new) S.lock (S.keys self.old.seal) draw.new (effects_in reply)
            (after_packet (setting_of (max self.old.moment now) D.step keys) (brought_in envelope) server draw.old)) }
        // The message of an envelope that nothing refuses is accepted in this event: where its seq is odd a packet that goes out
        // acknowledges it, and its session, where that has room for a further event, is kept and has its number as an accepted one,
        // and its call as a job, or with the answer that the table or the rules on waiting say.
        ensures accepted { (keys : Keys) (server : Rules) (envelope : Sealed) (session : Session) → AreOf (S.keys self.old.seal) keys → StandsFor self.old server
            → Opens S.lock (S.keys self.old.seal) (max self.old.moment now) Up packet.now envelope
            → session_named (name_in (brought_in envelope))
            (heard_in (setting_of (max self.old.moment now) D.step keys) (brought_in envelope) (begun server draw.old)).sessions ≡ Some session
            → IsAcceptable (max self.old.moment now) session.salts envelope.salt (remembered session) (message_in (brought_in envelope))
            → IfOk result (λ reply. WasTaken S.lock (S.keys self.old.seal) (setting_of (max self.old.moment now) D.step keys) (brought_in envelope)
            server draw.old session self.new (effects_in reply)) }
        ensures unchanged_on_memory { OnErr result (self.new ≡ self.old) }
        ensures same_seal { self.new.seal ≡ self.old.seal }
    {
        S::opens_what_it_sealed();
        sessions_stand_later();
        acceptable_messages_are_accepted::<D>();
        lawful_messages_are_taken::<D>();
        acknowledgements_go_out::<D>();
        events_keep_order::<D>();
        losses_keep_order();
        let moment = self.moment.later(now);
        is_early(moment);
        let envelope = match self.seal.unseal(alloc, moment, Dir::Up, packet) {
            Opened::Envelope(envelope) => envelope,
            Opened::Refused(refusal) => return self.refuses(alloc, moment, refusal),
            Opened::Memory => return Err(Memory),
        };
        let Envelope {
            key,
            salt,
            session,
            number,
            seq,
            body,
        } = envelope;
        let outer = Outer {
            number,
            seq,
            salt,
            body,
        };
        let name = SessionName { key, session };
        match self.sessions.place(key, session) {
            None => self.takes_new(alloc, moment, name, &outer, draw),
            Some(place) => self.takes_at(alloc, moment, name, place, &outer, draw),
        }
    }

    // A packet doesn't open, for this cause.
    fn refuses(&mut self, alloc: Global, moment: Moment, refusal: Refusal) -> Result<Reply, Memory>
        requires later { self.old.moment ≤ moment }
        ensures heard { IfOk result (λ reply. reply.heard ≡ NotOpened refusal) }
        ensures nothing { IfOk result (λ reply. (reply.out.outs ≡ []) × (reply.entries.entries ≡ [])) }
        ensures moment_alone { OnOk result (self.new ≡ record self.old { moment = moment }) }
        ensures unchanged_on_memory { OnErr result (self.new ≡ self.old) }
        ensures same_seal { self.new.seal ≡ self.old.seal }
    {
        let Effects { out, entries } = self.passes(alloc, moment)?;
        Ok(Reply {
            heard: Heard::NotOpened(refusal),
            out,
            entries,
        })
    }

    // The session of this name, which is at this place, takes what an envelope brought.
    fn takes_at<D: Draw>(
        &mut self,
        alloc: Global,
        moment: Moment,
        name: SessionName,
        place: usize,
        outer: &Outer,
        draw: &mut D,
    ) -> Result<Reply, Memory>
        requires later { self.old.moment ≤ moment }
        requires place { position (is_kept_as (record { key = name.key; session = name.session })) self.old.sessions ≡ Some place }
        ensures heard { IfOk result (λ reply. reply.heard ≡ Judged name.key name.session) }
        ensures given { (keys : Keys) (server : Rules) → AreOf (S.keys self.old.seal) keys → StandsFor self.old server
            → IfOk result (λ reply. Gives S.lock (S.keys self.old.seal) self.new draw.new (effects_in reply)
            (after_packet (setting_of moment D.step keys) (brought name.key name.session outer.now) server draw.old)) }
        ensures unchanged_on_memory { OnErr result (self.new ≡ self.old) }
        ensures same_seal { self.new.seal ≡ self.old.seal }
    {
        sessions_stand_later();
        one_session_takes::<D>();
        one_session_stays_alone::<D>();
        one_session_stays_in_order::<D>();
        events_keep_order::<D>();
        rings_have_keys();
        is_early(moment);
        let (others, mut standing) = hears_known::<D>(&mut self.sessions, alloc, place);
        match judges_in_room(
            alloc,
            moment,
            outer,
            &mut standing,
            &mut self.jobs,
            &mut self.bindings,
        ) {
            Ok(both) => {
                let (room, judged) = both;
                let packet = JudgedPacket {
                    others,
                    standing,
                    judged,
                    room,
                };
                let (sessions, effects) = packet.answers(
                    alloc,
                    &mut self.jobs,
                    &mut self.bindings,
                    moment,
                    &self.seal,
                    draw,
                );
                self.moment = moment;
                self.sessions = sessions;
                Ok(Reply {
                    heard: Heard::Judged {
                        key: name.key,
                        session: name.session,
                    },
                    out: effects.out,
                    entries: effects.entries,
                })
            }
            Err(memory) => {
                self.sessions = others.with_it_at(place, standing);
                Err(memory)
            }
        }
    }

    // A session of this name, of which there is none, is made and takes what an envelope brought.
    fn takes_new<D: Draw>(
        &mut self,
        alloc: Global,
        moment: Moment,
        name: SessionName,
        outer: &Outer,
        draw: &mut D,
    ) -> Result<Reply, Memory>
        requires later { self.old.moment ≤ moment }
        requires key { IsSome (entry_of name.key (S.keys self.old.seal)) }
        requires none { position (is_kept_as (record { key = name.key; session = name.session })) self.old.sessions ≡ None }
        ensures heard { IfOk result (λ reply. reply.heard ≡ Judged name.key name.session) }
        ensures given { (keys : Keys) (server : Rules) → AreOf (S.keys self.old.seal) keys → StandsFor self.old server
            → IfOk result (λ reply. Gives S.lock (S.keys self.old.seal) self.new draw.new (effects_in reply)
            (after_packet (setting_of moment D.step keys) (brought name.key name.session outer.now) server draw.old)) }
        ensures unchanged_on_memory { OnErr result (self.new ≡ self.old) }
        ensures same_seal { self.new.seal ≡ self.old.seal }
    {
        sessions_stand_later();
        one_session_takes::<D>();
        one_session_stays_alone::<D>();
        one_session_stays_in_order::<D>();
        events_keep_order::<D>();
        rings_have_keys();
        is_early(moment);
        let mut standing = SessionState::new(
            alloc,
            moment,
            name.key,
            name.session,
            outer.number,
            draw,
        )?;
        let both = judges_in_room(
            alloc,
            moment,
            outer,
            &mut standing,
            &mut self.jobs,
            &mut self.bindings,
        )?;
        let (room, judged) = both;
        let others = makes_place::<D>(&mut self.sessions, &mut self.jobs, alloc)?;
        let packet = JudgedPacket {
            others,
            standing,
            judged,
            room,
        };
        let (sessions, effects) = packet.answers(
            alloc,
            &mut self.jobs,
            &mut self.bindings,
            moment,
            &self.seal,
            draw,
        );
        self.moment = moment;
        self.sessions = sessions;
        Ok(Reply {
            heard: Heard::Judged {
                key: name.key,
                session: name.session,
            },
            out: effects.out,
            entries: effects.entries,
        })
    }
}
