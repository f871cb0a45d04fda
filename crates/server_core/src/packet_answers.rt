//! A session that has judged a packet answers it, in room that was taken before.

ghost use Rattle.server_dispatch.specs.Rings.{AreOf};
ghost use Rattle.server_rules.specs.Event.{Envelope};
ghost use Rattle.server_session.specs.Names.{name_kept};
ghost use Rattle.server_session.specs.Says.{Keys, setting_of};
ghost use Rattle.server_core.specs.Among.{Among, ended_among, takes_among};
ghost use Rattle.server_core.specs.Effects.{Gives};
ghost use Rattle.server_core.specs.Packets.{AreBeside, Fits, HasJudged, kept_so};
ghost use Rattle.server_core.specs.Room.{CanTake};
ghost use Rattle.server_core.specs.Server.{CanSpeak, IsSound};
ghost use Rattle.server_core.specs.SettlingAll.{AreFitting};

use crate::among_others::AmongOthers;
use crate::effects::Effects;
use crate::leaving::goes_back;
use crate::others::Others;
use crate::room::PacketRoom;
use crate::sessions::Sessions;
use crate::speech::Speech;
use draws::Draw;
use envelope::Seal;
use inbox::Judged;
use law_server::laws::{
    packets_are_judged, rows_keep_order, sessions_speak_for_themselves, speech_keeps_order,
    taken_jobs_are_open,
};
use msg_ids::Moment;
use server_dispatch::{Bindings, Speaking, Turn, acks_in};
use server_session::SessionState;
use std::alloc::Global;
use std::mem;
use waits::Jobs;

/// A packet that a session of a server has judged.
#[derive(Drop)]
pub(crate) struct JudgedPacket {
    /// The other sessions of the server, with a place for the one that judged it.
    pub(crate) others: Others,
    /// The session that judged it.
    pub(crate) standing: SessionState,
    /// What it judged, in order.
    pub(crate) judged: Judged,
    /// The room for all that it says and records.
    pub(crate) room: PacketRoom,
}

impl JudgedPacket {
    /// The session of the packet answers it, and is the one heard last, or is lost where it has no room for a further event: all
    /// sessions then, and what goes out and is entered. Takes no memory.
    pub(crate) fn answers<S: Seal, D: Draw>(
        self,
        alloc: Global,
        jobs: &mut Jobs,
        bindings: &mut Bindings,
        now: Moment,
        seal: &S,
        draw: &mut D,
    ) -> (Sessions, Effects)
        requires speaking { CanSpeak (S.keys seal.now) now self.standing }
        requires room { CanTake self.standing jobs.old.room bindings.old.room self.room }
        requires fitting { AreFitting self.judged self.room.dues.items }
        requires beside { AreBeside (S.keys seal.now) now (name_kept self.standing) self.others }
        ensures given { (keys : Keys) (envelope : Envelope) (among : Among D) → AreOf (S.keys seal.now) keys
            → HasJudged (setting_of now D.step keys) envelope self.others self.standing jobs.old.jobs bindings.old.bindings draw.old self.judged among
            → Fits (setting_of now D.step keys) envelope self.judged self.room among
            → Gives S.lock (S.keys seal.now) (kept_so seal.now now result.0 jobs.new.jobs bindings.new.bindings) draw.new result.1
            (ended_among (setting_of now D.step keys) (takes_among (setting_of now D.step keys) envelope among)) }
        ensures sound { IsSound (S.keys seal.now) now result.0 }
    {
        packets_are_judged();
        rows_keep_order::<D>();
        sessions_speak_for_themselves::<D>();
        speech_keeps_order::<D>();
        taken_jobs_are_open::<D>();
        let JudgedPacket {
            others,
            mut standing,
            judged,
            room,
        } = self;
        let PacketRoom {
            dues,
            mut acks,
            limit,
            called: _,
            speech,
            entries,
        } = room;
        let Speech {
            owing,
            packets,
            outs,
        } = speech;
        let judged = judged.as_slice();
        acks_in(judged, &mut acks);
        let mut turn = Turn { owing, entries };
        turn.opens(now, &mut standing, draw, acks.as_slice());
        let lent_jobs = mem::replace(jobs, Jobs::new(alloc));
        let lent_bindings = mem::replace(bindings, Bindings::new(alloc));
        let speaking = Speaking {
            turn,
            standing,
            jobs: lent_jobs,
            bindings: lent_bindings,
        };
        let mut among = AmongOthers { others, speaking };
        among.settles_all(now, seal.ring(), draw, judged, dues, limit);
        let AmongOthers { others, speaking } = among;
        let Speaking {
            turn,
            mut standing,
            jobs: left_jobs,
            bindings: left_bindings,
        } = speaking;
        *jobs = left_jobs;
        *bindings = left_bindings;
        let Turn { owing, entries } = turn;
        let speech = Speech {
            owing,
            packets,
            outs,
        };
        let out = speech.sends(&mut standing, now, seal, draw);
        let sessions = goes_back::<D>(jobs, others, standing);
        (sessions, Effects { out, entries })
    }
}
