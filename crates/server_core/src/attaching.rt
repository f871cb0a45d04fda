//! A connection is opened for a session (core.telegram.org/mtproto/service_messages, "New Session Creation Notification").

ghost use Rattle.std.specs.Prelude.{◌≡◌, ◌+◌, [], IfOk};
ghost use Rattle.server_output.specs.Outs.{AreSent};
ghost use Rattle.server_rules.specs.Event.{Speaker};
ghost use Rattle.server_session.specs.Names.{name_kept};
ghost use Rattle.server_session.specs.Says.{Keys, setting_of};
ghost use Rattle.server_session.specs.SessionState.{IsAt, Stands};
ghost use Rattle.server_core.specs.Server.{CanSpeak};
ghost use Rattle.server_core.specs.Speech.{Begins, CanAttach, attached};

use crate::speech::Speech;
use draws::Draw;
use envelope::Seal;
use msg_ids::Moment;
use octets::Memory;
use server_output::Outs;
use server_session::SessionState;
use std::alloc::Global;

/// The bytes of the body by which a session says that it is new.
const NEW_SESSION_BYTES: usize = 28;

/// The room for all that a session says when a connection is opened for it.
///
/// # Errors
///
/// `Memory`.
pub(crate) fn room_to_attach(alloc: Global, standing: &SessionState) -> Result<Speech, Memory>
    ensures { IfOk result (CanAttach standing.now) }
{
    Speech::new(
        alloc,
        standing.kept_count() + 1,
        standing.kept_bytes() + NEW_SESSION_BYTES,
    )
}

/// The session says that it is new as long as it has accepted nothing, and then all kept replies, in order of making. Takes no
/// memory.
pub(crate) fn attaches<S: Seal, D: Draw>(
    standing: &mut SessionState,
    now: Moment,
    speech: Speech,
    seal: &S,
    draw: &mut D,
) -> Outs
    requires speaking { CanSpeak (S.keys seal.now) now standing.old }
    requires room { CanAttach standing.old speech }
    ensures stands { (keys : Keys) (speaker : Speaker D) → Begins now standing.old draw.old speaker
        → Stands now standing.new (attached (setting_of now D.step keys) speaker).session }
    ensures drawn { (keys : Keys) (speaker : Speaker D) → Begins now standing.old draw.old speaker
        → draw.new ≡ (attached (setting_of now D.step keys) speaker).draw }
    ensures sent { (keys : Keys) (speaker : Speaker D) → Begins now standing.old draw.old speaker
        → AreSent S.lock (S.keys seal.now) (attached (setting_of now D.step keys) speaker).sent result.outs }
    ensures same_name { name_kept standing.new ≡ name_kept standing.old }
    ensures at { IsAt now standing.new }
{
    let mut speech = speech;
    if standing.is_new() {
        standing.says_it_is_new(now, &mut speech.owing, draw);
    }
    standing.says_all_again::<D>(&mut speech.owing);
    speech.sends(standing, now, seal, draw)
}
