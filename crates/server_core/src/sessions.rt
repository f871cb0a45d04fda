//! The sessions that a server keeps.

ghost use Rattle.std.specs.Prelude.{◌≡◌, ◌<◌, ◌≤◌, [], All, IfOk, OnErr, OnOk, Some, length, nat_lt, slice_index_or, slice_set, vec_capacity, vec_len};
ghost use Rattle.std.specs.List.{position, remove};
ghost use Rattle.server_session.specs.declared.session.SessionState.{SessionState as One};
ghost use Rattle.server_session.specs.SessionState.{IsAt, Stands, numbers_left};
ghost use Rattle.server_session.specs.Names.{name_kept};
ghost use Rattle.server_session.specs.Says.{Keys, setting_of};
ghost use Rattle.server_output.specs.Outs.{AreSent};
ghost use Rattle.server_rules.specs.Answer.{room_min};
ghost use Rattle.server_rules.specs.Event.{Speaker};
ghost use Rattle.server_rules.specs.Server.{Name};
ghost use Rattle.server_core.specs.Sessions.{AreApart, is_kept_as, kept_as, without_kept};
ghost use Rattle.server_core.specs.Server.{CanSpeak};
ghost use Rattle.server_core.specs.Speech.{Begins, CanAttach, attached};

use crate::attaching;
use crate::others::Others;
use crate::speech::Speech;
use draws::Draw;
use envelope::Seal;
use msg_ids::Moment;
use octets::Memory;
use server_output::Outs;
use server_session::SessionState;
use std::alloc::Global;
use std::marker::Model;
use std::mem;

/// For how many further numbers a session has to have room after an event.
pub(crate) const ROOM_MIN: u64 = 16_384;

/// The sessions that a server keeps, the one heard least recently first, and no two of one name. Contracts see the list. A
/// search looks at names alone.
#[derive(Debug, Drop)]
pub struct Sessions {
    pub(crate) list: Vec<SessionState>,
}

impl Model for Sessions {
    ghost use Rattle.std.specs.Prelude.{List};
    ghost use Rattle.server_session.specs.declared.session.SessionState.{SessionState};
    ghost use Rattle.server_core.specs.Sessions.{AreApart};

    ghost Value = { List SessionState };

    ghost view = { λ sessions. sessions.list.items };

    ghost invariant = { λ sessions. AreApart sessions.list.items };
}

impl Sessions {
    /// No session. Takes no memory.
    pub fn new(alloc: Global) -> Sessions
        ensures { result ≡ [] }
    {
        Sessions {
            list: Vec::new(alloc),
        }
    }

    /// Takes out the session of this name; `None` where there is none. Takes no memory.
    pub fn take_out(&mut self, key: u64, number: u64) -> Option<SessionState>
        ensures found { result ≡ kept_as (record { key = key; session = number }) self.old }
        ensures others { self.new ≡ without_kept (record { key = key; session = number }) self.old }
    {
        out_of(&mut self.list, key, number)
    }

    /// Lends the session at this place, with the others, among which there is room for it. None are left here. Takes no
    /// memory.
    pub(crate) fn lend(&mut self, alloc: Global, place: usize) -> (Others, SessionState)
        requires { place < length self.old }
        ensures others { (name : Name) → position (is_kept_as name) self.old ≡ Some place → result.0 ≡ without_kept name self.old }
        ensures one { (name : Name) → position (is_kept_as name) self.old ≡ Some place → kept_as name self.old ≡ Some result.1 }
        ensures removed { result.0 ≡ remove self.old place }
        ensures at_place { (d : One) → result.1 ≡ slice_index_or self.old place d }
        ensures apart { AreApart self.old }
        ensures lent { self.new ≡ [] }
    {
        let mut list = mem::replace(&mut self.list, Vec::new(alloc));
        let standing = list.remove(place);
        (Others { list }, standing)
    }

    /// Lends all sessions, with room for a further one. None are left here.
    ///
    /// # Errors
    ///
    /// `Memory`, and then none was lent.
    pub(crate) fn lend_all(&mut self, alloc: Global) -> Result<Others, Memory>
        ensures all { IfOk result (λ others. others ≡ self.old) }
        ensures apart { IfOk result AreApart }
        ensures lent { OnOk result (self.new ≡ []) }
        ensures unchanged_on_memory { OnErr result (self.new ≡ self.old) }
    {
        self.list.reserve(1)?;
        let list = mem::replace(&mut self.list, Vec::new(alloc));
        Ok(Others { list })
    }

    /// The place of the session of this name; `None` where there is none.
    pub(crate) fn place(&self, key: u64, number: u64) -> Option<usize>
        ensures { result ≡ position (is_kept_as (record { key = key; session = number })) self.now }
    {
        place_of(&self.list, key, number)
    }

    /// The room for all that the session at this place says when a connection is opened for it.
    ///
    /// # Errors
    ///
    /// `Memory`.
    pub(crate) fn room_to_attach(&self, alloc: Global, place: usize) -> Result<Speech, Memory>
        requires { place < length self.now }
        ensures room { (d : One) → IfOk result (CanAttach (slice_index_or self.now place d)) }
        ensures apart { AreApart self.now }
    {
        attaching::room_to_attach(alloc, &self.list[place])
    }

    /// A connection is opened for the session at this place: what it then says goes out. Takes no memory.
    pub(crate) fn attach<S: Seal, D: Draw>(
        &mut self,
        place: usize,
        now: Moment,
        speech: Speech,
        seal: &S,
        draw: &mut D,
    ) -> Outs
        requires place { place < length self.old }
        requires speaking { All (CanSpeak (S.keys seal.now) now) self.old }
        requires room { (d : One) → CanAttach (slice_index_or self.old place d) speech }
        ensures others { (d : One) → self.new ≡ slice_set self.old place (slice_index_or self.new place d) }
        ensures same_name { (d : One) → name_kept (slice_index_or self.new place d) ≡ name_kept (slice_index_or self.old place d) }
        ensures at { (d : One) → IsAt now (slice_index_or self.new place d) }
        ensures stands { (d : One) (keys : Keys) (speaker : Speaker D) → Begins now (slice_index_or self.old place d) draw.old speaker
            → Stands now (slice_index_or self.new place d) (attached (setting_of now D.step keys) speaker).session }
        ensures drawn { (d : One) (keys : Keys) (speaker : Speaker D) → Begins now (slice_index_or self.old place d) draw.old speaker
            → draw.new ≡ (attached (setting_of now D.step keys) speaker).draw }
        ensures sent { (d : One) (keys : Keys) (speaker : Speaker D) → Begins now (slice_index_or self.old place d) draw.old speaker
            → AreSent S.lock (S.keys seal.now) (attached (setting_of now D.step keys) speaker).sent result.outs }
    {
        let standing = &mut self.list[place];
        attaching::attaches(standing, now, speech, seal, draw)
    }

    /// Whether the session at this place has no room for the numbers of a further event.
    pub(crate) fn is_spent(&self, place: usize) -> bool
        requires { place < length self.now }
        ensures { (d : One) → result ≡ nat_lt (numbers_left (slice_index_or self.now place d)) room_min }
    {
        self.list[place].numbers_left() < ROOM_MIN
    }
}

/// Takes the session of this name out of these; `None` where there is none.
pub(crate) fn out_of(list: &mut Vec<SessionState>, key: u64, number: u64) -> Option<SessionState>
    requires { AreApart list.old.items }
    ensures found { result ≡ kept_as (record { key = key; session = number }) list.old.items }
    ensures others { list.new.items ≡ without_kept (record { key = key; session = number }) list.old.items }
    ensures fewer { vec_len list.new ≤ vec_len list.old }
    ensures capacity { vec_capacity list.new ≡ vec_capacity list.old }
{
    let place = place_of(list, key, number)?;
    Some(list.remove(place))
}

// The place of the first session of this name.
fn place_of(list: &[SessionState], key: u64, number: u64) -> Option<usize>
    ensures { result ≡ position (is_kept_as (record { key = key; session = number })) list.now }
{
    list.iter().position(|standing| standing.is_of(key, number))
}
