//! The sessions of a server beside the one that speaks.

ghost use Rattle.std.specs.Prelude.{◌≡◌, ◌≢◌, ◌≤◌, ◌++◌, ◌∷◌, [], All, length};
ghost use Rattle.std.specs.List.{insert};
ghost use Rattle.server_session.specs.Names.{name_kept};
ghost use Rattle.server_core.specs.Sessions.{AreApart, kept_as, without_kept};
ghost use Rattle.server_core.specs.Others.{first_lost, with_place};

use crate::sessions::{Sessions, out_of};
use server_session::SessionState;
use std::marker::Model;

/// Most sessions of a server.
const SESSIONS_MAX: usize = 256;

/// The sessions of a server beside one that speaks, the one heard least recently first, no two of one name, and room for that
/// one. Contracts see the list.
#[derive(Drop)]
pub(crate) struct Others {
    pub(crate) list: Vec<SessionState>,
}

impl Model for Others {
    ghost use Rattle.std.specs.Prelude.{List, ◌<◌, vec_capacity, vec_len};
    ghost use Rattle.server_session.specs.declared.session.SessionState.{SessionState};
    ghost use Rattle.server_core.specs.Sessions.{AreApart};

    ghost Value = { List SessionState };

    ghost view = { λ others. others.list.items };

    ghost invariant = { λ others. AreApart others.list.items × (vec_len others.list < vec_capacity others.list) };
}

impl Others {
    /// Takes out the session of this name; `None` where there is none. Takes no memory.
    pub(crate) fn take_out(&mut self, key: u64, number: u64) -> Option<SessionState>
        ensures found { result ≡ kept_as (record { key = key; session = number }) self.old }
        ensures others { self.new ≡ without_kept (record { key = key; session = number }) self.old }
    {
        out_of(&mut self.list, key, number)
    }

    /// Where there are as many sessions as a server may have, takes out the one heard least recently. Takes no memory.
    pub(crate) fn make_place(&mut self) -> Option<SessionState>
        ensures lost { result ≡ first_lost self.old }
        ensures others { self.new ≡ with_place self.old }
    {
        if self.list.len() < SESSIONS_MAX {
            return None;
        }
        Some(self.list.remove(0))
    }

    /// All of them, with one of a name of its own back at this place. Takes no memory.
    pub(crate) fn with_it_at(self, place: usize, standing: SessionState) -> Sessions
        requires place { place ≤ length self }
        requires apart { AreApart (insert self place standing) }
        ensures { result ≡ insert self place standing }
    {
        let mut list = self.list;
        let _ = list.insert(place, standing);
        Sessions { list }
    }

    /// All of them, without the one that spoke. Takes no memory.
    pub(crate) fn without_it(self) -> Sessions
        ensures { result ≡ self }
    {
        Sessions { list: self.list }
    }

    /// All of them, and last the one that spoke, which has a name of its own. Takes no memory.
    pub(crate) fn with_it(self, standing: SessionState) -> Sessions
        requires { All (λ other. name_kept other ≢ name_kept standing) self }
        ensures { result ≡ self ++ standing ∷ [] }
    {
        let mut list = self.list;
        list.push_reserved(standing);
        Sessions { list }
    }
}
