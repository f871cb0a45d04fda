//! The bindings of temporary keys.

ghost use Rattle.std.specs.Prelude.{◌≡◌, ◌<◌, ◌≤◌, ◌+◌, ◌==◌, ◌&&◌, nat_lt, not, [], max, vec_len, vec_capacity, OnOk, OnErr};
ghost use Rattle.std.specs.List.{filter, list_any};
ghost use Rattle.server_rules.specs.Calls.{is_bound, with_binding};
ghost use Rattle.server_dispatch.specs.Bindings.{binding_told};

use msg_ids::Moment;
use octets::Memory;
use std::alloc::Global;
use std::marker::Model;
use temp_keys::Bound;

/// The bindings of temporary keys to permanent ones, each in place of the one that its temporary key had
/// (core.telegram.org/api/pfs). Contracts see the list, and for how many more bindings there is room.
#[derive(Debug, Drop)]
pub struct Bindings {
    bindings: Vec<Bound>,
    room: usize,
}

impl Model for Bindings {
    ghost use Rattle.std.specs.Prelude.{◌+◌, ◌≤◌, map, vec_len, vec_capacity};
    ghost use Rattle.server_dispatch.specs.Bindings.{Held, binding_told};

    ghost Value = { Held };

    ghost view = { λ bindings. record { bindings = map binding_told bindings.bindings.items; room = bindings.room } };

    ghost invariant = { λ bindings. vec_len bindings.bindings + bindings.room ≤ vec_capacity bindings.bindings };
}

impl Bindings {
    /// No binding yet. Takes no memory.
    pub fn new(alloc: Global) -> Bindings
        ensures { result ≡ record { bindings = []; room = 0 } }
    {
        Bindings {
            bindings: Vec::new(alloc),
            room: 0,
        }
    }

    /// Takes room for so many further bindings, or keeps more room that is there.
    ///
    /// # Errors
    ///
    /// `Memory`, and then nothing has changed.
    pub fn reserve(&mut self, _alloc: Global, count: usize) -> Result<(), Memory>
        ensures reserved { OnOk result (self.new ≡ record self.old { room = max self.old.room count }) }
        ensures unchanged_on_memory { OnErr result (self.new ≡ self.old) }
    {
        let room = self.room.max(count);
        self.bindings.reserve(room)?;
        self.room = room;
        Ok(())
    }

    /// Whether this temporary key is bound now.
    pub fn is_bound(&self, now: Moment, key: u64) -> bool
        ensures { result ≡ is_bound now key self.now.bindings }
    {
        has_bound(self.bindings.as_slice(), now.seconds(), key)
    }

    /// Puts a binding in place of the one that its temporary key had. Room for it has to be reserved. Takes no memory.
    pub fn put(&mut self, bound: Bound)
        requires room { 0 < self.old.room }
        ensures put { self.new.bindings ≡ with_binding (binding_told bound) self.old.bindings }
        ensures room { self.new.room + 1 ≡ self.old.room }
    {
        forget(&mut self.bindings, bound.temp);
        self.bindings.push_reserved(bound);
        self.room -= 1;
    }
}

// Whether one of these binds the temporary key at this moment.
fn has_bound(bindings: &[Bound], seconds: u64, key: u64) -> bool
    ensures { result ≡ list_any (λ bound. (bound.temp == key) && nat_lt seconds bound.expires) bindings.now }
{
    bindings.iter().any(|bound| bound.temp == key && seconds < u64::from(bound.expires))
}

// Keeps the bindings of other temporary keys.
fn forget(bindings: &mut Vec<Bound>, temp: u64)
    ensures others { bindings.new.items ≡ filter (λ other. not (other.temp == temp)) bindings.old.items }
    ensures len { vec_len bindings.new ≤ vec_len bindings.old }
    ensures capacity { vec_capacity bindings.new ≡ vec_capacity bindings.old }
{
    bindings.retain(|other| other.temp != temp);
}
