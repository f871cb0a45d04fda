//! What a client learns of its session, and how the session ends.

ghost use Rattle.std.specs.Prelude.{◌≡◌};
ghost use Rattle.client_rules.specs.Learning.{seconds_of};

use crate::binding::Binding;
use crate::core_client::{Clock, Core};
use crate::rebinding::set_binding;
use client_calls::{Rule, settle_all};

/// The most unique numbers that are learnt in a session.
const LEARNT_MAX: usize = 1024;

/// How many numbers a second has.
const NUMBERS_A_SECOND: u64 = 1 << 32;

/// The seconds of a number.
fn seconds_of(number: u64) -> u64
    ensures { result ≡ seconds_of number }
{
    number / NUMBERS_A_SECOND
}

impl Core {
    ghost use Rattle.std.specs.Prelude.{◌≡◌, ◌≤◌, ◌<◌, ◌+◌, ◌++◌, ◌∷◌, [], IsTrue, true, length};
    ghost use Rattle.client_rules.specs.Client.{Client, is_open};
    ghost use Rattle.client_rules.specs.Learning.{ended, learn, learns, learnt_max, with_clock};
    ghost use Rattle.client_core.specs.Kept.{Stands, at_end};
    ghost use Rattle.client_core.specs.Took.{Took};

    /// The clock is taken over from a packet with this outer number.
    pub(crate) fn take_clock(&mut self, outer: u64)
        ensures stands { (client : Client) → Stands self.old client → Stands self.new (with_clock outer client) }
        ensures calls { self.new.calls ≡ self.old.calls }
        ensures temporary { self.new.rest.temporary ≡ self.old.rest.temporary }
        ensures room { self.new.room ≡ self.old.room }
        ensures learnt { self.new.rest.learnt ≡ self.old.rest.learnt }
    {
        self.clock = Clock {
            there: seconds_of(outer),
            here: self.moment,
        };
    }

    /// The end of the session: no call waits or is outstanding any more.
    pub(crate) fn finish(&mut self)
        ensures stands { (client : Client) → Stands self.old client → Stands (at_end self.new) (ended client) }
        ensures room { self.new.room ≡ self.old.room }
        ensures learnt { self.new.rest.learnt ≡ self.old.rest.learnt }
    {
        settle_all(&mut self.calls, Rule::Ended);
    }

    /// A unique number that isn't learnt yet is learnt, with its salt. Room for it was taken before.
    fn put_learnt(&mut self, unique: u64, salt: u64)
        requires room { 0 < self.old.room.learnt }
        requires sessions { 0 < self.old.room.sessions }
        ensures stands { (client : Client) → Stands self.old client → Stands self.new (learns unique salt client) }
        ensures room { self.new.room.learnt + 1 ≡ self.old.room.learnt }
        ensures sessions { self.new.room.sessions ≡ self.old.room.sessions }
        ensures resent { self.new.room.resent ≡ self.old.room.resent }
        ensures learnt { self.new.rest.learnt ≡ self.old.rest.learnt ++ unique ∷ [] }
    {
        let is_first = !self.is_open();
        settle_all(&mut self.calls, Rule::Learnt { is_first, salt });
        set_binding(&mut self.temporary, Binding::Needed);
        self.learnt.push(unique);
        self.salt = salt;
        self.asked = None;
        self.calls.forget_packets();
    }

    /// The server tells of a new session in a packet with this outer number. It answers whether the client has ended, by
    /// one unique number too many.
    pub(crate) fn learn(&mut self, outer: u64, unique: u64, salt: u64) -> bool
        requires room { 0 < self.old.room.learnt }
        requires sessions { 0 < self.old.room.sessions }
        ensures stands { (client : Client) → Stands self.old client → Took result self.new (learn outer unique salt client) }
        ensures room { self.old.room.learnt ≤ self.new.room.learnt + 1 }
        ensures sessions { self.new.room.sessions ≡ self.old.room.sessions }
        ensures resent { self.new.room.resent ≡ self.old.room.resent }
        ensures grows { length self.new.rest.learnt ≤ length self.old.rest.learnt + 1 }
        ensures open { is_open self.old.rest ≡ true → is_open self.new.rest ≡ true }
        ensures full { IsTrue result → learnt_max ≤ length self.old.rest.learnt }
    {
        if self.learnt.has(unique) {
            return false;
        }
        if self.learnt.has_at_least(LEARNT_MAX) {
            self.finish();
            return true;
        }
        self.put_learnt(unique, salt);
        self.take_clock(outer);
        false
    }
}
