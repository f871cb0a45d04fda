//! Which session it is, and for how much more it has numbers and room.

ghost use Rattle.std.specs.Prelude.{◌≡◌, ℕ, OnErr, OnOk, max, min};
ghost use Rattle.server_rules.specs.Server.{Session, is_named, is_same};

use crate::session::SessionState;
use octets::Memory;
use std::alloc::Global;

impl SessionState {
    ghost use Rattle.server_session.specs.SessionState.{IsAt, Stands, key_of, number_of, numbers_left, outbox_of, replies_left};
    ghost use Rattle.server_session.specs.Rooms.{with_replies_left};
    ghost use Rattle.server_session.specs.Names.{name_kept};

    /// The identifier of the key that it is a session of.
    pub fn key(&self) -> u64
        ensures value { result ≡ key_of self.now }
        ensures stands { (now : ℕ) (session : Session) → Stands now self.now session → result ≡ session.key }
    {
        self.key
    }

    /// Its session number.
    pub fn number(&self) -> u64
        ensures value { result ≡ number_of self.now }
        ensures stands { (now : ℕ) (session : Session) → Stands now self.now session → result ≡ session.number }
    {
        self.number
    }

    /// Whether it is the session of this key and this number.
    pub fn is_of(&self, key: u64, number: u64) -> bool
        ensures kept { result ≡ is_same (record { key = key; session = number }) (name_kept self.now) }
        ensures stands { (now : ℕ) (session : Session) → Stands now self.now session → result ≡ is_named (record { key = key; session = number }) session }
    {
        key == self.key && number == self.number
    }

    /// For how many further messages it has numbers at least, whatever the moments.
    pub fn numbers_left(&self) -> u64
        ensures { result ≡ numbers_left self.now }
    {
        self.numbers.room()
    }

    /// Takes the memory that so many answers need. Where there was room for more of them, that stays.
    ///
    /// # Errors
    ///
    /// `Memory`, and then it is as it was.
    pub fn reserve(&mut self, alloc: Global, answers: usize) -> Result<(), Memory>
        ensures reserved { OnOk result (outbox_of self.new ≡ record (outbox_of self.old) { room = max (outbox_of self.old).room answers }) }
        ensures exact { OnOk result (self.new ≡ with_replies_left (max (replies_left self.old) answers) self.old) }
        ensures stands { (now : ℕ) (session : Session) → Stands now self.old session → Stands now self.new session }
        ensures unchanged_on_memory { OnErr result (self.new ≡ self.old) }
        ensures same_numbers { numbers_left self.new ≡ numbers_left self.old }
        ensures same_key { key_of self.new ≡ key_of self.old }
        ensures same_number { number_of self.new ≡ number_of self.old }
        ensures at { (now : ℕ) → IsAt now self.old → IsAt now self.new }
    {
        self.outbox.reserve(alloc, answers)
    }

    /// For how many further answers memory was taken.
    pub fn replies_left(&self) -> usize
        ensures { result ≡ replies_left self.now }
    {
        self.outbox.room()
    }

    /// Lowers for how many further answers memory is promised, to so many at most. The memory itself stays. Takes no memory.
    pub fn release(&mut self, answers: usize)
        ensures { self.new ≡ with_replies_left (min (replies_left self.old) answers) self.old }
    {
        self.outbox.release(answers);
    }
}
