//! What gives connections.

ghost use Rattle.std.specs.Prelude.{◌≡◌, ◌≢◌, ◌<◌, ◌≤◌, ◌+◌, ℕ, List, Option, [], ◌∷◌, ◌++◌, Some, length, false, true, IfSome, IsSome, IsSomeAnd};
ghost use Rattle.mt_edge.specs.Acts.{Counts as CountsAct};
ghost use Rattle.mt_edge.specs.Links.{IsFresh};
ghost use Rattle.mt_edge.specs.Nets.{Counts, IfLink, closed, closed_at, outcome_of};

use crate::act::Act;
use crate::link::Link;
use crate::net_call::{NetCall, Outcome};

/// The answer of an attempt to get a connection.
#[derive(Debug, Drop)]
pub enum Linked<L> {
    /// One end of the connection.
    Link(L),
    /// The attempt failed.
    Failed,
}

/// A net, over which connections are made. What it tells now, it told before each call; a call that doesn't fail leaves
/// it telling, and so does one that fails while there is room to note it, and the first one.
pub trait Net {
    ghost use Rattle.mt_edge.specs.declared.net_call.NetCall.{NetCall};

    /// One end of a connection.
    type L: Link;

    /// The calls of `listen`, `connect` and `accept` in order, where the net tells them.
    ghost calls: { Self → Option (List NetCall) };

    /// How many more of these calls it can note, failed ones among them.
    ghost room: { Self → ℕ };

    /// How many calls have failed. It stays at 2^64 - 1 once it is there.
    ghost faults: { Self → ℕ };

    /// Takes connections on a port of this machine from now on.
    fn listen(&mut self, port: u16) -> Act
        ensures told { IfSome (calls self.new) (λ after. IsSomeAnd (calls self.old) (λ before. after ≡ before ++ NetCall.Listen port result ∷ [])) }
        ensures goes_on { IsSome (calls self.old) → result ≢ Act.Failed → IsSome (calls self.new) }
        ensures first_fault { IsSome (calls self.old) → faults self.old ≡ 0 → IsSome (calls self.new) }
        ensures still_tells { IsSome (calls self.old) → 0 < room self.old → IsSome (calls self.new) }
        ensures room { room self.old ≤ room self.new + 1 }
        ensures never_falls { faults self.old ≤ faults self.new }
        ensures counted { CountsAct result (faults self.old) (faults self.new) };

    /// The next connection on the port that is listened on.
    fn accept(&mut self) -> Linked<Self::L>
        ensures told { IfSome (calls self.new) (λ after. IsSomeAnd (calls self.old) (λ before. after ≡ before ++ NetCall.Accept (outcome_of result) ∷ [])) }
        ensures goes_on { IsSome (calls self.old) → outcome_of result ≢ Outcome.Failed → IsSome (calls self.new) }
        ensures first_fault { IsSome (calls self.old) → faults self.old ≡ 0 → IsSome (calls self.new) }
        ensures still_tells { IsSome (calls self.old) → 0 < room self.old → IsSome (calls self.new) }
        ensures room { room self.old ≤ room self.new + 1 }
        ensures no_fault_yet { IfLink result (λ link. Self.L.faults link ≡ 0) }
        ensures place { IfLink result (λ link. IfSome (calls self.old) (λ before. (Self.L.standing link).place ≡ length before)) }
        ensures open { IfLink result (λ link. (Self.L.standing link).closed ≡ false) }
        ensures fresh { IfLink result (λ link. IsSome (calls self.new) → IsSomeAnd (Self.L.told link) IsFresh) }
        ensures never_falls { faults self.old ≤ faults self.new }
        ensures counted { Counts result (faults self.old) (faults self.new) };

    /// A connection to a port of this machine.
    fn connect(&mut self, port: u16) -> Linked<Self::L>
        ensures told { IfSome (calls self.new) (λ after. IsSomeAnd (calls self.old) (λ before. after ≡ before ++ NetCall.Connect port (outcome_of result) ∷ [])) }
        ensures goes_on { IsSome (calls self.old) → outcome_of result ≢ Outcome.Failed → IsSome (calls self.new) }
        ensures first_fault { IsSome (calls self.old) → faults self.old ≡ 0 → IsSome (calls self.new) }
        ensures still_tells { IsSome (calls self.old) → 0 < room self.old → IsSome (calls self.new) }
        ensures room { room self.old ≤ room self.new + 1 }
        ensures no_fault_yet { IfLink result (λ link. Self.L.faults link ≡ 0) }
        ensures place { IfLink result (λ link. IfSome (calls self.old) (λ before. (Self.L.standing link).place ≡ length before)) }
        ensures open { IfLink result (λ link. (Self.L.standing link).closed ≡ false) }
        ensures fresh { IfLink result (λ link. IsSome (calls self.new) → IsSomeAnd (Self.L.told link) IsFresh) }
        ensures never_falls { faults self.old ≤ faults self.new }
        ensures counted { Counts result (faults self.old) (faults self.new) };

    /// Takes a link back, which it handed out and which is closed.
    fn done(&mut self, link: Self::L)
        requires closed { (Self.L.standing link).closed ≡ true }
        ensures told { IfSome (calls self.new) (λ after. IsSomeAnd (calls self.old) (λ before. IsSomeAnd (Self.L.told link) (λ told.
            after ≡ closed_at (Self.L.standing link).place told (Self.L.faults link) before))) }
        // The same where the link is that of the last call.
        ensures last { IfSome (calls self.new) (λ after. IfSome (Self.L.told link) (λ told. (front : List NetCall) (call : NetCall)
            → calls self.old ≡ Some (front ++ call ∷ []) → (Self.L.standing link).place ≡ length front
            → after ≡ front ++ closed told (Self.L.faults link) call ∷ [])) }
        ensures goes_on { IsSome (calls self.old) → IsSome (Self.L.told link) → IsSome (calls self.new) }
        ensures same_room { room self.new ≡ room self.old }
        ensures counted { faults self.new ≡ faults self.old };
}
