//! What tells the time.

ghost use Rattle.std.specs.Prelude.{◌≡◌, ◌<◌, ◌+◌, ℕ, List, Option, [], ◌∷◌, ◌++◌, length, IfSome, IsSome, IsSomeAnd};
ghost use Rattle.mt_edge.specs.Clocks.{told_max};

use msg_ids::Moment;

/// What tells the time. It can't fail. What it tells now, it told before each call; each call leaves it telling, up to
/// 2^64 - 2 moments.
pub trait Clock {
    /// The moments that it gave, in order, where the clock tells them.
    ghost given: { Self → Option (List ℕ) };

    /// The moment.
    fn now(&mut self) -> Moment
        ensures told { IfSome (given self.new) (λ after. IsSomeAnd (given self.old) (λ before. after ≡ before ++ result ∷ [])) }
        ensures goes_on { IfSome (given self.old) (λ before. length before + 1 < told_max → IsSome (given self.new)) };
}
