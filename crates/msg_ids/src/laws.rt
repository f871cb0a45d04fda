//! Laws of the numbers and seqs: what holds of all that a sender gives, over the definitions alone.

ghost use Rattle.std.specs.Prelude.{ℕ, ◌+◌, ◌<◌, ◌≤◌, List, Bool, All, AllPairs};
ghost use Rattle.msg_ids.specs.Moments.{latest_moment};
ghost use Rattle.msg_ids.specs.Counters.{Counters, HasNext, none_given, next_number, after_next, room};
ghost use Rattle.msg_ids.specs.Run.{Asking, IsBefore, IsFourfold, given};

/// Whatever is asked for, and at whichever moments: each number is above all given before it, and no seq is below one
/// given before it.
pub fn numbers_rise()
    ensures rise { (counters : Counters) (askings : List Asking) → AllPairs IsBefore (given counters askings) }
    ensures above_last { (counters : Counters) (askings : List Asking)
        → All (λ message. counters.last < message.number) (given counters askings) }
{}

/// Each number of a sender is a multiple of 4.
pub fn numbers_are_fourfold()
    ensures given { (askings : List Asking) → All (λ message. IsFourfold message.number) (given none_given askings) }
    ensures next { (last now : ℕ) → IsFourfold last → IsFourfold (next_number last now) }
{}

/// While there is room there is a next number at every moment, and each message takes one of the room at most.
pub fn room_lasts()
    ensures has_next { (counters : Counters) (now : ℕ) → now ≤ latest_moment → 0 < room counters → HasNext counters now }
    ensures falls_by_one { (counters : Counters) (now : ℕ) (content : Bool) → now ≤ latest_moment
        → room counters ≤ room (after_next counters now content) + 1 }
{}
