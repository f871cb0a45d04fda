//! Moments.

ghost use Rattle.std.specs.Prelude.{◌≡◌, ◌≤◌, max};
ghost use Rattle.msg_ids.specs.Moments.{latest_moment, moment_of};

use std::marker::Model;

/// A moment in seconds of Unix time, from 0 to `Moment::LATEST_SECONDS`. Contracts see it as its seconds.
#[derive(Clone, Copy, Debug, PartialEq, Eq, PartialOrd, Ord)]
pub struct Moment {
    seconds: u64,
}

impl Model for Moment {
    ghost use Rattle.std.specs.Prelude.{ℕ, ◌≤◌};
    ghost use Rattle.msg_ids.specs.Moments.{latest_moment};

    ghost Value = { ℕ };

    ghost view = { λ moment. moment.seconds };

    ghost invariant = { λ moment. moment.seconds ≤ latest_moment };

    ghost inverse = { λ seconds. record { seconds = seconds } };
}

impl Moment {
    /// The seconds of the latest moment: the profile's end of time, below 2^32.
    pub const LATEST_SECONDS: u64 = 4_000_000_000;

    /// The moment of so many seconds. One past the latest moment counts as the latest.
    pub fn new(seconds: u64) -> Moment
        ensures { result ≡ moment_of seconds }
    {
        Moment {
            seconds: seconds.min(Moment::LATEST_SECONDS),
        }
    }

    /// The seconds, at most `Moment::LATEST_SECONDS`.
    pub fn seconds(self) -> u64
        ensures value { result ≡ self }
        ensures bound { result ≤ latest_moment }
    {
        self.seconds
    }

    /// The later of two moments.
    pub fn later(self, other: Moment) -> Moment
        ensures { result ≡ max self other }
    {
        if self.seconds < other.seconds {
            other
        } else {
            self
        }
    }
}
