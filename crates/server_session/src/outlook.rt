//! What becomes of a number that a job waits for.

ghost use Rattle.std.specs.Prelude.{◌≡◌};
ghost use Rattle.server_rules.specs.Waiting.{outlook_of_mark};
ghost use Rattle.server_session.specs.Outlooks.{outlook_told};

use inbox::Mark;

/// What becomes of a number that a job waits for.
#[derive(Clone, Copy, Debug, PartialEq, Eq)]
pub enum Outlook {
    /// It was answered well: the waiting is over.
    Over,
    /// It will never be answered well.
    InVain,
    /// It isn't answered yet.
    GoesOn,
}

impl Outlook {
    /// What becomes of a kept number of this mark.
    pub(crate) fn of_mark(mark: Mark) -> Outlook
        ensures { outlook_told result ≡ outlook_of_mark mark }
    {
        match mark {
            Mark::Waiting => Outlook::GoesOn,
            Mark::Replied(good) | Mark::Acked(good) | Mark::Dropped(good) => {
                if good { Outlook::Over } else { Outlook::InVain }
            }
            _ => Outlook::InVain,
        }
    }
}
