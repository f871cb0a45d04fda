//! Marks of calls that are answered, and of those whose replies are dropped.

ghost use Rattle.std.specs.Prelude.{◌≡◌, true};
ghost use Rattle.id_window.specs.History.{History};
ghost use Rattle.id_window.specs.Marks.{Marks, is_accepted};
ghost use Rattle.inbox.specs.Inbox.{Stands};
ghost use Rattle.server_session.specs.Marking.{dropped_mark, replied_mark, turned};

use id_window::laws::other_marks_count_nothing;
use inbox::{Inbox, Mark};

/// The call's reply is dropped. Takes no memory.
pub(crate) fn mark_dropped(inbox: &mut Inbox, call: u64)
    ensures { (history : History) (marks : Marks) → Stands inbox.old history marks → Stands inbox.new history (turned call dropped_mark marks) }
{
    other_marks_count_nothing();
    let Some(mark) = inbox.mark(call) else {
        return;
    };
    if mark.is_accepted() {
        inbox.set_mark(call, dropped(mark));
    }
}

/// A reply to the call is kept, which answers it well or not. Takes no memory.
pub(crate) fn mark_replied(inbox: &mut Inbox, call: u64, good: bool)
    ensures { (history : History) (marks : Marks) → Stands inbox.old history marks → Stands inbox.new history (turned call (replied_mark good) marks) }
{
    other_marks_count_nothing();
    let Some(mark) = inbox.mark(call) else {
        return;
    };
    if mark.is_accepted() {
        inbox.set_mark(call, replied(good, mark));
    }
}

fn dropped(mark: Mark) -> Mark
    ensures value { result ≡ dropped_mark mark }
    ensures accepted { is_accepted mark ≡ true → is_accepted result ≡ true }
{
    match mark {
        Mark::Replied(good) => Mark::Dropped(good),
        mark => mark,
    }
}

fn replied(good: bool, mark: Mark) -> Mark
    ensures value { result ≡ replied_mark good mark }
    ensures accepted { is_accepted mark ≡ true → is_accepted result ≡ true }
{
    match mark {
        Mark::Service | Mark::Waiting => Mark::Replied(good),
        mark => mark,
    }
}
