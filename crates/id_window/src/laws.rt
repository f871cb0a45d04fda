//! What a window tells of the history that it stands for, for callers that have the history and not the window. Each
//! law is the contract of a function that does nothing.

ghost use Rattle.std.specs.Prelude.{◌≡◌, ◌≢◌, ◌<◌, ◌≤◌, ℕ, Bool, true, false, All, IsSomeAnd, length, min};
ghost use Rattle.id_window.specs.Marks.{Marks, mark_of, is_accepted};
ghost use Rattle.id_window.specs.Crossing.{crossing};
ghost use Rattle.id_window.specs.History.{History, EachOnce, was_accepted, window_numbers, kept, is_kept, found, floor, crosses};
ghost use Rattle.id_window.specs.Window.{Contents, Stands, mark_in};

use crate::rows::WINDOW_NUMBERS;

/// What the calls read of a window is what its history says.
pub fn windows_tell()
    ensures found { (window : Contents) (history : History) (marks : Marks) → Stands window history marks
        → (number : ℕ) → mark_in number window.rows ≡ found number history marks }
    ensures floor { (window : Contents) (history : History) (marks : Marks) → Stands window history marks
        → window.floor ≡ floor history }
    ensures crosses { (window : Contents) (history : History) (marks : Marks) → Stands window history marks
        → (number seq : ℕ) → crossing number seq window.accepted ≡ crosses number seq history }
{}

/// Each kept number was given a mark, which the window has, and the last one is that of an accepted message exactly
/// where it was accepted.
pub fn marks_fit_outcomes()
    ensures given { (window : Contents) (history : History) (marks : Marks) → Stands window history marks
        → All (λ judgement. IsSomeAnd (mark_of judgement.number marks) (λ mark. is_accepted mark ≡ was_accepted judgement.outcome)) (kept history) }
    ensures had { (window : Contents) (history : History) (marks : Marks) → Stands window history marks
        → All (λ judgement. IsSomeAnd (mark_in judgement.number window.rows) (λ mark. is_accepted mark ≡ was_accepted judgement.outcome)) (kept history) }
{}

/// A window stands for any marks that are the same at the kept numbers.
pub fn other_marks_count_nothing()
    ensures { (window : Contents) (history : History) (marks others : Marks) → Stands window history marks
        → ((number : ℕ) → is_kept number history ≡ true → mark_of number others ≡ mark_of number marks)
        → Stands window history others }
{}

/// Reserved room says nothing of what a window stands for.
pub fn room_counts_nothing()
    ensures { (window : Contents) (history : History) (marks : Marks) (room : ℕ) → Stands window history marks
        → Stands record window { room = room } history marks }
{}

/// No number was judged twice, and one that is above the floor and isn't kept was never judged.
pub fn numbers_are_judged_once()
    ensures once { (window : Contents) (history : History) (marks : Marks) → Stands window history marks → EachOnce history }
    ensures new { (history : History) (number : ℕ) → floor history < number → is_kept number history ≡ false
        → All (λ judgement. judgement.number ≢ number) history }
{}

/// What isn't kept is forgotten: it is not above the floor.
pub fn others_are_not_above_the_floor()
    ensures { (history : History) → All (λ judgement. is_kept judgement.number history ≡ false → judgement.number ≤ floor history) history }
{}

/// All of up to 16,384 numbers are kept, and 16,384 of more.
pub fn sixteen_thousand_are_kept()
    ensures limit { WINDOW_NUMBERS ≡ window_numbers }
    ensures kept { (history : History) → length (kept history) ≡ min (length history) window_numbers }
{}
