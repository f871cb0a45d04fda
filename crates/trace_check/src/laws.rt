//! Laws of traces, each the contract of a function that does nothing.

ghost use Rattle.std.specs.Prelude.{◌≡◌, ℕ, List};
ghost use Rattle.trace_check.specs.declared.checking.Checked.{Checked as Found};
ghost use Rattle.trace_check.specs.Answers.{HasBadLine, IsFoundIn};

use sched_text::laws::words_are_read;

/// A text has at most one answer: one thing is found of it, or one line is its first bad one.
pub fn one_answer()
    ensures found { (text : List ℕ) (one other : Found) → IsFoundIn text one → IsFoundIn text other → one ≡ other }
    ensures not_both { (text : List ℕ) (one : Found) (bad : ℕ) → IsFoundIn text one → HasBadLine text bad → ⊥ }
    ensures bad_line { (text : List ℕ) (bad other : ℕ) → HasBadLine text bad → HasBadLine text other → bad ≡ other }
{
    words_are_read();
}
