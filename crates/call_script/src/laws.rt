//! Laws of scripts, each the contract of a function that does nothing.

ghost use Rattle.std.specs.Prelude.{◌≡◌, ℕ, List};
ghost use Rattle.call_script.specs.declared.script.ScriptCall.{ScriptCall};
ghost use Rattle.call_script.specs.Scripts.{HasBadLine, Spells};

use sched_text::laws::one_call;

/// A text spells at most one list of calls, and none where a line is outside the grammar.
pub fn one_reading()
    ensures calls { (text : List ℕ) (calls others : List ScriptCall) → Spells text calls → Spells text others → calls ≡ others }
    ensures not_both { (text : List ℕ) (calls : List ScriptCall) (bad : ℕ) → Spells text calls → HasBadLine text bad → ⊥ }
    ensures bad_line { (text : List ℕ) (bad other : ℕ) → HasBadLine text bad → HasBadLine text other → bad ≡ other }
{
    one_call();
}
