//! Laws of captures, each the contract of a function that does nothing.

ghost use Rattle.std.specs.Prelude.{◌≡◌, ◌≢◌, ℕ, List};
ghost use Rattle.statuses.specs.Outside.{IsUntouched, Outside};
ghost use Rattle.statuses.specs.declared.status.Status.TheVariants as status;
ghost use Rattle.transport.specs.declared.form.Form.{Form as Forms};
ghost use Rattle.transport.specs.declared.form.Form.TheVariants.{Full};
ghost use Rattle.cmd_relay.specs.Captures.{HasBadLine, Spells};
ghost use Rattle.cmd_relay.specs.Relays.{IsRefused, IsRelayed};
ghost use Rattle.cmd_relay.specs.Runs.{RelayRun};
ghost use Rattle.cmd_relay.specs.declared.capture.Piece.{Piece as Pieces};

use mt_edge::{Sink, Source};
use secret_relay::laws::one_outcome;

/// A text spells at most one list of pieces, and none where a line is outside the grammar.
pub fn one_reading()
    ensures pieces { (text : List ℕ) (pieces others : List Pieces) → Spells text pieces → Spells text others → pieces ≡ others }
    ensures not_both { (text : List ℕ) (pieces : List Pieces) (bad : ℕ) → Spells text pieces → HasBadLine text bad → ⊥ }
    ensures bad_line { (text : List ℕ) (bad other : ℕ) → HasBadLine text bad → HasBadLine text other → bad ≡ other }
{}

/// One text is due to the bytes of a capture: the lines for it where all of its lines are taken, else the refusal of one line
/// for one cause.
pub fn one_answer()
    ensures relayed { (form : Forms) (secret text due other : List ℕ) → form ≢ Full → IsRelayed form secret text due → IsRelayed form secret text other → due ≡ other }
    ensures refused { (form : Forms) (secret text due other : List ℕ) → form ≢ Full → IsRefused form secret text due → IsRefused form secret text other → due ≡ other }
    ensures not_both { (form : Forms) (secret text due other : List ℕ) → form ≢ Full → IsRelayed form secret text due → IsRefused form secret text other → ⊥ }
{
    one_reading();
    one_outcome();
}

/// A run that stops for want of memory before it writes keeps what `relay` promises.
pub fn memory_may_run_out<S: Source, O: Sink>()
    ensures { (form : Forms) (secret : List ℕ) (input : Outside S) (out : Outside O) → IsUntouched out → RelayRun form secret input out status.Memory }
{}
