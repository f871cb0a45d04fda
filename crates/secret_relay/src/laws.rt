//! Laws of the definitions, each the contract of a function that does nothing.

ghost use Rattle.std.specs.Prelude.{◌≡◌, ◌≢◌, ℕ, List};
ghost use Rattle.transport.specs.declared.form.Form.{Form as Forms};
ghost use Rattle.transport.specs.declared.form.Form.TheVariants.{Full};
ghost use Rattle.secret_relay.specs.declared.fault.RelayFault.{RelayFault as Faults};
ghost use Rattle.secret_relay.specs.Kept.{Kept};
ghost use Rattle.secret_relay.specs.Standing.{Stands};
ghost use Rattle.secret_relay.specs.Stories.{DownEnds, GoesOn, Relayed, Story, UpEnds, other_text};

use framing::laws::one_reading;
use obfus::laws::one_answer;
use transport::Form;

/// What came in of a connection tells what went out of it, and whether the relay goes on or with which fault it ended.
pub fn one_outcome()
    ensures text { (form : Forms) (secret upwards downwards : List ℕ) (story : Story) → form ≢ Full
        → Relayed form secret story → Relayed form secret (other_text upwards downwards story)
        → (story.upwards ≡ upwards) × (story.downwards ≡ downwards) }
    ensures up_apart { (form : Forms) (secret upwards downwards : List ℕ) (story : Story) (fault : Faults) → form ≢ Full
        → Relayed form secret story → UpEnds form secret fault (other_text upwards downwards story) → ⊥ }
    ensures up_end { (form : Forms) (secret upwards downwards : List ℕ) (story : Story) (fault other : Faults) → form ≢ Full
        → UpEnds form secret fault story → UpEnds form secret other (other_text upwards downwards story) → fault ≡ other }
    ensures down_apart { (form : Forms) (secret upwards downwards : List ℕ) (story : Story) (fault : Faults) → form ≢ Full
        → GoesOn form secret story → DownEnds form secret fault (other_text upwards downwards story) → ⊥ }
    ensures down_end { (form : Forms) (secret upwards downwards : List ℕ) (story : Story) (fault other : Faults) → form ≢ Full
        → DownEnds form secret fault story → DownEnds form secret other (other_text upwards downwards story) → fault ≡ other }
{
    one_reading::<Form>();
    one_answer();
}

/// Written by the relay: what went out of a connection that a relay stands for is nothing yet, or all packets of both sides.
pub fn written_by_the_relay()
    ensures { (relay : Kept) (story : Story) → Stands relay story → Relayed relay.form relay.secret story }
{}
