//! Laws of statuses and inputs, each the contract of a function that does nothing.

ghost use Rattle.std.specs.Prelude.{◌≡◌};
ghost use Rattle.statuses.specs.Lines.{input_bytes_max};
ghost use Rattle.statuses.specs.Statuses.{number_of};
ghost use Rattle.statuses.specs.declared.status.Status.{Status as One};

use crate::answer::INPUT_BYTES_MAX;

/// No two statuses have one number.
pub fn numbers_differ()
    ensures { (one other : One) → number_of one ≡ number_of other → one ≡ other }
{}

/// The limit of an input is that of the definitions.
pub fn input_limit()
    ensures { INPUT_BYTES_MAX ≡ input_bytes_max }
{}
