//! Laws of kept replies, each the contract of a function that does nothing.

ghost use Rattle.std.specs.Prelude.{◌≡◌};
ghost use Rattle.outbox.specs.Bodies.{head_bytes, short_bytes};
ghost use Rattle.outbox.specs.Replies.{kept_replies_max, kept_bytes_max};

use crate::body::{HEAD_BYTES, SHORT_BYTES};
use crate::outbox::KEPT_BYTES_MAX;
use crate::rows::KEPT_REPLIES_MAX;

/// The constants are the limits of the definitions.
pub fn limits_of_an_outbox()
    ensures replies { KEPT_REPLIES_MAX ≡ kept_replies_max }
    ensures bytes { KEPT_BYTES_MAX ≡ kept_bytes_max }
    ensures head { HEAD_BYTES ≡ head_bytes }
    ensures short { SHORT_BYTES ≡ short_bytes }
{}
