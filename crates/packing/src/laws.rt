//! Laws of the definitions that the contracts stand on, each the contract of a function that does nothing.

ghost use Rattle.std.specs.Prelude.{◌≡◌, ◌≤◌, List, length};
ghost use Rattle.std.specs.List.{AllByRecursion, flat_map};
ghost use Rattle.service_tl.specs.declared.lists.Message.{Message};
ghost use Rattle.packing.specs.Packing.{IsPacket, groups};
ghost use Rattle.packing.specs.Numbering.{response_addition, other_addition};

use crate::numbering::{OTHER_ADDITION, RESPONSE_ADDITION};

/// The constants of this crate are the standard's numbers.
pub fn constants_of_the_standard()
    ensures response { RESPONSE_ADDITION ≡ response_addition }
    ensures other { OTHER_ADDITION ≡ other_addition }
{}

/// The packets of messages have all of them, in their order, and each of these packets is one.
pub fn packets_have_all_messages()
    ensures all { (messages : List Message) → flat_map (λ group. group) (groups messages) ≡ messages }
    ensures packets { (messages : List Message) → AllByRecursion IsPacket (groups messages) }
    ensures few { (messages : List Message) → length (groups messages) ≤ length messages }
{}
