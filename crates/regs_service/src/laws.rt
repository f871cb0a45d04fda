//! Laws of services, each the contract of a function that does nothing.

ghost use Rattle.std.specs.Prelude.{◌≡◌, ℕ, List, [], ◌∷◌, ◌++◌, Some, None};
ghost use Rattle.octets.specs.Bytes.{IsBytes};
ghost use Rattle.regs_service.specs.Served.{Served, Ran, state_after, requests_of, reply_bytes_max};
ghost use Rattle.regs_service.specs.Requests.{Asked, add_number, get_number, name_bytes_max, IsTextOf, request_of};
ghost use Rattle.regs_service.specs.Replies.{value_number};
ghost use Rattle.regs_service.specs.Registers.{names_max};

use crate::registers::NAMES_MAX;
use crate::reply::VALUE;
use crate::request::{ADD, GET, NAME_BYTES_MAX};
use crate::service::{REPLY_BYTES_MAX, Service};

/// The constants are the numbers and limits that the definitions stand on.
pub fn constants_of_the_registers()
    ensures add { ADD ≡ add_number }
    ensures get { GET ≡ get_number }
    ensures value { VALUE ≡ value_number }
    ensures name_bytes { NAME_BYTES_MAX ≡ name_bytes_max }
    ensures names { NAMES_MAX ≡ names_max }
    ensures reply_bytes { REPLY_BYTES_MAX ≡ reply_bytes_max }
{}

/// A text is read as a request exactly where the whole text is that request, and no text is two requests.
pub fn requests_exact()
    ensures taken { (asked : Asked) (text : List ℕ) → IsBytes text → request_of text ≡ Some asked → IsTextOf asked text }
    ensures read { (asked : Asked) (text : List ℕ) → IsTextOf asked text → request_of text ≡ Some asked }
    ensures refused { (asked : Asked) (text : List ℕ) → request_of text ≡ None → IsTextOf asked text → ⊥ }
    ensures one { (asked other : Asked) (text : List ℕ) → IsTextOf asked text → IsTextOf other text → asked ≡ other }
{
    tl_codec::laws::exact_reading();
    octets::laws::parts_are_bytes();
}

/// What was served stays so with one more request: its reply is that of the state after all before.
pub fn served_grows<V: Service>()
    ensures none { Served V.step V.fresh_state [] }
    ensures state { (runs : List Ran) (ran : Ran)
        → state_after V.step V.fresh_state (requests_of (runs ++ ran ∷ []))
        ≡ (V.step (state_after V.step V.fresh_state (requests_of runs)) ran.request).1 }
    ensures served { (runs : List Ran) (ran : Ran) → Served V.step V.fresh_state runs
        → ran.reply ≡ (V.step (state_after V.step V.fresh_state (requests_of runs)) ran.request).0
        → Served V.step V.fresh_state (runs ++ ran ∷ []) }
{}
