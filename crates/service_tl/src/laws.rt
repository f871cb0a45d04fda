//! Laws of the definitions that `parse` and `write` stand on, each the contract of a function that does
//! nothing.

ghost use Rattle.std.specs.Prelude.{◌≡◌, ◌<◌, ◌^◌, ℕ, List, [], ◌∷◌, length, Contains};
ghost use Rattle.std.specs.List.{AllByRecursion};
ghost use Rattle.octets.specs.Bytes.{IsBytes};
ghost use Rattle.service_tl.specs.declared.item.Item.{Item};
ghost use Rattle.service_tl.specs.declared.item.Item.TheVariants.{Packed, Call};
ghost use Rattle.service_tl.specs.Items.{spelling_of, ItemFits, IsWritable, IsOfSchema};
ghost use Rattle.service_tl.specs.Schema.{schema, service_numbers, gzip_packed};
ghost use Rattle.service_tl.specs.Codes.{container_code, number_codes, salt_code, seq_codes};
ghost use Rattle.service_tl.specs.ItemOf.{item_of};
ghost use Rattle.service_tl.specs.Words.{IsWords, ItemIsWords};
ghost use Rattle.service_tl.specs.Exact.{behind, IsRead, IsBroken};

use crate::codes::*;
use crate::numbers::*;
use tl_codec::laws::{exact_reading, sizes_of_spellings, written_again};

/// The constants of this crate are the standard's constructor numbers, in the order of the schema.
#[tactic(auto, unfolding(crate::specs::Schema::schema, crate::specs::Schema::service_numbers))]
pub fn numbers_are_the_standards()
    ensures { service_numbers
        ≡ RPC_RESULT ∷ RPC_ERROR ∷ RPC_DROP_ANSWER ∷ RPC_ANSWER_UNKNOWN ∷ RPC_ANSWER_DROPPED_RUNNING ∷ RPC_ANSWER_DROPPED
        ∷ GET_FUTURE_SALTS ∷ FUTURE_SALTS ∷ PING ∷ PING_DELAY_DISCONNECT ∷ PONG
        ∷ DESTROY_SESSION ∷ DESTROY_SESSION_OK ∷ DESTROY_SESSION_NONE ∷ NEW_SESSION_CREATED
        ∷ MSG_CONTAINER ∷ MSGS_ACK ∷ MSGS_STATE_REQ ∷ MSGS_STATE_INFO ∷ MSGS_ALL_INFO ∷ MSG_RESEND_REQ
        ∷ MSG_DETAILED_INFO ∷ MSG_NEW_DETAILED_INFO ∷ BAD_MSG_NOTIFICATION ∷ BAD_SERVER_SALT
        ∷ INVOKE_AFTER_MSG ∷ INVOKE_AFTER_MSGS ∷ AUTH_BIND_TEMP_AUTH_KEY ∷ GZIP_PACKED ∷ [] }
{}

/// The codes of this crate are the standard's.
pub fn codes_are_the_standards()
    ensures numbers { number_codes ≡ NUMBER_TOO_LOW ∷ NUMBER_TOO_HIGH ∷ NUMBER_NOT_FOURFOLD ∷ CONTAINER_NUMBER_TAKEN ∷ FORGOTTEN ∷ [] }
    ensures seqs { seq_codes ≡ SEQ_TOO_LOW ∷ SEQ_TOO_HIGH ∷ EVEN_SEQ_EXPECTED ∷ ODD_SEQ_EXPECTED ∷ [] }
    ensures salt { salt_code ≡ WRONG_SALT }
    ensures container { container_code ≡ INVALID_CONTAINER }
{}

/// What was written of an item is that item again.
pub fn items_again()
    ensures { (item : Item) → ItemFits item → item_of (spelling_of item) ≡ item }
{
    written_again();
}

/// An item that was read of bytes is one that a writer takes, and its spelling is read again.
pub fn items_fit()
    ensures fits { (body : List ℕ) → IsBytes body → IsOfSchema (item_of body) → ItemFits (item_of body) }
    ensures writable { (item : Item) → ItemFits item → IsWritable item }
{
    written_again();
    exact_reading();
}

/// The spelling of an item is whole words of 4 bytes, as an envelope takes them, where its rest or the
/// bodies of its messages are.
pub fn items_are_words()
    ensures { (item : Item) → ItemFits item → ItemIsWords item → IsWords (spelling_of item) }
{
    sizes_of_spellings();
}

/// A body is exactly what the schema says: of each row, a text that is its fields behind its constructor is
/// that item, and one that isn't is broken; a packed body is one, and all else is a call.
pub fn items_exact()
    ensures read { AllByRecursion IsRead schema }
    ensures broken { AllByRecursion IsBroken schema }
    ensures packed { (text : List ℕ) → item_of (behind gzip_packed text) ≡ Packed }
    ensures call { (number : ℕ) (text : List ℕ) → number < 2 ^ 32 → (Contains service_numbers number → ⊥) → item_of (behind number text) ≡ Call }
    ensures short { (body : List ℕ) → length body < 4 → item_of body ≡ Call }
{
    written_again();
    exact_reading();
}
