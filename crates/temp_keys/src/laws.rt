//! Laws of the definitions, each the contract of a function that does nothing.

ghost use Rattle.std.specs.Prelude.{◌≡◌, ℕ, ◌<◌, List, length, IsTrue};
ghost use Rattle.temp_keys.specs.Checking.{Binds, Call, IsFaultOf, IsPermanent, bound_of, inner_of, is_temporary};
ghost use Rattle.temp_keys.specs.Messages.{Says, inner_bytes, inner_constructor, message_bytes};
ghost use Rattle.temp_keys.specs.declared.binding.Bound.{Bound};
ghost use Rattle.temp_keys.specs.declared.binding.Inner.{Inner};
ghost use Rattle.temp_keys.specs.declared.fault.BindFault.{BindFault};

use crate::below::seal_laws;
use crate::message::MESSAGE_BYTES;
use crate::plain::{BIND_AUTH_KEY_INNER, INNER_BYTES};

/// The constants of this crate are the numbers of the standard.
pub fn constants_of_the_standard()
    ensures constructor { BIND_AUTH_KEY_INNER ≡ inner_constructor }
    ensures inner_bytes { INNER_BYTES ≡ inner_bytes }
    ensures message_bytes { MESSAGE_BYTES ≡ message_bytes }
{}

/// A binding message has 104 bytes.
pub fn sizes_of_messages()
    ensures { (key message : List ℕ) (number : ℕ) (inner : Inner) → Says key message number inner → length message ≡ message_bytes }
{
    seal_laws();
}

/// A message says one number and one inner object under a key.
pub fn one_inner_object()
    ensures number { (key message : List ℕ) (number other : ℕ) (inner rest : Inner) → Says key message number inner → Says key message other rest → number ≡ other }
    ensures inner { (key message : List ℕ) (number other : ℕ) (inner rest : Inner) → Says key message number inner → Says key message other rest → inner ≡ rest }
{
    seal_laws();
}

/// A call has one answer: it binds, or it has one fault, and not both.
pub fn one_answer()
    ensures bound { (call : Call) (bound other : Bound) → Binds call bound → Binds call other → bound ≡ other }
    ensures not_both { (call : Call) (bound : Bound) (fault : BindFault) → Binds call bound → IsFaultOf call fault → ⊥ }
    ensures fault { (call : Call) (fault other : BindFault) → IsFaultOf call fault → IsFaultOf call other → fault ≡ other }
{
    seal_laws();
}

/// A call binds where its message is a binding message of its number and of what the call says, sealed under the
/// permanent key that it names, the packet's key is a temporary key of the ring, and now is below the expiry.
pub fn made_messages_bind()
    ensures { (call : Call) (key : List ℕ) → IsPermanent call.ring call.binding.perm key → Says key call.binding.message call.number (inner_of call)
        → IsTrue (is_temporary call.ring call.temp) → call.now < call.binding.expires → Binds call (bound_of call) }
{}
