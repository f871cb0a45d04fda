//! What a binding call binds.

ghost use Rattle.std.specs.Prelude.{◌≡◌, ℕ, ◌<◌, List, IsTrue, IfOk, IfErr, IfSome, IfNone, Ok, Err};
ghost use Rattle.temp_keys.specs.Checking.{Binds, IsFaultOf, IsPermanent, call_of, first_difference, is_temporary};
ghost use Rattle.temp_keys.specs.Messages.{Says};
ghost use Rattle.temp_keys.specs.declared.binding.Bound.{Bound};
ghost use Rattle.temp_keys.specs.declared.fault.BindFault.{BindFault};

use crate::below::seal_laws;
use crate::binding::{Binding, Bound};
use crate::fault::{BindFault, InnerField};
use crate::message::opened;
use crate::plain::Said;
use auth_keys::{AuthKey, KeyKind, Ring};
use msg_ids::Moment;

/// What a binding call binds that came at `now` under the key `temp`, in this session and with this number
/// (core.telegram.org/method/auth.bindTempAuthKey). Takes no memory.
///
/// # Errors
///
/// The first that holds. `NoPerm`: `binding.perm` is no permanent key of the ring. `Seal`: the message isn't 104 bytes
/// that begin with that identifier and decipher under that key to a text with its message key, seq 0, length 40 and an
/// inner object's constructor. `Field`: the text differs from the call, or `temp` is no temporary key of the ring.
/// `Expired`: `binding.expires` isn't above `now`.
pub fn check(
    ring: &Ring,
    now: Moment,
    temp: u64,
    session: u64,
    number: u64,
    binding: &Binding,
) -> Result<Bound, BindFault>
    ensures bound { IfOk result (Binds (call_of ring.now now temp session number binding.now)) }
    ensures fault { IfErr result (IsFaultOf (call_of ring.now now temp session number binding.now)) }
    ensures only_bound { (bound : Bound) → Binds (call_of ring.now now temp session number binding.now) bound → result ≡ Ok bound }
    ensures takes { (key : List ℕ) → IsPermanent ring.now binding.now.perm key
        → Says key binding.now.message number (record { nonce = binding.now.nonce; temp = temp; perm = binding.now.perm; session = session; expires = binding.now.expires })
        → IsTrue (is_temporary ring.now temp) → now < binding.now.expires
        → result ≡ Ok (record { temp = temp; perm = binding.now.perm; expires = binding.now.expires }) }
    ensures only_fault { (fault : BindFault) → IsFaultOf (call_of ring.now now temp session number binding.now) fault → result ≡ Err fault }
{
    seal_laws();
    answer(ring, now, temp, session, number, binding)
}

// The first cause that holds, or what is bound.
fn answer(
    ring: &Ring,
    now: Moment,
    temp: u64,
    session: u64,
    number: u64,
    binding: &Binding,
) -> Result<Bound, BindFault>
    ensures bound { IfOk result (Binds (call_of ring.now now temp session number binding.now)) }
    ensures fault { IfErr result (IsFaultOf (call_of ring.now now temp session number binding.now)) }
{
    let Some(key) = permanent(ring, binding.perm) else {
        return Err(BindFault::NoPerm);
    };
    let Some(said) = opened(key, binding.message.as_slice()) else {
        return Err(BindFault::Seal);
    };
    if let Some(which) = first_difference(ring, temp, session, number, binding, &said) {
        return Err(BindFault::Field { which });
    }
    if u64::from(binding.expires) <= now.seconds() {
        return Err(BindFault::Expired);
    }
    Ok(Bound {
        temp,
        perm: binding.perm,
        expires: binding.expires,
    })
}

// The permanent key of this identifier.
fn permanent(ring: &Ring, id: u64) -> Option<&AuthKey>
    ensures found { IfSome result (λ key. IsPermanent ring.now id key.now) }
    ensures none { IfNone result ((key : List ℕ) → IsPermanent ring.now id key → ⊥) }
{
    match ring.kind(id)? {
        KeyKind::Perm => ring.find(id),
        KeyKind::Temp { expires: _ } => None,
    }
}

// Whether a temporary key has this identifier.
fn is_temporary(ring: &Ring, id: u64) -> bool
    ensures { result ≡ is_temporary ring.now id }
{
    matches!(ring.kind(id), Some(KeyKind::Temp { expires: _ }))
}

// The first field in which the text of a message differs from its call.
#[tactic(auto, unfolding(crate::specs::Checking::first_difference))]
fn first_difference(
    ring: &Ring,
    temp: u64,
    session: u64,
    number: u64,
    binding: &Binding,
    said: &Said,
) -> Option<InnerField>
    ensures { (now : ℕ) → result ≡ first_difference (call_of ring.now now temp session number binding.now) said.now.number said.now.inner }
{
    let inner = &said.inner;
    if said.number != number {
        Some(InnerField::Number)
    } else if inner.nonce != binding.nonce {
        Some(InnerField::Nonce)
    } else if inner.temp != temp || !is_temporary(ring, temp) {
        Some(InnerField::Temp)
    } else if inner.perm != binding.perm {
        Some(InnerField::Perm)
    } else if inner.session != session {
        Some(InnerField::Session)
    } else if inner.expires != binding.expires {
        Some(InnerField::Expires)
    } else {
        None
    }
}
